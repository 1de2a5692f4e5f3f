// A driver behind a pointer that names no type, so that C can hold it.
ghost use Rattle.std.specs.Prelude.{◌≡◌, IsSome, None, Option, Some};
ghost use Rattle.sctp_slots.specs.Handles.{driver_coded, handle_owns};
ghost use Rattle.sctp_driver.specs.Driving.{Driving};

use box_parts::Parts;
use sctp_driver::Driver;
use std::alloc::Global;
use std::marker::Model;

/// No driver, or one in a box.
#[repr(C)]
#[derive(Drop)]
pub struct Handle {
    at: *mut u8,
    alloc: Global,
    pub ghost driver: { Option Driving } by { driver_coded },
}

impl Model for Handle {
    ghost also_owns = { λ h. handle_owns h.alloc h.at h.driver };
}

impl Handle {
    /// No driver; the pointer is never followed.
    pub(crate) fn empty(at: *mut u8, alloc: Global) -> Handle
        ensures { result.driver ≡ None }
    {
        Handle { at, alloc }
    }

    /// The driver in a box that was taken apart.
    pub(crate) fn of_parts(parts: Parts<Driver, Global>) -> Handle
        ensures { result.driver ≡ Some parts.value }
    {
        let Parts { ptr, alloc } = parts;
        let at = ptr as *mut u8;
        Handle { at, alloc }
    }

    /// The parts again.
    pub(crate) fn into_parts(self) -> Parts<Driver, Global>
        requires { IsSome self.driver }
        ensures { Some result.value ≡ self.driver }
    {
        let Handle { at, alloc } = self;
        let ptr = at as *mut Driver;
        Parts { ptr, alloc }
    }
}

// As a box with a driver is.
unsafe impl Send for Handle {}
