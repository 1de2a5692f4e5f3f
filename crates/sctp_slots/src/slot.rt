// What C holds: a driver, or none.
ghost use Rattle.std.specs.Prelude.{◌≡◌, is_some, IfSome, IfNone, None, Some};

use crate::handle::Handle;
use box_parts::Parts;
use sctp_driver::Driver;
use std::alloc::Global;
use std::{mem, ptr};

/// A slot of 16 bytes that C owns. All bytes 0 is the empty slot. It isn't to be copied: whoever holds it holds the
/// driver.
#[repr(C)]
#[derive(Drop)]
pub struct Slot {
    pub handle: Handle,
    live: bool,
    ghost tied: { live ≡ is_some handle.driver },
}

const _: () = prove!(size_of::<Slot>() == 16);

impl Slot {
    fn empty(alloc: Global) -> Slot
        ensures { result.handle.driver ≡ None }
    {
        let nowhere: *mut u8 = ptr::null_mut();
        let handle = Handle::empty(nowhere, alloc);
        Slot {
            handle,
            live: false,
        }
    }

    /// Takes the driver out and leaves the slot empty; None where it is empty. Whoever takes it puts it back.
    pub fn take(&mut self, alloc: Global) -> Option<Box<Driver>>
        ensures none { IfNone result (self.old.handle.driver ≡ None) }
        ensures some { IfSome result (λ driver. self.old.handle.driver ≡ Some driver.value) }
        ensures empty { self.new.handle.driver ≡ None }
    {
        let slot = mem::replace(self, Slot::empty(alloc));
        if slot.live {
            Some(slot.handle.into_parts().into_box())
        } else {
            None
        }
    }

    /// Puts a driver in. The slot is empty before, or what it held is lost.
    pub fn put(&mut self, driver: Box<Driver>)
        ensures { self.new.handle.driver ≡ Some driver.value }
    {
        *self = Slot {
            handle: Handle::of_parts(Parts::of(driver)),
            live: true,
        };
    }
}
