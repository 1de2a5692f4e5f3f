// Channels behind a pointer that names no type, so that C can hold them.
ghost use Rattle.std.specs.Prelude.{◌≡◌, IsSome, None, Option, Some};
ghost use Rattle.sctp_channels.specs.Channels.{ChannelsView};
ghost use Rattle.sctp_channels_c.specs.Handles.{channels_coded, handle_owns};

use box_parts::Parts;
use sctp_channels::Channels;
use std::alloc::Global;
use std::marker::Model;

/// No channels, or those of one side in a box.
#[repr(C)]
#[derive(Drop)]
pub struct Handle {
    at: *mut u8,
    alloc: Global,
    pub ghost channels: { Option ChannelsView } by { channels_coded },
}

impl Model for Handle {
    ghost also_owns = { λ h. handle_owns h.alloc h.at h.channels };
}

impl Handle {
    /// No channels; the pointer is never followed.
    pub(crate) fn empty(at: *mut u8, alloc: Global) -> Handle
        ensures { result.channels ≡ None }
    {
        Handle { at, alloc }
    }

    /// The channels in a box that was taken apart.
    pub(crate) fn of_parts(parts: Parts<Channels, Global>) -> Handle
        ensures { result.channels ≡ Some parts.value }
    {
        let Parts { ptr, alloc } = parts;
        let at = ptr as *mut u8;
        Handle { at, alloc }
    }

    /// The parts again.
    pub(crate) fn into_parts(self) -> Parts<Channels, Global>
        requires { IsSome self.channels }
        ensures { Some result.value ≡ self.channels }
    {
        let Handle { at, alloc } = self;
        let ptr = at as *mut Channels;
        Parts { ptr, alloc }
    }
}

// As a box with channels is.
unsafe impl Send for Handle {}
