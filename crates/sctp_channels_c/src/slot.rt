// What C holds: the channels of one side, or none; and beside them the slot of their association.
ghost use Rattle.std.specs.Prelude.{◌≡◌, is_some, IfSome, IfNone, None, Some};
ghost use Rattle.sctp_channels_c.specs.Slots.{LacksOne};

use crate::handle::Handle;
use box_parts::Parts;
use sctp_channels::Channels;
use sctp_driver::Driver;
use sctp_slots::Slot;
use std::alloc::Global;
use std::{mem, ptr};

/// A slot of 16 bytes that C owns, for channels. All bytes 0 is the empty slot. It isn't to be copied: whoever holds it
/// holds the channels.
#[repr(C)]
#[derive(Drop)]
pub struct ChannelsSlot {
    pub handle: Handle,
    live: bool,
    ghost tied: { live ≡ is_some handle.channels },
}

const _: () = prove!(size_of::<ChannelsSlot>() == 16);

impl ChannelsSlot {
    fn empty(alloc: Global) -> ChannelsSlot
        ensures { result.handle.channels ≡ None }
    {
        let nowhere: *mut u8 = ptr::null_mut();
        let handle = Handle::empty(nowhere, alloc);
        ChannelsSlot {
            handle,
            live: false,
        }
    }

    /// Takes the channels out and leaves the slot empty; None where it is empty. Whoever takes them puts them back.
    pub(crate) fn take(&mut self, alloc: Global) -> Option<Box<Channels>>
        ensures none { IfNone result (self.old.handle.channels ≡ None) }
        ensures some { IfSome result (λ channels. self.old.handle.channels ≡ Some channels.value) }
        ensures empty { self.new.handle.channels ≡ None }
    {
        let slot = mem::replace(self, ChannelsSlot::empty(alloc));
        if slot.live {
            Some(slot.handle.into_parts().into_box())
        } else {
            None
        }
    }

    /// Puts channels in. The slot is empty before, or what it held is lost.
    pub(crate) fn put(&mut self, channels: Box<Channels>)
        ensures { self.new.handle.channels ≡ Some channels.value }
    {
        *self = ChannelsSlot {
            handle: Handle::of_parts(Parts::of(channels)),
            live: true,
        };
    }
}

/// Takes the channels and the driver out of their slots; None, with both as they were, where either is empty. Whoever
/// takes them puts them back.
// It is put into the calls, so that the two boxes are not handed on through memory.
#[inline(always)]
pub(crate) fn take_both(
    slot: &mut ChannelsSlot,
    assoc: &mut Slot,
    alloc: Global,
) -> Option<(Box<Channels>, Box<Driver>)>
    ensures none { IfNone result (LacksOne slot.old.handle.channels assoc.old.handle.driver) }
    ensures channels_left { IfNone result (slot.new.handle.channels ≡ slot.old.handle.channels) }
    ensures driver_left { IfNone result (assoc.new.handle.driver ≡ assoc.old.handle.driver) }
    ensures channels { IfSome result (λ both. slot.old.handle.channels ≡ Some both.0.value) }
    ensures driver { IfSome result (λ both. assoc.old.handle.driver ≡ Some both.1.value) }
{
    let Some(channels) = slot.take(alloc) else {
        return None;
    };
    match assoc.take(alloc) {
        Some(driver) => Some((channels, driver)),
        None => {
            slot.put(channels);
            None
        }
    }
}
