// How the channels of a side begin and end.
ghost use Rattle.std.specs.Prelude.{◌≡◌, ◌⊎◌, ◌≢◌, true, false, None, Some};
ghost use Rattle.sctp_channels.specs.Channels.{no_channels};
ghost use Rattle.sctp_channels_c.specs.Kinds.{names_role, role_by};
ghost use Rattle.sctp_channels_c.specs.Slots.{OnChannels};

use crate::slot::ChannelsSlot;
use sctp_channels::{Channels, Role};
use sctp_slots::{DONE, EMPTY_SLOT, NO_MEMORY};
use std::alloc::Global;

/// A role has no name.
const BAD_ROLE: u32 = 70;

fn names_role(number: u32) -> bool
    ensures { result ≡ names_role number }
{
    number < 2
}

fn role_of(number: u32) -> Role
    ensures { result ≡ role_by number }
{
    if number == 0 {
        Role::Client
    } else {
        Role::Server
    }
}

/// Puts a side without a channel into the slot.
#[unsafe(no_mangle)]
pub extern "C" fn sctp_channels_begin(slot: &mut ChannelsSlot, alloc: Global, role: u32) -> u32
    ensures unnamed { names_role role ≡ false → result ≡ 70 }
    ensures code { names_role role ≡ true → (result ≡ 0) ⊎ (result ≡ 2) }
    ensures begun { result ≡ 0 → slot.new.handle.channels ≡ Some (no_channels (role_by role)) }
    ensures left { result ≢ 0 → slot.new.handle.channels ≡ slot.old.handle.channels }
{
    if !names_role(role) {
        return BAD_ROLE;
    }
    match Box::new(alloc, Channels::new(alloc, role_of(role))) {
        Ok(channels) => {
            drop(slot.take(alloc));
            slot.put(channels);
            DONE
        }
        Err(_) => NO_MEMORY,
    }
}

/// Frees the channels.
#[unsafe(no_mangle)]
pub extern "C" fn sctp_channels_free(slot: &mut ChannelsSlot, alloc: Global) -> u32
    ensures empty { slot.new.handle.channels ≡ None }
    ensures none { slot.old.handle.channels ≡ None → result ≡ 1 }
    ensures done { slot.old.handle.channels ≢ None → result ≡ 0 }
{
    match slot.take(alloc) {
        Some(channels) => {
            drop(channels);
            DONE
        }
        None => EMPTY_SLOT,
    }
}
