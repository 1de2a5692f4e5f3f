// Messages of channels.
ghost use Rattle.std.specs.Prelude.{◌≡◌, Result, Some};
ghost use Rattle.sctp_assoc.specs.Calls.{with_max_send_message_size};
ghost use Rattle.sctp_driver.specs.Driving.{with_association};
ghost use Rattle.channel_table.specs.declared.error.ChannelError.{ChannelError};
ghost use Rattle.channel_table.specs.declared.payload.Received.{Received};
ghost use Rattle.channel_table.specs.Payloads.{send_limit};
ghost use Rattle.sctp_channels.specs.Receiving.{Receives};
ghost use Rattle.sctp_channels.specs.Sending.{Sends};
ghost use Rattle.sctp_channels_c.specs.Answers.{Answers, Gives};
ghost use Rattle.sctp_channels_c.specs.Kinds.{message_type};
ghost use Rattle.sctp_channels_c.specs.Slots.{OnBoth, OnDriver};

use crate::codes::{OTHER, code_of, fault_code};
use crate::slot::{ChannelsSlot, take_both};
use sctp_channels::{ChannelError, Channels, Received};
use sctp_driver::Driver;
use sctp_slots::{DONE, EMPTY_SLOT, NO_ROOM, NOTHING, Slot};
use std::alloc::Global;

/// Sets how long messages to the peer may be.
#[unsafe(no_mangle)]
pub extern "C" fn sctp_channels_set_max_message_size(
    assoc: &mut Slot,
    alloc: Global,
    bytes: u32,
) -> u32
    ensures { OnDriver assoc.old.handle.driver result assoc.new.handle.driver (λ d e. (result ≡ 0)
        × (e ≡ with_association d (with_max_send_message_size d.association (send_limit (Some bytes))))) }
{
    let Some(mut driver) = assoc.take(alloc) else {
        return EMPTY_SLOT;
    };
    Channels::set_max_message_size(&mut driver, Some(bytes));
    assoc.put(driver);
    DONE
}

fn send(
    channels: &Channels,
    driver: &mut Driver,
    id: u16,
    is_text: bool,
    message: &[u8],
) -> Result<(), ChannelError>
    ensures { Sends id (message_type is_text message.now) message.now channels.now driver.old result driver.new }
{
    if is_text {
        channels.send_text(driver, id, message)
    } else {
        channels.send_binary(driver, id, message)
    }
}

/// Accepts one message.
#[unsafe(no_mangle)]
#[tactic(auto, using(crate::proofs::Both::on_held, crate::proofs::Both::on_empty))]
pub extern "C" fn sctp_channels_send(
    slot: &mut ChannelsSlot,
    alloc: Global,
    assoc: &mut Slot,
    id: u16,
    is_text: bool,
    message: &[u8],
) -> u32
    ensures { OnBoth slot.old.handle.channels assoc.old.handle.driver result slot.new.handle.channels
        assoc.new.handle.driver (λ c d f e. (f ≡ c) × Answers result
        (λ answer. Sends id (message_type is_text message.now) message.now c d answer e)) }
{
    let Some((channels, mut driver)) = take_both(slot, assoc, alloc) else {
        return EMPTY_SLOT;
    };
    let answer = send(&channels, &mut driver, id, is_text, message);
    slot.put(channels);
    assoc.put(driver);
    code_of(answer)
}

// Writes what is known of the message that was received, or that did not fit.
#[inline(always)]
fn tell_received(
    answer: Result<Received, ChannelError>,
    length: &mut usize,
    is_text: &mut bool,
) -> u32
    ensures { Gives answer result length.old length.new is_text.old is_text.new }
{
    match answer {
        Ok(Received::Text { length: received }) => {
            *length = received;
            *is_text = true;
            DONE
        }
        Ok(Received::Binary { length: received }) => {
            *length = received;
            *is_text = false;
            DONE
        }
        Ok(Received::Other { length: received }) => {
            *length = received;
            OTHER
        }
        Ok(Received::Nothing) => NOTHING,
        Ok(Received::NoRoom { length: wanted }) => {
            *length = wanted;
            NO_ROOM
        }
        Err(fault) => fault_code(fault),
    }
}

/// Copies the next message of a channel into a buffer.
#[unsafe(no_mangle)]
#[tactic(auto, using(crate::proofs::Both::on_held, crate::proofs::Both::on_empty))]
pub extern "C" fn sctp_channels_receive(
    slot: &mut ChannelsSlot,
    alloc: Global,
    assoc: &mut Slot,
    id: u16,
    buffer: &mut [u8],
    length: &mut usize,
    is_text: &mut bool,
) -> u32
    ensures { OnBoth slot.old.handle.channels assoc.old.handle.driver result slot.new.handle.channels
        assoc.new.handle.driver (λ c d f e. (answer : Result Received ChannelError)
        × Gives answer result length.old length.new is_text.old is_text.new
        × Receives id c d buffer.old answer f e buffer.new) }
{
    let Some((mut channels, mut driver)) = take_both(slot, assoc, alloc) else {
        return EMPTY_SLOT;
    };
    let answer = channels.receive(&mut driver, id, buffer);
    slot.put(channels);
    assoc.put(driver);
    tell_received(answer, length, is_text)
}
