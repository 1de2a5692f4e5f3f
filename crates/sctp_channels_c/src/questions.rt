// Questions about channels.
ghost use Rattle.std.specs.Prelude.{◌≡◌, ℕ, Result, Some};
ghost use Rattle.sctp_driver.specs.Streams.{asked_of, buffered_on};
ghost use Rattle.channel_table.specs.declared.error.ChannelError.{ChannelError};
ghost use Rattle.channel_table.specs.Tables.{channel_at};
ghost use Rattle.sctp_channels.specs.Channels.{Asks, SetsLowMark};
ghost use Rattle.sctp_channels_c.specs.Answers.{Answers, Copies, WritesNumber};
ghost use Rattle.sctp_channels_c.specs.Kinds.{TellsInfo, info_of, label_at, protocol_at};
ghost use Rattle.sctp_channels_c.specs.Kinds.{reliability_number, state_number, value_number};
ghost use Rattle.sctp_channels_c.specs.Slots.{OnBoth, OnChannels};

use crate::codes::{NO_CHANNEL, code_of, fault_code};
use crate::slot::{ChannelsSlot, take_both};
use sctp_channels::{Channel, ChannelError, ChannelState, Channels, Persistence};
use sctp_slots::{DONE, EMPTY_SLOT, NO_ROOM, Slot};
use std::alloc::Global;

/// What a channel is. `include/sctp_channels.h` has the numbers.
#[repr(C)]
#[derive(Drop)]
pub struct Info {
    pub reliability: u32,
    pub value: u32,
    pub state: u32,
    pub priority: u16,
    pub label_length: u16,
    pub protocol_length: u16,
    pub unordered: bool,
    pub negotiated: bool,
}

const _: () = prove!(size_of::<Info>() == 20);

fn reliability_number(persistence: Persistence) -> u32
    ensures { result ≡ reliability_number persistence }
{
    match persistence {
        Persistence::Reliable => 0,
        Persistence::Retransmits(_) => 1,
        Persistence::LifeTime(_) => 2,
    }
}

fn value_number(persistence: Persistence) -> u32
    ensures { result ≡ value_number persistence }
{
    match persistence {
        Persistence::Reliable => 0,
        Persistence::Retransmits(times) => times,
        Persistence::LifeTime(milliseconds) => milliseconds,
    }
}

fn state_number(state: ChannelState) -> u32
    ensures { result ≡ state_number state }
{
    match state {
        ChannelState::Connecting => 0,
        ChannelState::Open => 1,
        ChannelState::Closing => 2,
    }
}

fn info_of(channel: &Channel) -> Info
    ensures { result ≡ info_of channel.now }
{
    Info {
        reliability: reliability_number(channel.persistence()),
        value: value_number(channel.persistence()),
        state: state_number(channel.state()),
        priority: channel.priority(),
        label_length: channel.label_length(),
        protocol_length: channel.protocol_length(),
        unordered: !channel.is_ordered(),
        negotiated: channel.is_negotiated(),
    }
}

fn tell_info(channels: &Channels, id: u16, info: &mut Info) -> u32
    ensures { TellsInfo (channel_at channels.now.table id) result info.old info.new }
{
    match channels.channel(id) {
        Some(channel) => {
            *info = info_of(channel);
            DONE
        }
        None => NO_CHANNEL,
    }
}

/// Writes what a channel is.
#[unsafe(no_mangle)]
pub extern "C" fn sctp_channels_get_info(
    slot: &mut ChannelsSlot,
    alloc: Global,
    id: u16,
    info: &mut Info,
) -> u32
    ensures { OnChannels slot.old.handle.channels result slot.new.handle.channels
        (λ c f. (f ≡ c) × TellsInfo (channel_at c.table id) result info.old info.new) }
{
    let Some(channels) = slot.take(alloc) else {
        return EMPTY_SLOT;
    };
    let code = tell_info(&channels, id, info);
    slot.put(channels);
    code
}

// Copies bytes to the front of a buffer.
fn copy(bytes: &[u8], buffer: &mut [u8], length: &mut usize) -> u32
    ensures { Copies (Some bytes.now) result buffer.old buffer.new length.old length.new }
{
    *length = bytes.len();
    if buffer.len() < bytes.len() {
        return NO_ROOM;
    }
    buffer[..bytes.len()].copy_from_slice(bytes);
    DONE
}

fn copy_label(channels: &Channels, id: u16, buffer: &mut [u8], length: &mut usize) -> u32
    ensures { Copies (label_at (channel_at channels.now.table id)) result buffer.old buffer.new length.old length.new }
{
    match channels.channel(id) {
        Some(channel) => copy(channel.label(), buffer, length),
        None => NO_CHANNEL,
    }
}

fn copy_protocol(channels: &Channels, id: u16, buffer: &mut [u8], length: &mut usize) -> u32
    ensures { Copies (protocol_at (channel_at channels.now.table id)) result buffer.old buffer.new
        length.old length.new }
{
    match channels.channel(id) {
        Some(channel) => copy(channel.protocol(), buffer, length),
        None => NO_CHANNEL,
    }
}

/// Copies the label of a channel into a buffer.
#[unsafe(no_mangle)]
pub extern "C" fn sctp_channels_label(
    slot: &mut ChannelsSlot,
    alloc: Global,
    id: u16,
    buffer: &mut [u8],
    length: &mut usize,
) -> u32
    ensures { OnChannels slot.old.handle.channels result slot.new.handle.channels (λ c f. (f ≡ c)
        × Copies (label_at (channel_at c.table id)) result buffer.old buffer.new length.old length.new) }
{
    let Some(channels) = slot.take(alloc) else {
        return EMPTY_SLOT;
    };
    let code = copy_label(&channels, id, buffer, length);
    slot.put(channels);
    code
}

/// Copies the protocol of a channel into a buffer.
#[unsafe(no_mangle)]
pub extern "C" fn sctp_channels_protocol(
    slot: &mut ChannelsSlot,
    alloc: Global,
    id: u16,
    buffer: &mut [u8],
    length: &mut usize,
) -> u32
    ensures { OnChannels slot.old.handle.channels result slot.new.handle.channels (λ c f. (f ≡ c)
        × Copies (protocol_at (channel_at c.table id)) result buffer.old buffer.new length.old length.new) }
{
    let Some(channels) = slot.take(alloc) else {
        return EMPTY_SLOT;
    };
    let code = copy_protocol(&channels, id, buffer, length);
    slot.put(channels);
    code
}

// Writes an amount of bytes.
fn tell_bytes(answer: Result<usize, ChannelError>, bytes: &mut usize) -> u32
    ensures { WritesNumber answer result bytes.old bytes.new }
{
    match answer {
        Ok(amount) => {
            *bytes = amount;
            DONE
        }
        Err(fault) => fault_code(fault),
    }
}

/// Writes the buffered amount of a channel.
#[unsafe(no_mangle)]
#[tactic(auto, using(crate::proofs::Both::on_held, crate::proofs::Both::on_empty))]
pub extern "C" fn sctp_channels_buffered_amount(
    slot: &mut ChannelsSlot,
    alloc: Global,
    assoc: &mut Slot,
    id: u16,
    bytes: &mut usize,
) -> u32
    ensures { OnBoth slot.old.handle.channels assoc.old.handle.driver result slot.new.handle.channels
        assoc.new.handle.driver (λ c d f e. (f ≡ c) × (e ≡ d) × ((answer : Result ℕ ChannelError)
        × WritesNumber answer result bytes.old bytes.new × Asks c id (buffered_on d.association id) answer)) }
{
    let Some((channels, mut driver)) = take_both(slot, assoc, alloc) else {
        return EMPTY_SLOT;
    };
    let answer = channels.buffered_amount(&mut driver, id);
    slot.put(channels);
    assoc.put(driver);
    tell_bytes(answer, bytes)
}

/// Writes the low threshold of a channel.
#[unsafe(no_mangle)]
#[tactic(auto, using(crate::proofs::Both::on_held, crate::proofs::Both::on_empty))]
pub extern "C" fn sctp_channels_low_threshold(
    slot: &mut ChannelsSlot,
    alloc: Global,
    assoc: &mut Slot,
    id: u16,
    bytes: &mut usize,
) -> u32
    ensures { OnBoth slot.old.handle.channels assoc.old.handle.driver result slot.new.handle.channels
        assoc.new.handle.driver (λ c d f e. (f ≡ c) × (e ≡ d) × ((answer : Result ℕ ChannelError)
        × WritesNumber answer result bytes.old bytes.new
        × Asks c id (asked_of (λ s. s.low_mark) d.association id) answer)) }
{
    let Some((channels, mut driver)) = take_both(slot, assoc, alloc) else {
        return EMPTY_SLOT;
    };
    let answer = channels.buffered_amount_low_threshold(&mut driver, id);
    slot.put(channels);
    assoc.put(driver);
    tell_bytes(answer, bytes)
}

/// Sets the low threshold of a channel.
#[unsafe(no_mangle)]
#[tactic(auto, using(crate::proofs::Both::on_held, crate::proofs::Both::on_empty))]
pub extern "C" fn sctp_channels_set_low_threshold(
    slot: &mut ChannelsSlot,
    alloc: Global,
    assoc: &mut Slot,
    id: u16,
    bytes: usize,
) -> u32
    ensures { OnBoth slot.old.handle.channels assoc.old.handle.driver result slot.new.handle.channels
        assoc.new.handle.driver (λ c d f e. (f ≡ c) × Answers result
        (λ answer. SetsLowMark c id bytes d answer e)) }
{
    let Some((channels, mut driver)) = take_both(slot, assoc, alloc) else {
        return EMPTY_SLOT;
    };
    let answer = channels.set_buffered_amount_low_threshold(&mut driver, id, bytes);
    slot.put(channels);
    assoc.put(driver);
    code_of(answer)
}
