// Events of channels, as a plain struct.
ghost use Rattle.std.specs.Prelude.{◌≡◌, Option, Result};
ghost use Rattle.channel_table.specs.declared.error.ChannelError.{ChannelError};
ghost use Rattle.sctp_channels.specs.declared.event.ChannelEvent.{ChannelEvent};
ghost use Rattle.sctp_channels_c.specs.Events.{Tells, event_with, told_of};
ghost use Rattle.sctp_channels_c.specs.Polls.{Polls};
ghost use Rattle.sctp_channels_c.specs.Slots.{OnBoth};

use crate::codes::fault_code;
use crate::slot::{ChannelsSlot, take_both};
use sctp_channels::{ChannelError, ChannelEvent, Channels};
use sctp_driver::Driver;
use sctp_slots::{DONE, EMPTY_SLOT, NOTHING, Slot, reason_of};
use std::alloc::Global;

/// An event. `include/sctp_channels.h` has the numbers of kinds.
#[repr(C)]
#[derive(Drop)]
pub struct Told {
    pub kind: u32,
    pub reason: u32,
    pub id: u16,
}

const _: () = prove!(size_of::<Told>() == 12);

const CONNECTED: u32 = 1;

const ANNOUNCED: u32 = 2;

const OPENED: u32 = 3;

const MESSAGE: u32 = 4;

const BUFFERED_LOW: u32 = 5;

const CLOSED: u32 = 6;

const FAILED: u32 = 7;

const LOST: u32 = 8;

const HANDSHAKE_FAILED: u32 = 9;

const NO_REASON: u32 = 0;

fn event_of(kind: u32, reason: u32, id: u16) -> Told
    ensures { result ≡ event_with kind reason id }
{
    Told { kind, reason, id }
}

fn written(event: ChannelEvent) -> Told
    ensures { result ≡ told_of event }
{
    match event {
        ChannelEvent::Connected => event_of(CONNECTED, NO_REASON, 0),
        ChannelEvent::Announced(id) => event_of(ANNOUNCED, NO_REASON, id),
        ChannelEvent::Opened(id) => event_of(OPENED, NO_REASON, id),
        ChannelEvent::Message(id) => event_of(MESSAGE, NO_REASON, id),
        ChannelEvent::BufferedLow(id) => event_of(BUFFERED_LOW, NO_REASON, id),
        ChannelEvent::Closed(id) => event_of(CLOSED, NO_REASON, id),
        ChannelEvent::Failed(id) => event_of(FAILED, NO_REASON, id),
        ChannelEvent::Lost(reason) => event_of(LOST, reason_of(reason), 0),
        ChannelEvent::HandshakeFailed(reason) => event_of(HANDSHAKE_FAILED, reason_of(reason), 0),
    }
}

#[tactic(auto, using(crate::proofs::Polled::polls))]
fn poll(channels: &mut Channels, driver: &mut Driver) -> Result<Option<ChannelEvent>, ChannelError>
    ensures { Polls result channels.old channels.new driver.new }
{
    channels.poll_event(driver)
}

// Writes an event that waited.
fn tell_event(answer: Result<Option<ChannelEvent>, ChannelError>, event: &mut Told) -> u32
    ensures { Tells answer result event.old event.new }
{
    match answer {
        Ok(Some(next)) => {
            *event = written(next);
            DONE
        }
        Ok(None) => NOTHING,
        Err(fault) => fault_code(fault),
    }
}

/// Takes out the next event.
#[unsafe(no_mangle)]
#[tactic(auto, using(crate::proofs::Both::on_held, crate::proofs::Both::on_empty))]
pub extern "C" fn sctp_channels_poll_event(
    slot: &mut ChannelsSlot,
    alloc: Global,
    assoc: &mut Slot,
    event: &mut Told,
) -> u32
    ensures { OnBoth slot.old.handle.channels assoc.old.handle.driver result slot.new.handle.channels
        assoc.new.handle.driver (λ c d f e. (answer : Result (Option ChannelEvent) ChannelError)
        × Tells answer result event.old event.new × Polls answer c f e) }
{
    let Some((mut channels, mut driver)) = take_both(slot, assoc, alloc) else {
        return EMPTY_SLOT;
    };
    let answer = poll(&mut channels, &mut driver);
    slot.put(channels);
    assoc.put(driver);
    tell_event(answer, event)
}
