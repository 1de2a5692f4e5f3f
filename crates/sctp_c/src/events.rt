// Events, as a plain struct.
ghost use Rattle.std.specs.Prelude.{◌≡◌, ◌≢◌, None};
ghost use Rattle.sctp_streams.specs.declared.event.Event.TheVariants as events;
ghost use Rattle.sctp_assoc.specs.Calls.{event_polled};
ghost use Rattle.sctp_assoc.specs.Shutdown.{endpoint_event_polled};
ghost use Rattle.sctp_driver.specs.Driving.{with_association};
ghost use Rattle.sctp_c.specs.Codes.{endpoint_event_by};
ghost use Rattle.sctp_c.specs.Events.{counters_of, event_with, failure_number, happening};
ghost use Rattle.sctp_c.specs.Events.{told_of, Tells};
ghost use Rattle.sctp_c.specs.Slots.{OnAny};

use sctp_assoc::{DataChannelStats, StreamResetError};
use sctp_driver::{EndpointEvent, Event, StreamEvent};
use sctp_slots::{DONE, EMPTY_SLOT, NOTHING, Slot, reason_of, refusal_code};
use std::alloc::Global;

/// What a stream counted.
#[repr(C)]
#[derive(Drop)]
pub struct Counters {
    pub messages_sent: u64,
    pub bytes_sent: u64,
    pub messages_received: u64,
    pub bytes_received: u64,
}

const _: () = prove!(size_of::<Counters>() == 32);

/// An event. `include/sctp_assoc.h` has the numbers of kinds and reasons.
#[repr(C)]
#[derive(Drop)]
pub struct Told {
    pub kind: u32,
    pub reason: u32,
    pub stream: u16,
    pub counters: Counters,
}

const _: () = prove!(size_of::<Told>() == 48);

const CONNECTED: u32 = 1;

const HANDSHAKE_FAILED: u32 = 2;

const LOST: u32 = 3;

const DATAGRAM_RECEIVED: u32 = 4;

const STREAM_ENDED: u32 = 5;

const OPENED: u32 = 6;

const READABLE: u32 = 7;

const BUFFERED_LOW: u32 = 8;

const BUFFERED_HIGH: u32 = 9;

const FINISHED: u32 = 10;

const RESET_COMPLETE: u32 = 11;

const RESET_FAILED: u32 = 12;

const OTHER: u32 = 13;

const NO_REASON: u32 = 0;

const RESET_DENIED: u32 = 6;

const RESET_FAILED_OTHERWISE: u32 = 7;

fn failure_of(failure: StreamResetError) -> u32
    ensures { result ≡ failure_number failure }
{
    match failure {
        StreamResetError::Denied => RESET_DENIED,
        StreamResetError::Failed => RESET_FAILED_OTHERWISE,
    }
}

fn event_of(kind: u32, reason: u32, stream: u16) -> Told
    ensures { result ≡ event_with kind reason stream }
{
    Told {
        kind,
        reason,
        stream,
        counters: Counters {
            messages_sent: 0,
            bytes_sent: 0,
            messages_received: 0,
            bytes_received: 0,
        },
    }
}

/// The counters of a stream.
pub(crate) fn counters_of(stats: DataChannelStats) -> Counters
    ensures { result ≡ counters_of stats }
{
    Counters {
        messages_sent: stats.messages_sent,
        bytes_sent: stats.bytes_sent,
        messages_received: stats.messages_received,
        bytes_received: stats.bytes_received,
    }
}

fn end_of(stats: DataChannelStats) -> Told
    ensures { result ≡ told_of (events.DataChannelStatsFinal stats) }
{
    Told {
        kind: STREAM_ENDED,
        reason: NO_REASON,
        stream: stats.stream_identifier,
        counters: counters_of(stats),
    }
}

fn stream_event(event: StreamEvent) -> Told
    ensures { result ≡ happening event }
{
    match event {
        StreamEvent::Opened { id } => event_of(OPENED, NO_REASON, id),
        StreamEvent::Readable { id } => event_of(READABLE, NO_REASON, id),
        StreamEvent::BufferedAmountLow { id } => event_of(BUFFERED_LOW, NO_REASON, id),
        StreamEvent::BufferedAmountHigh { id } => event_of(BUFFERED_HIGH, NO_REASON, id),
        StreamEvent::Finished { id } => event_of(FINISHED, NO_REASON, id),
        StreamEvent::ResetComplete { id } => event_of(RESET_COMPLETE, NO_REASON, id),
        StreamEvent::ResetFailed { id, reason } => event_of(RESET_FAILED, failure_of(reason), id),
        _ => event_of(OTHER, NO_REASON, 0),
    }
}

fn written(event: Event) -> Told
    ensures { result ≡ told_of event }
{
    match event {
        Event::Connected => event_of(CONNECTED, NO_REASON, 0),
        Event::HandshakeFailed { reason } => event_of(HANDSHAKE_FAILED, reason_of(reason), 0),
        Event::AssociationLost { reason } => event_of(LOST, reason_of(reason), 0),
        Event::DatagramReceived => event_of(DATAGRAM_RECEIVED, NO_REASON, 0),
        Event::DataChannelStatsFinal(stats) => end_of(stats),
        Event::Stream(of_stream) => stream_event(of_stream),
    }
}

/// Takes out the oldest event.
#[unsafe(no_mangle)]
pub extern "C" fn sctp_assoc_poll_event(slot: &mut Slot, alloc: Global, event: &mut Told) -> u32
    ensures given { result ≢ 10 → OnAny slot.old.handle.driver slot.new.handle.driver
        (λ d e. (e.association ≡ (event_polled d.association).0)
        × Tells ((event_polled d.association).1) result event.old event.new) }
    ensures others { OnAny slot.old.handle.driver slot.new.handle.driver
        (λ d e. e ≡ with_association d e.association) }
    ensures empty { slot.old.handle.driver ≡ None → result ≡ 1 }
    ensures refused { result ≡ 10 → slot.new.handle.driver ≡ slot.old.handle.driver }
{
    let Some(mut driver) = slot.take(alloc) else {
        return EMPTY_SLOT;
    };
    let answer = driver.poll_event();
    slot.put(driver);
    match answer {
        Ok(Some(oldest)) => {
            *event = written(oldest);
            DONE
        }
        Ok(None) => NOTHING,
        Err(error) => refusal_code(error),
    }
}

// There is one event of this kind alone.
#[tactic(auto, using(crate::proofs::EndpointEvents::drained_alone))]
fn code_of_endpoint_event(event: Option<EndpointEvent>) -> u32
    ensures { endpoint_event_by result ≡ event }
{
    match event {
        Some(_) => DONE,
        None => NOTHING,
    }
}

/// Tells once that a shutdown began here.
#[unsafe(no_mangle)]
pub extern "C" fn sctp_assoc_poll_endpoint_event(slot: &mut Slot, alloc: Global) -> u32
    ensures told { OnAny slot.old.handle.driver slot.new.handle.driver (λ d e. endpoint_event_polled d.association
        ≡ (e.association, endpoint_event_by result)) }
    ensures others { OnAny slot.old.handle.driver slot.new.handle.driver
        (λ d e. e ≡ with_association d e.association) }
    ensures empty { slot.old.handle.driver ≡ None → result ≡ 1 }
{
    let Some(mut driver) = slot.take(alloc) else {
        return EMPTY_SLOT;
    };
    let event = driver.poll_endpoint_event();
    slot.put(driver);
    code_of_endpoint_event(event)
}
