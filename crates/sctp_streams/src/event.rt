// Events that an application asks for.
ghost use Rattle.std.specs.Prelude.{◌≡◌, [], ◌∷◌, ◌++◌, ◌<◌, ◌≤◌, OnOk, OnErr, option_to_list, slice_get};
ghost use Rattle.std.specs.Prelude.{IsSome, length, ◌↔◌, not, remove};
ghost use Rattle.std.specs.List.{filter};
ghost use Rattle.sctp_streams.specs.declared.event.AssociationError.TheVariants.{HandshakeFailed};
ghost use Rattle.sctp_streams.specs.Events.{is_told_of};

use crate::DataChannelStats;
use sctp_wire_types::{Error, StreamEvent, StreamId};
use std::alloc::{AllocError, Global};
use std::collections::VecDeque;
use std::marker::Model;
use thiserror::Error as ThisError;

/// Why an association was lost or never came about. So far three are told: `HandshakeFailed`, whose error is
/// `ErrHandshakeInitAck` or `ErrHandshakeCookieEcho`; `ReceiveBufferExhausted`, where nothing that waits in a full
/// receive buffer can ever be read; and `AssociationClosed`, for every other fault that closes an association and for
/// `Association::close`, whatever its text says. The others are those of the ported crate.
#[derive(Clone, Copy, Debug, PartialEq, ThisError)]
pub enum AssociationError {
    #[error("{0}")]
    HandshakeFailed(Error),
    #[error("transport error")]
    TransportError,
    #[error("receive buffer exhausted during message reassembly")]
    ReceiveBufferExhausted,
    #[error("aborted by peer")]
    AssociationClosed,
    #[error("closed by peer")]
    ApplicationClosed,
    #[error("reset by peer")]
    Reset,
    #[error("timed out")]
    TimedOut,
    #[error("closed")]
    LocallyClosed,
}

impl From<Error> for AssociationError {
    ghost from_gives = { λ fault e. e ≡ HandshakeFailed fault };

    fn from(fault: Error) -> AssociationError {
        AssociationError::HandshakeFailed(fault)
    }
}

/// What happened to an association, as `Association::poll` tells it.
#[derive(Clone, Copy, Debug, PartialEq)]
pub enum Event {
    /// The association is established (RFC 4960 section 5.1): messages can be written from now on.
    Connected,
    /// INIT or COOKIE ECHO was not answered, and its retries passed `max_init_retransmits`.
    HandshakeFailed { reason: AssociationError },
    /// The association was closed by a fault, by its application, or by the end of a shutdown.
    AssociationLost { reason: AssociationError },
    /// Something happened on a stream.
    Stream(StreamEvent),
    /// The last counters of a stream generation that ended.
    DataChannelStatsFinal(DataChannelStats),
    /// DATA was taken in; told once for each such chunk.
    DatagramReceived,
}

/// The events that nobody asked for yet, oldest first.
#[derive(Debug, Drop)]
pub struct Events {
    queue: VecDeque<Event>,
}

impl Model for Events {
    ghost use Rattle.std.specs.Prelude.{List};
    ghost use Rattle.sctp_streams.specs.declared.event.Event.{Event};

    ghost Value = { List Event };

    ghost view = { λ e. e.queue.items };
}

impl Events {
    /// No event; takes no memory.
    pub fn new(alloc: Global) -> Self
        ensures { result ≡ [] }
    {
        Events {
            queue: VecDeque::new(alloc),
        }
    }

    /// Adds an event as the newest.
    pub fn push(&mut self, event: Event) -> Result<(), AllocError>
        ensures ok { OnOk result (self.new ≡ self.old ++ event ∷ []) }
        ensures err { OnErr result (self.new ≡ self.old) }
    {
        self.queue.push_back(event)?;
        Ok(())
    }

    /// Takes out the oldest event.
    pub fn pop(&mut self) -> Option<Event>
        ensures oldest { result ≡ slice_get self.old 0 }
        ensures rest { self.old ≡ option_to_list result ++ self.new }
    {
        self.queue.pop_front()
    }

    /// Takes out the event at an index, the oldest at 0; None where there is none at it. Moves the events of the
    /// shorter side.
    pub fn take(&mut self, index: usize) -> Option<Event>
        ensures taken { result ≡ slice_get self.old index }
        ensures rest { self.new ≡ remove self.old index }
    {
        self.queue.remove(index)
    }

    /// The events, oldest first.
    pub fn as_queue(&self) -> &VecDeque<Event>
        ensures { result.now.items ≡ self.now }
    {
        &self.queue
    }

    /// Tells no more that a stream was opened and that it can be read. Goes over all events.
    pub fn untell(&mut self, id: StreamId)
        ensures { self.new ≡ filter (λ e. not (is_told_of id e)) self.old }
    {
        drop_told(&mut self.queue, id);
    }

    /// Takes out the newest event, so that a push is undone by it.
    pub fn take_back(&mut self) -> Option<Event>
        ensures newest { self.old ≡ self.new ++ option_to_list result }
        ensures some { IsSome result ↔ (0 < length self.old) }
    {
        self.queue.pop_back()
    }
}

fn drop_told(queue: &mut VecDeque<Event>, id: StreamId)
    ensures { queue.new.items ≡ filter (λ e. not (is_told_of id e)) queue.old.items }
{
    queue.retain(|event| !is_told_of(*event, id));
}

// Whether an event says that a stream was opened or can be read.
fn is_told_of(event: Event, id: StreamId) -> bool
    ensures { result ≡ is_told_of id event }
{
    match event {
        Event::Stream(StreamEvent::Opened { id: of }) => of == id,
        Event::Stream(StreamEvent::Readable { id: of }) => of == id,
        _ => false,
    }
}
