// What an association does to itself: it closes, or it fails for want of memory.
ghost use Rattle.std.specs.Prelude.{[], ◌≡◌, ◌&&◌, ◌∷◌, ◌++◌, false, true, map, nat_lt, not, IfErr, IfOk, OnErr, OnOk};
ghost use Rattle.sctp_resets.specs.Telling.{is_not_finished};
ghost use Rattle.sctp_inbound.specs.Held.{has_gap};
ghost use Rattle.sctp_streams.specs.Streams.{without_streams, last_stats, some_gives_messages};
ghost use Rattle.sctp_streams.specs.declared.event.Event.TheVariants.{DataChannelStatsFinal};
ghost use Rattle.sctp_assoc.specs.Closing.{closed_by, exhausted, is_closed_state, is_exhausted, out_of_resource};
ghost use Rattle.sctp_assoc.specs.Shown.{HasFailed, all_stopped, all_waiting, answers_of};

use crate::Association;
use bytes::Bytes;
use sctp_parts::state::AssociationState;
use sctp_parts::stats::AssociationStats;
use sctp_parts::timer::{Timer, TimerTable};
use sctp_wire_queues::{
    AssociationError, Chunk, ChunkAbort, Error, ErrorCause, Event, Events, List, Side, Streams,
};
use std::alloc::{AllocError, Global};
use std::net::{IpAddr, SocketAddr};

/// The code of the error cause Out of Resource (RFC 4960 section 3.3.10).
const OUT_OF_RESOURCE: u16 = 4;

/// What the questions about an association's state, its side, its addresses and its counts answered before a call.
#[derive(Clone, Copy, Debug)]
pub(crate) struct Answers {
    pub(crate) side: Side,
    pub(crate) remote_addr: SocketAddr,
    pub(crate) local_ip: Option<IpAddr>,
    pub(crate) state: AssociationState,
    pub(crate) lost: bool,
    /// The handshake was over.
    pub(crate) completed: bool,
    pub(crate) stats: AssociationStats,
}

impl Association {
    // Closes an open association once: no timer runs on, no packet waits to go out, each live stream gets its last
    // counters, and the loss is queued last. In Closed nothing changes.
    #[tactic(auto, using(sctp_resets::proofs::FrontWaits::none_waits))]
    pub(crate) fn close_with(&mut self, reason: AssociationError) -> Result<(), AllocError>
        ensures exact { OnOk result (self.new ≡ closed_by self.old reason) }
        ensures grows { OnErr result (is_closed_state self.old.state ≡ false) }
    {
        if self.state == AssociationState::Closed {
            return Ok(());
        }
        self.state = AssociationState::Closed;
        self.lost = true;
        stop_all(&mut self.timers);
        self.control.clear();
        self.waiting_in_front = 0;
        self.resets.close();
        end_streams(&mut self.streams, &mut self.events)?;
        self.events.push(Event::AssociationLost { reason })
    }

    // Queues an event that is not Finished: those that are known to wait go on waiting.
    pub(crate) fn tell(&mut self, event: Event) -> Result<(), AllocError>
        requires { is_not_finished event ≡ true }
        ensures ok { OnOk result (self.new ≡ record self.old { events = self.old.events ++ event ∷ [] }) }
        ensures err { OnErr result (self.new ≡ self.old) }
    {
        self.events.push(event)
    }

    // Closes it by this reason. Where memory is refused it fails, and these questions answer what they answered before.
    pub(crate) fn close_or_fail(&mut self, reason: AssociationError) -> Result<(), Error>
        ensures ok { OnOk result (self.new ≡ closed_by self.old reason) }
        ensures err { IfErr result (λ e. (e ≡ Error.ErrNoMemory) × (is_closed_state self.old.state ≡ false)
            × HasFailed (answers_of self.old) self.new) }
    {
        let before = self.answers();
        if self.close_with(reason).is_err() {
            self.fail(before);
            return Err(Error::ErrNoMemory);
        }
        Ok(())
    }

    // Nothing that waits in the receive buffer can be read, and nothing more can come.
    pub(crate) fn is_exhausted(&self) -> bool
        ensures { result ≡ is_exhausted self.now }
    {
        let waiting = self.waiting_bytes();
        self.receiver.credit(waiting) == 0 && self.is_stuck()
    }

    // The same where no credit is left. It stands apart, so that DATA and reads do not pay for it where some is left.
    #[cold]
    #[inline(never)]
    fn is_stuck(&self) -> bool
        ensures { result ≡ (not (has_gap self.now.receiver.held) && nat_lt 0 (all_waiting self.now)
            && not (some_gives_messages self.now.streams)) }
    {
        !self.receiver.held.has_gap() && self.waiting_bytes() > 0 && !self.streams.gives_messages()
    }

    // The receive buffer is exhausted: an open association closes, and the peer is told by an ABORT in any state.
    pub(crate) fn exhaust(&mut self) -> Result<(), AllocError>
        ensures { OnOk result (self.new ≡ exhausted self.old) }
    {
        self.close_with(AssociationError::ReceiveBufferExhausted)?;
        let chunk = out_of_resource(self.alloc)?;
        self.queue_control(chunk)
    }

    // Marks the association failed: no timer runs on, and the questions about its state, its side, its addresses and
    // its counts go on to answer as before.
    pub(crate) fn fail(&mut self, before: Answers)
        ensures { HasFailed before self.new }
    {
        self.side = before.side;
        self.remote_addr = before.remote_addr;
        self.local_ip = before.local_ip;
        self.state = before.state;
        self.lost = before.lost;
        self.handshake.completed = before.completed;
        self.stats = before.stats;
        self.failed = true;
        stop_all(&mut self.timers);
    }

    pub(crate) fn answers(&self) -> Answers
        ensures { result ≡ answers_of self.now }
    {
        Answers {
            side: self.side,
            remote_addr: self.remote_addr,
            local_ip: self.local_ip,
            state: self.state,
            lost: self.lost,
            completed: self.handshake.completed,
            stats: self.stats,
        }
    }
}

// ABORT with the cause Out of Resource (RFC 4960 section 3.3.10.4).
fn out_of_resource(alloc: Global) -> Result<Chunk, AllocError>
    ensures { IfOk result (λ chunk. chunk ≡ out_of_resource) }
{
    let mut error_causes = List::new(alloc);
    error_causes.push(ErrorCause {
        code: OUT_OF_RESOURCE,
        value: Bytes::new(),
    })?;
    Ok(Chunk::Abort(ChunkAbort { error_causes }))
}

// Queues the last counters of each live stream, identifiers ascending, and leaves no stream.
fn end_streams(streams: &mut Streams, events: &mut Events) -> Result<(), AllocError>
    ensures ended { OnOk result (streams.new ≡ without_streams streams.old) }
    ensures finals { OnOk result (events.new ≡ events.old ++ map DataChannelStatsFinal (last_stats streams.old)) }
{
    'ending: while let Some(stats) = streams.end_first() {
        events.push(Event::DataChannelStatsFinal(stats))?;
    }
    Ok(())
}

fn stop_all(timers: &mut TimerTable)
    ensures { timers.new ≡ all_stopped timers.old }
{
    timers.stop(Timer::T1Init);
    timers.stop(Timer::T1Cookie);
    timers.stop(Timer::T2Shutdown);
    timers.stop(Timer::T3RTX);
    timers.stop(Timer::Reconfig);
    timers.stop(Timer::Ack);
}
