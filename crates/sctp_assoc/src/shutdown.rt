// The graceful end of an association (RFC 4960 section 9.2): what waits is sent and acknowledged first, and then both
// sides agree by SHUTDOWN, SHUTDOWN ACK and SHUTDOWN COMPLETE.
ghost use Rattle.std.specs.Prelude.{◌≡◌, ◌++◌, true, OnErr, OnOk};
ghost use Rattle.sctp_wire_types.specs.declared.chunk.Chunk.TheVariants as chunks;
ghost use Rattle.sctp_wire.specs.Packets.{packet_is_plain};
ghost use Rattle.sctp_inbound.specs.Handshake.{header_of};
ghost use Rattle.sctp_assoc.specs.Calls.{exchanges_data, sends_data};
ghost use Rattle.sctp_assoc.specs.Gather.{IsReadAgain, ShutdownIsReadAgain, after_both, shutdown_packet};
ghost use Rattle.sctp_assoc.specs.Gather.{shutdown_polled, single_chunk_packet, with_complete_given};
ghost use Rattle.sctp_assoc.specs.Shutdown.{after_t2_shutdown, gives_shutdown, nothing_due, on_shutdown};
ghost use Rattle.sctp_assoc.specs.Shutdown.{on_shutdown_ack, on_shutdown_complete, shutdown_again, shutdown_continued};
ghost use Rattle.sctp_assoc.specs.Shutdown.{with_t2_started};

use crate::Association;
use crate::gather::put_packet;
use crate::inbound::Flow;
use bytes::Bytes;
use sctp_inbound::AckTrigger;
use sctp_parts::state::AssociationState;
use sctp_parts::timer::Timer;
use sctp_wire_queues::{AssociationError, Chunk, Instant};
use std::alloc::AllocError;

/// Which chunks of a graceful end are due. A poll gives the first of them, in this order.
#[derive(Clone, Copy, Debug)]
pub struct ShutdownDue {
    pub(crate) shutdown: bool,
    pub(crate) shutdown_ack: bool,
    pub(crate) shutdown_complete: bool,
}

impl ShutdownDue {
    pub(crate) fn nothing() -> Self
        ensures { result ≡ nothing_due }
    {
        ShutdownDue {
            shutdown: false,
            shutdown_ack: false,
            shutdown_complete: false,
        }
    }
}

impl Association {
    // Whether DATA of this side may wait or be unacknowledged: new DATA is sent then, and SACKs are read.
    pub(crate) fn sends_data(&self) -> bool
        ensures { result ≡ sends_data self.now.state }
    {
        matches!(
            self.state,
            AssociationState::Established
                | AssociationState::ShutdownPending
                | AssociationState::ShutdownReceived
        )
    }

    // Whether DATA goes again and what came is acknowledged: this is so also while the peer is to say that it has
    // nothing left to send.
    pub(crate) fn exchanges_data(&self) -> bool
        ensures { result ≡ exchanges_data self.now.state }
    {
        self.sends_data() || self.state == AssociationState::ShutdownSent
    }

    // A shutdown that waited for the acknowledgement of all DATA goes on where nothing waits and nothing is in flight
    // any more: SHUTDOWN is due, or in answer to the peer's SHUTDOWN ACK.
    pub(crate) fn continue_shutdown(&mut self)
        ensures { self.new ≡ shutdown_continued self.old }
    {
        if !self.sender.queue.is_empty() {
            return;
        }
        match self.state {
            AssociationState::ShutdownPending => {
                self.state = AssociationState::ShutdownSent;
                self.shutdown_due.shutdown = true;
            }
            AssociationState::ShutdownReceived => {
                self.state = AssociationState::ShutdownAckSent;
                self.shutdown_due.shutdown_ack = true;
            }
            _ => {}
        }
    }

    // SHUTDOWN: the peer has nothing left to send. This side answers once it has nothing left either; in ShutdownSent
    // that is so already. The cumulative TSN ack of the chunk is left to the SACKs.
    pub(crate) fn on_shutdown(&mut self, trigger: AckTrigger) -> Flow
        ensures { on_shutdown self.old trigger ≡ (self.new, result) }
    {
        match self.state {
            AssociationState::Established => {
                self.state = AssociationState::ShutdownReceived;
                self.continue_shutdown();
            }
            AssociationState::ShutdownSent => {
                self.state = AssociationState::ShutdownAckSent;
                self.shutdown_due.shutdown_ack = true;
            }
            _ => {}
        }
        Flow::Next(trigger)
    }

    // SHUTDOWN ACK: neither side has anything left to send. SHUTDOWN COMPLETE is due, and the timer of an answer stops.
    // A SHUTDOWN or SHUTDOWN ACK that is due already still goes out first, and starts it anew.
    pub(crate) fn on_shutdown_ack(&mut self, trigger: AckTrigger) -> Flow
        ensures { on_shutdown_ack self.old trigger ≡ (self.new, result) }
    {
        if matches!(
            self.state,
            AssociationState::ShutdownSent | AssociationState::ShutdownAckSent
        ) {
            self.timers.stop(Timer::T2Shutdown);
            self.shutdown_due.shutdown_complete = true;
        }
        Flow::Next(trigger)
    }

    // SHUTDOWN COMPLETE: the peer closed; what it answers, SHUTDOWN ACK, was given out in ShutdownAckSent alone.
    pub(crate) fn on_shutdown_complete(&self, trigger: AckTrigger) -> Flow
        ensures { result ≡ on_shutdown_complete self.now.state trigger }
    {
        if self.state == AssociationState::ShutdownAckSent {
            return Flow::Closed;
        }
        Flow::Next(trigger)
    }

    // SHUTDOWN or SHUTDOWN ACK was not answered in time: it goes out again, without a limit.
    pub(crate) fn on_t2_shutdown(&mut self, now: Instant)
        ensures { self.new ≡ after_t2_shutdown self.old now }
    {
        let expiry = self.timers.is_expired(Timer::T2Shutdown, now);
        if expiry.expired {
            self.timers.set(Timer::T2Shutdown, None);
            self.ask_again();
            self.start_t2_shutdown(now);
        }
    }

    // SHUTDOWN or SHUTDOWN ACK goes out again where it waits for its answer.
    pub(crate) fn ask_again(&mut self)
        ensures { self.new ≡ shutdown_again self.old }
    {
        match self.state {
            AssociationState::ShutdownSent => self.shutdown_due.shutdown = true,
            AssociationState::ShutdownAckSent => self.shutdown_due.shutdown_ack = true,
            _ => {}
        }
    }

    fn start_t2_shutdown(&mut self, now: Instant)
        ensures { self.new ≡ with_t2_started self.old now }
    {
        let rto = self.rto.get_rto();
        self.timers.start(Timer::T2Shutdown, now, rto);
    }

    // The first chunk of a shutdown that is due, in a packet of its own. The timer of the answer runs from SHUTDOWN and
    // from SHUTDOWN ACK; SHUTDOWN COMPLETE closes this side.
    #[tactic(auto, unfolding(crate::specs::Gather::shutdown_polled))]
    pub(crate) fn gather_shutdown(
        &mut self,
        packets: &mut Vec<Bytes>,
        now: Instant,
    ) -> Result<(), AllocError>
        ensures exact { OnOk result
            (after_both packets.old.items (shutdown_polled self.old now) ≡ (self.new, packets.new.items)) }
        ensures again { OnOk result (ShutdownIsReadAgain self.old) }
        ensures grows { OnErr result (gives_shutdown self.old ≡ true) }
    {
        if !self.state.is_closing() {
            return Ok(());
        }
        if self.shutdown_due.shutdown {
            self.shutdown_due.shutdown = false;
            self.start_t2_shutdown(now);
            let cumulative_tsn_ack = self.receiver.peer_last_tsn;
            self.put_shutdown(packets, Chunk::Shutdown(cumulative_tsn_ack))
        } else if self.shutdown_due.shutdown_ack {
            self.shutdown_due.shutdown_ack = false;
            self.start_t2_shutdown(now);
            self.put_shutdown(packets, Chunk::ShutdownAck)
        } else if self.shutdown_due.shutdown_complete {
            self.complete_shutdown(packets)
        } else {
            Ok(())
        }
    }

    fn complete_shutdown(&mut self, packets: &mut Vec<Bytes>) -> Result<(), AllocError>
        ensures exact { OnOk result
            (after_both packets.old.items (with_complete_given self.old) ≡ (self.new, packets.new.items)) }
        ensures again { OnOk result (IsReadAgain (header_of self.old.handshake) chunks.ShutdownComplete) }
    {
        self.shutdown_due.shutdown_complete = false;
        self.put_shutdown(packets, Chunk::ShutdownComplete)?;
        self.close_with(AssociationError::AssociationClosed)
    }

    fn put_shutdown(&self, packets: &mut Vec<Bytes>, chunk: Chunk) -> Result<(), AllocError>
        ensures exact { OnOk result (packets.new.items ≡ packets.old.items ++ shutdown_packet self.now chunk) }
        ensures again { OnOk result (packet_is_plain (single_chunk_packet (header_of self.now.handshake) chunk) ≡ true
            → IsReadAgain (header_of self.now.handshake) chunk) }
    {
        put_packet(packets, self.alloc, self.handshake.header(), chunk)
    }
}
