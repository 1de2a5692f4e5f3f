// Values of an association that may be read at any time.
ghost use Rattle.std.specs.Prelude.{◌≡◌, ◌*◌};
ghost use Rattle.std.specs.Duration.{as_nanos};
ghost use Rattle.sctp_wire_types.specs.Config.{is_rfc};
ghost use Rattle.sctp_outbound_queue.specs.Outbound.{outstanding_of};
ghost use Rattle.sctp_assoc.specs.Closing.{tells_exhaustion};
ghost use Rattle.sctp_assoc.specs.Silence.{awaits_completion, falls_silent, unanswered_shutdown_acks};
ghost use Rattle.sctp_outbound.specs.Sender.{cumulative_tsn_ack_point_of, window_left, marks};

use crate::Association;
use sctp_parts::state::AssociationState;
use sctp_parts::stats::AssociationStats;
use sctp_parts::timer::Timer;
use sctp_wire_queues::{AssociationError, Event, Instant, Profile, Side};
use std::net::{IpAddr, SocketAddr};
use std::time::Duration;

impl Association {
    /// The state (RFC 4960 section 4). A server that waits for its handshake is in Closed.
    pub fn state(&self) -> AssociationState
        ensures { result ≡ self.now.state }
    {
        self.state
    }

    /// What was counted since the association was made: DATA and SACK chunks that came, and expired timers (RFC 4960
    /// sections 6.2 and 6.3), and DATA chunks that were retransmitted fast (section 7.2.4).
    pub fn stats(&self) -> AssociationStats
        ensures { result ≡ self.now.counts }
    {
        self.stats
    }

    /// The rules that it keeps where `sctp-proto` and the RFCs part: those of its configuration, or of the port where
    /// that names none.
    pub fn profile(&self) -> Profile
        ensures { result ≡ self.now.profile }
    {
        self.profile
    }

    // Whether it keeps the rules of the RFCs.
    pub(crate) fn is_by_rfcs(&self) -> bool
        ensures { result ≡ is_rfc self.now.profile }
    {
        matches!(self.profile, Profile::Rfc)
    }

    /// Which side this is: a client's handshake begins with its INIT. With tokens the side with the lesser tag is the
    /// server, and with equal tags both are.
    pub fn side(&self) -> Side
        ensures { result ≡ self.now.side }
    {
        self.side
    }

    /// Whether the newest event that nobody asked for yet tells that the receive buffer was exhausted, which closed the
    /// association.
    pub fn tells_exhaustion(&self) -> bool
        ensures { result ≡ tells_exhaustion self.now }
    {
        match self.events.as_queue().back() {
            Some(event) => matches!(
                event,
                Event::AssociationLost {
                    reason: AssociationError::ReceiveBufferExhausted
                }
            ),
            None => false,
        }
    }

    /// The peer's address, as it was handed in. It stands in each `Transmit` that is given out, and is never looked at.
    pub fn remote_addr(&self) -> SocketAddr
        ensures { result ≡ self.now.remote_addr }
    {
        self.remote_addr
    }

    /// This side's address, as it was handed in. It stands in each `Transmit` that is given out, and is never looked
    /// at.
    pub fn local_ip(&self) -> Option<IpAddr>
        ensures { result ≡ self.now.local_ip }
    {
        self.local_ip
    }

    /// The payload size and 28, in bytes: a packet of one DATA chunk with the greatest payload, without padding. No
    /// packet of two DATA chunks or more is longer; a packet of the handshake, or an answer to a HEARTBEAT, may be.
    /// Headers of IP, UDP or DTLS are not counted.
    pub fn mtu(&self) -> u32
        ensures { result ≡ self.now.sender.mtu }
    {
        self.sender.mtu
    }

    /// Congestion window, in bytes (RFC 4960 section 7.2).
    pub fn cwnd(&self) -> u32
        ensures { result ≡ self.now.sender.congestion.cwnd }
    {
        self.sender.congestion.cwnd
    }

    /// Slow start threshold, in bytes: at first the receive window that the peer's token, INIT or INIT ACK said (RFC
    /// 4960 section 7.2.1); a loss changes it.
    pub fn ssthresh(&self) -> u32
        ensures { result ≡ self.now.sender.congestion.ssthresh }
    {
        self.sender.congestion.ssthresh
    }

    /// The peer's receive window, as it last said it, less the bytes in flight; 0 where these are more.
    pub fn rwnd(&self) -> u32
        ensures { result ≡ window_left self.now.sender }
    {
        self.sender.rwnd()
    }

    /// The bytes of DATA that went out and were neither acknowledged nor given up (RFC 4960 section 7.2, flight size).
    pub fn bytes_in_flight(&self) -> u64
        ensures { result ≡ outstanding_of self.now.sender.queue.in_flight }
    {
        self.sender.queue.inflight_bytes()
    }

    /// The smoothed round-trip time, in whole ms (RFC 4960 section 6.3.1); 0 before the first measurement.
    pub fn smoothed_round_trip(&self) -> Duration
        ensures { as_nanos result ≡ self.now.estimate.srtt * 1000000 }
    {
        Duration::from_millis(self.rto.get_srtt())
    }

    /// The last TSN in order, RFC 4960's cumulative TSN ack point of the receiver (section 6.2): of the TSNs that the
    /// peer sent, the last one that came in order. Before any DATA came it is the one before the peer's initial TSN, or
    /// 0 until that is known.
    pub fn peer_last_tsn(&self) -> u32
        ensures { result ≡ self.now.receiver.peer_last_tsn }
    {
        self.receiver.peer_last_tsn
    }

    /// The cumulative TSN ack point of the sender: the last TSN of this side that the peer acknowledged cumulatively
    /// (RFC 4960 section 6.2.1). Before any was it is the one before this side's initial TSN.
    pub fn cumulative_tsn_ack_point(&self) -> u32
        ensures { result ≡ cumulative_tsn_ack_point_of self.now.sender }
    {
        self.sender.cumulative_tsn_ack_point()
    }

    /// The peer's verification tag, which stands in the packets that are given out; 0 until a token, an INIT or an
    /// INIT ACK says it.
    pub fn peer_tag(&self) -> u32
        ensures { result ≡ self.now.handshake.peer_verification_tag }
    {
        self.handshake.peer_verification_tag
    }

    /// This side's SCTP port and the peer's, which stand in the packets that are given out (RFC 4960 section 3.1):
    /// those of the configuration, at a server those of the INIT that came.
    pub fn ports(&self) -> (u16, u16)
        ensures { result ≡ (self.now.handshake.source_port, self.now.handshake.destination_port) }
    {
        (self.handshake.source_port, self.handshake.destination_port)
    }

    /// On how many streams this side may send, and on how many it may receive, as far as both sides agreed so far
    /// (RFC 4960 section 5.1.1). No call enforces them.
    pub fn stream_counts(&self) -> (u16, u16)
        ensures { result ≡ (self.now.handshake.num_outbound_streams, self.now.handshake.num_inbound_streams) }
    {
        (
            self.handshake.num_outbound_streams,
            self.handshake.num_inbound_streams,
        )
    }

    /// Whether the peer lists FORWARD TSN among its extensions (RFC 3758, RFC 5061 section 4.2.7). Else no message is
    /// given up, and a FORWARD TSN that comes is answered by an ERROR.
    pub fn uses_forward_tsn(&self) -> bool
        ensures { result ≡ self.now.handshake.use_forward_tsn }
    {
        self.handshake.use_forward_tsn
    }

    /// Whether the retransmission timer marked the DATA of this TSN, and it was neither sent again since nor
    /// acknowledged. False for a TSN that is not in flight.
    pub fn is_marked(&self, tsn: u32) -> bool
        ensures { result ≡ marks self.now.sender tsn }
    {
        self.sender.is_marked(tsn)
    }

    /// Whether the retransmission timer expires for good by `now`: its retries pass `max_data_retransmits`, so that
    /// `handle_timeout` stops it and sends no DATA in flight again (RFC 4960 sections 6.3.3 and 8.1). Ask it before
    /// `handle_timeout`.
    #[tactic(auto, unfolding(crate::specs::Silence::falls_silent))]
    pub fn falls_silent(&self, now: Instant) -> bool
        ensures { result ≡ falls_silent self.now now }
    {
        let mut timers = self.timers;
        timers.is_expired(Timer::T3RTX, now).failed
    }

    /// How often the timer of the answer to SHUTDOWN ACK expired, with its expiry by `now`; 0 where it does not expire by
    /// then (RFC 4960 section 9.2). Ask it before `handle_timeout`, which sends the chunk again.
    #[tactic(auto, unfolding(crate::specs::Silence::unanswered_shutdown_acks))]
    pub fn unanswered_shutdown_acks(&self, now: Instant) -> usize
        ensures { result ≡ unanswered_shutdown_acks self.now now }
    {
        let mut timers = self.timers;
        let expiry = timers.is_expired(Timer::T2Shutdown, now);
        if self.awaits_completion() && expiry.expired {
            expiry.retries
        } else {
            0
        }
    }

    // Whether SHUTDOWN ACK waits for its answer.
    fn awaits_completion(&self) -> bool
        ensures { result ≡ awaits_completion self.now.state }
    {
        matches!(self.state, AssociationState::ShutdownAckSent)
    }
}
