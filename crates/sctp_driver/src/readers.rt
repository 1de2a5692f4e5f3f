// What can be asked at any time, and changes nothing.
ghost use Rattle.std.specs.Prelude.{◌≡◌, ◌-◌, ◌^◌, min};
ghost use Rattle.sctp_parts.specs.State.{is_closing};
ghost use Rattle.sctp_assoc.specs.Calls.{is_established};
ghost use Rattle.sctp_assoc.specs.Closing.{is_closed_state, tells_exhaustion};

use crate::Driver;
use sctp_assoc::{AssociationState, AssociationStats};

impl Driver {
    /// What was counted since the association was made: DATA and SACK chunks that came, and expired timers (RFC 4960
    /// sections 6.2 and 6.3), and DATA chunks that were retransmitted fast (section 7.2.4).
    pub fn stats(&self) -> AssociationStats
        ensures { result ≡ self.now.association.counts }
    {
        self.association.stats()
    }

    /// The retransmission timeout (RFC 4960 section 6.3.1), in ms, up to the greatest u64.
    pub fn rto_ms(&self) -> u64
        ensures { result ≡ min self.now.association.estimate.rto (2 ^ 64 - 1) }
    {
        self.association.rtt().as_millis().min(u64::MAX as u128) as u64
    }

    /// How many streams this side may send on, those with the identifiers below it: as many as it offers, and once the
    /// handshake has got that far as many as both sides agreed on (RFC 4960 section 5.1.1). No call of a stream holds
    /// to it; a peer answers DATA on another stream by an ERROR.
    pub fn outbound_streams(&self) -> u16
        ensures { result ≡ self.now.association.handshake.num_outbound_streams }
    {
        self.association.stream_counts().0
    }

    /// Whether the state is Established (RFC 4960 section 4): messages can be written.
    pub fn is_established(&self) -> bool
        ensures { result ≡ is_established self.now.association.state }
    {
        matches!(self.association.state(), AssociationState::Established)
    }

    /// Whether a shutdown has begun, at either side, and the association is not closed yet (RFC 4960 section 9.2).
    pub fn is_closing(&self) -> bool
        ensures { result ≡ is_closing self.now.association.state }
    {
        self.association.is_closing()
    }

    /// Whether the state is Closed: that of a server until a handshake establishes it, and of any side after a loss.
    pub fn is_closed(&self) -> bool
        ensures { result ≡ is_closed_state self.now.association.state }
    {
        self.association.is_closed()
    }

    /// Whether the association was lost: a fault closed it, or `close`, or the end of a shutdown. Nothing is left to do
    /// for it then but to send the datagrams that wait, and to ask for its events and messages.
    pub fn is_drained(&self) -> bool
        ensures { result ≡ self.now.association.lost }
    {
        self.association.is_drained()
    }

    /// Whether the newest event that nobody asked for yet tells that the receive buffer was exhausted, which closed the
    /// association.
    pub fn tells_exhaustion(&self) -> bool
        ensures { result ≡ tells_exhaustion self.now.association }
    {
        self.association.tells_exhaustion()
    }

    /// Whether an earlier call found no memory in its middle. Then the association is over.
    pub fn is_failed(&self) -> bool
        ensures { result ≡ self.now.association.failed }
    {
        self.association.is_failed()
    }
}
