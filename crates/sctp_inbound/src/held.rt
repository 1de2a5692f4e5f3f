// What came past the receiver's last TSN in order, with a gap before it.
ghost use Rattle.std.specs.Prelude.{◌≡◌, ℕ, ◌<◌, ◌^◌, [], true, false, IfOk, OnErr, IsOk};
ghost use Rattle.sctp_serial.specs.Serial.{tsn_after};
ghost use Rattle.sctp_received.specs.Received.{AreRuns, gap_ack_blocks, is_held, is_held_at, is_named, is_new};
ghost use Rattle.sctp_inbound.specs.Held.{has_gap, held_after, held_past, is_admitted, is_passed};

use sctp_received::ReceiveQueue;
use sctp_wire_types::{GapAckBlock, List};
use std::alloc::{AllocError, Global};
use std::marker::Model;

/// The TSNs that came past the last TSN in order and do not follow it yet; the receiver keeps that
/// one (RFC 4960 section 6.2).
#[derive(Debug, Drop)]
pub struct Held {
    tsns: ReceiveQueue,
}

impl Model for Held {
    ghost use Rattle.std.specs.Prelude.{ℕ, List as Numbers};

    ghost Value = { Numbers ℕ };

    ghost view = { λ h. h.tsns };
}

impl Held {
    /// Nothing held; takes no memory.
    pub fn new(alloc: Global) -> Self
        ensures { result ≡ [] }
    {
        Held {
            tsns: ReceiveQueue::new(alloc),
        }
    }

    /// The peer's initial TSN is known: nothing came of what it sends from there on.
    pub fn clear(&mut self)
        ensures { self.new ≡ [] }
    {
        self.tsns.clear();
    }

    /// Whether a TSN is held with a gap before it.
    pub fn has_gap(&self) -> bool
        ensures { result ≡ has_gap self.now }
    {
        !self.tsns.is_empty()
    }

    /// Whether DATA with this TSN did not come yet: it is 1 to 65,535 past the last TSN in order and not held.
    pub fn is_new(&self, peer_last_tsn: u32, tsn: u32) -> bool
        ensures { result ≡ is_new self.now tsn peer_last_tsn }
    {
        self.tsns.can_push(tsn, peer_last_tsn)
    }

    /// Whether DATA may be taken in while so many bytes may still come: at none only where it fills a gap.
    pub fn admits(&self, peer_last_tsn: u32, tsn: u32, credit: u32) -> bool
        ensures { result ≡ is_admitted self.now peer_last_tsn tsn credit }
    {
        0 < credit || self.passes(peer_last_tsn, tsn)
    }

    // Whether a TSN that is held is farther past the last TSN in order.
    fn passes(&self, peer_last_tsn: u32, tsn: u32) -> bool
        ensures { result ≡ is_passed self.now peer_last_tsn tsn }
    {
        match self.tsns.get_last_tsn_received(peer_last_tsn) {
            Some(last) => tsn.wrapping_sub(peer_last_tsn) < last.wrapping_sub(peer_last_tsn),
            None => false,
        }
    }

    /// Holds a new TSN, and answers the last TSN in order once it moved over all that follow it one after another.
    /// Where memory is refused all stays as it was; the TSN after the last TSN in order takes none.
    pub fn take(&mut self, peer_last_tsn: u32, tsn: u32) -> Result<u32, AllocError>
        requires { is_new self.now tsn peer_last_tsn ≡ true }
        ensures moved { IfOk result (λ moved. held_after self.old peer_last_tsn tsn ≡ (moved, self.new)) }
        ensures stops { IfOk result (λ moved. is_held (tsn_after moved) self.new ≡ false) }
        ensures unchanged { OnErr result (self.new ≡ self.old) }
        ensures next { tsn ≡ tsn_after peer_last_tsn → IsOk result }
    {
        if tsn != peer_last_tsn.wrapping_add(1) {
            self.tsns.push(tsn, peer_last_tsn)?;
            return Ok(self.tsns.advance(peer_last_tsn));
        }
        if self.tsns.is_empty() {
            return Ok(tsn);
        }
        Ok(self.tsns.advance(tsn))
    }

    /// A FORWARD TSN passed over all up to this TSN, which lies ahead: nothing up to it is held any more. Answers the
    /// last TSN in order, which moves over all that follow it one after another (RFC 3758 section 3.6).
    pub fn pass_over(&mut self, tsn: u32) -> u32
        ensures { held_past self.old tsn ≡ (result, self.new) }
    {
        self.tsns.pop_up_to(tsn);
        self.tsns.advance(tsn)
    }

    /// The gap ack blocks of a SACK with this last TSN in order: the maximal runs of what is held, by their first and
    /// last offset from the last TSN in order (RFC 4960 section 3.3.4). With nothing held they take no memory.
    pub fn gap_ack_blocks(
        &self,
        alloc: Global,
        peer_last_tsn: u32,
    ) -> Result<List<GapAckBlock>, AllocError>
        ensures blocks { IfOk result (λ blocks. blocks ≡ gap_ack_blocks peer_last_tsn self.now) }
        ensures exact { IfOk result (λ blocks. (o : ℕ) → 0 < o → o < 2 ^ 16
            → is_named o blocks ≡ is_held_at peer_last_tsn o self.now) }
        ensures maximal { IfOk result (λ blocks. AreRuns 1 blocks) }
        ensures none { self.now ≡ [] → IsOk result }
    {
        if self.tsns.is_empty() {
            return Ok(List::new(alloc));
        }
        self.tsns.get_gap_ack_blocks(alloc, peer_last_tsn)
    }
}
