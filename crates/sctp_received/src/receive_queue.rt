// TSNs that came and stand past the last one in order.
ghost use Rattle.std.specs.Prelude.{◌≡◌, ℕ, ◌+◌, ◌%◌, ◌^◌, ◌<◌, ◌==◌, not, if◌then◌else◌, length, [], filter};
ghost use Rattle.std.specs.Prelude.{Some, None, is_some, true, false, IfOk, OnErr};
ghost use Rattle.std.specs.Ordering.{nat_cmp};
ghost use Rattle.std.specs.BTreeMap.{is_at};
ghost use Rattle.std.specs.Set.{remove_key};
ghost use Rattle.sctp_serial.specs.Serial.{tsn_lte};
ghost use Rattle.sctp_received.specs.Received.{is_held, is_new, with_tsn, last_received, advanced, gap_ack_blocks};
ghost use Rattle.sctp_received.specs.Received.{is_named, is_held_at, AreRuns, IsFarthest};
ghost use Rattle.sctp_received.specs.TsnRanges.{tsn_before};

use crate::ranges::Ranges;
use sctp_looks::Looks;
use sctp_wire_types::{GapAckBlock, List};
use std::alloc::{AllocError, Global};
use std::fmt;
use std::marker::Model;

/// A finite set of TSNs that came past the last one in order, the cumulative TSN, which the caller keeps (RFC 4960
/// section 6.2). A contract sees the set as the list of its TSNs, ascending as numbers; `Ranges` holds it, and says for
/// each call at how many ranges it looks.
#[derive(Drop)]
pub struct ReceiveQueue {
    tsns: Ranges,
}

// The TSNs as a set prints them.
impl fmt::Debug for ReceiveQueue {
    fn fmt<W: fmt::Write>(&self, f: &mut fmt::Formatter<W>) -> fmt::Result {
        f.debug_struct("ReceiveQueue")
            .field("tsns", &self.tsns)
            .finish()
    }
}

impl Model for ReceiveQueue {
    ghost use Rattle.std.specs.Prelude.{ℕ, List as Numbers};
    ghost use Rattle.sctp_received.specs.TsnRanges.{tsns_of};

    ghost Value = { Numbers ℕ };

    ghost view = { λ q. tsns_of q.tsns };
}

impl ReceiveQueue {
    /// Nothing held; takes no memory.
    pub fn new(alloc: Global) -> Self
        ensures { result ≡ [] }
    {
        ReceiveQueue {
            tsns: Ranges::new(alloc),
        }
    }

    /// Whether DATA with this TSN is new: 1 to 65,535 past the cumulative TSN and not held.
    pub fn can_push(&self, tsn: u32, cumulative_tsn: u32) -> bool
        ensures { result ≡ is_new self.now tsn cumulative_tsn }
    {
        self.tsns.can_push(tsn, cumulative_tsn, &mut Looks::new())
    }

    /// Whether this TSN is held.
    pub fn contains(&self, tsn: u32) -> bool
        ensures { result ≡ is_held tsn self.now }
    {
        self.tsns.contains(tsn, &mut Looks::new())
    }

    /// Adds a TSN where `can_push`, and answers whether it did. Where memory is refused the set stays as it was.
    pub fn push(&mut self, tsn: u32, cumulative_tsn: u32) -> Result<bool, AllocError>
        ensures pushed { IfOk result (λ added. with_tsn self.old tsn cumulative_tsn ≡ (self.new, added)) }
        ensures unchanged { OnErr result (self.new ≡ self.old) }
    {
        self.tsns.push(tsn, cumulative_tsn, &mut Looks::new())
    }

    /// Takes out a TSN and answers it, where the TSN before it is not held, as where it follows the cumulative TSN. None
    /// where it was not held, and where the TSN before it is: out of the middle of a range none is taken, since that
    /// might want memory.
    pub fn pop(&mut self, tsn: u32) -> Option<u32>
        ensures held { is_held (tsn_before tsn) self.old ≡ false
            → result ≡ (if is_held tsn self.old then Some tsn else None) }
        ensures removed { is_held (tsn_before tsn) self.old ≡ false
            → self.new ≡ remove_key (is_at (nat_cmp tsn)) self.old }
        ensures unchanged { result ≡ None → self.new ≡ self.old }
        ensures middle { is_held (tsn_before tsn) self.old ≡ true → result ≡ None }
        ensures fewer { length self.new + (if is_some result then 1 else 0) ≡ length self.old }
    {
        self.tsns.pop(tsn, &mut Looks::new())
    }

    /// Removes all TSNs that are at or below this one.
    pub fn pop_up_to(&mut self, tsn: u32)
        ensures { self.new ≡ filter (λ t. not (tsn_lte t tsn)) self.old }
    {
        self.tsns.pop_up_to(tsn, &mut Looks::new());
    }

    /// Takes out the TSNs that follow the cumulative TSN one after another, and answers the last of them: where the
    /// cumulative TSN moves (RFC 4960 section 6.2).
    pub fn advance(&mut self, cumulative_tsn: u32) -> u32
        ensures moved { advanced (length self.old) cumulative_tsn self.old ≡ (result, self.new) }
        ensures stops { is_held ((result + 1) % 2 ^ 32) self.new ≡ false }
    {
        self.tsns.advance(cumulative_tsn, &mut Looks::new())
    }

    /// The TSNs held, as the SACK for this cumulative TSN says them: the maximal runs, ascending, by their first and
    /// last offset from the cumulative TSN (RFC 4960 section 3.3.4). TSNs that are not 1 to 65,535 past the cumulative
    /// TSN have no offset and are left out.
    pub fn get_gap_ack_blocks(
        &self,
        alloc: Global,
        cumulative_tsn: u32,
    ) -> Result<List<GapAckBlock>, AllocError>
        ensures blocks { IfOk result (λ blocks. blocks ≡ gap_ack_blocks cumulative_tsn self.now) }
        ensures exact { IfOk result (λ blocks. (o : ℕ) → 0 < o → o < 2 ^ 16
            → is_named o blocks ≡ is_held_at cumulative_tsn o self.now) }
        ensures maximal { IfOk result (λ blocks. AreRuns 1 blocks) }
    {
        let blocks = self
            .tsns
            .get_gap_ack_blocks(alloc, cumulative_tsn, &mut Looks::new())?;
        Ok(List::from_vec(blocks))
    }

    /// The TSN held that is farthest past the cumulative TSN; None where nothing is held.
    pub fn get_last_tsn_received(&self, cumulative_tsn: u32) -> Option<u32>
        ensures last { result ≡ last_received cumulative_tsn self.now }
        ensures farthest { IsFarthest cumulative_tsn self.now result }
    {
        self.tsns
            .get_last_tsn_received(cumulative_tsn, &mut Looks::new())
    }

    /// Whether no TSN is held.
    pub fn is_empty(&self) -> bool
        ensures { result ≡ (length self.now == 0) }
    {
        self.tsns.is_empty()
    }

    /// Holds no TSN any more.
    pub fn clear(&mut self)
        ensures { self.new ≡ [] }
    {
        self.tsns.clear();
    }
}
