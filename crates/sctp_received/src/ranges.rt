// A set of TSNs as ranges.
ghost use Rattle.std.specs.Prelude.{◌≡◌, ℕ, ◌+◌, ◌-◌, ◌*◌, ◌%◌, ◌^◌, ◌<◌, ◌≤◌, ◌==◌, not, if◌then◌else◌, length, [], filter};
ghost use Rattle.std.specs.Prelude.{Some, None, is_some, true, false, slice_get, IfSome, IfOk, OnOk, OnErr};
ghost use Rattle.std.specs.Ordering.{nat_cmp};
ghost use Rattle.std.specs.BTreeMap.{is_at};
ghost use Rattle.std.specs.BTreeSet.{insert_key};
ghost use Rattle.std.specs.Set.{remove_key};
ghost use Rattle.sctp_looks.specs.Looks.{ticked_by};
ghost use Rattle.sctp_serial.specs.Serial.{tsn, tsn_past, tsn_after, tsn_lte};
ghost use Rattle.sctp_ranges.specs.Runs.{AreApart, ended_before, is_of, reaches_over, IsRemoved};
ghost use Rattle.sctp_received.specs.Received.{is_held, is_new, with_tsn, last_received, IsFarthest, gap_ack_blocks};
ghost use Rattle.sctp_received.specs.Received.{is_named, is_held_at, AreRuns, advanced};
ghost use Rattle.sctp_received.specs.TsnRanges.{tsns_of, IsFarthestOffset, tsn_before, IsTaken};

use crate::gap_blocks::tell_blocks;
use sctp_looks::Looks;
use sctp_ranges::{Place, Row, Run, add_at, remove_offsets};
use sctp_wire_types::GapAckBlock;
use std::alloc::{AllocError, Global};
use std::fmt;
use std::marker::Model;

// Memory that is taken at once, in ranges.
const FIRST_ROOM: usize = 64;

// Half the range of TSNs.
const HALF: u32 = 1 << 31;

/// A finite set of TSNs, kept as the ranges that they make up. A contract sees its TSNs ascending as numbers, by
/// `tsns_of`, and the ranges, whose number bounds how many of them a call looks at.
///
/// A call is given the cumulative TSN, the last one in order, by the caller, who keeps it (RFC 4960 section 6.2).
#[derive(Drop)]
pub struct Ranges {
    // The TSN from which the ranges tell offsets: the cumulative TSN when the set was begun, so that no number wraps
    // within the ranges as a rule, and none is rewritten where the cumulative TSN moves.
    base: u32,
    row: Row,
    // The index of the range that a search looks at first: where the last TSN came.
    cursor: usize,
}

// The TSNs ascending as numbers: those whose numbers wrapped come first.
impl fmt::Debug for Ranges {
    fn fmt<W: fmt::Write>(&self, f: &mut fmt::Formatter<W>) -> fmt::Result {
        let mut set = f.debug_set();
        self.show(&mut set, true);
        self.show(&mut set, false);
        set.finish()
    }
}

impl Model for Ranges {
    ghost use Rattle.std.specs.Prelude.{ℕ, ◌<◌, ◌^◌};
    ghost use Rattle.sctp_ranges.specs.Runs.{AreApart, HaveRoom};
    ghost use Rattle.sctp_received.specs.TsnRanges.{TsnRanges};

    ghost Value = { TsnRanges };

    ghost view = { λ r. record { base = r.base; ranges = r.row.list; cursor = r.cursor; room = r.row.room } };

    ghost invariant = { λ r. (r.base < 2 ^ 32) × AreApart 0 r.row.list × HaveRoom r.row.list r.row.room };
}

impl Ranges {
    /// Nothing held; takes no memory.
    pub fn new(alloc: Global) -> Self
        ensures tsns { tsns_of result ≡ [] }
        ensures ranges { result.ranges ≡ [] }
    {
        Ranges {
            base: 0,
            row: Row::new(alloc),
            cursor: 0,
        }
    }

    /// How many ranges there are.
    pub fn len(&self) -> usize
        ensures { result ≡ length self.now.ranges }
    {
        self.row.len()
    }

    /// Whether DATA with this TSN is new: 1 to 65,535 past the cumulative TSN and not held.
    pub fn can_push(&self, tsn: u32, cumulative_tsn: u32, looks: &mut Looks) -> bool
        ensures new { result ≡ is_new (tsns_of self.now) tsn cumulative_tsn }
        ensures looks { (k : ℕ) → length self.now.ranges < 2 ^ k → looks.new ≤ looks.old + (k + 1) }
    {
        let distance = tsn.wrapping_sub(cumulative_tsn);
        0 < distance && distance <= 65_535 && !self.contains(tsn, looks)
    }

    /// Whether this TSN is held.
    pub fn contains(&self, tsn: u32, looks: &mut Looks) -> bool
        ensures held { result ≡ is_held tsn (tsns_of self.now) }
        ensures looks { (k : ℕ) → length self.now.ranges < 2 ^ k → looks.new ≤ looks.old + (k + 1) }
    {
        if self.row.is_empty() {
            return false;
        }
        let offset = self.offset(tsn);
        let place = self.locate(offset, looks);
        place.is_begun(offset)
    }

    /// Adds a TSN where `can_push`, and answers whether it did. Where memory is refused the set stays as it was.
    pub fn push(
        &mut self,
        tsn: u32,
        cumulative_tsn: u32,
        looks: &mut Looks,
    ) -> Result<bool, AllocError>
        ensures pushed { IfOk result (λ added.
            with_tsn (tsns_of self.old) tsn cumulative_tsn ≡ (tsns_of self.new, added)) }
        ensures unchanged { OnErr result (self.new ≡ self.old) }
        ensures cursor { IfOk result (λ added. added ≡ true
            → is_of (tsn_past self.new.base tsn) (slice_get self.new.ranges self.new.cursor) ≡ true) }
        ensures looks { (k : ℕ) → length self.old.ranges < 2 ^ k → looks.new ≤ looks.old + (k + 2) }
    {
        let distance = tsn.wrapping_sub(cumulative_tsn);
        if distance == 0 || 65_535 < distance {
            return Ok(false);
        }
        if self.row.is_empty() {
            self.begin(tsn, cumulative_tsn)?;
            return Ok(true);
        }
        self.add(tsn, looks)
    }

    // Holds this TSN alone, and tells offsets from the cumulative TSN from here on.
    fn begin(&mut self, tsn: u32, cumulative_tsn: u32) -> Result<(), AllocError>
        requires { self.old.ranges ≡ [] }
        ensures begun { OnOk result (tsns_of self.new ≡ insert_key nat_cmp [] tsn) }
        ensures cursor { OnOk result
            (is_of (tsn_past self.new.base tsn) (slice_get self.new.ranges self.new.cursor) ≡ true) }
        ensures err { OnErr result (self.new ≡ self.old) }
    {
        self.row.reserve(FIRST_ROOM)?;
        self.base = cumulative_tsn;
        let offset = tsn.wrapping_sub(cumulative_tsn);
        let run = Run {
            first: offset,
            last: offset,
        };
        self.row.insert(0, run);
        self.cursor = 0;
        Ok(())
    }

    // Holds one TSN more, and answers whether it did not before.
    fn add(&mut self, tsn: u32, looks: &mut Looks) -> Result<bool, AllocError>
        ensures new { IfOk result (λ added. added ≡ not (is_held tsn (tsns_of self.old))) }
        ensures added { IfOk result (λ added. tsns_of self.new
            ≡ (if added then insert_key nat_cmp (tsns_of self.old) tsn else tsns_of self.old)) }
        ensures cursor { OnOk result
            (is_of (tsn_past self.new.base tsn) (slice_get self.new.ranges self.new.cursor) ≡ true) }
        ensures err { OnErr result (self.new ≡ self.old) }
        ensures looks { (k : ℕ) → length self.old.ranges < 2 ^ k → looks.new ≤ looks.old + (k + 2) }
    {
        let offset = self.offset(tsn);
        let place = self.locate(offset, looks);
        if place.is_begun(offset) {
            self.cursor = place.index;
            return Ok(false);
        }
        self.row.reserve(2)?;
        let index = add_at(&mut self.row, offset, place, looks);
        self.cursor = index;
        Ok(true)
    }

    /// Takes out a TSN and answers it, where the TSN before it is not held, as where it follows the cumulative TSN. None
    /// where it was not held, and where the TSN before it is: out of the middle of a range none is taken, since that
    /// might want memory.
    pub fn pop(&mut self, tsn: u32, looks: &mut Looks) -> Option<u32>
        ensures held { is_held (tsn_before tsn) (tsns_of self.old) ≡ false
            → result ≡ (if is_held tsn (tsns_of self.old) then Some tsn else None) }
        ensures removed { is_held (tsn_before tsn) (tsns_of self.old) ≡ false
            → tsns_of self.new ≡ remove_key (is_at (nat_cmp tsn)) (tsns_of self.old) }
        ensures unchanged { result ≡ None → self.new ≡ self.old }
        ensures middle { is_held (tsn_before tsn) (tsns_of self.old) ≡ true → result ≡ None }
        ensures fewer { length (tsns_of self.new) + (if is_some result then 1 else 0) ≡ length (tsns_of self.old) }
        ensures looks { (k : ℕ) → length self.old.ranges < 2 ^ k → looks.new ≤ looks.old + 2 * (k + 1) }
    {
        if self.contains(before(tsn), looks) {
            return None;
        }
        self.take(tsn, looks)
    }

    // Takes out a TSN, where the one before it is not held.
    fn take(&mut self, tsn: u32, looks: &mut Looks) -> Option<u32>
        requires { is_held (tsn_before tsn) (tsns_of self.old) ≡ false }
        ensures held { result ≡ (if is_held tsn (tsns_of self.old) then Some tsn else None) }
        ensures removed { tsns_of self.new ≡ remove_key (is_at (nat_cmp tsn)) (tsns_of self.old) }
        ensures unchanged { result ≡ None → self.new ≡ self.old }
        ensures looks { (k : ℕ) → length self.old.ranges < 2 ^ k → looks.new ≤ looks.old + (k + 1) }
    {
        let offset = self.offset(tsn);
        let place = self.locate(offset, looks);
        if !place.is_begun(offset) {
            return None;
        }
        self.remove(offset, offset, place, place);
        Some(tsn)
    }

    /// Takes out the TSNs that follow the cumulative TSN one after another, and answers the last of them: where the
    /// cumulative TSN moves (RFC 4960 section 6.2).
    pub fn advance(&mut self, cumulative_tsn: u32, looks: &mut Looks) -> u32
        ensures moved { advanced (length (tsns_of self.old)) cumulative_tsn (tsns_of self.old)
            ≡ (result, tsns_of self.new) }
        ensures stops { is_held ((result + 1) % 2 ^ 32) (tsns_of self.new) ≡ false }
        ensures looks { (k : ℕ) → length self.old.ranges < 2 ^ k → looks.new ≤ looks.old + 2 * (k + 1) }
    {
        let Some(last) = self.take_run(after(cumulative_tsn), looks) else {
            return cumulative_tsn;
        };
        if self.offset(last) != u32::MAX {
            return last;
        }
        // The offsets end here, and go on at 0.
        match self.take_run(after(last), looks) {
            Some(end) => end,
            None => last,
        }
    }

    // Takes out a TSN and those behind it in its range, and answers the last of them.
    fn take_run(&mut self, tsn: u32, looks: &mut Looks) -> Option<u32>
        ensures none { result ≡ None → (self.new ≡ self.old) × (is_held tsn (tsns_of self.old) ≡ false) }
        ensures some { IfSome result (λ last. IsTaken self.old self.new tsn last) }
        ensures looks { (k : ℕ) → length self.old.ranges < 2 ^ k → looks.new ≤ looks.old + (k + 1) }
        ensures fewer { length self.new.ranges ≤ length self.old.ranges }
    {
        let offset = self.offset(tsn);
        let place = self.locate(offset, looks);
        let Some(run) = place.begun(offset) else {
            return None;
        };
        self.remove(offset, run.last, place, place);
        Some(self.tsn(run.last))
    }

    /// Removes all TSNs that are at or below this one.
    pub fn pop_up_to(&mut self, tsn: u32, looks: &mut Looks)
        ensures tsns { tsns_of self.new ≡ filter (λ t. not (tsn_lte t tsn)) (tsns_of self.old) }
        ensures looks { (k : ℕ) → length self.old.ranges < 2 ^ k → looks.new ≤ looks.old + 4 * (k + 1) }
    {
        let offset = self.offset(tsn);
        if HALF <= offset {
            self.remove_between(offset - (HALF - 1), offset, looks);
            return;
        }
        self.remove_between(0, offset, looks);
        if offset < HALF - 1 {
            self.remove_between(offset + HALF + 1, u32::MAX, looks);
        }
    }

    // Removes the offsets from one up to another: those in front, those at the end, or half of all.
    fn remove_between(&mut self, from: u32, to: u32, looks: &mut Looks)
        requires order { from ≤ to }
        requires part { 0 < from → to < 2 ^ 32 - 1 → to + 1 ≡ from + 2 ^ 31 }
        ensures base { self.new.base ≡ self.old.base }
        ensures removed { IsRemoved from to self.old.ranges self.new.ranges }
        ensures apart { AreApart 0 self.old.ranges }
        ensures fits { self.old.base < 2 ^ 32 }
        ensures fewer { from ≡ 0 → length self.new.ranges ≤ length self.old.ranges }
        ensures looks { (k : ℕ) → length self.old.ranges < 2 ^ k → looks.new ≤ looks.old + 2 * (k + 1) }
    {
        let lower = self.locate(from, looks);
        let upper = self.locate(to, looks);
        self.remove(from, to, lower, upper);
    }

    // Removes the offsets from one up to another, of which the places are given. The cursor goes down with its range.
    fn remove(&mut self, from: u32, to: u32, lower: Place, upper: Place)
        requires order { from ≤ to }
        requires lower_index { lower.index ≡ ended_before from self.old.ranges }
        requires lower_run { lower.run ≡ slice_get self.old.ranges lower.index }
        requires upper_index { upper.index ≡ ended_before to self.old.ranges }
        requires upper_run { upper.run ≡ slice_get self.old.ranges upper.index }
        requires half { reaches_over from to lower.run ≡ true → to + 1 ≡ from + 2 ^ 31 }
        ensures base { self.new.base ≡ self.old.base }
        ensures removed { IsRemoved from to self.old.ranges self.new.ranges }
        ensures fewer { reaches_over from to lower.run ≡ false → length self.new.ranges ≤ length self.old.ranges }
    {
        let len = self.row.len();
        remove_offsets(&mut self.row, from, to, lower, upper);
        let gone = len.saturating_sub(self.row.len());
        self.cursor = self.cursor.saturating_sub(gone);
        self.row.release();
    }

    /// The TSNs held, as the SACK for this cumulative TSN says them: the maximal runs, ascending, by their first and
    /// last offset from the cumulative TSN (RFC 4960 section 3.3.4). TSNs that are not 1 to 65,535 past the cumulative
    /// TSN have no offset and are left out. Looks at each range once.
    pub fn get_gap_ack_blocks(
        &self,
        alloc: Global,
        cumulative_tsn: u32,
        looks: &mut Looks,
    ) -> Result<Vec<GapAckBlock>, AllocError>
        ensures blocks { IfOk result (λ blocks. blocks.items ≡ gap_ack_blocks cumulative_tsn (tsns_of self.now)) }
        ensures exact { IfOk result (λ blocks. (o : ℕ) → 0 < o → o < 2 ^ 16
            → is_named o blocks.items ≡ is_held_at cumulative_tsn o (tsns_of self.now)) }
        ensures maximal { IfOk result (λ blocks. AreRuns 1 blocks.items) }
        ensures looks { OnOk result (looks.new ≡ ticked_by looks.old (length self.now.ranges)) }
    {
        let point = self.offset(cumulative_tsn);
        tell_blocks(alloc, &self.row, point, looks)
    }

    /// The TSN held that is farthest past the cumulative TSN; None where nothing is held.
    pub fn get_last_tsn_received(&self, cumulative_tsn: u32, looks: &mut Looks) -> Option<u32>
        ensures last { result ≡ last_received cumulative_tsn (tsns_of self.now) }
        ensures farthest { IsFarthest cumulative_tsn (tsns_of self.now) result }
        ensures looks { (k : ℕ) → length self.now.ranges < 2 ^ k → looks.new ≤ looks.old + (k + 2) }
    {
        let point = self.offset(cumulative_tsn);
        match self.farthest(point, looks) {
            Some(offset) => Some(self.tsn(offset)),
            None => None,
        }
    }

    // The offset that is farthest past a point: the greatest one before it; where there is none, the greatest of all.
    fn farthest(&self, point: u32, looks: &mut Looks) -> Option<u32>
        ensures farthest { IsFarthestOffset point self.now.ranges result }
        ensures apart { AreApart 0 self.now.ranges }
        ensures base { self.now.base < 2 ^ 32 }
        ensures looks { (k : ℕ) → length self.now.ranges < 2 ^ k → looks.new ≤ looks.old + (k + 2) }
    {
        let place = self.locate(point, looks);
        let len = self.row.len();
        if len == 0 {
            return None;
        }
        if let Some(run) = place.before(point) {
            return Some(run.last);
        }
        if place.index == 0 {
            return Some(self.row.at(len - 1, looks).last);
        }
        Some(self.row.at(place.index - 1, looks).last)
    }

    /// Whether no TSN is held.
    pub fn is_empty(&self) -> bool
        ensures { result ≡ (length (tsns_of self.now) == 0) }
    {
        self.row.is_empty()
    }

    /// Holds no TSN any more.
    pub fn clear(&mut self)
        ensures tsns { tsns_of self.new ≡ [] }
        ensures ranges { self.new.ranges ≡ [] }
    {
        self.row.clear();
        self.row.release();
        self.cursor = 0;
    }

    // Prints the TSNs whose numbers wrapped, or the others.
    fn show<W: fmt::Write>(&self, set: &mut fmt::DebugSet<'_, W>, wrapped: bool) {
        let mut looks = Looks::new();
        for index in 0..self.row.len() {
            let run = self.row.at(index, &mut looks);
            for offset in run.first..=run.last {
                let tsn = self.tsn(offset);
                if (tsn < self.base) == wrapped {
                    set.entry(&tsn);
                }
            }
        }
    }

    // The TSN at an offset.
    fn tsn(&self, offset: u32) -> u32
        ensures { result ≡ tsn self.now.base offset }
    {
        self.base.wrapping_add(offset)
    }

    // How far a TSN is past the base.
    fn offset(&self, tsn: u32) -> u32
        ensures { result ≡ tsn_past self.now.base tsn }
    {
        tsn.wrapping_sub(self.base)
    }

    // The place of an offset: one look at the range at the cursor, then halving on one side of it.
    #[tactic(auto, using(sctp_ranges::proofs::Halving::ended_here, sctp_ranges::proofs::Halving::not_ended_here, sctp_ranges::proofs::Halving::ended_within, std::proofs::lemmas::Option::slice_get_past))]
    fn locate(&self, offset: u32, looks: &mut Looks) -> Place
        ensures index { result.index ≡ ended_before offset self.now.ranges }
        ensures run { result.run ≡ slice_get self.now.ranges (ended_before offset self.now.ranges) }
        ensures looks { (k : ℕ) → length self.now.ranges < 2 ^ k → looks.new ≤ looks.old + (k + 1) }
        ensures apart { AreApart 0 self.now.ranges }
        ensures base { self.now.base < 2 ^ 32 }
    {
        let len = self.row.len();
        if len <= self.cursor {
            return self.row.halve(offset, 0, len, None, looks);
        }
        let run = self.row.at(self.cursor, looks);
        if run.last < offset {
            self.row.halve(offset, self.cursor + 1, len, None, looks)
        } else {
            self.row.halve(offset, 0, self.cursor, Some(run), looks)
        }
    }
}

// The TSN before one.
fn before(tsn: u32) -> u32
    ensures { result ≡ tsn_before tsn }
{
    tsn.wrapping_sub(1)
}

// The TSN after one.
fn after(tsn: u32) -> u32
    ensures { result ≡ tsn_after tsn }
{
    tsn.wrapping_add(1)
}
