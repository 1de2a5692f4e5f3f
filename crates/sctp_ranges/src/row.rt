// Ranges in a row, each of which is read by one counted look.
ghost use Rattle.std.specs.Prelude.{◌≡◌, ℕ, ◌+◌, ◌-◌, ◌^◌, ◌<◌, ◌≤◌, ◌++◌, ◌==◌, [], length, take, drop, insert};
ghost use Rattle.std.specs.Prelude.{slice_get, slice_set, Some, None, IfSome, OnOk, OnErr};
ghost use Rattle.std.specs.Option.{option_to_list};
ghost use Rattle.sctp_looks.specs.Looks.{ticked_by};
ghost use Rattle.sctp_ranges.specs.Runs.{AreApart, ended_before};

use crate::gap::{move_gap, open_gap};
use crate::run::{Place, Run};
use sctp_looks::Looks;
use std::alloc::{AllocError, Global};
use std::marker::Model;

// Memory for more ranges than these is given back once there is none.
const KEPT_ROOM: usize = 64;

// Places that are added at once where there are none, besides as many as there are.
const FIRST_PLACES: usize = 8;

// More ranges than these count as want of memory.
const MOST: usize = u32::MAX as usize;

/// A list of ranges. The only call that reads one is `at`, which counts a look: nothing else leads to them.
///
/// A range comes or leaves at no cost where the last one did: only ranges between the two places move.
#[derive(Drop)]
pub struct Row {
    // The ranges, and somewhere among them a gap: places that hold none.
    runs: Vec<Run>,
    // How many ranges stand in front of the gap.
    front: u32,
    // How many places the gap has.
    gap: u32,
}

impl Model for Row {
    ghost use Rattle.std.specs.Prelude.{ℕ, ◌+◌, ◌^◌, ◌<◌, ◌≤◌, length, vec_capacity};
    ghost use Rattle.sctp_ranges.specs.Stored.{Stored, closed};

    ghost Value = { Stored };

    ghost view = { λ r. record { list = closed r.front r.gap r.runs.items; room = vec_capacity r.runs } };

    ghost invariant = { λ r. (r.front + r.gap ≤ length r.runs.items) × (vec_capacity r.runs < 2 ^ 32) };
}

impl Row {
    /// No range; takes no memory.
    pub fn new(alloc: Global) -> Self
        ensures { result ≡ record { list = []; room = 0 } }
    {
        Row {
            runs: Vec::new(alloc),
            front: 0,
            gap: 0,
        }
    }

    /// How many ranges there are.
    #[inline(always)]
    pub fn len(&self) -> usize
        ensures { result ≡ length self.now.list }
    {
        self.runs.len() - self.gap as usize
    }

    /// Whether there is no range.
    #[inline(always)]
    pub fn is_empty(&self) -> bool
        ensures { result ≡ (length self.now.list == 0) }
    {
        self.len() == 0
    }

    /// The index where a range came last, or in front of which the last ones left: a search may well begin there.
    #[tactic(auto, using(crate::proofs::Rows::length_closed))]
    pub fn last_place(&self) -> usize
        ensures { result ≤ length self.now.list }
    {
        (self.front as usize).saturating_sub(1)
    }

    /// The range at an index, at which this looks once.
    #[inline(always)]
    pub fn at(&self, index: usize, looks: &mut Looks) -> Run
        requires { index < length self.now.list }
        ensures run { slice_get self.now.list index ≡ Some result }
        ensures looks { looks.new ≡ ticked_by looks.old 1 }
    {
        looks.tick();
        if index < self.front as usize {
            self.runs[index]
        } else {
            self.runs[index + self.gap as usize]
        }
    }

    /// Another range at an index.
    #[inline(always)]
    pub fn set(&mut self, index: usize, run: Run)
        requires { index < length self.old.list }
        ensures { self.new ≡ record self.old { list = slice_set self.old.list index run } }
    {
        let runs = &mut self.runs;
        if index < self.front as usize {
            runs[index] = run;
        } else {
            runs[index + self.gap as usize] = run;
        }
    }

    /// One range more, before the one at an index; there is room for it. Behind all of them no gap is kept for others.
    pub fn insert(&mut self, index: usize, run: Run)
        requires index { index ≤ length self.old.list }
        requires room { length self.old.list < self.old.room }
        ensures { self.new ≡ record self.old { list = insert self.old.list index run } }
    {
        if self.gap == 0 {
            let len = self.runs.len();
            let places = if index == len {
                1
            } else {
                len.saturating_add(FIRST_PLACES)
            };
            open_gap(&mut self.runs, run, places);
            self.front = len as u32;
            self.gap = (self.runs.len() - len) as u32;
        }
        move_gap(
            &mut self.runs,
            self.front as usize,
            self.gap as usize,
            index,
        );
        let runs = &mut self.runs;
        runs[index] = run;
        self.front = index as u32 + 1;
        self.gap -= 1;
    }

    /// A range in the place of the one in front of an index, or one more where that is the index to start from; answers
    /// its index. With no range nothing changes.
    pub fn put(&mut self, start: usize, end: usize, run: Option<Run>) -> usize
        requires start { start ≤ end }
        requires end { end ≤ length self.old.list }
        requires room { IfSome run (λ r. start ≡ end → length self.old.list < self.old.room) }
        ensures front { take start self.new.list ≡ take start self.old.list }
        ensures back { drop result self.new.list ≡ option_to_list run ++ drop end self.old.list }
        ensures start { start ≤ result }
        ensures end { result ≤ length self.new.list }
        ensures index { (start ≡ end → run ≡ None) → result + length (option_to_list run) ≡ end }
        ensures len { (start ≡ end → run ≡ None) → length self.new.list ≡ length self.old.list }
        ensures room { self.new.room ≡ self.old.room }
    {
        match run {
            None => end,
            Some(run) => {
                if start == end {
                    self.insert(end, run);
                    end
                } else {
                    self.set(end - 1, run);
                    end - 1
                }
            }
        }
    }

    /// Without the ranges from one index up to another, which is left out.
    pub fn remove_between(&mut self, start: usize, end: usize)
        requires start { start ≤ end }
        requires end { end ≤ length self.old.list }
        ensures { self.new ≡ record self.old { list = take start self.old.list ++ drop end self.old.list } }
    {
        let nearest = (self.front as usize).max(start).min(end);
        move_gap(
            &mut self.runs,
            self.front as usize,
            self.gap as usize,
            nearest,
        );
        self.front = start as u32;
        self.gap += (end - start) as u32;
    }

    /// No range any more.
    pub fn clear(&mut self)
        ensures { self.new ≡ record self.old { list = [] } }
    {
        self.front = 0;
        self.gap = self.runs.len() as u32;
    }

    /// Room for more ranges. Where memory is refused all stays as it was; 2^32 ranges count as want of memory.
    pub fn reserve(&mut self, more: usize) -> Result<(), AllocError>
        ensures list { self.new.list ≡ self.old.list }
        ensures room { OnOk result (length self.new.list + more ≤ self.new.room) }
        ensures err { OnErr result (self.new ≡ self.old) }
    {
        let len = self.len();
        let room = self.runs.capacity();
        if more <= room - len {
            return Ok(());
        }
        if MOST - len < more {
            return Err(AllocError);
        }
        let wanted = (len + more).max((2 * room).min(MOST));
        self.runs.reserve_exact(wanted - self.runs.len())
    }

    /// Gives memory back where there is no range and it has become much.
    pub fn release(&mut self)
        ensures list { self.new.list ≡ self.old.list }
        ensures room { 0 < length self.old.list → self.new.room ≡ self.old.room }
    {
        if self.is_empty() && KEPT_ROOM < self.runs.capacity() {
            self.runs.truncate(0);
            self.front = 0;
            self.gap = 0;
            self.runs.shrink_to(0);
        }
    }

    /// The place of an offset between two indexes, by halving; `above` is the range at the upper one, none at the end.
    pub fn halve(
        &self,
        offset: u32,
        low: usize,
        high: usize,
        above: Option<Run>,
        looks: &mut Looks,
    ) -> Place
        requires apart { AreApart 0 self.now.list }
        requires within { high ≤ length self.now.list }
        requires above { above ≡ slice_get self.now.list high }
        requires from { low ≤ ended_before offset self.now.list }
        requires to { ended_before offset self.now.list ≤ high }
        ensures index { result.index ≡ ended_before offset self.now.list }
        ensures run { result.run ≡ slice_get self.now.list (ended_before offset self.now.list) }
        ensures looks { (k : ℕ) → high - low < 2 ^ k → looks.new ≤ looks.old + k }
    {
        let mut low = low;
        let mut high = high;
        let mut above = above;
        while low < high {
            let middle = low + (high - low) / 2;
            let run = self.at(middle, looks);
            if run.last < offset {
                low = middle + 1;
            } else {
                high = middle;
                above = Some(run);
            }
        }
        Place {
            index: high,
            run: above,
        }
    }
}
