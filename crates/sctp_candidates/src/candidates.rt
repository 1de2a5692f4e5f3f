// Places of which some are members.
ghost use Rattle.std.specs.Prelude.{◌≡◌, ℕ, ◌+◌, ◌<◌, ◌≤◌, ◌==◌, ◌&&◌, ◌||◌, not, true, false, OnOk, OnErr};
ghost use Rattle.std.specs.Prelude.{if◌then◌else◌};
ghost use Rattle.std.specs.Prelude.{length, slice_get, None};
ghost use Rattle.sctp_looks.specs.Looks.{ticked_by};
ghost use Rattle.sctp_ranges.specs.Runs.{AreApart, ended_before};
ghost use Rattle.sctp_candidates.specs.Candidates.{is_member, IsNext, IsNextOther, HasRoom, AreNone};

use crate::lowered::lower_all;
use sctp_looks::Looks;
use sctp_ranges::{Place, Row, add_at, remove_offsets};
use std::alloc::{AllocError, Global};
use std::marker::Model;

// Half of the numbers that a place may have.
const HALF: u32 = 1 << 31;

/// Consecutive places, as those of the pieces in flight, of which some are members. A place has an index, which goes
/// down by one where the first place leaves. Members are kept as ranges. Memory for all that may come is taken before a
/// place is added, so nothing else can fail.
#[derive(Drop)]
pub struct Candidates {
    // The ranges of the members' numbers: a place keeps its number as places leave in front of it.
    row: Row,
    // The number of the first place.
    begun: u32,
    // The number behind that of the last place.
    end: u32,
    // For places with numbers below this one there is memory, whichever of them become members.
    bound: u32,
}

impl Model for Candidates {
    ghost use Rattle.std.specs.Prelude.{◌≤◌, ◌<◌, ◌+◌, ◌-◌, ◌*◌, ◌^◌};
    ghost use Rattle.sctp_ranges.specs.Runs.{AreApart};
    ghost use Rattle.sctp_candidates.specs.Candidates.{Members, AreWithin};

    ghost Value = { Members };

    ghost view = { λ c. record {
      list = c.row.list;
      begun = c.begun;
      places = c.end - c.begun;
      bound = c.bound;
      room = c.row.room;
    } };

    ghost invariant = { λ c. AreApart 0 c.row.list × AreWithin c.begun c.end c.row.list
        × (c.begun ≤ c.end) × (c.end ≤ c.bound) × (c.bound ≤ c.begun + (2 * c.row.room - 3))
        × (c.bound < 2 ^ 32) };
}

impl Candidates {
    /// No place; takes no memory.
    pub fn new(alloc: Global) -> Self
        ensures none { AreNone result }
        ensures places { result.places ≡ 0 }
    {
        Candidates {
            row: Row::new(alloc),
            begun: 0,
            end: 0,
            bound: 0,
        }
    }

    /// How many places there are.
    pub fn places(&self) -> usize
        ensures { result ≡ self.now.places }
    {
        (self.end - self.begun) as usize
    }

    /// Whether no place is a member.
    pub fn is_empty(&self) -> bool
        ensures { result ≡ true → AreNone self.now }
    {
        self.row.is_empty()
    }

    /// Whether the place at an index is a member.
    pub fn contains(&self, index: usize) -> bool
        requires { index < self.now.places }
        ensures { result ≡ is_member index self.now }
    {
        let number = self.number(index);
        self.locate(number).is_begun(number)
    }

    /// The first member at an index or past it. One look, however it is found.
    pub fn next(&self, from: usize, looks: &mut Looks) -> Option<usize>
        ensures next { IsNext from result self.now }
        ensures looks { looks.new ≡ ticked_by looks.old 1 }
    {
        looks.tick();
        if (self.end - self.begun) as usize <= from {
            return None;
        }
        let number = self.number(from);
        match self.locate(number).run {
            Some(run) => Some((run.first.max(number) - self.begun) as usize),
            None => None,
        }
    }

    /// The first place at an index or past it that is no member; an index with no place is none.
    pub fn next_other(&self, from: usize) -> usize
        ensures { IsNextOther from result self.now }
    {
        if self.row.is_empty() || self.places() <= from {
            return from;
        }
        let number = self.number(from);
        match self.locate(number).begun(number) {
            Some(run) => (run.last - self.begun) as usize + 1,
            None => from,
        }
    }

    /// Takes memory for one place more, whichever of all places become members. 2^31 places count as want of memory.
    #[inline(always)]
    pub fn reserve(&mut self) -> Result<(), AllocError>
        ensures same { (i : ℕ) → is_member i self.new ≡ is_member i self.old }
        ensures places { self.new.places ≡ self.old.places }
        ensures room { OnOk result (HasRoom self.new) }
    {
        if self.end < self.bound {
            return Ok(());
        }
        self.make_room()
    }

    // Memory for some places more, so that `reserve` rarely comes here.
    #[inline(never)]
    fn make_room(&mut self) -> Result<(), AllocError>
        ensures same { (i : ℕ) → is_member i self.new ≡ is_member i self.old }
        ensures places { self.new.places ≡ self.old.places }
        ensures room { OnOk result (HasRoom self.new) }
    {
        let places = self.places();
        if places >= HALF as usize {
            return Err(AllocError);
        }
        if self.begun >= HALF {
            self.lower();
        }
        let wanted = places / 2 + 16;
        self.row.reserve(wanted.saturating_sub(self.row.len()))?;
        self.bound = self.begun + (2 * wanted - 3).min(HALF as usize) as u32;
        Ok(())
    }

    // The first place gets the number 0.
    fn lower(&mut self)
        ensures same { (i : ℕ) → is_member i self.new ≡ is_member i self.old }
        ensures places { self.new.places ≡ self.old.places }
        ensures room { self.new.room ≡ self.old.room }
        ensures begun { self.new.begun ≡ 0 }
    {
        lower_all(&mut self.row, self.begun);
        self.end -= self.begun;
        self.bound -= self.begun;
        self.begun = 0;
    }

    /// A place more behind the others, which is no member.
    #[inline(always)]
    pub fn grow(&mut self)
        requires { HasRoom self.old }
        ensures same { (i : ℕ) → is_member i self.new ≡ is_member i self.old }
        ensures places { self.new.places ≡ self.old.places + 1 }
    {
        self.end += 1;
    }

    /// The first place leaves.
    #[inline(always)]
    pub fn pass(&mut self)
        requires { 0 < self.old.places }
        ensures left { (i : ℕ) → is_member i self.new ≡ is_member (i + 1) self.old }
        ensures places { self.new.places + 1 ≡ self.old.places }
    {
        if self.row.is_empty() {
            self.begun += 1;
            return;
        }
        self.remove(0);
        self.begun += 1;
    }

    /// The place at an index becomes a member.
    pub fn insert(&mut self, index: usize)
        requires { index < self.old.places }
        ensures added { (i : ℕ) → is_member i self.new ≡ (i == index || is_member i self.old) }
        ensures places { self.new.places ≡ self.old.places }
    {
        let number = self.number(index);
        let place = self.locate(number);
        if place.is_begun(number) {
            return;
        }
        add_at(&mut self.row, number, place, &mut Looks::new());
    }

    /// The place at an index is no member any more.
    pub fn remove(&mut self, index: usize)
        requires { index < self.old.places }
        ensures removed { (i : ℕ) → is_member i self.new ≡ (not (i == index) && is_member i self.old) }
        ensures places { self.new.places ≡ self.old.places }
        ensures begun { self.new.begun ≡ self.old.begun }
    {
        if self.row.is_empty() {
            return;
        }
        let number = self.number(index);
        let place = self.locate(number);
        if place.is_begun(number) {
            remove_offsets(&mut self.row, number, number, place, place);
        }
    }

    /// The place at an index becomes a member, or is none any more.
    pub fn set(&mut self, index: usize, member: bool)
        requires { index < self.old.places }
        ensures set { (i : ℕ) → is_member i self.new ≡ (if i == index then member else is_member i self.old) }
        ensures places { self.new.places ≡ self.old.places }
    {
        if member {
            self.insert(index);
        } else {
            self.remove(index);
        }
    }

    /// No place is a member any more.
    pub fn clear(&mut self)
        ensures none { AreNone self.new }
        ensures places { self.new.places ≡ self.old.places }
    {
        self.row.clear();
    }

    // The number of a place.
    fn number(&self, index: usize) -> u32
        requires { index < self.now.places }
        ensures { result ≡ self.now.begun + index }
    {
        self.begun + index as u32
    }

    // The range of a number, or the next one: one look where a range came or left last, then halving on one side of it.
    #[tactic(auto, using(sctp_ranges::proofs::Halving::ended_here, sctp_ranges::proofs::Halving::not_ended_here, sctp_ranges::proofs::Halving::ended_within, std::proofs::lemmas::Option::slice_get_past))]
    fn locate(&self, number: u32) -> Place
        ensures index { result.index ≡ ended_before number self.now.list }
        ensures run { result.run ≡ slice_get self.now.list (ended_before number self.now.list) }
        ensures apart { AreApart 0 self.now.list }
    {
        let mut looks = Looks::new();
        let len = self.row.len();
        let last = self.row.last_place();
        if len <= last {
            return self.row.halve(number, 0, len, None, &mut looks);
        }
        let run = self.row.at(last, &mut looks);
        if run.last < number {
            self.row.halve(number, last + 1, len, None, &mut looks)
        } else {
            self.row.halve(number, 0, last, Some(run), &mut looks)
        }
    }
}
