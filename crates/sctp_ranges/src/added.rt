// A number is added to a row of ranges: alone, or to the range before it, to the one after it, or to both.
ghost use Rattle.std.specs.Prelude.{◌≡◌, ◌+◌, ◌-◌, ◌<◌, ◌≤◌, length, slice_get, Some, false};
ghost use Rattle.sctp_ranges.specs.Runs.{AreApart, ended_before, is_begun, begins_from, IsAdded};

use crate::row::Row;
use crate::run::{Place, Run};
use sctp_looks::Looks;

/// Adds an offset that no range has, at its place, and answers the index of the range that has it then.
#[tactic(auto, using(crate::proofs::Parts::begins_first, crate::proofs::Parts::begins_apart, crate::proofs::Parts::ends_before_place, crate::proofs::Halving::ended_within))]
pub fn add_at(row: &mut Row, offset: u32, place: Place, looks: &mut Looks) -> usize
    requires apart { AreApart 0 row.old.list }
    requires index { place.index ≡ ended_before offset row.old.list }
    requires run { place.run ≡ slice_get row.old.list place.index }
    requires new { is_begun offset place.run ≡ false }
    requires room { length row.old.list < row.old.room }
    ensures added { IsAdded offset row.old.list row.new.list result }
    ensures room { row.new.room ≡ row.old.room }
    ensures looks { looks.new ≤ looks.old + 1 }
{
    if place.index == 0 {
        return add_before(row, offset, place);
    }
    let before = row.at(place.index - 1, looks);
    if before.last + 1 == offset {
        add_behind(row, offset, place, before)
    } else {
        add_before(row, offset, place)
    }
}

// To the range that begins right behind it, or alone.
#[tactic(auto, using(crate::proofs::Additions::added_before, crate::proofs::Additions::added_alone))]
fn add_before(row: &mut Row, offset: u32, place: Place) -> usize
    requires apart { AreApart 0 row.old.list }
    requires index { place.index ≤ length row.old.list }
    requires run { place.run ≡ slice_get row.old.list place.index }
    requires new { is_begun offset place.run ≡ false }
    requires begins { begins_from 0 row.old.list place.index ≤ offset }
    requires room { length row.old.list < row.old.room }
    ensures added { IsAdded offset row.old.list row.new.list result }
    ensures room { row.new.room ≡ row.old.room }
{
    match place.next_to(offset) {
        Some(next) => {
            row.set(
                place.index,
                Run {
                    first: offset,
                    last: next.last,
                },
            );
            place.index
        }
        None => {
            row.insert(
                place.index,
                Run {
                    first: offset,
                    last: offset,
                },
            );
            place.index
        }
    }
}

// To the range that ends right before it, and where one begins right behind it, to both as one.
#[tactic(auto, using(crate::proofs::Additions::added_behind, crate::proofs::Additions::added_between))]
fn add_behind(row: &mut Row, offset: u32, place: Place, before: Run) -> usize
    requires apart { AreApart 0 row.old.list }
    requires index { 0 < place.index }
    requires run { place.run ≡ slice_get row.old.list place.index }
    requires new { is_begun offset place.run ≡ false }
    requires before { slice_get row.old.list (place.index - 1) ≡ Some before }
    requires touch { before.last + 1 ≡ offset }
    ensures added { IsAdded offset row.old.list row.new.list result }
    ensures room { row.new.room ≡ row.old.room }
{
    match place.next_to(offset) {
        Some(next) => {
            row.set(
                place.index,
                Run {
                    first: before.first,
                    last: next.last,
                },
            );
            row.remove_between(place.index - 1, place.index);
            place.index - 1
        }
        None => {
            row.set(
                place.index - 1,
                Run {
                    first: before.first,
                    last: offset,
                },
            );
            place.index - 1
        }
    }
}
