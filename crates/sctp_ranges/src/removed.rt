// Numbers from one up to another are removed from a row of ranges.
ghost use Rattle.std.specs.Prelude.{◌≡◌, ◌+◌, ◌<◌, ◌≤◌, length, slice_get, true, false, if◌then◌else◌};
ghost use Rattle.sctp_ranges.specs.Runs.{AreApart, ended_before, is_begun, reaches_over, IsRemoved};

use crate::row::Row;
use crate::run::Place;

/// Removes the offsets from one up to another, both included, of which the places are given: what of a range comes
/// before them or after them stays.
pub fn remove_offsets(row: &mut Row, from: u32, to: u32, lower: Place, upper: Place)
    requires order { from ≤ to }
    requires apart { AreApart 0 row.old.list }
    requires lower_index { lower.index ≡ ended_before from row.old.list }
    requires lower_run { lower.run ≡ slice_get row.old.list lower.index }
    requires upper_index { upper.index ≡ ended_before to row.old.list }
    requires upper_run { upper.run ≡ slice_get row.old.list upper.index }
    requires room { reaches_over from to lower.run ≡ true → length row.old.list < row.old.room }
    ensures removed { IsRemoved from to row.old.list row.new.list }
    ensures fewer { reaches_over from to lower.run ≡ false → length row.new.list ≤ length row.old.list }
    ensures room { row.new.room ≡ row.old.room }
{
    let end = index_past(row, to, upper);
    let back = row.put(lower.index, end, upper.after(to));
    let front = row.put(lower.index, back, lower.before(from));
    row.remove_between(lower.index, front);
}

// The index behind a range that begins at an offset or before it; otherwise its own.
#[tactic(auto, using(crate::proofs::Removals::begun_within))]
fn index_past(row: &Row, offset: u32, place: Place) -> usize
    requires { place.run ≡ slice_get row.now.list place.index }
    ensures { result ≡ place.index + (if is_begun offset place.run then 1 else 0) }
{
    let len = row.len();
    if place.is_begun(offset) && place.index < len {
        place.index + 1
    } else {
        place.index
    }
}
