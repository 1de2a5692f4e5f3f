// A gap in a list: places that hold nothing, where something comes or leaves without a move of what is behind it.
ghost use Rattle.std.specs.Prelude.{◌≡◌, ◌+◌, ◌≤◌, ◌<◌, length, take, vec_capacity};
ghost use Rattle.sctp_ranges.specs.Stored.{closed};

use crate::run::Run;

/// Moves a gap so that it lies behind so many ranges: the ranges between the two places move, no other.
pub(crate) fn move_gap(runs: &mut Vec<Run>, front: usize, gap: usize, to: usize)
    requires from { front + gap ≤ length runs.old.items }
    requires to { to + gap ≤ length runs.old.items }
    ensures same { closed to gap runs.new.items ≡ closed front gap runs.old.items }
    ensures len { length runs.new.items ≡ length runs.old.items }
    ensures capacity { vec_capacity runs.new ≡ vec_capacity runs.old }
{
    if to < front {
        runs.copy_within(to..front, to + gap);
    } else {
        runs.copy_within(front + gap..to + gap, front);
    }
}

/// Adds so many places behind the others, or those for which there is memory.
#[inline(never)]
pub(crate) fn open_gap(runs: &mut Vec<Run>, run: Run, places: usize)
    requires { 0 < places }
    ensures front { take (length runs.old.items) runs.new.items ≡ runs.old.items }
    ensures more { length runs.old.items < vec_capacity runs.old → length runs.old.items < length runs.new.items }
    ensures capacity { vec_capacity runs.new ≡ vec_capacity runs.old }
{
    let len = runs.len();
    let end = len.saturating_add(places);
    for index in len..runs.capacity().min(end) {
        runs.insert(index, run).unwrap();
    }
}
