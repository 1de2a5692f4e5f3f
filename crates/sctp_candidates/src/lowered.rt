// Numbers that become less.
ghost use Rattle.std.specs.Prelude.{◌≡◌, ℕ, ◌+◌, ◌≤◌, ◌<◌, map, true};
ghost use Rattle.sctp_ranges.specs.Runs.{AreApart, is_in};
ghost use Rattle.sctp_candidates.specs.Candidates.{lowered, BeginFrom};

use sctp_looks::Looks;
use sctp_ranges::{Row, Run};

/// Takes a number off those of all ranges, of which none is less.
pub(crate) fn lower_all(row: &mut Row, by: u32)
    requires { BeginFrom by row.old.list }
    ensures list { row.new.list ≡ map (lowered by) row.old.list }
    ensures room { row.new.room ≡ row.old.room }
{
    let mut looks = Looks::new();
    for index in 0..row.len() {
        let run = row.at(index, &mut looks);
        row.set(
            index,
            Run {
                first: run.first - by,
                last: run.last - by,
            },
        );
    }
}
