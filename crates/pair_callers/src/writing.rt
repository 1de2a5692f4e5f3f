// Writing: what is answered as written was accepted, and nothing else.
ghost use Rattle.std.specs.Prelude.{◌≡◌, IfSome, None, length};
ghost use Rattle.pair_callers.specs.BetweenWorlds.{GoesOn, from_side};
ghost use Rattle.pair_callers.specs.Writing.{AcceptsNone, AcceptsOne, count_in};

use bytes::Bytes;
use sctp_assoc::StreamId;
use sctp_pair::{Pair, Reply, Side2, Step};

/// Writes a message: how many bytes were accepted, or none where the write was refused.
pub fn write_message(pair: &mut Pair, side: Side2, id: StreamId, bytes: Bytes) -> Option<usize>
    ensures count { IfSome result (λ n. n ≡ length bytes) }
    ensures accepted { IfSome result (λ n. GoesOn pair.old pair.new (λ w v.
        AcceptsOne id bytes (from_side side w) (from_side side v))) }
    ensures refused { result ≡ None → GoesOn pair.old pair.new (λ w v.
        AcceptsNone (from_side side w) (from_side side v)) }
{
    count_of(pair.step(&Step::Write { side, id, bytes }))
}

fn count_of(reply: Reply) -> Option<usize>
    ensures { result ≡ count_in reply }
{
    match reply {
        Reply::Wrote(count) => Some(count),
        _ => None,
    }
}
