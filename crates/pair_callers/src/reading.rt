// Reading: what a read answers is read next, and what was read within a span is some of what was accepted.
ghost use Rattle.std.specs.Prelude.{◌≡◌, ℕ, false, IfSome};
ghost use Rattle.sctp_steps.specs.Steps.{Steps};
ghost use Rattle.pair_callers.specs.BetweenWorlds.{GoesOn, GoesOnWithin, to_side};
ghost use Rattle.pair_callers.specs.Reading.{AreNumbered, IsOfAccepted, ReadsNext, message_in};
ghost use Rattle.sctp_reassembly.specs.Stands.{letter_received};

use sctp_assoc::{Chunks, StreamId};
use sctp_pair::{Pair, Reply, Side2, Step};

/// Reads the next message, or none where none is ready or the stream is not there.
pub fn read_message(pair: &mut Pair, side: Side2, id: StreamId) -> Option<Chunks>
    ensures next { GoesOn pair.old pair.new (λ w v. ReadsNext id result (to_side side w) (to_side side v)) }
    ensures accepted { IfSome result (λ m. GoesOnWithin pair.old pair.new (λ w v.
        (to_side side v).over id ≡ false → IsOfAccepted (to_side side v) id (letter_received m))) }
{
    message_of(pair.step(&Step::Read { side, id }))
}

fn message_of(reply: Reply) -> Option<Chunks>
    ensures { result ≡ message_in reply }
{
    match reply {
        Reply::Read(message) => message,
        _ => None,
    }
}

/// Carries out one step. What either side read so far are messages that the other one accepted, by their numbers.
pub fn step_and_tell(pair: &mut Pair, step: &Step) -> Reply
    ensures exact { Steps step.now pair.old result pair.new }
    ensures numbered { (side : Side2) (s : ℕ) → GoesOnWithin pair.old pair.new (λ w v.
        (to_side side v).over s ≡ false → AreNumbered (to_side side v) s) }
{
    pair.step(step)
}
