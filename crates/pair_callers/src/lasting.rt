// Lasting: what a step does not end.
ghost use Rattle.sctp_steps.specs.Ends.{end_of};
ghost use Rattle.pair_callers.specs.BetweenWorlds.{GoesOn, from_side, to_side};
ghost use Rattle.pair_callers.specs.Lasting.{KeepsReliable, PassesNothing, ReceivesOn, StaysClosed, StaysInSpan};
ghost use Rattle.pair_callers.specs.Lasting.{StaysOver};

use sctp_pair::{Pair, Reply, Side2, Step};

/// Carries out one step: no reliable message is given up, and a side that is open goes on to receive. What was over
/// or had stopped does not begin again.
pub fn step_and_last(pair: &mut Pair, step: &Step) -> Reply
    ensures reliable { (side : Side2) → GoesOn pair.old pair.new (λ w v.
        KeepsReliable (from_side side w) (from_side side v)) }
    ensures receives { (side : Side2) → GoesOn pair.old pair.new (λ w v.
        ReceivesOn (end_of side pair.new) (to_side side w) (to_side side v)) }
    ensures over { (side : Side2) → GoesOn pair.old pair.new (λ w v. StaysOver (from_side side w) (from_side side v)) }
    ensures closed { (side : Side2) → GoesOn pair.old pair.new (λ w v. StaysClosed (to_side side w) (to_side side v)) }
{
    pair.step(step)
}

/// Asks for the next event: no stream's span ends, and nothing is passed over.
pub fn poll_event(pair: &mut Pair, side: Side2) -> Reply
    ensures span { (x : Side2) → GoesOn pair.old pair.new (λ w v. StaysInSpan (from_side x w) (from_side x v)) }
    ensures passed { (x : Side2) → GoesOn pair.old pair.new (λ w v. PassesNothing (to_side x w) (to_side x v)) }
{
    pair.step(&Step::Poll { side })
}
