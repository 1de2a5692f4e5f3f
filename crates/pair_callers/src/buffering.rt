// Buffering: what waits to be read at an open side, and what an open side still has buffered.
ghost use Rattle.std.specs.Prelude.{◌≡◌, ℕ, IfSome, Ok};
ghost use Rattle.sctp_assoc.specs.Calls.{buffered_of};
ghost use Rattle.sctp_steps.specs.Ends.{end_of};
ghost use Rattle.sctp_steps.specs.Seen.{IsOpen};
ghost use Rattle.pair_callers.specs.BetweenWorlds.{GoesOnWithin, from_side, to_side};
ghost use Rattle.pair_callers.specs.Buffering.{IsAllThatCame, IsAllToBeHad, IsFrontOfWhatCame, IsKept, IsReliable};
ghost use Rattle.pair_callers.specs.Buffering.{KeepsWhatDidNotCome, amount_in};

use sctp_assoc::StreamId;
use sctp_pair::{Pair, Reply, Side2, Step};

/// Asks how many bytes a stream has buffered; none where the stream is not there.
pub fn ask_buffered(pair: &mut Pair, side: Side2, id: StreamId) -> Option<usize>
    ensures amount { IfSome result (λ n. buffered_of (end_of side pair.old) id ≡ Ok n) }
    ensures unchanged { pair.new ≡ pair.old }
    ensures kept { IfSome result (λ n. IsOpen (end_of side pair.new) → GoesOnWithin pair.old pair.new (λ w v.
        IsReliable (from_side side v) id → KeepsWhatDidNotCome n (from_side side v) id)) }
{
    amount_of(pair.step(&Step::BufferedAmount { side, id }))
}

fn amount_of(reply: Reply) -> Option<usize>
    ensures { result ≡ amount_in reply }
{
    match reply {
        Reply::BufferedAmount(amount) => Some(amount),
        _ => None,
    }
}

/// Carries out one step, and says what waits to be read then.
pub fn step_and_look(pair: &mut Pair, step: &Step) -> Reply
    ensures ready { (side : Side2) (s : ℕ) → IsOpen (end_of side pair.new) → GoesOnWithin pair.old pair.new (λ w v.
        IsKept (to_side side v) s → IsAllThatCame (end_of side pair.new) (to_side side v) s) }
    ensures front { (side : Side2) (s : ℕ) → GoesOnWithin pair.old pair.new (λ w v.
        IsKept (to_side side v) s → IsFrontOfWhatCame (to_side side v) s) }
    ensures mixed { (side : Side2) (s : ℕ) → IsOpen (end_of side pair.new) → GoesOnWithin pair.old pair.new (λ w v.
        IsReliable (to_side side v) s → IsAllToBeHad (end_of side pair.new) (to_side side v) s) }
{
    pair.step(step)
}
