// Delivering: a side takes in the DATA of the packet that it is handed, and nothing by any other step.
ghost use Rattle.std.specs.Prelude.{◌≡◌, ℕ};
ghost use Rattle.sctp_steps.specs.Seen.{other_side};
ghost use Rattle.pair_callers.specs.BetweenWorlds.{AssignsWhileOpen, GoesOn, IsAcknowledgedOn, from_side, to_side};
ghost use Rattle.pair_callers.specs.Delivering.{HasNoData, PassesBy, TakesNothing, TakesOf, packet_for};

use sctp_assoc::Instant;
use sctp_pair::{Pair, Reply, Side2, Step};

/// Hands a side the packet of this number that the other side gave out. Nothing is taken in of one that is refused or
/// is not there.
pub fn deliver_packet(pair: &mut Pair, side: Side2, number: u64, now: Instant) -> Reply
    ensures taken { GoesOn pair.old pair.new (λ w v. TakesOf (packet_for side number pair.old) side w v) }
    ensures without_data { HasNoData (packet_for side number pair.old) → GoesOn pair.old pair.new (λ w v.
        TakesNothing (to_side side w) (to_side side v)) }
    ensures refused { (result ≡ Reply.Done → ⊥) → GoesOn pair.old pair.new (λ w v.
        TakesNothing (to_side side w) (to_side side v)) }
    ensures passed { GoesOn pair.old pair.new (λ w v. PassesBy (packet_for side number pair.old) side w v) }
    ensures other { GoesOn pair.old pair.new (λ w v. TakesNothing (from_side side w) (from_side side v)) }
{
    pair.step(&Step::Deliver { side, number, now })
}

/// Lets the timers of a side expire.
pub fn expire_timers(pair: &mut Pair, side: Side2, now: Instant) -> Reply
    ensures { (x : Side2) → GoesOn pair.old pair.new (λ w v. TakesNothing (to_side x w) (to_side x v)) }
{
    pair.step(&Step::HandleTimeout { side, now })
}

/// Carries out one step: no acknowledgement is taken back, and a side that is closed or failed afterwards sent nothing
/// new.
pub fn step_once(pair: &mut Pair, step: &Step) -> Reply
    ensures acknowledged { (side : Side2) → GoesOn pair.old pair.new (λ w v.
        IsAcknowledgedOn (from_side side w) (from_side side v)) }
    ensures assigned { (side : Side2) → GoesOn pair.old pair.new (λ w v. AssignsWhileOpen side pair.new w v) }
{
    pair.step(step)
}
