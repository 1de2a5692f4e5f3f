// What the timers of an association ask for, which ends where its peer is silent for good.
ghost use Rattle.std.specs.Prelude.{◌≡◌, ◌↔◌, ◌⊎◌, Err, IsErrOf, OnErr, OnOk, true};
ghost use Rattle.sctp_parts.specs.Timers.{passes};
ghost use Rattle.sctp_assoc.specs.Shown.{HasFailed, answers_of};
ghost use Rattle.sctp_driver.specs.Silence.{gives_up, hears_nothing, timed_out, timing_out_takes_memory};

use crate::lending::meet_timers;
use sctp_assoc::{Association, Error, Instant, Profile};

// Does what the timers ask for that expired by this moment, in nanoseconds. By the rules of the RFCs the association
// closes instead where DATA or SHUTDOWN ACK went unanswered past its limit.
#[tactic(auto, using(crate::proofs::Silenced::given_up, crate::proofs::Silenced::gone_on, crate::proofs::Silenced::closing_takes_memory, crate::proofs::Silenced::timers_take_memory))]
pub(crate) fn time_out(
    association: &mut Association,
    shutdown_limit: Option<usize>,
    now: u64,
) -> Result<(), Error>
    ensures ok { OnOk result (association.new ≡ timed_out association.old shutdown_limit now) }
    ensures failed { IsErrOf result Error.ErrAssociationFailed ↔ (association.old.failed ≡ true) }
    ensures refused { IsErrOf result Error.ErrAssociationFailed → association.new ≡ association.old }
    ensures memory { IsErrOf result Error.ErrNoMemory → HasFailed (answers_of association.old) association.new }
    ensures again { IsErrOf result Error.ErrNoMemory
        → timing_out_takes_memory association.old shutdown_limit now ≡ true }
    ensures only { OnErr result ((result ≡ Err Error.ErrAssociationFailed) ⊎ (result ≡ Err Error.ErrNoMemory)) }
{
    if association.is_failed() {
        return Err(Error::ErrAssociationFailed);
    }
    if gives_up(association, shutdown_limit, now) {
        return association.close();
    }
    meet_timers(association, now)
}

#[tactic(auto, unfolding(crate::specs::Silence::gives_up))]
fn gives_up(association: &Association, shutdown_limit: Option<usize>, now: u64) -> bool
    ensures { result ≡ gives_up association.now shutdown_limit now }
{
    matches!(association.profile(), Profile::Rfc)
        && !association.is_closed()
        && hears_nothing(association, shutdown_limit, now)
}

fn hears_nothing(association: &Association, shutdown_limit: Option<usize>, now: u64) -> bool
    ensures { result ≡ hears_nothing association.now shutdown_limit now }
{
    let now = Instant::from_nanos(now);
    association.falls_silent(now)
        || is_past(association.unanswered_shutdown_acks(now), shutdown_limit)
}

fn is_past(count: usize, limit: Option<usize>) -> bool
    ensures { result ≡ passes count limit }
{
    match limit {
        Some(limit) => count > limit,
        None => false,
    }
}
