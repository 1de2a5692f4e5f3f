// Messages that are abandoned.
ghost use Rattle.sctp_fit.specs.Abandonments.{AbandonmentsAreAlike, TailsAreAbandonedAlike};

/// A message that isn't reliable and of which something was sent is abandoned whole by an association and its direction
/// alike (RFC 3758 section 3.5).
pub fn abandonments_are_alike()
    ensures pieces { AbandonmentsAreAlike }
    ensures tails { TailsAreAbandonedAlike }
{}
