// Messages that are dropped unsent.
ghost use Rattle.sctp_fit.specs.Drops.{DropsAreAlike};

/// A message that isn't reliable and of which nothing was sent is dropped alike by an association and its direction
/// (RFC 3758 section 3.5).
pub fn drops_are_alike()
    ensures { DropsAreAlike }
{}
