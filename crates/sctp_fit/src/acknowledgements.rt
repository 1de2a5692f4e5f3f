// Acknowledgements.
ghost use Rattle.sctp_fit.specs.Acknowledgements.{AcknowledgementsAreAlike, SendersArePinned};
ghost use Rattle.sctp_fit.specs.Acknowledgements.{WhatIsReleasedIsNotBuffered};

/// What a SACK acknowledges at an association, by its cumulative TSN ack and by gap ack blocks, it acknowledges at the
/// direction's sender, and the same bytes are released (RFC 4960 section 6.2.1).
pub fn acknowledgements_are_alike()
    ensures acknowledged { AcknowledgementsAreAlike }
    ensures released { WhatIsReleasedIsNotBuffered }
    ensures pinned { SendersArePinned }
{}
