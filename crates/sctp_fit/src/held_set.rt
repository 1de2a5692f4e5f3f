// The TSNs that are held past the receiver's last TSN in order.
ghost use Rattle.sctp_fit.specs.HeldSet.{BlocksNameWhatCame, NewTsnsDidNotCome, NothingIsHeldAtFirst, TheSetFollows};
ghost use Rattle.sctp_fit.specs.HeldSet.{TheSetIsPassedOver, TsnsAheadAreNotBehind};

/// The TSNs that a receiver holds past its last TSN in order are those of the offsets past the reach that came. A new
/// one moves the last TSN in order with the reach, and so does a FORWARD TSN. Gap ack blocks made of them name what
/// came (RFC 4960 sections 3.3.4 and 6.2, RFC 3758 section 3.6).
pub fn the_set_holds_what_lies_past_the_reach()
    ensures new { NewTsnsDidNotCome }
    ensures follows { TheSetFollows }
    ensures ahead { TsnsAheadAreNotBehind }
    ensures passed { TheSetIsPassedOver }
    ensures blocks { BlocksNameWhatCame }
    ensures first { NothingIsHeldAtFirst }
{}
