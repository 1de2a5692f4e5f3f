// The cumulative TSN ack of a SACK.
ghost use Rattle.sctp_fit.specs.CumulativeAcks.{CumulativeAcksTakeTheFirstPieces, SacksTakeWhatTheyName};

/// A cumulative TSN ack acknowledges the first pieces in flight, and what is done for one after the other is what
/// is done for them at once; so it is where gap ack blocks follow (RFC 4960 section 6.2.1).
pub fn cumulative_acks_take_the_first_pieces()
    ensures first { CumulativeAcksTakeTheFirstPieces }
    ensures blocks { SacksTakeWhatTheyName }
{}
