// How many pieces a direction may accept.
ghost use Rattle.sctp_fit.specs.FewPieces.{FewPiecesStayWithin};

/// Where fewer than 16,384 pieces were accepted in a direction, whatever their messages' order, reliability and length,
/// its TSNs, what is in flight and what waits to be read stay within the limits, in which no number meets itself again.
pub fn few_pieces_stay_within()
    ensures within { FewPiecesStayWithin }
{}
