// DATA that goes out.
ghost use Rattle.sctp_fit.specs.Sendings.{MarksAreNoEvents, PiecesAreGiven, SentPiecesAreEvents, StartsAreNoEvents};

/// DATA that an association sends, for the first time or again, is DATA of its direction, and what it notes of the
/// sendings and of their deadlines changes nothing there (RFC 4960 sections 6.1 and 6.9).
pub fn sent_pieces_are_events()
    ensures sent { SentPiecesAreEvents }
    ensures again { PiecesAreGiven }
    ensures marks { MarksAreNoEvents }
    ensures starts { StartsAreNoEvents }
{}
