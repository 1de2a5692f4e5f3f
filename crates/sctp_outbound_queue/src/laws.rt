// What holds of the queue's calls together.
ghost use Rattle.sctp_outbound_queue.specs.Laws.{SendsBytes, PopsBytes, AcknowledgesBytes, AbandonsBytes, ExpiresBytes};
ghost use Rattle.sctp_outbound_queue.specs.Laws.{ExpiresTailBytes, AbandonsWhole, PiecesAreCut};

/// Sending leaves the number of bytes that wait or are outstanding, and each call that answers bytes answers exactly
/// those by which they became fewer.
pub fn released_bytes_are_exact()
    ensures sent { SendsBytes }
    ensures popped { PopsBytes }
    ensures acknowledged { AcknowledgesBytes }
    ensures abandoned { AbandonsBytes }
    ensures expired { ExpiresBytes }
    ensures tail { ExpiresTailBytes }
{}

/// Once a message is abandoned, no piece of it in flight is not (RFC 3758 section 3.5).
pub fn abandonment_is_whole()
    ensures { AbandonsWhole }
{}

/// The pieces into which a message is cut are its bytes in their order, and only the last one may be shorter than the
/// size (RFC 4960 section 6.9).
pub fn pieces_are_the_bytes()
    ensures { PiecesAreCut }
{}
