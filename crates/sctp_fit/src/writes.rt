// Writes, and streams that are opened.
ghost use Rattle.sctp_fit.specs.Writes.{FreshOnesFit, OpenedStreamsSendNothing, WritesAreAccepted};

/// A message that an association accepts, of at least one byte, is accepted by its direction; a stream that is opened
/// changes nothing there; and at first nothing is to be sent, at the association as in the direction.
pub fn writes_are_accepted()
    ensures writes { WritesAreAccepted }
    ensures opened { OpenedStreamsSendNothing }
    ensures fresh { FreshOnesFit }
{}
