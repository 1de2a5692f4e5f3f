// Messages that are cut into pieces.
ghost use Rattle.sctp_fit.specs.Cuts.{CutsArePieces};

/// A message that is cut into pieces is cut into those of its direction (RFC 4960 section 6.9).
pub fn cuts_are_pieces()
    ensures cuts { CutsArePieces }
{}
