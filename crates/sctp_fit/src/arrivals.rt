// DATA that comes, and reads.
ghost use Rattle.sctp_fit.specs.Arrivals.{DataPastItsSpanComes, NewTsnsSpellTheirOffsets, OpenedStreamsAreAlike};
ghost use Rattle.sctp_fit.specs.Arrivals.{ReadersArePinned};
ghost use Rattle.sctp_fit.specs.Arrivals.{ReadsAreAlike, ReportsChangeNothing, TheSameStreamsAreReady};
ghost use Rattle.sctp_fit.specs.Arrivals.{WhatIsTakenInComes};

/// DATA that an association takes in, in whatever order, comes to the receiver of the direction, and its readers get
/// what that one's readers get (RFC 4960 sections 6.2, 6.5 and 6.6). Of a stream past its span they may get anything.
pub fn what_comes_is_alike()
    ensures offsets { NewTsnsSpellTheirOffsets }
    ensures taken { WhatIsTakenInComes }
    ensures past { DataPastItsSpanComes }
    ensures opened { OpenedStreamsAreAlike }
    ensures reads { ReadsAreAlike }
    ensures ready { TheSameStreamsAreReady }
    ensures reports { ReportsChangeNothing }
    ensures pinned { ReadersArePinned }
{}
