//! Two ends of an association as definitions, and what is proved over them.
#![tactic(auto)]

ghost use Rattle.sctp_model.specs.Laws.{EachEventKeepsTheInvariant, OneDirectionIsSafe, TheInvariantHolds};
ghost use Rattle.sctp_model.specs.Laws.{TheInvariantIsEnough, NoMoreIsReleased, PiecesJoin, ReachIsGreatest};
ghost use Rattle.sctp_model.specs.Laws.{SacksAreExact, TheCursorIsPastTheLater};
ghost use Rattle.sctp_model.specs.Laws.{TsnsAheadSpellOffsets, TsnsBeforeTheInitialSpellNone};
ghost use Rattle.sctp_model.specs.Laws.{TsnsPastTheInitialSpellSome, TsnsSpellOffsets};
ghost use Rattle.sctp_model.specs.Runs.{ClosedReadsNothing, DroppedUnsent, FirstAbandonedAndSkipped};
ghost use Rattle.sctp_model.specs.Runs.{LateForwardChangesNothing, LateNumberLeavesTheCursor, PiecesOutOfOrder};
ghost use Rattle.sctp_model.specs.Runs.{SacksReleaseOnce, SequenceNumbersWrap, StreamBeginsAnew, StreamsDoNotWait};
ghost use Rattle.sctp_model.specs.Runs.{UnorderedIsDropped, UnorderedIsReadFirst};

/// Serial numbers of 32 bits, as long as the offsets that they spell are less than half the range apart (RFC 4960
/// section 1.6).
pub fn tsns_spell_offsets()
    ensures near { TsnsSpellOffsets }
    ensures ahead { TsnsAheadSpellOffsets }
    ensures before { TsnsBeforeTheInitialSpellNone }
    ensures past { TsnsPastTheInitialSpellSome }
{}

/// The cut of a message into pieces (RFC 4960 section 6.9).
pub fn pieces_join()
    ensures { PiecesJoin }
{}

/// The cumulative reach of a receiver, and the SACK that it makes (RFC 4960 sections 3.3.4 and 6.2).
pub fn sacks_are_exact()
    ensures reach { ReachIsGreatest }
    ensures sack { SacksAreExact }
{}

/// The machine does something: runs of a few events, with what is read in them.
pub fn runs_compute()
    ensures pieces { PiecesOutOfOrder }
    ensures skipped { FirstAbandonedAndSkipped }
    ensures late { LateForwardChangesNothing }
    ensures unordered { UnorderedIsReadFirst }
    ensures wrap { SequenceNumbersWrap }
    ensures cursor { LateNumberLeavesTheCursor }
    ensures released { SacksReleaseOnce }
    ensures dropped { UnorderedIsDropped }
    ensures streams { StreamsDoNotWait }
    ensures unsent { DroppedUnsent }
    ensures closed { ClosedReadsNothing }
    ensures anew { StreamBeginsAnew }
{}

/// One direction of an association over every list of what may happen, for many streams at once: what is read was
/// accepted, whole, at most once and in order; on a reliable stream, what was or can be read at an open receiver is
/// exactly the longest accepted front whose pieces were all taken in, and no byte is released earlier.
pub fn one_direction_is_safe()
    ensures safe { OneDirectionIsSafe }
    ensures invariant { TheInvariantHolds }
{}

/// What carries that theorem, for whoever builds on it: each event keeps the invariant from any direction on that is
/// within the limits, and the invariant with the limits gives the promise. It fixes each ordered cursor too, and no
/// more bytes are released than were accepted.
pub fn the_invariant_carries()
    ensures kept { EachEventKeepsTheInvariant }
    ensures enough { TheInvariantIsEnough }
    ensures cursor { TheCursorIsPastTheLater }
    ensures released { NoMoreIsReleased }
{}
