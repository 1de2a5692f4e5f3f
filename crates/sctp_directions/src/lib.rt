//! What an association does to the two directions between which it stands, its own DATA and the DATA that comes to it,
//! as acts; and what each act is there. No code runs here; each empty function carries laws that are proved.
#![tactic(auto)]

ghost use Rattle.sctp_directions.specs.Laws.{AbandonmentsAssignOneOffset, AcceptedMessagesAreCounted};
ghost use Rattle.sctp_directions.specs.Laws.{ActsKeepTheInitialTsns, ClosedReceiversAreNotOpen, EventsKeepTheLimits};
ghost use Rattle.sctp_directions.specs.Laws.{ForwardsItTakesCome, ForwardsPassOverTheFront};
ghost use Rattle.sctp_directions.specs.Laws.{FreshDirectionsAreWithin, ItsAbandonmentsAreAlike};
ghost use Rattle.sctp_directions.specs.Laws.{ItsAcknowledgementsAreAlike, ItsDropsAreAlike, ItsForwardsSayTheSame};
ghost use Rattle.sctp_directions.specs.Laws.{ItsMarksAreNoEvents, ItsPiecesAreGiven, ItsSpansEnd};
ghost use Rattle.sctp_directions.specs.Laws.{ItsStartsAreNoEvents, SpansOfWhatComesEnd, WhatItDefersComes};
ghost use Rattle.sctp_directions.specs.Laws.{WhatItTakesInPastItsSpanComes};
ghost use Rattle.sctp_directions.specs.Laws.{ItsTailsAreAbandonedAlike, ItsWritesAreAccepted, NothingIsAcceptedAtFirst};
ghost use Rattle.sctp_directions.specs.Laws.{OnlyBeginningsAssign, OnlyEndsCloseReads, OnlyForwardMadeGivesForwards};
ghost use Rattle.sctp_directions.specs.Laws.{OnlyForwardsPassOver};
ghost use Rattle.sctp_directions.specs.Laws.{OnlyReadsGiveMessages, OnlySettingsLoosen, OnlyWhatIsBroughtIsTakenIn};
ghost use Rattle.sctp_directions.specs.Laws.{OnlyWritesAccept, OwnActsLeaveWhatComes, PeerKnownIsNoEvent};
ghost use Rattle.sctp_directions.specs.Laws.{PiecesAreCounted, ReceiversEventsAreReceived};
ghost use Rattle.sctp_directions.specs.Laws.{ReportsSayWhatWasTaken, SacksMeanTheSame, SendersEventsAreSent};
ghost use Rattle.sctp_directions.specs.Laws.{SendersEventsKeepTheInvariant, SettingsAreNoEvents};
ghost use Rattle.sctp_directions.specs.Laws.{ShortMessagesAreOnePiece, WhatComesLeavesItsOwn, WhatItTakesInComes};
ghost use Rattle.sctp_directions.specs.Laws.{WritesAreAcceptedLast};

/// What an association writes, sends again, finds acknowledged, abandons and drops happens at the sender of its
/// direction, and so do a FORWARD TSN that it makes and the end of a stream's span. Of marks, of deadlines and of what
/// an application sets on a stream that sender knows nothing.
pub fn its_own_acts_are_events()
    ensures writes { ItsWritesAreAccepted }
    ensures pieces { ItsPiecesAreGiven }
    ensures marks { ItsMarksAreNoEvents }
    ensures settings { SettingsAreNoEvents }
    ensures acknowledgements { ItsAcknowledgementsAreAlike }
    ensures sacks { SacksMeanTheSame }
    ensures abandonments { ItsAbandonmentsAreAlike }
    ensures tails { ItsTailsAreAbandonedAlike }
    ensures drops { ItsDropsAreAlike }
    ensures spans { ItsSpansEnd }
    ensures starts { ItsStartsAreNoEvents }
    ensures forwards { ItsForwardsSayTheSame }
{}

/// What an association takes in, keeps apart, passes over and reports happens at the receiver of the direction that
/// comes to it, and so does the end of a stream's span; that the peer's initial TSN becomes known is nothing to it.
pub fn what_comes_to_it_are_events()
    ensures taken { WhatItTakesInComes }
    ensures past { WhatItTakesInPastItsSpanComes }
    ensures deferred { WhatItDefersComes }
    ensures spans { SpansOfWhatComesEnd }
    ensures passed { ForwardsItTakesCome }
    ensures reports { ReportsSayWhatWasTaken }
    ensures peer_known { PeerKnownIsNoEvent }
{}

/// What an act in one direction leaves of the other, what no act changes, and what a setting or the end of a span alone
/// changes.
pub fn acts_leave_the_other_direction()
    ensures own { OwnActsLeaveWhatComes }
    ensures comes { WhatComesLeavesItsOwn }
    ensures initials { ActsKeepTheInitialTsns }
    ensures loose { OnlySettingsLoosen }
    ensures reads { OnlyEndsCloseReads }
{}

/// What an event at the sender leaves of a direction, and what it keeps.
pub fn events_at_the_sender_leave_the_receiver()
    ensures sent { SendersEventsAreSent }
    ensures accepted { OnlyWritesAccept }
    ensures last { WritesAreAcceptedLast }
    ensures assigned { OnlyBeginningsAssign }
    ensures marker { AbandonmentsAssignOneOffset }
    ensures forwards { OnlyForwardMadeGivesForwards }
    ensures invariant { SendersEventsKeepTheInvariant }
    ensures front { ForwardsPassOverTheFront }
{}

/// What an event at the receiver leaves of a direction.
pub fn events_at_the_receiver_leave_the_sender()
    ensures received { ReceiversEventsAreReceived }
    ensures taken { OnlyWhatIsBroughtIsTakenIn }
    ensures passed { OnlyForwardsPassOver }
    ensures reads { OnlyReadsGiveMessages }
    ensures closed { ClosedReceiversAreNotOpen }
{}

/// Accepted messages can be counted by their pieces.
pub fn accepted_messages_are_counted()
    ensures pieces { PiecesAreCounted }
    ensures one { ShortMessagesAreOnePiece }
    ensures first { NothingIsAcceptedAtFirst }
    ensures counted { AcceptedMessagesAreCounted }
{}

/// A direction in which nothing happened is within the limits, and many events keep it so.
pub fn directions_stay_within()
    ensures fresh { FreshDirectionsAreWithin }
    ensures limits { EventsKeepTheLimits }
{}
