//! Laws of one side of SCTP: what every [`Association`](sctp_assoc::Association) keeps to, whatever its peer sends (but
//! for what is said of a handshake, where the peer says what is so). They are said over the equations that its calls
//! have for contracts, and no call needs them. No code runs here; each function carries laws that are proved, and is
//! empty, or names by calls the laws of crates below on which they rest.
#![tactic(auto)]

ghost use Rattle.sctp_sides.specs.SideLaws.{AcceptedWritesFit, ChunksLeadOn, ClosedSidesExchangeNothing};
ghost use Rattle.sctp_sides.specs.SideLaws.{DataOpensOrTakes, EstablishedIsNotClosed};
ghost use Rattle.sctp_sides.specs.SideLaws.{EstablishedSidesTalk, FaultsClose, FoundStreamsAreLive};
ghost use Rattle.sctp_sides.specs.SideLaws.{ForwardsPassOver, GreetingsMakeThePeerKnown, IForwardsPassOver};
ghost use Rattle.sctp_sides.specs.SideLaws.{OnlyForwardsAheadPassOver, UnusedForwardsDoNothing};
ghost use Rattle.sctp_sides.specs.SideLaws.{AcceptedStreamsKeepTheStatus, ExhaustionCloses, GreetingsStayTrue};
ghost use Rattle.sctp_sides.specs.SideLaws.{LostAssociationsTakeNothing, NoPacketChangesNothing, SettingsHoldNothing};
ghost use Rattle.sctp_sides.specs.SideLaws.{LimitsKeepTheStatus, SettingsKeepTheStatus};
ghost use Rattle.sctp_sides.specs.SideLaws.{OpenedStreamsHoldNothing, OpenedStreamsKeepTheStatus};
ghost use Rattle.sctp_sides.specs.SideLaws.{OpenedStreamsWereNotLive, OtherChunksDoNothing, OtherSacksDoNothing};
ghost use Rattle.sctp_sides.specs.SideLaws.{EndpointEventsKeepTheStatus, OtherPollsDoNothingInFront, PacketsEnd};
ghost use Rattle.sctp_sides.specs.SideLaws.{PollsEndLast, PollsGiveAndReport, PollsKeepTheStage};
ghost use Rattle.sctp_sides.specs.SideLaws.{PollsLeadOnInFront, ShutdownsKeepTheStage, TheSameStatusIsTheSameStage};
ghost use Rattle.sctp_sides.specs.SideLaws.{PollsOutsideAnExchangeGiveWhatWaits, PollsSayTheirActs};
ghost use Rattle.sctp_sides.specs.SideLaws.{NoResetGoesOut, ReadsChangeStreamsAlone, ReadsKeepTheStatus};
ghost use Rattle.sctp_sides.specs.SideLaws.{SacksAcknowledge, TakenSacksAcknowledge, TheSameHandshakeIsTheSameStage};
ghost use Rattle.sctp_sides.specs.SideLaws.{TimeoutsMarkAtMost, TimersKeepTheStatus, ToldEventsKeepTheStatus};
ghost use Rattle.sctp_sides.specs.SideLaws.{WhatHoldsNothingGivesNothing, WhatWaitsGoesOutAsItIs, WritesKeepTheStatus};
ghost use Rattle.sctp_sides.specs.Ascending.{ClosesTellAscending, CreatedStreamsAscend, ForwardsAscend};
ghost use Rattle.sctp_sides.specs.Ascending.{JoinedStreamsAscend, RunsKeepStreamsAscending};
ghost use Rattle.sctp_sides.specs.Brought.{CallsHoldWhatCame, ReadsGiveWhatIsHeld};
ghost use Rattle.sctp_sides.specs.Ending.{PollsCompleteWhatIsDue, ShutdownsStayInOrder};
ghost use Rattle.sctp_sides.specs.NoReset.{AcceptedStreamsBeginNoReset, ClosesBeginNoReset, CreatedSidesResetNothing};
ghost use Rattle.sctp_sides.specs.NoReset.{EndpointEventsBeginNoReset, ShutdownsBeginNoReset};
ghost use Rattle.sctp_sides.specs.NoReset.{ExhaustionBeginsNoReset, JoinedSidesResetNothing, LimitsBeginNoReset};
ghost use Rattle.sctp_sides.specs.NoReset.{OpenedStreamsBeginNoReset, OtherChunksBeginNoReset, PacketEndsBeginNoReset};
ghost use Rattle.sctp_sides.specs.NoReset.{PollsBeginNoReset, ReadsBeginNoReset, SettingsBeginNoReset};
ghost use Rattle.sctp_sides.specs.NoReset.{TimersBeginNoReset, ToldEventsBeginNoReset, WritesBeginNoReset};
ghost use Rattle.sctp_sides.specs.PastSpan.{AcceptedStreamsResetNoMore, ChunksResetNoMore, ClosesEndResets};
ghost use Rattle.sctp_sides.specs.PastSpan.{ClosesResetNoMore, ExhaustionEndsResets, ExhaustionResetsNoMore};
ghost use Rattle.sctp_sides.specs.PastSpan.{EndpointEventsResetNoMore, ShutdownsResetNoMore};
ghost use Rattle.sctp_sides.specs.PastSpan.{LimitsResetNoMore, MoreArePast, MoreIsAskedPast, NoResetIsPastOnly};
ghost use Rattle.sctp_sides.specs.PastSpan.{OpenedStreamsResetNoMore, PacketEndsResetNoMore, PollsResetNoMore};
ghost use Rattle.sctp_sides.specs.PastSpan.{ReadsResetNoMore, SettingsResetNoMore, StopsResetThatStream};
ghost use Rattle.sctp_sides.specs.PastSpan.{TimersResetNoMore, ToldEventsResetNoMore, WritesResetNoMore};
ghost use Rattle.sctp_sides.specs.SideLaws.{OpenStopsResetThatStream, ReadsEndPast, ReadsLeadOn, ReconfigsEndPast};
ghost use Rattle.sctp_sides.specs.SideLaws.{StopsAreInEstablished, StopsKeepTheStatus};
ghost use Rattle.sctp_sides.specs.Causes.{CausesClose, ClosingPacketsHaveCauses, FaultsAreCauses};
ghost use Rattle.sctp_sides.specs.Generations.{CreatedSidesHaveNoGeneration, FinalsAreToldOnce};
ghost use Rattle.sctp_sides.specs.Generations.{GenerationsAreLiveOrFinal, JoinedSidesHaveNoGeneration};
ghost use Rattle.sctp_sides.specs.Intake.{DataIsTakenIn, LaterDataIsKeptApart, NothingElseIsKeptApart};
ghost use Rattle.sctp_sides.specs.Intake.{NothingElseIsTakenIn, UnreadDataIsLeft};
ghost use Rattle.sctp_sides.specs.Lifetimes.{CreatedSidesHaveNothingToSend, JoinedSidesHaveNothingToSend};
ghost use Rattle.sctp_sides.specs.Lifetimes.{NothingLateGoesOut, RetriesAreKept};
ghost use Rattle.sctp_sides.specs.Laws.{DueForwardsGoOut, DueSacksGoOut, FaultsAloneClose, OpenedStreamsDoNotClose};
ghost use Rattle.sctp_sides.specs.Laws.{EndedShutdownsAloneClose, EndpointEventsDoNotClose, ShutdownsDoNotClose};
ghost use Rattle.sctp_sides.specs.Laws.{AcceptedStreamsDoNotClose, ClosesClose, ExhaustingReadsAloneClose};
ghost use Rattle.sctp_sides.specs.Laws.{ExhaustingStopsAloneClose, LimitsDoNotClose};
ghost use Rattle.sctp_sides.specs.Laws.{PollsKeepWhatIsHeld, SacksAreSpelled, SacksNameTheLastTsn, SettingsDoNotClose};
ghost use Rattle.sctp_sides.specs.Laws.{PollsBeginWithWhatWaits, SacksOfferTheBuffer, SacksSayWhatWasTaken};
ghost use Rattle.sctp_sides.specs.Laws.{BundlesFitThePacket, NewDataStaysInTheCongestionWindow, TimersDoNotClose};
ghost use Rattle.sctp_sides.specs.Laws.{WhatWaitsIsGiven, WhatWaitsIsPolled, WritesAreHeld, WritesDoNotClose};
ghost use Rattle.sctp_sides.specs.Pieces.{CreatedSidesBeginToSend, JoinedSidesBeginToSend, PendingPiecesFit};
ghost use Rattle.sctp_sides.specs.Pieces.{PollsBeginWithNextPieces};
ghost use Rattle.sctp_sides.specs.Repeats.{CompletedNumbersAreRepeats, CompletedRequestsStay, DataBehindIsForLater};
ghost use Rattle.sctp_sides.specs.Repeats.{KeptDataReachesNoStream, LaterDataStaysOut, OtherDataIsReadNow};
ghost use Rattle.sctp_sides.specs.Repeats.{OwnRequestsWait, RetiringDataIsForLater, RetiringDataStaysOut};
ghost use Rattle.sctp_sides.specs.Repeats.{RepeatsAreOnlyAnswered, RepeatsEndNoGeneration};
ghost use Rattle.sctp_sides.specs.Repeats.{RepeatsRetireNothing, RepeatsStayKnown};
ghost use Rattle.sctp_sides.specs.Restarts.{CallsRestartQuietly, ChunksRestartQuietly, CreatedSidesAreQuiet};
ghost use Rattle.sctp_sides.specs.Restarts.{JoinedSidesAreQuiet, ParametersRestartQuietly};
ghost use Rattle.sctp_sides.specs.Restarts.{UnperformedRequestsRestartNothing, WritesWaitForResets};
ghost use Rattle.sctp_sides.specs.Runs.{ListsHoldWhatCame, LostRunsEndClosed, RunsAreListsOfCalls};
ghost use Rattle.sctp_sides.specs.Runs.{RunsDoTheirActs, RunsKeepRetries, RunsSendNothingLate};
ghost use Rattle.sctp_sides.specs.Runs.{RunsTellFinalsOnce, RunsTellOneLoss};
ghost use Rattle.sctp_sides.specs.Witnesses.{CookiesAreTimedInCookieEchoedAlone, CreatedSidesAreFresh};
ghost use Rattle.sctp_sides.specs.Witnesses.{DelayedSacksAreTimed, EchoedCookiesAreTimed, FailedSidesWaitForNothing};
ghost use Rattle.sctp_sides.specs.Witnesses.{FailuresStopTheTimers, InitsAreTimedInCookieWaitAlone};
ghost use Rattle.sctp_sides.specs.Witnesses.{JoinedSidesAreFresh, LossesAreToldOnce, LossesStopTheTimers};
ghost use Rattle.sctp_sides.specs.Witnesses.{LostSidesWaitForNothing, NoHandshakeTimerRunsOnceEstablished};
ghost use Rattle.sctp_sides.specs.Witnesses.{NothingInFlightIsNotTimed, OutstandingDataIsTimed, PollsTimeRequests};
ghost use Rattle.sctp_sides.specs.Witnesses.{SentInitsAreTimed, ShutdownsAreTimedInTheirStatesAlone};
ghost use Rattle.sctp_sides.specs.Witnesses.{ShutdownsFollowAllData, ShutdownsGoOnBehindData};
ghost use Rattle.sctp_sides.specs.Witnesses.{TimeoutsLeaveRequestsTimed};

use sctp_reset_requests::{completed_requests_are_known, requests_are_held_back};

/// Sending: the next piece that waits goes out with the next poll where nothing is in flight (RFC 4960 section 6.1),
/// unless its message is given up by then. One DATA chunk has room for it: over every list of calls of an association
/// that begins with nothing to send, as both constructors leave it, each piece that waits fits the payload size.
pub fn polls_begin_with_what_waits()
    ensures polled { WhatWaitsIsPolled }
    ensures given { WhatWaitsIsGiven }
    ensures packet { PollsBeginWithWhatWaits }
    ensures fit { PendingPiecesFit }
    ensures next { PollsBeginWithNextPieces }
    ensures created { CreatedSidesBeginToSend }
    ensures joined { JoinedSidesBeginToSend }
{}

/// Bundling: a packet of DATA has one chunk, or is at most `mtu` bytes long (RFC 4960 section 6.10).
pub fn bundles_fit_the_packet()
    ensures bundles { BundlesFitThePacket }
{}

/// Windows: new DATA leaves no more bytes outstanding than the congestion window has, or exactly one piece in flight
/// (RFC 4960 section 6.1, rule B).
pub fn new_data_stays_in_the_congestion_window()
    ensures window { NewDataStaysInTheCongestionWindow }
{}

/// Deadlines: over every list of calls of an association that begins with nothing to send, as both constructors leave
/// it, and whatever the peer sends, no poll gives out DATA of a message at or past its deadline where FORWARD TSN is in
/// use and the association has not failed (RFC 3758 section 3.5).
pub fn nothing_late_goes_out()
    ensures created { CreatedSidesHaveNothingToSend }
    ensures joined { JoinedSidesHaveNothingToSend }
    ensures late { NothingLateGoesOut }
{}

/// Retries: where FORWARD TSN is in use and the association has not failed, a piece of a message that may be sent again
/// n times is given out at most n + 1 times, over every list of calls and whatever the peer sends (RFC 7496 section
/// 3.1).
pub fn retries_are_kept()
    ensures retries { RetriesAreKept }
{}

/// Keeping: what was just written waits or is in flight, and a poll that does not fail loses none of what does, but
/// messages whose lifetime is over before any of them was sent.
pub fn writes_and_polls_lose_nothing()
    ensures written { WritesAreHeld }
    ensures polled { PollsKeepWhatIsHeld }
{}

/// Closing: a packet with a fault, one that ends a shutdown by SHUTDOWN COMPLETE, or one that leaves the receive buffer
/// exhausted, closes an open association, once, and no other packet does; so does a read that gives a message and
/// leaves the buffer exhausted, and no other read; so does a stop of a stream that leaves it so, and no other; so does
/// a poll for packets that gives SHUTDOWN COMPLETE, and no other; so does the application's close. No write, setting,
/// limit, opened or accepted stream, shutdown that begins or timer closes.
pub fn faults_alone_close()
    ensures packets { FaultsAloneClose }
    ensures writes { WritesDoNotClose }
    ensures streams { OpenedStreamsDoNotClose }
    ensures settings { SettingsDoNotClose }
    ensures accepted { AcceptedStreamsDoNotClose }
    ensures limits { LimitsDoNotClose }
    ensures reads { ExhaustingReadsAloneClose }
    ensures stops { ExhaustingStopsAloneClose }
    ensures closes { ClosesClose }
    ensures polls { EndedShutdownsAloneClose }
    ensures shutdowns { ShutdownsDoNotClose }
    ensures endpoint { EndpointEventsDoNotClose }
    ensures timers { TimersDoNotClose }
{}

/// Causes: a chunk is a fault, or ends a shutdown, exactly where it has one of the causes that are named, and so a
/// packet closes only by such a cause.
pub fn only_named_causes_close()
    ensures chunk { FaultsAreCauses }
    ensures packet { ClosingPacketsHaveCauses }
    ensures causes { CausesClose }
{}

/// Reporting: a SACK says what was taken in, is one datagram, and while DATA is exchanged goes out with the next poll
/// where it is due (RFC 4960 sections 3.3.4 and 6.2); so does FORWARD TSN, behind it (RFC 3758 section 3.5).
pub fn sacks_name_the_last_tsn()
    ensures last_tsn { SacksNameTheLastTsn }
    ensures said { SacksSayWhatWasTaken }
    ensures window { SacksOfferTheBuffer }
    ensures spelled { SacksAreSpelled }
    ensures due { DueSacksGoOut }
    ensures forward { DueForwardsGoOut }
{}

/// Intake: DATA that may be taken in is taken in, and nothing else is (RFC 4960 section 6.2); where nobody reads its
/// stream any more, it is taken in without going to that; and DATA of a generation of its stream that is not read yet
/// is kept apart so (RFC 6525 section 5.2.2).
pub fn data_is_taken_in()
    ensures taken { DataIsTakenIn }
    ensures unread { UnreadDataIsLeft }
    ensures no_other { NothingElseIsTakenIn }
    ensures kept { LaterDataIsKeptApart }
    ensures no_other_kept { NothingElseIsKeptApart }
{}

/// Integrity: a message that is read on a stream was made of DATA chunks that came, whatever the peer sends: of all
/// pieces of one message on that stream, from the one that begins it to the one that ends it, each with the TSN after
/// that of the one in front of it, in order under one stream sequence number or all in no order, and of one payload
/// type. All that waits to be read came, and complete messages that wait are made so, too.
pub fn what_is_read_came()
    ensures held { CallsHoldWhatCame }
    ensures lists { ListsHoldWhatCame }
    ensures read { ReadsGiveWhatIsHeld }
{}

/// Status: whether it failed, its state, whether it was lost, its payload size, its side and its handshake change by no
/// call of the application but a shutdown, a close, and a read or a stop that closes, no timer and no poll that is
/// carried out, and what waits to go out stays truthful; a poll may lead a shutdown on, and end it. (One that finds no
/// memory in its middle fails the association.)
pub fn calls_keep_the_status()
    ensures opened { OpenedStreamsKeepTheStatus }
    ensures written { WritesKeepTheStatus }
    ensures set { SettingsKeepTheStatus }
    ensures accepted { AcceptedStreamsKeepTheStatus }
    ensures limits { LimitsKeepTheStatus }
    ensures read { ReadsKeepTheStatus }
    ensures read_plainly { ReadsChangeStreamsAlone }
    ensures read_on { ReadsLeadOn }
    ensures stopped { StopsKeepTheStatus }
    ensures stopped_where { StopsAreInEstablished }
    ensures told { ToldEventsKeepTheStatus }
    ensures timers { TimersKeepTheStatus }
    ensures polled { PollsKeepTheStage }
    ensures endpoint { EndpointEventsKeepTheStatus }
    ensures shutdowns { ShutdownsKeepTheStage }
    ensures stage { TheSameStatusIsTheSameStage }
{}

/// Resets: an association in which no reset of a stream is under way is one after each call but that which stops a
/// stream, and after each chunk but RE-CONFIG; each begins so (RFC 6525 section 5, RFC 8831 section 6.7).
pub fn calls_begin_no_reset()
    ensures created { CreatedSidesResetNothing }
    ensures joined { JoinedSidesResetNothing }
    ensures opened { OpenedStreamsBeginNoReset }
    ensures written { WritesBeginNoReset }
    ensures set { SettingsBeginNoReset }
    ensures limits { LimitsBeginNoReset }
    ensures accepted { AcceptedStreamsBeginNoReset }
    ensures read { ReadsBeginNoReset }
    ensures told { ToldEventsBeginNoReset }
    ensures shutdowns { ShutdownsBeginNoReset }
    ensures endpoint { EndpointEventsBeginNoReset }
    ensures closed { ClosesBeginNoReset }
    ensures exhausted { ExhaustionBeginsNoReset }
    ensures timers { TimersBeginNoReset }
    ensures polled { PollsBeginNoReset }
    ensures chunks { OtherChunksBeginNoReset }
    ensures ends { PacketEndsBeginNoReset }
{}

/// Resets of streams that are past their span: an association whose resets concern such streams alone is one after each
/// call, where no other stream is stopped, and after each chunk, if it is no RE-CONFIG that names another stream. A
/// close leaves no reset under way.
pub fn resets_stay_past_the_span()
    ensures more { MoreArePast }
    ensures asked { MoreIsAskedPast }
    ensures none { NoResetIsPastOnly }
    ensures opened { OpenedStreamsResetNoMore }
    ensures written { WritesResetNoMore }
    ensures set { SettingsResetNoMore }
    ensures limits { LimitsResetNoMore }
    ensures accepted { AcceptedStreamsResetNoMore }
    ensures read { ReadsResetNoMore }
    ensures read_past { ReadsEndPast }
    ensures told { ToldEventsResetNoMore }
    ensures shutdowns { ShutdownsResetNoMore }
    ensures endpoint { EndpointEventsResetNoMore }
    ensures closed { ClosesResetNoMore }
    ensures exhausted { ExhaustionResetsNoMore }
    ensures stopped { StopsResetThatStream }
    ensures stopped_open { OpenStopsResetThatStream }
    ensures timers { TimersResetNoMore }
    ensures polled { PollsResetNoMore }
    ensures chunks { ChunksResetNoMore }
    ensures ends { PacketEndsResetNoMore }
    ensures over { ClosesEndResets }
    ensures exhaustion { ExhaustionEndsResets }
{}

/// Stages: what a side's packets said of its handshake stays so in each later stage (RFC 4960 section 5.1). Where the
/// handshake is the same, so is the stage.
pub fn greetings_stay_true()
    ensures same { TheSameHandshakeIsTheSameStage }
    ensures established { EstablishedSidesTalk }
    ensures greetings { GreetingsStayTrue }
{}

/// Refusing: what a call that was not refused could rely on.
pub fn accepted_calls_could_be_done()
    ensures found { FoundStreamsAreLive }
    ensures opened { OpenedStreamsWereNotLive }
    ensures written { AcceptedWritesFit }
{}

/// Reading: where no stream holds anything, none does after a stream is opened or read, and nothing is read.
pub fn nothing_comes_of_nothing()
    ensures opened { OpenedStreamsHoldNothing }
    ensures set { SettingsHoldNothing }
    ensures read { WhatHoldsNothingGivesNothing }
{}

/// Packets: each chunk leads on by its acts, and so does the end; where a chunk is one of a truthful peer's handshake,
/// that goes on. A fault closes, and an association that was lost takes nothing.
pub fn packets_lead_on()
    ensures chunks { ChunksLeadOn }
    ensures ends { PacketsEnd }
    ensures faults { FaultsClose }
    ensures exhausted { ExhaustionCloses }
    ensures closed { EstablishedIsNotClosed }
    ensures exchanges { ClosedSidesExchangeNothing }
    ensures lost { LostAssociationsTakeNothing }
    ensures none { NoPacketChangesNothing }
{}

/// Acts: of which acts each chunk, a poll and timeouts are made, and that the packets of a poll say what its acts give
/// out.
pub fn calls_are_made_of_acts()
    ensures data { DataOpensOrTakes }
    ensures reconfig { ReconfigsEndPast }
    ensures sack { SacksAcknowledge }
    ensures taken { TakenSacksAcknowledge }
    ensures older { OtherSacksDoNothing }
    ensures greeting { GreetingsMakeThePeerKnown }
    ensures forward { ForwardsPassOver }
    ensures i_forward { IForwardsPassOver }
    ensures unused { UnusedForwardsDoNothing }
    ensures ahead { OnlyForwardsAheadPassOver }
    ensures other { OtherChunksDoNothing }
    ensures poll { PollsGiveAndReport }
    ensures other_poll { OtherPollsDoNothingInFront }
    ensures ending { PollsEndLast }
    ensures front { PollsLeadOnInFront }
    ensures silent { PollsOutsideAnExchangeGiveWhatWaits }
    ensures packets { PollsSayTheirActs }
    ensures no_reset { NoResetGoesOut }
    ensures waiting { WhatWaitsGoesOutAsItIs }
    ensures timeouts { TimeoutsMarkAtMost }
{}

/// Losing: over every list of calls that a side gets, the losses that were told and those that wait to be told are one
/// if it was lost, otherwise none; one that failed told of at most one.
pub fn at_most_one_loss()
    ensures created { CreatedSidesAreFresh }
    ensures joined { JoinedSidesAreFresh }
    ensures told { LossesAreToldOnce }
{}

/// Runs: from a past on which the association stands, the calls of a run, by the contract of `sctp_calls::run`, are a
/// list of calls of one side, and the events that their replies tell are those that it tells. So a run of an
/// association as a constructor leaves it tells of at most one loss, and where it was lost it is closed at the end and
/// waits for no moment; and a run that begins with no stream tells last counters at most once. Where the association
/// has not failed at the end, the calls of a run do their acts in order: so a run of an association as a constructor
/// leaves it keeps retries where FORWARD TSN is in use (RFC 7496 section 3.1), and none of its polls gives out DATA of
/// a message at or past its deadline then (RFC 3758 section 3.5).
pub fn runs_are_lists_of_calls()
    ensures calls { RunsAreListsOfCalls }
    ensures losses { RunsTellOneLoss }
    ensures lost { LostRunsEndClosed }
    ensures finals { RunsTellFinalsOnce }
    ensures acts { RunsDoTheirActs }
    ensures retries { RunsKeepRetries }
    ensures in_time { RunsSendNothingLate }
{}

/// Generations: over every list of calls that a side gets and that begins with no stream, each number that a stream was
/// given is that of a live stream, or of a stream that ended and whose last counters were told or wait to be told, and
/// of nothing twice, unless the side failed; and no last counters are told twice, whether it failed or not.
pub fn generations_end_once()
    ensures created { CreatedSidesHaveNoGeneration }
    ensures joined { JoinedSidesHaveNoGeneration }
    ensures live_or_final { GenerationsAreLiveOrFinal }
    ensures told_once { FinalsAreToldOnce }
{}

/// Timing: over every list of calls each timer of DATA, of the handshake and of acknowledgements runs where it should,
/// unless its retries passed their limit, and there alone (RFC 4960 sections 5.1, 6.2 and 6.3.2), and that of the
/// answer to SHUTDOWN or SHUTDOWN ACK runs where one is awaited alone (section 9.2). A poll leaves the timer of a
/// request to reset streams running that is not answered, and so does a timeout (RFC 6525 section 5.1.1). A side that
/// failed or was lost waits for no moment.
pub fn timers_run_where_they_should()
    ensures data { OutstandingDataIsTimed }
    ensures no_data { NothingInFlightIsNotTimed }
    ensures inits { SentInitsAreTimed }
    ensures cookies { EchoedCookiesAreTimed }
    ensures inits_alone { InitsAreTimedInCookieWaitAlone }
    ensures cookies_alone { CookiesAreTimedInCookieEchoedAlone }
    ensures established { NoHandshakeTimerRunsOnceEstablished }
    ensures acknowledgements { DelayedSacksAreTimed }
    ensures shutdowns { ShutdownsAreTimedInTheirStatesAlone }
    ensures requests { PollsTimeRequests }
    ensures requests_again { TimeoutsLeaveRequestsTimed }
    ensures failures { FailuresStopTheTimers }
    ensures losses { LossesStopTheTimers }
    ensures failed { FailedSidesWaitForNothing }
    ensures lost { LostSidesWaitForNothing }
{}

/// Ending: over every list of calls a shutdown waits until all DATA of this side is acknowledged, and no longer (RFC
/// 4960 section 9.2). Each call leaves a shutdown in that order: where an answer is awaited a chunk of the shutdown is
/// due or the timer of the answer runs, so that it does not stop for good. A poll gives SHUTDOWN COMPLETE where it was
/// due before.
pub fn shutdowns_wait_for_data()
    ensures follow { ShutdownsFollowAllData }
    ensures go_on { ShutdownsGoOnBehindData }
    ensures order { ShutdownsStayInOrder }
    ensures complete { PollsCompleteWhatIsDue }
{}

/// Repeats: a request of the peer to reset streams whose number is at or below the last completed one, and is not in
/// progress, is answered as performed and retires nothing; over every list of calls completed requests stay so. A
/// request of this side waits until no other one is active and no DATA of its streams waits or is in flight. DATA
/// behind a request of the peer in progress stays out of its stream, and so does new DATA of a stream of which an ended
/// generation is still read, and no other DATA (RFC 6525 sections 5.1.2, 5.2.1 and 5.2.2).
pub fn repeats_retire_nothing()
    ensures repeats { CompletedNumbersAreRepeats }
    ensures known { RepeatsRetireNothing }
    ensures silent { RepeatsAreOnlyAnswered }
    ensures retires { RepeatsEndNoGeneration }
    ensures stay { CompletedRequestsStay }
    ensures repeated { RepeatsStayKnown }
    ensures held_back { OwnRequestsWait }
    ensures behind { DataBehindIsForLater }
    ensures retiring { RetiringDataIsForLater }
    ensures no_other { OtherDataIsReadNow }
    ensures kept_out { KeptDataReachesNoStream }
    ensures stays_out { LaterDataStaysOut }
    ensures retiring_stays_out { RetiringDataStaysOut }
{
    // what holds of requests by their numbers alone
    completed_requests_are_known();
    requests_are_held_back();
}

/// Restarts: over every list of calls, unless the association fails, no DATA of the streams that an active request of
/// this side resets waits or is in flight. What ends such a request in success leaves each stream as it was, but those
/// that it resets, of which nothing is outstanding: so the stream sequence numbers of live streams begin again on quiet
/// streams alone (RFC 6525 sections 5.1.2 and 5.2.7, RFC 4960 section 6.6). A response that does not tell of success
/// changes no stream. A stream that is made anew begins at 0, too; a write that nothing refuses is on a stream that is
/// not blocked.
pub fn streams_restart_quietly()
    ensures created { CreatedSidesAreQuiet }
    ensures joined { JoinedSidesAreQuiet }
    ensures writes { WritesWaitForResets }
    ensures calls { CallsRestartQuietly }
    ensures chunks { ChunksRestartQuietly }
    ensures parameters { ParametersRestartQuietly }
    ensures unperformed { UnperformedRequestsRestartNothing }
{
    // what holds of requests by what waits and is in flight alone
    requests_are_held_back();
}

/// Identifiers: over every list of calls of an association that a constructor made, and whatever the peer sends, the
/// identifiers of the live streams ascend, unless the association failed; so do those of the last counters that a close
/// tells, and those of the streams that a FORWARD TSN names (RFC 3758 section 3.2).
pub fn identifiers_ascend()
    ensures created { CreatedStreamsAscend }
    ensures joined { JoinedStreamsAscend }
    ensures streams { RunsKeepStreamsAscending }
    ensures finals { ClosesTellAscending }
    ensures forwards { ForwardsAscend }
{}
