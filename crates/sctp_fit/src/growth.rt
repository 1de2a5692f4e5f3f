// What events leave as it was.
ghost use Rattle.sctp_fit.specs.Growth.{EventsKeepTheCount, FreshOnesReceiveNothing, InitialTsnsAreNoEvents};
ghost use Rattle.sctp_fit.specs.Growth.{ReceiversEventsLeaveWhatIsSent, SendersEventsLeaveWhatComes};

/// An event at one end of a direction leaves what the association has at the other, begun messages stay counted as they
/// are, and at first nothing came, at the association as in the direction.
pub fn events_leave_the_other_end()
    ensures incoming { SendersEventsLeaveWhatComes }
    ensures outgoing { ReceiversEventsLeaveWhatIsSent }
    ensures counted { EventsKeepTheCount }
    ensures initials { InitialTsnsAreNoEvents }
    ensures fresh { FreshOnesReceiveNothing }
{}
