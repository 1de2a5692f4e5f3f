// What holds of requests over all that can happen to them.
ghost use Rattle.sctp_reset_requests.specs.Laws.{CompletedStayCompleted, CompletedAreKnown, AskedEndsNone};
ghost use Rattle.sctp_reset_requests.specs.Laws.{OneIsActive, OneIsOpen, DataHoldsBack, NamesAreThoseListed};

/// Whatever comes, a request of the peer that was completed stays so, and a repeat of it is answered as it was and
/// resets nothing. What this side asks for ends no request of the peer that is in progress: it names the last one that
/// was completed.
pub fn completed_requests_are_known()
    ensures stay { CompletedStayCompleted }
    ensures known { CompletedAreKnown }
    ensures none_ended { AskedEndsNone }
{}

/// A request of the peer is for the streams that it lists, and for all where it lists none.
pub fn requests_name_what_they_list()
    ensures { NamesAreThoseListed }
{}

/// A request goes out for the first time where no other one is active and no DATA of its streams waits or is
/// unacknowledged.
pub fn requests_are_held_back()
    ensures active { OneIsActive }
    ensures made { OneIsOpen }
    ensures data_waits { DataHoldsBack }
{}
