// What one side of a pair does by the laws of one side. No code runs here.
ghost use Rattle.sctp_pair.specs.Sides.{FreshSidesStand, SidesKeepRetries, SidesRunByTheirCalls};
ghost use Rattle.sctp_pair.specs.Sides.{SidesSendNothingLate};

/// Sides: what steps of a pair do at one side is a run of its calls, by the contract of `sctp_calls::run`, to which
/// come the datagrams that the other side gave out, and which gives out the packets of that side. So each law of one
/// side over a run is one of each side of a pair. A side as a constructor leaves it, which has not failed at the end,
/// keeps retries where FORWARD TSN is in use (RFC 7496 section 3.1), and no poll of it gives out DATA of a message at
/// or past its deadline (RFC 3758 section 3.5): whatever the other side does, and whichever packets come.
pub fn sides_run_by_their_calls()
    ensures runs { SidesRunByTheirCalls }
    ensures stand { FreshSidesStand }
    ensures retries { SidesKeepRetries }
    ensures in_time { SidesSendNothingLate }
{}
