//! What ends was closed (RFC 6525 section 5, RFC 8831 section 6.7), whatever the peer sends and whatever is called: no
//! stream is reset, and none ends, that neither the application closed nor the peer. No code runs here; the empty
//! function carries laws that are proved.
#![tactic(auto)]

ghost use Rattle.sctp_closed.specs.Closed.{CreatedSidesTellNoEnd, JoinedSidesTellNoEnd, OnlyClosedStreamsAreReset};
ghost use Rattle.sctp_closed.specs.Closed.{OnlyClosedStreamsEnd, OtherStreamsStayLive};

/// Over every list of calls of an association as a constructor leaves it, unless it failed: a request to reset streams
/// that goes out names none but streams that the application closed before, or that a request of the peer named which
/// came before (RFC 6525 sections 5.1 and 5.2.2); Finished, ResetComplete and ResetFailed are told of no other; and
/// each other stream that is live stays so, under the same generation, until the association is lost.
pub fn only_closed_streams_end()
    ensures reset { OnlyClosedStreamsAreReset }
    ensures told { OnlyClosedStreamsEnd }
    ensures live { OtherStreamsStayLive }
    ensures created { CreatedSidesTellNoEnd }
    ensures joined { JoinedSidesTellNoEnd }
{}
