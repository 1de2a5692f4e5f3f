//! What ends was closed (RFC 6525 section 5, RFC 8831 section 6.7), of two associations whose datagrams a network
//! neither alters nor forges. No code runs here; the function carries laws that are proved, and names by a call the law
//! of a crate below on which they rest.
#![tactic(auto)]

ghost use Rattle.sctp_closed_between.specs.Between.{ClientsAndServersBeginUnclosed, JoinedPairsBeginUnclosed};
ghost use Rattle.sctp_closed_between.specs.Between.{OnlyClosedStreamsEndBetween};

use sctp_boundaries::boundaries_are_kept;

/// Over every list of steps of a pair since it was new, of which nothing was closed (`joined`, `created`), and as long
/// as few requests and offsets were sent: Finished, ResetComplete and ResetFailed are told of no stream but those that
/// the application of one of the sides closed before, by a stop or a close of both halves (`runs`).
pub fn only_closed_streams_end_between()
    ensures joined { JoinedPairsBeginUnclosed }
    ensures created { ClientsAndServersBeginUnclosed }
    ensures runs { OnlyClosedStreamsEndBetween }
{
    // where the sides stand between the courses of a stream
    boundaries_are_kept();
}
