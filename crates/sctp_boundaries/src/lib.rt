//! A stream between two associations across its resets: each performed request divides what is read by generations, in
//! both directions, whatever a network that alters and forges nothing does. No code runs here; each function carries
//! laws that are proved, and names by calls the laws of crates below on which they rest.
#![tactic(auto)]

ghost use Rattle.sctp_boundaries.specs.Laws.{ClientsAndServersBegin, JoinedPairsBegin};
ghost use Rattle.sctp_boundaries.specs.Laws.{RunsKeepBoundaries, StepsKeepBoundaries};

use sctp_reset_requests::{requests_are_held_back, requests_name_what_they_list};

/// Boundaries: two tokens join a pair of associations that stand between fresh courses of each stream, in both
/// directions, and so do a client and a server before any packet. Each step of a pair that stands between the courses
/// of a stream leads both on, by no more than can be seen of the sides, and keeps the boundaries of the stream's
/// resets: what is read is read in the course, in the generation of its stream (RFC 6525 section 5.2.2) and made of
/// DATA that the other side gave out, none of it twice; and a request that ended in success was performed, and divides
/// what is read at the last assigned TSN that it names (RFC 6525 section 4.1), from then on. So do steps one after
/// another, as long as few requests and offsets were sent: whatever is called, whichever of the packets that were given
/// out come, in whichever order and however often, and whether a side is open, lost or failed.
pub fn boundaries_are_kept()
    ensures joined { JoinedPairsBegin }
    ensures created { ClientsAndServersBegin }
    ensures steps { StepsKeepBoundaries }
    ensures runs { RunsKeepBoundaries }
{
    // what holds of requests alone
    requests_are_held_back();
    requests_name_what_they_list();
}
