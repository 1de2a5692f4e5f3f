//! The reassembly of one stream stands for the queue of the model, for ordered messages and for unordered ones: several
//! pieces a message, any order of arrival, skips and drops.
#![tactic(auto)]

ghost use Rattle.sctp_reassembly.specs.Laws.{AForwardThatComesStands, AReadThatHappensStands, BoundedSkipsSpare};
ghost use Rattle.sctp_reassembly.specs.Laws.{BoundedSkipsStand, DataThatComesStands, EmptyOnesStand};
ghost use Rattle.sctp_reassembly.specs.Laws.{OrderedPiecesStand, OrderedSkipsStand, ReadsAnswerAlike};
ghost use Rattle.sctp_reassembly.specs.Laws.{TheInvariantGivesTheWindow, TheSameIsReady, UnorderedDataThatComesStands};
ghost use Rattle.sctp_reassembly.specs.Laws.{UnorderedDropsStand, UnorderedPiecesStand};

/// An empty reassembly stands for an empty queue, and the relation is kept by each piece of a message that comes, by
/// each read, by each skip, bounded by a TSN or not, and by each drop of pieces of unordered messages (RFC 4960
/// sections 6.5, 6.6 and 6.9, RFC 3758 section 3.6). Reads answer the same, and what is ready is the same. A bounded
/// skip spares each message with a piece past its TSN.
pub fn a_reassembly_stands_for_a_queue()
    ensures empty { EmptyOnesStand }
    ensures pieces { OrderedPiecesStand }
    ensures reads { ReadsAnswerAlike }
    ensures skips { OrderedSkipsStand }
    ensures bounded { BoundedSkipsStand }
    ensures spares { BoundedSkipsSpare }
    ensures ready { TheSameIsReady }
    ensures unordered { UnorderedPiecesStand }
    ensures drops { UnorderedDropsStand }
{}

/// Of a direction within its limits, the model's invariant gives the window that these laws ask for.
pub fn the_invariant_gives_the_window()
    ensures { TheInvariantGivesTheWindow }
{}

/// The same in events of the model's machine, of each direction within its limits that has the model's invariant: DATA
/// that comes and is new, a read, and a FORWARD TSN that comes.
pub fn a_reassembly_follows_the_machine()
    ensures data { DataThatComesStands }
    ensures unordered { UnorderedDataThatComesStands }
    ensures read { AReadThatHappensStands }
    ensures forward { AForwardThatComesStands }
{}
