//! How an association's queues and streams stand to the two directions of the model between which it is. Of one it is
//! the sender: its messages have several pieces, are ordered or not, reliable or not, and are acknowledged in any
//! order. Of the other it is the receiver: DATA comes in any order. No code runs here; each empty function carries laws
//! that are proved.
#![tactic(auto)]

mod abandonments;
mod acknowledgements;
mod arrivals;
mod cumulative_acks;
mod cuts;
mod drops;
mod few_pieces;
mod forwards;
mod growth;
mod held_set;
mod sendings;
mod spans;
mod writes;

pub use abandonments::abandonments_are_alike;
pub use acknowledgements::acknowledgements_are_alike;
pub use arrivals::what_comes_is_alike;
pub use cumulative_acks::cumulative_acks_take_the_first_pieces;
pub use cuts::cuts_are_pieces;
pub use drops::drops_are_alike;
pub use few_pieces::few_pieces_stay_within;
pub use forwards::forwards_are_alike;
pub use growth::events_leave_the_other_end;
pub use held_set::the_set_holds_what_lies_past_the_reach;
pub use sendings::sent_pieces_are_events;
pub use spans::spans_end;
pub use writes::writes_are_accepted;
