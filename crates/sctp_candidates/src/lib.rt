//! Which of the pieces in flight stand out, as those that are to be sent again: a set of places that is read in order by
//! counted looks, and for which no call but one wants memory.
#![tactic(auto)]

mod candidates;
mod lowered;

pub use candidates::Candidates;
