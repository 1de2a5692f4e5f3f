//! Ranges of numbers in a row, ascending, that neither meet nor touch: a search for a number halves them, each look at one
//! is counted, and numbers are added and removed at the place that a search found.
#![tactic(auto)]

mod added;
mod gap;
mod removed;
mod row;
mod run;

pub use added::add_at;
pub use removed::remove_offsets;
pub use row::Row;
pub use run::{Place, Run};
