//! Stream resets (RFC 6525, RFC 8831 section 6.7): what requests and responses, reads and stops do to the streams of an
//! association, its events and what is kept of generations that ended.
#![tactic(auto)]

mod answers;
mod channels;
mod draining;
mod marks;
mod performing;
mod resets;
mod skips;
mod telling;

pub use answers::TimerChange;
pub use channels::find_or_make;
pub use performing::{Handled, Settled};
pub use resets::Resets;
