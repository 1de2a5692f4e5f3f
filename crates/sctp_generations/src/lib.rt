//! The generations of streams under reset (RFC 6525, RFC 8831 section 6.7): those that ended and are still read, and
//! the DATA and skips of FORWARD TSN that wait for those behind them.
#![tactic(auto)]

mod boundaries;
mod deferred;
mod generations;
mod kept;
mod later;
mod refusal;
mod retirement;
mod retiring;
mod runs;
mod skips;
mod span;
mod whole;

pub use generations::Generations;
pub use retirement::Retirement;
pub use skips::KeptSkip;
