//! What may happen to two associations that face each other: a call of either side, or the delivery of a packet that
//! the other one gave out. The definitions say what each step does to both and replies; `Pair` of `sctp_pair` carries
//! it out.
#![tactic(auto)]

mod step;

pub use step::{Side2, Step};
