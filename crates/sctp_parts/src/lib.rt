//! The small parts that all layers of an association share: moments and events of the surface, states, counts, and the
//! timers with the estimate of the retransmission timeout.
#![tactic(auto)]

pub mod estimate;
pub mod shared;
pub mod state;
pub mod stats;
pub mod timer;
