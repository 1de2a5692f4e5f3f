//! The TSNs that came and are held past the last one in order, as ranges, and the gap ack blocks that say them.
#![tactic(auto)]

mod gap_blocks;
mod ranges;
mod receive_queue;

pub use ranges::Ranges;
pub use receive_queue::ReceiveQueue;
