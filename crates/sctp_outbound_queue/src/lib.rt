//! What an association still has to bring to its peer: the messages that wait to be sent, and what was sent and is not
//! acknowledged cumulatively.
#![tactic(auto)]

mod clocks;
mod front;
mod laws;
mod message;
mod messages;
mod over_waiting;
mod owed;
mod piece_sets;
mod queue;
mod settling;
mod stretches;
mod walks;

pub use laws::{abandonment_is_whole, pieces_are_the_bytes, released_bytes_are_exact};
pub use message::{
    Among, Attributes, InFlight, PendingMessage, Reports, Retransmission, cut, data_length,
};
pub use queue::{OutboundQueue, Released};
