//! What an association sends and how it learns that it came: the sender.
#![tactic(auto)]

mod abandonment;
mod congestion;
mod forward;
mod gap_acks;
mod growth;
mod laws;
mod progress;
mod recovery;
mod resending;
mod sender;
mod unsent;

pub use congestion::CongestionWindow;
pub use growth::Brought;
pub use laws::{all_are_given_up, spent_pieces_are_spared, unlimited_messages_stay};
pub use progress::Progress;
pub use recovery::Heard;
pub use sender::{SackOutcome, Sender};
