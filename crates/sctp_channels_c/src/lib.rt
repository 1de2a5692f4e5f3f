//! The calls of data channels for C, on a slot of 16 bytes that C owns, beside the slot of their association.
//! `archive/channels.c` declares them and calls them from those of `include/sctp_channels.h`, which says what each does,
//! what it writes and which codes it answers.
//!
//! Each call takes the channels out of their slot and, if it needs it, the driver out of the association's, makes one
//! call of `sctp_channels`, and puts both back. Codes are those of `sctp_c`, 40 to 46 for what channels refuse, and 47 for
//! a message of another payload type.
#![tactic(auto)]

mod begin;
mod codes;
mod events;
mod handle;
mod messages;
mod opening;
mod questions;
mod slot;

pub use events::Told;
pub use handle::Handle;
pub use opening::Options;
pub use questions::Info;
pub use slot::ChannelsSlot;
