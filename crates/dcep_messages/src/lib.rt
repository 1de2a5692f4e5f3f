//! Messages of the Data Channel Establishment Protocol (RFC 8832): DATA_CHANNEL_OPEN of every channel type of section
//! 5.1, and DATA_CHANNEL_ACK. They are bytes here, whole; how they are sent is not this crate's business.
#![tactic(auto)]

mod error;
mod open_message;
mod persistence;

pub use error::OpenError;
pub use open_message::{ACK_MESSAGE, MAX_OPEN_LENGTH, OpenMessage, is_ack, is_too_long};
pub use persistence::Persistence;
