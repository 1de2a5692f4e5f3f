//! The data channels of one side, by their streams' identifiers: what each is and how far it came, which identifier a
//! new one takes (RFC 8832 section 6), and under which payload types messages go (RFC 8831 section 8). Nothing here
//! sends or receives.
#![tactic(auto)]

mod channel;
mod error;
mod kind;
mod payload;
mod table;

pub use channel::{Channel, ChannelState, ShortMessage, Stage};
pub use dcep_messages::{
    ACK_MESSAGE, MAX_OPEN_LENGTH, OpenError, OpenMessage, Persistence, is_ack, is_too_long,
};
pub use error::ChannelError;
pub use kind::{ChannelKind, Role};
pub use payload::{Received, binary_type, received_as, send_limit, text_type};
pub use table::Table;
