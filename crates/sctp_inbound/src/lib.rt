//! What an association knows of its peer and what it took in: the values that the handshake fixes, and the receiver.
#![tactic(auto)]

mod greeting;
mod handshake;
mod held;
mod receiver;

pub use greeting::{SUPPORTED_EXTENSIONS, heartbeat_ack, heartbeat_information, state_cookie};
pub use handshake::{Handshake, Offer};
pub use held::Held;
pub use receiver::{AckTrigger, Receiver};
