//! Data channels over one SCTP stream each (RFC 8832), reliable and ordered ones alone.
//!
//! A [`Channel`] is the protocol of one side: which DCEP messages it writes and reads, and in which order. It says
//! nothing of packets. What it writes and reads goes through a [`Port`], which stands for one stream of one side;
//! [`AssocPort`] is the port of a stream of an association.
//!
//! One side calls [`Channel::open`] and the other one [`Channel::accept`] and then [`Channel::acknowledge`]. Each can
//! then [`Channel::send`] and [`Channel::receive`] messages; the opener may send before the acknowledgement comes.
//! Channels carry binary messages that are not empty; one of another payload type fails the channel.
#![tactic(auto)]

mod assoc_port;
mod channel;
mod error;
mod open_message;
mod port;

pub use assoc_port::AssocPort;
pub use channel::Channel;
pub use error::ChannelError;
pub use open_message::OpenMessage;
pub use port::Port;
