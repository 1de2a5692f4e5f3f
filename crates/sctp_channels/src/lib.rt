//! Data channels over one association (RFC 8831, RFC 8832), as the W3C names them. A [`Channels`] stands beside a
//! [`Driver`](sctp_driver::Driver) and is handed it in each call.
//!
//! In a turn of the driver's loop call [`Channels::poll_event`] until it answers None, in place of the driver's
//! `poll_event` and `accept_stream`: it writes the OPENs that wait, reads OPENs and ACKs, and writes ACKs. On
//! [`ChannelEvent::Message`] call [`Channels::receive`] until it answers `Nothing`. Then send what `poll_transmit` of
//! the driver gives.
//!
//! What is proved: which bytes, identifiers and payload types channels have, and what each call does to the table of
//! channels and to the driver. That the messages of a channel come to the peer is proved across a pair for the reliable
//! and ordered channels of the crate `dcep_channel` alone (by the crate `channel_pair`), and not for these.
#![tactic(auto)]

mod channels;
mod event;
mod looking;
mod opening;
mod polling;
mod reading;
mod receiving;
mod sending;

pub use channel_table::{
    Channel, ChannelError, ChannelKind, ChannelState, Persistence, Received, Role,
};
pub use channels::Channels;
pub use event::ChannelEvent;
