//! A data channel (RFC 8832) between the two sides of a pair, and what it promises: as long as the pair is within its
//! limits, what one side received is a prefix of what the other one sent, message by message.
//!
//! [`PairPort`] is the port of a stream of one side, for the calls of a channel. [`ChannelPair`] holds a pair, one
//! stream and the channels of both sides, and its steps are the calls of these channels beside what else may happen to
//! the pair. The promise is that of [`ChannelPair::run`].
#![tactic(auto)]

mod names;
mod pair;
mod port;
mod seat;
mod step;

pub use dcep_channel::{Channel, ChannelError};
pub use pair::ChannelPair;
pub use port::PairPort;
pub use seat::Seat;
pub use step::{ChannelReply, ChannelStep};
