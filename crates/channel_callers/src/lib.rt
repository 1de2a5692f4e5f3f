//! Callers of a pair with a data channel, to whom its promise is told by steps and replies alone: what either side
//! received is a prefix of what the other one sent, message by message, as long as each side accepts few pieces. They
//! know no world of the channel: the clauses of `ChannelPair` give that.
#![tactic(auto)]

mod running;

pub use running::{run_channel, run_channel_client_server};
