// What may happen to a pair with a data channel.
use bytes::Bytes;
use dcep_channel::ChannelError;
use sctp_assoc::Chunks;
use sctp_pair::{Reply, Side2, Step};

/// One call of a channel at one side, or a step of the pair that does not name the channel's stream.
#[derive(Debug, Drop)]
pub enum ChannelStep {
    /// `Channel::open`. Its reply is `Opened`.
    Open {
        side: Side2,
        priority: u16,
        label: Bytes,
        protocol: Bytes,
    },
    /// `Channel::accept`. Its reply is `Accepted`.
    Accept {
        side: Side2,
    },
    /// `Channel::acknowledge`. Its reply is `Acknowledged`.
    Acknowledge {
        side: Side2,
    },
    /// `Channel::send` of one message. Its reply is `Sent`.
    Send {
        side: Side2,
        bytes: Bytes,
    },
    /// `Channel::receive` of the next message. Its reply is `Received`.
    Receive {
        side: Side2,
    },
    /// A step of the pair. Its reply is `OfPair`.
    OfPair(Step),
}

/// What a step was answered. Each call of a channel may be answered `Refused` or `NotHere`.
#[derive(Debug, Drop)]
pub enum ChannelReply {
    /// The side has a channel now, which it opened.
    Opened,
    /// Whether a message was ready, and the side has a channel now, which the other one opened.
    Accepted(bool),
    /// The channel is acknowledged, or this side opened it.
    Acknowledged,
    /// A message of this length, in bytes, was accepted.
    Sent(usize),
    /// The message that was received; None where none was ready.
    Received(Option<Chunks>),
    /// What the call was refused for.
    Refused(ChannelError),
    /// The step is none of this pair as it is, and nothing happened: `Open` or `Accept` at a side that has a channel,
    /// another call at a side that has none, or a step of the pair that names the stream or accepts a stream.
    NotHere,
    /// What a step of the pair was answered.
    OfPair(Reply),
}
