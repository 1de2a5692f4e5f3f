// One channel.
ghost use Rattle.std.specs.Prelude.{◌≡◌, length, not};
ghost use Rattle.dcep_messages.specs.Codec.{label_in, ordered_in, persistence_in, priority_in, protocol_in};
ghost use Rattle.channel_table.specs.Channels.{announced, is_ready, life_time_of, may_send, opened, retransmits_of};
ghost use Rattle.channel_table.specs.Channels.{state_of, with_first, with_stage, without_first};
ghost use Rattle.channel_table.specs.Kinds.{reliability_type, reliability_value};

use crate::kind::{reliability_type, reliability_value};
use dcep_messages::{OpenMessage, Persistence};
use sctp_wire_types::{PayloadProtocolIdentifier, ReliabilityType};
use std::marker::Model;

/// How far a channel came.
#[derive(Clone, Copy, Debug, PartialEq, Eq)]
pub enum Stage {
    /// This side's: its OPEN is to be written, or, where it is negotiated, its stream to be opened.
    Waiting,
    /// This side's: its OPEN was written, and nothing came from the peer yet.
    Begun,
    /// The peer's: its OPEN came, and the ACK is to be written.
    Announcing,
    /// Messages go both ways.
    Open,
    /// It ends: its stream is being reset.
    Closing,
}

/// The state of a channel, as the W3C names it. One that is closed is gone.
#[derive(Clone, Copy, Debug, PartialEq, Eq)]
pub enum ChannelState {
    Connecting,
    Open,
    Closing,
}

/// A message of one byte, with its payload type.
#[derive(Clone, Copy, Debug, PartialEq, Eq)]
pub struct ShortMessage {
    pub payload_type: PayloadProtocolIdentifier,
    pub byte: u8,
}

/// A channel of this side or of the peer.
#[derive(Debug, Drop)]
pub struct Channel {
    // what was written or read, or would be where the channel is negotiated
    open_message: OpenMessage,
    negotiated: bool,
    stage: Stage,
    // the message that came in place of the ACK, if it has one byte
    first: Option<ShortMessage>,
}

impl Model for Channel {
    ghost use Rattle.channel_table.specs.Channels.{ChannelView};

    ghost Value = { ChannelView };

    ghost view = { λ c. record {
      open_message = c.open_message;
      negotiated = c.negotiated;
      stage = c.stage;
      first = c.first;
    } };
}

impl Channel {
    /// A channel of this side, before its OPEN is written.
    pub fn opened(open_message: OpenMessage, negotiated: bool) -> Channel
        ensures { result ≡ opened open_message negotiated }
    {
        Channel {
            open_message,
            negotiated,
            stage: Stage::Waiting,
            first: None,
        }
    }

    /// The channel that the peer's OPEN asks for, before its ACK is written.
    pub fn announced(open_message: OpenMessage) -> Channel
        ensures { result ≡ announced open_message }
    {
        Channel {
            open_message,
            negotiated: false,
            stage: Stage::Announcing,
            first: None,
        }
    }

    /// Its OPEN.
    pub fn open_message(&self) -> &OpenMessage
        ensures { result.now ≡ self.now.open_message }
    {
        &self.open_message
    }

    /// Its label; UTF-8 by RFC 8832 section 5.1, which nothing here looks at.
    pub fn label(&self) -> &[u8]
        ensures { result.now ≡ label_in self.now.open_message }
    {
        self.open_message.label()
    }

    /// The length of its label, in bytes.
    pub fn label_length(&self) -> u16
        ensures { result ≡ length (label_in self.now.open_message) }
    {
        self.open_message.label_length()
    }

    /// The length of its protocol, in bytes.
    pub fn protocol_length(&self) -> u16
        ensures { result ≡ length (protocol_in self.now.open_message) }
    {
        self.open_message.protocol_length()
    }

    /// Its protocol, of those that are registered for WebSocket, or empty.
    pub fn protocol(&self) -> &[u8]
        ensures { result.now ≡ protocol_in self.now.open_message }
    {
        self.open_message.protocol()
    }

    /// Whether its messages are delivered in order.
    pub fn is_ordered(&self) -> bool
        ensures { result ≡ ordered_in self.now.open_message }
    {
        self.open_message.is_ordered()
    }

    /// How long each of its messages is tried.
    pub fn persistence(&self) -> Persistence
        ensures { result ≡ persistence_in self.now.open_message }
    {
        self.open_message.persistence()
    }

    /// How often a message goes out again at most; None where that has no limit of its own.
    pub fn max_retransmits(&self) -> Option<u32>
        ensures { result ≡ retransmits_of (persistence_in self.now.open_message) }
    {
        match self.persistence() {
            Persistence::Retransmits(times) => Some(times),
            Persistence::Reliable | Persistence::LifeTime(_) => None,
        }
    }

    /// How long a message is tried, in ms; None where that has no limit of its own.
    pub fn max_packet_life_time(&self) -> Option<u32>
        ensures { result ≡ life_time_of (persistence_in self.now.open_message) }
    {
        match self.persistence() {
            Persistence::LifeTime(milliseconds) => Some(milliseconds),
            Persistence::Reliable | Persistence::Retransmits(_) => None,
        }
    }

    /// Its priority (RFC 8831 section 6.4).
    pub fn priority(&self) -> u16
        ensures { result ≡ priority_in self.now.open_message }
    {
        self.open_message.priority()
    }

    /// Whether both sides agreed on it in another way than by DCEP.
    pub fn is_negotiated(&self) -> bool
        ensures { result ≡ self.now.negotiated }
    {
        self.negotiated
    }

    /// Its state, as the W3C names it.
    pub fn state(&self) -> ChannelState
        ensures { result ≡ state_of self.now.stage }
    {
        match self.stage {
            Stage::Waiting | Stage::Begun | Stage::Announcing => ChannelState::Connecting,
            Stage::Open => ChannelState::Open,
            Stage::Closing => ChannelState::Closing,
        }
    }

    /// How far it came.
    pub fn stage(&self) -> Stage
        ensures { result ≡ self.now.stage }
    {
        self.stage
    }

    /// Whether its messages can be sent: its OPEN was written, and it does not end.
    pub fn may_send(&self) -> bool
        ensures { result ≡ may_send self.now.stage }
    {
        matches!(self.stage, Stage::Begun | Stage::Open)
    }

    /// How its stream is told how long a message is tried: by a kind.
    pub fn reliability_type(&self) -> ReliabilityType
        ensures { result ≡ reliability_type (persistence_in self.now.open_message) }
    {
        reliability_type(self.persistence())
    }

    /// And by a number of retransmissions, or of ms.
    pub fn reliability_value(&self) -> u32
        ensures { result ≡ reliability_value (persistence_in self.now.open_message) }
    {
        reliability_value(self.persistence())
    }

    /// The message that came in place of the ACK and was not received yet, if it has one byte.
    pub fn first(&self) -> Option<ShortMessage>
        ensures { result ≡ self.now.first }
    {
        self.first
    }

    // Whether it is open, and no message of it is kept.
    pub(crate) fn is_ready(&self) -> bool
        ensures { result ≡ is_ready self.now }
    {
        matches!(self.stage, Stage::Open) && self.first.is_none()
    }

    pub(crate) fn set_stage(&mut self, stage: Stage)
        ensures { self.new ≡ with_stage stage self.old }
    {
        self.stage = stage;
    }

    pub(crate) fn keep_first(&mut self, message: ShortMessage)
        ensures { self.new ≡ with_first message self.old }
    {
        self.first = Some(message);
    }

    pub(crate) fn forget_first(&mut self)
        ensures { self.new ≡ without_first self.old }
    {
        self.first = None;
    }
}
