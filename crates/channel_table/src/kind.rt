// What a channel is asked to be, and whose identifiers it may have.
ghost use Rattle.std.specs.Prelude.{◌≡◌, ◌<◌};
ghost use Rattle.channel_table.specs.Kinds.{own_parity, reliability_type, reliability_value};

use dcep_messages::Persistence;
use sctp_wire_types::{ReliabilityType, StreamId};

/// The role of this side in the DTLS handshake. A client's own channels have even identifiers, a server's odd ones (RFC
/// 8832 section 6).
#[derive(Clone, Copy, Debug, PartialEq, Eq)]
pub enum Role {
    Client,
    Server,
}

impl Role {
    /// The least identifier of this side's own channels.
    pub(crate) fn parity(self) -> u16
        ensures exact { result ≡ own_parity self }
        ensures small { result < 2 }
    {
        match self {
            Role::Client => 0,
            Role::Server => 1,
        }
    }
}

/// What a channel is asked to be, but for its label and protocol.
#[derive(Clone, Copy, Debug, PartialEq, Eq)]
pub struct ChannelKind {
    /// Whether its messages are delivered in order.
    pub ordered: bool,
    /// How long each message is tried.
    pub persistence: Persistence,
    /// Its priority (RFC 8831 section 6.4), which the peer is told.
    pub priority: u16,
    /// The identifier that both sides agreed on in another way; None where DCEP tells the peer.
    pub negotiated: Option<StreamId>,
}

/// How a stream is told of a persistence (RFC 3758 sections 3.5 and 4.1): by its kind.
pub(crate) fn reliability_type(persistence: Persistence) -> ReliabilityType
    ensures { result ≡ reliability_type persistence }
{
    match persistence {
        Persistence::Reliable => ReliabilityType::Reliable,
        Persistence::Retransmits(_) => ReliabilityType::Rexmit,
        Persistence::LifeTime(_) => ReliabilityType::Timed,
    }
}

/// And by its number.
pub(crate) fn reliability_value(persistence: Persistence) -> u32
    ensures { result ≡ reliability_value persistence }
{
    match persistence {
        Persistence::Reliable => 0,
        Persistence::Retransmits(times) => times,
        Persistence::LifeTime(milliseconds) => milliseconds,
    }
}
