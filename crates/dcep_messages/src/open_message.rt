// DATA_CHANNEL_OPEN and DATA_CHANNEL_ACK (RFC 8832 sections 5.1 and 5.2).
ghost use Rattle.std.specs.Prelude.{◌≡◌, ◌+◌, ◌≤◌, ◌<◌, ◌^◌, false, length, IfOk, IsNone, OnOk};
ghost use Rattle.dcep_messages.specs.Codec.{IsOpenMessage, IsOpenOf, IsSpelled, ack_bytes, channel_type, is_ack};
ghost use Rattle.dcep_messages.specs.Codec.{is_too_long, label_in, open_bytes, open_header, open_refusal, ordered_in};
ghost use Rattle.dcep_messages.specs.Codec.{parameter_of, persistence_at, persistence_in, priority_in, protocol_in};
ghost use Rattle.dcep_messages.specs.Codec.{Refuses, Spells, u16_at, u32_at};

use crate::error::OpenError;
use crate::persistence::Persistence;
use std::alloc::{AllocError, Global};
use std::marker::Model;

// Bytes in front of label and protocol.
const HEADER_LENGTH: usize = 12;

// The message type of DATA_CHANNEL_OPEN.
const OPEN: u8 = 3;

// The message type of DATA_CHANNEL_ACK.
const ACK: u8 = 2;

// What is added to the channel type of an unordered channel.
const UNORDERED: u8 = 0x80;

// The greatest length of a label and of a protocol.
const MAX_LENGTH: usize = 65_535;

/// DATA_CHANNEL_ACK, whole.
pub const ACK_MESSAGE: [u8; 1] = [ACK];

/// The greatest length of an OPEN, in bytes.
pub const MAX_OPEN_LENGTH: usize = 131_082;

/// A DATA_CHANNEL_OPEN, as it is written or was read.
#[derive(Debug, Drop)]
pub struct OpenMessage {
    bytes: Vec<u8>,
}

impl Model for OpenMessage {
    ghost use Rattle.std.specs.Prelude.{List, ℕ};
    ghost use Rattle.dcep_messages.specs.Codec.{IsOpenMessage};

    ghost Value = { List ℕ };

    ghost view = { λ m. m.bytes.items };

    ghost invariant = { λ m. IsOpenMessage m.bytes.items };
}

impl OpenMessage {
    /// The OPEN of such a channel. The reliability parameter of a reliable channel is 0.
    ///
    /// Refused, in this order: `LabelTooLong` where label or protocol is longer than 65,535 bytes; `NoMemory`.
    pub fn new(
        alloc: Global,
        ordered: bool,
        persistence: Persistence,
        priority: u16,
        label: &[u8],
        protocol: &[u8],
    ) -> Result<OpenMessage, OpenError>
        ensures bytes { Spells (is_too_long label.now protocol.now)
            (open_bytes ordered persistence priority label.now protocol.now) result }
        ensures again { IfOk result
            (λ message. IsOpenOf ordered persistence priority label.now protocol.now message) }
    {
        if is_too_long(label, protocol) {
            return Err(OpenError::LabelTooLong);
        }
        match spelled(alloc, ordered, persistence, priority, label, protocol) {
            Ok(bytes) => Ok(OpenMessage::of_bytes(bytes)),
            Err(_) => Err(OpenError::NoMemory),
        }
    }

    /// Reads the bytes of a DCEP message as an OPEN.
    ///
    /// Refused, in this order: `NotOpenMessage` where they do not have its form; `UnknownChannelType` where the channel
    /// type is none of RFC 8832 section 5.1. The reliability parameter of a reliable channel is not looked at.
    pub fn read(bytes: Vec<u8>) -> Result<OpenMessage, OpenError>
        ensures ok { IfOk result (λ message. message ≡ bytes.items) }
        ensures refused { Refuses result (open_refusal bytes.items) }
        ensures spelled { OnOk result (IsSpelled bytes.items) }
    {
        match refusal(bytes.as_slice()) {
            Some(error) => Err(error),
            None => Ok(OpenMessage::of_bytes(bytes)),
        }
    }

    fn of_bytes(bytes: Vec<u8>) -> OpenMessage
        requires { IsOpenMessage bytes.items }
        ensures { result ≡ bytes.items }
    {
        OpenMessage { bytes }
    }

    /// Its bytes.
    pub fn as_slice(&self) -> &[u8]
        ensures { result.now ≡ self.now }
    {
        self.bytes.as_slice()
    }

    /// Whether the channel's messages are delivered in order.
    pub fn is_ordered(&self) -> bool
        ensures { result ≡ ordered_in self.now }
    {
        self.bytes[1] < UNORDERED
    }

    /// How long the channel's messages are tried.
    pub fn persistence(&self) -> Persistence
        ensures { result ≡ persistence_in self.now }
    {
        persistence_at(self.bytes[1], u32_at(self.bytes.as_slice(), 4))
    }

    /// The channel's priority (RFC 8831 section 6.4).
    pub fn priority(&self) -> u16
        ensures { result ≡ priority_in self.now }
    {
        u16_at(self.bytes.as_slice(), 2)
    }

    /// The channel's label; UTF-8 by RFC 8832 section 5.1, which nothing here looks at.
    pub fn label(&self) -> &[u8]
        ensures { result.now ≡ label_in self.now }
    {
        let bytes = self.bytes.as_slice();
        let length = usize::from(u16_at(bytes, 8));
        let (_, words) = bytes.split_at(HEADER_LENGTH);
        let (label, _) = words.split_at(length);
        label
    }

    /// The length of the label, in bytes.
    #[tactic(auto, using(crate::proofs::Lengths::of_label))]
    pub fn label_length(&self) -> u16
        ensures { result ≡ length (label_in self.now) }
    {
        u16_at(self.bytes.as_slice(), 8)
    }

    /// The length of the protocol, in bytes.
    #[tactic(auto, using(crate::proofs::Lengths::of_protocol))]
    pub fn protocol_length(&self) -> u16
        ensures { result ≡ length (protocol_in self.now) }
    {
        u16_at(self.bytes.as_slice(), 10)
    }

    /// The channel's protocol, of those that are registered for WebSocket, or empty.
    pub fn protocol(&self) -> &[u8]
        ensures { result.now ≡ protocol_in self.now }
    {
        let bytes = self.bytes.as_slice();
        let label_length = usize::from(u16_at(bytes, 8));
        let length = usize::from(u16_at(bytes, 10));
        let (_, words) = bytes.split_at(HEADER_LENGTH);
        let (_, behind) = words.split_at(label_length);
        let (protocol, _) = behind.split_at(length);
        protocol
    }
}

/// Whether these bytes are a DATA_CHANNEL_ACK.
pub fn is_ack(bytes: &[u8]) -> bool
    ensures exact { result ≡ is_ack bytes.now }
{
    bytes.len() == 1 && bytes[0] == ACK
}

/// Whether label or protocol is longer than 65,535 bytes.
pub fn is_too_long(label: &[u8], protocol: &[u8]) -> bool
    ensures exact { result ≡ is_too_long label.now protocol.now }
    ensures lengths { result ≡ false → (length label.now ≤ 65535) × (length protocol.now ≤ 65535) }
{
    label.len() > MAX_LENGTH || protocol.len() > MAX_LENGTH
}

// The number of the two bytes at a place, high byte first.
fn u16_at(bytes: &[u8], at: usize) -> u16
    requires { at + 2 ≤ length bytes.now }
    ensures { result ≡ u16_at bytes.now at }
{
    u16::from_be_bytes([bytes[at], bytes[at + 1]])
}

// The number of the four bytes at a place, high byte first.
fn u32_at(bytes: &[u8], at: usize) -> u32
    requires { at + 4 ≤ length bytes.now }
    ensures { result ≡ u32_at bytes.now at }
{
    u32::from_be_bytes([bytes[at], bytes[at + 1], bytes[at + 2], bytes[at + 3]])
}

// The persistence that a channel type and a reliability parameter say.
fn persistence_at(channel_type: u8, parameter: u32) -> Persistence
    ensures { result ≡ persistence_at channel_type parameter }
{
    match channel_type % UNORDERED {
        1 => Persistence::Retransmits(parameter),
        2 => Persistence::LifeTime(parameter),
        _ => Persistence::Reliable,
    }
}

// Why these bytes are not read as an OPEN.
fn refusal(bytes: &[u8]) -> Option<OpenError>
    ensures exact { result ≡ open_refusal bytes.now }
    ensures form { IsNone result → IsOpenMessage bytes.now }
    ensures spelled { IsNone result → IsSpelled bytes.now }
{
    if bytes.len() < HEADER_LENGTH {
        return Some(OpenError::NotOpenMessage);
    }
    let label = usize::from(u16_at(bytes, 8));
    let protocol = usize::from(u16_at(bytes, 10));
    if bytes[0] != OPEN || bytes.len() != HEADER_LENGTH + label + protocol {
        return Some(OpenError::NotOpenMessage);
    }
    if bytes[1] % UNORDERED > 2 {
        return Some(OpenError::UnknownChannelType);
    }
    None
}

// The channel type of such a channel.
fn channel_type(ordered: bool, persistence: Persistence) -> u8
    ensures { result ≡ channel_type ordered persistence }
{
    let base = match persistence {
        Persistence::Reliable => 0,
        Persistence::Retransmits(_) => 1,
        Persistence::LifeTime(_) => 2,
    };
    if ordered { base } else { base + UNORDERED }
}

fn parameter_of(persistence: Persistence) -> u32
    ensures { result ≡ parameter_of persistence }
{
    match persistence {
        Persistence::Reliable => 0,
        Persistence::Retransmits(times) => times,
        Persistence::LifeTime(milliseconds) => milliseconds,
    }
}

// All that stands in front of label and protocol.
fn header_of(
    channel_type: u8,
    priority: u16,
    parameter: u32,
    label_length: u16,
    protocol_length: u16,
) -> [u8; 12]
    ensures { result ≡ open_header channel_type priority parameter label_length protocol_length }
{
    let priority = priority.to_be_bytes();
    let parameter = parameter.to_be_bytes();
    let label = label_length.to_be_bytes();
    let protocol = protocol_length.to_be_bytes();
    [
        OPEN,
        channel_type,
        priority[0],
        priority[1],
        parameter[0],
        parameter[1],
        parameter[2],
        parameter[3],
        label[0],
        label[1],
        protocol[0],
        protocol[1],
    ]
}

// An OPEN's bytes. That the reliability parameter has four bytes holds always, and callers need it.
fn spelled(
    alloc: Global,
    ordered: bool,
    persistence: Persistence,
    priority: u16,
    label: &[u8],
    protocol: &[u8],
) -> Result<Vec<u8>, AllocError>
    requires label { length label.now ≤ 65535 }
    requires protocol { length protocol.now ≤ 65535 }
    ensures bytes { IfOk result
        (λ bytes. bytes.items ≡ open_bytes ordered persistence priority label.now protocol.now) }
    ensures parameter { parameter_of persistence < 2 ^ 32 }
{
    let parameter = parameter_of(persistence);
    let header = header_of(
        channel_type(ordered, persistence),
        priority,
        parameter,
        label.len() as u16,
        protocol.len() as u16,
    );
    let room = HEADER_LENGTH + label.len() + protocol.len();
    let mut bytes = Vec::with_capacity(alloc, room)?;
    bytes.extend_from_slice(&header)?;
    bytes.extend_from_slice(label)?;
    bytes.extend_from_slice(protocol)?;
    Ok(bytes)
}
