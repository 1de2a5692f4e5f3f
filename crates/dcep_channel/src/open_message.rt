// DATA_CHANNEL_OPEN (RFC 8832 section 5.1), for reliable and ordered channels.
ghost use Rattle.std.specs.Prelude.{◌≡◌, ◌+◌, ◌≤◌, false, length, IfOk, IsNone, OnOk};
ghost use Rattle.dcep_channel.specs.Codec.{IsOpenMessage, IsOpenOf, IsSpelled, is_ack, is_too_long, label_in};
ghost use Rattle.dcep_channel.specs.Codec.{open_bytes, open_header, open_refusal, priority_in, protocol_in, u16_at};
ghost use Rattle.dcep_channel.specs.Faults.{Refuses, Spells};

use crate::error::ChannelError;
use std::alloc::{AllocError, Global};
use std::marker::Model;

// Bytes in front of label and protocol.
const HEADER_LENGTH: usize = 12;

// The message type of DATA_CHANNEL_OPEN.
const OPEN: u8 = 3;

// The message type of DATA_CHANNEL_ACK.
const ACK: u8 = 2;

// The channel type of a reliable and ordered channel.
const RELIABLE: u8 = 0;

/// DATA_CHANNEL_ACK, whole.
pub(crate) const ACK_MESSAGE: [u8; 1] = [ACK];

// The greatest length of a label and of a protocol.
const MAX_LENGTH: usize = 65_535;

/// A DATA_CHANNEL_OPEN of a reliable and ordered channel, as it is written or was read.
#[derive(Debug, Drop)]
pub struct OpenMessage {
    bytes: Vec<u8>,
}

impl Model for OpenMessage {
    ghost use Rattle.std.specs.Prelude.{List, ℕ};
    ghost use Rattle.dcep_channel.specs.Codec.{IsOpenMessage};

    ghost Value = { List ℕ };

    ghost view = { λ m. m.bytes.items };

    ghost invariant = { λ m. IsOpenMessage m.bytes.items };
}

impl OpenMessage {
    /// The OPEN of a channel of this priority, label and protocol. Its reliability parameter is 0.
    ///
    /// Refused, in this order: `ErrLabelTooLong` where label or protocol is longer than 65,535 bytes; `Beneath(4)`
    /// where it finds no memory.
    pub fn new(
        alloc: Global,
        priority: u16,
        label: &[u8],
        protocol: &[u8],
    ) -> Result<OpenMessage, ChannelError>
        ensures bytes { Spells (is_too_long label.now protocol.now)
            (open_bytes priority label.now protocol.now) result }
        ensures again { IfOk result (λ message. IsOpenOf priority label.now protocol.now message) }
    {
        if is_too_long(label, protocol) {
            return Err(ChannelError::ErrLabelTooLong);
        }
        match spelled(alloc, priority, label, protocol) {
            Ok(bytes) => Ok(OpenMessage::of_bytes(bytes)),
            Err(_) => Err(ChannelError::Beneath(4)),
        }
    }

    /// Reads the bytes of a DCEP message as an OPEN.
    ///
    /// Refused, in this order: `ErrNotOpenMessage` where they do not have its form; `ErrChannelType` where the channel
    /// is not a reliable and ordered one. The reliability parameter is not looked at (RFC 8832 section 5.1).
    pub fn read(bytes: Vec<u8>) -> Result<OpenMessage, ChannelError>
        ensures ok { IfOk result (λ message. message ≡ bytes.items) }
        ensures refused { Refuses result (open_refusal bytes.items) }
        ensures spelled { OnOk result (IsSpelled bytes.items) }
    {
        match refusal(bytes.as_slice()) {
            Some(error) => Err(error),
            None => Ok(OpenMessage::of_bytes(bytes)),
        }
    }

    fn of_bytes(bytes: Vec<u8>) -> OpenMessage
        requires { IsOpenMessage bytes.items }
        ensures { result ≡ bytes.items }
    {
        OpenMessage { bytes }
    }

    /// Its bytes.
    pub fn as_slice(&self) -> &[u8]
        ensures { result.now ≡ self.now }
    {
        self.bytes.as_slice()
    }

    /// The channel's priority (RFC 8831 section 6.4).
    pub fn priority(&self) -> u16
        ensures { result ≡ priority_in self.now }
    {
        u16_at(self.bytes.as_slice(), 2)
    }

    /// The channel's label; UTF-8 by RFC 8832 section 5.1, which nothing here looks at.
    pub fn label(&self) -> &[u8]
        ensures { result.now ≡ label_in self.now }
    {
        let bytes = self.bytes.as_slice();
        let length = usize::from(u16_at(bytes, 8));
        let (_, words) = bytes.split_at(HEADER_LENGTH);
        let (label, _) = words.split_at(length);
        label
    }

    /// The channel's protocol, of those that are registered for WebSocket, or empty.
    pub fn protocol(&self) -> &[u8]
        ensures { result.now ≡ protocol_in self.now }
    {
        let bytes = self.bytes.as_slice();
        let label_length = usize::from(u16_at(bytes, 8));
        let length = usize::from(u16_at(bytes, 10));
        let (_, words) = bytes.split_at(HEADER_LENGTH);
        let (_, behind) = words.split_at(label_length);
        let (protocol, _) = behind.split_at(length);
        protocol
    }
}

// Whether label or protocol has no length of two bytes.
fn is_too_long(label: &[u8], protocol: &[u8]) -> bool
    ensures exact { result ≡ is_too_long label.now protocol.now }
    ensures lengths { result ≡ false → (length label.now ≤ 65535) × (length protocol.now ≤ 65535) }
{
    label.len() > MAX_LENGTH || protocol.len() > MAX_LENGTH
}

// The number of the two bytes at a place, high byte first.
fn u16_at(bytes: &[u8], at: usize) -> u16
    requires { at + 2 ≤ length bytes.now }
    ensures { result ≡ u16_at bytes.now at }
{
    u16::from_be_bytes([bytes[at], bytes[at + 1]])
}

// Why these bytes are not read as an OPEN of a reliable and ordered channel.
fn refusal(bytes: &[u8]) -> Option<ChannelError>
    ensures exact { result ≡ open_refusal bytes.now }
    ensures form { IsNone result → IsOpenMessage bytes.now }
    ensures spelled { IsNone result → IsSpelled bytes.now }
{
    if bytes.len() < HEADER_LENGTH {
        return Some(ChannelError::ErrNotOpenMessage);
    }
    let label = usize::from(u16_at(bytes, 8));
    let protocol = usize::from(u16_at(bytes, 10));
    if bytes[0] != OPEN || bytes.len() != HEADER_LENGTH + label + protocol {
        return Some(ChannelError::ErrNotOpenMessage);
    }
    if bytes[1] != RELIABLE {
        return Some(ChannelError::ErrChannelType);
    }
    None
}

// All that stands in front of label and protocol.
fn header_of(priority: u16, label_length: u16, protocol_length: u16) -> [u8; 12]
    ensures { result ≡ open_header priority label_length protocol_length }
{
    let priority = priority.to_be_bytes();
    let label = label_length.to_be_bytes();
    let protocol = protocol_length.to_be_bytes();
    [
        OPEN,
        RELIABLE,
        priority[0],
        priority[1],
        0,
        0,
        0,
        0,
        label[0],
        label[1],
        protocol[0],
        protocol[1],
    ]
}

fn spelled(
    alloc: Global,
    priority: u16,
    label: &[u8],
    protocol: &[u8],
) -> Result<Vec<u8>, AllocError>
    requires label { length label.now ≤ 65535 }
    requires protocol { length protocol.now ≤ 65535 }
    ensures { IfOk result (λ bytes. bytes.items ≡ open_bytes priority label.now protocol.now) }
{
    let room = HEADER_LENGTH + label.len() + protocol.len();
    let mut bytes = Vec::with_capacity(alloc, room)?;
    let header = header_of(priority, label.len() as u16, protocol.len() as u16);
    bytes.extend_from_slice(&header)?;
    bytes.extend_from_slice(label)?;
    bytes.extend_from_slice(protocol)?;
    Ok(bytes)
}

/// Whether these bytes are an ACK.
pub(crate) fn is_ack(bytes: &[u8]) -> bool
    ensures { result ≡ is_ack bytes.now }
{
    bytes.len() == 1 && bytes[0] == ACK
}
