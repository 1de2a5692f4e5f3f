// Messages of an application: their payload types (RFC 8831 section 8), empty ones, and how long they may be.
ghost use Rattle.std.specs.Prelude.{◌≡◌};
ghost use Rattle.channel_table.specs.Payloads.{binary_type, received_as, send_limit, text_type};

use sctp_wire_types::PayloadProtocolIdentifier;

/// What a call gave of the messages of a channel.
#[derive(Clone, Copy, Debug, PartialEq, Eq)]
pub enum Received {
    /// A text stands in the first `length` bytes of the buffer, whole; UTF-8 by RFC 8831 section 6.6, which nothing
    /// here looks at.
    Text { length: usize },
    /// So does a binary message.
    Binary { length: usize },
    /// So does a message of a payload type that RFC 8831 does not have, or that it has deprecated: of 52 and 54 each is
    /// a part of a message. It is no text, no binary message and none of DCEP.
    Other { length: usize },
    /// No message is ready.
    Nothing,
    /// The next message has `length` bytes, more than the buffer. It stays to be received.
    NoRoom { length: usize },
}

/// The payload type of a text: 51, or 56 where it is empty.
pub fn text_type(is_empty: bool) -> PayloadProtocolIdentifier
    ensures { result ≡ text_type is_empty }
{
    if is_empty {
        PayloadProtocolIdentifier::StringEmpty
    } else {
        PayloadProtocolIdentifier::String
    }
}

/// The payload type of a binary message: 53, or 57 where it is empty.
pub fn binary_type(is_empty: bool) -> PayloadProtocolIdentifier
    ensures { result ≡ binary_type is_empty }
{
    if is_empty {
        PayloadProtocolIdentifier::BinaryEmpty
    } else {
        PayloadProtocolIdentifier::Binary
    }
}

/// What an application receives of a message of this payload type and length; None of a DCEP message. The byte of an
/// empty message is not received.
pub fn received_as(payload_type: PayloadProtocolIdentifier, length: usize) -> Option<Received>
    ensures { result ≡ received_as payload_type length }
{
    match payload_type {
        PayloadProtocolIdentifier::String => Some(Received::Text { length }),
        PayloadProtocolIdentifier::Binary => Some(Received::Binary { length }),
        PayloadProtocolIdentifier::StringEmpty => Some(Received::Text { length: 0 }),
        PayloadProtocolIdentifier::BinaryEmpty => Some(Received::Binary { length: 0 }),
        PayloadProtocolIdentifier::Unknown => Some(Received::Other { length }),
        PayloadProtocolIdentifier::Dcep => None,
    }
}

/// How long a message to the peer may be, in bytes, by the attribute max-message-size of its session description (RFC
/// 8841 section 6): 65,536 without the attribute, and any length where it is 0.
pub fn send_limit(max_message_size: Option<u32>) -> u32
    ensures { result ≡ send_limit max_message_size }
{
    match max_message_size {
        None => 65_536,
        Some(0) => u32::MAX,
        Some(bytes) => bytes,
    }
}
