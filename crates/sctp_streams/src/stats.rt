// What one stream generation carried.
ghost use Rattle.std.specs.Prelude.{◌≡◌};
ghost use Rattle.sctp_streams.specs.Stats.{fresh_stats, messages_of, bytes_of, with_sent, with_received};

use sctp_wire_types::{PayloadProtocolIdentifier, StreamId};

/// Counters of one generation of a stream. Only messages of WebRTC application data are counted: neither those of the
/// payload type `Dcep` nor those of `Unknown`. Of an empty message (`StringEmpty`, `BinaryEmpty`) no byte counts. Each
/// counter stays at the greatest u64 once it is there.
#[derive(Clone, Copy, Debug, PartialEq, Eq)]
pub struct DataChannelStats {
    /// The stream's identifier.
    pub stream_identifier: StreamId,
    /// Generations of all streams of an association are numbered 0, 1, 2 and so on, as they are made.
    pub generation: u64,
    /// Messages that were accepted for sending.
    pub messages_sent: u64,
    /// Their bytes.
    pub bytes_sent: u64,
    /// Messages that were read.
    pub messages_received: u64,
    /// Their bytes.
    pub bytes_received: u64,
}

impl DataChannelStats {
    /// The counters of a generation that carried nothing yet.
    pub fn new(stream_identifier: StreamId, generation: u64) -> Self
        ensures { result ≡ fresh_stats stream_identifier generation }
    {
        DataChannelStats {
            stream_identifier,
            generation,
            messages_sent: 0,
            bytes_sent: 0,
            messages_received: 0,
            bytes_received: 0,
        }
    }

    /// Counts a message of `bytes` bytes that was accepted for sending.
    pub fn count_sent(&mut self, payload_type: PayloadProtocolIdentifier, bytes: u64)
        ensures { self.new ≡ with_sent self.old payload_type bytes }
    {
        self.messages_sent = self.messages_sent.saturating_add(messages(payload_type));
        self.bytes_sent = self.bytes_sent.saturating_add(counted(payload_type, bytes));
    }

    /// Counts a message of `bytes` bytes that was read.
    pub fn count_received(&mut self, payload_type: PayloadProtocolIdentifier, bytes: u64)
        ensures { self.new ≡ with_received self.old payload_type bytes }
    {
        self.messages_received = self
            .messages_received
            .saturating_add(messages(payload_type));
        self.bytes_received = self
            .bytes_received
            .saturating_add(counted(payload_type, bytes));
    }
}

// 1 for application data, 0 for anything else.
fn messages(payload_type: PayloadProtocolIdentifier) -> u64
    ensures { result ≡ messages_of payload_type }
{
    match payload_type {
        PayloadProtocolIdentifier::Dcep | PayloadProtocolIdentifier::Unknown => 0,
        _ => 1,
    }
}

// The bytes where they are the message's own; an empty message is sent as one byte that does not count.
fn counted(payload_type: PayloadProtocolIdentifier, bytes: u64) -> u64
    ensures { result ≡ bytes_of payload_type bytes }
{
    match payload_type {
        PayloadProtocolIdentifier::String | PayloadProtocolIdentifier::Binary => bytes,
        _ => 0,
    }
}
