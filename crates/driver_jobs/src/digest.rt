// A digest of all that a job saw, in four lanes, so that it takes little time beside what it looks at. Each lane takes
// words in by a rotation, an exclusive or and a product, as the hash of Firefox does.
ghost use Rattle.std.specs.Prelude.{◌+◌, ◌≤◌, length};

use sctp_driver::{
    AssociationError, DataChannelStats, DatagramAnswer, Event, PayloadProtocolIdentifier,
    ReadAnswer, StreamEvent, StreamResetError,
};

/// What a lane is multiplied by.
const FACTOR: u64 = 0x517c_c1b7_2722_0a95;

/// How many bytes the four lanes take in at once.
const BLOCK: usize = 32;

/// A digest of what came so far, in its order, and how many messages and datagrams that were.
#[derive(Drop)]
pub struct Digest {
    lanes: [u64; 4],
    messages: u64,
    datagrams: u64,
}

impl Digest {
    /// Nothing came yet.
    pub fn new() -> Digest {
        Digest {
            lanes: [1, 2, 3, 4],
            messages: 0,
            datagrams: 0,
        }
    }

    /// The digest.
    pub fn value(&self) -> u64 {
        let [a, b, c, d] = self.lanes;
        mixed(mixed(mixed(mixed(0, a), b), c), d)
    }

    /// How many messages were read.
    pub fn messages(&self) -> u64 {
        self.messages
    }

    /// How many datagrams were given out.
    pub fn datagrams(&self) -> u64 {
        self.datagrams
    }

    /// A number, as the answer of a call.
    pub fn number(&mut self, number: u64) {
        self.lanes[0] = mixed(self.lanes[0], number);
    }

    // Bytes, and how many.
    fn bytes(&mut self, bytes: &[u8]) {
        self.number(bytes.len() as u64);
        let blocks = bytes.len() / BLOCK;
        for index in 0..blocks {
            let at = BLOCK * index;
            let [a, b, c, d] = self.lanes;
            self.lanes = [
                mixed(a, word_at(bytes, at)),
                mixed(b, word_at(bytes, at + 8)),
                mixed(c, word_at(bytes, at + 16)),
                mixed(d, word_at(bytes, at + 24)),
            ];
        }
        let mut last: u64 = 0;
        for byte in &bytes[BLOCK * blocks..] {
            last = mixed(last, u64::from(*byte));
        }
        self.number(last);
    }

    /// A datagram that was given out.
    pub fn datagram(&mut self, bytes: &[u8]) {
        self.datagrams = self.datagrams.saturating_add(1);
        self.bytes(bytes);
    }

    /// What became of a datagram that came.
    pub fn came(&mut self, answer: DatagramAnswer) {
        self.number(match answer {
            DatagramAnswer::Taken => 1,
            DatagramAnswer::NoPacket => 2,
            DatagramAnswer::OtherTag => 3,
            DatagramAnswer::RepeatedInit => 4,
            DatagramAnswer::OtherInit => 5,
        });
    }

    /// What a read of a stream answered, and the message that it gave.
    pub fn read(&mut self, id: u16, answer: &ReadAnswer, buffer: &[u8]) {
        match answer {
            ReadAnswer::Message {
                payload_type,
                length,
            } => {
                self.messages = self.messages.saturating_add(1);
                self.number(u64::from(id) << 32 | number_of(*payload_type));
                self.bytes(&buffer[..(*length).min(buffer.len())]);
            }
            ReadAnswer::Nothing => self.number(5),
            ReadAnswer::NoRoom { length } => self.number(*length as u64),
        }
    }

    /// An event.
    pub fn event(&mut self, event: &Event) {
        match event {
            Event::Connected => self.number(6),
            Event::HandshakeFailed { reason } => self.number(number_of_loss(reason) << 8 | 7),
            Event::AssociationLost { reason } => self.number(number_of_loss(reason) << 8 | 8),
            Event::Stream(event) => self.number(number_of_event(event)),
            Event::DataChannelStatsFinal(stats) => self.stats(stats),
            Event::DatagramReceived => self.number(9),
        }
    }

    /// The counters of a stream.
    pub fn stats(&mut self, stats: &DataChannelStats) {
        self.number(u64::from(stats.stream_identifier));
        self.number(stats.generation);
        self.number(stats.messages_sent);
        self.number(stats.bytes_sent);
        self.number(stats.messages_received);
        self.number(stats.bytes_received);
    }
}

// A lane that takes a word in.
fn mixed(lane: u64, word: u64) -> u64 {
    (lane.rotate_left(5) ^ word).wrapping_mul(FACTOR)
}

fn word_at(bytes: &[u8], at: usize) -> u64
    requires { at + 8 ≤ length bytes.now }
{
    u64::from_le_bytes([
        bytes[at],
        bytes[at + 1],
        bytes[at + 2],
        bytes[at + 3],
        bytes[at + 4],
        bytes[at + 5],
        bytes[at + 6],
        bytes[at + 7],
    ])
}

fn number_of(payload_type: PayloadProtocolIdentifier) -> u64 {
    u64::from(payload_type.number())
}

fn number_of_loss(reason: &AssociationError) -> u64 {
    match reason {
        AssociationError::HandshakeFailed(_) => 1,
        AssociationError::TransportError => 2,
        AssociationError::ReceiveBufferExhausted => 3,
        AssociationError::AssociationClosed => 4,
        AssociationError::ApplicationClosed => 5,
        AssociationError::Reset => 6,
        AssociationError::TimedOut => 7,
        AssociationError::LocallyClosed => 8,
    }
}

fn number_of_reset(reason: &StreamResetError) -> u64 {
    match reason {
        StreamResetError::Denied => 1,
        StreamResetError::Failed => 2,
    }
}

fn number_of_event(event: &StreamEvent) -> u64 {
    match event {
        StreamEvent::Opened { id } => u64::from(*id) << 8 | 10,
        StreamEvent::Readable { id } => u64::from(*id) << 8 | 11,
        StreamEvent::Writable { id } => u64::from(*id) << 8 | 12,
        StreamEvent::Finished { id } => u64::from(*id) << 8 | 13,
        StreamEvent::ResetComplete { id } => u64::from(*id) << 8 | 14,
        StreamEvent::ResetFailed { id, reason } => {
            number_of_reset(reason) << 24 | u64::from(*id) << 8 | 15
        }
        StreamEvent::Stopped { id, error_code } => {
            u64::from(*error_code) << 24 | u64::from(*id) << 8 | 16
        }
        StreamEvent::BufferedAmountLow { id } => u64::from(*id) << 8 | 17,
        StreamEvent::BufferedAmountHigh { id } => u64::from(*id) << 8 | 18,
        StreamEvent::Available => 19,
    }
}
