// The two halves of a stream, and how its messages are sent.
ghost use Rattle.std.specs.Prelude.{◌≡◌};
ghost use Rattle.sctp_streams.specs.Stream.{halves_of, ordered_and_reliable, is_read_half_open, is_write_half_open};
ghost use Rattle.sctp_streams.specs.Stream.{params_of, without_read_half, without_write_half};

use sctp_wire_types::{Policy, ReliabilityType};

/// Which halves of a stream are open. The numbers are those of the ported crate: 1 for the read half, 2 for the write
/// half. `Stream::finish` closes the write half, `Stream::stop` the read half, and `Stream::close` both.
#[derive(Clone, Copy, Debug, PartialEq, Eq)]
pub enum RecvSendState {
    Closed = 0,
    Readable = 1,
    Writable = 2,
    ReadWritable = 3,
}

impl From<u8> for RecvSendState {
    ghost from_gives = { λ number halves. halves ≡ halves_of number };

    /// The halves of a number; any but 1, 2 and 3 is Closed.
    fn from(number: u8) -> RecvSendState {
        match number {
            1 => RecvSendState::Readable,
            2 => RecvSendState::Writable,
            3 => RecvSendState::ReadWritable,
            _ => RecvSendState::Closed,
        }
    }
}

impl RecvSendState {
    /// Whether messages can be read.
    pub fn is_read_half_open(self) -> bool
        ensures { result ≡ is_read_half_open self }
    {
        matches!(self, RecvSendState::Readable | RecvSendState::ReadWritable)
    }

    /// Whether messages can be written.
    pub fn is_write_half_open(self) -> bool
        ensures { result ≡ is_write_half_open self }
    {
        matches!(self, RecvSendState::Writable | RecvSendState::ReadWritable)
    }

    /// The halves once the read half is closed.
    pub fn without_read_half(self) -> RecvSendState
        ensures { result ≡ without_read_half self }
    {
        if self.is_write_half_open() {
            RecvSendState::Writable
        } else {
            RecvSendState::Closed
        }
    }

    /// The halves once the write half is closed.
    pub fn without_write_half(self) -> RecvSendState
        ensures { result ≡ without_write_half self }
    {
        if self.is_read_half_open() {
            RecvSendState::Readable
        } else {
            RecvSendState::Closed
        }
    }
}

/// How messages are sent: in order or not, and how long each is tried (RFC 3758 sections 3.5 and 4.1).
#[derive(Clone, Copy, Debug)]
pub struct ReliabilityParams {
    /// Messages carry the U flag and are read in any order (RFC 4960 section 6.6).
    pub unordered: bool,
    /// How long a message is kept for sending.
    pub policy: Policy,
}

impl ReliabilityParams {
    /// Order, and how long each message is tried: `value` is the number of retransmissions for `Rexmit`, the time in ms
    /// for `Timed`, and says nothing for `Reliable`.
    pub fn of(unordered: bool, kind: ReliabilityType, value: u32) -> ReliabilityParams
        ensures { result ≡ params_of unordered kind value }
    {
        let policy = match kind {
            ReliabilityType::Reliable => Policy::Reliable,
            ReliabilityType::Rexmit => Policy::Rexmit(value),
            ReliabilityType::Timed => Policy::Timed(value),
        };
        ReliabilityParams { unordered, policy }
    }

    /// What a stream begins with: messages in order, each kept until it is acknowledged.
    pub fn ordered_and_reliable() -> ReliabilityParams
        ensures { result ≡ ordered_and_reliable }
    {
        ReliabilityParams {
            unordered: false,
            policy: Policy::Reliable,
        }
    }
}
