// Why an association ended.
ghost use Rattle.std.specs.Prelude.{◌≡◌, [], drop, length, ◌≤◌, IfOk, IfSome, Some};
ghost use Rattle.sctp_wire.specs.Chunks.{chunks_at};
ghost use Rattle.sctp_wire.specs.Frames.{padded_len};
ghost use Rattle.sctp_wire.specs.Params.{causes_at};
ghost use Rattle.sctp_driver.specs.Tags.{packet_in};
ghost use Rattle.sctp_watch.specs.declared.ends.End.TheVariants as ends;
ghost use Rattle.sctp_watch.specs.Ends.{IsFirstFrame, cause_with, end_among, ended_by, filled, first_cause};
ghost use Rattle.sctp_watch.specs.Ends.{padded_reason, reason_length, reason_of};

/// How many bytes of a cause's value are kept.
const REASON_SIZE: usize = 128;

/// In bytes: ports, verification tag and checksum (RFC 4960 section 3.1).
const COMMON_HEADER_SIZE: usize = 12;

/// The chunk types of ABORT and SHUTDOWN COMPLETE (RFC 4960 section 3.2).
const ABORT: u16 = 6;

const SHUTDOWN_COMPLETE: u16 = 14;

/// The first error cause of an ABORT (RFC 4960 section 3.3.10), and the first 128 bytes of its value.
#[derive(Clone, Copy, Debug, PartialEq, Eq)]
pub struct Cause {
    /// As 12 for User-Initiated Abort; 0 if the ABORT has no cause.
    pub code: u16,
    reason: [u8; 128],
    length: u16,
}

impl Cause {
    /// The code 0, and no reason.
    pub fn none() -> Cause
        ensures { result ≡ cause_with 0 [] }
    {
        cause_with(0, &[])
    }

    /// The first bytes of the cause's value, at most 128: of a User-Initiated Abort the reason that the peer gave.
    pub fn reason(&self) -> &[u8]
        ensures { result.now ≡ reason_of self.now }
    {
        &self.reason[..usize::from(self.length).min(REASON_SIZE)]
    }

    /// How many bytes the reason has.
    pub fn reason_length(&self) -> u16
        ensures { result ≡ reason_length self.now }
    {
        self.length
    }

    /// The reason, and zeros behind it up to 128 bytes.
    pub fn padded_reason(&self) -> [u8; 128]
        ensures { result ≡ padded_reason self.now }
    {
        self.reason
    }
}

/// Why an association ended.
#[derive(Clone, Copy, Debug, PartialEq, Eq)]
pub enum End {
    /// This side closed it, by `close`.
    Closed,
    /// This side aborted it, by `abort`.
    Aborted,
    /// A shutdown of either side went to its end (RFC 4960 section 9.2).
    ShutDown,
    /// The peer aborted it, for this cause.
    AbortCame(Cause),
    /// Another fault of the peer closed it: a chunk that its state doesn't allow, or that contradicts what came before.
    Fault,
    /// What waited in the receive buffer left no room, and none of it could be read.
    BufferExhausted,
    /// The peer is silent for good: DATA went out again as often as it may and was not acknowledged, or so did SHUTDOWN
    /// ACK without an answer (RFC 4960 sections 8.1 and 9.2).
    Silent,
}

// The first bytes of a cause's value, and zeros.
fn filled(bytes: &[u8]) -> [u8; 128]
    requires { length bytes.now ≤ 128 }
    ensures { result ≡ filled (length bytes.now) bytes.now }
{
    let mut reason = [0; REASON_SIZE];
    reason[..bytes.len()].copy_from_slice(bytes);
    reason
}

fn cause_with(code: u16, value: &[u8]) -> Cause
    ensures { result ≡ cause_with code value.now }
{
    let count = value.len().min(REASON_SIZE);
    Cause {
        code,
        reason: filled(&value[..count]),
        length: count as u16,
    }
}

// The head of the first chunk or cause, and how long it is without its padding; None where these bytes begin with none.
#[tactic(auto, unfolding(sctp_wire::specs::Frames::frame_at))]
fn first_frame(bytes: &[u8]) -> Option<(u16, u16)>
    ensures { IsFirstFrame bytes.now result }
{
    if bytes.len() < 4 {
        return None;
    }
    let head = u16::from_be_bytes([bytes[0], bytes[1]]);
    let length = u16::from_be_bytes([bytes[2], bytes[3]]);
    if length < 4 || bytes.len() < length as usize {
        return None;
    }
    Some((head, length))
}

// The cause that is told of an ABORT, by the bytes of its causes.
fn first_cause(causes: &[u8]) -> Cause
    ensures { IfOk (causes_at causes.now) (λ read. result ≡ first_cause read) }
{
    match first_frame(causes) {
        Some((code, length)) => cause_with(code, &causes[4..length as usize]),
        None => cause_with(0, &[]),
    }
}

// What is behind a frame of this length and its padding.
fn behind(bytes: &[u8], length: u16) -> &[u8]
    ensures { result.now ≡ drop (padded_len length) bytes.now }
{
    let length = length as usize;
    let padded = length + (4 - length % 4) % 4;
    &bytes[padded.min(bytes.len())..]
}

// The end that the chunks bring which these bytes spell. Nothing is allocated: of each chunk the type and the length
// are looked at, and of the first ABORT its first cause.
fn end_among(chunks: &[u8]) -> End
    ensures { IfOk (chunks_at chunks.now) (λ read. result ≡ end_among ends.Fault read) }
{
    let mut otherwise = End::Fault;
    let mut rest = chunks;
    'chunks: while !rest.is_empty() {
        let Some((head, length)) = first_frame(rest) else {
            return otherwise;
        };
        let kind = head / 256;
        if kind == ABORT {
            return End::AbortCame(first_cause(&rest[4..length as usize]));
        }
        if kind == SHUTDOWN_COMPLETE {
            otherwise = End::ShutDown;
        }
        rest = behind(rest, length);
    }
    otherwise
}

// The chunks of a datagram: what is behind its common header.
fn chunks_in(datagram: &[u8]) -> &[u8]
    ensures { result.now ≡ drop 12 datagram.now }
{
    &datagram[COMMON_HEADER_SIZE.min(datagram.len())..]
}

/// The end that a datagram brings to the association that it closes: the first ABORT in it with its first cause,
/// without one SHUTDOWN COMPLETE, else a fault. It takes no memory.
pub fn end_by(datagram: &[u8]) -> End
    ensures { IfSome (packet_in datagram.now) (λ packet. result ≡ ended_by (Some packet)) }
{
    end_among(chunks_in(datagram))
}
