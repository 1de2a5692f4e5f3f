// Lines of a session.
use bytes::Bytes;
use hex::FromHexError;
use sctp_assoc::{Instant, PayloadProtocolIdentifier, Profile, ReliabilityType};
use sctp_pair::{Side2, Step};
use std::alloc::{AllocError, Global};

/// What one line asks for.
#[derive(Drop)]
pub enum Line {
    /// Make two associations.
    Begin(Beginning),
    Step(Step),
    /// All five questions about the state of a side.
    State(Side2),
}

/// What two associations begin with.
#[derive(Clone, Copy, Debug)]
pub struct Beginning {
    pub by: JoinedBy,
    /// The rules that both sides keep.
    pub profile: Profile,
    /// Greatest payload of one DATA chunk, in bytes.
    pub max_payload_size: u32,
    /// First TSNs.
    pub tsn_a: u32,
    pub tsn_b: u32,
}

/// How two associations come about.
#[derive(Clone, Copy, Debug)]
pub enum JoinedBy {
    /// Tokens join them.
    Tokens,
    /// A is a client and B a server, before their handshake.
    Handshake,
}

/// The profile that a line in front of the first step names; None where it names none.
pub fn profile_of(line: &[u8]) -> Option<Profile> {
    match str::from_utf8(line) {
        Ok("profile port") => Some(Profile::Port),
        Ok("profile rfc") => Some(Profile::Rfc),
        _ => None,
    }
}

/// Reads a line without its newline; None where it is no step. Fields are separated by one space.
pub fn parse(alloc: Global, line: &[u8]) -> Result<Option<Line>, AllocError> {
    let Ok(text) = str::from_utf8(line) else {
        return Ok(None);
    };
    let fields: Vec<&str> = text.split(' ').collect(alloc)?;
    parse_fields(alloc, fields.as_slice())
}

fn parse_fields(alloc: Global, fields: &[&str]) -> Result<Option<Line>, AllocError> {
    match fields {
        ["write", side, id, bytes] => write(alloc, side, id, bytes),
        ["writeas", side, id, payload_type, bytes] => {
            write_as(alloc, side, id, payload_type, bytes)
        }
        fields => Ok(plain_line(fields)),
    }
}

// The lines that take no memory to read.
fn plain_line(fields: &[&str]) -> Option<Line> {
    match fields {
        ["snap", size, tsn_a, tsn_b] => begin(JoinedBy::Tokens, size, tsn_a, tsn_b),
        ["client", size, tsn_a, tsn_b] => begin(JoinedBy::Handshake, size, tsn_a, tsn_b),
        ["state", side] => Some(Line::State(side_of(side)?)),
        fields => Some(Line::Step(other_step(fields)?)),
    }
}

fn begin(by: JoinedBy, size: &str, tsn_a: &str, tsn_b: &str) -> Option<Line> {
    Some(Line::Begin(Beginning {
        by,
        // A line in front of it may name another one.
        profile: Profile::Port,
        max_payload_size: number_u32(size)?,
        tsn_a: number_u32(tsn_a)?,
        tsn_b: number_u32(tsn_b)?,
    }))
}

fn write(alloc: Global, side: &str, id: &str, bytes: &str) -> Result<Option<Line>, AllocError> {
    let (Some(side), Some(id)) = (side_of(side), number_u16(id)) else {
        return Ok(None);
    };
    match bytes_of(alloc, bytes)? {
        Some(bytes) => Ok(Some(Line::Step(Step::Write { side, id, bytes }))),
        None => Ok(None),
    }
}

fn write_as(
    alloc: Global,
    side: &str,
    id: &str,
    payload_type: &str,
    bytes: &str,
) -> Result<Option<Line>, AllocError> {
    let (Some(side), Some(id), Some(ppi)) = (
        side_of(side),
        number_u16(id),
        payload_type_of(payload_type),
    ) else {
        return Ok(None);
    };
    match bytes_of(alloc, bytes)? {
        Some(bytes) => Ok(Some(Line::Step(Step::WriteWithPpi {
            side,
            id,
            bytes,
            ppi,
        }))),
        None => Ok(None),
    }
}

fn other_step(fields: &[&str]) -> Option<Step> {
    match fields {
        ["open", side, id, payload_type] => {
            open_step(side_of(side)?, number_u16(id)?, payload_type)
        }
        ["policy", side, id, order, kind, value] => policy(side, id, order, kind, value),
        ["deliver", side, number, now] => deliver_step(side_of(side)?, number, now),
        [name, side, number] => numbered_step(name, side_of(side)?, number),
        [name, side] => plain_step(name, side_of(side)?),
        _ => None,
    }
}

fn open_step(side: Side2, id: u16, payload_type: &str) -> Option<Step> {
    Some(Step::OpenStream {
        side,
        id,
        payload_type: payload_type_of(payload_type)?,
    })
}

fn deliver_step(side: Side2, number: &str, now: &str) -> Option<Step> {
    Some(Step::Deliver {
        side,
        number: number_u64(number)?,
        now: moment(now)?,
    })
}

// The number is a moment, in ms, or the identifier of a stream.
fn numbered_step(name: &str, side: Side2, number: &str) -> Option<Step> {
    match name {
        "send" | "time" => timed_step(name, side, moment(number)?),
        _ => stream_step(name, side, number_u16(number)?),
    }
}

fn stream_step(name: &str, side: Side2, id: u16) -> Option<Step> {
    match name {
        "read" => Some(Step::Read { side, id }),
        "finish" => Some(Step::Finish { side, id }),
        "stop" => Some(Step::Stop { side, id }),
        "buffered" => Some(Step::BufferedAmount { side, id }),
        _ => None,
    }
}

// Order and reliability of the messages that are written from then on.
fn policy(side: &str, id: &str, order: &str, kind: &str, value: &str) -> Option<Step> {
    Some(Step::SetReliabilityParams {
        side: side_of(side)?,
        id: number_u16(id)?,
        unordered: is_unordered(order)?,
        rel_type: reliability_of(kind)?,
        rel_val: number_u32(value)?,
    })
}

fn is_unordered(text: &str) -> Option<bool> {
    match text {
        "o" => Some(false),
        "u" => Some(true),
        _ => None,
    }
}

fn reliability_of(text: &str) -> Option<ReliabilityType> {
    match text {
        "reliable" => Some(ReliabilityType::Reliable),
        "rexmit" => Some(ReliabilityType::Rexmit),
        "timed" => Some(ReliabilityType::Timed),
        _ => None,
    }
}

fn timed_step(name: &str, side: Side2, now: Instant) -> Option<Step> {
    match name {
        "send" => Some(Step::PollTransmit { side, now }),
        "time" => Some(Step::HandleTimeout { side, now }),
        _ => None,
    }
}

fn plain_step(name: &str, side: Side2) -> Option<Step> {
    match name {
        "deadline" => Some(Step::PollTimeout { side }),
        "event" => Some(Step::Poll { side }),
        "rtt" => Some(Step::Rtt { side }),
        "accept" => Some(Step::AcceptStream { side }),
        "ids" => Some(Step::StreamIds { side }),
        "drained" => Some(Step::PollEndpointEvent { side }),
        "shutdown" => Some(Step::Shutdown { side }),
        "close" => Some(Step::Close { side }),
        _ => None,
    }
}

fn side_of(text: &str) -> Option<Side2> {
    match text {
        "A" => Some(Side2::A),
        "B" => Some(Side2::B),
        _ => None,
    }
}

fn payload_type_of(text: &str) -> Option<PayloadProtocolIdentifier> {
    match text {
        "50" => Some(PayloadProtocolIdentifier::Dcep),
        "51" => Some(PayloadProtocolIdentifier::String),
        "53" => Some(PayloadProtocolIdentifier::Binary),
        "56" => Some(PayloadProtocolIdentifier::StringEmpty),
        "57" => Some(PayloadProtocolIdentifier::BinaryEmpty),
        _ => None,
    }
}

// A decimal number without sign or leading zeros.
fn is_plain(text: &str) -> bool {
    let digits = text.as_bytes();
    digits.iter().all(|digit| digit.is_ascii_digit())
        && (digits.len() == 1 || digits.first() != Some(&b'0'))
}

fn number_u16(text: &str) -> Option<u16> {
    if is_plain(text) {
        text.parse().ok()
    } else {
        None
    }
}

fn number_u32(text: &str) -> Option<u32> {
    if is_plain(text) {
        text.parse().ok()
    } else {
        None
    }
}

fn number_u64(text: &str) -> Option<u64> {
    if is_plain(text) {
        text.parse().ok()
    } else {
        None
    }
}

// A moment in ms.
fn moment(text: &str) -> Option<Instant> {
    Some(Instant::from_millis(number_u64(text)?))
}

// Lower case hex; `-` is no byte.
fn bytes_of(alloc: Global, text: &str) -> Result<Option<Bytes>, AllocError> {
    if text == "-" {
        return Ok(Some(Bytes::new()));
    }
    if text.is_empty() || text.bytes().any(|byte| byte.is_ascii_uppercase()) {
        return Ok(None);
    }
    match hex::decode(alloc, text) {
        Ok(bytes) => Ok(Some(Bytes::from_vec(bytes)?)),
        Err(FromHexError::OutOfMemory) => Err(AllocError),
        Err(_) => Ok(None),
    }
}
