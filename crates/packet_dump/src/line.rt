// Lines of the input: a datagram in hex, and in front of it the moment, if it is known.
ghost use Rattle.std.specs.Prelude.{◌≡◌, IfOk, IsNone, IsSome};
ghost use Rattle.hex.specs.Hex.{decode_of};
ghost use Rattle.packet_dump.specs.Lines.{behind_space};
ghost use Rattle.packet_dump.specs.Pcap.{fitting};

use bytes::Bytes;
use hex::FromHexError;
use std::alloc::{AllocError, Global};

/// No reader of pcap files takes a longer packet, in bytes.
pub const SNAP_LENGTH: u32 = 262_144;

/// A line taken apart.
#[derive(Clone, Copy, Debug)]
pub struct Line<'a> {
    /// When the datagram went out or came, in milliseconds.
    pub millis: Option<u32>,
    pub hex: &'a [u8],
}

/// Takes a line apart: a number and a space may stand in front of the hex.
#[tactic(auto, using(std::proofs::lemmas::Str::Pattern::split_once_first))]
pub fn take_apart(line: &[u8]) -> Line<'_>
    ensures whole { IsNone result.millis → result.hex.now ≡ line.now }
    ensures behind { IsSome result.millis → result.hex.now ≡ behind_space line.now }
{
    let whole = Line {
        millis: None,
        hex: line,
    };
    let Ok(text) = str::from_utf8(line) else {
        return whole;
    };
    match text.split_once(' ') {
        Some((number, hex)) => match number.parse() {
            Ok(millis) => Line {
                millis: Some(millis),
                hex: hex.as_bytes(),
            },
            Err(_) => whole,
        },
        None => whole,
    }
}

/// The bytes that the hex spells; None where it is no hex, or they are too many for a file.
pub fn datagram_of(alloc: Global, hex: &[u8]) -> Result<Option<Bytes>, AllocError>
    ensures { IfOk result (λ found. found ≡ fitting (decode_of hex.now)) }
{
    let bytes = match hex::decode(alloc, hex) {
        Ok(bytes) => bytes,
        Err(FromHexError::OutOfMemory) => return Err(AllocError),
        Err(_) => return Ok(None),
    };
    match u32::try_from(bytes.len()) {
        Ok(count) if count <= SNAP_LENGTH => Ok(Some(Bytes::from_vec(bytes)?)),
        _ => Ok(None),
    }
}
