// Frames: what chunks, parameters and error causes have in common.
ghost use Rattle.std.specs.Prelude.{◌≡◌, ◌<◌, ◌+◌, ◌++◌, length, OnOk};
ghost use Rattle.std.specs.Int.{w16, to_be_bytes};
ghost use Rattle.sctp_wire.specs.Results.{Takes, Appends};
ghost use Rattle.sctp_wire.specs.Numbers.{IsU16};
ghost use Rattle.sctp_wire.specs.Frames.{pad_len, padded_len, frame_at, zeros, framed, bare, padded, frame_fits};
ghost use Rattle.sctp_wire.specs.Frames.{WritesBare};

use crate::error::WireError;
use crate::number::{put_u16, read_u16};
use bytes::Bytes;
use sctp_wire_types::Fault;
use std::alloc::AllocError;

/// A head of two bytes and a value. For a chunk the head is its type and its flags, for a parameter its type, for an
/// error cause its code (RFC 4960 sections 3.2, 3.2.1 and 3.3.10).
#[derive(Debug, Drop)]
pub(crate) struct Frame {
    pub head: u16,
    pub value: Bytes,
}

fn with_padding(len: usize) -> usize
    requires { len < 65536 }
    ensures { result ≡ padded_len len }
{
    len + (4 - len % 4) % 4
}

/// Reads the first frame, a cut of `rest`, and leaves what follows it.
#[tactic(auto, unfolding(crate::specs::Frames::frame_at))]
pub(crate) fn read_frame(rest: &mut Bytes) -> Result<Frame, WireError>
    ensures exact { Takes result rest.new (frame_at rest.old) }
    ensures shorter { OnOk result (length rest.new < length rest.old) }
{
    let length = rest.len();
    if length < 4 {
        return Err(WireError::Malformed(Fault::Short));
    }
    let head = read_u16(rest.as_slice(), 0);
    let len = read_u16(rest.as_slice(), 2) as usize;
    if len < 4 {
        return Err(WireError::Malformed(Fault::Length));
    }
    if length < len {
        return Err(WireError::Malformed(Fault::Short));
    }
    let value = rest.slice(4..len)?;
    rest.advance(with_padding(len).min(length));
    Ok(Frame { head, value })
}

/// Greatest length of a value: with its head of four bytes it has to fit 16 bits.
pub(crate) const MAX_VALUE: usize = 65_531;

/// The head of a frame whose value has `len` bytes.
pub(crate) fn put_head(out: &mut Vec<u8>, head: u16, len: usize) -> Result<(), AllocError>
    requires { len < 65532 }
    ensures { OnOk result (out.new.items ≡ out.old.items ++ to_be_bytes w16 head ++ to_be_bytes w16 (4 + len)) }
{
    put_u16(out, head)?;
    put_u16(out, (4 + len) as u16)
}

/// A frame without its padding; the answer is the length of its value.
pub(crate) fn put_bare(out: &mut Vec<u8>, head: u16, value: &[u8]) -> Result<usize, WireError>
    ensures bytes { WritesBare result (framed head value.now) out.old.items out.new.items }
    ensures range { IsU16 head }
{
    let len = value.len();
    if len > MAX_VALUE {
        return Err(WireError::Malformed(Fault::Long));
    }
    put_head(out, head, len)?;
    out.extend_from_slice(value)?;
    Ok(len)
}

/// The zeros after a value of `len` bytes.
pub(crate) fn put_padding(out: &mut Vec<u8>, len: usize) -> Result<(), AllocError>
    ensures { OnOk result (out.new.items ≡ out.old.items ++ zeros (pad_len len)) }
{
    match len % 4 {
        1 => out.extend_from_slice(&[0, 0, 0]),
        2 => out.extend_from_slice(&[0, 0]),
        3 => out.extend_from_slice(&[0]),
        _ => Ok(()),
    }
}

/// A frame with its padding.
pub(crate) fn put_padded(out: &mut Vec<u8>, head: u16, value: &[u8]) -> Result<(), WireError>
    ensures { Appends result (frame_fits (framed head value.now)) out.old.items out.new.items
        (padded (framed head value.now)) }
{
    let len = put_bare(out, head, value)?;
    put_padding(out, len)?;
    Ok(())
}
