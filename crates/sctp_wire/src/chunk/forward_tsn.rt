// FORWARD TSN (RFC 3758 section 3.2) and I-FORWARD-TSN (RFC 8260 section 2.3.1).
ghost use Rattle.std.specs.Prelude.{◌≡◌, ◌++◌, OnOk};
ghost use Rattle.sctp_wire.specs.Results.{Yields, Appends};
ghost use Rattle.sctp_wire.specs.Frames.{framed, padded, frame_fits};
ghost use Rattle.sctp_wire.specs.ForwardTsn.{skipped_at, skipped_bytes, IsSkipped, forward_tsn_of, forward_tsn_value};
ghost use Rattle.sctp_wire.specs.ForwardTsn.{IsForwardTsn, message_skip_at, message_skip_bytes, IsMessageSkip};
ghost use Rattle.sctp_wire.specs.ForwardTsn.{i_forward_tsn_of, i_forward_tsn_value, IsIForwardTsn};

use crate::entries::{Entry, PutEntry, put_entries, read_entries};
use crate::error::WireError;
use crate::frame::put_padded;
use crate::number::{put_u16, put_u32, read_u16, read_u32};
use sctp_wire_types::{ChunkForwardTsn, ChunkIForwardTsn, Fault, IForwardTsnEntry, SkippedStream};
use std::alloc::{AllocError, Global};

impl Entry for SkippedStream {
    ghost WIDTH = { 4 };

    const WIDTH: usize = 4;

    ghost entry_at = { skipped_at };

    fn read(bytes: &[u8]) -> Self {
        SkippedStream {
            stream_identifier: read_u16(bytes, 0),
            stream_sequence_number: read_u16(bytes, 2),
        }
    }
}

impl PutEntry for SkippedStream {
    ghost entry_bytes = { skipped_bytes };

    ghost IsEntry = { IsSkipped };

    fn put(&self, out: &mut Vec<u8>) -> Result<(), AllocError> {
        put_u16(out, self.stream_identifier)?;
        put_u16(out, self.stream_sequence_number)
    }
}

#[tactic(auto, unfolding(crate::specs::ForwardTsn::forward_tsn_of))]
pub(crate) fn read_forward_tsn(alloc: Global, value: &[u8]) -> Result<ChunkForwardTsn, WireError>
    ensures { Yields result (forward_tsn_of value.now) }
{
    if value.len() < 4 {
        return Err(WireError::Malformed(Fault::Short));
    }
    let (_, streams) = value.split_at(4);
    Ok(ChunkForwardTsn {
        new_cumulative_tsn: read_u32(value, 0),
        streams: read_entries(alloc, streams.len() / 4, streams)?,
    })
}

pub(crate) fn put_forward_tsn(
    alloc: Global,
    out: &mut Vec<u8>,
    forward: &ChunkForwardTsn,
) -> Result<(), WireError>
    ensures bytes { Appends result (frame_fits (framed 49152 (forward_tsn_value forward.now)))
        out.old.items out.new.items (padded (framed 49152 (forward_tsn_value forward.now))) }
    ensures range { OnOk result (IsForwardTsn forward.now) }
{
    let mut value = Vec::new(alloc);
    put_u32(&mut value, forward.new_cumulative_tsn)?;
    put_entries(&mut value, forward.streams.as_slice())?;
    put_padded(out, 49152, value.as_slice())
}

impl Entry for IForwardTsnEntry {
    ghost WIDTH = { 8 };

    const WIDTH: usize = 8;

    ghost entry_at = { message_skip_at };

    fn read(bytes: &[u8]) -> Self {
        IForwardTsnEntry {
            stream_identifier: read_u16(bytes, 0),
            unordered: read_u16(bytes, 2) % 2 == 1,
            message_identifier: read_u32(bytes, 4),
        }
    }
}

impl PutEntry for IForwardTsnEntry {
    ghost entry_bytes = { message_skip_bytes };

    ghost IsEntry = { IsMessageSkip };

    fn put(&self, out: &mut Vec<u8>) -> Result<(), AllocError> {
        put_u16(out, self.stream_identifier)?;
        put_u16(out, u16::from(self.unordered))?;
        put_u32(out, self.message_identifier)
    }
}

#[tactic(auto, unfolding(crate::specs::ForwardTsn::i_forward_tsn_of))]
pub(crate) fn read_i_forward_tsn(alloc: Global, value: &[u8]) -> Result<ChunkIForwardTsn, WireError>
    ensures { Yields result (i_forward_tsn_of value.now) }
{
    if value.len() < 4 {
        return Err(WireError::Malformed(Fault::Short));
    }
    let (_, entries) = value.split_at(4);
    Ok(ChunkIForwardTsn {
        new_cumulative_tsn: read_u32(value, 0),
        entries: read_entries(alloc, entries.len() / 8, entries)?,
    })
}

pub(crate) fn put_i_forward_tsn(
    alloc: Global,
    out: &mut Vec<u8>,
    forward: &ChunkIForwardTsn,
) -> Result<(), WireError>
    ensures bytes { Appends result (frame_fits (framed 49664 (i_forward_tsn_value forward.now)))
        out.old.items out.new.items (padded (framed 49664 (i_forward_tsn_value forward.now))) }
    ensures range { OnOk result (IsIForwardTsn forward.now) }
{
    let mut value = Vec::new(alloc);
    put_u32(&mut value, forward.new_cumulative_tsn)?;
    put_entries(&mut value, forward.entries.as_slice())?;
    put_padded(out, 49664, value.as_slice())
}
