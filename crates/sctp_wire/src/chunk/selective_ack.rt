// SACK (RFC 4960 section 3.3.4).
ghost use Rattle.std.specs.Prelude.{◌≡◌, ◌<◌, ◌++◌, length, OnOk};
ghost use Rattle.sctp_wire.specs.Results.{Yields, Appends};
ghost use Rattle.sctp_wire.specs.Frames.{framed, padded, frame_fits};
ghost use Rattle.sctp_wire.specs.SelectiveAck.{block_at, block_bytes, IsBlock, selective_ack_of, selective_ack_value};
ghost use Rattle.sctp_wire.specs.SelectiveAck.{IsSack};

use crate::entries::{Entry, PutEntry, put_entries, read_entries};
use crate::error::WireError;
use crate::frame::{MAX_VALUE, put_head, put_padding};
use crate::number::{put_u16, put_u32, read_u16, read_u32};
use sctp_wire_types::{ChunkSelectiveAck, Fault, GapAckBlock};
use std::alloc::{AllocError, Global};

impl Entry for GapAckBlock {
    ghost WIDTH = { 4 };

    const WIDTH: usize = 4;

    ghost entry_at = { block_at };

    fn read(bytes: &[u8]) -> Self {
        GapAckBlock {
            start: read_u16(bytes, 0),
            end: read_u16(bytes, 2),
        }
    }
}

impl PutEntry for GapAckBlock {
    ghost entry_bytes = { block_bytes };

    ghost IsEntry = { IsBlock };

    fn put(&self, out: &mut Vec<u8>) -> Result<(), AllocError> {
        put_u16(out, self.start)?;
        put_u16(out, self.end)
    }
}

#[tactic(auto, unfolding(crate::specs::SelectiveAck::selective_ack_of))]
pub(crate) fn read_selective_ack(
    alloc: Global,
    value: &[u8],
) -> Result<ChunkSelectiveAck, WireError>
    ensures { Yields result (selective_ack_of value.now) }
{
    if value.len() < 12 {
        return Err(WireError::Malformed(Fault::Short));
    }
    let blocks = read_u16(value, 8) as usize;
    let duplicates = read_u16(value, 10) as usize;
    if value.len() < 12 + 4 * blocks + 4 * duplicates {
        return Err(WireError::Malformed(Fault::Short));
    }
    let (_, block_bytes) = value.split_at(12);
    let (_, duplicate_bytes) = value.split_at(12 + 4 * blocks);
    Ok(ChunkSelectiveAck {
        cumulative_tsn_ack: read_u32(value, 0),
        advertised_receiver_window_credit: read_u32(value, 4),
        gap_ack_blocks: read_entries(alloc, blocks, block_bytes)?,
        duplicate_tsn: read_entries(alloc, duplicates, duplicate_bytes)?,
    })
}

fn put_sack_fields(out: &mut Vec<u8>, sack: &ChunkSelectiveAck) -> Result<(), AllocError>
    requires blocks { length sack.now.gap_ack_blocks < 65536 }
    requires duplicates { length sack.now.duplicate_tsn < 65536 }
    ensures bytes { OnOk result (out.new.items ≡ out.old.items ++ selective_ack_value sack.now) }
    ensures range { OnOk result (IsSack sack.now) }
{
    put_u32(out, sack.cumulative_tsn_ack)?;
    put_u32(out, sack.advertised_receiver_window_credit)?;
    put_u16(out, sack.gap_ack_blocks.len() as u16)?;
    put_u16(out, sack.duplicate_tsn.len() as u16)?;
    put_entries(out, sack.gap_ack_blocks.as_slice())?;
    put_entries(out, sack.duplicate_tsn.as_slice())?;
    Ok(())
}

pub(crate) fn put_selective_ack(
    out: &mut Vec<u8>,
    sack: &ChunkSelectiveAck,
) -> Result<(), WireError>
    ensures bytes { Appends result (frame_fits (framed 768 (selective_ack_value sack.now)))
        out.old.items out.new.items (padded (framed 768 (selective_ack_value sack.now))) }
    ensures range { OnOk result (IsSack sack.now) }
{
    let blocks = sack.gap_ack_blocks.len();
    let duplicates = sack.duplicate_tsn.len();
    if blocks > MAX_VALUE {
        return Err(WireError::Malformed(Fault::Long));
    }
    if duplicates > MAX_VALUE {
        return Err(WireError::Malformed(Fault::Long));
    }
    let len = 12 + 4 * blocks + 4 * duplicates;
    if len > MAX_VALUE {
        return Err(WireError::Malformed(Fault::Long));
    }
    put_head(out, 768, len)?;
    put_sack_fields(out, sack)?;
    put_padding(out, len)?;
    Ok(())
}
