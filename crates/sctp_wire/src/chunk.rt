// Chunks: each is read and written by the function of its kind.
mod forward_tsn;
mod init;
mod other;
mod payload_data;
mod reconfig;
mod selective_ack;

ghost use Rattle.std.specs.Prelude.{◌≡◌, ◌≢◌, ◌+◌, ◌*◌, ◌/◌, ◌++◌, ◌&&◌, OnOk};
ghost use Rattle.std.specs.List.{flat_map, list_all, AllByRecursion};
ghost use Rattle.sctp_wire.specs.Results.{Yields, Appends};
ghost use Rattle.sctp_wire.specs.Frames.{padded, frame_fits};
ghost use Rattle.sctp_wire.specs.Chunks.{chunk_of, chunks_at, chunk_frame, parts_fit, chunk_fits, chunk_bytes, IsChunk};

use crate::ChunkList;
use crate::error::WireError;
use crate::frame::{Frame, put_padded, read_frame};
use crate::items::{Item, read_behind};
use crate::param::{read_causes, read_params};
use bytes::Bytes;
use forward_tsn::{put_forward_tsn, put_i_forward_tsn, read_forward_tsn, read_i_forward_tsn};
use init::{put_init, read_init};
use other::{head_of, put_causes, put_cumulative_tsn_ack, put_params, read_cumulative_tsn_ack};
pub use payload_data::DataRef;
pub(crate) use payload_data::put_payload_data;
use payload_data::read_payload_data;
use reconfig::{put_reconfig, read_reconfig};
use sctp_wire_types::{Chunk, ChunkAbort, ChunkError, ChunkHeartbeat, List};
use selective_ack::{put_selective_ack, read_selective_ack};
use std::alloc::Global;

impl Item for Chunk {
    ghost item_of = { chunk_of };

    #[tactic(auto, unfolding(crate::specs::Chunks::chunk_of))]
    fn read(alloc: Global, frame: Frame) -> Result<Chunk, WireError> {
        match frame.head / 256 {
            0 => Ok(Chunk::Data(read_payload_data(frame.head % 256, frame.value)?)),
            3 => Ok(Chunk::SelectiveAck(read_selective_ack(alloc, frame.value.as_slice())?)),
            _ => read_other(alloc, frame),
        }
    }
}

// A chunk that is neither DATA nor SACK. These are rare, and what they are read into is large.
#[cold]
#[inline(never)]
#[tactic(auto, unfolding(crate::specs::Chunks::chunk_of))]
fn read_other(alloc: Global, frame: Frame) -> Result<Chunk, WireError>
    requires data { frame.head / 256 ≢ 0 }
    requires sack { frame.head / 256 ≢ 3 }
    ensures { Yields result (chunk_of frame) }
{
    let flags = frame.head % 256;
    let value = frame.value;
    match frame.head / 256 {
        1 => Ok(Chunk::Init(read_init(alloc, value)?)),
        2 => Ok(Chunk::InitAck(read_init(alloc, value)?)),
        4 => Ok(Chunk::Heartbeat(ChunkHeartbeat {
            params: read_params(alloc, value)?,
        })),
        5 => Ok(Chunk::HeartbeatAck(ChunkHeartbeat {
            params: read_params(alloc, value)?,
        })),
        6 => Ok(Chunk::Abort(ChunkAbort {
            error_causes: read_causes(alloc, value)?,
        })),
        7 => Ok(Chunk::Shutdown(read_cumulative_tsn_ack(value.as_slice())?)),
        8 => Ok(Chunk::ShutdownAck),
        9 => Ok(Chunk::Error(ChunkError {
            error_causes: read_causes(alloc, value)?,
        })),
        10 => Ok(Chunk::CookieEcho(value)),
        11 => Ok(Chunk::CookieAck),
        14 => Ok(Chunk::ShutdownComplete),
        130 => Ok(Chunk::Reconfig(read_reconfig(alloc, value)?)),
        192 => Ok(Chunk::ForwardTsn(read_forward_tsn(alloc, value.as_slice())?)),
        194 => Ok(Chunk::IForwardTsn(read_i_forward_tsn(alloc, value.as_slice())?)),
        kind => Ok(Chunk::Other {
            kind: kind as u8,
            flags: flags as u8,
            value,
        }),
    }
}

fn put_chunk(alloc: Global, out: &mut Vec<u8>, chunk: &Chunk) -> Result<(), WireError>
    ensures bytes { Appends result (chunk_fits chunk.now) out.old.items out.new.items (chunk_bytes chunk.now) }
    ensures range { OnOk result (IsChunk chunk.now) }
{
    match chunk {
        Chunk::Data(piece) => put_payload_data(out, &DataRef::of(piece)),
        Chunk::Init(init) => put_init(alloc, out, 256, init),
        Chunk::InitAck(init) => put_init(alloc, out, 512, init),
        Chunk::SelectiveAck(sack) => put_selective_ack(out, sack),
        Chunk::Heartbeat(heartbeat) => put_params(alloc, out, 1024, heartbeat.params.as_slice()),
        Chunk::HeartbeatAck(heartbeat) => put_params(alloc, out, 1280, heartbeat.params.as_slice()),
        Chunk::Abort(abort) => put_causes(alloc, out, 1536, abort.error_causes.as_slice()),
        Chunk::Shutdown(cumulative_tsn_ack) => put_cumulative_tsn_ack(out, *cumulative_tsn_ack),
        Chunk::ShutdownAck => put_padded(out, 2048, &[]),
        Chunk::Error(error) => put_causes(alloc, out, 2304, error.error_causes.as_slice()),
        Chunk::CookieEcho(cookie) => put_padded(out, 2560, cookie.as_slice()),
        Chunk::CookieAck => put_padded(out, 2816, &[]),
        Chunk::ShutdownComplete => put_padded(out, 3584, &[]),
        Chunk::Reconfig(reconfig) => put_reconfig(alloc, out, reconfig),
        Chunk::ForwardTsn(forward) => put_forward_tsn(alloc, out, forward),
        Chunk::IForwardTsn(forward) => put_i_forward_tsn(alloc, out, forward),
        Chunk::Other { kind, flags, value } => {
            put_padded(out, head_of(*kind, *flags), value.as_slice())
        }
    }
}

/// The chunks that the bytes after a packet's header spell.
pub(crate) fn read_chunks(alloc: Global, bytes: Bytes) -> Result<ChunkList, WireError>
    ensures { Yields result (chunks_at bytes) }
{
    let mut rest = bytes;
    if rest.is_empty() {
        return Ok(ChunkList::from_list(List::new(alloc)));
    }
    let frame = read_frame(&mut rest)?;
    let first = Chunk::read(alloc, frame)?;
    if rest.is_empty() {
        return Ok(ChunkList::of(first));
    }
    let mut chunks = List::new(alloc);
    chunks.push(first)?;
    Ok(ChunkList::from_list(read_behind(alloc, 1, chunks, rest)?))
}

/// The chunks, one behind the other, each with its padding.
pub(crate) fn write_chunks(
    alloc: Global,
    out: &mut Vec<u8>,
    chunks: &[Chunk],
) -> Result<(), WireError>
    ensures bytes { Appends result (list_all chunk_fits chunks.now) out.old.items out.new.items
        (flat_map chunk_bytes chunks.now) }
    ensures range { OnOk result (AllByRecursion IsChunk chunks.now) }
{
    'chunks: for chunk in chunks {
        put_chunk(alloc, out, chunk)?;
    }
    Ok(())
}
