// The streams of which DATA waits that is past their newest boundary.
ghost use Rattle.std.specs.Prelude.{◌≡◌, IfOk};
ghost use Rattle.sctp_generations.specs.Later.{is_later, AreWithLater};

use crate::deferred::is_between;
use crate::retiring::Retiring;
use sctp_wire_types::{ChunkPayloadData, StreamId};
use std::alloc::{AllocError, Global};
use std::collections::{BTreeSet, VecDeque};

// The streams of which DATA waits that is past their newest boundary and at or below a TSN.
pub(crate) fn with_later(
    alloc: Global,
    chunks: &VecDeque<ChunkPayloadData>,
    retiring: &Retiring,
    upto: u32,
) -> Result<BTreeSet<StreamId>, AllocError>
    ensures { IfOk result (λ ids. AreWithLater retiring.now upto chunks.now.items ids) }
{
    let mut ids = BTreeSet::new(alloc);
    for chunk in chunks {
        if is_later(chunk, retiring, upto) {
            ids.insert(chunk.stream_identifier)?;
        }
    }
    Ok(ids)
}

fn is_later(chunk: &ChunkPayloadData, retiring: &Retiring, upto: u32) -> bool
    ensures { result ≡ is_later retiring.now upto chunk.now }
{
    let id = chunk.stream_identifier;
    is_between(chunk, id, retiring.newest_boundary(id), upto)
}
