// Whether all pieces of an ordered message are there.
ghost use Rattle.std.specs.Prelude.{◌≡◌, IfOk, OnOk};
ghost use Rattle.sctp_generations.specs.Walks.{walk_at, AreWalks, GoOver};
ghost use Rattle.sctp_generations.specs.Whole.{goes_on, gone_over, came_to_end};

use crate::span::Span;
use sctp_wire_types::{ChunkPayloadData, StreamId};
use std::alloc::{AllocError, Global};
use std::collections::{BTreeMap, VecDeque};

/// How far a walk over the pieces of an ordered message came.
#[derive(Clone, Copy, Debug)]
pub(crate) enum Walk {
    /// No piece was gone over.
    Begins,
    /// The first piece was, and those that followed it; this TSN is next.
    Next(u32),
    /// All pieces were, to the last one.
    Whole,
    /// A piece was missing.
    Torn,
}

impl Walk {
    fn over(self, piece: &ChunkPayloadData) -> Walk
        ensures { result ≡ gone_over self piece.now }
    {
        match self {
            Walk::Begins => Walk::on(piece.beginning_fragment, piece),
            Walk::Next(tsn) => Walk::on(piece.tsn == tsn, piece),
            Walk::Whole => Walk::Whole,
            Walk::Torn => Walk::Torn,
        }
    }

    fn on(follows: bool, piece: &ChunkPayloadData) -> Walk
        ensures { result ≡ goes_on follows piece.now }
    {
        if !follows {
            Walk::Torn
        } else if piece.ending_fragment {
            Walk::Whole
        } else {
            Walk::Next(piece.tsn.wrapping_add(1))
        }
    }

    // Whether all pieces of the message were gone over, to the one that ends it.
    pub(crate) fn came_to_end(self) -> bool
        ensures { result ≡ came_to_end self }
    {
        matches!(self, Walk::Whole)
    }
}

// How far the walks over the ordered messages of a stream and a span come, by their SSNs. Goes over each piece once.
pub(crate) fn walks_of(
    alloc: Global,
    chunks: &VecDeque<ChunkPayloadData>,
    id: StreamId,
    span: Span,
) -> Result<BTreeMap<u16, Walk>, AllocError>
    ensures { IfOk result (λ walks. AreWalks id span chunks.now.items walks.entries) }
{
    let mut walks = BTreeMap::new(alloc);
    for chunk in chunks {
        go_over(&mut walks, chunk, id, span)?;
    }
    Ok(walks)
}

// With one more piece.
fn go_over(
    walks: &mut BTreeMap<u16, Walk>,
    piece: &ChunkPayloadData,
    id: StreamId,
    span: Span,
) -> Result<(), AllocError>
    ensures { OnOk result (GoOver id span piece.now walks.old.entries walks.new.entries) }
{
    if !piece.unordered && span.has(id, piece) {
        let walk = walk_at(walks, piece.stream_sequence_number);
        walks.insert(piece.stream_sequence_number, walk.over(piece))?;
    }
    Ok(())
}

pub(crate) fn walk_at(walks: &BTreeMap<u16, Walk>, ssn: u16) -> Walk
    ensures { result ≡ walk_at walks.now.entries ssn }
{
    match walks.get(&ssn) {
        Some(walk) => *walk,
        None => Walk::Begins,
    }
}

/// How far a walk over the pieces of a stream's unordered messages came. Contracts alone speak of it: `StreamRuns`
/// tells how far all of these walks came.
#[derive(Clone, Copy, Debug)]
pub(crate) enum Run {
    /// At no piece of a message that began.
    Outside,
    /// At a piece of a message that began; this TSN is next, and whether the piece that is looked for was gone over.
    Next(u32, bool),
    /// All pieces of the message of the piece that is looked for were gone over.
    Whole,
}
