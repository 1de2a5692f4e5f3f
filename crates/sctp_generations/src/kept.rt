// Copies of some of the DATA that waits.
ghost use Rattle.std.specs.Prelude.{◌≡◌, filter, IfOk};
ghost use Rattle.std.specs.List.{list_any};
ghost use Rattle.sctp_generations.specs.declared.kept.Kept.TheVariants as kept;
ghost use Rattle.sctp_generations.specs.Kept.{is_kept, is_skipped, is_skipped_unordered};
ghost use Rattle.sctp_generations.specs.Sieves.{keeps, IsSieve};

use crate::runs::{StreamRuns, is_whole, runs_of};
use crate::span::Span;
use crate::whole::{Walk, walk_at, walks_of};
use sctp_serial::sna32lte;
use sctp_wire_types::{ChunkPayloadData, StreamId, sna16lte};
use std::alloc::{AllocError, Global};
use std::collections::{BTreeMap, VecDeque};

/// Which DATA is kept.
#[derive(Clone, Copy, Debug)]
pub(crate) enum Kept {
    /// That of a stream and a span.
    Of(StreamId, Span),
    /// What a skip of the ordered messages of a stream and a span leaves, with its SSN and its TSN.
    Unskipped(StreamId, Span, u16, u32),
    /// What a skip of all unordered messages leaves, with its TSN.
    UnskippedUnordered(u32),
}

/// What tells of each piece whether it is kept, once all DATA was gone over.
#[derive(Drop)]
enum Sieve {
    /// Nothing is dropped.
    All,
    /// As `Kept` has it.
    Of(StreamId, Span),
    /// With the walks over the messages of the stream and the span, by their SSNs.
    Unskipped(StreamId, Span, u16, u32, BTreeMap<u16, Walk>),
    /// With how far the walks over the unordered messages of each stream came.
    UnskippedUnordered(u32, BTreeMap<StreamId, StreamRuns>),
}

impl Sieve {
    fn new(
        alloc: Global,
        chunks: &VecDeque<ChunkPayloadData>,
        kept: Kept,
    ) -> Result<Sieve, AllocError>
        ensures { IfOk result (λ sieve. IsSieve kept chunks.now.items sieve) }
    {
        match kept {
            Kept::Of(id, span) => Ok(Sieve::Of(id, span)),
            Kept::Unskipped(id, span, ssn, tsn) => {
                Sieve::unskipped(alloc, chunks, id, span, ssn, tsn)
            }
            Kept::UnskippedUnordered(tsn) => Sieve::unskipped_unordered(alloc, chunks, tsn),
        }
    }

    // Where nothing is skipped it takes no memory.
    fn unskipped(
        alloc: Global,
        chunks: &VecDeque<ChunkPayloadData>,
        id: StreamId,
        span: Span,
        ssn: u16,
        tsn: u32,
    ) -> Result<Sieve, AllocError>
        ensures { IfOk result (λ sieve. IsSieve (kept.Unskipped id span ssn tsn) chunks.now.items sieve) }
    {
        if !any_skipped(chunks, id, span, ssn, tsn) {
            return Ok(Sieve::All);
        }
        let walks = walks_of(alloc, chunks, id, span)?;
        Ok(Sieve::Unskipped(id, span, ssn, tsn, walks))
    }

    // Where nothing is skipped it takes no memory.
    fn unskipped_unordered(
        alloc: Global,
        chunks: &VecDeque<ChunkPayloadData>,
        tsn: u32,
    ) -> Result<Sieve, AllocError>
        ensures { IfOk result (λ sieve. IsSieve (kept.UnskippedUnordered tsn) chunks.now.items sieve) }
    {
        if !any_skipped_unordered(chunks, tsn) {
            return Ok(Sieve::All);
        }
        Ok(Sieve::UnskippedUnordered(tsn, runs_of(alloc, chunks)?))
    }

    fn keeps(&self, chunk: &ChunkPayloadData) -> bool
        ensures { result ≡ keeps self.now chunk.now }
    {
        match self {
            Sieve::All => true,
            Sieve::Of(id, span) => span.has(*id, chunk),
            Sieve::Unskipped(id, span, ssn, tsn, walks) => {
                !is_skipped(*id, *span, *ssn, *tsn, chunk)
                    || walk_at(walks, chunk.stream_sequence_number).came_to_end()
            }
            Sieve::UnskippedUnordered(tsn, runs) => {
                !is_skipped_unordered(*tsn, chunk) || is_whole(runs, chunk)
            }
        }
    }
}

// The DATA that is kept, in the same order. Takes a clone of the bytes of each piece of it.
pub(crate) fn copies_of(
    alloc: Global,
    chunks: &VecDeque<ChunkPayloadData>,
    kept: Kept,
) -> Result<VecDeque<ChunkPayloadData>, AllocError>
    ensures { IfOk result (λ copies. copies.items ≡ filter (is_kept kept chunks.now.items) chunks.now.items) }
{
    let sieve = Sieve::new(alloc, chunks, kept)?;
    copies_by(alloc, chunks, &sieve)
}

fn copies_by(
    alloc: Global,
    chunks: &VecDeque<ChunkPayloadData>,
    sieve: &Sieve,
) -> Result<VecDeque<ChunkPayloadData>, AllocError>
    ensures { IfOk result (λ copies. copies.items ≡ filter (keeps sieve.now) chunks.now.items) }
{
    let mut copies = VecDeque::new(alloc);
    for chunk in chunks {
        if sieve.keeps(chunk) {
            copies.push_back(copy_of(chunk)?)?;
        }
    }
    Ok(copies)
}

pub(crate) fn copy_of(piece: &ChunkPayloadData) -> Result<ChunkPayloadData, AllocError>
    ensures { IfOk result (λ copy. copy ≡ piece.now) }
{
    Ok(ChunkPayloadData {
        unordered: piece.unordered,
        beginning_fragment: piece.beginning_fragment,
        ending_fragment: piece.ending_fragment,
        immediate_sack: piece.immediate_sack,
        tsn: piece.tsn,
        stream_identifier: piece.stream_identifier,
        stream_sequence_number: piece.stream_sequence_number,
        payload_type: piece.payload_type,
        user_data: piece.user_data.clone()?,
    })
}

fn any_skipped(
    chunks: &VecDeque<ChunkPayloadData>,
    id: StreamId,
    span: Span,
    ssn: u16,
    tsn: u32,
) -> bool
    ensures { result ≡ list_any (is_skipped id span ssn tsn) chunks.now.items }
{
    chunks
        .iter()
        .any(|chunk| is_skipped(id, span, ssn, tsn, chunk))
}

fn is_skipped(id: StreamId, span: Span, ssn: u16, tsn: u32, chunk: &ChunkPayloadData) -> bool
    ensures { result ≡ is_skipped id span ssn tsn chunk.now }
{
    span.has(id, chunk)
        && !chunk.unordered
        && sna16lte(chunk.stream_sequence_number, ssn)
        && sna32lte(chunk.tsn, tsn)
}

fn any_skipped_unordered(chunks: &VecDeque<ChunkPayloadData>, tsn: u32) -> bool
    ensures { result ≡ list_any (is_skipped_unordered tsn) chunks.now.items }
{
    chunks.iter().any(|chunk| is_skipped_unordered(tsn, chunk))
}

fn is_skipped_unordered(tsn: u32, chunk: &ChunkPayloadData) -> bool
    ensures { result ≡ is_skipped_unordered tsn chunk.now }
{
    chunk.unordered && sna32lte(chunk.tsn, tsn)
}
