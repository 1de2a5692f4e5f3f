// DATA of generations that are not read yet.
ghost use Rattle.std.specs.Prelude.{◌≡◌, ◌+◌, ◌-◌, ◌^◌, ◌<◌, ◌≤◌, ◌++◌, [], length, min, fold};
ghost use Rattle.sctp_receive_queues.specs.Pieces.{bytes_of, index_of, last_of};
ghost use Rattle.sctp_generations.specs.Deferred.{is_up_to, is_of, is_before, place_of, deferred_with, is_between};
ghost use Rattle.sctp_generations.specs.Deferred.{has_between, is_due, is_past, released, still_deferred};
ghost use Rattle.sctp_generations.specs.Deferred.{without_stream};
ghost use Rattle.std.specs.List.{list_any};
ghost use Rattle.std.specs.Prelude.{◌==◌, OnOk, OnErr, IfOk, IfSome, position, not, filter};
ghost use Rattle.sctp_generations.specs.Kept.{kept_of};
ghost use Rattle.sctp_generations.specs.Later.{AreWithLater};
ghost use Rattle.sctp_generations.specs.Refusals.{refusal_in};
ghost use Rattle.sctp_serial.specs.Serial.{tsn_lt};

use crate::kept::{Kept, copies_of, copy_of};
use crate::later::with_later;
use crate::refusal::first_refusal;
use crate::retiring::Retiring;
use crate::span::Span;
use sctp_serial::{sna32lt, sna32lte};
use sctp_wire_types::{ChunkPayloadData, Error, StreamId};
use std::alloc::{AllocError, Global};
use std::collections::{BTreeSet, VecDeque};
use std::marker::Model;

/// Which DATA is given to the generation that is read now.
#[derive(Clone, Copy, Debug)]
pub(crate) enum Due {
    /// That of all streams that do not retire.
    NoneRetires,
    /// That of one stream, up to a boundary if there is one.
    Of(StreamId, Option<u32>),
}

/// DATA of generations that are not read yet, of all streams in the order of the TSNs, and the sum of its bytes.
#[derive(Debug, Drop)]
pub(crate) struct Deferred {
    chunks: VecDeque<ChunkPayloadData>,
    bytes: u64,
}

impl Model for Deferred {
    ghost use Rattle.std.specs.Prelude.{◌≡◌, List};
    ghost use Rattle.sctp_receive_queues.specs.Pieces.{bytes_of};
    ghost use Rattle.sctp_wire_types.specs.declared.chunk.ChunkPayloadData.{ChunkPayloadData as Data};

    ghost Value = { List Data };

    ghost view = { λ d. d.chunks.items };

    ghost invariant = { λ d. d.bytes ≡ bytes_of d.chunks.items };
}

impl Deferred {
    pub(crate) fn new(alloc: Global) -> Self
        ensures { result ≡ [] }
    {
        Deferred {
            chunks: VecDeque::new(alloc),
            bytes: 0,
        }
    }

    pub(crate) fn bytes(&self) -> u64
        ensures { result ≡ bytes_of self.now }
    {
        self.bytes
    }

    // Puts DATA at its place. Where memory is refused nothing changes; more bytes than a u64 can say count as that.
    pub(crate) fn put(&mut self, chunk: ChunkPayloadData) -> Result<(), AllocError>
        ensures ok { OnOk result (self.new ≡ deferred_with self.old chunk) }
        ensures err { OnErr result (self.new ≡ self.old) }
    {
        let Some(bytes) = self.bytes.checked_add(chunk.user_data.len() as u64) else {
            return Err(AllocError);
        };
        let index = place_of(&self.chunks, chunk.tsn);
        self.chunks.insert(index, chunk)?;
        self.bytes = bytes;
        Ok(())
    }

    // Whether DATA of a stream waits that is past one boundary and at or below another.
    pub(crate) fn has_between(&self, id: StreamId, after: Option<u32>, upto: u32) -> bool
        ensures { result ≡ has_between id after upto self.now }
    {
        any_between(&self.chunks, id, after, upto)
    }

    // Whether DATA of a stream waits that is past a boundary.
    pub(crate) fn has_past(&self, id: StreamId, boundary: Option<u32>) -> bool
        ensures { result ≡ list_any (is_past id boundary) self.now }
    {
        any_past(&self.chunks, id, boundary)
    }

    // The streams of which DATA waits that is past their newest boundary and at or below a TSN.
    pub(crate) fn with_later(
        &self,
        alloc: Global,
        retiring: &Retiring,
        upto: u32,
    ) -> Result<BTreeSet<StreamId>, AllocError>
        ensures { IfOk result (λ ids. AreWithLater retiring.now upto self.now ids) }
    {
        with_later(alloc, &self.chunks, retiring, upto)
    }

    // Takes out the DATA that is due, in the order of the TSNs. Where memory is refused nothing changes.
    pub(crate) fn release(
        &mut self,
        alloc: Global,
        due: Due,
        retiring: &Retiring,
    ) -> Result<VecDeque<ChunkPayloadData>, AllocError>
        ensures given { IfOk result (λ given. given.items ≡ released due retiring.now self.old) }
        ensures left { OnOk result (self.new ≡ still_deferred due retiring.now self.old) }
        ensures err { OnErr result (self.new ≡ self.old) }
    {
        let given = take_due(alloc, &mut self.chunks, due, retiring)?;
        self.bytes = add_bytes(&self.chunks);
        Ok(given)
    }

    pub(crate) fn clear(&mut self)
        ensures { self.new ≡ [] }
    {
        self.chunks.clear();
        self.bytes = 0;
    }

    // Why the DATA of a span refuses a new piece of its stream, all pieces taken in the order of the TSNs.
    pub(crate) fn refusal(
        &self,
        alloc: Global,
        piece: &ChunkPayloadData,
        span: Span,
        limit: u32,
    ) -> Result<Option<Error>, AllocError>
        ensures { IfOk result (λ refusal. refusal ≡ refusal_in span self.now piece.now limit) }
    {
        let mut pieces = copies_of(alloc, &self.chunks, Kept::Of(piece.stream_identifier, span))?;
        let index = place_of(&pieces, piece.tsn);
        pieces.insert(index, copy_of(piece)?)?;
        first_refusal(alloc, &mut pieces, limit)
    }

    // The DATA that is kept.
    pub(crate) fn kept(&self, alloc: Global, kept: Kept) -> Result<Deferred, AllocError>
        ensures { IfOk result (λ left. left ≡ kept_of kept self.now) }
    {
        // A u64 can say the bytes of all, so it can say those of some.
        let _all = self.bytes;
        let chunks = copies_of(alloc, &self.chunks, kept)?;
        let bytes = add_bytes(&chunks);
        Ok(Deferred { chunks, bytes })
    }

    pub(crate) fn is_empty(&self) -> bool
        ensures { result ≡ (length self.now == 0) }
    {
        self.chunks.is_empty()
    }

    // Drops all DATA of a stream.
    pub(crate) fn discard(&mut self, id: StreamId)
        ensures { self.new ≡ without_stream id self.old }
    {
        drop_stream(&mut self.chunks, id);
        self.bytes = add_bytes(&self.chunks);
    }
}

// Behind all others where the last one is before this TSN, else in front of the first that is past it.
fn place_of(chunks: &VecDeque<ChunkPayloadData>, tsn: u32) -> usize
    ensures index { result ≡ place_of tsn chunks.now.items }
    ensures bound { result ≤ length chunks.now.items }
{
    if is_before(chunks, tsn) {
        return chunks.len();
    }
    match first_past(chunks, tsn) {
        Some(index) => index,
        None => chunks.len(),
    }
}

fn is_before(chunks: &VecDeque<ChunkPayloadData>, tsn: u32) -> bool
    ensures { result ≡ is_before (last_of chunks.now.items) tsn }
{
    match chunks.back() {
        Some(last) => sna32lt(last.tsn, tsn),
        None => true,
    }
}

fn first_past(chunks: &VecDeque<ChunkPayloadData>, tsn: u32) -> Option<usize>
    ensures first { result ≡ position (λ d. tsn_lt tsn d.tsn) chunks.now.items }
    ensures bound { IfSome result (λ index. index < length chunks.now.items) }
{
    chunks.iter().position(|chunk| sna32lt(tsn, chunk.tsn))
}

fn any_between(
    chunks: &VecDeque<ChunkPayloadData>,
    id: StreamId,
    after: Option<u32>,
    upto: u32,
) -> bool
    ensures { result ≡ has_between id after upto chunks.now.items }
{
    chunks
        .iter()
        .any(|chunk| is_between(chunk, id, after, upto))
}

fn any_past(chunks: &VecDeque<ChunkPayloadData>, id: StreamId, boundary: Option<u32>) -> bool
    ensures { result ≡ list_any (is_past id boundary) chunks.now.items }
{
    chunks.iter().any(|chunk| is_past(chunk, id, boundary))
}

fn is_past(chunk: &ChunkPayloadData, id: StreamId, boundary: Option<u32>) -> bool
    ensures { result ≡ is_past id boundary chunk.now }
{
    chunk.stream_identifier == id && !is_up_to(boundary, chunk.tsn)
}

pub(crate) fn is_between(
    chunk: &ChunkPayloadData,
    id: StreamId,
    after: Option<u32>,
    upto: u32,
) -> bool
    ensures { result ≡ is_between id after upto chunk.now }
{
    chunk.stream_identifier == id && !is_up_to(after, chunk.tsn) && sna32lte(chunk.tsn, upto)
}

pub(crate) fn is_up_to(boundary: Option<u32>, tsn: u32) -> bool
    ensures { result ≡ is_up_to boundary tsn }
{
    match boundary {
        Some(boundary) => sna32lte(tsn, boundary),
        None => true,
    }
}

fn is_due(chunk: &ChunkPayloadData, due: Due, retiring: &Retiring) -> bool
    ensures { result ≡ is_due due retiring.now chunk.now }
{
    match due {
        Due::NoneRetires => !retiring.contains(chunk.stream_identifier),
        Due::Of(id, upto) => chunk.stream_identifier == id && is_up_to(upto, chunk.tsn),
    }
}

// Takes out the DATA that is due; where memory is refused nothing changes.
fn take_due(
    alloc: Global,
    chunks: &mut VecDeque<ChunkPayloadData>,
    due: Due,
    retiring: &Retiring,
) -> Result<VecDeque<ChunkPayloadData>, AllocError>
    ensures given { IfOk result (λ given. given.items ≡ released due retiring.now chunks.old.items) }
    ensures left { OnOk result (chunks.new.items ≡ still_deferred due retiring.now chunks.old.items) }
    ensures err { OnErr result (chunks.new.items ≡ chunks.old.items) }
{
    let mut given = VecDeque::with_capacity(alloc, chunks.len())?;
    let mut left = VecDeque::with_capacity(alloc, chunks.len())?;
    while let Some(chunk) = chunks.pop_front() {
        if is_due(&chunk, due, retiring) {
            given.push_back_reserved(chunk);
        } else {
            left.push_back_reserved(chunk);
        }
    }
    *chunks = left;
    Ok(given)
}

fn drop_stream(chunks: &mut VecDeque<ChunkPayloadData>, id: StreamId)
    ensures { chunks.new.items ≡ without_stream id chunks.old.items }
{
    chunks.retain(|chunk| chunk.stream_identifier != id);
}

// The bytes of all, at most the greatest u64.
fn add_bytes(chunks: &VecDeque<ChunkPayloadData>) -> u64
    ensures { result ≡ fold (λ sum d. min (sum + length d.user_data) (2 ^ 64 - 1)) 0 chunks.now.items }
{
    chunks.iter().fold(0u64, |sum, chunk| {
        sum.saturating_add(chunk.user_data.len() as u64)
    })
}
