// Pieces of unordered messages that are not complete: runs of pieces of one message whose TSNs follow one another, in
// the order of their TSNs.
ghost use Rattle.std.specs.Prelude.{◌≡◌, ◌+◌, ◌-◌, ◌<◌, ◌≤◌, ◌^◌, ◌⊎◌, ◌||◌, ◌==◌, not, map, length, position, remove};
ghost use Rattle.std.specs.Prelude.{None, Some, IsOk, IfOk, IfErr, OnOk, OnErr, IfSome, filter, true, IsTrue, []};
ghost use Rattle.std.specs.Prelude.{unwrap_or, option_copied, slice_set, ◌++◌, ◌∷◌};
ghost use Rattle.std.specs.VecDeque.{deque_len, deque_capacity};
ghost use Rattle.sctp_receive_queues.specs.Pieces.{bytes_of, is_complete, covers, is_past};
ghost use Rattle.sctp_receive_queues.specs.Reassembly.{run_before, run_at, index_for_tsn, is_torn_before};
ghost use Rattle.sctp_receive_queues.specs.Reassembly.{is_torn_after, joins_before, joins_after, part, with_unordered};
ghost use Rattle.sctp_receive_queues.specs.Reassembly.{finished, unordered_put, refusal_of_unordered, refusal_between};
ghost use Rattle.sctp_receive_queues.specs.Reassembly.{above, trimmed};

use crate::Chunks;
use crate::pieces::Pieces;
use sctp_wire_types::{ChunkPayloadData, Error};
use std::alloc::{AllocError, Global};
use std::collections::VecDeque;
use std::mem;

// Why a piece is refused beside those held, if it is.
pub(crate) fn refusal_of(
    runs: &VecDeque<Pieces>,
    piece: &ChunkPayloadData,
    limit: u32,
) -> Option<Error>
    ensures { result ≡ refusal_of_unordered runs.now.items piece.now limit }
{
    refusal(runs, index_for(runs, piece.tsn), piece, limit)
}

// Puts a piece to the others, and its message to the complete ones where this was its last piece. Where the piece is
// refused nothing changes.
pub(crate) fn put(
    runs: &mut VecDeque<Pieces>,
    complete: &mut VecDeque<Chunks>,
    alloc: Global,
    piece: ChunkPayloadData,
    limit: u32,
) -> Result<(), Error>
    ensures put { OnOk result
        (unordered_put runs.old.items complete.old.items piece ≡ (runs.new.items, complete.new.items)) }
    ensures unchanged { OnErr result (runs.new.items ≡ runs.old.items) }
    ensures complete_stay { OnErr result (complete.new.items ≡ complete.old.items) }
    ensures taken { IsOk result → refusal_of_unordered runs.old.items piece limit ≡ None }
    ensures refused { IfErr result
        (λ e. ((e ≡ Error.ErrNoMemory) × (refusal_of_unordered runs.old.items piece limit ≡ None))
        ⊎ (refusal_of_unordered runs.old.items piece limit ≡ Some e)) }
{
    let index = index_for(runs, piece.tsn);
    if let Some(error) = refusal(runs, index, &piece, limit) {
        return Err(error);
    }
    complete.reserve(1)?;
    let index = join(runs, index, alloc, piece)?;
    finish(runs, complete, index);
    Ok(())
}

// In front of the first run that is past this TSN, else at the end.
fn index_for(runs: &VecDeque<Pieces>, tsn: u32) -> usize
    ensures index { result ≡ index_for_tsn tsn runs.now.items }
    ensures bound { result ≤ length runs.now.items }
{
    match first_past(runs, tsn) {
        Some(index) => index,
        None => runs.len(),
    }
}

fn first_past(runs: &VecDeque<Pieces>, tsn: u32) -> Option<usize>
    ensures first { result ≡ position (λ r. is_past r tsn) runs.now.items }
    ensures bound { IfSome result (λ index. index < length runs.now.items) }
{
    runs.iter().position(|run| run.is_past(tsn))
}

fn before(runs: &VecDeque<Pieces>, index: usize) -> Option<&Pieces>
    ensures { unwrap_or (option_copied result) [] ≡ run_before runs.now.items index }
{
    if index == 0 {
        return None;
    }
    runs.get(index - 1)
}

fn at(runs: &VecDeque<Pieces>, index: usize) -> Option<&Pieces>
    ensures { unwrap_or (option_copied result) [] ≡ run_at runs.now.items index }
{
    runs.get(index)
}

// Why a piece is refused between its neighbours, if it is.
fn refusal(
    runs: &VecDeque<Pieces>,
    index: usize,
    piece: &ChunkPayloadData,
    limit: u32,
) -> Option<Error>
    ensures refusal { result ≡ refusal_between (run_before runs.now.items index) piece.now
        (run_at runs.now.items index) limit }
    ensures small { result ≡ None
        → bytes_of (part (joins_before (run_before runs.now.items index) piece.now) (run_before runs.now.items index))
        + length piece.now.user_data + bytes_of
        (part (joins_after (run_at runs.now.items index) piece.now) (run_at runs.now.items index)) ≤ limit }
{
    if contradicts_before(runs, index, piece) || contradicts_after(runs, index, piece) {
        return Some(Error::ErrContradictoryPieces);
    }
    let bytes = bytes_before(runs, index, piece)
        .saturating_add(piece.user_data.len() as u64)
        .saturating_add(bytes_after(runs, index, piece));
    if bytes > limit as u64 {
        return Some(Error::ErrInboundMessageTooLarge);
    }
    None
}

fn contradicts_before(runs: &VecDeque<Pieces>, index: usize, piece: &ChunkPayloadData) -> bool
    ensures { result ≡ (covers (run_before runs.now.items index) piece.now.tsn
        || is_torn_before (run_before runs.now.items index) piece.now) }
{
    match before(runs, index) {
        Some(run) => run.covers(piece.tsn) || run.is_torn_before(piece),
        None => false,
    }
}

fn contradicts_after(runs: &VecDeque<Pieces>, index: usize, piece: &ChunkPayloadData) -> bool
    ensures { result ≡ is_torn_after (run_at runs.now.items index) piece.now }
{
    match at(runs, index) {
        Some(run) => run.is_torn_after(piece),
        None => false,
    }
}

fn is_joined_before(runs: &VecDeque<Pieces>, index: usize, piece: &ChunkPayloadData) -> bool
    ensures joins { result ≡ joins_before (run_before runs.now.items index) piece.now }
    ensures index { IsTrue result → 0 < index }
    ensures bound { IsTrue result → index - 1 < length runs.now.items }
{
    match before(runs, index) {
        Some(run) => run.joins_before(piece),
        None => false,
    }
}

fn is_joined_after(runs: &VecDeque<Pieces>, index: usize, piece: &ChunkPayloadData) -> bool
    ensures joins { result ≡ joins_after (run_at runs.now.items index) piece.now }
    ensures bound { IsTrue result → index < length runs.now.items }
{
    match at(runs, index) {
        Some(run) => run.joins_after(piece),
        None => false,
    }
}

fn bytes_before(runs: &VecDeque<Pieces>, index: usize, piece: &ChunkPayloadData) -> u64
    ensures { result ≡ bytes_of
        (part (joins_before (run_before runs.now.items index) piece.now) (run_before runs.now.items index)) }
{
    match before(runs, index) {
        Some(run) if run.joins_before(piece) => run.bytes(),
        _ => 0,
    }
}

fn bytes_after(runs: &VecDeque<Pieces>, index: usize, piece: &ChunkPayloadData) -> u64
    ensures { result ≡ bytes_of
        (part (joins_after (run_at runs.now.items index) piece.now) (run_at runs.now.items index)) }
{
    match at(runs, index) {
        Some(run) if run.joins_after(piece) => run.bytes(),
        _ => 0,
    }
}

// Puts a piece to the runs that it goes on with, and answers the index of its run.
fn join(
    runs: &mut VecDeque<Pieces>,
    index: usize,
    alloc: Global,
    piece: ChunkPayloadData,
) -> Result<usize, AllocError>
    requires index { index ≤ length runs.old.items }
    requires bytes { bytes_of (part (joins_before (run_before runs.old.items index) piece)
        (run_before runs.old.items index)) + length piece.user_data + bytes_of
        (part (joins_after (run_at runs.old.items index) piece) (run_at runs.old.items index)) < 2 ^ 64 }
    ensures put { IfOk result (λ k. with_unordered runs.old.items index piece ≡ (runs.new.items, k)) }
    ensures unchanged { OnErr result (runs.new.items ≡ runs.old.items) }
{
    let joins_before = is_joined_before(runs, index, &piece);
    let joins_after = is_joined_after(runs, index, &piece);
    match (joins_before, joins_after) {
        (false, false) => {
            let run = Pieces::of(alloc, piece);
            runs.insert(index, run)?;
            Ok(index)
        }
        (true, false) => {
            push_back_at(runs, index - 1, piece)?;
            Ok(index - 1)
        }
        (false, true) => {
            push_front_at(runs, index, piece)?;
            Ok(index)
        }
        (true, true) => {
            join_at(runs, index, alloc, piece)?;
            Ok(index - 1)
        }
    }
}

fn push_back_at(
    runs: &mut VecDeque<Pieces>,
    index: usize,
    piece: ChunkPayloadData,
) -> Result<(), AllocError>
    requires index { index < length runs.old.items }
    requires bytes { bytes_of (run_at runs.old.items index) + length piece.user_data < 2 ^ 64 }
    ensures put { OnOk result
        (runs.new.items ≡ slice_set runs.old.items index (run_at runs.old.items index ++ piece ∷ [])) }
    ensures unchanged { OnErr result (runs.new.items ≡ runs.old.items) }
{
    match runs.get_mut(index) {
        Some(run) => run.push_back(piece),
        None => Ok(()),
    }
}

fn push_front_at(
    runs: &mut VecDeque<Pieces>,
    index: usize,
    piece: ChunkPayloadData,
) -> Result<(), AllocError>
    requires index { index < length runs.old.items }
    requires bytes { bytes_of (run_at runs.old.items index) + length piece.user_data < 2 ^ 64 }
    ensures put { OnOk result (runs.new.items ≡ slice_set runs.old.items index (piece ∷ run_at runs.old.items index)) }
    ensures unchanged { OnErr result (runs.new.items ≡ runs.old.items) }
{
    match runs.get_mut(index) {
        Some(run) => run.push_front(piece),
        None => Ok(()),
    }
}

// Puts a piece between the run in front of an index and the run at it.
fn join_at(
    runs: &mut VecDeque<Pieces>,
    index: usize,
    alloc: Global,
    piece: ChunkPayloadData,
) -> Result<(), AllocError>
    requires first { 0 < index }
    requires index { index < length runs.old.items }
    requires bytes { bytes_of (run_at runs.old.items (index - 1)) + length piece.user_data
        + bytes_of (run_at runs.old.items index) < 2 ^ 64 }
    ensures put { OnOk result (runs.new.items
        ≡ remove (slice_set runs.old.items (index - 1)
        (run_at runs.old.items (index - 1) ++ piece ∷ run_at runs.old.items index)) index) }
    ensures unchanged { OnErr result (runs.new.items ≡ runs.old.items) }
{
    let mut behind = replace_at(runs, index, Pieces::none(alloc));
    match join_front(runs, index - 1, piece, &mut behind) {
        Ok(()) => {
            runs.remove(index);
            Ok(())
        }
        Err(error) => {
            replace_at(runs, index, behind);
            Err(error)
        }
    }
}

fn replace_at(runs: &mut VecDeque<Pieces>, index: usize, run: Pieces) -> Pieces
    requires { index < length runs.old.items }
    ensures taken { result ≡ run_at runs.old.items index }
    ensures put { runs.new.items ≡ slice_set runs.old.items index run }
{
    match runs.get_mut(index) {
        Some(held) => mem::replace(held, run),
        None => run,
    }
}

fn join_front(
    runs: &mut VecDeque<Pieces>,
    index: usize,
    piece: ChunkPayloadData,
    behind: &mut Pieces,
) -> Result<(), AllocError>
    requires index { index < length runs.old.items }
    requires bytes { bytes_of (run_at runs.old.items index) + length piece.user_data + bytes_of behind.old < 2 ^ 64 }
    ensures put { OnOk result
        (runs.new.items ≡ slice_set runs.old.items index (run_at runs.old.items index ++ piece ∷ behind.old)) }
    ensures unchanged { OnErr result (runs.new.items ≡ runs.old.items) }
    ensures behind { OnErr result (behind.new ≡ behind.old) }
{
    match runs.get_mut(index) {
        Some(run) => run.join(piece, behind),
        None => Ok(()),
    }
}

// Where the run at an index is a complete message, it is that.
fn finish(runs: &mut VecDeque<Pieces>, complete: &mut VecDeque<Chunks>, index: usize)
    requires { deque_len complete.old < deque_capacity complete.old }
    ensures { finished runs.old.items index complete.old.items ≡ (runs.new.items, complete.new.items) }
{
    if is_complete_at(runs, index) {
        if let Some(run) = runs.remove(index) {
            complete.push_back_reserved(run.into_chunks());
        }
    }
}

fn is_complete_at(runs: &VecDeque<Pieces>, index: usize) -> bool
    ensures { result ≡ is_complete (run_at runs.now.items index) }
{
    match runs.get(index) {
        Some(run) => run.is_complete(),
        None => false,
    }
}

// Drops the pieces that are at or below a TSN.
pub(crate) fn skip(runs: &mut VecDeque<Pieces>, tsn: u32)
    ensures { runs.new.items ≡ trimmed tsn runs.old.items }
{
    trim(runs, tsn);
    drop_empty(runs);
}

fn trim(runs: &mut VecDeque<Pieces>, tsn: u32)
    ensures { runs.new.items ≡ map (above tsn) runs.old.items }
{
    trim_each(runs.make_contiguous(), tsn);
}

fn drop_empty(runs: &mut VecDeque<Pieces>)
    ensures { runs.new.items ≡ filter (λ r. not (length r == 0)) runs.old.items }
{
    runs.retain(|run| !run.is_empty());
}

fn trim_each(runs: &mut [Pieces], tsn: u32)
    ensures { runs.new ≡ map (above tsn) runs.old }
{
    for run in runs.iter_mut() {
        run.drop_up_to(tsn);
    }
}
