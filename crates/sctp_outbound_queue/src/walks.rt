// What goes over a list of the queue.
ghost use Rattle.std.specs.Prelude.{◌≡◌, ◌+◌, ◌-◌, ◌^◌, ◌<◌, ◌≤◌, ◌++◌, map, min, fold, find, take, drop};
ghost use Rattle.std.specs.Prelude.{false, List, None, Some, slice_set};
ghost use Rattle.std.specs.Prelude.{slice_get, true, if◌then◌else◌};
ghost use Rattle.std.specs.List.{list_any, position_or_len};
ghost use Rattle.std.specs.Option.{option_copied};
ghost use Rattle.sctp_outbound_queue.specs.Message.{is_of, is_of_stream};
ghost use Rattle.sctp_outbound_queue.specs.Message.{is_outstanding, outstanding_bytes_of};
ghost use Rattle.sctp_outbound_queue.specs.Message.{marked_again, flagged, flying_bytes};
ghost use Rattle.sctp_outbound_queue.specs.Message.{sent_started, is_last_report, picks};
ghost use Rattle.sctp_outbound_queue.specs.Message.{reported_missing};
ghost use Rattle.sctp_outbound_queue.specs.Outbound.{flying_of, outstanding_of_message, marked_of};
ghost use Rattle.sctp_outbound_queue.specs.Outbound.{is_last_report_of, is_outstanding_piece, with_report};
ghost use Rattle.sctp_outbound_queue.specs.Front.{flagged_at, holds_at, piece_ids, NeverFall};
ghost use Rattle.sctp_outbound_queue.specs.PieceSets.{AreStanding, HavePlace};
ghost use Rattle.sctp_outbound_queue.specs.declared.message.InFlight.{InFlight as Piece};
ghost use Rattle.sctp_outbound_queue.specs.Clocks.{AreSentTimely};
ghost use Rattle.sctp_outbound_queue.specs.Message.{sooner_piece};

use crate::clocks::Clocks;
use crate::piece_sets::PieceSets;
use crate::{InFlight, Reports, Retransmission};
use sctp_wire_types::{Instant, StreamId};
use std::collections::VecDeque;

/// What is lost as pieces are abandoned.
#[derive(Clone, Copy)]
pub(crate) struct Lost {
    /// The bytes that are outstanding no more, at most the greatest u64.
    pub(crate) bytes: u64,
    /// Those of them that flew.
    pub(crate) flying: u64,
    /// How many pieces are marked no more.
    pub(crate) marks: usize,
}

// How many pieces are marked to be sent again.
fn count_marked(pieces: &VecDeque<InFlight>) -> usize
    ensures { result ≡ marked_of pieces.now.items }
{
    pieces.iter().filter(|piece| piece.retransmit).count()
}

// The index of the first outstanding piece, or how many there are. No piece before `from` is outstanding.
pub(crate) fn first_outstanding(pieces: &VecDeque<InFlight>, from: usize) -> usize
    requires { from ≤ position_or_len is_outstanding pieces.now.items }
    ensures { result ≡ position_or_len is_outstanding pieces.now.items }
{
    for index in from..pieces.len() {
        if is_outstanding_at(pieces, index) {
            return index;
        }
    }
    pieces.len()
}

fn is_outstanding_at(pieces: &VecDeque<InFlight>, index: usize) -> bool
    ensures { result ≡ is_outstanding_piece (slice_get pieces.now.items index) }
{
    match pieces.get(index) {
        Some(piece) => piece.is_outstanding(),
        None => false,
    }
}

pub(crate) fn first_missing(pieces: &VecDeque<InFlight>) -> Option<&InFlight>
    ensures { option_copied result ≡ find (picks Retransmission.Fast) pieces.now.items }
{
    pieces
        .iter()
        .find(|piece| piece.goes_again(Retransmission::Fast))
}

pub(crate) fn any_of_message(pieces: &VecDeque<InFlight>, message_id: u64) -> bool
    ensures { result ≡ list_any (is_of message_id) pieces.now.items }
{
    pieces.iter().any(|piece| piece.is_of(message_id))
}

pub(crate) fn any_of_stream(pieces: &VecDeque<InFlight>, id: StreamId) -> bool
    ensures { result ≡ list_any (is_of_stream id) pieces.now.items }
{
    pieces.iter().any(|piece| piece.is_of_stream(id))
}

// Abandons the pieces of the message of the piece at an index, which are neighbours. Answers what is lost by that.
pub(crate) fn flag_all(
    pieces: &mut VecDeque<InFlight>,
    sets: &mut PieceSets,
    index: usize,
    message_id: u64,
) -> Lost
    requires sets { AreStanding sets.old pieces.old.items }
    requires order { NeverFall 0 (piece_ids pieces.old.items) }
    requires at { holds_at (is_of message_id) (slice_get pieces.old.items index) ≡ true }
    requires flying { flying_of pieces.old.items < 2 ^ 64 }
    ensures flagged { pieces.new.items ≡ map (flagged message_id) pieces.old.items }
    ensures sets { AreStanding sets.new pieces.new.items }
    ensures bytes { result.bytes ≡ min (outstanding_of_message message_id pieces.old.items) (2 ^ 64 - 1) }
    ensures flying { result.flying + flying_of pieces.new.items ≡ flying_of pieces.old.items }
    ensures marks { result.marks + marked_of pieces.new.items ≡ marked_of pieces.old.items }
{
    let first = first_of(pieces, index, message_id);
    flag_from(pieces, sets, first, message_id)
}

// The index of the first piece of a message of which one stands at an index. Goes over no piece before it but one.
fn first_of(pieces: &VecDeque<InFlight>, index: usize, message_id: u64) -> usize
    requires order { NeverFall 0 (piece_ids pieces.now.items) }
    requires at { holds_at (is_of message_id) (slice_get pieces.now.items index) ≡ true }
    ensures at { holds_at (is_of message_id) (slice_get pieces.now.items result) ≡ true }
    ensures before { list_any (is_of message_id) (take result pieces.now.items) ≡ false }
{
    for passed in 0..index {
        let before = index - 1 - passed;
        if !is_of_at(pieces, before, message_id) {
            return before + 1;
        }
    }
    0
}

fn is_of_at(pieces: &VecDeque<InFlight>, index: usize, message_id: u64) -> bool
    ensures { result ≡ holds_at (is_of message_id) (slice_get pieces.now.items index) }
{
    match pieces.get(index) {
        Some(piece) => piece.is_of(message_id),
        None => false,
    }
}

// Abandons the pieces of a message, whose first one stands at an index. Goes over no piece behind its last one but one.
fn flag_from(
    pieces: &mut VecDeque<InFlight>,
    sets: &mut PieceSets,
    first: usize,
    message_id: u64,
) -> Lost
    requires sets { AreStanding sets.old pieces.old.items }
    requires order { NeverFall 0 (piece_ids pieces.old.items) }
    requires at { holds_at (is_of message_id) (slice_get pieces.old.items first) ≡ true }
    requires before { list_any (is_of message_id) (take first pieces.old.items) ≡ false }
    requires flying { flying_of pieces.old.items < 2 ^ 64 }
    ensures flagged { pieces.new.items ≡ map (flagged message_id) pieces.old.items }
    ensures sets { AreStanding sets.new pieces.new.items }
    ensures bytes { result.bytes ≡ min (outstanding_of_message message_id pieces.old.items) (2 ^ 64 - 1) }
    ensures flying { result.flying + flying_of pieces.new.items ≡ flying_of pieces.old.items }
    ensures marks { result.marks + marked_of pieces.new.items ≡ marked_of pieces.old.items }
{
    let mut lost = Lost {
        bytes: 0,
        flying: 0,
        marks: 0,
    };
    for index in first..pieces.len() {
        if !flag_at(pieces, sets, index, message_id, &mut lost) {
            return lost;
        }
    }
    lost
}

// Abandons the piece at an index, if it is one of this message, and adds to what is lost. Answers whether it is one.
fn flag_at(
    pieces: &mut VecDeque<InFlight>,
    sets: &mut PieceSets,
    index: usize,
    message_id: u64,
    lost: &mut Lost,
) -> bool
    requires sets { AreStanding sets.old pieces.old.items }
    requires room { lost.old.marks < 2 ^ 64 - 1 }
    requires most { lost.old.bytes < 2 ^ 64 }
    requires flying { lost.old.flying + flying_of pieces.old.items < 2 ^ 64 }
    ensures is { result ≡ holds_at (is_of message_id) (slice_get pieces.old.items index) }
    ensures flagged { pieces.new.items ≡
        flagged_at message_id (slice_get pieces.old.items index) index pieces.old.items }
    ensures sets { AreStanding sets.new pieces.new.items }
    ensures bytes { min (lost.new.bytes + outstanding_of_message message_id pieces.new.items) (2 ^ 64 - 1) ≡
        min (lost.old.bytes + outstanding_of_message message_id pieces.old.items) (2 ^ 64 - 1) }
    ensures most { lost.new.bytes < 2 ^ 64 }
    ensures flying { lost.new.flying + flying_of pieces.new.items ≡ lost.old.flying + flying_of pieces.old.items }
    ensures marks { lost.new.marks + marked_of pieces.new.items ≡ lost.old.marks + marked_of pieces.old.items }
{
    match pieces.get_mut(index) {
        Some(piece) => flag(piece, sets, index, message_id, lost),
        None => false,
    }
}

#[inline(always)]
fn flag(
    piece: &mut InFlight,
    sets: &mut PieceSets,
    index: usize,
    message_id: u64,
    lost: &mut Lost,
) -> bool
    requires place { HavePlace index sets.old }
    requires room { lost.old.marks < 2 ^ 64 - 1 }
    requires flying { lost.old.flying + flying_bytes piece.old < 2 ^ 64 }
    ensures is { result ≡ is_of message_id piece.old }
    ensures flagged { piece.new ≡ flagged message_id piece.old }
    ensures sets { (ps : List Piece) → slice_get ps index ≡ Some piece.old → AreStanding sets.old ps
        → AreStanding sets.new (slice_set ps index piece.new) }
    ensures bytes { lost.new.bytes ≡
        min (lost.old.bytes + outstanding_bytes_of message_id piece.old) (2 ^ 64 - 1) }
    ensures flying { lost.new.flying + flying_bytes piece.new ≡ lost.old.flying + flying_bytes piece.old }
    ensures marks { lost.new.marks + (if piece.new.retransmit then 1 else 0) ≡
        lost.old.marks + (if piece.old.retransmit then 1 else 0) }
{
    if !piece.is_of(message_id) {
        return false;
    }
    lost.bytes = lost.bytes.saturating_add(piece.outstanding_bytes());
    lost.flying += piece.flying_bytes();
    lost.marks += usize::from(piece.retransmit);
    piece.abandon(message_id);
    sets.settle(index, piece);
    true
}

// Marks every outstanding piece, and answers how many pieces are marked then.
pub(crate) fn mark_all(pieces: &mut VecDeque<InFlight>, sets: &mut PieceSets) -> usize
    requires { AreStanding sets.old pieces.old.items }
    ensures marked { pieces.new.items ≡ map marked_again pieces.old.items }
    ensures count { result ≡ marked_of pieces.new.items }
    ensures sets { AreStanding sets.new pieces.new.items }
{
    mark_each(pieces.make_contiguous(), sets);
    count_marked(pieces)
}

fn mark_each(pieces: &mut [InFlight], sets: &mut PieceSets)
    requires { AreStanding sets.old pieces.old }
    ensures marked { pieces.new ≡ map marked_again pieces.old }
    ensures sets { AreStanding sets.new pieces.new }
{
    let mut index = 0;
    for piece in pieces.iter_mut() {
        mark(piece, sets, index);
        index += 1;
    }
}

// Marks a piece at an index, if it is outstanding.
fn mark(piece: &mut InFlight, sets: &mut PieceSets, index: usize)
    requires { HavePlace index sets.old }
    ensures marked { piece.new ≡ marked_again piece.old }
    ensures sets { (ps : List Piece) → slice_get ps index ≡ Some piece.old → AreStanding sets.old ps
        → AreStanding sets.new (slice_set ps index piece.new) }
{
    piece.mark();
    sets.settle_mark(index, piece);
}

// The first so many pieces are reported missing. Answers whether that is enough to send one of them again. Passes over
// what was acknowledged.
pub(crate) fn report_missing(
    pieces: &mut VecDeque<InFlight>,
    sets: &mut PieceSets,
    reports: &Reports,
) -> bool
    requires { AreStanding sets.old pieces.old.items }
    ensures last { result ≡ list_any (is_last_report reports.now) (take reports.now.count pieces.old.items) }
    ensures counted { pieces.new.items ≡ map (reported_missing reports.now) (take reports.now.count pieces.old.items)
        ++ drop reports.now.count pieces.old.items }
    ensures sets { AreStanding sets.new pieces.new.items }
{
    let end = reports.count.min(pieces.len());
    let mut any_last = false;
    let mut index = sets.skip_acknowledged(0, end);
    'pieces: while index < end {
        any_last |= report_at(pieces, sets, index, reports);
        index = sets.skip_acknowledged(index + 1, end);
    }
    any_last
}

// One piece is reported missing. Answers whether that is enough to send it again.
fn report_at(
    pieces: &mut VecDeque<InFlight>,
    sets: &mut PieceSets,
    index: usize,
    reports: &Reports,
) -> bool
    requires { AreStanding sets.old pieces.old.items }
    ensures last { result ≡ is_last_report_of reports.now (slice_get pieces.old.items index) }
    ensures counted { pieces.new.items ≡
        with_report reports.now (slice_get pieces.old.items index) index pieces.old.items }
    ensures sets { AreStanding sets.new pieces.new.items }
{
    match pieces.get_mut(index) {
        Some(piece) => {
            let is_last = piece.is_last_report(reports);
            piece.report_missing(reports);
            if is_last {
                sets.settle_missing(index, piece);
            }
            is_last
        }
        None => false,
    }
}

// So it does with the messages of pieces in flight: over all, or over none where all run.
pub(crate) fn start_sent(
    pieces: &mut VecDeque<InFlight>,
    clocks: &Clocks,
    now: Instant,
) -> Option<Instant>
    requires { AreSentTimely clocks.now pieces.old.items }
    ensures started { pieces.new.items ≡ map (sent_started now) pieces.old.items }
    ensures timely { AreSentTimely (record clocks.now { sent_run = true; next_sent = result }) pieces.new.items }
{
    if clocks.sent_run {
        return clocks.next_sent;
    }
    start_all_sent(pieces, now);
    next_sent(pieces)
}

fn start_all_sent(pieces: &mut VecDeque<InFlight>, now: Instant)
    ensures { pieces.new.items ≡ map (sent_started now) pieces.old.items }
{
    start_each_sent(pieces.make_contiguous(), now);
}

fn start_each_sent(pieces: &mut [InFlight], now: Instant)
    ensures { pieces.new ≡ map (sent_started now) pieces.old }
{
    for piece in pieces.iter_mut() {
        piece.start(now);
    }
}

// The least deadline of what is in flight and not abandoned.
pub(crate) fn next_sent(pieces: &VecDeque<InFlight>) -> Option<Instant>
    ensures { result ≡ fold sooner_piece None pieces.now.items }
{
    pieces.iter().fold(None, |next, piece| piece.sooner(next))
}
