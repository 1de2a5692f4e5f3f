// What goes over the messages that wait.
ghost use Rattle.std.specs.Prelude.{◌≡◌, ◌+◌, ◌-◌, ◌^◌, ◌<◌, ◌≤◌, length, map, min, fold, find, take, drop};
ghost use Rattle.std.specs.Prelude.{ℕ, None, Some, if◌then◌else◌, ◌==◌, ◌++◌, ◌∷◌, []};
ghost use Rattle.std.specs.Prelude.{slice_get, slice_range};
ghost use Rattle.std.specs.VecDeque.{deque_len, deque_capacity};
ghost use Rattle.std.specs.List.{list_any, position_or_len};
ghost use Rattle.sctp_outbound_queue.specs.Message.{piece_count, is_waiting_of_stream};
ghost use Rattle.sctp_outbound_queue.specs.Message.{is_expired_unsent, sent_once, waiting_started};
ghost use Rattle.sctp_outbound_queue.specs.Message.{outstanding_bytes, with_start};
ghost use Rattle.sctp_outbound_queue.specs.Outbound.{after_piece, pieces_waiting};
ghost use Rattle.sctp_outbound_queue.specs.Clocks.{AllFrom, AllRun, AreWaitingTimely, Cover, sent_by};
ghost use Rattle.sctp_outbound_queue.specs.Owed.{standing};
ghost use Rattle.sctp_outbound_queue.specs.Stretches.{total};
ghost use Rattle.sctp_outbound_queue.specs.Expiry.{without_expired};
ghost use Rattle.sctp_outbound_queue.specs.Waiting.{Waiting};

use crate::clocks::{Clocks, Look};
use crate::message::soonest;
use crate::messages::Messages;
use crate::stretches::{Stretch, Stretches};
use crate::{InFlight, PendingMessage};
use sctp_wire_types::{Instant, StreamId};
use std::collections::VecDeque;

// Puts the next piece of the first message in flight, sent once at `now`, and takes the message out with its last one.
// Answers the bytes of the piece. Each of the two ways puts it there itself, since where they meet it would be copied.
#[inline(always)]
pub(crate) fn send_piece(
    messages: &mut VecDeque<PendingMessage>,
    in_flight: &mut VecDeque<InFlight>,
    clocks: &mut Clocks,
    now: Instant,
) -> u64
    requires some { 0 < length messages.old.items }
    requires room { deque_len in_flight.old < deque_capacity in_flight.old }
    ensures left { messages.new.items ≡ after_piece messages.old.items }
    ensures sent { (m : Waiting) → slice_get messages.old.items 0 ≡ Some m
        → in_flight.new.items ≡ in_flight.old.items ++ sent_once now m ∷ [] }
    ensures clocks { (m : Waiting) → slice_get messages.old.items 0 ≡ Some m
        → clocks.new ≡ sent_by m.message (length m.rest == 0) clocks.old }
    ensures bytes { (m : Waiting) → slice_get messages.old.items 0 ≡ Some m
        → result ≡ outstanding_bytes (sent_once now m) }
{
    if messages[0].is_last_piece() {
        return send_last_piece(messages, in_flight, clocks, now);
    }
    put_in_flight(messages[0].take_piece(now), in_flight, clocks)
}

#[inline(always)]
fn send_last_piece(
    messages: &mut VecDeque<PendingMessage>,
    in_flight: &mut VecDeque<InFlight>,
    clocks: &mut Clocks,
    now: Instant,
) -> u64
    requires some { 0 < length messages.old.items }
    requires last { (m : Waiting) → slice_get messages.old.items 0 ≡ Some m → length m.rest ≡ 0 }
    requires room { deque_len in_flight.old < deque_capacity in_flight.old }
    ensures left { messages.new.items ≡ drop 1 messages.old.items }
    ensures sent { (m : Waiting) → slice_get messages.old.items 0 ≡ Some m
        → in_flight.new.items ≡ in_flight.old.items ++ sent_once now m ∷ [] }
    ensures clocks { (m : Waiting) → slice_get messages.old.items 0 ≡ Some m
        → clocks.new ≡ sent_by m.message (length m.rest == 0) clocks.old }
    ensures bytes { (m : Waiting) → slice_get messages.old.items 0 ≡ Some m
        → result ≡ outstanding_bytes (sent_once now m) }
{
    match messages.pop_front() {
        Some(message) => put_in_flight(message.into_last_piece(now), in_flight, clocks),
        None => unreachable!(),
    }
}

// Puts a piece that is sent for the first time behind those in flight, and answers its bytes.
#[inline(always)]
fn put_in_flight(piece: InFlight, in_flight: &mut VecDeque<InFlight>, clocks: &mut Clocks) -> u64
    requires { deque_len in_flight.old < deque_capacity in_flight.old }
    ensures sent { in_flight.new.items ≡ in_flight.old.items ++ piece ∷ [] }
    ensures clocks { clocks.new ≡ sent_by piece.message piece.ending_fragment clocks.old }
    ensures bytes { result ≡ outstanding_bytes piece }
{
    let bytes = piece.outstanding_bytes();
    clocks.send(&piece.message, piece.ending_fragment);
    in_flight.push_back_reserved(piece);
    bytes
}

// The ring in which messages wait is in two parts.
pub(crate) fn is_split(messages: &VecDeque<PendingMessage>) -> bool {
    let (_, second) = messages.as_slices();
    !second.is_empty()
}

// The number of pieces that wait, at most the greatest usize. Behind the first `settled` messages so many places are
// empty.
pub(crate) fn pieces_of(messages: &VecDeque<PendingMessage>, settled: usize, dead: usize) -> usize
    requires { dead ≤ length messages.now.items - settled }
    ensures { result ≡ min (pieces_waiting (standing settled dead messages.now.items)) (2 ^ 64 - 1) }
{
    let all = messages.len();
    let end = settled.min(all);
    let first = add_pieces(messages, 0, end, 0);
    add_pieces(messages, end + dead, all, first)
}

// Those of the messages from an index on and before another one, beside so many others.
fn add_pieces(messages: &VecDeque<PendingMessage>, from: usize, to: usize, others: usize) -> usize
    requires from { from ≤ to }
    requires to { to ≤ length messages.now.items }
    ensures { result ≡ fold (λ sum m. min (sum + min (piece_count m) (2 ^ 64 - 1)) (2 ^ 64 - 1)) others
        (slice_range messages.now.items from to) }
{
    messages.range(from..to).fold(others, |sum, message| {
        sum.saturating_add(message.piece_count())
    })
}

// Whether a message that waits is of this stream. Behind the first `settled` messages so many places are empty.
pub(crate) fn any_waiting_of_stream(
    messages: &VecDeque<PendingMessage>,
    settled: usize,
    dead: usize,
    id: StreamId,
) -> bool
    requires { dead ≤ length messages.now.items - settled }
    ensures { result ≡ list_any (is_waiting_of_stream id) (standing settled dead messages.now.items) }
{
    if dead == 0 {
        return any_of_all(messages, id);
    }
    let all = messages.len();
    let end = settled.min(all);
    any_of_stream(messages, 0, end, id) || any_of_stream(messages, end + dead, all, id)
}

// No place is empty.
fn any_of_all(messages: &VecDeque<PendingMessage>, id: StreamId) -> bool
    ensures { result ≡ list_any (is_waiting_of_stream id) messages.now.items }
{
    messages.iter().any(|message| message.is_of_stream(id))
}

fn any_of_stream(messages: &VecDeque<PendingMessage>, from: usize, to: usize, id: StreamId) -> bool
    requires from { from ≤ to }
    requires to { to ≤ length messages.now.items }
    ensures { result ≡ list_any (is_waiting_of_stream id) (slice_range messages.now.items from to) }
{
    messages
        .range(from..to)
        .any(|message| message.is_of_stream(id))
}

// Takes out the first expired message of which nothing was sent, and gives its SSN to the next one. A look goes on to
// it, or over all.
pub(crate) fn drop_expired(
    messages: &mut Messages,
    stretches: &mut Stretches,
    look: &mut Look,
    now: Instant,
) -> Option<PendingMessage>
    requires index { look.old.index ≤ position_or_len (is_expired_unsent now) messages.old }
    requires known { AllFrom look.old.next (take look.old.index messages.old) }
    requires cover { Cover stretches.old messages.old }
    requires rest { AllFrom None (drop (total stretches.old) messages.old) }
    ensures dropped { result ≡ find (is_expired_unsent now) messages.old }
    ensures left { messages.new ≡ without_expired now messages.old }
    ensures index { look.new.index ≡ position_or_len (is_expired_unsent now) messages.old }
    ensures known { AllFrom look.new.next (take look.new.index messages.old) }
    ensures cover { Cover stretches.new messages.old }
    ensures total { total stretches.new ≡ total stretches.old }
{
    *look = look_on(messages, stretches, *look, now);
    if look.index >= messages.len() {
        messages.settle();
        return None;
    }
    let dropped = messages.remove(look.index)?;
    Some(dropped)
}

// Goes on with a look, to the first expired message of which nothing was sent, or over all. A stretch of which no
// deadline lies before a moment past `now` is not gone over, nor is what lies behind the stretches, which has none.
fn look_on(messages: &Messages, stretches: &mut Stretches, look: Look, now: Instant) -> Look
    requires index { look.index ≤ position_or_len (is_expired_unsent now) messages.now }
    requires known { AllFrom look.next (take look.index messages.now) }
    requires cover { Cover stretches.old messages.now }
    requires rest { AllFrom None (drop (total stretches.old) messages.now) }
    ensures index { result.index ≡ position_or_len (is_expired_unsent now) messages.now }
    ensures known { AllFrom result.next (take result.index messages.now) }
    ensures cover { Cover stretches.new messages.now }
    ensures total { total stretches.new ≡ total stretches.old }
{
    let all = messages.len();
    let mut look = look;
    let mut end = 0;
    for place in 0..stretches.len() {
        let begin = end;
        let stretch = stretches.as_slice()[place];
        end += stretch.len;
        if look.index < end {
            look = look_at(messages, stretches, place, begin, look, now);
            if look.index < end {
                return look;
            }
        }
    }
    Look {
        index: all,
        next: look.next,
    }
}

// Goes on with a look over the stretch at a place, which begins at an index, to the first message that is to be
// dropped, or to the end of the stretch. Where all of it was gone over its moment becomes the least deadline.
fn look_at(
    messages: &Messages,
    stretches: &mut Stretches,
    place: usize,
    begin: usize,
    look: Look,
    now: Instant,
) -> Look
    requires place { place < length stretches.old }
    requires begin { begin ≡ total (take place stretches.old) }
    requires passed { begin ≤ look.index }
    requires inside { look.index ≤ total (take (place + 1) stretches.old) }
    requires index { look.index ≤ position_or_len (is_expired_unsent now) messages.now }
    requires known { AllFrom look.next (take look.index messages.now) }
    requires cover { Cover stretches.old messages.now }
    requires small { total (take (place + 1) stretches.old) < 2 ^ 64 }
    ensures index { result.index ≤ position_or_len (is_expired_unsent now) messages.now }
    ensures found { result.index < total (take (place + 1) stretches.old)
        → result.index ≡ position_or_len (is_expired_unsent now) messages.now }
    ensures known { AllFrom result.next (take result.index messages.now) }
    ensures cover { Cover stretches.new messages.now }
    ensures len { length stretches.new ≡ length stretches.old }
    ensures same { (n : ℕ) → total (take n stretches.new) ≡ total (take n stretches.old) }
{
    let stretch = stretches.as_slice()[place];
    let end = begin + stretch.len;
    let from = look.index;
    if now < stretch.next {
        return Look {
            index: end,
            next: soonest(look.next, &Some(stretch.next)),
        };
    }
    let (reached, least) = look_over(messages, look, end, now);
    if from == begin && reached.index == end {
        stretches.set(place, Stretch::new(stretch.len, &least));
    }
    reached
}

// Goes on with a look, to the first message that is to be dropped, or to an end. Answers the least deadline of what is
// passed, too; None: it has none.
fn look_over(messages: &Messages, look: Look, end: usize, now: Instant) -> (Look, Option<Instant>)
    requires end { end ≤ length messages.now }
    requires begin { look.index ≤ end }
    requires index { look.index ≤ position_or_len (is_expired_unsent now) messages.now }
    requires known { AllFrom look.next (take look.index messages.now) }
    ensures index { result.0.index ≡ min end (position_or_len (is_expired_unsent now) messages.now) }
    ensures known { AllFrom result.0.next (take result.0.index messages.now) }
    ensures least { AllFrom result.1 (take (result.0.index - look.index) (drop look.index messages.now)) }
{
    let (passed, least) = messages.pass(look.index, end - look.index, now);
    let reached = Look {
        index: look.index + passed,
        next: soonest(look.next, &least),
    };
    (reached, least)
}

// How many of so many messages from an index on come before the first that is to be dropped, and their least deadline;
// None: they have none. Behind the first `settled` messages so many places are empty.
pub(crate) fn pass_beside(
    messages: &VecDeque<PendingMessage>,
    settled: usize,
    dead: usize,
    from: usize,
    count: usize,
    now: Instant,
) -> (usize, Option<Instant>)
    requires hole { dead ≤ length messages.now.items - settled }
    requires within { from + count + dead ≤ length messages.now.items }
    ensures passed { result.0 ≡ min count
        (position_or_len (is_expired_unsent now) (drop from (standing settled dead messages.now.items))) }
    ensures least { AllFrom result.1 (take result.0 (drop from (standing settled dead messages.now.items))) }
{
    if from + count <= settled {
        return pass_over(messages, from, count, now);
    }
    if settled <= from {
        return pass_over(messages, from + dead, count, now);
    }
    pass_both(messages, settled, dead, from, count, now)
}

// So it is with those that lie on both sides of the empty places.
fn pass_both(
    messages: &VecDeque<PendingMessage>,
    settled: usize,
    dead: usize,
    from: usize,
    count: usize,
    now: Instant,
) -> (usize, Option<Instant>)
    requires before { from < settled }
    requires behind { settled < from + count }
    requires within { from + count + dead ≤ length messages.now.items }
    ensures passed { result.0 ≡ min count
        (position_or_len (is_expired_unsent now) (drop from (standing settled dead messages.now.items))) }
    ensures least { AllFrom result.1 (take result.0 (drop from (standing settled dead messages.now.items))) }
{
    let before = settled - from;
    let (passed, least) = pass_over(messages, from, before, now);
    if passed < before {
        return (passed, least);
    }
    let (more, next) = pass_over(messages, settled + dead, count - before, now);
    (before + more, soonest(least, &next))
}

// So it is where none is empty among them.
fn pass_over(
    messages: &VecDeque<PendingMessage>,
    from: usize,
    count: usize,
    now: Instant,
) -> (usize, Option<Instant>)
    requires { from + count ≤ length messages.now.items }
    ensures passed { result.0 ≡ min count (position_or_len (is_expired_unsent now) (drop from messages.now.items)) }
    ensures least { AllFrom result.1 (take result.0 (drop from messages.now.items)) }
{
    let (first, second) = messages.as_slices();
    let end = from + count;
    let wrap = first.len();
    if end <= wrap {
        return pass_each(&first[from..end], now);
    }
    if wrap <= from {
        return pass_each(&second[from - wrap..end - wrap], now);
    }
    pass_across(messages, from, count, now)
}

// So it is with those of one part of the ring.
fn pass_each(messages: &[PendingMessage], now: Instant) -> (usize, Option<Instant>)
    ensures passed { result.0 ≡ position_or_len (is_expired_unsent now) messages.now }
    ensures least { AllFrom result.1 (take result.0 messages.now) }
{
    let mut least = None;
    for index in 0..messages.len() {
        match messages[index].look(now, &least) {
            Some(next) => least = next,
            None => return (index, least),
        }
    }
    (messages.len(), least)
}

// So it is with those that lie in both parts of the ring.
fn pass_across(
    messages: &VecDeque<PendingMessage>,
    from: usize,
    count: usize,
    now: Instant,
) -> (usize, Option<Instant>)
    requires { from + count ≤ length messages.now.items }
    ensures passed { result.0 ≡ min count (position_or_len (is_expired_unsent now) (drop from messages.now.items)) }
    ensures least { AllFrom result.1 (take result.0 (drop from messages.now.items)) }
{
    let mut least = None;
    for passed in 0..count {
        match messages[from + passed].look(now, &least) {
            Some(next) => least = next,
            None => return (passed, least),
        }
    }
    (count, least)
}

// Lets the time of each message that waits run from `now` on where it does not run yet: of those behind the ones that
// are known to run. Answers the least deadline of those behind the ones in stretches; None: they have none. Those of
// them that are known to run have none.
pub(crate) fn start_waiting(
    messages: &mut VecDeque<PendingMessage>,
    clocks: &Clocks,
    now: Instant,
) -> Option<Instant>
    requires { AreWaitingTimely clocks.now messages.old.items }
    ensures started { messages.new.items ≡ map (waiting_started now) messages.old.items }
    ensures from { AllFrom result (drop (total clocks.now.stretches) messages.new.items) }
    ensures run { AllRun messages.new.items }
{
    start_behind(messages, clocks.running, now);
    least_behind(messages, clocks.running)
}

// So it does with the messages from an index on, where the times of those before it run.
fn start_behind(messages: &mut VecDeque<PendingMessage>, from: usize, now: Instant)
    requires from { from ≤ length messages.old.items }
    requires run { AllRun (take from messages.old.items) }
    ensures { messages.new.items ≡ map (waiting_started now) messages.old.items }
{
    for index in from..messages.len() {
        start_at(messages, index, now);
    }
}

fn start_at(messages: &mut VecDeque<PendingMessage>, index: usize, now: Instant)
    ensures { messages.new.items ≡ with_start now (slice_get messages.old.items index) index messages.old.items }
{
    if let Some(message) = messages.get_mut(index) {
        message.start(now);
    }
}

// The least deadline of the messages from an index on; None: they have none.
fn least_behind(messages: &VecDeque<PendingMessage>, from: usize) -> Option<Instant>
    requires { from ≤ length messages.now.items }
    ensures { AllFrom result (drop from messages.now.items) }
{
    let mut least = None;
    for behind in 0..messages.len() - from {
        let message = &messages[from + behind];
        least = message.message.sooner(least);
    }
    least
}
