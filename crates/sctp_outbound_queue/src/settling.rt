// How messages that wait get their SSNs and their places, where some were dropped: the first `settled` have them, and
// behind these so many places are empty.
ghost use Rattle.std.specs.Prelude.{◌≡◌, ◌+◌, ◌-◌, ◌<◌, ◌≤◌, ◌++◌, [], false, length, map, drop, take, slice_index_or};
ghost use Rattle.sctp_outbound_queue.specs.Message.{moved_down};
ghost use Rattle.sctp_outbound_queue.specs.Owed.{as_they_are, lowered, standing};

use crate::owed::{Owed, lower_each};
use crate::{Attributes, PendingMessage};
use bytes::Bytes;
use sctp_wire_types::{PayloadProtocolIdentifier, Policy};
use std::alloc::Global;
use std::collections::VecDeque;
use std::mem;

// Gives each message from an index on its SSN, and its place, behind so many empty ones; nothing is owed then, and none
// is empty. Where nothing is owed and no place is empty, goes over nothing.
#[inline(always)]
pub(crate) fn settle(
    items: &mut VecDeque<PendingMessage>,
    from: usize,
    dead: &mut usize,
    owed: &mut Owed,
)
    requires { dead.old ≤ length items.old.items - from }
    ensures items { items.new.items
        ≡ as_they_are from owed.old.counts.entries (standing from dead.old items.old.items) }
    ensures none { owed.new.counts.entries ≡ [] }
    ensures closed { dead.new ≡ 0 }
{
    if *dead > 0 || !owed.is_empty() {
        settle_owed(items, from, dead, owed);
    }
}

#[inline(never)]
fn settle_owed(items: &mut VecDeque<PendingMessage>, from: usize, dead: &mut usize, owed: &mut Owed)
    requires { dead.old ≤ length items.old.items - from }
    ensures items { items.new.items
        ≡ as_they_are from owed.old.counts.entries (standing from dead.old items.old.items) }
    ensures none { owed.new.counts.entries ≡ [] }
    ensures closed { dead.new ≡ 0 }
{
    settle_behind(items, from + *dead, owed);
    owed.clear();
    close(items, from, *dead);
    *dead = 0;
}

// Gives each message from an index on its SSN.
fn settle_behind(items: &mut VecDeque<PendingMessage>, from: usize, owed: &Owed)
    ensures { items.new.items ≡ as_they_are from owed.now.counts.entries items.old.items }
{
    if owed.is_empty() || items.len() <= from {
        return;
    }
    owed.settle(&mut items.make_contiguous()[from..]);
}

// Takes so many empty places out from an index on.
fn close(items: &mut VecDeque<PendingMessage>, from: usize, dead: usize)
    requires { dead ≤ length items.old.items - from }
    ensures { items.new.items ≡ standing from dead items.old.items }
{
    match dead {
        0 => {}
        1 => {
            items.remove(from);
        }
        _ => close_all(items, from, dead),
    }
}

// So many of them: what moves is the shorter part, before them or behind.
fn close_all(items: &mut VecDeque<PendingMessage>, from: usize, dead: usize)
    requires { dead ≤ length items.old.items - from }
    ensures { items.new.items ≡ standing from dead items.old.items }
{
    let len = items.len();
    if len <= from {
        return;
    }
    if len - from - dead <= from {
        put_behind(items.make_contiguous(), from, dead);
        items.truncate(len - dead);
    } else {
        put_before(items.make_contiguous(), from, dead);
        items.drain(0..dead);
    }
}

// Moves so many places from an index on behind the others.
fn put_behind(messages: &mut [PendingMessage], from: usize, dead: usize)
    requires { from + dead ≤ length messages.old }
    ensures behind { messages.new ≡ standing from dead messages.old ++ take dead (drop from messages.old) }
{
    messages[from..].rotate_left(dead);
}

// Moves so many places from an index on before the others.
fn put_before(messages: &mut [PendingMessage], from: usize, dead: usize)
    requires { from + dead ≤ length messages.old }
    ensures before { messages.new ≡ take dead (drop from messages.old) ++ standing from dead messages.old }
{
    messages[..from + dead].rotate_left(from);
}

// Gives each message from an index on and before another one its SSN.
fn settle_part(items: &mut VecDeque<PendingMessage>, from: usize, to: usize, owed: &Owed)
    requires from { from ≤ to }
    requires to { to ≤ length items.old.items }
    ensures same { as_they_are to owed.now.counts.entries items.new.items
        ≡ as_they_are from owed.now.counts.entries items.old.items }
    ensures len { length items.new.items ≡ length items.old.items }
{
    if !owed.is_empty() {
        settle_range(items.make_contiguous(), from, to, owed);
    }
}

fn settle_range(messages: &mut [PendingMessage], from: usize, to: usize, owed: &Owed)
    requires from { from ≤ to }
    requires to { to ≤ length messages.old }
    ensures same { as_they_are to owed.now.counts.entries messages.new
        ≡ as_they_are from owed.now.counts.entries messages.old }
    ensures len { length messages.new ≡ length messages.old }
{
    owed.settle(&mut messages[from..to]);
}

// Moves each message from an index on and before another one down over so many empty places in front of them.
fn move_over(items: &mut VecDeque<PendingMessage>, from: usize, to: usize, dead: usize)
    requires from { from ≤ to }
    requires to { to + dead ≤ length items.old.items }
    ensures same { standing to dead items.new.items ≡ standing from dead items.old.items }
    ensures len { length items.new.items ≡ length items.old.items }
{
    if dead == 0 {
        return;
    }
    if to - from <= dead {
        move_each_over(items, from, to, dead);
    } else {
        move_all_over(items.make_contiguous(), from, to, dead);
    }
}

// Where the empty places are fewer than those that move, by one rotation.
fn move_all_over(messages: &mut [PendingMessage], from: usize, to: usize, dead: usize)
    requires from { from ≤ to }
    requires to { to + dead ≤ length messages.old }
    ensures over { standing to dead messages.new ≡ standing from dead messages.old }
    ensures len { length messages.new ≡ length messages.old }
{
    put_behind(&mut messages[..to + dead], from, dead);
}

// Else one by one.
fn move_each_over(items: &mut VecDeque<PendingMessage>, from: usize, to: usize, dead: usize)
    requires some { 0 < dead }
    requires from { from ≤ to }
    requires to { to + dead ≤ length items.old.items }
    ensures same { standing to dead items.new.items ≡ standing from dead items.old.items }
    ensures len { length items.new.items ≡ length items.old.items }
{
    for index in from..to {
        items.swap(index, index + dead);
    }
}

// Gives each message from an index on and before another one its SSN and its place.
fn pass(items: &mut VecDeque<PendingMessage>, from: usize, to: usize, dead: usize, owed: &Owed)
    requires from { from ≤ to }
    requires to { to + dead ≤ length items.old.items }
    ensures same { as_they_are to owed.now.counts.entries (standing to dead items.new.items)
        ≡ as_they_are from owed.now.counts.entries (standing from dead items.old.items) }
    ensures len { length items.new.items ≡ length items.old.items }
{
    settle_part(items, from + dead, to + dead, owed);
    move_over(items, from, to, dead);
}

// Gives each message before an index its SSN and its place, where the first `settled` have theirs. Gives them to all
// where the index is among these, and where less moves so: where nothing is owed, and fewer are in front of the empty
// places than between these and the index.
pub(crate) fn reach(
    items: &mut VecDeque<PendingMessage>,
    settled: usize,
    dead: &mut usize,
    owed: &mut Owed,
    index: usize,
)
    requires hole { dead.old ≤ length items.old.items - settled }
    requires index { index + dead.old ≤ length items.old.items }
    ensures same { as_they_are index owed.new.counts.entries (standing index dead.new items.new.items)
        ≡ as_they_are settled owed.old.counts.entries (standing settled dead.old items.old.items) }
    ensures hole { dead.new ≤ length items.new.items - index }
{
    if index < settled || (owed.is_empty() && settled < index - settled) {
        settle(items, settled, dead, owed);
    } else {
        pass(items, settled, index, *dead, owed);
    }
}

// Gives each message its SSN and its place, unless the first one alone has its SSN and no place is empty.
pub(crate) fn settle_behind_first(
    items: &mut VecDeque<PendingMessage>,
    settled: usize,
    dead: &mut usize,
    owed: &mut Owed,
)
    requires { dead.old ≤ length items.old.items - settled }
    ensures items { as_they_are 1 owed.new.counts.entries items.new.items
        ≡ as_they_are settled owed.old.counts.entries (standing settled dead.old items.old.items) }
    ensures closed { dead.new ≡ 0 }
{
    if *dead > 0 || settled != 1 {
        settle(items, settled, dead, owed);
    }
}

// Takes out the message at an index, with its SSN. An empty one is left there, which takes no memory.
pub(crate) fn take_out(
    items: &mut VecDeque<PendingMessage>,
    index: usize,
    owed: &Owed,
) -> PendingMessage
    requires { index < length items.old.items }
    ensures value { result ≡ lowered owed.now.counts.entries (slice_index_or items.old.items index result) }
    ensures before { take index items.new.items ≡ take index items.old.items }
    ensures behind { drop (index + 1) items.new.items ≡ drop (index + 1) items.old.items }
    ensures len { length items.new.items ≡ length items.old.items }
{
    let empty = nothing(*items.allocator());
    let mut dropped = mem::replace(&mut items[index], empty);
    owed.settle_one(&mut dropped);
    dropped
}

// A message without bytes.
fn nothing(alloc: Global) -> PendingMessage {
    PendingMessage {
        message: Attributes {
            message_id: 0,
            stream_identifier: 0,
            generation: 0,
            unordered: true,
            stream_sequence_number: 0,
            payload_type: PayloadProtocolIdentifier::Unknown,
            policy: Policy::Reliable,
            deadline: None,
        },
        begun: false,
        user_data: Bytes::new(),
        rest: VecDeque::new(alloc),
    }
}

// A message was taken out at an index. If it was an ordered one, later ones of its stream and generation, which lie
// behind the empty places, move down by one SSN: that is kept as owed, or done at once where memory is refused. Where
// none lies behind them, nothing is owed any more.
pub(crate) fn owe(
    items: &mut VecDeque<PendingMessage>,
    from: usize,
    dead: &mut usize,
    owed: &mut Owed,
    dropped: &Attributes,
)
    requires { dead.old ≤ length items.old.items - from }
    ensures moved { as_they_are from owed.new.counts.entries (standing from dead.new items.new.items)
        ≡ take from (standing from dead.old items.old.items) ++ map (moved_down dropped.now)
        (map (lowered owed.old.counts.entries) (drop from (standing from dead.old items.old.items))) }
    ensures hole { dead.new ≤ length items.new.items - from }
    ensures fewer { dead.new ≤ dead.old }
{
    if items.len() - *dead <= from {
        owed.clear();
        return;
    }
    if dropped.unordered {
        return;
    }
    match owed.add(dropped) {
        Ok(()) => {}
        Err(_) => {
            settle(items, from, dead, owed);
            move_down(items, from, dropped);
        }
    }
}

// So they do at once.
fn move_down(items: &mut VecDeque<PendingMessage>, from: usize, dropped: &Attributes)
    requires from { from ≤ length items.old.items }
    requires ordered { dropped.now.unordered ≡ false }
    ensures { items.new.items ≡ take from items.old.items
        ++ map (moved_down dropped.now) (drop from items.old.items) }
{
    let later = items.make_contiguous();
    move_each_down(&mut later[from..], dropped);
}

fn move_each_down(messages: &mut [PendingMessage], dropped: &Attributes)
    requires { dropped.now.unordered ≡ false }
    ensures { messages.new ≡ map (moved_down dropped.now) messages.old }
{
    lower_each(messages, dropped.stream_identifier, dropped.generation, 1);
}

// Gives the first message its SSN where none has it.
pub(crate) fn settle_first(items: &mut VecDeque<PendingMessage>, owed: &Owed)
    ensures { as_they_are 1 owed.now.counts.entries items.new.items
        ≡ as_they_are 0 owed.now.counts.entries items.old.items }
{
    if !items.is_empty() {
        settle_part(items, 0, 1, owed);
    }
}
