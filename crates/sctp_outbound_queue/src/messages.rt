// The messages that wait, of which one is dropped without going over those behind it, and without moving them.
ghost use Rattle.std.specs.Prelude.{◌≡◌, ◌==◌, ◌+◌, ◌-◌, ◌^◌, ◌<◌, ◌≤◌, ◌++◌, ◌∷◌, [], false, length, map, min};
ghost use Rattle.std.specs.Prelude.{drop, remove, slice_get, take, slice_index_or, IfSome, IsSome, OnErr, OnOk, Some};
ghost use Rattle.std.specs.List.{list_any, position_or_len};
ghost use Rattle.std.specs.Option.{option_copied};
ghost use Rattle.std.specs.VecDeque.{deque_len, deque_capacity};
ghost use Rattle.sctp_outbound_queue.specs.Clocks.{AllFrom, AllRun, AreWaitingTimely, sent_by};
ghost use Rattle.sctp_outbound_queue.specs.Message.{is_waiting_of_stream, moved_down, sent_once, waiting_started};
ghost use Rattle.sctp_outbound_queue.specs.Message.{is_expired_unsent, outstanding_bytes};
ghost use Rattle.sctp_outbound_queue.specs.Outbound.{after_piece, pieces_waiting};
ghost use Rattle.sctp_outbound_queue.specs.Owed.{as_they_are, lowered, standing};
ghost use Rattle.sctp_outbound_queue.specs.Stretches.{total};
ghost use Rattle.sctp_outbound_queue.specs.Waiting.{Waiting};

use crate::clocks::Clocks;
use crate::over_waiting::{
    any_waiting_of_stream, is_split, pass_beside, pieces_of, send_piece, start_waiting,
};
use crate::owed::Owed;
use crate::settling::{owe, reach, settle, settle_behind_first, settle_first, take_out};
use crate::{Attributes, InFlight, PendingMessage};
use sctp_wire_types::{Instant, StreamId};
use std::alloc::{AllocError, Global};
use std::collections::VecDeque;
use std::fmt;
use std::marker::Model;

/// The messages that wait, oldest first. Where one is dropped, those behind it get their SSNs and their places later,
/// and each once for many that are dropped in the order in which they wait.
#[derive(Drop)]
pub(crate) struct Messages {
    items: VecDeque<PendingMessage>,
    // So many of the first messages have their SSNs and places already, the first one always.
    settled: usize,
    // Behind them so many places are empty, of messages that were dropped.
    dead: usize,
    // By how much the SSNs of those behind them are to be lowered.
    owed: Owed,
}

impl Model for Messages {
    ghost use Rattle.std.specs.Prelude.{List, ◌-◌, ◌<◌, ◌≤◌, length};
    ghost use Rattle.sctp_outbound_queue.specs.Owed.{as_they_are, standing};
    ghost use Rattle.sctp_outbound_queue.specs.Waiting.{Waiting};

    ghost Value = { List Waiting };

    ghost view = { λ m. as_they_are m.settled m.owed.counts.entries (standing m.settled m.dead m.items.items) };

    ghost invariant = { λ m. (0 < m.settled) × (m.dead ≤ length m.items.items - m.settled) };
}

// The messages as a queue of them prints them, with the SSNs that they truly have.
impl fmt::Debug for Messages {
    fn fmt<W: fmt::Write>(&self, f: &mut fmt::Formatter<W>) -> fmt::Result {
        let mut list = f.debug_list();
        for index in 0..self.items.len() - self.dead {
            let waiting = if index < self.settled {
                &self.items[index]
            } else {
                &self.items[index + self.dead]
            };
            list.entry(&self.shown(index, waiting));
        }
        list.finish()
    }
}

// A message with the SSN that it truly has.
#[derive(Clone, Copy)]
struct Shown<'a> {
    message: Attributes,
    waiting: &'a PendingMessage,
}

impl<'a> fmt::Debug for Shown<'a> {
    fn fmt<W: fmt::Write>(&self, f: &mut fmt::Formatter<W>) -> fmt::Result {
        let waiting = self.waiting;
        f.debug_struct("PendingMessage")
            .field("message", &self.message)
            .field("begun", &waiting.begun)
            .field("user_data", &waiting.user_data)
            .field("rest", &waiting.rest)
            .finish()
    }
}

impl Messages {
    /// None waits; takes no memory.
    pub(crate) fn new(alloc: Global) -> Messages
        ensures { result ≡ [] }
    {
        Messages {
            items: VecDeque::new(alloc),
            settled: 1,
            dead: 0,
            owed: Owed::new(alloc),
        }
    }

    fn shown<'a>(&self, index: usize, waiting: &'a PendingMessage) -> Shown<'a> {
        let mut message = waiting.message;
        if self.settled <= index {
            let ssn = message.stream_sequence_number;
            message.stream_sequence_number = ssn.wrapping_sub(self.owed.owed_to(&message));
        }
        Shown { message, waiting }
    }

    pub(crate) fn len(&self) -> usize
        ensures { result ≡ length self.now }
    {
        self.items.len() - self.dead
    }

    pub(crate) fn is_empty(&self) -> bool
        ensures { result ≡ (length self.now == 0) }
    {
        self.items.is_empty()
    }

    pub(crate) fn front(&self) -> Option<&PendingMessage>
        ensures { option_copied result ≡ slice_get self.now 0 }
    {
        self.items.front()
    }

    /// How many of so many messages from an index on come before the first that is to be dropped, and their least
    /// deadline; None: they have none.
    pub(crate) fn pass(&self, from: usize, count: usize, now: Instant) -> (usize, Option<Instant>)
        requires { from + count ≤ length self.now }
        ensures passed { result.0 ≡ min count (position_or_len (is_expired_unsent now) (drop from self.now)) }
        ensures least { AllFrom result.1 (take result.0 (drop from self.now)) }
    {
        pass_beside(&self.items, self.settled, self.dead, from, count, now)
    }

    /// The number of their pieces, at most the greatest usize.
    pub(crate) fn pieces(&self) -> usize
        ensures { result ≡ min (pieces_waiting self.now) (2 ^ 64 - 1) }
    {
        pieces_of(&self.items, self.settled, self.dead)
    }

    pub(crate) fn any_of_stream(&self, id: StreamId) -> bool
        ensures { result ≡ list_any (is_waiting_of_stream id) self.now }
    {
        any_waiting_of_stream(&self.items, self.settled, self.dead, id)
    }

    /// Gives each message its SSN and its place. Goes over those that do not have them.
    #[inline(always)]
    pub(crate) fn settle(&mut self)
        ensures { self.new ≡ self.old }
    {
        settle(
            &mut self.items,
            self.settled,
            &mut self.dead,
            &mut self.owed,
        );
    }

    #[inline(always)]
    pub(crate) fn push_back(&mut self, message: PendingMessage) -> Result<(), AllocError>
        ensures ok { OnOk result (self.new ≡ self.old ++ message ∷ []) }
        ensures err { OnErr result (self.new ≡ self.old) }
    {
        settle(
            &mut self.items,
            self.settled,
            &mut self.dead,
            &mut self.owed,
        );
        self.items.push_back(message)?;
        Ok(())
    }

    #[inline(always)]
    pub(crate) fn pop_front(&mut self)
        ensures { self.new ≡ drop 1 self.old }
    {
        settle(
            &mut self.items,
            self.settled,
            &mut self.dead,
            &mut self.owed,
        );
        self.items.pop_front();
    }

    /// Puts the next piece of the first message in flight, sent once at `now`, and answers its bytes.
    #[inline(always)]
    pub(crate) fn send_piece(
        &mut self,
        in_flight: &mut VecDeque<InFlight>,
        clocks: &mut Clocks,
        now: Instant,
    ) -> u64
        requires some { 0 < length self.old }
        requires room { deque_len in_flight.old < deque_capacity in_flight.old }
        ensures left { self.new ≡ after_piece self.old }
        ensures sent { (m : Waiting) → slice_get self.old 0 ≡ Some m
            → in_flight.new.items ≡ in_flight.old.items ++ sent_once now m ∷ [] }
        ensures clocks { (m : Waiting) → slice_get self.old 0 ≡ Some m
            → clocks.new ≡ sent_by m.message (length m.rest == 0) clocks.old }
        ensures bytes { (m : Waiting) → slice_get self.old 0 ≡ Some m
            → result ≡ outstanding_bytes (sent_once now m) }
    {
        settle(
            &mut self.items,
            self.settled,
            &mut self.dead,
            &mut self.owed,
        );
        send_piece(&mut self.items, in_flight, clocks, now)
    }

    /// Lets the time of each message run from `now` on where it does not run yet, and answers the least deadline of
    /// those behind the ones in stretches; None: they have none.
    pub(crate) fn start(&mut self, clocks: &Clocks, now: Instant) -> Option<Instant>
        requires { AreWaitingTimely clocks.now self.old }
        ensures started { self.new ≡ map (waiting_started now) self.old }
        ensures from { AllFrom result (drop (total clocks.now.stretches) self.new) }
        ensures run { AllRun self.new }
    {
        settle(
            &mut self.items,
            self.settled,
            &mut self.dead,
            &mut self.owed,
        );
        start_waiting(&mut self.items, clocks, now)
    }

    /// Takes out the message at an index. Later ordered messages of its stream and generation move down by one SSN, if
    /// it is an ordered one. Goes over those in front of it that do not have their SSNs and places, and over those
    /// behind it only where one of the first ones is taken out after a later one, where memory is refused, or where
    /// 65,535 are owed to its stream and generation already.
    pub(crate) fn remove(&mut self, index: usize) -> Option<PendingMessage>
        requires { index < length self.old }
        ensures some { IsSome result }
        ensures value { IfSome result (λ dropped. dropped ≡ slice_index_or self.old index dropped) }
        ensures left { IfSome result (λ dropped. self.new ≡ take index (remove self.old index)
            ++ map (moved_down dropped.message) (drop index (remove self.old index))) }
    {
        if index == 0 {
            return self.remove_first();
        }
        Some(self.remove_behind(index))
    }

    fn remove_first(&mut self) -> Option<PendingMessage>
        requires { 0 < length self.old }
        ensures some { IsSome result }
        ensures value { IfSome result (λ dropped. dropped ≡ slice_index_or self.old 0 dropped) }
        ensures left { IfSome result (λ dropped. self.new ≡ map (moved_down dropped.message) (drop 1 self.old)) }
    {
        settle_behind_first(
            &mut self.items,
            self.settled,
            &mut self.dead,
            &mut self.owed,
        );
        self.settled = 1;
        let dropped = self.items.pop_front()?;
        owe(
            &mut self.items,
            0,
            &mut self.dead,
            &mut self.owed,
            &dropped.message,
        );
        settle_first(&mut self.items, &self.owed);
        Some(dropped)
    }

    // Its place stays, empty.
    fn remove_behind(&mut self, index: usize) -> PendingMessage
        requires first { 0 < index }
        requires within { index < length self.old }
        ensures value { result ≡ slice_index_or self.old index result }
        ensures left { self.new ≡ take index (remove self.old index)
            ++ map (moved_down result.message) (drop index (remove self.old index)) }
    {
        reach(
            &mut self.items,
            self.settled,
            &mut self.dead,
            &mut self.owed,
            index,
        );
        self.settled = index;
        let dropped = take_out(&mut self.items, index + self.dead, &self.owed);
        self.dead += 1;
        owe(
            &mut self.items,
            index,
            &mut self.dead,
            &mut self.owed,
            &dropped.message,
        );
        self.close_if_dear();
        dropped
    }

    // Closes up the empty places at once where the ring is in two parts and nothing is owed: later it would be made one
    // part for that, which costs more than an unordered message does that is dropped alone. So where places are empty
    // and nothing is owed the ring is in one part, and `move_over` does not go over it to make it one.
    fn close_if_dear(&mut self)
        ensures { self.new ≡ self.old }
    {
        if self.owed.is_empty() && is_split(&self.items) {
            self.settle();
        }
    }
}
