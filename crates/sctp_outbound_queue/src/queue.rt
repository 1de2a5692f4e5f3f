// Messages that wait to be sent, and pieces in flight.
ghost use Rattle.std.specs.Prelude.{◌≡◌, ◌==◌, ◌&&◌, ◌+◌, ◌-◌, ◌^◌, find, length, min, nat_lt, position};
ghost use Rattle.std.specs.Prelude.{drop, slice_get, take};
ghost use Rattle.std.specs.Prelude.{IfOk, OnOk, OnErr, is_some, true};
ghost use Rattle.std.specs.Option.{option_copied, option_map};
ghost use Rattle.sctp_looks.specs.Looks.{ticked_by};
ghost use Rattle.sctp_serial.specs.Serial.{tsn_past};
ghost use Rattle.sctp_outbound_queue.specs.Message.{is_outstanding, is_expired_piece, counted_again};
ghost use Rattle.sctp_outbound_queue.specs.Message.{is_last_report, picks, flagged};
ghost use Rattle.sctp_outbound_queue.specs.Message.{is_due};
ghost use Rattle.sctp_outbound_queue.specs.Outbound.{empty_outbound, tsn_at, next_tsn_of, waiting_of, outstanding_of};
ghost use Rattle.sctp_outbound_queue.specs.Outbound.{outstanding_of_message, pieces_waiting, with_message, sent_next};
ghost use Rattle.sctp_outbound_queue.specs.Outbound.{without_first, changed_at, acked_at, piece_at};
ghost use Rattle.sctp_outbound_queue.specs.Outbound.{all_marked, has_stream, abandoned_in_front_of, tail_dropped};
ghost use Rattle.sctp_outbound_queue.specs.Outbound.{all_flagged, abandoned_at, is_abandoned_piece, with_missing};
ghost use Rattle.sctp_outbound_queue.specs.Outbound.{any_missing, flying_of, marked_of, past_acknowledged};
ghost use Rattle.std.specs.List.{list_any};
ghost use Rattle.sctp_outbound_queue.specs.Front.{holds_at};
ghost use Rattle.sctp_outbound_queue.specs.Message.{is_of};
ghost use Rattle.sctp_outbound_queue.specs.Expiry.{all_started, first_tsn_that, after_expiry};
ghost use Rattle.sctp_outbound_queue.specs.Expiry.{after_tail_expiry, is_expired_tail};

use crate::clocks::Clocks;
use crate::front::Front;
use crate::message::soonest;
use crate::messages::Messages;
use crate::over_waiting::drop_expired;
use crate::piece_sets::PieceSets;
use crate::walks::{
    any_of_message, any_of_stream, first_missing, first_outstanding, flag_all, mark_all, next_sent,
    report_missing, start_sent,
};
use crate::{Attributes, InFlight, PendingMessage, Reports, Retransmission};
use sctp_looks::Looks;
use sctp_wire_types::{Instant, StreamId};
use std::alloc::{AllocError, Global};
use std::collections::VecDeque;
use std::fmt;
use std::marker::Model;

/// A message that is given up, and the bytes of it that waited or were outstanding until then.
#[derive(Clone, Copy, Debug)]
pub struct Released {
    pub message: Attributes,
    pub bytes: u64,
}

/// The messages that wait, oldest first, and the pieces in flight in the order of their TSNs, which are consecutive
/// (RFC 4960 section 6.1). Only what is acknowledged cumulatively leaves it there.
#[derive(Drop)]
pub struct OutboundQueue {
    pending: Messages,
    in_flight: VecDeque<InFlight>,
    // Which pieces in flight are to be sent again, and which were acknowledged.
    sets: PieceSets,
    first_tsn: u32,
    next_message_id: u64,
    // The bytes of the pieces that wait.
    pending_bytes: u64,
    // The bytes in flight that are neither acknowledged nor abandoned.
    outstanding_bytes: u64,
    // The bytes of those that are not marked to be sent again.
    flying_bytes: u64,
    // How many pieces in flight are marked to be sent again.
    marked: usize,
    // No piece in flight before this index is outstanding.
    settled: usize,
    // What is known of the times of messages.
    clocks: Clocks,
    // What is known of the first pieces in flight.
    front: Front,
}

// Of the clocks stands what they say of the whole queue: whether the time of each message that has one runs, and a
// moment before which no deadline lies.
impl fmt::Debug for OutboundQueue {
    fn fmt<W: fmt::Write>(&self, f: &mut fmt::Formatter<W>) -> fmt::Result {
        let all_run = self.clocks.running == self.pending.len() && self.clocks.sent_run;
        let next_deadline = soonest(self.clocks.next_waiting, &self.clocks.next_sent);
        f.debug_struct("OutboundQueue")
            .field("pending", &self.pending)
            .field("in_flight", &self.in_flight)
            .field("first_tsn", &self.first_tsn)
            .field("next_message_id", &self.next_message_id)
            .field("pending_bytes", &self.pending_bytes)
            .field("outstanding_bytes", &self.outstanding_bytes)
            .field("marked", &self.marked)
            .field("settled", &self.settled)
            .field("all_run", &all_run)
            .field("next_deadline", &next_deadline)
            .finish()
    }
}

impl Model for OutboundQueue {
    ghost use Rattle.sctp_outbound_queue.specs.Outbound.{Outbound, AreKept, flying_of};
    ghost use Rattle.std.specs.Prelude.{◌≡◌};
    ghost use Rattle.sctp_outbound_queue.specs.PieceSets.{AreStanding};
    ghost use Rattle.sctp_outbound_queue.specs.Front.{AreInOrder, IsFront};

    ghost Value = { Outbound };

    ghost view = { λ q. record {
      pending = q.pending;
      in_flight = q.in_flight.items;
      first_tsn = q.first_tsn;
      next_message_id = q.next_message_id;
    } };

    ghost invariant = { λ q. AreKept q.pending q.in_flight.items q.pending_bytes q.outstanding_bytes
        q.marked q.settled q.clocks × AreStanding q.sets q.in_flight.items × IsFront q.front q.in_flight.items
        × AreInOrder q.in_flight.items q.pending q.next_message_id
        × (q.flying_bytes ≡ flying_of q.in_flight.items) };
}

impl OutboundQueue {
    /// Nothing waits, nothing is in flight, and the next piece gets `first_tsn`. Takes no memory.
    pub fn new(alloc: Global, first_tsn: u32) -> Self
        ensures { result ≡ empty_outbound first_tsn }
    {
        OutboundQueue {
            pending: Messages::new(alloc),
            in_flight: VecDeque::new(alloc),
            sets: PieceSets::new(alloc),
            first_tsn,
            next_message_id: 0,
            pending_bytes: 0,
            outstanding_bytes: 0,
            flying_bytes: 0,
            marked: 0,
            settled: 0,
            clocks: Clocks::new(),
            front: Front::new(),
        }
    }

    /// Adds a message behind those that wait, under the next message identifier. A sum of bytes that reaches the
    /// greatest u64 and a message identifier past it count as want of memory.
    // It is put into its callers, so that the message is not handed on once more.
    #[inline(always)]
    #[tactic(auto, using(crate::proofs::Timely::timely_more))]
    pub fn push(&mut self, mut message: PendingMessage) -> Result<(), AllocError>
        ensures ok { OnOk result (self.new ≡ with_message self.old message) }
        ensures err { OnErr result (self.new ≡ self.old) }
    {
        let bytes = message.bytes();
        let waiting = self.pending_bytes.saturating_add(bytes);
        if waiting.saturating_add(self.outstanding_bytes) == u64::MAX
            || self.next_message_id == u64::MAX
        {
            return Err(AllocError);
        }
        message.accept(self.next_message_id);
        let is_timed = message.message.is_timed();
        let others = self.pending.len();
        self.pending.push_back(message)?;
        self.next_message_id += 1;
        self.pending_bytes = waiting;
        self.clocks.accept(is_timed, others);
        Ok(())
    }

    /// The message whose next piece is sent next.
    pub fn peek_pending(&self) -> Option<&PendingMessage>
        ensures { option_copied result ≡ slice_get self.now.pending 0 }
    {
        self.pending.front()
    }

    /// Nothing waits and nothing is in flight.
    pub fn is_empty(&self) -> bool
        ensures { result ≡ ((length self.now.pending == 0) && (length self.now.in_flight == 0)) }
    {
        self.pending.is_empty() && self.in_flight.is_empty()
    }

    /// Whether anything waits to be sent.
    pub fn has_pending(&self) -> bool
        ensures { result ≡ nat_lt 0 (length self.now.pending) }
    {
        !self.pending.is_empty()
    }

    /// Number of messages that wait, or of which a rest waits.
    pub fn pending_messages(&self) -> usize
        ensures { result ≡ length self.now.pending }
    {
        self.pending.len()
    }

    /// Number of pieces that wait, at most the greatest usize. Goes over the messages that wait.
    pub fn pending_len(&self) -> usize
        ensures { result ≡ min (pieces_waiting self.now.pending) (2 ^ 64 - 1) }
    {
        self.pending.pieces()
    }

    /// Bytes that wait.
    pub fn pending_bytes(&self) -> u64
        ensures { result ≡ waiting_of self.now.pending }
    {
        self.pending_bytes
    }

    /// Number of pieces in flight.
    pub fn inflight_len(&self) -> usize
        ensures { result ≡ length self.now.in_flight }
    {
        self.in_flight.len()
    }

    /// Bytes in flight that are neither acknowledged nor abandoned.
    pub fn inflight_bytes(&self) -> u64
        ensures { result ≡ outstanding_of self.now.in_flight }
    {
        self.outstanding_bytes
    }

    /// Bytes in flight that fly: neither acknowledged nor abandoned, nor marked to be sent again. They are kept, so no
    /// piece is gone over.
    pub fn flying_bytes(&self) -> u64
        ensures { result ≡ flying_of self.now.in_flight }
    {
        self.flying_bytes
    }

    /// Number of pieces in flight that are marked to be sent again (RFC 4960 section 6.3.3). It is kept, so no piece is
    /// gone over.
    pub fn marked_len(&self) -> usize
        ensures { result ≡ marked_of self.now.in_flight }
    {
        self.marked
    }

    /// The identifier that the next message gets.
    pub fn next_message_id(&self) -> u64
        ensures { result ≡ self.now.next_message_id }
    {
        self.next_message_id
    }

    /// The TSN of the first piece in flight, or, where none is, of the next one.
    pub fn first_tsn(&self) -> u32
        ensures { result ≡ self.now.first_tsn }
    {
        self.first_tsn
    }

    /// The TSN that the next piece gets.
    pub fn next_tsn(&self) -> u32
        ensures { result ≡ next_tsn_of self.now }
    {
        self.tsn_at(self.in_flight.len())
    }

    /// The TSN that is `index` past the first one.
    pub fn tsn_at(&self, index: usize) -> u32
        ensures { result ≡ tsn_at self.now.first_tsn index }
    {
        let distance = (index as u64 % 0x1_0000_0000) as u32;
        self.first_tsn.wrapping_add(distance)
    }

    /// How far a TSN is past the first one.
    pub fn index_of(&self, tsn: u32) -> usize
        ensures { result ≡ tsn_past self.now.first_tsn tsn }
    {
        tsn.wrapping_sub(self.first_tsn) as usize
    }

    /// Puts the next piece that waits in flight under the next TSN, sent once at `now`. 2^31 pieces in flight count as
    /// want of memory.
    pub fn send_next(&mut self, now: Instant) -> Result<(), AllocError>
        ensures ok { OnOk result (self.new ≡ sent_next self.old now) }
        ensures err { OnErr result (self.new ≡ self.old) }
    {
        self.sets.reserve()?;
        self.in_flight.reserve(1)?;
        if self.pending.is_empty() {
            return Ok(());
        }
        let bytes = self
            .pending
            .send_piece(&mut self.in_flight, &mut self.clocks, now);
        self.sets.grow();
        self.pending_bytes -= bytes;
        self.outstanding_bytes += bytes;
        self.flying_bytes += bytes;
        Ok(())
    }

    /// The piece in flight that is `index` TSNs past the first; None where there is none.
    pub fn get(&self, index: usize) -> Option<&InFlight>
        ensures { option_copied result ≡ slice_get self.now.in_flight index }
    {
        self.in_flight.get(index)
    }

    /// Passes over pieces in flight that gap ack blocks acknowledged before and that are not marked to be sent again.
    /// Answers the first index from `from` on, below `to`, at which no such piece stands; where each is one, that is
    /// `to`, or the number of pieces in flight where that is less, and never less than `from`. Goes over no piece: it
    /// searches the ranges of such pieces by halving.
    pub fn skip_acknowledged(&self, from: usize, to: usize) -> usize
        ensures { result ≡ past_acknowledged from to self.now.in_flight }
    {
        self.sets.skip_acknowledged(from, to)
    }

    /// Takes out the first piece in flight: it is acknowledged cumulatively. Goes over no other piece.
    // It is put into its callers, so that the piece is not handed on once more.
    #[inline(always)]
    #[tactic(auto, using(crate::proofs::FirstOutstanding::popped_there, crate::proofs::Timely::timely_behind))]
    pub fn pop(&mut self) -> Option<InFlight>
        ensures piece { result ≡ slice_get self.old.in_flight 0 }
        ensures rest { self.new ≡ without_first self.old }
    {
        let piece = self.in_flight.pop_front()?;
        self.sets.pass();
        self.first_tsn = self.first_tsn.wrapping_add(1);
        self.outstanding_bytes -= piece.outstanding_bytes();
        self.flying_bytes -= piece.flying_bytes();
        self.marked -= usize::from(piece.retransmit);
        self.settled = self.settled.saturating_sub(1);
        self.front.pop();
        Some(piece)
    }

    /// A gap ack block named a TSN (RFC 4960 section 6.2.1). Answers the bytes that are outstanding no more. Goes over
    /// no other piece.
    pub fn mark_as_acked(&mut self, tsn: u32) -> u64
        ensures { acked_at self.old tsn ≡ (self.new, result) }
    {
        let index = self.index_of(tsn);
        match self.in_flight.get_mut(index) {
            Some(named) => {
                let bytes = named.outstanding_bytes();
                self.flying_bytes -= named.flying_bytes();
                self.marked -= usize::from(named.retransmit);
                named.acknowledge();
                self.sets.settle(index, named);
                self.outstanding_bytes -= bytes;
                bytes
            }
            None => 0,
        }
    }

    /// Marks every outstanding piece to be sent again (RFC 4960 section 6.3.3). Goes over what is in flight.
    pub fn mark_all_to_retransmit(&mut self)
        ensures { self.new ≡ all_marked self.old }
    {
        self.marked = mark_all(&mut self.in_flight, &mut self.sets);
        self.flying_bytes = 0;
    }

    /// Counts that a piece is sent again. One that goes because the timer marked it loses the mark. Goes over no other
    /// piece.
    #[tactic(auto, using(crate::proofs::FirstOutstanding::resent_there, crate::proofs::Timely::timely_resent))]
    pub fn resend(&mut self, index: usize, by: Retransmission)
        ensures { self.new ≡ changed_at (counted_again by) self.old index }
    {
        if let Some(piece) = self.in_flight.get_mut(index) {
            self.marked -= usize::from(piece.retransmit);
            self.flying_bytes -= piece.flying_bytes();
            piece.resend(by);
            self.sets.settle(index, piece);
            self.marked += usize::from(piece.retransmit);
            self.flying_bytes += piece.flying_bytes();
        }
    }

    /// The first piece in flight from an index on that is sent again for this reason. One look, however it is found.
    pub fn next(&self, by: Retransmission, from: usize, looks: &mut Looks) -> Option<usize>
        ensures next { result ≡ option_map (λ n. from + n) (position (picks by) (drop from self.now.in_flight)) }
        ensures looks { looks.new ≡ ticked_by looks.old 1 }
    {
        self.sets.next(by, from, looks)
    }

    /// The first piece in flight that fast retransmission sends again. Goes over the pieces before it.
    pub fn first_missing(&self) -> Option<&InFlight>
        ensures { option_copied result ≡ find (picks Retransmission.Fast) self.now.in_flight }
    {
        first_missing(&self.in_flight)
    }

    /// A SACK reported pieces in flight missing (RFC 4960 section 7.2.4). Answers whether that is enough to send one of
    /// them again. Goes over those pieces, but for what gap ack blocks acknowledged: past that it searches among ranges.
    pub fn report_missing(&mut self, reports: &Reports) -> bool
        ensures last { result ≡ list_any (is_last_report reports.now) (take reports.now.count self.old.in_flight) }
        ensures counted { self.new ≡ with_missing reports.now self.old }
    {
        report_missing(&mut self.in_flight, &mut self.sets, reports)
    }

    /// Whether fast retransmission sends a piece again. Goes over no piece.
    pub fn any_missing(&self) -> bool
        ensures { result ≡ any_missing self.now }
    {
        self.sets.any_missing()
    }

    /// How many TSNs past the first one in flight the first outstanding piece is. Goes over the pieces before it that
    /// no earlier call went over: a piece that is outstanding no more never is again.
    pub fn first_outstanding(&mut self) -> Option<usize>
        ensures same { self.new ≡ self.old }
        ensures index { result ≡ position is_outstanding self.old.in_flight }
    {
        self.settled = first_outstanding(&self.in_flight, self.settled);
        if self.settled < self.in_flight.len() {
            Some(self.settled)
        } else {
            None
        }
    }

    /// The TSN of the first outstanding piece. Costs what `first_outstanding` does.
    pub fn earliest_outstanding_tsn(&mut self) -> Option<u32>
        ensures same { self.new ≡ self.old }
        ensures tsn { result ≡ first_tsn_that is_outstanding self.old }
    {
        match self.first_outstanding() {
            Some(index) => Some(self.tsn_at(index)),
            None => None,
        }
    }

    /// Whether a piece of this stream waits or is not acknowledged cumulatively.
    pub fn contains_stream(&self, id: StreamId) -> bool
        ensures { result ≡ has_stream self.now id }
    {
        self.pending.any_of_stream(id) || any_of_stream(&self.in_flight, id)
    }

    /// How many of the first pieces in flight are abandoned, one after another: so far past the TSN before the first
    /// one lies the advanced peer ack point (RFC 3758 section 3.5). It is kept as of the last call of `abandon`; what was
    /// abandoned then behind a piece that left since is gone over.
    pub fn abandoned_in_front(&self) -> usize
        ensures { result ≡ abandoned_in_front_of self.now.in_flight }
    {
        self.front.abandoned(&self.in_flight)
    }

    /// Whether a TSN is in flight and abandoned.
    pub fn is_abandoned(&self, tsn: u32) -> bool
        ensures { result ≡ is_abandoned_piece (piece_at self.now tsn) }
    {
        match self.get(self.index_of(tsn)) {
            Some(piece) => piece.abandoned,
            None => false,
        }
    }

    /// Abandons the message of the piece in flight that is `index` TSNs past the first whole (RFC 3758 section 3.5).
    /// That is every piece of it in flight, an acknowledged one too, and its unsent pieces. For the unsent ones a
    /// marker takes the next TSN. Answers what is released; None where there is no such piece. Goes over the pieces of
    /// the message, which are neighbours, and over those that are abandoned in front since, each once.
    pub fn abandon(&mut self, index: usize) -> Result<Option<Released>, AllocError>
        ensures ok { IfOk result (λ released. abandoned_at self.old index ≡ (self.new, released)) }
        ensures err { OnErr result (self.new ≡ self.old) }
    {
        // a use of a field opens the invariant for the proof
        let _ = &self.pending;
        let Some(piece) = self.get(index) else {
            return Ok(None);
        };
        let message = piece.message;
        let tail = self.drop_tail(message.message_id)?;
        let sent = self.flag(index, message.message_id);
        Ok(Some(Released {
            message,
            bytes: sent + tail,
        }))
    }

    // Drops the unsent pieces of a message, if it is the first one that waits; a marker takes the next TSN. Answers the
    // bytes dropped.
    #[tactic(auto, using(crate::proofs::FirstOutstanding::more_there, crate::proofs::Timely::timely_marker))]
    fn drop_tail(&mut self, message_id: u64) -> Result<u64, AllocError>
        ensures ok { IfOk result (λ bytes. tail_dropped self.old message_id ≡ (self.new, bytes)) }
        ensures err { OnErr result (self.new ≡ self.old) }
    {
        let Some(first) = self.pending.front() else {
            return Ok(0);
        };
        if first.message.message_id != message_id {
            return Ok(0);
        }
        let bytes = first.bytes();
        self.sets.reserve()?;
        self.in_flight.push_back(InFlight::marker(first.message))?;
        self.sets.grow();
        self.clocks.send(&first.message, true);
        self.pending.pop_front();
        self.pending_bytes -= bytes;
        Ok(bytes)
    }

    // Abandons every piece in flight of the message of the one at an index. Answers its bytes that are outstanding no
    // more.
    fn flag(&mut self, index: usize, message_id: u64) -> u64
        requires { holds_at (is_of message_id) (slice_get self.old.in_flight index) ≡ true }
        ensures flagged { self.new ≡ all_flagged message_id self.old }
        ensures bytes { result ≡ outstanding_of_message message_id self.old.in_flight }
    {
        let lost = flag_all(&mut self.in_flight, &mut self.sets, index, message_id);
        self.outstanding_bytes -= lost.bytes;
        self.flying_bytes -= lost.flying;
        self.marked -= lost.marks;
        self.front.abandon(&self.in_flight);
        lost.bytes
    }

    /// Lets the time of each message that has one run from `now` on, where it does not run yet. Goes over what was
    /// pushed since the last call, from the first message on that has a lifetime, and over what is in flight only where
    /// a piece of such a message went there in between.
    pub fn start_timed_messages(&mut self, now: Instant)
        ensures { self.new ≡ all_started now self.old }
    {
        let waiting = self.pending.len();
        if self.clocks.running == waiting && self.clocks.sent_run {
            return;
        }
        let covered = self.clocks.stretches.total();
        let next = self.pending.start(&self.clocks, now);
        let next_sent = start_sent(&mut self.in_flight, &self.clocks, now);
        self.front.start(self.clocks.sent_run);
        self.clocks.start(waiting, covered, next, next_sent);
    }

    /// How many TSNs past the first one in flight the first piece of an expired message that is not abandoned yet is.
    /// Goes over what is in flight only where a deadline of it is over since an earlier call went over it. It begins
    /// where the last call that went over it ended, if that was at `now` or at a later moment and no time began to run
    /// since, so calls at one moment go over each piece once, and where none is left once more for the next deadline.
    pub fn expired_inflight(&mut self, now: Instant) -> Option<usize>
        ensures same { self.new ≡ self.old }
        ensures index { result ≡ position (is_expired_piece now) self.old.in_flight }
    {
        if !is_over(self.clocks.next_sent, now) {
            return None;
        }
        let index = self.front.first_expired(&self.in_flight, now);
        if index < self.in_flight.len() {
            return Some(index);
        }
        self.clocks.next_sent = next_sent(&self.in_flight);
        None
    }

    /// Drops the first expired message of which nothing was sent. Later ordered messages of its stream and generation
    /// that wait move down by one SSN, if it is an ordered one. Goes over what waits only where a deadline of it may be
    /// over, and then over no stretch of it (there are 14 at most) of which each deadline is known to lie past `now`,
    /// nor over what was pushed since `start_timed_messages` last had a time to start; at the greatest moment over
    /// every stretch. Calls at one moment, up to the first that answers None, go over each message once to look for
    /// what they drop, once more for all SSNs that they move down, and a few times at most to close the places of these
    /// up, as long as nothing is sent or started in between and no message of which a part was sent is over. Where
    /// memory is refused that would keep how many were dropped, and at every 65,536th one of a generation of a stream,
    /// a call goes over all behind the one that it drops.
    pub fn expire_pending(&mut self, now: Instant) -> Option<Released>
        ensures { after_expiry now self.old ≡ (self.new, result) }
    {
        if !is_over(self.clocks.next_waiting, now) {
            self.pending.settle();
            return None;
        }
        let mut look = self.clocks.passed_by(now);
        let stretches = &mut self.clocks.stretches;
        match drop_expired(&mut self.pending, stretches, &mut look, now) {
            Some(dropped) => {
                let bytes = dropped.bytes();
                self.pending_bytes -= bytes;
                self.clocks.drop_at(look, now);
                Some(Released {
                    message: dropped.message,
                    bytes,
                })
            }
            None => {
                self.clocks.next_waiting = look.next;
                None
            }
        }
    }

    /// Abandons the unsent pieces of an expired message of which a part was sent and none of that part is in flight.
    pub fn expire_pending_tail(&mut self, now: Instant) -> Result<Option<Released>, AllocError>
        ensures ok { IfOk result (λ released. after_tail_expiry now self.old ≡ (self.new, released)) }
        ensures err { OnErr result (self.new ≡ self.old) }
        ensures grows { OnErr result (is_some (after_tail_expiry now self.old).1 ≡ true) }
    {
        let Some(first) = self.pending.front() else {
            return Ok(None);
        };
        if !self.is_expired_tail(first, now) {
            return Ok(None);
        }
        let message = first.message;
        let bytes = self.drop_tail(message.message_id)?;
        Ok(Some(Released { message, bytes }))
    }

    fn is_expired_tail(&self, first: &PendingMessage, now: Instant) -> bool
        ensures { result ≡ is_expired_tail now first.now self.now.in_flight }
    {
        first.begun
            && first.message.is_expired(now)
            && !any_of_message(&self.in_flight, first.message.message_id)
    }
}

// Whether the next deadline is at or before `now`.
fn is_over(next: Option<Instant>, now: Instant) -> bool
    ensures { result ≡ is_due next now }
{
    match next {
        Some(next) => next <= now,
        None => false,
    }
}
