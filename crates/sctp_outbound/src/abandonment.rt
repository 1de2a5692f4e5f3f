// Messages that are given up (RFC 3758 section 3.5).
ghost use Rattle.std.specs.Prelude.{◌≡◌, ◌<◌, ◌≤◌, ◌+◌, is_some, nat_lt, length, slice_get, true, false, Some};
ghost use Rattle.std.specs.Prelude.{IfOk, OnErr, OnOk};
ghost use Rattle.std.specs.List.{position_or_len};
ghost use Rattle.sctp_outbound_queue.specs.Message.{picks};
ghost use Rattle.sctp_outbound_queue.specs.Expiry.{after_tail_expiry};
ghost use Rattle.sctp_outbound_queue.specs.Outbound.{abandoned_at};
ghost use Rattle.sctp_streams.specs.LowMarks.{AreGathered, falls_in};
ghost use Rattle.sctp_streams.specs.Streams.{released_in};
ghost use Rattle.sctp_outbound.specs.Abandonment.{abandoned_if, abandoned_of, all_given_up, asked_past, expired_by};
ghost use Rattle.sctp_outbound.specs.Abandonment.{expires, looks_for, pass_looks};
ghost use Rattle.sctp_outbound.specs.Abandonment.{first_spent, given_up_before, gives_up_before, has_late_tail};
ghost use Rattle.sctp_outbound.specs.Abandonment.{is_pass_due, is_spent, next_given_up, pass_room};
ghost use Rattle.sctp_outbound.specs.Abandonment.{reached_at, released_with, spent_index, tail_given_up, with_started};
ghost use Rattle.sctp_outbound.specs.Falling.{falls_at, fell_at, fell_before, fell_expired, fell_giving_up};
ghost use Rattle.sctp_outbound.specs.Falling.{fell_with_tail};

use crate::sender::Sender;
use sctp_looks::Looks;
use sctp_outbound_queue::{InFlight, OutboundQueue, Retransmission};
use sctp_streams::{Fallen, Streams};
use sctp_wire_types::{Instant, Policy, StreamId};
use std::alloc::AllocError;

/// Why messages are given up.
#[derive(Clone, Copy, Debug)]
pub enum Reason {
    /// Their deadline is at this moment or before it.
    Expired(Instant),
    /// A piece would be sent again for this reason, and was sent as often as its policy allows.
    Spent(Retransmission),
}

/// What a pass that sends again comes to at a piece.
#[derive(Clone, Copy, Debug)]
pub enum Reached {
    /// It goes on, with so many bytes of room.
    On(u64),
    /// It would send the piece again, which was sent as often as its policy allows.
    Spent,
    /// It ends, since the piece does not fit.
    Full,
}

impl Sender {
    /// Where FORWARD TSN is in use, gives up what `resend_marked` or `resend_missing` would send again too often: a
    /// piece that the pass reaches and that was sent more often than its message may be sent again. Its message is
    /// abandoned whole, and its bytes are released at its stream; the pass is looked at anew after each. Answers
    /// whether any message was given up. It lacks memory only where one is. A pass looks for each piece that it would
    /// send again and once more; for each message that is given up all that is in flight is gone over.
    #[tactic(auto, using(sctp_streams::proofs::LowMarks::none_gathered))]
    pub fn give_up(
        &mut self,
        streams: &mut Streams,
        fallen: &mut Fallen,
        forward: bool,
        by: Retransmission,
        looks: &mut Looks,
    ) -> Result<bool, AllocError>
        ensures exact { OnOk result (given_up_before forward by (self.old, streams.old) ≡ (self.new, streams.new)) }
        ensures any { IfOk result (λ any. any ≡ gives_up_before forward by self.old) }
        ensures falls { OnOk result
            (AreGathered (fell_before forward by (self.old, streams.old)) fallen.old fallen.new) }
        ensures grows { OnErr result (gives_up_before forward by self.old ≡ true) }
        ensures looks { (gives_up_before forward by self.old ≡ false)
            → looks.new ≤ looks.old + pass_looks by self.old }
    {
        if !forward {
            return Ok(false);
        }
        self.abandon_all(streams, fallen, &Reason::Spent(by), looks)
    }

    /// Where FORWARD TSN is in use, lets the time of each message that has one run from `now` on where it does not run
    /// yet, and gives up each expired message of which something was sent: it is abandoned whole, and its bytes are
    /// released at its stream. Answers whether any message was given up. It lacks memory only where one is. Goes over
    /// what is in flight only where a deadline is over.
    pub fn expire(
        &mut self,
        streams: &mut Streams,
        fallen: &mut Fallen,
        forward: bool,
        now: Instant,
    ) -> Result<bool, AllocError>
        ensures exact { OnOk result (expired_by forward now (self.old, streams.old) ≡ (self.new, streams.new)) }
        ensures any { IfOk result (λ any. any ≡ expires forward now (self.old, streams.old)) }
        ensures falls { OnOk result
            (AreGathered (fell_expired forward now (self.old, streams.old)) fallen.old fallen.new) }
        ensures grows { OnErr result (expires forward now (self.old, streams.old) ≡ true) }
    {
        if !forward {
            return Ok(false);
        }
        self.start_timed(now);
        let why = Reason::Expired(now);
        let any_sent = self.abandon_all(streams, fallen, &why, &mut Looks::new())?;
        let tail = self.expire_tail(streams, fallen, now)?;
        Ok(any_sent | tail)
    }

    fn start_timed(&mut self, now: Instant)
        ensures { self.new ≡ with_started now self.old }
    {
        self.queue.start_timed_messages(now);
    }

    // Abandons the unsent pieces of an expired message of which a part was sent and none of that part is in flight.
    #[tactic(auto, unfolding(crate::specs::Abandonment::tail_given_up))]
    fn expire_tail(
        &mut self,
        streams: &mut Streams,
        fallen: &mut Fallen,
        now: Instant,
    ) -> Result<bool, AllocError>
        ensures exact { OnOk result (tail_given_up now (self.old, streams.old) ≡ (self.new, streams.new)) }
        ensures any { IfOk result (λ any. any ≡ has_late_tail now self.old) }
        ensures falls { OnOk result (AreGathered (fell_with_tail now (self.old, streams.old)) fallen.old fallen.new) }
        ensures grows { OnErr result (has_late_tail now self.old ≡ true) }
    {
        let before = self.queue.abandoned_in_front();
        let any = expire_tail_in(&mut self.queue, streams, fallen, now)?;
        self.ask_past(before);
        Ok(any)
    }

    // Abandons each message that is given up for a reason, and answers whether any was.
    fn abandon_all(
        &mut self,
        streams: &mut Streams,
        fallen: &mut Fallen,
        why: &Reason,
        looks: &mut Looks,
    ) -> Result<bool, AllocError>
        ensures exact { OnOk result (all_given_up why.now (self.old, streams.old) ≡ (self.new, streams.new)) }
        ensures any { IfOk result (λ any. any ≡ is_some (next_given_up why.now self.old)) }
        ensures falls { OnOk result
            (AreGathered (fell_giving_up why.now (self.old, streams.old)) fallen.old fallen.new) }
        ensures grows { OnErr result (is_some (next_given_up why.now self.old) ≡ true) }
        ensures looks { (is_some (next_given_up why.now self.old) ≡ false)
            → looks.new ≤ looks.old + looks_for why.now self.old }
    {
        let count = self.queue.inflight_len();
        for done in 0..count {
            if !self.abandon_next(streams, fallen, why, looks)? {
                return Ok(done > 0);
            }
        }
        Ok(count > 0)
    }

    // Abandons the message that is given up next, and answers whether there is one.
    #[tactic(auto, using(sctp_streams::proofs::LowMarks::none_gathered))]
    fn abandon_next(
        &mut self,
        streams: &mut Streams,
        fallen: &mut Fallen,
        why: &Reason,
        looks: &mut Looks,
    ) -> Result<bool, AllocError>
        ensures exact { OnOk result
            (abandoned_if (next_given_up why.now self.old) (self.old, streams.old) ≡ (self.new, streams.new)) }
        ensures any { IfOk result (λ any. any ≡ is_some (next_given_up why.now self.old)) }
        ensures falls { OnOk result
            (AreGathered (fell_at (next_given_up why.now self.old) (self.old, streams.old)) fallen.old fallen.new) }
        ensures grows { OnErr result (is_some (next_given_up why.now self.old) ≡ true) }
        ensures looks { looks.new ≤ looks.old + looks_for why.now self.old }
    {
        match self.next_given_up(why, looks) {
            Some(index) => {
                self.abandon(streams, fallen, index)?;
                Ok(true)
            }
            None => Ok(false),
        }
    }

    // Abandons the message of the piece at an index in flight whole: every piece of it that is in flight, and its
    // unsent pieces, for which a marker takes the next TSN. Its bytes are released at its stream. FORWARD TSN is due
    // where that moves the advanced peer ack point. It lacks memory only where the marker has no room. Goes over what
    // is in flight.
    #[tactic(auto, unfolding(crate::specs::Abandonment::abandoned_of))]
    fn abandon(
        &mut self,
        streams: &mut Streams,
        fallen: &mut Fallen,
        index: usize,
    ) -> Result<(), AllocError>
        ensures exact { OnOk result (abandoned_of index (self.old, streams.old) ≡ (self.new, streams.new)) }
        ensures falls { OnOk result (AreGathered (fell_at (Some index) (self.old, streams.old)) fallen.old fallen.new) }
    {
        let before = self.queue.abandoned_in_front();
        abandon_in(&mut self.queue, streams, fallen, index)?;
        self.ask_past(before);
        Ok(())
    }

    // FORWARD TSN is due where more than `before` pieces are abandoned in front of all others in flight.
    fn ask_past(&mut self, before: usize)
        ensures { self.new ≡ asked_past before self.old }
    {
        self.is_forward_due |= before < self.queue.abandoned_in_front();
    }

    // The index of the piece in flight whose message is given up next.
    fn next_given_up(&mut self, why: &Reason, looks: &mut Looks) -> Option<usize>
        ensures same { self.new ≡ self.old }
        ensures index { result ≡ next_given_up why.now self.old }
        ensures looks { looks.new ≤ looks.old + looks_for why.now self.old }
    {
        match why {
            Reason::Expired(now) => self.queue.expired_inflight(*now),
            Reason::Spent(by) => self.first_spent(*by, looks),
        }
    }

    // The index of the first piece that a pass would send again too often.
    fn first_spent(&self, by: Retransmission, looks: &mut Looks) -> Option<usize>
        ensures index { result ≡ first_spent by self.now }
        ensures looks { looks.new ≤ looks.old + pass_looks by self.now }
    {
        if !self.is_pass_due(by) {
            return None;
        }
        self.spent_index(by, looks)
    }

    fn is_pass_due(&self, by: Retransmission) -> bool
        ensures { result ≡ is_pass_due by self.now }
    {
        match by {
            Retransmission::Timer => self.queue.marked_len() > 0,
            Retransmission::Fast => self.is_fast_due,
        }
    }

    // The room of a pass whose first piece stands at this index.
    fn pass_room(&self, by: Retransmission, first: usize) -> u64
        requires { first ≡ position_or_len (picks by) self.now.queue.in_flight }
        ensures { result ≡ pass_room by self.now }
    {
        match by {
            Retransmission::Timer => self.marked_room(first),
            Retransmission::Fast => self.fast_room(first),
        }
    }

    fn spent_index(&self, by: Retransmission, looks: &mut Looks) -> Option<usize>
        ensures index { result ≡ spent_index by 0 (pass_room by self.now) self.now.queue.in_flight }
        ensures looks { looks.new ≤ looks.old + pass_looks by self.now }
    {
        let count = self.queue.inflight_len();
        let mut index = self.next_picked(by, 0, looks);
        let mut left = self.pass_room(by, index);
        'pieces: while index < count {
            let Some(piece) = self.queue.get(index) else {
                return None;
            };
            match reach(piece, by, left) {
                Reached::On(room) => left = room,
                Reached::Spent => return Some(index),
                Reached::Full => return None,
            }
            index = self.next_picked(by, index + 1, looks);
        }
        None
    }
}

// What a pass with so many bytes of room left comes to at a piece.
fn reach(piece: &InFlight, by: Retransmission, room: u64) -> Reached
    ensures { result ≡ reached_at by room piece.now }
{
    if !piece.goes_again(by) {
        return Reached::On(room);
    }
    if is_spent(piece) {
        return Reached::Spent;
    }
    let taken = piece.room_taken(by);
    if taken > room {
        Reached::Full
    } else {
        Reached::On(room - taken)
    }
}

// Whether a piece was sent as often as its policy allows.
fn is_spent(piece: &InFlight) -> bool
    ensures { result ≡ is_spent piece.now }
{
    match piece.message.policy {
        Policy::Rexmit(count) => piece.sent_count > count,
        Policy::Reliable | Policy::Timed(_) => false,
    }
}

// Abandons the message of the piece at an index in flight, and releases its bytes.
#[tactic(auto, using(sctp_streams::proofs::LowMarks::none_gathered))]
fn abandon_in(
    queue: &mut OutboundQueue,
    streams: &mut Streams,
    fallen: &mut Fallen,
    index: usize,
) -> Result<(), AllocError>
    ensures exact { OnOk result (released_with (abandoned_at queue.old index) streams.old ≡ (queue.new, streams.new)) }
    ensures falls { OnOk result
        (AreGathered (falls_at (abandoned_at queue.old index).1 streams.old) fallen.old fallen.new) }
{
    match queue.abandon(index) {
        Ok(Some(released)) => {
            let id = released.message.stream_identifier;
            release_bytes(
                streams,
                fallen,
                id,
                released.message.generation,
                released.bytes,
            );
            Ok(())
        }
        Ok(None) => Ok(()),
        Err(refused) => Err(refused),
    }
}

// Abandons the unsent pieces of an expired message of which no piece is in flight any more, and releases their bytes.
// Answers whether there are any.
#[tactic(auto, using(sctp_streams::proofs::LowMarks::none_gathered))]
fn expire_tail_in(
    queue: &mut OutboundQueue,
    streams: &mut Streams,
    fallen: &mut Fallen,
    now: Instant,
) -> Result<bool, AllocError>
    ensures exact { OnOk result (released_with (after_tail_expiry now queue.old) streams.old ≡
        (queue.new, streams.new)) }
    ensures any { IfOk result (λ any. any ≡ is_some (after_tail_expiry now queue.old).1) }
    ensures grows { OnErr result (is_some (after_tail_expiry now queue.old).1 ≡ true) }
    ensures falls { OnOk result
        (AreGathered (falls_at (after_tail_expiry now queue.old).1 streams.old) fallen.old fallen.new) }
{
    let Some(released) = queue.expire_pending_tail(now)? else {
        return Ok(false);
    };
    let id = released.message.stream_identifier;
    release_bytes(
        streams,
        fallen,
        id,
        released.message.generation,
        released.bytes,
    );
    Ok(true)
}

// Gives bytes back to a stream of this generation. Where the stream falls to its low mark it is gathered.
fn release_bytes(
    streams: &mut Streams,
    fallen: &mut Fallen,
    id: StreamId,
    generation: u64,
    bytes: u64,
)
    ensures released { streams.new ≡ released_in streams.old id generation bytes }
    ensures falls { AreGathered (falls_in streams.old id generation bytes) fallen.old fallen.new }
{
    if streams.release(id, generation, bytes) {
        fallen.add(id);
    }
}
