// DATA that is sent again (RFC 4960 sections 6.3.3 and 7.2.4).
ghost use Rattle.std.specs.Prelude.{true, false, ◌≡◌, ◌+◌, ◌<◌, ◌≤◌, drop, length, nat_lt, slice_get};
ghost use Rattle.std.specs.Prelude.{OnErr, OnOk, IfOk};
ghost use Rattle.std.specs.List.{position_or_len};
ghost use Rattle.sctp_outbound_queue.specs.Message.{picks};
ghost use Rattle.sctp_outbound_queue.specs.Outbound.{marked_of};
ghost use Rattle.sctp_wire.specs.DataPackets.{with_all};
ghost use Rattle.sctp_outbound.specs.Sender.{after_marked, after_missing, alone_length, asks_again, chunks_tried};
ghost use Rattle.sctp_outbound.specs.Sender.{both_windows, fast_room, first_room, resend_window, room_by_rfcs};
ghost use Rattle.sctp_outbound.specs.Sender.{goes_again, marked_by, missing_by, resent_chunks, resent_pieces};
ghost use Rattle.sctp_outbound.specs.Sender.{tried_again, with_in_flight};

use crate::sender::{Attempt, COMMON_HEADER, Sender, sent_chunk};
use sctp_looks::Looks;
use sctp_outbound_queue::Retransmission;
use sctp_wire::DataPackets;
use std::alloc::AllocError;

impl Sender {
    /// Sends marked DATA again, in TSN order (RFC 4960 section 6.3.3). By `Profile::Port` it is at each call as many
    /// bytes of payload as the lesser of the congestion window and what is left of the peer's window, whatever earlier
    /// calls sent again. By `Profile::Rfc` it is the first marked piece alone until a SACK acknowledges something new,
    /// and then what both windows have room for beside what flies. Where the peer's window is too small for the first
    /// TSN in flight, that one goes alone. It lacks memory only where a chunk is sent again. Looks for each TSN that it
    /// sends again and once more; where nothing is marked it does not look.
    pub fn resend_marked(
        &mut self,
        out: &mut DataPackets,
        looks: &mut Looks,
    ) -> Result<(), AllocError>
        ensures sender { OnOk result (self.new ≡ after_marked self.old) }
        ensures chunks { OnOk result (out.new ≡ with_all out.old (marked_by self.old)) }
        ensures grows { OnErr result (nat_lt 0 (length (marked_by self.old)) ≡ true) }
        ensures looks { looks.new ≤ looks.old + (length (marked_by self.old) + 1) }
        ensures none { marked_of self.old.queue.in_flight ≡ 0 → looks.new ≡ looks.old }
    {
        if self.queue.marked_len() == 0 {
            return Ok(());
        }
        if let Some(length) = self.alone_length() {
            self.resend_at(Retransmission::Timer, 0, length, out)?;
            return Ok(());
        }
        let first = self.next_picked(Retransmission::Timer, 0, looks);
        let room = self.marked_room(first);
        self.resend_within(Retransmission::Timer, first, room, out, looks)?;
        Ok(())
    }

    // The bytes of payload that marked DATA may take up. `first` is the index of the first marked piece.
    pub(crate) fn marked_room(&self, first: usize) -> u64
        requires { first ≡ position_or_len (picks Retransmission.Timer) self.now.queue.in_flight }
        ensures { result ≡ both_windows self.now }
    {
        if self.is_by_rfcs() {
            self.room_by_rfcs(first)
        } else {
            u64::from(self.congestion.cwnd.min(self.rwnd()))
        }
    }

    fn room_by_rfcs(&self, first: usize) -> u64
        requires { first ≡ position_or_len (picks Retransmission.Timer) self.now.queue.in_flight }
        ensures { result ≡ room_by_rfcs self.now }
    {
        if self.is_after_timeout {
            return self.first_room(first);
        }
        let window = self.congestion.cwnd.min(self.advertised_window);
        u64::from(window).saturating_sub(self.queue.flying_bytes())
    }

    // The length of the first marked piece, where nothing flies.
    #[tactic(auto, using(std::proofs::lemmas::List::Folds::find_at))]
    fn first_room(&self, first: usize) -> u64
        requires { first ≡ position_or_len (picks Retransmission.Timer) self.now.queue.in_flight }
        ensures { result ≡ first_room self.now }
    {
        if self.queue.flying_bytes() != 0 {
            return 0;
        }
        match self.queue.get(first) {
            Some(piece) => piece.user_data.len() as u64,
            None => 0,
        }
    }

    /// Sends again, where fast retransmission is due, one packet of the DATA that is missing (RFC 4960 section 7.2.4):
    /// by `Profile::Port` what was sent once, by `Profile::Rfc` also what was sent again and is missing again. Answers
    /// how many chunks. It lacks memory only where a chunk is sent again. Looks for each TSN that it sends again and
    /// once more; where fast retransmission is not due it does not look.
    pub fn resend_missing(
        &mut self,
        out: &mut DataPackets,
        looks: &mut Looks,
    ) -> Result<u64, AllocError>
        ensures count { IfOk result (λ count. count ≡ length (missing_by self.old)) }
        ensures sender { OnOk result (self.new ≡ after_missing self.old) }
        ensures chunks { OnOk result (out.new ≡ with_all out.old (missing_by self.old)) }
        ensures grows { OnErr result (nat_lt 0 (length (missing_by self.old)) ≡ true) }
        ensures looks { looks.new ≤ looks.old + (length (missing_by self.old) + 1) }
        ensures none { self.old.is_fast_due ≡ false → looks.new ≡ looks.old }
    {
        if !self.is_fast_due {
            return Ok(0);
        }
        let first = self.next_picked(Retransmission::Fast, 0, looks);
        let room = self.fast_room(first);
        self.is_fast_due = false;
        self.resend_within(Retransmission::Fast, first, room, out, looks)
    }

    // The index of the first piece in flight, from an index on, that is sent again for a reason, or how many pieces are
    // in flight. One look.
    pub(crate) fn next_picked(&self, by: Retransmission, from: usize, looks: &mut Looks) -> usize
        requires { from ≤ length self.now.queue.in_flight }
        ensures index { result ≡ from + position_or_len (picks by) (drop from self.now.queue.in_flight) }
        ensures looks { looks.new ≤ looks.old + 1 }
    {
        match self.queue.next(by, from, looks) {
            Some(index) => index,
            None => self.queue.inflight_len(),
        }
    }

    // The room of one packet behind its common header, in bytes; a piece that is longer goes alone. `first` is the index
    // of the first piece that fast retransmission sends again.
    #[tactic(auto, using(std::proofs::lemmas::List::Folds::find_at))]
    pub(crate) fn fast_room(&self, first: usize) -> u64
        requires { first ≡ position_or_len (picks Retransmission.Fast) self.now.queue.in_flight }
        ensures { result ≡ fast_room self.now }
    {
        let room = u64::from(self.mtu.saturating_sub(COMMON_HEADER));
        match self.queue.get(first) {
            Some(piece) => room.max(piece.room_taken(Retransmission::Fast)),
            None => room,
        }
    }

    // The length of the first piece in flight, where it is marked and the peer's window is too small for it.
    fn alone_length(&self) -> Option<u64>
        ensures { result ≡ alone_length self.now }
    {
        let piece = self.queue.get(0)?;
        let length = piece.user_data.len() as u64;
        if piece.retransmit && u64::from(self.resend_window()) < length {
            Some(length)
        } else {
            None
        }
    }

    // The peer's window for a first piece that is sent again, in bytes.
    fn resend_window(&self) -> u32
        ensures { result ≡ resend_window self.now }
    {
        if self.is_by_rfcs() {
            self.advertised_window
        } else {
            self.rwnd()
        }
    }

    // Sends pieces again for a reason, in TSN order, until none is left or one does not fit into what is left of `room`
    // bytes, and answers how many. `first` is the index of the first of them. One look for each that goes.
    fn resend_within(
        &mut self,
        by: Retransmission,
        first: usize,
        room: u64,
        out: &mut DataPackets,
        looks: &mut Looks,
    ) -> Result<u64, AllocError>
        requires { first ≡ position_or_len (picks by) self.old.queue.in_flight }
        ensures count { IfOk result (λ count. count ≡
            length (resent_chunks (asks_again self.old) by self.old.queue.first_tsn 0 room self.old.queue.in_flight)) }
        ensures sender { OnOk result
            (self.new ≡ with_in_flight self.old (resent_pieces by room self.old.queue.in_flight)) }
        ensures chunks { OnOk result (out.new ≡
            with_all out.old (resent_chunks (asks_again self.old) by self.old.queue.first_tsn 0 room self.old.queue.in_flight)) }
        ensures grows { OnErr result (nat_lt 0 (length
            (resent_chunks (asks_again self.old) by self.old.queue.first_tsn 0 room self.old.queue.in_flight)) ≡ true) }
        ensures looks { looks.new ≤ looks.old + length
            (resent_chunks (asks_again self.old) by self.old.queue.first_tsn 0 room self.old.queue.in_flight) }
    {
        let count = self.queue.inflight_len();
        let mut left = room;
        let mut sent = 0;
        let mut index = first;
        'pieces: while index < count {
            let Attempt::Sent { room } = self.resend_at(by, index, left, out)? else {
                return Ok(sent);
            };
            left = room;
            sent += 1;
            index = self.next_picked(by, index + 1, looks);
        }
        Ok(sent)
    }

    // Sends the piece at an index again, where the reason picks it and `room` bytes are enough for it.
    fn resend_at(
        &mut self,
        by: Retransmission,
        index: usize,
        room: u64,
        out: &mut DataPackets,
    ) -> Result<Attempt, AllocError>
        ensures exact { IfOk result (λ attempt. tried_again by (slice_get self.old.queue.in_flight index) self.old index
            room ≡ (self.new, attempt)) }
        ensures chunks { IfOk result (λ attempt. out.new ≡ with_all out.old
            (chunks_tried by (slice_get self.old.queue.in_flight index) self.old index room)) }
        ensures grows { OnErr result (goes_again by (slice_get self.old.queue.in_flight index) room ≡ true) }
    {
        let Some(piece) = self.queue.get(index) else {
            return Ok(Attempt::Full);
        };
        if !piece.goes_again(by) {
            return Ok(Attempt::Passed);
        }
        let taken = piece.room_taken(by);
        if taken > room {
            return Ok(Attempt::Full);
        }
        let at_once = self.is_by_rfcs();
        out.add_borrowed(&sent_chunk(piece, self.queue.tsn_at(index), at_once))?;
        self.queue.resend(index, by);
        Ok(Attempt::Sent { room: room - taken })
    }
}
