// The sender of DATA: windows, acknowledgements, retransmission.
ghost use Rattle.sctp_parts.specs.Estimate.{measured};
ghost use Rattle.sctp_outbound_queue.specs.Message.{outstanding_bytes};
ghost use Rattle.sctp_outbound_queue.specs.Outbound.{after_piece, pieces_waiting};
ghost use Rattle.sctp_streams.specs.Streams.{released_in};
ghost use Rattle.sctp_streams.specs.LowMarks.{Gathers};
ghost use Rattle.std.specs.Prelude.{true, is_some, ◌≡◌, ◌+◌, ◌-◌, ◌/◌, if◌then◌else◌, ◌≤◌, ◌<◌, ◌^◌, ◌++◌, ◌∷◌, []};
ghost use Rattle.std.specs.Prelude.{OnErr, OnOk, IfOk, IfSome, length, slice_get, nat_lt};
ghost use Rattle.sctp_outbound.specs.Sender.{sends_new, fresh_sender, window_left};
ghost use Rattle.sctp_outbound.specs.Sender.{marks};
ghost use Rattle.sctp_outbound.specs.Sender.{cumulative_tsn_ack_point_of, tsns_up_to, after_first, acknowledged};
ghost use Rattle.sctp_outbound.specs.Sacks.{fresh_of, progress_of, sack_taken};
ghost use Rattle.sctp_outbound.specs.Progress.{any_new_up_to, is_new_piece};
ghost use Rattle.sctp_outbound.specs.Sender.{after_t3_timeout};
ghost use Rattle.sctp_outbound.specs.Sender.{sack_outcome, with_first_window, with_window, t3_after_sack, chunk_of};
ghost use Rattle.sctp_outbound.specs.Sender.{asks_at_once, next_chunk_of, data_of, can_send_next, is_measured};
ghost use Rattle.sctp_wire.specs.DataPackets.{with_all};
ghost use Rattle.sctp_outbound.specs.Sender.{allows_new, burst_of, is_past_timeout, sent_new, sent_probing};
ghost use Rattle.sctp_outbound.specs.Sender.{probe_marked, sent_one, sent_within};
ghost use Rattle.sctp_wire_types.specs.Config.{is_rfc};

use crate::congestion::CongestionWindow;
use crate::gap_acks::reach;
use crate::growth::Brought;
use crate::progress::{Progress, is_new};
use crate::recovery::Heard;
use bytes::Bytes;
use sctp_outbound_queue::{Attributes, InFlight, OutboundQueue, PendingMessage, data_length};
use sctp_parts::estimate::RtoManager;
use sctp_parts::timer::{Timer, TimerTable};
use sctp_streams::{Fallen, Streams};
use sctp_wire::{DataPackets, DataRef};
use sctp_wire_types::{GapAckBlock, Instant, List, Profile, sna32gt, sna32gte};
use std::alloc::{AllocError, Global};

/// Bytes that a packet may have beside the payload of one DATA chunk, without padding: common header and DATA header.
const PACKET_OVERHEAD: u32 = 28;

/// Bytes of the common header of a packet (RFC 4960 section 3.1).
pub(crate) const COMMON_HEADER: u32 = 12;

/// What a SACK was to the sender.
#[derive(Clone, Copy, Debug, PartialEq, Eq)]
pub enum SackOutcome {
    /// Its cumulative TSN ack is behind what is acknowledged already; nothing changed.
    Older,
    /// Its cumulative TSN ack acknowledges a TSN that is not in flight; nothing changed.
    NotInFlight,
    /// One of its gap ack blocks names a TSN that is not in flight; nothing changed.
    NamesTheUnsent,
    /// It was taken.
    Taken,
}

/// What became of a piece that may be sent again.
#[derive(Clone, Copy, Debug, PartialEq, Eq)]
pub enum Attempt {
    /// It isn't to be sent again.
    Passed,
    /// It went out; so many bytes are left for those behind it.
    Sent { room: u64 },
    /// It isn't there, or too long for what is left.
    Full,
}

/// What is to be sent, what is in flight, and how much may be (RFC 4960 sections 6 and 7).
#[derive(Debug, Drop)]
pub struct Sender {
    pub queue: OutboundQueue,
    /// The greatest packet of two DATA chunks or more, in bytes: the payload size and 28.
    pub mtu: u32,
    /// Greatest payload of a DATA chunk, in bytes.
    pub max_payload_size: u32,
    pub congestion: CongestionWindow,
    /// The receive window that the peer last reported, in bytes.
    pub advertised_window: u32,
    /// Round-trip times are measured from this TSN on.
    pub min_tsn2measure_rtt: u32,
    /// While a loss is recovered from, the TSN whose cumulative acknowledgement ends that.
    pub recovery_exit: Option<u32>,
    /// Fast retransmission is due.
    pub is_fast_due: bool,
    /// FORWARD TSN is due (RFC 3758 section 3.5).
    pub is_forward_due: bool,
    /// The rules by which it sends.
    pub profile: Profile,
    /// Since T3-rtx expired no SACK acknowledged anything new (`Profile::Rfc`).
    pub is_after_timeout: bool,
    /// Bytes of chunks that new DATA may take up until the next SACK (`Profile::Rfc`).
    pub burst_room: u64,
    /// What was sent again at last was so before this TSN was first sent, and once `is_round_over` a round trip before
    /// that (`Profile::Rfc`).
    pub fresh_tsn: u32,
    /// Since something was sent again at last, a SACK acknowledged what was first sent after it (`Profile::Rfc`).
    pub is_round_over: bool,
}

impl Sender {
    /// A sender with nothing to send. `window` is the peer's receive window, in bytes. Takes no memory.
    pub fn new(
        alloc: Global,
        profile: Profile,
        max_payload_size: u32,
        initial_tsn: u32,
        window: u32,
    ) -> Self
        requires { max_payload_size ≤ 65519 }
        ensures { result ≡ fresh_sender profile max_payload_size initial_tsn window }
    {
        let mtu = max_payload_size + PACKET_OVERHEAD;
        Sender {
            queue: OutboundQueue::new(alloc, initial_tsn),
            mtu,
            max_payload_size,
            congestion: CongestionWindow::new(mtu, window),
            advertised_window: window,
            min_tsn2measure_rtt: initial_tsn,
            recovery_exit: None,
            is_fast_due: false,
            is_forward_due: false,
            profile,
            is_after_timeout: false,
            burst_room: burst_of(mtu),
            fresh_tsn: initial_tsn,
            is_round_over: false,
        }
    }

    // Whether it sends by the rules of the RFCs.
    pub(crate) fn is_by_rfcs(&self) -> bool
        ensures { result ≡ is_rfc self.now.profile }
    {
        matches!(self.profile, Profile::Rfc)
    }

    /// The peer's receive window is known, in bytes, from its INIT or INIT ACK (RFC 4960 sections 5.1 and 7.2.1).
    pub fn set_peer_window(&mut self, first_window: u32)
        ensures { self.new ≡ with_first_window self.old first_window }
    {
        self.advertised_window = first_window;
        self.congestion.ssthresh = first_window;
    }

    /// The peer's window less what is in flight, in bytes.
    pub fn rwnd(&self) -> u32
        ensures { result ≡ window_left self.now }
    {
        let window = u64::from(self.advertised_window);
        window.saturating_sub(self.queue.inflight_bytes()) as u32
    }

    /// Whether the retransmission timer marked this TSN and it was not sent again since.
    pub fn is_marked(&self, tsn: u32) -> bool
        ensures { result ≡ marks self.now tsn }
    {
        match self.queue.get(self.queue.index_of(tsn)) {
            Some(piece) => piece.retransmit,
            None => false,
        }
    }

    /// Takes in the cumulative TSN ack, the gap ack blocks and the window of a SACK (RFC 4960 section 6.2.1). The
    /// streams that fall to their low mark are gathered.
    pub fn on_sack(
        &mut self,
        timers: &mut TimerTable,
        rto: &mut RtoManager,
        streams: &mut Streams,
        fallen: &mut Fallen,
        cumulative_tsn_ack: u32,
        blocks: &List<GapAckBlock>,
        window: u32,
        now: Instant,
    ) -> SackOutcome
        ensures gathers { Gathers streams.old fallen.old streams.new fallen.new }
        ensures older { (result ≡ SackOutcome.Older)
            → (self.new ≡ self.old) × (timers.new ≡ timers.old) × (rto.new ≡ rto.old) × (streams.new ≡ streams.old) }
        ensures unknown { (result ≡ SackOutcome.NotInFlight)
            → (self.new ≡ self.old) × (timers.new ≡ timers.old) × (rto.new ≡ rto.old) × (streams.new ≡ streams.old) }
        ensures unsent { (result ≡ SackOutcome.NamesTheUnsent)
            → (self.new ≡ self.old) × (timers.new ≡ timers.old) × (rto.new ≡ rto.old) × (streams.new ≡ streams.old) }
        ensures outcome { result ≡ sack_outcome self.old cumulative_tsn_ack blocks.now }
        ensures taken { (result ≡ SackOutcome.Taken)
            → sack_taken cumulative_tsn_ack blocks.now window now self.old rto.old streams.old
            ≡ (self.new, rto.new, streams.new) }
        ensures timer { (result ≡ SackOutcome.Taken)
            → timers.new ≡ t3_after_sack (progress_of self.old cumulative_tsn_ack blocks.now)
            (length self.new.queue.in_flight) now rto.new.rto timers.old }
    {
        if sna32gt(self.cumulative_tsn_ack_point(), cumulative_tsn_ack) {
            return SackOutcome::Older;
        }
        let count = self.count_to(cumulative_tsn_ack);
        if count as usize > self.queue.inflight_len() {
            return SackOutcome::NotInFlight;
        }
        if self.names_unsent(count, blocks) {
            return SackOutcome::NamesTheUnsent;
        }
        let before = self.queue.inflight_bytes();
        let any_marked = self.queue.marked_len() > 0;
        let fresh = self.fresh_pieces();
        let is_round_over = self.is_round_over;
        let earliest = self.names_earliest(count, blocks);
        self.advertised_window = window;
        self.leave_recovery(count);
        let any_new = self.acknowledge(rto, streams, fallen, count, now);
        let newest = self.acknowledge_blocks(rto, streams, fallen, blocks, now);
        let progress = Progress {
            any_new: any_new | newest.is_some(),
            earliest,
        };
        self.grow_window(&Brought {
            moved: count > 0,
            any_new: progress.any_new,
            any_marked,
            before,
        });
        self.count_misses(&Heard {
            moved: count > 0,
            newest,
            fresh,
            is_round_over,
            reach: reach(blocks),
        });
        self.run_t3(timers, rto, progress, now);
        SackOutcome::Taken
    }

    // The retransmission timer after a SACK: its retries are forgotten where a TSN is acknowledged for the first time,
    // it begins anew where the first outstanding one is, stops where nothing is left in flight, and runs where
    // something is (RFC 4960 section 6.3.2).
    fn run_t3(&self, timers: &mut TimerTable, rto: &RtoManager, progress: Progress, now: Instant)
        ensures { timers.new ≡ t3_after_sack progress (length self.now.queue.in_flight) now rto.now.rto timers.old }
    {
        if progress.any_new {
            timers.reset_retrans(Timer::T3RTX);
        }
        if progress.earliest {
            timers.set(Timer::T3RTX, None);
        }
        if self.queue.inflight_len() > 0 {
            timers.restart_if_stale(Timer::T3RTX, now, rto.get_rto());
        } else {
            timers.stop(Timer::T3RTX);
        }
    }

    /// The last TSN that was acknowledged cumulatively (RFC 4960 section 6.2.1).
    pub fn cumulative_tsn_ack_point(&self) -> u32
        ensures { result ≡ cumulative_tsn_ack_point_of self.now }
    {
        self.queue.first_tsn().wrapping_sub(1)
    }

    // How many pieces, of the last ones in flight, were first sent after whatever went again, and once a round trip is
    // over since, a round trip after it.
    fn fresh_pieces(&self) -> u32
        ensures { result ≡ fresh_of self.now }
    {
        self.queue.next_tsn().wrapping_sub(self.fresh_tsn)
    }

    // How many TSNs a cumulative TSN ack acknowledges.
    fn count_to(&self, cumulative_tsn_ack: u32) -> u32
        ensures { result ≡ tsns_up_to self.now cumulative_tsn_ack }
    {
        cumulative_tsn_ack.wrapping_sub(self.cumulative_tsn_ack_point())
    }

    // The first `count` pieces in flight came, one after another. Answers whether one of them is acknowledged for the
    // first time.
    fn acknowledge(
        &mut self,
        rto: &mut RtoManager,
        streams: &mut Streams,
        fallen: &mut Fallen,
        count: u32,
        now: Instant,
    ) -> bool
        ensures any { result ≡ any_new_up_to count self.old.queue.in_flight }
        ensures exact { acknowledged count now (self.old, rto.old, streams.old) ≡ (self.new, rto.new, streams.new) }
        ensures gathers { Gathers streams.old fallen.old streams.new fallen.new }
    {
        let mut any_new = false;
        for done in 0..count {
            let is_new = self.acknowledge_first(rto, streams, fallen, now);
            any_new |= is_new;
        }
        any_new
    }

    // The first piece in flight came: measure the round trip if it was sent once, and release its bytes. Each piece
    // comes here, so this function is put into its caller.
    #[inline(always)]
    #[tactic(auto, using(sctp_streams::proofs::LowMarks::gathers_nothing), unfolding(crate::specs::Sender::after_first))]
    fn acknowledge_first(
        &mut self,
        rto: &mut RtoManager,
        streams: &mut Streams,
        fallen: &mut Fallen,
        now: Instant,
    ) -> bool
        ensures new { result ≡ is_new_piece (slice_get self.old.queue.in_flight 0) }
        ensures exact { after_first now (self.old, rto.old, streams.old) ≡ (self.new, rto.new, streams.new) }
        ensures gathers { Gathers streams.old fallen.old streams.new fallen.new }
    {
        let tsn = self.queue.first_tsn();
        let next_tsn = self.queue.next_tsn();
        if let Some(piece) = self.queue.pop() {
            self.measure(rto, &piece, tsn, next_tsn, now);
            release(streams, fallen, &piece);
            return is_new(&piece);
        }
        false
    }

    // Takes the round trip of a piece that was sent once; the next measurement begins with what is sent from now on.
    fn measure(
        &mut self,
        rto: &mut RtoManager,
        piece: &InFlight,
        tsn: u32,
        next_tsn: u32,
        now: Instant,
    )
        ensures sender { self.new ≡ (if is_measured self.old tsn piece.now then
            record self.old { min_tsn2measure_rtt = next_tsn } else self.old) }
        ensures estimate { rto.new ≡ (if is_measured self.old tsn piece.now then
            measured ((now - piece.now.since) / 1000000) rto.old else rto.old) }
    {
        if piece.is_outstanding()
            && piece.sent_count == 1
            && sna32gte(tsn, self.min_tsn2measure_rtt)
        {
            rto.set_new_rtt(now.millis_since(piece.since));
            self.min_tsn2measure_rtt = next_tsn;
        }
    }

    /// Marks all that is outstanding to be sent again, and takes the congestion window down to one packet (RFC 4960
    /// sections 6.3.3 and 7.2.3). By `Profile::Rfc` one piece goes until a SACK acknowledges something new.
    pub fn on_t3_timeout(&mut self)
        ensures { self.new ≡ after_t3_timeout self.old }
    {
        self.fresh_tsn = self.queue.next_tsn();
        self.is_round_over = false;
        self.queue.mark_all_to_retransmit();
        self.congestion.on_t3_timeout(self.mtu);
        if self.is_by_rfcs() {
            self.recovery_exit = None;
            self.is_fast_due = false;
            self.is_after_timeout = true;
            self.burst_room = burst_of(self.mtu);
        }
    }

    /// The peer opened the window that the one piece in flight probed: it goes again.
    pub fn mark_probe(&mut self)
        ensures { self.new ≡ probe_marked self.old }
    {
        self.fresh_tsn = self.queue.next_tsn();
        self.is_round_over = false;
        self.queue.mark_all_to_retransmit();
        self.is_after_timeout = false;
    }

    /// Sends DATA that waits while the windows allow it, and answers whether any was sent. With nothing in flight one
    /// piece goes whatever the windows are, to probe them (RFC 4960 section 6.1). By `Profile::Rfc` none goes while
    /// something is marked, and no more than four packets beyond what SACKs acknowledged since the last call. It lacks
    /// memory only where a chunk is sent.
    pub fn send_new(&mut self, out: &mut DataPackets, now: Instant) -> Result<bool, AllocError>
        ensures sender { OnOk result ((sent_new self.old now).0 ≡ self.new) }
        ensures chunks { OnOk result (out.new ≡ with_all out.old (sent_new self.old now).1) }
        ensures any { IfOk result (λ any. any ≡ sends_new self.old now) }
        ensures grows { OnErr result (sends_new self.old now ≡ true) }
    {
        let any = self.send_probing(out, now)?;
        self.burst_room = self.burst_room.min(burst_of(self.mtu));
        Ok(any)
    }

    fn send_probing(&mut self, out: &mut DataPackets, now: Instant) -> Result<bool, AllocError>
        ensures sender { OnOk result ((sent_probing self.old now).0 ≡ self.new) }
        ensures chunks { OnOk result (out.new ≡ with_all out.old (sent_probing self.old now).1) }
        ensures any { IfOk result (λ any. any ≡ sends_new self.old now) }
        ensures grows { OnErr result (sends_new self.old now ≡ true) }
    {
        if self.queue.inflight_len() == 0 && !self.next_fits() {
            self.send_one(out, now)
        } else {
            self.send_within(out, now)
        }
    }

    // Sends pieces that wait, in the order in which they were accepted, while both windows allow it. Answers whether
    // any was sent.
    fn send_within(&mut self, out: &mut DataPackets, now: Instant) -> Result<bool, AllocError>
        ensures sender { OnOk result
            ((sent_within (pieces_waiting self.old.queue.pending) self.old now).0 ≡ self.new) }
        ensures chunks { OnOk result
            (out.new ≡ with_all out.old (sent_within (pieces_waiting self.old.queue.pending) self.old now).1) }
        ensures any { IfOk result
            (λ any. any ≡ nat_lt 0 (length (sent_within (pieces_waiting self.old.queue.pending) self.old now).1)) }
        ensures grows { OnErr result
            (nat_lt 0 (length (sent_within (pieces_waiting self.old.queue.pending) self.old now).1) ≡ true) }
    {
        let mut any = false;
        while self.next_fits() {
            self.send_one(out, now)?;
            any = true;
        }
        Ok(any)
    }

    // Puts the next piece that waits in flight, and answers whether there was one. Each new piece goes this way, so
    // this function is put into its callers.
    #[inline(always)]
    #[tactic(auto, unfolding(crate::specs::Sender::sent_one))]
    fn send_one(&mut self, out: &mut DataPackets, now: Instant) -> Result<bool, AllocError>
        ensures sender { OnOk result ((sent_one self.old.queue.pending self.old now).0 ≡ self.new) }
        ensures chunks { OnOk result (out.new ≡ with_all out.old (sent_one self.old.queue.pending self.old now).1) }
        ensures any { IfOk result
            (λ any. any ≡ nat_lt 0 (length (sent_one self.old.queue.pending self.old now).1)) }
        ensures pending { OnOk result (self.new.queue.pending ≡ after_piece self.old.queue.pending) }
        ensures grows { OnErr result (is_some (slice_get self.old.queue.pending 0) ≡ true) }
    {
        let Some(message) = self.queue.peek_pending() else {
            return Ok(false);
        };
        let room = data_length(message.user_data.len() as u64);
        let at_once = self.asks_at_once();
        out.add_borrowed(&waiting_chunk(message, self.queue.next_tsn(), at_once))?;
        self.queue.send_next(now)?;
        self.burst_room = self.burst_room.saturating_sub(room);
        Ok(true)
    }

    // Whether the next piece that waits is within both windows, and nothing stands in front of it.
    fn next_fits(&self) -> bool
        ensures { result ≡ can_send_next self.now }
    {
        match self.queue.peek_pending() {
            Some(message) => {
                let length = message.user_data.len() as u64;
                let outstanding = self.queue.inflight_bytes();
                outstanding.saturating_add(length) <= u64::from(self.congestion.cwnd)
                    && length <= u64::from(self.rwnd())
                    && (!self.is_by_rfcs() || self.allows_new(message))
            }
            None => false,
        }
    }

    fn allows_new(&self, message: &PendingMessage) -> bool
        ensures { result ≡ allows_new self.now message.now }
    {
        self.is_past_timeout()
            && self.queue.marked_len() == 0
            && data_length(message.user_data.len() as u64) <= self.burst_room
    }

    // Whether new DATA asks for its SACK at once (RFC 7053).
    fn asks_at_once(&self) -> bool
        ensures { result ≡ asks_at_once self.now }
    {
        self.is_by_rfcs() && u64::from(self.congestion.cwnd) < 3 * u64::from(self.mtu)
    }

    // Whether nothing that T3-rtx had go again is still to be answered.
    fn is_past_timeout(&self) -> bool
        ensures { result ≡ is_past_timeout self.now }
    {
        !self.is_after_timeout || self.queue.flying_bytes() == 0
    }
}

// The room of four packets behind their common headers, in bytes (Max.Burst).
pub(crate) fn burst_of(mtu: u32) -> u64
    ensures { result ≡ burst_of mtu }
{
    4 * u64::from(mtu.saturating_sub(COMMON_HEADER))
}

// Gives an acknowledged piece's bytes back to its stream, those that were outstanding until then. Where the stream
// falls to its low mark it is gathered. Each piece comes here, and one that a gap ack block named comes twice, so this
// function is put into its callers.
#[inline(always)]
pub(crate) fn release(streams: &mut Streams, fallen: &mut Fallen, piece: &InFlight)
    ensures released { streams.new ≡
        released_in streams.old piece.now.message.stream_identifier piece.now.message.generation
        (outstanding_bytes piece.now) }
    ensures gathers { Gathers streams.old fallen.old streams.new fallen.new }
{
    let id = piece.message.stream_identifier;
    let generation = piece.message.generation;
    if streams.release(id, generation, piece.outstanding_bytes()) {
        fallen.add(id);
    }
}

// A piece in flight, as DATA.
pub(crate) fn sent_chunk(piece: &InFlight, tsn: u32, at_once: bool) -> DataRef<'_>
    ensures { result ≡ chunk_of at_once piece.now tsn }
{
    data_chunk(
        &piece.message,
        piece.beginning_fragment,
        piece.ending_fragment,
        at_once,
        &piece.user_data,
        tsn,
    )
}

// The next piece of a message that waits, as DATA.
fn waiting_chunk(message: &PendingMessage, tsn: u32, at_once: bool) -> DataRef<'_>
    ensures { result ≡ next_chunk_of at_once message.now tsn }
{
    data_chunk(
        &message.message,
        !message.begun,
        message.is_last_piece(),
        at_once,
        &message.user_data,
        tsn,
    )
}

fn data_chunk<'a>(
    message: &Attributes,
    beginning_fragment: bool,
    ending_fragment: bool,
    immediate_sack: bool,
    user_data: &'a Bytes,
    tsn: u32,
) -> DataRef<'a>
    ensures { result ≡ data_of message.now beginning_fragment ending_fragment immediate_sack user_data.now tsn }
{
    DataRef {
        unordered: message.unordered,
        beginning_fragment,
        ending_fragment,
        immediate_sack,
        tsn,
        stream_identifier: message.stream_identifier,
        stream_sequence_number: message.stream_sequence_number,
        payload_type: message.payload_type,
        user_data,
    }
}
