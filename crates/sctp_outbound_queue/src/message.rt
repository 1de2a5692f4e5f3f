// Messages, cut into pieces, and pieces in flight.
ghost use Rattle.std.specs.Prelude.{◌≡◌, ◌==◌, ◌+◌, ◌-◌, ◌^◌, ◌<◌, ◌≤◌, false, length, min, fold, IfOk, IsOk};
ghost use Rattle.std.specs.List.{concat};
ghost use Rattle.sctp_outbound_queue.specs.Cut.{MayFollow, first_piece, other_pieces};
ghost use Rattle.sctp_outbound_queue.specs.Message.{message_bytes, piece_count, accepted, sent_once, without_piece};
ghost use Rattle.sctp_outbound_queue.specs.Message.{marker_of, is_of, is_of_stream, is_waiting_of_stream};
ghost use Rattle.sctp_outbound_queue.specs.Message.{is_outstanding, outstanding_bytes, flying_bytes, acked};
ghost use Rattle.sctp_outbound_queue.specs.Message.{marked_again, counted_again, data_length, flagged, is_last_report};
ghost use Rattle.sctp_outbound_queue.specs.Message.{is_among, is_reported, misses_after, misses_before, picks};
ghost use Rattle.sctp_outbound_queue.specs.Message.{reported_missing, room_taken, stays_resent};
ghost use Rattle.sctp_outbound_queue.specs.Message.{deadline_under, waiting_started, sent_started, is_expired};
ghost use Rattle.sctp_outbound_queue.specs.Message.{is_expired_piece, is_timed, looked_at};
ghost use Rattle.sctp_outbound_queue.specs.Message.{was_acknowledged};
ghost use Rattle.sctp_outbound_queue.specs.Owed.{has_ssn_of, lowered_by, lowered_in};
ghost use Rattle.sctp_outbound_queue.specs.Message.{soonest, sooner, sooner_of, sooner_piece};

use bytes::Bytes;
use sctp_wire_types::{Instant, PayloadProtocolIdentifier, Policy, StreamId};
use std::alloc::{AllocError, Global};
use std::collections::VecDeque;
use std::marker::Model;
use std::mem;

/// What the pieces of a message have in common.
#[derive(Clone, Copy, Debug)]
pub struct Attributes {
    /// The number of the message among those that were accepted.
    pub message_id: u64,
    pub stream_identifier: StreamId,
    /// The stream generation that accepted the message.
    pub generation: u64,
    pub unordered: bool,
    pub stream_sequence_number: u16,
    pub payload_type: PayloadProtocolIdentifier,
    pub policy: Policy,
    /// When the message is given up, if its time runs.
    pub deadline: Option<Instant>,
}

/// A message as it waits to be sent, or the rest of one. It has one piece at least.
#[derive(Debug, Drop)]
pub struct PendingMessage {
    pub message: Attributes,
    /// A piece of it was sent, so the next one is not its first.
    pub begun: bool,
    /// The piece that is sent next.
    pub user_data: Bytes,
    /// The pieces behind that one, in their order.
    pub rest: VecDeque<Bytes>,
}

impl Model for PendingMessage {
    ghost use Rattle.sctp_outbound_queue.specs.Waiting.{Waiting};

    ghost Value = { Waiting };

    ghost view = { λ m. record {
      message = m.message;
      begun = m.begun;
      user_data = m.user_data;
      rest = m.rest.items;
    } };
}

/// Why a piece is sent again.
#[derive(Clone, Copy, Debug, PartialEq, Eq)]
pub enum Retransmission {
    /// The retransmission timer expired (RFC 4960 section 6.3.3).
    Timer,
    /// SACKs reported it missing three times (RFC 4960 section 7.2.4).
    Fast,
}

/// Which of the pieces in flight a SACK's reports count for.
#[derive(Clone, Copy, Debug, PartialEq, Eq)]
pub enum Among {
    /// Those that are outstanding.
    Outstanding,
    /// Those that fly, which are outstanding and not marked to be sent again, but for those that were sent again.
    NotResent,
    /// Those that fly. One that was sent again counts its reports from this one on.
    Flying,
}

/// What a SACK reports missing of the pieces in flight (RFC 4960 section 7.2.4).
#[derive(Clone, Copy, Debug, PartialEq, Eq)]
pub struct Reports {
    /// It reports so many, from the first one on.
    pub count: usize,
    /// Those of them that it counts for.
    pub among: Among,
    /// So many reports have a piece go again, from 1 to 3.
    pub enough: u8,
}

/// A piece that was sent and is not acknowledged cumulatively, or a marker: what stands for the unsent pieces of an
/// abandoned message.
#[derive(Debug, Drop)]
pub struct InFlight {
    pub message: Attributes,
    pub beginning_fragment: bool,
    pub ending_fragment: bool,
    pub user_data: Bytes,
    /// How often it was sent, at most the greatest u32; 0 for a marker.
    pub sent_count: u32,
    /// When it was sent first.
    pub since: Instant,
    /// The retransmission timer expired, and since then it was neither sent again nor acknowledged nor abandoned.
    pub retransmit: bool,
    /// A gap ack block named it.
    pub acked: bool,
    pub abandoned: bool,
    /// How many SACKs reported it missing: less than 3, or 3 once they were enough to send it again.
    pub misses: u8,
    /// It was sent again, and no report counted since that tells of that sending.
    pub resent: bool,
}

impl Attributes {
    // It has a lifetime.
    pub(crate) fn is_timed(&self) -> bool
        ensures { result ≡ is_timed self.now.policy }
    {
        match self.policy {
            Policy::Timed(_) => true,
            Policy::Reliable | Policy::Rexmit(_) => false,
        }
    }

    // The next deadline, where its own counts too.
    pub(crate) fn sooner(&self, next: Option<Instant>) -> Option<Instant>
        ensures { result ≡ sooner next self.now }
    {
        match (self.policy, self.deadline) {
            (Policy::Timed(_), Some(deadline)) => Some(sooner_of(next, deadline)),
            _ => next,
        }
    }

    /// Its lifetime is limited, and it is at or past its deadline.
    pub fn is_expired(&self, now: Instant) -> bool
        ensures { result ≡ is_expired now self.now }
    {
        match (self.policy, self.deadline) {
            (Policy::Timed(_), Some(deadline)) => deadline <= now,
            _ => false,
        }
    }

    // When the message is given up, once its time runs from `now` on where it does not run yet.
    fn deadline_from(&self, now: Instant) -> Option<Instant>
        ensures { result ≡ deadline_under self.now.policy now self.now.deadline }
    {
        match (self.policy, self.deadline) {
            (Policy::Timed(millis), None) => Some(now.plus_millis(u64::from(millis))),
            (_, deadline) => deadline,
        }
    }

    // It is of an ordered message of this generation of a stream.
    pub(crate) fn has_ssn_of(&self, stream: StreamId, generation: u64) -> bool
        ensures { result ≡ has_ssn_of stream generation self.now }
    {
        !self.unordered && self.stream_identifier == stream && self.generation == generation
    }
}

impl PendingMessage {
    /// The bytes that wait, at most the greatest u64.
    pub fn bytes(&self) -> u64
        ensures { result ≡ min (message_bytes self.now) (2 ^ 64 - 1) }
    {
        add_bytes(&self.rest, self.user_data.len() as u64)
    }

    /// The number of pieces that wait.
    pub fn piece_count(&self) -> usize
        ensures { result ≡ min (piece_count self.now) (2 ^ 64 - 1) }
    {
        self.rest.len().saturating_add(1)
    }

    /// Whether the piece that is sent next is the message's last.
    pub fn is_last_piece(&self) -> bool
        ensures { result ≡ (length self.now.rest == 0) }
    {
        self.rest.is_empty()
    }

    pub(crate) fn accept(&mut self, message_id: u64)
        ensures { self.new ≡ accepted message_id self.old }
    {
        self.message.message_id = message_id;
        self.message.deadline = None;
        self.begun = false;
    }

    // Takes out the next piece, sent once at `now`; of the last one no bytes are left here.
    pub(crate) fn take_piece(&mut self, now: Instant) -> InFlight
        ensures piece { result ≡ sent_once now self.old }
        ensures left { self.new ≡ without_piece self.old }
    {
        let ending_fragment = self.rest.is_empty();
        let next = match self.rest.pop_front() {
            Some(next) => next,
            None => Bytes::new(),
        };
        let beginning_fragment = !self.begun;
        self.begun = true;
        let user_data = mem::replace(&mut self.user_data, next);
        InFlight::sent(
            self.message,
            beginning_fragment,
            ending_fragment,
            user_data,
            now,
        )
    }

    // Its last piece, sent once at `now`.
    #[inline(always)]
    pub(crate) fn into_last_piece(self, now: Instant) -> InFlight
        requires { length self.rest ≡ 0 }
        ensures { result ≡ sent_once now self }
    {
        let PendingMessage {
            message,
            begun,
            user_data,
            rest: _,
        } = self;
        InFlight::sent(message, !begun, true, user_data, now)
    }

    pub(crate) fn start(&mut self, now: Instant)
        ensures { self.new ≡ waiting_started now self.old }
    {
        self.message.deadline = self.message.deadline_from(now);
    }

    pub(crate) fn is_of_stream(&self, id: StreamId) -> bool
        ensures { result ≡ is_waiting_of_stream id self.now }
    {
        self.message.stream_identifier == id
    }

    // The next deadline, where its own counts too; None: it is expired, and nothing of it was sent.
    pub(crate) fn look(&self, now: Instant, next: &Option<Instant>) -> Option<Option<Instant>>
        ensures { result ≡ looked_at now next.now self.now }
    {
        match (self.message.policy, self.message.deadline) {
            (Policy::Timed(_), Some(deadline)) => {
                if deadline <= now && !self.begun {
                    None
                } else {
                    Some(Some(sooner_of(*next, deadline)))
                }
            }
            _ => Some(*next),
        }
    }

    pub(crate) fn lower_by(&mut self, count: u16)
        ensures { self.new ≡ lowered_by count self.old }
    {
        let ssn = self.message.stream_sequence_number;
        self.message.stream_sequence_number = ssn.wrapping_sub(count);
    }

    // Lowers its SSN where it is an ordered one of this generation of a stream.
    #[inline(always)]
    pub(crate) fn lower_in(&mut self, stream: StreamId, generation: u64, count: u16)
        ensures { self.new ≡ lowered_in stream generation count self.old }
    {
        if self.message.has_ssn_of(stream, generation) {
            self.lower_by(count);
        }
    }
}

impl InFlight {
    // A piece that is sent for the first time.
    #[inline(always)]
    fn sent(
        message: Attributes,
        beginning_fragment: bool,
        ending_fragment: bool,
        user_data: Bytes,
        now: Instant,
    ) -> Self
        ensures { result ≡ record {
          message = message;
          beginning_fragment = beginning_fragment;
          ending_fragment = ending_fragment;
          user_data = user_data;
          sent_count = 1;
          since = now;
          retransmit = false;
          acked = false;
          abandoned = false;
          misses = 0;
          resent = false;
        } }
    {
        InFlight {
            message,
            beginning_fragment,
            ending_fragment,
            user_data,
            sent_count: 1,
            since: now,
            retransmit: false,
            acked: false,
            abandoned: false,
            misses: 0,
            resent: false,
        }
    }

    pub(crate) fn marker(message: Attributes) -> Self
        ensures { result ≡ marker_of message }
    {
        InFlight {
            message,
            beginning_fragment: false,
            ending_fragment: true,
            user_data: Bytes::new(),
            sent_count: 0,
            since: Instant::from_nanos(0),
            retransmit: false,
            acked: false,
            abandoned: true,
            misses: 0,
            resent: false,
        }
    }

    /// Neither acknowledged nor abandoned.
    pub fn is_outstanding(&self) -> bool
        ensures { result ≡ is_outstanding self.now }
    {
        !self.acked && !self.abandoned
    }

    /// Its length in bytes where it is outstanding, else 0.
    pub fn outstanding_bytes(&self) -> u64
        ensures { result ≡ outstanding_bytes self.now }
    {
        if self.is_outstanding() {
            self.user_data.len() as u64
        } else {
            0
        }
    }

    // Its length in bytes where it is outstanding and not marked to be sent again, else 0.
    pub(crate) fn flying_bytes(&self) -> u64
        ensures { result ≡ flying_bytes self.now }
    {
        if self.retransmit {
            0
        } else {
            self.outstanding_bytes()
        }
    }

    pub(crate) fn is_of(&self, message_id: u64) -> bool
        ensures { result ≡ is_of message_id self.now }
    {
        self.message.message_id == message_id
    }

    pub(crate) fn is_of_stream(&self, id: StreamId) -> bool
        ensures { result ≡ is_of_stream id self.now }
    {
        self.message.stream_identifier == id
    }

    pub(crate) fn is_expired(&self, now: Instant) -> bool
        ensures { result ≡ is_expired_piece now self.now }
    {
        !self.abandoned && self.message.is_expired(now)
    }

    // The next deadline, where its own counts too unless it is abandoned.
    pub(crate) fn sooner(&self, next: Option<Instant>) -> Option<Instant>
        ensures { result ≡ sooner_piece next self.now }
    {
        if self.abandoned {
            next
        } else {
            self.message.sooner(next)
        }
    }

    pub(crate) fn acknowledge(&mut self)
        ensures { self.new ≡ acked self.old }
    {
        self.acked = true;
        self.retransmit = false;
    }

    // A gap ack block named it, and it is not marked to be sent again.
    pub(crate) fn was_acknowledged(&self) -> bool
        ensures { result ≡ was_acknowledged self.now }
    {
        self.acked && !self.retransmit
    }

    pub(crate) fn mark(&mut self)
        ensures { self.new ≡ marked_again self.old }
    {
        if self.is_outstanding() {
            self.retransmit = true;
        }
    }

    /// Whether it is sent again for this reason.
    pub fn goes_again(&self, by: Retransmission) -> bool
        ensures { result ≡ picks by self.now }
    {
        match by {
            Retransmission::Timer => self.retransmit,
            Retransmission::Fast => { self.is_outstanding() && !self.resent && self.misses >= 3 }
        }
    }

    /// The room that it takes up of what may be sent again, in bytes.
    pub fn room_taken(&self, by: Retransmission) -> u64
        ensures { result ≡ room_taken by self.now }
    {
        let length = self.user_data.len() as u64;
        match by {
            Retransmission::Timer => length,
            Retransmission::Fast => data_length(length),
        }
    }

    pub(crate) fn resend(&mut self, by: Retransmission)
        ensures { self.new ≡ counted_again by self.old }
    {
        self.sent_count = self.sent_count.saturating_add(1);
        self.resent = true;
        match by {
            Retransmission::Timer => self.retransmit = false,
            Retransmission::Fast => {}
        }
    }

    pub(crate) fn report_missing(&mut self, reports: &Reports)
        ensures { self.new ≡ reported_missing reports.now self.old }
    {
        if self.is_reported(reports) {
            let resent = self.stays_resent(reports.among);
            self.misses = self.misses_after(reports);
            self.resent = resent;
        }
    }

    // Whether a report that counts for it is the last that it takes to send it again.
    pub(crate) fn is_last_report(&self, reports: &Reports) -> bool
        ensures { result ≡ is_last_report reports.now self.now }
    {
        self.is_reported(reports) && self.misses_after(reports) >= 3
    }

    fn is_reported(&self, reports: &Reports) -> bool
        ensures { result ≡ is_reported reports.now self.now }
    {
        self.is_among(reports.among) && self.misses_before(reports.among) < 3
    }

    fn is_among(&self, among: Among) -> bool
        ensures { result ≡ is_among among self.now }
    {
        match among {
            Among::Outstanding => self.is_outstanding(),
            Among::NotResent => self.is_outstanding() && !self.retransmit && !self.resent,
            Among::Flying => self.is_outstanding() && !self.retransmit,
        }
    }

    // How many reports counted so far.
    fn misses_before(&self, among: Among) -> u8
        ensures { result ≡ misses_before among self.now }
    {
        match among {
            Among::Outstanding | Among::NotResent => self.misses,
            Among::Flying => { if self.resent { 0 } else { self.misses } }
        }
    }

    // How many do once one more does.
    fn misses_after(&self, reports: &Reports) -> u8
        ensures { result ≡ misses_after reports.now self.now }
    {
        let misses = self.misses_before(reports.among).saturating_add(1);
        if misses < reports.enough { misses } else { 3 }
    }

    fn stays_resent(&self, among: Among) -> bool
        ensures { result ≡ stays_resent among self.now }
    {
        match among {
            Among::Outstanding | Among::NotResent => self.resent,
            Among::Flying => false,
        }
    }

    pub(crate) fn abandon(&mut self, message_id: u64)
        ensures { self.new ≡ flagged message_id self.old }
    {
        if self.is_of(message_id) {
            self.abandoned = true;
            self.retransmit = false;
        }
    }

    pub(crate) fn start(&mut self, now: Instant)
        ensures { self.new ≡ sent_started now self.old }
    {
        self.message.deadline = self.message.deadline_from(now);
    }
}

pub(crate) fn sooner_of(next: Option<Instant>, deadline: Instant) -> Instant
    ensures { result ≡ sooner_of next deadline }
{
    match next {
        Some(next) if next < deadline => next,
        _ => deadline,
    }
}

// The sooner of two deadlines, of which either may be none.
pub(crate) fn soonest(next: Option<Instant>, other: &Option<Instant>) -> Option<Instant>
    ensures { result ≡ soonest next other.now }
{
    match other {
        Some(deadline) => Some(sooner_of(next, *deadline)),
        None => next,
    }
}

/// The length of a DATA chunk with so many bytes, header and padding included.
pub fn data_length(length: u64) -> u64
    ensures { result ≡ data_length length }
{
    length.saturating_add(19) / 4 * 4
}

/// Cuts the bytes of a message into pieces of `size` bytes, the last one of what is left (RFC 4960 section 6.9): the
/// first piece, and those behind it. For size 0 the whole is one piece. All are cuts of the one buffer, and a message
/// that fits one piece takes no memory.
#[inline(always)]
// It is put into its callers, so that a message of one piece is not handed on once more.
pub fn cut(alloc: Global, bytes: Bytes, size: usize) -> Result<(Bytes, VecDeque<Bytes>), AllocError>
    ensures first { IfOk result (λ p. p.0 ≡ first_piece size bytes) }
    ensures rest { IfOk result (λ p. p.1.items ≡ other_pieces size bytes) }
    ensures fits { length bytes ≤ size → IsOk result }
{
    if size == 0 {
        return Ok((bytes, VecDeque::new(alloc)));
    }
    // A message of one piece is that piece as it is, with no cut made of it.
    if bytes.len() <= size {
        return Ok((bytes, VecDeque::new(alloc)));
    }
    let mut left = bytes;
    let first = left.split_to(size.min(left.len()))?;
    let rest = cut_behind(alloc, left, size)?;
    Ok((first, rest))
}

// Cuts what is behind a piece of `size` bytes.
fn cut_behind(alloc: Global, bytes: Bytes, size: usize) -> Result<VecDeque<Bytes>, AllocError>
    requires { 0 < size }
    ensures whole { IfOk result (λ p. concat p.items ≡ bytes) }
    ensures follow { IfOk result (λ p. MayFollow size p.items) }
    ensures none { length bytes ≡ 0 → IsOk result }
{
    let mut left = bytes;
    let mut rest = VecDeque::new(alloc);
    'pieces: while !left.is_empty() {
        let piece = left.split_to(size.min(left.len()))?;
        rest.push_back(piece)?;
    }
    Ok(rest)
}

// The bytes of the pieces beside so many others, at most the greatest u64.
fn add_bytes(pieces: &VecDeque<Bytes>, others: u64) -> u64
    ensures { result ≡ fold (λ sum piece. min (sum + length piece) (2 ^ 64 - 1)) others pieces.now.items }
{
    if pieces.is_empty() {
        return others;
    }
    pieces.iter().fold(others, |sum, piece| {
        sum.saturating_add(piece.len() as u64)
    })
}
