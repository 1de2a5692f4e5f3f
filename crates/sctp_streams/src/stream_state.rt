// One live stream.
ghost use Rattle.std.specs.Prelude.{if◌then◌else◌, ◌≡◌, ◌+◌, ◌<◌, ◌≤◌, ◌^◌, IfOk, IfErr, OnOk, OnErr, IsOk, ◌⊎◌, Some};
ghost use Rattle.std.specs.Prelude.{None};
ghost use Rattle.sctp_streams.specs.Stream.{fresh_stream, params_for, accepted_by, reaches_high_mark, released_from};
ghost use Rattle.sctp_streams.specs.Stream.{falls_to_low_mark, with_ssn_given_back, with_restarted_ssn, with_setting};
ghost use Rattle.sctp_streams.specs.Stream.{with_halves, without_read_half, is_read_half_open, gives_messages};
ghost use Rattle.sctp_streams.specs.Stream.{is_write_half_open, stream_passed, stream_pushed, stream_read};
ghost use Rattle.sctp_streams.specs.Stream.{stream_skipped, without_unread};
ghost use Rattle.sctp_receive_queues.specs.Reassembly.{bounded, is_ready, bytes_waiting, refusal};

use crate::{DataChannelStats, RecvSendState, ReliabilityParams, Setting};
use sctp_receive_queues::{Chunks, ReassemblyQueue};
use sctp_wire_types::{ChunkPayloadData, Error, PayloadProtocolIdentifier, StreamId};
use std::alloc::{AllocError, Global};
use std::marker::Model;

/// A stream as it stands: its counters, its halves, how it sends, and what waits for its reader.
#[derive(Debug, Drop)]
pub struct StreamState {
    stats: DataChannelStats,
    // Messages of this generation have this identifier or a greater one.
    first_message_id: u64,
    default_payload_type: PayloadProtocolIdentifier,
    halves: RecvSendState,
    params: ReliabilityParams,
    next_ssn: u16,
    // Bytes of this generation's messages that were accepted and are not released.
    buffered: u64,
    low_mark: u64,
    high_mark: u64,
    reassembly: ReassemblyQueue,
}

impl Model for StreamState {
    ghost use Rattle.sctp_streams.specs.Stream.{StreamView};

    ghost Value = { StreamView };

    ghost view = { λ s. record {
      stats = s.stats;
      first_message_id = s.first_message_id;
      default_payload_type = s.default_payload_type;
      halves = s.halves;
      params = s.params;
      next_ssn = s.next_ssn;
      buffered = s.buffered;
      low_mark = s.low_mark;
      high_mark = s.high_mark;
      reassembly = s.reassembly;
    } };
}

impl StreamState {
    /// A stream that carried nothing yet: both halves are open, messages are ordered and reliable, the low mark is 0
    /// bytes and the high mark the greatest u64. `first_message_id` is the identifier that the next message gets. Takes
    /// no memory.
    pub fn new(
        alloc: Global,
        id: StreamId,
        generation: u64,
        first_message_id: u64,
        default_payload_type: PayloadProtocolIdentifier,
    ) -> Self
        ensures { result ≡ fresh_stream id generation first_message_id default_payload_type }
    {
        StreamState {
            stats: DataChannelStats::new(id, generation),
            first_message_id,
            default_payload_type,
            halves: RecvSendState::ReadWritable,
            params: ReliabilityParams::ordered_and_reliable(),
            next_ssn: 0,
            buffered: 0,
            low_mark: 0,
            high_mark: u64::MAX,
            reassembly: ReassemblyQueue::new(alloc),
        }
    }

    /// The least identifier that a message of this generation can have.
    pub fn first_message_id(&self) -> u64
        ensures { result ≡ self.now.first_message_id }
    {
        self.first_message_id
    }

    /// Counters of this generation.
    pub fn stats(&self) -> DataChannelStats
        ensures { result ≡ self.now.stats }
    {
        self.stats
    }

    /// The payload type of messages that are written without one.
    pub fn default_payload_type(&self) -> PayloadProtocolIdentifier
        ensures { result ≡ self.now.default_payload_type }
    {
        self.default_payload_type
    }

    /// The SSN that the next ordered message gets.
    pub fn next_ssn(&self) -> u16
        ensures { result ≡ self.now.next_ssn }
    {
        self.next_ssn
    }

    /// Bytes that were accepted and are not released.
    pub fn buffered_amount(&self) -> u64
        ensures { result ≡ self.now.buffered }
    {
        self.buffered
    }

    /// Which halves are open.
    pub fn halves(&self) -> RecvSendState
        ensures { result ≡ self.now.halves }
    {
        self.halves
    }

    /// Whether messages can be read.
    pub fn is_read_half_open(&self) -> bool
        ensures { result ≡ is_read_half_open self.now.halves }
    {
        self.halves.is_read_half_open()
    }

    /// Whether messages can be written.
    pub fn is_write_half_open(&self) -> bool
        ensures { result ≡ is_write_half_open self.now.halves }
    {
        self.halves.is_write_half_open()
    }

    /// Closes the read half; the write half stays as it is.
    pub fn close_read_half(&mut self)
        ensures { self.new ≡ with_halves self.old (without_read_half self.old.halves) }
    {
        self.halves = self.halves.without_read_half();
    }

    /// Sets one thing of this stream; all else stays as it is.
    pub fn set(&mut self, setting: Setting)
        ensures { self.new ≡ with_setting self.old setting }
    {
        match setting {
            Setting::DefaultPayloadType(kind) => self.default_payload_type = kind,
            Setting::Reliability(params) => self.params = params,
            Setting::LowMark(bytes) => self.low_mark = bytes,
            Setting::HighMark(bytes) => self.high_mark = bytes,
            Setting::WriteHalfClosed => self.halves = self.halves.without_write_half(),
        }
    }

    /// Order and reliability of a message that is written now: one of the data channel establishment protocol is
    /// ordered and reliable (RFC 8832 section 6), any other is as the stream says.
    pub fn params_for(&self, payload_type: PayloadProtocolIdentifier) -> ReliabilityParams
        ensures { result ≡ params_for self.now payload_type }
    {
        match payload_type {
            PayloadProtocolIdentifier::Dcep => ReliabilityParams::ordered_and_reliable(),
            _ => self.params,
        }
    }

    /// A release that takes the buffered amount from above this many bytes to it or below is told.
    pub fn low_mark(&self) -> u64
        ensures { result ≡ self.now.low_mark }
    {
        self.low_mark
    }

    /// A write that takes the buffered amount from below this many bytes to it or above is told.
    pub fn high_mark(&self) -> u64
        ensures { result ≡ self.now.high_mark }
    {
        self.high_mark
    }

    /// Counts a message of `bytes` bytes as accepted; an ordered one has the SSN that was next. Answers whether the
    /// high mark was reached. Refused, with nothing changed, where more bytes would be buffered than a u64 can say:
    /// that counts as want of memory.
    pub fn accept(
        &mut self,
        payload_type: PayloadProtocolIdentifier,
        bytes: u64,
    ) -> Result<bool, AllocError>
        ensures accepted { OnOk result (self.new ≡ accepted_by self.old payload_type bytes) }
        ensures high { IfOk result (λ high. high ≡ reaches_high_mark self.old bytes) }
        ensures refused { OnErr result (2 ^ 64 ≤ self.old.buffered + bytes) }
        ensures fits { IsOk result → self.old.buffered + bytes < 2 ^ 64 }
        ensures unchanged { OnErr result (self.new ≡ self.old) }
    {
        let before = self.buffered;
        let Some(buffered) = before.checked_add(bytes) else {
            return Err(AllocError);
        };
        if !self.params_for(payload_type).unordered {
            self.next_ssn = self.next_ssn.wrapping_add(1);
        }
        self.buffered = buffered;
        self.stats.count_sent(payload_type, bytes);
        Ok(before < self.high_mark && self.high_mark <= self.buffered)
    }

    /// Whether so many bytes more take the buffered amount from below the high mark to it or above.
    pub fn reaches_high_mark(&self, bytes: u64) -> bool
        requires { self.now.buffered + bytes < 2 ^ 64 }
        ensures { result ≡ reaches_high_mark self.now bytes }
    {
        self.buffered < self.high_mark && self.high_mark <= self.buffered + bytes
    }

    /// Counts bytes as released, and answers whether the low mark was crossed.
    pub fn on_buffer_released(&mut self, bytes: u64) -> bool
        ensures released { self.new ≡ released_from self.old bytes }
        ensures low { result ≡ falls_to_low_mark self.old bytes }
    {
        let before = self.buffered;
        self.buffered = self.buffered.saturating_sub(bytes);
        self.low_mark < before && self.buffered <= self.low_mark
    }

    /// The SSN of an ordered message that was dropped before any of it was sent goes to the next message.
    pub fn give_back_ssn(&mut self)
        ensures { self.new ≡ with_ssn_given_back self.old }
    {
        self.next_ssn = self.next_ssn.wrapping_sub(1);
    }

    /// A message was dropped before any of it was sent: its bytes are released, and the SSN of an ordered one goes to
    /// the next message. Answers whether the low mark was crossed.
    pub fn give_back(&mut self, unordered: bool, bytes: u64) -> bool
        ensures given { self.new ≡ released_from (if unordered then self.old else with_ssn_given_back self.old) bytes }
        ensures low { result ≡ falls_to_low_mark self.old bytes }
    {
        if !unordered {
            self.give_back_ssn();
        }
        self.on_buffer_released(bytes)
    }

    /// SSNs begin again at 0, after the outgoing stream was reset (RFC 6525 section 5.1.2).
    pub fn restart_ssn(&mut self)
        ensures { self.new ≡ with_restarted_ssn self.old }
    {
        self.next_ssn = 0;
    }

    /// Why what is held of this stream refuses a piece, if it does.
    pub fn refusal(&self, piece: &ChunkPayloadData, limit: u32) -> Option<Error>
        ensures { result ≡ refusal self.now.reassembly piece.now limit }
    {
        self.reassembly.refusal(piece, limit)
    }

    /// Keeps a message that came, where its SSN is not an old one, and answers whether it did.
    pub fn push(&mut self, piece: ChunkPayloadData, limit: u32) -> Result<bool, Error>
        ensures pushed { IfOk result (λ kept. stream_pushed self.old piece ≡ (self.new, kept)) }
        ensures unchanged { OnErr result (self.new ≡ self.old) }
        ensures taken { IsOk result → refusal self.old.reassembly piece limit ≡ None }
        ensures refused { IfErr result
            (λ e. ((e ≡ Error.ErrNoMemory) × (refusal self.old.reassembly piece limit ≡ None))
            ⊎ (refusal self.old.reassembly piece limit ≡ Some e)) }
    {
        self.reassembly.push(piece, limit)
    }

    /// A FORWARD TSN passed over the ordered messages up to an SSN: incomplete ones are dropped (RFC 3758 section 3.6).
    pub fn skip(&mut self, ssn: u16)
        ensures { self.new ≡ stream_skipped ssn self.old }
    {
        self.reassembly.forward_tsn_for_ordered(ssn);
    }

    /// It passed over the pieces of incomplete unordered messages up to a TSN, which are dropped.
    pub fn skip_unordered(&mut self, tsn: u32)
        ensures { self.new ≡ stream_passed tsn self.old }
    {
        self.reassembly.forward_tsn_for_unordered(tsn);
    }

    /// How far a skip up to an SSN goes among the messages that have no piece above a TSN: the greatest SSN up to this
    /// one that is before every ordered message with such a piece. Goes over the ordered messages that wait.
    pub fn bound_of_skip(&self, ssn: u16, tsn: u32) -> u16
        ensures { result ≡ bounded self.now.reassembly.ordered ssn tsn }
    {
        self.reassembly
            .applicable_forward_tsn_for_ordered_bounded(ssn, tsn)
    }

    /// Drops all that waits to be read; the message of SSN 0 is read next.
    pub fn drop_unread(&mut self, alloc: Global)
        ensures { self.new ≡ without_unread self.old }
    {
        self.reassembly = ReassemblyQueue::new(alloc);
    }

    /// Whether a message can be read.
    pub fn is_readable(&self) -> bool
        ensures { result ≡ is_ready self.now.reassembly }
    {
        self.reassembly.is_readable()
    }

    /// Whether a read gives a message: the read half is open and one is ready.
    pub fn gives_messages(&self) -> bool
        ensures { result ≡ gives_messages self.now }
    {
        self.is_read_half_open() && self.is_readable()
    }

    /// Takes out the message that is to be read next, and counts it.
    pub fn read(&mut self) -> Option<Chunks>
        ensures { stream_read self.old ≡ (self.new, result) }
    {
        let message = self.reassembly.read()?;
        self.stats
            .count_received(message.payload_type(), message.len() as u64);
        Some(message)
    }

    /// Bytes that came and were not read, at most the greatest u64.
    pub fn waiting_bytes(&self) -> u64
        ensures { result ≡ bytes_waiting self.now.reassembly }
    {
        self.reassembly.waiting_bytes()
    }
}
