// The live streams of an association.
ghost use Rattle.std.specs.Prelude.{◌≡◌, ◌==◌, true, false, if◌then◌else◌, length, IfOk, OnOk, OnErr, is_some, IsOk};
ghost use Rattle.std.specs.Prelude.{IfErr, ◌⊎◌, Some, None, min, ◌+◌, ◌-◌, ◌^◌};
ghost use Rattle.std.specs.Option.{option_copied, option_map};
ghost use Rattle.sctp_streams.specs.Streams.{no_stream, stream_at, has_room, made, generation_left, bytes_waiting};
ghost use Rattle.sctp_streams.specs.Streams.{first_ended, changed_stream, released_in, is_generation, pushed_in};
ghost use Rattle.sctp_streams.specs.Streams.{refusal_in, read_in, is_readable_in};
ghost use Rattle.sctp_streams.specs.Streams.{reaches_high_mark_at, falls_to_low_mark_in, live_ids};
ghost use Rattle.sctp_streams.specs.Streams.{some_gives_messages};
ghost use Rattle.sctp_streams.specs.Streams.{becomes_ready_in, given_back_in, passed_in};
ghost use Rattle.sctp_streams.specs.Streams.{bound_of_skip_in, waiting_of, without_stream};
ghost use Rattle.sctp_streams.specs.Stream.{with_halves, with_restarted_ssn, without_read_half};
ghost use Rattle.sctp_streams.specs.Stream.{accepted_by, stream_skipped, with_setting, without_unread};
ghost use Rattle.sctp_streams.specs.LowMarks.{IsGathered};

use crate::table::StreamTable;
use crate::{DataChannelStats, Fallen, Setting, StreamState};
use sctp_receive_queues::Chunks;
use sctp_wire_types::{ChunkPayloadData, Error, PayloadProtocolIdentifier, StreamId};
use std::alloc::{AllocError, Global};
use std::marker::Model;

/// Streams by their identifiers, and the number that the next generation gets.
#[derive(Drop)]
pub struct Streams {
    by_id: StreamTable,
    next_generation: u64,
    // Bytes that came and were not read, of all of these streams.
    waiting: u64,
    // Of these streams, how many give messages when they are read.
    readable: u64,
}

impl Model for Streams {
    ghost use Rattle.std.specs.Prelude.{◌≡◌};
    ghost use Rattle.sctp_streams.specs.Streams.{StreamMap, readable_in, waiting_in};

    ghost Value = { StreamMap };

    ghost view = { λ s. record { by_id = s.by_id; next_generation = s.next_generation } };

    ghost invariant = { λ s. (s.waiting ≡ waiting_in s.by_id) × (s.readable ≡ readable_in s.by_id) };
}

impl Streams {
    /// No stream; takes no memory.
    pub fn new(alloc: Global) -> Self
        ensures { result ≡ no_stream }
    {
        Streams {
            by_id: StreamTable::new(alloc),
            next_generation: 0,
            waiting: 0,
            readable: 0,
        }
    }

    /// Whether a stream of this identifier is live.
    pub fn contains(&self, id: StreamId) -> bool
        ensures { result ≡ is_some (stream_at self.now id) }
    {
        self.by_id.contains(id)
    }

    /// The live stream of this identifier.
    pub fn get(&self, id: StreamId) -> Option<&StreamState>
        ensures { option_copied result ≡ stream_at self.now id }
    {
        self.by_id.get(id)
    }

    /// Counts a message as accepted on a live stream. Refused, with nothing changed, where more bytes would be buffered
    /// there than a u64 can say: that counts as want of memory.
    /// Answers whether the stream's high mark was reached.
    #[tactic(auto, using(std::proofs::lemmas::Map::Steps::set_value_same))]
    pub fn accept(
        &mut self,
        id: StreamId,
        payload_type: PayloadProtocolIdentifier,
        bytes: u64,
    ) -> Result<bool, AllocError>
        ensures accepted { OnOk result (self.new ≡ changed_stream (λ s. accepted_by s payload_type bytes) self.old id) }
        ensures high { IfOk result (λ high. high ≡ reaches_high_mark_at (stream_at self.old id) bytes) }
        ensures refused { OnErr result (has_room (stream_at self.old id) bytes ≡ false) }
        ensures fits { IsOk result → has_room (stream_at self.old id) bytes ≡ true }
        ensures unchanged { OnErr result (self.new ≡ self.old) }
    {
        let Some(stream) = self.by_id.get_mut(id) else {
            return Ok(false);
        };
        let high = stream.accept(payload_type, bytes)?;
        Ok(high)
    }

    /// Sets one thing of a live stream; where none of this identifier is live nothing changes.
    pub fn set(&mut self, id: StreamId, setting: Setting)
        ensures { self.new ≡ changed_stream (λ s. with_setting s setting) self.old id }
    {
        let Some(stream) = self.by_id.get_mut(id) else {
            return;
        };
        stream.set(setting);
    }

    /// Begins to gather the streams that fall to their low mark while bytes are released; takes no memory.
    pub fn watch(&self, alloc: Global) -> Fallen
        ensures { IsGathered self.now self.now result }
    {
        let _count = self.by_id.len();
        Fallen::new(alloc)
    }

    /// Counts bytes of a generation as released, where it is still live. Answers whether its low mark was crossed.
    pub fn release(&mut self, id: StreamId, generation: u64, bytes: u64) -> bool
        ensures released { self.new ≡ released_in self.old id generation bytes }
        ensures low { result ≡ falls_to_low_mark_in self.old id generation bytes }
    {
        if !self.is_live(id, generation) {
            return false;
        }
        let Some(stream) = self.by_id.get_mut(id) else {
            return false;
        };
        stream.on_buffer_released(bytes)
    }

    fn is_live(&self, id: StreamId, generation: u64) -> bool
        ensures { result ≡ is_generation (stream_at self.now id) generation }
    {
        match self.get(id) {
            Some(stream) => stream.stats().generation == generation,
            None => false,
        }
    }

    /// Keeps a piece that came on a live stream, and answers whether it did; false where the stream is not live.
    /// Where it is refused nothing changes. Where more bytes would wait than a u64 can say, that counts as want of
    /// memory.
    // It is put into its caller, so that the piece is not handed on once more.
    #[inline(always)]
    #[tactic(auto, using(std::proofs::lemmas::Map::Steps::set_value_same))]
    pub fn push(&mut self, id: StreamId, piece: ChunkPayloadData, limit: u32) -> Result<bool, Error>
        ensures pushed { IfOk result (λ kept. pushed_in self.old id piece ≡ (self.new, kept)) }
        ensures unchanged { OnErr result (self.new ≡ self.old) }
        ensures taken { IsOk result → refusal_in self.old id piece limit ≡ None }
        ensures refused { IfErr result (λ e. ((e ≡ Error.ErrNoMemory) × (refusal_in self.old id piece limit ≡ None))
            ⊎ (refusal_in self.old id piece limit ≡ Some e)) }
    {
        let Some(stream) = self.by_id.get_mut(id) else {
            return Ok(false);
        };
        let Some(waiting) = self.waiting.checked_add(piece.user_data.len() as u64) else {
            return match stream.refusal(&piece, limit) {
                Some(error) => Err(error),
                None => Err(Error::ErrNoMemory),
            };
        };
        let gave = stream.gives_messages();
        let kept = stream.push(piece, limit)?;
        let gives = stream.gives_messages();
        self.readable = recounted(self.readable, gave, gives, self.by_id.len() as u64);
        if kept {
            self.waiting = waiting;
        }
        Ok(kept)
    }

    /// Takes out the message of a live stream that is to be read next.
    // It is put into its callers, so that the message is not handed on once more.
    #[inline(always)]
    pub fn read(&mut self, id: StreamId) -> Option<Chunks>
        ensures { read_in self.old id ≡ (self.new, result) }
    {
        let stream = self.by_id.get_mut(id)?;
        let gave = stream.gives_messages();
        let read = stream.read();
        let still_gives = stream.gives_messages();
        self.readable = recounted(self.readable, gave, still_gives, self.by_id.len() as u64);
        let message = read?;
        self.waiting = self.waiting.saturating_sub(message.len() as u64);
        Some(message)
    }

    /// A FORWARD TSN passed over the ordered messages of a live stream up to an SSN: incomplete ones are dropped (RFC
    /// 3758 section 3.6). Answers whether a message can be read there now where none could be. Goes over the ordered
    /// messages that wait there.
    pub fn skip(&mut self, id: StreamId, ssn: u16) -> bool
        ensures skipped { self.new ≡ changed_stream (stream_skipped ssn) self.old id }
        ensures ready { result ≡ becomes_ready_in self.old id ssn }
    {
        let Some(stream) = self.by_id.get_mut(id) else {
            return false;
        };
        let was_readable = stream.is_readable();
        let gave = stream.gives_messages();
        let held = stream.waiting_bytes();
        stream.skip(ssn);
        let is_readable = stream.is_readable();
        let gives = stream.gives_messages();
        let dropped = held.saturating_sub(stream.waiting_bytes());
        self.readable = recounted(self.readable, gave, gives, self.by_id.len() as u64);
        self.waiting = self.waiting.saturating_sub(dropped);
        !was_readable && is_readable
    }

    /// A FORWARD TSN passed over the pieces of incomplete unordered messages up to a TSN, which are dropped on all live
    /// streams (RFC 3758 section 3.6). Goes over all of them.
    pub fn skip_unordered(&mut self, tsn: u32)
        ensures { self.new ≡ passed_in self.old tsn }
    {
        self.by_id.skip_unordered(tsn);
        self.waiting = self.by_id.waiting_bytes();
    }

    /// A message was dropped before any of it was sent (RFC 3758 section 3.5): where its generation is still live, its
    /// bytes are released, and the SSN of an ordered one goes to the next message. Answers whether the low mark was
    /// crossed.
    pub fn give_back(&mut self, id: StreamId, generation: u64, unordered: bool, bytes: u64) -> bool
        ensures released { self.new ≡ given_back_in self.old id generation unordered bytes }
        ensures low { result ≡ falls_to_low_mark_in self.old id generation bytes }
    {
        if !self.is_live(id, generation) {
            return false;
        }
        let Some(stream) = self.by_id.get_mut(id) else {
            return false;
        };
        stream.give_back(unordered, bytes)
    }

    /// Whether a stream is live and a message of it can be read.
    pub fn is_readable(&self, id: StreamId) -> bool
        ensures { result ≡ is_readable_in self.now id }
    {
        match self.get(id) {
            Some(stream) => stream.is_readable(),
            None => false,
        }
    }

    /// Whether a read on some live stream gives a message; no stream is looked at.
    pub fn gives_messages(&self) -> bool
        ensures { result ≡ some_gives_messages self.now }
    {
        self.readable > 0
    }

    /// Whether a generation is left that a new stream can have.
    pub fn has_generation(&self) -> bool
        ensures { result ≡ generation_left self.now }
    {
        self.next_generation < u64::MAX
    }

    /// Makes a stream, in the next generation; a live one of this identifier is replaced. `first_message_id` is the
    /// identifier that the next message gets.
    /// Refused, with nothing changed, where no generation is left (`ErrStreamCreateFailed`), and where memory is
    /// (`ErrNoMemory`).
    pub fn make(
        &mut self,
        alloc: Global,
        id: StreamId,
        first_message_id: u64,
        default_payload_type: PayloadProtocolIdentifier,
    ) -> Result<(), Error>
        ensures ok { OnOk result (self.new ≡ made self.old id first_message_id default_payload_type) }
        ensures left { IsOk result → generation_left self.old ≡ true }
        ensures refused { IfErr result
            (λ e. e ≡ (if generation_left self.old then Error.ErrNoMemory else Error.ErrStreamCreateFailed)) }
        ensures err { OnErr result (self.new ≡ self.old) }
    {
        if !self.has_generation() {
            return Err(Error::ErrStreamCreateFailed);
        }
        let stream = StreamState::new(
            alloc,
            id,
            self.next_generation,
            first_message_id,
            default_payload_type,
        );
        if let Some(replaced) = self.by_id.insert(alloc, id, stream)? {
            self.waiting = self.waiting.saturating_sub(replaced.waiting_bytes());
            let gave = one_if(replaced.gives_messages());
            self.readable = self.readable.saturating_sub(gave);
        }
        self.next_generation += 1;
        Ok(())
    }

    /// Bytes that came and were not read, of all streams, at most the greatest u64.
    pub fn waiting_bytes(&self) -> u64
        ensures { result ≡ bytes_waiting self.now }
    {
        self.waiting
    }

    /// The identifiers of the live streams, which ascend. Refused only for want of memory.
    pub fn ids(&self, alloc: Global) -> Result<Vec<StreamId>, AllocError>
        ensures { IfOk result (λ ids. ids.items ≡ live_ids self.now) }
    {
        self.by_id.ids(alloc)
    }

    /// Number of live streams.
    pub fn len(&self) -> usize
        ensures { result ≡ length self.now.by_id }
    {
        self.by_id.len()
    }

    /// Whether no stream is live.
    pub fn is_empty(&self) -> bool
        ensures { result ≡ (length self.now.by_id == 0) }
    {
        self.by_id.is_empty()
    }

    /// Ends the live stream of an identifier and gives its last counters; None where it is not live.
    pub fn end(&mut self, id: StreamId) -> Option<DataChannelStats>
        ensures stats { result ≡ option_map (λ s. s.stats) (stream_at self.old id) }
        ensures left { self.new ≡ without_stream self.old id }
    {
        let ended = self.by_id.remove(id)?;
        self.waiting = self.waiting.saturating_sub(ended.waiting_bytes());
        let gave = one_if(ended.gives_messages());
        self.readable = self.readable.saturating_sub(gave);
        Some(ended.stats())
    }

    /// The own reset of a live stream ended in success: its SSNs begin again at 0 (RFC 6525 section 5.1.2). Where the
    /// stream is not live nothing changes.
    pub fn restart_ssn(&mut self, id: StreamId)
        ensures { self.new ≡ changed_stream with_restarted_ssn self.old id }
    {
        let Some(stream) = self.by_id.get_mut(id) else {
            return;
        };
        stream.restart_ssn();
    }

    /// Closes the read half of a live stream: no read gives a message from then on. Where the stream is not live
    /// nothing changes.
    pub fn close_read_half(&mut self, id: StreamId)
        ensures { self.new ≡ changed_stream (λ s. with_halves s (without_read_half s.halves)) self.old id }
    {
        let Some(stream) = self.by_id.get_mut(id) else {
            return;
        };
        let gave = stream.gives_messages();
        stream.close_read_half();
        self.readable = recounted(self.readable, gave, false, self.by_id.len() as u64);
    }

    /// Drops all that waits to be read on a live stream; the message of SSN 0 is read next. Where the stream is not
    /// live nothing changes.
    pub fn drop_unread(&mut self, alloc: Global, id: StreamId)
        ensures { self.new ≡ changed_stream without_unread self.old id }
    {
        let Some(stream) = self.by_id.get_mut(id) else {
            return;
        };
        let gave = stream.gives_messages();
        let dropped = stream.waiting_bytes();
        stream.drop_unread(alloc);
        self.readable = recounted(self.readable, gave, false, self.by_id.len() as u64);
        self.waiting = self.waiting.saturating_sub(dropped);
    }

    /// How far a skip up to an SSN goes on a live stream among the messages that have no piece above a TSN: the
    /// greatest SSN up to this one that is before every ordered message with such a piece. The SSN itself where the
    /// stream is not live. Goes over the ordered messages that wait there.
    pub fn bound_of_skip(&self, id: StreamId, ssn: u16, tsn: u32) -> u16
        ensures { result ≡ bound_of_skip_in self.now id ssn tsn }
    {
        match self.get(id) {
            Some(stream) => stream.bound_of_skip(ssn, tsn),
            None => ssn,
        }
    }

    /// Bytes that came on a live stream and were not read; 0 where it is not live.
    pub fn waiting_bytes_of(&self, id: StreamId) -> u64
        ensures { result ≡ waiting_of self.now id }
    {
        match self.get(id) {
            Some(stream) => stream.waiting_bytes(),
            None => 0,
        }
    }

    /// Ends the live stream with the least identifier and gives its last counters.
    pub fn end_first(&mut self) -> Option<DataChannelStats>
        ensures { first_ended self.old ≡ (self.new, result) }
    {
        let stream = self.by_id.pop_first()?;
        self.waiting = self.waiting.saturating_sub(stream.waiting_bytes());
        let gave = one_if(stream.gives_messages());
        self.readable = self.readable.saturating_sub(gave);
        Some(stream.stats())
    }
}

// How many of so many streams give messages, once a single one of them changed: it gave some before or did not, and
// gives some now or does not.
fn recounted(readable: u64, gave: bool, gives: bool, streams: u64) -> u64
    ensures { result ≡ min (min (readable + (if gives then 1 else 0)) (2 ^ 64 - 1) - (if gave then 1 else 0)) streams }
{
    let more = readable.saturating_add(one_if(gives));
    more.saturating_sub(one_if(gave)).min(streams)
}

// What a single stream adds to such a count.
fn one_if(gives: bool) -> u64
    ensures { result ≡ (if gives then 1 else 0) }
{
    if gives { 1 } else { 0 }
}
