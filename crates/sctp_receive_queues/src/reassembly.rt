// The pieces of one stream's messages until they are read.
ghost use Rattle.std.specs.Prelude.{◌≡◌, ◌+◌, ◌-◌, ◌^◌, ◌⊎◌, min, None, Some, IsOk, IfOk, IfErr, OnOk, OnErr, drop};
ghost use Rattle.std.specs.Prelude.{length, slice_get, not, ◌==◌, ◌||◌, ◌<◌};
ghost use Rattle.sctp_receive_queues.specs.Messages.{bytes_left};
ghost use Rattle.sctp_receive_queues.specs.Pieces.{bytes_of};
ghost use Rattle.sctp_receive_queues.specs.Reassembly.{empty_reassembly, with_ordered, with_put, unordered_put};
ghost use Rattle.sctp_receive_queues.specs.Reassembly.{refusal_of_ordered, refusal_of_unordered, saturated_bytes};
ghost use Rattle.sctp_receive_queues.specs.Reassembly.{bytes_waiting, bytes_in_groups, bytes_in_runs};
ghost use Rattle.sctp_receive_queues.specs.Reassembly.{bytes_in_messages, pushed, refusal, is_ready, is_due, ready};
ghost use Rattle.sctp_receive_queues.specs.Reassembly.{taken, next_after_skip, skipped, bounded, unordered_skipped};

use crate::groups::Groups;
use crate::pieces::Pieces;
use crate::{Chunks, runs};
use sctp_wire_types::{ChunkPayloadData, Error, sna16lt, sna16lte};
use std::alloc::Global;
use std::collections::VecDeque;
use std::marker::Model;

/// What came of one stream and was not read: the SSN that is read next, the ordered messages in the order of their
/// SSNs, the pieces of unordered messages that are not complete, and the complete unordered messages in the order of
/// their completion (RFC 4960 sections 6.5, 6.6 and 6.9).
#[derive(Debug, Drop)]
pub struct ReassemblyQueue {
    alloc: Global,
    next_ssn: u16,
    // Whether a message can be read.
    readable: bool,
    // Bytes of all pieces and messages that are held.
    waiting: u64,
    ordered: Groups,
    unordered: VecDeque<Pieces>,
    complete: VecDeque<Chunks>,
}

impl Model for ReassemblyQueue {
    ghost use Rattle.std.specs.Prelude.{◌≡◌, ◌+◌};
    ghost use Rattle.sctp_receive_queues.specs.Reassembly.{Reassembly, bytes_in_groups, bytes_in_runs};
    ghost use Rattle.sctp_receive_queues.specs.Reassembly.{bytes_in_messages, is_ready};

    ghost Value = { Reassembly };

    ghost view = { λ q. record {
      next_ssn = q.next_ssn;
      ordered = q.ordered;
      unordered = q.unordered.items;
      complete = q.complete.items;
    } };

    ghost invariant = { λ q. (q.waiting ≡ bytes_in_groups q.ordered + bytes_in_runs q.unordered.items
        + bytes_in_messages q.complete.items) × (q.readable ≡ is_ready (record {
          next_ssn = q.next_ssn;
          ordered = q.ordered;
          unordered = q.unordered.items;
          complete = q.complete.items;
        })) };
}

impl ReassemblyQueue {
    /// Nothing held, and SSN 0 is next; takes no memory.
    pub fn new(alloc: Global) -> Self
        ensures { result ≡ empty_reassembly }
    {
        ReassemblyQueue {
            alloc,
            next_ssn: 0,
            ordered: Groups::none(alloc),
            unordered: VecDeque::new(alloc),
            complete: VecDeque::new(alloc),
            waiting: 0,
            readable: false,
        }
    }

    /// Keeps a piece, and answers whether it did: not an ordered one of a message before the SSN that is read next.
    /// Refused, with nothing changed, where the pieces held of its message contradict it (`ErrContradictoryPieces`),
    /// where with it they have more than `limit` bytes (`ErrInboundMessageTooLarge`). Where neither holds it is refused
    /// where memory is (`ErrNoMemory`); so too where more bytes would wait than a u64 can say.
    pub fn push(&mut self, piece: ChunkPayloadData, limit: u32) -> Result<bool, Error>
        ensures pushed { IfOk result (λ kept. pushed self.old piece ≡ (self.new, kept)) }
        ensures unchanged { OnErr result (self.new ≡ self.old) }
        ensures taken { IsOk result → refusal self.old piece limit ≡ None }
        ensures refused { IfErr result (λ e. ((e ≡ Error.ErrNoMemory) × (refusal self.old piece limit ≡ None))
            ⊎ (refusal self.old piece limit ≡ Some e)) }
    {
        if piece.unordered {
            self.push_unordered(piece, limit)?;
            return Ok(true);
        }
        if sna16lt(piece.stream_sequence_number, self.next_ssn) {
            return Ok(false);
        }
        self.push_ordered(piece, limit)?;
        Ok(true)
    }

    /// Why the pieces held, or their bytes, refuse a piece (`ErrContradictoryPieces`, `ErrInboundMessageTooLarge`);
    /// None where neither does.
    pub fn refusal(&self, piece: &ChunkPayloadData, limit: u32) -> Option<Error>
        ensures { result ≡ refusal self.now piece.now limit }
    {
        if piece.unordered {
            return runs::refusal_of(&self.unordered, piece, limit);
        }
        if sna16lt(piece.stream_sequence_number, self.next_ssn) {
            return None;
        }
        self.ordered.refusal(piece, limit)
    }

    fn push_ordered(&mut self, piece: ChunkPayloadData, limit: u32) -> Result<(), Error>
        ensures pushed { OnOk result
            (self.new ≡ (let q = self.old in record q { ordered = with_ordered q.ordered piece })) }
        ensures unchanged { OnErr result (self.new ≡ self.old) }
        ensures taken { IsOk result → refusal_of_ordered self.old.ordered piece limit ≡ None }
        ensures refused { IfErr result
            (λ e. ((e ≡ Error.ErrNoMemory) × (refusal_of_ordered self.old.ordered piece limit ≡ None))
            ⊎ (refusal_of_ordered self.old.ordered piece limit ≡ Some e)) }
    {
        let bytes = piece.user_data.len() as u64;
        let Some(waiting) = self.waiting.checked_add(bytes) else {
            return match self.ordered.refusal(&piece, limit) {
                Some(error) => Err(error),
                None => Err(Error::ErrNoMemory),
            };
        };
        let is_first_other = self.ordered.put(self.alloc, piece, limit)?;
        self.waiting = waiting;
        if is_first_other {
            self.readable = is_any_due(&self.complete, &self.ordered, self.next_ssn);
        }
        Ok(())
    }

    fn push_unordered(&mut self, piece: ChunkPayloadData, limit: u32) -> Result<(), Error>
        ensures pushed { OnOk result
            (self.new ≡ with_put self.old (unordered_put self.old.unordered self.old.complete piece)) }
        ensures unchanged { OnErr result (self.new ≡ self.old) }
        ensures taken { IsOk result → refusal_of_unordered self.old.unordered piece limit ≡ None }
        ensures refused { IfErr result
            (λ e. ((e ≡ Error.ErrNoMemory) × (refusal_of_unordered self.old.unordered piece limit ≡ None))
            ⊎ (refusal_of_unordered self.old.unordered piece limit ≡ Some e)) }
    {
        let bytes = piece.user_data.len() as u64;
        let Some(waiting) = self.waiting.checked_add(bytes) else {
            return match runs::refusal_of(&self.unordered, &piece, limit) {
                Some(error) => Err(error),
                None => Err(Error::ErrNoMemory),
            };
        };
        runs::put(
            &mut self.unordered,
            &mut self.complete,
            self.alloc,
            piece,
            limit,
        )?;
        self.waiting = waiting;
        self.readable = is_any_due(&self.complete, &self.ordered, self.next_ssn);
        Ok(())
    }

    /// Whether an unordered message is complete, or the first ordered one held is complete and not past the SSN that is
    /// read next.
    pub fn is_readable(&self) -> bool
        ensures { result ≡ is_ready self.now }
    {
        self.readable
    }

    /// Takes out the next message: complete unordered ones first, in the order of their completion, then the first
    /// ordered one where it is complete and not past the SSN that is read next. One with that SSN moves it by one.
    #[tactic(auto, using(crate::proofs::ReadyMessages::read_gives_the_first))]
    pub fn read(&mut self) -> Option<Chunks>
        ensures taken { taken self.old ≡ (self.new, result) }
        ensures first { result ≡ slice_get (ready self.old) 0 }
        ensures others { ready self.new ≡ drop 1 (ready self.old) }
    {
        self.take_next()
    }

    fn take_next(&mut self) -> Option<Chunks>
        ensures { taken self.old ≡ (self.new, result) }
    {
        if !self.readable {
            return None;
        }
        if !self.complete.is_empty() {
            return self.take_complete();
        }
        let group = self.ordered.pop_first()?;
        if group.ssn() == self.next_ssn {
            self.next_ssn = self.next_ssn.wrapping_add(1);
        }
        self.waiting = self.waiting.saturating_sub(group.bytes());
        self.readable = is_first_due(&self.ordered, self.next_ssn);
        Some(group.into_chunks())
    }

    // Takes out the unordered message that was complete first.
    fn take_complete(&mut self) -> Option<Chunks>
        requires { 0 < length self.old.complete }
        ensures { taken self.old ≡ (self.new, result) }
    {
        let message = self.complete.pop_front()?;
        self.waiting = self.waiting.saturating_sub(message.len() as u64);
        self.readable = is_any_due(&self.complete, &self.ordered, self.next_ssn);
        Some(message)
    }

    /// Drops the incomplete ordered messages up to an SSN; the SSN after it is read next, where that was not past it
    /// (RFC 3758 section 3.6).
    pub fn forward_tsn_for_ordered(&mut self, ssn: u16)
        ensures { self.new ≡ skipped self.old ssn }
    {
        self.ordered.skip(ssn);
        self.next_ssn = past_skip(self.next_ssn, ssn);
        self.waiting = bytes_held(&self.ordered, &self.unordered, &self.complete);
        self.readable = is_any_due(&self.complete, &self.ordered, self.next_ssn);
    }

    /// How far a skip up to an SSN goes among the messages that have no piece above a TSN: the greatest SSN up to this
    /// one that is before every ordered message with such a piece.
    pub fn applicable_forward_tsn_for_ordered_bounded(&self, ssn: u16, tsn: u32) -> u16
        ensures { result ≡ bounded self.now.ordered ssn tsn }
    {
        self.ordered.bound(ssn, tsn)
    }

    /// As `forward_tsn_for_ordered`, but before every ordered message with a piece above the TSN.
    pub fn forward_tsn_for_ordered_bounded(&mut self, ssn: u16, tsn: u32)
        ensures { self.new ≡ skipped self.old (bounded self.old.ordered ssn tsn) }
    {
        let ssn = self.applicable_forward_tsn_for_ordered_bounded(ssn, tsn);
        self.forward_tsn_for_ordered(ssn);
    }

    /// Drops the pieces of incomplete unordered messages that are at or below a TSN (RFC 3758 section 3.6).
    pub fn forward_tsn_for_unordered(&mut self, tsn: u32)
        ensures { self.new ≡ unordered_skipped self.old tsn }
    {
        runs::skip(&mut self.unordered, tsn);
        self.waiting = bytes_held(&self.ordered, &self.unordered, &self.complete);
    }

    /// Bytes of all pieces that came and were not read, of complete messages or not.
    pub fn waiting_bytes(&self) -> u64
        ensures { result ≡ bytes_waiting self.now }
    {
        self.waiting
    }
}

// Whether an unordered message is complete, or the first ordered one is due.
fn is_any_due(complete: &VecDeque<Chunks>, ordered: &Groups, next_ssn: u16) -> bool
    ensures { result ≡ not (length complete.now.items == 0) || is_due next_ssn (slice_get ordered.now 0) }
{
    !complete.is_empty() || is_first_due(ordered, next_ssn)
}

fn is_first_due(ordered: &Groups, next_ssn: u16) -> bool
    ensures { result ≡ is_due next_ssn (slice_get ordered.now 0) }
{
    match ordered.first() {
        Some(first) => sna16lte(first.ssn(), next_ssn) && first.is_complete(),
        None => false,
    }
}

// The SSN that is read next after a skip up to an SSN.
fn past_skip(next_ssn: u16, ssn: u16) -> u16
    ensures { result ≡ next_after_skip next_ssn ssn }
{
    if sna16lte(next_ssn, ssn) {
        ssn.wrapping_add(1)
    } else {
        next_ssn
    }
}

// The bytes of all of these, at most the greatest u64.
fn bytes_held(ordered: &Groups, unordered: &VecDeque<Pieces>, complete: &VecDeque<Chunks>) -> u64
    ensures { result
        ≡ min
        (min (saturated_bytes (λ g. bytes_of g.pieces) ordered.now + saturated_bytes bytes_of unordered.now.items)
        (2 ^ 64 - 1) + saturated_bytes (λ m. length (bytes_left m)) complete.now.items) (2 ^ 64 - 1) }
{
    ordered
        .bytes()
        .saturating_add(in_runs(unordered))
        .saturating_add(in_messages(complete))
}

fn in_runs(unordered: &VecDeque<Pieces>) -> u64
    ensures { result ≡ saturated_bytes bytes_of unordered.now.items }
{
    unordered
        .iter()
        .fold(0u64, |sum, run| sum.saturating_add(run.bytes()))
}

fn in_messages(complete: &VecDeque<Chunks>) -> u64
    ensures { result ≡ saturated_bytes (λ m. length (bytes_left m)) complete.now.items }
{
    complete.iter().fold(
        0u64,
        |sum, message| sum.saturating_add(message.len() as u64),
    )
}
