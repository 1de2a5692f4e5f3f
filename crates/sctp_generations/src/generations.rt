// What is kept of the generations of streams beside the live ones.
ghost use Rattle.std.specs.Prelude.{◌≡◌, OnOk, OnErr, IfOk, length, nat_lt, true, if◌then◌else◌};
ghost use Rattle.sctp_receive_queues.specs.Pieces.{bytes_of};
ghost use Rattle.sctp_generations.specs.Generations.{no_generations, retires, is_hidden, with_deferred, with_skip};
ghost use Rattle.sctp_generations.specs.Generations.{retirement_of, retired, without_newest, drained, readable_end};
ghost use Rattle.sctp_generations.specs.Generations.{given_to, after_given_to, given_to_all, after_given_to_all};
ghost use Rattle.sctp_generations.specs.Generations.{skips_given_to, after_skips_given_to, discarded, with_boundary};
ghost use Rattle.sctp_generations.specs.Generations.{with_kept_skip, has_skips, has_retiring, without_newest_of};
ghost use Rattle.sctp_generations.specs.Generations.{has_newest};
ghost use Rattle.sctp_generations.specs.Retiring.{count_at};
ghost use Rattle.sctp_generations.specs.Later.{AreWithLater, has_later};
ghost use Rattle.sctp_generations.specs.declared.retirement.Retirement.TheVariants.{Ended, Retires, Unchanged};
ghost use Rattle.sctp_generations.specs.Skips.{skip_ids};
ghost use Rattle.sctp_generations.specs.Spans.{span_of};
ghost use Rattle.sctp_generations.specs.Generations.{refusal_of, newest_span, skipped, unordered_skipped};

use crate::Retirement;
use crate::deferred::{Deferred, Due, is_up_to};
use crate::kept::Kept;
use crate::retiring::Retiring;
use crate::skips::{KeptSkip, KeptSkips};
use crate::span::Span;
use sctp_wire_types::{ChunkPayloadData, Error, StreamId};
use std::alloc::{AllocError, Global};
use std::collections::{BTreeSet, VecDeque};
use std::marker::Model;

/// The generations of streams that ended and are still read, and what came for those behind them. What is in no reset
/// costs a look-up among the streams that retire.
#[derive(Debug, Drop)]
pub struct Generations {
    alloc: Global,
    retiring: Retiring,
    deferred: Deferred,
    skips: KeptSkips,
}

impl Model for Generations {
    ghost use Rattle.sctp_generations.specs.Generations.{GenerationsView};

    ghost Value = { GenerationsView };

    ghost view = { λ g. record { retiring = g.retiring; deferred = g.deferred; skips = g.skips } };
}

impl Generations {
    /// Nothing is kept; takes no memory.
    pub fn new(alloc: Global) -> Self
        ensures { result ≡ no_generations }
    {
        Generations {
            alloc,
            retiring: Retiring::new(alloc),
            deferred: Deferred::new(alloc),
            skips: KeptSkips::new(alloc),
        }
    }

    /// Whether a generation of a stream ended and is still read. Such a stream is neither opened nor written.
    pub fn is_blocked(&self, id: StreamId) -> bool
        ensures { result ≡ retires self.now id }
    {
        self.retiring.contains(id)
    }

    /// Whether new DATA of a stream is of a generation that is not read yet. `in_progress` is the last TSN of a request
    /// in progress that names the stream.
    pub fn is_hidden(&self, id: StreamId, tsn: u32, in_progress: Option<u32>) -> bool
        ensures { result ≡ is_hidden self.now id tsn in_progress }
    {
        self.retiring.contains(id) || !is_up_to(in_progress, tsn)
    }

    /// The bytes of all DATA that waits here.
    pub fn waiting_bytes(&self) -> u64
        ensures { result ≡ bytes_of self.now.deferred }
    {
        self.deferred.bytes()
    }

    /// Keeps DATA of a generation that is not read yet. Where memory is refused nothing changes; more bytes than a u64
    /// can say count as that.
    pub fn defer(&mut self, chunk: ChunkPayloadData) -> Result<(), AllocError>
        ensures ok { OnOk result (self.new ≡ with_deferred self.old chunk) }
        ensures err { OnErr result (self.new ≡ self.old) }
    {
        self.deferred.put(chunk)
    }

    /// Keeps a skip of the newest generation of a stream. Where memory is refused nothing changes.
    pub fn defer_skip(&mut self, id: StreamId, ssn: u16, tsn: u32) -> Result<(), AllocError>
        ensures ok { OnOk result (self.new ≡ with_skip self.old id ssn tsn) }
        ensures err { OnErr result (self.new ≡ self.old) }
    {
        self.skips.keep(KeptSkip {
            id,
            boundary: None,
            ssn,
            tsn,
        })
    }

    /// Keeps a skip again that did not reach its SSN when it was applied. Where memory is refused nothing changes.
    pub fn keep_skip(&mut self, skip: KeptSkip) -> Result<(), AllocError>
        ensures ok { OnOk result (self.new ≡ with_kept_skip self.old skip) }
        ensures err { OnErr result (self.new ≡ self.old) }
    {
        self.skips.keep(skip)
    }

    /// Whether a skip is kept.
    pub fn has_skips(&self) -> bool
        ensures { result ≡ has_skips self.now }
    {
        !self.skips.is_empty()
    }

    /// The streams of which a skip is kept, ascending. Walks over all skips.
    pub fn skip_ids(&self, alloc: Global) -> Result<BTreeSet<StreamId>, AllocError>
        ensures { IfOk result (λ ids. ids.keys ≡ skip_ids self.now.skips) }
    {
        self.skips.ids(alloc)
    }

    /// Whether a generation of some stream ended and is still read.
    pub fn has_retiring(&self) -> bool
        ensures { result ≡ has_retiring self.now }
    {
        !self.retiring.is_empty()
    }

    /// How many generations of a stream ended and are not drained.
    pub fn count(&self, id: StreamId) -> usize
        ensures { result ≡ count_at self.now.retiring id }
    {
        self.retiring.count(id)
    }

    /// What was to be skipped of the newest generations of these streams, or where the set is empty of all, is skipped
    /// no more. Walks over all skips.
    pub fn end_newest_of(&mut self, ids: &BTreeSet<StreamId>)
        ensures { self.new ≡ without_newest_of self.old ids.now.keys }
    {
        self.skips.drop_newest(ids);
    }

    /// Why the DATA that waits of its generation refuses DATA that is new: the pieces of a message contradict one
    /// another, or it gets too long; None where it does not. `in_progress` is as for `is_hidden`. Goes over all DATA
    /// that waits, and takes a copy of each piece of the generation, which shares its bytes.
    pub fn refusal(
        &self,
        piece: &ChunkPayloadData,
        in_progress: Option<u32>,
        limit: u32,
    ) -> Result<Option<Error>, AllocError>
        ensures { IfOk result (λ refusal. refusal ≡ refusal_of self.now piece.now in_progress limit) }
    {
        let span = self.span_of(piece.stream_identifier, piece.tsn, in_progress);
        self.deferred.refusal(self.alloc, piece, span, limit)
    }

    fn span_of(&self, id: StreamId, tsn: u32, in_progress: Option<u32>) -> Span
        ensures { result ≡ span_of self.now.retiring id tsn in_progress }
    {
        self.retiring.span_of(id, tsn).ended_by(tsn, in_progress)
    }

    /// A FORWARD TSN passed over the ordered messages of the newest generation of a stream up to an SSN: the pieces at
    /// or below its TSN of those that are not whole are dropped, and it is kept for when that generation is read.
    /// `in_progress` is as for `is_hidden`. Where memory is refused nothing changes. Goes over all DATA that waits,
    /// with look-ups for each piece where one may be dropped; takes a copy of each that stays, which shares its bytes.
    pub fn skip(
        &mut self,
        id: StreamId,
        ssn: u16,
        tsn: u32,
        in_progress: Option<u32>,
    ) -> Result<(), AllocError>
        ensures ok { OnOk result (self.new ≡ skipped self.old id ssn tsn in_progress) }
        ensures err { OnErr result (self.new ≡ self.old) }
    {
        let span = self.newest_span(id, in_progress);
        let left = self
            .deferred
            .kept(self.alloc, Kept::Unskipped(id, span, ssn, tsn))?;
        self.defer_skip(id, ssn, tsn)?;
        self.deferred = left;
        Ok(())
    }

    fn newest_span(&self, id: StreamId, in_progress: Option<u32>) -> Span
        ensures { result ≡ newest_span self.now id in_progress }
    {
        Span {
            after: self.retiring.newest_boundary(id),
            upto: in_progress,
        }
    }

    /// It passed over all up to a TSN: pieces at or below that, of unordered messages that are not whole, are dropped
    /// (RFC 3758 section 3.6). Where memory is refused nothing changes. Goes over all DATA that waits, with look-ups
    /// for each piece where one may be dropped; takes a copy of each piece that stays, which shares its bytes.
    pub fn skip_unordered(&mut self, tsn: u32) -> Result<(), AllocError>
        ensures ok { OnOk result (self.new ≡ unordered_skipped self.old tsn) }
        ensures err { OnErr result (self.new ≡ self.old) }
        ensures grows { OnErr result (nat_lt 0 (length self.old.deferred) ≡ true) }
    {
        if self.deferred.is_empty() {
            return Ok(());
        }
        let kept = Kept::UnskippedUnordered(tsn);
        self.deferred = self.deferred.kept(self.alloc, kept)?;
        Ok(())
    }

    /// A request of the peer with this last TSN was performed that names a live stream. `is_drained` says that its
    /// readable generation has nothing more to read. Where memory is refused nothing changes.
    pub fn retire(
        &mut self,
        id: StreamId,
        boundary: u32,
        is_drained: bool,
    ) -> Result<Retirement, AllocError>
        ensures answer { IfOk result (λ r. r ≡ retirement_of self.old id boundary is_drained) }
        ensures ok { OnOk result (self.new ≡ retired self.old id boundary is_drained) }
        ensures err { OnErr result (self.new ≡ self.old) }
    {
        let is_followed = self.has_later(id, boundary);
        self.retire_by(id, boundary, is_drained, is_followed)
    }

    /// The streams of which DATA waits that is past their newest boundary and at or below this one. Goes once over all
    /// DATA that waits.
    pub fn with_later(&self, boundary: u32) -> Result<BTreeSet<StreamId>, AllocError>
        ensures { IfOk result (λ ids. AreWithLater self.now.retiring boundary self.now.deferred ids) }
    {
        self.deferred
            .with_later(self.alloc, &self.retiring, boundary)
    }

    /// `retire` where the streams that `with_later` answers are known, so that it goes over no DATA. The set is made
    /// right for the next stream, where memory is not refused.
    pub fn retire_known(
        &mut self,
        id: StreamId,
        boundary: u32,
        is_drained: bool,
        later: &mut BTreeSet<StreamId>,
    ) -> Result<Retirement, AllocError>
        requires { AreWithLater self.old.retiring boundary self.old.deferred later.old }
        ensures answer { IfOk result (λ r. r ≡ retirement_of self.old id boundary is_drained) }
        ensures ok { OnOk result (self.new ≡ retired self.old id boundary is_drained) }
        ensures err { OnErr result (self.new ≡ self.old) }
        ensures later { OnOk result (AreWithLater self.new.retiring boundary self.new.deferred later.new) }
    {
        let is_followed = later.remove(&id);
        self.retire_by(id, boundary, is_drained, is_followed)
    }

    // `is_followed` says that DATA waits that is past the newest boundary and at or below this one.
    fn retire_by(
        &mut self,
        id: StreamId,
        boundary: u32,
        is_drained: bool,
        is_followed: bool,
    ) -> Result<Retirement, AllocError>
        requires { is_followed ≡ has_later self.old.retiring boundary self.old.deferred id }
        ensures answer { IfOk result (λ r. r ≡ retirement_of self.old id boundary is_drained) }
        ensures ok { OnOk result (self.new ≡ retired self.old id boundary is_drained) }
        ensures err { OnErr result (self.new ≡ self.old) }
    {
        let retirement = self.retirement(id, is_drained, is_followed);
        match retirement {
            Retirement::Retires => self.add_boundary(id, boundary)?,
            Retirement::Ended => self.end_newest(id),
            Retirement::Unchanged => self.end_newest(id),
        }
        Ok(retirement)
    }

    fn retirement(&self, id: StreamId, is_drained: bool, is_followed: bool) -> Retirement
        ensures { result ≡ (
            if retires self.now id then (if is_followed then Retires else Unchanged)
            else if is_drained then Ended else Retires) }
    {
        if self.retiring.contains(id) {
            if is_followed {
                Retirement::Retires
            } else {
                Retirement::Unchanged
            }
        } else if is_drained {
            Retirement::Ended
        } else {
            Retirement::Retires
        }
    }

    // Whether DATA of a stream waits that is past its newest boundary and at or below this one.
    #[tactic(auto, using(crate::proofs::NewestEnded::none_without_boundary))]
    fn has_later(&self, id: StreamId, boundary: u32) -> bool
        ensures { result ≡ has_later self.now.retiring boundary self.now.deferred id }
    {
        match self.retiring.newest_boundary(id) {
            Some(newest) => self.deferred.has_between(id, Some(newest), boundary),
            None => false,
        }
    }

    fn add_boundary(&mut self, id: StreamId, boundary: u32) -> Result<(), AllocError>
        ensures ok { OnOk result (self.new ≡ with_boundary self.old id boundary) }
        ensures err { OnErr result (self.new ≡ self.old) }
    {
        self.retiring.retire(self.alloc, id, boundary)?;
        self.skips.end(id, boundary);
        Ok(())
    }

    /// A request of the peer was performed that names a stream which is not live: what was to be skipped of its newest
    /// generation is skipped no more.
    pub fn end_newest(&mut self, id: StreamId)
        ensures { self.new ≡ without_newest self.old id }
    {
        self.skips.drop_of(id, None);
    }

    /// Ends the readable generation of a stream where it retires and no byte of it waits, and answers whether it did.
    pub fn drain(&mut self, id: StreamId, waiting: u64) -> bool
        ensures { drained self.old id waiting ≡ (self.new, result) }
    {
        if self.retiring.contains(id) && waiting == 0 {
            self.retiring.pass(id);
            true
        } else {
            false
        }
    }

    /// Takes out the DATA of the generation of a stream that is read now, in the order of the TSNs. `in_progress` is
    /// the last TSN of a request in progress that names the stream. Where memory is refused nothing changes.
    pub fn release(
        &mut self,
        id: StreamId,
        in_progress: Option<u32>,
    ) -> Result<VecDeque<ChunkPayloadData>, AllocError>
        ensures given { IfOk result (λ given. given.items ≡ given_to self.old id in_progress) }
        ensures left { OnOk result (self.new ≡ after_given_to self.old id in_progress) }
        ensures err { OnErr result (self.new ≡ self.old) }
    {
        let end = self.readable_end(id, in_progress);
        self.deferred
            .release(self.alloc, Due::Of(id, end), &self.retiring)
    }

    fn readable_end(&self, id: StreamId, in_progress: Option<u32>) -> Option<u32>
        ensures { result ≡ readable_end self.now id in_progress }
    {
        match self.retiring.readable_boundary(id) {
            Some(boundary) => Some(boundary),
            None => in_progress,
        }
    }

    /// Takes out the DATA of all streams that do not retire, in the order of the TSNs: a request was performed, and
    /// none is in progress. Where memory is refused nothing changes.
    pub fn release_all(&mut self) -> Result<VecDeque<ChunkPayloadData>, AllocError>
        ensures given { IfOk result (λ given. given.items ≡ given_to_all self.old) }
        ensures left { OnOk result (self.new ≡ after_given_to_all self.old) }
        ensures err { OnErr result (self.new ≡ self.old) }
    {
        self.deferred
            .release(self.alloc, Due::NoneRetires, &self.retiring)
    }

    /// Takes out the skips of the generation of a stream that is read now, in the order of their arrival. Where memory
    /// is refused nothing changes.
    pub fn release_skips(&mut self, id: StreamId) -> Result<Vec<KeptSkip>, AllocError>
        ensures given { IfOk result (λ given. given.items ≡ skips_given_to self.old id) }
        ensures left { OnOk result (self.new ≡ after_skips_given_to self.old id) }
        ensures err { OnErr result (self.new ≡ self.old) }
    {
        let boundary = self.retiring.readable_boundary(id);
        self.skips.release(self.alloc, id, boundary)
    }

    /// The association closes: nothing is kept.
    pub fn clear(&mut self)
        ensures { self.new ≡ no_generations }
    {
        self.retiring.clear();
        self.deferred.clear();
        self.skips.clear();
    }

    /// Whether something came for the generation of a stream that did not end: DATA past its newest boundary, or a
    /// skip. Goes over what waits of all streams.
    pub fn has_newest(&self, id: StreamId) -> bool
        ensures { result ≡ has_newest self.now id }
    {
        self.deferred
            .has_past(id, self.retiring.newest_boundary(id))
            || self.skips.has_of(id, None)
    }

    /// The application reads no more of a stream: its generations, and what came for those behind, are dropped.
    pub fn discard(&mut self, id: StreamId)
        ensures { self.new ≡ discarded self.old id }
    {
        self.retiring.forget(id);
        self.deferred.discard(id);
        self.skips.discard(id);
    }
}
