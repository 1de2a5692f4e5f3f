// Which of the pieces in flight are marked, missing and acknowledged, so that nothing has to be gone over to find them.
ghost use Rattle.std.specs.Prelude.{List, ◌≡◌, ◌+◌, ◌++◌, ◌∷◌, [], drop, is_some, position, slice_get, slice_set, Some, OnOk};
ghost use Rattle.std.specs.Option.{option_map};
ghost use Rattle.sctp_looks.specs.Looks.{ticked_by};
ghost use Rattle.sctp_outbound_queue.specs.declared.message.InFlight.{InFlight as Piece};
ghost use Rattle.sctp_outbound_queue.specs.declared.message.Retransmission.TheVariants as causes;
ghost use Rattle.sctp_outbound_queue.specs.Message.{picks, was_acknowledged};
ghost use Rattle.sctp_outbound_queue.specs.Outbound.{past_acknowledged};
ghost use Rattle.sctp_outbound_queue.specs.PieceSets.{AreStanding, HaveRoom, HavePlace, IsPlain};

use crate::{InFlight, Retransmission};
use sctp_candidates::Candidates;
use sctp_looks::Looks;
use std::alloc::{AllocError, Global};

/// Sets of pieces in flight, each by its index. All have room for each piece, so only a piece more wants memory.
#[derive(Drop)]
pub(crate) struct PieceSets {
    /// Those that the retransmission timer marked to be sent again.
    marked: Candidates,
    /// Those that are outstanding and were reported missing often enough to be sent again.
    missing: Candidates,
    /// Those that gap ack blocks named and that are not marked to be sent again.
    acked: Candidates,
}

impl PieceSets {
    /// Nothing is in flight; takes no memory.
    pub(crate) fn new(alloc: Global) -> Self
        ensures { AreStanding result [] }
    {
        PieceSets {
            marked: Candidates::new(alloc),
            missing: Candidates::new(alloc),
            acked: Candidates::new(alloc),
        }
    }

    /// Takes memory for one piece more.
    #[inline(always)]
    pub(crate) fn reserve(&mut self) -> Result<(), AllocError>
        ensures same { (ps : List Piece) → AreStanding self.old ps → AreStanding self.new ps }
        ensures room { OnOk result (HaveRoom self.new) }
    {
        self.marked.reserve()?;
        self.missing.reserve()?;
        self.acked.reserve()
    }

    /// One piece more is in flight, which is in no set.
    #[inline(always)]
    pub(crate) fn grow(&mut self)
        requires { HaveRoom self.old }
        ensures { (ps : List Piece) → (p : Piece) → IsPlain p → AreStanding self.old ps
            → AreStanding self.new (ps ++ p ∷ []) }
    {
        self.marked.grow();
        self.missing.grow();
        self.acked.grow();
    }

    /// The first piece is in flight no more.
    #[inline(always)]
    pub(crate) fn pass(&mut self)
        requires { HavePlace 0 self.old }
        ensures { (p : Piece) → (ps : List Piece) → AreStanding self.old (p ∷ ps) → AreStanding self.new ps }
    {
        self.marked.pass();
        self.missing.pass();
        self.acked.pass();
    }

    /// A piece changed.
    pub(crate) fn settle(&mut self, index: usize, piece: &InFlight)
        requires { HavePlace index self.old }
        ensures { (ps : List Piece) → AreStanding self.old ps
            → AreStanding self.new (slice_set ps index piece.now) }
    {
        self.marked.set(index, piece.retransmit);
        self.missing
            .set(index, piece.goes_again(Retransmission::Fast));
        self.acked.set(index, piece.was_acknowledged());
    }

    /// A piece changed that may be marked now, or not any more. It stays in the other two sets, or out of them.
    pub(crate) fn settle_mark(&mut self, index: usize, piece: &InFlight)
        requires { HavePlace index self.old }
        ensures { (ps : List Piece) → (p : Piece) → slice_get ps index ≡ Some p
            → picks causes.Fast piece.now ≡ picks causes.Fast p → was_acknowledged piece.now ≡ was_acknowledged p
            → AreStanding self.old ps → AreStanding self.new (slice_set ps index piece.now) }
    {
        self.marked.set(index, piece.retransmit);
    }

    /// A piece changed that may be missing now, or not any more. It stays in the other two sets, or out of them.
    pub(crate) fn settle_missing(&mut self, index: usize, piece: &InFlight)
        requires { HavePlace index self.old }
        ensures { (ps : List Piece) → (p : Piece) → slice_get ps index ≡ Some p
            → picks causes.Timer piece.now ≡ picks causes.Timer p → was_acknowledged piece.now ≡ was_acknowledged p
            → AreStanding self.old ps → AreStanding self.new (slice_set ps index piece.now) }
    {
        self.missing
            .set(index, piece.goes_again(Retransmission::Fast));
    }

    /// The first piece from an index on that is sent again for this reason. One look, however it is found.
    pub(crate) fn next(&self, by: Retransmission, from: usize, looks: &mut Looks) -> Option<usize>
        ensures next { (ps : List Piece) → AreStanding self.now ps
            → result ≡ option_map (λ n. from + n) (position (picks by) (drop from ps)) }
        ensures looks { looks.new ≡ ticked_by looks.old 1 }
    {
        match by {
            Retransmission::Timer => self.marked.next(from, looks),
            Retransmission::Fast => self.missing.next(from, looks),
        }
    }

    /// Whether a piece is missing.
    pub(crate) fn any_missing(&self) -> bool
        ensures { (ps : List Piece) → AreStanding self.now ps → result ≡ is_some (position (picks causes.Fast) ps) }
    {
        let mut looks = Looks::new();
        self.missing.next(0, &mut looks).is_some()
    }

    /// The first index from `from` on, below `to`, at which no piece stands that was acknowledged.
    pub(crate) fn skip_acknowledged(&self, from: usize, to: usize) -> usize
        ensures { (ps : List Piece) → AreStanding self.now ps → result ≡ past_acknowledged from to ps }
    {
        from.max(to.min(self.acked.next_other(from)))
    }
}
