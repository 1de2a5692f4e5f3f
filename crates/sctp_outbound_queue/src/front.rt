// What is known of the first pieces in flight, so that they need not be gone over again.
ghost use Rattle.std.specs.Prelude.{List, ◌≡◌, ◌-◌, ◌^◌, ◌<◌, ◌≤◌, ◌++◌, ◌∷◌, [], length, not, slice_get, true};
ghost use Rattle.std.specs.List.{position_or_len};
ghost use Rattle.sctp_outbound_queue.specs.declared.message.InFlight.{InFlight as Piece};
ghost use Rattle.sctp_outbound_queue.specs.Front.{holds_at, started_front, IsFront};
ghost use Rattle.sctp_outbound_queue.specs.Message.{is_expired_piece};
ghost use Rattle.sctp_outbound_queue.specs.Outbound.{abandoned_in_front_of};

use crate::InFlight;
use sctp_wire_types::Instant;
use std::collections::VecDeque;

/// What earlier calls found of the pieces in flight, from the first one on.
#[derive(Clone, Copy)]
pub(crate) struct Front {
    /// So many are abandoned, one after another. More may be.
    pub(crate) abandoned: usize,
    /// Of the first so many none is of an expired message and not abandoned, at `passed_at`.
    pub(crate) passed: usize,
    pub(crate) passed_at: Instant,
}

impl Front {
    /// Nothing is in flight.
    pub(crate) fn new() -> Front
        ensures { IsFront result [] }
    {
        Front {
            abandoned: 0,
            passed: 0,
            passed_at: Instant::from_nanos(0),
        }
    }

    /// The first piece left.
    pub(crate) fn pop(&mut self)
        ensures { (p : Piece) → (ps : List Piece) → IsFront self.old (p ∷ ps) → IsFront self.new ps }
    {
        if self.passed > 0 {
            self.passed -= 1;
        }
        if self.abandoned > 0 {
            self.abandoned -= 1;
        }
    }

    /// How many of the first pieces are abandoned. Goes over those that are and were not counted yet.
    pub(crate) fn abandoned(&self, pieces: &VecDeque<InFlight>) -> usize
        requires { self.now.abandoned ≤ abandoned_in_front_of pieces.now.items }
        ensures { result ≡ abandoned_in_front_of pieces.now.items }
    {
        abandoned_from(pieces, self.abandoned)
    }

    /// Pieces were abandoned. Goes over those that are abandoned in front now and were not counted yet.
    pub(crate) fn abandon(&mut self, pieces: &VecDeque<InFlight>)
        requires { self.old.abandoned ≤ abandoned_in_front_of pieces.now.items }
        ensures { self.new ≡ record self.old { abandoned = abandoned_in_front_of pieces.now.items } }
    {
        self.abandoned = abandoned_from(pieces, self.abandoned);
    }

    /// The first piece of an expired message that is not abandoned yet, or how many pieces there are. Begins where the
    /// last call ended, if that was at the same moment or at a later one.
    pub(crate) fn first_expired(&mut self, pieces: &VecDeque<InFlight>, now: Instant) -> usize
        requires { IsFront self.old pieces.now.items }
        ensures index { result ≡ position_or_len (is_expired_piece now) pieces.now.items }
        ensures front { IsFront self.new pieces.now.items }
    {
        let index = first_expired(pieces, self.passed_by(now), now);
        self.passed = index;
        self.passed_at = now;
        index
    }

    fn passed_by(&self, now: Instant) -> usize
        ensures { (ps : List Piece) → IsFront self.now ps → result ≤ position_or_len (is_expired_piece now) ps }
    {
        if now <= self.passed_at {
            self.passed
        } else {
            0
        }
    }

    /// The time of each message in flight runs from now on. `all_ran`: so it did before.
    pub(crate) fn start(&mut self, all_ran: bool)
        ensures { self.new ≡ started_front all_ran self.old }
    {
        if !all_ran {
            self.passed = 0;
        }
    }
}

// The index of the first piece that is not abandoned, or how many there are. Each piece before `from` is abandoned.
fn abandoned_from(pieces: &VecDeque<InFlight>, from: usize) -> usize
    requires { from ≤ abandoned_in_front_of pieces.now.items }
    ensures { result ≡ abandoned_in_front_of pieces.now.items }
{
    for index in from..pieces.len() {
        if is_kept_at(pieces, index) {
            return index;
        }
    }
    pieces.len()
}

// A piece is there that is not abandoned.
fn is_kept_at(pieces: &VecDeque<InFlight>, index: usize) -> bool
    ensures { result ≡ holds_at (λ p. not p.abandoned) (slice_get pieces.now.items index) }
{
    match pieces.get(index) {
        Some(piece) => !piece.abandoned,
        None => false,
    }
}

fn first_expired(pieces: &VecDeque<InFlight>, from: usize, now: Instant) -> usize
    requires { from ≤ position_or_len (is_expired_piece now) pieces.now.items }
    ensures { result ≡ position_or_len (is_expired_piece now) pieces.now.items }
{
    for index in from..pieces.len() {
        if is_expired_at(pieces, index, now) {
            return index;
        }
    }
    pieces.len()
}

fn is_expired_at(pieces: &VecDeque<InFlight>, index: usize, now: Instant) -> bool
    ensures { result ≡ holds_at (is_expired_piece now) (slice_get pieces.now.items index) }
{
    match pieces.get(index) {
        Some(piece) => piece.is_expired(now),
        None => false,
    }
}
