// The boundaries of the ended generations of one stream.
ghost use Rattle.std.specs.Prelude.{◌≡◌, ◌==◌, ◌-◌, ◌++◌, ◌∷◌, [], length, slice_get, Some, OnOk, OnErr};
ghost use Rattle.std.specs.Prelude.{fold};
ghost use Rattle.sctp_generations.specs.Retiring.{behind_first};
ghost use Rattle.sctp_generations.specs.Spans.{span_among, narrowed};

use crate::span::Span;
use std::alloc::{AllocError, Global};
use std::collections::VecDeque;
use std::marker::Model;

/// The last TSN of each generation that ended and is not drained, oldest first. There is one at least, and one alone
/// takes no memory.
#[derive(Debug, Drop)]
pub(crate) struct Boundaries {
    first: u32,
    others: VecDeque<u32>,
}

impl Model for Boundaries {
    ghost use Rattle.std.specs.Prelude.{ℕ, List, ◌∷◌};

    ghost Value = { List ℕ };

    ghost view = { λ b. b.first ∷ b.others.items };
}

impl Boundaries {
    pub(crate) fn of(alloc: Global, boundary: u32) -> Self
        ensures { result ≡ boundary ∷ [] }
    {
        Boundaries {
            first: boundary,
            others: VecDeque::new(alloc),
        }
    }

    pub(crate) fn first(&self) -> u32
        ensures { Some result ≡ slice_get self.now 0 }
    {
        self.first
    }

    pub(crate) fn last(&self) -> u32
        ensures { Some result ≡ slice_get self.now (length self.now - 1) }
    {
        match self.others.back() {
            Some(last) => *last,
            None => self.first,
        }
    }

    // How many boundaries there are.
    pub(crate) fn count(&self) -> usize
        ensures { result ≡ length self.now }
    {
        self.others.len() + 1
    }

    // Between which of them a TSN lies.
    pub(crate) fn span_of(&self, tsn: u32) -> Span
        ensures { result ≡ span_among tsn self.now }
    {
        let first = Span::everything().narrowed(tsn, self.first);
        span_from(first, tsn, &self.others)
    }

    // Whether one boundary is left.
    pub(crate) fn is_single(&self) -> bool
        ensures { result ≡ (length self.now == 1) }
    {
        self.others.is_empty()
    }

    // Where memory is refused nothing changes.
    pub(crate) fn push(&mut self, boundary: u32) -> Result<(), AllocError>
        ensures ok { OnOk result (self.new ≡ self.old ++ boundary ∷ []) }
        ensures err { OnErr result (self.new ≡ self.old) }
    {
        self.others.push_back(boundary)?;
        Ok(())
    }

    // Takes the first boundary away, where another one is left.
    pub(crate) fn pass(&mut self)
        ensures { self.new ≡ behind_first self.old }
    {
        if let Some(next) = self.others.pop_front() {
            self.first = next;
        }
    }
}

fn span_from(first: Span, tsn: u32, boundaries: &VecDeque<u32>) -> Span
    ensures { result ≡ fold (narrowed tsn) first boundaries.now.items }
{
    boundaries
        .iter()
        .fold(first, |span, boundary| span.narrowed(tsn, *boundary))
}
