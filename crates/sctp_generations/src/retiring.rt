// Which streams retire, and where their generations end.
ghost use Rattle.std.specs.Prelude.{◌≡◌, ◌==◌, [], length, OnOk, OnErr};
ghost use Rattle.sctp_generations.specs.Retiring.{is_retiring, readable_boundary, newest_boundary, retired_with};
ghost use Rattle.sctp_generations.specs.Retiring.{passed, first_passed, forgotten};
ghost use Rattle.sctp_generations.specs.Retiring.{boundaries_at, is_single, count_at};
ghost use Rattle.sctp_generations.specs.Spans.{span_at};

use crate::boundaries::Boundaries;
use crate::span::Span;
use sctp_wire_types::StreamId;
use std::alloc::{AllocError, Global};
use std::collections::BTreeMap;
use std::marker::Model;

/// The retiring streams: generations that the peer ended stay readable until they are drained, one after the other.
/// Each call costs the logarithm of the streams that retire.
#[derive(Debug, Drop)]
pub(crate) struct Retiring {
    by_id: BTreeMap<StreamId, Boundaries>,
}

impl Model for Retiring {
    ghost use Rattle.sctp_generations.specs.Retiring.{RetiringMap};

    ghost Value = { RetiringMap };

    ghost view = { λ r. r.by_id.entries };
}

impl Retiring {
    pub(crate) fn new(alloc: Global) -> Self
        ensures { result ≡ [] }
    {
        Retiring {
            by_id: BTreeMap::new(alloc),
        }
    }

    pub(crate) fn contains(&self, id: StreamId) -> bool
        ensures { result ≡ is_retiring self.now id }
    {
        self.by_id.contains_key(&id)
    }

    // Whether no stream retires.
    pub(crate) fn is_empty(&self) -> bool
        ensures { result ≡ (length self.now == 0) }
    {
        self.by_id.is_empty()
    }

    // Between which boundaries of a stream a TSN lies.
    pub(crate) fn span_of(&self, id: StreamId, tsn: u32) -> Span
        ensures { result ≡ span_at tsn (boundaries_at self.now id) }
    {
        match self.by_id.get(&id) {
            Some(boundaries) => boundaries.span_of(tsn),
            None => Span::everything(),
        }
    }

    // How many generations of a stream ended and are not drained.
    pub(crate) fn count(&self, id: StreamId) -> usize
        ensures { result ≡ count_at self.now id }
    {
        match self.by_id.get(&id) {
            Some(boundaries) => boundaries.count(),
            None => 0,
        }
    }

    // Where the generation ends that is read now; None where it did not end.
    pub(crate) fn readable_boundary(&self, id: StreamId) -> Option<u32>
        ensures { result ≡ readable_boundary self.now id }
    {
        match self.by_id.get(&id) {
            Some(boundaries) => Some(boundaries.first()),
            None => None,
        }
    }

    // Where the last generation ended that did.
    pub(crate) fn newest_boundary(&self, id: StreamId) -> Option<u32>
        ensures { result ≡ newest_boundary self.now id }
    {
        match self.by_id.get(&id) {
            Some(boundaries) => Some(boundaries.last()),
            None => None,
        }
    }

    // The newest generation of a stream ends with a boundary. Where memory is refused nothing changes.
    #[tactic(auto, using(std::proofs::lemmas::Map::Steps::set_value_same))]
    pub(crate) fn retire(
        &mut self,
        alloc: Global,
        id: StreamId,
        boundary: u32,
    ) -> Result<(), AllocError>
        ensures ok { OnOk result (self.new ≡ retired_with self.old id boundary) }
        ensures err { OnErr result (self.new ≡ self.old) }
    {
        match self.by_id.get_mut(&id) {
            Some(boundaries) => {
                boundaries.push(boundary)?;
                Ok(())
            }
            None => {
                self.by_id.insert(id, Boundaries::of(alloc, boundary))?;
                Ok(())
            }
        }
    }

    // The generation that was read is over, and the one behind it is read; where the stream does not retire nothing
    // changes.
    pub(crate) fn pass(&mut self, id: StreamId)
        ensures { self.new ≡ passed self.old id }
    {
        if self.is_single(id) {
            self.forget(id);
        } else {
            self.pass_first(id);
        }
    }

    // Whether a stream retires with one boundary alone.
    fn is_single(&self, id: StreamId) -> bool
        ensures { result ≡ is_single (boundaries_at self.now id) }
    {
        match self.by_id.get(&id) {
            Some(boundaries) => boundaries.is_single(),
            None => false,
        }
    }

    fn pass_first(&mut self, id: StreamId)
        ensures { self.new ≡ first_passed self.old id }
    {
        if let Some(boundaries) = self.by_id.get_mut(&id) {
            boundaries.pass();
        }
    }

    // No stream retires any more.
    pub(crate) fn clear(&mut self)
        ensures { self.new ≡ [] }
    {
        self.by_id.clear();
    }

    // The stream retires no longer.
    pub(crate) fn forget(&mut self, id: StreamId)
        ensures { self.new ≡ forgotten self.old id }
    {
        self.by_id.remove(&id);
    }
}
