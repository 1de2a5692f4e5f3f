// The streams whose buffered amount falls to their low mark, gathered until they are told of.
ghost use Rattle.std.specs.Prelude.{◌≡◌, ◌++◌, ◌∷◌, [], ◌<◌, ◌⊎◌, true, false, length, map, OnErr, OnOk};
ghost use Rattle.sctp_streams.specs.LowMarks.{ascending, ascending_with, low_event, none_fallen};

use crate::{Event, Events};
use sctp_wire_types::{StreamEvent, StreamId};
use std::alloc::{AllocError, Global};
use std::collections::BTreeSet;
use std::marker::Model;

/// The streams whose buffered amount fell to their low mark while bytes were released, in the order in which they fell.
/// Each is there once where no bytes are buffered in between.
#[derive(Drop)]
pub struct Fallen {
    // The stream that fell first; one alone takes no memory.
    first: Option<StreamId>,
    others: Vec<StreamId>,
    // Memory was refused for one of them.
    refused: bool,
}

impl Model for Fallen {
    ghost use Rattle.sctp_streams.specs.LowMarks.{FallenView, ids_behind};

    ghost Value = { FallenView };

    ghost view = { λ f. record { ids = ids_behind f.first f.others.items; refused = f.refused } };
}

impl Fallen {
    /// No stream; takes no memory.
    pub fn new(alloc: Global) -> Self
        ensures { result ≡ none_fallen }
    {
        Fallen {
            first: None,
            others: Vec::new(alloc),
            refused: false,
        }
    }

    /// Adds a stream behind the others. That memory was refused for it is kept until `tell`; the first one takes none.
    pub fn add(&mut self, id: StreamId)
        ensures added { (self.new.refused ≡ false) → self.new.ids ≡ self.old.ids ++ id ∷ [] }
        ensures kept { (self.new.refused ≡ false) → self.old.refused ≡ false }
    {
        if self.first.is_none() && self.others.is_empty() {
            self.first = Some(id);
        } else if self.others.push(id).is_err() {
            self.refused = true;
        }
    }

    /// Queues `BufferedAmountLow` for each of them, in the order in which they fell. It lacks memory only where there
    /// is one.
    pub fn tell(self, events: &mut Events) -> Result<(), AllocError>
        ensures told { OnOk result (events.new ≡ events.old ++ map low_event self.ids) }
        ensures whole { OnOk result (self.refused ≡ false) }
        ensures grows { OnErr result ((self.refused ≡ true) ⊎ (0 < length self.ids)) }
    {
        if self.refused {
            return Err(AllocError);
        }
        let Fallen { first, others, .. } = self;
        if let Some(first) = first {
            tell_one(first, events)?;
        }
        if others.is_empty() {
            return Ok(());
        }
        tell_each(others, events)
    }

    /// Queues `BufferedAmountLow` for each of them, identifiers ascending. It lacks memory only where there is one.
    #[tactic(auto, using(crate::proofs::LowMarks::some_ascending))]
    pub fn tell_ascending(self, alloc: Global, events: &mut Events) -> Result<(), AllocError>
        ensures told { OnOk result (events.new ≡ events.old ++ map low_event (ascending self.ids)) }
        ensures whole { OnOk result (self.refused ≡ false) }
        ensures grows { OnErr result ((self.refused ≡ true) ⊎ (0 < length (ascending self.ids))) }
    {
        if self.others.is_empty() {
            return self.tell(events);
        }
        if self.refused {
            return Err(AllocError);
        }
        let Fallen { first, others, .. } = self;
        let mut ids = BTreeSet::new(alloc);
        if let Some(first) = first {
            ids.insert(first)?;
        }
        insert_each(&mut ids, others)?;
        tell_set(ids, events)
    }
}

fn tell_one(id: StreamId, events: &mut Events) -> Result<(), AllocError>
    ensures { OnOk result (events.new ≡ events.old ++ low_event id ∷ []) }
{
    events.push(Event::Stream(StreamEvent::BufferedAmountLow { id }))
}

#[cold]
#[inline(never)]
fn tell_each(ids: Vec<StreamId>, events: &mut Events) -> Result<(), AllocError>
    ensures told { OnOk result (events.new ≡ events.old ++ map low_event ids.items) }
    ensures grows { OnErr result (0 < length ids.items) }
{
    for id in ids {
        tell_one(id, events)?;
    }
    Ok(())
}

#[cold]
#[inline(never)]
fn tell_set(ids: BTreeSet<StreamId>, events: &mut Events) -> Result<(), AllocError>
    ensures told { OnOk result (events.new ≡ events.old ++ map low_event ids.keys) }
{
    for id in ids {
        tell_one(id, events)?;
    }
    Ok(())
}

#[cold]
#[inline(never)]
fn insert_each(set: &mut BTreeSet<StreamId>, ids: Vec<StreamId>) -> Result<(), AllocError>
    ensures { OnOk result (set.new.keys ≡ ascending_with set.old.keys ids.items) }
{
    for id in ids {
        set.insert(id)?;
    }
    Ok(())
}
