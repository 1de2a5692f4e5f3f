// Skips of generations that are not read yet.
ghost use Rattle.std.specs.Prelude.{◌≡◌, ◌++◌, ◌∷◌, ◌==◌, [], length, filter, map, OnOk, OnErr, IfOk};
ghost use Rattle.sctp_generations.specs.Skips.{is_same, is_skip_of, skips_of, skips_of_others, with_boundary};
ghost use Rattle.sctp_generations.specs.Skips.{skips_ended, skips_of_other_streams, is_newest_of};
ghost use Rattle.sctp_generations.specs.Skips.{skips_without_newest_of, skip_ids};
ghost use Rattle.std.specs.List.{list_any};

use sctp_wire_types::StreamId;
use std::alloc::{AllocError, Global};
use std::collections::BTreeSet;
use std::marker::Model;

/// A skip of FORWARD TSN that waits (RFC 3758 section 3.2): ordered messages of a stream up to an SSN are passed over.
#[derive(Clone, Copy, Debug)]
pub struct KeptSkip {
    pub id: StreamId,
    /// The last TSN of the generation that it is of; None where that did not end.
    pub boundary: Option<u32>,
    pub ssn: u16,
    /// The cumulative TSN of the FORWARD TSN: it passes over nothing that came later.
    pub tsn: u32,
}

/// Skips of generations that are not read yet, in the order of their arrival.
#[derive(Debug, Drop)]
pub(crate) struct KeptSkips {
    list: Vec<KeptSkip>,
}

impl Model for KeptSkips {
    ghost use Rattle.std.specs.Prelude.{List};
    ghost use Rattle.sctp_generations.specs.declared.skips.KeptSkip.{KeptSkip as Skip};

    ghost Value = { List Skip };

    ghost view = { λ s. s.list.items };
}

impl KeptSkips {
    pub(crate) fn new(alloc: Global) -> Self
        ensures { result ≡ [] }
    {
        KeptSkips {
            list: Vec::new(alloc),
        }
    }

    // Keeps a skip behind the others. Where memory is refused nothing changes.
    pub(crate) fn keep(&mut self, skip: KeptSkip) -> Result<(), AllocError>
        ensures ok { OnOk result (self.new ≡ self.old ++ skip ∷ []) }
        ensures err { OnErr result (self.new ≡ self.old) }
    {
        self.list.push(skip)?;
        Ok(())
    }

    // The generation of a stream that did not end before ends with this boundary.
    pub(crate) fn end(&mut self, id: StreamId, boundary: u32)
        ensures { self.new ≡ skips_ended id boundary self.old }
    {
        end_each(self.list.as_mut_slice(), id, boundary);
    }

    // Takes out the skips of the generation of a stream that ends with this boundary, or of the one that did not end.
    // Where memory is refused nothing changes.
    pub(crate) fn release(
        &mut self,
        alloc: Global,
        id: StreamId,
        boundary: Option<u32>,
    ) -> Result<Vec<KeptSkip>, AllocError>
        ensures given { IfOk result (λ given. given.items ≡ skips_of id boundary self.old) }
        ensures left { OnOk result (self.new ≡ skips_of_others id boundary self.old) }
        ensures err { OnErr result (self.new ≡ self.old) }
    {
        let given = copy_of(alloc, &self.list, id, boundary)?;
        self.drop_of(id, boundary);
        Ok(given)
    }

    // Whether there is a skip of the generation of a stream that ends with this boundary, or of the one that did not
    // end.
    pub(crate) fn has_of(&self, id: StreamId, boundary: Option<u32>) -> bool
        ensures { result ≡ list_any (is_skip_of id boundary) self.now }
    {
        any_of(self.list.as_slice(), id, boundary)
    }

    // Drops the skips of the generation of a stream that ends with this boundary, or of the one that did not end.
    pub(crate) fn drop_of(&mut self, id: StreamId, boundary: Option<u32>)
        ensures { self.new ≡ skips_of_others id boundary self.old }
    {
        drop_each(&mut self.list, id, boundary);
    }

    // Drops the skips of generations that did not end, of these streams or, where the set is empty, of all.
    pub(crate) fn drop_newest(&mut self, ids: &BTreeSet<StreamId>)
        ensures { self.new ≡ skips_without_newest_of ids.now.keys self.old }
    {
        drop_each_newest(&mut self.list, ids);
    }

    // The streams that have skips, ascending.
    pub(crate) fn ids(&self, alloc: Global) -> Result<BTreeSet<StreamId>, AllocError>
        ensures { IfOk result (λ ids. ids.keys ≡ skip_ids self.now) }
    {
        ids_of(alloc, self.list.as_slice())
    }

    pub(crate) fn is_empty(&self) -> bool
        ensures { result ≡ (length self.now == 0) }
    {
        self.list.is_empty()
    }

    pub(crate) fn clear(&mut self)
        ensures { self.new ≡ [] }
    {
        self.list.clear();
    }

    // Drops all skips of a stream.
    pub(crate) fn discard(&mut self, id: StreamId)
        ensures { self.new ≡ skips_of_other_streams id self.old }
    {
        discard_each(&mut self.list, id);
    }
}

impl KeptSkip {
    // A skip of the generation of this stream that did not end before: that one ends with this boundary.
    fn end(&mut self, id: StreamId, boundary: u32)
        ensures { self.new ≡ with_boundary id boundary self.old }
    {
        if self.is_of(id, None) {
            self.boundary = Some(boundary);
        }
    }

    // Whether this is of a generation that did not end, of one of these streams or, where the set is empty, of any.
    fn is_newest_of(&self, ids: &BTreeSet<StreamId>) -> bool
        ensures { result ≡ is_newest_of ids.now.keys self.now }
    {
        self.boundary.is_none() && (ids.is_empty() || ids.contains(&self.id))
    }

    fn is_of(&self, id: StreamId, boundary: Option<u32>) -> bool
        ensures { result ≡ is_skip_of id boundary self.now }
    {
        self.id == id && is_same(self.boundary, boundary)
    }
}

fn is_same(a: Option<u32>, b: Option<u32>) -> bool
    ensures { result ≡ is_same a b }
{
    match a {
        Some(a) => match b {
            Some(b) => a == b,
            None => false,
        },
        None => b.is_none(),
    }
}

fn any_of(skips: &[KeptSkip], id: StreamId, boundary: Option<u32>) -> bool
    ensures { result ≡ list_any (is_skip_of id boundary) skips.now }
{
    skips.iter().any(|skip| skip.is_of(id, boundary))
}

fn end_each(skips: &mut [KeptSkip], id: StreamId, boundary: u32)
    ensures { skips.new ≡ map (with_boundary id boundary) skips.old }
{
    for kept in skips.iter_mut() {
        kept.end(id, boundary);
    }
}

fn copy_of(
    alloc: Global,
    skips: &[KeptSkip],
    id: StreamId,
    boundary: Option<u32>,
) -> Result<Vec<KeptSkip>, AllocError>
    ensures { IfOk result (λ given. given.items ≡ skips_of id boundary skips.now) }
{
    skips
        .iter()
        .copied()
        .filter(|skip| skip.is_of(id, boundary))
        .collect(alloc)
}

fn drop_each(skips: &mut Vec<KeptSkip>, id: StreamId, boundary: Option<u32>)
    ensures { skips.new.items ≡ skips_of_others id boundary skips.old.items }
{
    skips.retain(|skip| !skip.is_of(id, boundary));
}

fn drop_each_newest(skips: &mut Vec<KeptSkip>, ids: &BTreeSet<StreamId>)
    ensures { skips.new.items ≡ skips_without_newest_of ids.now.keys skips.old.items }
{
    skips.retain(|skip| !skip.is_newest_of(ids));
}

fn ids_of(alloc: Global, skips: &[KeptSkip]) -> Result<BTreeSet<StreamId>, AllocError>
    ensures { IfOk result (λ ids. ids.keys ≡ skip_ids skips.now) }
{
    let mut ids = BTreeSet::new(alloc);
    for skip in skips {
        ids.insert(skip.id)?;
    }
    Ok(ids)
}

fn discard_each(skips: &mut Vec<KeptSkip>, id: StreamId)
    ensures { skips.new.items ≡ skips_of_other_streams id skips.old.items }
{
    skips.retain(|skip| skip.id != id);
}
