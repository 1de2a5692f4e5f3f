// How many requests that are not answered yet name each stream.
ghost use Rattle.std.specs.Prelude.{◌≡◌, ℕ, ◌+◌, ◌-◌, ◌<◌, ◌||◌, nat_lt, if◌then◌else◌, OnOk, OnErr};
ghost use Rattle.std.specs.List.{count_by};
ghost use Rattle.std.specs.Ordering.{nat_cmp};
ghost use Rattle.std.specs.BTreeMap.{is_at};
ghost use Rattle.sctp_reset_requests.specs.Named.{none_named, count_at, is_named, is_twice};

use sctp_wire_types::StreamId;
use std::alloc::{AllocError, Global};
use std::collections::BTreeMap;
use std::marker::Model;

/// For each stream how many of some requests name it, and how many of them are for all streams. So an identifier is
/// found among many requests in the logarithm of the identifiers that they name.
#[derive(Debug, Drop)]
pub(crate) struct NamedIds {
    by_id: BTreeMap<StreamId, u64>,
    all: u64,
}

impl Model for NamedIds {
    ghost use Rattle.sctp_reset_requests.specs.Named.{NamedView};

    ghost Value = { NamedView };

    ghost view = { λ n. record { by_id = n.by_id.entries; all = n.all } };
}

impl NamedIds {
    /// No request; takes no memory.
    pub(crate) fn new(alloc: Global) -> Self
        ensures { result ≡ none_named }
    {
        NamedIds {
            by_id: BTreeMap::new(alloc),
            all: 0,
        }
    }

    /// Whether one of the requests names a stream, or all of them.
    pub(crate) fn contains(&self, id: StreamId) -> bool
        ensures { result ≡ is_named self.now id }
    {
        self.all > 0 || self.count(id) > 0
    }

    /// Whether two of the requests at least are for all streams, or name this one.
    pub(crate) fn contains_twice(&self, id: StreamId) -> bool
        ensures { result ≡ is_twice self.now.all (count_at self.now id) }
    {
        self.all > 1 || self.count(id) > 1
    }

    fn count(&self, id: StreamId) -> u64
        ensures { result ≡ count_at self.now id }
    {
        self.by_id.get(&id).copied().unwrap_or(0)
    }

    /// One request more. Where memory is refused all counts stay; a count past the greatest u64 counts as want of
    /// memory.
    pub(crate) fn add(&mut self, ids: &[StreamId], names_all: bool) -> Result<(), AllocError>
        ensures counts { OnOk result ((id : ℕ)
            → count_at self.new id ≡ count_at self.old id + count_by (is_at (nat_cmp id)) ids.now) }
        ensures all { OnOk result (self.new.all ≡ self.old.all + (if names_all then 1 else 0)) }
        ensures same_counts { OnErr result ((id : ℕ) → count_at self.new id ≡ count_at self.old id) }
        ensures same_all { OnErr result (self.new.all ≡ self.old.all) }
    {
        let Some(all) = self.all.checked_add(u64::from(names_all)) else {
            return Err(AllocError);
        };
        self.add_each(ids)?;
        self.all = all;
        Ok(())
    }

    // Counts each of the identifiers, or none of them.
    fn add_each(&mut self, ids: &[StreamId]) -> Result<(), AllocError>
        ensures counts { OnOk result ((id : ℕ)
            → count_at self.new id ≡ count_at self.old id + count_by (is_at (nat_cmp id)) ids.now) }
        ensures same_counts { OnErr result ((id : ℕ) → count_at self.new id ≡ count_at self.old id) }
        ensures same_all { self.new.all ≡ self.old.all }
    {
        for index in 0..ids.len() {
            if self.add_one(ids[index]).is_err() {
                self.remove_each(&ids[..index]);
                return Err(AllocError);
            }
        }
        Ok(())
    }

    fn add_one(&mut self, id: StreamId) -> Result<(), AllocError>
        ensures counts { OnOk result ((other : ℕ)
            → count_at self.new other ≡ count_at self.old other + (if is_at (nat_cmp other) id then 1 else 0)) }
        ensures same_counts { OnErr result ((other : ℕ) → count_at self.new other ≡ count_at self.old other) }
        ensures same_all { self.new.all ≡ self.old.all }
    {
        let Some(count) = self.count(id).checked_add(1) else {
            return Err(AllocError);
        };
        self.by_id.insert(id, count)?;
        Ok(())
    }

    /// One request less.
    pub(crate) fn remove(&mut self, ids: &[StreamId], names_all: bool)
        ensures counts { (id : ℕ)
            → count_at self.new id ≡ count_at self.old id - count_by (is_at (nat_cmp id)) ids.now }
        ensures all { self.new.all ≡ self.old.all - (if names_all then 1 else 0) }
    {
        self.remove_each(ids);
        self.all = self.all.saturating_sub(u64::from(names_all));
    }

    fn remove_each(&mut self, ids: &[StreamId])
        ensures counts { (id : ℕ)
            → count_at self.new id ≡ count_at self.old id - count_by (is_at (nat_cmp id)) ids.now }
        ensures same_all { self.new.all ≡ self.old.all }
    {
        for id in ids {
            self.remove_one(*id);
        }
    }

    fn remove_one(&mut self, id: StreamId)
        ensures counts { (other : ℕ)
            → count_at self.new other ≡ count_at self.old other - (if is_at (nat_cmp other) id then 1 else 0) }
        ensures same_all { self.new.all ≡ self.old.all }
    {
        if self.count(id) > 1 {
            self.lower(id);
        } else {
            self.by_id.remove(&id);
        }
    }

    fn lower(&mut self, id: StreamId)
        ensures counts { (other : ℕ)
            → count_at self.new other ≡ count_at self.old other - (if is_at (nat_cmp other) id then 1 else 0) }
        ensures same_all { self.new.all ≡ self.old.all }
    {
        if let Some(count) = self.by_id.get_mut(&id) {
            *count = count.saturating_sub(1);
        }
    }

    /// No request names a stream any more.
    pub(crate) fn clear(&mut self)
        ensures { self.new ≡ none_named }
    {
        self.by_id.clear();
        self.all = 0;
    }
}
