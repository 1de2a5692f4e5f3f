// The live streams by their identifiers, each found in constant time: the high byte of its identifier tells its page,
// and the low byte its place there.
ghost use Rattle.std.specs.Prelude.{◌≡◌, ◌<◌, ◌≤◌, ◌/◌, ◌%◌, ◌+◌, ◌^◌, ◌==◌, [], ◌++◌, IsSome, IfSome, Some, OnOk, OnErr};
ghost use Rattle.std.specs.Prelude.{IfOk, drop, fold, is_some, length, map, max, option_copied, option_to_list};
ghost use Rattle.std.specs.Prelude.{slice_get, slice_set, take};
ghost use Rattle.std.specs.Option.{option_copied_mut, option_map};
ghost use Rattle.std.specs.Borrow.{sem};
ghost use Rattle.std.specs.BTreeMap.{insert_entry, is_at};
ghost use Rattle.std.specs.List.Sorted.{IsStrictlySortedBy};
ghost use Rattle.std.specs.Map.{keys_of, lookup, remove_entry};
ghost use Rattle.std.specs.Ordering.{nat_cmp};
ghost use Rattle.sctp_receive_queues.specs.Reassembly.{bytes_waiting, saturated_bytes};
ghost use Rattle.sctp_streams.specs.Stream.{StreamView, stream_passed};
ghost use Rattle.sctp_streams.specs.Streams.{passed_each};
ghost use Rattle.sctp_streams.specs.Table.{HasRoom, IsAsBefore, IsTable, added_waiting, entries_in, entries_of, entry};
ghost use Rattle.sctp_streams.specs.Table.{slot_at, stream_in, stream_of, with_slot};
ghost use Rattle.sctp_streams.specs.TableLends.{LendsAt, LendsHeld, LendsFound, LendsIfFound};

use crate::StreamState;
use sctp_wire_types::StreamId;
use std::alloc::{AllocError, Global};
use std::marker::Model;
use std::mem;

/// Streams, by their identifiers.
#[derive(Drop)]
pub(crate) struct StreamTable {
    // The page of the identifiers from 256 * k on stands at k; pages past the last one have no stream.
    pages: Vec<Page>,
    // How many streams these are.
    count: usize,
}

impl Model for StreamTable {
    ghost use Rattle.std.specs.Prelude.{◌≡◌, ℕ, List, length};
    ghost use Rattle.sctp_streams.specs.Stream.{StreamView};
    ghost use Rattle.sctp_streams.specs.Table.{IsTable, entries_in};

    ghost Value = { List (ℕ × StreamView) };

    ghost view = { λ t. entries_in t.pages.items };

    ghost invariant = { λ t. (t.count ≡ length (entries_in t.pages.items)) × IsTable t.pages.items };
}

// The places of the streams whose identifiers differ in their low byte alone; those past the last one are free.
#[derive(Drop)]
struct Page {
    slots: Vec<Slot>,
}

impl Model for Page {
    ghost use Rattle.std.specs.Prelude.{List, Option, map};
    ghost use Rattle.sctp_streams.specs.Stream.{StreamView};
    ghost use Rattle.sctp_streams.specs.Table.{stream_of};

    ghost Value = { List (Option StreamView) };

    ghost view = { λ p. map stream_of p.slots.items };
}

// A place for one stream.
#[derive(Drop)]
enum Slot {
    Free,
    Held(Box<StreamState>),
}

impl StreamTable {
    /// No stream; takes no memory.
    pub(crate) fn new(alloc: Global) -> StreamTable
        ensures { result ≡ [] }
    {
        StreamTable {
            pages: Vec::new(alloc),
            count: 0,
        }
    }

    pub(crate) fn contains(&self, id: StreamId) -> bool
        ensures { result ≡ is_some (lookup (is_at (nat_cmp id)) self.now) }
    {
        self.get(id).is_some()
    }

    pub(crate) fn get(&self, id: StreamId) -> Option<&StreamState>
        ensures { option_copied result ≡ lookup (is_at (nat_cmp id)) self.now }
    {
        find(&self.pages, id)
    }

    // It is put into its callers: a look-up is short, and each received DATA takes one.
    #[inline(always)]
    pub(crate) fn get_mut(&mut self, id: StreamId) -> Option<&mut StreamState>
        ensures* writes_back { sem 𝓛 (LendsIfFound self.entry id result) }
        ensures value { option_copied_mut result ≡ lookup (is_at (nat_cmp id)) self.old }
    {
        if self.contains(id) {
            Some(self.stream_mut(id))
        } else {
            None
        }
    }

    fn stream_mut(&mut self, id: StreamId) -> &mut StreamState
        requires { IsSome (lookup (is_at (nat_cmp id)) self.old) }
        ensures* writes_back { sem 𝓛 (LendsFound self.entry id result) }
        ensures value { lookup (is_at (nat_cmp id)) self.old ≡ Some result.now }
    {
        self.pages[page_of(id)].stream_mut(place_of(id))
    }

    /// Puts a stream under an identifier, and answers the one whose place it takes. Where memory is refused nothing
    /// changes. That identifiers ascend holds of every table, and callers need it.
    pub(crate) fn insert(
        &mut self,
        alloc: Global,
        id: StreamId,
        stream: StreamState,
    ) -> Result<Option<StreamState>, AllocError>
        ensures entries { OnOk result (self.new ≡ insert_entry nat_cmp self.old id stream) }
        ensures old { IfOk result (λ old. old ≡ lookup (is_at (nat_cmp id)) self.old) }
        ensures was_ordered { IsStrictlySortedBy nat_cmp (keys_of self.old) }
        ensures unchanged { OnErr result (self.new ≡ self.old) }
    {
        make_room(alloc, &mut self.pages, id)?;
        let stream = Box::new(alloc, stream)?;
        match exchange(&mut self.pages, id, Slot::Held(stream)) {
            Some(replaced) => Ok(Some(replaced)),
            None => {
                self.count += 1;
                Ok(None)
            }
        }
    }

    /// Takes the stream of an identifier out.
    pub(crate) fn remove(&mut self, id: StreamId) -> Option<StreamState>
        ensures value { result ≡ lookup (is_at (nat_cmp id)) self.old }
        ensures entries { self.new ≡ remove_entry (is_at (nat_cmp id)) self.old }
    {
        if !self.contains(id) {
            return None;
        }
        self.count -= 1;
        exchange(&mut self.pages, id, Slot::Free)
    }

    /// Takes the stream of the least identifier out. Goes over the free places in front of it, those of pages without a
    /// stream once.
    pub(crate) fn pop_first(&mut self) -> Option<StreamState>
        ensures first { option_to_list result ≡ map (λ e. e.1) (take 1 self.old) }
        ensures entries { self.new ≡ drop 1 self.old }
    {
        let id = self.first()?;
        self.remove(id)
    }

    // The least identifier. The pages in front of its own let their free places go, so that none is gone over again.
    fn first(&mut self) -> Option<StreamId>
        ensures first { result ≡ slice_get (keys_of self.old) 0 }
        ensures same { self.new ≡ self.old }
    {
        first_of(&mut self.pages)
    }

    /// The identifiers, which ascend.
    pub(crate) fn ids(&self, alloc: Global) -> Result<Vec<StreamId>, AllocError>
        ensures { IfOk result (λ ids. ids.items ≡ keys_of self.now) }
    {
        let mut ids = Vec::new(alloc);
        add_all_ids(&self.pages, &mut ids)?;
        Ok(ids)
    }

    pub(crate) fn len(&self) -> usize
        ensures len { result ≡ length self.now }
        ensures small { result < 2 ^ 63 }
        ensures ordered { IsStrictlySortedBy nat_cmp (keys_of self.now) }
    {
        self.count
    }

    pub(crate) fn is_empty(&self) -> bool
        ensures { result ≡ (length self.now == 0) }
    {
        self.count == 0
    }

    /// A FORWARD TSN passed over the unordered pieces up to a TSN, on all of these streams (RFC 3758 section 3.6).
    pub(crate) fn skip_unordered(&mut self, tsn: u32)
        ensures { self.new ≡ passed_each tsn self.old }
    {
        skip_pages(self.pages.as_mut_slice(), tsn);
    }

    /// The bytes that wait on all of these streams, at most the greatest u64.
    pub(crate) fn waiting_bytes(&self) -> u64
        ensures { result ≡ saturated_bytes (λ (s : StreamView). bytes_waiting s.reassembly)
            (map (λ e. e.1) self.now) }
    {
        add_waiting(&self.pages)
    }
}

fn find(pages: &Vec<Page>, id: StreamId) -> Option<&StreamState>
    ensures { option_copied result ≡ stream_in pages.now.items id }
{
    let page = pages.get(page_of(id))?;
    page.get(place_of(id))
}

fn page_of(id: StreamId) -> usize
    ensures { result ≡ id / 256 }
{
    usize::from(id / 256)
}

fn place_of(id: StreamId) -> usize
    ensures { result ≡ id % 256 }
{
    usize::from(id % 256)
}

// Gives an identifier its place, where it has none. Where memory is refused the streams stay all the same.
fn make_room(alloc: Global, pages: &mut Vec<Page>, id: StreamId) -> Result<(), AllocError>
    requires { IsTable pages.old.items }
    ensures room { OnOk result (HasRoom pages.new.items id) }
    ensures entries { entries_in pages.new.items ≡ entries_in pages.old.items }
    ensures table { IsTable pages.new.items }
{
    add_pages(alloc, pages, page_of(id) + 1)?;
    pages[page_of(id)].make_room(place_of(id) + 1)
}

// Adds pages until there are so many.
fn add_pages(alloc: Global, pages: &mut Vec<Page>, count: usize) -> Result<(), AllocError>
    requires few { count ≤ 256 }
    requires table { IsTable pages.old.items }
    ensures room { OnOk result (count ≤ length pages.new.items) }
    ensures entries { entries_in pages.new.items ≡ entries_in pages.old.items }
    ensures table { IsTable pages.new.items }
{
    while pages.len() < count {
        pages.push(Page::new(alloc))?;
    }
    Ok(())
}

// Puts this into the place of an identifier, and answers the stream that was there.
fn exchange(pages: &mut Vec<Page>, id: StreamId, slot: Slot) -> Option<StreamState>
    requires { HasRoom pages.old.items id }
    ensures pages { pages.new.items ≡ with_slot pages.old.items id (stream_of slot) }
    ensures old { result ≡ stream_in pages.old.items id }
{
    pages[page_of(id)].exchange(place_of(id), slot)
}

// The least identifier of a stream. The pages in front of its own let their places go, which are free.
fn first_of(pages: &mut Vec<Page>) -> Option<StreamId>
    requires { IsTable pages.old.items }
    ensures first { result ≡ slice_get (keys_of (entries_in pages.old.items)) 0 }
    ensures entries { entries_in pages.new.items ≡ entries_in pages.old.items }
    ensures table { IsTable pages.new.items }
{
    for index in 0..pages.len() {
        if let Some(id) = pages[index].first(index * 256) {
            return Some(id as StreamId);
        }
        pages[index].clear();
    }
    None
}

fn add_all_ids(pages: &Vec<Page>, ids: &mut Vec<StreamId>) -> Result<(), AllocError>
    requires { IsTable pages.now.items }
    ensures { OnOk result (ids.new.items ≡ ids.old.items ++ keys_of (entries_in pages.now.items)) }
{
    for index in 0..pages.len() {
        pages[index].add_ids(index * 256, ids)?;
    }
    Ok(())
}

fn add_waiting(pages: &Vec<Page>) -> u64
    ensures { result ≡ fold (λ sum p. fold added_waiting sum p) 0 pages.now.items }
{
    pages.iter().fold(0u64, |sum, page| page.add_waiting(sum))
}

fn skip_pages(pages: &mut [Page], tsn: u32)
    ensures { pages.new ≡ map (map (option_map (stream_passed tsn))) pages.old }
{
    for page in pages.iter_mut() {
        page.skip_unordered(tsn);
    }
}

impl Page {
    // No place; takes no memory.
    fn new(alloc: Global) -> Page
        ensures { result ≡ [] }
    {
        Page {
            slots: Vec::new(alloc),
        }
    }

    fn get(&self, place: usize) -> Option<&StreamState>
        ensures { option_copied result ≡ slot_at self.now place }
    {
        match self.slots.get(place) {
            Some(Slot::Held(stream)) => Some(stream.as_ref()),
            _ => None,
        }
    }

    fn stream_mut(&mut self, place: usize) -> &mut StreamState
        requires { IsSome (slot_at self.old place) }
        ensures* writes_back { sem 𝓛 (LendsAt self.entry place result) }
        ensures value { slot_at self.old place ≡ Some result.now }
    {
        self.slots[place].stream_mut()
    }

    // Adds free places until there are so many.
    fn make_room(&mut self, count: usize) -> Result<(), AllocError>
        ensures room { OnOk result (count ≤ length self.new) }
        ensures same { IsAsBefore self.old self.new }
        ensures few { length self.new ≤ max (length self.old) count }
    {
        add_slots(&mut self.slots, count)
    }

    fn exchange(&mut self, place: usize, slot: Slot) -> Option<StreamState>
        requires { place < length self.old }
        ensures slots { self.new ≡ slice_set self.old place (stream_of slot) }
        ensures old { result ≡ slot_at self.old place }
    {
        mem::replace(&mut self.slots[place], slot).into_stream()
    }

    // The least identifier of a stream, where that of the first place is `base`.
    fn first(&self, base: usize) -> Option<usize>
        requires { base + length self.now ≤ 65536 }
        ensures first { result ≡ slice_get (keys_of (entries_of base self.now)) 0 }
        ensures bound { IfSome result (λ id. id < base + length self.now) }
    {
        for place in 0..self.slots.len() {
            if self.holds(place) {
                return Some(base + place);
            }
        }
        None
    }

    // Lets all places go.
    fn clear(&mut self)
        ensures { self.new ≡ [] }
    {
        self.slots.clear();
    }

    // Adds the identifiers of the streams, where the first place has this one.
    fn add_ids(&self, first: usize, ids: &mut Vec<StreamId>) -> Result<(), AllocError>
        requires { first + length self.now ≤ 65536 }
        ensures { OnOk result (ids.new.items ≡ ids.old.items ++ keys_of (entries_of first self.now)) }
    {
        for place in 0..self.slots.len() {
            self.add_id(first, place, ids)?;
        }
        Ok(())
    }

    // Adds the identifier of the stream at a place, where the first place has this one.
    fn add_id(&self, first: usize, place: usize, ids: &mut Vec<StreamId>) -> Result<(), AllocError>
        requires { first + place < 65536 }
        ensures { OnOk result
            (ids.new.items ≡ ids.old.items ++ keys_of (entry (first + place) (slot_at self.now place))) }
    {
        if !self.holds(place) {
            return Ok(());
        }
        ids.push((first + place) as StreamId)?;
        Ok(())
    }

    fn holds(&self, place: usize) -> bool
        ensures { result ≡ is_some (slot_at self.now place) }
    {
        self.get(place).is_some()
    }

    fn skip_unordered(&mut self, tsn: u32)
        ensures { self.new ≡ map (option_map (stream_passed tsn)) self.old }
    {
        skip_slots(self.slots.as_mut_slice(), tsn);
    }

    // A sum with the bytes that wait here.
    fn add_waiting(&self, sum: u64) -> u64
        ensures { result ≡ fold added_waiting sum self.now }
    {
        self.slots
            .iter()
            .fold(sum, |sum, slot| slot.add_waiting(sum))
    }
}

fn add_slots(slots: &mut Vec<Slot>, count: usize) -> Result<(), AllocError>
    ensures room { OnOk result (count ≤ length slots.new.items) }
    ensures same { IsAsBefore (map stream_of slots.old.items) (map stream_of slots.new.items) }
    ensures few { length slots.new.items ≤ max (length slots.old.items) count }
{
    while slots.len() < count {
        slots.push(Slot::Free)?;
    }
    Ok(())
}

fn skip_slots(slots: &mut [Slot], tsn: u32)
    ensures { map stream_of slots.new ≡ map (option_map (stream_passed tsn)) (map stream_of slots.old) }
{
    for slot in slots.iter_mut() {
        slot.skip_unordered(tsn);
    }
}

impl Slot {
    fn stream_mut(&mut self) -> &mut StreamState
        requires { IsSome (stream_of self.old) }
        ensures* writes_back { sem 𝓛 (LendsHeld self.entry result) }
        ensures value { stream_of self.old ≡ Some result.now }
    {
        match self {
            Slot::Held(stream) => stream.as_mut(),
            Slot::Free => unreachable!(),
        }
    }

    fn into_stream(self) -> Option<StreamState>
        ensures { result ≡ stream_of self }
    {
        match self {
            Slot::Held(stream) => Some(Box::into_inner(stream)),
            Slot::Free => None,
        }
    }

    fn skip_unordered(&mut self, tsn: u32)
        ensures { stream_of self.new ≡ option_map (stream_passed tsn) (stream_of self.old) }
    {
        if let Slot::Held(stream) = self {
            stream.skip_unordered(tsn);
        }
    }

    // A sum with the bytes that wait here.
    fn add_waiting(&self, sum: u64) -> u64
        ensures { result ≡ added_waiting sum (stream_of self.now) }
    {
        match self {
            Slot::Held(stream) => sum.saturating_add(stream.waiting_bytes()),
            Slot::Free => sum,
        }
    }
}
