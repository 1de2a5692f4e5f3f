// Ordered messages that are put together, in the order of their SSNs.
ghost use Rattle.std.specs.Prelude.{◌≡◌, ◌<◌, ◌≤◌, ◌-◌, ◌↔◌, ◌⊎◌, ◌++◌, length, [], position, slice_get, None, Some};
ghost use Rattle.std.specs.Prelude.{IsOk, IsSome, IsTrue, IfErr, IfSome, OnOk, OnErr, filter, insert, option_copied};
ghost use Rattle.std.specs.Prelude.{option_to_list, ◌∷◌, false, IfOk};
ghost use Rattle.std.specs.VecDeque.{deque_len, deque_capacity};
ghost use Rattle.sctp_serial.specs.Serial.{ssn_lt};
ghost use Rattle.sctp_receive_queues.specs.Ascending.{Ascend, AreEndsBefore, AreEndsBehind};
ghost use Rattle.sctp_receive_queues.specs.Pieces.{bytes_of, refusal_of};
ghost use Rattle.sctp_receive_queues.specs.Reassembly.{put_at, pieces_at, group_of, index_of_ssn, index_for_ssn};
ghost use Rattle.sctp_receive_queues.specs.Reassembly.{with_ordered, refusal_of_ordered, bounded, stays};
ghost use Rattle.sctp_receive_queues.specs.Reassembly.{saturated_bytes};

use crate::group::Group;
use sctp_wire_types::{ChunkPayloadData, Error, sna16lt, sna16lte};
use std::alloc::{AllocError, Global};
use std::collections::VecDeque;
use std::marker::Model;

/// Ordered messages, in the order of their SSNs.
#[derive(Debug, Drop)]
pub(crate) struct Groups {
    list: VecDeque<Group>,
    // Whether each SSN is known to be before all behind it. Where they are, the newest message is found at the end, and
    // the index of a newer one too.
    ascends: bool,
}

impl Model for Groups {
    ghost use Rattle.std.specs.Prelude.{◌≡◌, List, IsTrue};
    ghost use Rattle.sctp_receive_queues.specs.Ascending.{Ascend};
    ghost use Rattle.sctp_receive_queues.specs.Reassembly.{Group as Seen};

    ghost Value = { List Seen };

    ghost view = { λ g. g.list.items };

    ghost invariant = { λ g. IsTrue g.ascends → Ascend g.list.items };
}

impl Groups {
    // No message; takes no memory.
    pub(crate) fn none(alloc: Global) -> Groups
        ensures { result ≡ [] }
    {
        Groups {
            list: VecDeque::new(alloc),
            ascends: true,
        }
    }

    pub(crate) fn first(&self) -> Option<&Group>
        ensures { option_copied result ≡ slice_get self.now 0 }
    {
        self.list.front()
    }

    pub(crate) fn pop_first(&mut self) -> Option<Group>
        ensures items { self.old ≡ option_to_list result ++ self.new }
        ensures variant { IsSome result ↔ (0 < length self.old) }
    {
        self.list.pop_front()
    }

    // Why a piece is refused beside those held of its message, if it is.
    pub(crate) fn refusal(&self, piece: &ChunkPayloadData, limit: u32) -> Option<Error>
        ensures { result ≡ refusal_of_ordered self.now piece.now limit }
    {
        match self.find(piece.stream_sequence_number) {
            Some(index) => refusal_at(&self.list, index, piece, limit),
            None => refusal_of_first(piece, limit),
        }
    }

    // Puts a piece to the others of its message, and answers whether the first message may be another than before, or
    // have more pieces; where it is refused nothing changes.
    pub(crate) fn put(
        &mut self,
        alloc: Global,
        piece: ChunkPayloadData,
        limit: u32,
    ) -> Result<bool, Error>
        ensures put { OnOk result (self.new ≡ with_ordered self.old piece) }
        ensures first { IfOk result (λ changed. (changed ≡ false) → slice_get self.new 0 ≡ slice_get self.old 0) }
        ensures unchanged { OnErr result (self.new ≡ self.old) }
        ensures taken { IsOk result → refusal_of_ordered self.old piece limit ≡ None }
        ensures refused { IfErr result
            (λ e. ((e ≡ Error.ErrNoMemory) × (refusal_of_ordered self.old piece limit ≡ None))
            ⊎ (refusal_of_ordered self.old piece limit ≡ Some e)) }
    {
        if self.is_past_all(piece.stream_sequence_number) {
            let is_first = self.list.is_empty();
            self.add_behind(alloc, piece, limit)?;
            return Ok(is_first);
        }
        self.put_among(alloc, piece, limit)?;
        Ok(true)
    }

    // As `put`, for a piece that is not known to be of a message behind all.
    fn put_among(&mut self, alloc: Global, piece: ChunkPayloadData, limit: u32) -> Result<(), Error>
        ensures put { OnOk result (self.new ≡ with_ordered self.old piece) }
        ensures unchanged { OnErr result (self.new ≡ self.old) }
        ensures taken { IsOk result → refusal_of_ordered self.old piece limit ≡ None }
        ensures refused { IfErr result
            (λ e. ((e ≡ Error.ErrNoMemory) × (refusal_of_ordered self.old piece limit ≡ None))
            ⊎ (refusal_of_ordered self.old piece limit ≡ Some e)) }
    {
        match self.find(piece.stream_sequence_number) {
            Some(index) => self.add_at(index, piece, limit),
            None => self.add_new(alloc, piece, limit),
        }
    }

    // Puts a piece, as a message of its own, behind all; where it is refused nothing changes.
    fn add_behind(
        &mut self,
        alloc: Global,
        piece: ChunkPayloadData,
        limit: u32,
    ) -> Result<(), Error>
        requires ascend { Ascend self.old }
        requires before { AreEndsBefore self.old (length self.old) piece.stream_sequence_number }
        ensures put { OnOk result (self.new ≡ self.old ++ group_of piece ∷ []) }
        ensures unchanged { OnErr result (self.new ≡ self.old) }
        ensures taken { IsOk result → refusal_of [] piece limit ≡ None }
        ensures refused { IfErr result (λ e. ((e ≡ Error.ErrNoMemory) × (refusal_of [] piece limit ≡ None))
            ⊎ (refusal_of [] piece limit ≡ Some e)) }
    {
        if let Some(error) = refusal_of_first(&piece, limit) {
            return Err(error);
        }
        make_room(&mut self.list)?;
        self.list.push_back_reserved(Group::of(alloc, piece));
        self.ascends = true;
        Ok(())
    }

    fn find(&self, ssn: u16) -> Option<usize>
        ensures found { result ≡ index_of_ssn ssn self.now }
        ensures bound { IfSome result (λ index. index < length self.now) }
    {
        if self.is_newest(ssn) {
            return Some(self.list.len() - 1);
        }
        if self.is_past_all(ssn) {
            return None;
        }
        find_in(&self.list, ssn)
    }

    // Whether this is the SSN of the last message, and known to be of no other.
    fn is_newest(&self, ssn: u16) -> bool
        ensures some { IsTrue result → 0 < length self.now }
        ensures last { IsTrue result → index_of_ssn ssn self.now ≡ Some (length self.now - 1) }
    {
        match self.list.back() {
            Some(last) => self.ascends && last.ssn() == ssn,
            None => false,
        }
    }

    // Whether the SSNs are known to ascend, and this one to be past all.
    fn is_past_all(&self, ssn: u16) -> bool
        ensures none { IsTrue result → index_of_ssn ssn self.now ≡ None }
        ensures last { IsTrue result → index_for_ssn ssn self.now ≡ length self.now }
        ensures ascend { IsTrue result → Ascend self.now }
        ensures before { IsTrue result → AreEndsBefore self.now (length self.now) ssn }
    {
        self.ascends() && is_past_ends(&self.list, ssn)
    }

    fn add_at(&mut self, index: usize, piece: ChunkPayloadData, limit: u32) -> Result<(), Error>
        requires { index < length self.old }
        ensures put { OnOk result (self.new ≡ put_at (Some index) self.old piece) }
        ensures unchanged { OnErr result (self.new ≡ self.old) }
        ensures taken { IsOk result → refusal_of (pieces_at (Some index) self.old) piece limit ≡ None }
        ensures refused { IfErr result
            (λ e. ((e ≡ Error.ErrNoMemory) × (refusal_of (pieces_at (Some index) self.old) piece limit ≡ None))
            ⊎ (refusal_of (pieces_at (Some index) self.old) piece limit ≡ Some e)) }
    {
        add_to(&mut self.list, index, piece, limit)
    }

    fn add_new(&mut self, alloc: Global, piece: ChunkPayloadData, limit: u32) -> Result<(), Error>
        ensures put { OnOk result (self.new ≡ put_at None self.old piece) }
        ensures unchanged { OnErr result (self.new ≡ self.old) }
        ensures taken { IsOk result → refusal_of (pieces_at None self.old) piece limit ≡ None }
        ensures refused { IfErr result
            (λ e. ((e ≡ Error.ErrNoMemory) × (refusal_of (pieces_at None self.old) piece limit ≡ None))
            ⊎ (refusal_of (pieces_at None self.old) piece limit ≡ Some e)) }
    {
        if let Some(error) = refusal_of_first(&piece, limit) {
            return Err(error);
        }
        let index = self.index_for(piece.stream_sequence_number);
        let group = Group::of(alloc, piece);
        self.insert(index, group)?;
        Ok(())
    }

    // Where memory is refused nothing changes.
    fn insert(&mut self, index: usize, group: Group) -> Result<(), AllocError>
        requires { index ≤ length self.old }
        ensures put { OnOk result (self.new ≡ insert self.old index group) }
        ensures unchanged { OnErr result (self.new ≡ self.old) }
    {
        let ascends = self.ascends_with(index, group.ssn());
        self.list.insert(index, group)?;
        self.ascends = ascends;
        Ok(())
    }

    fn ascends(&self) -> bool
        ensures { IsTrue result → Ascend self.now }
    {
        self.ascends || self.list.is_empty()
    }

    // Whether the SSNs are known to ascend with this one at an index.
    fn ascends_with(&self, index: usize, ssn: u16) -> bool
        requires { index ≤ length self.now }
        ensures ascends { IsTrue result → Ascend self.now }
        ensures before { IsTrue result → AreEndsBefore self.now index ssn }
        ensures behind { IsTrue result → AreEndsBehind self.now index ssn }
    {
        self.ascends()
            && is_past_before(&self.list, index, ssn)
            && is_before_behind(&self.list, index, ssn)
    }

    // In front of the first message that is past this SSN, else at the end.
    fn index_for(&self, ssn: u16) -> usize
        ensures index { result ≡ index_for_ssn ssn self.now }
        ensures bound { result ≤ length self.now }
    {
        if self.is_past_all(ssn) {
            return self.list.len();
        }
        match first_past(&self.list, ssn) {
            Some(index) => index,
            None => self.list.len(),
        }
    }

    // Drops the incomplete messages up to an SSN.
    pub(crate) fn skip(&mut self, ssn: u16)
        ensures { self.new ≡ filter (stays ssn) self.old }
    {
        self.list
            .retain(|group| !sna16lte(group.ssn(), ssn) || group.is_complete());
    }

    // The greatest SSN up to this one that is before every message with a piece above the TSN.
    pub(crate) fn bound(&self, ssn: u16, tsn: u32) -> u16
        ensures { result ≡ bounded self.now ssn tsn }
    {
        bound_in(&self.list, ssn, tsn)
    }

    // The bytes of all of these, at most the greatest u64.
    pub(crate) fn bytes(&self) -> u64
        ensures { result ≡ saturated_bytes (λ g. bytes_of g.pieces) self.now }
    {
        self.list
            .iter()
            .fold(0u64, |sum, group| sum.saturating_add(group.bytes()))
    }
}

// Makes room for one message more. The first block has room for one alone, so that many streams take little memory
// where each message is read before the next one of its stream comes.
fn make_room(groups: &mut VecDeque<Group>) -> Result<(), AllocError>
    ensures items { groups.new.items ≡ groups.old.items }
    ensures room { OnOk result (deque_len groups.new < deque_capacity groups.new) }
{
    if groups.capacity() == 0 {
        return groups.reserve_exact(1);
    }
    groups.reserve(1)
}

fn find_in(groups: &VecDeque<Group>, ssn: u16) -> Option<usize>
    ensures found { result ≡ index_of_ssn ssn groups.now.items }
    ensures bound { IfSome result (λ index. index < length groups.now.items) }
{
    groups.iter().position(|group| group.ssn() == ssn)
}

fn first_past(groups: &VecDeque<Group>, ssn: u16) -> Option<usize>
    ensures first { result ≡ position (λ g. ssn_lt ssn g.ssn) groups.now.items }
    ensures bound { IfSome result (λ index. index < length groups.now.items) }
{
    groups.iter().position(|group| sna16lt(ssn, group.ssn()))
}

// Whether an SSN is past the first message and past the last one, where there are any.
fn is_past_ends(groups: &VecDeque<Group>, ssn: u16) -> bool
    ensures { IsTrue result → AreEndsBefore groups.now.items (length groups.now.items) ssn }
{
    match (groups.front(), groups.back()) {
        (Some(first), Some(last)) => sna16lt(first.ssn(), ssn) && sna16lt(last.ssn(), ssn),
        _ => true,
    }
}

// Whether an SSN is past the first message and past the one in front of an index, where that is not the first place.
fn is_past_before(groups: &VecDeque<Group>, index: usize, ssn: u16) -> bool
    requires { index ≤ length groups.now.items }
    ensures { IsTrue result → AreEndsBefore groups.now.items index ssn }
{
    if index == 0 {
        return true;
    }
    match (groups.front(), groups.get(index - 1)) {
        (Some(first), Some(last)) => sna16lt(first.ssn(), ssn) && sna16lt(last.ssn(), ssn),
        _ => false,
    }
}

// Whether an SSN is before the message at an index and before the last one, where that index is not the end.
fn is_before_behind(groups: &VecDeque<Group>, index: usize, ssn: u16) -> bool
    requires { index ≤ length groups.now.items }
    ensures { IsTrue result → AreEndsBehind groups.now.items index ssn }
{
    if index == groups.len() {
        return true;
    }
    match (groups.get(index), groups.back()) {
        (Some(first), Some(last)) => sna16lt(ssn, first.ssn()) && sna16lt(ssn, last.ssn()),
        _ => false,
    }
}

fn refusal_at(
    groups: &VecDeque<Group>,
    index: usize,
    piece: &ChunkPayloadData,
    limit: u32,
) -> Option<Error>
    requires { index < length groups.now.items }
    ensures { result ≡ refusal_of (pieces_at (Some index) groups.now.items) piece.now limit }
{
    match groups.get(index) {
        Some(group) => group.refusal(piece, limit),
        None => None,
    }
}

// Why a piece of which no other is held is refused, if it is.
fn refusal_of_first(piece: &ChunkPayloadData, limit: u32) -> Option<Error>
    ensures { result ≡ refusal_of [] piece.now limit }
{
    if piece.user_data.len() > limit as usize {
        return Some(Error::ErrInboundMessageTooLarge);
    }
    None
}

fn add_to(
    groups: &mut VecDeque<Group>,
    index: usize,
    piece: ChunkPayloadData,
    limit: u32,
) -> Result<(), Error>
    requires { index < length groups.old.items }
    ensures put { OnOk result (groups.new.items ≡ put_at (Some index) groups.old.items piece) }
    ensures unchanged { OnErr result (groups.new.items ≡ groups.old.items) }
    ensures taken { IsOk result → refusal_of (pieces_at (Some index) groups.old.items) piece limit ≡ None }
    ensures refused { IfErr result
        (λ e. ((e ≡ Error.ErrNoMemory) × (refusal_of (pieces_at (Some index) groups.old.items) piece limit ≡ None))
        ⊎ (refusal_of (pieces_at (Some index) groups.old.items) piece limit ≡ Some e)) }
{
    match groups.get_mut(index) {
        Some(group) => group.add(piece, limit),
        None => Ok(()),
    }
}

fn bound_in(groups: &VecDeque<Group>, ssn: u16, tsn: u32) -> u16
    ensures { result ≡ bounded groups.now.items ssn tsn }
{
    for group in groups {
        if sna16lte(group.ssn(), ssn) && group.has_above(tsn) {
            return group.ssn().wrapping_sub(1);
        }
    }
    ssn
}
