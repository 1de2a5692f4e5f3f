// Pieces one behind the other.
ghost use Rattle.std.specs.Prelude.{◌≡◌, ◌<◌, ◌≤◌, ◌^◌, ◌∷◌, [], ◌++◌, ◌==◌, ◌↔◌, length, insert, position, fold, min};
ghost use Rattle.std.specs.Prelude.{drop};
ghost use Rattle.std.specs.Prelude.{None, Some, IsSome, IsNone, IfOk, IfSome, OnOk, OnErr, option_copied};
ghost use Rattle.std.specs.Prelude.{option_to_list, ◌+◌, ◌-◌};
ghost use Rattle.std.specs.VecDeque.{deque_len, deque_capacity};
ghost use Rattle.sctp_serial.specs.Serial.{tsn_lt};
ghost use Rattle.sctp_receive_queues.specs.Messages.{behind_cut, filled, first_cut, front_bytes, joined};
ghost use Rattle.sctp_receive_queues.specs.Pieces.{first_of, follows, has_tsn, last_of};
ghost use Rattle.sctp_receive_queues.specs.Reassembly.{above, is_up_to};

use bytes::Bytes;
use sctp_wire_types::{ChunkPayloadData, Error, sna32lt, sna32lte};
use std::alloc::{AllocError, Global};
use std::collections::VecDeque;
use std::marker::Model;

/// Pieces one behind the other. One alone takes no memory.
#[derive(Debug, Drop)]
pub(crate) struct Row {
    first: Option<ChunkPayloadData>,
    // Those behind the first; none where there is no first.
    others: VecDeque<ChunkPayloadData>,
}

impl Model for Row {
    ghost use Rattle.std.specs.Prelude.{◌≡◌, List, ◌++◌, [], IsNone, option_to_list};
    ghost use Rattle.sctp_wire_types.specs.declared.chunk.ChunkPayloadData.{ChunkPayloadData as Data};

    ghost Value = { List Data };

    ghost view = { λ r. option_to_list r.first ++ r.others.items };

    ghost invariant = { λ r. IsNone r.first → r.others.items ≡ [] };
}

impl Row {
    // One piece alone.
    pub(crate) fn of(alloc: Global, piece: ChunkPayloadData) -> Row
        ensures { result ≡ piece ∷ [] }
    {
        Row {
            first: Some(piece),
            others: VecDeque::new(alloc),
        }
    }

    pub(crate) fn none(alloc: Global) -> Row
        ensures { result ≡ [] }
    {
        Row {
            first: None,
            others: VecDeque::new(alloc),
        }
    }

    pub(crate) fn front(&self) -> Option<&ChunkPayloadData>
        ensures { option_copied result ≡ first_of self.now }
    {
        self.first.as_ref()
    }

    pub(crate) fn back(&self) -> Option<&ChunkPayloadData>
        ensures { option_copied result ≡ last_of self.now }
    {
        match self.others.back() {
            Some(last) => Some(last),
            None => self.first.as_ref(),
        }
    }

    pub(crate) fn len(&self) -> usize
        ensures { result ≡ length self.now }
    {
        match self.first {
            Some(_) => self.others.len() + 1,
            None => 0,
        }
    }

    pub(crate) fn is_empty(&self) -> bool
        ensures { result ≡ (length self.now == 0) }
    {
        self.first.is_none()
    }

    pub(crate) fn has_tsn(&self, tsn: u32) -> bool
        ensures { result ≡ has_tsn tsn self.now }
    {
        match &self.first {
            Some(first) => first.tsn == tsn || any_has_tsn(&self.others, tsn),
            None => false,
        }
    }

    // Where the first piece is that is past this TSN.
    pub(crate) fn first_past(&self, tsn: u32) -> Option<usize>
        ensures first { result ≡ position (λ p. tsn_lt tsn p.tsn) self.now }
        ensures bound { IfSome result (λ index. index < length self.now) }
    {
        let first = self.first.as_ref()?;
        if sna32lt(tsn, first.tsn) {
            return Some(0);
        }
        let index = first_past(&self.others, tsn)?;
        Some(index + 1)
    }

    // Whether each piece has the TSN after the one in front of it.
    pub(crate) fn follow_one_another(&self) -> bool
        ensures { result ≡ follows None self.now }
    {
        match &self.first {
            Some(first) => follow(first.tsn, &self.others),
            None => true,
        }
    }

    // The pieces' bytes, at most the greatest u64.
    pub(crate) fn bytes(&self) -> u64
        ensures { result ≡ fold (λ sum p. min (sum + length p.user_data) (2 ^ 64 - 1)) 0 self.now }
    {
        match &self.first {
            Some(first) => bytes_in(first.user_data.len() as u64, &self.others),
            None => 0,
        }
    }

    // Copies the pieces' bytes, one behind the other, to the front of the buffer.
    pub(crate) fn copy_to(&self, buffer: &mut [u8])
        requires { length (joined self.now) ≤ length buffer.old }
        ensures { buffer.new ≡ joined self.now ++ drop (length (joined self.now)) buffer.old }
    {
        if let Some(first) = &self.first {
            let bytes = first.user_data.as_slice();
            let (front, behind) = buffer.split_at_mut(bytes.len());
            front.copy_from_slice(bytes);
            copy_each(&self.others, behind);
        }
    }

    // Puts a piece at an index; where memory is refused nothing changes.
    pub(crate) fn insert(&mut self, index: usize, piece: ChunkPayloadData) -> Result<(), AllocError>
        requires { index ≤ length self.old }
        ensures put { OnOk result (self.new ≡ insert self.old index piece) }
        ensures unchanged { OnErr result (self.new ≡ self.old) }
    {
        if index == 0 {
            return self.push_front(piece);
        }
        self.others.insert(index - 1, piece)?;
        Ok(())
    }

    // Puts a piece in front of the others; where memory is refused nothing changes.
    pub(crate) fn push_front(&mut self, piece: ChunkPayloadData) -> Result<(), AllocError>
        ensures put { OnOk result (self.new ≡ piece ∷ self.old) }
        ensures unchanged { OnErr result (self.new ≡ self.old) }
    {
        if self.first.is_some() {
            self.others.reserve(1)?;
        }
        if let Some(second) = self.first.replace(piece) {
            self.others.push_front_reserved(second);
        }
        Ok(())
    }

    // Puts a piece behind the others; where memory is refused nothing changes.
    pub(crate) fn push_back(&mut self, piece: ChunkPayloadData) -> Result<(), AllocError>
        ensures put { OnOk result (self.new ≡ self.old ++ piece ∷ []) }
        ensures unchanged { OnErr result (self.new ≡ self.old) }
    {
        if self.first.is_none() {
            self.first = Some(piece);
            return Ok(());
        }
        self.others.push_back(piece)?;
        Ok(())
    }

    // Takes over a piece and the pieces behind it; where memory is refused nothing changes.
    pub(crate) fn join(
        &mut self,
        piece: ChunkPayloadData,
        behind: &mut Row,
    ) -> Result<(), AllocError>
        ensures put { OnOk result (self.new ≡ self.old ++ piece ∷ behind.old) }
        ensures none_behind { OnOk result (behind.new ≡ []) }
        ensures unchanged { OnErr result (self.new ≡ self.old) }
        ensures behind { OnErr result (behind.new ≡ behind.old) }
    {
        self.others.reserve(behind.others.len().saturating_add(2))?;
        put_last(&mut self.first, &mut self.others, piece);
        if let Some(next) = behind.first.take() {
            put_last(&mut self.first, &mut self.others, next);
        }
        self.others.append(&mut behind.others)
    }

    // Drops the pieces that are at or below a TSN.
    pub(crate) fn drop_up_to(&mut self, tsn: u32)
        ensures { self.new ≡ above tsn self.old }
    {
        keep_above(&mut self.others, tsn);
        if is_up_to(&self.first, tsn) {
            self.first = self.others.pop_front();
        }
    }

    // Takes the first piece out.
    pub(crate) fn pop_front(&mut self) -> Option<ChunkPayloadData>
        ensures items { self.old ≡ option_to_list result ++ self.new }
        ensures variant { IsSome result ↔ (0 < length self.old) }
    {
        let first = self.first.take();
        self.first = self.others.pop_front();
        first
    }

    // Takes out the first `max` bytes of the first piece, or all of its bytes where it has fewer.
    pub(crate) fn cut_front(&mut self, max: usize) -> Result<Bytes, Error>
        requires max { 0 < max }
        requires first { 0 < length (front_bytes self.old) }
        ensures cut { IfOk result (λ cut. first_cut max (filled self.old) ≡ Some cut) }
        ensures left { OnOk result (filled self.new ≡ behind_cut max (filled self.old)) }
        ensures some { IfOk result (λ cut. 0 < length cut) }
        ensures refused { OnErr result (result ≡ Err Error.ErrNoMemory) }
        ensures unchanged { OnErr result (filled self.new ≡ filled self.old) }
    {
        let Some(first) = self.first.as_mut() else {
            return Ok(Bytes::new());
        };
        let count = max.min(first.user_data.len());
        let cut = first.user_data.split_to(count)?;
        Ok(cut)
    }
}

// Puts a piece behind the first one and these, or in the place of the first where there is none.
fn put_last(
    first: &mut Option<ChunkPayloadData>,
    others: &mut VecDeque<ChunkPayloadData>,
    piece: ChunkPayloadData,
)
    requires room { deque_len others.old < deque_capacity others.old }
    requires none { IsNone first.old → others.old.items ≡ [] }
    ensures put { option_to_list first.new ++ others.new.items
        ≡ (option_to_list first.old ++ others.old.items) ++ piece ∷ [] }
    ensures some { IsSome first.new }
    ensures len { deque_len others.new ≤ deque_len others.old + 1 }
    ensures capacity { deque_capacity others.new ≡ deque_capacity others.old }
{
    if first.is_none() {
        *first = Some(piece);
        return;
    }
    others.push_back_reserved(piece);
}

fn is_up_to(piece: &Option<ChunkPayloadData>, tsn: u32) -> bool
    ensures { result ≡ is_up_to tsn piece.now }
{
    match piece {
        Some(piece) => sna32lte(piece.tsn, tsn),
        None => false,
    }
}

fn keep_above(pieces: &mut VecDeque<ChunkPayloadData>, tsn: u32)
    ensures { pieces.new.items ≡ above tsn pieces.old.items }
{
    pieces.retain(|piece| !sna32lte(piece.tsn, tsn));
}

fn any_has_tsn(pieces: &VecDeque<ChunkPayloadData>, tsn: u32) -> bool
    ensures { result ≡ has_tsn tsn pieces.now.items }
{
    pieces.iter().any(|piece| piece.tsn == tsn)
}

fn first_past(pieces: &VecDeque<ChunkPayloadData>, tsn: u32) -> Option<usize>
    ensures first { result ≡ position (λ p. tsn_lt tsn p.tsn) pieces.now.items }
    ensures bound { IfSome result (λ index. index < length pieces.now.items) }
{
    pieces.iter().position(|piece| sna32lt(tsn, piece.tsn))
}

// The bytes of these pieces and so many more, at most the greatest u64.
fn bytes_in(bytes: u64, pieces: &VecDeque<ChunkPayloadData>) -> u64
    ensures { result ≡ fold (λ sum p. min (sum + length p.user_data) (2 ^ 64 - 1)) bytes pieces.now.items }
{
    pieces.iter().fold(bytes, |sum, piece| {
        sum.saturating_add(piece.user_data.len() as u64)
    })
}

// Whether each piece has the TSN after the one in front of it, and the first one the TSN after this one.
fn follow(tsn: u32, pieces: &VecDeque<ChunkPayloadData>) -> bool
    ensures { result ≡ follows (Some tsn) pieces.now.items }
{
    let mut last = tsn;
    for piece in pieces {
        if piece.tsn != last.wrapping_add(1) {
            return false;
        }
        last = piece.tsn;
    }
    true
}

// Copies the bytes of these pieces, one behind the other, to the front of the buffer.
fn copy_each(pieces: &VecDeque<ChunkPayloadData>, buffer: &mut [u8])
    requires { length (joined pieces.now.items) ≤ length buffer.old }
    ensures { buffer.new ≡ joined pieces.now.items ++ drop (length (joined pieces.now.items)) buffer.old }
{
    let mut copied = 0;
    for piece in pieces {
        let bytes = piece.user_data.as_slice();
        let end = copied + bytes.len();
        buffer[copied..end].copy_from_slice(bytes);
        copied = end;
    }
}
