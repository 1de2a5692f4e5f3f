// The pieces held of one message.
ghost use Rattle.std.specs.Prelude.{◌≡◌, ◌+◌, ◌<◌, ◌^◌, ◌∷◌, [], ◌++◌, length, insert, OnOk, OnErr, IfSome, ◌≤◌};
ghost use Rattle.std.specs.Prelude.{◌==◌, None, nat_lt, not, ◌-◌, max, option_map, false, IsTrue};
ghost use Rattle.sctp_serial.specs.Serial.{tsn_past};
ghost use Rattle.sctp_receive_queues.specs.Pieces.{bytes_of, begins, ends, is_complete, first_is_after};
ghost use Rattle.sctp_receive_queues.specs.Pieces.{last_is_before, covers, is_past, is_later, last_of};
ghost use Rattle.sctp_receive_queues.specs.Pieces.{has_tsn, has_other_type, index_of, breaks_ends, contradicts};
ghost use Rattle.sctp_receive_queues.specs.Pieces.{refusal_of};
ghost use Rattle.sctp_receive_queues.specs.Messages.{message_of};
ghost use Rattle.sctp_receive_queues.specs.Reassembly.{tears, is_torn_before, is_torn_after, joins_before, joins_after};
ghost use Rattle.sctp_receive_queues.specs.Reassembly.{above};

use crate::Chunks;
use crate::row::Row;
use sctp_wire_types::{ChunkPayloadData, Error, sna32lt};
use std::alloc::{AllocError, Global};
use std::marker::Model;

/// Pieces in the order of their TSNs, as they came, and the sum of their bytes.
#[derive(Debug, Drop)]
pub(crate) struct Pieces {
    list: Row,
    bytes: u64,
    // No piece is more than `reach` past the TSN `base`; None where pieces were joined or dropped. A TSN past all of
    // these is of no piece, and its index is the end.
    base: u32,
    reach: Option<u32>,
}

impl Model for Pieces {
    ghost use Rattle.std.specs.Prelude.{◌≡◌, List, IfSome};
    ghost use Rattle.sctp_receive_queues.specs.Pieces.{bytes_of};
    ghost use Rattle.sctp_receive_queues.specs.Reach.{AreWithin};
    ghost use Rattle.sctp_wire_types.specs.declared.chunk.ChunkPayloadData.{ChunkPayloadData as Data};

    ghost Value = { List Data };

    ghost view = { λ p. p.list };

    ghost invariant = { λ p. (p.bytes ≡ bytes_of p.list) × IfSome p.reach (AreWithin p.base p.list) };
}

impl Pieces {
    // One piece alone; takes no memory.
    pub(crate) fn of(alloc: Global, piece: ChunkPayloadData) -> Pieces
        ensures { result ≡ piece ∷ [] }
    {
        let bytes = piece.user_data.len() as u64;
        // Far in front of this piece, so that none with a TSN before it counts as far past it.
        let base = piece.tsn.wrapping_sub(0x4000_0000);
        let reach = piece.tsn.wrapping_sub(base);
        Pieces {
            list: Row::of(alloc, piece),
            bytes,
            base,
            reach: Some(reach),
        }
    }

    // No piece; takes no memory.
    pub(crate) fn none(alloc: Global) -> Pieces
        ensures { result ≡ [] }
    {
        Pieces {
            list: Row::none(alloc),
            bytes: 0,
            base: 0,
            reach: None,
        }
    }

    pub(crate) fn bytes(&self) -> u64
        ensures { result ≡ bytes_of self.now }
    {
        self.bytes
    }

    pub(crate) fn is_empty(&self) -> bool
        ensures { result ≡ (length self.now == 0) }
    {
        self.list.is_empty()
    }

    pub(crate) fn begins(&self) -> bool
        ensures { result ≡ begins self.now }
    {
        match self.list.front() {
            Some(first) => first.beginning_fragment,
            None => false,
        }
    }

    pub(crate) fn ends(&self) -> bool
        ensures { result ≡ ends self.now }
    {
        match self.list.back() {
            Some(last) => last.ending_fragment,
            None => false,
        }
    }

    // Whether these are all pieces of their message.
    pub(crate) fn is_complete(&self) -> bool
        ensures { result ≡ is_complete self.now }
    {
        self.begins() && self.ends() && self.list.follow_one_another()
    }

    // Whether the first piece has the TSN after this one.
    pub(crate) fn first_is_after(&self, tsn: u32) -> bool
        ensures { result ≡ first_is_after self.now tsn }
    {
        match self.list.front() {
            Some(first) => first.tsn == tsn.wrapping_add(1),
            None => false,
        }
    }

    // Whether the last piece has the TSN in front of this one.
    pub(crate) fn last_is_before(&self, tsn: u32) -> bool
        ensures { result ≡ last_is_before self.now tsn }
    {
        match self.list.back() {
            Some(last) => tsn == last.tsn.wrapping_add(1),
            None => false,
        }
    }

    // Whether a piece has this TSN, where the pieces' TSNs follow one another.
    pub(crate) fn covers(&self, tsn: u32) -> bool
        ensures { result ≡ covers self.now tsn }
    {
        match self.list.front() {
            Some(first) => is_within(first.tsn, self.list.len(), tsn),
            None => false,
        }
    }

    // Whether the first piece is past this TSN.
    pub(crate) fn is_past(&self, tsn: u32) -> bool
        ensures { result ≡ is_past self.now tsn }
    {
        match self.list.front() {
            Some(first) => sna32lt(tsn, first.tsn),
            None => false,
        }
    }

    // Whether the last piece is past this TSN.
    pub(crate) fn has_above(&self, tsn: u32) -> bool
        ensures { result ≡ is_later tsn (last_of self.now) }
    {
        match self.list.back() {
            Some(last) => sna32lt(tsn, last.tsn),
            None => false,
        }
    }

    // Whether the message has another payload type than this piece.
    pub(crate) fn has_other_type(&self, piece: &ChunkPayloadData) -> bool
        ensures { result ≡ has_other_type self.now piece.now }
    {
        match self.list.front() {
            Some(first) => first.payload_type.number() != piece.payload_type.number(),
            None => false,
        }
    }

    // Whether a piece with the TSN after these contradicts them, where their TSNs follow one another.
    pub(crate) fn is_torn_before(&self, piece: &ChunkPayloadData) -> bool
        ensures { result ≡ is_torn_before self.now piece.now }
    {
        self.last_is_before(piece.tsn)
            && tears(
                self.ends(),
                piece.beginning_fragment,
                self.has_other_type(piece),
            )
    }

    // Whether a piece with the TSN in front of these contradicts them, where their TSNs follow one another.
    pub(crate) fn is_torn_after(&self, piece: &ChunkPayloadData) -> bool
        ensures { result ≡ is_torn_after self.now piece.now }
    {
        self.first_is_after(piece.tsn)
            && tears(
                piece.ending_fragment,
                self.begins(),
                self.has_other_type(piece),
            )
    }

    // Whether a piece goes on with the message of these, where their TSNs follow one another.
    pub(crate) fn joins_before(&self, piece: &ChunkPayloadData) -> bool
        ensures { result ≡ joins_before self.now piece.now }
    {
        self.last_is_before(piece.tsn) && !self.ends()
    }

    // Whether these go on with the message of a piece, where their TSNs follow one another.
    pub(crate) fn joins_after(&self, piece: &ChunkPayloadData) -> bool
        ensures { result ≡ joins_after self.now piece.now }
    {
        self.first_is_after(piece.tsn) && !piece.ending_fragment
    }

    // Why a piece of this message is refused, if it is.
    pub(crate) fn refusal(&self, piece: &ChunkPayloadData, limit: u32) -> Option<Error>
        ensures { result ≡ refusal_of self.now piece.now limit }
    {
        if self.contradicts(piece) {
            return Some(Error::ErrContradictoryPieces);
        }
        if self.bytes.saturating_add(piece.user_data.len() as u64) > limit as u64 {
            return Some(Error::ErrInboundMessageTooLarge);
        }
        None
    }

    fn contradicts(&self, piece: &ChunkPayloadData) -> bool
        ensures { result ≡ contradicts self.now piece.now }
    {
        self.has_tsn(piece.tsn) || self.has_other_type(piece) || self.breaks_ends(piece)
    }

    fn has_tsn(&self, tsn: u32) -> bool
        ensures { result ≡ has_tsn tsn self.now }
    {
        !self.is_past_all(tsn) && self.list.has_tsn(tsn)
    }

    // In front of the first piece that is past this TSN, else at the end.
    fn place_of(&self, tsn: u32) -> usize
        ensures index { result ≡ index_of tsn self.now }
        ensures bound { result ≤ length self.now }
    {
        if self.is_past_all(tsn) {
            return self.list.len();
        }
        match self.list.first_past(tsn) {
            Some(index) => index,
            None => self.list.len(),
        }
    }

    // Whether a TSN is known to be past those of all pieces.
    fn is_past_all(&self, tsn: u32) -> bool
        ensures none { IsTrue result → has_tsn tsn self.now ≡ false }
        ensures last { IsTrue result → index_of tsn self.now ≡ length self.now }
    {
        let distance = tsn.wrapping_sub(self.base);
        match self.reach {
            Some(reach) => reach < distance && distance < 0x8000_0000,
            None => false,
        }
    }

    // Whether a first piece would not be at the lowest TSN, or a last one not at the highest.
    fn breaks_ends(&self, piece: &ChunkPayloadData) -> bool
        ensures { result ≡ breaks_ends (index_of piece.now.tsn self.now) self.now piece.now }
    {
        let index = self.place_of(piece.tsn);
        let breaks_start = if index == 0 {
            self.begins()
        } else {
            piece.beginning_fragment
        };
        let breaks_end = if index == self.list.len() {
            self.ends()
        } else {
            piece.ending_fragment
        };
        breaks_start || breaks_end
    }

    // Puts a piece at its place; where memory is refused nothing changes.
    pub(crate) fn insert(&mut self, piece: ChunkPayloadData) -> Result<(), AllocError>
        requires { bytes_of self.old + length piece.user_data < 2 ^ 64 }
        ensures put { OnOk result (self.new ≡ insert self.old (index_of piece.tsn self.old) piece) }
        ensures unchanged { OnErr result (self.new ≡ self.old) }
    {
        let index = self.place_of(piece.tsn);
        let bytes = piece.user_data.len() as u64;
        let distance = piece.tsn.wrapping_sub(self.base);
        self.list.insert(index, piece)?;
        self.bytes += bytes;
        self.reach = further(self.reach, distance);
        Ok(())
    }

    // Puts a piece behind the others; where memory is refused nothing changes.
    pub(crate) fn push_back(&mut self, piece: ChunkPayloadData) -> Result<(), AllocError>
        requires { bytes_of self.old + length piece.user_data < 2 ^ 64 }
        ensures put { OnOk result (self.new ≡ self.old ++ piece ∷ []) }
        ensures unchanged { OnErr result (self.new ≡ self.old) }
    {
        let bytes = piece.user_data.len() as u64;
        self.list.push_back(piece)?;
        self.bytes += bytes;
        self.reach = None;
        Ok(())
    }

    // Puts a piece in front of the others; where memory is refused nothing changes.
    pub(crate) fn push_front(&mut self, piece: ChunkPayloadData) -> Result<(), AllocError>
        requires { bytes_of self.old + length piece.user_data < 2 ^ 64 }
        ensures put { OnOk result (self.new ≡ piece ∷ self.old) }
        ensures unchanged { OnErr result (self.new ≡ self.old) }
    {
        let bytes = piece.user_data.len() as u64;
        self.list.push_front(piece)?;
        self.bytes += bytes;
        self.reach = None;
        Ok(())
    }

    // Takes over a piece and the pieces behind it; where memory is refused nothing changes.
    pub(crate) fn join(
        &mut self,
        piece: ChunkPayloadData,
        behind: &mut Pieces,
    ) -> Result<(), AllocError>
        requires { bytes_of self.old + length piece.user_data + bytes_of behind.old < 2 ^ 64 }
        ensures put { OnOk result (self.new ≡ self.old ++ piece ∷ behind.old) }
        ensures unchanged { OnErr result (self.new ≡ self.old) }
        ensures behind { OnErr result (behind.new ≡ behind.old) }
    {
        let bytes = piece.user_data.len() as u64;
        self.list.join(piece, &mut behind.list)?;
        self.bytes += bytes + behind.bytes;
        self.reach = None;
        behind.bytes = 0;
        behind.reach = None;
        Ok(())
    }

    // Drops the pieces that are at or below a TSN.
    pub(crate) fn drop_up_to(&mut self, tsn: u32)
        ensures { self.new ≡ above tsn self.old }
    {
        self.list.drop_up_to(tsn);
        self.bytes = self.list.bytes();
        self.reach = None;
    }

    // Hands the message on.
    pub(crate) fn into_chunks(self) -> Chunks
        ensures { result ≡ message_of self }
    {
        let Pieces { list, bytes, .. } = self;
        Chunks::of_pieces(list, bytes)
    }
}

// Whether two pieces with neighbouring TSNs contradict each other: the one ends a message and the other does not begin
// one, or the other way round, or they are of one message and have different payload types.
fn tears(ended: bool, begun: bool, other_type: bool) -> bool
    ensures { result ≡ tears ended begun other_type }
{
    if ended { !begun } else { begun || other_type }
}

fn further(reach: Option<u32>, distance: u32) -> Option<u32>
    ensures { result ≡ option_map (max distance) reach }
{
    match reach {
        Some(reach) => Some(distance.max(reach)),
        None => None,
    }
}

// Whether a TSN is one of so many that follow one another from the first one on.
fn is_within(first: u32, count: usize, tsn: u32) -> bool
    ensures { result ≡ nat_lt (tsn_past first tsn) count }
{
    (tsn.wrapping_sub(first) as usize) < count
}
