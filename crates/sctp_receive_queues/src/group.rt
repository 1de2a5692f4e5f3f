// An ordered message that is put together.
ghost use Rattle.std.specs.Prelude.{◌≡◌, ◌⊎◌, None, Some, IsOk, IfErr, OnOk, OnErr};
ghost use Rattle.sctp_receive_queues.specs.Messages.{message_of};
ghost use Rattle.sctp_receive_queues.specs.Pieces.{bytes_of, is_complete, refusal_of, is_later, last_of};
ghost use Rattle.sctp_receive_queues.specs.Reassembly.{group_of, grown};

use crate::Chunks;
use crate::pieces::Pieces;
use sctp_wire_types::{ChunkPayloadData, Error};
use std::alloc::Global;
use std::marker::Model;

/// An ordered message: its SSN, the pieces held of it, and whether these are all.
#[derive(Debug, Drop)]
pub(crate) struct Group {
    ssn: u16,
    complete: bool,
    pieces: Pieces,
}

impl Model for Group {
    ghost use Rattle.std.specs.Prelude.{◌≡◌};
    ghost use Rattle.sctp_receive_queues.specs.Pieces.{is_complete};
    ghost use Rattle.sctp_receive_queues.specs.Reassembly.{Group as Seen};

    ghost Value = { Seen };

    ghost view = { λ g. record { ssn = g.ssn; pieces = g.pieces } };

    ghost invariant = { λ g. g.complete ≡ is_complete g.pieces };
}

impl Group {
    // The message of which this piece came first.
    pub(crate) fn of(alloc: Global, piece: ChunkPayloadData) -> Group
        ensures { result ≡ group_of piece }
    {
        let ssn = piece.stream_sequence_number;
        let complete = piece.beginning_fragment && piece.ending_fragment;
        let pieces = Pieces::of(alloc, piece);
        Group {
            ssn,
            pieces,
            complete,
        }
    }

    pub(crate) fn ssn(&self) -> u16
        ensures { result ≡ self.now.ssn }
    {
        self.ssn
    }

    pub(crate) fn bytes(&self) -> u64
        ensures { result ≡ bytes_of self.now.pieces }
    {
        self.pieces.bytes()
    }

    pub(crate) fn is_complete(&self) -> bool
        ensures { result ≡ is_complete self.now.pieces }
    {
        self.complete
    }

    pub(crate) fn has_above(&self, tsn: u32) -> bool
        ensures { result ≡ is_later tsn (last_of self.now.pieces) }
    {
        self.pieces.has_above(tsn)
    }

    pub(crate) fn refusal(&self, piece: &ChunkPayloadData, limit: u32) -> Option<Error>
        ensures { result ≡ refusal_of self.now.pieces piece.now limit }
    {
        self.pieces.refusal(piece, limit)
    }

    // Puts a piece of this message at its place; where it is refused nothing changes.
    pub(crate) fn add(&mut self, piece: ChunkPayloadData, limit: u32) -> Result<(), Error>
        ensures added { OnOk result (self.new ≡ grown self.old piece) }
        ensures unchanged { OnErr result (self.new ≡ self.old) }
        ensures taken { IsOk result → refusal_of self.old.pieces piece limit ≡ None }
        ensures refused { IfErr result (λ e. ((e ≡ Error.ErrNoMemory) × (refusal_of self.old.pieces piece limit ≡ None))
            ⊎ (refusal_of self.old.pieces piece limit ≡ Some e)) }
    {
        if let Some(error) = self.pieces.refusal(&piece, limit) {
            return Err(error);
        }
        self.pieces.insert(piece)?;
        self.complete = self.pieces.is_complete();
        Ok(())
    }

    // Hands the message on.
    pub(crate) fn into_chunks(self) -> Chunks
        ensures { result ≡ message_of self.pieces }
    {
        let Group { pieces, .. } = self;
        pieces.into_chunks()
    }
}
