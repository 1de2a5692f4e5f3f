// The chunks of a packet.
ghost use Rattle.std.specs.Prelude.{◌≡◌, ◌∷◌, [], length};
ghost use Rattle.sctp_wire.specs.ChunkLists.{chunks_in};

use sctp_wire_types::{Chunk, List};
use std::marker::Model;

/// Chunks, one behind the other. One alone takes no memory beside its own.
#[derive(Debug, Drop)]
pub enum PacketChunks {
    /// There is only this one.
    One([Chunk; 1]),
    /// There is none, or there are several.
    Several(List<Chunk>),
}

/// The chunks of a packet, in order (RFC 4960 section 3).
#[derive(Debug, Drop)]
pub struct ChunkList {
    chunks: PacketChunks,
}

impl Model for ChunkList {
    ghost use Rattle.std.specs.Prelude.{List};
    ghost use Rattle.sctp_wire_types.specs.declared.chunk.Chunk.{Chunk as Seen};
    ghost use Rattle.sctp_wire.specs.ChunkLists.{chunks_in};

    ghost Value = { List Seen };

    ghost view = { λ c. chunks_in c.chunks };
}

impl ChunkList {
    /// A packet of one chunk.
    pub fn of(chunk: Chunk) -> ChunkList
        ensures { result ≡ chunk ∷ [] }
    {
        ChunkList {
            chunks: PacketChunks::One([chunk]),
        }
    }

    /// These chunks.
    pub fn from_list(chunks: List<Chunk>) -> ChunkList
        ensures { result ≡ chunks }
    {
        ChunkList {
            chunks: PacketChunks::Several(chunks),
        }
    }

    /// The chunks.
    pub fn as_slice(&self) -> &[Chunk]
        ensures { result.now ≡ self.now }
    {
        match &self.chunks {
            PacketChunks::One(chunk) => chunk,
            PacketChunks::Several(chunks) => chunks.as_slice(),
        }
    }

    /// The chunks, to be taken.
    pub fn into_chunks(self) -> PacketChunks
        ensures { chunks_in result ≡ self }
    {
        let ChunkList { chunks } = self;
        chunks
    }

    /// How many there are.
    pub fn len(&self) -> usize
        ensures { result ≡ length self.now }
    {
        self.as_slice().len()
    }
}
