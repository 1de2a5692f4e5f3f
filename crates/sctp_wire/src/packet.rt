// A packet.
ghost use Rattle.std.specs.Prelude.{◌≡◌, IfOk, IsTrue};

use crate::{ChunkList, marshal};
use bytes::Bytes;
use sctp_wire_types::{CommonHeader, Error};
use std::alloc::Global;

/// One packet, as it is or will be spelled in a datagram (RFC 4960 section 3).
#[derive(Debug, Drop)]
pub struct Packet {
    pub common_header: CommonHeader,
    pub chunks: ChunkList,
}

impl Packet {
    ghost use Rattle.sctp_wire.specs.Results.{Gives};
    ghost use Rattle.sctp_wire.specs.Packets.{packet_is_plain, packet_at, written};

    /// The datagram that spells this packet, with its checksum. A chunk or a parameter that is too long for its 16-bit
    /// length is refused with `Fault::Long`.
    pub fn marshal(&self, alloc: Global) -> Result<Bytes, Error>
        ensures exact { Gives result (written self.now) }

        // It is read as this packet again.
        ensures again { IfOk result (λ bytes. IsTrue (packet_is_plain self.now) → packet_at bytes ≡ Ok self.now) }
    {
        marshal(alloc, &self.common_header, self.chunks.as_slice())
    }
}
