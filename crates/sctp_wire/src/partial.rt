// A datagram of which the header was read.
ghost use Rattle.std.specs.Prelude.{◌≡◌, ℕ, ◌<◌, slice_index, IfOk};
ghost use Rattle.sctp_wire.specs.Numbers.{IsU16, IsU32};

use crate::Packet;
use crate::chunk::read_chunks;
use crate::error::WireError;
use crate::number::{read_u16, read_u32};
use bytes::Bytes;
use sctp_crc::packet_sum;
use sctp_wire_types::{CommonHeader, Error, Fault};
use std::alloc::Global;

/// What `unmarshal` makes of a datagram whose checksum is right: its common header was read (RFC 4960 sections 3.1 and
/// 6.8). Its chunks
/// are read by `finish`, which `Association::handle_event` calls; so a driver can look at ports and verification tag
/// before.
#[derive(Debug, Drop)]
pub struct PartialDecode {
    /// Ports and verification tag.
    pub common_header: CommonHeader,
    /// The chunks, still to be read: a cut of the datagram.
    pub remaining: Bytes,
}

// What the types say of a header and of bytes, as facts that a proof can use.
fn note_ranges(source_port: u16, destination_port: u16, verification_tag: u32, bytes: &[u8])
    ensures source { IsU16 source_port }
    ensures destination { IsU16 destination_port }
    ensures tag { IsU32 verification_tag }
    ensures bytes { (i : ℕ) → slice_index bytes.now i < 256 }
{}

impl PartialDecode {
    ghost use Rattle.sctp_wire.specs.Results.{Gives, Yields};
    ghost use Rattle.sctp_wire.specs.Packets.{partial_at, finished, packet_at, spelling, written};

    #[tactic(auto, unfolding(crate::specs::Packets::partial_at))]
    fn read(datagram: &Bytes) -> Result<PartialDecode, WireError>
        ensures { Yields result (partial_at datagram.now) }
    {
        if datagram.len() < 12 {
            return Err(WireError::Malformed(Fault::Short));
        }
        let bytes = datagram.as_slice();
        let sum = u32::from_le_bytes([bytes[8], bytes[9], bytes[10], bytes[11]]);
        if sum != packet_sum(bytes) {
            return Err(WireError::Malformed(Fault::Checksum));
        }
        let common_header = CommonHeader {
            source_port: read_u16(bytes, 0),
            destination_port: read_u16(bytes, 2),
            verification_tag: read_u32(bytes, 4),
        };
        let mut remaining = datagram.clone()?;
        remaining.advance(12);
        Ok(PartialDecode {
            common_header,
            remaining,
        })
    }

    #[tactic(auto, unfolding(crate::specs::Packets::finished))]
    fn read_rest(self, alloc: Global) -> Result<Packet, WireError>
        ensures exact { Yields result (finished self) }
        ensures content { IfOk result
            (λ packet. (written packet ≡ Ok (spelling packet)) × (packet_at (spelling packet) ≡ Ok packet)) }
    {
        let PartialDecode {
            common_header,
            remaining,
        } = self;
        note_ranges(
            common_header.source_port,
            common_header.destination_port,
            common_header.verification_tag,
            remaining.as_slice(),
        );
        let chunks = read_chunks(alloc, remaining)?;
        Ok(Packet {
            common_header,
            chunks,
        })
    }

    /// Reads the common header of a datagram and compares its checksum, CRC32c (RFC 4960 section 6.8). The bytes are
    /// shared and not copied. Refused as `Malformed`: with `Fault::Short` where it has fewer than 12 bytes, with
    /// `Fault::Checksum` where the checksum differs. `ErrNoMemory` where memory is refused; the datagram can be read
    /// again then.
    pub fn unmarshal(datagram: &Bytes) -> Result<PartialDecode, Error>
        ensures exact { Gives result (partial_at datagram.now) }
    {
        Ok(PartialDecode::read(datagram)?)
    }

    /// Reads the chunks (RFC 4960 section 3.2), without a look at the state or at what they ask for. The error is the
    /// first fault from left to right, as `Malformed`, or `ErrNoMemory`; what was read up to there is dropped.
    pub fn finish(self, alloc: Global) -> Result<Packet, Error>
        ensures exact { Gives result (finished self) }

        // What is read can be written, and what is written of it is read as the same packet.
        ensures content { IfOk result
            (λ packet. (written packet ≡ Ok (spelling packet)) × (packet_at (spelling packet) ≡ Ok packet)) }
    {
        Ok(self.read_rest(alloc)?)
    }
}
