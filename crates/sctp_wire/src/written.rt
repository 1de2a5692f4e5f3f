// What a packet is written as.
ghost use Rattle.std.specs.Prelude.{◌≡◌, ◌≤◌, ◌++◌, length, take, drop, Ok, OnOk, IfOk, IsTrue};
ghost use Rattle.std.specs.Int.{w32, to_le_bytes};
ghost use Rattle.sctp_wire.specs.Results.{Gives, Yields, Builds};
ghost use Rattle.sctp_wire.specs.Packets.{packet_fits, packet_is_plain, packet_at, packet_with, unsummed, spelling};
ghost use Rattle.sctp_wire.specs.Packets.{written, IsPacket};

use crate::chunk::write_chunks;
use crate::error::WireError;
use crate::number::{put_u16, put_u32};
use bytes::Bytes;
use sctp_crc::packet_sum;
use sctp_wire_types::{Chunk, CommonHeader, Error};
use std::alloc::Global;

// How much room is made at first: 1200 bytes where DATA goes, and a few fields elsewhere.
fn room_for(chunks: &[Chunk]) -> usize {
    match chunks {
        [Chunk::Data(_), ..] => 1200,
        _ => 64,
    }
}

pub(crate) fn set_sum(bytes: &mut [u8], sum: u32)
    requires { 12 ≤ length bytes.old }
    ensures { bytes.new ≡ take 8 bytes.old ++ to_le_bytes w32 sum ++ drop 12 bytes.old }
{
    bytes[8..12].copy_from_slice(&sum.to_le_bytes());
}

/// The datagram that spells a packet of these chunks, as `Packet::marshal` does.
#[tactic(auto, using(crate::proofs::PacketsAgain::written_again))]
pub fn marshal(
    alloc: Global,
    common_header: &CommonHeader,
    chunks: &[Chunk],
) -> Result<Bytes, Error>
    ensures exact { Gives result (written (packet_with common_header.now chunks.now)) }
    ensures again { IfOk result (λ bytes. IsTrue (packet_is_plain (packet_with common_header.now chunks.now))
        → packet_at bytes ≡ Ok (packet_with common_header.now chunks.now)) }
{
    Ok(bytes(alloc, common_header, chunks)?)
}

#[tactic(auto, unfolding(crate::specs::Packets::written, crate::specs::Packets::spelling))]
fn bytes(alloc: Global, common_header: &CommonHeader, chunks: &[Chunk]) -> Result<Bytes, WireError>
    ensures exact { Yields result (written (packet_with common_header.now chunks.now)) }
    ensures range { OnOk result (IsPacket (packet_with common_header.now chunks.now)) }
{
    let mut out = unsummed(alloc, common_header, chunks)?;
    let sum = packet_sum(out.as_slice());
    set_sum(out.as_mut_slice(), sum);
    Ok(Bytes::from_vec(out)?)
}

fn unsummed(
    alloc: Global,
    common_header: &CommonHeader,
    chunks: &[Chunk],
) -> Result<Vec<u8>, WireError>
    ensures bytes { Builds result (packet_fits (packet_with common_header.now chunks.now))
        (unsummed (packet_with common_header.now chunks.now)) }
    ensures range { OnOk result (IsPacket (packet_with common_header.now chunks.now)) }
{
    let mut out = Vec::with_capacity(alloc, room_for(chunks))?;
    put_u16(&mut out, common_header.source_port)?;
    put_u16(&mut out, common_header.destination_port)?;
    put_u32(&mut out, common_header.verification_tag)?;
    put_u32(&mut out, 0)?;
    write_chunks(alloc, &mut out, chunks)?;
    Ok(out)
}
