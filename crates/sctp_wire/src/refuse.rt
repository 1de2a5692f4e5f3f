// Packets that are refused whole.
ghost use Rattle.std.specs.Prelude.{◌≡◌};
ghost use Rattle.std.specs.List.{list_any};
ghost use Rattle.sctp_wire.specs.Packets.{checked, is_init as is_init_chunk};

use crate::Packet;
use sctp_wire_types::{Chunk, Error, Fault};

/// Refuses a port 0, an INIT that is not alone and an INIT under a verification tag other than 0 (RFC 4960 sections
/// 3.1, 6.10 and 8.5.1).
pub fn check_packet(packet: &Packet) -> Result<(), Error>
    ensures { result ≡ checked packet.now }
{
    if packet.common_header.source_port == 0 || packet.common_header.destination_port == 0 {
        return Err(Error::Malformed(Fault::Port));
    }
    if has_init(packet.chunks.as_slice()) {
        if packet.chunks.len() != 1 {
            return Err(Error::Malformed(Fault::InitBundled));
        }
        if packet.common_header.verification_tag != 0 {
            return Err(Error::Malformed(Fault::InitTag));
        }
    }
    Ok(())
}

fn has_init(chunks: &[Chunk]) -> bool
    ensures { result ≡ list_any is_init_chunk chunks.now }
{
    chunks.iter().any(|chunk| matches!(chunk, Chunk::Init(_)))
}
