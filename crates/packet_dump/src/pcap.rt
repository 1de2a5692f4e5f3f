// Files of packets, as tcpdump writes them and Wireshark reads them: numbers high byte first.
ghost use Rattle.std.specs.Prelude.{◌≡◌, IfOk};
ghost use Rattle.packet_dump.specs.Pcap.{file_head_of, record_head_of};

use std::alloc::{AllocError, Global};

/// The number of SCTP among the link types.
const LINK_TYPE: u32 = 248;

/// What a file begins with in which packets of up to so many bytes follow.
pub fn file_head(alloc: Global, longest: u32) -> Result<Vec<u8>, AllocError>
    ensures { IfOk result (λ head. head.items ≡ file_head_of longest) }
{
    let mut head = Vec::new(alloc);
    head.extend_from_slice(&0xa1b2_c3d4u32.to_be_bytes())?;
    head.extend_from_slice(&2u16.to_be_bytes())?;
    head.extend_from_slice(&4u16.to_be_bytes())?;
    head.extend_from_slice(&0u32.to_be_bytes())?;
    head.extend_from_slice(&0u32.to_be_bytes())?;
    head.extend_from_slice(&longest.to_be_bytes())?;
    head.extend_from_slice(&LINK_TYPE.to_be_bytes())?;
    Ok(head)
}

/// What stands in front of a packet of `count` bytes that came at this moment.
pub fn record_head(alloc: Global, millis: u32, count: u32) -> Result<Vec<u8>, AllocError>
    ensures { IfOk result (λ head. head.items ≡ record_head_of millis count) }
{
    let seconds = millis / 1000;
    let micros = millis % 1000 * 1000;
    let mut head = Vec::new(alloc);
    head.extend_from_slice(&seconds.to_be_bytes())?;
    head.extend_from_slice(&micros.to_be_bytes())?;
    head.extend_from_slice(&count.to_be_bytes())?;
    head.extend_from_slice(&count.to_be_bytes())?;
    Ok(head)
}
