// What stands in one line.
ghost use Rattle.std.specs.Prelude.{IfOk};
ghost use Rattle.sctp_wire.specs.Results.{Gives};
ghost use Rattle.sctp_wire.specs.Packets.{packet_at};
ghost use Rattle.packet_dump.specs.Lines.{Shows};

use bytes::Bytes;
use hex::FromHexError;
use sctp_wire_queues::{Error, Packet, PartialDecode};
use std::alloc::{AllocError, Global};

/// What one line of hex is read as.
#[derive(Debug, Drop)]
pub enum Reading {
    NotHex,
    Refused(Error),
    Read(Packet),
}

/// Reads a datagram.
fn packet_of(alloc: Global, datagram: &Bytes) -> Result<Packet, Error>
    ensures { Gives result (packet_at datagram.now) }
{
    PartialDecode::unmarshal(datagram)?.finish(alloc)
}

/// Reads a line; the error is want of memory alone.
pub fn read_line(alloc: Global, line: &[u8]) -> Result<Reading, AllocError>
    ensures { IfOk result (Shows line.now) }
{
    let bytes = match hex::decode(alloc, line) {
        Ok(bytes) => bytes,
        Err(FromHexError::OutOfMemory) => return Err(AllocError),
        Err(_) => return Ok(Reading::NotHex),
    };
    let datagram = Bytes::from_vec(bytes)?;
    match packet_of(alloc, &datagram) {
        Ok(packet) => Ok(Reading::Read(packet)),
        Err(Error::ErrNoMemory) => Err(AllocError),
        Err(error) => Ok(Reading::Refused(error)),
    }
}
