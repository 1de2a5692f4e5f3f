// What a driver answers for an association that is over.
ghost use Rattle.std.specs.Prelude.{◌≡◌, Err, IfOk, OnErr, OnOk};
ghost use Rattle.sctp_driver.specs.Late.{answers_late, behind, complete_of, datagram_of, is_shutdown_ack};

use crate::Driver;
use crate::aborting::header_of;
use crate::tags::{FirstChunk, first_chunk};
use bytes::Bytes;
use sctp_assoc::{Association, Error, PartialDecode, Profile};
use sctp_wire_queues::{Chunk, marshal};
use std::alloc::Global;

impl Driver {
    // Whether a packet is a SHUTDOWN ACK that comes to an association which is over, and is answered.
    pub(crate) fn answers_late(&self, packet: &PartialDecode) -> bool
        ensures { result ≡ answers_late self.now packet.now }
    {
        self.association.is_drained()
            && matches!(self.association.profile(), Profile::Rfc)
            && is_shutdown_ack(first_chunk(packet.remaining.as_slice()))
            && self.association.peer_tag() != 0
            && self.waiting.is_empty()
    }

    // SHUTDOWN COMPLETE waits to go out (RFC 4960 section 8.4).
    #[cold]
    #[inline(never)]
    pub(crate) fn answer_late(&mut self) -> Result<(), Error>
        ensures ok { OnOk result (self.new
            ≡ record self.old { waiting = behind self.old.waiting (complete_of self.old.association) }) }
        ensures err { OnErr result ((result ≡ Err Error.ErrNoMemory) × (self.new ≡ self.old)) }
    {
        let answer = complete_of(self.alloc, &self.association)?;
        if let Some(datagram) = answer {
            self.waiting.reserve(1)?;
            self.waiting.push_back_reserved(datagram);
        }
        Ok(())
    }
}

fn complete_of(alloc: Global, association: &Association) -> Result<Option<Bytes>, Error>
    ensures ok { IfOk result (λ datagram. datagram ≡ complete_of association.now) }
    ensures only { OnErr result (result ≡ Err Error.ErrNoMemory) }
{
    datagram_of(alloc, association, Chunk::ShutdownComplete)
}

/// The datagram with this chunk alone; None where it cannot be spelled.
pub(crate) fn datagram_of(
    alloc: Global,
    association: &Association,
    chunk: Chunk,
) -> Result<Option<Bytes>, Error>
    ensures ok { IfOk result (λ datagram. datagram ≡ datagram_of association.now chunk) }
    ensures only { OnErr result (result ≡ Err Error.ErrNoMemory) }
{
    match marshal(alloc, &header_of(association), &[chunk]) {
        Ok(datagram) => Ok(Some(datagram)),
        Err(Error::Malformed(_)) => Ok(None),
        // What is written is refused by a fault, or for want of memory.
        Err(_) => Err(Error::ErrNoMemory),
    }
}

fn is_shutdown_ack(first: FirstChunk) -> bool
    ensures { result ≡ is_shutdown_ack first }
{
    matches!(first, FirstChunk::ShutdownAck)
}
