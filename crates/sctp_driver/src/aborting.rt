// An end that the peer is told of, with a reason.
ghost use Rattle.std.specs.Prelude.{◌≡◌, ◌↔◌, ◌⊎◌, ◌∷◌, [], true, Err, IfOk, IsErrOf, OnErr, OnOk};
ghost use Rattle.sctp_wire.specs.Results.{Gives};
ghost use Rattle.sctp_inbound.specs.Handshake.{header_of};
ghost use Rattle.sctp_driver.specs.Aborting.{Aborts, IsTooLong, abort_of, user_abort};
ghost use Rattle.sctp_driver.specs.Driving.{RunsOutOfMemory};

use crate::Driver;
use bytes::Bytes;
use sctp_assoc::{Association, Error};
use sctp_wire_queues::{Chunk, ChunkAbort, CommonHeader, ErrorCause, List, marshal};
use std::alloc::{AllocError, Global};

/// The code of the error cause User-Initiated Abort (RFC 4960 section 3.3.10.12).
const USER_INITIATED_ABORT: u16 = 12;

impl Driver {
    /// Closes the association at once, as `close` does, and tells the peer by an ABORT, which goes out behind the
    /// datagrams that wait in the driver (RFC 4960 section 9.1). `reason` stands in its cause User-Initiated Abort:
    /// text for people, of any length up to 65,527 bytes, and best so short that a datagram carries it. In Closed
    /// nothing changes; before the peer's tag is known it closes, and there is nobody to tell.
    ///
    /// Refused: `ErrAssociationFailed` and `ErrOutboundPacketTooLarge`, with nothing changed; `ErrNoMemory`, with
    /// nothing changed or the association failed.
    pub fn abort(&mut self, reason: &[u8]) -> Result<(), Error>
        ensures ok { OnOk result (Aborts self.old reason.now self.new) }
        ensures failed { IsErrOf result Error.ErrAssociationFailed ↔ (self.old.association.failed ≡ true) }
        ensures refused { IsErrOf result Error.ErrAssociationFailed → self.new ≡ self.old }
        ensures long { IsErrOf result Error.ErrOutboundPacketTooLarge
            → IsTooLong self.old.association reason.now × (self.new ≡ self.old) }
        ensures memory { IsErrOf result Error.ErrNoMemory → (self.new ≡ self.old) ⊎ RunsOutOfMemory self.old self.new }
        ensures only { OnErr result ((result ≡ Err Error.ErrAssociationFailed)
            ⊎ ((result ≡ Err Error.ErrOutboundPacketTooLarge) ⊎ (result ≡ Err Error.ErrNoMemory))) }
    {
        if self.is_failed() {
            return Err(Error::ErrAssociationFailed);
        }
        if self.is_closed() {
            return Ok(());
        }
        if self.association.peer_tag() == 0 {
            return self.close();
        }
        let datagram = abort_of(self.alloc, &self.association, reason)?;
        self.waiting.reserve(1)?;
        self.association.close()?;
        self.waiting.push_back_reserved(datagram);
        Ok(())
    }
}

// The datagram with the ABORT.
fn abort_of(alloc: Global, association: &Association, reason: &[u8]) -> Result<Bytes, Error>
    ensures ok { IfOk result (λ datagram. abort_of association.now reason.now ≡ Ok datagram) }
    ensures long { IsErrOf result Error.ErrOutboundPacketTooLarge → IsTooLong association.now reason.now }
    ensures only { OnErr result ((result ≡ Err Error.ErrOutboundPacketTooLarge) ⊎ (result ≡ Err Error.ErrNoMemory)) }
{
    let chunk = user_abort(alloc, reason)?;
    match marshal(alloc, &header_of(association), &[chunk]) {
        Ok(datagram) => Ok(datagram),
        Err(Error::Malformed(_)) => Err(Error::ErrOutboundPacketTooLarge),
        // What is written is refused by a fault, or for want of memory.
        Err(_) => Err(Error::ErrNoMemory),
    }
}

pub(crate) fn header_of(association: &Association) -> CommonHeader
    ensures { result ≡ header_of association.now.handshake }
{
    let (source_port, destination_port) = association.ports();
    CommonHeader {
        source_port,
        destination_port,
        verification_tag: association.peer_tag(),
    }
}

fn user_abort(alloc: Global, reason: &[u8]) -> Result<Chunk, AllocError>
    ensures { IfOk result (λ chunk. chunk ≡ user_abort reason.now) }
{
    let mut error_causes = List::new(alloc);
    error_causes.push(ErrorCause {
        code: USER_INITIATED_ABORT,
        value: Bytes::copy_from_slice(alloc, reason)?,
    })?;
    Ok(Chunk::Abort(ChunkAbort { error_causes }))
}
