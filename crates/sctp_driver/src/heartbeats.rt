// A side asks its peer whether it is there.
ghost use Rattle.std.specs.Prelude.{◌≡◌, Err, IfOk, OnErr, OnOk};
ghost use Rattle.sctp_assoc.specs.Calls.{RefusesOrLacksMemory};
ghost use Rattle.sctp_driver.specs.Heartbeats.{asking, heartbeat, heartbeat_refusal, with_heartbeat};
ghost use Rattle.sctp_driver.specs.Late.{datagram_of};

use crate::Driver;
use crate::late::datagram_of;
use bytes::Bytes;
use sctp_assoc::{Association, Error, Profile};
use sctp_wire_queues::{Chunk, ChunkHeartbeat, List, Param};
use std::alloc::{AllocError, Global};

impl Driver {
    /// Asks the peer whether it is there: a HEARTBEAT waits behind the datagrams that wait in the driver (RFC 4960
    /// section 8.3), with `now`, in nanoseconds, in it. A peer that is there answers by a HEARTBEAT ACK, which
    /// `handle_datagram` takes, and which changes nothing else. So whoever asks while nothing is under way, and keeps
    /// the time since a datagram was taken, learns that the peer is gone. No timer of the association runs for it, and
    /// it is not sent again. By the rules of the port nothing goes out, as the answer would end the association.
    ///
    /// Refused, in this order with nothing changed: `ErrAssociationFailed`; `ErrPayloadDataStateNotExist` in any state
    /// but Established; `ErrNoMemory`.
    pub fn heartbeat(&mut self, now: u64) -> Result<(), Error>
        ensures refused { RefusesOrLacksMemory result (heartbeat_refusal self.old.association) }
        ensures ok { OnOk result (self.new ≡ with_heartbeat self.old now) }
        ensures unchanged { OnErr result (self.new ≡ self.old) }
    {
        if self.is_failed() {
            return Err(Error::ErrAssociationFailed);
        }
        if !self.is_established() {
            return Err(Error::ErrPayloadDataStateNotExist);
        }
        match self.association.profile() {
            Profile::Rfc => self.ask_peer(now),
            Profile::Port => Ok(()),
        }
    }

    fn ask_peer(&mut self, now: u64) -> Result<(), Error>
        ensures ok { OnOk result (self.new ≡ asking self.old now) }
        ensures err { OnErr result ((result ≡ Err Error.ErrNoMemory) × (self.new ≡ self.old)) }
    {
        let answer = heartbeat_of(self.alloc, &self.association, now)?;
        if let Some(datagram) = answer {
            self.waiting.reserve(1)?;
            self.waiting.push_back_reserved(datagram);
        }
        Ok(())
    }
}

// The datagram with a HEARTBEAT; None where it cannot be spelled.
fn heartbeat_of(alloc: Global, association: &Association, now: u64) -> Result<Option<Bytes>, Error>
    ensures ok { IfOk result (λ datagram. datagram ≡ datagram_of association.now (heartbeat now)) }
    ensures only { OnErr result (result ≡ Err Error.ErrNoMemory) }
{
    let chunk = heartbeat(alloc, now)?;
    datagram_of(alloc, association, chunk)
}

fn heartbeat(alloc: Global, now: u64) -> Result<Chunk, AllocError>
    ensures { IfOk result (λ chunk. chunk ≡ heartbeat now) }
{
    let mut params = List::new(alloc);
    params.push(Param::HeartbeatInfo(Bytes::copy_from_slice(alloc, &now.to_be_bytes())?))?;
    Ok(Chunk::Heartbeat(ChunkHeartbeat { params }))
}
