// A request of the peer to reset its outgoing streams (RFC 6525 section 4.1).
ghost use Rattle.std.specs.Prelude.{◌≡◌, IfOk};
ghost use Rattle.sctp_reset_requests.specs.Ids.{set_of};
ghost use Rattle.sctp_reset_requests.specs.Request.{request_of, names_all, names, is_due, is_behind};

use sctp_wire_types::{ParamOutgoingResetRequest, StreamId, sna32gt, sna32lte};
use std::alloc::{AllocError, Global};
use std::collections::BTreeSet;
use std::marker::Model;

/// A request of the peer to reset streams of this side's reading: its number, the last TSN that was sent before it, and
/// the streams, each once. No stream is all of them, as on the wire.
#[derive(Debug, Drop)]
pub struct PeerRequest {
    number: u32,
    last_tsn: u32,
    ids: BTreeSet<StreamId>,
}

impl Model for PeerRequest {
    ghost use Rattle.sctp_reset_requests.specs.Request.{PeerRequestView};

    ghost Value = { PeerRequestView };

    ghost view = { λ r. record { number = r.number; last_tsn = r.last_tsn; ids = r.ids.keys } };
}

impl PeerRequest {
    /// The request that a parameter is.
    pub fn from_param(
        alloc: Global,
        param: &ParamOutgoingResetRequest,
    ) -> Result<PeerRequest, AllocError>
        ensures { IfOk result (λ request. request ≡ request_of param.now) }
    {
        Ok(PeerRequest {
            number: param.reconfig_request_sequence_number,
            last_tsn: param.sender_last_tsn,
            ids: set_of(alloc, param.stream_identifiers.as_slice())?,
        })
    }

    /// Its number, which the answer names.
    pub fn number(&self) -> u32
        ensures { result ≡ self.now.number }
    {
        self.number
    }

    /// The last TSN that the peer gave out before it: the boundary of the generations that it ends.
    pub fn last_tsn(&self) -> u32
        ensures { result ≡ self.now.last_tsn }
    {
        self.last_tsn
    }

    /// The streams that it names, ascending.
    pub fn ids(&self) -> &BTreeSet<StreamId>
        ensures { result.now.keys ≡ self.now.ids }
    {
        &self.ids
    }

    /// Whether it is for all streams.
    pub fn names_all(&self) -> bool
        ensures { result ≡ names_all self.now }
    {
        self.ids.is_empty()
    }

    /// Whether a stream is to be reset by it. Costs the logarithm of the streams that it names.
    pub fn names(&self, id: StreamId) -> bool
        ensures { result ≡ names self.now id }
    {
        self.names_all() || self.ids.contains(&id)
    }

    /// Whether all DATA that was sent before it came, so that it can be performed (RFC 6525 section 5.2.2, E2).
    pub fn is_due(&self, cumulative_tsn: u32) -> bool
        ensures { result ≡ is_due self.now cumulative_tsn }
    {
        sna32lte(self.last_tsn, cumulative_tsn)
    }

    /// Whether DATA belongs behind it: it is of a stream that it resets and was sent after it.
    pub fn is_behind(&self, id: StreamId, tsn: u32) -> bool
        ensures { result ≡ is_behind self.now id tsn }
    {
        self.names(id) && sna32gt(tsn, self.last_tsn)
    }
}

// The streams of a list, each once.
fn set_of(alloc: Global, ids: &[StreamId]) -> Result<BTreeSet<StreamId>, AllocError>
    ensures { IfOk result (λ set. set.keys ≡ set_of ids.now) }
{
    let mut set = BTreeSet::new(alloc);
    for id in ids {
        set.insert(*id)?;
    }
    Ok(set)
}
