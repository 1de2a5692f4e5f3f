// One request of this side to reset its outgoing streams (RFC 6525 section 4.1).
ghost use Rattle.std.specs.Prelude.{◌≡◌, IfOk, Some, true};
ghost use Rattle.std.specs.List.{list_any};
ghost use Rattle.sctp_outbound_queue.specs.Outbound.{has_stream};

use sctp_outbound_queue::OutboundQueue;
use sctp_wire_types::{List, ParamOutgoingResetRequest, StreamId};
use std::alloc::{AllocError, Global};

/// A request that is to reset streams, as long as it is not answered.
#[derive(Debug, Drop)]
pub struct OwnRequest {
    pub number: u32,
    /// The number of the peer's request that it answers, or of the last one that was completed.
    pub response_number: u32,
    /// It resets all streams, as the peer's request did: then it names none on the wire.
    pub names_all: bool,
    /// The streams, ascending; where it resets all, those that the peer's request reset.
    pub ids: List<StreamId>,
}

/// The request that was sent and is not answered.
#[derive(Debug, Drop)]
pub struct SentRequest {
    pub request: OwnRequest,
    /// The last TSN that was given out before it was first sent.
    pub last_tsn: u32,
    /// The timer expired since it was last sent.
    pub repeat_due: bool,
    /// The peer answered that it is in progress, so that no response number ends it (`Profile::Rfc`).
    pub is_put_off: bool,
    /// Its timer expired too often, which was told; it goes out again all the same (`Profile::Rfc`).
    pub is_given_up: bool,
}

/// The most streams that one request names: more of them have no room in a chunk, whose length is told in 16 bits.
pub const MOST_IDS: usize = 32_757;

impl OwnRequest {
    ghost use Rattle.sctp_reset_requests.specs.Own.{stream_identifiers_of, param_of, is_quiet, fits_chunk, may_go};
    ghost use Rattle.sctp_reset_requests.specs.Own.{HasRoom};

    /// Whether no DATA of its streams waits to be sent or is unacknowledged. Goes over what waits and is in flight,
    /// once for each of its streams.
    pub fn is_quiet(&self, queue: &OutboundQueue) -> bool
        ensures { result ≡ is_quiet self.now queue.now }
    {
        if self.names_all {
            queue.is_empty()
        } else {
            !any_in(queue, self.ids.as_slice())
        }
    }

    /// Whether a chunk has room for it.
    pub fn fits_chunk(&self) -> bool
        ensures { result ≡ fits_chunk self.now }
    {
        self.names_all || self.ids.len() <= MOST_IDS
    }

    /// Whether it can go out for the first time.
    pub fn may_go(&self, queue: &OutboundQueue) -> bool
        ensures { result ≡ may_go self.now queue.now }
    {
        self.is_quiet(queue) && self.fits_chunk()
    }

    /// The request as it is sent, with the last TSN that was given out before it.
    pub fn param(
        &self,
        alloc: Global,
        last_tsn: u32,
    ) -> Result<ParamOutgoingResetRequest, AllocError>
        ensures param { IfOk result (λ param. param ≡ param_of self.now last_tsn) }
        ensures room { IfOk result (λ param. fits_chunk self.now ≡ true → HasRoom (Some param)) }
    {
        Ok(ParamOutgoingResetRequest {
            reconfig_request_sequence_number: self.number,
            reconfig_response_sequence_number: self.response_number,
            sender_last_tsn: last_tsn,
            stream_identifiers: self.stream_identifiers(alloc)?,
        })
    }

    fn stream_identifiers(&self, alloc: Global) -> Result<List<StreamId>, AllocError>
        ensures { IfOk result (λ ids. ids ≡ stream_identifiers_of self.now) }
    {
        if self.names_all {
            Ok(List::new(alloc))
        } else {
            Ok(List::from_vec(Vec::from_slice(alloc, self.ids.as_slice())?))
        }
    }
}

// Whether DATA of one of these streams waits or is unacknowledged.
fn any_in(queue: &OutboundQueue, ids: &[StreamId]) -> bool
    ensures { result ≡ list_any (has_stream queue.now) ids.now }
{
    ids.iter().any(|id| queue.contains_stream(*id))
}
