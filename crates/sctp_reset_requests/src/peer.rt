// The peer's requests to reset its outgoing streams, by their numbers (RFC 6525 sections 5.2.1 and 5.2.2).
ghost use Rattle.std.specs.Prelude.{◌≡◌, IfOk, OnErr};
ghost use Rattle.std.specs.Option.{option_copied};
ghost use Rattle.sctp_reset_requests.specs.Request.{request_of};
ghost use Rattle.sctp_reset_requests.specs.Peer.{no_peer_request, met, standing_of, arrived, advanced, is_deferred};
ghost use Rattle.sctp_reset_requests.specs.Peer.{boundary_of, peer_closed, is_completed, is_current, is_next};
ghost use Rattle.sctp_reset_requests.specs.Peer.{is_one_due, taken_up};

use crate::{Arrival, PeerRequest, Standing};
use sctp_wire_types::{ParamOutgoingResetRequest, ReconfigResult, StreamId, sna32lte};
use std::alloc::{AllocError, Global};
use std::marker::Model;

/// Which requests of the peer were completed, and the one in progress: it waits until all DATA that was sent before it
/// came.
#[derive(Debug, Drop)]
pub struct PeerRequests {
    // The number of the last request that was completed, before the first one the peer's initial TSN less 1. None: the
    // peer's numbers are not known yet, so any is the next one.
    last_completed: Option<u32>,
    in_progress: Option<PeerRequest>,
}

impl Model for PeerRequests {
    ghost use Rattle.sctp_reset_requests.specs.Peer.{PeerView};

    ghost Value = { PeerView };

    ghost view = { λ p. record { last_completed = p.last_completed; in_progress = p.in_progress } };
}

impl PeerRequests {
    /// No request came, and the peer's numbers are not known.
    pub fn new() -> Self
        ensures { result ≡ no_peer_request }
    {
        PeerRequests {
            last_completed: None,
            in_progress: None,
        }
    }

    /// The peer's initial TSN became known: its first request has this number (RFC 6525 section 4.1).
    pub fn meet(&mut self, initial_tsn: u32)
        ensures { self.new ≡ met self.old initial_tsn }
    {
        self.last_completed = Some(initial_tsn.wrapping_sub(1));
    }

    /// The number of the last request that was completed, before the first one the peer's initial TSN less 1.
    pub fn last_completed(&self) -> Option<u32>
        ensures { result ≡ self.now.last_completed }
    {
        self.last_completed
    }

    /// The request that waits for DATA that was sent before it.
    pub fn in_progress(&self) -> Option<&PeerRequest>
        ensures { option_copied result ≡ self.now.in_progress }
    {
        self.in_progress.as_ref()
    }

    /// How a request with this number stands to those that came before it.
    pub fn standing(&self, number: u32) -> Standing
        ensures { result ≡ standing_of self.now number }
    {
        if self.is_current(number) {
            return Standing::InProgress;
        }
        if self.is_completed(number) {
            return Standing::Completed;
        }
        if self.in_progress.is_some() {
            return Standing::AnotherInProgress;
        }
        if self.is_next(number) {
            Standing::Next
        } else {
            Standing::OutOfOrder
        }
    }

    fn is_current(&self, number: u32) -> bool
        ensures { result ≡ is_current self.now.in_progress number }
    {
        match &self.in_progress {
            Some(request) => request.number() == number,
            None => false,
        }
    }

    fn is_completed(&self, number: u32) -> bool
        ensures { result ≡ is_completed self.now.last_completed number }
    {
        match self.last_completed {
            Some(last) => sna32lte(number, last),
            None => false,
        }
    }

    fn is_next(&self, number: u32) -> bool
        ensures { result ≡ is_next self.now.last_completed number }
    {
        match self.last_completed {
            Some(last) => number == last.wrapping_add(1),
            None => true,
        }
    }

    /// A request came (RFC 6525 section 5.2.1). The next one is taken up. It is performed where all DATA that was sent
    /// before it came, and else it is in progress; so is a repeat of one in progress. A repeat of a completed one is
    /// answered as that was, and performed no second time. Where memory is refused nothing changes.
    pub fn arrive(
        &mut self,
        alloc: Global,
        param: &ParamOutgoingResetRequest,
        cumulative_tsn: u32,
    ) -> Result<Arrival, AllocError>
        ensures arrived { IfOk result (λ arrival.
            arrived self.old (request_of param.now) cumulative_tsn ≡ (self.new, arrival)) }
        ensures unchanged { OnErr result (self.new ≡ self.old) }
        ensures grows { OnErr result (standing_of self.old param.now.reconfig_request_sequence_number ≡ Standing.Next) }
    {
        match self.standing(param.reconfig_request_sequence_number) {
            Standing::Completed => Ok(Arrival::Answered(ReconfigResult::SuccessPerformed)),
            Standing::AnotherInProgress => Ok(Arrival::Answered(
                ReconfigResult::ErrorRequestAlreadyInProgress,
            )),
            Standing::OutOfOrder => Ok(Arrival::Answered(ReconfigResult::ErrorBadSequenceNumber)),
            Standing::InProgress => Ok(self.take_up(cumulative_tsn)),
            Standing::Next => {
                self.in_progress = Some(PeerRequest::from_param(alloc, param)?);
                Ok(self.take_up(cumulative_tsn))
            }
        }
    }

    // Performs the request in progress, or answers that it is in progress.
    fn take_up(&mut self, cumulative_tsn: u32) -> Arrival
        ensures { taken_up (advanced self.old cumulative_tsn) ≡ (self.new, result) }
    {
        match self.advance(cumulative_tsn) {
            Some(request) => Arrival::Performed(request),
            None => Arrival::Answered(ReconfigResult::InProgress),
        }
    }

    /// The last TSN in order moved. Gives the request in progress where it can be performed now (RFC 6525 section
    /// 5.2.2, E2): it counts as completed, and the caller resets its streams and answers SuccessPerformed.
    pub fn advance(&mut self, cumulative_tsn: u32) -> Option<PeerRequest>
        ensures { advanced self.old cumulative_tsn ≡ (self.new, result) }
    {
        if !self.is_due(cumulative_tsn) {
            return None;
        }
        let request = self.in_progress.take()?;
        self.last_completed = Some(request.number());
        Some(request)
    }

    fn is_due(&self, cumulative_tsn: u32) -> bool
        ensures { result ≡ is_one_due self.now.in_progress cumulative_tsn }
    {
        match &self.in_progress {
            Some(request) => request.is_due(cumulative_tsn),
            None => false,
        }
    }

    /// Whether DATA belongs behind the request in progress, so that it is kept apart until that is performed. Costs the
    /// logarithm of the streams that the request names, and nothing where none is in progress.
    pub fn is_deferred(&self, id: StreamId, tsn: u32) -> bool
        ensures { result ≡ is_deferred self.now id tsn }
    {
        match &self.in_progress {
            Some(request) => request.is_behind(id, tsn),
            None => false,
        }
    }

    /// The last TSN of the request in progress, where that names a stream: up to it DATA belongs before the request.
    pub fn boundary_of(&self, id: StreamId) -> Option<u32>
        ensures { result ≡ boundary_of self.now id }
    {
        match &self.in_progress {
            Some(request) if request.names(id) => Some(request.last_tsn()),
            _ => None,
        }
    }

    /// The association is closed: no request is in progress. The numbers stay.
    pub fn close(&mut self)
        ensures { self.new ≡ peer_closed self.old }
    {
        self.in_progress = None;
    }
}
