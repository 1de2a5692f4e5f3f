// This side's requests to reset its outgoing streams (RFC 6525 section 5.1).
ghost use Rattle.std.specs.Prelude.{◌≡◌, IfOk, OnOk, OnErr, not, filter, fold, is_some, length, nat_lt, true};
ghost use Rattle.std.specs.List.{list_any};
ghost use Rattle.std.specs.Ordering.{nat_cmp};
ghost use Rattle.std.specs.BTreeSet.{insert_key};
ghost use Rattle.sctp_wire_types.specs.Config.{is_rfc};
ghost use Rattle.sctp_outbound_queue.specs.Outbound.{has_stream};
ghost use Rattle.sctp_reset_requests.specs.Ids.{without};
ghost use Rattle.sctp_reset_requests.specs.Own.{no_own_request, is_asked_for, with_waiting, with_request};
ghost use Rattle.sctp_reset_requests.specs.Own.{reciprocated, quiet_ids, asked, sent_first, expired};
ghost use Rattle.sctp_reset_requests.specs.Own.{repeated, ended, confirmed, answered, own_closed, has_number};
ghost use Rattle.sctp_reset_requests.specs.Own.{with_active, with_repeat, param_again, ended_as, HasRoom};
ghost use Rattle.sctp_reset_requests.specs.Own.{IsFollowed, answers_all, ends_here, failing_ids, is_confirmed_by};
ghost use Rattle.sctp_reset_requests.specs.Own.{is_reset_here, marked_given_up, open_requests, put_ahead, put_off};
ghost use Rattle.sctp_reset_requests.specs.Own.{resets, to_reset, with_performed, behind_after, are_to_reset_twice};

use crate::named::NamedIds;
use crate::{Answered, MOST_IDS, OwnRequest, PeerRequest, PeerRequests, SentRequest, outcome_of};
use sctp_outbound_queue::OutboundQueue;
use sctp_wire_types::{
    List, ParamOutgoingResetRequest, ParamReconfigResponse, Profile, StreamId, StreamResetError,
};
use std::alloc::{AllocError, Global};
use std::collections::{BTreeSet, VecDeque};
use std::marker::Model;

/// The streams that are to be reset and the requests for them. At most one request is sent and not answered.
#[derive(Debug, Drop)]
pub struct OwnRequests {
    profile: Profile,
    // The number that the next request gets (RFC 6525 section 4.1).
    next_number: u32,
    // The streams that are to be reset and are in no request yet.
    waiting: BTreeSet<StreamId>,
    // The requests that were never sent, oldest first.
    queued: VecDeque<OwnRequest>,
    active: Option<SentRequest>,
    // How many of the requests, queued or active, name each stream.
    named: NamedIds,
    // The streams that this side reset first, and the peer did not since (`Profile::Rfc`).
    ahead: BTreeSet<StreamId>,
}

impl Model for OwnRequests {
    ghost use Rattle.sctp_reset_requests.specs.Own.{OwnView, AreKept};

    ghost Value = { OwnView };

    ghost view = { λ o. record {
      profile = o.profile;
      next_number = o.next_number;
      waiting = o.waiting.keys;
      queued = o.queued.items;
      active = o.active;
      ahead = o.ahead.keys;
    } };

    ghost invariant = { λ o. AreKept o.named o.queued.items o.active o.next_number };
}

impl OwnRequests {
    /// Nothing is to be reset, and the first request gets the own initial TSN as its number (RFC 6525 section 4.1).
    /// Takes no memory.
    pub fn new(alloc: Global, profile: Profile, initial_tsn: u32) -> Self
        ensures { result ≡ no_own_request profile initial_tsn }
    {
        OwnRequests {
            profile,
            next_number: initial_tsn,
            waiting: BTreeSet::new(alloc),
            queued: VecDeque::new(alloc),
            active: None,
            named: NamedIds::new(alloc),
            ahead: BTreeSet::new(alloc),
        }
    }

    /// Whether the rules of the RFCs are kept.
    pub fn is_by_rfcs(&self) -> bool
        ensures { result ≡ is_rfc self.now.profile }
    {
        matches!(self.profile, Profile::Rfc)
    }

    /// Whether a stream is to be reset: it waits, a request that is not answered names it, or the peer did not reset
    /// its half yet. Costs the logarithm of the streams of which that is so.
    pub fn is_asked_for(&self, id: StreamId) -> bool
        ensures { result ≡ is_asked_for self.now id }
    {
        self.waiting.contains(&id) || self.is_open(id) || self.ahead.contains(&id)
    }

    // Whether a request that is not answered names a stream.
    fn is_open(&self, id: StreamId) -> bool
        ensures { result ≡ list_any (resets id) (open_requests self.now) }
    {
        self.named.contains(id)
    }

    // Whether two requests that are not answered name a stream, or two are for all of them.
    fn is_open_twice(&self, id: StreamId) -> bool
        ensures { result ≡ are_to_reset_twice (open_requests self.now) id }
    {
        self.named.contains_twice(id)
    }

    /// Whether the peer's request that names a stream is the answer to a reset that this side began and that ended: it
    /// resets the other half, and no request of this side is open that names it.
    pub fn ends_here(&self, id: StreamId) -> bool
        ensures { result ≡ ends_here self.now id }
    {
        self.ahead.contains(&id) && !self.is_open(id)
    }

    fn is_reset_here(&self, id: StreamId) -> bool
        ensures { result ≡ is_reset_here self.now id }
    {
        self.ahead.contains(&id) || self.is_open_twice(id)
    }

    /// The streams that this side resets in answer to a request of the peer that was performed: of those that it names,
    /// by the rules of the RFCs, those that this side does not reset by itself; by those of the port the ones of which
    /// a generation ended.
    pub fn to_reset(
        &self,
        alloc: Global,
        named: &[StreamId],
        retired: Vec<StreamId>,
    ) -> Result<Vec<StreamId>, AllocError>
        ensures { IfOk result (λ ids. ids.items ≡ to_reset self.now named.now retired.items) }
    {
        if self.is_by_rfcs() {
            self.not_reset_here(alloc, named)
        } else {
            Ok(retired)
        }
    }

    fn not_reset_here(&self, alloc: Global, ids: &[StreamId]) -> Result<Vec<StreamId>, AllocError>
        ensures { IfOk result (λ others. others.items ≡ filter (λ id. not (is_reset_here self.now id)) ids.now) }
    {
        ids.iter()
            .copied()
            .filter(|id| !self.is_reset_here(*id))
            .collect(alloc)
    }

    /// A request of the peer that names these streams was performed: of them this side is ahead no longer.
    pub fn perform(&mut self, named: &[StreamId])
        ensures { self.new ≡ with_performed self.old named.now }
    {
        remove_each(&mut self.ahead, named);
    }

    /// The number of requests that were never sent.
    pub fn queued_len(&self) -> usize
        ensures { result ≡ length self.now.queued }
    {
        self.queued.len()
    }

    /// Whether a request is sent and not answered: then the timer runs.
    pub fn has_active(&self) -> bool
        ensures { result ≡ is_some self.now.active }
    {
        self.active.is_some()
    }

    /// A stream is to be reset. Where memory is refused nothing changes.
    pub fn wait_for(&mut self, id: StreamId) -> Result<(), AllocError>
        ensures ok { OnOk result (self.new ≡ with_waiting self.old id) }
        ensures err { OnErr result (self.new ≡ self.old) }
    {
        self.waiting.insert(id)?;
        Ok(())
    }

    /// The peer's request was performed. Makes the request that resets these streams in the other direction (RFC 8831
    /// section 6.7). Where memory is refused nothing changes.
    pub fn reciprocate(
        &mut self,
        request: &PeerRequest,
        ids: List<StreamId>,
    ) -> Result<(), AllocError>
        ensures ok { OnOk result (self.new ≡ reciprocated self.old request.now ids) }
        ensures err { OnErr result (self.new ≡ self.old) }
    {
        if ids.is_empty() {
            return Ok(());
        }
        let names_all = self.answers_all(request, &ids);
        self.add_request(request.number(), names_all, ids)
    }

    fn answers_all(&self, request: &PeerRequest, ids: &List<StreamId>) -> bool
        ensures { result ≡ answers_all self.now request.now ids.now }
    {
        request.names_all() && (self.ahead.is_empty() || !(ids.len() <= MOST_IDS))
    }

    // Makes a request behind those that are queued.
    fn add_request(
        &mut self,
        response_number: u32,
        names_all: bool,
        ids: List<StreamId>,
    ) -> Result<(), AllocError>
        ensures ok { OnOk result (self.new ≡ with_request self.old response_number names_all ids) }
        ensures err { OnErr result (self.new ≡ self.old) }
    {
        self.queued.reserve(1)?;
        self.named.add(ids.as_slice(), names_all)?;
        remove_each(&mut self.waiting, ids.as_slice());
        self.queued.push_back_reserved(OwnRequest {
            number: self.next_number,
            response_number,
            names_all,
            ids,
        });
        self.next_number = self.next_number.wrapping_add(1);
        Ok(())
    }

    /// Makes a request for the streams that wait and of which no DATA waits to be sent or is unacknowledged, where no
    /// request is queued or active; by the rules of the RFCs this side is ahead of them then. Its response number is
    /// that of the last request of the peer that was completed, so that it ends none that is in progress. Answers
    /// whether it made one. Where memory is refused no request is made, and some of the streams may count as ahead.
    /// Goes over what waits and is in flight, once for each stream that waits.
    pub fn ask(
        &mut self,
        alloc: Global,
        queue: &OutboundQueue,
        peer: &PeerRequests,
    ) -> Result<bool, AllocError>
        ensures ok { IfOk result (λ made. asked self.old queue.now peer.now ≡ (self.new, made)) }
        ensures grows { OnErr result (nat_lt 0 (length self.old.waiting) ≡ true) }
        ensures made { IfOk result (λ made. made ≡ true → nat_lt 0 (length self.old.waiting) ≡ true) }
    {
        if self.waiting.is_empty() {
            return Ok(false);
        }
        if self.has_active() || self.queued_len() > 0 {
            return Ok(false);
        }
        let Some(last_completed) = peer.last_completed() else {
            return Ok(false);
        };
        let ids = self.quiet_ids(alloc, queue)?;
        if ids.is_empty() {
            return Ok(false);
        }
        self.put_ahead(ids.as_slice())?;
        self.add_request(last_completed, false, ids)?;
        Ok(true)
    }

    fn put_ahead(&mut self, ids: &[StreamId]) -> Result<(), AllocError>
        ensures { OnOk result (self.new ≡ put_ahead self.old ids.now) }
    {
        if self.is_by_rfcs() {
            insert_each(&mut self.ahead, ids)?;
        }
        Ok(())
    }

    fn quiet_ids(&self, alloc: Global, queue: &OutboundQueue) -> Result<List<StreamId>, AllocError>
        ensures { IfOk result (λ ids. ids ≡ quiet_ids self.now queue.now) }
    {
        let mut ids = quiet_among(alloc, &self.waiting, queue)?;
        ids.truncate(MOST_IDS);
        Ok(List::from_vec(ids))
    }

    /// Sends the oldest request that was never sent, where none is active and no DATA of its streams waits to be sent
    /// or is unacknowledged: it is active from then on. Its last TSN is fixed now (RFC 6525 section 5.1.2). Gives it as
    /// it goes out. Where memory is refused nothing changes.
    pub fn send_first(
        &mut self,
        alloc: Global,
        queue: &OutboundQueue,
    ) -> Result<Option<ParamOutgoingResetRequest>, AllocError>
        ensures ok { IfOk result (λ sent. sent_first self.old queue.now ≡ (self.new, sent)) }
        ensures room { IfOk result HasRoom }
        ensures err { OnErr result (self.new ≡ self.old) }
    {
        if self.active.is_some() {
            return Ok(None);
        }
        let Some(first) = self.queued.front() else {
            return Ok(None);
        };
        if !first.may_go(queue) {
            return Ok(None);
        }
        let last_tsn = queue.next_tsn().wrapping_sub(1);
        let param = first.param(alloc, last_tsn)?;
        if let Some(request) = self.queued.pop_front() {
            self.active = Some(SentRequest {
                request,
                last_tsn,
                repeat_due: false,
                is_put_off: false,
                is_given_up: false,
            });
        }
        Ok(Some(param))
    }

    /// The timer expired and may go on: the active request is to go out again.
    pub fn expire(&mut self)
        ensures { self.new ≡ expired self.old }
    {
        self.set_repeat(true);
    }

    fn set_repeat(&mut self, due: bool)
        ensures { self.new ≡ with_active self.old (with_repeat due self.old.active) }
    {
        if let Some(active) = &mut self.active {
            active.repeat_due = due;
        }
    }

    /// Gives the active request as it went out first, where it is to go out again: once for each expiry. Where memory
    /// is refused nothing changes.
    pub fn repeat(&mut self, alloc: Global) -> Result<Option<ParamOutgoingResetRequest>, AllocError>
        ensures ok { IfOk result (λ sent. repeated self.old ≡ (self.new, sent)) }
        ensures room { IfOk result HasRoom }
        ensures err { OnErr result (self.new ≡ self.old) }
        ensures grows { OnErr result (is_some self.old.active ≡ true) }
    {
        let param = self.param_again(alloc)?;
        self.set_repeat(false);
        Ok(param)
    }

    fn param_again(&self, alloc: Global) -> Result<Option<ParamOutgoingResetRequest>, AllocError>
        ensures again { IfOk result (λ param. param ≡ param_again self.now.active) }
        ensures room { IfOk result HasRoom }
        ensures grows { OnErr result (is_some self.now.active ≡ true) }
    {
        match &self.active {
            Some(active) if active.repeat_due => {
                Ok(Some(active.request.param(alloc, active.last_tsn)?))
            }
            _ => Ok(None),
        }
    }

    /// A request of the peer names this response number: where it is the active request's, that one was performed (RFC
    /// 6525 section 5.2.2, E1); by the rules of the RFCs only where the peer did not answer it as in progress. Gives
    /// the request that ended by it.
    pub fn confirm(&mut self, number: u32) -> Option<OwnRequest>
        ensures { confirmed self.old number ≡ (self.new, result) }
    {
        if !self.is_confirmed_by(number) {
            return None;
        }
        self.end()
    }

    fn is_confirmed_by(&self, number: u32) -> bool
        ensures { result ≡ is_confirmed_by self.now.active number }
    {
        match &self.active {
            Some(active) => active.request.number == number && !active.is_put_off,
            None => false,
        }
    }

    /// A response came (RFC 6525 section 5.2.7). One that does not name the active request is ignored.
    pub fn answer(&mut self, response: &ParamReconfigResponse) -> Answered
        ensures { answered self.old response.now ≡ (self.new, result) }
    {
        if !self.is_active(response.reconfig_response_sequence_number) {
            return Answered::Ignored;
        }
        match outcome_of(response.result) {
            Some(outcome) => self.end_as(outcome),
            None => {
                self.put_off();
                Answered::InProgress
            }
        }
    }

    // The peer answered that the active request is in progress.
    fn put_off(&mut self)
        ensures { self.new ≡ with_active self.old (put_off (is_rfc self.old.profile) self.old.active) }
    {
        let marks = self.is_by_rfcs();
        if let Some(active) = &mut self.active {
            active.repeat_due = false;
            active.is_put_off = active.is_put_off || marks;
        }
    }

    fn end_as(&mut self, outcome: Result<(), StreamResetError>) -> Answered
        ensures { ended_as (ended self.old) outcome ≡ (self.new, result) }
    {
        match self.end() {
            Some(request) => {
                if outcome.is_err() {
                    self.perform(request.ids.as_slice());
                }
                Answered::Ended(request, outcome)
            }
            None => Answered::Ignored,
        }
    }

    fn is_active(&self, number: u32) -> bool
        ensures { result ≡ has_number self.now.active number }
    {
        match &self.active {
            Some(active) => active.request.number == number,
            None => false,
        }
    }

    /// The streams of which it is told that their reset failed where the active request is given up and is to go on:
    /// its own at the first time, and none behind that.
    pub fn failing_ids(&self) -> &[StreamId]
        ensures { result.now ≡ failing_ids self.now.active }
    {
        match &self.active {
            Some(active) if !active.is_given_up => active.request.ids.as_slice(),
            _ => &[],
        }
    }

    /// The active request is given up, and goes out again all the same (`Profile::Rfc`): its number is spent.
    pub fn mark_given_up(&mut self)
        ensures { self.new ≡ marked_given_up self.old }
    {
        if let Some(active) = &mut self.active {
            active.is_given_up = true;
        }
    }

    /// Ends the active request, as by the rules of the port where its timer expired too often, and gives it. The
    /// request that is to go out next has the number after it.
    pub fn end(&mut self) -> Option<OwnRequest>
        ensures ended { ended self.old ≡ (self.new, result) }
        ensures numbered { IsFollowed result self.new }
    {
        let SentRequest { request, .. } = self.active.take()?;
        self.named.remove(request.ids.as_slice(), request.names_all);
        Some(request)
    }

    /// The association is closed: nothing is to be reset. The numbers go on.
    pub fn close(&mut self)
        ensures { self.new ≡ own_closed self.old }
    {
        self.waiting.clear();
        self.queued.clear();
        self.active = None;
        self.named.clear();
        self.ahead.clear();
    }
}

// Takes the identifiers out of a set.
fn remove_each(waiting: &mut BTreeSet<StreamId>, ids: &[StreamId])
    ensures { waiting.new.keys ≡ without waiting.old.keys ids.now }
{
    // that the set is in order is needed for the proof
    let _count = waiting.len();
    for id in ids {
        waiting.remove(id);
    }
}

// Puts the identifiers into a set.
fn insert_each(ahead: &mut BTreeSet<StreamId>, ids: &[StreamId]) -> Result<(), AllocError>
    ensures { OnOk result (ahead.new.keys ≡ fold (insert_key nat_cmp) ahead.old.keys ids.now) }
{
    for id in ids {
        ahead.insert(*id)?;
    }
    Ok(())
}

// Of the streams of a set, ascending, those of which no DATA waits or is unacknowledged.
fn quiet_among(
    alloc: Global,
    waiting: &BTreeSet<StreamId>,
    queue: &OutboundQueue,
) -> Result<Vec<StreamId>, AllocError>
    ensures { IfOk result (λ ids. ids.items ≡ filter (λ id. not (has_stream queue.now id)) waiting.now.keys) }
{
    let mut ids = Vec::new(alloc);
    for id in waiting {
        if !queue.contains_stream(*id) {
            ids.push(*id)?;
        }
    }
    Ok(ids)
}
