// The resets of an association.
ghost use Rattle.std.specs.Prelude.{◌≡◌, ◌||◌, true, OnOk, OnErr, IfOk, is_some, length, nat_lt};
ghost use Rattle.sctp_receive_queues.specs.Pieces.{bytes_of};
ghost use Rattle.sctp_generations.specs.Generations.{has_skips};
ghost use Rattle.sctp_reset_requests.specs.Own.{HasRoom, failing_ids, is_given_up_anew, to_reset};
ghost use Rattle.sctp_reset_requests.specs.Peer.{is_one_due};
ghost use Rattle.sctp_resets.specs.Channels.{channels};
ghost use Rattle.sctp_resets.specs.Telling.{FrontWaits};
ghost use Rattle.sctp_resets.specs.Resets.{no_resets, met_peer, is_blocked, is_retiring, is_hidden, refusal_of};
ghost use Rattle.sctp_resets.specs.Resets.{with_deferred, with_skip, without_unordered, waiting_for, skips_done};
ghost use Rattle.sctp_resets.specs.Resets.{skips_done_of, performed, settled, handled, responded, given_up, confirmed_by};
ghost use Rattle.sctp_resets.specs.Resets.{read_out, stopped_reading, event_told, request_asked, request_sent};
ghost use Rattle.sctp_resets.specs.Resets.{request_again, timer_expired, all_closed, OwnAlone, given_up_for_now};
ghost use Rattle.sctp_resets.specs.Resets.{dropped, ended_unless, reset_or_ended, with_answers};

use crate::answers::{end_request, tell_failures};
use crate::channels::{deliver_each, end_stream};
use crate::draining::drain;
use crate::performing::{named_in, retire_each, tell_ends};
use crate::skips::{apply_skips, apply_skips_of};
use crate::telling::{next_told, note_told};
use crate::{Handled, Settled, TimerChange};
use sctp_generations::Generations;
use sctp_outbound_queue::OutboundQueue;
use sctp_reset_requests::{Answered, Arrival, Debts, OwnRequests, PeerRequest, PeerRequests};
use sctp_streams::{Event, Events, Streams};
use sctp_wire_types::{
    ChunkPayloadData, Error, List, ParamOutgoingResetRequest, ParamReconfigResponse, Profile,
    StreamId, StreamResetError,
};
use std::alloc::{AllocError, Global};
use std::collections::VecDeque;
use std::marker::Model;

/// All that an association keeps of resets: the requests of both sides, the generations that ended and are still read,
/// and what the application is still to be told of them. A call that is refused for want of memory leaves what the
/// association no longer uses: it fails.
#[derive(Debug, Drop)]
pub struct Resets {
    alloc: Global,
    own: OwnRequests,
    peer: PeerRequests,
    debts: Debts,
    generations: Generations,
}

impl Model for Resets {
    ghost use Rattle.sctp_resets.specs.Resets.{ResetsView};

    ghost Value = { ResetsView };

    ghost view = { λ r. record { own = r.own; peer = r.peer; debts = r.debts; generations = r.generations } };
}

impl Resets {
    /// Nothing is reset; the first own request gets the own initial TSN as its number. Takes no memory.
    pub fn new(alloc: Global, profile: Profile, initial_tsn: u32) -> Self
        ensures { result ≡ no_resets profile initial_tsn }
    {
        Resets {
            alloc,
            own: OwnRequests::new(alloc, profile, initial_tsn),
            peer: PeerRequests::new(),
            debts: Debts::new(alloc),
            generations: Generations::new(alloc),
        }
    }

    /// The peer's initial TSN became known, which is the number of its first request.
    pub fn meet(&mut self, initial_tsn: u32)
        ensures { self.new ≡ met_peer self.old initial_tsn }
    {
        self.peer.meet(initial_tsn);
    }

    /// Whether a stream can be neither opened nor written (`ErrStreamResetPending`): a generation of it ended and is
    /// still read, it is to be reset, the end of a reset is owed, or its last reset failed.
    pub fn is_blocked(&self, id: StreamId) -> bool
        ensures { result ≡ is_blocked self.now id }
    {
        self.own.is_asked_for(id) || self.debts.bars(id) || self.generations.is_blocked(id)
    }

    /// Whether a generation of a stream ended and is still read.
    pub fn is_retiring(&self, id: StreamId) -> bool
        ensures { result ≡ is_retiring self.now id }
    {
        self.generations.is_blocked(id)
    }

    /// Whether new DATA of a stream is of a generation that is not read yet.
    pub fn is_hidden(&self, id: StreamId, tsn: u32) -> bool
        ensures { result ≡ is_hidden self.now id tsn }
    {
        self.generations
            .is_hidden(id, tsn, self.peer.boundary_of(id))
    }

    /// The bytes of all DATA that waits for generations that are not read yet.
    pub fn waiting_bytes(&self) -> u64
        ensures { result ≡ bytes_of self.now.generations.deferred }
    {
        self.generations.waiting_bytes()
    }

    /// Why the DATA that waits of its generation refuses new DATA, if it does.
    pub fn refusal(&self, piece: &ChunkPayloadData, limit: u32) -> Result<Option<Error>, AllocError>
        ensures { IfOk result (λ refusal. refusal ≡ refusal_of self.now piece.now limit) }
    {
        let in_progress = self.peer.boundary_of(piece.stream_identifier);
        self.generations.refusal(piece, in_progress, limit)
    }

    /// Keeps DATA of a generation that is not read yet.
    pub fn defer(&mut self, piece: ChunkPayloadData) -> Result<(), AllocError>
        ensures ok { OnOk result (self.new ≡ with_deferred self.old piece) }
        ensures err { OnErr result (self.new ≡ self.old) }
    {
        self.generations.defer(piece)
    }

    /// A FORWARD TSN with this new cumulative TSN passed over the ordered messages of a stream that retires, up to an
    /// SSN: of its newest generation.
    pub fn skip(&mut self, id: StreamId, ssn: u16, tsn: u32) -> Result<(), AllocError>
        ensures ok { OnOk result (self.new ≡ with_skip self.old id ssn tsn) }
        ensures err { OnErr result (self.new ≡ self.old) }
    {
        let in_progress = self.peer.boundary_of(id);
        self.generations.skip(id, ssn, tsn, in_progress)
    }

    /// It passed over all up to this TSN, of unordered messages too.
    pub fn skip_unordered(&mut self, tsn: u32) -> Result<(), AllocError>
        ensures ok { OnOk result (self.new ≡ without_unordered self.old tsn) }
        ensures err { OnErr result (self.new ≡ self.old) }
        ensures grows { OnErr result (nat_lt 0 (length self.old.generations.deferred) ≡ true) }
    {
        self.generations.skip_unordered(tsn)
    }

    /// Whether a skip is kept.
    pub fn has_skips(&self) -> bool
        ensures { result ≡ has_skips self.now.generations }
    {
        self.generations.has_skips()
    }

    /// Whether a request of the peer can be performed now, or a skip is kept: else `settle` and `apply_skips` change
    /// nothing.
    pub fn has_to_settle(&self, peer_last_tsn: u32) -> bool
        ensures { result ≡ (is_one_due self.now.peer.in_progress peer_last_tsn || has_skips self.now.generations) }
    {
        self.is_one_due(peer_last_tsn) || self.has_skips()
    }

    // Whether the request in progress can be performed now.
    fn is_one_due(&self, peer_last_tsn: u32) -> bool
        ensures { result ≡ is_one_due self.now.peer.in_progress peer_last_tsn }
    {
        match self.peer.in_progress() {
            Some(request) => request.is_due(peer_last_tsn),
            None => false,
        }
    }

    /// Applies the skips that were kept for the generation of a live stream that is read now.
    pub fn apply_skips_of(
        &mut self,
        id: StreamId,
        streams: &mut Streams,
        events: &mut Events,
    ) -> Result<(), AllocError>
        ensures exact { OnOk result ((self.new, streams.new, events.new)
            ≡ skips_done_of id self.old streams.old events.old) }
        ensures grows { OnErr result (has_skips self.old.generations ≡ true) }
    {
        apply_skips_of(&mut self.generations, streams, events, id)
    }

    /// Does so for each live stream, identifiers ascending.
    pub fn apply_skips(
        &mut self,
        streams: &mut Streams,
        events: &mut Events,
    ) -> Result<(), AllocError>
        ensures exact { OnOk result ((self.new, streams.new, events.new) ≡ skips_done self.old streams.old events.old) }
        ensures grows { OnErr result (has_skips self.old.generations ≡ true) }
    {
        apply_skips(&mut self.generations, streams, events, self.alloc)
    }

    // Performs a request of the peer: the streams that it names end or retire, DATA that waited for that goes to its
    // streams, and a request of this side is made for those that it does not reset by itself, by the rules of the port
    // for those that ended or retired; answers whether it was.
    #[tactic(auto, unfolding(crate::specs::Resets::performed))]
    fn perform(
        &mut self,
        request: &PeerRequest,
        streams: &mut Streams,
        events: &mut Events,
        to_accept: &mut VecDeque<StreamId>,
        first_message_id: u64,
        limit: u32,
    ) -> Result<bool, AllocError>
        ensures { IfOk result (λ asks.
            performed request.now first_message_id limit self.old
            (channels streams.old events.old to_accept.old.items)
            ≡ ((self.new, channels streams.new events.new to_accept.new.items), asks)) }
    {
        let named = named_in(self.alloc, &self.own, streams, request)?;
        let retired = retire_each(
            self.alloc,
            &mut self.generations,
            &mut self.debts,
            streams,
            events,
            request,
        )?;
        self.generations.end_newest_of(request.ids());
        tell_ends(&self.own, &mut self.debts, events, named.as_slice())?;
        let asks = self.answer(request, named.as_slice(), retired)?;
        let given = self.generations.release_all()?;
        deliver_each(
            streams,
            events,
            to_accept,
            self.alloc,
            first_message_id,
            limit,
            given,
        )?;
        Ok(asks)
    }

    // Makes the request that answers a performed one; answers whether one was made.
    fn answer(
        &mut self,
        request: &PeerRequest,
        named: &[StreamId],
        retired: Vec<StreamId>,
    ) -> Result<bool, AllocError>
        ensures { IfOk result (λ asks.
            with_answers request.now named.now (to_reset self.old.own named.now retired.items) self.old
            ≡ (self.new, asks)) }
    {
        let ids = self.own.to_reset(self.alloc, named, retired)?;
        let asks = !ids.is_empty();
        self.own.reciprocate(request, List::from_vec(ids))?;
        self.own.perform(named);
        Ok(asks)
    }

    /// The last TSN in order may have moved: a request of the peer that waited for that is performed, and tells what is
    /// to be answered. `first_message_id` is the identifier that the next message gets.
    pub fn settle(
        &mut self,
        peer_last_tsn: u32,
        streams: &mut Streams,
        events: &mut Events,
        to_accept: &mut VecDeque<StreamId>,
        first_message_id: u64,
        limit: u32,
    ) -> Result<Option<Settled>, AllocError>
        ensures exact { IfOk result (λ answer.
            settled peer_last_tsn first_message_id limit self.old
            (channels streams.old events.old to_accept.old.items)
            ≡ ((self.new, channels streams.new events.new to_accept.new.items), answer)) }
        ensures grows { OnErr result (is_one_due self.old.peer.in_progress peer_last_tsn ≡ true) }
    {
        let Some(request) = self.peer.advance(peer_last_tsn) else {
            return Ok(None);
        };
        let asks = self.perform(
            &request,
            streams,
            events,
            to_accept,
            first_message_id,
            limit,
        )?;
        Ok(Some(Settled {
            number: request.number(),
            asks,
        }))
    }

    /// A request of the peer came (RFC 6525 section 5.2.2). It ends the active request of this side that it names, and
    /// is performed where all DATA before it came.
    pub fn on_request(
        &mut self,
        param: &ParamOutgoingResetRequest,
        peer_last_tsn: u32,
        streams: &mut Streams,
        events: &mut Events,
        to_accept: &mut VecDeque<StreamId>,
        first_message_id: u64,
        limit: u32,
    ) -> Result<Handled, AllocError>
        ensures { IfOk result (λ answer.
            handled param.now peer_last_tsn first_message_id limit self.old
            (channels streams.old events.old to_accept.old.items)
            ≡ ((self.new, channels streams.new events.new to_accept.new.items), answer)) }
    {
        let number = param.reconfig_response_sequence_number;
        let confirms = self.confirm(number, streams, events)?;
        let arrival = self.peer.arrive(self.alloc, param, peer_last_tsn)?;
        let answer = arrival.result();
        let asks = match arrival {
            Arrival::Answered(_) => false,
            Arrival::Performed(request) => {
                let asks = self.perform(
                    &request,
                    streams,
                    events,
                    to_accept,
                    first_message_id,
                    limit,
                )?;
                self.apply_skips(streams, events)?;
                asks
            }
        };
        Ok(Handled {
            confirms,
            asks,
            answer,
        })
    }

    // A request of the peer names this number of the active request, which was performed so.
    fn confirm(
        &mut self,
        number: u32,
        streams: &mut Streams,
        events: &mut Events,
    ) -> Result<bool, AllocError>
        ensures { IfOk result (λ confirms.
            confirmed_by number self.old streams.old events.old
            ≡ ((self.new, streams.new, events.new), confirms)) }
    {
        let Some(request) = self.own.confirm(number) else {
            return Ok(false);
        };
        let by_rfcs = self.own.is_by_rfcs();
        end_request(
            &mut self.debts,
            streams,
            events,
            request.ids.as_slice(),
            Ok(()),
            by_rfcs,
        )?;
        Ok(true)
    }

    /// A response of the peer came (RFC 6525 section 5.2.7). One that names no active request changes nothing.
    pub fn on_response(
        &mut self,
        response: &ParamReconfigResponse,
        streams: &mut Streams,
        events: &mut Events,
    ) -> Result<TimerChange, AllocError>
        ensures { IfOk result (λ change.
            responded response.now self.old streams.old events.old
            ≡ ((self.new, streams.new, events.new), change)) }
    {
        match self.own.answer(response) {
            Answered::Ignored => Ok(TimerChange::Unchanged),
            Answered::InProgress => Ok(TimerChange::Exempted),
            Answered::Ended(request, outcome) => {
                let ids = request.ids.as_slice();
                let by_rfcs = self.own.is_by_rfcs();
                end_request(&mut self.debts, streams, events, ids, outcome, by_rfcs)?;
                Ok(TimerChange::Stopped)
            }
        }
    }

    /// The timer of the active request expired too often: its resets failed, which is told. By the rules of the RFCs
    /// that is told once, and the request stays active: its number is spent, and the peer takes up none before it.
    pub fn give_up(&mut self, streams: &mut Streams, events: &mut Events) -> Result<(), AllocError>
        ensures exact { OnOk result ((self.new, streams.new, events.new) ≡ given_up self.old streams.old events.old) }
        ensures grows { OnErr result (is_given_up_anew self.old.own ≡ true) }
    {
        if self.own.is_by_rfcs() {
            return self.give_up_for_now(streams, events);
        }
        let Some(request) = self.own.end() else {
            return Ok(());
        };
        let ids = request.ids.as_slice();
        let outcome = Err(StreamResetError::Failed);
        end_request(&mut self.debts, streams, events, ids, outcome, false)
    }

    fn give_up_for_now(&mut self, streams: &Streams, events: &mut Events) -> Result<(), AllocError>
        ensures exact { OnOk result
            ((self.new, streams.now, events.new) ≡ given_up_for_now self.old streams.now events.old) }
        ensures grows { OnErr result (nat_lt 0 (length (failing_ids self.old.own.active)) ≡ true) }
    {
        tell_failures(&self.debts, streams, events, self.own.failing_ids())?;
        self.own.mark_given_up();
        Ok(())
    }

    /// The timer expired and may go on: the active request is to go out again.
    pub fn expire(&mut self)
        ensures { self.new ≡ timer_expired self.old }
    {
        self.own.expire();
    }

    /// The active request, where it is to go out again.
    pub fn repeat(&mut self) -> Result<Option<ParamOutgoingResetRequest>, AllocError>
        ensures again { IfOk result (λ param. request_again self.old ≡ (self.new, param)) }
        ensures room { IfOk result HasRoom }
        ensures grows { OnErr result (is_some self.old.own.active ≡ true) }
        ensures apart { OwnAlone self.old self.new }
    {
        self.own.repeat(self.alloc)
    }

    /// Makes a request for the streams that are to be reset and of which no DATA waits or is unacknowledged, where no
    /// request is open; answers whether it made one.
    pub fn ask(&mut self, queue: &OutboundQueue) -> Result<bool, AllocError>
        ensures exact { IfOk result (λ made. request_asked self.old queue.now ≡ (self.new, made)) }
        ensures grows { OnErr result (nat_lt 0 (length self.old.own.waiting) ≡ true) }
        ensures made { IfOk result (λ made. made ≡ true → nat_lt 0 (length self.old.own.waiting) ≡ true) }
        ensures apart { OwnAlone self.old self.new }
    {
        let made = self.own.ask(self.alloc, queue, &self.peer)?;
        Ok(made)
    }

    /// Sends the oldest request that was never sent, where none is active and no DATA of its streams waits or is
    /// unacknowledged; gives it as it goes out.
    pub fn send_first(
        &mut self,
        queue: &OutboundQueue,
    ) -> Result<Option<ParamOutgoingResetRequest>, AllocError>
        ensures sent { IfOk result (λ param. request_sent self.old queue.now ≡ (self.new, param)) }
        ensures room { IfOk result HasRoom }
        ensures apart { OwnAlone self.old self.new }
    {
        self.own.send_first(self.alloc, queue)
    }

    /// Whether a request was sent and not answered: then the timer runs.
    pub fn has_active(&self) -> bool
        ensures { result ≡ is_some self.now.own.active }
    {
        self.own.has_active()
    }

    /// A stream is to be reset.
    pub fn wait_for(&mut self, id: StreamId) -> Result<(), AllocError>
        ensures ok { OnOk result (self.new ≡ waiting_for self.old id) }
        ensures err { OnErr result (self.new ≡ self.old) }
    {
        self.own.wait_for(id)
    }

    /// A read was answered: the generations of the stream that ended and of which no byte waits are over, and what came
    /// for the one behind can be read.
    pub fn read_out(
        &mut self,
        id: StreamId,
        streams: &mut Streams,
        events: &mut Events,
        to_accept: &mut VecDeque<StreamId>,
        first_message_id: u64,
        limit: u32,
    ) -> Result<(), AllocError>
        ensures exact { OnOk result ((self.new, channels streams.new events.new to_accept.new.items)
            ≡ read_out first_message_id limit id self.old
            (channels streams.old events.old to_accept.old.items)) }
        ensures grows { OnErr result (is_retiring self.old id ≡ true) }
    {
        let in_progress = self.peer.boundary_of(id);
        drain(
            &mut self.generations,
            streams,
            events,
            to_accept,
            self.alloc,
            first_message_id,
            limit,
            id,
            in_progress,
        )
    }

    /// The application reads no more of a stream that retires: its generations are over, and what waits of it is
    /// dropped. By the rules of the RFCs the stream is to be reset where something came behind what the peer ended, and
    /// else it ends. By those of the port it ends, unless a reset of it is open in the other direction.
    pub fn stop_reading(
        &mut self,
        id: StreamId,
        streams: &mut Streams,
        events: &mut Events,
    ) -> Result<(), AllocError>
        ensures { OnOk result ((self.new, streams.new, events.new)
            ≡ stopped_reading id self.old streams.old events.old) }
    {
        let more = self.generations.has_newest(id);
        self.generations.discard(id);
        streams.drop_unread(self.alloc, id);
        events.untell(id);
        self.drop_stream(more, id, streams, events)
    }

    fn drop_stream(
        &mut self,
        more: bool,
        id: StreamId,
        streams: &mut Streams,
        events: &mut Events,
    ) -> Result<(), AllocError>
        ensures { OnOk result ((self.new, streams.new, events.new)
            ≡ dropped more self.old id streams.old events.old) }
    {
        if self.own.is_by_rfcs() {
            self.reset_or_end(more, id, streams, events)
        } else {
            self.end_unless_blocked(id, streams, events)
        }
    }

    fn end_unless_blocked(
        &self,
        id: StreamId,
        streams: &mut Streams,
        events: &mut Events,
    ) -> Result<(), AllocError>
        ensures { OnOk result ((self.now, streams.new, events.new)
            ≡ ended_unless (is_blocked self.now id) self.now id streams.old events.old) }
    {
        if self.is_blocked(id) {
            return Ok(());
        }
        end_stream(streams, events, id)
    }

    fn reset_or_end(
        &mut self,
        resets: bool,
        id: StreamId,
        streams: &mut Streams,
        events: &mut Events,
    ) -> Result<(), AllocError>
        ensures { OnOk result ((self.new, streams.new, events.new)
            ≡ reset_or_ended resets self.old id streams.old events.old) }
    {
        if resets {
            self.wait_for(id)
        } else {
            end_stream(streams, events, id)
        }
    }

    /// Takes out the event that is told next. `waiting` of the oldest events are known to wait, and are not looked at
    /// again; afterwards so many as it says then are known to. Where the event behind those that are known to wait does
    /// so too, goes over all events once, and over those from it to the one that is told; and for each of these over
    /// all once more where its stream has several events Finished, or another stream with the same identifier mod 512
    /// has one.
    #[tactic(auto, using(crate::proofs::FrontWaits::all_wait))]
    pub fn next_event(&mut self, events: &mut Events, waiting: &mut usize) -> Option<Event>
        requires { FrontWaits self.old.generations.retiring self.old.debts events.old waiting.old }
        ensures told { event_told self.old events.old ≡ (self.new, events.new, result) }
        ensures waits { FrontWaits self.new.generations.retiring self.new.debts events.new waiting.new }
    {
        let queue = events.as_queue();
        let Some(index) = next_told(&self.generations, &self.debts, queue, *waiting) else {
            *waiting = queue.len();
            return None;
        };
        *waiting = index;
        let event = events.take(index)?;
        note_told(&mut self.debts, event);
        Some(event)
    }

    /// The association closes: nothing is reset any more. The numbers of both sides go on.
    pub fn close(&mut self)
        ensures { self.new ≡ all_closed self.old }
    {
        self.own.close();
        self.peer.close();
        self.debts.close();
        self.generations.clear();
    }
}
