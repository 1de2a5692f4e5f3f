// Stream resets (RFC 6525 section 5, RFC 8831 section 6.7): what RE-CONFIG brings, and which requests go out.
ghost use Rattle.std.specs.Prelude.{◌≡◌, ◌==◌, ◌++◌, ◌&&◌, IfOk, OnErr, OnOk, is_some, length, nat_lt, true};
ghost use Rattle.sctp_generations.specs.Generations.{has_skips};
ghost use Rattle.sctp_inbound.specs.Handshake.{header_of};
ghost use Rattle.sctp_reset_requests.specs.Own.{is_given_up_anew, repeated};
ghost use Rattle.sctp_resets.specs.Resets.{given_up};
ghost use Rattle.sctp_assoc.specs.Gather.{AreRequestsReadAgain, IsRequestReadAgain, first_listed, listed, requests_of};
ghost use Rattle.sctp_assoc.specs.Gather.{after_both, first_request_polled, repeat_polled, request_made};
ghost use Rattle.sctp_assoc.specs.Gather.{request_packet, requests_give, requests_polled, requests_wait};
ghost use Rattle.sctp_assoc.specs.Resets.{after_param, after_reconfig_timer, asking_if, on_reconfig, on_request};
ghost use Rattle.sctp_assoc.specs.Resets.{on_response, reconfig_of, responding, settled, skips_applied};
ghost use Rattle.sctp_assoc.specs.Resets.{behind_params, gives_up, settling_takes_memory, skips_applied_of, stopped_if};
ghost use Rattle.sctp_assoc.specs.Resets.{asks_again, goes_on, said_of, timers_changed, with_answer, with_beside};
ghost use Rattle.sctp_assoc.specs.Resets.{with_reconfig_run};
ghost use Rattle.sctp_assoc.specs.Calls.{is_established};
ghost use Rattle.sctp_assoc.specs.Control.{asking};
ghost use Rattle.sctp_assoc.specs.Shown.{all_waiting};
ghost use Rattle.sctp_assoc.specs.Timeouts.{gives_requests_up};

use crate::Association;
use crate::control::Control;
use crate::gather::put_packet;
use crate::inbound::Flow;
use bytes::Bytes;
use sctp_inbound::AckTrigger;
use sctp_parts::state::AssociationState;
use sctp_parts::timer::Timer;
use sctp_reset_requests::response_to;
use sctp_resets::{Handled, Settled, TimerChange};
use sctp_wire_queues::{
    Chunk, ChunkReconfig, Error, Instant, Param, ParamOutgoingResetRequest, ParamReconfigResponse,
    ReconfigResult, StreamId,
};
use std::alloc::AllocError;

impl Association {
    // RE-CONFIG: its parameters in order (RFC 6525 section 3.1). One that is neither a request to reset outgoing
    // streams nor a response is a fault.
    #[cold]
    #[inline(never)]
    #[tactic(auto, unfolding(crate::specs::Resets::on_reconfig))]
    pub(crate) fn on_reconfig(
        &mut self,
        reconfig: &ChunkReconfig,
        trigger: AckTrigger,
    ) -> Result<Flow, AllocError>
        ensures { IfOk result (λ flow. on_reconfig self.old reconfig.now trigger ≡ (self.new, flow)) }
    {
        if !self.on_reset_param(&reconfig.first)? {
            return Ok(Flow::Fault(Error::ErrParameterType));
        }
        match &reconfig.second {
            None => Ok(Flow::Next(trigger)),
            Some(second) => self.on_second_param(second, trigger),
        }
    }

    fn on_second_param(&mut self, param: &Param, trigger: AckTrigger) -> Result<Flow, AllocError>
        ensures { IfOk result (λ flow. behind_params (after_param param.now self.old) trigger ≡ (self.new, flow)) }
    {
        if self.on_reset_param(param)? {
            Ok(Flow::Next(trigger))
        } else {
            Ok(Flow::Fault(Error::ErrParameterType))
        }
    }

    // Answers whether the parameter is one of a reset.
    fn on_reset_param(&mut self, param: &Param) -> Result<bool, AllocError>
        ensures { IfOk result (λ known. after_param param.now self.old ≡ (self.new, known)) }
    {
        match param {
            Param::OutgoingResetRequest(request) => {
                self.on_reset_request(request)?;
                Ok(true)
            }
            Param::ReconfigResponse(response) => {
                self.on_reset_response(response)?;
                Ok(true)
            }
            _ => Ok(false),
        }
    }

    // A request of the peer (RFC 6525 section 5.2.2), which is answered with the next poll.
    #[tactic(auto, using(sctp_resets::proofs::FrontWaits::none_waits))]
    fn on_reset_request(&mut self, request: &ParamOutgoingResetRequest) -> Result<(), AllocError>
        ensures { OnOk result (self.new ≡ on_request self.old request.now) }
    {
        self.waiting_in_front = 0;
        let handled = self.resets.on_request(
            request,
            self.receiver.peer_last_tsn,
            &mut self.streams,
            &mut self.events,
            &mut self.to_accept,
            self.sender.queue.next_message_id(),
            self.receiver.max_receive_message_size,
        )?;
        self.tell_handled(request.reconfig_request_sequence_number, handled)
    }

    // What a request of the peer with this number led to is answered.
    fn tell_handled(&mut self, number: u32, handled: Handled) -> Result<(), AllocError>
        ensures { OnOk result (self.new ≡ said_of handled number self.old) }
    {
        self.stop_reconfig_if(handled.confirms);
        self.place_if(handled.asks)?;
        self.respond(number, handled.answer)
    }

    fn stop_reconfig_if(&mut self, confirms: bool)
        ensures { self.new ≡ stopped_if confirms self.old }
    {
        if confirms {
            self.timers.stop(Timer::Reconfig);
        }
    }

    // A request of this side gets its place among what waits, where one was made.
    fn place_if(&mut self, asks: bool) -> Result<(), AllocError>
        ensures exact { OnOk result (self.new ≡ asking_if asks self.old) }
        ensures grows { OnErr result (asks ≡ true) }
    {
        if asks {
            self.place_request()?;
        }
        Ok(())
    }

    pub(crate) fn place_request(&mut self) -> Result<(), AllocError>
        ensures { OnOk result (self.new ≡ asking self.old) }
    {
        self.control.push(Control::OwnRequest)?;
        Ok(())
    }

    // The response to a request goes out with the next poll (RFC 6525 section 4.4).
    fn respond(&mut self, number: u32, answer: ReconfigResult) -> Result<(), AllocError>
        ensures { OnOk result (self.new ≡ responding self.old number answer) }
    {
        self.queue_control(reconfig_of(Param::ReconfigResponse(response_to(number, answer))))
    }

    // A response of the peer (RFC 6525 section 5.2.7). One that names no active request changes nothing.
    #[tactic(auto, using(sctp_resets::proofs::FrontWaits::none_waits), unfolding(crate::specs::Resets::on_response))]
    fn on_reset_response(&mut self, response: &ParamReconfigResponse) -> Result<(), AllocError>
        ensures { OnOk result (self.new ≡ on_response self.old response.now) }
    {
        self.waiting_in_front = 0;
        let change = self
            .resets
            .on_response(response, &mut self.streams, &mut self.events)?;
        self.change_timer(change);
        Ok(())
    }

    fn change_timer(&mut self, change: TimerChange)
        ensures { self.new ≡ record self.old { timers = timers_changed change self.old.timers } }
    {
        match change {
            TimerChange::Unchanged => {}
            TimerChange::Exempted => {
                self.timers.set(Timer::Reconfig, None);
                self.timers.suppress_error_count(Timer::Reconfig);
            }
            TimerChange::Stopped => self.timers.stop(Timer::Reconfig),
        }
    }

    // The last TSN in order may have moved: a request of the peer that waited for that is performed and answered, and
    // skips that were kept are applied. Nearly always no request can be performed and no skip is kept.
    #[tactic(auto, using(crate::proofs::SettlesPlainly::settles_plainly))]
    pub(crate) fn settle(&mut self) -> Result<(), AllocError>
        ensures exact { OnOk result (self.new ≡ settled self.old) }
        ensures grows { OnErr result (settling_takes_memory self.old ≡ true) }
    {
        if !self.resets.has_to_settle(self.receiver.peer_last_tsn) {
            return Ok(());
        }
        self.settle_what_waits()
    }

    // It stands apart, so that new DATA does not pay for it where nothing waits.
    #[cold]
    #[inline(never)]
    #[tactic(auto, using(sctp_resets::proofs::FrontWaits::none_waits), unfolding(crate::specs::Resets::settled))]
    fn settle_what_waits(&mut self) -> Result<(), AllocError>
        ensures exact { OnOk result (self.new ≡ settled self.old) }
        ensures grows { OnErr result (settling_takes_memory self.old ≡ true) }
    {
        self.waiting_in_front = 0;
        let settled = self.resets.settle(
            self.receiver.peer_last_tsn,
            &mut self.streams,
            &mut self.events,
            &mut self.to_accept,
            self.sender.queue.next_message_id(),
            self.receiver.max_receive_message_size,
        )?;
        self.tell_settled(settled)?;
        self.apply_skips()
    }

    fn tell_settled(&mut self, settled: Option<Settled>) -> Result<(), AllocError>
        ensures exact { OnOk result (self.new ≡ with_answer settled self.old) }
        ensures grows { OnErr result (is_some settled ≡ true) }
    {
        let Some(settled) = settled else {
            return Ok(());
        };
        self.place_if(settled.asks)?;
        self.respond(settled.number, ReconfigResult::SuccessPerformed)
    }

    #[tactic(auto, using(sctp_resets::proofs::FrontWaits::none_waits))]
    fn apply_skips(&mut self) -> Result<(), AllocError>
        ensures exact { OnOk result (self.new ≡ skips_applied self.old) }
        ensures grows { OnErr result (has_skips self.old.resets.generations ≡ true) }
    {
        self.waiting_in_front = 0;
        self.resets.apply_skips(&mut self.streams, &mut self.events)
    }

    // Applies the skips that were kept for the generation of a live stream that is read now. Nearly always none is
    // kept.
    #[tactic(auto, using(crate::proofs::SettlesPlainly::skips_apply_plainly))]
    pub(crate) fn apply_skips_of(&mut self, id: StreamId) -> Result<(), AllocError>
        ensures exact { OnOk result (self.new ≡ skips_applied_of id self.old) }
        ensures grows { OnErr result (has_skips self.old.resets.generations ≡ true) }
    {
        if !self.resets.has_skips() {
            return Ok(());
        }
        self.apply_kept_skips_of(id)
    }

    #[cold]
    #[inline(never)]
    #[tactic(auto, using(sctp_resets::proofs::FrontWaits::none_waits))]
    fn apply_kept_skips_of(&mut self, id: StreamId) -> Result<(), AllocError>
        ensures { OnOk result (self.new ≡ skips_applied_of id self.old) }
    {
        self.waiting_in_front = 0;
        self.resets
            .apply_skips_of(id, &mut self.streams, &mut self.events)
    }

    // The active request was not answered in time: it goes out again, or past the limit it is given up.
    pub(crate) fn on_reconfig_timeout(&mut self, now: Instant) -> Result<(), AllocError>
        ensures exact { OnOk result (self.new ≡ after_reconfig_timer self.old now) }
        ensures grows { OnErr result (gives_requests_up self.old now ≡ true) }
    {
        let expiry = self.timers.is_expired(Timer::Reconfig, now);
        if !expiry.expired {
            return Ok(());
        }
        self.timers.set(Timer::Reconfig, None);
        if expiry.failed {
            return self.give_requests_up(now);
        }
        self.repeat_request(now);
        Ok(())
    }

    // The active request goes out again, and its timer begins anew.
    fn repeat_request(&mut self, now: Instant)
        ensures { self.new ≡ asks_again self.old now }
    {
        self.resets.expire();
        let rto = self.rto.get_rto();
        self.timers.start(Timer::Reconfig, now, rto);
    }

    fn give_requests_up(&mut self, now: Instant) -> Result<(), AllocError>
        ensures exact { OnOk result (self.new ≡ gives_up self.old now) }
        ensures grows { OnErr result (is_given_up_anew self.old.resets.own ≡ true) }
    {
        self.tell_given_up()?;
        self.go_on(now);
        Ok(())
    }

    #[tactic(auto, using(sctp_resets::proofs::FrontWaits::none_waits))]
    fn tell_given_up(&mut self) -> Result<(), AllocError>
        ensures exact { OnOk result
            (self.new ≡ with_beside self.old (given_up self.old.resets self.old.streams self.old.events)) }
        ensures grows { OnErr result (is_given_up_anew self.old.resets.own ≡ true) }
    {
        self.waiting_in_front = 0;
        self.resets.give_up(&mut self.streams, &mut self.events)
    }

    // A request that is still active goes out again.
    fn go_on(&mut self, now: Instant)
        ensures { self.new ≡ goes_on self.old now }
    {
        if self.resets.has_active() {
            self.repeat_request(now);
        } else {
            self.timers.stop(Timer::Reconfig);
        }
    }

    pub(crate) fn put_request(
        &mut self,
        packets: &mut Vec<Bytes>,
        param: ParamOutgoingResetRequest,
    ) -> Result<(), AllocError>
        ensures same { OnOk result (self.new ≡ self.old) }
        ensures put { OnOk result (packets.new.items ≡ packets.old.items ++ request_packet self.old param) }
        ensures again { OnOk result (IsRequestReadAgain (header_of self.old.handshake) param) }
    {
        let header = self.handshake.header();
        put_packet(
            packets,
            self.alloc,
            header,
            reconfig_of(Param::OutgoingResetRequest(param)),
        )
    }

    // In Established the active request again, where that is due; then a request for streams that wait; and the oldest
    // that was never sent, where it may go out.
    #[tactic(auto, unfolding(crate::specs::Gather::requests_polled))]
    pub(crate) fn gather_requests(&mut self, packets: &mut Vec<Bytes>) -> Result<(), AllocError>
        ensures exact { OnOk result
            (after_both packets.old.items (requests_polled self.old) ≡ (self.new, packets.new.items)) }
        ensures again { OnOk result (is_established self.old.state ≡ true
            → AreRequestsReadAgain (header_of self.old.handshake) (requests_of self.old)) }
        ensures grows { OnErr result ((is_established self.old.state && requests_give self.old) ≡ true) }
    {
        if self.state != AssociationState::Established {
            return Ok(());
        }
        self.gather_repeat(packets)?;
        self.make_request()?;
        self.gather_first_request(packets)
    }

    fn gather_repeat(&mut self, packets: &mut Vec<Bytes>) -> Result<(), AllocError>
        ensures exact { OnOk result
            (after_both packets.old.items (repeat_polled self.old) ≡ (self.new, packets.new.items)) }
        ensures again { OnOk result
            (AreRequestsReadAgain (header_of self.old.handshake) (listed (repeated self.old.resets.own).1)) }
        ensures grows { OnErr result (is_some self.old.resets.own.active ≡ true) }
        ensures waiting { OnOk result (self.new.resets.own.waiting ≡ self.old.resets.own.waiting) }
        ensures control { OnOk result (self.new.control ≡ self.old.control) }
    {
        if let Some(param) = self.resets.repeat()? {
            self.put_request(packets, param)?;
        }
        Ok(())
    }

    fn make_request(&mut self) -> Result<(), AllocError>
        ensures exact { OnOk result (self.new ≡ request_made self.old) }
        ensures grows { OnErr result (nat_lt 0 (length self.old.resets.own.waiting) ≡ true) }
        ensures behind { OnOk result
            (nat_lt 0 (length self.new.control) ≡ true → requests_wait self.old ≡ true) }
    {
        let made = self.resets.ask(&self.sender.queue)?;
        self.place_if(made)
    }

    fn gather_first_request(&mut self, packets: &mut Vec<Bytes>) -> Result<(), AllocError>
        ensures exact { OnOk result
            (after_both packets.old.items (first_request_polled self.old) ≡ (self.new, packets.new.items)) }
        ensures again { OnOk result (AreRequestsReadAgain (header_of self.old.handshake)
            (first_listed (length self.old.control == 0) self.old)) }
        ensures grows { OnErr result (nat_lt 0 (length self.old.control) ≡ true) }
    {
        if self.control.is_empty() {
            return Ok(());
        }
        if let Some(param) = self.resets.send_first(&self.sender.queue)? {
            self.put_request(packets, param)?;
            self.control.pop();
        }
        Ok(())
    }

    // The timer of the active request runs.
    pub(crate) fn run_reconfig(&mut self, now: Instant)
        ensures { self.new ≡ with_reconfig_run self.old now }
    {
        if self.resets.has_active() && self.timers.get(Timer::Reconfig).is_none() {
            let rto = self.rto.get_rto();
            self.timers.start(Timer::Reconfig, now, rto);
        }
    }

    // Bytes that came and were not read, of all generations.
    pub(crate) fn waiting_bytes(&self) -> u64
        ensures { result ≡ all_waiting self.now }
    {
        self.streams
            .waiting_bytes()
            .saturating_add(self.resets.waiting_bytes())
    }
}

fn reconfig_of(param: Param) -> Chunk
    ensures { result ≡ reconfig_of param }
{
    Chunk::Reconfig(ChunkReconfig {
        first: param,
        second: None,
    })
}
