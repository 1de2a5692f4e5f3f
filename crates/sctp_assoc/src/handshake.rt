// The handshake, step by state and chunk, and the chunks beside it that are answered at once.
ghost use Rattle.std.specs.Prelude.{◌≡◌, OnErr, OnOk, IfOk, is_some, true};
ghost use Rattle.sctp_assoc.specs.Handshake.{acknowledges_again, after_t1_cookie, after_t1_init, connected, echoed};
ghost use Rattle.sctp_assoc.specs.Handshake.{keeps_peer, learned, learned_back, learns_peer, on_cookie_ack};
ghost use Rattle.sctp_assoc.specs.Handshake.{on_cookie_echo, on_heartbeat, on_init, on_init_ack, sends_cookie};
ghost use Rattle.sctp_assoc.specs.Handshake.{sends_init, with_echo};
ghost use Rattle.sctp_assoc.specs.Memory.{cookie_ack_takes_memory, cookie_echo_takes_memory, heartbeat_takes_memory};
ghost use Rattle.sctp_assoc.specs.Memory.{init_ack_takes_memory, init_takes_memory};
ghost use Rattle.sctp_assoc.specs.Timeouts.{echoes_again, offers_again};

use crate::Association;
use crate::inbound::Flow;
use bytes::Bytes;
use sctp_inbound::{AckTrigger, heartbeat_ack, heartbeat_information, state_cookie};
use sctp_parts::state::AssociationState;
use sctp_parts::timer::Timer;
use sctp_wire_queues::{Chunk, ChunkHeartbeat, ChunkInit, CommonHeader, Error, Event, Instant};
use std::alloc::AllocError;

impl Association {
    // INIT (RFC 4960 sections 5.1 and 5.2): before the association is established it is answered by INIT ACK.
    #[cold]
    #[inline(never)]
    #[tactic(auto, unfolding(crate::specs::Handshake::on_init))]
    pub(crate) fn on_init(
        &mut self,
        header: CommonHeader,
        init: ChunkInit,
        trigger: AckTrigger,
    ) -> Result<Flow, AllocError>
        ensures exact { IfOk result (λ flow. on_init self.old header init trigger ≡ (self.new, flow)) }
        ensures grows { OnErr result (init_takes_memory self.old ≡ true) }
    {
        match self.state {
            AssociationState::Closed
            | AssociationState::CookieWait
            | AssociationState::CookieEchoed => {
                self.learn(&header, &init);
                let answer = self
                    .handshake
                    .init_ack(self.alloc, self.receiver.buffer_size)?;
                self.queue_control(Chunk::InitAck(answer))?;
                Ok(Flow::Next(trigger))
            }
            _ => Ok(Flow::Fault(Error::ErrHandleInitState)),
        }
    }

    // By the rules of the RFCs an INIT that says what is known leaves what came of the peer (RFC 4960 sections 5.2.1
    // and 5.2.2): it is a copy, or of a peer whose INIT ACK came before.
    fn learn(&mut self, header: &CommonHeader, init: &ChunkInit)
        ensures { self.new ≡ learned self.old header.now init.now }
    {
        let keeps_peer = self.keeps_peer(init);
        self.handshake.on_init(header, init);
        if !keeps_peer {
            self.learn_peer(init.initial_tsn, init.advertised_receiver_window_credit);
        }
    }

    fn keeps_peer(&self, init: &ChunkInit) -> bool
        ensures { result ≡ keeps_peer self.now init.now }
    {
        self.is_by_rfcs()
            && self.handshake.peer_verification_tag == init.initiate_tag
            && match self.handshake.peer_initial_tsn {
                Some(tsn) => tsn == init.initial_tsn,
                None => false,
            }
    }

    // The peer's initial TSN and its receive window are known.
    fn learn_peer(&mut self, initial_tsn: u32, window: u32)
        ensures { self.new ≡ learns_peer self.old initial_tsn window }
    {
        self.receiver.set_initial_tsn(initial_tsn);
        self.resets.meet(initial_tsn);
        self.sender.set_peer_window(window);
    }

    // INIT ACK (RFC 4960 section 5.1): its cookie is echoed. With other ports than those of this side's INIT it is
    // left.
    #[cold]
    #[inline(never)]
    #[tactic(auto, unfolding(crate::specs::Handshake::on_init_ack))]
    pub(crate) fn on_init_ack(
        &mut self,
        header: CommonHeader,
        init: ChunkInit,
        trigger: AckTrigger,
        now: Instant,
    ) -> Result<Flow, AllocError>
        ensures exact { IfOk result (λ flow. on_init_ack self.old header init trigger now ≡ (self.new, flow)) }
        ensures grows { OnErr result (init_ack_takes_memory self.old header init ≡ true) }
    {
        if self.state != AssociationState::CookieWait {
            return Ok(Flow::Next(trigger));
        }
        if !self.handshake.on_init_ack(&header, &init) {
            return Ok(Flow::Next(trigger));
        }
        self.learn_peer(init.initial_tsn, init.advertised_receiver_window_credit);
        self.timers.stop(Timer::T1Init);
        match state_cookie(init) {
            Some(cookie) => {
                self.echo(cookie, now)?;
                Ok(Flow::Next(trigger))
            }
            None => Ok(Flow::Fault(Error::ErrInitAckNoCookie)),
        }
    }

    fn echo(&mut self, cookie: Bytes, now: Instant) -> Result<(), AllocError>
        ensures { OnOk result (self.new ≡ with_echo self.old cookie now) }
    {
        self.handshake.echo = Some(cookie);
        self.state = AssociationState::CookieEchoed;
        self.send_cookie(now)
    }

    // COOKIE ECHO (RFC 4960 section 5.1): the cookie that this side gave out establishes the association. Where it
    // comes again in a shutdown, what of that waits for its answer goes out again, too.
    #[cold]
    #[inline(never)]
    #[tactic(auto, unfolding(crate::specs::Handshake::on_cookie_echo))]
    pub(crate) fn on_cookie_echo(
        &mut self,
        cookie: Bytes,
        trigger: AckTrigger,
    ) -> Result<Flow, AllocError>
        ensures exact { IfOk result (λ flow. on_cookie_echo self.old cookie trigger ≡ (self.new, flow)) }
        ensures grows { OnErr result (cookie_echo_takes_memory self.old cookie ≡ true) }
    {
        if !self.handshake.has_issued(&cookie) {
            return Ok(Flow::Next(trigger));
        }
        match self.state {
            AssociationState::Closed
            | AssociationState::CookieWait
            | AssociationState::CookieEchoed => {
                self.connect()?;
                self.queue_control(Chunk::CookieAck)?;
            }
            _ => {
                if self.acknowledges_again() {
                    self.ask_again();
                    self.queue_control(Chunk::CookieAck)?;
                }
            }
        }
        Ok(Flow::Next(trigger))
    }

    // Whether a COOKIE ECHO that comes again is acknowledged: its COOKIE ACK may have been lost (RFC 4960 section
    // 5.2.4, D).
    fn acknowledges_again(&self) -> bool
        ensures { result ≡ acknowledges_again self.now }
    {
        self.state == AssociationState::Established || (self.is_by_rfcs() && self.is_closing())
    }

    // COOKIE ACK (RFC 4960 section 5.1): the echoed cookie established the association.
    #[tactic(auto, unfolding(crate::specs::Handshake::on_cookie_ack))]
    pub(crate) fn on_cookie_ack(&mut self, trigger: AckTrigger) -> Result<Flow, AllocError>
        ensures exact { IfOk result (λ flow. on_cookie_ack self.old trigger ≡ (self.new, flow)) }
        ensures grows { OnErr result (cookie_ack_takes_memory self.old ≡ true) }
    {
        if self.state == AssociationState::CookieEchoed {
            self.connect()?;
        }
        Ok(Flow::Next(trigger))
    }

    fn connect(&mut self) -> Result<(), AllocError>
        ensures { OnOk result (self.new ≡ connected self.old) }
    {
        self.timers.stop(Timer::T1Init);
        self.timers.stop(Timer::T1Cookie);
        self.handshake.complete();
        self.state = AssociationState::Established;
        self.tell(Event::Connected)
    }

    // HEARTBEAT (RFC 4960 section 8.3): its information goes back.
    #[cold]
    #[inline(never)]
    #[tactic(auto, unfolding(crate::specs::Handshake::on_heartbeat))]
    pub(crate) fn on_heartbeat(
        &mut self,
        heartbeat: ChunkHeartbeat,
        trigger: AckTrigger,
    ) -> Result<Flow, AllocError>
        ensures exact { IfOk result (λ flow. on_heartbeat self.old heartbeat trigger ≡ (self.new, flow)) }
        ensures grows { OnErr result (heartbeat_takes_memory heartbeat ≡ true) }
    {
        if let Some(information) = heartbeat_information(heartbeat) {
            let answer = heartbeat_ack(self.alloc, information)?;
            self.queue_control(Chunk::HeartbeatAck(answer))?;
        }
        Ok(Flow::Next(trigger))
    }

    // INIT goes out, and its timer runs (RFC 4960 section 5.1).
    #[tactic(auto, unfolding(crate::specs::Handshake::sends_init))]
    pub(crate) fn send_init(&mut self, now: Instant) -> Result<(), AllocError>
        ensures exact { OnOk result (self.new ≡ sends_init self.old now) }
        ensures offered { OnErr result (is_some self.old.handshake.offer ≡ true) }
    {
        if let Some(offer) = self.handshake.offer {
            let init = self.handshake.init(self.alloc, offer)?;
            let mut header = self.handshake.header();
            header.verification_tag = 0;
            self.queue_under(header, Chunk::Init(init))?;
        }
        let rto = self.rto.get_rto();
        self.timers.start(Timer::T1Init, now, rto);
        Ok(())
    }

    // COOKIE ECHO goes out, and its timer runs (RFC 4960 section 5.1).
    #[tactic(auto, unfolding(crate::specs::Handshake::sends_cookie))]
    fn send_cookie(&mut self, now: Instant) -> Result<(), AllocError>
        ensures exact { OnOk result (self.new ≡ sends_cookie self.old now) }
        ensures echoed { OnErr result (is_some self.old.handshake.echo ≡ true) }
    {
        if let Some(cookie) = &self.handshake.echo {
            let cookie = cookie.clone()?;
            self.queue_control(Chunk::CookieEcho(cookie))?;
        }
        let rto = self.rto.get_rto();
        self.timers.start(Timer::T1Cookie, now, rto);
        Ok(())
    }

    // No INIT ACK came in time: INIT goes out again, or past its limit the handshake has failed.
    pub(crate) fn on_t1_init(&mut self, now: Instant) -> Result<(), AllocError>
        ensures exact { OnOk result (self.new ≡ after_t1_init self.old now) }
        ensures again { OnErr result (offers_again self.old now ≡ true) }
    {
        let expiry = self.timers.is_expired(Timer::T1Init, now);
        if expiry.expired {
            self.timers.set(Timer::T1Init, None);
            if expiry.failed {
                self.handshake_fault = Some(Error::ErrHandshakeInitAck);
            } else {
                self.send_init(now)?;
            }
        }
        Ok(())
    }

    // No COOKIE ACK came in time: COOKIE ECHO goes out again, or past its limit the handshake has failed.
    pub(crate) fn on_t1_cookie(&mut self, now: Instant) -> Result<(), AllocError>
        ensures exact { OnOk result (self.new ≡ after_t1_cookie self.old now) }
        ensures again { OnErr result (echoes_again self.old now ≡ true) }
    {
        let expiry = self.timers.is_expired(Timer::T1Cookie, now);
        if expiry.expired {
            self.timers.set(Timer::T1Cookie, None);
            if expiry.failed {
                self.handshake_fault = Some(Error::ErrHandshakeCookieEcho);
            } else {
                self.send_cookie(now)?;
            }
        }
        Ok(())
    }
}
