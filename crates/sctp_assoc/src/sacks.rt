// A SACK that comes (RFC 4960 section 6.2.1).
ghost use Rattle.std.specs.Prelude.{◌≡◌, true, OnErr, IfOk, Ok};
ghost use Rattle.sctp_assoc.specs.Memory.{sack_takes_memory};
ghost use Rattle.sctp_assoc.specs.Chunks.{on_sack};
ghost use Rattle.sctp_assoc.specs.Probes.{answers_probes, is_probing, opens_window, probes_answered};

use crate::Association;
use crate::inbound::Flow;
use sctp_inbound::AckTrigger;
use sctp_outbound::SackOutcome;
use sctp_parts::timer::Timer;
use sctp_wire_queues::{Error, GapAckBlock, Instant, List};
use std::alloc::AllocError;
use std::mem;

impl Association {
    // SACK (RFC 4960 section 6.2.1), read by its cumulative TSN ack, its gap ack blocks and its window. Streams that it
    // takes to their low mark are told of.
    #[tactic(auto, using(sctp_resets::proofs::FrontWaits::none_waits), unfolding(crate::specs::Chunks::on_sack))]
    pub(crate) fn on_sack(
        &mut self,
        cumulative_tsn_ack: u32,
        blocks: &List<GapAckBlock>,
        window: u32,
        trigger: AckTrigger,
        now: Instant,
    ) -> Result<Flow, AllocError>
        ensures exact { IfOk result
            (λ flow. on_sack self.old cumulative_tsn_ack blocks.now window trigger now ≡ (self.new, flow)) }
        ensures grows { OnErr result (sack_takes_memory self.old cumulative_tsn_ack blocks.now window now ≡ true) }
    {
        if !self.sends_data() {
            return Ok(Flow::Next(trigger));
        }
        self.stats.inc_sacks();
        let probing = self.is_probing();
        let forward = self.handshake.use_forward_tsn;
        let mut fallen = self.streams.watch(self.alloc);
        let outcome = self.sender.on_sack(
            &mut self.timers,
            &mut self.rto,
            &mut self.streams,
            &mut fallen,
            cumulative_tsn_ack,
            blocks,
            window,
            now,
        );
        match outcome {
            SackOutcome::Older => Ok(Flow::Next(trigger)),
            SackOutcome::NotInFlight => Ok(Flow::Fault(Error::ErrInflightQueueTsnPop)),
            SackOutcome::NamesTheUnsent => Ok(Flow::Fault(Error::ErrTsnRequestNotExist)),
            SackOutcome::Taken => {
                self.sender.ask_for_forward_tsn(forward);
                // While they are told none is known to wait, so that the invariant holds where memory is refused.
                let waiting = mem::replace(&mut self.waiting_in_front, 0);
                fallen.tell_ascending(self.alloc, &mut self.events)?;
                self.waiting_in_front = waiting;
                self.continue_shutdown();
                self.answer_probes(probing, window);
                Ok(Flow::Next(trigger))
            }
        }
    }

    // What a SACK with this window does about probes, where what was in flight before it was one or not.
    #[tactic(auto, unfolding(crate::specs::Probes::probes_answered))]
    fn answer_probes(&mut self, probing: bool, window: u32)
        ensures { self.new ≡ probes_answered probing window self.old }
    {
        if self.answers_probes(window) {
            self.timers.reset_retrans(Timer::T3RTX);
        }
        if opens_window(probing, window) {
            self.sender.mark_probe();
        }
    }

    #[tactic(auto, unfolding(crate::specs::Probes::answers_probes))]
    fn answers_probes(&self, window: u32) -> bool
        ensures { result ≡ answers_probes self.now.profile window }
    {
        self.is_by_rfcs() && window == 0
    }

    // Whether what is in flight probes a window that the peer closed.
    #[tactic(auto, unfolding(crate::specs::Probes::is_probing))]
    pub(crate) fn is_probing(&self) -> bool
        ensures { result ≡ is_probing self.now.profile self.now.sender }
    {
        self.is_by_rfcs()
            && self.sender.advertised_window == 0
            && self.sender.queue.inflight_len() == 1
    }
}

// Whether a SACK with this window opens the one that was probed.
#[tactic(auto, unfolding(crate::specs::Probes::opens_window))]
fn opens_window(probing: bool, window: u32) -> bool
    ensures { result ≡ opens_window probing window }
{
    probing && window != 0
}
