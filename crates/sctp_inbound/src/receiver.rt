// What came and when it is acknowledged.
ghost use Rattle.std.specs.Prelude.{◌≡◌, ℕ, ◌<◌, ◌^◌, [], true, IfOk, OnOk, OnErr, IsOk};
ghost use Rattle.sctp_serial.specs.Serial.{tsn_after};
ghost use Rattle.sctp_received.specs.Received.{AreRuns, is_held_at, is_named};
ghost use Rattle.sctp_inbound.specs.Receiver.{admits, fresh_receiver, is_new_to, receiver_from, taken_to, asked};
ghost use Rattle.sctp_inbound.specs.Receiver.{ended_packet, ended_packet_timers, credit_of, acknowledged_at_once};
ghost use Rattle.sctp_inbound.specs.Receiver.{acknowledged, is_behind, passed_to, sack_of};

use crate::held::Held;
use sctp_parts::state::AckState;
use sctp_parts::timer::{ACK_INTERVAL, Timer, TimerTable};
use sctp_wire_types::{ChunkSelectiveAck, Instant, List, sna32lte};
use std::alloc::{AllocError, Global};

/// How soon the chunks of one packet ask to be acknowledged.
#[derive(Clone, Copy, Debug, PartialEq, Eq)]
pub enum AckTrigger {
    None,
    Delayed,
    Immediate,
}

/// The last TSN in order (RFC 4960: its cumulative TSN ack point), what came past it, and the state of the
/// acknowledgement (RFC 4960 section 6.2).
#[derive(Debug, Drop)]
pub struct Receiver {
    /// Every TSN up to this one came or was skipped.
    pub peer_last_tsn: u32,
    /// What came past that, with a gap before it.
    pub held: Held,
    pub ack_state: AckState,
    /// Bytes that may wait for their reader.
    pub buffer_size: u32,
    /// Greatest message that is put together, in bytes.
    pub max_receive_message_size: u32,
}

impl Receiver {
    /// Nothing came; the first TSN to come is the one after `peer_last_tsn`. Sizes are in bytes. Takes no memory.
    pub fn new(
        alloc: Global,
        buffer_size: u32,
        max_receive_message_size: u32,
        peer_last_tsn: u32,
    ) -> Self
        ensures { result ≡ fresh_receiver buffer_size max_receive_message_size peer_last_tsn }
    {
        Receiver {
            peer_last_tsn,
            held: Held::new(alloc),
            ack_state: AckState::Idle,
            buffer_size,
            max_receive_message_size,
        }
    }

    /// The peer's initial TSN is known: nothing came of what it sends from there on.
    pub fn set_initial_tsn(&mut self, initial_tsn: u32)
        ensures { self.new ≡ receiver_from self.old initial_tsn }
    {
        self.peer_last_tsn = initial_tsn.wrapping_sub(1);
        self.held.clear();
    }

    /// Whether DATA with this TSN did not come yet: it is 1 to 65,535 past the last TSN in order and not held.
    pub fn is_new(&self, tsn: u32) -> bool
        ensures { result ≡ is_new_to self.now tsn }
    {
        self.held.is_new(self.peer_last_tsn, tsn)
    }

    /// Whether DATA may be taken in while `waiting` bytes wait for their reader: without credit only where it fills a
    /// gap.
    pub fn admits(&self, tsn: u32, waiting: u64) -> bool
        ensures { result ≡ admits self.now tsn waiting }
    {
        self.held
            .admits(self.peer_last_tsn, tsn, self.credit(waiting))
    }

    /// Holds a new TSN that came, and moves `peer_last_tsn` over all that follow it one after another. Where memory is
    /// refused all stays as it was; the TSN after `peer_last_tsn` takes none.
    pub fn take(&mut self, tsn: u32) -> Result<(), AllocError>
        requires { is_new_to self.old tsn ≡ true }
        ensures moved { OnOk result (self.new ≡ taken_to self.old tsn) }
        ensures unchanged { OnErr result (self.new ≡ self.old) }
        ensures next { tsn ≡ tsn_after self.old.peer_last_tsn → IsOk result }
    {
        self.peer_last_tsn = self.held.take(self.peer_last_tsn, tsn)?;
        Ok(())
    }

    /// Whether a TSN is at or behind `peer_last_tsn`.
    pub fn is_behind(&self, tsn: u32) -> bool
        ensures { result ≡ is_behind self.now tsn }
    {
        sna32lte(tsn, self.peer_last_tsn)
    }

    /// A FORWARD TSN passed over all up to this TSN, which is not behind: `peer_last_tsn` is that TSN, or the last of
    /// those that are held behind it one after another (RFC 3758 section 3.6). Takes no memory.
    pub fn pass_over(&mut self, tsn: u32)
        ensures { self.new ≡ passed_to self.old tsn }
    {
        self.peer_last_tsn = self.held.pass_over(tsn);
    }

    /// The trigger of a packet after one more chunk of it asked for an acknowledgement: at once where `immediate` is
    /// set, a TSN is held with a gap before it, or the last packet waits already, else delayed.
    pub fn ask(&self, trigger: AckTrigger, immediate: bool) -> AckTrigger
        ensures { result ≡ asked self.now trigger immediate }
    {
        if immediate
            || self.held.has_gap()
            || trigger == AckTrigger::Immediate
            || self.ack_state != AckState::Idle
        {
            AckTrigger::Immediate
        } else {
            AckTrigger::Delayed
        }
    }

    /// Carries out a packet's trigger: acknowledge with the next poll, or 200 ms from `now` (RFC 4960 section 6.2).
    pub fn end_of_packet(&mut self, timers: &mut TimerTable, trigger: AckTrigger, now: Instant)
        ensures state { self.new ≡ ended_packet self.old trigger }
        ensures timers { timers.new ≡ ended_packet_timers timers.old trigger now }
    {
        match trigger {
            AckTrigger::None => {}
            AckTrigger::Delayed => {
                self.ack_state = AckState::Delay;
                timers.start(Timer::Ack, now, ACK_INTERVAL);
            }
            AckTrigger::Immediate => {
                self.ack_state = AckState::Immediate;
                timers.stop(Timer::Ack);
            }
        }
    }

    /// An acknowledgement goes out with the next poll.
    pub fn acknowledge_at_once(&mut self)
        ensures { self.new ≡ acknowledged_at_once self.old }
    {
        self.ack_state = AckState::Immediate;
    }

    /// Bytes that may still come while `waiting` bytes wait for their reader.
    pub fn credit(&self, waiting: u64) -> u32
        ensures { result ≡ credit_of self.now waiting }
    {
        let buffer = u64::from(self.buffer_size);
        buffer.saturating_sub(waiting) as u32
    }

    /// The acknowledgement of what came up to the last TSN in order and of what is held past it, by gap ack blocks (RFC
    /// 4960 section 3.3.4); none is due after it. Where memory is refused it stays due; with nothing held it takes
    /// none.
    pub fn sack(&mut self, alloc: Global, waiting: u64) -> Result<ChunkSelectiveAck, AllocError>
        ensures state { OnOk result (self.new ≡ acknowledged self.old) }
        ensures unchanged { OnErr result (self.new ≡ self.old) }
        ensures sack { IfOk result (λ sack. sack ≡ sack_of self.old waiting) }
        ensures exact { IfOk result (λ sack. (o : ℕ) → 0 < o → o < 2 ^ 16
            → is_named o sack.gap_ack_blocks ≡ is_held_at self.old.peer_last_tsn o self.old.held) }
        ensures maximal { IfOk result (λ sack. AreRuns 1 sack.gap_ack_blocks) }
        ensures none { self.old.held ≡ [] → IsOk result }
    {
        let gap_ack_blocks = self.held.gap_ack_blocks(alloc, self.peer_last_tsn)?;
        self.ack_state = AckState::Idle;
        Ok(ChunkSelectiveAck {
            cumulative_tsn_ack: self.peer_last_tsn,
            advertised_receiver_window_credit: self.credit(waiting),
            gap_ack_blocks,
            duplicate_tsn: List::new(alloc),
        })
    }
}
