// What is known of the times of messages, so that a poll needs not go over all of them.
ghost use Rattle.std.specs.Prelude.{List, ◌≡◌, ◌-◌, ◌^◌, ◌<◌, ◌≤◌, [], length, drop, None, Some};
ghost use Rattle.sctp_outbound_queue.specs.Clocks.{accepted_by, dropped_by, left_by, passed_by, sent_by, started_with};
ghost use Rattle.sctp_outbound_queue.specs.Clocks.{AllFrom, Cover};
ghost use Rattle.sctp_outbound_queue.specs.Message.{soonest};
ghost use Rattle.sctp_outbound_queue.specs.Stretches.{total};
ghost use Rattle.sctp_outbound_queue.specs.Waiting.{Waiting};

use crate::Attributes;
use crate::message::soonest;
use crate::stretches::{Stretch, Stretches};
use sctp_wire_types::Instant;

/// Which times run, before which moment none ends, and which messages were looked at already.
#[derive(Drop)]
pub(crate) struct Clocks {
    /// Of the messages that wait the time of each of the first so many runs, where it has one.
    pub(crate) running: usize,
    /// So does that of each piece in flight.
    pub(crate) sent_run: bool,
    /// No deadline of what waits lies before this one, which may be sooner than each; None: there is none.
    pub(crate) next_waiting: Option<Instant>,
    /// No deadline of what is in flight and not abandoned lies before this one; None: there is none.
    pub(crate) next_sent: Option<Instant>,
    /// Of the messages that wait none of the first so many is to be dropped at `passed_at`, and no deadline of these
    /// lies before `passed_next`.
    pub(crate) passed: usize,
    pub(crate) passed_at: Instant,
    pub(crate) passed_next: Option<Instant>,
    /// Stretches of the messages that wait, from the first one on. None is in them of which the time does not run yet,
    /// and none behind them has a deadline.
    pub(crate) stretches: Stretches,
}

/// A look at the messages that wait, from the first one on, for one that is to be dropped.
#[derive(Clone, Copy)]
pub(crate) struct Look {
    /// Before this index none is.
    pub(crate) index: usize,
    /// No deadline of these lies before this one; None: they have none.
    pub(crate) next: Option<Instant>,
}

impl Clocks {
    // Those of an empty queue.
    pub(crate) fn new() -> Clocks
        ensures { result ≡ started_with 0 None None [] }
    {
        Clocks {
            running: 0,
            sent_run: true,
            next_waiting: None,
            next_sent: None,
            passed: 0,
            passed_at: Instant::from_nanos(0),
            passed_next: None,
            stretches: Stretches::new(),
        }
    }

    // The times of all run: so many messages wait, of which the first so many stood in stretches. The others are a
    // stretch more, of which no deadline lies before `next`; None: they have none.
    pub(crate) fn start(
        &mut self,
        waiting: usize,
        covered: usize,
        next: Option<Instant>,
        next_sent: Option<Instant>,
    )
        requires covered { covered ≡ total self.old.stretches }
        requires waiting { covered ≤ waiting }
        ensures started { self.new ≡ started_with waiting (soonest self.old.next_waiting next) next_sent
            self.new.stretches }
        ensures total { total self.new.stretches ≡ waiting }
        ensures cover { (ms : List Waiting) → length ms ≡ waiting → Cover self.old.stretches ms
            → AllFrom next (drop covered ms) → Cover self.new.stretches ms }
    {
        self.stretches.add(Stretch::new(waiting - covered, &next));
        self.running = waiting;
        self.sent_run = true;
        self.next_waiting = soonest(self.next_waiting, &next);
        self.next_sent = next_sent;
        self.passed = 0;
        self.passed_at = Instant::from_nanos(0);
        self.passed_next = None;
    }

    // A message was put behind so many others.
    pub(crate) fn accept(&mut self, is_timed: bool, others: usize)
        ensures { self.new ≡ accepted_by is_timed others self.old }
    {
        if self.running == others && !is_timed {
            self.running = others.saturating_add(1);
        }
    }

    // A piece of the first message that waits, or a marker for its pieces, is in flight; where it was its last one, the
    // message waits no more.
    pub(crate) fn send(&mut self, message: &Attributes, is_last: bool)
        ensures { self.new ≡ sent_by message.now is_last self.old }
    {
        if self.running == 0 && message.is_timed() {
            self.sent_run = false;
        }
        self.next_sent = message.sooner(self.next_sent);
        if is_last {
            self.leave();
        }
        self.passed = 0;
    }

    // The first message waits no more.
    fn leave(&mut self)
        ensures { self.new ≡ left_by self.old }
    {
        self.running = self.running.saturating_sub(1);
        self.stretches.shorten_at(0);
    }

    // How far a look at this moment may begin.
    pub(crate) fn passed_by(&self, now: Instant) -> Look
        ensures { result ≡ passed_by now self.now }
    {
        if now <= self.passed_at {
            Look {
                index: self.passed,
                next: self.passed_next,
            }
        } else {
            Look {
                index: 0,
                next: None,
            }
        }
    }

    // The message to which a look at this moment came was dropped.
    pub(crate) fn drop_at(&mut self, look: Look, now: Instant)
        ensures { self.new ≡ dropped_by look now self.old }
    {
        if look.index < self.running {
            self.running -= 1;
        }
        self.stretches.shorten_at(look.index);
        self.passed = look.index;
        self.passed_at = now;
        self.passed_next = look.next;
    }
}
