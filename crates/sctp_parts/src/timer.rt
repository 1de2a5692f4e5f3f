// The six timers of an association: when each expires, how often it did, and how far it backs off.
ghost use Rattle.std.specs.Prelude.{◌≡◌, ◌≢◌, ◌↔◌, ◌-◌, ◌^◌, ◌&&◌, not, min, IfSome, IsNone};
ghost use Rattle.sctp_parts.specs.Timers.{earlier, backed_off};

use crate::estimate::RTO_MAX;
use crate::shared::Instant;
use std::marker::Model;

/// Interval of the timer of delayed acknowledgements, in ms.
pub const ACK_INTERVAL: u64 = 200;

/// The timers of an association, in the order in which they are looked at.
#[derive(Clone, Copy, Debug, PartialEq, Eq, PartialOrd, Ord)]
pub enum Timer {
    /// Waits for INIT ACK (RFC 4960 section 5.1).
    T1Init = 0,
    /// Waits for COOKIE ACK (RFC 4960 section 5.1).
    T1Cookie = 1,
    /// Waits for the answer to SHUTDOWN or SHUTDOWN ACK (RFC 4960 section 9.2).
    T2Shutdown = 2,
    /// Waits for the acknowledgement of DATA (RFC 4960 section 6.3.2).
    T3RTX = 3,
    /// Waits for the response to a reset request (RFC 6525 section 5.1.1).
    Reconfig = 4,
    /// Delays an acknowledgement (RFC 4960 section 6.2).
    Ack = 5,
}

impl Timer {
    /// All timers, in their order.
    pub const VALUES: [Timer; 6] = [
        Timer::T1Init,
        Timer::T1Cookie,
        Timer::T2Shutdown,
        Timer::T3RTX,
        Timer::Reconfig,
        Timer::Ack,
    ];
}

/// What [`TimerTable::is_expired`] saw of a timer.
#[derive(Clone, Copy, Debug, PartialEq, Eq)]
pub struct Expiry {
    /// The timer is armed at a moment that is past or now.
    pub expired: bool,
    /// It expired, and the retry that this added passes the timer's limit.
    pub failed: bool,
    /// The retries so far.
    pub retries: usize,
}

// One timer of the table.
#[derive(Clone, Copy, Debug)]
struct Entry {
    moment: Option<Instant>,
    retries: usize,
    exempt: bool,
}

impl Model for Entry {
    ghost use Rattle.sctp_parts.specs.Timers.{TimerState};

    ghost Value = { TimerState };

    ghost view = { λ e. record { moment = e.moment; retries = e.retries; exempt = e.exempt } };

    ghost inverse = { λ s. record { moment = s.moment; retries = s.retries; exempt = s.exempt } };
}

/// When each timer expires, how often it did, and which expiry adds no retry.
#[derive(Clone, Copy, Debug)]
pub struct TimerTable {
    t1_init: Entry,
    t1_cookie: Entry,
    t2_shutdown: Entry,
    t3_rtx: Entry,
    reconfig: Entry,
    ack: Entry,
    handshake_limit: Option<usize>,
    data_limit: Option<usize>,
    rto_max: u64,
}

impl Model for TimerTable {
    ghost use Rattle.sctp_parts.specs.Timers.{Timers};

    ghost Value = { Timers };

    ghost view = { λ t. record {
      t1_init = t.t1_init;
      t1_cookie = t.t1_cookie;
      t2_shutdown = t.t2_shutdown;
      t3_rtx = t.t3_rtx;
      reconfig = t.reconfig;
      ack = t.ack;
      handshake_limit = t.handshake_limit;
      data_limit = t.data_limit;
      rto_max = t.rto_max;
    } };

    ghost inverse = { λ t. record {
      t1_init = t.t1_init;
      t1_cookie = t.t1_cookie;
      t2_shutdown = t.t2_shutdown;
      t3_rtx = t.t3_rtx;
      reconfig = t.reconfig;
      ack = t.ack;
      handshake_limit = t.handshake_limit;
      data_limit = t.data_limit;
      rto_max = t.rto_max;
    } };
}

impl Default for TimerTable {
    ghost use Rattle.std.specs.Prelude.{◌≡◌, None};
    ghost use Rattle.sctp_parts.specs.Timers.{stopped_timers};

    ghost is_default = { λ t. t ≡ stopped_timers None None 60000 };

    /// No limits, and a greatest interval of 60,000 ms.
    fn default() -> Self {
        TimerTable::new(None, None, RTO_MAX)
    }
}

impl TimerTable {
    ghost use Rattle.sctp_parts.specs.declared.timer.Timer.{Timer};
    ghost use Rattle.sctp_parts.specs.Timers.{stopped_timers, moment_of, with_moment, least_moment, IsNoneArmed};
    ghost use Rattle.sctp_parts.specs.Timers.{IsLeastArmed, started, restarted_if_stale, with_stopped, without_retries};
    ghost use Rattle.sctp_parts.specs.Timers.{with_exemption, after_expiry, expiry_of, timer_at, with_timer, limit_of};
    ghost use Rattle.sctp_parts.specs.Timers.{run_of};

    /// Six stopped timers. `max_init` limits the retries of T1Init, T1Cookie and Reconfig, `max_data` those of T3RTX;
    /// None is no limit. `rto_max` is the greatest interval, in ms, to which a timer backs off.
    pub fn new(max_init: Option<usize>, max_data: Option<usize>, rto_max: u64) -> Self
        ensures { result ≡ stopped_timers max_init max_data rto_max }
    {
        let stopped = Entry::stopped();
        TimerTable {
            t1_init: stopped,
            t1_cookie: stopped,
            t2_shutdown: stopped,
            t3_rtx: stopped,
            reconfig: stopped,
            ack: stopped,
            handshake_limit: max_init,
            data_limit: max_data,
            rto_max,
        }
    }

    /// Arms the timer at a moment, or disarms it, and leaves its retries and its exemption.
    pub fn set(&mut self, timer: Timer, moment: Option<Instant>)
        ensures { self.new ≡ with_moment timer moment self.old }
    {
        let mut entry = self.entry(timer);
        entry.moment = moment;
        self.set_entry(timer, entry);
    }

    /// When the timer expires, None where it is not armed.
    pub fn get(&self, timer: Timer) -> Option<Instant>
        ensures { result ≡ moment_of timer self.now }
    {
        self.entry(timer).moment
    }

    /// The least armed moment.
    pub fn next_timeout(&self) -> Option<Instant>
        ensures moment { result ≡ least_moment self.now }
        ensures none { IsNone result ↔ IsNoneArmed self.now }
        ensures least { IfSome result (λ moment. IsLeastArmed self.now moment) }
    {
        let handshake = least_of(self.t1_init.moment, self.t1_cookie.moment);
        let sending = least_of(self.t2_shutdown.moment, self.t3_rtx.moment);
        let others = least_of(self.reconfig.moment, self.ack.moment);
        least_of(least_of(handshake, sending), others)
    }

    /// Arms the timer `interval` ms from `now`, backed off by its retries but for Ack.
    #[tactic(auto, unfolding(crate::specs::Timers::millis_later))]
    pub fn start(&mut self, timer: Timer, now: Instant, interval: u64)
        ensures { self.new ≡ started timer now interval self.old }
    {
        let run = self.run(timer, interval);
        self.set(timer, Some(now.plus_millis(run)));
    }

    /// Starts the timer, unless it is armed at a moment that is not before `now`.
    pub fn restart_if_stale(&mut self, timer: Timer, now: Instant, interval: u64)
        ensures { self.new ≡ restarted_if_stale timer now interval self.old }
    {
        match self.get(timer) {
            Some(moment) if moment >= now => {}
            _ => self.start(timer, now, interval),
        }
    }

    /// Disarms the timer and clears its retries and its exemption.
    pub fn stop(&mut self, timer: Timer)
        ensures { self.new ≡ with_stopped timer self.old }
    {
        self.set_entry(timer, Entry::stopped());
    }

    /// Clears the timer's retries and leaves its moment.
    pub fn reset_retrans(&mut self, timer: Timer)
        ensures { self.new ≡ without_retries timer self.old }
    {
        let mut entry = self.entry(timer);
        entry.retries = 0;
        self.set_entry(timer, entry);
    }

    /// Exempts the timer's next expiry: it will add no retry.
    pub fn suppress_error_count(&mut self, timer: Timer)
        ensures { self.new ≡ with_exemption timer self.old }
    {
        let mut entry = self.entry(timer);
        entry.exempt = true;
        self.set_entry(timer, entry);
    }

    /// Looks at the timer at the moment `after`. It expired where it is armed at a moment that is not after it; an
    /// expiry adds one retry or uses up the exemption. The timer stays armed.
    pub fn is_expired(&mut self, timer: Timer, after: Instant) -> Expiry
        ensures state { self.new ≡ after_expiry timer after self.old }
        ensures answer { result ≡ expiry_of timer after self.old }
    {
        let mut entry = self.entry(timer);
        let expired = entry.is_due(after);
        let mut failed = false;
        if expired {
            failed = entry.count_expiry(self.limit(timer));
            self.set_entry(timer, entry);
        }
        Expiry {
            expired,
            failed,
            retries: entry.retries,
        }
    }

    fn entry(&self, timer: Timer) -> Entry
        ensures { result ≡ timer_at timer self.now }
    {
        match timer {
            Timer::T1Init => self.t1_init,
            Timer::T1Cookie => self.t1_cookie,
            Timer::T2Shutdown => self.t2_shutdown,
            Timer::T3RTX => self.t3_rtx,
            Timer::Reconfig => self.reconfig,
            Timer::Ack => self.ack,
        }
    }

    fn set_entry(&mut self, timer: Timer, entry: Entry)
        ensures map { self.new ≡ with_timer timer entry self.old }
        ensures this_one { timer_at timer self.new ≡ entry }
        ensures others { (other : Timer) → other ≢ timer → timer_at other self.new ≡ timer_at other self.old }
    {
        match timer {
            Timer::T1Init => self.t1_init = entry,
            Timer::T1Cookie => self.t1_cookie = entry,
            Timer::T2Shutdown => self.t2_shutdown = entry,
            Timer::T3RTX => self.t3_rtx = entry,
            Timer::Reconfig => self.reconfig = entry,
            Timer::Ack => self.ack = entry,
        }
    }

    fn limit(&self, timer: Timer) -> Option<usize>
        ensures { result ≡ limit_of timer self.now }
    {
        match timer {
            Timer::T1Init | Timer::T1Cookie | Timer::Reconfig => self.handshake_limit,
            Timer::T3RTX => self.data_limit,
            Timer::T2Shutdown | Timer::Ack => None,
        }
    }

    // How long the timer runs, in ms.
    fn run(&self, timer: Timer, interval: u64) -> u64
        ensures { result ≡ run_of timer interval self.now }
    {
        if timer == Timer::Ack {
            interval
        } else {
            calculate_next_timeout(interval, self.entry(timer).retries, self.rto_max)
        }
    }
}

impl Entry {
    ghost use Rattle.sctp_parts.specs.Timers.{stopped, is_due, expired_state, passes};

    fn stopped() -> Self
        ensures { result ≡ stopped }
    {
        Entry {
            moment: None,
            retries: 0,
            exempt: false,
        }
    }

    fn is_due(&self, after: Instant) -> bool
        ensures { result ≡ is_due self.now.moment after }
    {
        match self.moment {
            Some(moment) => moment <= after,
            None => false,
        }
    }

    // Answers whether the retry that was added passes the limit.
    fn count_expiry(&mut self, limit: Option<usize>) -> bool
        ensures state { self.new ≡ expired_state self.old }
        ensures failure { result ≡ (not self.old.exempt && passes self.new.retries limit) }
    {
        if self.exempt {
            self.exempt = false;
            return false;
        }
        self.retries = self.retries.saturating_add(1);
        match limit {
            Some(limit) => self.retries > limit,
            None => false,
        }
    }
}

fn least_of(a: Option<Instant>, b: Option<Instant>) -> Option<Instant>
    ensures { result ≡ earlier a b }
{
    match (a, b) {
        (Some(x), Some(y)) => Some(x.min(y)),
        (Some(x), None) => Some(x),
        (None, y) => y,
    }
}

/// The timeout `rto`, in ms, doubled `n_rtos` times, up to `rto_max` (RFC 4960 section 6.3.3, rule E2).
#[tactic(auto, unfolding(crate::specs::Timers::backed_off))]
pub fn calculate_next_timeout(rto: u64, n_rtos: usize, rto_max: u64) -> u64
    ensures { result ≡ backed_off rto n_rtos rto_max }
{
    if n_rtos < 31 {
        rto.saturating_mul(1 << n_rtos).min(rto_max)
    } else {
        rto_max
    }
}
