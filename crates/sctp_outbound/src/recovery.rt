// Reports that TSNs are missing, and the recovery of a loss (RFC 4960 section 7.2.4).
ghost use Rattle.std.specs.Prelude.{◌≡◌, ◌==◌, ◌&&◌, ◌||◌, not, if◌then◌else◌};
ghost use Rattle.sctp_wire_types.specs.Config.{is_rfc};
ghost use Rattle.sctp_outbound_queue.specs.Outbound.{any_missing, marked_of};
ghost use Rattle.sctp_outbound.specs.Recovery.{acknowledges_fresh, among_of, ends_round, enough_of, exit_of, is_left};
ghost use Rattle.sctp_outbound.specs.Recovery.{is_short, misses_counted, missing_of, past_recovery, recovers};
ghost use Rattle.sctp_outbound.specs.Recovery.{reports_by, tells_nothing, with_round};

use crate::sender::Sender;
use sctp_outbound_queue::{Among, Reports};

/// What a SACK tells of what is missing.
#[derive(Clone, Copy, Debug, PartialEq, Eq)]
pub struct Heard {
    /// It moved the cumulative TSN ack point.
    pub moved: bool,
    /// Of those that this leaves in flight, the last index that its blocks newly acknowledge.
    pub newest: Option<usize>,
    /// The last so many in flight were first sent after whatever went again, and where `is_round_over` a round trip
    /// after it.
    pub fresh: u32,
    /// Since something went again at last, a SACK acknowledged what was first sent after it.
    pub is_round_over: bool,
    /// Its blocks name none behind the first so many in flight.
    pub reach: usize,
}

impl Sender {
    // Whether a loss is recovered from.
    pub(crate) fn recovers(&self) -> bool
        ensures { result ≡ recovers self.now }
    {
        self.recovery_exit.is_some()
    }

    // Before the first `count` pieces in flight are acknowledged cumulatively: a loss is recovered from where its exit
    // is one of them.
    pub(crate) fn leave_recovery(&mut self, count: u32)
        ensures { self.new ≡ past_recovery count self.old }
    {
        if self.leaves_recovery(count) {
            self.recovery_exit = None;
        }
    }

    fn leaves_recovery(&self, count: u32) -> bool
        ensures { result ≡ is_left self.now.recovery_exit self.now.queue.first_tsn count }
    {
        match self.recovery_exit {
            Some(exit) => self.queue.index_of(exit) < count as usize,
            None => false,
        }
    }

    // Counts what a SACK reports missing, and finds a loss where that is enough to send a piece again.
    #[tactic(auto, using(crate::proofs::MissingPieces::nothing_counted))]
    pub(crate) fn count_misses(&mut self, heard: &Heard)
        ensures { self.new ≡ misses_counted heard.now self.old }
    {
        if self.tells_nothing(heard) {
            return;
        }
        let recovers = self.recovers();
        let reports = self.reports(heard);
        let next_tsn = self.queue.next_tsn();
        let exit = self.exit(&reports);
        let is_time = self.is_time(heard);
        let ends_round = self.ends_round(heard);
        let any_last = self.queue.report_missing(&reports);
        let is_lost = self.is_lost(is_time, any_last);
        if is_lost && !recovers {
            self.recovery_exit = Some(exit);
            self.congestion.on_third_report(self.mtu);
        }
        let is_due = self.is_due(heard, is_lost, recovers);
        self.is_fast_due = self.is_fast_due || is_due;
        self.begin_round(is_due, ends_round, next_tsn);
    }

    // What is sent next for the first time is sent after what is due now, or a round trip after what went again.
    fn begin_round(&mut self, is_due: bool, ends_round: bool, next_tsn: u32)
        ensures { self.new ≡ with_round is_due ends_round next_tsn self.old }
    {
        if is_due || (ends_round && !self.is_round_over) {
            self.fresh_tsn = next_tsn;
        }
        self.is_round_over = !is_due && (self.is_round_over || ends_round);
    }

    fn tells_nothing(&self, heard: &Heard) -> bool
        ensures { result ≡ tells_nothing heard.now self.now }
    {
        heard.newest.is_none() && !self.recovers() && !self.queue.any_missing()
    }

    fn reports(&self, heard: &Heard) -> Reports
        ensures { result ≡ reports_by heard.now self.now }
    {
        Reports {
            count: self.missing(heard),
            among: self.among(heard),
            enough: self.enough(heard),
        }
    }

    // How many of the first pieces in flight a SACK reports missing.
    fn missing(&self, heard: &Heard) -> usize
        ensures { result ≡ missing_of heard.now self.now }
    {
        if !self.recovers() {
            return heard.newest.unwrap_or(0);
        }
        match (self.is_by_rfcs(), heard.moved) {
            (true, true) => heard.reach,
            (true, false) => heard.newest.unwrap_or(0),
            (false, true) => self.queue.inflight_len(),
            (false, false) => 0,
        }
    }

    // Which of them it counts for.
    fn among(&self, heard: &Heard) -> Among
        ensures { result ≡ among_of heard.now self.now }
    {
        if !self.is_by_rfcs() {
            Among::Outstanding
        } else if self.acknowledges_fresh(heard) {
            Among::Flying
        } else {
            Among::NotResent
        }
    }

    fn acknowledges_fresh(&self, heard: &Heard) -> bool
        ensures { result ≡ acknowledges_fresh heard.now self.now }
    {
        heard.is_round_over && self.ends_round(heard)
    }

    // Whether a SACK newly acknowledges one of those that were first sent after whatever went again.
    fn ends_round(&self, heard: &Heard) -> bool
        ensures { result ≡ ends_round heard.now self.now }
    {
        match heard.newest {
            Some(newest) => {
                self.queue.inflight_len().saturating_sub(newest) <= heard.fresh as usize
            }
            None => false,
        }
    }

    // How many reports have a piece go again.
    fn enough(&self, heard: &Heard) -> u8
        ensures { result ≡ enough_of heard.now self.now }
    {
        if self.is_by_rfcs() && self.is_short(heard) {
            1
        } else {
            3
        }
    }

    // Whether no more reports can come, and what is outstanding is no more than a packet.
    fn is_short(&self, heard: &Heard) -> bool
        ensures { result ≡ is_short heard.now self.now }
    {
        !self.queue.has_pending()
            && self.queue.inflight_len() <= heard.reach
            && self.queue.inflight_bytes() <= u64::from(self.max_payload_size)
    }

    // The TSN that ends the recovery of a loss which these reports find.
    fn exit(&self, reports: &Reports) -> u32
        ensures { result ≡ exit_of reports.now self.now }
    {
        if self.is_by_rfcs() {
            self.queue
                .tsn_at(self.queue.inflight_len().saturating_sub(1))
        } else {
            self.queue.tsn_at(reports.count)
        }
    }

    // Whether a piece is to go again by fast retransmission; by the port where it is the last report of one.
    fn is_lost(&self, is_time: bool, any_last: bool) -> bool
        ensures { result ≡ (if is_rfc self.now.profile then
            is_time && (marked_of self.now.queue.in_flight == 0 && any_missing self.now.queue) else any_last) }
    {
        if self.is_by_rfcs() {
            is_time && self.goes_on()
        } else {
            any_last
        }
    }

    fn goes_on(&self) -> bool
        ensures { result ≡ (marked_of self.now.queue.in_flight == 0 && any_missing self.now.queue) }
    {
        self.queue.marked_len() == 0 && self.queue.any_missing()
    }

    // Whether what is late would have come by now, while a loss is recovered from.
    fn is_time(&self, heard: &Heard) -> bool
        ensures { result ≡ (heard.now.moved || not (recovers self.now) || acknowledges_fresh heard.now self.now) }
    {
        heard.moved || !self.recovers() || self.acknowledges_fresh(heard)
    }

    // Whether fast retransmission is due where a loss is found, or is recovered from.
    fn is_due(&self, heard: &Heard, is_lost: bool, recovers: bool) -> bool
        ensures { result ≡ (if is_rfc self.now.profile then is_lost else
            if recovers then heard.now.moved else is_lost) }
    {
        if recovers && !self.is_by_rfcs() {
            heard.moved
        } else {
            is_lost
        }
    }
}
