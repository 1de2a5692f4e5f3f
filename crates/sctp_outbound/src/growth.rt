// What a SACK lets go: the congestion window grows, and with it what new DATA may take up (RFC 4960 sections 6.1, 7.2).
ghost use Rattle.std.specs.Prelude.{◌≡◌};
ghost use Rattle.sctp_outbound.specs.Sacks.{acked_of, has_more, with_growth};

use crate::sender::{Sender, burst_of};

/// What a SACK brings to a sender.
#[derive(Clone, Copy, Debug, PartialEq, Eq)]
pub struct Brought {
    /// It moved the cumulative TSN ack point.
    pub moved: bool,
    /// It acknowledged a TSN for the first time.
    pub any_new: bool,
    /// Something was marked to be sent again before it.
    pub any_marked: bool,
    /// So many bytes were outstanding before it.
    pub before: u64,
}

impl Sender {
    // The congestion window after a SACK, and what new DATA may take up.
    pub(crate) fn grow_window(&mut self, brought: &Brought)
        ensures { self.new ≡ with_growth brought.now self.old }
    {
        let acked = self.acked(brought);
        if brought.moved {
            let has_more = self.has_more(brought);
            let recovers = self.recovers();
            self.congestion.grow(acked, has_more, recovers, self.mtu);
        }
        self.is_after_timeout &= !brought.any_new;
        self.burst_room = self
            .burst_room
            .max(burst_of(self.mtu))
            .saturating_add(acked);
    }

    fn acked(&self, brought: &Brought) -> u64
        ensures { result ≡ acked_of brought.now self.now }
    {
        brought.before.saturating_sub(self.queue.inflight_bytes())
    }

    fn has_more(&self, brought: &Brought) -> bool
        ensures { result ≡ has_more brought.now self.now }
    {
        self.queue.has_pending() || (self.is_by_rfcs() && brought.any_marked)
    }
}
