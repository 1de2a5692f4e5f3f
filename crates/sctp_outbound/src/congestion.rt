// The congestion window.
ghost use Rattle.std.specs.Prelude.{◌≡◌, ◌<◌, ◌*◌, ◌^◌, min};
ghost use Rattle.sctp_outbound.specs.Congestion.{first_congestion, grown, slowly_started, avoided, timed_out};
ghost use Rattle.sctp_outbound.specs.Congestion.{least_threshold, halved};

/// How many bytes may be in flight (RFC 4960 section 7.2). Each sum stays at the greatest u32.
#[derive(Clone, Copy, Debug, PartialEq, Eq)]
pub struct CongestionWindow {
    /// The congestion window, in bytes.
    pub cwnd: u32,
    /// The slow start threshold, in bytes: above it the window grows by a packet a round trip.
    pub ssthresh: u32,
    /// Bytes that came since the window grew last, while it was above the threshold.
    pub partial_bytes_acked: u32,
}

impl CongestionWindow {
    /// The first window of a sender whose packets are at most `mtu` bytes; slow start ends at the peer's window
    /// (section 7.2.1).
    pub fn new(mtu: u32, window: u32) -> Self
        requires { mtu < 2 ^ 30 }
        ensures { result ≡ first_congestion mtu window }
    {
        CongestionWindow {
            cwnd: (4 * mtu).min((2 * mtu).max(4380)),
            ssthresh: window,
            partial_bytes_acked: 0,
        }
    }

    /// A SACK moved the cumulative TSN ack point, and so many bytes that were outstanding came with it. It grows only
    /// if DATA waits, and in slow start not while a loss is recovered from (sections 7.2.1 and 7.2.2).
    pub(crate) fn grow(&mut self, acked: u64, waits: bool, recovers: bool, mtu: u32)
        ensures { self.new ≡ grown acked waits recovers mtu self.old }
    {
        if self.cwnd > self.ssthresh {
            self.avoid(acked, waits, mtu);
        } else if waits && !recovers {
            self.start_slowly(acked, mtu);
        }
    }

    // Slow start: by what came, and by no more than one packet.
    fn start_slowly(&mut self, acked: u64, mtu: u32)
        ensures { self.new ≡ slowly_started acked mtu self.old }
    {
        let more = acked.min(u64::from(mtu)) as u32;
        self.cwnd = self.cwnd.saturating_add(more);
    }

    // Congestion avoidance: by one packet for each window of bytes that came.
    fn avoid(&mut self, acked: u64, waits: bool, mtu: u32)
        ensures { self.new ≡ avoided acked waits mtu self.old }
    {
        let more = acked.min(u64::from(u32::MAX)) as u32;
        self.partial_bytes_acked = self.partial_bytes_acked.saturating_add(more);
        if self.partial_bytes_acked >= self.cwnd && waits {
            self.partial_bytes_acked -= self.cwnd;
            self.cwnd = self.cwnd.saturating_add(mtu);
        }
    }

    /// The retransmission timer expired: one packet may be in flight (section 7.2.3).
    pub(crate) fn on_t3_timeout(&mut self, mtu: u32)
        ensures { self.new ≡ timed_out mtu self.old }
    {
        self.ssthresh = (self.cwnd / 2).max(least_threshold(mtu));
        self.cwnd = mtu;
    }

    /// A TSN was reported missing for the third time, and no loss is recovered from: the window is half of what it was
    /// (section 7.2.3).
    pub(crate) fn on_third_report(&mut self, mtu: u32)
        ensures { self.new ≡ halved mtu self.old }
    {
        self.ssthresh = (self.cwnd / 2).max(least_threshold(mtu));
        self.cwnd = self.ssthresh;
        self.partial_bytes_acked = 0;
    }
}

// The least threshold after a loss.
fn least_threshold(mtu: u32) -> u32
    ensures { result ≡ least_threshold mtu }
{
    mtu.saturating_mul(4)
}
