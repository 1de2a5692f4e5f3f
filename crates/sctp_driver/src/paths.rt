// The path to the peer.
ghost use Rattle.std.specs.Prelude.{◌≡◌};
ghost use Rattle.sctp_driver.specs.Paths.{path_of};

use crate::Driver;

/// How much the path to the peer takes, and how much is under way on it.
#[derive(Clone, Copy, Debug, PartialEq, Eq)]
pub struct Path {
    /// The greatest payload of DATA and 28, in bytes: a datagram of more than one DATA chunk is no longer.
    pub mtu: u32,
    /// In bytes (RFC 4960 section 7.2).
    pub congestion_window: u32,
    /// In bytes (section 7.2.1): at first the peer's first window.
    pub slow_start_threshold: u32,
    /// The peer's receive window as it last said it, less the bytes in flight; 0 if these are more.
    pub peer_window: u32,
    /// The bytes of DATA that went out and were neither acknowledged nor given up (section 7.2).
    pub bytes_in_flight: u64,
    /// In ms (section 6.3.1); 0 before the first measurement.
    pub smoothed_round_trip_ms: u64,
}

impl Driver {
    /// What is known of the path to the peer. In a closed or failed association, what was known last.
    pub fn path(&self) -> Path
        ensures { result ≡ path_of self.now.association }
    {
        Path {
            mtu: self.association.mtu(),
            congestion_window: self.association.cwnd(),
            slow_start_threshold: self.association.ssthresh(),
            peer_window: self.association.rwnd(),
            bytes_in_flight: self.association.bytes_in_flight(),
            smoothed_round_trip_ms: self
                .association
                .smoothed_round_trip()
                .as_millis()
                .min(u64::MAX as u128) as u64,
        }
    }
}
