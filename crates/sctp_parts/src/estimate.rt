// The estimate of the timeout of retransmissions (RFC 4960 section 6.3.1).
ghost use Rattle.std.specs.Prelude.{◌≡◌, ◌-◌, ◌^◌, min};
ghost use Rattle.sctp_parts.specs.Estimate.{initial_estimate, measured, forgotten, next_four_rttvar, next_srtt, rto_of};

use std::marker::Model;

const RTO_INITIAL: u64 = 3000;

const RTO_MIN: u64 = 1000;

/// The greatest timeout where none is given, in ms (RFC 4960 section 15, RTO.Max).
pub(crate) const RTO_MAX: u64 = 60_000;

/// The estimate of the retransmission timeout (RFC 4960 section 6.3.1), in ms.
#[derive(Debug, Drop)]
pub struct RtoManager {
    srtt: u64,
    // Four times the variation of the round-trip time, with 16 fractional bits.
    four_rttvar: u64,
    rto: u64,
    no_update: bool,
    rto_initial: u64,
    rto_min: u64,
    rto_max: u64,
}

impl Model for RtoManager {
    ghost use Rattle.sctp_parts.specs.Estimate.{Estimate};

    ghost Value = { Estimate };

    ghost view = { λ r. record {
      srtt = r.srtt;
      four_rttvar = r.four_rttvar;
      rto = r.rto;
      no_update = r.no_update;
      initial = r.rto_initial;
      least = r.rto_min;
      greatest = r.rto_max;
    } };
}

impl Default for RtoManager {
    ghost is_default = { λ r. r ≡ initial_estimate 3000 1000 60000 };

    /// An initial timeout of 3000 ms, at least 1000 and at most 60,000.
    fn default() -> Self {
        RtoManager::new(RTO_INITIAL, RTO_MIN, RTO_MAX)
    }
}

impl RtoManager {
    /// No measurement yet. Where `least` is above `greatest` the timeout is `greatest`.
    pub fn new(initial: u64, least: u64, greatest: u64) -> Self
        ensures { result ≡ initial_estimate initial least greatest }
    {
        RtoManager {
            srtt: 0,
            four_rttvar: 0,
            rto: initial,
            no_update: false,
            rto_initial: initial,
            rto_min: least,
            rto_max: greatest,
        }
    }

    /// Takes in a measured round-trip time, in ms, and answers the smoothed one.
    pub fn set_new_rtt(&mut self, rtt: u64) -> u64
        ensures state { self.new ≡ measured rtt self.old }
        ensures answer { result ≡ self.new.srtt }
    {
        if self.no_update {
            return self.srtt;
        }
        self.four_rttvar = scaled_variation(self.srtt, self.four_rttvar, rtt);
        self.srtt = smoothed(self.srtt, rtt);
        self.rto = timeout(self.srtt, self.four_rttvar, self.rto_min, self.rto_max);
        self.srtt
    }

    /// The timeout, in ms.
    pub fn get_rto(&self) -> u64
        ensures { result ≡ self.now.rto }
    {
        self.rto
    }

    /// The smoothed round-trip time, in ms (RFC 4960 section 6.3.1); 0 before the first measurement.
    pub fn get_srtt(&self) -> u64
        ensures { result ≡ self.now.srtt }
    {
        self.srtt
    }

    /// Forgets all measurements.
    pub fn reset(&mut self)
        ensures { self.new ≡ forgotten self.old }
    {
        if self.no_update {
            return;
        }
        self.srtt = 0;
        self.four_rttvar = 0;
        self.rto = self.rto_initial;
    }

    /// Sets the timeout, in ms, and whether measurements and `reset` leave it as it is.
    pub fn set_rto(&mut self, rto: u64, no_update: bool)
        ensures { self.new ≡ record self.old { rto = rto; no_update = no_update } }
    {
        self.rto = rto;
        self.no_update = no_update;
    }
}

#[tactic(auto, unfolding(crate::specs::Estimate::next_four_rttvar))]
fn scaled_variation(srtt: u64, four_rttvar: u64, rtt: u64) -> u64
    ensures { result ≡ min (next_four_rttvar srtt four_rttvar rtt) (2 ^ 64 - 1) }
{
    let wide = if srtt == 0 {
        2 * rtt as u128 * 65536
    } else {
        (6 * four_rttvar as u128 + 8 * srtt.abs_diff(rtt) as u128 * 65536) / 8
    };
    wide.min(u64::MAX as u128) as u64
}

#[tactic(auto, unfolding(crate::specs::Estimate::next_srtt))]
fn smoothed(srtt: u64, rtt: u64) -> u64
    ensures { result ≡ next_srtt srtt rtt }
{
    if srtt == 0 {
        rtt
    } else {
        ((7 * srtt as u128 + rtt as u128) / 8) as u64
    }
}

#[tactic(auto, unfolding(crate::specs::Estimate::rto_of))]
fn timeout(srtt: u64, four_rttvar: u64, least: u64, greatest: u64) -> u64
    ensures { result ≡ rto_of srtt four_rttvar least greatest }
{
    srtt.saturating_add(four_rttvar / 65536)
        .max(least)
        .min(greatest)
}
