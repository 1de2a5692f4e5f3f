// Moments and the congestion mark of a datagram.
ghost use Rattle.std.specs.Prelude.{◌≡◌, ℕ, ◌+◌, ◌-◌, ◌*◌, ◌/◌, ◌^◌, ◌<◌, min};

use std::marker::Model;

/// A moment, in nanoseconds since an epoch of the caller's choice. Moments are handed in; nothing here reads a clock.
#[derive(Clone, Copy, Debug, PartialEq, Eq, PartialOrd, Ord)]
pub struct Instant {
    nanos: u64,
}

impl Model for Instant {
    ghost Value = { ℕ };

    ghost view = { λ i. i.nanos };

    ghost inverse = { λ n. record { nanos = n } };
}

const NANOS_PER_MILLI: u64 = 1_000_000;

impl Instant {
    /// The moment `nanos` nanoseconds after the epoch.
    pub fn from_nanos(nanos: u64) -> Self
        ensures { result ≡ nanos }
    {
        Instant { nanos }
    }

    /// Nanoseconds since the epoch.
    pub fn as_nanos(&self) -> u64
        ensures { result ≡ self.now }
    {
        self.nanos
    }

    /// The moment `millis` milliseconds after the epoch, the greatest moment where that is past it.
    pub fn from_millis(millis: u64) -> Self
        ensures { result ≡ min (millis * 1000000) (2 ^ 64 - 1) }
    {
        Instant {
            nanos: millis.saturating_mul(NANOS_PER_MILLI),
        }
    }

    /// The moment `millis` milliseconds later, the greatest moment where that is past it.
    pub fn plus_millis(&self, millis: u64) -> Self
        ensures { result ≡ min (self.now + min (millis * 1000000) (2 ^ 64 - 1)) (2 ^ 64 - 1) }
    {
        Instant {
            nanos: self
                .nanos
                .saturating_add(millis.saturating_mul(NANOS_PER_MILLI)),
        }
    }

    /// Whole milliseconds since `earlier`, 0 where `earlier` is later.
    pub fn millis_since(&self, earlier: Instant) -> u64
        ensures { result ≡ (self.now - earlier) / 1000000 }
    {
        self.nanos.saturating_sub(earlier.nanos) / NANOS_PER_MILLI
    }
}

/// The two low bits of an IP header's traffic class (RFC 3168 section 5).
#[derive(Clone, Copy, Debug, PartialEq, Eq)]
pub enum EcnCodepoint {
    Ect0,
    Ect1,
    Ce,
}

impl EcnCodepoint {
    ghost use Rattle.sctp_wire_types.specs.Ecn.{codepoint_of};

    /// The codepoint of the low two bits; None where they are 0.
    pub fn from_bits(bits: u8) -> Option<Self>
        ensures { result ≡ codepoint_of bits }
    {
        match bits % 4 {
            1 => Some(EcnCodepoint::Ect1),
            2 => Some(EcnCodepoint::Ect0),
            3 => Some(EcnCodepoint::Ce),
            _ => None,
        }
    }
}
