// Two paths between two sides, in memory.
use crate::random::Random;
use std::alloc::{AllocError, Global};
use std::collections::BTreeMap;

/// One of the two sides of a link.
#[derive(Clone, Copy, Debug, PartialEq, Eq)]
pub enum Side {
    Client,
    Server,
}

impl Side {
    /// The other one.
    pub fn other(self) -> Side {
        match self {
            Side::Client => Side::Server,
            Side::Server => Side::Client,
        }
    }
}

/// How a path treats datagrams.
#[derive(Clone, Copy, Debug)]
pub struct Weather {
    /// How long each takes at least, in ns.
    pub delay: u64,
    /// By how much more at most, in ns. Where it is not 0 datagrams overtake one another.
    pub jitter: u64,
    /// How many of 1,000 are lost one by one.
    pub lost: u64,
    /// How many of 1,000 begin a burst, in which each second one is lost.
    pub bursts: u64,
    /// How many of 1,000 come twice.
    pub repeated: u64,
}

/// How many of 1,000 datagrams of a burst end it.
const BURST_ENDS: u64 = 150;

/// How many of 1,000 datagrams of a burst are lost.
const LOST_IN_BURST: u64 = 500;

/// How many datagrams are kept while the paths stand still, both together; more are lost.
const KEPT_WHILE_STILL: u64 = 200;

/// When a datagram comes, and as which of those that were sent.
#[derive(Clone, Copy, PartialEq, Eq, PartialOrd, Ord)]
struct Arrival {
    moment: u64,
    number: u64,
}

/// A datagram on its way.
#[derive(Drop)]
pub struct Datagram {
    pub to: Side,
    pub bytes: Vec<u8>,
}

/// The datagrams on their way.
#[derive(Drop)]
pub struct Network {
    alloc: Global,
    weather: Weather,
    random: Random,
    way: BTreeMap<Arrival, Datagram>,
    sent: u64,
    is_in_burst: bool,
    still_until: u64,
    kept_while_still: u64,
}

impl Network {
    /// Nothing is on its way.
    pub fn new(alloc: Global, weather: Weather, seed: u64) -> Network {
        Network {
            alloc,
            weather,
            random: Random::of_seed(seed),
            way: BTreeMap::new(alloc),
            sent: 0,
            is_in_burst: false,
            still_until: 0,
            kept_while_still: 0,
        }
    }

    /// Both paths stand still until this moment: what is sent before waits for it.
    pub fn stand_still(&mut self, until: u64) {
        self.still_until = until;
        self.kept_while_still = 0;
    }

    /// From now on the paths are like this.
    pub fn change(&mut self, weather: Weather) {
        self.weather = weather;
    }

    /// Sends a datagram, which may be lost or come twice.
    pub fn send(&mut self, now: u64, to: Side, bytes: &[u8]) -> Result<(), AllocError> {
        if self.is_lost(now) {
            return Ok(());
        }
        self.put(now, to, bytes)?;
        if self.random.happens(self.weather.repeated) {
            self.put(now, to, bytes)?;
        }
        Ok(())
    }

    fn is_lost(&mut self, now: u64) -> bool {
        if now < self.still_until {
            self.kept_while_still = self.kept_while_still.saturating_add(1);
            return self.kept_while_still > KEPT_WHILE_STILL;
        }
        if self.is_in_burst {
            self.is_in_burst = !self.random.happens(BURST_ENDS);
            return self.random.happens(LOST_IN_BURST);
        }
        self.is_in_burst = self.random.happens(self.weather.bursts);
        self.random.happens(self.weather.lost)
    }

    fn put(&mut self, now: u64, to: Side, bytes: &[u8]) -> Result<(), AllocError> {
        let late = self.random.below(self.weather.jitter.saturating_add(1));
        let sent = now.max(self.still_until);
        let arrival = Arrival {
            moment: sent.saturating_add(self.weather.delay).saturating_add(late),
            number: self.sent,
        };
        self.sent = self.sent.saturating_add(1);
        let datagram = Datagram {
            to,
            bytes: bytes.to_vec(self.alloc)?,
        };
        self.way.insert(arrival, datagram)?;
        Ok(())
    }

    /// When the next datagram comes.
    pub fn next_arrival(&self) -> Option<u64> {
        match self.way.first_key_value() {
            Some((arrival, _)) => Some(arrival.moment),
            None => None,
        }
    }

    /// Takes out the next datagram, if it came by now.
    pub fn arrived(&mut self, now: u64) -> Option<Datagram> {
        let moment = self.next_arrival()?;
        if moment > now {
            return None;
        }
        let (_, datagram) = self.way.pop_first()?;
        Some(datagram)
    }
}
