// A server's associations, dozens alive at a time: each shakes hands, uses some channels, and shuts down.
use crate::digest::Digest;
use crate::failure::Failure;
use crate::link::{Link, MILLISECOND, Shared};
use crate::network::{Side, Weather};
use sctp_driver::TransportConfig;
use std::alloc::Global;

/// How many are alive at a time.
const ALIVE: u32 = 48;

/// The longest message, in bytes.
const GREATEST: u64 = 600;

/// Between two looks at an association, in ns.
const TURN: u64 = 20 * MILLISECOND;

/// Turns after which a side waits no longer for the resets of its channels, or for the last word of its peer.
const PATIENCE: u32 = 500;

/// How far an association is.
#[derive(Clone, Copy, Debug, PartialEq, Eq)]
enum Phase {
    Connecting,
    Talking { turns: u32 },
    Closing { turns: u32 },
    Ending { turns: u32 },
    Over,
}

/// One association.
#[derive(Drop)]
struct Peer {
    link: Link,
    phase: Phase,
    channels: u16,
}

/// So many associations.
pub fn run(alloc: Global, seed: u64, count: u32) -> Result<Digest, Failure> {
    let mut shared = Shared::new(alloc, seed, GREATEST as usize)?;
    let alive = count.min(ALIVE);
    let mut peers = Vec::new(alloc);
    for _ in 0..alive {
        peers.push(Peer::new(alloc, &mut shared)?)?;
    }
    let begun = serve_all(alloc, &mut peers, alive, count, &mut shared)?;
    if begun != count {
        return Err(Failure::NotEnded);
    }
    Ok(shared.digest)
}

// Until all are over; where one is, another one takes its place. Answers how many were begun.
fn serve_all(
    alloc: Global,
    peers: &mut Vec<Peer>,
    alive: u32,
    count: u32,
    shared: &mut Shared,
) -> Result<u32, Failure> {
    let mut begun = alive;
    for _ in 0..u64::MAX {
        let mut is_over = true;
        for peer in peers.iter_mut() {
            peer.turn(shared)?;
            if peer.phase == Phase::Over && begun < count {
                *peer = Peer::new(alloc, shared)?;
                begun = begun.saturating_add(1);
            }
            is_over = is_over && peer.phase == Phase::Over;
        }
        if is_over {
            break;
        }
    }
    Ok(begun)
}

impl Peer {
    fn new(alloc: Global, shared: &mut Shared) -> Result<Peer, Failure> {
        let weather = Weather {
            delay: 15 * MILLISECOND,
            jitter: MILLISECOND,
            lost: 20,
            bursts: 0,
            repeated: 20,
        };
        let config = TransportConfig::default();
        let mut link = Link::new(alloc, &config, weather, &mut shared.random)?;
        link.serve(Side::Client, shared)?;
        let channels = shared.random.small(1, 5);
        Ok(Peer {
            link,
            phase: Phase::Connecting,
            channels,
        })
    }

    // Lets time go on, and does what is next.
    fn turn(&mut self, shared: &mut Shared) -> Result<(), Failure> {
        if self.phase == Phase::Over {
            return Ok(());
        }
        self.link.go_on(TURN, shared)?;
        self.phase = match self.phase {
            Phase::Connecting => self.connected(shared)?,
            Phase::Talking { turns } => self.talked(turns, shared)?,
            Phase::Closing { turns } => self.closed(turns, shared)?,
            Phase::Ending { turns } => self.ended(turns, shared)?,
            Phase::Over => Phase::Over,
        };
        Ok(())
    }

    fn connected(&mut self, shared: &mut Shared) -> Result<Phase, Failure> {
        if self.link.client.told.is_lost {
            return Ok(Phase::Over);
        }
        if !self.link.is_connected() {
            return Ok(Phase::Connecting);
        }
        for id in 0..self.channels {
            self.link.open(Side::Client, id, shared);
        }
        let turns = u32::from(shared.random.small(2, 5));
        self.say(Side::Client, shared)?;
        Ok(Phase::Talking { turns })
    }

    // Writes some messages, each on any channel.
    fn say(&mut self, side: Side, shared: &mut Shared) -> Result<(), Failure> {
        let burst = shared.random.between(1, 8);
        for _ in 0..burst {
            let id = shared.random.small(0, self.channels);
            let length = shared.random.between(20, GREATEST) as usize;
            self.link.write(side, id, None, length, shared);
        }
        self.link.serve(side, shared)
    }

    fn talked(&mut self, turns: u32, shared: &mut Shared) -> Result<Phase, Failure> {
        if turns > 0 {
            self.say(Side::Server, shared)?;
            self.say(Side::Client, shared)?;
            return Ok(Phase::Talking { turns: turns - 1 });
        }
        for id in 0..self.channels {
            self.link.close_stream(Side::Client, id, shared);
        }
        self.link.serve(Side::Client, shared)?;
        Ok(Phase::Closing { turns: PATIENCE })
    }

    fn closed(&mut self, turns: u32, shared: &mut Shared) -> Result<Phase, Failure> {
        if self.link.client.told.resets < u64::from(self.channels) && turns > 0 {
            return Ok(Phase::Closing { turns: turns - 1 });
        }
        match self.link.client.driver.shutdown() {
            Ok(()) => shared.digest.number(23),
            Err(error) => shared.digest.number(u64::from(error.number()) << 16 | 23),
        }
        self.link.serve(Side::Client, shared)?;
        Ok(Phase::Ending { turns: PATIENCE })
    }

    // A side whose peer is gone hears nothing more, and closes by itself.
    fn ended(&mut self, turns: u32, shared: &mut Shared) -> Result<Phase, Failure> {
        if self.link.client.told.is_lost && self.link.server.told.is_lost {
            return Ok(Phase::Over);
        }
        if turns > 0 {
            return Ok(Phase::Ending { turns: turns - 1 });
        }
        self.link.client.driver.close()?;
        self.link.server.driver.close()?;
        self.link.serve(Side::Client, shared)?;
        self.link.serve(Side::Server, shared)?;
        Ok(Phase::Over)
    }
}
