// A call over a mobile phone's path: messages of three lengths under all kinds of reliability.
use crate::digest::Digest;
use crate::failure::Failure;
use crate::link::{Link, MILLISECOND, Shared};
use crate::network::{Side, Weather};
use sctp_driver::{ReliabilityType, TransportConfig};
use std::alloc::Global;

/// The longest message, in bytes.
const GREATEST: usize = 8192;

/// How many bytes of a channel may be accepted and not acknowledged.
const BUFFERED: usize = 262_144;

/// Between two writes of a side, in ns.
const TURN: u64 = 5 * MILLISECOND;

/// The path is good for so many turns, and then bad for so many.
const TURNS_GOOD: u32 = 800;

const TURNS_BAD: u32 = 200;

/// None is lost, and they keep their order.
const GOOD: Weather = Weather {
    delay: 30 * MILLISECOND,
    jitter: 0,
    lost: 0,
    bursts: 0,
    repeated: 1,
};

/// Datagrams overtake one another, and are lost one by one and in bursts.
const BAD: Weather = Weather {
    delay: 40 * MILLISECOND,
    jitter: 40 * MILLISECOND,
    lost: 20,
    bursts: 4,
    repeated: 2,
};

/// A channel: how it sends, what it carries, and how many messages a side writes of it in a turn, at most.
#[derive(Clone, Copy)]
struct Channel {
    id: u16,
    unordered: bool,
    kind: ReliabilityType,
    value: u32,
    length: usize,
    burst: u64,
}

/// A file in pieces, updates in order, updates that are sent once, frames that are tried for a while, and reports.
const CHANNELS: [Channel; 5] = [
    Channel {
        id: 0,
        unordered: false,
        kind: ReliabilityType::Reliable,
        value: 0,
        length: 8192,
        burst: 1,
    },
    Channel {
        id: 1,
        unordered: false,
        kind: ReliabilityType::Rexmit,
        value: 2,
        length: 200,
        burst: 6,
    },
    Channel {
        id: 2,
        unordered: true,
        kind: ReliabilityType::Rexmit,
        value: 0,
        length: 200,
        burst: 12,
    },
    Channel {
        id: 3,
        unordered: true,
        kind: ReliabilityType::Timed,
        value: 250,
        length: 1100,
        burst: 2,
    },
    Channel {
        id: 4,
        unordered: true,
        kind: ReliabilityType::Reliable,
        value: 0,
        length: 1100,
        burst: 1,
    },
];

/// So often the path is good, and then bad.
pub fn run(alloc: Global, seed: u64, count: u32) -> Result<Digest, Failure> {
    let mut shared = Shared::new(alloc, seed, GREATEST)?;
    let config = TransportConfig::default();
    let mut link = Link::new(alloc, &config, GOOD, &mut shared.random)?;
    talk(&mut link, count, &mut shared)?;
    Ok(shared.digest)
}

fn talk(link: &mut Link, count: u32, shared: &mut Shared) -> Result<(), Failure> {
    link.connect(shared)?;
    for channel in CHANNELS {
        open(link, Side::Client, channel, shared)?;
        open(link, Side::Server, channel, shared)?;
    }
    for _ in 0..count {
        talk_for(link, TURNS_GOOD, shared)?;
        link.change(BAD);
        talk_for(link, TURNS_BAD, shared)?;
        link.change(GOOD);
    }
    link.go_on(1000 * TURN, shared)
}

fn talk_for(link: &mut Link, turns: u32, shared: &mut Shared) -> Result<(), Failure> {
    for _ in 0..turns {
        write_some(link, Side::Client, shared)?;
        write_some(link, Side::Server, shared)?;
        link.go_on(TURN, shared)?;
    }
    Ok(())
}

fn open(link: &mut Link, side: Side, channel: Channel, shared: &mut Shared) -> Result<(), Failure> {
    link.open(side, channel.id, shared);
    link.end(side)
        .driver
        .set_reliability_params(channel.id, channel.unordered, channel.kind, channel.value)?;
    Ok(())
}

fn write_some(link: &mut Link, side: Side, shared: &mut Shared) -> Result<(), Failure> {
    for channel in CHANNELS {
        let burst = shared.random.between(0, channel.burst);
        for _ in 0..burst {
            let buffered = link.end(side).driver.buffered_amount(channel.id)?;
            if buffered < BUFFERED {
                link.write(side, channel.id, None, channel.length, shared);
            }
        }
    }
    link.serve(side, shared)
}
