// A path that stands still for seconds, again and again, while its writer goes on.
use crate::digest::Digest;
use crate::failure::Failure;
use crate::link::{Link, MILLISECOND, Shared};
use crate::network::{Side, Weather};
use sctp_driver::{ReliabilityType, TransportConfig};
use std::alloc::Global;

/// The longest message, in bytes.
const GREATEST: u64 = 400;

/// Between two writes, in ns.
const TURN: u64 = 5 * MILLISECOND;

/// Turns before the path stands still, while it does, and behind that.
const TURNS_BEFORE: u32 = 100;

const TURNS_STILL: u32 = 600;

const TURNS_BEHIND: u32 = 200;

/// The most messages that are written in a turn.
const BURST: u64 = 10;

/// How many bytes of a channel may be accepted and not acknowledged, where its messages have no lifetime.
const BUFFERED: usize = 131_072;

/// Streams by how long their messages are tried.
#[derive(Clone, Copy)]
struct Channel {
    id: u16,
    unordered: bool,
    kind: ReliabilityType,
    value: u32,
}

const CHANNELS: [Channel; 4] = [
    Channel {
        id: 0,
        unordered: true,
        kind: ReliabilityType::Timed,
        value: 400,
    },
    Channel {
        id: 1,
        unordered: false,
        kind: ReliabilityType::Timed,
        value: 1500,
    },
    Channel {
        id: 2,
        unordered: false,
        kind: ReliabilityType::Rexmit,
        value: 1,
    },
    Channel {
        id: 3,
        unordered: false,
        kind: ReliabilityType::Reliable,
        value: 0,
    },
];

/// The path stands still so many times.
pub fn run(alloc: Global, seed: u64, count: u32) -> Result<Digest, Failure> {
    let mut shared = Shared::new(alloc, seed, GREATEST as usize)?;
    let weather = Weather {
        delay: 40 * MILLISECOND,
        jitter: MILLISECOND,
        lost: 2,
        bursts: 0,
        repeated: 0,
    };
    let config = TransportConfig::default();
    let mut link = Link::new(alloc, &config, weather, &mut shared.random)?;
    talk(&mut link, count, &mut shared)?;
    Ok(shared.digest)
}

fn talk(link: &mut Link, count: u32, shared: &mut Shared) -> Result<(), Failure> {
    link.connect(shared)?;
    for channel in CHANNELS {
        link.open(Side::Client, channel.id, shared);
        link.client
            .driver
            .set_reliability_params(channel.id, channel.unordered, channel.kind, channel.value)?;
    }
    for _ in 0..count {
        write_for(link, TURNS_BEFORE, shared)?;
        link.stand_still(u64::from(TURNS_STILL) * TURN);
        write_for(link, TURNS_STILL, shared)?;
        write_for(link, TURNS_BEHIND, shared)?;
    }
    link.go_on(4000 * TURN, shared)
}

// Most messages have a lifetime.
fn any_channel(shared: &mut Shared) -> Channel {
    match shared.random.below(10) {
        0..4 => CHANNELS[0],
        4..7 => CHANNELS[1],
        7..9 => CHANNELS[2],
        _ => CHANNELS[3],
    }
}

fn write_for(link: &mut Link, turns: u32, shared: &mut Shared) -> Result<(), Failure> {
    for _ in 0..turns {
        let burst = shared.random.between(0, BURST);
        for _ in 0..burst {
            write_one(link, shared)?;
        }
        link.serve(Side::Client, shared)?;
        link.go_on(TURN, shared)?;
    }
    Ok(())
}

fn write_one(link: &mut Link, shared: &mut Shared) -> Result<(), Failure> {
    let channel = any_channel(shared);
    let length = shared.random.between(20, GREATEST) as usize;
    let has_room = match channel.kind {
        ReliabilityType::Timed => true,
        _ => link.client.driver.buffered_amount(channel.id)? < BUFFERED,
    };
    if has_room {
        link.write(Side::Client, channel.id, None, length, shared);
    }
    Ok(())
}
