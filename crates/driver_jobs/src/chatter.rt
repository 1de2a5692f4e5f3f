// Many short messages both ways, as games and telemetry write them.
use crate::digest::Digest;
use crate::failure::Failure;
use crate::link::{Link, MILLISECOND, Shared};
use crate::network::{Side, Weather};
use sctp_driver::{PayloadProtocolIdentifier, ReliabilityType, TransportConfig};
use std::alloc::Global;

/// Streams 0 to 19.
const STREAMS: u16 = 20;

/// The most messages that a side writes before it is polled.
const BURST: u64 = 40;

/// The longest message, in bytes.
const GREATEST: u64 = 300;

/// Between two writes of a side, in ns.
const TURN: u64 = 10 * MILLISECOND;

/// So many turns.
pub fn run(alloc: Global, seed: u64, count: u32) -> Result<Digest, Failure> {
    let mut shared = Shared::new(alloc, seed, GREATEST as usize)?;
    let weather = Weather {
        delay: 15 * MILLISECOND,
        jitter: 0,
        lost: 0,
        bursts: 0,
        repeated: 0,
    };
    let config = TransportConfig::default();
    let mut link = Link::new(alloc, &config, weather, &mut shared.random)?;
    talk(&mut link, count, &mut shared)?;
    Ok(shared.digest)
}

fn talk(link: &mut Link, count: u32, shared: &mut Shared) -> Result<(), Failure> {
    link.connect(shared)?;
    for id in 0..STREAMS {
        link.open(Side::Client, id, shared);
        link.open(Side::Server, id, shared);
        set(link, Side::Client, id)?;
        set(link, Side::Server, id)?;
    }
    for _ in 0..count {
        write_some(link, Side::Client, shared)?;
        write_some(link, Side::Server, shared)?;
        link.go_on(TURN, shared)?;
    }
    link.go_on(100 * TURN, shared)
}

// Every fourth stream is unordered, every fourth one sends each message once, and every fourth one does both.
fn set(link: &mut Link, side: Side, id: u16) -> Result<(), Failure> {
    let driver = &mut link.end(side).driver;
    match id % 4 {
        0 => driver.set_reliability_params(id, false, ReliabilityType::Reliable, 0)?,
        1 => driver.set_reliability_params(id, true, ReliabilityType::Reliable, 0)?,
        2 => driver.set_reliability_params(id, false, ReliabilityType::Rexmit, 0)?,
        _ => driver.set_reliability_params(id, true, ReliabilityType::Rexmit, 0)?,
    }
    Ok(())
}

fn write_some(link: &mut Link, side: Side, shared: &mut Shared) -> Result<(), Failure> {
    let burst = shared.random.between(1, BURST);
    for _ in 0..burst {
        let id = shared.random.small(0, STREAMS);
        let payload_type = any_payload_type(shared);
        let length = any_length(shared);
        link.write(side, id, payload_type, length, shared);
    }
    link.serve(side, shared)
}

fn any_payload_type(shared: &mut Shared) -> Option<PayloadProtocolIdentifier> {
    if shared.random.happens(500) {
        Some(PayloadProtocolIdentifier::String)
    } else {
        None
    }
}

// Most are short.
fn any_length(shared: &mut Shared) -> usize {
    if shared.random.happens(850) {
        shared.random.between(8, 100) as usize
    } else {
        shared.random.between(100, GREATEST) as usize
    }
}
