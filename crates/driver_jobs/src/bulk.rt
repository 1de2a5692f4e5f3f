// A file that goes over three channels side by side, in messages as applications cut them.
use crate::digest::Digest;
use crate::failure::Failure;
use crate::link::{Link, MILLISECOND, Shared};
use crate::network::{Side, Weather};
use sctp_driver::{ReliabilityType, TransportConfig};
use std::alloc::Global;

/// The longest message, in bytes.
const GREATEST: u32 = 262_144;

/// How many bytes of a channel may be accepted and not acknowledged.
const BUFFERED: usize = 1_048_576;

/// Which messages a channel carries.
#[derive(Clone, Copy)]
struct Channel {
    id: u16,
    length: usize,
}

const CHANNELS: [Channel; 3] = [
    Channel {
        id: 0,
        length: 16_384,
    },
    Channel {
        id: 2,
        length: 65_536,
    },
    Channel {
        id: 4,
        length: 262_144,
    },
];

/// So many messages.
pub fn run(alloc: Global, seed: u64, count: u32) -> Result<Digest, Failure> {
    let mut shared = Shared::new(alloc, seed, GREATEST as usize)?;
    let weather = Weather {
        delay: 20 * MILLISECOND,
        jitter: 0,
        lost: 0,
        bursts: 0,
        repeated: 0,
    };
    let config = TransportConfig::default()
        .with_max_send_message_size(GREATEST)
        .with_max_receive_message_size(GREATEST);
    let mut link = Link::new(alloc, &config, weather, &mut shared.random)?;
    send_all(&mut link, count, &mut shared)?;
    Ok(shared.digest)
}

fn send_all(link: &mut Link, count: u32, shared: &mut Shared) -> Result<(), Failure> {
    link.connect(shared)?;
    for channel in CHANNELS {
        link.open(Side::Client, channel.id, shared);
        let driver = &mut link.client.driver;
        driver.set_reliability_params(channel.id, false, ReliabilityType::Reliable, 0)?;
        driver.set_buffered_amount_low_threshold(channel.id, BUFFERED / 4)?;
    }
    for _ in 0..count {
        let channel = any_channel(shared);
        make_room(link, channel, shared)?;
        link.write(Side::Client, channel.id, None, channel.length, shared);
        link.serve(Side::Client, shared)?;
    }
    go_on_until_read(link, u64::from(count), shared)
}

fn any_channel(shared: &mut Shared) -> Channel {
    match shared.random.below(3) {
        0 => CHANNELS[0],
        1 => CHANNELS[1],
        _ => CHANNELS[2],
    }
}

// Until the channel has room for its next message.
fn make_room(link: &mut Link, channel: Channel, shared: &mut Shared) -> Result<(), Failure> {
    for _ in 0..u64::MAX {
        let buffered = link.client.driver.buffered_amount(channel.id)?;
        shared.digest.number(buffered as u64);
        if buffered <= BUFFERED - channel.length.min(BUFFERED) {
            return Ok(());
        }
        if !link.step(shared)? {
            break;
        }
    }
    Err(Failure::NoRoom)
}

fn go_on_until_read(link: &mut Link, count: u64, shared: &mut Shared) -> Result<(), Failure> {
    for _ in 0..u64::MAX {
        if link.server.told.messages >= count {
            return Ok(());
        }
        if !link.step(shared)? {
            break;
        }
    }
    Err(Failure::NotRead)
}
