// Channels of one association, each for one request: opened by either side, used, closed, and opened again later.
use crate::digest::Digest;
use crate::failure::Failure;
use crate::link::{Link, MILLISECOND, Shared};
use crate::network::{Side, Weather};
use sctp_driver::TransportConfig;
use std::alloc::Global;
use std::collections::VecDeque;

/// The greatest identifier: they are used in turn.
const GREATEST_ID: u16 = 4000;

/// The longest message, in bytes.
const GREATEST: u64 = 500;

/// Between two looks at the channels, in ns.
const TURN: u64 = 10 * MILLISECOND;

/// The most channels that are opened in a turn.
const BURST: u64 = 30;

/// The most turns for which a channel stays open.
const LIFE: u64 = 80;

/// A channel that is open.
#[derive(Clone, Copy)]
struct Channel {
    side: Side,
    id: u16,
}

/// The channels that are open, oldest first, and the next identifier.
#[derive(Drop)]
struct Book {
    open: VecDeque<Channel>,
    next: u16,
}

/// So many turns.
pub fn run(alloc: Global, seed: u64, count: u32) -> Result<Digest, Failure> {
    let mut shared = Shared::new(alloc, seed, GREATEST as usize)?;
    let weather = Weather {
        delay: 5 * MILLISECOND,
        jitter: 0,
        lost: 0,
        bursts: 0,
        repeated: 0,
    };
    let config = TransportConfig::default();
    let mut link = Link::new(alloc, &config, weather, &mut shared.random)?;
    let mut book = Book {
        open: VecDeque::new(alloc),
        next: 0,
    };
    come_and_go(&mut link, &mut book, count, &mut shared)?;
    Ok(shared.digest)
}

fn come_and_go(
    link: &mut Link,
    book: &mut Book,
    count: u32,
    shared: &mut Shared,
) -> Result<(), Failure> {
    link.connect(shared)?;
    for _ in 0..count {
        let burst = shared.random.between(0, BURST);
        for _ in 0..burst {
            begin(link, book, shared)?;
        }
        let left = (shared.random.between(LIFE / 4, LIFE) as usize).saturating_mul(15);
        close_down_to(link, book, left, shared);
        link.serve(Side::Client, shared)?;
        link.serve(Side::Server, shared)?;
        link.go_on(TURN, shared)?;
    }
    close_down_to(link, book, 0, shared);
    link.go_on(100 * TURN, shared)
}

// Opens the next channel at any side and writes a message or two.
fn begin(link: &mut Link, book: &mut Book, shared: &mut Shared) -> Result<(), Failure> {
    let side = if shared.random.happens(500) {
        Side::Client
    } else {
        Side::Server
    };
    let id = book.next;
    book.next = if id >= GREATEST_ID { 0 } else { id + 1 };
    if link.open(side, id, shared) {
        let messages = shared.random.between(1, 2);
        for _ in 0..messages {
            let length = shared.random.between(20, GREATEST) as usize;
            link.write(side, id, None, length, shared);
        }
        book.open.push_back(Channel { side, id })?;
    }
    Ok(())
}

// Closes the oldest channels, at most 60, until so many are left.
fn close_down_to(link: &mut Link, book: &mut Book, left: usize, shared: &mut Shared) {
    for _ in 0..60_u32 {
        if book.open.len() <= left {
            break;
        }
        let Some(channel) = book.open.pop_front() else {
            break;
        };
        link.close_stream(channel.side, channel.id, shared);
    }
}
