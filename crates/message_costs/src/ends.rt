// Two associations and the messages from one to the other, without a network between them.
use anyhow::{Result, bail};
use bytes::Bytes;
use sctp_assoc::{
    Association, AssociationEvent, ChunkInit, Chunks, Error, Event, Instant, PartialDecode,
    Payload, PayloadProtocolIdentifier, StreamEvent, StreamId, Transmit, TransportConfig, token,
};
use std::alloc::Global;
use std::net::{IpAddr, Ipv4Addr, SocketAddr};

/// Greatest payload of one DATA chunk, in bytes.
const PAYLOAD_SIZE: u32 = 1200;

/// The stream that carries all messages.
const STREAM: StreamId = 1;

/// Rounds within which a message has to be read. A message of 65,536 bytes takes some ten, while the congestion window
/// is small.
const MAX_ROUNDS: u32 = 10_000;

/// The writer A, the reader B, the moment of their next round and what B read so far.
#[derive(Drop)]
struct Ends {
    a: Association,
    b: Association,
    now: Instant,
    bytes_read: u64,
}

/// Has two new associations exchange `count` bursts of `burst` messages, others in each burst by their first byte.
/// Answers how many bytes were read.
pub fn exchange(alloc: Global, message: &mut [u8], count: u64, burst: u64) -> Result<u64> {
    let mut ends = Ends::joined(alloc)?;
    ends.send_each(message, count, burst)?;
    Ok(ends.bytes_read)
}

impl Ends {
    fn joined(alloc: Global) -> Result<Ends, Error> {
        let config = TransportConfig::default();
        let token_a = token(alloc, &config, 1, 100)?;
        let token_b = token(alloc, &config, 2, 500)?;
        Ok(Ends {
            a: joined_by(alloc, &config, &token_a, &token_b)?,
            b: joined_by(alloc, &config, &token_b, &token_a)?,
            now: Instant::from_millis(0),
            bytes_read: 0,
        })
    }

    fn send_each(&mut self, message: &mut [u8], count: u64, burst: u64) -> Result<()> {
        self.a
            .open_stream(STREAM, PayloadProtocolIdentifier::Binary)?;
        for number in 0..count {
            if let Some(first) = message.first_mut() {
                *first = (number % 256) as u8;
            }
            let mut goal = self.bytes_read;
            for _ in 0..burst {
                self.a.stream(STREAM)?.write(message)?;
                goal = goal.saturating_add(message.len() as u64);
            }
            self.go_on_until(goal)?;
        }
        Ok(())
    }

    // Until B read this many bytes.
    fn go_on_until(&mut self, goal: u64) -> Result<()> {
        for _ in 0..MAX_ROUNDS {
            if goal <= self.bytes_read {
                return Ok(());
            }
            self.go_on()?;
        }
        bail!("a message was not read after {MAX_ROUNDS} rounds")
    }

    // One round: packets from A to B, what B reads of them, and packets from B to A.
    fn go_on(&mut self) -> Result<(), Error> {
        self.now = self.now.plus_millis(1);
        pass_on(&mut self.a, &mut self.b, self.now)?;
        let count = take_events(&mut self.b)?;
        self.bytes_read = self.bytes_read.saturating_add(count);
        pass_on(&mut self.b, &mut self.a, self.now)?;
        take_events(&mut self.a)?;
        Ok(())
    }
}

fn joined_by(
    alloc: Global,
    config: &TransportConfig,
    own: &ChunkInit,
    other: &ChunkInit,
) -> Result<Association, Error> {
    Association::new_with_out_of_band_init(alloc, config, PAYLOAD_SIZE, peer(), None, own, other)
}

// An address that no association looks at.
fn peer() -> SocketAddr {
    SocketAddr::new(IpAddr::V4(Ipv4Addr::new(192, 0, 2, 1)), 5000)
}

// Hands all packets that are due at one side to the other.
fn pass_on(from: &mut Association, to: &mut Association, now: Instant) -> Result<(), Error> {
    if is_due(from, now) {
        from.handle_timeout(now)?;
    }
    let Some(transmit) = from.poll_transmit(now)? else {
        return Ok(());
    };
    match transmit.payload {
        Payload::RawEncode(packets) => hand_in(to, packets, now),
        Payload::PartialDecode(_) => Ok(()),
    }
}

// Whether a timer expired by now.
fn is_due(association: &Association, now: Instant) -> bool {
    match association.poll_timeout() {
        Some(moment) => moment.as_nanos() <= now.as_nanos(),
        None => false,
    }
}

fn hand_in(association: &mut Association, packets: Vec<Bytes>, now: Instant) -> Result<(), Error> {
    for packet in packets {
        let packet = PartialDecode::unmarshal(&packet)?;
        association.handle_event(AssociationEvent::datagram(Transmit {
            now,
            remote: peer(),
            payload: Payload::PartialDecode(packet),
            ecn: None,
            local_ip: None,
        }))?;
    }
    Ok(())
}

// All events that wait; where a stream can be read, its messages are. Answers how many bytes they had.
fn take_events(association: &mut Association) -> Result<u64, Error> {
    let mut count: u64 = 0;
    for _ in 0..u64::MAX {
        let Some(event) = association.poll()? else {
            break;
        };
        if let Event::Stream(StreamEvent::Readable { id }) = event {
            count = count.saturating_add(read_each(association, id)?);
        }
    }
    Ok(count)
}

fn read_each(association: &mut Association, id: StreamId) -> Result<u64, Error> {
    let mut stream = association.stream(id)?;
    let mut count: u64 = 0;
    for _ in 0..u64::MAX {
        let Some(message) = stream.read()? else {
            break;
        };
        count = count.saturating_add(take_bytes(message)?);
    }
    Ok(count)
}

fn take_bytes(message: Chunks) -> Result<u64, Error> {
    let mut message = message;
    let mut count: u64 = 0;
    for _ in 0..message.len() {
        let Some(cut) = message.next(usize::MAX)? else {
            break;
        };
        count = count.saturating_add(cut.len() as u64);
    }
    Ok(count)
}
