// Two drivers and the network between them, in a time of their own.
use crate::digest::Digest;
use crate::end::End;
use crate::failure::Failure;
use crate::network::{Network, Side, Weather};
use crate::random::{Pool, Random};
use sctp_driver::{Driver, PayloadProtocolIdentifier, TransportConfig};
use std::alloc::{AllocError, Global};

/// A millisecond, in ns.
pub const MILLISECOND: u64 = 1_000_000;

/// Greatest payload of one DATA chunk, in bytes.
const PAYLOAD_SIZE: u32 = 1200;

/// As long as the longest datagram may be.
const DATAGRAM_SIZE: usize = 65_536;

/// What all links of a job share: its digest, its random numbers, and buffers.
#[derive(Drop)]
pub struct Shared {
    pub digest: Digest,
    pub random: Random,
    pool: Pool,
    message: Vec<u8>,
    datagram: Vec<u8>,
}

impl Shared {
    /// For messages of up to so many bytes.
    pub fn new(alloc: Global, seed: u64, message_size: usize) -> Result<Shared, AllocError> {
        let mut random = Random::of_seed(seed);
        let pool = Pool::new(alloc, &mut random)?;
        Ok(Shared {
            digest: Digest::new(),
            random,
            pool,
            message: Vec::from_elem(alloc, 0, message_size)?,
            datagram: Vec::from_elem(alloc, 0, DATAGRAM_SIZE)?,
        })
    }
}

/// Two sides and the network between them.
#[derive(Drop)]
pub struct Link {
    pub client: End,
    pub server: End,
    network: Network,
    now: u64,
}

impl Link {
    /// A client and a server that did not send anything yet.
    pub fn new(
        alloc: Global,
        config: &TransportConfig,
        weather: Weather,
        random: &mut Random,
    ) -> Result<Link, Failure> {
        let tag = (random.number() >> 33) as u32 | 1;
        let tsn = (random.number() >> 32) as u32 | 1;
        let byte = (random.number() >> 56) as u8;
        let client = Driver::client(alloc, config, PAYLOAD_SIZE, tag, tsn, [byte; 32], 0)?;
        let tag = (random.number() >> 33) as u32 | 1;
        let tsn = (random.number() >> 32) as u32 | 1;
        let byte = (random.number() >> 56) as u8;
        let server = Driver::server(alloc, config, PAYLOAD_SIZE, tag, tsn, [byte; 32], 0)?;
        Ok(Link {
            client: End::new(client),
            server: End::new(server),
            network: Network::new(alloc, weather, random.number()),
            now: 0,
        })
    }

    /// One of its sides.
    pub fn end(&mut self, side: Side) -> &mut End {
        match side {
            Side::Client => &mut self.client,
            Side::Server => &mut self.server,
        }
    }

    /// Both paths stand still for so many ns.
    pub fn stand_still(&mut self, duration: u64) {
        self.network.stand_still(self.now.saturating_add(duration));
    }

    /// From now on both paths are like this.
    pub fn change(&mut self, weather: Weather) {
        self.network.change(weather);
    }

    /// Whether both sides are connected.
    pub fn is_connected(&self) -> bool {
        self.client.told.is_connected && self.server.told.is_connected
    }

    /// Lets the handshake go on until both sides are connected.
    pub fn connect(&mut self, shared: &mut Shared) -> Result<(), Failure> {
        self.serve(Side::Client, shared)?;
        for _ in 0..u64::MAX {
            if self.is_connected() {
                return Ok(());
            }
            if !self.step(shared)? {
                break;
            }
        }
        Err(Failure::NotConnected)
    }

    /// Opens a stream at a side. Whether it was refused goes into the digest.
    pub fn open(&mut self, side: Side, id: u16, shared: &mut Shared) -> bool {
        let answer = self
            .end(side)
            .driver
            .open_stream(id, PayloadProtocolIdentifier::Binary);
        match answer {
            Ok(()) => {
                shared.digest.number(20);
                true
            }
            Err(error) => {
                shared.digest.number(u64::from(error.number()) << 16 | 20);
                false
            }
        }
    }

    /// Writes a message of so many bytes at a side.
    pub fn write(
        &mut self,
        side: Side,
        id: u16,
        payload_type: Option<PayloadProtocolIdentifier>,
        length: usize,
        shared: &mut Shared,
    ) {
        let Shared {
            digest,
            random,
            pool,
            ..
        } = shared;
        let bytes = pool.message(random, length);
        match self.end(side).driver.write(id, payload_type, bytes) {
            Ok(accepted) => digest.number(accepted as u64),
            Err(error) => digest.number(u64::from(error.number()) << 16 | 21),
        }
    }

    /// Closes a stream at a side.
    pub fn close_stream(&mut self, side: Side, id: u16, shared: &mut Shared) {
        match self.end(side).driver.close_stream(id) {
            Ok(()) => shared.digest.number(22),
            Err(error) => shared.digest.number(u64::from(error.number()) << 16 | 22),
        }
    }

    /// Takes the events of a side, sends its datagrams, and takes the events that this left.
    pub fn serve(&mut self, side: Side, shared: &mut Shared) -> Result<(), Failure> {
        let now = self.now;
        match side {
            Side::Client => serve_end(
                &mut self.client,
                now,
                Side::Server,
                &mut self.network,
                shared,
            ),
            Side::Server => serve_end(
                &mut self.server,
                now,
                Side::Client,
                &mut self.network,
                shared,
            ),
        }
    }

    // The next moment at which something happens by itself.
    fn next_moment(&self) -> Option<u64> {
        let timers = earlier(
            self.client.driver.poll_timeout(),
            self.server.driver.poll_timeout(),
        );
        earlier(self.network.next_arrival(), timers)
    }

    /// Lets time go on to the next moment at which something happens by itself, and does it. Answers false where
    /// nothing will.
    pub fn step(&mut self, shared: &mut Shared) -> Result<bool, Failure> {
        let Some(moment) = self.next_moment() else {
            return Ok(false);
        };
        shared.digest.number(moment);
        self.now = self.now.max(moment);
        if let Some(datagram) = self.network.arrived(self.now) {
            self.hand_in(datagram.to, datagram.bytes.as_slice(), shared)?;
            return Ok(true);
        }
        self.meet_timers(Side::Client, shared)?;
        self.meet_timers(Side::Server, shared)?;
        Ok(true)
    }

    fn hand_in(&mut self, to: Side, bytes: &[u8], shared: &mut Shared) -> Result<(), Failure> {
        let now = self.now;
        let answer = self.end(to).driver.handle_datagram(now, bytes)?;
        shared.digest.came(answer);
        self.serve(to, shared)
    }

    fn meet_timers(&mut self, side: Side, shared: &mut Shared) -> Result<(), Failure> {
        let now = self.now;
        if !self.end(side).is_due(now) {
            return Ok(());
        }
        self.end(side).driver.handle_timeout(now)?;
        self.serve(side, shared)
    }

    /// Lets time go on by so many ns, and does what happens by then.
    pub fn go_on(&mut self, duration: u64, shared: &mut Shared) -> Result<(), Failure> {
        let end = self.now.saturating_add(duration);
        for _ in 0..u64::MAX {
            match self.next_moment() {
                Some(moment) if moment <= end => {}
                _ => break,
            }
            self.step(shared)?;
        }
        self.now = self.now.max(end);
        Ok(())
    }
}

fn serve_end(
    end: &mut End,
    now: u64,
    to: Side,
    network: &mut Network,
    shared: &mut Shared,
) -> Result<(), Failure> {
    let Shared {
        digest,
        message,
        datagram,
        ..
    } = shared;
    end.take_events(digest, message.as_mut_slice())?;
    end.give_datagrams(now, to, network, digest, datagram.as_mut_slice())?;
    end.take_events(digest, message.as_mut_slice())
}

// The earlier one of two moments, one of which may be none.
fn earlier(a: Option<u64>, b: Option<u64>) -> Option<u64> {
    match (a, b) {
        (Some(a), Some(b)) => Some(a.min(b)),
        (Some(a), None) => Some(a),
        (None, b) => b,
    }
}
