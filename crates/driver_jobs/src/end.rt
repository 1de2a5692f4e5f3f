// One side of a link.
use crate::digest::Digest;
use crate::failure::Failure;
use crate::network::{Network, Side};
use sctp_driver::{Driver, Error, Event, PollAnswer, ReadAnswer, StreamEvent};

/// What a side told so far.
#[derive(Clone, Copy, Debug)]
pub struct Told {
    /// It is connected.
    pub is_connected: bool,
    /// It is over.
    pub is_lost: bool,
    /// How many messages were read.
    pub messages: u64,
    /// How many resets of its own ended in success.
    pub resets: u64,
}

/// A side: its driver, and what it told.
#[derive(Drop)]
pub struct End {
    pub driver: Driver,
    pub told: Told,
}

impl End {
    /// A side that told nothing yet.
    pub fn new(driver: Driver) -> End {
        End {
            driver,
            told: Told {
                is_connected: false,
                is_lost: false,
                messages: 0,
                resets: 0,
            },
        }
    }

    /// Takes out all events that wait, and reads what they say can be read.
    pub fn take_events(&mut self, digest: &mut Digest, buffer: &mut [u8]) -> Result<(), Failure> {
        for _ in 0..u64::MAX {
            let Some(event) = self.driver.poll_event()? else {
                break;
            };
            digest.event(&event);
            self.note(&event);
            if let Event::Stream(StreamEvent::Readable { id }) = event {
                self.read_each(id, digest, buffer)?;
            }
        }
        Ok(())
    }

    fn note(&mut self, event: &Event) {
        match event {
            Event::Connected => self.told.is_connected = true,
            Event::AssociationLost { .. } => self.told.is_lost = true,
            Event::HandshakeFailed { .. } => self.told.is_lost = true,
            Event::Stream(StreamEvent::ResetComplete { .. }) => {
                self.told.resets = self.told.resets.saturating_add(1);
            }
            _ => {}
        }
    }

    // Reads a stream until it has nothing more, or is gone.
    fn read_each(
        &mut self,
        id: u16,
        digest: &mut Digest,
        buffer: &mut [u8],
    ) -> Result<(), Failure> {
        for _ in 0..u64::MAX {
            let answer = match self.driver.read(id, buffer) {
                Ok(answer) => answer,
                Err(Error::ErrStreamNotExisted) | Err(Error::ErrStreamClosed) => break,
                Err(error) => return Err(error.into()),
            };
            digest.read(id, &answer, buffer);
            if !matches!(answer, ReadAnswer::Message { .. }) {
                break;
            }
            self.told.messages = self.told.messages.saturating_add(1);
        }
        Ok(())
    }

    /// Sends all datagrams that are due to the other side.
    pub fn give_datagrams(
        &mut self,
        now: u64,
        to: Side,
        network: &mut Network,
        digest: &mut Digest,
        buffer: &mut [u8],
    ) -> Result<(), Failure> {
        for _ in 0..u64::MAX {
            let PollAnswer::Datagram { length } = self.driver.poll_transmit(now, buffer)? else {
                break;
            };
            let bytes = &buffer[..length.min(buffer.len())];
            digest.datagram(bytes);
            network.send(now, to, bytes)?;
        }
        Ok(())
    }

    /// Whether a timer expired by now.
    pub fn is_due(&self, now: u64) -> bool {
        match self.driver.poll_timeout() {
            Some(moment) => moment <= now,
            None => false,
        }
    }
}
