// The loop of a driver: timers, the datagram, events with the reads and writes that they lead to, datagrams, the next
// moment.
use crate::line::{Happening, parse};
use anyhow::Result;
use sctp_driver::{Driver, Error, Event, PollAnswer, ReadAnswer, StreamEvent, TransportConfig};
use std::alloc::Global;
use std::io::{BufRead, Write};

/// Greatest payload of one DATA chunk, in bytes: a packet with DATA then fits into 1,228 bytes.
const PAYLOAD_SIZE: u32 = 1200;

/// Room for any datagram and, as `TransportConfig::default()` has it, for any message, in bytes.
const ROOM: usize = 65_548;

/// This side's verification tag, its first TSN and its State Cookie: a real server draws them at random.
const TAG: u32 = 2;

const FIRST_TSN: u32 = 500;

const COOKIE: [u8; 32] = [67; 32];

/// One association, and room for what comes out of it.
#[derive(Drop)]
struct EchoServer {
    alloc: Global,
    driver: Driver,
    buffer: Vec<u8>,
}

/// Drives an association by the lines of the input, to their end.
pub fn serve<R: BufRead + Drop, W: Write>(alloc: Global, input: R, output: &mut W) -> Result<()> {
    let mut server = EchoServer::listening(alloc)?;
    for line in input.split(alloc, b'\n') {
        let happening = parse(alloc, line?.as_slice())?;
        server.go_on(&happening, output)?;
    }
    Ok(())
}

impl EchoServer {
    // A server that waits for an INIT.
    fn listening(alloc: Global) -> Result<EchoServer> {
        let buffer = vec![in alloc; 0; ROOM]?;
        let config = TransportConfig::default();
        let driver = Driver::server(alloc, &config, PAYLOAD_SIZE, TAG, FIRST_TSN, COOKIE, 0)?;
        Ok(EchoServer {
            alloc,
            driver,
            buffer,
        })
    }

    // One turn of the loop, in the order that serves every driver. A datagram that is no packet, or that is not for
    // this association by its verification tag, is left.
    fn go_on<W: Write>(&mut self, happening: &Happening, output: &mut W) -> Result<()> {
        let now = happening.now;
        if self.is_due(now) {
            self.driver.handle_timeout(now)?;
        }
        if let Some(datagram) = &happening.datagram {
            self.driver.handle_datagram(now, datagram.as_slice())?;
        }
        self.tell_events(now, output)?;
        self.give_datagrams(now, output)?;
        // Where a poll for datagrams gave messages up, or ended a shutdown, it left events, too.
        self.tell_events(now, output)?;
        if let Some(moment) = self.driver.poll_timeout() {
            writeln!(output, "{} wake", millis(moment))?;
        }
        Ok(())
    }

    // Whether a timer expired by now.
    fn is_due(&self, now: u64) -> bool {
        match self.driver.poll_timeout() {
            Some(moment) => moment <= now,
            None => false,
        }
    }

    // All events that wait; where a stream can be read its messages go back, and one that the peer opens is accepted,
    // so that it waits no more.
    fn tell_events<W: Write>(&mut self, now: u64, output: &mut W) -> Result<()> {
        for _ in 0..u64::MAX {
            let Some(event) = self.driver.poll_event()? else {
                break;
            };
            writeln!(output, "{} event {event:?}", millis(now))?;
            match event {
                Event::Stream(StreamEvent::Readable { id }) => self.echo(id)?,
                Event::Stream(StreamEvent::Opened { .. }) => {
                    let _accepted = self.driver.accept_stream();
                }
                _ => {}
            }
        }
        Ok(())
    }

    // A message that can't be written, since the association or the stream was closed meanwhile, is dropped.
    fn echo(&mut self, id: u16) -> Result<(), Error> {
        for _ in 0..u64::MAX {
            let buffer = self.buffer.as_mut_slice();
            let length = match self.driver.read(id, buffer) {
                Ok(ReadAnswer::Message { length, .. }) => length,
                Ok(_) | Err(Error::ErrStreamNotExisted) | Err(Error::ErrStreamClosed) => break,
                Err(error) => return Err(error),
            };
            let message = &buffer[..length.min(buffer.len())];
            match self.driver.write(id, None, message) {
                Ok(_) => {}
                Err(Error::ErrNoMemory) => return Err(Error::ErrNoMemory),
                Err(_) => break,
            }
        }
        Ok(())
    }

    // All datagrams that are due.
    fn give_datagrams<W: Write>(&mut self, now: u64, output: &mut W) -> Result<()> {
        for _ in 0..u64::MAX {
            let buffer = self.buffer.as_mut_slice();
            let PollAnswer::Datagram { length } = self.driver.poll_transmit(now, buffer)? else {
                break;
            };
            let text = hex::encode(self.alloc, &buffer[..length.min(buffer.len())])?;
            writeln!(output, "{} out {text}", millis(now))?;
        }
        Ok(())
    }
}

// Milliseconds, as the lines have them.
fn millis(moment: u64) -> u64 {
    moment / 1_000_000
}
