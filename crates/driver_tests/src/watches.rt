// A watch, why an association ended, and an observer. The datagrams in hex were spelled apart from this code.
ghost use Rattle.std.specs.Prelude.{ℕ, List};

use sctp_driver::{Driver, PayloadProtocolIdentifier, TransportConfig, token};
use sctp_watch::{
    Direction, End, Observer, Watch, handle_datagram_observed, poll_transmit_observed,
};
use std::alloc::Global;
use std::test::Fail;

/// INIT of a client with the tag 1, of 40 bytes.
static INIT: &str =
    "1388138800000000fe0697cd0100001a000000010002000004000400000000648008000682c00000";

/// ABORT under the tag 1, the client's, with the cause 12 and the reason "no".
static ABORT: &str = "1388138800000001e2207e700600000a000c00066e6f0000";

// Sums the bytes that went each way.
#[derive(Clone, Copy, Debug)]
struct Sums {
    sent: usize,
    received: usize,
}

impl Observer for Sums {
    ghost Notes = { λ direction now bytes before after. Unit {0} };

    fn datagram(&mut self, direction: Direction, _now: u64, bytes: &[u8]) {
        match direction {
            Direction::Sent => self.sent = self.sent.saturating_add(bytes.len()),
            Direction::Received => self.received = self.received.saturating_add(bytes.len()),
        }
    }
}

// Whether an observer of a server, and a watch, are told of an INIT and of the INIT ACK alone. A function that owns a
// driver has one way out, as each one proves how it is dropped.
fn is_observed(alloc: Global) -> Result<bool, Fail> {
    let config = TransportConfig::default();
    let mut driver = Driver::server(alloc, &config, 1200, 2, 500, [67; 32], 0)?;
    observe(alloc, &mut driver)
}

fn observe(alloc: Global, driver: &mut Driver) -> Result<bool, Fail> {
    let mut watch = Watch::new();
    let mut sums = Sums {
        sent: 0,
        received: 0,
    };
    let init = hex::decode(alloc, INIT)?;
    let mut buffer = Vec::from_elem(alloc, 0, 1228)?;
    for datagram in [b"no packet".as_slice(), init.as_slice()] {
        let _ = handle_datagram_observed(&mut watch, driver, &mut sums, 0, datagram)?;
        let _ = poll_transmit_observed(&mut watch, driver, &mut sums, 0, buffer.as_mut_slice())?;
    }
    // the INIT ACK has a State Cookie of 32 bytes more than the INIT, with its header of 4
    let traffic = watch.traffic();
    let counted = traffic.bytes_received == 40 && traffic.bytes_sent == 76;
    Ok(counted && sums.received == 40 && sums.sent == 76)
}

// What ends the association of a client that waits for its INIT ACK.
#[derive(Clone, Copy, Debug, PartialEq, Eq)]
enum Way {
    Closes,
    Aborts,
    IsAborted,
}

// Whether a watch keeps that end, and tells its event.
fn is_kept(alloc: Global, way: Way) -> Result<bool, Fail> {
    let config = TransportConfig::default();
    let mut driver = Driver::client(alloc, &config, 1200, 1, 100, [67; 32], 0)?;
    keep(alloc, &mut driver, way)
}

fn keep(alloc: Global, driver: &mut Driver, way: Way) -> Result<bool, Fail> {
    let mut watch = Watch::new();
    let abort = hex::decode(alloc, ABORT)?;
    match way {
        Way::Closes => watch.close(driver)?,
        Way::Aborts => watch.abort(driver, b"bye")?,
        Way::IsAborted => {
            let _ = watch.handle_datagram(driver, 0, abort.as_slice())?;
        }
    }
    let told = watch.poll_event(driver)?.is_some();
    Ok(told && is_end_of(&watch.end(), way))
}

fn is_end_of(end: &Option<End>, way: Way) -> bool {
    match end {
        Some(End::Closed) => way == Way::Closes,
        Some(End::Aborted) => way == Way::Aborts,
        Some(End::AbortCame(cause)) => {
            way == Way::IsAborted && cause.code == 12 && cause.reason() == b"no".as_slice()
        }
        _ => false,
    }
}

// Whether a watch keeps that nobody acknowledged DATA, which went out once.
fn is_silence_kept(alloc: Global) -> Result<bool, Fail> {
    let config = TransportConfig::default().with_max_data_retransmits(Some(0));
    let local = token(alloc, &config, 1, 100)?;
    let remote = token(alloc, &config, 2, 500)?;
    let mut driver = Driver::joined(alloc, &config, 1200, &local, &remote)?;
    wait_in_vain(alloc, &mut driver)
}

fn wait_in_vain(alloc: Global, driver: &mut Driver) -> Result<bool, Fail> {
    let mut watch = Watch::new();
    let mut buffer = Vec::from_elem(alloc, 0, 1228)?;
    driver.open_stream(1, PayloadProtocolIdentifier::Binary)?;
    let _ = driver.write(1, None, b"lost")?;
    let _ = watch.poll_transmit(driver, 0, buffer.as_mut_slice())?;
    let due = driver.poll_timeout().unwrap_or(0);
    watch.handle_timeout(driver, due)?;
    Ok(driver.is_drained() && matches!(watch.end(), Some(End::Silent)))
}

#[test]
fn an_observer_and_a_watch_are_told_of_what_passes(rt: HostRuntime) -> Result<(), Fail> {
    assert!(rt; is_observed(rt.alloc())?);
    Ok(())
}

#[test]
fn a_watch_keeps_why_an_association_ended(rt: HostRuntime) -> Result<(), Fail> {
    for way in [Way::Closes, Way::Aborts, Way::IsAborted] {
        assert!(rt; is_kept(rt.alloc(), way)?);
    }
    Ok(())
}

#[test]
fn a_watch_keeps_that_a_peer_is_silent(rt: HostRuntime) -> Result<(), Fail> {
    assert!(rt; is_silence_kept(rt.alloc())?);
    Ok(())
}
