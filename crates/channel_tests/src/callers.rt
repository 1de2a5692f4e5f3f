// Runs of the callers that make the pair, by tokens or by a handshake: a side opens a channel and sends, and both
// messages come to the other one in one packet.
use crate::lines::{lines_of, steps_of};
use channel_callers::{run_channel, run_channel_client_server};
use sctp_assoc::{Error, Instant, ServerConfig, TransportConfig, token};
use std::alloc::Global;
use std::net::{IpAddr, Ipv4Addr, SocketAddr};
use std::test::Fail;

fn address(host: u8) -> SocketAddr {
    SocketAddr::new(IpAddr::V4(Ipv4Addr::new(192, 0, 2, host)), 5000)
}

fn joined_by_tokens(alloc: Global) -> Result<String, Error> {
    let config = TransportConfig::default();
    let token_a = token(alloc, &config, 1, 100)?;
    let token_b = token(alloc, &config, 2, 500)?;
    let steps = steps_of(
        alloc,
        "A opens chat\nA sends one\nsend A 0\ndeliver B 0 0\nB accepts\nB receives\n",
    )?;
    let mut replies = run_channel(
        alloc,
        &config,
        1200,
        &token_a,
        &token_b,
        address(2),
        address(1),
        1,
        steps.as_slice(),
    )?;
    Ok(lines_of(alloc, replies.as_mut_slice())?)
}

#[test]
fn tokens_join_sides_with_a_channel(rt: HostRuntime) -> Result<(), Fail> {
    assert_eq!(rt;
        joined_by_tokens(rt.alloc())?.as_str(),
        "opened\nsent 3\npackets 0 1\nok\naccepted\nmessage 53 6f6e65\n"
    );
    Ok(())
}

/// INIT, INIT ACK, COOKIE ECHO and COOKIE ACK; then B opens the channel.
static HANDSHAKE: &str = "\
    send A 0\ndeliver B 0 0\nsend B 0\ndeliver A 0 0\nsend A 0\ndeliver B 1 0\nsend B 0\ndeliver A 1 0\n\
    B opens chat\nB sends two\nsend B 0\ndeliver A 2 0\nA accepts\nA receives\n";

fn joined_by_handshake(alloc: Global) -> Result<String, Error> {
    let steps = steps_of(alloc, HANDSHAKE)?;
    let mut replies = run_channel_client_server(
        alloc,
        &TransportConfig::default(),
        &ServerConfig::default(),
        1200,
        (1, 2),
        (100, 500),
        ([67; 32], [68; 32]),
        (address(2), address(1)),
        Instant::from_millis(0),
        1,
        steps.as_slice(),
    )?;
    Ok(lines_of(alloc, replies.as_mut_slice())?)
}

static REPLIES: &str = "\
    packets 0 1\nok\npackets 0 1\nok\npackets 1 1\nok\npackets 1 1\nok\n\
    opened\nsent 3\npackets 2 1\nok\naccepted\nmessage 53 74776f\n";

#[test]
fn a_handshake_joins_sides_with_a_channel(rt: HostRuntime) -> Result<(), Fail> {
    assert_eq!(rt; joined_by_handshake(rt.alloc())?.as_str(), REPLIES);
    Ok(())
}
