// The setting in which every session runs.
use crate::line::{Beginning, JoinedBy};
use sctp_assoc::{Error, Instant, ServerConfig, TransportConfig, token};
use sctp_pair::Pair;
use std::alloc::Global;
use std::net::{IpAddr, Ipv4Addr, SocketAddr};

/// Initiate tags of the two sides.
const TAG_A: u32 = 1;

const TAG_B: u32 = 2;

/// The State Cookie of either side.
const COOKIE: [u8; 32] = [67; 32];

/// Two associations, each with the default configuration but for its profile; a client's INIT is due at the moment 0.
pub fn begun(alloc: Global, beginning: Beginning) -> Result<Pair, Error> {
    let config = TransportConfig::default().with_profile(Some(beginning.profile));
    match beginning.by {
        JoinedBy::Tokens => snapped_under(
            alloc,
            &config,
            beginning.max_payload_size,
            beginning.tsn_a,
            beginning.tsn_b,
        ),
        JoinedBy::Handshake => client_server(alloc, &config, beginning),
    }
}

fn client_server(
    alloc: Global,
    config: &TransportConfig,
    beginning: Beginning,
) -> Result<Pair, Error> {
    Pair::client_server(
        alloc,
        config,
        &ServerConfig::default(),
        config,
        beginning.max_payload_size,
        beginning.max_payload_size,
        TAG_A,
        TAG_B,
        beginning.tsn_a,
        beginning.tsn_b,
        COOKIE,
        COOKIE,
        address(2),
        address(1),
        Instant::from_millis(0),
    )
}

/// Two associations that tokens join, both with this configuration.
pub fn snapped_under(
    alloc: Global,
    config: &TransportConfig,
    max_payload_size: u32,
    tsn_a: u32,
    tsn_b: u32,
) -> Result<Pair, Error> {
    let token_a = token(alloc, config, TAG_A, tsn_a)?;
    let token_b = token(alloc, config, TAG_B, tsn_b)?;
    Pair::snap(
        alloc,
        config,
        config,
        max_payload_size,
        max_payload_size,
        &token_a,
        &token_b,
        address(2),
        address(1),
    )
}

/// An address of the documentation range, at port 5000.
fn address(host: u8) -> SocketAddr {
    SocketAddr::new(IpAddr::V4(Ipv4Addr::new(192, 0, 2, host)), 5000)
}
