// The chunks of the handshake, and what is read out of them.
ghost use Rattle.std.specs.Prelude.{◌≡◌, IfOk};
ghost use Rattle.sctp_inbound.specs.Greeting.{cookie_in, first_cookie, heartbeat_ack_of, information_of, init_ack_of};
ghost use Rattle.sctp_inbound.specs.Greeting.{init_of};

use crate::{Handshake, Offer};
use bytes::Bytes;
use sctp_wire_types::{ChunkHeartbeat, ChunkInit, List, Param};
use std::alloc::{AllocError, Global};

/// The extensions that an INIT or INIT ACK lists, and that a token is to list: RE-CONFIG (RFC 6525) and FORWARD TSN
/// (RFC 3758), by their chunk types.
pub static SUPPORTED_EXTENSIONS: [u8; 2] = [130, 192];

impl Handshake {
    /// The INIT with this offer (RFC 4960 section 3.3.2).
    pub fn init(&self, alloc: Global, offer: Offer) -> Result<ChunkInit, AllocError>
        ensures { IfOk result (λ init. init ≡ init_of self.now offer) }
    {
        let mut params = List::new(alloc);
        params.push(Param::SupportedExtensions(Bytes::from_static(&SUPPORTED_EXTENSIONS)))?;
        Ok(ChunkInit {
            initiate_tag: self.my_verification_tag,
            advertised_receiver_window_credit: offer.window,
            num_outbound_streams: offer.num_outbound_streams,
            num_inbound_streams: offer.num_inbound_streams,
            initial_tsn: self.my_initial_tsn,
            params,
        })
    }

    /// The INIT ACK, with this side's cookie (RFC 4960 section 3.3.3). `window` is the receive window, in bytes.
    pub fn init_ack(&self, alloc: Global, window: u32) -> Result<ChunkInit, AllocError>
        ensures { IfOk result (λ init. init ≡ init_ack_of self.now window) }
    {
        let mut params = List::new(alloc);
        params.push(Param::StateCookie(self.cookie.clone()?))?;
        params.push(Param::SupportedExtensions(Bytes::from_static(&SUPPORTED_EXTENSIONS)))?;
        Ok(ChunkInit {
            initiate_tag: self.my_verification_tag,
            advertised_receiver_window_credit: window,
            num_outbound_streams: self.num_outbound_streams,
            num_inbound_streams: self.num_inbound_streams,
            initial_tsn: self.my_initial_tsn,
            params,
        })
    }
}

/// The cookie that an INIT ACK gives: that of its first State Cookie (RFC 4960 section 3.3.3).
pub fn state_cookie(init_ack: ChunkInit) -> Option<Bytes>
    ensures { result ≡ first_cookie init_ack.params }
{
    for param in init_ack.params.into_vec() {
        if let Some(cookie) = cookie(param) {
            return Some(cookie);
        }
    }
    None
}

fn cookie(param: Param) -> Option<Bytes>
    ensures { result ≡ cookie_in param }
{
    match param {
        Param::StateCookie(cookie) => Some(cookie),
        _ => None,
    }
}

/// The information of a HEARTBEAT, where that is its first parameter (RFC 4960 section 3.3.5).
pub fn heartbeat_information(heartbeat: ChunkHeartbeat) -> Option<Bytes>
    ensures { result ≡ information_of heartbeat.params }
{
    match heartbeat.params.into_vec().into_iter().next() {
        Some(Param::HeartbeatInfo(information)) => Some(information),
        _ => None,
    }
}

/// A HEARTBEAT ACK with this information (RFC 4960 section 3.3.6).
pub fn heartbeat_ack(alloc: Global, information: Bytes) -> Result<ChunkHeartbeat, AllocError>
    ensures { IfOk result (λ answer. answer ≡ heartbeat_ack_of information) }
{
    let mut params = List::new(alloc);
    params.push(Param::HeartbeatInfo(information))?;
    Ok(ChunkHeartbeat { params })
}
