// What goes between an association and the network.
use crate::PartialDecode;
use bytes::Bytes;
use sctp_wire_types::{EcnCodepoint, Instant};
use std::net::{IpAddr, SocketAddr};

/// A datagram that came, or the datagrams that are to be sent. A driver makes the one for
/// `AssociationEvent::datagram`, and gets the other from `Association::poll_transmit`. An association looks at the
/// moment and the payload alone.
#[derive(Debug, Drop)]
pub struct Transmit {
    /// When the datagram came, or the moment of the poll that gives the datagrams.
    pub now: Instant,
    /// Where it came from or goes to.
    pub remote: SocketAddr,
    /// What is in it.
    pub payload: Payload,
    /// The congestion mark of the IP header, where there is one; None of what is to be sent.
    pub ecn: Option<EcnCodepoint>,
    /// The own address, where it is known.
    pub local_ip: Option<IpAddr>,
}

/// What is in a datagram that came, or in the datagrams to be sent.
#[derive(Debug, Drop)]
pub enum Payload {
    /// A datagram that came, with its header read.
    PartialDecode(PartialDecode),
    /// The bytes of the datagrams to be sent, one entry each, in the order in which they are to go out.
    RawEncode(Vec<Bytes>),
}
