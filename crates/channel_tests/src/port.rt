// A stream of an association as the port of a channel: what its calls are answered over two associations that tokens
// joined, of which each gets what the other one sends.
use bytes::Bytes;
use dcep_channel::{AssocPort, Channel, ChannelError};
use sctp_assoc::{
    Association, AssociationEvent, Error, Instant, PartialDecode, Payload,
    PayloadProtocolIdentifier, Transmit, TransportConfig, token,
};
use std::alloc::{AllocGlobal, Global};
use std::net::{IpAddr, Ipv4Addr, SocketAddr};
use std::process::Abort;
use std::test::Fail;

fn address() -> SocketAddr {
    SocketAddr::new(IpAddr::V4(Ipv4Addr::new(192, 0, 2, 2)), 5000)
}

// A side with its own tag and first TSN, joined to the one with the other tag and first TSN.
fn joined(alloc: Global, own: (u32, u32), other: (u32, u32)) -> Result<Association, Error> {
    let config = TransportConfig::default();
    let local = token(alloc, &config, own.0, own.1)?;
    let remote = token(alloc, &config, other.0, other.1)?;
    Association::new_with_out_of_band_init(alloc, &config, 1200, address(), None, &local, &remote)
}

fn hand_over(association: &mut Association, datagram: &Bytes) -> Result<(), Error> {
    association.handle_event(AssociationEvent::datagram(Transmit {
        now: Instant::from_millis(0),
        remote: address(),
        payload: Payload::PartialDecode(PartialDecode::unmarshal(datagram)?),
        ecn: None,
        local_ip: None,
    }))
}

// What one side is due to send comes to the other one.
fn pass(from: &mut Association, to: &mut Association) -> Result<(), Error> {
    let Some(sent) = from.poll_transmit(Instant::from_millis(0))? else {
        return Ok(());
    };
    if let Payload::RawEncode(packets) = &sent.payload {
        for packet in packets {
            hand_over(to, packet)?;
        }
    }
    Ok(())
}

// The number of a refusal; 0 where there is none.
fn number<T: Drop>(answer: Result<T, ChannelError>) -> u8 {
    match answer {
        Ok(_) => 0,
        Err(error) => error.number(),
    }
}

fn open(alloc: Global, side: &mut Association, label: &[u8]) -> Result<Channel, ChannelError> {
    Channel::open(alloc, &mut AssocPort::new(side, 1), 7, label, b"raw")
}

fn accept(alloc: Global, side: &mut Association) -> Result<Option<Channel>, ChannelError> {
    Channel::accept(alloc, &mut AssocPort::new(side, 1))
}

// A side opens the channel, where it can, and sends: the channel, and the numbers of the refusals. A label that is too
// long leaves the stream unopened.
fn opened(alloc: Global, side: &mut Association) -> Result<(Channel, [u8; 4]), ChannelError> {
    let long: Vec<u8> = vec![in alloc; 7; 65_536]?;
    let too_early = number(accept(alloc, side));
    let too_long = number(open(alloc, side, long.as_slice()));
    let channel = open(alloc, side, b"chat")?;
    let again = number(open(alloc, side, b"chat"));
    let mut port = AssocPort::new(side, 1);
    let empty = number(channel.send(&mut port, b""));
    channel.send(&mut port, b"one")?;
    Ok((channel, [too_early, too_long, again, empty]))
}

// A message of a payload type that has no name is written without the channel.
fn write_unknown(side: &mut Association) -> Result<usize, Error> {
    let mut stream = side.stream(1)?;
    stream.write_with_ppi(b"a", PayloadProtocolIdentifier::Unknown)
}

// The other side acknowledges the channel and receives twice.
fn served(channel: &mut Channel, side: &mut Association) -> Result<(usize, u8), ChannelError> {
    let mut port = AssocPort::new(side, 1);
    channel.acknowledge(&mut port)?;
    let length = match channel.receive(&mut port)? {
        Some(message) => message.len(),
        None => 0,
    };
    Ok((length, number(channel.receive(&mut port))))
}

/// The OPEN of A: priority 7, label `chat`, protocol `raw`.
static OPEN: &[u8] = b"\x03\x00\x00\x07\x00\x00\x00\x00\x00\x04\x00\x03chatraw";

// A opens and sends, B accepts, acknowledges and receives, and the ACK comes to A.
fn talk(
    rt: &(impl Abort + AllocGlobal),
    a: &mut Association,
    b: &mut Association,
) -> Result<(), Fail> {
    let (mut opener, refusals) = opened(rt.alloc(), a)?;
    assert_eq!(rt; refusals, [9, 30, 6, 23]);
    write_unknown(a)?;
    pass(a, b)?;
    let mut accepter = accept(rt.alloc(), b)?.expect(rt, "an OPEN");
    assert_eq!(rt; accepter.open_message().as_slice(), OPEN);
    assert_eq!(rt; served(&mut accepter, b)?, (3, 34));
    pass(b, a)?;
    assert!(rt; opener.receive(&mut AssocPort::new(a, 1))?.is_none());
    assert_eq!(rt;
        (opener.is_acknowledged(), accepter.is_failed()),
        (true, true)
    );
    Ok(())
}

#[test]
fn a_stream_of_an_association_is_a_port(rt: HostRuntime) -> Result<(), Fail> {
    let mut a = joined(rt.alloc(), (1, 100), (2, 500))?;
    let mut b = joined(rt.alloc(), (2, 500), (1, 100))?;
    talk(&rt, &mut a, &mut b)
}
