// An association that goes through steps. One function owns it, as each way out of such a one proves how it is dropped.
use crate::rows::hex_of;
use bytes::Bytes;
use sctp_assoc::{
    Association, AssociationError, AssociationEvent, Error, Event, Instant, PartialDecode, Payload,
    PayloadProtocolIdentifier, ServerConfig, Transmit, TransportConfig, token,
};
use std::alloc::Global;
use std::net::{IpAddr, Ipv4Addr, SocketAddr};
use std::test::Fail;

// An address of the documentation range.
fn address() -> SocketAddr {
    SocketAddr::new(IpAddr::V4(Ipv4Addr::new(192, 0, 2, 2)), 5000)
}

// A server where there is a `server_config`, else a client.
fn created(alloc: Global, server_config: Option<&ServerConfig>) -> Result<Association, Error> {
    let config = TransportConfig::default();
    let start = Instant::from_millis(0);
    Association::new(
        alloc,
        server_config,
        &config,
        1200,
        2,
        100,
        [67; 32],
        address(),
        None,
        start,
    )
}

fn joined(alloc: Global) -> Result<Association, Error> {
    let config = TransportConfig::default();
    let local = token(alloc, &config, 2, 100)?;
    let remote = token(alloc, &config, 1, 500)?;
    Association::new_with_out_of_band_init(alloc, &config, 1200, address(), None, &local, &remote)
}

// An association under the tag 2 and with the first TSN 100.
fn begun(alloc: Global, kind: &str) -> Result<Association, Error> {
    let server_config = ServerConfig::default();
    match kind {
        "joined" => joined(alloc),
        "client" => created(alloc, None),
        _ => created(alloc, Some(&server_config)),
    }
}

/// What an association of this kind shows behind these steps.
pub(crate) fn shown(alloc: Global, kind: &str, steps: &str) -> Result<String, Fail> {
    match begun(alloc, kind) {
        Ok(mut association) => shown_behind(alloc, &mut association, steps),
        Err(error) => Err(Fail::from(error)),
    }
}

fn shown_behind(alloc: Global, association: &mut Association, steps: &str) -> Result<String, Fail> {
    let mut text = String::new(alloc);
    for step in steps.split_whitespace() {
        take(alloc, association, step, &mut text)?;
    }
    push_events(association, &mut text)?;
    push_answers(alloc, association, &mut text)?;
    Ok(text)
}

// The application calls or asks, its moment comes, or a datagram does.
fn take(
    alloc: Global,
    association: &mut Association,
    step: &str,
    text: &mut String,
) -> Result<(), Fail> {
    match step {
        "state" => return push_state(alloc, association, text),
        "late" => return Ok(association.handle_timeout(Instant::from_millis(3000))?),
        "write" => write(association)?,
        "shutdown" => association.shutdown()?,
        name => come(alloc, association, name)?,
    }
    if is_sent(association)? {
        text.push_str("sends ")?;
    }
    push_events(association, text)
}

// A message on stream 7.
fn write(association: &mut Association) -> Result<(), Error> {
    let mut stream = association.open_stream(7, PayloadProtocolIdentifier::Binary)?;
    let _ = stream.write(b"abc")?;
    Ok(())
}

// The datagram of this name comes.
fn come(alloc: Global, association: &mut Association, name: &str) -> Result<(), Fail> {
    let datagram = Bytes::from_vec(hex::decode(alloc, hex_of(name)?)?)?;
    Ok(hand_over(association, &datagram)?)
}

fn hand_over(association: &mut Association, datagram: &Bytes) -> Result<(), Error> {
    let packet = PartialDecode::unmarshal(datagram)?;
    association.handle_event(AssociationEvent::datagram(Transmit {
        now: Instant::from_millis(0),
        remote: address(),
        payload: Payload::PartialDecode(packet),
        ecn: None,
        local_ip: None,
    }))
}

// Whether packets were due.
fn is_sent(association: &mut Association) -> Result<bool, Error> {
    match association.poll_transmit(Instant::from_millis(0)) {
        Ok(sent) => Ok(sent.is_some()),
        Err(error) => Err(error),
    }
}

fn push_events(association: &mut Association, text: &mut String) -> Result<(), Fail> {
    for _ in 0..100_u8 {
        match association.poll()? {
            Some(event) => text.push_str(name_of(&event))?,
            None => break,
        }
    }
    Ok(())
}

fn name_of(event: &Event) -> &'static str {
    match event {
        Event::Connected => "connected ",
        Event::AssociationLost {
            reason: AssociationError::AssociationClosed,
        } => "lost ",
        Event::DataChannelStatsFinal(_) => "ended ",
        _ => "told ",
    }
}

fn push_state(alloc: Global, association: &Association, text: &mut String) -> Result<(), Fail> {
    let state = association.state();
    Ok(text.push_str(format!(in alloc; "{state} ")?.as_str())?)
}

fn push_answers(alloc: Global, association: &Association, text: &mut String) -> Result<(), Fail> {
    if association.poll_timeout().is_some() {
        text.push_str("timer ")?;
    }
    push_state(alloc, association, text)?;
    let tsn = association.peer_last_tsn();
    let (inbound, outbound) = association.stream_counts();
    text.push_str(format!(in alloc; "{tsn} {inbound} {outbound}")?.as_str())?;
    if association.uses_forward_tsn() {
        text.push_str(" forwards")?;
    }
    if association.is_marked(100) {
        text.push_str(" marked")?;
    }
    Ok(())
}
