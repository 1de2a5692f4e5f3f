// Replies as lines.
use sctp_assoc::{AssociationError, Chunks, Event, StreamEvent};
use sctp_pair::Reply;
use std::alloc::{AllocError, Global};

/// A reply without its newline. The bytes of a message are taken out of it.
pub fn show(alloc: Global, reply: &mut Reply) -> Result<String, AllocError> {
    match reply {
        Reply::Read(Some(message)) => show_message(alloc, message),
        Reply::StreamIds(ids) => show_ids(alloc, ids.as_slice()),
        Reply::Event(Some(event)) => show_event(alloc, *event),
        other => show_word(alloc, other),
    }
}

fn show_word(alloc: Global, reply: &Reply) -> Result<String, AllocError> {
    match reply {
        Reply::Done => "ok".to_string(alloc),
        Reply::State(answer) => flag(*answer).to_string(alloc),
        Reply::EndpointEvent(Some(_)) => "drained".to_string(alloc),
        Reply::NoSuchPacket => "no such packet".to_string(alloc),
        other => show_number(alloc, other),
    }
}

fn show_number(alloc: Global, reply: &Reply) -> Result<String, AllocError> {
    match reply {
        Reply::Wrote(count) => format!(in alloc; "wrote {count}"),
        Reply::BufferedAmount(amount) => format!(in alloc; "{amount}"),
        Reply::Accepted(Some(id)) => format!(in alloc; "stream {id}"),
        Reply::Sent { first, count } => format!(in alloc; "packets {first} {count}"),
        Reply::Refused(number) => show_refusal(alloc, *number),
        other => show_time(alloc, other),
    }
}

/// A refusal of this number.
pub(crate) fn show_refusal(alloc: Global, number: u8) -> Result<String, AllocError> {
    format!(in alloc; "refused {number}")
}

fn show_time(alloc: Global, reply: &Reply) -> Result<String, AllocError> {
    match reply {
        Reply::Timeout(Some(moment)) => {
            let millis = moment.as_nanos() / 1_000_000;
            format!(in alloc; "at {millis}")
        }
        Reply::Rtt(timeout) => {
            let millis = timeout.as_millis();
            format!(in alloc; "{millis}")
        }
        _ => "none".to_string(alloc),
    }
}

fn show_ids(alloc: Global, ids: &[u16]) -> Result<String, AllocError> {
    let mut text = "ids".to_string(alloc)?;
    for id in ids {
        text.push_str(format!(in alloc; " {id}")?.as_str())?;
    }
    Ok(text)
}

/// The answer of a question about the state.
pub(crate) fn flag(answer: bool) -> &'static str {
    if answer { "1" } else { "0" }
}

fn show_message(alloc: Global, message: &mut Chunks) -> Result<String, AllocError> {
    let number = message.payload_type().number();
    let mut text = format!(in alloc; "message {number} ")?;
    if message.is_empty() {
        text.push_str("-")?;
    }
    for _ in 0..message.len() {
        match message.next(usize::MAX) {
            Ok(Some(cut)) => text.push_str(hex::encode(alloc, cut.as_slice())?.as_str())?,
            Ok(None) => break,
            Err(_) => return Err(AllocError),
        }
    }
    Ok(text)
}

fn show_event(alloc: Global, event: Event) -> Result<String, AllocError> {
    match event {
        Event::Connected => "connected".to_string(alloc),
        Event::HandshakeFailed { .. } => "handshake-failed".to_string(alloc),
        Event::AssociationLost { reason } => show_loss(alloc, reason),
        Event::Stream(event) => show_stream_event(alloc, event),
        Event::DataChannelStatsFinal(stats) => {
            let generation = stats.generation;
            format!(in alloc; "final {generation}")
        }
        Event::DatagramReceived => "datagram".to_string(alloc),
    }
}

fn show_loss(alloc: Global, reason: AssociationError) -> Result<String, AllocError> {
    match reason {
        AssociationError::AssociationClosed => "lost closed".to_string(alloc),
        AssociationError::ReceiveBufferExhausted => "lost exhausted".to_string(alloc),
        _ => "lost other".to_string(alloc),
    }
}

fn show_stream_event(alloc: Global, event: StreamEvent) -> Result<String, AllocError> {
    let (name, id) = match event {
        StreamEvent::Opened { id } => ("opened", id),
        StreamEvent::Readable { id } => ("readable", id),
        StreamEvent::Writable { id } => ("writable", id),
        StreamEvent::Finished { id } => ("finished", id),
        StreamEvent::ResetComplete { id } => ("reset-complete", id),
        StreamEvent::ResetFailed { id, .. } => ("reset-failed", id),
        StreamEvent::Stopped { id, .. } => ("stopped", id),
        StreamEvent::BufferedAmountLow { id } => ("low", id),
        StreamEvent::BufferedAmountHigh { id } => ("high", id),
        StreamEvent::Available => return "available".to_string(alloc),
    };
    format!(in alloc; "{name} {id}")
}
