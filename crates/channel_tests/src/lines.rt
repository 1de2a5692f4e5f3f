// Steps of a pair with a channel as lines, and its replies.
use assoc_session::{Line, parse, show};
use bytes::Bytes;
use channel_pair::{ChannelReply, ChannelStep};
use sctp_pair::{Reply, Side2, Step};
use std::alloc::{AllocError, Global};

/// The steps of these lines: a side and what it does with the channel, or a step of the pair.
pub(crate) fn steps_of(alloc: Global, text: &str) -> Result<Vec<ChannelStep>, AllocError> {
    let mut steps = Vec::new(alloc);
    for line in text.lines() {
        if let Some(step) = step_of(alloc, line)? {
            steps.push(step)?;
        }
    }
    Ok(steps)
}

fn step_of(alloc: Global, line: &str) -> Result<Option<ChannelStep>, AllocError> {
    let fields: Vec<&str> = line.split(' ').collect(alloc)?;
    match fields.as_slice() {
        ["A", call @ ..] => call_of(alloc, Side2::A, call),
        ["B", call @ ..] => call_of(alloc, Side2::B, call),
        _ => match pair_step(alloc, line)? {
            Some(step) => Ok(Some(ChannelStep::OfPair(step))),
            None => Ok(None),
        },
    }
}

fn call_of(alloc: Global, side: Side2, call: &[&str]) -> Result<Option<ChannelStep>, AllocError> {
    match call {
        ["opens", label] => Ok(Some(ChannelStep::Open {
            side,
            priority: 0,
            label: Bytes::copy_from_slice(alloc, label.as_bytes())?,
            protocol: Bytes::new(),
        })),
        ["accepts"] => Ok(Some(ChannelStep::Accept { side })),
        ["acknowledges"] => Ok(Some(ChannelStep::Acknowledge { side })),
        ["sends", message] => Ok(Some(ChannelStep::Send {
            side,
            bytes: Bytes::copy_from_slice(alloc, message.as_bytes())?,
        })),
        ["receives"] => Ok(Some(ChannelStep::Receive { side })),
        _ => Ok(None),
    }
}

/// The step of the pair that a line asks for.
pub(crate) fn pair_step(alloc: Global, line: &str) -> Result<Option<Step>, AllocError> {
    match parse(alloc, line.as_bytes())? {
        Some(Line::Step(step)) => Ok(Some(step)),
        _ => Ok(None),
    }
}

/// The replies, a line each.
pub(crate) fn lines_of(alloc: Global, replies: &mut [ChannelReply]) -> Result<String, AllocError> {
    let mut text = String::new(alloc);
    for reply in replies.iter_mut() {
        text.push_str(line_of(alloc, reply)?.as_str())?;
        text.push_str("\n")?;
    }
    Ok(text)
}

fn line_of(alloc: Global, reply: &mut ChannelReply) -> Result<String, AllocError> {
    match reply {
        ChannelReply::Opened => "opened".to_string(alloc),
        ChannelReply::Accepted(true) => "accepted".to_string(alloc),
        ChannelReply::Accepted(false) => "none".to_string(alloc),
        ChannelReply::Acknowledged => "acknowledged".to_string(alloc),
        ChannelReply::Sent(count) => format!(in alloc; "sent {count}"),
        ChannelReply::Received(message) => show(alloc, &mut Reply::Read(message.take())),
        ChannelReply::Refused(error) => show(alloc, &mut Reply::Refused(error.number())),
        ChannelReply::NotHere => "not here".to_string(alloc),
        ChannelReply::OfPair(reply) => show(alloc, reply),
    }
}
