// DATA that comes to a stream, which is made where it is missing.
ghost use Rattle.std.specs.Prelude.{◌≡◌, true, IfOk, OnOk, OnErr, fold};
ghost use Rattle.sctp_resets.specs.Channels.{channels, opened, makes_stream, delivered, final_told};
ghost use Rattle.sctp_resets.specs.Channels.{is_write_half_closed};
ghost use Rattle.sctp_streams.specs.Streams.{without_stream};

use sctp_streams::{Event, Events, Streams};
use sctp_wire_types::{ChunkPayloadData, Error, PayloadProtocolIdentifier, StreamEvent, StreamId};
use std::alloc::{AllocError, Global};
use std::collections::VecDeque;

/// Makes a stream where it is not live, for the application to accept; false where no generation is left for it.
/// `first_message_id` is the identifier that the next message gets.
#[tactic(auto, unfolding(crate::specs::Channels::opened))]
pub fn find_or_make(
    streams: &mut Streams,
    events: &mut Events,
    to_accept: &mut VecDeque<StreamId>,
    alloc: Global,
    id: StreamId,
    first_message_id: u64,
) -> Result<bool, AllocError>
    ensures exact { IfOk result (λ found.
        opened first_message_id (channels streams.old events.old to_accept.old.items) id
        ≡ (channels streams.new events.new to_accept.new.items, found)) }
    ensures grows { OnErr result (makes_stream streams.old id ≡ true) }
{
    if streams.contains(id) {
        return Ok(true);
    }
    let payload_type = PayloadProtocolIdentifier::Unknown;
    match streams.make(alloc, id, first_message_id, payload_type) {
        Ok(()) => {}
        Err(Error::ErrStreamCreateFailed) => return Ok(false),
        Err(_) => return Err(AllocError),
    }
    to_accept.push_back(id)?;
    events.push(Event::Stream(StreamEvent::Opened { id }))?;
    Ok(true)
}

// Hands DATA that was kept apart to its stream. What the stream refuses is dropped: a boundary that came later can have
// cut a message in two.
#[tactic(auto, unfolding(crate::specs::Channels::delivered))]
pub(crate) fn deliver(
    streams: &mut Streams,
    events: &mut Events,
    to_accept: &mut VecDeque<StreamId>,
    alloc: Global,
    first_message_id: u64,
    limit: u32,
    piece: ChunkPayloadData,
) -> Result<(), AllocError>
    ensures { OnOk result (channels streams.new events.new to_accept.new.items
        ≡ delivered first_message_id limit (channels streams.old events.old to_accept.old.items) piece) }
{
    let id = piece.stream_identifier;
    if !find_or_make(streams, events, to_accept, alloc, id, first_message_id)? {
        return Ok(());
    }
    let kept = match streams.push(id, piece, limit) {
        Ok(kept) => kept,
        Err(Error::ErrNoMemory) => return Err(AllocError),
        Err(_) => return Ok(()),
    };
    events.push(Event::DatagramReceived)?;
    if kept && streams.is_readable(id) {
        events.push(Event::Stream(StreamEvent::Readable { id }))?;
    }
    Ok(())
}

// Hands over DATA in this order.
pub(crate) fn deliver_each(
    streams: &mut Streams,
    events: &mut Events,
    to_accept: &mut VecDeque<StreamId>,
    alloc: Global,
    first_message_id: u64,
    limit: u32,
    pieces: VecDeque<ChunkPayloadData>,
) -> Result<(), AllocError>
    ensures { OnOk result (channels streams.new events.new to_accept.new.items
        ≡ fold (delivered first_message_id limit) (channels streams.old events.old to_accept.old.items)
        pieces.items) }
{
    for piece in pieces {
        deliver(
            streams,
            events,
            to_accept,
            alloc,
            first_message_id,
            limit,
            piece,
        )?;
    }
    Ok(())
}

// Ends a stream, where it is live, and tells its last counters.
pub(crate) fn end_stream(
    streams: &mut Streams,
    events: &mut Events,
    id: StreamId,
) -> Result<(), AllocError>
    ensures left { OnOk result (streams.new ≡ without_stream streams.old id) }
    ensures told { OnOk result (events.new ≡ final_told streams.old id events.old) }
{
    if let Some(stats) = streams.end(id) {
        events.push(Event::DataChannelStatsFinal(stats))?;
    }
    Ok(())
}

// Whether a stream is live and its write half is closed.
pub(crate) fn is_write_half_closed(streams: &Streams, id: StreamId) -> bool
    ensures { result ≡ is_write_half_closed streams.now id }
{
    match streams.get(id) {
        Some(stream) => !stream.is_write_half_open(),
        None => false,
    }
}
