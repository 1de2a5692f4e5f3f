// A generation that ended is over once all of it was read, and the one behind it is read (RFC 6525 section 5.2.2).
ghost use Rattle.std.specs.Prelude.{◌≡◌, IfOk, OnErr, OnOk, true};
ghost use Rattle.sctp_generations.specs.Generations.{retires};
ghost use Rattle.sctp_resets.specs.Channels.{channels};
ghost use Rattle.sctp_resets.specs.Draining.{drained_out, next_generation_read, passed_once, with_write_half};

use crate::channels::{deliver_each, end_stream, is_write_half_closed};
use crate::skips::apply_skips_of;
use sctp_generations::Generations;
use sctp_streams::{Events, Setting, Streams};
use sctp_wire_types::StreamId;
use std::alloc::{AllocError, Global};
use std::collections::VecDeque;

// Ends a stream whose generation is over, and hands over what came for the one behind it. A write half that was closed
// stays so in the next generation. `in_progress` is the last TSN of a request in progress that names the stream.
#[tactic(auto, unfolding(crate::specs::Draining::next_generation_read))]
fn read_next_generation(
    generations: &mut Generations,
    streams: &mut Streams,
    events: &mut Events,
    to_accept: &mut VecDeque<StreamId>,
    alloc: Global,
    first_message_id: u64,
    limit: u32,
    id: StreamId,
    in_progress: Option<u32>,
) -> Result<(), AllocError>
    ensures { OnOk result ((generations.new, channels streams.new events.new to_accept.new.items)
        ≡ next_generation_read first_message_id limit id in_progress
        (generations.old, channels streams.old events.old to_accept.old.items)) }
{
    let is_write_closed = is_write_half_closed(streams, id);
    end_stream(streams, events, id)?;
    let given = generations.release(id, in_progress)?;
    deliver_each(
        streams,
        events,
        to_accept,
        alloc,
        first_message_id,
        limit,
        given,
    )?;
    keep_write_half(streams, id, is_write_closed);
    apply_skips_of(generations, streams, events, id)
}

// Does so where the generation that is read ended and no byte of it waits; answers whether it did.
fn pass(
    generations: &mut Generations,
    streams: &mut Streams,
    events: &mut Events,
    to_accept: &mut VecDeque<StreamId>,
    alloc: Global,
    first_message_id: u64,
    limit: u32,
    id: StreamId,
    in_progress: Option<u32>,
) -> Result<bool, AllocError>
    ensures { IfOk result (λ passed.
        passed_once first_message_id limit id in_progress
        (generations.old, channels streams.old events.old to_accept.old.items)
        ≡ ((generations.new, channels streams.new events.new to_accept.new.items), passed)) }
{
    if !generations.drain(id, streams.waiting_bytes_of(id)) {
        return Ok(false);
    }
    read_next_generation(
        generations,
        streams,
        events,
        to_accept,
        alloc,
        first_message_id,
        limit,
        id,
        in_progress,
    )?;
    Ok(true)
}

fn keep_write_half(streams: &mut Streams, id: StreamId, is_closed: bool)
    ensures { streams.new ≡ with_write_half is_closed streams.old id }
{
    if is_closed {
        streams.set(id, Setting::WriteHalfClosed);
    }
}

// Ends one generation of a stream after the other, as long as no byte waits of the one that is read and that one ended.
pub(crate) fn drain(
    generations: &mut Generations,
    streams: &mut Streams,
    events: &mut Events,
    to_accept: &mut VecDeque<StreamId>,
    alloc: Global,
    first_message_id: u64,
    limit: u32,
    id: StreamId,
    in_progress: Option<u32>,
) -> Result<(), AllocError>
    ensures exact { OnOk result ((generations.new, channels streams.new events.new to_accept.new.items)
        ≡ drained_out first_message_id limit id in_progress
        (generations.old, channels streams.old events.old to_accept.old.items)) }
    ensures grows { OnErr result (retires generations.old id ≡ true) }
{
    let mut left = generations.count(id);
    while left > 0 {
        let passed = pass(
            generations,
            streams,
            events,
            to_accept,
            alloc,
            first_message_id,
            limit,
            id,
            in_progress,
        )?;
        if !passed {
            return Ok(());
        }
        left -= 1;
    }
    Ok(())
}
