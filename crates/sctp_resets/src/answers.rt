// The end of a request of this side (RFC 6525 section 5.2.7, RFC 8831 section 6.7).
ghost use Rattle.std.specs.Prelude.{◌≡◌, OnOk, OnErr, fold, length, nat_lt, true};
ghost use Rattle.sctp_resets.specs.Answers.{answering, completed_one, failed_one, request_ended, is_read_half_closed};
ghost use Rattle.sctp_resets.specs.Answers.{failed_each, failure_told, failures_told};

use crate::channels::end_stream;
use sctp_reset_requests::Debts;
use sctp_streams::{Event, Events, Streams};
use sctp_wire_types::{StreamEvent, StreamId, StreamResetError};
use std::alloc::AllocError;

/// What a response of the peer is to the timer Reconfig.
#[derive(Clone, Copy, Debug, PartialEq, Eq)]
pub enum TimerChange {
    /// The response is of no active request.
    Unchanged,
    /// The active request is in progress: the timer begins anew with the next poll, and its next expiry does not count.
    Exempted,
    /// The active request ended, and the timer stops.
    Stopped,
}

// Whether a stream is live and its read half is closed.
fn is_read_half_closed(streams: &Streams, id: StreamId) -> bool
    ensures { result ≡ is_read_half_closed streams.now id }
{
    match streams.get(id) {
        Some(stream) => !stream.is_read_half_open(),
        None => false,
    }
}

// A stream was reset in success. Where the end of a reset is owed it is told, and by the rules of the port the stream
// ends if its read half is closed; else its SSNs begin at 0 again.
fn complete(
    debts: &mut Debts,
    streams: &mut Streams,
    events: &mut Events,
    id: StreamId,
    by_rfcs: bool,
) -> Result<(), AllocError>
    ensures { OnOk result (answering debts.new streams.new events.new
        ≡ completed_one by_rfcs (answering debts.old streams.old events.old) id) }
{
    let owed = debts.settle(id);
    let ends = owed && !by_rfcs;
    if ends && is_read_half_closed(streams, id) {
        end_stream(streams, events, id)?;
    } else {
        streams.restart_ssn(id);
    }
    if owed {
        events.push(Event::Stream(StreamEvent::ResetComplete { id }))?;
    }
    Ok(())
}

fn complete_each(
    debts: &mut Debts,
    streams: &mut Streams,
    events: &mut Events,
    ids: &[StreamId],
    by_rfcs: bool,
) -> Result<(), AllocError>
    ensures { OnOk result (answering debts.new streams.new events.new
        ≡ fold (completed_one by_rfcs) (answering debts.old streams.old events.old) ids.now) }
{
    for id in ids {
        complete(debts, streams, events, *id, by_rfcs)?;
    }
    Ok(())
}

// The reset of a stream failed, which is told.
fn fail(
    debts: &mut Debts,
    events: &mut Events,
    id: StreamId,
    reason: StreamResetError,
) -> Result<(), AllocError>
    ensures { OnOk result ((debts.new, events.new) ≡ failed_one reason (debts.old, events.old) id) }
{
    debts.fail(id)?;
    events.push(Event::Stream(StreamEvent::ResetFailed { id, reason }))
}

fn fail_each(
    debts: &mut Debts,
    events: &mut Events,
    ids: &[StreamId],
    reason: StreamResetError,
) -> Result<(), AllocError>
    ensures { OnOk result ((debts.new, events.new) ≡ failed_each reason ids.now (debts.old, events.old)) }
{
    for id in ids {
        fail(debts, events, *id, reason)?;
    }
    Ok(())
}

// A request for these streams ended so.
pub(crate) fn end_request(
    debts: &mut Debts,
    streams: &mut Streams,
    events: &mut Events,
    ids: &[StreamId],
    outcome: Result<(), StreamResetError>,
    by_rfcs: bool,
) -> Result<(), AllocError>
    ensures { OnOk result (answering debts.new streams.new events.new
        ≡ request_ended by_rfcs outcome ids.now (answering debts.old streams.old events.old)) }
{
    match outcome {
        Ok(()) => complete_each(debts, streams, events, ids, by_rfcs),
        Err(reason) => fail_each(debts, events, ids, reason),
    }
}

// A request for these streams is given up and goes on, which is told of those that are live or of which the end of a
// reset is owed.
pub(crate) fn tell_failures(
    debts: &Debts,
    streams: &Streams,
    events: &mut Events,
    ids: &[StreamId],
) -> Result<(), AllocError>
    ensures exact { OnOk result (events.new ≡ failures_told debts.now streams.now ids.now events.old) }
    ensures grows { OnErr result (nat_lt 0 (length ids.now) ≡ true) }
{
    for id in ids {
        tell_failure(debts, streams, events, *id)?;
    }
    Ok(())
}

fn tell_failure(
    debts: &Debts,
    streams: &Streams,
    events: &mut Events,
    id: StreamId,
) -> Result<(), AllocError>
    ensures { OnOk result (events.new ≡ failure_told debts.now streams.now events.old id) }
{
    if streams.contains(id) || debts.is_owed(id) {
        let reason = StreamResetError::Failed;
        events.push(Event::Stream(StreamEvent::ResetFailed { id, reason }))?;
    }
    Ok(())
}
