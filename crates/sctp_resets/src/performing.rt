// What a performed request of the peer does to the streams that it names (RFC 6525 section 5.2.2).
ghost use Rattle.std.specs.Prelude.{◌≡◌, IfOk, OnOk, is_some, filter};
ghost use Rattle.sctp_generations.specs.Generations.{retired, retirement_of};
ghost use Rattle.sctp_resets.specs.Later.{AreRight};
ghost use Rattle.sctp_streams.specs.Streams.{stream_at};
ghost use Rattle.sctp_resets.specs.Channels.{channels};
ghost use Rattle.sctp_resets.specs.Performing.{performing, is_drained, retired_one, named_live, retired_each};
ghost use Rattle.sctp_resets.specs.Performing.{named_in, each_end_told, end_told};

use crate::channels::end_stream;
use sctp_generations::{Generations, Retirement};
use sctp_reset_requests::{Debts, OwnRequests, PeerRequest};
use sctp_streams::{Event, Events, Streams};
use sctp_wire_types::{ReconfigResult, StreamEvent, StreamId};
use std::alloc::{AllocError, Global};
use std::collections::BTreeSet;

/// A request of the peer that was performed once the DATA before it came.
#[derive(Clone, Copy, Debug, PartialEq, Eq)]
pub struct Settled {
    /// Its number, which the response names.
    pub number: u32,
    /// A request of this side was made, which resets streams of it in the other direction.
    pub asks: bool,
}

/// What a request of the peer led to.
#[derive(Clone, Copy, Debug)]
pub struct Handled {
    /// It named the active request of this side, which ended by that.
    pub confirms: bool,
    /// A request of this side was made, which resets streams of it in the other direction.
    pub asks: bool,
    /// What is answered.
    pub answer: ReconfigResult,
}

// Whether nothing more can be read on a stream: its read half is closed, or no byte waits.
fn is_drained(streams: &Streams, id: StreamId) -> bool
    ensures { result ≡ is_drained streams.now id }
{
    match streams.get(id) {
        Some(stream) => !stream.is_read_half_open() || stream.waiting_bytes() == 0,
        None => true,
    }
}

// The streams of which DATA waits that is past their newest boundary and at or below this last TSN, where a request
// names several: one walk over the DATA serves them all. Of one stream alone `Generations::retire` finds out.
fn with_later(
    generations: &Generations,
    ids: &[StreamId],
    last_tsn: u32,
) -> Result<Option<BTreeSet<StreamId>>, AllocError>
    ensures { IfOk result (λ later. AreRight generations.now last_tsn later) }
{
    if ids.len() < 2 {
        return Ok(None);
    }
    Ok(Some(generations.with_later(last_tsn)?))
}

// Ends the newest generation of a live stream by a request with this last TSN.
fn retirement(
    generations: &mut Generations,
    later: &mut Option<BTreeSet<StreamId>>,
    id: StreamId,
    last_tsn: u32,
    is_drained: bool,
) -> Result<Retirement, AllocError>
    requires { AreRight generations.old last_tsn later.old }
    ensures answer { IfOk result (λ r. r ≡ retirement_of generations.old id last_tsn is_drained) }
    ensures ok { OnOk result (generations.new ≡ retired generations.old id last_tsn is_drained) }
    ensures later { OnOk result (AreRight generations.new last_tsn later.new) }
{
    match later {
        Some(ids) => generations.retire_known(id, last_tsn, is_drained, ids),
        None => generations.retire(id, last_tsn, is_drained),
    }
}

// Ends the newest generation of a live stream by a request with this last TSN, and answers whether one ended: then
// Finished is told, and the end of the reset is owed.
#[tactic(auto, unfolding(crate::specs::Performing::retired_one))]
fn retire(
    generations: &mut Generations,
    later: &mut Option<BTreeSet<StreamId>>,
    debts: &mut Debts,
    streams: &mut Streams,
    events: &mut Events,
    id: StreamId,
    last_tsn: u32,
) -> Result<bool, AllocError>
    requires { AreRight generations.old last_tsn later.old }
    ensures retired { IfOk result (λ retired.
        retired_one last_tsn (performing generations.old debts.old streams.old events.old) id
        ≡ (performing generations.new debts.new streams.new events.new, retired)) }
    ensures later { OnOk result (AreRight generations.new last_tsn later.new) }
{
    let is_drained = is_drained(streams, id);
    match retirement(generations, later, id, last_tsn, is_drained)? {
        Retirement::Unchanged => return Ok(false),
        Retirement::Ended => end_stream(streams, events, id)?,
        Retirement::Retires => {}
    }
    events.push(Event::Stream(StreamEvent::Finished { id }))?;
    debts.owe(id)?;
    Ok(true)
}

// The live streams that a request names, ascending.
fn named_live(
    alloc: Global,
    streams: &Streams,
    request: &PeerRequest,
) -> Result<Vec<StreamId>, AllocError>
    ensures { IfOk result (λ ids. ids.items ≡ named_live streams.now request.now) }
{
    if request.names_all() {
        streams.ids(alloc)
    } else {
        live_among(alloc, streams, request.ids())
    }
}

// Those of a set that are live, ascending.
fn live_among(
    alloc: Global,
    streams: &Streams,
    ids: &BTreeSet<StreamId>,
) -> Result<Vec<StreamId>, AllocError>
    ensures { IfOk result (λ live. live.items ≡ filter (λ id. is_some (stream_at streams.now id)) ids.now.keys) }
{
    ids.iter()
        .copied()
        .filter(|id| streams.contains(*id))
        .collect(alloc)
}

// Ends the newest generations of the live streams that a request names; answers those of which one ended, ascending.
pub(crate) fn retire_each(
    alloc: Global,
    generations: &mut Generations,
    debts: &mut Debts,
    streams: &mut Streams,
    events: &mut Events,
    request: &PeerRequest,
) -> Result<Vec<StreamId>, AllocError>
    ensures { IfOk result (λ ids.
        retired_each request.now (performing generations.old debts.old streams.old events.old)
        ≡ (performing generations.new debts.new streams.new events.new, ids.items)) }
{
    let mut retired = Vec::new(alloc);
    let last_tsn = request.last_tsn();
    let ids = named_live(alloc, streams, request)?;
    let mut later = with_later(generations, ids.as_slice(), last_tsn)?;
    for id in ids {
        if retire(
            generations,
            &mut later,
            debts,
            streams,
            events,
            id,
            last_tsn,
        )? {
            retired.push(id)?;
        }
    }
    Ok(retired)
}

// The streams that a request resets by the rules of the RFCs: those that it names, live or not, and where it is for all
// the live ones. By the rules of the port none is noted, and no memory is taken.
pub(crate) fn named_in(
    alloc: Global,
    own: &OwnRequests,
    streams: &Streams,
    request: &PeerRequest,
) -> Result<Vec<StreamId>, AllocError>
    ensures { IfOk result (λ ids. ids.items ≡ named_in own.now streams.now request.now) }
{
    if !own.is_by_rfcs() {
        return Ok(Vec::new(alloc));
    }
    if request.names_all() {
        streams.ids(alloc)
    } else {
        all_of(alloc, request.ids())
    }
}

fn all_of(alloc: Global, ids: &BTreeSet<StreamId>) -> Result<Vec<StreamId>, AllocError>
    ensures { IfOk result (λ all. all.items ≡ ids.now.keys) }
{
    ids.iter().copied().collect(alloc)
}

// A performed request ends resets of these streams that this side began: the ends that are owed are told.
pub(crate) fn tell_ends(
    own: &OwnRequests,
    debts: &mut Debts,
    events: &mut Events,
    named: &[StreamId],
) -> Result<(), AllocError>
    ensures { OnOk result ((debts.new, events.new) ≡ each_end_told own.now named.now (debts.old, events.old)) }
{
    for id in named {
        tell_end(own, debts, events, *id)?;
    }
    Ok(())
}

fn tell_end(
    own: &OwnRequests,
    debts: &mut Debts,
    events: &mut Events,
    id: StreamId,
) -> Result<(), AllocError>
    ensures { OnOk result ((debts.new, events.new) ≡ end_told own.now (debts.old, events.old) id) }
{
    if own.ends_here(id) && debts.end(id) {
        events.push(Event::Stream(StreamEvent::ResetComplete { id }))?;
    }
    Ok(())
}
