// Which event is told next: Finished of a generation waits until that is read to its end (RFC 8831 section 6.7).
ghost use Rattle.std.specs.Prelude.{◌≡◌, ◌&&◌, ◌+◌, nat_lt, slice_get, take};
ghost use Rattle.std.specs.List.{count_by};
ghost use Rattle.sctp_resets.specs.Marks.{AreMarked, tells_finished};
ghost use Rattle.sctp_resets.specs.Telling.{FrontWaits, debts_told, finished_in, has_unready, is_end_held};
ghost use Rattle.sctp_resets.specs.Telling.{is_finished_of, is_held, is_told_held, next_told};

use crate::marks::{Mark, mark_all, mark_of};
use sctp_generations::Generations;
use sctp_reset_requests::Debts;
use sctp_streams::Event;
use sctp_wire_types::{StreamEvent, StreamId};
use std::collections::VecDeque;

fn is_finished_of(event: Event, id: StreamId) -> bool
    ensures { result ≡ is_finished_of id event }
{
    match event {
        Event::Stream(StreamEvent::Finished { id: of }) => of == id,
        _ => false,
    }
}

// How many of the first events tell Finished of a stream.
fn finished_among(events: &VecDeque<Event>, first: usize, id: StreamId) -> usize
    ensures { result ≡ count_by (is_finished_of id) (take first events.now.items) }
{
    events
        .iter()
        .take(first)
        .filter(|event| is_finished_of(**event, id))
        .count()
}

// Whether the event at an index tells Finished of a stream.
fn is_finished_at(events: &VecDeque<Event>, index: usize, id: StreamId) -> bool
    ensures { result ≡ tells_finished id (slice_get events.now.items index) }
{
    match events.get(index) {
        Some(event) => is_finished_of(*event, id),
        None => false,
    }
}

// Whether one of the first events tells Finished of a generation that is not read to its end. Goes over the events only
// where no mark says where Finished of the stream stands.
#[tactic(auto, using(crate::proofs::MarkedFinished::nowhere_unready, crate::proofs::MarkedFinished::once_unready_at))]
fn has_unready(
    generations: &Generations,
    events: &VecDeque<Event>,
    marks: &[Mark],
    first: usize,
    id: StreamId,
) -> bool
    requires { AreMarked marks.now events.now.items }
    ensures { result ≡ has_unready generations.now events.now.items first id }
{
    let unready = generations.count(id);
    if unready == 0 {
        return false;
    }
    match mark_of(marks, id) {
        Some(Mark::Nowhere) => false,
        Some(Mark::Once(index)) => index < first && is_finished_at(events, index, id),
        _ => is_one_unready(events, unready, first, id),
    }
}

// Whether one of the first events tells Finished of a stream, of which the last so many are not ready.
fn is_one_unready(events: &VecDeque<Event>, unready: usize, first: usize, id: StreamId) -> bool
    ensures { result ≡ (nat_lt 0 (finished_in id (take first events.now.items))
        && nat_lt (finished_in id events.now.items) (finished_in id (take first events.now.items) + unready)) }
{
    let among = finished_among(events, first, id);
    among > 0 && finished_among(events, events.len(), id) < among.saturating_add(unready)
}

// Whether an event that is one of the first, and the last of these, waits for one of its stream that is not ready.
fn is_held(
    generations: &Generations,
    debts: &Debts,
    events: &VecDeque<Event>,
    marks: &[Mark],
    first: usize,
    event: Event,
) -> bool
    requires { AreMarked marks.now events.now.items }
    ensures { result ≡ is_held generations.now debts.now events.now.items first event }
{
    match event {
        Event::Stream(told) => is_told_held(generations, debts, events, marks, first, told),
        _ => false,
    }
}

fn is_told_held(
    generations: &Generations,
    debts: &Debts,
    events: &VecDeque<Event>,
    marks: &[Mark],
    first: usize,
    told: StreamEvent,
) -> bool
    requires { AreMarked marks.now events.now.items }
    ensures { result ≡ is_told_held generations.now debts.now events.now.items first told }
{
    match told {
        StreamEvent::Finished { id } => has_unready(generations, events, marks, first, id),
        StreamEvent::Writable { id } => has_unready(generations, events, marks, first, id),
        StreamEvent::Stopped { id, error_code: _ } => has_unready(
            generations,
            events,
            marks,
            first,
            id,
        ),
        StreamEvent::BufferedAmountLow { id } => has_unready(generations, events, marks, first, id),
        StreamEvent::BufferedAmountHigh { id } => has_unready(
            generations,
            events,
            marks,
            first,
            id,
        ),
        StreamEvent::ResetComplete { id } => is_end_held(
            generations,
            debts,
            events,
            marks,
            first,
            id,
        ),
        StreamEvent::ResetFailed { id, reason: _ } => {
            is_end_held(generations, debts, events, marks, first, id)
        }
        StreamEvent::Opened { .. } | StreamEvent::Readable { .. } | StreamEvent::Available => false,
    }
}

// Whether the end of a reset waits: it is not awaited, and an event of its stream is not ready.
fn is_end_held(
    generations: &Generations,
    debts: &Debts,
    events: &VecDeque<Event>,
    marks: &[Mark],
    first: usize,
    id: StreamId,
) -> bool
    requires { AreMarked marks.now events.now.items }
    ensures { result ≡ is_end_held generations.now debts.now events.now.items first id }
{
    !debts.awaits_end(id) && has_unready(generations, events, marks, first, id)
}

// The index of the event that is told next, where so many of the oldest wait. Mostly that is the first one behind
// these, which needs no marks.
#[tactic(auto, using(crate::proofs::MarkedFinished::none_is_marked))]
pub(crate) fn next_told(
    generations: &Generations,
    debts: &Debts,
    events: &VecDeque<Event>,
    waiting: usize,
) -> Option<usize>
    requires { FrontWaits generations.now.retiring debts.now events.now.items waiting }
    ensures { result ≡ next_told generations.now debts.now events.now.items }
{
    let Some(event) = events.get(waiting) else {
        return None;
    };
    if !is_held(generations, debts, events, &[], waiting + 1, *event) {
        return Some(waiting);
    }
    next_told_by_marks(generations, debts, events, waiting)
}

// One more event waits, and behind it others, perhaps many: all events are gone over once to note where Finished
// stands, and not once for each that waits. It stands apart, so that no other poll pays for the 8 KiB of marks.
#[cold]
#[inline(never)]
fn next_told_by_marks(
    generations: &Generations,
    debts: &Debts,
    events: &VecDeque<Event>,
    waiting: usize,
) -> Option<usize>
    requires { FrontWaits generations.now.retiring debts.now events.now.items waiting }
    ensures { result ≡ next_told generations.now debts.now events.now.items }
{
    let mut marks = [Mark::Nowhere; 512];
    mark_all(&mut marks, events);
    first_not_held(generations, debts, events, &marks, waiting)
}

// The index of the first event that does not wait, where so many of the oldest do.
#[tactic(auto, using(crate::proofs::FrontWaits::gone_on_behind))]
fn first_not_held(
    generations: &Generations,
    debts: &Debts,
    events: &VecDeque<Event>,
    marks: &[Mark],
    waiting: usize,
) -> Option<usize>
    requires marked { AreMarked marks.now events.now.items }
    requires waits { FrontWaits generations.now.retiring debts.now events.now.items waiting }
    ensures { result ≡ next_told generations.now debts.now events.now.items }
{
    let mut index = waiting;
    while let Some(event) = events.get(index) {
        if !is_held(generations, debts, events, marks, index + 1, *event) {
            return Some(index);
        }
        index += 1;
    }
    None
}

// What is owed of resets once an event was told.
pub(crate) fn note_told(debts: &mut Debts, event: Event)
    ensures { debts.new ≡ debts_told event debts.old }
{
    match event {
        Event::Stream(StreamEvent::Finished { id }) => debts.tell(id),
        Event::Stream(StreamEvent::ResetComplete { id }) => debts.tell_end(id),
        Event::Stream(StreamEvent::ResetFailed { id, .. }) => debts.tell_end(id),
        _ => {}
    }
}
