// Where Finished of streams stands among the events, so that these are gone over once and not again for each of them.
ghost use Rattle.std.specs.Prelude.{◌≡◌, slice_get};
ghost use Rattle.sctp_resets.specs.Marks.{AreMarked, again, finished_marked, marked, marked_from, remainder_of};

use sctp_streams::Event;
use sctp_wire_types::{StreamEvent, StreamId};
use std::collections::VecDeque;

/// Where Finished of the streams whose identifiers have one remainder mod 512 stands among the events.
#[derive(Clone, Copy, Debug)]
pub(crate) enum Mark {
    Nowhere,
    /// At one index alone.
    Once(usize),
    /// At several: these are to be gone over.
    Often,
}

impl Mark {
    fn again(self, index: usize) -> Mark
        ensures { result ≡ again self index }
    {
        match self {
            Mark::Nowhere => Mark::Once(index),
            Mark::Once(_) => Mark::Often,
            Mark::Often => Mark::Often,
        }
    }
}

fn remainder_of(id: StreamId) -> usize
    ensures { result ≡ remainder_of id }
{
    (id % 512) as usize
}

// The mark of a stream, where its remainder has one.
pub(crate) fn mark_of(marks: &[Mark], id: StreamId) -> Option<Mark>
    ensures { result ≡ slice_get marks.now (remainder_of id) }
{
    marks.get(remainder_of(id)).copied()
}

#[tactic(auto, using(std::proofs::lemmas::Option::slice_get_within))]
fn mark_finished(marks: &mut [Mark], index: usize, id: StreamId)
    ensures { marks.new ≡ finished_marked index id marks.old }
{
    if let Some(mark) = mark_of(marks, id) {
        marks[remainder_of(id)] = mark.again(index);
    }
}

#[tactic(auto, unfolding(crate::specs::Marks::marked))]
fn mark_event(marks: &mut [Mark], index: usize, event: Event)
    ensures { marks.new ≡ marked index event marks.old }
{
    match event {
        Event::Stream(StreamEvent::Finished { id }) => mark_finished(marks, index, id),
        _ => {}
    }
}

fn mark_each(marks: &mut [Mark], events: &VecDeque<Event>)
    ensures { marks.new ≡ marked_from 0 marks.old events.now.items }
{
    let mut index = 0;
    while let Some(event) = events.get(index) {
        mark_event(marks, index, *event);
        index += 1;
    }
}

// Notes where Finished stands, going over the events once. The marks may have been anything before.
#[tactic(auto, using(crate::proofs::MarkedFinished::all_marked))]
pub(crate) fn mark_all(marks: &mut [Mark], events: &VecDeque<Event>)
    ensures { AreMarked marks.new events.now.items }
{
    mark_each(marks, events);
}
