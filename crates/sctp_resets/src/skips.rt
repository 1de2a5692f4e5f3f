// Skips of FORWARD TSN that were kept, applied to the streams that they are of (RFC 3758 section 3.6).
ghost use Rattle.std.specs.Prelude.{◌≡◌, OnErr, OnOk, IfOk, fold, true};
ghost use Rattle.sctp_generations.specs.Generations.{has_skips};
ghost use Rattle.sctp_resets.specs.Skips.{skip_applied, reaches_its_ssn, skip_tried, skips_applied_of, skips_applied};

use sctp_generations::{Generations, KeptSkip};
use sctp_streams::{Event, Events, Streams};
use sctp_wire_types::{StreamEvent, StreamId};
use std::alloc::{AllocError, Global};

// Skips the ordered messages of a stream up to an SSN, as far as none is passed over of which a piece came above the
// TSN; answers whether it went as far as the SSN. Readable is told where this makes a message ready and none was.
fn apply(streams: &mut Streams, events: &mut Events, skip: KeptSkip) -> Result<bool, AllocError>
    ensures applied { OnOk result ((streams.new, events.new) ≡ skip_applied skip streams.old events.old) }
    ensures reached { IfOk result (λ reached. reached ≡ reaches_its_ssn skip streams.old) }
{
    let id = skip.id;
    let bound = streams.bound_of_skip(id, skip.ssn, skip.tsn);
    if streams.skip(id, bound) {
        events.push(Event::Stream(StreamEvent::Readable { id }))?;
    }
    Ok(bound == skip.ssn)
}

// Applies skips in this order; one that does not reach its SSN is kept again.
fn apply_each(
    generations: &mut Generations,
    streams: &mut Streams,
    events: &mut Events,
    skips: Vec<KeptSkip>,
) -> Result<(), AllocError>
    ensures { OnOk result ((generations.new, streams.new, events.new)
        ≡ fold skip_tried (generations.old, streams.old, events.old) skips.items) }
{
    for skip in skips {
        if !apply(streams, events, skip)? {
            generations.keep_skip(skip)?;
        }
    }
    Ok(())
}

// Applies the skips that were kept for the generation of a live stream that is read now.
pub(crate) fn apply_skips_of(
    generations: &mut Generations,
    streams: &mut Streams,
    events: &mut Events,
    id: StreamId,
) -> Result<(), AllocError>
    ensures exact { OnOk result ((generations.new, streams.new, events.new)
        ≡ skips_applied_of (generations.old, streams.old, events.old) id) }
    ensures grows { OnErr result (has_skips generations.old ≡ true) }
{
    if !generations.has_skips() || !streams.contains(id) {
        return Ok(());
    }
    let skips = generations.release_skips(id)?;
    apply_each(generations, streams, events, skips)
}

// Does so for each live stream, identifiers ascending.
pub(crate) fn apply_skips(
    generations: &mut Generations,
    streams: &mut Streams,
    events: &mut Events,
    alloc: Global,
) -> Result<(), AllocError>
    ensures exact { OnOk result ((generations.new, streams.new, events.new)
        ≡ skips_applied (generations.old, streams.old, events.old)) }
    ensures grows { OnErr result (has_skips generations.old ≡ true) }
{
    if !generations.has_skips() {
        return Ok(());
    }
    let ids = generations.skip_ids(alloc)?;
    for id in &ids {
        apply_skips_of(generations, streams, events, *id)?;
    }
    Ok(())
}
