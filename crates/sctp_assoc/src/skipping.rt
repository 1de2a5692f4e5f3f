// FORWARD TSN that comes (RFC 3758 section 3.6; RFC 8260 section 2.3.1).
ghost use Rattle.std.specs.Prelude.{◌≡◌, ◌&&◌, true, IfOk, OnErr, OnOk};
ghost use Rattle.sctp_assoc.specs.Finding.{finding_takes_memory, found_at, found_for, makes_for, makes_stream};
ghost use Rattle.sctp_assoc.specs.Resets.{settled};
ghost use Rattle.sctp_assoc.specs.Skipping.{acknowledged_at_once, asks_behind, forward_takes_memory, on_forward};
ghost use Rattle.sctp_assoc.specs.Skipping.{passing_takes_memory, refused, skip_takes_memory, skips_of};
ghost use Rattle.sctp_assoc.specs.Skipping.{some_takes_memory, standing_of, unrecognized_chunk, with_passed, with_skip};
ghost use Rattle.sctp_assoc.specs.Skipping.{with_skips};
ghost use Rattle.sctp_assoc.specs.declared.inbound.Flow.TheVariants as flows;

use crate::Association;
use crate::inbound::Flow;
use bytes::Bytes;
use sctp_inbound::AckTrigger;
use sctp_wire_queues::{
    Chunk, ChunkError, ChunkForwardTsn, ChunkIForwardTsn, ErrorCause, Event, IForwardTsnEntry,
    Instant, List, SkippedStream, StreamEvent, StreamId,
};
use std::alloc::{AllocError, Global};

/// The code of the error cause Unrecognized Chunk Type (RFC 4960 section 3.3.10).
const UNRECOGNIZED_CHUNK_TYPE: u16 = 6;

/// Where the new cumulative TSN of a FORWARD TSN lies.
#[derive(Clone, Copy, Debug)]
pub(crate) enum Standing {
    /// FORWARD TSN is not in use.
    Unused,
    /// At or behind the last TSN that came or was skipped.
    Behind,
    /// Ahead of it.
    Ahead,
}

impl Association {
    // FORWARD TSN (RFC 3758 section 3.6). Without its use an ERROR answers it. One that is not ahead only asks for a
    // SACK.
    #[cold]
    #[inline(never)]
    #[tactic(auto, unfolding(crate::specs::Skipping::on_forward))]
    pub(crate) fn on_forward_tsn(
        &mut self,
        forward: ChunkForwardTsn,
        trigger: AckTrigger,
        now: Instant,
    ) -> Result<Flow, AllocError>
        ensures exact { IfOk result (λ flow.
            on_forward self.old forward.new_cumulative_tsn forward.streams trigger now ≡ (self.new, flow)) }
        ensures grows { OnErr result
            (forward_takes_memory self.old forward.new_cumulative_tsn forward.streams ≡ true) }
    {
        match self.standing_of(forward.new_cumulative_tsn) {
            Standing::Unused => self.refuse_forward(trigger),
            Standing::Behind => Ok(self.acknowledge_at_once(trigger, now)),
            Standing::Ahead => {
                self.find_streams(forward.streams.as_slice(), forward.new_cumulative_tsn)?;
                self.skip_streams(forward.streams.as_slice(), forward.new_cumulative_tsn)?;
                self.pass_over(forward.new_cumulative_tsn, trigger)
            }
        }
    }

    // I-FORWARD-TSN: the same, with message identifiers of which the low 16 bits count as SSN. Unordered messages are
    // dropped on all streams anyway.
    #[cold]
    #[inline(never)]
    #[tactic(auto, unfolding(crate::specs::Skipping::on_forward))]
    pub(crate) fn on_i_forward_tsn(
        &mut self,
        forward: ChunkIForwardTsn,
        trigger: AckTrigger,
        now: Instant,
    ) -> Result<Flow, AllocError>
        ensures exact { IfOk result (λ flow.
            on_forward self.old forward.new_cumulative_tsn (skips_of forward.entries) trigger now ≡ (self.new, flow)) }
        ensures grows { OnErr result
            (forward_takes_memory self.old forward.new_cumulative_tsn (skips_of forward.entries) ≡ true) }
    {
        match self.standing_of(forward.new_cumulative_tsn) {
            Standing::Unused => self.refuse_forward(trigger),
            Standing::Behind => Ok(self.acknowledge_at_once(trigger, now)),
            Standing::Ahead => {
                self.find_streams_of(forward.entries.as_slice(), forward.new_cumulative_tsn)?;
                self.skip_messages(forward.entries.as_slice(), forward.new_cumulative_tsn)?;
                self.pass_over(forward.new_cumulative_tsn, trigger)
            }
        }
    }

    fn standing_of(&self, tsn: u32) -> Standing
        ensures { result ≡ standing_of self.now tsn }
    {
        if !self.handshake.use_forward_tsn {
            Standing::Unused
        } else if self.receiver.is_behind(tsn) {
            Standing::Behind
        } else {
            Standing::Ahead
        }
    }

    // An ERROR with the cause Unrecognized Chunk Type goes out.
    fn refuse_forward(&mut self, trigger: AckTrigger) -> Result<Flow, AllocError>
        ensures { IfOk result (λ flow. refused self.old trigger ≡ (self.new, flow)) }
    {
        let chunk = unrecognized_chunk(self.alloc)?;
        self.queue_control(chunk)?;
        Ok(Flow::Next(trigger))
    }

    // A SACK goes out with the next poll; what the packet asked for so far is not changed.
    fn acknowledge_at_once(&mut self, trigger: AckTrigger, now: Instant) -> Flow
        ensures state { self.new ≡ acknowledged_at_once self.old now }
        ensures flow { result ≡ flows.Next trigger }
    {
        self.receiver
            .end_of_packet(&mut self.timers, AckTrigger::Immediate, now);
        Flow::Next(trigger)
    }

    // The last TSN in order and the unordered messages pass over a TSN, which asks to be acknowledged as DATA does.
    fn pass_over(&mut self, tsn: u32, trigger: AckTrigger) -> Result<Flow, AllocError>
        ensures exact { IfOk result
            (λ flow. asks_behind (settled (with_passed self.old tsn)) trigger ≡ (self.new, flow)) }
        ensures grows { OnErr result (passing_takes_memory tsn self.old ≡ true) }
    {
        self.receiver.pass_over(tsn);
        self.streams.skip_unordered(tsn);
        self.resets.skip_unordered(tsn)?;
        self.settle()?;
        Ok(self.ask(trigger, false))
    }

    // Finds or makes the streams on which ordered messages are skipped, before any is.
    fn find_streams(&mut self, skipped: &[SkippedStream], tsn: u32) -> Result<(), AllocError>
        ensures exact { OnOk result (self.new ≡ found_for tsn skipped.now self.old) }
        ensures grows { OnErr result (finding_takes_memory tsn skipped.now self.old ≡ true) }
    {
        for skip in skipped {
            self.find_skipped(skip.stream_identifier, tsn)?;
        }
        Ok(())
    }

    fn find_streams_of(&mut self, entries: &[IForwardTsnEntry], tsn: u32) -> Result<(), AllocError>
        ensures exact { OnOk result (self.new ≡ found_for tsn (skips_of entries.now) self.old) }
        ensures grows { OnErr result (finding_takes_memory tsn (skips_of entries.now) self.old ≡ true) }
    {
        for entry in entries {
            if !entry.unordered {
                self.find_skipped(entry.stream_identifier, tsn)?;
            }
        }
        Ok(())
    }

    // By the rules of the RFCs the stream is made if it is missing, as DATA under that TSN would make it.
    #[tactic(auto, unfolding(crate::specs::Finding::found_at, crate::specs::Finding::makes_for))]
    fn find_skipped(&mut self, id: StreamId, tsn: u32) -> Result<(), AllocError>
        ensures exact { OnOk result (self.new ≡ found_at tsn id self.old) }
        ensures grows { OnErr result ((makes_for tsn id self.old && makes_stream self.old id) ≡ true) }
    {
        if self.is_by_rfcs() && !self.resets.is_hidden(id, tsn) {
            self.find_stream(id)?;
        }
        Ok(())
    }

    // The ordered messages of some streams, one after another.
    fn skip_streams(&mut self, skipped: &[SkippedStream], tsn: u32) -> Result<(), AllocError>
        ensures exact { OnOk result (self.new ≡ with_skips tsn skipped.now self.old) }
        ensures grows { OnErr result (some_takes_memory tsn skipped.now self.old ≡ true) }
    {
        for skip in skipped {
            self.skip_stream(skip.stream_identifier, skip.stream_sequence_number, tsn)?;
        }
        Ok(())
    }

    fn skip_messages(&mut self, entries: &[IForwardTsnEntry], tsn: u32) -> Result<(), AllocError>
        ensures exact { OnOk result (self.new ≡ with_skips tsn (skips_of entries.now) self.old) }
        ensures grows { OnErr result (some_takes_memory tsn (skips_of entries.now) self.old ≡ true) }
    {
        for entry in entries {
            if !entry.unordered {
                self.skip_stream(
                    entry.stream_identifier,
                    (entry.message_identifier % 65_536) as u16,
                    tsn,
                )?;
            }
        }
        Ok(())
    }

    // The ordered messages of a live stream up to an SSN. Readable is told where this makes a message ready and none
    // was. Where a generation of the stream ended and is still read, the skip is kept for its newest one.
    #[tactic(auto, unfolding(crate::specs::Skipping::with_skip))]
    fn skip_stream(&mut self, id: StreamId, ssn: u16, tsn: u32) -> Result<(), AllocError>
        ensures exact { OnOk result (self.new ≡ with_skip tsn id ssn self.old) }
        ensures grows { OnErr result (skip_takes_memory id ssn self.old ≡ true) }
    {
        if self.resets.is_retiring(id) {
            return self.resets.skip(id, ssn, tsn);
        }
        if self.streams.skip(id, ssn) {
            self.tell(Event::Stream(StreamEvent::Readable { id }))?;
        }
        Ok(())
    }
}

// ERROR with the cause Unrecognized Chunk Type (RFC 4960 section 3.3.10.6).
fn unrecognized_chunk(alloc: Global) -> Result<Chunk, AllocError>
    ensures { IfOk result (λ chunk. chunk ≡ unrecognized_chunk) }
{
    let mut error_causes = List::new(alloc);
    error_causes.push(ErrorCause {
        code: UNRECOGNIZED_CHUNK_TYPE,
        value: Bytes::new(),
    })?;
    Ok(Chunk::Error(ChunkError { error_causes }))
}
