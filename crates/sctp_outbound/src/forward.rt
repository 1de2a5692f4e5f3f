// The FORWARD TSN that a sender makes (RFC 3758 sections 3.2 and 3.5).
ghost use Rattle.std.specs.Prelude.{◌≡◌, is_some, map, slice_get, true, IfOk, OnErr, OnOk};
ghost use Rattle.sctp_outbound.specs.Forward.{abandoned_front, advanced_peer_ack_point_of, forward_asked, forward_by};
ghost use Rattle.sctp_outbound.specs.Forward.{forward_given, forward_of, gives_forward, is_front_abandoned};
ghost use Rattle.sctp_outbound.specs.Forward.{skipped_over};
ghost use Rattle.sctp_outbound.specs.Forward.{skipped_numbers, skipped_stream, skipped_with};

use crate::sender::Sender;
use sctp_outbound_queue::Attributes;
use sctp_wire_types::{ChunkForwardTsn, List, SkippedStream, StreamId};
use std::alloc::{AllocError, Global};
use std::collections::BTreeMap;

impl Sender {
    /// After a SACK and after the retransmission timer expired: FORWARD TSN is due where it is in use and the advanced
    /// peer ack point is past the cumulative TSN ack point (RFC 3758 section 3.5, rules C3 and A5).
    pub fn ask_for_forward_tsn(&mut self, forward: bool)
        ensures { self.new ≡ forward_asked forward self.old }
    {
        self.is_forward_due |= forward & self.is_front_abandoned();
    }

    /// The FORWARD TSN that is due, which is not due any more then. None where none is due, or where a SACK overtook
    /// the advanced peer ack point since. It lacks memory only where there is one. Goes over the abandoned pieces in
    /// front of all others in flight.
    pub fn forward_tsn(&mut self, alloc: Global) -> Result<Option<ChunkForwardTsn>, AllocError>
        ensures chunk { IfOk result (λ chunk. chunk ≡ forward_by self.old) }
        ensures sender { OnOk result (self.new ≡ forward_given self.old) }
        ensures grows { OnErr result (is_some (forward_by self.old) ≡ true) }
    {
        if !self.gives_forward() {
            self.is_forward_due = false;
            return Ok(None);
        }
        let chunk = self.make_forward(alloc)?;
        self.is_forward_due = false;
        Ok(Some(chunk))
    }

    /// The TSN up to which all is acknowledged cumulatively or abandoned (RFC 3758 section 3.5). Goes over the
    /// abandoned pieces in front of all others in flight.
    pub fn advanced_peer_ack_point(&self) -> u32
        ensures { result ≡ advanced_peer_ack_point_of self.now }
    {
        self.queue
            .tsn_at(self.queue.abandoned_in_front())
            .wrapping_sub(1)
    }

    fn gives_forward(&self) -> bool
        ensures { result ≡ gives_forward self.now }
    {
        self.is_forward_due && self.is_front_abandoned()
    }

    fn is_front_abandoned(&self) -> bool
        ensures { result ≡ is_front_abandoned self.now }
    {
        match self.queue.get(0) {
            Some(piece) => piece.abandoned,
            None => false,
        }
    }

    fn make_forward(&self, alloc: Global) -> Result<ChunkForwardTsn, AllocError>
        ensures { IfOk result (λ chunk. chunk ≡ forward_of self.now) }
    {
        let numbers = self.skipped_numbers(alloc)?;
        let streams = skipped_streams(alloc, numbers)?;
        Ok(ChunkForwardTsn {
            new_cumulative_tsn: self.advanced_peer_ack_point(),
            streams,
        })
    }

    // Of the ordered messages that are passed over, the last SSN of each stream.
    fn skipped_numbers(&self, alloc: Global) -> Result<BTreeMap<StreamId, u16>, AllocError>
        ensures { IfOk result (λ numbers. numbers.entries ≡ skipped_numbers (abandoned_front self.now)) }
    {
        let mut numbers = BTreeMap::new(alloc);
        for index in 0..self.queue.abandoned_in_front() {
            self.skip_at(&mut numbers, index)?;
        }
        Ok(numbers)
    }

    fn skip_at(&self, numbers: &mut BTreeMap<StreamId, u16>, index: usize) -> Result<(), AllocError>
        ensures { OnOk result (numbers.new.entries ≡
            skipped_over numbers.old.entries (slice_get self.now.queue.in_flight index)) }
    {
        match self.queue.get(index) {
            Some(piece) => skip(numbers, &piece.message),
            None => Ok(()),
        }
    }
}

fn skip(numbers: &mut BTreeMap<StreamId, u16>, message: &Attributes) -> Result<(), AllocError>
    ensures { OnOk result (numbers.new.entries ≡ skipped_with numbers.old.entries message.now) }
{
    if !message.unordered {
        numbers.insert(message.stream_identifier, message.stream_sequence_number)?;
    }
    Ok(())
}

// The streams and numbers as FORWARD TSN has them, identifiers ascending.
fn skipped_streams(
    alloc: Global,
    numbers: BTreeMap<StreamId, u16>,
) -> Result<List<SkippedStream>, AllocError>
    ensures { IfOk result (λ streams. streams ≡ map skipped_stream numbers.entries) }
{
    let mut streams = List::new(alloc);
    for entry in numbers {
        streams.push(SkippedStream {
            stream_identifier: entry.0,
            stream_sequence_number: entry.1,
        })?;
    }
    Ok(streams)
}
