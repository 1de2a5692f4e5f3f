// What the gap ack blocks of a SACK acknowledge.
ghost use Rattle.std.specs.Prelude.{◌↔◌, true, length, slice_get, Some, ◌≡◌, ◌==◌, ◌+◌, ◌<◌};
ghost use Rattle.sctp_received.specs.Received.{is_named};
ghost use Rattle.sctp_outbound.specs.Progress.{last_new};
ghost use Rattle.sctp_outbound.specs.Sacks.{reach_of};
ghost use Rattle.sctp_streams.specs.LowMarks.{Gathers};
ghost use Rattle.sctp_outbound.specs.BlockOffsets.{NameUnsent, is_unsent_in, name_unsent};
ghost use Rattle.sctp_outbound.specs.GapAcks.{acked_among, block_trips, is_named_by, released_among, timed};
ghost use Rattle.sctp_outbound.specs.GapAcks.{trip_of, with_blocks, with_measure};

use crate::progress::{greatest_of, place_if_new};
use crate::sender::{Sender, release};
use sctp_outbound_queue::InFlight;
use sctp_parts::estimate::RtoManager;
use sctp_streams::{Fallen, Streams};
use sctp_wire_types::{GapAckBlock, Instant, List};

impl Sender {
    // Whether a block names a TSN that is not in flight, where so many of those in flight are up to the SACK's
    // cumulative TSN ack.
    pub(crate) fn names_unsent(&self, count: u32, blocks: &List<GapAckBlock>) -> bool
        ensures test { result ≡ name_unsent count (length self.now.queue.in_flight) blocks.now }
        ensures sets { (result ≡ true) ↔ NameUnsent count (length self.now.queue.in_flight) blocks.now }
    {
        let in_flight = self.queue.inflight_len();
        name_unsent(blocks, count, in_flight)
    }

    /// Takes in the gap ack blocks of a SACK whose cumulative TSN ack was taken in before (RFC 4960 sections 3.3.4 and
    /// 6.2.1). The pieces in flight that a block names are acknowledged, and those bytes of them that were outstanding
    /// until then are released at their streams. Blocks may overlap, stand in any order and be empty; offsets past what
    /// is in flight name nothing. Goes over the pieces that it acknowledges, block by block in their order, and over
    /// nothing else: past pieces that were acknowledged before and are not marked to be sent again, or that a block
    /// before named, it searches among ranges of them. Streams that fall to their low mark are gathered. Answers the last
    /// index that is acknowledged for the first time.
    pub fn acknowledge_blocks(
        &mut self,
        rto: &mut RtoManager,
        streams: &mut Streams,
        fallen: &mut Fallen,
        blocks: &List<GapAckBlock>,
        now: Instant,
    ) -> Option<usize>
        ensures newest { result ≡ last_new (λ j. is_named (j + 1) blocks.now) 0 self.old.queue.in_flight }
        ensures exact { with_blocks now blocks.now (self.old, rto.old, streams.old) ≡ (self.new, rto.new, streams.new) }
        ensures gathers { Gathers streams.old fallen.old streams.new fallen.new }
    {
        let next_tsn = self.queue.next_tsn();
        let mut newest = None;
        for block in blocks.as_slice() {
            let other = self.acknowledge_block(rto, streams, fallen, block, next_tsn, now);
            newest = greatest_of(newest, other);
        }
        newest
    }

    // Takes in one block. The cumulative TSN ack is the TSN before the first one in flight, so the piece at index j is
    // at the offset j + 1. Under loss each SACK names again what the ones before it named, until the gap is filled: of
    // those pieces nothing changes, and only the others, which the queue finds, are acknowledged.
    fn acknowledge_block(
        &mut self,
        rto: &mut RtoManager,
        streams: &mut Streams,
        fallen: &mut Fallen,
        block: &GapAckBlock,
        next_tsn: u32,
        now: Instant,
    ) -> Option<usize>
        ensures newest { result ≡ last_new (is_named_by block.now) 0 self.old.queue.in_flight }
        ensures pieces { self.new ≡ with_measure self.old
            (acked_among (is_named_by block.now) 0 self.old.queue.in_flight) self.new.min_tsn2measure_rtt }
        ensures released { streams.new ≡
            released_among (is_named_by block.now) 0 self.old.queue.in_flight streams.old }
        ensures measures { (self.new.min_tsn2measure_rtt, rto.new) ≡ timed next_tsn
            (block_trips now block.now self.old.queue.in_flight) (self.old.min_tsn2measure_rtt, rto.old) }
        ensures gathers { Gathers streams.old fallen.old streams.new fallen.new }
    {
        let first = usize::from(block.start).saturating_sub(1);
        let count = usize::from(block.end).min(self.queue.inflight_len());
        let mut newest = None;
        let mut index = self.queue.skip_acknowledged(first, count);
        'pieces: while index < count {
            let other = self.acknowledge_at(rto, streams, fallen, index, next_tsn, now);
            newest = greatest_of(newest, other);
            index = self.queue.skip_acknowledged(index + 1, count);
        }
        newest
    }

    // The piece at an index came, if there is one: it is marked, its outstanding bytes are released, and where it was
    // sent once its round trip is measured.
    fn acknowledge_at(
        &mut self,
        rto: &mut RtoManager,
        streams: &mut Streams,
        fallen: &mut Fallen,
        index: usize,
        next_tsn: u32,
        now: Instant,
    ) -> Option<usize>
        requires { index < 65536 }
        ensures newest { result ≡ last_new (λ j. j == index) 0 self.old.queue.in_flight }
        ensures pieces { self.new ≡ with_measure self.old
            (acked_among (λ j. j == index) 0 self.old.queue.in_flight) self.new.min_tsn2measure_rtt }
        ensures measures { (self.new.min_tsn2measure_rtt, rto.new) ≡ timed next_tsn
            (trip_of now (slice_get self.old.queue.in_flight index)) (self.old.min_tsn2measure_rtt, rto.old) }
        ensures released { streams.new ≡
            released_among (λ j. j == index) 0 self.old.queue.in_flight streams.old }
        ensures gathers { Gathers streams.old fallen.old streams.new fallen.new }
    {
        let tsn = self.queue.first_tsn().wrapping_add(index as u32);
        if let Some(piece) = self.queue.get(index) {
            let newest = place_if_new(piece, index);
            measure(&mut self.min_tsn2measure_rtt, rto, piece, next_tsn, now);
            release(streams, fallen, piece);
            self.queue.mark_as_acked(tsn);
            return newest;
        }
        None
    }
}

// Takes the round trip of a piece that is outstanding and was sent once; the next measurement begins with what is sent
// from now on.
fn measure(first: &mut u32, rto: &mut RtoManager, piece: &InFlight, next_tsn: u32, now: Instant)
    ensures { (first.new, rto.new) ≡ timed next_tsn (trip_of now (Some piece.now)) (first.old, rto.old) }
{
    if piece.is_outstanding() && piece.sent_count == 1 {
        rto.set_new_rtt(now.millis_since(piece.since));
        *first = next_tsn;
    }
}

// Behind the cumulative TSN ack the first so many hold all that the blocks name.
pub(crate) fn reach(blocks: &List<GapAckBlock>) -> usize
    ensures { result ≡ reach_of blocks.now }
{
    blocks
        .as_slice()
        .iter()
        .fold(0, |reach, block| reach.max(usize::from(block.end)))
}

fn name_unsent(blocks: &List<GapAckBlock>, count: u32, in_flight: usize) -> bool
    ensures { result ≡ name_unsent count in_flight blocks.now }
{
    blocks
        .as_slice()
        .iter()
        .any(|block| is_unsent(block, count, in_flight))
}

// Offsets count from the SACK's cumulative TSN ack, up to which so many TSNs are in flight, of `in_flight` in all.
fn is_unsent(block: &GapAckBlock, count: u32, in_flight: usize) -> bool
    ensures { result ≡ is_unsent_in count in_flight block.now }
{
    let past = u64::from(count);
    let first = past + u64::from(block.start);
    let last = past + u64::from(block.end);
    block.start <= block.end && (last > in_flight as u64 || first == 0)
}
