// What a SACK acknowledges that was not acknowledged before.
ghost use Rattle.std.specs.Prelude.{◌≡◌, ◌+◌, ◌-◌, position, true, Some};
ghost use Rattle.sctp_received.specs.Received.{is_named};
ghost use Rattle.sctp_outbound_queue.specs.Message.{is_outstanding};
ghost use Rattle.sctp_outbound.specs.GapAcks.{is_named_by};
ghost use Rattle.sctp_outbound.specs.Progress.{acknowledges_at, greatest_of, if_new, is_new};

use crate::sender::Sender;
use sctp_outbound_queue::InFlight;
use sctp_wire_types::{GapAckBlock, List};

/// What a SACK acknowledges that was not acknowledged before.
#[derive(Clone, Copy, Debug, PartialEq, Eq)]
pub struct Progress {
    /// A TSN is acknowledged for the first time.
    pub any_new: bool,
    /// The first outstanding TSN is acknowledged.
    pub earliest: bool,
}

impl Sender {
    // Whether a SACK acknowledges the first outstanding piece, by its cumulative TSN ack, up to which so many are in
    // flight, or by a block.
    pub(crate) fn names_earliest(&mut self, count: u32, blocks: &List<GapAckBlock>) -> bool
        ensures same { self.new ≡ self.old }
        ensures names { result ≡
            acknowledges_at count blocks.now (position is_outstanding self.old.queue.in_flight) }
    {
        match self.queue.first_outstanding() {
            Some(index) => is_named(blocks, index, count as usize),
            None => false,
        }
    }
}

fn is_named(blocks: &List<GapAckBlock>, index: usize, count: usize) -> bool
    ensures { result ≡ acknowledges_at count blocks.now (Some index) }
{
    if index < count {
        return true;
    }
    any_names(blocks, index - count)
}

fn any_names(blocks: &List<GapAckBlock>, index: usize) -> bool
    ensures { result ≡ is_named (index + 1) blocks.now }
{
    blocks.as_slice().iter().any(|block| names(block, index))
}

// Whether a block names the piece at an index behind the cumulative TSN ack, counted from 0.
fn names(block: &GapAckBlock, index: usize) -> bool
    ensures { result ≡ is_named_by block.now index }
{
    usize::from(block.start).saturating_sub(1) <= index && index < usize::from(block.end)
}

// Whether a piece was sent and no SACK acknowledged it.
pub(crate) fn is_new(piece: &InFlight) -> bool
    ensures { result ≡ is_new piece.now }
{
    !piece.acked && piece.sent_count > 0
}

// The index of a piece where it is new.
pub(crate) fn place_if_new(piece: &InFlight, index: usize) -> Option<usize>
    ensures { result ≡ if_new true index piece.now }
{
    if is_new(piece) { Some(index) } else { None }
}

// The greater index of two.
pub(crate) fn greatest_of(a: Option<usize>, b: Option<usize>) -> Option<usize>
    ensures { result ≡ greatest_of a b }
{
    match (a, b) {
        (Some(a), Some(b)) => Some(a.max(b)),
        (Some(a), None) => Some(a),
        (None, b) => b,
    }
}
