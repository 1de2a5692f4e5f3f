// A message as a reader gets it.
ghost use Rattle.std.specs.Prelude.{◌≡◌, ◌==◌, ◌++◌, length, OnErr, OnOk, IfOk, IfSome, Some, slice_get, ◌<◌};
ghost use Rattle.std.specs.Prelude.{◌≤◌, drop};
ghost use Rattle.std.specs.List.{concat};
ghost use Rattle.sctp_receive_queues.specs.Messages.{bytes_left, filled, first_cut, behind_cut, front_bytes};
ghost use Rattle.sctp_receive_queues.specs.Messages.{is_blank, message_of, IsCut};
ghost use Rattle.sctp_receive_queues.specs.Pieces.{bytes_of};

use crate::row::Row;
use bytes::Bytes;
use sctp_wire_types::{ChunkPayloadData, Error, PayloadProtocolIdentifier};
use std::marker::Model;

/// A complete message, as `Stream::read` gives it: its payload type and its bytes, in the pieces that brought them.
/// `next` takes the bytes out, from the front.
#[derive(Debug, Drop)]
pub struct Chunks {
    /// The message's payload type.
    pub ppi: PayloadProtocolIdentifier,
    pieces: Row,
    bytes: u64,
}

impl Model for Chunks {
    ghost use Rattle.std.specs.Prelude.{◌≡◌, length};
    ghost use Rattle.std.specs.List.{concat};
    ghost use Rattle.sctp_receive_queues.specs.Messages.{ReceivedMessage, filled};

    ghost Value = { ReceivedMessage };

    ghost view = { λ c. record { payload_type = c.ppi; pieces = filled c.pieces } };

    ghost invariant = { λ c. c.bytes ≡ length (concat (filled c.pieces)) };
}

impl Chunks {
    // The message that these pieces make up.
    pub(crate) fn of_pieces(pieces: Row, bytes: u64) -> Chunks
        requires { bytes ≡ bytes_of pieces }
        ensures { result ≡ message_of pieces }
    {
        let ppi = match pieces.front() {
            Some(first) => first.payload_type,
            None => PayloadProtocolIdentifier::Unknown,
        };
        Chunks { ppi, pieces, bytes }
    }

    /// The message's payload type.
    pub fn payload_type(&self) -> PayloadProtocolIdentifier
        ensures { result ≡ self.now.payload_type }
    {
        self.ppi
    }

    /// How many bytes were not taken out yet.
    pub fn len(&self) -> usize
        ensures { result ≡ length (bytes_left self.now) }
    {
        self.bytes as usize
    }

    /// Whether all bytes were taken out.
    pub fn is_empty(&self) -> bool
        ensures { result ≡ (length (bytes_left self.now) == 0) }
    {
        self.bytes == 0
    }

    /// Takes out the next cut: the first `max` bytes of the first piece that has bytes left, or all of them where there
    /// are fewer, and never bytes of two pieces. The bytes are shared with the datagram and not copied. None at the
    /// end, or for a `max` of 0. The only error is `ErrNoMemory`, and nothing is taken out then.
    pub fn next(&mut self, max: usize) -> Result<Option<Bytes>, Error>
        ensures cut { IfOk result (λ cut. IsCut max self.old self.new cut) }
        ensures some { IfOk result (λ cut. IfSome cut (λ bytes. 0 < length bytes)) }
        ensures in_order { IfOk result
            (λ cut. IfSome cut (λ bytes. bytes_left self.old ≡ bytes ++ bytes_left self.new)) }
        ensures refused { OnErr result (result ≡ Err Error.ErrNoMemory) }
        ensures unchanged { OnErr result (self.new ≡ self.old) }
    {
        if max == 0 || self.bytes == 0 {
            return Ok(None);
        }
        let cut = cut_next(&mut self.pieces, max)?;
        self.bytes = self.bytes.saturating_sub(cut.len() as u64);
        Ok(Some(cut))
    }

    /// Copies all bytes that are left to the front of the buffer, which has to be long enough for them. Nothing is
    /// taken out, and no memory is needed.
    #[tactic(auto, using(crate::proofs::Cuts::bytes_of_pieces))]
    pub fn copy_to(&self, buffer: &mut [u8])
        requires { length (bytes_left self.now) ≤ length buffer.old }
        ensures { buffer.new ≡ bytes_left self.now ++ drop (length (bytes_left self.now)) buffer.old }
    {
        self.pieces.copy_to(buffer);
    }
}

// Takes the first `max` bytes of the first piece that has any, or all of its bytes where it has fewer.
fn cut_next(pieces: &mut Row, max: usize) -> Result<Bytes, Error>
    requires max { 0 < max }
    requires some { 0 < length (concat (filled pieces.old)) }
    ensures cut { IfOk result (λ cut. first_cut max (filled pieces.old) ≡ Some cut) }
    ensures left { OnOk result (filled pieces.new ≡ behind_cut max (filled pieces.old)) }
    ensures some { IfOk result (λ cut. 0 < length cut) }
    ensures refused { OnErr result (result ≡ Err Error.ErrNoMemory) }
    ensures unchanged { OnErr result (filled pieces.new ≡ filled pieces.old) }
{
    drop_empty(pieces);
    pieces.cut_front(max)
}

// Drops pieces without bytes in front.
fn drop_empty(pieces: &mut Row)
    ensures same { filled pieces.new ≡ filled pieces.old }
    ensures first { 0 < length (concat (filled pieces.old)) → 0 < length (front_bytes pieces.new) }
{
    while is_front_empty(pieces) {
        pieces.pop_front();
    }
}

fn is_front_empty(pieces: &Row) -> bool
    ensures { result ≡ is_blank (slice_get pieces.now 0) }
{
    match pieces.front() {
        Some(first) => first.user_data.is_empty(),
        None => false,
    }
}
