// DATA (RFC 4960 section 3.3.1).
ghost use Rattle.std.specs.Prelude.{◌≡◌, ◌<◌, ◌≤◌, ◌^◌, OnOk, length};
ghost use Rattle.sctp_wire.specs.Results.{Yields, Appends};
ghost use Rattle.std.specs.Int.{w16, w32, to_be_bytes};
ghost use Rattle.sctp_wire.specs.Numbers.{bit, IsU16, IsU32};
ghost use Rattle.sctp_wire.specs.Frames.{framed, padded, frame_fits};
ghost use Rattle.sctp_wire.specs.PayloadData.{data_header, payload_data_of, payload_data_flags, payload_data_value};
ghost use Rattle.sctp_wire.specs.PayloadData.{IsPayloadData};

use crate::error::WireError;
use crate::frame::{MAX_VALUE, put_padding};
use crate::number::{read_u16, read_u32};
use bytes::Bytes;
use sctp_wire_types::{ChunkPayloadData, Fault, PayloadProtocolIdentifier};
use std::marker::Model;

/// A DATA chunk that borrows its payload (RFC 4960 section 3.3.1), so that writing it adds no owner of those bytes.
#[derive(Debug, Drop)]
pub struct DataRef<'a> {
    pub unordered: bool,
    pub beginning_fragment: bool,
    pub ending_fragment: bool,
    /// The receiver is asked to acknowledge at once (RFC 7053).
    pub immediate_sack: bool,
    pub tsn: u32,
    pub stream_identifier: u16,
    pub stream_sequence_number: u16,
    pub payload_type: PayloadProtocolIdentifier,
    pub user_data: &'a Bytes,
}

impl<'a> Model for DataRef<'a> {
    ghost use Rattle.sctp_wire_types.specs.declared.chunk.ChunkPayloadData.{ChunkPayloadData};

    ghost Value = { ChunkPayloadData };

    ghost view = { λ d. record {
      unordered = d.unordered;
      beginning_fragment = d.beginning_fragment;
      ending_fragment = d.ending_fragment;
      immediate_sack = d.immediate_sack;
      tsn = d.tsn;
      stream_identifier = d.stream_identifier;
      stream_sequence_number = d.stream_sequence_number;
      payload_type = d.payload_type;
      user_data = d.user_data.now;
    } };
}

impl<'a> DataRef<'a> {
    /// A chunk that owns its payload, as one that borrows it.
    #[inline(always)]
    pub(crate) fn of(piece: &'a ChunkPayloadData) -> DataRef<'a>
        ensures { result ≡ piece.now }
    {
        DataRef {
            unordered: piece.unordered,
            beginning_fragment: piece.beginning_fragment,
            ending_fragment: piece.ending_fragment,
            immediate_sack: piece.immediate_sack,
            tsn: piece.tsn,
            stream_identifier: piece.stream_identifier,
            stream_sequence_number: piece.stream_sequence_number,
            payload_type: piece.payload_type,
            user_data: &piece.user_data,
        }
    }

    pub(crate) fn payload_len(&self) -> usize
        ensures value { result ≡ length self.now.user_data }
        ensures bound { result < 2 ^ 63 }
    {
        self.user_data.len()
    }

    fn payload(&self) -> &[u8]
        ensures { result.now ≡ self.now.user_data }
    {
        self.user_data.as_slice()
    }
}

#[tactic(auto, unfolding(crate::specs::PayloadData::payload_data_of))]
pub(crate) fn read_payload_data(flags: u16, value: Bytes) -> Result<ChunkPayloadData, WireError>
    ensures { Yields result (payload_data_of flags value) }
{
    let mut user_data = value;
    if user_data.len() < 12 {
        return Err(WireError::Malformed(Fault::Short));
    }
    let fields = user_data.as_slice();
    let tsn = read_u32(fields, 0);
    let stream_identifier = read_u16(fields, 4);
    let stream_sequence_number = read_u16(fields, 6);
    let payload_type = PayloadProtocolIdentifier::from_number(read_u32(fields, 8));
    user_data.advance(12);
    Ok(ChunkPayloadData {
        unordered: flags / 4 % 2 == 1,
        beginning_fragment: flags / 2 % 2 == 1,
        ending_fragment: flags % 2 == 1,
        immediate_sack: flags / 8 % 2 == 1,
        tsn,
        stream_identifier,
        stream_sequence_number,
        payload_type,
        user_data,
    })
}

fn bit_of(set: bool, weight: u16) -> u16
    ensures exact { result ≡ bit set weight }
    ensures most { result ≤ weight }
{
    if set { weight } else { 0 }
}

fn flags_of(piece: &DataRef) -> u16
    ensures { result ≡ payload_data_flags piece.now }
{
    bit_of(piece.ending_fragment, 1)
        + bit_of(piece.beginning_fragment, 2)
        + bit_of(piece.unordered, 4)
        + bit_of(piece.immediate_sack, 8)
}

fn bytes_of_u16(number: u16) -> [u8; 2]
    ensures bytes { result ≡ to_be_bytes w16 number }
    ensures range { IsU16 number }
{
    number.to_be_bytes()
}

fn bytes_of_u32(number: u32) -> [u8; 4]
    ensures bytes { result ≡ to_be_bytes w32 number }
    ensures range { IsU32 number }
{
    number.to_be_bytes()
}

// All that stands before the payload, of a chunk whose value has `len` bytes: one array, so that it is written at once.
fn header_of(piece: &DataRef, len: usize) -> [u8; 16]
    requires { len < 65532 }
    ensures bytes { result ≡ data_header piece.now len }
    ensures range { IsPayloadData piece.now }
{
    let head = bytes_of_u16(flags_of(piece));
    let length = bytes_of_u16((4 + len) as u16);
    let tsn = bytes_of_u32(piece.tsn);
    let stream = bytes_of_u16(piece.stream_identifier);
    let number = bytes_of_u16(piece.stream_sequence_number);
    let kind = bytes_of_u32(piece.payload_type.number());
    [
        head[0], head[1], length[0], length[1], tsn[0], tsn[1], tsn[2], tsn[3], stream[0],
        stream[1], number[0], number[1], kind[0], kind[1], kind[2], kind[3],
    ]
}

// The payload goes straight into the output. Each DATA chunk is written here, so this function is put into its callers.
#[inline(always)]
pub(crate) fn put_payload_data(out: &mut Vec<u8>, piece: &DataRef) -> Result<(), WireError>
    ensures bytes { Appends result (frame_fits (framed (payload_data_flags piece.now) (payload_data_value piece.now)))
        out.old.items out.new.items (padded (framed (payload_data_flags piece.now) (payload_data_value piece.now))) }
    ensures range { OnOk result (IsPayloadData piece.now) }
{
    let len = 12 + piece.payload_len();
    if len > MAX_VALUE {
        return Err(WireError::Malformed(Fault::Long));
    }
    out.extend_from_slice(&header_of(piece, len))?;
    out.extend_from_slice(piece.payload())?;
    put_padding(out, len)?;
    Ok(())
}
