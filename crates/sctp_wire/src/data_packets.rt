// Packets of DATA, written straight into their buffers.
ghost use Rattle.std.specs.Prelude.{[], ◌≡◌, ◌≤◌, ◌++◌, ◌==◌, IfOk, OnErr, OnOk, length, nat_lt, not, true};
ghost use Rattle.sctp_wire.specs.Chunks.{chunk_bytes};
ghost use Rattle.sctp_wire.specs.Packets.{IsHeader};
ghost use Rattle.sctp_wire.specs.PayloadData.{IsPayloadData};
ghost use Rattle.sctp_wire.specs.DataPackets.{begun, closed, data_fits, has_room, joined_by, nothing_written, started};
ghost use Rattle.sctp_wire.specs.DataPackets.{IsReadBack, datagrams_of, summed, with_data};
ghost use Rattle.std.specs.List.{AllByRecursion};
ghost use Rattle.sctp_wire_types.specs.declared.chunk.Chunk.TheVariants as chunks;

use crate::chunk::{DataRef, put_payload_data};
use crate::frame::MAX_VALUE;
use crate::number::{put_u16, put_u32};
use crate::written::set_sum;
use bytes::Bytes;
use sctp_crc::packet_sum;
use sctp_wire_types::{ChunkPayloadData, CommonHeader};
use std::alloc::{AllocError, Global};
use std::marker::Model;
use std::mem;

/// Bytes of the common header of a packet (RFC 4960 section 3.1).
const COMMON_HEADER: usize = 12;

/// Packets that carry DATA and nothing else. Each is written straight into a buffer of its own; one of two chunks or
/// more is at most `mtu` bytes long (RFC 4960 section 6.10).
#[derive(Debug, Drop)]
pub struct DataPackets {
    alloc: Global,
    header: CommonHeader,
    mtu: u32,
    // Bytes of the buffer in which a packet is begun.
    room: usize,
    // The packets that are written.
    done: Vec<Bytes>,
    // The packet that is being written, with zeros for its checksum; nothing as long as it has no DATA.
    current: Vec<u8>,
}

impl Model for DataPackets {
    ghost use Rattle.std.specs.Prelude.{map};
    ghost use Rattle.std.specs.List.{AllByRecursion};
    ghost use Rattle.sctp_wire.specs.DataPackets.{DataWritten, IsBeingWritten, IsDone, data_in};

    ghost Value = { DataWritten };

    ghost view = { λ w. record {
      header = w.header;
      mtu = w.mtu;
      done = map data_in w.done.items;
      current = data_in w.current.items;
    } };

    ghost invariant = { λ w. IsBeingWritten w.header w.current.items × AllByRecursion (IsDone w.header) w.done.items };
}

impl DataPackets {
    /// No packet yet. Takes no memory. So many bytes of DATA wait: where they are few, the buffer of a packet is small.
    pub fn new(alloc: Global, header: CommonHeader, mtu: u32, waiting: u64) -> Self
        ensures { result ≡ nothing_written header mtu }
    {
        DataPackets {
            alloc,
            header,
            mtu,
            room: room_for(waiting, mtu),
            done: Vec::new(alloc),
            current: Vec::new(alloc),
        }
    }

    /// Adds DATA behind the last one, in the same packet where it has room, and else as the first of the next packet.
    /// DATA that is longer than its length field can say is left out.
    pub fn add(&mut self, piece: &ChunkPayloadData) -> Result<(), AllocError>
        ensures { OnOk result (self.new ≡ with_data self.old piece.now) }
    {
        self.add_borrowed(&DataRef::of(piece))
    }

    /// Adds DATA that borrows its payload, as `add` does.
    pub fn add_borrowed(&mut self, piece: &DataRef) -> Result<(), AllocError>
        ensures { OnOk result (self.new ≡ with_data self.old piece.now) }
    {
        if piece.payload_len() + 12 > MAX_VALUE {
            return Ok(());
        }
        if !self.has_room(piece) {
            self.close()?;
        }
        self.put(piece)
    }

    // Whether the packet that is being written has room for this DATA.
    fn has_room(&self, piece: &DataRef) -> bool
        requires { length piece.now.user_data ≤ 65519 }
        ensures { result ≡ has_room self.now piece.now }
    {
        let length = (piece.payload_len() + 19) / 4 * 4;
        self.current.len().max(COMMON_HEADER) + length <= self.mtu as usize
    }

    /// Ends the packet that is being written; the next DATA begins a new one. It lacks memory only where a packet is
    /// being written.
    // It is put into its callers, some of which call it where most often no packet is being written.
    #[inline(always)]
    pub fn close(&mut self) -> Result<(), AllocError>
        ensures exact { OnOk result (self.new ≡ closed self.old) }
        ensures grows { OnErr result (nat_lt 0 (length self.old.current) ≡ true) }
    {
        if self.current.is_empty() {
            return Ok(());
        }
        let current = mem::replace(&mut self.current, Vec::new(self.alloc));
        self.done.push(datagram(current)?)?;
        Ok(())
    }

    // Writes DATA into the packet that is being written.
    fn put(&mut self, piece: &DataRef) -> Result<(), AllocError>
        requires { data_fits piece.now ≡ true }
        ensures { OnOk result (self.new ≡ joined_by self.old piece.now) }
    {
        let written = mem::replace(&mut self.current, Vec::new(self.alloc));
        let mut current = begun(self.alloc, &self.header, self.room, written)?;
        put_data(&mut current, piece)?;
        self.current = current;
        Ok(())
    }

    /// The packets, as datagrams. It lacks memory only where a packet is being written.
    pub fn finish(mut self) -> Result<Vec<Bytes>, AllocError>
        ensures packets { IfOk result (λ packets. packets.items ≡ datagrams_of self.header (closed self).done) }
        ensures again { OnOk result (AllByRecursion (IsReadBack self.header) (closed self).done) }
        ensures grows { OnErr result (nat_lt 0 (length self.current) ≡ true) }
    {
        self.close()?;
        Ok(mem::replace(&mut self.done, Vec::new(self.alloc)))
    }
}

// The bytes of a buffer for so many bytes of DATA, in messages of 16 bytes or more, at most those of a packet.
fn room_for(waiting: u64, mtu: u32) -> usize {
    let length = waiting.saturating_mul(2).saturating_add(32);
    length.min(u64::from(mtu)) as usize
}

// What is being written already, or else the common header.
fn begun(
    alloc: Global,
    header: &CommonHeader,
    room: usize,
    written: Vec<u8>,
) -> Result<Vec<u8>, AllocError>
    ensures bytes { IfOk result (λ bytes. bytes.items ≡ begun header.now written.items) }
    ensures range { OnOk result (written.items ≡ [] → IsHeader header.now) }
{
    if written.is_empty() {
        started(alloc, header, room)
    } else {
        Ok(written)
    }
}

// The common header of a packet, with zeros for its checksum, in a buffer of `room` bytes.
fn started(alloc: Global, header: &CommonHeader, room: usize) -> Result<Vec<u8>, AllocError>
    ensures bytes { IfOk result (λ bytes. bytes.items ≡ started header.now) }
    ensures range { OnOk result (IsHeader header.now) }
{
    let mut out = Vec::with_capacity(alloc, room)?;
    put_u16(&mut out, header.source_port)?;
    put_u16(&mut out, header.destination_port)?;
    put_u32(&mut out, header.verification_tag)?;
    put_u32(&mut out, 0)?;
    Ok(out)
}

fn put_data(out: &mut Vec<u8>, piece: &DataRef) -> Result<(), AllocError>
    requires { data_fits piece.now ≡ true }
    ensures bytes { OnOk result (out.new.items ≡ out.old.items ++ chunk_bytes (chunks.Data piece.now)) }
    ensures range { OnOk result (IsPayloadData piece.now) }
{
    match put_payload_data(out, piece) {
        Ok(()) => Ok(()),
        Err(_) => Err(AllocError),
    }
}

// The datagram of a packet.
fn datagram(bytes: Vec<u8>) -> Result<Bytes, AllocError>
    requires { 12 ≤ length bytes.items }
    ensures { IfOk result (λ datagram. datagram ≡ summed bytes.items) }
{
    let mut out = bytes;
    let sum = packet_sum(out.as_slice());
    set_sum(out.as_mut_slice(), sum);
    Ok(Bytes::from_vec(out)?)
}
