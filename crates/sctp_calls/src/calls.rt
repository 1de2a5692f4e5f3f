// Each call of an association, and of its live streams, with its answer as a `Reply`.
ghost use Rattle.std.specs.Prelude.{◌≡◌, ◌<◌, ◌++◌, ℕ, length, take, IfOk, None, OnErr, OnOk, Some};
ghost use Rattle.sctp_wire.specs.Packets.{finished};
ghost use Rattle.sctp_assoc.specs.Inbound.{taken_packet};
ghost use Rattle.sctp_assoc.specs.Gather.{bytes_within};
ghost use Rattle.sctp_assoc.specs.Replies.{Buffers, ClosesStream, Expires, Finds, GivesOut, Opens, Reads};
ghost use Rattle.sctp_assoc.specs.Replies.{AcceptsStream, ClosesOne, Keeps, Limits, Lists, Sets};
ghost use Rattle.sctp_assoc.specs.Replies.{ShowsOrRefuses, TakesIn};
ghost use Rattle.sctp_assoc.specs.Replies.{TakesPacket};
ghost use Rattle.sctp_assoc.specs.Replies.{PollsEndpointEvent, PollsEvent, ShutsDown, Stops, Writes, WritesFirst};
ghost use Rattle.sctp_assoc.specs.Calls.{RefusesOrLacksMemory, first_filled, is_writable, open_refusal, opened};
ghost use Rattle.sctp_assoc.specs.Calls.{refusal_to_write, written};
ghost use Rattle.sctp_assoc.specs.declared.call.Reply.TheVariants as replies;
ghost use Rattle.sctp_streams.specs.declared.setting.Setting.TheVariants as settings;
ghost use Rattle.sctp_streams.specs.Stream.{is_read_half_open, params_of};

use bytes::Bytes;
use sctp_assoc::{
    Association, AssociationEvent, Error, Instant, PartialDecode, Payload,
    PayloadProtocolIdentifier, ReliabilityType, Reply, StreamId, Transmit,
};
use std::alloc::AllocError;
use std::net::SocketAddr;

/// `Association::open_stream`; nobody borrows the stream then.
pub fn open_stream(
    association: &mut Association,
    id: StreamId,
    payload_type: PayloadProtocolIdentifier,
) -> Reply
    ensures { Opens association.old id payload_type result association.new }
{
    match make_stream(association, id, payload_type) {
        Ok(()) => Reply::Done,
        Err(error) => Reply::Refused(error.number()),
    }
}

// Opens a stream that nobody borrows then.
fn make_stream(
    association: &mut Association,
    id: StreamId,
    payload_type: PayloadProtocolIdentifier,
) -> Result<(), Error>
    ensures refused { RefusesOrLacksMemory result (open_refusal association.old id) }
    ensures ok { OnOk result (association.new ≡ opened association.old id payload_type) }
    ensures err { OnErr result (association.new ≡ association.old) }
{
    match association.open_stream(id, payload_type) {
        Ok(_) => Ok(()),
        Err(error) => Err(error),
    }
}

/// `Association::stream`: whether such a stream is live.
pub fn find_stream(association: &mut Association, id: StreamId) -> Reply
    ensures { Finds association.old id result association.new }
{
    match association.stream(id) {
        Ok(_) => Reply::Done,
        Err(error) => Reply::Refused(error.number()),
    }
}

/// `Association::accept_stream`.
pub fn accept_stream(association: &mut Association) -> Reply
    ensures { AcceptsStream association.old result association.new }
{
    match association.accept_stream() {
        Some(stream) => Reply::Accepted(Some(stream.stream_identifier())),
        None => Reply::Accepted(None),
    }
}

/// `Association::set_max_send_message_size`, in bytes.
pub fn set_max_send_message_size(association: &mut Association, size: u32) -> Reply
    ensures { Limits association.old size result association.new }
{
    association.set_max_send_message_size(size);
    Reply::Done
}

/// `Association::stream_ids`.
pub fn stream_ids(association: &mut Association) -> Reply
    ensures { Lists association.old result association.new }
{
    match association.stream_ids() {
        Ok(ids) => Reply::StreamIds(ids),
        Err(error) => Reply::Refused(error.number()),
    }
}

/// `Association::shutdown`.
pub fn shutdown(association: &mut Association) -> Reply
    ensures { ShutsDown association.old result association.new }
{
    match association.shutdown() {
        Ok(()) => Reply::Done,
        Err(error) => Reply::Refused(error.number()),
    }
}

/// `Association::close`.
pub fn close(association: &mut Association) -> Reply
    ensures { ClosesOne association.old result association.new }
{
    match association.close() {
        Ok(()) => Reply::Done,
        Err(error) => Reply::Refused(error.number()),
    }
}

/// `Stream::write`.
pub fn write(association: &mut Association, id: StreamId, bytes: &Bytes) -> Reply
    ensures { Writes association.old id None bytes.now result association.new }
{
    match write_copied(association, id, None, bytes) {
        Ok(count) => Reply::Wrote(count),
        Err(error) => Reply::Refused(error.number()),
    }
}

/// `Stream::write_with_ppi`.
pub fn write_with_ppi(
    association: &mut Association,
    id: StreamId,
    bytes: &Bytes,
    ppi: PayloadProtocolIdentifier,
) -> Reply
    ensures { Writes association.old id (Some ppi) bytes.now result association.new }
{
    match write_copied(association, id, Some(ppi), bytes) {
        Ok(count) => Reply::Wrote(count),
        Err(error) => Reply::Refused(error.number()),
    }
}

fn write_copied(
    association: &mut Association,
    id: StreamId,
    ppi: Option<PayloadProtocolIdentifier>,
    bytes: &Bytes,
) -> Result<usize, Error>
    ensures refused { RefusesOrLacksMemory result (refusal_to_write association.old id (length bytes.now)) }
    ensures ok { IfOk result (λ n. n ≡ length bytes.now) }
    ensures accepted { OnOk result (association.new ≡ written association.old id ppi bytes.now) }
    ensures err { OnErr result (association.new ≡ association.old) }
{
    let mut stream = association.stream(id)?;
    match ppi {
        None => stream.write(bytes.as_slice()),
        Some(ppi) => stream.write_with_ppi(bytes.as_slice(), ppi),
    }
}

/// `Stream::write_sctp`.
pub fn write_sctp(
    association: &mut Association,
    id: StreamId,
    bytes: &Bytes,
    ppi: PayloadProtocolIdentifier,
) -> Reply
    ensures { Writes association.old id (Some ppi) bytes.now result association.new }
{
    match association.stream(id) {
        Ok(mut stream) => match stream.write_sctp(bytes, ppi) {
            Ok(count) => Reply::Wrote(count),
            Err(error) => Reply::Refused(error.number()),
        },
        Err(error) => Reply::Refused(error.number()),
    }
}

/// `Stream::write_chunk`.
pub fn write_chunk(association: &mut Association, id: StreamId, bytes: &Bytes) -> Reply
    ensures { Writes association.old id None bytes.now result association.new }
{
    match association.stream(id) {
        Ok(mut stream) => match stream.write_chunk(bytes) {
            Ok(count) => Reply::Wrote(count),
            Err(error) => Reply::Refused(error.number()),
        },
        Err(error) => Reply::Refused(error.number()),
    }
}

/// `Stream::write_chunks`, of clones of the buffers; it is refused, too, where these find no memory.
pub fn write_chunks(association: &mut Association, id: StreamId, chunks: &Vec<Bytes>) -> Reply
    ensures { WritesFirst association.old id chunks.now.items result association.new }
{
    match copied(chunks) {
        Ok(mut buffers) => write_first(association, id, buffers.as_mut_slice()),
        Err(_) => Reply::Refused(Error::ErrNoMemory.number()),
    }
}

fn copied(chunks: &Vec<Bytes>) -> Result<Vec<Bytes>, AllocError>
    ensures { IfOk result (λ copy. copy.items ≡ chunks.now.items) }
{
    chunks.clone()
}

fn write_first(association: &mut Association, id: StreamId, buffers: &mut [Bytes]) -> Reply
    ensures { Writes association.old id None (first_filled buffers.old) result association.new }
{
    match association.stream(id) {
        Ok(mut stream) => match stream.write_chunks(buffers) {
            Ok(count) => Reply::Wrote(count),
            Err(error) => Reply::Refused(error.number()),
        },
        Err(error) => Reply::Refused(error.number()),
    }
}

/// `Stream::finish`.
pub fn finish(association: &mut Association, id: StreamId) -> Reply
    ensures { Sets association.old id settings.WriteHalfClosed result association.new }
{
    match association.stream(id) {
        Ok(mut stream) => match stream.finish() {
            Ok(()) => Reply::Done,
            Err(error) => Reply::Refused(error.number()),
        },
        Err(error) => Reply::Refused(error.number()),
    }
}

/// `Stream::stop`.
pub fn stop(association: &mut Association, id: StreamId) -> Reply
    ensures { Stops association.old id result association.new }
{
    match association.stream(id) {
        Ok(mut stream) => match stream.stop() {
            Ok(()) => Reply::Done,
            Err(error) => Reply::Refused(error.number()),
        },
        Err(error) => Reply::Refused(error.number()),
    }
}

/// `Stream::close`.
pub fn close_stream(association: &mut Association, id: StreamId) -> Reply
    ensures { ClosesStream association.old id result association.new }
{
    match association.stream(id) {
        Ok(mut stream) => match stream.close() {
            Ok(()) => Reply::Done,
            Err(error) => Reply::Refused(error.number()),
        },
        Err(error) => Reply::Refused(error.number()),
    }
}

/// `Stream::set_default_payload_type`.
pub fn set_default_payload_type(
    association: &mut Association,
    id: StreamId,
    kind: PayloadProtocolIdentifier,
) -> Reply
    ensures { Sets association.old id (settings.DefaultPayloadType kind) result association.new }
{
    match association.stream(id) {
        Ok(mut stream) => match stream.set_default_payload_type(kind) {
            Ok(()) => Reply::Done,
            Err(error) => Reply::Refused(error.number()),
        },
        Err(error) => Reply::Refused(error.number()),
    }
}

/// `Stream::set_reliability_params`.
pub fn set_reliability_params(
    association: &mut Association,
    id: StreamId,
    unordered: bool,
    rel_type: ReliabilityType,
    rel_val: u32,
) -> Reply
    ensures { Sets association.old id (settings.Reliability (params_of unordered rel_type rel_val)) result
        association.new }
{
    match association.stream(id) {
        Ok(mut stream) => match stream.set_reliability_params(unordered, rel_type, rel_val) {
            Ok(()) => Reply::Done,
            Err(error) => Reply::Refused(error.number()),
        },
        Err(error) => Reply::Refused(error.number()),
    }
}

/// `Stream::set_buffered_amount_low_threshold`, in bytes.
pub fn set_low_threshold(association: &mut Association, id: StreamId, th: usize) -> Reply
    ensures { Sets association.old id (settings.LowMark th) result association.new }
{
    match association.stream(id) {
        Ok(mut stream) => match stream.set_buffered_amount_low_threshold(th) {
            Ok(()) => Reply::Done,
            Err(error) => Reply::Refused(error.number()),
        },
        Err(error) => Reply::Refused(error.number()),
    }
}

/// `Stream::set_buffered_amount_high_threshold`, in bytes.
pub fn set_high_threshold(association: &mut Association, id: StreamId, th: usize) -> Reply
    ensures { Sets association.old id (settings.HighMark th) result association.new }
{
    match association.stream(id) {
        Ok(mut stream) => match stream.set_buffered_amount_high_threshold(th) {
            Ok(()) => Reply::Done,
            Err(error) => Reply::Refused(error.number()),
        },
        Err(error) => Reply::Refused(error.number()),
    }
}

/// `Stream::stats`.
pub fn stream_stats(association: &mut Association, id: StreamId) -> Reply
    ensures { ShowsOrRefuses association.old id (λ s. replies.StreamStats s.stats) result association.new }
{
    match association.stream(id) {
        Ok(stream) => match stream.stats() {
            Ok(stats) => Reply::StreamStats(stats),
            Err(error) => Reply::Refused(error.number()),
        },
        Err(error) => Reply::Refused(error.number()),
    }
}

/// `Stream::get_default_payload_type`.
pub fn default_payload_type(association: &mut Association, id: StreamId) -> Reply
    ensures { ShowsOrRefuses association.old id (λ s. replies.PayloadType s.default_payload_type)
        result association.new }
{
    match association.stream(id) {
        Ok(stream) => match stream.get_default_payload_type() {
            Ok(kind) => Reply::PayloadType(kind),
            Err(error) => Reply::Refused(error.number()),
        },
        Err(error) => Reply::Refused(error.number()),
    }
}

/// `Stream::buffered_amount_low_threshold`.
pub fn low_threshold(association: &mut Association, id: StreamId) -> Reply
    ensures { ShowsOrRefuses association.old id (λ s. replies.Threshold s.low_mark) result association.new }
{
    match association.stream(id) {
        Ok(stream) => match stream.buffered_amount_low_threshold() {
            Ok(bytes) => Reply::Threshold(bytes),
            Err(error) => Reply::Refused(error.number()),
        },
        Err(error) => Reply::Refused(error.number()),
    }
}

/// `Stream::buffered_amount_high_threshold`.
pub fn high_threshold(association: &mut Association, id: StreamId) -> Reply
    ensures { ShowsOrRefuses association.old id (λ s. replies.Threshold s.high_mark) result association.new }
{
    match association.stream(id) {
        Ok(stream) => match stream.buffered_amount_high_threshold() {
            Ok(bytes) => Reply::Threshold(bytes),
            Err(error) => Reply::Refused(error.number()),
        },
        Err(error) => Reply::Refused(error.number()),
    }
}

/// `Stream::is_readable`.
pub fn is_readable(association: &mut Association, id: StreamId) -> Reply
    ensures { ShowsOrRefuses association.old id (λ s. replies.State (is_read_half_open s.halves))
        result association.new }
{
    match association.stream(id) {
        Ok(stream) => Reply::State(stream.is_readable()),
        Err(error) => Reply::Refused(error.number()),
    }
}

/// `Stream::is_writable`.
pub fn is_writable(association: &mut Association, id: StreamId) -> Reply
    ensures { ShowsOrRefuses association.old id (λ s. replies.State (is_writable association.old id))
        result association.new }
{
    match association.stream(id) {
        Ok(stream) => Reply::State(stream.is_writable()),
        Err(error) => Reply::Refused(error.number()),
    }
}

/// `Stream::stream_identifier`.
pub fn stream_identifier(association: &mut Association, id: StreamId) -> Reply
    ensures { ShowsOrRefuses association.old id (λ s. replies.StreamIdentifier id) result association.new }
{
    match association.stream(id) {
        Ok(stream) => Reply::StreamIdentifier(stream.stream_identifier()),
        Err(error) => Reply::Refused(error.number()),
    }
}

/// `Stream::read`.
pub fn read(association: &mut Association, id: StreamId) -> Reply
    ensures { Reads association.old id result association.new }
{
    match association.stream(id) {
        Ok(mut stream) => match stream.read() {
            Ok(message) => Reply::Read(message),
            Err(error) => Reply::Refused(error.number()),
        },
        Err(error) => Reply::Refused(error.number()),
    }
}

/// `Stream::read_sctp`.
pub fn read_sctp(association: &mut Association, id: StreamId) -> Reply
    ensures { Reads association.old id result association.new }
{
    match association.stream(id) {
        Ok(mut stream) => match stream.read_sctp() {
            Ok(message) => Reply::Read(message),
            Err(error) => Reply::Refused(error.number()),
        },
        Err(error) => Reply::Refused(error.number()),
    }
}

/// `Stream::buffered_amount`.
pub fn buffered_amount(association: &mut Association, id: StreamId) -> Reply
    ensures { Buffers association.old id result association.new }
{
    match association.stream(id) {
        Ok(stream) => match stream.buffered_amount() {
            Ok(amount) => Reply::BufferedAmount(amount),
            Err(error) => Reply::Refused(error.number()),
        },
        Err(error) => Reply::Refused(error.number()),
    }
}

/// `Association::poll`.
pub fn poll(association: &mut Association) -> Reply
    ensures { PollsEvent association.old result association.new }
{
    match association.poll() {
        Ok(event) => Reply::Event(event),
        Err(error) => Reply::Refused(error.number()),
    }
}

/// `Association::poll_endpoint_event`.
pub fn poll_endpoint_event(association: &mut Association) -> Reply
    ensures { PollsEndpointEvent association.old result association.new }
{
    Reply::EndpointEvent(association.poll_endpoint_event())
}

/// `Association::handle_timeout`.
pub fn handle_timeout(association: &mut Association, now: Instant) -> Reply
    ensures { Expires association.old now result association.new }
{
    match association.handle_timeout(now) {
        Ok(()) => Reply::Done,
        Err(error) => Reply::Refused(error.number()),
    }
}

/// `Association::poll_transmit`. Its packets are put behind those that were given out before, and so get the next
/// numbers; where room is refused for one, that one and those behind it are lost.
pub fn poll_transmit(association: &mut Association, packets: &mut Vec<Bytes>, now: Instant) -> Reply
    ensures { GivesOut association.old packets.old.items now result association.new packets.new.items }
{
    match association.poll_transmit(now) {
        Ok(None) => Reply::NothingSent,
        Ok(Some(transmit)) => keep_packets(packets, transmit),
        Err(error) => Reply::Refused(error.number()),
    }
}

// The packets whose room is refused, and those after it, are lost and get no number.
fn keep_packets(packets: &mut Vec<Bytes>, transmit: Transmit) -> Reply
    requires { 0 < length (bytes_within transmit.payload) }
    ensures { Keeps packets.old.items (bytes_within transmit.payload) result packets.new.items }
{
    let first = packets.len() as u64;
    match transmit.payload {
        Payload::PartialDecode(_) => Reply::NothingSent,
        Payload::RawEncode(sent) => {
            let count = sent.len() as u64;
            match keep_all(packets, sent) {
                Ok(()) => Reply::Sent { first, count },
                Err(_) => Reply::Refused(Error::ErrNoMemory.number()),
            }
        }
    }
}

fn keep_all(packets: &mut Vec<Bytes>, sent: Vec<Bytes>) -> Result<(), AllocError>
    ensures ok { OnOk result (packets.new.items ≡ packets.old.items ++ sent.items) }
    ensures err { OnErr result ((kept : ℕ) × (kept < length sent.items)
        × (packets.new.items ≡ packets.old.items ++ take kept sent.items)) }
{
    for packet in sent {
        packets.push(packet)?;
    }
    Ok(())
}

/// These bytes came as a datagram. One that spells no packet changes nothing, and one that finds no memory to be read
/// is lost. A failed association refuses each datagram, whatever it spells.
pub fn handle_datagram(
    association: &mut Association,
    datagram: &Bytes,
    remote: SocketAddr,
    now: Instant,
) -> Reply
    ensures { TakesIn association.old datagram.now now result association.new }
{
    if association.is_failed() {
        return Reply::Refused(Error::ErrAssociationFailed.number());
    }
    match PartialDecode::unmarshal(datagram) {
        Ok(read) => take(association, read, remote, now),
        Err(Error::ErrNoMemory) => Reply::Refused(Error::ErrNoMemory.number()),
        Err(_) => Reply::Done,
    }
}

fn take(
    association: &mut Association,
    datagram: PartialDecode,
    remote: SocketAddr,
    now: Instant,
) -> Reply
    ensures { TakesPacket association.old (taken_packet (finished datagram)) now result association.new }
{
    let event = AssociationEvent::datagram(Transmit {
        now,
        remote,
        payload: Payload::PartialDecode(datagram),
        ecn: None,
        local_ip: None,
    });
    match association.handle_event(event) {
        Ok(()) => Reply::Done,
        Err(error) => Reply::Refused(error.number()),
    }
}
