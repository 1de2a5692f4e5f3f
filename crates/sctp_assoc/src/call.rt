// One call of an association as a value, and what it is answered.
use crate::{
    AssociationStats, Chunks, DataChannelStats, EndpointEvent, Event, Instant,
    PayloadProtocolIdentifier, ReliabilityType, Side, StreamId,
};
use bytes::Bytes;
use std::net::{IpAddr, SocketAddr};
use std::time::Duration;

/// One public call of an [`Association`](crate::Association), or of one of its streams; the readers, which answer
/// numbers such as `cwnd`, are none of them. A call of a stream first asks for the live stream of its identifier.
#[derive(Debug, Drop)]
pub enum Call {
    /// `Association::open_stream`. Its reply is `Done`.
    OpenStream {
        id: StreamId,
        payload_type: PayloadProtocolIdentifier,
    },
    /// `Association::stream`: whether such a stream is live. Its reply is `Done`, or a refusal where it is not.
    Stream {
        id: StreamId,
    },
    /// `Association::accept_stream`. Its reply is `Accepted`.
    AcceptStream,
    /// `Association::stream_ids`. Its reply is `StreamIds`.
    StreamIds,
    /// `Association::set_max_send_message_size`, in bytes. Its reply is `Done`, and it is never refused.
    SetMaxSendMessageSize {
        max_send_message_size: u32,
    },
    /// `Stream::write` of one message. Its reply is `Wrote`.
    Write {
        id: StreamId,
        bytes: Bytes,
    },
    /// `Stream::write_with_ppi` of one message. Its reply is `Wrote`.
    WriteWithPpi {
        id: StreamId,
        bytes: Bytes,
        ppi: PayloadProtocolIdentifier,
    },
    /// `Stream::write_sctp` of one message. Its reply is `Wrote`.
    WriteSctp {
        id: StreamId,
        bytes: Bytes,
        ppi: PayloadProtocolIdentifier,
    },
    /// `Stream::write_chunk` of one message. Its reply is `Wrote`.
    WriteChunk {
        id: StreamId,
        bytes: Bytes,
    },
    /// `Stream::write_chunks` of one message: the first of the buffers that has bytes. The call gets clones of the
    /// buffers, and the reply is `Refused` also where these find no memory. Its reply is `Wrote`.
    WriteChunks {
        id: StreamId,
        chunks: Vec<Bytes>,
    },
    /// `Stream::read` of the next message. Its reply is `Read`.
    Read {
        id: StreamId,
    },
    /// `Stream::read_sctp` of the next message. Its reply is `Read`.
    ReadSctp {
        id: StreamId,
    },
    /// `Stream::finish`. Its reply is `Done`.
    Finish {
        id: StreamId,
    },
    /// `Stream::stop`. Its reply is `Done`.
    Stop {
        id: StreamId,
    },
    /// `Stream::close`. Its reply is `Done`.
    CloseStream {
        id: StreamId,
    },
    /// `Stream::set_reliability_params`: whether messages that are written from now on are sent unordered, and how long
    /// each is tried: `rel_val` retransmissions at most for `Rexmit`, `rel_val` ms for `Timed`. Its reply is `Done`.
    SetReliabilityParams {
        id: StreamId,
        unordered: bool,
        rel_type: ReliabilityType,
        rel_val: u32,
    },
    /// `Stream::set_default_payload_type`. Its reply is `Done`.
    SetDefaultPayloadType {
        id: StreamId,
        default_payload_type: PayloadProtocolIdentifier,
    },
    /// `Stream::set_buffered_amount_low_threshold`, in bytes. Its reply is `Done`.
    SetBufferedAmountLowThreshold {
        id: StreamId,
        th: usize,
    },
    /// `Stream::set_buffered_amount_high_threshold`, in bytes. Its reply is `Done`.
    SetBufferedAmountHighThreshold {
        id: StreamId,
        th: usize,
    },
    /// `Stream::stats`. Its reply is `StreamStats`.
    StreamStats {
        id: StreamId,
    },
    /// `Stream::is_readable`. Its reply is `State`.
    IsReadable {
        id: StreamId,
    },
    /// `Stream::is_writable`. Its reply is `State`.
    IsWritable {
        id: StreamId,
    },
    /// `Stream::stream_identifier`. Its reply is `StreamIdentifier`.
    StreamIdentifier {
        id: StreamId,
    },
    /// `Stream::get_default_payload_type`. Its reply is `PayloadType`.
    GetDefaultPayloadType {
        id: StreamId,
    },
    /// `Stream::buffered_amount_low_threshold`. Its reply is `Threshold`.
    BufferedAmountLowThreshold {
        id: StreamId,
    },
    /// `Stream::buffered_amount_high_threshold`. Its reply is `Threshold`.
    BufferedAmountHighThreshold {
        id: StreamId,
    },
    /// `Stream::buffered_amount`. Its reply is `BufferedAmount`.
    BufferedAmount {
        id: StreamId,
    },
    /// `Association::shutdown`. Its reply is `Done`.
    Shutdown,
    /// `Association::close`. Its reply is `Done`.
    Close,
    /// `Association::poll`. Its reply is `Event`.
    Poll,
    /// `Association::poll_endpoint_event`. Its reply is `EndpointEvent`.
    PollEndpointEvent,
    /// `Association::poll_timeout`. Its reply is `Timeout`.
    PollTimeout,
    /// `Association::poll_transmit`. Its packets get the next numbers. Its reply is `Sent` or `NothingSent`.
    PollTransmit {
        now: Instant,
    },
    /// `Association::handle_timeout`. Its reply is `Done`.
    HandleTimeout {
        now: Instant,
    },
    /// These bytes came as a datagram: `PartialDecode::unmarshal`, and `Association::handle_event` of what it reads.
    /// Its reply is `Done`, also where the datagram spells no packet or changes nothing. One that finds no memory to be
    /// read is refused and lost.
    HandleDatagram {
        datagram: Bytes,
        remote: SocketAddr,
        now: Instant,
    },
    /// `Association::is_handshaking`. Its reply is `State`.
    IsHandshaking,
    /// `Association::is_closed`. Its reply is `State`.
    IsClosed,
    /// `Association::is_closing`. Its reply is `State`.
    IsClosing,
    /// `Association::is_drained`. Its reply is `State`.
    IsDrained,
    /// `Association::is_failed`. Its reply is `State`.
    IsFailed,
    /// `Association::rtt`, the retransmission timeout. Its reply is `Rtt`.
    Rtt,
    /// `Association::stats`. Its reply is `Stats`.
    Stats,
    /// `Association::side`. Its reply is `Side`.
    Side,
    /// `Association::remote_addr`. Its reply is `RemoteAddr`.
    RemoteAddr,
    /// `Association::local_ip`. Its reply is `LocalIp`.
    LocalIp,
}

/// What a call was answered. Each call may be answered `Refused`, but for `AcceptStream`, `SetMaxSendMessageSize`,
/// `PollEndpointEvent`, `PollTimeout`, and the questions that are asked of no stream.
#[derive(Debug, Drop)]
pub enum Reply {
    /// The call was carried out and answers nothing else.
    Done,
    /// A message of this length, in bytes, was accepted.
    Wrote(usize),
    /// The message that was read; None where none was ready.
    Read(Option<Chunks>),
    /// Bytes that were accepted on the stream and are not released.
    BufferedAmount(usize),
    /// The oldest stream that the peer opened and that was not accepted yet; None where there is none, or the
    /// association failed.
    Accepted(Option<StreamId>),
    /// The identifiers of the live streams, ascending.
    StreamIds(Vec<StreamId>),
    /// What a generation of the stream counted.
    StreamStats(DataChannelStats),
    /// The identifier of a live stream.
    StreamIdentifier(StreamId),
    /// The payload type of messages that are written without one.
    PayloadType(PayloadProtocolIdentifier),
    /// A threshold of the buffered amount, in bytes.
    Threshold(usize),
    /// The oldest event that was ready; None where none was.
    Event(Option<Event>),
    /// What the endpoint is to be told; None where nothing waited.
    EndpointEvent(Option<EndpointEvent>),
    /// The moment at which the next timer expires; None where no timer runs.
    Timeout(Option<Instant>),
    /// Packets that a poll gave out: the number of the first one, and how many.
    Sent { first: u64, count: u64 },
    /// A poll that gave out no packet.
    NothingSent,
    /// What a question about the state was answered.
    State(bool),
    /// The retransmission timeout.
    Rtt(Duration),
    /// What the association counted.
    Stats(AssociationStats),
    /// Which side the association is.
    Side(Side),
    /// The peer's address.
    RemoteAddr(SocketAddr),
    /// This side's address.
    LocalIp(Option<IpAddr>),
    /// The number of the refusal, as `Error::number` gives it. Of number 4, want of memory, the packets of a poll may
    /// be lost, or the association may have failed; of any other number nothing changed.
    Refused(u8),
    /// No packet of this number was given out; nothing changed. No call of one association is answered so, but the
    /// delivery of a packet by its number, where two of them face each other.
    NoSuchPacket,
}
