// What may happen to a pair.
use bytes::Bytes;
use sctp_assoc::{Instant, PayloadProtocolIdentifier, ReliabilityType, StreamId};

/// One of the two sides of a pair. `A` and `B` say nothing of client and server; that is `Side`, of an association.
#[derive(Clone, Copy, Debug, PartialEq, Eq)]
pub enum Side2 {
    A,
    B,
}

/// One call of one side, or the delivery of one packet to it. The calls are those of `Association`; a step of a
/// stream first asks for the live stream. A stream sends ordered, reliable messages until `SetReliabilityParams` has it
/// send others.
#[derive(Debug, Drop)]
pub enum Step {
    /// `Association::open_stream`. Its reply is `Done`.
    OpenStream {
        side: Side2,
        id: StreamId,
        payload_type: PayloadProtocolIdentifier,
    },
    /// `Association::stream`: whether such a stream is live. Its reply is `Done`, or a refusal where it is not.
    Stream {
        side: Side2,
        id: StreamId,
    },
    /// `Association::accept_stream`. Its reply is `Accepted`.
    AcceptStream {
        side: Side2,
    },
    /// `Association::stream_ids`. Its reply is `StreamIds`.
    StreamIds {
        side: Side2,
    },
    /// `Association::set_max_send_message_size`, in bytes. Its reply is `Done`, and it is never refused.
    SetMaxSendMessageSize {
        side: Side2,
        max_send_message_size: u32,
    },
    /// `Stream::write` of one message. Its reply is `Wrote`.
    Write {
        side: Side2,
        id: StreamId,
        bytes: Bytes,
    },
    /// `Stream::write_with_ppi` of one message. Its reply is `Wrote`.
    WriteWithPpi {
        side: Side2,
        id: StreamId,
        bytes: Bytes,
        ppi: PayloadProtocolIdentifier,
    },
    /// `Stream::write_sctp` of one message. Its reply is `Wrote`.
    WriteSctp {
        side: Side2,
        id: StreamId,
        bytes: Bytes,
        ppi: PayloadProtocolIdentifier,
    },
    /// `Stream::write_chunk` of one message. Its reply is `Wrote`.
    WriteChunk {
        side: Side2,
        id: StreamId,
        bytes: Bytes,
    },
    /// `Stream::write_chunks` of one message: the first of the buffers that has bytes. The call gets clones of the
    /// buffers, and the reply is `Refused` also where these find no memory. Its reply is `Wrote`.
    WriteChunks {
        side: Side2,
        id: StreamId,
        chunks: Vec<Bytes>,
    },
    /// `Stream::read` of the next message. Its reply is `Read`.
    Read {
        side: Side2,
        id: StreamId,
    },
    /// `Stream::read_sctp` of the next message. Its reply is `Read`.
    ReadSctp {
        side: Side2,
        id: StreamId,
    },
    /// `Stream::finish`. Its reply is `Done`.
    Finish {
        side: Side2,
        id: StreamId,
    },
    /// `Stream::stop`. It ends the stream's span, at both sides: what `Pair` promises of a stream within its span is
    /// said no more, and what it promises of boundaries still is. Its reply is `Done`.
    Stop {
        side: Side2,
        id: StreamId,
    },
    /// `Stream::close`, of both halves. It ends the stream's span, as `Stop` does. Its reply is `Done`.
    CloseStream {
        side: Side2,
        id: StreamId,
    },
    /// `Stream::set_reliability_params`: whether messages that are written from now on are sent unordered, and how long
    /// each is tried: `rel_val` retransmissions at most for `Rexmit`, `rel_val` ms for `Timed`. Its reply is `Done`.
    SetReliabilityParams {
        side: Side2,
        id: StreamId,
        unordered: bool,
        rel_type: ReliabilityType,
        rel_val: u32,
    },
    /// `Stream::set_default_payload_type`. Its reply is `Done`.
    SetDefaultPayloadType {
        side: Side2,
        id: StreamId,
        default_payload_type: PayloadProtocolIdentifier,
    },
    /// `Stream::set_buffered_amount_low_threshold`, in bytes. Its reply is `Done`.
    SetBufferedAmountLowThreshold {
        side: Side2,
        id: StreamId,
        th: usize,
    },
    /// `Stream::set_buffered_amount_high_threshold`, in bytes. Its reply is `Done`.
    SetBufferedAmountHighThreshold {
        side: Side2,
        id: StreamId,
        th: usize,
    },
    /// `Stream::stats`. Its reply is `StreamStats`.
    StreamStats {
        side: Side2,
        id: StreamId,
    },
    /// `Stream::is_readable`. Its reply is `State`.
    IsReadable {
        side: Side2,
        id: StreamId,
    },
    /// `Stream::is_writable`. Its reply is `State`.
    IsWritable {
        side: Side2,
        id: StreamId,
    },
    /// `Stream::stream_identifier`. Its reply is `StreamIdentifier`.
    StreamIdentifier {
        side: Side2,
        id: StreamId,
    },
    /// `Stream::get_default_payload_type`. Its reply is `PayloadType`.
    GetDefaultPayloadType {
        side: Side2,
        id: StreamId,
    },
    /// `Stream::buffered_amount_low_threshold`. Its reply is `Threshold`.
    BufferedAmountLowThreshold {
        side: Side2,
        id: StreamId,
    },
    /// `Stream::buffered_amount_high_threshold`. Its reply is `Threshold`.
    BufferedAmountHighThreshold {
        side: Side2,
        id: StreamId,
    },
    /// `Association::shutdown`. Its reply is `Done`.
    Shutdown {
        side: Side2,
    },
    /// `Association::close`. Its reply is `Done`.
    Close {
        side: Side2,
    },
    /// `Stream::buffered_amount`. Its reply is `BufferedAmount`.
    BufferedAmount {
        side: Side2,
        id: StreamId,
    },
    /// `Association::poll`. Its reply is `Event`.
    Poll {
        side: Side2,
    },
    /// `Association::poll_endpoint_event`. Its reply is `EndpointEvent`.
    PollEndpointEvent {
        side: Side2,
    },
    /// `Association::poll_timeout`. Its reply is `Timeout`.
    PollTimeout {
        side: Side2,
    },
    /// `Association::poll_transmit`. Its packets get the next numbers of their side, and wait to be delivered. Its
    /// reply is `Sent` or `NothingSent`.
    PollTransmit {
        side: Side2,
        now: Instant,
    },
    /// `Association::handle_timeout`. Its reply is `Done`.
    HandleTimeout {
        side: Side2,
        now: Instant,
    },
    /// Hands `side` the packet of this number that the other side gave out, by `Association::handle_event`. The
    /// packet can be delivered again. Its reply is `Done`, also where the packet changes nothing, or `NoSuchPacket`.
    Deliver {
        side: Side2,
        number: u64,
        now: Instant,
    },
    /// `Association::is_handshaking`. Its reply is `State`.
    IsHandshaking {
        side: Side2,
    },
    /// `Association::is_closed`. Its reply is `State`.
    IsClosed {
        side: Side2,
    },
    /// `Association::is_closing`. Its reply is `State`.
    IsClosing {
        side: Side2,
    },
    /// `Association::is_drained`. Its reply is `State`.
    IsDrained {
        side: Side2,
    },
    /// `Association::is_failed`. Its reply is `State`.
    IsFailed {
        side: Side2,
    },
    /// `Association::rtt`, the retransmission timeout. Its reply is `Rtt`.
    Rtt {
        side: Side2,
    },
    /// `Association::stats`. Its reply is `Stats`.
    Stats {
        side: Side2,
    },
    /// `Association::side`: whether this side of the pair is a client or a server. Its reply is `Side`.
    Side {
        side: Side2,
    },
    /// `Association::remote_addr`. Its reply is `RemoteAddr`.
    RemoteAddr {
        side: Side2,
    },
    /// `Association::local_ip`. Its reply is `LocalIp`.
    LocalIp {
        side: Side2,
    },
}
