// Chunks, by kind (RFC 4960 section 3.3, RFC 3758 section 3.2, RFC 6525 section 3.1, RFC 8260 section 2.3.1).
use crate::{List, Param, PayloadProtocolIdentifier};
use bytes::Bytes;

/// One chunk of a packet.
#[derive(Debug, Drop)]
pub enum Chunk {
    Data(ChunkPayloadData),
    Init(ChunkInit),
    InitAck(ChunkInit),
    SelectiveAck(ChunkSelectiveAck),
    Heartbeat(ChunkHeartbeat),
    HeartbeatAck(ChunkHeartbeat),
    Abort(ChunkAbort),
    /// The cumulative TSN ack: the last TSN that came in order.
    Shutdown(u32),
    ShutdownAck,
    Error(ChunkError),
    CookieEcho(Bytes),
    CookieAck,
    ShutdownComplete,
    Reconfig(ChunkReconfig),
    ForwardTsn(ChunkForwardTsn),
    IForwardTsn(ChunkIForwardTsn),
    /// A chunk of a kind that this crate does not name.
    Other { kind: u8, flags: u8, value: Bytes },
}

/// DATA: one piece of a message (RFC 4960 section 3.3.1).
#[derive(Debug, Drop)]
pub struct ChunkPayloadData {
    pub unordered: bool,
    pub beginning_fragment: bool,
    pub ending_fragment: bool,
    /// The receiver is asked to acknowledge at once (RFC 7053).
    pub immediate_sack: bool,
    pub tsn: u32,
    pub stream_identifier: u16,
    pub stream_sequence_number: u16,
    pub payload_type: PayloadProtocolIdentifier,
    pub user_data: Bytes,
}

/// INIT and INIT ACK (RFC 4960 sections 3.3.2 and 3.3.3).
#[derive(Debug, Drop)]
pub struct ChunkInit {
    pub initiate_tag: u32,
    /// Receive window, in bytes.
    pub advertised_receiver_window_credit: u32,
    pub num_outbound_streams: u16,
    pub num_inbound_streams: u16,
    pub initial_tsn: u32,
    pub params: List<Param>,
}

/// SACK (RFC 4960 section 3.3.4).
#[derive(Debug, Drop)]
pub struct ChunkSelectiveAck {
    pub cumulative_tsn_ack: u32,
    /// Receive window, in bytes.
    pub advertised_receiver_window_credit: u32,
    pub gap_ack_blocks: List<GapAckBlock>,
    pub duplicate_tsn: List<u32>,
}

/// The first and the last TSN of a run that came, as offsets from the cumulative TSN ack.
#[derive(Clone, Copy, Debug, PartialEq, Eq)]
pub struct GapAckBlock {
    pub start: u16,
    pub end: u16,
}

/// HEARTBEAT and HEARTBEAT ACK (RFC 4960 sections 3.3.5 and 3.3.6).
#[derive(Debug, Drop)]
pub struct ChunkHeartbeat {
    pub params: List<Param>,
}

/// ABORT (RFC 4960 section 3.3.7).
#[derive(Debug, Drop)]
pub struct ChunkAbort {
    pub error_causes: List<ErrorCause>,
}

/// ERROR (RFC 4960 section 3.3.10).
#[derive(Debug, Drop)]
pub struct ChunkError {
    pub error_causes: List<ErrorCause>,
}

/// An error cause by its code: 4 Out of Resource, 6 Unrecognized Chunk Type, 12 User Initiated Abort
/// (RFC 4960 section 3.3.10).
#[derive(Debug, Drop)]
pub struct ErrorCause {
    pub code: u16,
    pub value: Bytes,
}

/// RE-CONFIG: one or two parameters (RFC 6525 section 3.1).
#[derive(Debug, Drop)]
pub struct ChunkReconfig {
    pub first: Param,
    pub second: Option<Param>,
}

/// FORWARD TSN (RFC 3758 section 3.2).
#[derive(Debug, Drop)]
pub struct ChunkForwardTsn {
    pub new_cumulative_tsn: u32,
    pub streams: List<SkippedStream>,
}

/// A stream and the greatest SSN of it that is skipped.
#[derive(Clone, Copy, Debug, PartialEq, Eq)]
pub struct SkippedStream {
    pub stream_identifier: u16,
    pub stream_sequence_number: u16,
}

/// I-FORWARD-TSN (RFC 8260 section 2.3.1).
#[derive(Debug, Drop)]
pub struct ChunkIForwardTsn {
    pub new_cumulative_tsn: u32,
    pub entries: List<IForwardTsnEntry>,
}

/// A stream and the greatest message identifier of it that is skipped.
#[derive(Clone, Copy, Debug, PartialEq, Eq)]
pub struct IForwardTsnEntry {
    pub stream_identifier: u16,
    pub unordered: bool,
    pub message_identifier: u32,
}
