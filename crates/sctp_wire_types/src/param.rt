// Parameters of chunks (RFC 4960 section 3.2.1).
use crate::List;
use bytes::Bytes;

/// One parameter of an INIT, an INIT ACK, a HEARTBEAT or a RE-CONFIG.
#[derive(Debug, Drop)]
pub enum Param {
    /// Heartbeat Info, RFC 4960 section 3.3.5.
    HeartbeatInfo(Bytes),
    /// State Cookie, RFC 4960 section 3.3.3.
    StateCookie(Bytes),
    /// Outgoing SSN Reset Request, RFC 6525 section 4.1.
    OutgoingResetRequest(ParamOutgoingResetRequest),
    /// Re-configuration Response, RFC 6525 section 4.4.
    ReconfigResponse(ParamReconfigResponse),
    /// Supported Extensions, RFC 5061 section 4.2.7: the types of the chunks, a byte each.
    SupportedExtensions(Bytes),
    /// Any other parameter, by its type.
    Other { kind: u16, value: Bytes },
}

/// A request to reset outgoing streams (RFC 6525 section 4.1).
#[derive(Debug, Drop)]
pub struct ParamOutgoingResetRequest {
    pub reconfig_request_sequence_number: u32,
    pub reconfig_response_sequence_number: u32,
    /// The last TSN that was given out before the request.
    pub sender_last_tsn: u32,
    /// The streams; an empty list is all of them.
    pub stream_identifiers: List<u16>,
}

/// An answer to a request (RFC 6525 section 4.4).
#[derive(Clone, Copy, Debug)]
pub struct ParamReconfigResponse {
    pub reconfig_response_sequence_number: u32,
    pub result: ReconfigResult,
}

/// How a request ended (RFC 6525 section 4.4).
#[derive(Clone, Copy, Debug, PartialEq, Eq)]
pub enum ReconfigResult {
    SuccessNop,
    SuccessPerformed,
    Denied,
    ErrorWrongSsn,
    ErrorRequestAlreadyInProgress,
    ErrorBadSequenceNumber,
    InProgress,
    Unknown,
}
