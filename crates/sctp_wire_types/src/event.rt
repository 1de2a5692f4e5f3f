// What an application is told of its streams.
use crate::StreamId;

/// How the reset of a stream failed (RFC 6525 section 4.4).
#[derive(Clone, Copy, Debug, PartialEq, Eq)]
pub enum StreamResetError {
    Denied,
    Failed,
}

/// Something that happened on a stream. An association tells all of these but `Writable`, `Stopped` and `Available`.
#[derive(Clone, Copy, Debug, PartialEq, Eq)]
pub enum StreamEvent {
    /// DATA came for a stream that was not there, or a FORWARD TSN that passes over messages of it, and made it.
    Opened {
        id: StreamId,
    },
    /// A message came and can be read, or can be read since a FORWARD TSN passed over what was before it. Each that
    /// comes is told, so whoever reads until None may find nothing at the next one.
    Readable {
        id: StreamId,
    },
    /// Never told.
    Writable {
        id: StreamId,
    },
    /// The peer ended its side of the stream.
    Finished {
        id: StreamId,
    },
    /// The own reset of the stream ended in success.
    ResetComplete {
        id: StreamId,
    },
    /// The own reset of the stream failed.
    ResetFailed {
        id: StreamId,
        reason: StreamResetError,
    },
    /// Never told.
    Stopped {
        id: StreamId,
        error_code: u16,
    },
    /// The buffered amount fell from above its low mark to it or below.
    BufferedAmountLow {
        id: StreamId,
    },
    /// The buffered amount rose from below its high mark to it or above.
    BufferedAmountHigh {
        id: StreamId,
    },
    /// Never told.
    Available,
}
