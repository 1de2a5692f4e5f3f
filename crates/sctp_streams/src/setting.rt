// What an application sets on a live stream.
use crate::ReliabilityParams;
use sctp_wire_types::PayloadProtocolIdentifier;

/// One thing that an application sets on a live stream.
#[derive(Clone, Copy, Debug)]
pub enum Setting {
    /// The payload type of messages that are written without one.
    DefaultPayloadType(PayloadProtocolIdentifier),
    /// Order and reliability of messages that are written from now on.
    Reliability(ReliabilityParams),
    /// A release that takes the buffered amount from above this many bytes to it or below is told.
    LowMark(u64),
    /// A write that takes the buffered amount from below this many bytes to it or above is told.
    HighMark(u64),
    /// Nothing can be written any more; the read half stays as it is.
    WriteHalfClosed,
}
