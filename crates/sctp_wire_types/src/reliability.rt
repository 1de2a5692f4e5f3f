// Partial reliability (RFC 3758): how long a message is kept for sending.

/// How long a message is kept for sending (RFC 3758 sections 3.5 and 4.1). An association keeps a retry limit or a
/// lifetime with each message, and gives the message up by it where both sides use FORWARD TSN.
#[derive(Clone, Copy, Debug)]
pub enum Policy {
    /// Until it is acknowledged.
    Reliable,
    /// For this number of retransmissions.
    Rexmit(u32),
    /// For this time, in ms.
    Timed(u32),
}

/// The kinds of [`Policy`], without their numbers.
#[derive(Clone, Copy, Debug, PartialEq, Eq, Default)]
pub enum ReliabilityType {
    /// Until it is acknowledged.
    #[default]
    Reliable,
    /// For a number of retransmissions.
    Rexmit,
    /// For a time, in ms.
    Timed,
}
