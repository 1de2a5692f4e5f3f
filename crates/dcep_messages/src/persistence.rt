// How long a message of a channel is tried.

/// How long a message of a channel is tried before it is given up (RFC 8832 section 5.1).
#[derive(Clone, Copy, Debug, PartialEq, Eq)]
pub enum Persistence {
    /// Until it is acknowledged.
    Reliable,
    /// For this number of retransmissions.
    Retransmits(u32),
    /// For this time, in ms.
    LifeTime(u32),
}
