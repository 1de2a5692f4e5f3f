// What a performed request does to a stream.

/// What becomes of a live stream that a performed request of the peer names.
#[derive(Clone, Copy, Debug, PartialEq, Eq)]
pub enum Retirement {
    /// Its generation is drained: the stream ends now.
    Ended,
    /// Its newest generation ended, and is read until it is drained.
    Retires,
    /// Its newest generation ended before, and there is no DATA of another one.
    Unchanged,
}
