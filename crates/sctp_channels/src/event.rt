// What happened to channels.
use sctp_driver::AssociationError;
use sctp_wire_types::StreamId;

/// What happened to the channels of an association, as `Channels::poll_event` tells it.
#[derive(Clone, Copy, Debug, PartialEq)]
pub enum ChannelEvent {
    /// The association is established.
    Connected,
    /// The peer opened this channel. It is open.
    Announced(StreamId),
    /// This channel of this side is open: the peer's ACK came, or another message of its; a negotiated one is open once
    /// the association is established.
    Opened(StreamId),
    /// Messages of this channel may have come: call `receive` until it answers `Nothing`.
    Message(StreamId),
    /// The buffered amount of this channel fell from above its low threshold to it or below.
    BufferedLow(StreamId),
    /// This channel ended, by either side, and all that came before was received. It is gone, and its identifier is
    /// free again, unless the reset of its stream failed: then it stays `Closing`, and this is told once more if the
    /// peer answers later.
    Closed(StreamId),
    /// The peer's stream began with something else than an OPEN, and is being reset, or this channel could not be
    /// begun. There is no such channel.
    Failed(StreamId),
    /// The association ended. All channels are gone.
    Lost(AssociationError),
    /// The handshake failed. All channels are gone.
    HandshakeFailed(AssociationError),
}
