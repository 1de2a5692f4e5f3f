// What an endpoint hands to an association.
ghost use Rattle.std.specs.Prelude.{◌≡◌};
ghost use Rattle.sctp_assoc.specs.Inbound.{transmit_of};

use sctp_wire_queues::Transmit;

/// What `Association::handle_event` takes: a datagram that came.
#[derive(Drop)]
pub struct AssociationEvent {
    pub(crate) transmit: Transmit,
}

impl AssociationEvent {
    /// A datagram that came at the moment `transmit.now`. Its payload is a `Payload::PartialDecode`, which
    /// `PartialDecode::unmarshal` makes of the bytes; a `Payload::RawEncode` changes nothing. The addresses and the
    /// congestion mark are not looked at.
    pub fn datagram(transmit: Transmit) -> Self
        ensures { transmit_of result ≡ transmit }
    {
        AssociationEvent { transmit }
    }
}
