// Names and small values of streams and sides.
ghost use Rattle.std.specs.Prelude.{◌≡◌};
ghost use Rattle.sctp_wire_types.specs.Ids.{identifier_of, number_of};

/// A stream's identifier, 0 to 65,535 (RFC 4960 section 3.3.1).
pub type StreamId = u16;

/// Which side of an association this is.
#[derive(Clone, Copy, Debug, PartialEq, Eq)]
pub enum Side {
    Client,
    Server,
}

/// What a message's bytes are, for WebRTC data channels (RFC 8831 section 8). `Unknown` is sent as 0.
#[derive(Clone, Copy, Debug, PartialEq, Eq, Default)]
pub enum PayloadProtocolIdentifier {
    Dcep,
    String,
    Binary,
    StringEmpty,
    BinaryEmpty,
    #[default]
    Unknown,
}

impl PayloadProtocolIdentifier {
    /// The identifier of a number on the wire; any number without a name is `Unknown`.
    pub fn from_number(number: u32) -> Self
        ensures { result ≡ identifier_of number }
    {
        match number {
            50 => PayloadProtocolIdentifier::Dcep,
            51 => PayloadProtocolIdentifier::String,
            53 => PayloadProtocolIdentifier::Binary,
            56 => PayloadProtocolIdentifier::StringEmpty,
            57 => PayloadProtocolIdentifier::BinaryEmpty,
            _ => PayloadProtocolIdentifier::Unknown,
        }
    }

    /// The number on the wire, 0 for `Unknown`.
    pub fn number(&self) -> u32
        ensures { result ≡ number_of self.now }
    {
        match self {
            PayloadProtocolIdentifier::Dcep => 50,
            PayloadProtocolIdentifier::String => 51,
            PayloadProtocolIdentifier::Binary => 53,
            PayloadProtocolIdentifier::StringEmpty => 56,
            PayloadProtocolIdentifier::BinaryEmpty => 57,
            PayloadProtocolIdentifier::Unknown => 0,
        }
    }
}
