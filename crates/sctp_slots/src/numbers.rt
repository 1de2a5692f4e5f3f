// Numbers that C hands over or is told. `include/sctp_assoc.h` names them.
ghost use Rattle.std.specs.Prelude.{◌≡◌};
ghost use Rattle.sctp_slots.specs.Numbers.{names_reliability, reason_number, reliability_by};

use sctp_driver::{AssociationError, Error, ReliabilityType};

/// The code of a reliability without a name.
pub const BAD_RELIABILITY: u32 = 69;

const NO_INIT_ACK: u32 = 1;

const NO_COOKIE_ACK: u32 = 2;

const CLOSED: u32 = 3;

const BUFFER_EXHAUSTED: u32 = 4;

const OTHER_REASON: u32 = 5;

/// The number of a reason why an association ended or its handshake failed.
pub fn reason_of(reason: AssociationError) -> u32
    ensures { result ≡ reason_number reason }
{
    match reason {
        AssociationError::HandshakeFailed(Error::ErrHandshakeInitAck) => NO_INIT_ACK,
        AssociationError::HandshakeFailed(Error::ErrHandshakeCookieEcho) => NO_COOKIE_ACK,
        AssociationError::AssociationClosed => CLOSED,
        AssociationError::ReceiveBufferExhausted => BUFFER_EXHAUSTED,
        _ => OTHER_REASON,
    }
}

/// Whether a reliability has a name.
pub fn names_reliability(kind: u32) -> bool
    ensures { result ≡ names_reliability kind }
{
    kind < 3
}

/// How long messages of a stream are sent again, by its number.
pub fn reliability_of(kind: u32) -> ReliabilityType
    ensures { result ≡ reliability_by kind }
{
    match kind {
        1 => ReliabilityType::Rexmit,
        2 => ReliabilityType::Timed,
        _ => ReliabilityType::Reliable,
    }
}
