// Numbers that C hands over and that may have no meaning.
ghost use Rattle.std.specs.Prelude.{◌≡◌};
ghost use Rattle.sctp_c.specs.Codes.{may_be_written, names_payload_type};

use sctp_driver::PayloadProtocolIdentifier;

/// A payload protocol identifier has no name.
pub(crate) const BAD_PAYLOAD_TYPE: u32 = 68;

/// Whether a payload protocol identifier goes out as it is: it has a name, or is 0.
pub(crate) fn names_payload_type(number: u32) -> bool
    ensures { result ≡ names_payload_type number }
{
    PayloadProtocolIdentifier::from_number(number).number() == number
}

/// Whether a write may name it: it is such a payload protocol identifier, or stands for that of the stream.
pub(crate) fn may_be_written(number: u32) -> bool
    ensures { result ≡ may_be_written number }
{
    number == u32::MAX || names_payload_type(number)
}
