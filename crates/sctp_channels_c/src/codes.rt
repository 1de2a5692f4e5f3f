// What a call answers to C, as a number.
ghost use Rattle.std.specs.Prelude.{◌≡◌};
ghost use Rattle.sctp_channels_c.specs.Answers.{code_of, fault_code};

use sctp_channels::ChannelError;
use sctp_slots::{DONE, refusal_code};

const LABEL_TOO_LONG: u32 = 40;

const NO_IDENTIFIER_LEFT: u32 = 41;

const IDENTIFIER_TAKEN: u32 = 42;

pub(crate) const NO_CHANNEL: u32 = 43;

const NOT_OPEN: u32 = 44;

const IDENTIFIER_PAST_STREAMS: u32 = 45;

const LOST: u32 = 46;

pub(crate) const OTHER: u32 = 47;

/// The code of a refusal.
pub(crate) fn fault_code(fault: ChannelError) -> u32
    ensures { result ≡ fault_code fault }
{
    match fault {
        ChannelError::Beneath(error) => refusal_code(error),
        ChannelError::LabelTooLong => LABEL_TOO_LONG,
        ChannelError::NoIdentifierLeft => NO_IDENTIFIER_LEFT,
        ChannelError::IdentifierTaken => IDENTIFIER_TAKEN,
        ChannelError::NoChannel => NO_CHANNEL,
        ChannelError::NotOpen => NOT_OPEN,
        ChannelError::IdentifierPastStreams => IDENTIFIER_PAST_STREAMS,
        ChannelError::Lost => LOST,
    }
}

/// The code of a call that gives nothing else.
pub(crate) fn code_of(answer: Result<(), ChannelError>) -> u32
    ensures { result ≡ code_of answer }
{
    match answer {
        Ok(()) => DONE,
        Err(fault) => fault_code(fault),
    }
}
