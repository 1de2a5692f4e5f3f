// What a channel refuses.
ghost use Rattle.std.specs.Prelude.{◌≡◌};
ghost use Rattle.dcep_channel.specs.Faults.{fault_number};
ghost use Rattle.dcep_channel.specs.declared.error.ChannelError.TheVariants.{Beneath};

use std::alloc::{AllocError, AllocFailed};
use thiserror::Error as ThisError;

/// What a call of a channel is refused for.
#[derive(Clone, Copy, Debug, PartialEq, Eq, ThisError)]
pub enum ChannelError {
    /// The port refused it; the number is that of the refusal, as `Error::number` of `sctp_assoc` gives it. 4, want of
    /// memory, may also be the channel's own.
    #[error("refused beneath the channel, number {0}")]
    Beneath(u8),
    #[error("label or protocol is longer than 65535 bytes")]
    ErrLabelTooLong,
    #[error("message is no DATA_CHANNEL_OPEN")]
    ErrNotOpenMessage,
    #[error("channel is not reliable and ordered")]
    ErrChannelType,
    #[error("channel is not acknowledged yet")]
    ErrNotAcknowledged,
    #[error("message does not belong here")]
    ErrUnexpectedMessage,
    #[error("an unexpected message failed the channel")]
    ErrChannelFailed,
}

impl ChannelError {
    /// The refusal's number: that of the port, or 30 to 35.
    pub fn number(&self) -> u8
        ensures { result ≡ fault_number self.now }
    {
        match self {
            ChannelError::Beneath(number) => *number,
            ChannelError::ErrLabelTooLong => 30,
            ChannelError::ErrNotOpenMessage => 31,
            ChannelError::ErrChannelType => 32,
            ChannelError::ErrNotAcknowledged => 33,
            ChannelError::ErrUnexpectedMessage => 34,
            ChannelError::ErrChannelFailed => 35,
        }
    }
}

impl From<AllocError> for ChannelError {
    ghost from_gives = { λ _ e. e ≡ Beneath 4 };

    fn from(_: AllocError) -> ChannelError {
        ChannelError::Beneath(4)
    }
}

impl<T: Drop> From<AllocFailed<T>> for ChannelError {
    ghost from_gives = { λ _ e. e ≡ Beneath 4 };

    fn from(_failed: AllocFailed<T>) -> ChannelError {
        ChannelError::Beneath(4)
    }
}
