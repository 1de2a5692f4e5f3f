// What the calls of channels refuse.
ghost use Rattle.sctp_wire_types.specs.declared.error.Error.TheVariants.{ErrNoMemory};
ghost use Rattle.channel_table.specs.declared.error.ChannelError.TheVariants.{Beneath};
ghost use Rattle.std.specs.Prelude.{◌≡◌};

use sctp_wire_types::Error;
use std::alloc::{AllocError, AllocFailed};
use thiserror::Error as ThisError;

/// What a call of channels is refused for.
#[derive(Clone, Copy, Debug, PartialEq, Eq, ThisError)]
pub enum ChannelError {
    /// The association's driver refused it, or memory is used up.
    #[error("refused beneath the channel: {0}")]
    Beneath(Error),
    #[error("label or protocol is longer than 65535 bytes")]
    LabelTooLong,
    #[error("each identifier of this side has a channel")]
    NoIdentifierLeft,
    #[error("the identifier has a channel, or is 65535")]
    IdentifierTaken,
    #[error("this side may not send on so many streams")]
    IdentifierPastStreams,
    #[error("there is no such channel")]
    NoChannel,
    #[error("the channel is not open")]
    NotOpen,
    #[error("the association was lost")]
    Lost,
}

impl From<Error> for ChannelError {
    ghost from_gives = { λ error e. e ≡ Beneath error };

    fn from(error: Error) -> ChannelError {
        ChannelError::Beneath(error)
    }
}

impl From<AllocError> for ChannelError {
    ghost from_gives = { λ _ e. e ≡ Beneath ErrNoMemory };

    fn from(_: AllocError) -> ChannelError {
        ChannelError::Beneath(Error::ErrNoMemory)
    }
}

impl<T: Drop> From<AllocFailed<T>> for ChannelError {
    ghost from_gives = { λ _ e. e ≡ Beneath ErrNoMemory };

    fn from(_failed: AllocFailed<T>) -> ChannelError {
        ChannelError::Beneath(Error::ErrNoMemory)
    }
}
