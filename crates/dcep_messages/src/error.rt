// Why an OPEN is not made or not read.
use thiserror::Error as ThisError;

/// Why a DATA_CHANNEL_OPEN is not made, or bytes are not read as one.
#[derive(Clone, Copy, Debug, PartialEq, Eq, ThisError)]
pub enum OpenError {
    #[error("label or protocol is longer than 65535 bytes")]
    LabelTooLong,
    #[error("memory is used up")]
    NoMemory,
    #[error("message is no DATA_CHANNEL_OPEN")]
    NotOpenMessage,
    #[error("channel type is not known")]
    UnknownChannelType,
}
