// Refusals, chunk faults and what a datagram may be refused for.
ghost use Rattle.std.specs.Prelude.{◌≡◌};
ghost use Rattle.sctp_wire_types.specs.Errors.{refusal_number};
ghost use Rattle.sctp_wire_types.specs.declared.error.Error.TheVariants.{ErrNoMemory};

use std::alloc::{AllocError, AllocFailed};
use thiserror::Error as ThisError;

/// Why bytes are not read as a packet, a packet is not written, or a packet or its chunk is refused before it is
/// processed (RFC 4960 sections 3 and 8.5.1).
#[derive(Clone, Copy, Debug, PartialEq, Eq, ThisError)]
pub enum Fault {
    #[error("bytes end before their form does")]
    Short,
    #[error("a length is below that of its own header")]
    Length,
    #[error("the checksum differs")]
    Checksum,
    #[error("too long for a 16-bit length")]
    Long,
    #[error("a port is 0")]
    Port,
    #[error("an INIT is not alone in its packet")]
    InitBundled,
    #[error("an INIT has a verification tag other than 0")]
    InitTag,
    #[error("an initiate tag is 0")]
    InitiateTag,
    #[error("a number of streams is 0")]
    StreamCount,
    #[error("a receive window is below 1500 bytes")]
    Window,
}

/// What a call refuses, and what a chunk may be refused for.
///
/// | Error | Who answers it |
/// |---|---|
/// | `ErrBadPayloadSize`, `ErrBadInitialTsn`, `ErrBadToken` | the constructors of an association |
/// | `ErrBadTimeout` | the constructors of a driver |
/// | `ErrNoMemory` | whatever may take memory, if it gets none |
/// | `ErrAssociationFailed` | each call after one that found no memory in its middle |
/// | `ErrStreamAlreadyExist`, `ErrStreamCreateFailed` | `Association::open_stream` |
/// | `ErrStreamResetPending` | `Association::open_stream`, and the writes of a stream |
/// | `ErrStreamNotExisted` | `Association::stream` |
/// | `ErrStreamClosed` | the calls of a stream |
/// | `ErrPayloadDataStateNotExist`, `ErrEmptyMessage`, `ErrOutboundPacketTooLarge` | the writes of a stream |
/// | `ErrResetPacketInStateNotExist` | `stop` and `close` of a stream |
/// | `ErrShutdownNonEstablished` | `Association::shutdown` |
/// | `Malformed` | reading and writing of packets, and the checks of packets and chunks |
/// | `ErrHandshakeInitAck`, `ErrHandshakeCookieEcho` | no call; the event `HandshakeFailed` has them |
///
/// `ErrHandleInitState`, `ErrInitAckNoCookie`, `ErrAbortChunk`, `ErrChunkTypeUnhandled`, `ErrParameterType`,
/// `ErrInflightQueueTsnPop`, `ErrTsnRequestNotExist`, `ErrContradictoryPieces` and `ErrInboundMessageTooLarge` are
/// faults of chunks: they close an association, and no call answers them. Nor does any call answer
/// `ErrReceiveBufferExhausted`: the event `AssociationLost` tells of that, with a reason of its own.
#[derive(Clone, Copy, Debug, PartialEq, Eq, ThisError)]
pub enum Error {
    #[error("payload size is not in 1 to 65519")]
    ErrBadPayloadSize,
    #[error("initial TSN is 0")]
    ErrBadInitialTsn,
    #[error("token is refused")]
    ErrBadToken,
    #[error("a retransmission timeout is 0")]
    ErrBadTimeout,
    #[error("memory is used up")]
    ErrNoMemory,
    #[error("an earlier call failed the association")]
    ErrAssociationFailed,
    #[error("stream exists already")]
    ErrStreamAlreadyExist,
    #[error("stream is blocked by a reset")]
    ErrStreamResetPending,
    #[error("stream generations are used up")]
    ErrStreamCreateFailed,
    #[error("stream does not exist")]
    ErrStreamNotExisted,
    #[error("shutdown outside the established state")]
    ErrShutdownNonEstablished,
    #[error("sending outside the established state")]
    ErrPayloadDataStateNotExist,
    #[error("reset outside the established state")]
    ErrResetPacketInStateNotExist,
    #[error("INIT in a state that takes none")]
    ErrHandleInitState,
    #[error("INIT ACK without a cookie")]
    ErrInitAckNoCookie,
    #[error("aborted by the peer")]
    ErrAbortChunk,
    #[error("chunk of a type that is not handled")]
    ErrChunkTypeUnhandled,
    #[error("parameter of a type that is not handled")]
    ErrParameterType,
    #[error("acknowledged TSN is not in flight")]
    ErrInflightQueueTsnPop,
    #[error("TSN of a gap ack block is not in flight")]
    ErrTsnRequestNotExist,
    #[error("receive buffer exhausted")]
    ErrReceiveBufferExhausted,
    #[error("stream is closed")]
    ErrStreamClosed,
    #[error("message is longer than the greatest that may be sent")]
    ErrOutboundPacketTooLarge,
    #[error("message is empty")]
    ErrEmptyMessage,
    #[error("handshake failed: no INIT ACK came")]
    ErrHandshakeInitAck,
    #[error("handshake failed: no COOKIE ACK came")]
    ErrHandshakeCookieEcho,
    #[error("pieces of a message contradict each other")]
    ErrContradictoryPieces,
    #[error("message is longer than the greatest that may be received")]
    ErrInboundMessageTooLarge,
    #[error("malformed: {0}")]
    Malformed(Fault),
}

impl Error {
    /// The refusal's number, 1 to 23, as replies of a pair have it; 0 for an error that has none.
    pub fn number(&self) -> u8
        ensures { result ≡ refusal_number self.now }
    {
        match self {
            Error::ErrBadPayloadSize => 1,
            Error::ErrBadInitialTsn => 2,
            Error::ErrBadToken => 3,
            Error::ErrNoMemory => 4,
            Error::ErrAssociationFailed => 5,
            Error::ErrStreamAlreadyExist => 6,
            Error::ErrStreamResetPending => 7,
            Error::ErrStreamCreateFailed => 8,
            Error::ErrStreamNotExisted => 9,
            Error::ErrShutdownNonEstablished => 10,
            Error::ErrPayloadDataStateNotExist => 11,
            Error::ErrResetPacketInStateNotExist => 12,
            Error::ErrHandleInitState => 13,
            Error::ErrInitAckNoCookie => 14,
            Error::ErrAbortChunk => 15,
            Error::ErrChunkTypeUnhandled => 16,
            Error::ErrParameterType => 17,
            Error::ErrInflightQueueTsnPop => 18,
            Error::ErrTsnRequestNotExist => 19,
            Error::ErrReceiveBufferExhausted => 20,
            Error::ErrStreamClosed => 21,
            Error::ErrOutboundPacketTooLarge => 22,
            Error::ErrEmptyMessage => 23,
            Error::ErrBadTimeout => 0,
            Error::ErrHandshakeInitAck => 0,
            Error::ErrHandshakeCookieEcho => 0,
            Error::ErrContradictoryPieces => 0,
            Error::ErrInboundMessageTooLarge => 0,
            Error::Malformed(_) => 0,
        }
    }
}

impl From<AllocError> for Error {
    ghost from_gives = { λ _ e. e ≡ ErrNoMemory };

    fn from(_: AllocError) -> Error {
        Error::ErrNoMemory
    }
}

impl<T: Drop> From<AllocFailed<T>> for Error {
    ghost from_gives = { λ _ e. e ≡ ErrNoMemory };

    fn from(_failed: AllocFailed<T>) -> Error {
        Error::ErrNoMemory
    }
}
