//! The layer below the association, as the association and what stands above it name it: packets with their chunks,
//! streams and events, and the queues of what is to be sent and of what came.
#![tactic(auto)]

pub use sctp_outbound_queue::{Attributes, InFlight, OutboundQueue, PendingMessage, Released, cut};
pub use sctp_receive_queues::{Chunks, ReassemblyQueue};
pub use sctp_received::ReceiveQueue;
pub use sctp_streams::{
    AssociationError, DataChannelStats, Event, Events, RecvSendState, ReliabilityParams, Setting,
    StreamState, Streams,
};
pub use sctp_wire::{
    Chunk, ChunkAbort, ChunkError, ChunkForwardTsn, ChunkHeartbeat, ChunkIForwardTsn, ChunkInit,
    ChunkList, ChunkPayloadData, ChunkReconfig, ChunkSelectiveAck, CommonHeader, DataPackets,
    DataRef, EcnCodepoint, Error, ErrorCause, Fault, GapAckBlock, IForwardTsnEntry, Instant, List,
    Packet, PacketChunks, Param, ParamOutgoingResetRequest, ParamReconfigResponse, PartialDecode,
    Payload, PayloadProtocolIdentifier, Policy, Profile, ReconfigResult, ReliabilityType,
    ServerConfig, Side, SkippedStream, StreamEvent, StreamId, StreamResetError, Transmit,
    TransportConfig, check_packet, crc32c, marshal, sna16gt, sna16gte, sna16lt, sna16lte, sna32gt,
    sna32gte, sna32lt, sna32lte,
};
