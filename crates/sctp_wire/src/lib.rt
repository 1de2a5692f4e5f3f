//! SCTP packets: read from datagrams, written as datagrams (RFC 4960 section 3), and the types that the layers above
//! share.
#![tactic(auto)]

mod chunk;
mod chunk_list;
mod data_packets;
mod entries;
mod error;
mod frame;
mod items;
mod number;
mod packet;
mod param;
mod partial;
mod refuse;
mod transmit;
mod written;

pub use chunk::DataRef;
pub use chunk_list::{ChunkList, PacketChunks};
pub use data_packets::DataPackets;
pub use packet::Packet;
pub use partial::PartialDecode;
pub use refuse::check_packet;
pub use sctp_crc::crc32c;
pub use sctp_wire_types::{
    Chunk, ChunkAbort, ChunkError, ChunkForwardTsn, ChunkHeartbeat, ChunkIForwardTsn, ChunkInit,
    ChunkPayloadData, ChunkReconfig, ChunkSelectiveAck, CommonHeader, EcnCodepoint, Error,
    ErrorCause, Fault, GapAckBlock, IForwardTsnEntry, Instant, List, Param,
    ParamOutgoingResetRequest, ParamReconfigResponse, PayloadProtocolIdentifier, Policy, Profile,
    ReconfigResult, ReliabilityType, ServerConfig, Side, SkippedStream, StreamEvent, StreamId,
    StreamResetError, TransportConfig, sna16gt, sna16gte, sna16lt, sna16lte, sna32gt, sna32gte,
    sna32lt, sna32lte,
};
pub use transmit::{Payload, Transmit};
pub use written::marshal;
