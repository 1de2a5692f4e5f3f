//! The types that all layers of the association share: moments, identifiers, errors, configuration, events and the
//! values of a packet, its chunks and its parameters. Reading and writing packets stands in `sctp_wire`.
#![tactic(auto)]

mod check;
mod chunk;
mod config;
mod error;
mod event;
mod ids;
mod instant;
mod list;
mod packet;
mod param;
mod reliability;

pub use chunk::{
    Chunk, ChunkAbort, ChunkError, ChunkForwardTsn, ChunkHeartbeat, ChunkIForwardTsn, ChunkInit,
    ChunkPayloadData, ChunkReconfig, ChunkSelectiveAck, ErrorCause, GapAckBlock, IForwardTsnEntry,
    SkippedStream,
};
pub use config::{Profile, ServerConfig, TransportConfig};
pub use error::{Error, Fault};
pub use event::{StreamEvent, StreamResetError};
pub use ids::{PayloadProtocolIdentifier, Side, StreamId};
pub use instant::{EcnCodepoint, Instant};
pub use list::List;
pub use packet::CommonHeader;
pub use param::{Param, ParamOutgoingResetRequest, ParamReconfigResponse, ReconfigResult};
pub use reliability::{Policy, ReliabilityType};
pub use sctp_serial::{sna16gt, sna16gte, sna16lt, sna16lte, sna32gt, sna32gte, sna32lt, sna32lte};
