//! One association for users of sockets. A [`Driver`] takes datagrams as bytes and moments as numbers, and checks
//! verification tags (RFC 4960 section 8.5). It keeps the datagrams that wait to go out, and the messages that wait for
//! a buffer that is long enough.
//!
//! Make a driver as a client, as a server, or joined by two tokens. One turn of its loop, at the moment `now`:
//!
//! 1. If `poll_timeout` answers a moment that is not after `now`, call `handle_timeout`.
//! 2. If a datagram came, hand it to `handle_datagram`, which drops what is no packet or not for this association.
//! 3. Call `poll_event` until it answers None. On `StreamEvent::Readable`, call `read` until it answers `Nothing` or
//!    the stream is gone. On `StreamEvent::Opened`, call `accept_stream`.
//! 4. Call `poll_transmit` until it answers `Nothing`, and send each datagram. A read that opens the receive window has
//!    one to send, too.
//! 5. `poll_transmit` can queue events, since it gives messages up and ends a shutdown. If one waits now, go back to
//!    step 3.
//! 6. Sleep until the moment that `poll_timeout` answers, or until a datagram comes.
//!
//! A peer that is silent for good ends the association, too, by the rules of the RFCs: `handle_timeout` closes it then.
//!
//! A stream ends when either side stops or closes it (`stop`, `close_stream`). Both sides are told, and can then open
//! it anew.
//!
//! `shutdown` ends an association gracefully, once all that either side accepted is acknowledged; `close` ends it at
//! once, and so does `abort`, which tells the peer why. After `shutdown`, go on with the loop until `is_drained`.
//! `poll_endpoint_event` tells whoever holds the driver that `shutdown` was called here.
//!
//! Moments are nanoseconds from one that you choose. Every call is safe in every state and at every moment. It refuses
//! by name what it cannot do, and its page says what is left then.
#![tactic(auto)]

mod aborting;
mod driver;
mod heartbeats;
mod late;
mod lending;
mod messages;
mod paths;
mod readers;
mod sending;
mod silence;
mod streams;
mod tags;

pub use driver::Driver;
pub use messages::ReadAnswer;
pub use paths::Path;
pub use sctp_assoc::{
    AssociationError, AssociationStats, ChunkInit, DataChannelStats, EndpointEvent, Error, Event,
    PayloadProtocolIdentifier, Profile, ReliabilityType, StreamEvent, StreamResetError,
    TransportConfig, token,
};
pub use sending::PollAnswer;
pub use tags::DatagramAnswer;
