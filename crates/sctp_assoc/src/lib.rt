//! The association layer of SCTP (RFC 4960) with partial reliability (RFC 3758) and stream resets (RFC 6525), without
//! input or output. Datagrams, moments and calls of the application go in; datagrams, events and the next deadline come
//! out.
//!
//! Most users want `sctp_driver`, which keeps one association together with the datagrams and messages that wait, and
//! checks verification tags. Use this crate if you write a driver of your own.
//!
//! # Where to start
//!
//! An [`Association`] is one side of a connection. There are two ways to make one:
//!
//! - [`Association::new`] makes a client or a server. A handshake establishes it.
//! - [`Association::new_with_out_of_band_init`] makes one that is established at once. Both sides exchange their INIT
//!   chunks beforehand, for example by signalling. Such a chunk is called a token, and [`token`] makes it.
//!
//! | Calls | Who makes them |
//! |---|---|
//! | [`Association::handle_timeout`], [`Association::handle_event`] | the driver, when a moment or a datagram came |
//! | [`Association::poll`] | the driver or the application, to learn what happened |
//! | [`Association::open_stream`], [`Association::stream`] | the application, to write and read on a [`Stream`] |
//! | [`Association::accept_stream`] | the application, once for each stream that the peer opens |
//! | [`Association::stream_ids`] | the application, to list all live streams |
//! | [`Association::set_max_send_message_size`] | the application, to limit the length of a message |
//! | [`Association::shutdown`] | the application, to end once all that was accepted is acknowledged |
//! | [`Association::close`] | the application, to end at once |
//! | [`Association::poll_transmit`], [`Association::poll_timeout`] | the driver: what to send, and when to wake |
//! | [`Association::poll_endpoint_event`] | the driver, to learn that `shutdown` was called here |
//! | `state`, `is_closed`, `rtt`, `cwnd` and the other questions | anybody, at any time; they change nothing |
//! | `sctp_calls::run`, `sctp_calls::carry_out` | code that keeps calls as values, or reasons about them |
//!
//! # The loop
//!
//! One turn of a driver's loop, at the moment `now`:
//!
//! 1. If `poll_timeout` answers a moment that is not after `now`, call `handle_timeout`.
//! 2. If a datagram came, decode it with [`PartialDecode::unmarshal`] and hand it to `handle_event`. Drop a datagram
//!    that does not decode: it is no SCTP packet, or there was no memory for it.
//! 3. Call `poll` until it answers None. On [`StreamEvent::Readable`], read that stream until `read` answers None. You
//!    can write from [`Event::Connected`] on.
//! 4. Call `poll_transmit` until it answers None, and send each datagram. `poll_transmit` can queue events too, because
//!    it gives messages up and ends a shutdown; call `poll` again after it.
//! 5. Sleep until the moment that `poll_timeout` answers, or until a datagram comes.
//!
//! A new client begins with step 4, because its INIT waits there. After a write or a read outside the loop, go on with
//! step 4.
//!
//! This order is advice. Every call is safe in every state and at every moment, and refuses by name what it cannot do.
//!
//! # Moments
//!
//! An [`Instant`] counts nanoseconds from a moment that the driver chooses; it lasts for some 584 years. Nothing here
//! reads a clock. A moment earlier than the last one is not an error.
//!
//! # Errors
//!
//! A call that answers an error other than [`Error::ErrNoMemory`] changed nothing. Calls that may take memory answer
//! that one if they get none:
//!
//! | Call | What is left after `ErrNoMemory` |
//! |---|---|
//! | `handle_event`, `handle_timeout`, `poll_transmit`, `close` | a failed association |
//! | `stop` and `close` of a [`Stream`] whose read half was open | a failed association |
//! | `read`, `read_sctp`, if the read closes the association, or the peer ended the stream | a failed association |
//! | any other call | nothing changed; make the call again |
//!
//! A failed association ([`Association::is_failed`]) is over: no timer runs, and each later call that answers a
//! `Result` answers [`Error::ErrAssociationFailed`]. Questions about its state, side, addresses and counts answer what
//! they answered before the call that failed.
//!
//! # Faults of the peer
//!
//! A datagram that does not decode changes nothing. Nor does a chunk of the handshake or of the shutdown that comes in
//! a state that does not expect it, with two exceptions: an INIT, and a COOKIE ECHO with this side's cookie, which is
//! acknowledged again.
//!
//! A *fault* is a chunk that ends an open association: ABORT, a chunk that is neither processed nor passed over (by the
//! port's rules ERROR and HEARTBEAT ACK, too) or that its own check refuses, an INIT past the handshake, an INIT ACK
//! without a cookie, a SACK of what is not in flight, DATA that contradicts what came or is too long, DATA or FORWARD
//! TSN that exhausts the buffer, and a RE-CONFIG that asks for anything but a reset of outgoing streams. docs/PROOFS.md
//! names every cause. The rest of the packet is not looked at.
//! If the association is open (in any state but Closed), it closes: all timers stop, no packet waits any more, each
//! live stream ends with its last counters ([`Event::DataChannelStatsFinal`]), and [`Event::AssociationLost`] is told.
//! Only a failed handshake that was not told yet comes after that event. From then on no datagram changes anything.
//!
//! # What is left to the driver
//!
//! The driver checks the verification tag of each packet (RFC 4960 section 8.5), finds the association that a datagram
//! is for, and chooses first TSN, tag and cookie. Nobody else should be able to guess these.
#![tactic(auto)]

mod association;
mod call;
mod control;
mod effects;
mod gather;
mod handshake;
mod inbound;
mod intake;
mod readers;
mod resets;
mod sacks;
mod shared;
mod shutdown;
mod skipping;
mod stream;
mod stream_calls;
mod tokens;

pub use association::Association;
pub use call::{Call, Reply};
pub use sctp_inbound::SUPPORTED_EXTENSIONS;
pub use sctp_parts::estimate::RtoManager;
pub use sctp_parts::shared::{AssociationId, EndpointEvent, IssuedAid};
pub use sctp_parts::state::{AckMode, AckState, AssociationState};
pub use sctp_parts::stats::AssociationStats;
pub use sctp_parts::timer::{Timer, TimerTable, calculate_next_timeout};
pub use sctp_wire_queues::{
    AssociationError, ChunkInit, Chunks, DataChannelStats, EcnCodepoint, Error, Event, Instant,
    List, Param, PartialDecode, Payload, PayloadProtocolIdentifier, Profile, ReliabilityType,
    ServerConfig, Side, StreamEvent, StreamId, StreamResetError, Transmit, TransportConfig,
};
pub use shared::AssociationEvent;
pub use stream::Stream;
pub use tokens::token;
