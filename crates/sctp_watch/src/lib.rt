//! What passed a driver, and why its association ended. A [`Watch`] stands beside a [`sctp_driver::Driver`] and makes
//! its calls for it: it counts datagrams and bytes each way, and keeps the end that a call brought, with the first
//! cause of an ABORT. An [`Observer`] is told of each datagram that passes. Whoever uses neither pays nothing for them.
#![tactic(auto)]

mod ends;
mod observer;
mod traffic;
mod watch;

pub use ends::{Cause, End, end_by};
pub use observer::{Direction, Observer, handle_datagram_observed, poll_transmit_observed};
pub use traffic::Traffic;
pub use watch::Watch;
