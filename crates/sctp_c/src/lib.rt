//! The calls of a driver for C, each on a slot of 16 bytes that C owns. `include/sctp_assoc.h` declares them and says
//! what each does, what it writes and which codes it answers.
//!
//! Each call takes the driver out of the slot, makes one call of `sctp_driver`, and puts the driver back. A code is 0
//! where it was done, 1 where the slot is empty, 2 for want of memory, 3 where there is nothing, 4 where there is no
//! room, and else a refusal by its number.
#![tactic(auto)]

mod begin;
mod config;
mod datagrams;
mod events;
mod numbers;
mod path;
mod questions;
mod release;
mod settings;
mod stats;
mod streams;
mod watch;

pub use config::{Config, Identity, Token};
pub use events::{Counters, Told};
pub use path::PathValues;
pub use stats::Totals;
pub use watch::Watch;
