//! The calls of an [`Association`](sctp_assoc::Association) as values: [`run`] carries out a list of them, [`carry_out`]
//! one, and a function of [`calls`] makes each. All of them stand on public calls alone. Use this crate to keep calls,
//! to replay them, or to reason about an association against any peer.
#![tactic(auto)]

pub mod calls;
mod runs;

pub use runs::{carry_out, run};
