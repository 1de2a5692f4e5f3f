//! Callers of one association, against any peer. Of the association they use the contract of `sctp_calls::run`, that
//! its calls, with their replies and packets, are a run of the abstract association, and the contracts of the two
//! constructors. What they say of such a run follows by the laws of one side, in `sctp_sides`.
#![tactic(auto)]

mod reading;

pub use reading::{run_and_read, run_joined, run_new};
