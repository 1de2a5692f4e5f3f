//! Callers of a pair, each of which needs one part of what `Pair` promises: where one of most clauses of `Pair` or
//! fields of what it promises is lost, a function here is no longer proved (docs/EVIDENCE.md has the exceptions).
//! `exchange` is a caller of one association, and cites its laws.
#![tactic(auto)]

mod buffering;
mod delivering;
mod exchanging;
mod lasting;
mod reading;
mod resetting;
mod running;
mod telling;
mod writing;

pub use buffering::{ask_buffered, step_and_look};
pub use delivering::{deliver_packet, expire_timers, step_once};
pub use exchanging::exchange;
pub use lasting::{poll_event, step_and_last};
pub use reading::{read_message, step_and_tell};
pub use resetting::{
    read_across_resets, run_across_resets, run_client_server_across_resets, step_across_resets,
};
pub use running::{
    give_first_packet, is_lost, join, run_and_count, run_and_tell, step_and_count, try_to_run,
};
pub use telling::{run_and_step, run_client_server, run_joined, run_twice};
pub use writing::write_message;
