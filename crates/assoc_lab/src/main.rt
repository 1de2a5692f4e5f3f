//! Carries out a session of two associations: one step a line on standard input, one reply a line on standard output.
#![tactic(auto)]

use assoc_session::session;
use std::process::ExitCode;

fn main(rt: HostRuntime) -> ExitCode {
    let status = session(rt.alloc(), rt.stdin(), rt.stdout(), rt.stderr());
    ExitCode::from(status)
}
