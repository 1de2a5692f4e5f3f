//! A session of two associations: one step a line, one reply a line.
#![tactic(auto)]

mod line;
mod replay;
mod reply;
mod setting;

pub use line::{Beginning, JoinedBy, Line, parse};
pub use replay::session;
pub use reply::show;
pub use setting::{begun, snapped_under};
