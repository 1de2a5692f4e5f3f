//! The streams of an association and its events: what each stream has to be read, how its messages are sent, and what
//! it counts. Each struct owns its state and calls nothing above it.
#![tactic(auto)]

mod event;
mod halves;
mod low_marks;
mod setting;
mod stats;
mod stream_state;
mod streams;
mod table;

pub use event::{AssociationError, Event, Events};
pub use halves::{RecvSendState, ReliabilityParams};
pub use low_marks::Fallen;
pub use setting::Setting;
pub use stats::DataChannelStats;
pub use stream_state::StreamState;
pub use streams::Streams;
