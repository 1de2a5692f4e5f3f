//! Two associations that face each other, and every packet that either ever gave out: the network is the list of these
//! packets, of which any is delivered, again and in any order.
#![tactic(auto)]

mod accepted;
mod delivery;
mod pair;
mod sides;

pub use accepted::given_out_data_was_accepted;
pub use pair::Pair;
pub use sctp_assoc::Reply;
pub use sctp_steps::{Side2, Step};
pub use sides::sides_run_by_their_calls;
