//! Requests to reset streams (RFC 6525), by their numbers: those that this side makes, and those of the peer. What
//! becomes of the streams is the caller's.
#![tactic(auto)]

mod answer;
mod debts;
mod laws;
mod named;
mod outcome;
mod own;
mod own_request;
mod peer;
mod request;

pub use answer::{Arrival, Standing, response_to};
pub use debts::Debts;
pub use laws::{
    completed_requests_are_known, requests_are_held_back, requests_name_what_they_list,
};
pub use outcome::{Answered, outcome_of};
pub use own::OwnRequests;
pub use own_request::{MOST_IDS, OwnRequest, SentRequest};
pub use peer::PeerRequests;
pub use request::PeerRequest;
