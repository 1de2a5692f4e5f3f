// How a request of the peer stands, and what is answered to it (RFC 6525 sections 4.4 and 5.2.1).
ghost use Rattle.std.specs.Prelude.{◌≡◌};
ghost use Rattle.sctp_reset_requests.specs.Peer.{response_to};

use crate::PeerRequest;
use sctp_wire_types::{ParamReconfigResponse, ReconfigResult};

/// How the number of a request stands to those that came before it.
#[derive(Clone, Copy, Debug, PartialEq, Eq)]
pub enum Standing {
    /// The request was completed before: it is a repeat.
    Completed,
    /// It is the one in progress.
    InProgress,
    /// Another one is in progress.
    AnotherInProgress,
    /// It is not the next one.
    OutOfOrder,
    /// It is the next one.
    Next,
}

/// What a request that came leads to.
#[derive(Debug, Drop)]
pub enum Arrival {
    /// It is answered so, and resets nothing.
    Answered(ReconfigResult),
    /// It is performed now: the caller resets its streams, and then answers SuccessPerformed.
    Performed(PeerRequest),
}

impl Arrival {
    ghost use Rattle.sctp_reset_requests.specs.Peer.{result_of};

    /// What is answered to the request.
    pub fn result(&self) -> ReconfigResult
        ensures { result ≡ result_of self.now }
    {
        match self {
            Arrival::Answered(result) => *result,
            Arrival::Performed(_) => ReconfigResult::SuccessPerformed,
        }
    }
}

/// The answer to the request with this number (RFC 6525 section 4.4).
pub fn response_to(number: u32, answer: ReconfigResult) -> ParamReconfigResponse
    ensures { result ≡ response_to number answer }
{
    ParamReconfigResponse {
        reconfig_response_sequence_number: number,
        result: answer,
    }
}
