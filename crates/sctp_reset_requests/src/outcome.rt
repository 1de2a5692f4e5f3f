// How a request of this side is answered (RFC 6525 sections 4.4 and 5.2.7).
ghost use Rattle.std.specs.Prelude.{◌≡◌};
ghost use Rattle.sctp_reset_requests.specs.Own.{outcome_of};

use crate::OwnRequest;
use sctp_wire_types::{ReconfigResult, StreamResetError};

/// What a response of the peer leads to.
#[derive(Debug, Drop)]
pub enum Answered {
    /// It does not name the active request, and changes nothing.
    Ignored,
    /// The active request goes on: the peer has not got all DATA before it. It is not repeated before the timer, which
    /// starts anew, expires.
    InProgress,
    /// The active request ended so.
    Ended(OwnRequest, Result<(), StreamResetError>),
}

/// How a result ends the request that it answers. None: the request goes on.
pub fn outcome_of(answer: ReconfigResult) -> Option<Result<(), StreamResetError>>
    ensures { result ≡ outcome_of answer }
{
    match answer {
        ReconfigResult::SuccessNop | ReconfigResult::SuccessPerformed => Some(Ok(())),
        ReconfigResult::InProgress => None,
        ReconfigResult::Denied => Some(Err(StreamResetError::Denied)),
        _ => Some(Err(StreamResetError::Failed)),
    }
}
