// Parameters and error causes.
use sctp_wire_queues::{ErrorCause, Param, ReconfigResult};
use std::io::{self, Write};

fn result_name(outcome: ReconfigResult) -> &'static str {
    match outcome {
        ReconfigResult::SuccessNop => "nothing to do",
        ReconfigResult::SuccessPerformed => "performed",
        ReconfigResult::Denied => "denied",
        ReconfigResult::ErrorWrongSsn => "wrong SSN",
        ReconfigResult::ErrorRequestAlreadyInProgress => "request already in progress",
        ReconfigResult::ErrorBadSequenceNumber => "bad sequence number",
        ReconfigResult::InProgress => "in progress",
        ReconfigResult::Unknown => "unknown",
    }
}

fn write_param<W: Write>(output: &mut W, param: &Param) -> io::Result<()> {
    match param {
        Param::HeartbeatInfo(info) => write!(output, "Heartbeat Info of {} bytes", info.len()),
        Param::StateCookie(cookie) => write!(output, "State Cookie of {} bytes", cookie.len()),
        Param::OutgoingResetRequest(request) => {
            let number = request.reconfig_request_sequence_number;
            let response = request.reconfig_response_sequence_number;
            let last = request.sender_last_tsn;
            write!(
                output,
                "Outgoing SSN Reset Request {number} after response {response}, last TSN {last}, streams"
            )?;
            for id in request.stream_identifiers.as_slice() {
                write!(output, " {id}")?;
            }
            Ok(())
        }
        Param::ReconfigResponse(response) => {
            let number = response.reconfig_response_sequence_number;
            let outcome = result_name(response.result);
            write!(output, "Re-configuration Response {number}: {outcome}")
        }
        Param::SupportedExtensions(types) => {
            write!(output, "Supported Extensions")?;
            for kind in types.as_slice() {
                write!(output, " {kind}")?;
            }
            Ok(())
        }
        Param::Other { kind, value } => {
            write!(output, "parameter {kind} of {} bytes", value.len())
        }
    }
}

/// The parameters, each behind a comma.
pub fn write_params<W: Write>(output: &mut W, params: &[Param]) -> io::Result<()> {
    for param in params {
        write!(output, ", ")?;
        write_param(output, param)?;
    }
    Ok(())
}

/// The error causes, each behind a comma.
pub fn write_causes<W: Write>(output: &mut W, causes: &[ErrorCause]) -> io::Result<()> {
    for cause in causes {
        write!(
            output,
            ", cause {} of {} bytes",
            cause.code,
            cause.value.len()
        )?;
    }
    Ok(())
}
