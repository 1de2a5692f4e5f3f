// Parameters and error causes.
ghost use Rattle.std.specs.Prelude.{◌≡◌, ◌++◌, OnOk, IfOk};
ghost use Rattle.sctp_wire.specs.Results.{Yields};
ghost use Rattle.sctp_wire.specs.Params.{result_of, number_of_result, reset_request_of, reset_request_value};
ghost use Rattle.sctp_wire.specs.Params.{IsResetRequest, reset_response_of, reset_response_value, IsResetResponse};
ghost use Rattle.sctp_wire.specs.Params.{param_of, param_frame, IsParam, params_at, cause_of, cause_frame, IsCause};
ghost use Rattle.sctp_wire.specs.Params.{causes_at};

use crate::entries::{put_entries, read_entries};
use crate::error::WireError;
use crate::frame::{Frame, put_bare};
use crate::items::{Item, PutItem, read_items};
use crate::number::{put_u32, read_u32};
use bytes::Bytes;
use sctp_wire_types::{
    ErrorCause, Fault, List, Param, ParamOutgoingResetRequest, ParamReconfigResponse,
    ReconfigResult,
};
use std::alloc::{AllocError, Global};

fn read_result(number: u32) -> ReconfigResult
    ensures { result ≡ result_of number }
{
    match number {
        0 => ReconfigResult::SuccessNop,
        1 => ReconfigResult::SuccessPerformed,
        2 => ReconfigResult::Denied,
        3 => ReconfigResult::ErrorWrongSsn,
        4 => ReconfigResult::ErrorRequestAlreadyInProgress,
        5 => ReconfigResult::ErrorBadSequenceNumber,
        6 => ReconfigResult::InProgress,
        _ => ReconfigResult::Unknown,
    }
}

fn result_number(outcome: ReconfigResult) -> u32
    ensures { result ≡ number_of_result outcome }
{
    match outcome {
        ReconfigResult::SuccessNop => 0,
        ReconfigResult::SuccessPerformed => 1,
        ReconfigResult::Denied => 2,
        ReconfigResult::ErrorWrongSsn => 3,
        ReconfigResult::ErrorRequestAlreadyInProgress => 4,
        ReconfigResult::ErrorBadSequenceNumber => 5,
        ReconfigResult::InProgress => 6,
        ReconfigResult::Unknown => 7,
    }
}

#[tactic(auto, unfolding(crate::specs::Params::reset_request_of))]
fn read_reset_request(alloc: Global, value: &[u8]) -> Result<ParamOutgoingResetRequest, WireError>
    ensures { Yields result (reset_request_of value.now) }
{
    if value.len() < 12 {
        return Err(WireError::Malformed(Fault::Short));
    }
    let (_, identifiers) = value.split_at(12);
    Ok(ParamOutgoingResetRequest {
        reconfig_request_sequence_number: read_u32(value, 0),
        reconfig_response_sequence_number: read_u32(value, 4),
        sender_last_tsn: read_u32(value, 8),
        stream_identifiers: read_entries(alloc, identifiers.len() / 2, identifiers)?,
    })
}

fn reset_request_bytes(
    alloc: Global,
    request: &ParamOutgoingResetRequest,
) -> Result<Vec<u8>, AllocError>
    ensures bytes { IfOk result (λ v. v.items ≡ reset_request_value request.now) }
    ensures range { OnOk result (IsResetRequest request.now) }
{
    let mut value = Vec::new(alloc);
    put_u32(&mut value, request.reconfig_request_sequence_number)?;
    put_u32(&mut value, request.reconfig_response_sequence_number)?;
    put_u32(&mut value, request.sender_last_tsn)?;
    put_entries(&mut value, request.stream_identifiers.as_slice())?;
    Ok(value)
}

#[tactic(auto, unfolding(crate::specs::Params::reset_response_of))]
fn read_reset_response(value: &[u8]) -> Result<ParamReconfigResponse, WireError>
    ensures { Yields result (reset_response_of value.now) }
{
    if value.len() < 8 {
        return Err(WireError::Malformed(Fault::Short));
    }
    Ok(ParamReconfigResponse {
        reconfig_response_sequence_number: read_u32(value, 0),
        result: read_result(read_u32(value, 4)),
    })
}

fn reset_response_bytes(
    alloc: Global,
    response: &ParamReconfigResponse,
) -> Result<Vec<u8>, AllocError>
    ensures bytes { IfOk result (λ v. v.items ≡ reset_response_value response.now) }
    ensures range { OnOk result (IsResetResponse response.now) }
{
    let mut value = Vec::new(alloc);
    put_u32(&mut value, response.reconfig_response_sequence_number)?;
    put_u32(&mut value, result_number(response.result))?;
    Ok(value)
}

impl Item for Param {
    ghost item_of = { param_of };

    #[tactic(auto, unfolding(crate::specs::Params::param_of))]
    fn read(alloc: Global, frame: Frame) -> Result<Param, WireError> {
        match frame.head {
            1 => Ok(Param::HeartbeatInfo(frame.value)),
            7 => Ok(Param::StateCookie(frame.value)),
            13 => Ok(Param::OutgoingResetRequest(read_reset_request(
                alloc,
                frame.value.as_slice(),
            )?)),
            16 => Ok(Param::ReconfigResponse(read_reset_response(frame.value.as_slice())?)),
            0x8008 => Ok(Param::SupportedExtensions(frame.value)),
            kind => Ok(Param::Other {
                kind,
                value: frame.value,
            }),
        }
    }
}

impl PutItem for Param {
    ghost frame_of = { param_frame };

    ghost IsItem = { IsParam };

    fn put(&self, alloc: Global, out: &mut Vec<u8>) -> Result<usize, WireError> {
        match self {
            Param::HeartbeatInfo(info) => put_bare(out, 1, info.as_slice()),
            Param::StateCookie(cookie) => put_bare(out, 7, cookie.as_slice()),
            Param::OutgoingResetRequest(request) => {
                let value = reset_request_bytes(alloc, request)?;
                put_bare(out, 13, value.as_slice())
            }
            Param::ReconfigResponse(response) => {
                let value = reset_response_bytes(alloc, response)?;
                put_bare(out, 16, value.as_slice())
            }
            Param::SupportedExtensions(types) => put_bare(out, 0x8008, types.as_slice()),
            Param::Other { kind, value } => put_bare(out, *kind, value.as_slice()),
        }
    }
}

impl Item for ErrorCause {
    ghost item_of = { cause_of };

    fn read(_alloc: Global, frame: Frame) -> Result<ErrorCause, WireError> {
        Ok(ErrorCause {
            code: frame.head,
            value: frame.value,
        })
    }
}

impl PutItem for ErrorCause {
    ghost frame_of = { cause_frame };

    ghost IsItem = { IsCause };

    fn put(&self, _alloc: Global, out: &mut Vec<u8>) -> Result<usize, WireError> {
        put_bare(out, self.code, self.value.as_slice())
    }
}

/// The parameters of a chunk.
pub(crate) fn read_params(alloc: Global, bytes: Bytes) -> Result<List<Param>, WireError>
    ensures { Yields result (params_at bytes) }
{
    read_items(alloc, 4, bytes)
}

/// The error causes of a chunk.
pub(crate) fn read_causes(alloc: Global, bytes: Bytes) -> Result<List<ErrorCause>, WireError>
    ensures { Yields result (causes_at bytes) }
{
    read_items(alloc, 4, bytes)
}
