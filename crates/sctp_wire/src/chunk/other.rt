// The other chunks: those whose value is a list of parameters (HEARTBEAT, HEARTBEAT ACK) or of error causes (ABORT,
// ERROR), SHUTDOWN, and the head of one of an unknown type (RFC 4960 sections 3.3.5 to 3.3.13).
ghost use Rattle.std.specs.Prelude.{◌≡◌, ◌<◌, ◌+◌, ◌*◌, ◌&&◌, OnOk};
ghost use Rattle.std.specs.List.{list_all, AllByRecursion};
ghost use Rattle.std.specs.Int.{w32, to_be_bytes};
ghost use Rattle.sctp_wire.specs.Results.{Yields, Appends};
ghost use Rattle.sctp_wire.specs.Numbers.{IsU32};
ghost use Rattle.sctp_wire.specs.Frames.{framed, padded, frame_fits, joined};
ghost use Rattle.sctp_wire.specs.Params.{param_frame, param_fits, IsParam, cause_frame, cause_fits, IsCause};
ghost use Rattle.sctp_wire.specs.Chunks.{cumulative_tsn_ack_of};

use crate::error::WireError;
use crate::frame::put_padded;
use crate::items::put_items;
use crate::number::read_u32;
use sctp_wire_types::{ErrorCause, Fault, Param};
use std::alloc::Global;

pub(crate) fn put_params(
    alloc: Global,
    out: &mut Vec<u8>,
    head: u16,
    params: &[Param],
) -> Result<(), WireError>
    ensures bytes { Appends result
        (list_all param_fits params.now && frame_fits (framed head (joined param_frame params.now)))
        out.old.items out.new.items (padded (framed head (joined param_frame params.now))) }
    ensures range { OnOk result (AllByRecursion IsParam params.now) }
{
    let mut value = Vec::new(alloc);
    put_items(alloc, &mut value, params)?;
    put_padded(out, head, value.as_slice())
}

pub(crate) fn put_causes(
    alloc: Global,
    out: &mut Vec<u8>,
    head: u16,
    causes: &[ErrorCause],
) -> Result<(), WireError>
    ensures bytes { Appends result
        (list_all cause_fits causes.now && frame_fits (framed head (joined cause_frame causes.now)))
        out.old.items out.new.items (padded (framed head (joined cause_frame causes.now))) }
    ensures range { OnOk result (AllByRecursion IsCause causes.now) }
{
    let mut value = Vec::new(alloc);
    put_items(alloc, &mut value, causes)?;
    put_padded(out, head, value.as_slice())
}

#[tactic(auto, unfolding(crate::specs::Chunks::cumulative_tsn_ack_of))]
pub(crate) fn read_cumulative_tsn_ack(value: &[u8]) -> Result<u32, WireError>
    ensures { Yields result (cumulative_tsn_ack_of value.now) }
{
    if value.len() < 4 {
        return Err(WireError::Malformed(Fault::Short));
    }
    Ok(read_u32(value, 0))
}

pub(crate) fn put_cumulative_tsn_ack(
    out: &mut Vec<u8>,
    cumulative_tsn_ack: u32,
) -> Result<(), WireError>
    ensures bytes { Appends result (frame_fits (framed 1792 (to_be_bytes w32 cumulative_tsn_ack)))
        out.old.items out.new.items (padded (framed 1792 (to_be_bytes w32 cumulative_tsn_ack))) }
    ensures range { IsU32 cumulative_tsn_ack }
{
    put_padded(out, 1792, &cumulative_tsn_ack.to_be_bytes())
}

pub(crate) fn head_of(kind: u8, flags: u8) -> u16
    ensures exact { result ≡ kind * 256 + flags }
    ensures range { (kind < 256) × (flags < 256) }
{
    256 * u16::from(kind) + u16::from(flags)
}
