// RE-CONFIG (RFC 6525 section 3.1).
ghost use Rattle.std.specs.Prelude.{◌≡◌, ◌++◌, ◌&&◌, OnOk};
ghost use Rattle.std.specs.List.{list_all, AllByRecursion};
ghost use Rattle.sctp_wire.specs.Results.{Yields, Appends};
ghost use Rattle.sctp_wire.specs.Frames.{framed, padded, frame_fits, joined};
ghost use Rattle.sctp_wire.specs.Params.{param_frame, param_fits, IsParam};
ghost use Rattle.sctp_wire.specs.Reconfig.{reconfig_of, reconfig_list, reconfig_params};

use crate::error::WireError;
use crate::frame::{put_padded, put_padding, read_frame};
use crate::items::{Item, PutItem};
use bytes::Bytes;
use sctp_wire_types::{ChunkReconfig, Param};
use std::alloc::Global;

#[tactic(auto, unfolding(crate::specs::Reconfig::reconfig_of))]
pub(crate) fn read_reconfig(alloc: Global, value: Bytes) -> Result<ChunkReconfig, WireError>
    ensures { Yields result (reconfig_of value) }
{
    let mut rest = value;
    let frame = read_frame(&mut rest)?;
    let first = Param::read(alloc, frame)?;
    if rest.len() < 4 {
        return Ok(ChunkReconfig {
            first,
            second: None,
        });
    }
    let frame = read_frame(&mut rest)?;
    let second = Param::read(alloc, frame)?;
    Ok(ChunkReconfig {
        first,
        second: Some(second),
    })
}

#[tactic(auto, unfolding(crate::specs::Frames::joined))]
fn put_reconfig_params(
    alloc: Global,
    out: &mut Vec<u8>,
    first: &Param,
    second: &Option<Param>,
) -> Result<(), WireError>
    ensures bytes { Appends result (list_all param_fits (reconfig_list first.now second.now))
        out.old.items out.new.items (joined param_frame (reconfig_list first.now second.now)) }
    ensures range { OnOk result (AllByRecursion IsParam (reconfig_list first.now second.now)) }
{
    let len = first.put(alloc, out)?;
    match second {
        None => Ok(()),
        Some(param) => {
            put_padding(out, len)?;
            param.put(alloc, out)?;
            Ok(())
        }
    }
}

pub(crate) fn put_reconfig(
    alloc: Global,
    out: &mut Vec<u8>,
    reconfig: &ChunkReconfig,
) -> Result<(), WireError>
    ensures bytes { Appends result (list_all param_fits (reconfig_params reconfig.now)
        && frame_fits (framed 33280 (joined param_frame (reconfig_params reconfig.now))))
        out.old.items out.new.items (padded (framed 33280 (joined param_frame (reconfig_params reconfig.now)))) }
    ensures range { OnOk result (AllByRecursion IsParam (reconfig_params reconfig.now)) }
{
    let mut value = Vec::new(alloc);
    put_reconfig_params(alloc, &mut value, &reconfig.first, &reconfig.second)?;
    put_padded(out, 33280, value.as_slice())
}
