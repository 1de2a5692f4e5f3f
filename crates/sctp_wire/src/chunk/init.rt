// INIT and INIT ACK (RFC 4960 sections 3.3.2 and 3.3.3).
ghost use Rattle.std.specs.Prelude.{◌≡◌, ◌++◌, ◌&&◌, OnOk};
ghost use Rattle.std.specs.List.{list_all};
ghost use Rattle.sctp_wire.specs.Results.{Yields, Appends};
ghost use Rattle.sctp_wire.specs.Frames.{framed, padded, frame_fits};
ghost use Rattle.sctp_wire.specs.Params.{param_fits};
ghost use Rattle.sctp_wire.specs.Init.{init_of, init_value, IsInit};

use crate::error::WireError;
use crate::frame::put_padded;
use crate::items::put_items;
use crate::number::{put_u16, put_u32, read_u16, read_u32};
use crate::param::read_params;
use bytes::Bytes;
use sctp_wire_types::{ChunkInit, Fault};
use std::alloc::Global;

#[tactic(auto, unfolding(crate::specs::Init::init_of))]
pub(crate) fn read_init(alloc: Global, value: Bytes) -> Result<ChunkInit, WireError>
    ensures { Yields result (init_of value) }
{
    let mut rest = value;
    if rest.len() < 16 {
        return Err(WireError::Malformed(Fault::Short));
    }
    let fields = rest.as_slice();
    let initiate_tag = read_u32(fields, 0);
    let advertised_receiver_window_credit = read_u32(fields, 4);
    let num_outbound_streams = read_u16(fields, 8);
    let num_inbound_streams = read_u16(fields, 10);
    let initial_tsn = read_u32(fields, 12);
    rest.advance(16);
    let params = read_params(alloc, rest)?;
    Ok(ChunkInit {
        initiate_tag,
        advertised_receiver_window_credit,
        num_outbound_streams,
        num_inbound_streams,
        initial_tsn,
        params,
    })
}

pub(crate) fn put_init(
    alloc: Global,
    out: &mut Vec<u8>,
    head: u16,
    init: &ChunkInit,
) -> Result<(), WireError>
    ensures bytes { Appends result
        (list_all param_fits init.now.params && frame_fits (framed head (init_value init.now)))
        out.old.items out.new.items (padded (framed head (init_value init.now))) }
    ensures range { OnOk result (IsInit init.now) }
{
    let mut value = Vec::new(alloc);
    put_u32(&mut value, init.initiate_tag)?;
    put_u32(&mut value, init.advertised_receiver_window_credit)?;
    put_u16(&mut value, init.num_outbound_streams)?;
    put_u16(&mut value, init.num_inbound_streams)?;
    put_u32(&mut value, init.initial_tsn)?;
    put_items(alloc, &mut value, init.params.as_slice())?;
    put_padded(out, head, value.as_slice())
}
