// Lists of frames: the chunks of a packet, the parameters or causes of a chunk.
ghost use Rattle.std.specs.Prelude.{◌≡◌, ◌+◌, ◌<◌, ◌^◌, Bool, true, ◌++◌, length, Result, OnOk};
ghost use Rattle.std.specs.List.{list_all, AllByRecursion};
ghost use Rattle.sctp_wire_types.specs.declared.error.Fault.{Fault as Faults};
ghost use Rattle.sctp_wire.specs.declared.frame.Frame.{Frame as Framed};
ghost use Rattle.sctp_wire.specs.Results.{Yields, Appends};
ghost use Rattle.sctp_wire.specs.Frames.{items_at, with_front, bare, frame_fits, joined, WritesBare};

use crate::error::WireError;
use crate::frame::{Frame, put_padding, read_frame};
use bytes::Bytes;
use sctp_wire_types::List;
use std::alloc::Global;

/// What one frame is read as.
pub(crate) trait Item: Sized + Drop {
    ghost item_of: { Framed → Result Self Faults };

    fn read(alloc: Global, frame: Frame) -> Result<Self, WireError>
        ensures { Yields result (item_of frame) };
}

/// The values of the frames, until fewer than `least` bytes are left.
pub(crate) fn read_items<T: Item>(
    alloc: Global,
    least: usize,
    bytes: Bytes,
) -> Result<List<T>, WireError>
    requires { 0 < least }
    ensures { Yields result (items_at T.item_of least bytes) }
{
    read_behind(alloc, least, List::new(alloc), bytes)
}

/// The same behind items that were read before.
pub(crate) fn read_behind<T: Item>(
    alloc: Global,
    least: usize,
    before: List<T>,
    bytes: Bytes,
) -> Result<List<T>, WireError>
    requires { 0 < least }
    ensures { Yields result (with_front before (items_at T.item_of least bytes)) }
{
    let mut items = before;
    let mut rest = bytes;
    'items: while rest.len() >= least {
        let frame = read_frame(&mut rest)?;
        let item = T::read(alloc, frame)?;
        items.push(item)?;
    }
    Ok(items)
}

/// What stands in a list inside a chunk.
pub(crate) trait PutItem: Sized {
    ghost frame_of: { Self → Framed };

    ghost IsItem: { Self → Type 0 };

    /// Its frame without padding; the answer is the length of its value.
    fn put(&self, alloc: Global, out: &mut Vec<u8>) -> Result<usize, WireError>
        ensures bytes { WritesBare result (frame_of self.now) out.old.items out.new.items }
        ensures range { OnOk result (IsItem self.now) };
}

/// All items, each but the last with its padding.
pub(crate) fn put_items<T: PutItem>(
    alloc: Global,
    out: &mut Vec<u8>,
    items: &[T],
) -> Result<(), WireError>
    ensures bytes { Appends result (list_all (λ x. frame_fits (T.frame_of x)) items.now) out.old.items out.new.items
        (joined T.frame_of items.now) }
    ensures range { OnOk result (AllByRecursion T.IsItem items.now) }
{
    let mut last_len = 0;
    'items: for item in items {
        put_padding(out, last_len)?;
        last_len = item.put(alloc, out)?;
    }
    Ok(())
}
