// Lists of entries of one width.
ghost use Rattle.std.specs.Prelude.{◌≡◌, ℕ, ◌*◌, ◌≤◌, List as Items, ◌++◌, length, IfOk, OnOk};
ghost use Rattle.std.specs.List.{flat_map, AllByRecursion};
ghost use Rattle.sctp_wire.specs.Numbers.{u16_at, u32_at, IsU16, IsU32};
ghost use Rattle.sctp_wire.specs.Frames.{entries_at};
ghost use Rattle.sctp_wire.specs.Params.{identifier_bytes};
ghost use Rattle.sctp_wire.specs.SelectiveAck.{tsn_bytes};

use crate::number::{put_u16, put_u32, read_u16, read_u32};
use sctp_wire_types::List;
use std::alloc::{AllocError, Global};

/// A part of a chunk that comes in any number, as it is read.
pub(crate) trait Entry: Sized + Drop {
    ghost WIDTH: { ℕ };

    /// Bytes of one entry.
    const WIDTH: usize;

    ghost entry_at: { Items ℕ → Self };

    fn read(bytes: &[u8]) -> Self
        requires { WIDTH ≤ length bytes.now }
        ensures { result ≡ entry_at bytes.now };
}

/// The first `count` entries of `bytes`.
pub(crate) fn read_entries<T: Entry>(
    alloc: Global,
    count: usize,
    bytes: &[u8],
) -> Result<List<T>, AllocError>
    requires { count * T.WIDTH ≤ length bytes.now }
    ensures { IfOk result (λ entries. entries ≡ entries_at T.entry_at T.WIDTH count bytes.now) }
{
    let mut entries = Vec::with_capacity(alloc, count)?;
    let mut rest = bytes;
    'entries: for _ in 0..count {
        entries.push(T::read(rest))?;
        let (_, after) = rest.split_at(T::WIDTH);
        rest = after;
    }
    Ok(List::from_vec(entries))
}

/// A part of a chunk that comes in any number, as it is written.
pub(crate) trait PutEntry: Sized {
    ghost entry_bytes: { Self → Items ℕ };

    ghost IsEntry: { Self → Type 0 };

    fn put(&self, out: &mut Vec<u8>) -> Result<(), AllocError>
        ensures bytes { OnOk result (out.new.items ≡ out.old.items ++ entry_bytes self.now) }
        ensures range { OnOk result (IsEntry self.now) };
}

/// All entries, one behind the other.
pub(crate) fn put_entries<T: PutEntry>(out: &mut Vec<u8>, entries: &[T]) -> Result<(), AllocError>
    ensures bytes { OnOk result (out.new.items ≡ out.old.items ++ flat_map T.entry_bytes entries.now) }
    ensures range { OnOk result (AllByRecursion T.IsEntry entries.now) }
{
    for entry in entries {
        entry.put(out)?;
    }
    Ok(())
}

impl Entry for u32 {
    ghost WIDTH = { 4 };

    const WIDTH: usize = 4;

    ghost entry_at = { λ bytes. u32_at bytes 0 };

    fn read(bytes: &[u8]) -> Self {
        read_u32(bytes, 0)
    }
}

impl PutEntry for u32 {
    ghost entry_bytes = { tsn_bytes };

    ghost IsEntry = { IsU32 };

    fn put(&self, out: &mut Vec<u8>) -> Result<(), AllocError> {
        put_u32(out, *self)
    }
}

impl Entry for u16 {
    ghost WIDTH = { 2 };

    const WIDTH: usize = 2;

    ghost entry_at = { λ bytes. u16_at bytes 0 };

    fn read(bytes: &[u8]) -> Self {
        read_u16(bytes, 0)
    }
}

impl PutEntry for u16 {
    ghost entry_bytes = { identifier_bytes };

    ghost IsEntry = { IsU16 };

    fn put(&self, out: &mut Vec<u8>) -> Result<(), AllocError> {
        put_u16(out, *self)
    }
}
