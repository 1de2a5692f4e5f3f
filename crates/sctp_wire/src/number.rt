// Numbers, high byte first: read at a place, and written at the end.
ghost use Rattle.std.specs.Prelude.{◌≡◌, ◌+◌, ◌≤◌, ◌++◌, length, OnOk};
ghost use Rattle.std.specs.Int.{w16, w32, to_be_bytes};
ghost use Rattle.sctp_wire.specs.Numbers.{u16_at, u32_at, IsU16, IsU32};

use std::alloc::AllocError;

/// The number of the two bytes at `at`.
pub(crate) fn read_u16(bytes: &[u8], at: usize) -> u16
    requires { at + 2 ≤ length bytes.now }
    ensures { result ≡ u16_at bytes.now at }
{
    u16::from_be_bytes([bytes[at], bytes[at + 1]])
}

/// The number of the four bytes at `at`.
pub(crate) fn read_u32(bytes: &[u8], at: usize) -> u32
    requires { at + 4 ≤ length bytes.now }
    ensures { result ≡ u32_at bytes.now at }
{
    u32::from_be_bytes([bytes[at], bytes[at + 1], bytes[at + 2], bytes[at + 3]])
}

/// Two bytes more.
pub(crate) fn put_u16(out: &mut Vec<u8>, number: u16) -> Result<(), AllocError>
    ensures bytes { OnOk result (out.new.items ≡ out.old.items ++ to_be_bytes w16 number) }
    ensures range { IsU16 number }
{
    out.extend_from_slice(&number.to_be_bytes())
}

/// Four bytes more.
pub(crate) fn put_u32(out: &mut Vec<u8>, number: u32) -> Result<(), AllocError>
    ensures bytes { OnOk result (out.new.items ≡ out.old.items ++ to_be_bytes w32 number) }
    ensures range { IsU32 number }
{
    out.extend_from_slice(&number.to_be_bytes())
}
