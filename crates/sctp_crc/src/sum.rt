// The sum: of short inputs sixteen bytes a step out of one table, of long ones by folding.
ghost use Rattle.std.specs.Prelude.{◌≡◌, ◌+◌, ◌*◌, ◌%◌, ◌<◌, ◌≤◌, [], ◌∷◌, length};
ghost use Rattle.sctp_crc.specs.Crc.{crc_bits, crc_run, crc32c as sum_of_bytes, sum_of_packet};
ghost use Rattle.sctp_crc.specs.Fold.{IsKept, taken};

use crate::fold::{KEPT_LEN, Kept, state_bytes};
use crate::table::TABLE;
use std::simd::prelude::*;

/// Where the checksum stands in a packet: after the ports and the verification tag.
const SUM_AT: usize = 8;

const SUM_LEN: usize = 4;

/// From this length on folding pays; at 192 bytes it takes as long as looking up.
const FOLDED_FROM: usize = 256;

/// What `byte` becomes after `8 * index + 8` bits.
#[inline]
fn looked_up(index: usize, byte: u8) -> u32
    requires { index < 16 }
    ensures { result ≡ crc_bits (8 * index + 8) byte }
{
    TABLE[256 * index + byte as usize]
}

// The lookups that do not need the state stand first, so that only four wait for it.
fn run_sixteen(state: u32, block: &[u8]) -> u32
    requires { length block.now ≡ 16 }
    ensures { result ≡ crc_run state block.now }
{
    let x4 = looked_up(11, block[4]);
    let x5 = looked_up(10, block[5]);
    let x6 = looked_up(9, block[6]);
    let x7 = looked_up(8, block[7]);
    let x8 = looked_up(7, block[8]);
    let x9 = looked_up(6, block[9]);
    let x10 = looked_up(5, block[10]);
    let x11 = looked_up(4, block[11]);
    let x12 = looked_up(3, block[12]);
    let x13 = looked_up(2, block[13]);
    let x14 = looked_up(1, block[14]);
    let x15 = looked_up(0, block[15]);
    let x0 = looked_up(15, (state % 256) as u8 ^ block[0]);
    let x1 = looked_up(14, (state / 256 % 256) as u8 ^ block[1]);
    let x2 = looked_up(13, (state / 65_536 % 256) as u8 ^ block[2]);
    let x3 = looked_up(12, (state / 16_777_216) as u8 ^ block[3]);
    let high = x8 ^ (x9 ^ (x10 ^ (x11 ^ (x12 ^ (x13 ^ (x14 ^ x15))))));
    x0 ^ (x1 ^ (x2 ^ (x3 ^ (x4 ^ (x5 ^ (x6 ^ (x7 ^ high)))))))
}

fn run_four(state: u32, block: &[u8]) -> u32
    requires { length block.now ≡ 4 }
    ensures { result ≡ crc_run state block.now }
{
    let x0 = looked_up(3, (state % 256) as u8 ^ block[0]);
    let x1 = looked_up(2, (state / 256 % 256) as u8 ^ block[1]);
    let x2 = looked_up(1, (state / 65_536 % 256) as u8 ^ block[2]);
    let x3 = looked_up(0, (state / 16_777_216) as u8 ^ block[3]);
    x0 ^ (x1 ^ (x2 ^ x3))
}

fn run_byte(state: u32, byte: u8) -> u32
    ensures { result ≡ crc_run state (byte ∷ []) }
{
    looked_up(0, (state % 256) as u8 ^ byte) ^ (state / 256)
}

fn run_looked_up(start: u32, bytes: &[u8]) -> u32
    ensures { result ≡ crc_run start bytes.now }
{
    let mut state = start;
    let mut rest = bytes;
    'sixteens: while rest.len() >= 16 {
        let (block, after) = rest.split_at(16);
        state = run_sixteen(state, block);
        rest = after;
    }
    'fours: while rest.len() >= 4 {
        let (block, after) = rest.split_at(4);
        state = run_four(state, block);
        rest = after;
    }
    for byte in rest {
        state = run_byte(state, *byte);
    }
    state
}

// The next sixteen bytes are folded: they count as zero, and what is kept has them.
#[inline(always)]
fn fold_block(kept: Kept, bytes: &[u8]) -> (Kept, &[u8])
    requires kept { IsKept kept }
    requires enough { 128 ≤ length bytes.now }
    ensures kept { IsKept result.0 }
    ensures rest { length result.1.now + 16 ≡ length bytes.now }
    ensures same { crc_run 0 (taken result.0 result.1.now) ≡ crc_run 0 (taken kept bytes.now) }
{
    let (block, rest) = bytes.split_at(16);
    let newest = kept.taken(u8x16::from_slice(block));
    (kept.followed_by(newest), rest)
}

// As many bytes are folded as are kept, so that each vector comes to stand where it stood, and none has to move.
#[inline(always)]
fn fold_seven(kept: Kept, bytes: &[u8]) -> (Kept, &[u8])
    requires kept { IsKept kept }
    requires enough { 224 ≤ length bytes.now }
    ensures kept { IsKept result.0 }
    ensures rest { length result.1.now + 112 ≡ length bytes.now }
    ensures same { crc_run 0 (taken result.0 result.1.now) ≡ crc_run 0 (taken kept bytes.now) }
{
    let (kept, rest) = fold_block(kept, bytes);
    let (kept, rest) = fold_block(kept, rest);
    let (kept, rest) = fold_block(kept, rest);
    let (kept, rest) = fold_block(kept, rest);
    let (kept, rest) = fold_block(kept, rest);
    let (kept, rest) = fold_block(kept, rest);
    fold_block(kept, rest)
}

// The state goes into the first bytes. All but the last 112 bytes are folded, and count as zero.
fn run_folded(start: u32, blocks: &[u8]) -> u32
    requires enough { 128 ≤ length blocks.now }
    requires whole { length blocks.now % 16 ≡ 0 }
    ensures { result ≡ crc_run start blocks.now }
{
    let (first, mut rest) = blocks.split_at(16);
    let mut kept = Kept::new().followed_by(u8x16::from_slice(first) ^ state_bytes(start));
    'sevens: while rest.len() >= 2 * KEPT_LEN {
        (kept, rest) = fold_seven(kept, rest);
    }
    'folds: while rest.len() > KEPT_LEN {
        (kept, rest) = fold_block(kept, rest);
    }
    run_looked_up(0, &kept.last_taken(rest))
}

fn run(start: u32, bytes: &[u8]) -> u32
    ensures { result ≡ crc_run start bytes.now }
{
    if bytes.len() < FOLDED_FROM {
        return run_looked_up(start, bytes);
    }
    let (head, blocks) = bytes.split_at(bytes.len() % 16);
    run_folded(run_looked_up(start, head), blocks)
}

/// The checksum of `bytes`.
#[tactic(auto, unfolding(crate::specs::Crc::crc32c))]
pub fn crc32c(bytes: &[u8]) -> u32
    ensures { result ≡ sum_of_bytes bytes.now }
{
    !run(u32::MAX, bytes)
}

/// The checksum of a packet, its own field counting as 0.
pub fn packet_sum(packet: &[u8]) -> u32
    requires { 12 ≤ length packet.now }
    ensures { result ≡ sum_of_packet packet.now }
{
    let (head, tail) = packet.split_at(SUM_AT);
    let (_, chunks) = tail.split_at(SUM_LEN);
    !run(run(run(u32::MAX, head), &[0, 0, 0, 0]), chunks)
}
