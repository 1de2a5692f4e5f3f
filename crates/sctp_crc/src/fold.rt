// Folding by a sparse multiple of the polynomial, without look-ups (published as Chorba, by Russell, 2024). A sum stays
// the same where a byte is made zero and its value is xored into the bytes that stand 21, 47, 60, 65, 70, 94 and 98
// places after it. None of them is nearer than sixteen places, so sixteen bytes are folded at once.
ghost use Rattle.std.specs.Prelude.{◌≡◌};
ghost use Rattle.sctp_crc.specs.Fold.{state_bytes};

use std::simd::prelude::*;

/// How many bytes are kept: whole vectors, and no fewer than 98.
pub(crate) const KEPT_LEN: usize = 112;

/// The last seven vectors that were folded, the newest first.
#[derive(Clone, Copy)]
pub(crate) struct Kept {
    first: u8x16,
    second: u8x16,
    third: u8x16,
    fourth: u8x16,
    fifth: u8x16,
    sixth: u8x16,
    seventh: u8x16,
}

impl Kept {
    ghost use Rattle.std.specs.Prelude.{◌≡◌, length};
    ghost use Rattle.sctp_crc.specs.Fold.{taken, moved, IsKept, nothing_kept};

    /// Zeros, where nothing was folded yet.
    #[inline(always)]
    pub(crate) fn new() -> Kept
        ensures { result ≡ nothing_kept }
    {
        let zeros = u8x16::splat(0);
        Kept {
            first: zeros,
            second: zeros,
            third: zeros,
            fourth: zeros,
            fifth: zeros,
            sixth: zeros,
            seventh: zeros,
        }
    }

    /// The bytes that follow the kept ones, with what they take in: each from those that stand 21, 47, 60, 65, 70, 94
    /// and 98 places before it.
    #[inline(always)]
    #[rattlefmt::skip]
    pub(crate) fn taken(self, block: u8x16) -> u8x16
        requires { IsKept self × (length block ≡ 16) }
        ensures bytes { result ≡ taken self block }
        ensures length { length result ≡ 16 }
    {
        let at_21 = self.second.shuffle(self.first, [11, 12, 13, 14, 15, 16, 17, 18, 19, 20, 21, 22, 23, 24, 25, 26]);
        let at_47 = self.third.shuffle(self.second, [1, 2, 3, 4, 5, 6, 7, 8, 9, 10, 11, 12, 13, 14, 15, 16]);
        let at_60 = self.fourth.shuffle(self.third, [4, 5, 6, 7, 8, 9, 10, 11, 12, 13, 14, 15, 16, 17, 18, 19]);
        let at_65 = self.fifth.shuffle(self.fourth, [15, 16, 17, 18, 19, 20, 21, 22, 23, 24, 25, 26, 27, 28, 29, 30]);
        let at_70 = self.fifth.shuffle(self.fourth, [10, 11, 12, 13, 14, 15, 16, 17, 18, 19, 20, 21, 22, 23, 24, 25]);
        let at_94 = self.sixth.shuffle(self.fifth, [2, 3, 4, 5, 6, 7, 8, 9, 10, 11, 12, 13, 14, 15, 16, 17]);
        let at_98 = self.seventh.shuffle(self.sixth, [14, 15, 16, 17, 18, 19, 20, 21, 22, 23, 24, 25, 26, 27, 28, 29]);
        block ^ (at_21 ^ (at_47 ^ (at_60 ^ (at_65 ^ (at_70 ^ (at_94 ^ at_98))))))
    }

    /// What is kept once `newest` is folded too.
    #[inline(always)]
    pub(crate) fn followed_by(self, newest: u8x16) -> Kept
        ensures { result ≡ moved newest self }
    {
        Kept {
            first: newest,
            second: self.first,
            third: self.second,
            fourth: self.third,
            fifth: self.fourth,
            sixth: self.fifth,
            seventh: self.sixth,
        }
    }

    /// The last bytes, as many as are kept, with what they take in.
    pub(crate) fn last_taken(self, bytes: &[u8]) -> [u8; KEPT_LEN]
        requires { IsKept self × (length bytes.now ≡ KEPT_LEN) }
        ensures { result ≡ taken self bytes.now }
    {
        let mut kept = self;
        let mut rest = bytes;
        let mut last = [0; KEPT_LEN];
        let mut at = 0;
        'vectors: while at < KEPT_LEN {
            let (block, after) = rest.split_at(16);
            kept.taken(u8x16::from_slice(block))
                .copy_to_slice(&mut last[at..at + 16]);
            kept = kept.followed_by(u8x16::splat(0));
            rest = after;
            at += 16;
        }
        last
    }
}

/// The bytes of a state, low byte first, and zeros.
pub(crate) fn state_bytes(state: u32) -> u8x16
    ensures { result ≡ state_bytes state }
{
    let low = (state % 256) as u8;
    let second = (state / 256 % 256) as u8;
    let third = (state / 65_536 % 256) as u8;
    let high = (state / 16_777_216) as u8;
    u8x16::from_array([low, second, third, high, 0, 0, 0, 0, 0, 0, 0, 0, 0, 0, 0, 0])
}
