//! Speed: runs of plain bytes, searched by vectors of bytes.
ghost use Rattle.std.specs.Prelude.{◌≡◌, ◌<◌, ◌≤◌, length, take, slice_index, All, not};
ghost use Rattle.vt_syntax.specs.Class.{is_plain, IsPlain};

use crate::lanes::{ByteClass, end_of};
use std::simd::prelude::*;

/// The plain bytes, 20..7E.
struct Plain;

impl ByteClass for Plain {
    ghost ends = { λ b. not (is_plain b) };

    #[inline(always)]
    fn has(byte: u8) -> bool {
        0x20 <= byte && byte < 0x7F
    }

    /// Returns a bit for each byte that isn't plain: less 20, with wrapping, it is above 5E.
    #[inline(always)]
    fn ends_16(lanes: u8x16) -> u64 {
        u8x16::splat(0x5E)
            .simd_lt(lanes - u8x16::splat(0x20))
            .to_bitmask()
    }

    #[inline(always)]
    fn ends_8(lanes: u8x8) -> u64 {
        u8x8::splat(0x5E)
            .simd_lt(lanes - u8x8::splat(0x20))
            .to_bitmask()
    }
}

/// Returns how many bytes at the front of `piece` are plain, 20..7E (ECMA-35 6.2).
#[tactic(auto, using(crate::proofs::Runs::run_tests))]
pub fn plain_run(piece: &[u8]) -> usize
    ensures within { result ≤ length piece.now }
    ensures plain { All IsPlain (take result piece.now) }
    ensures stops { result < length piece.now → ¬ IsPlain (slice_index piece.now result) }
{
    end_of::<Plain>(piece)
}
