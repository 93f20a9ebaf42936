//! Speed: runs of bytes of the graphic areas, searched by vectors of bytes.
ghost use Rattle.std.specs.Prelude.{◌≡◌, ◌<◌, ◌≤◌, length, take, slice_index, All, not};
ghost use Rattle.std.specs.Bool.{OnTrue};
ghost use Rattle.vt_syntax.specs.Class.{is_in_areas, IsInAreas};

use crate::lanes::{ByteClass, end_of};
use std::simd::prelude::*;

/// The bytes of the graphic areas.
struct Graphic;

impl ByteClass for Graphic {
    ghost ends = { λ b. not (is_in_areas b) };

    #[inline(always)]
    fn has(byte: u8) -> bool {
        is_in_areas(byte)
    }

    /// Returns a bit for each byte that is in neither area: less 20 it is above 5E, and less A1 above 5D, both with
    /// wrapping.
    #[inline(always)]
    fn ends_16(lanes: u8x16) -> u64 {
        let not_left = u8x16::splat(0x5E).simd_lt(lanes - u8x16::splat(0x20));
        let not_right = u8x16::splat(0x5D).simd_lt(lanes - u8x16::splat(0xA1));
        (not_left & not_right).to_bitmask()
    }

    #[inline(always)]
    fn ends_8(lanes: u8x8) -> u64 {
        let not_left = u8x8::splat(0x5E).simd_lt(lanes - u8x8::splat(0x20));
        let not_right = u8x8::splat(0x5D).simd_lt(lanes - u8x8::splat(0xA1));
        (not_left & not_right).to_bitmask()
    }
}

/// Returns whether a byte is in one of the two graphic areas of the code table, or is the space: 20..7E or A1..FE.
#[inline(always)]
fn is_in_areas(byte: u8) -> bool
    ensures tells { result ≡ is_in_areas byte }
    ensures graphic { OnTrue result (IsInAreas byte) }
{
    (0x20 <= byte && byte <= 0x7E) || (0xA1 <= byte && byte <= 0xFE)
}

/// Returns how many bytes at the front of `piece` are of the graphic areas, 20..7E or A1..FE (ECMA-35 6.2).
#[inline(always)]
#[tactic(auto, using(crate::proofs::Runs::run_tests))]
pub fn graphic_run(piece: &[u8]) -> usize
    ensures within { result ≤ length piece.now }
    ensures graphic { All IsInAreas (take result piece.now) }
    ensures stops { result < length piece.now → ¬ IsInAreas (slice_index piece.now result) }
{
    end_of::<Graphic>(piece)
}
