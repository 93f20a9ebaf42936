//! Speed: the content of strings, searched by vectors of bytes.
ghost use Rattle.std.specs.Prelude.{◌≡◌, ◌≤◌, Bool, [], length, take, not};
ghost use Rattle.vt_syntax.specs.declared.held.Held.TheVariants.{Text};
ghost use Rattle.vt_syntax.specs.Content.{goes_on};
ghost use Rattle.vt_syntax.specs.Steps.{step_to, steps};

use crate::lanes::{ByteClass, end_of};
use std::simd::prelude::*;

/// The bytes that can't end a string of any kind.
struct Content;

impl ByteClass for Content {
    ghost ends = { λ b. not (goes_on b) };

    #[inline(always)]
    fn has(byte: u8) -> bool {
        !matches!(byte, 0x07 | 0x18..=0x1B | 0x9C)
    }

    /// Returns a bit for each byte that may end a string: one of the four bytes starting at 18, or 9C, or 07.
    #[inline(always)]
    fn ends_16(lanes: u8x16) -> u64 {
        let ends = (lanes - u8x16::splat(0x18)).simd_lt(u8x16::splat(4));
        let is_st = (lanes - u8x16::splat(0x9C)).simd_lt(u8x16::splat(1));
        let is_bell = (lanes - u8x16::splat(0x07)).simd_lt(u8x16::splat(1));
        (ends | (is_st | is_bell)).to_bitmask()
    }

    #[inline(always)]
    fn ends_8(lanes: u8x8) -> u64 {
        let ends = (lanes - u8x8::splat(0x18)).simd_lt(u8x8::splat(4));
        let is_st = (lanes - u8x8::splat(0x9C)).simd_lt(u8x8::splat(1));
        let is_bell = (lanes - u8x8::splat(0x07)).simd_lt(u8x8::splat(1));
        (ends | (is_st | is_bell)).to_bitmask()
    }
}

/// Returns how many bytes at the front of a chunk can't end a string of any kind. They give no event.
#[tactic(auto, using(crate::proofs::Runs::content_run))]
pub(crate) fn content_len(piece: &[u8]) -> usize
    ensures within { result ≤ length piece.now }
    ensures content { (osc : Bool) → steps (Text osc) (take result piece.now) ≡ step_to (Text osc) [] }
{
    end_of::<Content>(piece)
}
