//! Speed: runs of the bytes of lines, searched by vectors of bytes.
ghost use Rattle.std.specs.Prelude.{◌≡◌, ◌<◌, ◌≤◌, length, take, slice_index, All, not, map};
ghost use Rattle.std.specs.List.{prefix_len};
ghost use Rattle.std.specs.Simd.Lanes.{mask_l};
ghost use Rattle.vt_syntax.specs.Class.{is_of_lines, IsOfLines};

use crate::lanes::{ByteClass, end_from};
use std::simd::prelude::*;

/// The bytes of lines: BS to CR, 20..7F and A0..FF.
struct Lines;

impl ByteClass for Lines {
    ghost ends = { λ b. not (is_of_lines b) };

    #[inline(always)]
    fn has(byte: u8) -> bool {
        (0x08 <= byte && byte <= 0x0D) || (0x20 <= byte && byte <= 0x7F) || 0xA0 <= byte
    }

    /// Returns a bit for each byte that isn't of lines: twice it is below 40, and less 8 it is above 5, both with
    /// wrapping.
    #[inline(always)]
    fn ends_16(lanes: u8x16) -> u64 {
        let not_graphic = (lanes + lanes).simd_lt(u8x16::splat(0x40));
        let not_control = u8x16::splat(0x05).simd_lt(lanes - u8x16::splat(0x08));
        (not_graphic & not_control).to_bitmask()
    }

    #[inline(always)]
    fn ends_8(lanes: u8x8) -> u64 {
        let not_graphic = (lanes + lanes).simd_lt(u8x8::splat(0x40));
        let not_control = u8x8::splat(0x05).simd_lt(lanes - u8x8::splat(0x08));
        (not_graphic & not_control).to_bitmask()
    }
}

/// Returns a bit for each byte that isn't of lines.
#[inline(always)]
fn ends_64(lanes: u8x64) -> u64
    ensures { result ≡ mask_l (map (λ b. not (is_of_lines b)) lanes) }
{
    let not_graphic = (lanes + lanes).simd_lt(u8x64::splat(0x40));
    let not_control = u8x64::splat(0x05).simd_lt(lanes - u8x64::splat(0x08));
    (not_graphic & not_control).to_bitmask()
}

/// Returns how many bytes at the front of `piece` are of lines: BS to CR, 20..7F or A0..FF (this profile). Speed: such runs
/// are long, so it searches 64 bytes at a time.
#[inline(never)]
#[tactic(auto, using(crate::proofs::Runs::run_tests))]
pub fn lines_run(piece: &[u8]) -> usize
    ensures within { result ≤ length piece.now }
    ensures lines { All IsOfLines (take result piece.now) }
    ensures stops { result < length piece.now → ¬ IsOfLines (slice_index piece.now result) }
{
    end_of_lines(piece)
}

/// Returns the position of the first byte that isn't of lines, or the length.
#[inline(always)]
fn end_of_lines(piece: &[u8]) -> usize
    ensures { result ≡ prefix_len (λ b. not (not (is_of_lines b))) piece.now }
{
    let mut at = 0;
    while at + 64 <= piece.len() {
        if ends_64(u8x64::from_slice(&piece[at..])) != 0 {
            return end_from::<Lines>(piece, at);
        }
        at += 64;
    }
    end_from::<Lines>(piece, at)
}
