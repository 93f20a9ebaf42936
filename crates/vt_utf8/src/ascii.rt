//! Speed: runs of ASCII bytes, searched by vectors of bytes. A search byte by byte finds the same end.
ghost use Rattle.std.specs.Prelude.{◌≡◌, ◌+◌, ◌<◌, ◌≤◌, All, length, map, take, drop};
ghost use Rattle.std.specs.List.{prefix_len};
ghost use Rattle.std.specs.Simd.Lanes.{mask_l};
ghost use Rattle.vt_utf8.specs.Private.Ascii.{is_ascii, is_beyond};

use std::simd::prelude::*;

/// Returns a bit for each byte that isn't ASCII.
#[inline(always)]
fn beyond_ascii(lanes: u8x16) -> u64
    ensures { result ≡ mask_l (map is_beyond lanes) }
{
    u8x16::splat(0x7F).simd_lt(lanes).to_bitmask()
}

/// Returns how many bytes at the front of a piece are ASCII, if those before `from` are.
#[inline(always)]
fn end_of_slowly(piece: &[u8], from: usize) -> usize
    requires { from ≤ length piece.now }
    ensures { result ≡ from + prefix_len is_ascii (drop from piece.now) }
{
    let mut at = from;
    while at < piece.len() && piece[at] < 0x80 {
        at += 1;
    }
    at
}

/// Returns the position of the first byte that isn't ASCII, or the length.
#[inline(always)]
fn end_of(piece: &[u8]) -> usize
    ensures { result ≡ prefix_len is_ascii piece.now }
{
    let mut at = 0;
    while at + 16 <= piece.len() {
        let beyond = beyond_ascii(u8x16::from_slice(&piece[at..]));
        if beyond != 0 {
            return at + beyond.trailing_zeros() as usize;
        }
        at += 16;
    }
    end_of_slowly(piece, at)
}

/// Returns how many bytes at the front of a chunk are ASCII.
#[inline(always)]
#[tactic(auto, using(crate::proofs::Lanes::run_tests))]
pub fn ascii_run(piece: &[u8]) -> usize
    ensures within { result ≤ length piece.now }
    ensures ascii { All (λ b. b < 0x80) (take result piece.now) }
{
    end_of(piece)
}
