//! Speed: the end of a run of bytes of one class, searched by vectors of bytes. A search byte by byte finds the same
//! end.
ghost use Rattle.std.specs.Prelude.{◌≡◌, ◌+◌, ◌≤◌, ℕ, Bool, length, map, not, drop};
ghost use Rattle.std.specs.List.{prefix_len};
ghost use Rattle.std.specs.Simd.Lanes.{mask_l};

use std::simd::prelude::*;

/// A class of bytes, by its test of one byte, and of each lane of a vector. The other bytes end a run.
pub(crate) trait ByteClass {
    ghost ends: { ℕ → Bool };

    /// Returns whether a byte is of the class.
    fn has(byte: u8) -> bool
        ensures { result ≡ not (ends byte) };

    /// Returns a bit for each lane that isn't of the class.
    fn ends_16(lanes: u8x16) -> u64
        ensures { result ≡ mask_l (map ends lanes) };

    /// Returns a bit for each lane that isn't of the class.
    fn ends_8(lanes: u8x8) -> u64
        ensures { result ≡ mask_l (map ends lanes) };
}

/// Returns the position of the first byte that isn't of the class, or the length. Searches 16 bytes at a time. (Most
/// runs end in the first vector, so it comes before the loop.)
#[inline(always)]
pub(crate) fn end_of<C: ByteClass>(piece: &[u8]) -> usize
    ensures { result ≡ prefix_len (λ b. not (C.ends b)) piece.now }
{
    if piece.len() < 16 {
        return end_of_8::<C>(piece, 0);
    }
    let ends = C::ends_16(u8x16::from_slice(piece));
    if ends != 0 {
        return ends.trailing_zeros() as usize;
    }
    end_from::<C>(piece, 16)
}

/// Returns the position of the first byte at or after `from` that isn't of the class, or the length.
#[inline(always)]
pub(crate) fn end_from<C: ByteClass>(piece: &[u8], from: usize) -> usize
    requires { from ≤ length piece.now }
    ensures { result ≡ from + prefix_len (λ b. not (C.ends b)) (drop from piece.now) }
{
    let mut at = from;
    while at + 16 <= piece.len() {
        let ends = C::ends_16(u8x16::from_slice(&piece[at..]));
        if ends != 0 {
            return at + ends.trailing_zeros() as usize;
        }
        at += 16;
    }
    end_of_8::<C>(piece, at)
}

/// Returns the position of the first byte at or after `at` that isn't of the class, or the length, if fewer than 16
/// bytes remain.
#[inline(always)]
fn end_of_8<C: ByteClass>(piece: &[u8], at: usize) -> usize
    requires { at ≤ length piece.now }
    ensures { result ≡ at + prefix_len (λ b. not (C.ends b)) (drop at piece.now) }
{
    if piece.len() - at < 8 {
        return end_of_slowly::<C>(piece, at);
    }
    let ends = C::ends_8(u8x8::from_slice(&piece[at..]));
    if ends != 0 {
        return at + ends.trailing_zeros() as usize;
    }
    end_of_slowly::<C>(piece, at + 8)
}

/// Returns the position of the first byte at or after `from` that isn't of the class, or the length. Searches byte by
/// byte.
#[inline(always)]
fn end_of_slowly<C: ByteClass>(piece: &[u8], from: usize) -> usize
    requires { from ≤ length piece.now }
    ensures { result ≡ from + prefix_len (λ b. not (C.ends b)) (drop from piece.now) }
{
    let mut at = from;
    while at < piece.len() && C::has(piece[at]) {
        at += 1;
    }
    at
}
