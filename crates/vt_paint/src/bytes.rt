//! Bytes and numbers, appended to an output that has capacity for them, or written into a buffer.
ghost use Rattle.std.specs.Prelude.{◌≡◌, ℕ, ◌+◌, ◌≤◌, ◌++◌, length, take, decimal, vec_len, vec_capacity};
ghost use Rattle.vt_screen.specs.Same.{when};

use itoa::{Buffer, Integer};

/// Appends bytes. `out` has capacity for them.
#[inline(always)]
pub fn push_bytes(bytes: &[u8], out: &mut Vec<u8>)
    requires { vec_len out.old + length bytes.now ≤ vec_capacity out.old }
    ensures items { out.new.items ≡ out.old.items ++ bytes.now }
    ensures bounded { vec_len out.new ≤ vec_len out.old + length bytes.now }
    ensures capacity { vec_capacity out.old ≤ vec_capacity out.new }
{
    out.extend_from_slice(bytes).unwrap();
}

/// Appends bytes if a test passes. `out` has capacity for them.
#[inline(always)]
pub fn push_when(test: bool, bytes: &[u8], out: &mut Vec<u8>)
    requires { vec_len out.old + length bytes.now ≤ vec_capacity out.old }
    ensures items { out.new.items ≡ out.old.items ++ when test bytes.now }
    ensures bounded { vec_len out.new ≤ vec_len out.old + length bytes.now }
    ensures capacity { vec_capacity out.old ≤ vec_capacity out.new }
{
    if test {
        push_bytes(bytes, out);
    }
}

/// Appends a number in decimal. `out` has capacity for the longest number of its type.
#[inline(always)]
pub fn push_number<I: Integer>(n: I, out: &mut Vec<u8>)
    requires { vec_len out.old + I.MAX_STR_LEN ≤ vec_capacity out.old }
    ensures items { out.new.items ≡ out.old.items ++ I.text n }
    ensures bounded { vec_len out.new ≤ vec_len out.old + I.MAX_STR_LEN }
    ensures capacity { vec_capacity out.old ≤ vec_capacity out.new }
{
    let mut buffer = Buffer::new();
    push_bytes(buffer.format(n).as_bytes(), out);
}

/// Writes a part at a position. Returns the position after it.
#[inline(always)]
pub fn put_part<const N: usize>(part: &[u8], at: usize, all: &mut [u8; N]) -> usize
    requires { at + length part.now ≤ N }
    ensures items { take result all.new ≡ take at all.old ++ part.now }
    ensures kept { (n : ℕ) → n ≤ at → take n all.new ≡ take n all.old }
    ensures next { result ≡ at + length part.now }
{
    put_front(part, part.len(), at, all)
}

/// Writes the first `len` bytes of a part. Returns the position after them. Speed: the part is copied whole.
#[inline(always)]
pub fn put_front<const N: usize>(part: &[u8], len: usize, at: usize, all: &mut [u8; N]) -> usize
    requires len { len ≤ length part.now }
    requires room { at + length part.now ≤ N }
    ensures items { take result all.new ≡ take at all.old ++ take len part.now }
    ensures kept { (n : ℕ) → n ≤ at → take n all.new ≡ take n all.old }
    ensures next { result ≡ at + len }
{
    for (i, byte) in part.iter().enumerate() {
        all[at + i] = *byte;
    }
    at + len
}

/// Speed: writes a number in decimal at a position. Returns the position after it.
#[inline(always)]
pub(crate) fn put_number<const N: usize>(n: u8, at: usize, all: &mut [u8; N]) -> usize
    requires { at + 3 ≤ N }
    ensures items { take result all.new ≡ take at all.old ++ decimal n }
    ensures next { result ≡ at + length (decimal n) }
    ensures bounded { result ≤ at + 3 }
{
    if n < 10 {
        return put_part(&[b'0' + n], at, all);
    }
    if n < 100 {
        return put_part(&[b'0' + n / 10, b'0' + n % 10], at, all);
    }
    put_part(
        &[b'0' + n / 100, b'0' + n / 10 % 10, b'0' + n % 10],
        at,
        all,
    )
}
