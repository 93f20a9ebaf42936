//! Speed: bytes, numbers and values, written one after another into a buffer that is appended at once. Each call begins
//! at a position of the buffer, and returns the position after the bytes that it wrote.
ghost use Rattle.std.specs.Prelude.{◌≡◌, ◌+◌, ◌*◌, ◌≤◌, ◌<◌, ◌++◌, ◌∷◌, [], Option, take, length, decimal};
ghost use Rattle.std.specs.Option.{option_to_list};
ghost use Rattle.vt_trace.specs.Lines.{shown_byte, shown, joined};

use crate::bytes::hex_digit;
use itoa::write_digits;

/// The capacity for a line and what its writers may write past its end.
pub(crate) const BUFFER: usize = 256;

/// The most digits of a number.
const DIGITS: usize = 20;

/// Writes a byte.
#[inline(always)]
pub(crate) fn put(byte: u8, at: usize, buffer: &mut [u8; BUFFER]) -> usize
    requires { at < BUFFER }
    ensures items { take result buffer.new ≡ take at buffer.old ++ byte ∷ [] }
    ensures next { result ≡ at + 1 }
{
    buffer[at] = byte;
    at + 1
}

/// Writes bytes.
#[inline(always)]
pub(crate) fn put_bytes(bytes: &[u8], at: usize, buffer: &mut [u8; BUFFER]) -> usize
    requires { at + length bytes.now ≤ BUFFER }
    ensures items { take result buffer.new ≡ take at buffer.old ++ bytes.now }
    ensures next { result ≡ at + length bytes.now }
{
    for (i, byte) in bytes.iter().enumerate() {
        buffer[at + i] = *byte;
    }
    at + bytes.len()
}

/// Writes the first `len` bytes of a part, which is copied whole.
#[inline(always)]
fn put_front(part: &[u8], len: usize, at: usize, buffer: &mut [u8; BUFFER]) -> usize
    requires len { len ≤ length part.now }
    requires room { at + length part.now ≤ BUFFER }
    ensures items { take result buffer.new ≡ take at buffer.old ++ take len part.now }
    ensures next { result ≡ at + len }
{
    for (i, byte) in part.iter().enumerate() {
        buffer[at + i] = *byte;
    }
    at + len
}

/// Writes a number, of at most twenty digits.
#[inline(always)]
pub(crate) fn put_number(n: u64, at: usize, buffer: &mut [u8; BUFFER]) -> usize
    requires { at + DIGITS ≤ BUFFER }
    ensures items { take result buffer.new ≡ take at buffer.old ++ decimal n }
    ensures bounded { result ≤ at + DIGITS }
{
    let mut digits = [0; 2 * DIGITS];
    let start = write_digits(n, &mut digits, DIGITS);
    put_front(&digits[start..start + DIGITS], DIGITS - start, at, buffer)
}

/// Writes a value, of at most five digits. Most values have one digit or two.
#[inline(always)]
fn put_value(n: u16, at: usize, buffer: &mut [u8; BUFFER]) -> usize
    requires { at + DIGITS ≤ BUFFER }
    ensures items { take result buffer.new ≡ take at buffer.old ++ decimal n }
    ensures bounded { result ≤ at + 5 }
{
    if n < 10 {
        put(b'0' + n as u8, at, buffer)
    } else if n < 100 {
        let at = put(b'0' + (n / 10) as u8, at, buffer);
        put(b'0' + (n % 10) as u8, at, buffer)
    } else {
        put_long_value(n, at, buffer)
    }
}

/// Writes a value, of at most five digits.
#[inline(never)]
fn put_long_value(n: u16, at: usize, buffer: &mut [u8; BUFFER]) -> usize
    requires { at + DIGITS ≤ BUFFER }
    ensures items { take result buffer.new ≡ take at buffer.old ++ decimal n }
    ensures bounded { result ≤ at + 5 }
{
    let mut digits = itoa::Buffer::new();
    put_bytes(digits.format(n).as_bytes(), at, buffer)
}

/// Writes a byte as text.
#[tactic(auto, unfolding(crate::specs::Lines::shown_byte))]
#[inline(always)]
pub(crate) fn put_shown(b: u8, at: usize, buffer: &mut [u8; BUFFER]) -> usize
    requires { at + 4 ≤ BUFFER }
    ensures items { take result buffer.new ≡ take at buffer.old ++ shown_byte b }
    ensures bounded { result ≤ at + 4 }
{
    if 0x20 <= b && b < 0x7F && b != b'\\' {
        put(b, at, buffer)
    } else {
        put_bytes(
            &[b'\\', b'x', hex_digit(b / 16), hex_digit(b % 16)],
            at,
            buffer,
        )
    }
}

/// Writes a byte, if there is one.
#[inline(always)]
pub(crate) fn put_option(b: Option<u8>, at: usize, buffer: &mut [u8; BUFFER]) -> usize
    requires { at + 1 ≤ BUFFER }
    ensures items { take result buffer.new ≡ take at buffer.old ++ option_to_list b }
    ensures bounded { result ≤ at + 1 }
{
    match b {
        Some(b) => put(b, at, buffer),
        None => at,
    }
}

/// Writes a byte as text, if there is one.
#[inline(always)]
pub(crate) fn put_shown_option(b: Option<u8>, at: usize, buffer: &mut [u8; BUFFER]) -> usize
    requires { at + 4 ≤ BUFFER }
    ensures items { take result buffer.new ≡ take at buffer.old ++ shown (option_to_list b) }
    ensures bounded { result ≤ at + 4 }
{
    match b {
        Some(b) => put_shown(b, at, buffer),
        None => at,
    }
}

/// Writes values, at most sixteen.
#[inline(always)]
pub(crate) fn put_values(values: &[u16], at: usize, buffer: &mut [u8; BUFFER]) -> usize
    requires few { length values.now ≤ 16 }
    requires room { at + 116 ≤ BUFFER }
    ensures items { take result buffer.new ≡ take at buffer.old ++ joined values.now }
    ensures bounded { result ≤ at + 96 }
{
    let Some((first, others)) = values.split_first() else {
        return at;
    };
    let mut end = put_value(*first, at, buffer);
    for value in others.iter() {
        end = put(b';', end, buffer);
        end = put_value(*value, end, buffer);
    }
    end
}
