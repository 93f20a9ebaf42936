//! Bytes and numbers, appended to an output that has capacity for them.
ghost use Rattle.std.specs.Prelude.{◌≡◌, ◌+◌, ◌*◌, ◌≤◌, ◌<◌, ◌++◌, length, decimal, vec_len, vec_capacity};
ghost use Rattle.vt_trace.specs.Lines.{hex_digit, shown_byte, shown};

use itoa::Buffer;

/// Appends bytes.
#[inline(always)]
pub(crate) fn push_bytes(bytes: &[u8], out: &mut Vec<u8>)
    requires { vec_len out.old + length bytes.now ≤ vec_capacity out.old }
    ensures items { out.new.items ≡ out.old.items ++ bytes.now }
    ensures bounded { vec_len out.new ≤ vec_len out.old + length bytes.now }
    ensures capacity { vec_capacity out.old ≤ vec_capacity out.new }
{
    out.extend_from_slice(bytes).unwrap();
}

/// Appends a number, of at most twenty digits.
#[inline(always)]
pub(crate) fn push_number(n: u64, out: &mut Vec<u8>)
    requires { vec_len out.old + 20 ≤ vec_capacity out.old }
    ensures items { out.new.items ≡ out.old.items ++ decimal n }
    ensures bounded { vec_len out.new ≤ vec_len out.old + 20 }
    ensures capacity { vec_capacity out.old ≤ vec_capacity out.new }
{
    let mut buffer = Buffer::new();
    let digits = buffer.format(n);
    out.extend_from_slice(digits.as_bytes()).unwrap();
}

/// Returns a hexadecimal digit.
pub(crate) fn hex_digit(n: u8) -> u8
    requires { n < 16 }
    ensures { result ≡ hex_digit n }
{
    if n < 10 { n + b'0' } else { n - 10 + b'A' }
}

/// Appends a byte as text.
#[tactic(auto, unfolding(crate::specs::Lines::shown_byte))]
#[inline(always)]
pub fn push_shown(b: u8, out: &mut Vec<u8>)
    requires { vec_len out.old + 4 ≤ vec_capacity out.old }
    ensures items { out.new.items ≡ out.old.items ++ shown_byte b }
    ensures bounded { vec_len out.new ≤ vec_len out.old + 4 }
    ensures capacity { vec_capacity out.old ≤ vec_capacity out.new }
{
    if 0x20 <= b && b < 0x7F && b != b'\\' {
        push_bytes(&[b], out);
    } else {
        push_bytes(&[b'\\', b'x', hex_digit(b / 16), hex_digit(b % 16)], out);
    }
}

/// Appends bytes as text.
pub(crate) fn push_all_shown(bytes: &[u8], out: &mut Vec<u8>)
    requires { vec_len out.old + 4 * length bytes.now ≤ vec_capacity out.old }
    ensures items { out.new.items ≡ out.old.items ++ shown bytes.now }
    ensures bounded { vec_len out.new ≤ vec_len out.old + 4 * length bytes.now }
    ensures capacity { vec_capacity out.old ≤ vec_capacity out.new }
{
    for b in bytes.iter() {
        push_shown(*b, out);
    }
}
