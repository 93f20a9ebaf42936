//! Writing control sequences of numbers.
ghost use Rattle.std.specs.Prelude.{◌≡◌, [], ◌∷◌, ◌+◌, ◌≤◌, ◌++◌, vec_len, vec_capacity};
ghost use Rattle.vt_feed.specs.Actions.{Function};
ghost use Rattle.vt_feed.specs.Spelled.{spell};
ghost use Rattle.vt_paint.specs.Controls.{ansi_mode, private_mode, sequence_of};

use vt_paint::{push_bytes, push_number};

/// The capacity for a control sequence of this module: the most bytes that a call appends.
pub const SEQUENCE_LIMIT: usize = 10;

/// Appends SM or RM of an ANSI mode. `out` has capacity for it.
pub fn push_ansi_mode(number: u8, on: bool, out: &mut Vec<u8>)
    requires { vec_len out.old + SEQUENCE_LIMIT ≤ vec_capacity out.old }
    ensures items { out.new.items ≡ out.old.items ++ spell (Function (ansi_mode number on) ∷ []) }
    ensures bounded { vec_len out.new ≤ vec_len out.old + SEQUENCE_LIMIT }
    ensures capacity { vec_capacity out.old ≤ vec_capacity out.new }
{
    push_bytes(b"\x1B[", out);
    push_number(number, out);
    push_bytes(if on { b"h" } else { b"l" }, out);
}

/// Appends SM or RM of a private mode. `out` has capacity for it.
pub fn push_private_mode(number: u16, on: bool, out: &mut Vec<u8>)
    requires { vec_len out.old + SEQUENCE_LIMIT ≤ vec_capacity out.old }
    ensures items { out.new.items ≡ out.old.items ++ spell (Function (private_mode number on) ∷ []) }
    ensures bounded { vec_len out.new ≤ vec_len out.old + SEQUENCE_LIMIT }
    ensures capacity { vec_capacity out.old ≤ vec_capacity out.new }
{
    push_bytes(b"\x1B[?", out);
    push_number(number, out);
    push_bytes(if on { b"h" } else { b"l" }, out);
}

/// Appends a control sequence of two numbers, given its final byte. `out` has capacity for it.
pub fn push_pair(first: u8, second: u8, last: u8, out: &mut Vec<u8>)
    requires { vec_len out.old + SEQUENCE_LIMIT ≤ vec_capacity out.old }
    ensures items { out.new.items ≡ out.old.items ++ spell (Function (sequence_of (first ∷ second ∷ []) last) ∷ []) }
    ensures bounded { vec_len out.new ≤ vec_len out.old + SEQUENCE_LIMIT }
    ensures capacity { vec_capacity out.old ≤ vec_capacity out.new }
{
    push_bytes(b"\x1B[", out);
    push_number(first, out);
    push_bytes(b";", out);
    push_number(second, out);
    push_bytes(&[last], out);
}
