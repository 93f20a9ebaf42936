//! The line of a change of the screen's size.
ghost use Rattle.std.specs.Prelude.{◌≡◌, ◌+◌, ◌≤◌, ◌++◌, vec_len, vec_capacity};
ghost use Rattle.vt_trace.specs.Trace.{size_lines, tracer_resized};

use crate::bytes::{push_bytes, push_number};
use crate::tracing::{Tracer, push_end};
use vt_term::Size;

/// The most bytes that are written of a change of the screen's size: the end of a text, and a line.
pub const RESIZE_LIMIT: usize = 80;

/// Appends what is written of a change to a size that comes before the next byte: the end of a text, and a line with the
/// columns and rows. A sequence or string that is open goes on. `out` has capacity for it.
pub fn trace_resize(tracer: &mut Tracer, size: Size, out: &mut Vec<u8>)
    requires { vec_len out.old + RESIZE_LIMIT ≤ vec_capacity out.old }
    ensures tracer { tracer.new ≡ tracer_resized tracer.old }
    ensures items { out.new.items ≡ out.old.items ++ size_lines tracer.old size }
    ensures bounded { vec_len out.new ≤ vec_len out.old + RESIZE_LIMIT }
    ensures capacity { vec_capacity out.old ≤ vec_capacity out.new }
{
    push_end(tracer.in_text, out);
    push_number(tracer.place, out);
    push_bytes(b"\tsize\t", out);
    push_number(size.wide as u64, out);
    push_bytes(b"x", out);
    push_number(size.rows as u64, out);
    push_bytes(b"\n", out);
    tracer.in_text = false;
}
