//! A trace that is appended in existing capacity takes no memory: the capacity is the same afterwards, also if it doesn't suffice.
ghost use Rattle.std.specs.Prelude.{◌+◌, ◌≤◌, vec_capacity, vec_len};

use crate::rows::holds;
use std::alloc::{AllocError, Global};
use vt_term::{Size, SizedTerminal};
use vt_trace::sized::trace_reserved;
use vt_trace::{SKIPPED_LIMIT, TRACE_LIMIT, Tracer, trace_end};

/// A text, controls, a request, an ignored event, a string, and a text that is still open.
const INPUT: &[u8] = b"Hi\r\n\x1b[6n\x1b[?1049h\x9d0;a\x9cB";

/// Returns whether a trace plays the whole input, or a front of it, and leaves the capacity of its outputs as it was.
fn trace_takes_no_memory(
    terminal: &mut SizedTerminal,
    reports: &mut Vec<u8>,
    out: &mut Vec<u8>,
    whole: bool,
) -> bool
    requires { vec_len reports.old + 1000 ≤ vec_capacity reports.old }
{
    if INPUT.len() > 100 {
        return false;
    }
    let reports_before = reports.capacity();
    let before = out.capacity();
    let played = trace_reserved(terminal, &mut Tracer::new(), INPUT, reports, out);
    reports.capacity() == reports_before
        && out.capacity() == before
        && (played == INPUT.len()) == whole
}

/// Returns whether the trace takes no memory with capacity for so many bytes, each with `TRACE_LIMIT`.
fn trace_fits(alloc: Global, count: usize) -> Result<bool, AllocError>
    requires { count ≤ 100 }
{
    let mut reports = Vec::with_capacity(alloc, 1000)?;
    let mut out = Vec::with_capacity(alloc, TRACE_LIMIT * count)?;
    let mut terminal = SizedTerminal::new(alloc, Size::vt220())?;
    Ok(trace_takes_no_memory(&mut terminal, &mut reports, &mut out, count > 20))
}

/// Returns whether the end of a trace takes no memory.
fn end_takes_no_memory(alloc: Global) -> Result<bool, AllocError> {
    let mut tracer = Tracer::new();
    tracer.in_text = true;
    let mut out = Vec::with_capacity(alloc, SKIPPED_LIMIT)?;
    let before = out.capacity();
    trace_end(&tracer, &mut out);
    Ok(out.capacity() == before && out.as_slice() == b"\n".as_slice())
}

/// Returns whether it takes none with no capacity, with too little, and with enough.
fn traces_take_no_memory(alloc: Global) -> Result<bool, AllocError> {
    Ok(trace_fits(alloc, 0)? && trace_fits(alloc, 1)? && trace_fits(alloc, 100)?)
}

#[test]
fn lines_take_no_memory(rt: HostRuntime) {
    holds(&rt, b"the trace", traces_take_no_memory(rt.alloc()));
    holds(&rt, b"the end", end_takes_no_memory(rt.alloc()));
}
