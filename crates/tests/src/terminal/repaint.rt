//! A repaint that is refused.
use super::common::{Failed, Played};
use crate::rows::holds;
use std::alloc::Global;
use vt_paint::{PaintError, repaint};

/// Returns whether a repaint inside a sequence is refused, and leaves the output as it was.
fn is_partial(alloc: Global) -> Result<bool, Failed> {
    let inside = Played::of(alloc, &[b"\x1b[1"])?;
    let mut out = Vec::from_slice(alloc, b"ok")?;
    let answer = repaint(&inside.terminal, &mut out);
    Ok(answer == Err(PaintError::Partial) && out.as_slice() == b"ok".as_slice())
}

/// Returns whether an error says this.
fn says(alloc: Global, error: PaintError, message: &str) -> Result<bool, Failed> {
    let said = format!(in alloc; "{error}")?;
    Ok(said.as_str() == message)
}

#[test]
fn a_repaint_is_refused_inside_a_sequence(rt: HostRuntime) {
    holds(&rt, "partial", is_partial(rt.alloc()));
    let partial = says(rt.alloc(), PaintError::Partial, "partial");
    holds(&rt, "the message of partial", partial);
    let memory = says(rt.alloc(), PaintError::Memory, "memory");
    holds(&rt, "the message of memory", memory);
}
