//! The calls of the repaint for a VT220's `Terminal`. Each calls that for its `SizedTerminal`.
ghost use Rattle.std.specs.Prelude.{◌≡◌, ◌↔◌, ◌+◌, ◌-◌, ◌≤◌, ◌<◌, ◌++◌, ◌≢◌, IsErrOf, OnOk, OnErr, vec_len, vec_capacity};
ghost use Rattle.vt_syntax.specs.declared.held.Held.TheVariants.{Nothing};
ghost use Rattle.vt_paint.specs.Repaint.{paint, IsRebuilt};

use crate::changes::repaint_changes_reserved as sized_repaint_changes_reserved;
use crate::compare::changed_places as sized_changed_places;
use crate::paint::{PAINT_LIMIT, PaintError, repaint_reserved as sized_repaint_reserved};
use vt_term::Terminal;

/// Appends the repaint to `out`: the bytes that rebuild the terminal's state on any terminal.
///
/// It first reserves `PAINT_LIMIT` bytes of capacity.
///
/// # Errors
///
/// Returns `Partial` if the terminal is inside a sequence, which is checked first. Returns `Memory` if allocation
/// fails. The contents of `out` are then unchanged.
#[inline(always)]
pub fn repaint(t: &Terminal, out: &mut Vec<u8>) -> Result<(), PaintError>
    ensures items { OnOk result (out.new.items ≡ out.old.items ++ paint t.now) }
    ensures rebuilds { OnOk result (IsRebuilt t.now) }
    ensures partial { IsErrOf result PaintError.Partial ↔ (t.now.held ≢ Nothing) }
    ensures memory { IsErrOf result PaintError.Memory → vec_capacity out.old < vec_len out.old + PAINT_LIMIT }
    ensures unchanged { OnErr result (out.new.items ≡ out.old.items) }
    ensures bounded { vec_len out.new ≤ vec_len out.old + PAINT_LIMIT }
    ensures capacity { vec_capacity out.old ≤ vec_capacity out.new }
{
    if !t.is_between() {
        return Err(PaintError::Partial);
    }
    out.reserve(PAINT_LIMIT).map_err(|_| PaintError::Memory)?;
    repaint_reserved(t, out);
    Ok(())
}

/// Appends the repaint of a terminal between sequences to `out`, which has capacity for `PAINT_LIMIT` more bytes. It
/// never fails and allocates nothing.
#[inline(always)]
pub fn repaint_reserved(t: &Terminal, out: &mut Vec<u8>)
    requires between { t.now.held ≡ Nothing }
    requires room { vec_len out.old + PAINT_LIMIT ≤ vec_capacity out.old }
    ensures items { out.new.items ≡ out.old.items ++ paint t.now }
    ensures rebuilds { IsRebuilt t.now }
    ensures bounded { vec_len out.new ≤ vec_len out.old + PAINT_LIMIT }
    ensures capacity { vec_capacity out.old ≤ vec_capacity out.new }
{
    sized_repaint_reserved(&t.sized, out);
}
