//! The terminal and its repaint.
ghost use Rattle.std.specs.Prelude.{IsErrOf, IsTrue, length, OnErr, OnOk, vec_capacity, vec_len, ◌*◌, ◌++◌, ◌+◌, ◌<◌, ◌↔◌, ◌≡◌, ◌≢◌, ◌≤◌};
ghost use Rattle.vt_paint.specs.Named.{rendition_change};
ghost use Rattle.vt_paint.specs.Repaint.{paint};
ghost use Rattle.vt_syntax.specs.declared.held.Held.TheVariants.{Nothing};
ghost use Rattle.vt_term.specs.Play.{play};

use std::alloc::AllocError;
use vt_paint::{Function, PAINT_LIMIT, PaintError};
use vt_screen::Rendition;
use vt_term::Terminal;

/// States what `Terminal::feed` does.
pub fn feed(terminal: &mut Terminal, piece: &[u8], out: &mut Vec<u8>) -> Result<(), AllocError>
    ensures state { OnOk result (terminal.new ≡ (play terminal.old piece.now).state) }
    ensures reports { OnOk result (out.new.items ≡ out.old.items ++ (play terminal.old piece.now).reports) }
    ensures same_state { OnErr result (terminal.new ≡ terminal.old) }
    ensures same_out { OnErr result (out.new.items ≡ out.old.items) }
{
    terminal.feed(piece, out)
}

/// States what `Terminal::same_state` returns.
pub fn same_state(terminal: &Terminal, other: &Terminal) -> bool
    ensures { IsTrue result ↔ (terminal.now ≡ other.now) }
{
    terminal.same_state(other)
}

/// States what `vt_paint::repaint` does.
pub fn repaint(t: &Terminal, out: &mut Vec<u8>) -> Result<(), PaintError>
    ensures items { OnOk result (out.new.items ≡ out.old.items ++ paint t.now) }
    ensures partial { IsErrOf result PaintError.Partial ↔ (t.now.held ≢ Nothing) }
{
    vt_paint::repaint(t, out)
}

/// States what `vt_paint::repaint_reserved` appends.
pub fn repaint_reserved(t: &Terminal, out: &mut Vec<u8>)
    requires between { t.now.held ≡ Nothing }
    requires room { vec_len out.old + PAINT_LIMIT ≤ vec_capacity out.old }
    ensures items { out.new.items ≡ out.old.items ++ paint t.now }
    ensures bounded { vec_len out.new ≤ vec_len out.old + PAINT_LIMIT }
    ensures capacity { vec_capacity out.old ≤ vec_capacity out.new }
{
    vt_paint::repaint_reserved(t, out)
}

/// States what `Function::rendition_change` returns.
pub fn rendition_change(old: Rendition, new: Rendition) -> Function
    ensures { result ≡ rendition_change old new }
{
    Function::rendition_change(old, new)
}
