//! The steps to a position, and to where the cursor is.
ghost use Rattle.std.specs.Prelude.{◌≡◌, ◌≤◌};

use crate::looks::look_step;
use crate::step::{Step, number};
use vt_paint::{DECAWM, Function, IRM};
use vt_term::{Cursor, Margins, Set};
use vt_wide::joined_column;
use vt_xterm_display::XtermDisplay;

/// Returns CUP to a position. Under DECOM it counts from the margins.
fn move_to(d: &XtermDisplay, row: usize, col: usize) -> Step {
    if d.shown.modes.decom {
        let line = row.saturating_sub(d.shown.margins.top).saturating_add(1);
        let named = col.saturating_sub(d.sides.left).saturating_add(1);
        return Step::Send(Function::cursor_to(number(line), number(named)));
    }
    if col == 1 {
        Step::Send(Function::cursor_to_line(number(row)))
    } else {
        Step::Send(Function::cursor_to(number(row), number(col)))
    }
}

/// Returns the step that moves the cursor to a position without a pending wrap. Returns `None` if it is there.
pub(crate) fn move_step(d: &XtermDisplay, row: usize, col: usize) -> Option<Step> {
    let Cursor {
        row: line,
        col: at,
        wrap,
    } = d.shown.cursor;
    let Margins { bottom, .. } = d.shown.margins;
    let is_free = !d.bounded && !d.shown.modes.decom;
    if line == row && !wrap && !d.waits {
        if at == col {
            return None;
        }
        if at < col && is_free {
            return Some(Step::Send(Function::forward(number(col - at))));
        }
    }
    if is_free && col == 1 && line < row && row - line == 1 && line != bottom {
        return Some(Step::NextLine);
    }
    Some(move_to(d, row, col))
}

/// Returns the first step after which characters are written as they are, each over one or two cells. Returns `None` if they are.
pub(crate) fn plain_step(d: &XtermDisplay) -> Option<Step> {
    if d.shown.modes.irm {
        return Some(Step::Send(Function::mode(IRM, false)));
    }
    if !d.shown.modes.decawm {
        return Some(Step::Send(Function::mode(DECAWM, true)));
    }
    let left = d.shown.sets.left();
    if d.shown.sets.set(left) == Set::Ascii {
        None
    } else if d.shown.sets.set(0) == Set::Ascii {
        Some(Step::Send(Function::lock_left(0)))
    } else {
        Some(Step::Send(Function::designation(left, Set::Ascii)))
    }
}

/// Returns the first step that makes a wrap pending as it is in `t`: the character that ends at the cursor is written once more.
fn again_step(d: &XtermDisplay, t: &XtermDisplay) -> Step {
    if let Some(step) = plain_step(d) {
        return step;
    }
    // For the bounds of the cursor.
    t.shown.soundness();
    let Cursor { row, col, .. } = t.shown.cursor;
    let first = joined_column(&t.shown.screen, row, col, true);
    let cell = t.shown.screen.cell(row, first);
    if let Some(step) = move_step(d, row, first) {
        return step;
    }
    if let Some(step) = look_step(d, cell) {
        return step;
    }
    Step::Write(cell)
}

/// Returns the first step that brings the cursor to where it is in `t`, on equal cells and between equal margins. Returns `None` if it
/// is there.
pub(crate) fn cursor_step(d: &XtermDisplay, t: &XtermDisplay) -> Option<Step> {
    let cursor = t.shown.cursor;
    if d.shown.cursor == cursor && d.waits == t.waits {
        return None;
    }
    if cursor.wrap || t.waits {
        return Some(again_step(d, t));
    }
    move_step(d, cursor.row, cursor.col)
}
