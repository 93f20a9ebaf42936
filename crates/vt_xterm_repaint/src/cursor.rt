//! The margins and the cursor. The output has capacity for each.
ghost use Rattle.std.specs.Prelude.{◌≡◌, ◌+◌, ◌≤◌, ◌++◌, ◌∷◌, vec_len, vec_capacity};
ghost use Rattle.vt_feed.specs.Actions.{Function};
ghost use Rattle.vt_feed.specs.Spelled.{spell};
ghost use Rattle.vt_paint.specs.Controls.{margins_to};
ghost use Rattle.vt_xterm_repaint.specs.Items.{sides_item, move_item, again_item, cursor_item};

use crate::characters::push_glyph;
use crate::functions::{push_pair, push_private_mode};
use crate::looks::push_look;
use vt_paint::Function as ControlFunction;
use vt_screen::MOST;
use vt_term::{Cursor, Margins};
use vt_wide::joined_column;
use vt_xterm_display::{Sides, XtermDisplay};

/// Appends the top and bottom margins, and the left and right ones if they are bounded by DECLRMM.
pub(crate) fn push_margins(margins: Margins, bounded: bool, sides: Sides, out: &mut Vec<u8>)
    requires rows { (margins.top ≤ MOST) × (margins.bottom ≤ MOST) }
    requires columns { (sides.left ≤ MOST) × (sides.right ≤ MOST) }
    requires room { vec_len out.old + 30 ≤ vec_capacity out.old }
    ensures items { out.new.items
        ≡ out.old.items ++ spell (Function (margins_to margins.top margins.bottom) ∷ sides_item bounded sides) }
    ensures bounded { vec_len out.new ≤ vec_len out.old + 30 }
    ensures capacity { vec_capacity out.old ≤ vec_capacity out.new }
{
    ControlFunction::margins_to(margins.top as u8, margins.bottom as u8).push(out);
    if bounded {
        push_private_mode(69, true, out);
        push_pair(sides.left as u8, sides.right as u8, b's', out);
    }
}

/// Appends CUP to a column of the cursor's row. Under DECOM it counts from the margins.
fn push_move(d: &XtermDisplay, col: usize, out: &mut Vec<u8>)
    requires col { (1 ≤ col) × (col ≤ d.now.shown.cursor.col) }
    requires room { vec_len out.old + 10 ≤ vec_capacity out.old }
    ensures items { out.new.items ≡ out.old.items ++ spell (move_item d.now col) }
    ensures bounded { vec_len out.new ≤ vec_len out.old + 10 }
    ensures capacity { vec_capacity out.old ≤ vec_capacity out.new }
{
    // For the bounds of the cursor.
    d.shown.soundness();
    let _ = d.shown.screen.size();
    let Sides { left, .. } = d.sides;
    let Margins { top, .. } = d.shown.margins;
    let Cursor { row, .. } = d.shown.cursor;
    if d.shown.modes.decom {
        let line = row - top + 1;
        let named = col.saturating_sub(left) + 1;
        ControlFunction::cursor_to(line as u8, named as u8).push(out);
    } else {
        ControlFunction::cursor_to(row as u8, col as u8).push(out);
    }
}

/// Appends the character that ends at the cursor once more, which makes a wrap pending.
fn push_again(d: &XtermDisplay, out: &mut Vec<u8>)
    requires { vec_len out.old + 88 ≤ vec_capacity out.old }
    ensures items { out.new.items ≡ out.old.items ++ spell (again_item d.now d.now.shown.cursor.col) }
    ensures bounded { vec_len out.new ≤ vec_len out.old + 88 }
    ensures capacity { vec_capacity out.old ≤ vec_capacity out.new }
{
    // For the bounds of the cursor.
    d.shown.soundness();
    let Cursor { row, col, .. } = d.shown.cursor;
    let first = joined_column(&d.shown.screen, row, col, true);
    let cell = d.shown.screen.cell(row, first);
    push_move(d, first, out);
    push_look(cell.look(), out);
    push_glyph(cell, out);
}

/// Appends the cursor, and a pending wrap.
#[tactic(auto, unfolding(crate::specs::Items::cursor_item))]
pub(crate) fn push_cursor(d: &XtermDisplay, out: &mut Vec<u8>)
    requires { vec_len out.old + 88 ≤ vec_capacity out.old }
    ensures items { out.new.items ≡ out.old.items ++ spell (cursor_item d.now) }
    ensures bounded { vec_len out.new ≤ vec_len out.old + 88 }
    ensures capacity { vec_capacity out.old ≤ vec_capacity out.new }
{
    // For the bounds of the cursor.
    d.shown.soundness();
    if d.waits || d.shown.cursor.wrap {
        push_again(d, out);
    } else {
        push_move(d, d.shown.cursor.col, out);
    }
}
