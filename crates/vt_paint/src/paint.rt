//! The repaint of a terminal of any size.
ghost use Rattle.std.specs.Prelude.{◌≡◌, ◌+◌, ◌-◌, ◌≤◌, ◌++◌, ◌∷◌, true, vec_len, vec_capacity};
ghost use Rattle.vt_syntax.specs.declared.held.Held.TheVariants.{Nothing};
ghost use Rattle.vt_syntax.specs.Spelling.{spell_events};
ghost use Rattle.vt_paint.specs.Limits.{paint_limit};
ghost use Rattle.vt_term.specs.Answers.{line_of_cursor};
ghost use Rattle.vt_paint.specs.Controls.{cursor_position};
ghost use Rattle.vt_paint.specs.Items.{wrap_item, first_items, placed_items, last_items};
ghost use Rattle.vt_paint.specs.Repaint.{made_events, paint, IsRebuiltAt};

use crate::cells::{push_cells, row_cell};
use crate::controls::{push_brush, push_sets};
use crate::function::Function;
use crate::items::{
    push_cell, push_margins, push_mode_item, push_modes, push_saved, push_shift, push_stops,
};
use crate::laws::sized_rebuilds;
use crate::limits::paint_limit;
use crate::modes::DECOM;
use thiserror::Error;
use vt_screen::{COLUMNS, MOST, ROWS};
use vt_term::{Cursor, SizedTerminal};

/// The limit of a repaint of a VT220 in bytes: 29 for each of 24 rows of 132 cells. 10 are for each tab stop, and 320
/// for everything else.
pub const PAINT_LIMIT: usize = 29 * ROWS * COLUMNS + 10 * COLUMNS + 320;

const _: () = prove!(PAINT_LIMIT == 93512);

/// The reason for which nothing was appended.
#[derive(Clone, Copy, Debug, PartialEq, Eq, Error)]
pub enum PaintError {
    /// The terminal is inside a sequence.
    #[error("partial")]
    Partial,
    /// Allocation failed.
    #[error("memory")]
    Memory,
}

/// Appends the cell at the cursor's position once more, if the cursor's wrap flag is set.
#[tactic(auto, unfolding(crate::specs::Items::wrap_item))]
pub(crate) fn push_wrap(t: &SizedTerminal, cursor: Cursor, out: &mut Vec<u8>)
    requires row { (1 ≤ cursor.row) × (cursor.row ≤ t.now.display.grid.size.rows) }
    requires col { (1 ≤ cursor.col) × (cursor.col ≤ t.now.display.grid.width) }
    requires room { vec_len out.old + 20 ≤ vec_capacity out.old }
    ensures items { out.new.items ≡ out.old.items ++ spell_events (wrap_item t.now.display.grid cursor) }
    ensures bounded { vec_len out.new ≤ vec_len out.old + 20 }
    ensures capacity { vec_capacity out.old ≤ vec_capacity out.new }
{
    if cursor.wrap {
        push_cell(row_cell(t, cursor.row, cursor.col), out);
    }
}

/// Appends the cursor, by the column that CUP names, and a pending wrap.
fn push_cursor(t: &SizedTerminal, col: usize, wrap: bool, out: &mut Vec<u8>)
    requires col { col ≤ MOST }
    requires room { vec_len out.old + 30 ≤ vec_capacity out.old }
    ensures items { out.new.items
        ≡ out.old.items
        ++ spell_events (cursor_position (line_of_cursor t.now.display) col
        ∷ wrap_item t.now.display.grid (record t.now.display.cursor { wrap = wrap })) }
    ensures bounded { vec_len out.new ≤ vec_len out.old + 30 }
    ensures capacity { vec_capacity out.old ≤ vec_capacity out.new }
{
    let cursor = t.cursor();
    let line = if t.modes().decom {
        cursor.row - t.margins().top + 1
    } else {
        cursor.row
    };
    Function::cursor_to(line as u8, col as u8).push(out);
    let again = Cursor {
        row: cursor.row,
        col: cursor.col,
        wrap,
    };
    push_wrap(t, again, out);
}

/// Appends the items 6 to 11: DECOM, the cursor, the brush, the sets, the modes and a pending single shift. `col` is the column
/// that CUP names, and `wrap` whether a wrap is pending. If `known` is true, the modes are as at power-up, and those that stay so
/// are left out.
#[tactic(auto, unfolding(crate::specs::Items::placed_items))]
fn push_placed(t: &SizedTerminal, known: bool, col: usize, wrap: bool, out: &mut Vec<u8>)
    requires col { col ≤ MOST }
    requires room { vec_len out.old + 144 ≤ vec_capacity out.old }
    ensures items { out.new.items ≡ out.old.items ++ spell_events (placed_items known t.now.display col wrap) }
    ensures bounded { vec_len out.new ≤ vec_len out.old + 144 }
    ensures capacity { vec_capacity out.old ≤ vec_capacity out.new }
{
    let sets = t.sets();
    push_mode_item(DECOM, known, false, t.modes().decom, out);
    push_cursor(t, col, wrap, out);
    push_brush(t.brush(), out);
    push_sets(&sets.designations(), sets.left(), sets.right(), out);
    push_modes(known, t.modes(), out);
    push_shift(sets.pending(), out);
}

/// Appends the end of a repaint and of changes: everything except the cells, the width, the stops and the saved record.
/// If `known` is true, the modes are as at power-up, and those that stay so are left out.
#[tactic(auto, unfolding(crate::specs::Items::last_items))]
pub(crate) fn push_last(t: &SizedTerminal, known: bool, out: &mut Vec<u8>)
    requires { vec_len out.old + 154 ≤ vec_capacity out.old }
    ensures items { out.new.items ≡ out.old.items ++ spell_events (last_items known t.now.display) }
    ensures bounded { vec_len out.new ≤ vec_len out.old + 154 }
    ensures capacity { vec_capacity out.old ≤ vec_capacity out.new }
{
    // For the bounds of the margins.
    t.soundness();
    push_margins(t.size().rows, t.margins(), out);
    let cursor = t.cursor();
    push_placed(t, known, cursor.col, cursor.wrap, out);
}

/// Appends the repaint of a terminal between sequences to `out`, which has capacity for `paint_limit` more bytes. It
/// never fails and allocates nothing.
pub fn repaint_reserved(t: &SizedTerminal, out: &mut Vec<u8>)
    requires between { t.now.held ≡ Nothing }
    requires room { vec_len out.old + paint_limit t.now.display.grid.size ≤ vec_capacity out.old }
    ensures items { out.new.items ≡ out.old.items ++ paint t.now }
    ensures rebuilds { IsRebuiltAt t.now.display.grid.size t.now }
    ensures bounded { vec_len out.new ≤ vec_len out.old + paint_limit t.now.display.grid.size }
    ensures capacity { vec_capacity out.old ≤ vec_capacity out.new }
{
    sized_rebuilds();
    t.soundness();
    Function::reset().push(out);
    repaint_items_reserved(t, out);
}

/// Appends a repaint without its first function, RIS: from power-up these bytes lead to the terminal's state. `out` has
/// capacity for `paint_limit` - 2 more bytes. It never fails and allocates nothing.
pub fn repaint_items_reserved(t: &SizedTerminal, out: &mut Vec<u8>)
    requires { vec_len out.old + (paint_limit t.now.display.grid.size - 2) ≤ vec_capacity out.old }
    ensures items { out.new.items ≡ out.old.items ++ spell_events (made_events t.now.display) }
    ensures bounded { vec_len out.new ≤ vec_len out.old + (paint_limit t.now.display.grid.size - 2) }
    ensures capacity { vec_capacity out.old ≤ vec_capacity out.new }
{
    let cursor = t.cursor();
    repaint_first_reserved(t, cursor.wrap, out);
    repaint_placed_reserved(t, cursor.col, cursor.wrap, out);
}

/// Appends the items of a repaint before DECOM: the tab stops, the width, the saved record, the cells, and the margins.
/// `wrap` says whether the items that follow make a pending wrap. `out` has capacity for `paint_limit` - 146 more
/// bytes. It never fails and allocates nothing.
#[tactic(auto, unfolding(crate::specs::Items::first_items))]
pub fn repaint_first_reserved(t: &SizedTerminal, wrap: bool, out: &mut Vec<u8>)
    requires { vec_len out.old + (paint_limit t.now.display.grid.size - 146) ≤ vec_capacity out.old }
    ensures items { out.new.items ≡ out.old.items ++ spell_events (first_items t.now.display wrap) }
    ensures bounded { vec_len out.new ≤ vec_len out.old + (paint_limit t.now.display.grid.size - 146) }
    ensures capacity { vec_capacity out.old ≤ vec_capacity out.new }
{
    push_stops(t.size(), t.width(), t.stops(), out);
    push_saved(&t.saved(), out);
    push_cells(t, wrap, out);
    push_margins(t.size().rows, t.margins(), out);
}

/// Appends the items of a repaint starting with DECOM: the cursor, the brush, the sets, the modes, and a pending single
/// shift. `col` is the column that CUP names, and `wrap` whether a wrap is pending. `out` has capacity for 144 more
/// bytes. It never fails and allocates nothing.
pub fn repaint_placed_reserved(t: &SizedTerminal, col: usize, wrap: bool, out: &mut Vec<u8>)
    requires col { col ≤ MOST }
    requires room { vec_len out.old + 144 ≤ vec_capacity out.old }
    ensures items { out.new.items ≡ out.old.items ++ spell_events (placed_items true t.now.display col wrap) }
    ensures bounded { vec_len out.new ≤ vec_len out.old + 144 }
    ensures capacity { vec_capacity out.old ≤ vec_capacity out.new }
{
    push_placed(t, true, col, wrap, out);
}
