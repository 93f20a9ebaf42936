//! The bytes that change one terminal into another: the cells at the positions at which the screens differ, and
//! everything else.
ghost use Rattle.std.specs.Prelude.{◌≡◌, ◌+◌, ◌-◌, ◌*◌, ◌≤◌, ◌<◌, ◌++◌, ◌∷◌, [], ℕ, List, Bool, length, slice_index_or};
ghost use Rattle.std.specs.Prelude.{drop, vec_len, vec_capacity};
ghost use Rattle.vt_syntax.specs.declared.held.Held.TheVariants.{Nothing};
ghost use Rattle.vt_syntax.specs.Spelling.{spell_events};
ghost use Rattle.vt_screen.specs.declared.size.Size.{Size};
ghost use Rattle.vt_screen.specs.Grid.{Grid, row_of};
ghost use Rattle.vt_term.specs.State.{State};
ghost use Rattle.vt_term.specs.Sound.{IsSoundAt, IsSoundSized};
ghost use Rattle.vt_term.specs.Play.{play};
ghost use Rattle.vt_paint.specs.Changes.{differing_at, AreChangesAt, Changes};
ghost use Rattle.vt_paint.specs.Controls.{cursor_position};
ghost use Rattle.vt_paint.specs.Limits.{row_digits, cell_limit, row_limit, paint_limit, changes_limit};
ghost use Rattle.vt_paint.specs.Spoken.{Speaks};
ghost use Rattle.vt_paint.specs.Private.ChangeEvents.{has_all, short_brush_events, change_of};
ghost use Rattle.vt_paint.specs.Private.ChangeEvents.{changed_row, changed_cells, record_item, change_events};

use crate::bytes::push_bytes;
use crate::cells::SPELLING_SETS;
use crate::controls::{push_brush, push_glyph, push_sets};
use crate::function::Function;
use crate::items::push_mode_item;
use crate::modes::{DECAWM, DECOM};
use crate::paint::{push_last, push_wrap};
use vt_screen::laws::rows;
use vt_screen::{Brush, Cell, MOST, Rendition};
use vt_term::{Cursor, Saved, SizedTerminal};

// ---- the cells

/// Returns whether every attribute is set.
fn has_all(attributes: Rendition) -> bool
    ensures { result ≡ has_all attributes }
{
    attributes.bold && attributes.underline && attributes.blink && attributes.reverse
}

/// Appends SGR and DECSCA, in at most 15 bytes: without the 0 of SGR if every attribute is set.
#[tactic(auto, unfolding(crate::specs::Private::ChangeEvents::short_brush_events, crate::specs::Controls::brush_events))]
fn push_short_brush(brush: Brush, out: &mut Vec<u8>)
    requires { vec_len out.old + 17 ≤ vec_capacity out.old }
    ensures items { out.new.items ≡ out.old.items ++ spell_events (short_brush_events brush) }
    ensures bounded { vec_len out.new ≤ vec_len out.old + 17 }
    ensures capacity { vec_capacity out.old ≤ vec_capacity out.new }
{
    if !has_all(brush.rendition) {
        push_brush(brush, out);
    } else {
        Function::all_attributes().push(out);
        Function::protection(brush.protected).push(out);
    }
}

/// Appends CUP.
#[inline(always)]
fn push_position(row: usize, col: usize, out: &mut Vec<u8>)
    requires row { row ≤ MOST }
    requires col { col ≤ MOST }
    requires room { vec_len out.old + 7 + row_digits row ≤ vec_capacity out.old }
    ensures items { out.new.items ≡ out.old.items ++ spell_events (cursor_position row col ∷ []) }
    ensures bounded { vec_len out.new ≤ vec_len out.old + 7 + row_digits row }
    ensures capacity { vec_capacity out.old ≤ vec_capacity out.new }
{
    Function::cursor_to(row as u8, col as u8).push(out);
}

/// Appends a cell if it is marked: its position, its brush and its glyph.
#[tactic(auto, unfolding(crate::specs::Private::ChangeEvents::change_of))]
fn push_change(row: usize, col: usize, marked: bool, cell: &Cell, out: &mut Vec<u8>)
    requires row { row ≤ MOST }
    requires col { col ≤ MOST }
    requires room { vec_len out.old + cell_limit row ≤ vec_capacity out.old }
    ensures items { out.new.items ≡ out.old.items ++ spell_events (change_of row col marked cell.now) }
    ensures bounded { vec_len out.new ≤ vec_len out.old + cell_limit row }
    ensures capacity { vec_capacity out.old ≤ vec_capacity out.new }
{
    if marked {
        push_position(row, col, out);
        push_short_brush(cell.brush(), out);
        push_glyph(cell.glyph, out);
    }
}

/// Appends the marked cells of a row.
fn push_changed_row<const C: usize>(
    row: usize,
    cells: &[Cell],
    marks: &[bool; C],
    out: &mut Vec<u8>,
)
    requires row { (1 ≤ row) × (row ≤ MOST) }
    requires len { length cells.now ≤ MOST }
    requires columns { length cells.now ≤ C }
    requires room { vec_len out.old + cell_limit row * length cells.now ≤ vec_capacity out.old }
    ensures items { (g : Grid) (all : List (List Bool)) → cells.now ≡ row_of g row
        → marks.now ≡ slice_index_or all (row - 1) []
        → out.new.items ≡ out.old.items ++ spell_events (changed_row all g row) }
    ensures bounded { vec_len out.new ≤ vec_len out.old + cell_limit row * length cells.now }
    ensures capacity { vec_capacity out.old ≤ vec_capacity out.new }
{
    rows();
    for (i, cell) in cells.iter().enumerate() {
        push_change(row, i + 1, marks[i], cell, out);
    }
}

/// Appends the marked cells.
fn push_changed_cells<const R: usize, const C: usize>(
    marks: &[[bool; C]; R],
    t: &SizedTerminal,
    out: &mut Vec<u8>,
)
    requires rows { t.now.display.grid.size.rows ≤ R }
    requires columns { t.now.display.grid.size.wide ≤ C }
    requires room { vec_len out.old + t.now.display.grid.size.rows * row_limit t.now.display.grid.size ≤ vec_capacity out.old }
    ensures items { out.new.items ≡ out.old.items ++ spell_events (changed_cells marks.now t.now.display.grid) }
    ensures bounded { vec_len out.new
        ≤ vec_len out.old + t.now.display.grid.size.rows * row_limit t.now.display.grid.size }
    ensures capacity { vec_capacity out.old ≤ vec_capacity out.new }
{
    for row in 1..t.size().rows + 1 {
        push_changed_row(row, t.row(row), &marks[row - 1], out);
    }
}

// ---- the saved record and the modes

/// Appends the saved record: the saved state is made, and then saved.
#[tactic(auto, unfolding(crate::specs::Private::ChangeEvents::record_item))]
fn push_record(t: &SizedTerminal, saved: &Saved, out: &mut Vec<u8>)
    requires row { (1 ≤ saved.now.row) × (saved.now.row ≤ t.now.display.grid.size.rows) }
    requires rows { t.now.display.grid.size.rows ≤ MOST }
    requires col { (1 ≤ saved.now.col) × (saved.now.col ≤ t.now.display.grid.width) }
    requires narrow { t.now.display.grid.width ≤ MOST }
    requires room { vec_len out.old + 71 ≤ vec_capacity out.old }
    ensures items { out.new.items ≡ out.old.items ++ spell_events (record_item t.now.display.grid saved.now) }
    ensures bounded { vec_len out.new ≤ vec_len out.old + 71 }
    ensures capacity { vec_capacity out.old ≤ vec_capacity out.new }
{
    push_mode_item(DECOM, true, false, saved.origin, out);
    Function::cursor_to(saved.row as u8, saved.col as u8).push(out);
    let cursor = Cursor {
        row: saved.row,
        col: saved.col,
        wrap: saved.wrap,
    };
    push_wrap(t, cursor, out);
    push_brush(saved.brush, out);
    push_sets(&saved.g, saved.gl, saved.gr, out);
    Function::save_cursor().push(out);
}

// ---- the whole

/// States that the changes lead to the state, are short, and consist of what repaints consist of.
fn changes_lead()
    ensures played { (size : Size) (marks : List (List Bool)) (s t : State) → IsSoundAt size s → IsSoundAt size t
        → t.held ≡ Nothing → AreChangesAt size marks s.display t.display
        → play s (spell_events (change_events marks t.display)) ≡ record { state = t; reports = [] } }
    ensures few { (size : Size) (marks : List (List Bool)) (s t : State) (before : List ℕ) → IsSoundAt size t
        → AreChangesAt size marks s.display t.display
        → length (before ++ spell_events (change_events marks t.display))
        ≤ length before + changes_limit size (differing_at size s.display.grid t.display.grid) }
    ensures speaks { (size : Size) (marks : List (List Bool)) (s t : State) (before : List ℕ) → IsSoundAt size t
        → AreChangesAt size marks s.display t.display
        → Speaks (drop (length before) (before ++ spell_events (change_events marks t.display))) }
{}

/// Appends all changes.
fn push_changes<const R: usize, const C: usize>(
    marks: &[[bool; C]; R],
    t: &SizedTerminal,
    out: &mut Vec<u8>,
)
    requires rows { t.now.display.grid.size.rows ≤ R }
    requires columns { t.now.display.grid.size.wide ≤ C }
    requires room { vec_len out.old + paint_limit t.now.display.grid.size ≤ vec_capacity out.old }
    ensures items { out.new.items ≡ out.old.items ++ spell_events (change_events marks.now t.now.display) }
    ensures sound { IsSoundSized t.now }
    ensures bounded { vec_len out.new ≤ vec_len out.old + paint_limit t.now.display.grid.size }
    ensures capacity { vec_capacity out.old ≤ vec_capacity out.new }
{
    t.soundness();
    Function::soft_reset().push(out);
    Function::mode(DECAWM, true).push(out);
    push_bytes(SPELLING_SETS, out);
    push_changed_cells(marks, t, out);
    push_record(t, &t.saved(), out);
    push_bytes(SPELLING_SETS, out);
    push_last(t, false, out);
}

/// Appends to `out` bytes that lead a terminal to `t`. It appends at most 28 bytes for each marked position, and 230. With 100
/// rows or more it is 234 in place of 230.
///
/// The two terminals have the same size, the same width and the same tab stops.
/// [`changed_places`](crate::sized::changed_places) has marked the positions at which they differ. `t` is between sequences.
///
/// `out` has capacity for `paint_limit` more bytes. It never fails and allocates nothing.
pub fn repaint_changes_reserved<const R: usize, const C: usize>(
    marks: &[[bool; C]; R],
    t: &SizedTerminal,
    out: &mut Vec<u8>,
)
    requires between { t.now.held ≡ Nothing }
    requires rows { t.now.display.grid.size.rows ≤ R }
    requires columns { t.now.display.grid.size.wide ≤ C }
    requires room { vec_len out.old + paint_limit t.now.display.grid.size ≤ vec_capacity out.old }
    ensures leads { (s : State) → IsSoundAt t.now.display.grid.size s
        → AreChangesAt t.now.display.grid.size marks.now s.display t.now.display
        → Changes s t.now out.old.items out.new.items }
    ensures small { (s : State) → AreChangesAt t.now.display.grid.size marks.now s.display t.now.display
        → vec_len out.new
        ≤ vec_len out.old
        + changes_limit t.now.display.grid.size
        (differing_at t.now.display.grid.size s.display.grid t.now.display.grid) }
    ensures speaks { (s : State) → AreChangesAt t.now.display.grid.size marks.now s.display t.now.display
        → Speaks (drop (vec_len out.old) out.new.items) }
    ensures bounded { vec_len out.new ≤ vec_len out.old + paint_limit t.now.display.grid.size }
    ensures capacity { vec_capacity out.old ≤ vec_capacity out.new }
{
    changes_lead();
    push_changes(marks, t, out);
}
