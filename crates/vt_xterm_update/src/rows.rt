//! The steps that change the cells of a row.
ghost use Rattle.std.specs.Prelude.{◌≡◌, ◌≤◌, ◌<◌, length};

use crate::cursor::{move_step, plain_step};
use crate::looks::look_step;
use crate::step::Step;
use vt_paint::Function;
use vt_screen::Cells;
use vt_term::Cursor;
use vt_xterm_cell::XtermCell;
use vt_xterm_display::XtermDisplay;

/// The most cells that are written again so that the cursor passes them: CUF takes more bytes.
const GAP: usize = 3;

/// The most blank cells at the end of a row that are written: EL takes fewer bytes than more of them.
const BLANKS: usize = 3;

/// Returns the index of the first cell that differs, up to the shorter length.
fn first_difference(old: &[XtermCell], new: &[XtermCell]) -> usize
    ensures old { result ≤ length old.now }
    ensures new { result ≤ length new.now }
{
    let end = old.len().min(new.len());
    let mut at = 0;
    while at < end && old[at].same(&new[at]) {
        at += 1;
    }
    at
}

/// Returns whether EL makes the cells starting at `at`, and takes fewer bytes than writing those that differ.
fn is_erasable(old: &[XtermCell], new: &[XtermCell], at: usize) -> bool {
    let end = old.len().min(new.len());
    if at >= end || !new[at].same(&new[at].erased()) {
        return false;
    }
    let mut count: usize = 0;
    for i in at..end {
        if !new[i].same(&new[at]) {
            return false;
        }
        count = count.saturating_add(!old[i].same(&new[i]) as usize);
    }
    count > BLANKS
}

/// Returns whether a cell can be written by one byte with the current look.
fn is_letter(d: &XtermDisplay, cell: XtermCell) -> bool {
    0x20 <= cell.character()
        && cell.character() < 0x7F
        && cell.mark() == 0
        && look_step(d, cell).is_none()
}

/// Returns the step that moves the cursor to a cell. It may write a cell between them again, which is equal.
fn approach(d: &XtermDisplay, row: usize, new: &[XtermCell], at: usize) -> Option<Step>
    requires { at < length new.now }
{
    let Cursor {
        row: line,
        col,
        wrap,
    } = d.shown.cursor;
    let from = col.saturating_sub(1);
    if line == row && !wrap && from < at && at - from <= GAP && is_letter(d, new[from]) {
        return Some(Step::Write(new[from]));
    }
    move_step(d, row, at + 1)
}

/// Returns the first step that changes the cells of a row.
fn cell_step(d: &XtermDisplay, row: usize, old: &[XtermCell], new: &[XtermCell]) -> Option<Step> {
    let at = first_difference(old, new);
    if at >= new.len() {
        return None;
    }
    if let Some(step) = approach(d, row, new, at) {
        return Some(step);
    }
    if !is_erasable(old, new, at) {
        return Some(look_step(d, new[at]).unwrap_or(Step::Write(new[at])));
    }
    if d.shown.pen.background() == new[at].background() {
        return Some(Step::Send(Function::erase_right()));
    }
    look_step(d, new[at])
}

/// Returns the first step that changes the cells of a row of `d` to those of `t`.
pub(crate) fn row_step(d: &XtermDisplay, t: &XtermDisplay, row: usize) -> Option<Step>
    requires row { (1 ≤ row) × (row ≤ d.now.shown.grid.size.rows) }
    requires row_of_t { row ≤ t.now.shown.grid.size.rows }
{
    if d.bounded {
        return Some(Step::Private(69, false));
    }
    if d.shown.modes.decom {
        return Some(Step::Private(6, false));
    }
    if let Some(step) = plain_step(d) {
        return Some(step);
    }
    cell_step(d, row, d.shown.screen.row(row), t.shown.screen.row(row))
}

/// Returns the first row, starting at `from`, whose cells differ. Returns one more than the number of rows if there is none.
pub(crate) fn differing_row(d: &XtermDisplay, t: &XtermDisplay, from: usize) -> usize
    requires { 1 ≤ from }
    ensures { from ≤ result }
{
    let rows = d.shown.screen.size().rows.min(t.shown.screen.size().rows);
    let mut row = from;
    while row <= rows && XtermCell::same_row(d.shown.screen.row(row), t.shown.screen.row(row)) {
        row += 1;
    }
    row
}
