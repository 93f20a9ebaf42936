//! The choice of steps. It has no proof that they lead to the target: they are played before they are sent.
ghost use Rattle.std.specs.Prelude.{◌≡◌, ◌≤◌};

use crate::cursor::move_step;
use crate::ending::last_step;
use crate::looks::look_step;
use crate::rows::{differing_row, row_step};
use crate::step::{Step, number};
use vt_paint::Function;
use vt_screen::{Cells, MOST};
use vt_term::{Margins, same_saved};
use vt_xterm_cell::XtermCell;
use vt_xterm_display::XtermDisplay;

/// What is still to be chosen. Each step is chosen for the state that the steps before it leave.
#[derive(Drop)]
pub(crate) struct Choice {
    /// The rows by which the text moves up.
    lines: usize,
    /// The first row that may differ.
    row: usize,
}

/// Returns whether steps are chosen: width, tab stops, the page that isn't shown and what DECSC saved are equal.
pub(crate) fn is_close(d: &XtermDisplay, t: &XtermDisplay) -> bool {
    d.alternate == t.alternate
        && d.shown.screen.width() == t.shown.screen.width()
        && d.shown.stops() == t.shown.stops()
        && same_saved::<XtermCell>(&d.shown.saved, &t.shown.saved)
        && same_saved::<XtermCell>(&d.other.saved, &t.other.saved)
        && d.other.screen.same(&t.other.screen)
}

/// Returns whether a row has a cell that isn't a plain space.
fn has_text(cells: &[XtermCell]) -> bool {
    for cell in cells {
        if !cell.same(&XtermCell::blank()) {
            return true;
        }
    }
    false
}

/// Returns how many rows with text are equal after those of `d` have moved up by `n`.
fn equal_rows(d: &XtermDisplay, t: &XtermDisplay, n: usize) -> usize
    requires { n ≤ MOST }
{
    let rows = d.shown.screen.size().rows.min(t.shown.screen.size().rows);
    let mut count: usize = 0;
    for row in n + 1..rows + 1 {
        let cells = d.shown.screen.row(row);
        if XtermCell::same_row(cells, t.shown.screen.row(row - n)) && has_text(cells) {
            count = count.saturating_add(1);
        }
    }
    count
}

/// Returns the number of rows by which the text moves up, if more rows are equal then, or 0.
fn lines_up(d: &XtermDisplay, t: &XtermDisplay) -> usize {
    let mut lines = 0;
    let mut most = equal_rows(d, t, 0);
    for n in 1..d.shown.screen.size().rows {
        let count = equal_rows(d, t, n);
        if count > most {
            most = count;
            lines = n;
        }
    }
    lines
}

/// Returns the first step after which LF moves all rows up, and a plain row comes in. Returns `None` if it does.
fn bottom_step(d: &XtermDisplay) -> Option<Step> {
    let rows = d.shown.screen.size().rows;
    if d.bounded {
        return Some(Step::Private(69, false));
    }
    let Margins { top, bottom } = d.shown.margins;
    if top != 1 || bottom != rows {
        return Some(Step::Send(Function::margins_to(1, number(rows))));
    }
    if d.shown.cursor.row != rows {
        return move_step(d, rows, 1);
    }
    if d.shown.pen.erased().same(&XtermCell::blank()) {
        None
    } else {
        look_step(d, XtermCell::blank())
    }
}

impl Choice {
    /// Returns the choice before its first step.
    pub(crate) fn new(d: &XtermDisplay, t: &XtermDisplay) -> Choice {
        Choice {
            lines: lines_up(d, t),
            row: 1,
        }
    }

    /// Returns the next step from the state that those before it have left. Returns `None` after the last one.
    pub(crate) fn next(&mut self, d: &XtermDisplay, t: &XtermDisplay) -> Option<Step> {
        if self.lines > 0 {
            if let Some(step) = bottom_step(d) {
                return Some(step);
            }
            self.lines -= 1;
            return Some(Step::Send(Function::line_feed()));
        }
        self.row = differing_row(d, t, self.row.max(1));
        if self.row <= d.shown.screen.size().rows && self.row <= t.shown.screen.size().rows {
            row_step(d, t, self.row)
        } else {
            last_step(d, t)
        }
    }
}
