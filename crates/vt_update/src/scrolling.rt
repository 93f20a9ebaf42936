//! Scrolls: rows that move up or down, so that they needn't be written.
ghost use Rattle.std.specs.Prelude.{◌≡◌, ◌≤◌, ◌<◌, ◌+◌};

use crate::remote::{Remote, number};
use crate::rows::{Rows, filled, unlike};
use vt_paint::Function;
use vt_screen::{Cell, MOST, same_cells};
use vt_term::{Margins, SizedTerminal};

/// The fewest cells that a scroll has to bring to their rows to be considered.
const FEW: i32 = 8;

/// A scroll: rows `top` to `bottom` move up or down by `by`, and blank rows are added.
#[derive(Clone, Copy)]
pub(crate) struct Scroll {
    pub(crate) top: usize,
    pub(crate) bottom: usize,
    by: usize,
    up: bool,
    ghost from_row_1: { 1 ≤ top },
    ghost some: { 1 ≤ by },
    ghost inside: { top + by ≤ bottom },
    ghost to_last_row: { bottom ≤ 255 },
}

impl Scroll {
    /// Returns the row that moves to `row`, or 0 if `row` becomes blank.
    pub(crate) fn source(&self, row: usize) -> usize {
        if row < self.top || self.bottom < row {
            row
        } else if self.up && row <= self.bottom - self.by {
            row + self.by
        } else if !self.up && self.top + self.by <= row {
            row - self.by
        } else {
            0
        }
    }

    /// Returns a scroll inside the margins that saves at least two cells, if one is found. If it isn't the best one, a
    /// few more bytes are sent.
    pub(crate) fn find<const R: usize>(
        rows: &Rows<'_, R>,
        shown: &SizedTerminal,
        to: &SizedTerminal,
    ) -> Option<Scroll>
        requires size { shown.now.display.grid.size.rows ≡ to.now.display.grid.size.rows }
        requires fits { to.now.display.grid.size.rows ≤ R }
        requires rows { R ≤ MOST }
    {
        to.soundness();
        let Margins { top, bottom } = to.margins();
        let votes = Votes::new(rows, shown, to);
        let mut most = FEW;
        let mut voted = None;
        for by in 1..bottom - top + 1 {
            for up in [true, false] {
                let cells = votes.of(by, up);
                if cells > most {
                    most = cells;
                    voted = Some(Scroll {
                        top,
                        bottom,
                        by,
                        up,
                    });
                }
            }
        }
        let voted = voted?;
        Gains::new(voted, rows, shown, to).best(voted)
    }
}

/// The number of filled cells that each scroll brings to their rows, counted in whole rows that differ. Rows are
/// compared if their sums are equal.
#[derive(Drop)]
struct Votes<const R: usize> {
    sums: [u64; R],
    up: [i32; R],
    down: [i32; R],
}

impl<const R: usize> Votes<R> {
    fn new(rows: &Rows<'_, R>, shown: &SizedTerminal, to: &SizedTerminal) -> Votes<R>
        requires size { shown.now.display.grid.size.rows ≡ to.now.display.grid.size.rows }
        requires fits { to.now.display.grid.size.rows ≤ R }
    {
        let mut votes = Votes {
            sums: [0; R],
            up: [0; R],
            down: [0; R],
        };
        for row in 1..to.size().rows + 1 {
            if rows.differs(row) {
                votes.sums[row - 1] = sum_of(shown.row(row));
            }
        }
        for row in 1..to.size().rows + 1 {
            if rows.differs(row) {
                votes.count(row, rows, shown, to);
            }
        }
        votes
    }

    /// Adds the votes of one row.
    fn count(&mut self, row: usize, rows: &Rows<'_, R>, shown: &SizedTerminal, to: &SizedTerminal)
        requires row { (1 ≤ row) × (row ≤ to.now.display.grid.size.rows) }
        requires size { shown.now.display.grid.size.rows ≡ to.now.display.grid.size.rows }
        requires fits { to.now.display.grid.size.rows ≤ R }
    {
        let new = to.row(row);
        let cells = rows.filled(row);
        if cells == 0 {
            return;
        }
        let sum = sum_of(new);
        for source in 1..to.size().rows + 1 {
            if self.sums[source - 1] == sum
                && rows.differs(source)
                && same_cells(shown.row(source), new)
            {
                if row < source {
                    self.up[source - row] = self.up[source - row].wrapping_add(cells);
                } else {
                    self.down[row - source] = self.down[row - source].wrapping_add(cells);
                }
            }
        }
    }

    fn of(&self, by: usize, up: bool) -> i32
        requires { by < R }
    {
        if up { self.up[by] } else { self.down[by] }
    }
}

/// Returns the sum of the words of the cells in the left half.
fn sum_of(cells: &[Cell]) -> u64 {
    let mut sum = 0u64;
    for cell in cells[..cells.len() / 2].iter() {
        sum = sum.wrapping_add(cell.word());
    }
    sum
}

/// The number of cells that each row between the margins saves: if it comes from another row, and if it is blank.
#[derive(Drop)]
struct Gains<const R: usize> {
    moved: [i32; R],
    blank: [i32; R],
}

impl<const R: usize> Gains<R> {
    fn new(
        scroll: Scroll,
        rows: &Rows<'_, R>,
        shown: &SizedTerminal,
        to: &SizedTerminal,
    ) -> Gains<R>
        requires { to.now.display.grid.size.rows ≤ R }
    {
        let mut gains = Gains {
            moved: [0; R],
            blank: [0; R],
        };
        for row in scroll.top..scroll.bottom.min(to.size().rows) + 1 {
            let new = to.row(row);
            let differing = rows.differing(row);
            let source = scroll.source(row);
            if 1 <= source && source <= shown.size().rows {
                gains.moved[row - 1] = differing.wrapping_sub(unlike(shown.row(source), new));
            }
            gains.blank[row - 1] = if rows.differs(row) {
                rows.gain(row)
            } else {
                filled(new).wrapping_neg()
            };
        }
        gains
    }

    /// Returns the part of a scroll that saves most. All rows between the margins win over an equally good part.
    fn best(&self, scroll: Scroll) -> Option<Scroll> {
        let Scroll {
            top,
            bottom,
            by,
            up,
        } = scroll;
        let mut most = 3i32;
        let mut found = None;
        if R < bottom {
            return found;
        }
        let blank_rows = &self.blank[..];
        for first in top..bottom - by + 1 {
            let mut sum = 0i32;
            for last in first..bottom - by + 1 {
                let (moved, blank) = if up {
                    (last, last + 1)
                } else {
                    (last + by, first)
                };
                sum = sum.wrapping_add(self.moved[moved - 1]);
                let spared = sum.wrapping_add(total(&blank_rows[blank - 1..blank - 1 + by]));
                let whole = first == top && last + by == bottom;
                let gain = spared.wrapping_mul(2).wrapping_add(whole as i32);
                if gain > most {
                    most = gain;
                    found = Some(Scroll {
                        top: first,
                        bottom: last + by,
                        by,
                        up,
                    });
                }
            }
        }
        found
    }
}

fn total(counts: &[i32]) -> i32 {
    let mut sum = 0i32;
    for count in counts.iter() {
        sum = sum.wrapping_add(*count);
    }
    sum
}

impl Remote {
    /// Sends DL and IL, or one LF if that is enough.
    pub(crate) fn scroll(&mut self, scroll: Scroll, to: &SizedTerminal) {
        let Scroll {
            top,
            bottom,
            by,
            up,
        } = scroll;
        if to.size().rows < bottom {
            return;
        }
        let margins = self.margins;
        let whole = margins.top == top && margins.bottom == bottom;
        if whole && up && by == 1 && self.cursor.row == bottom {
            self.line_feed(bottom);
            return;
        }
        let low = bottom - by + 1;
        let (deleted, inserted) = if up { (top, low) } else { (low, top) };
        if up || bottom != margins.bottom {
            self.go(deleted, 1, to);
            self.chosen.put(Function::delete_lines(number(by)));
        }
        if !up || bottom != margins.bottom {
            self.go(inserted, 1, to);
            self.chosen.put(Function::insert_lines(number(by)));
        }
    }
}
