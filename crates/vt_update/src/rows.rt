//! The rows of the other side, and counts of cells.
ghost use Rattle.std.specs.Prelude.{◌≤◌};

use crate::scrolling::Scroll;
use vt_screen::{Cell, MOST, same_cells};
use vt_term::SizedTerminal;

/// The gain of a row that mustn't be erased. No other rows make up for it.
const NEVER: i32 = -10_000;

/// The cells of the other side: those of the shown terminal, after a scroll. There is room for `R` rows.
#[derive(Drop)]
pub(crate) struct Rows<'a, const R: usize> {
    shown: &'a SizedTerminal,
    scroll: Option<Scroll>,
    /// The number of cells of each row that differ from those of the target.
    differing: [i32; R],
    /// The number of cells of each row that aren't blank in the target if the row differs, otherwise 0.
    filled: [i32; R],
    blank: &'a [Cell],
}

impl<const R: usize> Rows<'_, R> {
    /// Returns the rows of `shown`. `counts` has the number of cells of each row that differ from those of `to`, and `blank`
    /// is a blank row.
    pub(crate) fn new<'a>(
        shown: &'a SizedTerminal,
        blank: &'a [Cell],
        counts: &[usize; R],
        to: &SizedTerminal,
    ) -> Rows<'a, R>
        requires { to.now.display.grid.size.rows ≤ R }
    {
        let mut rows = Rows {
            shown,
            scroll: None,
            differing: [0; R],
            filled: [0; R],
            blank,
        };
        for row in 1..to.size().rows + 1 {
            rows.note(row, counts[row - 1].min(MOST) as i32, to);
        }
        rows
    }

    /// Moves the rows by a scroll.
    pub(crate) fn scroll(&mut self, scroll: Scroll, to: &SizedTerminal)
        requires { to.now.display.grid.size.rows ≤ R }
    {
        self.scroll = Some(scroll);
        for row in scroll.top..scroll.bottom.min(to.size().rows) + 1 {
            let old = self.row(row);
            let new = to.row(row);
            let differing = if same_cells(old, new) {
                0
            } else {
                unlike(old, new)
            };
            self.note(row, differing, to);
        }
    }

    /// Notes how many cells of a row differ.
    fn note(&mut self, row: usize, differing: i32, to: &SizedTerminal)
        requires row { (1 ≤ row) × (row ≤ to.now.display.grid.size.rows) }
        requires fits { to.now.display.grid.size.rows ≤ R }
    {
        self.differing[row - 1] = differing;
        if differing != 0 && self.filled[row - 1] == 0 {
            self.filled[row - 1] = filled(to.row(row));
        }
    }

    /// Returns a blank row.
    pub(crate) fn blank(&self) -> &[Cell] {
        self.blank
    }

    /// Returns a row.
    pub(crate) fn row(&self, row: usize) -> &[Cell] {
        let source = match &self.scroll {
            Some(scroll) => scroll.source(row),
            None => row,
        };
        if 1 <= source && source <= self.shown.size().rows {
            self.shown.row(source)
        } else {
            self.blank()
        }
    }

    /// Returns whether a row differs from that of the target.
    pub(crate) fn differs(&self, row: usize) -> bool
        requires { (1 ≤ row) × (row ≤ R) }
    {
        self.differing[row - 1] != 0
    }

    /// Returns how many cells of a row differ from those of the target.
    pub(crate) fn differing(&self, row: usize) -> i32
        requires { (1 ≤ row) × (row ≤ R) }
    {
        self.differing[row - 1]
    }

    /// Returns how many cells of a row that differs aren't blank in the target.
    pub(crate) fn filled(&self, row: usize) -> i32
        requires { (1 ≤ row) × (row ≤ R) }
    {
        self.filled[row - 1]
    }

    /// Returns how many cells erasing a row that differs saves: those that differ, less those that aren't blank in the
    /// target.
    pub(crate) fn gain(&self, row: usize) -> i32
        requires { (1 ≤ row) × (row ≤ R) }
    {
        self.differing[row - 1].wrapping_sub(self.filled[row - 1])
    }

    /// Returns how many cells erasing all rows below each row saves. A row that doesn't differ and isn't blank is never
    /// erased.
    pub(crate) fn gains_below(&self, to: &SizedTerminal) -> [i32; R]
        requires { to.now.display.grid.size.rows ≤ R }
    {
        let mut gains = [NEVER; R];
        let mut below = 0i32;
        for row in (1..to.size().rows + 1).rev() {
            gains[row - 1] = below;
            if self.differs(row) {
                below = below.wrapping_add(self.gain(row));
            } else if !is_blank_row(to.row(row)) {
                return gains;
            }
        }
        gains
    }
}

/// The word of a blank cell: that of a space.
pub(crate) const BLANK: u64 = 0x20;

/// Returns whether all cells are blank.
fn is_blank_row(cells: &[Cell]) -> bool {
    cells.iter().all(is_blank)
}

/// Returns whether a cell is blank.
#[inline(always)]
fn is_blank(cell: &Cell) -> bool {
    cell.word() == BLANK
}

/// Returns the number of positions at which the cells differ.
pub(crate) fn unlike(old: &[Cell], new: &[Cell]) -> i32 {
    let mut count = 0u64;
    for (old, new) in old.iter().zip(new) {
        count = count.wrapping_add((old.word() != new.word()) as u64);
    }
    count.min(MOST as u64) as i32
}

/// Returns how many cells aren't blank.
pub(crate) fn filled(cells: &[Cell]) -> i32 {
    let mut count = 0u64;
    for cell in cells.iter() {
        count = count.wrapping_add(!is_blank(cell) as u64);
    }
    count.min(MOST as u64) as i32
}
