//! Moves of rows between left and right margins. A VT220 has no such margins; an xterm and a VT420 have.
ghost use Rattle.std.specs.Prelude.{◌≡◌, ◌≤◌, ◌+◌};
ghost use Rattle.vt_screen.specs.Between.{columns_up_any, columns_down_any};
ghost use Rattle.vt_screen.specs.Grid.{IsSoundGridOf};

use crate::kind::Cells;
use crate::screen::Screen;

impl<C: Cells> Screen<C> {
    /// Moves the rows from `top` to `bottom` up by `n`, between two columns. `empty` comes in at the bottom.
    pub fn columns_up(
        &mut self,
        top: usize,
        bottom: usize,
        left: usize,
        right: usize,
        n: u16,
        empty: C,
    )
        requires rows { (1 ≤ top) × (top ≤ bottom) × (bottom ≤ self.old.size.rows) }
        requires columns { (1 ≤ left) × (left ≤ right) × (right ≤ self.old.width) }
        ensures grid { self.new ≡ columns_up_any C.cells.blank empty self.old top bottom left right n }
        ensures sound { IsSoundGridOf C.cells.shown self.new }
    {
        self.soundness();
        let n = n as usize;
        for row in top..bottom + 1 {
            if row + n <= bottom {
                self.copy_columns(row + n, row, left, right);
            } else {
                self.erase_with(row, left, right, false, empty);
            }
        }
    }

    /// Moves the rows from `top` to `bottom` down by `n`, between two columns. `empty` comes in at the top.
    pub fn columns_down(
        &mut self,
        top: usize,
        bottom: usize,
        left: usize,
        right: usize,
        n: u16,
        empty: C,
    )
        requires rows { (1 ≤ top) × (top ≤ bottom) × (bottom ≤ self.old.size.rows) }
        requires columns { (1 ≤ left) × (left ≤ right) × (right ≤ self.old.width) }
        ensures grid { self.new ≡ columns_down_any C.cells.blank empty self.old top bottom left right n }
        ensures sound { IsSoundGridOf C.cells.shown self.new }
    {
        self.soundness();
        let n = n as usize;
        for done in 0..bottom + 1 - top {
            let row = bottom - done;
            if top + n <= row {
                self.copy_columns(row - n, row, left, right);
            } else {
                self.erase_with(row, left, right, false, empty);
            }
        }
    }
}
