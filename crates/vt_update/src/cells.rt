//! The part of an update that writes the cells, row by row.
ghost use Rattle.std.specs.Prelude.{◌≡◌, ◌≤◌, length, vec_capacity};
ghost use Rattle.vt_update.specs.Private.Appended.{Appended};

use crate::remote::Remote;
use crate::rows::{BLANK, Rows};
use vt_paint::Function;
use vt_screen::{Cell, MOST};
use vt_term::SizedTerminal;

/// The number of bytes that an erasure takes. It is chosen if it saves more cells than this.
const ERASURE: i32 = 3;

/// The number of cells that erasing saves: in the remainder of the row, and in the rows below.
#[derive(Clone, Copy)]
struct Spared {
    here: i32,
    below: i32,
}

/// The part that was erased: nothing, the remainder of the row, or also the rows below.
#[derive(Clone, Copy, PartialEq, Eq)]
enum Erased {
    Nothing,
    Line,
    Below,
}

impl Remote {
    /// Writes all cells, by row and column.
    pub(crate) fn set_cells<const R: usize>(
        &mut self,
        rows: &Rows<'_, R>,
        to: &SizedTerminal,
        out: &mut Vec<u8>,
    )
        requires { to.now.display.grid.size.rows ≤ R }
        ensures appended { Appended out.old.items out.new.items }
        ensures capacity { vec_capacity out.old ≤ vec_capacity out.new }
    {
        let below = rows.gains_below(to);
        let mut erased = false;
        for row in 1..to.size().rows + 1 {
            erased = self.set_row(row, erased, below[row - 1], rows, to, out);
        }
    }

    /// Writes the cells of a row that was erased or is unchanged. Returns whether the rows below are erased.
    fn set_row<const R: usize>(
        &mut self,
        row: usize,
        erased: bool,
        below: i32,
        rows: &Rows<'_, R>,
        to: &SizedTerminal,
        out: &mut Vec<u8>,
    ) -> bool
        requires row { (1 ≤ row) × (row ≤ to.now.display.grid.size.rows) }
        requires fits { to.now.display.grid.size.rows ≤ R }
        ensures appended { Appended out.old.items out.new.items }
        ensures capacity { vec_capacity out.old ≤ vec_capacity out.new }
    {
        if erased {
            self.write_filled(row, 0, rows.blank(), to, out);
            return true;
        }
        if !rows.differs(row) {
            return false;
        }
        let here = rows.gain(row);
        self.change_row(row, rows, Spared { here, below }, to, out)
    }

    /// Writes the cells of a row that differs. Returns whether the rows below were erased.
    fn change_row<const R: usize>(
        &mut self,
        row: usize,
        rows: &Rows<'_, R>,
        spared: Spared,
        to: &SizedTerminal,
        out: &mut Vec<u8>,
    ) -> bool
        requires row { (1 ≤ row) × (row ≤ to.now.display.grid.size.rows) }
        requires fits { to.now.display.grid.size.rows ≤ R }
        ensures appended { Appended out.old.items out.new.items }
        ensures capacity { vec_capacity out.old ≤ vec_capacity out.new }
    {
        let old = rows.row(row);
        let new = to.row(row);
        let columns = old.len().min(new.len());
        let mut left = rows.differing(row);
        let mut here = spared.here;
        let mut i = 0;
        while i < columns && left > 0 {
            let word = new[i].word();
            if old[i].word() == word {
                here = here.wrapping_add((word != BLANK) as i32);
                i += 1;
                continue;
            }
            if word == BLANK {
                let erased = self.erase(row, i + 1, Spared { here, ..spared }, to);
                if erased != Erased::Nothing {
                    self.write_filled(row, i, rows.blank(), to, out);
                    return erased == Erased::Below;
                }
                here = here.wrapping_sub(1);
            }
            let count = self.write_part(row, i + 1, &old[i..columns], &new[i..columns], to, out);
            left = left.wrapping_sub(count.min(MOST) as i32);
            i += count;
        }
        false
    }

    /// Goes to a position, and writes a run that begins there. Returns its number of cells.
    #[inline(always)]
    fn write_part(
        &mut self,
        row: usize,
        col: usize,
        old: &[Cell],
        new: &[Cell],
        to: &SizedTerminal,
        out: &mut Vec<u8>,
    ) -> usize
        requires row { (1 ≤ row) × (row ≤ to.now.display.grid.size.rows) }
        requires some { 1 ≤ length new.now }
        requires len { length old.now ≡ length new.now }
        ensures some { 1 ≤ result }
        ensures within { result ≤ length new.now }
        ensures appended { Appended out.old.items out.new.items }
        ensures capacity { vec_capacity out.old ≤ vec_capacity out.new }
    {
        self.go(row, col, to);
        let count = self.write_run(old, new);
        self.chosen.flush_many(out);
        count
    }

    /// Writes the cells of a row that aren't blank, starting at `from`. The other side has a blank row there.
    fn write_filled(
        &mut self,
        row: usize,
        from: usize,
        blank: &[Cell],
        to: &SizedTerminal,
        out: &mut Vec<u8>,
    )
        requires { (1 ≤ row) × (row ≤ to.now.display.grid.size.rows) }
        ensures appended { Appended out.old.items out.new.items }
        ensures capacity { vec_capacity out.old ≤ vec_capacity out.new }
    {
        let new = to.row(row);
        let columns = blank.len().min(new.len());
        let mut i = from;
        while i < columns {
            if new[i].word() == BLANK {
                i += 1;
            } else {
                i += self.write_part(row, i + 1, &blank[i..columns], &new[i..columns], to, out);
            }
        }
    }

    /// Writes ED or EL at a position if it saves enough. Returns what was erased.
    fn erase(&mut self, row: usize, col: usize, spared: Spared, to: &SizedTerminal) -> Erased
        requires { (1 ≤ row) × (row ≤ to.now.display.grid.size.rows) }
    {
        let Spared { here, below } = spared;
        if here < 0 {
            Erased::Nothing
        } else if below > 0 && here.wrapping_add(below) > ERASURE {
            self.go(row, col, to);
            self.chosen.put(Function::erase_below());
            Erased::Below
        } else if here > ERASURE {
            self.go(row, col, to);
            self.chosen.put(Function::erase_right());
            Erased::Line
        } else {
            Erased::Nothing
        }
    }
}
