//! Kinds of cells.
ghost use Rattle.std.specs.Prelude.{◌≡◌, ◌↔◌, IsTrue};
ghost use Rattle.vt_screen.specs.Kinds.{CellsOf};

use crate::cell::Cell;
use crate::line::same_cells;
use vt_glyph::Glyph;

/// A type of cells that a screen can have.
pub trait Cells: Copy + Drop {
    /// What is done to cells, for contracts.
    ghost cells: { CellsOf Self };

    /// Returns the cell that nothing was written to.
    fn empty() -> Self
        ensures { result ≡ cells.blank };

    /// Returns what a selective erase makes of a cell.
    fn selectively_erased(self) -> Self
        ensures { result ≡ cells.selectively_erased self };

    /// States that the cell is sound, for proofs. It does nothing when it runs.
    fn is_sound(self)
        ensures { IsTrue (cells.shown self) };

    /// Returns whether two rows have the same cells.
    fn same_row(a: &[Self], b: &[Self]) -> bool
        ensures { IsTrue result ↔ (a.now ≡ b.now) };

    /// A blank cell is sound.
    ghost blank_shown: { IsTrue (cells.shown cells.blank) };

    /// A selective erase keeps a cell sound.
    ghost erased_shown: { (c : Self) → IsTrue (cells.shown c) → IsTrue (cells.shown (cells.selectively_erased c)) };
}

impl Cells for Cell {
    ghost use Rattle.vt_screen.specs.Kinds.{vt220_cells};
    ghost use Rattle.vt_screen.specs.Shown.{blank_is_shown, erased_is_shown};

    ghost cells = { vt220_cells };

    ghost blank_shown = { blank_is_shown };

    ghost erased_shown = { erased_is_shown };

    #[inline(always)]
    fn empty() -> Cell {
        Cell::blank()
    }

    #[inline(always)]
    fn selectively_erased(self) -> Cell {
        let mut cell = self;
        if !cell.protected {
            cell.glyph = Glyph::blank();
        }
        cell
    }

    #[inline(always)]
    fn is_sound(self) {
        let _ = self.glyph.to_char();
    }

    #[inline(always)]
    fn same_row(a: &[Cell], b: &[Cell]) -> bool {
        same_cells(a, b)
    }
}
