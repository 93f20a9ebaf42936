//! The looks of cells.
ghost use Rattle.std.specs.Prelude.{◌≡◌, ◌≤◌, ◌<◌, length};
ghost use Rattle.vt_glyph.specs.Encoding.{encoded_glyph, encoding_of};
ghost use Rattle.vt_picture.specs.Looks.{is_blank as is_blank_cell, trimmed};
ghost use Rattle.vt_picture.specs.Private.Words.{look_word};

use vt_screen::Cell;

/// Returns a cell as one number without its protection. Two cells have the same number exactly if they look the same.
#[tactic(auto, using(crate::proofs::CellWords::without_protection))]
#[inline(always)]
pub(crate) fn look_word(cell: &Cell) -> u64
    ensures word { result ≡ look_word cell.now }
    ensures glyph { encoded_glyph (encoding_of cell.now.glyph) ≡ cell.now.glyph }
    ensures bound { encoding_of cell.now.glyph < 0x100 }
{
    cell.word() % 0x100_0000_0000_0000
}

/// Returns whether a cell shows a space without attributes.
#[tactic(auto, using(crate::proofs::CellWords::blank_look))]
#[inline(always)]
fn is_blank(cell: &Cell) -> bool
    ensures { result ≡ is_blank_cell cell.now }
{
    look_word(cell) == 0x20
}

/// Returns the row without the blank cells at its end.
pub(crate) fn without_blank_end(cells: &[Cell]) -> &[Cell]
    ensures value { result.now ≡ trimmed cells.now }
    ensures shorter { length result.now ≤ length cells.now }
{
    let mut end = cells.len();
    while end > 0 && is_blank(&cells[end - 1]) {
        end -= 1;
    }
    &cells[..end]
}
