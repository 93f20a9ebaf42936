//! The pen: where the next character is shown, and with which attributes.
ghost use Rattle.std.specs.Prelude.{◌≡◌, ◌+◌, ◌≤◌, ◌++◌, vec_len, vec_capacity};
ghost use Rattle.vt_paint.specs.Limits.{row_digits};
ghost use Rattle.vt_picture.specs.Draw.{go};

use vt_paint::Function;
use vt_screen::{MOST, Rendition};

/// The pen: the position and the attributes of the next character.
#[derive(Clone, Copy)]
pub struct Pen {
    /// The row of the terminal's cursor.
    pub row: usize,
    /// The column of the terminal's cursor. After the last column it is one more than the width.
    pub col: usize,
    /// The attributes of the next character.
    pub look: Rendition,
}

/// Appends CUP if the pen is elsewhere.
pub(crate) fn push_go(pen: Pen, row: usize, col: usize, out: &mut Vec<u8>)
    requires row { row ≤ MOST }
    requires col { col ≤ MOST }
    requires room { vec_len out.old + 7 + row_digits row ≤ vec_capacity out.old }
    ensures items { out.new.items ≡ out.old.items ++ go pen row col }
    ensures bounded { vec_len out.new ≤ vec_len out.old + 7 + row_digits row }
    ensures capacity { vec_capacity out.old ≤ vec_capacity out.new }
{
    if !(pen.row == row && pen.col == col) {
        Function::cursor_to(row as u8, col as u8).push(out);
    }
}
