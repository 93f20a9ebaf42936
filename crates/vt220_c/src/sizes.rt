//! The sizes that C may choose, and the limits of what is written of a terminal of a size.
ghost use Rattle.std.specs.Prelude.{◌≡◌, ◌≤◌, ◌*◌, IfSome};
ghost use Rattle.vt_screen.specs.Sizes.{IsSize};
ghost use Rattle.vt_screen.specs.declared.size.Size.{Size};
ghost use Rattle.vt_term.specs.Text.{text_limit};
ghost use Rattle.vt_update.specs.Limits.{update_limit};
ghost use Rattle.vt_picture.specs.Limits.{show_limit, picture_limit, draw_limit};
ghost use Rattle.vt_xterm.specs.Limits.{xterm_lines_limit};
ghost use Rattle.vt_paint.specs.Limits.{paint_limit};
ghost use Rattle.vt_utf8.specs.Limits.{utf8_lines_limit};
ghost use Rattle.vt_xterm_paint.specs.Repaint.{xterm_paint_limit};
ghost use Rattle.vt220_c.specs.Room.{chunk_lines_limit, room_limit};
ghost use Rattle.vt220_c.specs.Sizes.{size_of, size_for, limit_of};

use crate::inner::CHUNK;
use vt_paint::sized::paint_limit;
use vt_picture::sized::{draw_limit, picture_limit, show_limit};
use vt_term::{ROWS, Size, SizedTerminal};
use vt_update::sized::update_limit;
use vt_utf8::sized::utf8_lines_limit;
use vt_xterm::sized::xterm_lines_limit;
use vt_xterm_paint::sized::xterm_paint_limit;

/// Returns the size of so many rows of so many columns, if a screen may have it. DECCOLM leaves its width.
pub(crate) fn size_of(rows: usize, columns: usize) -> Option<Size>
    ensures value { result ≡ size_of rows columns }
    ensures in_range { IfSome result (λ size. IsSize size) }
{
    if 1 < rows && rows < 256 && 1 < columns && columns < 256 {
        return Some(Size {
            rows,
            narrow: columns,
            wide: columns,
        });
    }
    None
}

/// Returns the size of a terminal that is opened with so many rows and columns, if a screen may have it. 24 rows of 80
/// columns are a VT220's.
pub(crate) fn size_for(rows: usize, columns: usize) -> Option<Size>
    ensures value { result ≡ size_for rows columns }
    ensures in_range { IfSome result (λ size. IsSize size) }
{
    if rows == ROWS && columns == 80 {
        return Some(Size::vt220());
    }
    size_of(rows, columns)
}

/// Returns the capacity that a scratch buffer needs for terminals of the size of this one: that of the longest form, or of the lines
/// of a chunk.
#[tactic(auto, unfolding(crate::specs::Room::room_limit))]
pub(crate) fn room_limit(t: &SizedTerminal) -> usize
    ensures { result ≡ room_limit t.now.display.grid.size }
{
    let size = t.size();
    let lines = (CHUNK * t.row_text_limit()).max(xterm_lines_limit(t));
    picture_limit(size)
        .max(show_limit(size))
        .max(draw_limit(size))
        .max(update_limit(size))
        .max(xterm_paint_limit(size))
        .max(t.text_limit())
        .max(lines)
}

/// States that what is made of a terminal of a size fits into a scratch buffer for it, for proofs. It does nothing when it runs.
#[inline(always)]
pub(crate) fn room_holds()
    ensures picture { (size : Size) → picture_limit size ≤ room_limit size }
    ensures show { (size : Size) → show_limit size ≤ room_limit size }
    ensures draw { (size : Size) → draw_limit size ≤ room_limit size }
    ensures update { (size : Size) → update_limit size ≤ room_limit size }
    ensures paint { (size : Size) → paint_limit size ≤ room_limit size }
    ensures xterm_paint { (size : Size) → xterm_paint_limit size ≤ room_limit size }
    ensures text { (size : Size) → text_limit size ≤ room_limit size }
    ensures chunk { (size : Size) → chunk_lines_limit size ≤ room_limit size }
    ensures utf8 { (size : Size) → utf8_lines_limit size ≤ room_limit size }
    ensures xterm { (size : Size) → xterm_lines_limit size ≤ room_limit size }
{}

/// Returns the limit in bytes of what has this number, for a terminal: that of the text, of the text of a row, and so on. Returns 0
/// for any other number.
pub(crate) fn limit_of(t: &SizedTerminal, what: u32) -> usize
    ensures { result ≡ limit_of what t.now.display.grid.size }
{
    let size = t.size();
    match what {
        0 => t.text_limit(),
        1 => t.row_text_limit(),
        2 => show_limit(size),
        3 => picture_limit(size),
        4 => draw_limit(size),
        5 => update_limit(size),
        6 => paint_limit(size),
        7 => xterm_paint_limit(size),
        8 => utf8_lines_limit(t),
        9 => xterm_lines_limit(t),
        _ => 0,
    }
}
