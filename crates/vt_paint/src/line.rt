//! Speed: the bytes of a row, written one after another into a line that is appended at once. Each call begins at a
//! position of the line, and returns the position after the bytes that it wrote.
ghost use Rattle.std.specs.Prelude.{◌≡◌, ◌+◌, ◌≤◌, ◌<◌, ◌++◌, ◌∷◌, [], take};
ghost use Rattle.vt_syntax.specs.Spelling.{spell_events};
ghost use Rattle.vt_glyph.specs.Spell.{spelling_of};
ghost use Rattle.vt_screen.specs.declared.cell.Brush.{Brush};
ghost use Rattle.vt_paint.specs.Controls.{cursor_position, brush_events, spelling_events};
ghost use Rattle.vt_paint.specs.Limits.{row_digits};
ghost use Rattle.vt_paint.specs.Private.HeaderParts.{brush_number};

use crate::bytes::put_front;
use crate::tables::{brush_part, column_part, row_part};
use vt_glyph::Glyph;
use vt_screen::MOST;

/// The capacity for bytes that aren't appended yet.
pub(crate) const LINE: usize = 2048;

/// The number of bytes that are appended before the next header. After fewer there is capacity for a run: a header, and
/// the glyphs of a row.
pub(crate) const MANY: usize = 1248;

/// Writes a byte.
#[inline(always)]
pub(crate) fn put(byte: u8, at: usize, line: &mut [u8; LINE]) -> usize
    requires { at < LINE }
    ensures items { take result line.new ≡ take at line.old ++ byte ∷ [] }
    ensures next { result ≡ at + 1 }
{
    line[at] = byte;
    at + 1
}

/// Writes the header of cells: their position and the brush of a number.
#[inline(always)]
pub(crate) fn put_header(
    row: usize,
    col: usize,
    number: u64,
    at: usize,
    line: &mut [u8; LINE],
) -> usize
    requires row { (1 ≤ row) × (row ≤ MOST) }
    requires col { (1 ≤ col) × (col ≤ MOST) }
    requires room { at + 29 ≤ LINE }
    ensures items { (brush : Brush) → number ≡ brush_number brush
        → take result line.new ≡ take at line.old ++ spell_events (cursor_position row col ∷ brush_events brush) }
    ensures bounded { result ≤ at + 24 + row_digits row }
    ensures few { result ≤ at + 27 }
{
    let (start, len) = row_part(row);
    let at = put_front(start, len, at, line);
    let (middle, len) = column_part(col);
    let at = put_front(middle, len, at, line);
    let (rest, len) = brush_part(number);
    put_front(rest, len, at, line)
}

/// Writes a code after a single shift.
#[inline(always)]
fn put_shifted(shift: u8, code: u8, at: usize, line: &mut [u8; LINE]) -> usize
    requires { at + 3 ≤ LINE }
    ensures items { take result line.new ≡ take at line.old ++ 0x1B ∷ shift ∷ code ∷ [] }
    ensures next { result ≡ at + 3 }
{
    let at = put(0x1B, at, line);
    let at = put(shift, at, line);
    put(code, at, line)
}

/// Writes a glyph, if the sets are those of its spelling.
#[inline(always)]
pub(crate) fn put_glyph(glyph: Glyph, at: usize, line: &mut [u8; LINE]) -> usize
    requires { at + 3 ≤ LINE }
    ensures items { take result line.new ≡ take at line.old ++ spell_events (spelling_events (spelling_of glyph)) }
    ensures bounded { result ≤ at + 3 }
{
    // Most glyphs are plain. By its spelling the compiler would choose code and shift without a jump.
    let code = glyph.code() as u8;
    if 0x20 <= code && code < 0x80 {
        put(code, at, line)
    } else if code < 0x20 {
        put_shifted(b'O', code + 0x60, at, line)
    } else {
        put_shifted(b'N', code - 0x80, at, line)
    }
}
