//! The cells of a repaint, appended to an output that has capacity for them.
ghost use Rattle.std.specs.Prelude.{◌≡◌, ◌+◌, ◌*◌, ◌^◌, ◌≤◌, ◌<◌, ◌++◌, ◌||◌, ◌&&◌, not, true, false, length, take, vec_len};
ghost use Rattle.std.specs.Prelude.{vec_capacity};
ghost use Rattle.vt_glyph.specs.Spell.{spelling_of};
ghost use Rattle.vt_glyph.specs.Encoding.{encoding_of};
ghost use Rattle.std.specs.List.{list_all};
ghost use Rattle.vt_syntax.specs.Spelling.{spell_events};
ghost use Rattle.vt_screen.specs.declared.cell.Brush.{Brush};
ghost use Rattle.vt_screen.specs.Cells.{brush_of};
ghost use Rattle.vt_screen.specs.Grid.{Grid, cell_at, row_of};
ghost use Rattle.vt_screen.specs.Same.{same_brush, when};
ghost use Rattle.vt_paint.specs.Same.{is_blank as is_blank_cell};
ghost use Rattle.vt_paint.specs.Controls.{spelling_sets_events, spelling_events};
ghost use Rattle.vt_paint.specs.Limits.{cell_limit, row_limit};
ghost use Rattle.vt_paint.specs.Private.Parts.{row_pieces};
ghost use Rattle.vt_paint.specs.Items.{cells_item};
ghost use Rattle.vt_paint.specs.Private.Room.{head_room};
ghost use Rattle.vt_paint.specs.Private.HeaderParts.{brush_number, lowest_word};

use crate::bytes::{push_bytes, push_when};
use crate::line::{LINE, MANY, put, put_glyph, put_header};
use crate::tables::cell_brush_number;
use vt_glyph::Glyph;
use vt_screen::laws::rows;
use vt_screen::{Cell, MOST};
use vt_term::SizedTerminal;

/// The sets that the spellings of glyphs are for: G0 ASCII, G2 Supplemental, G3 Special Graphics, and G0 in GL.
pub(crate) const SPELLING_SETS: &[u8] = b"\x1B(B\x1B*<\x1B+0\x0F";

/// The word of a blank cell: that of a space.
const BLANK: u64 = 0x20;

/// Returns the cell at a row and a column.
pub(crate) fn row_cell(t: &SizedTerminal, row: usize, col: usize) -> &Cell
    requires row { (1 ≤ row) × (row ≤ t.now.display.grid.size.rows) }
    requires col { (1 ≤ col) × (col ≤ t.now.display.grid.width) }
    ensures { result.now ≡ cell_at t.now.display.grid row col }
{
    rows();
    &t.row(row)[col - 1]
}

/// Returns whether a cell is blank.
#[tactic(auto, using(crate::proofs::Equality::blank_word))]
#[inline(always)]
fn is_blank(cell: &Cell) -> bool
    ensures { result ≡ is_blank_cell cell.now }
{
    cell.word() == BLANK
}

/// Writes a glyph as `put_glyph` does. Speed: it is out of line, so that the loop over plain cells of a run copies no
/// register.
#[inline(never)]
fn put_rare(glyph: Glyph, at: usize, line: &mut [u8; LINE]) -> usize
    requires { at + 3 ≤ LINE }
    ensures items { take result line.new ≡ take at line.old ++ spell_events (spelling_events (spelling_of glyph)) }
    ensures bounded { result ≤ at + 3 }
{
    put_glyph(glyph, at, line)
}

/// The brush of a run, in the words of its cells.
#[derive(Clone, Copy)]
struct Run {
    /// The brush's number.
    number: u64,
    /// The lowest word of a plain glyph in this brush that isn't blank.
    low: u64,
    ghost lowest: { low ≡ lowest_word number },
    ghost small: { number < 2 ^ 40 },
}

impl Run {
    /// Returns the run that a cell begins.
    #[inline(always)]
    fn of(cell: &Cell) -> Run
        ensures { result.number ≡ brush_number (brush_of cell.now) }
    {
        let number = cell_brush_number(cell);
        Run {
            number,
            low: (number << 24) + 0x20 + (number == 0) as u64,
        }
    }

    /// Speed: returns whether a cell is known to go on with the run and to have a plain glyph, by one comparison. Without
    /// it, `goes_on` and `put_next` do the same.
    #[inline(always)]
    fn is_plain(&self, cell: &Cell) -> bool
        ensures number { result ≡ true → self.now.number ≡ brush_number (brush_of cell.now) }
        ensures blank { result ≡ true → is_blank_cell cell.now ≡ false }
        ensures plain { result ≡ true → (0x20 ≤ encoding_of cell.now.glyph) × (encoding_of cell.now.glyph < 0x80) }
    {
        cell.word().wrapping_sub(self.low) <= 0x5D
    }

    /// Returns whether a cell isn't blank and is written with the run's brush.
    #[tactic(auto, using(crate::proofs::Equality::blank_word, crate::proofs::Equality::with_brush))]
    #[inline(always)]
    fn goes_on(&self, cell: &Cell) -> bool
        ensures { (brush : Brush) → self.now.number ≡ brush_number brush
            → result ≡ (same_brush brush (brush_of cell.now) && not (is_blank_cell cell.now)) }
    {
        let word = cell.word();
        self.is_plain(cell) || word >> 24 == self.number && word != BLANK
    }

    /// Writes the glyph of a cell. Returns the position after it.
    #[inline(always)]
    fn put_next(&self, cell: &Cell, at: usize, line: &mut [u8; LINE]) -> usize
        requires { at + 3 ≤ LINE }
        ensures items { take result line.new
            ≡ take at line.old ++ spell_events (spelling_events (spelling_of cell.now.glyph)) }
        ensures bounded { result ≤ at + 3 }
    {
        if self.is_plain(cell) {
            put(cell.glyph.code() as u8, at, line)
        } else {
            put_rare(cell.glyph, at, line)
        }
    }
}

/// Writes the cells of a row by runs. Blank cells are left out, and the cells of one brush follow one header. Returns
/// how many bytes of the line aren't appended yet.
fn put_row(row: usize, cells: &[Cell], line: &mut [u8; LINE], out: &mut Vec<u8>) -> usize
    requires row { (1 ≤ row) × (row ≤ MOST) }
    requires len { length cells.now ≤ MOST }
    requires room { vec_len out.old + cell_limit row * length cells.now ≤ vec_capacity out.old }
    ensures items { (g : Grid) → cells.now ≡ row_of g row
        → out.new.items ++ take result line.new ≡ out.old.items ++ spell_events (row_pieces g row) }
    ensures fits { result ≤ LINE }
    ensures bounded { vec_len out.new + result ≤ vec_len out.old + cell_limit row * length cells.now }
    ensures capacity { vec_capacity out.old ≤ vec_capacity out.new }
{
    rows();
    let mut at = 0;
    let mut i = 0;
    while i < cells.len() {
        let first = &cells[i];
        i += 1;
        if !is_blank(first) {
            at = push_many(at, line, out);
            let run = Run::of(first);
            at = put_header(row, i, run.number, at, line);
            at = put_glyph(first.glyph, at, line);
            while i < cells.len() && run.goes_on(&cells[i]) {
                at = run.put_next(&cells[i], at, line);
                i += 1;
            }
        }
    }
    at
}

/// Appends the line, if it is long. Returns how many of its bytes aren't appended.
#[inline(always)]
fn push_many(at: usize, line: &[u8; LINE], out: &mut Vec<u8>) -> usize
    requires fits { at ≤ LINE }
    requires room { vec_len out.old + at ≤ vec_capacity out.old }
    ensures items { out.new.items ++ take result line.now ≡ out.old.items ++ take at line.now }
    ensures few { result ≤ MANY }
    ensures bounded { vec_len out.new + result ≤ vec_len out.old + at }
    ensures capacity { vec_capacity out.old ≤ vec_capacity out.new }
{
    if at < MANY {
        return at;
    }
    push_bytes(&line[..at], out);
    0
}

/// Appends the cells of a row, gathered in the line.
fn push_row(row: usize, cells: &[Cell], line: &mut [u8; LINE], out: &mut Vec<u8>)
    requires row { (1 ≤ row) × (row ≤ MOST) }
    requires len { length cells.now ≤ MOST }
    requires room { vec_len out.old + cell_limit row * length cells.now ≤ vec_capacity out.old }
    ensures items { (g : Grid) → cells.now ≡ row_of g row
        → out.new.items ≡ out.old.items ++ spell_events (row_pieces g row) }
    ensures bounded { vec_len out.new ≤ vec_len out.old + cell_limit row * length cells.now }
    ensures capacity { vec_capacity out.old ≤ vec_capacity out.new }
{
    let end = put_row(row, cells, line, out);
    push_bytes(&line[..end], out);
}

fn is_blank_row(cells: &[Cell]) -> bool
    ensures { result ≡ list_all is_blank_cell cells.now }
{
    cells.iter().all(is_blank)
}

/// Appends a row. If no cell was appended before it, the sets of the spellings come first. Returns whether any cell has
/// been appended.
fn push_shown_row(
    row: usize,
    cells: &[Cell],
    shown: bool,
    line: &mut [u8; LINE],
    out: &mut Vec<u8>,
) -> bool
    requires row { (1 ≤ row) × (row ≤ MOST) }
    requires len { length cells.now ≤ MOST }
    requires room { vec_len out.old + cell_limit row * length cells.now + head_room shown ≤ vec_capacity out.old }
    ensures shown { result ≡ (shown || not (list_all is_blank_cell cells.now)) }
    ensures items { (g : Grid) → cells.now ≡ row_of g row
        → out.new.items
        ≡ out.old.items
        ++ spell_events (when result (when (not shown) spelling_sets_events ++ row_pieces g row)) }
    ensures bounded { vec_len out.new + head_room result
        ≤ vec_len out.old + cell_limit row * length cells.now + head_room shown }
    ensures capacity { vec_capacity out.old ≤ vec_capacity out.new }
{
    if shown {
        push_row(row, cells, line, out);
        return true;
    }
    if is_blank_row(cells) {
        return false;
    }
    push_bytes(SPELLING_SETS, out);
    push_row(row, cells, line, out);
    true
}

/// Appends the sets of the spellings and the cells, if any cell is shown.
pub(crate) fn push_cells(t: &SizedTerminal, wrap: bool, out: &mut Vec<u8>)
    requires { vec_len out.old + t.now.display.grid.size.rows * row_limit t.now.display.grid.size + 11 ≤ vec_capacity out.old }
    ensures items { out.new.items ≡ out.old.items ++ spell_events (cells_item t.now.display.grid wrap) }
    ensures bounded { vec_len out.new
        ≤ vec_len out.old + t.now.display.grid.size.rows * row_limit t.now.display.grid.size + 11 }
    ensures capacity { vec_capacity out.old ≤ vec_capacity out.new }
{
    rows();
    let mut shown = wrap;
    let mut line = [0; LINE];
    push_when(wrap, SPELLING_SETS, out);
    for row in 1..t.size().rows + 1 {
        shown = push_shown_row(row, t.row(row), shown, &mut line, out);
    }
}
