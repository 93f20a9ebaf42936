//! Edits of the cells of one row. A line counts its cells from 0.
ghost use Rattle.std.specs.Prelude.{◌≡◌, ℕ, ◌+◌, ◌-◌, ◌<◌, ◌≤◌, ◌↔◌, IsTrue, length, slice_index, slice_index_or, All};
ghost use Rattle.std.specs.Bool.{OnTrue};
ghost use Rattle.vt_screen.specs.Cells.{blank, brush_of, plain_brush, cell_like};
ghost use Rattle.vt_screen.specs.Kinds.{erased_any};
ghost use Rattle.vt_glyph.specs.Encoding.{encoded_glyph, encoding_of, IsEncoding};
ghost use Rattle.vt_glyph.specs.Invocation.{HasGlyph, glyph_in_use};

use crate::cell::Cell;
use crate::kind::Cells;
use vt_glyph::{Glyph, InUse};

/// The number of cells that are filled at a time. A block of a fixed size is filled without a loop.
const BLOCK: usize = 16;

/// Writes one cell at every position.
#[inline(always)]
pub fn fill_cells<C: Cells>(cells: &mut [C], cell: &C)
    ensures { (k : ℕ) → k < length cells.old → slice_index_or cells.new k C.cells.blank ≡ cell.now }
{
    let mut at = 0;
    while cells.len() - at >= BLOCK {
        fill_each(&mut cells[at..at + BLOCK], cell);
        at += BLOCK;
    }
    fill_each(&mut cells[at..], cell);
}

/// Writes one cell at every position of a line. Speed: of a line of at least 80 cells, the first 80 are filled by a loop of a
/// fixed length.
#[inline(always)]
pub fn fill_line<C: Cells>(line: &mut [C], cell: &C)
    ensures { (k : ℕ) → k < length line.old → slice_index_or line.new k C.cells.blank ≡ cell.now }
{
    if line.len() < 80 {
        fill_short_line(line, cell);
        return;
    }
    fill_cells(&mut line[..80], cell);
    if line.len() > 80 {
        fill_cells(&mut line[80..], cell);
    }
}

/// Writes one cell at every position of a line of fewer than 80 cells. (Out of line: inlined, it makes longer lines slower.)
#[inline(never)]
fn fill_short_line<C: Cells>(line: &mut [C], cell: &C)
    ensures { (k : ℕ) → k < length line.old → slice_index_or line.new k C.cells.blank ≡ cell.now }
{
    fill_cells(line, cell);
}

/// Writes one cell at every position, one by one.
#[inline(always)]
fn fill_each<C: Cells>(cells: &mut [C], cell: &C)
    ensures { (k : ℕ) → k < length cells.old → slice_index_or cells.new k C.cells.blank ≡ cell.now }
{
    for place in cells.iter_mut() {
        *place = *cell;
    }
}

/// Clears the glyph of each cell that isn't protected. Its attributes stay.
fn erase_selectively<C: Cells>(cells: &mut [C])
    ensures { (k : ℕ) → k < length cells.old
        → slice_index_or cells.new k C.cells.blank ≡ C.cells.selectively_erased (slice_index_or cells.old k C.cells.blank) }
{
    for cell in cells.iter_mut() {
        *cell = cell.selectively_erased();
    }
}

/// Erases each cell. A selective erase leaves protected cells, and clears only the glyph of the others.
pub fn erase_cells<C: Cells>(cells: &mut [C], selective: bool, empty: C)
    ensures { (k : ℕ) → k < length cells.old → slice_index_or cells.new k C.cells.blank
        ≡ erased_any C.cells selective empty (slice_index_or cells.old k C.cells.blank) }
{
    if selective {
        erase_selectively(cells);
    } else {
        fill_cells(cells, &empty);
    }
}

/// Moves the cells starting at `at` right by `n`, and leaves the gap unspecified.
fn shift_right<C: Cells>(line: &mut [C], at: usize, n: usize)
    requires { at + n ≤ length line.old }
    ensures moved { (k : ℕ) → at + n ≤ k → k < length line.old
        → slice_index_or line.new k C.cells.blank ≡ slice_index_or line.old (k - n) C.cells.blank }
    ensures front { (k : ℕ) → k < at → slice_index_or line.new k C.cells.blank ≡ slice_index_or line.old k C.cells.blank }
{
    let kept = line.len() - n;
    line.copy_within(at..kept, at + n);
}

/// Inserts a cell at `at`. The last cell is lost.
pub fn insert_cell<C: Cells>(line: &mut [C], at: usize, cell: C)
    requires { at < length line.old }
    ensures here { slice_index_or line.new at C.cells.blank ≡ cell }
    ensures moved { (k : ℕ) → at < k → k < length line.old
        → slice_index_or line.new k C.cells.blank ≡ slice_index_or line.old (k - 1) C.cells.blank }
    ensures front { (k : ℕ) → k < at → slice_index_or line.new k C.cells.blank ≡ slice_index_or line.old k C.cells.blank }
{
    shift_right(line, at, 1);
    line[at] = cell;
}

/// Inserts `n` blank cells at `at`. The last `n` are lost.
pub fn insert_blanks<C: Cells>(line: &mut [C], at: usize, n: usize, empty: C)
    requires { at + n ≤ length line.old }
    ensures gap { (k : ℕ) → at ≤ k → k < at + n → slice_index_or line.new k C.cells.blank ≡ empty }
    ensures moved { (k : ℕ) → at + n ≤ k → k < length line.old
        → slice_index_or line.new k C.cells.blank ≡ slice_index_or line.old (k - n) C.cells.blank }
    ensures front { (k : ℕ) → k < at → slice_index_or line.new k C.cells.blank ≡ slice_index_or line.old k C.cells.blank }
{
    shift_right(line, at, n);
    fill_cells(&mut line[at..at + n], &empty);
}

/// Removes `n` cells starting at `at`. `n` blank cells are added at the end.
pub fn remove_cells<C: Cells>(line: &mut [C], at: usize, n: usize, empty: C)
    requires { at + n ≤ length line.old }
    ensures moved { (k : ℕ) → at ≤ k → k + n < length line.old
        → slice_index_or line.new k C.cells.blank ≡ slice_index_or line.old (k + n) C.cells.blank }
    ensures end { (k : ℕ) → k < length line.old → length line.old ≤ k + n → slice_index_or line.new k C.cells.blank ≡ empty }
    ensures front { (k : ℕ) → k < at → slice_index_or line.new k C.cells.blank ≡ slice_index_or line.old k C.cells.blank }
{
    let len = line.len();
    line.copy_within(at + n..len, at);
    fill_cells(&mut line[len - n..], &empty);
}

/// Writes a glyph with the attributes and the protection of `like`.
#[inline(always)]
fn write_like(place: &mut Cell, like: &Cell, glyph: Glyph)
    ensures { place.new ≡ cell_like like.now glyph }
{
    let mut cell = *like;
    cell.glyph = glyph;
    write(place, &cell);
}

/// Writes a cell. (A cell that is read through a reference is copied as one word.)
fn write(place: &mut Cell, cell: &Cell)
    ensures { place.new ≡ cell.now }
{
    *place = *cell;
}

/// Writes the glyphs with these codes, each with the attributes and the protection of `like`. Speed: this function and those below
/// write blocks. Writing cell by cell gives the same.
#[inline(always)]
pub fn write_codes(cells: &mut [Cell], codes: &[u8], like: Cell)
    requires codes { All IsEncoding codes.now }
    requires len { length cells.old ≡ length codes.now }
    ensures { (k : ℕ) → k < length codes.now
        → slice_index_or cells.new k blank ≡ cell_like like (encoded_glyph (slice_index codes.now k)) }
{
    if codes.len() < 8 {
        write_few(cells, codes, &like);
    } else {
        write_many(cells, codes, &like);
    }
}

/// Writes at least eight codes. (Out of line: inlined, the test of the brush would make the compiler take the cell
/// apart for short runs too.)
#[inline(never)]
fn write_many(cells: &mut [Cell], codes: &[u8], like: &Cell)
    requires codes { All IsEncoding codes.now }
    requires len { length cells.old ≡ length codes.now }
    requires many { 8 ≤ length codes.now }
    ensures { (k : ℕ) → k < length codes.now
        → slice_index_or cells.new k blank ≡ cell_like like.now (encoded_glyph (slice_index codes.now k)) }
{
    if is_plain(like) {
        write_blocks(cells, codes, &Cell::blank());
    } else {
        write_each(cells, codes, like);
    }
}

/// Returns whether a cell has no attribute and isn't protected.
#[inline(always)]
fn is_plain(cell: &Cell) -> bool
    ensures { OnTrue result (brush_of cell.now ≡ plain_brush) }
{
    !(cell.rendition.bold
        | cell.rendition.underline
        | cell.rendition.blink
        | cell.rendition.reverse
        | cell.protected)
}

/// Writes the glyphs with these codes, one after another.
#[inline(always)]
fn write_each(cells: &mut [Cell], codes: &[u8], like: &Cell)
    requires codes { All IsEncoding codes.now }
    requires len { length cells.old ≡ length codes.now }
    ensures { (k : ℕ) → k < length codes.now
        → slice_index_or cells.new k blank ≡ cell_like like.now (encoded_glyph (slice_index codes.now k)) }
{
    for (i, code) in codes.iter().enumerate() {
        write_like(&mut cells[i], like, Glyph::encoded(*code));
    }
}

/// Writes at least eight codes: sixteen at a time, and then the remainder in blocks that end with the last cell.
/// So some cells are written twice. (If `like` is a constant, the compiler makes one move of each two cells.)
#[inline(always)]
fn write_blocks(cells: &mut [Cell], codes: &[u8], like: &Cell)
    requires codes { All IsEncoding codes.now }
    requires len { length cells.old ≡ length codes.now }
    requires many { 8 ≤ length codes.now }
    ensures { (k : ℕ) → k < length codes.now
        → slice_index_or cells.new k blank ≡ cell_like like.now (encoded_glyph (slice_index codes.now k)) }
{
    let len = codes.len();
    let mut at = 0;
    while len - at >= 16 {
        write_eight(cells, codes, at, like);
        write_eight(cells, codes, at + 8, like);
        at += 16;
    }
    if len - at >= 8 {
        write_eight(cells, codes, at, like);
    }
    write_eight(cells, codes, len - 8, like);
}

/// Writes fewer than eight codes.
#[inline(always)]
fn write_few(cells: &mut [Cell], codes: &[u8], like: &Cell)
    requires codes { All IsEncoding codes.now }
    requires len { length cells.old ≡ length codes.now }
    requires few { length codes.now < 8 }
    ensures { (k : ℕ) → k < length codes.now
        → slice_index_or cells.new k blank ≡ cell_like like.now (encoded_glyph (slice_index codes.now k)) }
{
    let len = codes.len();
    if len >= 4 {
        write_four(cells, codes, 0, like);
        write_four(cells, codes, len - 4, like);
    } else if len >= 2 {
        write_two(cells, codes, 0, like);
        write_two(cells, codes, len - 2, like);
    } else if len == 1 {
        write_like(&mut cells[0], like, Glyph::encoded(codes[0]));
    }
}

/// Writes the eight codes that begin at `at`.
#[inline(always)]
fn write_eight(cells: &mut [Cell], codes: &[u8], at: usize, like: &Cell)
    requires codes { All IsEncoding codes.now }
    requires len { length cells.old ≡ length codes.now }
    requires at { at + 8 ≤ length codes.now }
    ensures here { (k : ℕ) → at ≤ k → k < at + 8
        → slice_index_or cells.new k blank ≡ cell_like like.now (encoded_glyph (slice_index codes.now k)) }
    ensures front { (k : ℕ) → k < at → slice_index_or cells.new k blank ≡ slice_index_or cells.old k blank }
{
    write_four(cells, codes, at, like);
    write_four(cells, codes, at + 4, like);
}

/// Writes the four codes that begin at `at`.
#[inline(always)]
fn write_four(cells: &mut [Cell], codes: &[u8], at: usize, like: &Cell)
    requires codes { All IsEncoding codes.now }
    requires len { length cells.old ≡ length codes.now }
    requires at { at + 4 ≤ length codes.now }
    ensures here { (k : ℕ) → at ≤ k → k < at + 4
        → slice_index_or cells.new k blank ≡ cell_like like.now (encoded_glyph (slice_index codes.now k)) }
    ensures front { (k : ℕ) → k < at → slice_index_or cells.new k blank ≡ slice_index_or cells.old k blank }
{
    write_two(cells, codes, at, like);
    write_two(cells, codes, at + 2, like);
}

/// Writes the two codes that begin at `at`. (Both are read before a cell is written, so the compiler makes one
/// move of two cells.)
#[inline(always)]
fn write_two(cells: &mut [Cell], codes: &[u8], at: usize, like: &Cell)
    requires codes { All IsEncoding codes.now }
    requires len { length cells.old ≡ length codes.now }
    requires at { at + 2 ≤ length codes.now }
    ensures here { (k : ℕ) → at ≤ k → k < at + 2
        → slice_index_or cells.new k blank ≡ cell_like like.now (encoded_glyph (slice_index codes.now k)) }
    ensures front { (k : ℕ) → k < at → slice_index_or cells.new k blank ≡ slice_index_or cells.old k blank }
{
    let first = codes[at];
    let second = codes[at + 1];
    write_like(&mut cells[at], like, Glyph::encoded(first));
    write_like(&mut cells[at + 1], like, Glyph::encoded(second));
}

/// Writes the glyphs of graphic bytes, each with the attributes and the protection of `like`. Speed: in blocks of four,
/// eight at a time, since an iteration of the loop costs as much as a cell.
#[inline(always)]
pub fn write_graphics(cells: &mut [Cell], bytes: &[u8], table: &InUse, like: Cell)
    requires bytes { All HasGlyph bytes.now }
    requires len { length cells.old ≡ length bytes.now }
    ensures { (k : ℕ) → k < length bytes.now
        → slice_index_or cells.new k blank ≡ cell_like like (glyph_in_use table.now (slice_index bytes.now k)) }
{
    let mut at = 0;
    while bytes.len() - at >= 8 {
        write_four_graphics(cells, bytes, at, table, &like);
        write_four_graphics(cells, bytes, at + 4, table, &like);
        at += 8;
    }
    while at < bytes.len() {
        write_like(&mut cells[at], &like, table.glyph(bytes[at]));
        at += 1;
    }
}

/// Writes the glyphs of the four graphic bytes that begin at `at`.
#[inline(always)]
fn write_four_graphics(cells: &mut [Cell], bytes: &[u8], at: usize, table: &InUse, like: &Cell)
    requires bytes { All HasGlyph bytes.now }
    requires len { length cells.old ≡ length bytes.now }
    requires at { at + 4 ≤ length bytes.now }
    ensures here { (k : ℕ) → at ≤ k → k < at + 4
        → slice_index_or cells.new k blank ≡ cell_like like.now (glyph_in_use table.now (slice_index bytes.now k)) }
    ensures front { (k : ℕ) → k < at → slice_index_or cells.new k blank ≡ slice_index_or cells.old k blank }
{
    write_like(&mut cells[at], like, table.glyph(bytes[at]));
    write_like(&mut cells[at + 1], like, table.glyph(bytes[at + 1]));
    write_like(&mut cells[at + 2], like, table.glyph(bytes[at + 2]));
    write_like(&mut cells[at + 3], like, table.glyph(bytes[at + 3]));
}

/// Returns whether two cells are equal, compared as words.
#[inline(always)]
fn same_cell(a: &Cell, b: &Cell) -> bool
    ensures { IsTrue result ↔ (a.now ≡ b.now) }
{
    a.word() == b.word()
}

/// Returns whether the four cells that begin at `at` are equal in both rows. Speed: one comparison of four cells.
#[inline(always)]
fn same_four(a: &[Cell], b: &[Cell], at: usize) -> bool
    requires a { at + 4 ≤ length a.now }
    requires b { at + 4 ≤ length b.now }
    ensures { IsTrue result
        ↔ ((k : ℕ) → at ≤ k → k < at + 4 → slice_index_or a.now k blank ≡ slice_index_or b.now k blank) }
{
    // Not `&&`, so that there is one branch.
    same_cell(&a[at], &b[at])
        & same_cell(&a[at + 1], &b[at + 1])
        & same_cell(&a[at + 2], &b[at + 2])
        & same_cell(&a[at + 3], &b[at + 3])
}

/// Returns whether two rows have the same cells: equally many, and each equal. (Speed: four cells are compared at a
/// time, each as one word.)
pub fn same_cells(a: &[Cell], b: &[Cell]) -> bool
    ensures { IsTrue result ↔ (a.now ≡ b.now) }
{
    if a.len() != b.len() {
        return false;
    }
    let mut at = 0;
    while at + 4 <= a.len() {
        if !same_four(a, b, at) {
            return false;
        }
        at += 4;
    }
    while at < a.len() {
        if !same_cell(&a[at], &b[at]) {
            return false;
        }
        at += 1;
    }
    true
}
