//! The cells of a picture by runs. A run is adjacent cells that aren't blank and have the same attributes.
ghost use Rattle.std.specs.Prelude.{◌≡◌, ◌+◌, ◌*◌, ◌≤◌, ◌<◌, ◌++◌, [], not, length, vec_len, vec_capacity};
ghost use Rattle.vt_screen.specs.Same.{when};
ghost use Rattle.vt_picture.specs.Looks.{is_blank as is_blank_cell};
ghost use Rattle.vt_picture.specs.Picture.{left_of, width_of, height_of, top_of, baseline_of, rectangle, goes_on as goes_on_with};
ghost use Rattle.vt_picture.specs.Picture.{run_length as run_length_of, is_followed as is_followed_by, fill};
ghost use Rattle.vt_picture.specs.Picture.{run_attributes, run_start, shown_cell, row_picture};

use crate::bytes::push_escaped;
use vt_glyph::Glyph;
use vt_paint::{push_bytes, push_number, push_when};
use vt_screen::{Cell, MOST, Rendition};

/// Returns the left edge of a column, in units.
fn left_of(col: usize) -> u16
    requires { (1 ≤ col) × (col ≤ MOST) }
    ensures { result ≡ left_of col }
{
    10 * (col as u16 - 1)
}

/// Returns the width of `columns` columns, in units. They may have a margin of a column on each side.
pub(crate) fn width_of(columns: usize) -> u16
    requires { columns ≤ MOST + 2 }
    ensures { result ≡ width_of columns }
{
    10 * columns as u16
}

/// Returns the height of `rows` rows, in units, with a margin above and below them.
pub(crate) fn height_of(rows: usize) -> u16
    requires { rows ≤ MOST }
    ensures { result ≡ height_of rows }
{
    18 * rows as u16 + 20
}

/// Returns the top edge of a row, in units.
fn top_of(row: usize) -> u16
    requires { (1 ≤ row) × (row ≤ MOST) }
    ensures { result ≡ top_of row }
{
    18 * (row as u16 - 1)
}

/// Returns the baseline of a row's characters, in units.
fn baseline_of(row: usize) -> u16
    requires { (1 ≤ row) × (row ≤ MOST) }
    ensures { result ≡ baseline_of row }
{
    top_of(row) + 13
}

/// Appends a rectangle with `attributes` over `count` cells of a row, starting at `col`.
#[tactic(auto, unfolding(crate::specs::Picture::rectangle))]
pub(crate) fn push_rectangle(
    attributes: &[u8],
    row: usize,
    col: usize,
    count: usize,
    out: &mut Vec<u8>,
)
    requires row { (1 ≤ row) × (row ≤ MOST) }
    requires col { (1 ≤ col) × (col ≤ MOST) }
    requires count { count ≤ MOST }
    requires room { vec_len out.old + (54 + length attributes.now) ≤ vec_capacity out.old }
    ensures items { out.new.items ≡ out.old.items ++ rectangle attributes.now row col count }
    ensures bounded { vec_len out.new ≤ vec_len out.old + (54 + length attributes.now) }
    ensures capacity { vec_capacity out.old ≤ vec_capacity out.new }
{
    push_bytes(b"<rect", out);
    push_bytes(attributes, out);
    push_bytes(b" x='", out);
    push_number(left_of(col), out);
    push_bytes(b"' y='", out);
    push_number(top_of(row), out);
    push_bytes(b"' width='", out);
    push_number(width_of(count), out);
    push_bytes(b"' height='18'/>\n", out);
}

/// Returns whether a cell shows anything but a space without attributes.
///
/// Speed: `is_blank` is faster if most cells are blank, and this if most cells have another glyph.
fn is_shown(cell: &Cell) -> bool
    ensures { result ≡ not (is_blank_cell cell.now) }
{
    !(cell.glyph == Glyph::blank() && cell.rendition == Rendition::plain())
}

/// Returns whether a cell continues a run of these attributes.
fn goes_on(look: Rendition, cell: &Cell) -> bool
    ensures { result ≡ goes_on_with look cell.now }
{
    is_shown(cell) && look == cell.rendition
}

/// Returns how many of these cells continue a run of these attributes.
fn run_length(look: Rendition, cells: &[Cell]) -> usize
    ensures length { result ≡ run_length_of look cells.now }
    ensures within { result ≤ length cells.now }
{
    let mut i = 0;
    while i < cells.len() && goes_on(look, &cells[i]) {
        i += 1;
    }
    i
}

/// Returns whether the first of these cells continues a run of these attributes.
fn is_followed(look: Rendition, cells: &[Cell]) -> bool
    ensures { result ≡ is_followed_by look cells.now }
{
    match cells.first() {
        Some(cell) => goes_on(look, cell),
        None => false,
    }
}

/// Returns the attribute of a light fill, or of a dark one.
pub(crate) fn fill(light: bool) -> &'static [u8]
    ensures fill { result.now ≡ fill light }
    ensures short { length result.now ≤ 15 }
{
    if light {
        b" fill='#d0d0d0'"
    } else {
        b" fill='#101010'"
    }
}

/// Appends the attributes of a run's element.
fn push_run_attributes(reversed: bool, look: Rendition, out: &mut Vec<u8>)
    requires { vec_len out.old + 58 ≤ vec_capacity out.old }
    ensures items { out.new.items ≡ out.old.items ++ run_attributes reversed look }
    ensures bounded { vec_len out.new ≤ vec_len out.old + 58 }
    ensures capacity { vec_capacity out.old ≤ vec_capacity out.new }
{
    push_bytes(b" class='vt220-text", out);
    push_when(look.bold, b" vt220-b", out);
    push_when(look.underline, b" vt220-u", out);
    push_when(look.blink, b" vt220-k", out);
    push_bytes(b"'", out);
    push_when(look.reverse, fill(reversed), out);
}

/// Appends the rectangle under a run that is reversed.
fn push_ground(reverse: bool, row: usize, col: usize, count: usize, out: &mut Vec<u8>)
    requires row { (1 ≤ row) × (row ≤ MOST) }
    requires col { (1 ≤ col) × (col ≤ MOST) }
    requires count { count ≤ MOST }
    requires room { vec_len out.old + 54 ≤ vec_capacity out.old }
    ensures items { out.new.items ≡ out.old.items ++ when reverse (rectangle [] row col count) }
    ensures bounded { vec_len out.new ≤ vec_len out.old + 54 }
    ensures capacity { vec_capacity out.old ≤ vec_capacity out.new }
{
    if reverse {
        push_rectangle(b"", row, col, count, out);
    }
}

/// Appends what comes before the characters of a run.
#[tactic(auto, unfolding(crate::specs::Picture::run_start))]
fn push_run_start(
    reversed: bool,
    look: Rendition,
    row: usize,
    col: usize,
    count: usize,
    out: &mut Vec<u8>,
)
    requires row { (1 ≤ row) × (row ≤ MOST) }
    requires col { (1 ≤ col) × (col ≤ MOST) }
    requires count { count ≤ MOST }
    requires room { vec_len out.old + 190 ≤ vec_capacity out.old }
    ensures items { out.new.items ≡ out.old.items ++ run_start reversed look row col count }
    ensures bounded { vec_len out.new ≤ vec_len out.old + 190 }
    ensures capacity { vec_capacity out.old ≤ vec_capacity out.new }
{
    push_ground(look.reverse, row, col, count, out);
    push_bytes(b"<text", out);
    push_run_attributes(reversed, look, out);
    push_bytes(b" x='", out);
    push_number(left_of(col), out);
    push_bytes(b"' y='", out);
    push_number(baseline_of(row), out);
    push_bytes(b"' textLength='", out);
    push_number(width_of(count), out);
    push_bytes(b"' lengthAdjust='spacingAndGlyphs'>", out);
}

/// Appends a cell that isn't blank, between the cell to its left and those to its right.
#[tactic(auto, unfolding(crate::specs::Picture::shown_cell))]
fn push_shown_cell(
    reversed: bool,
    row: usize,
    col: usize,
    left: &Cell,
    cell: &Cell,
    rest: &[Cell],
    out: &mut Vec<u8>,
)
    requires row { (1 ≤ row) × (row ≤ MOST) }
    requires col { 1 ≤ col }
    requires rest { col + length rest.now ≤ MOST }
    requires room { vec_len out.old + 203 ≤ vec_capacity out.old }
    ensures items { out.new.items ≡ out.old.items ++ shown_cell reversed row col left.now cell.now rest.now }
    ensures bounded { vec_len out.new ≤ vec_len out.old + 203 }
    ensures capacity { vec_capacity out.old ≤ vec_capacity out.new }
{
    let look = cell.rendition;
    if !goes_on(look, left) {
        push_run_start(reversed, look, row, col, run_length(look, rest) + 1, out);
    }
    push_escaped(cell.glyph, out);
    if !is_followed(look, rest) {
        push_bytes(b"</text>\n", out);
    }
}

/// Appends the cells of a row.
///
/// Speed: a separate function, so that the compiler keeps the loop's values in registers.
#[inline(never)]
pub(crate) fn push_row(reversed: bool, row: usize, cells: &[Cell], out: &mut Vec<u8>)
    requires row { (1 ≤ row) × (row ≤ MOST) }
    requires len { length cells.now ≤ MOST }
    requires room { vec_len out.old + 203 * length cells.now ≤ vec_capacity out.old }
    ensures items { out.new.items ≡ out.old.items ++ row_picture reversed row cells.now }
    ensures bounded { vec_len out.new ≤ vec_len out.old + 203 * length cells.now }
    ensures capacity { vec_capacity out.old ≤ vec_capacity out.new }
{
    let blank = Cell::blank();
    let mut i = 0;
    while i < cells.len() {
        let left = if i == 0 { &blank } else { &cells[i - 1] };
        let cell = &cells[i];
        i += 1;
        if is_shown(cell) {
            push_shown_cell(reversed, row, i, left, cell, &cells[i..], out);
        }
    }
}
