//! The text of a row. Speed: it is appended at once, and the ASCII of it is gathered a run at a time.
ghost use Rattle.std.specs.Prelude.{◌≡◌, ◌+◌, ◌*◌, ◌≤◌, ◌<◌, ◌++◌, ℕ, length, take, slice_index};
ghost use Rattle.std.specs.Prelude.{slice_index_or, vec_len, vec_capacity, encode_utf8, encode_utf8_all};
ghost use Rattle.std.specs.Bool.{OnTrue};
ghost use Rattle.arrayvec.specs.ArrayVec.{array_vec_len};
ghost use Rattle.vt_glyph.specs.Encoding.{encoded_glyph, encoding_of};
ghost use Rattle.vt_syntax.specs.Class.{IsPlain};
ghost use Rattle.vt_glyph.specs.Tables.{space};
ghost use Rattle.vt_screen.specs.Cells.{blank};
ghost use Rattle.vt_term.specs.Text.{glyphs_of, line_text, trimmed};

use arrayvec::ArrayVec;
use vt_glyph::Glyph;
use vt_screen::{Cell, MOST};
use vt_syntax::plain_run;

/// The most bytes of the text of a row of ASCII glyphs: one for each cell, and LF.
const LINE: usize = MOST + 1;

/// The text of a row, three bytes for each cell at most, and LF.
type RowText = ArrayVec<u8, 766>;

/// The number of codes that are compared with spaces at a time, at the end of a row.
const BLOCK: usize = 8;

/// Appends the text of a row: its characters without the spaces at its end, and LF. `out` has capacity for it.
pub(crate) fn push_line(cells: &[Cell], out: &mut Vec<u8>)
    requires few { length cells.now ≤ 255 }
    requires room { vec_len out.old + 3 * length cells.now + 1 ≤ vec_capacity out.old }
    ensures items { out.new.items ≡ out.old.items ++ line_text cells.now }
    ensures bounded { vec_len out.new ≤ vec_len out.old + 3 * length cells.now + 1 }
    ensures capacity { vec_capacity out.old ≤ vec_capacity out.new }
{
    let mut codes = [0u8; LINE];
    put_codes(cells, &mut codes);
    let end = end_of_text(&codes[..cells.len()]);
    if plain_run(&codes[..end]) == end {
        codes[end] = b'\n';
        out.extend_from_slice(&codes[..end + 1]).unwrap();
    } else {
        let mut text = ArrayVec::new();
        push_characters(&cells[..end], &codes[..end], &mut text);
        text.push(b'\n');
        out.extend_from_slice(text.as_slice()).unwrap();
    }
}

/// Writes the code of each cell's glyph over the front of a line.
#[inline(always)]
fn put_codes(cells: &[Cell], codes: &mut [u8; LINE])
    requires { length cells.now ≤ 255 }
    ensures glyphs { (k : ℕ) → k < length cells.now
        → encoded_glyph (slice_index codes.new k) ≡ (slice_index_or cells.now k blank).glyph }
    ensures codes { (k : ℕ) → k < length cells.now
        → slice_index codes.new k ≡ encoding_of (slice_index_or cells.now k blank).glyph }
{
    for (i, cell) in cells.iter().enumerate() {
        codes[i] = cell.glyph.code() as u8;
    }
}

/// Appends the characters of cells in UTF-8. `codes` has the codes of their glyphs.
#[inline(always)]
fn push_characters(cells: &[Cell], codes: &[u8], text: &mut RowText)
    requires long { length codes.now ≡ length cells.now }
    requires glyphs { (k : ℕ) → k < length cells.now
        → encoded_glyph (slice_index codes.now k) ≡ (slice_index_or cells.now k blank).glyph }
    requires room { array_vec_len text.old + 3 * length cells.now ≤ 766 }
    ensures items { text.new.items ≡ text.old.items ++ encode_utf8_all (glyphs_of cells.now) }
    ensures bounded { array_vec_len text.new ≤ array_vec_len text.old + 3 * length cells.now }
{
    let mut at = 0;
    while at < codes.len() {
        at += push_next(&cells[at..], &codes[at..], text);
    }
}

/// Appends the characters of the first cells: a run of ASCII, or one character. Returns the number of these cells.
#[inline(always)]
fn push_next(cells: &[Cell], codes: &[u8], text: &mut RowText) -> usize
    requires some { 1 ≤ length cells.now }
    requires long { length codes.now ≡ length cells.now }
    requires glyphs { (k : ℕ) → k < length cells.now
        → encoded_glyph (slice_index codes.now k) ≡ (slice_index_or cells.now k blank).glyph }
    requires room { array_vec_len text.old + 3 * length cells.now ≤ 766 }
    ensures some { 1 ≤ result }
    ensures within { result ≤ length cells.now }
    ensures items { text.new.items ≡ text.old.items ++ encode_utf8_all (glyphs_of (take result cells.now)) }
    ensures bounded { array_vec_len text.new ≤ array_vec_len text.old + 3 * result }
{
    if are_plain(codes) {
        let run = plain_run(codes);
        if let Ok(()) = text.try_extend_from_slice(&codes[..run]) {
            return run;
        }
    }
    push_glyph(cells[0].glyph, text);
    1
}

/// Returns whether the first two codes are ASCII.
#[inline(always)]
fn are_plain(codes: &[u8]) -> bool
    ensures { OnTrue result ((1 ≤ length codes.now) × IsPlain (slice_index codes.now 0)) }
{
    codes.len() >= 2 && (b' '..=b'~').contains(&codes[0]) && (b' '..=b'~').contains(&codes[1])
}

/// Appends a glyph's character in UTF-8, at most three bytes.
#[inline(always)]
#[tactic(auto, using(crate::proofs::GlyphSizes::glyph_short))]
fn push_glyph(glyph: Glyph, text: &mut RowText)
    requires { array_vec_len text.old + 3 ≤ 766 }
    ensures items { text.new.items ≡ text.old.items ++ encode_utf8 glyph }
    ensures bounded { array_vec_len text.new ≤ array_vec_len text.old + 3 }
{
    let c = glyph.to_char() as u32;
    if c < 0x80 {
        text.push(c as u8);
    } else if c < 0x800 {
        text.push((0xC0 + c / 0x40) as u8);
        text.push((0x80 + c % 0x40) as u8);
    } else {
        text.push((0xE0 + c / 0x1000) as u8);
        text.push((0x80 + c / 0x40 % 0x40) as u8);
        text.push((0x80 + c % 0x40) as u8);
    }
}

/// Returns how many of the codes are left without the spaces at their end.
#[inline(always)]
pub fn end_of_text(codes: &[u8]) -> usize
    ensures within { result ≤ length codes.now }
    ensures text { take result codes.now ≡ trimmed codes.now }
{
    let mut end = codes.len();
    while end >= BLOCK && are_spaces(codes, end - BLOCK) {
        end -= BLOCK;
    }
    while end > 0 && codes[end - 1] == b' ' {
        end -= 1;
    }
    end
}

/// Returns whether the eight codes at a place are spaces.
#[inline(always)]
fn are_spaces(codes: &[u8], at: usize) -> bool
    requires { at + 8 ≤ length codes.now }
    ensures { OnTrue result ((k : ℕ) → at ≤ k → k < at + 8 → slice_index codes.now k ≡ space) }
{
    are_four_spaces(codes, at) & are_four_spaces(codes, at + 4)
}

/// Returns whether the four codes at a place are spaces.
#[inline(always)]
fn are_four_spaces(codes: &[u8], at: usize) -> bool
    requires { at + 4 ≤ length codes.now }
    ensures { OnTrue result ((k : ℕ) → at ≤ k → k < at + 4 → slice_index codes.now k ≡ space) }
{
    // Not `&&`, so that there is one branch.
    (codes[at] == b' ')
        & (codes[at + 1] == b' ')
        & (codes[at + 2] == b' ')
        & (codes[at + 3] == b' ')
}
