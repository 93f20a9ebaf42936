//! Speed: the bytes of a row with its attributes, written one after another into a line that is appended at once. Each call
//! begins at a position of the line, and returns the position after the bytes that it wrote.
ghost use Rattle.std.specs.Prelude.{◌≡◌, ◌+◌, ◌*◌, ◌≤◌, ◌<◌, ◌++◌, ◌∷◌, [], true, length, take, vec_len, vec_capacity, encode_utf8};
ghost use Rattle.vt_glyph.specs.Encoding.{encoding_of};
ghost use Rattle.vt_screen.specs.Cells.{plain};
ghost use Rattle.vt_screen.specs.Same.{same_rendition, when};
ghost use Rattle.vt_picture.specs.Show.{rendition_sequence, change, shown_behind};
ghost use Rattle.vt_picture.specs.Private.Words.{space_word};

use crate::looks::look_word;
use vt_paint::{push_bytes, put_front, put_part};
use vt_screen::{Cell, MOST, Rendition};

/// The capacity for bytes that aren't appended yet.
pub(crate) const LINE: usize = 2048;

/// The number of bytes that are appended before the next run. After fewer there is capacity for a run: its attributes,
/// and the characters of a row.
const MANY: usize = 1248;

/// The factor of the number of a cell's attributes in its word.
const ATTRIBUTES: u64 = 0x100_0000;

/// Writes bytes if a test passes.
///
/// Speed: they are copied in any case.
#[inline(always)]
fn put_when<const N: usize>(test: bool, bytes: &[u8], at: usize, line: &mut [u8; N]) -> usize
    requires { at + length bytes.now ≤ N }
    ensures items { take result line.new ≡ take at line.old ++ when test bytes.now }
    ensures bounded { result ≤ at + length bytes.now }
{
    put_front(bytes, if test { bytes.len() } else { 0 }, at, line)
}

/// Writes SGR with 0 and the attributes that are set.
#[inline(always)]
pub(crate) fn put_rendition<const N: usize>(look: Rendition, at: usize, line: &mut [u8; N]) -> usize
    requires { at + 12 ≤ N }
    ensures items { take result line.new ≡ take at line.old ++ rendition_sequence look }
    ensures bounded { result ≤ at + 12 }
{
    let at = put_part(b"\x1B[0", at, line);
    let at = put_when(look.bold, b";1", at, line);
    let at = put_when(look.underline, b";4", at, line);
    let at = put_when(look.blink, b";5", at, line);
    let at = put_when(look.reverse, b";7", at, line);
    put_part(b"m", at, line)
}

/// Writes SGR if the attributes change.
#[inline(always)]
fn put_change<const N: usize>(
    before: Rendition,
    after: Rendition,
    at: usize,
    line: &mut [u8; N],
) -> usize
    requires { at + 12 ≤ N }
    ensures items { take result line.new ≡ take at line.old ++ change before after }
    ensures bounded { result ≤ at + 12 }
{
    if before != after {
        return put_rendition(after, at, line);
    }
    at
}

/// Returns whether a cell has an ASCII character.
#[inline(always)]
fn is_ascii(cell: &Cell) -> bool
    ensures { result ≡ true → encode_utf8 cell.now.glyph ≡ encoding_of cell.now.glyph ∷ [] }
{
    let code = cell.glyph.code() as u8;
    0x20 <= code && code <= 0x7E
}

/// Writes the character of a cell in UTF-8.
#[inline(always)]
fn put_character(cell: &Cell, at: usize, line: &mut [u8; LINE]) -> usize
    requires { at + 3 ≤ LINE }
    ensures items { take result line.new ≡ take at line.old ++ encode_utf8 cell.now.glyph }
    ensures bounded { result ≤ at + 3 }
{
    if is_ascii(cell) {
        put_part(&[cell.glyph.code() as u8], at, line)
    } else {
        put_rare(cell, at, line)
    }
}

/// Writes the character of a cell as `put_character` does, by the character's number.
///
/// Speed: out of line, so that the loop over plain cells copies no register. A glyph by value would be put together from its
/// three bytes.
#[tactic(auto, using(crate::proofs::CellWords::glyph_short))]
#[inline(never)]
fn put_rare(cell: &Cell, at: usize, line: &mut [u8; LINE]) -> usize
    requires { at + 3 ≤ LINE }
    ensures items { take result line.new ≡ take at line.old ++ encode_utf8 cell.now.glyph }
    ensures bounded { result ≤ at + 3 }
{
    let c = cell.glyph.to_char() as u32;
    if c < 0x80 {
        return put_part(&[c as u8], at, line);
    }
    if c < 0x800 {
        let bytes = [(0xC0 + c / 0x40) as u8, (0x80 + c % 0x40) as u8];
        return put_part(&bytes, at, line);
    }
    let first = (0xE0 + c / 0x1000) as u8;
    let bytes = [
        first,
        (0x80 + c / 0x40 % 0x40) as u8,
        (0x80 + c % 0x40) as u8,
    ];
    put_part(&bytes, at, line)
}

/// The attributes of a run.
#[derive(Clone, Copy)]
struct Run {
    look: Rendition,
    /// The word of an unprotected space with these attributes.
    low: u64,
    ghost lowest: { low ≡ space_word look },
}

impl Run {
    /// Returns the run that a row begins with.
    fn plain() -> Run
        ensures { result.look ≡ plain }
    {
        Run {
            look: Rendition::plain(),
            low: 0x20,
        }
    }

    /// Returns the run that a cell begins.
    #[inline(always)]
    fn of(cell: &Cell) -> Run
        ensures { result.look ≡ cell.now.rendition }
    {
        Run {
            look: cell.rendition,
            low: look_word(cell) / ATTRIBUTES * ATTRIBUTES + 0x20,
        }
    }

    /// Speed: returns whether a cell is known to go on with the run and to have an ASCII character, by one comparison. It
    /// isn't protected then. Without this, `goes_on` and `put_next` do the same.
    #[inline(always)]
    fn is_plain(&self, cell: &Cell) -> bool
        ensures same { result ≡ true → same_rendition self.now.look cell.now.rendition ≡ true }
        ensures ascii { result ≡ true → encode_utf8 cell.now.glyph ≡ encoding_of cell.now.glyph ∷ [] }
    {
        cell.word().wrapping_sub(self.low) <= 0x5E
    }

    /// Returns whether a cell has the attributes of the run.
    #[tactic(auto, using(crate::proofs::CellWords::same_look_by))]
    #[inline(always)]
    fn goes_on(&self, cell: &Cell) -> bool
        ensures { result ≡ same_rendition self.now.look cell.now.rendition }
    {
        self.is_plain(cell) || self.low / ATTRIBUTES == look_word(cell) / ATTRIBUTES
    }

    /// Writes the character of a cell.
    #[inline(always)]
    fn put_next(&self, cell: &Cell, at: usize, line: &mut [u8; LINE]) -> usize
        requires { at + 3 ≤ LINE }
        ensures items { take result line.new ≡ take at line.old ++ encode_utf8 cell.now.glyph }
        ensures bounded { result ≤ at + 3 }
    {
        if self.is_plain(cell) {
            put_part(&[cell.glyph.code() as u8], at, line)
        } else {
            put_character(cell, at, line)
        }
    }
}

/// Appends the line, if it is long. Returns how many of its bytes aren't appended.
#[inline(always)]
fn push_many(at: usize, line: &[u8; LINE], out: &mut Vec<u8>) -> usize
    requires fits { at ≤ LINE }
    requires room { vec_len out.old + at ≤ vec_capacity out.old }
    ensures items { out.new.items ++ take result line.now ≡ out.old.items ++ take at line.now }
    ensures few { result ≤ MANY }
    ensures bounded { vec_len out.new + result ≤ vec_len out.old + at }
    ensures capacity { vec_capacity out.old ≤ vec_capacity out.new }
{
    if at < MANY {
        return at;
    }
    push_bytes(&line[..at], out);
    0
}

/// Writes cells by runs, and resets the attributes. Returns how many bytes of the line aren't appended yet.
fn put_cells(cells: &[Cell], line: &mut [u8; LINE], out: &mut Vec<u8>) -> usize
    requires len { length cells.now ≤ MOST }
    requires room { vec_len out.old + 16 * length cells.now + 12 ≤ vec_capacity out.old }
    ensures items { out.new.items ++ take result line.new ≡ out.old.items ++ shown_behind plain cells.now }
    ensures fits { result < LINE }
    ensures bounded { vec_len out.new + result ≤ vec_len out.old + 16 * length cells.now + 12 }
    ensures capacity { vec_capacity out.old ≤ vec_capacity out.new }
{
    let mut run = Run::plain();
    let mut at = 0;
    let mut i = 0;
    while i < cells.len() {
        let cell = &cells[i];
        if run.goes_on(cell) {
            at = run.put_next(cell, at, line);
        } else {
            at = push_many(at, line, out);
            run = Run::of(cell);
            at = put_rendition(run.look, at, line);
            at = put_character(cell, at, line);
        }
        i += 1;
    }
    put_change(run.look, Rendition::plain(), at, line)
}

/// Appends cells by runs, gathered in the line, and LF.
pub(crate) fn push_cells(cells: &[Cell], line: &mut [u8; LINE], out: &mut Vec<u8>)
    requires len { length cells.now ≤ MOST }
    requires room { vec_len out.old + 16 * length cells.now + 13 ≤ vec_capacity out.old }
    ensures items { out.new.items ≡ out.old.items ++ (shown_behind plain cells.now ++ 0x0A ∷ []) }
    ensures bounded { vec_len out.new ≤ vec_len out.old + 16 * length cells.now + 13 }
    ensures capacity { vec_capacity out.old ≤ vec_capacity out.new }
{
    let at = put_cells(cells, line, out);
    let end = put_part(b"\n", at, line);
    push_bytes(&line[..end], out);
}
