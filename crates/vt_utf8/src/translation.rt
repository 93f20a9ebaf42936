//! Translation: the terminal's own bytes for a character, in the terminal's state.
ghost use Rattle.std.specs.Prelude.{◌≡◌, ◌+◌, ◌<◌, ◌≤◌, ◌++◌, [], ◌∷◌, length};
ghost use Rattle.std.specs.Option.{option_to_list};
ghost use Rattle.arrayvec.specs.ArrayVec.{array_vec_len};
ghost use Rattle.vt_glyph.specs.Spell.{spelling_of};
ghost use Rattle.vt_utf8.specs.Similar.{shown};
ghost use Rattle.vt_utf8.specs.Cells.{cells};
ghost use Rattle.vt_utf8.specs.Translation.{reads_ascii, while_designated, spelled_in, both_halves, is_at_end};
ghost use Rattle.vt_utf8.specs.Translation.{written_wide, put, translation};
ghost use Rattle.vt_utf8.specs.Play.{translated_all};

use crate::similar::{code_of, spelling_of_code};
use arrayvec::ArrayVec;
use unicode_width::UnicodeWidthChar;
use vt_glyph::laws::glyphs;
use vt_glyph::{Glyph, Set, Sets, Spelling};
use vt_syntax::Held;
use vt_term::SizedTerminal;

/// The limit of the bytes for one character: ST, NEL, and two glyphs of nine bytes.
pub const TRANSLATION_LIMIT: usize = 22;

/// The limit of the bytes for one byte of UTF-8: those for U+FFFD, in place of what is ill-formed, and for a character.
pub const BYTE_LIMIT: usize = 2 * TRANSLATION_LIMIT;

const ESC: u8 = 0x1B;

/// The bytes for one character.
pub type Bytes = ArrayVec<u8, 22>;

/// Returns how many cells a character beyond ASCII has: 0, 1 or 2.
#[inline]
#[tactic(auto, unfolding(crate::specs::Cells::cells))]
pub fn cells(c: char) -> usize
    ensures value { result ≡ cells c }
    ensures few { result ≤ 2 }
{
    if c == '\u{AD}' {
        1
    } else {
        c.width().unwrap_or(0).min(2)
    }
}

/// Returns the spelling of the glyph that is shown for a character of U+00A0 or above.
#[inline]
fn spelling_of(c: char) -> Spelling
    ensures { result ≡ spelling_of (shown c) }
{
    spelling_of_code(code_of(c))
}

/// Appends bytes for which there is capacity.
#[inline(always)]
fn append(part: &[u8], bytes: &mut Bytes)
    requires { array_vec_len bytes.old + length part.now ≤ 22 }
    ensures items { bytes.new.items ≡ bytes.old.items ++ part.now }
    ensures len { array_vec_len bytes.new ≡ array_vec_len bytes.old + length part.now }
{
    let _ = bytes.try_extend_from_slice(part);
}

/// Returns whether ASCII is in GL and no single shift is pending.
#[inline(always)]
pub(crate) fn reads_ascii(sets: &Sets) -> bool
    ensures { result ≡ reads_ascii sets.now }
{
    sets.set(sets.left()).last() == Set::Ascii.last() && sets.pending().is_none()
}

/// Appends a code after a single shift, between the designation of a set and that of the set before. Neither is needed if
/// the two sets are the same.
fn append_shifted(inter: u8, set: Set, before: Set, shift: u8, code: u8, bytes: &mut Bytes)
    requires { array_vec_len bytes.old + 9 ≤ 22 }
    ensures items { bytes.new.items ≡ bytes.old.items
        ++ while_designated inter set before (ESC ∷ shift ∷ code ∷ []) }
    ensures len { array_vec_len bytes.new ≤ array_vec_len bytes.old + 9 }
{
    if before.last() == set.last() {
        append(&[ESC, shift, code], bytes);
    } else {
        let (now, then) = (set.last(), before.last());
        append(
            &[ESC, inter, now, ESC, shift, code, ESC, inter, then],
            bytes,
        );
    }
}

/// Appends the bytes that write a glyph at the cursor, whatever the sets are. They leave the sets.
fn append_glyph(spelling: Spelling, sets: &Sets, bytes: &mut Bytes)
    requires { array_vec_len bytes.old + 9 ≤ 22 }
    ensures items { bytes.new.items ≡ bytes.old.items ++ spelled_in sets.now spelling }
    ensures len { array_vec_len bytes.new ≤ array_vec_len bytes.old + 9 }
{
    match spelling {
        Spelling::Plain(code) => {
            if reads_ascii(sets) {
                append(&[code], bytes);
            } else {
                append_shifted(b'*', Set::Ascii, sets.set(2), b'N', code, bytes);
            }
        }
        Spelling::Second(code) => {
            append_shifted(b'*', Set::Supplemental, sets.set(2), b'N', code, bytes);
        }
        Spelling::Third(code) => {
            append_shifted(b'+', Set::Special, sets.set(3), b'O', code, bytes);
        }
    }
}

/// Appends the bytes that write a glyph, and a space after it.
fn append_both(c: char, sets: &Sets, bytes: &mut Bytes)
    requires { array_vec_len bytes.old + 18 ≤ 22 }
    ensures items { bytes.new.items ≡ bytes.old.items ++ both_halves (shown c) sets.now }
    ensures len { array_vec_len bytes.new ≤ array_vec_len bytes.old + 18 }
{
    append_glyph(spelling_of(c), sets, bytes);
    append_glyph(Glyph::blank().spelling(), sets, bytes);
}

/// Returns whether one cell is left in the cursor's row.
#[inline(always)]
pub(crate) fn has_one_cell_left(terminal: &SizedTerminal) -> bool
    ensures { result ≡ is_at_end terminal.now.display }
{
    let cursor = terminal.cursor();
    cursor.col as usize == terminal.width() && !cursor.wrap
}

/// Appends the bytes for a character of two cells.
fn append_wide(c: char, terminal: &SizedTerminal, bytes: &mut Bytes)
    requires { array_vec_len bytes.old + 20 ≤ 22 }
    ensures items { bytes.new.items ≡ bytes.old.items ++ written_wide (shown c) terminal.now.display }
{
    let sets = terminal.sets();
    if !has_one_cell_left(terminal) {
        append_both(c, sets, bytes);
    } else if terminal.modes().decawm {
        append(&[ESC, b'E'], bytes);
        append_both(c, sets, bytes);
    }
}

/// Appends the bytes for a character beyond ASCII, between sequences.
fn append_character(c: char, terminal: &SizedTerminal, bytes: &mut Bytes)
    requires { array_vec_len bytes.old + 20 ≤ 22 }
    ensures { bytes.new.items ≡ bytes.old.items ++ put c terminal.now.display }
{
    match cells(c) {
        0 => {}
        1 => append_glyph(spelling_of(c), terminal.sets(), bytes),
        _ => append_wide(c, terminal, bytes),
    }
}

/// Returns the terminal's bytes for a character beyond ASCII, in the terminal's state: none if it is content of a string.
#[tactic(auto, unfolding(crate::specs::Translation::translation))]
pub(crate) fn translation(terminal: &SizedTerminal, c: char) -> Bytes
    requires { 0x80 ≤ c }
    ensures { result.items ≡ translation terminal.now c }
{
    let mut bytes = ArrayVec::new();
    match terminal.held() {
        Held::Text { .. } => {}
        Held::Nothing => append_character(c, terminal, &mut bytes),
        _ => {
            append(&[ESC, b'\\'], &mut bytes);
            append_character(c, terminal, &mut bytes);
        }
    }
    bytes
}

/// Returns the terminal's bytes for a character, in the terminal's state.
fn bytes_of(terminal: &SizedTerminal, c: char) -> Bytes
    ensures { result.items ≡ translation terminal.now c }
{
    if (c as u32) < 0x80 {
        let mut bytes = ArrayVec::new();
        bytes.push(c as u8);
        bytes
    } else {
        translation(terminal, c)
    }
}

/// Returns the terminal's bytes for a character, if there is one, in the terminal's state.
pub fn translated(terminal: &SizedTerminal, character: Option<char>) -> Bytes
    ensures { result.items ≡ translated_all terminal.now (option_to_list character) }
{
    match character {
        Some(c) => bytes_of(terminal, c),
        None => ArrayVec::new(),
    }
}
