//! Text: characters whose glyphs are written one after another, before the last column. Speed: they are written at once.
ghost use Rattle.std.specs.Prelude.{◌≡◌, ◌≤◌, ◌<◌, ◌+◌, ◌∷◌, false, length, take, slice_index};
ghost use Rattle.std.specs.Bool.{OnTrue};
ghost use Rattle.arrayvec.specs.ArrayVec.{array_vec_len};
ghost use Rattle.vt_utf8.specs.Text.{IsReady, ReadsText, WritesCharacter, WritesText};

use crate::coded::coded;
use crate::decoder::{begins_beyond, whole_character};
use crate::feeding::writes_glyphs;
use crate::translation::reads_ascii;
use arrayvec::ArrayVec;
use vt_glyph::laws::ascii_codes;
use vt_syntax::plain_run;
use vt_term::SizedTerminal;

/// The most glyphs of text that are written at a time.
const TEXT_LIMIT: usize = 64;

/// The codes of the glyphs of text.
type Text = ArrayVec<u8, 64>;

/// Returns how many glyphs are written at once: those before the last column, at most 64. It is 0 if a sequence is unfinished, or a
/// single shift or a wrap is pending.
#[inline(always)]
fn text_room(terminal: &SizedTerminal) -> usize
    ensures few { result ≤ 64 }
    ensures ready { 1 ≤ result → IsReady terminal.now }
    ensures fits { 1 ≤ result
        → terminal.now.display.cursor.col + result ≤ terminal.now.display.grid.width }
{
    let cursor = terminal.cursor();
    if cursor.wrap || !writes_glyphs(terminal) {
        return 0;
    }
    terminal
        .width()
        .saturating_sub(cursor.col as usize)
        .min(TEXT_LIMIT)
}

/// Appends the codes of the text at the front of a chunk, with nothing pending, until there are `room`. `ascii` says whether ASCII is
/// read as itself. Returns how many bytes the text takes. Speed: in a separate function the loop has registers for what it keeps.
#[inline(never)]
fn read_text(piece: &[u8], room: usize, ascii: bool, text: &mut Text) -> usize
    requires few { room ≤ 64 }
    requires before { array_vec_len text.old ≤ room }
    ensures within { result ≤ length piece.now }
    ensures room { array_vec_len text.new ≤ room }
    ensures text { ReadsText ascii (take result piece.now) text.old.items text.new.items }
{
    let mut at = 0;
    while at < piece.len() {
        let size = read_character(&piece[at..], room, ascii, text);
        if size == 0 {
            return at;
        }
        at += size;
    }
    at
}

/// Appends the codes of the character at the front of a chunk, if it is text and there is room. Returns how many bytes it takes.
#[inline(always)]
fn read_character(piece: &[u8], room: usize, ascii: bool, text: &mut Text) -> usize
    requires some { 1 ≤ length piece.now }
    requires few { room ≤ 64 }
    requires before { array_vec_len text.old ≤ room }
    ensures within { result ≤ length piece.now }
    ensures room { array_vec_len text.new ≤ room }
    ensures text { ReadsText ascii (take result piece.now) text.old.items text.new.items }
{
    if piece[0] < 0x80 {
        return read_ascii(piece, room, ascii, text);
    }
    match whole_character(piece) {
        Some((c, size)) if append_codes(c, room, text) => size,
        Some(_) => 0,
        None => read_ill_formed(piece, room, ascii, text),
    }
}

/// Appends the ASCII codes at the front of a chunk that have glyphs, if ASCII is read as itself, until there are `room`. Returns how
/// many bytes they take.
#[inline(always)]
fn read_ascii(piece: &[u8], room: usize, ascii: bool, text: &mut Text) -> usize
    requires few { room ≤ 64 }
    requires before { array_vec_len text.old ≤ room }
    ensures within { result ≤ length piece.now }
    ensures room { array_vec_len text.new ≤ room }
    ensures text { ReadsText ascii (take result piece.now) text.old.items text.new.items }
{
    ascii_codes();
    if !ascii {
        return 0;
    }
    let run = plain_run(piece).min(room - text.len());
    match text.try_extend_from_slice(&piece[..run]) {
        Ok(()) => run,
        Err(_) => 0,
    }
}

/// Appends the code of U+FFFD for an ill-formed byte at the front of a chunk, with nothing pending, if there is room. If ASCII cuts the
/// byte off, the ASCII code comes after it. Returns how many bytes they take.
#[inline(never)]
fn read_ill_formed(piece: &[u8], room: usize, ascii: bool, text: &mut Text) -> usize
    requires some { 1 ≤ length piece.now }
    requires beyond { 0x80 ≤ slice_index piece.now 0 }
    requires few { room ≤ 64 }
    requires before { array_vec_len text.old ≤ room }
    ensures within { result ≤ length piece.now }
    ensures room { array_vec_len text.new ≤ room }
    ensures text { ReadsText ascii (take result piece.now) text.old.items text.new.items }
{
    if begins_beyond(piece[0]) {
        return read_cut_off(piece, room, ascii, text);
    }
    if append_codes('\u{FFFD}', room, text) {
        return 1;
    }
    0
}

/// Appends the code of U+FFFD for the first byte of a character, which ASCII cuts off, and the ASCII code. It does so if that code has
/// a glyph, ASCII is read as itself, and there is room. Returns how many bytes they take: 2 or 0.
#[inline(always)]
fn read_cut_off(piece: &[u8], room: usize, ascii: bool, text: &mut Text) -> usize
    requires some { 1 ≤ length piece.now }
    requires first { (0xC2 ≤ slice_index piece.now 0) × (slice_index piece.now 0 ≤ 0xF4) }
    requires few { room ≤ 64 }
    requires before { array_vec_len text.old ≤ room }
    ensures within { result ≤ length piece.now }
    ensures room { array_vec_len text.new ≤ room }
    ensures text { ReadsText ascii (take result piece.now) text.old.items text.new.items }
{
    ascii_codes();
    if !ascii || piece.len() < 2 || text.len() == room {
        return 0;
    }
    let b = piece[1];
    if 0x20 <= b && b <= 0x7E && append_codes('\u{FFFD}', room - 1, text) {
        text.push(b);
        return 2;
    }
    0
}

/// Appends the codes of a character beyond ASCII, if it has one or two cells and there is room. Returns whether it did.
#[inline(always)]
fn append_codes(c: char, room: usize, text: &mut Text) -> bool
    requires few { room ≤ 64 }
    requires before { array_vec_len text.old ≤ room }
    requires beyond { 0x80 ≤ c }
    ensures room { array_vec_len text.new ≤ room }
    ensures yes { OnTrue result (WritesCharacter c text.old.items text.new.items) }
    ensures no { result ≡ false → text.new ≡ text.old }
{
    ascii_codes();
    let Some(found) = coded(c) else {
        return false;
    };
    if text.len() + found.cells > room {
        return false;
    }
    text.push(found.code);
    if found.cells == 2 {
        text.push(b' ');
    }
    true
}

/// Writes the text at the front of a chunk, with nothing pending. Returns how many bytes it takes: 0 if there is none, or no room.
#[inline(always)]
pub fn write_text(terminal: &mut SizedTerminal, piece: &[u8]) -> usize
    ensures within { result ≤ length piece.now }
    ensures text { WritesText terminal.old (take result piece.now) terminal.new }
{
    terminal.soundness();
    let room = text_room(terminal);
    if room == 0 {
        return 0;
    }
    let mut text = ArrayVec::new();
    let taken = read_text(piece, room, reads_ascii(terminal.sets()), &mut text);
    if taken == 0 {
        return 0;
    }
    terminal.write_codes(text.as_slice());
    taken
}
