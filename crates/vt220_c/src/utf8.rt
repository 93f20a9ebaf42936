//! UTF-8 for C: what is pending, how a character is shown, and calls that play UTF-8.
ghost use Rattle.std.specs.Prelude.{◌≡◌, ◌≢◌, ◌+◌, ◌≤◌, ◌<◌, ◌⊎◌, ◌∷◌, [], true, false, length, take, IfSome};
ghost use Rattle.std.specs.declared.option.Option.TheVariants.{None, Some};
ghost use Rattle.vt_term.specs.Scrolling.{log};
ghost use Rattle.vt_utf8.specs.Decoding.{pending_after};
ghost use Rattle.vt_utf8.specs.Limits.{utf8_lines_limit};
ghost use Rattle.vt_utf8.specs.Play.{translated, play_utf8};
ghost use Rattle.vt220_c.specs.Bells.{bells};
ghost use Rattle.vt220_c.specs.Utf8.{pending_in, c_utf8, cells_of_character, glyph_for, cells_for};
ghost use Rattle.vt220_c.specs.Written.{written_over};

use crate::handle::Vt220;
use crate::inner::{Fed, Inner};
use crate::playing::{play, play_byte};
use crate::scratch_handle::Vt220Scratch;
use crate::sizes::room_holds;
use std::alloc::Global;
use vt_term::REPORT_LIMIT;
use vt_utf8::laws::ascii;
use vt_utf8::{Decoder, cells, shown_as};

/// The pending part of UTF-8: the bytes of a character that isn't complete, and how many there are.
#[repr(C)]
#[derive(Clone, Copy)]
pub struct Vt220Utf8 {
    pub bytes: [u8; 3],
    pub len: u8,
}

/// Returns the decoder of a struct.
pub(crate) fn decoder_of(u: &Vt220Utf8) -> Decoder
    ensures { result ≡ pending_in u.now }
{
    if u.len <= 3 {
        Decoder::of(&u.bytes[..u.len as usize])
    } else {
        Decoder::new()
    }
}

/// Returns the struct of a decoder.
pub(crate) fn c_utf8(decoder: &Decoder) -> Vt220Utf8
    ensures { result ≡ c_utf8 decoder.now }
{
    c_pending(decoder.pending())
}

/// Returns the struct of what is pending.
pub(crate) fn c_pending(pending: &[u8]) -> Vt220Utf8
    requires { length pending.now ≤ 3 }
    ensures { result ≡ c_utf8 pending.now }
{
    let mut bytes = [0; 3];
    bytes[..pending.len()].copy_from_slice(pending);
    Vt220Utf8 {
        bytes,
        len: pending.len() as u8,
    }
}

/// Returns how many cells a character has.
fn cells_of_character(c: char) -> usize
    ensures { result ≡ cells_of_character c }
{
    if (c as u32) >= 0x80 {
        cells(c)
    } else if ' ' <= c && c <= '~' {
        1
    } else {
        0
    }
}

/// Returns the Unicode number of the glyph that is shown for a character, and writes how many cells the character has: 0, 1
/// or 2. Returns 0 if it has none. A number that isn't a character of Unicode counts as U+FFFD.
#[unsafe(no_mangle)]
pub extern "C" fn core_shown(number: u32, cells: &mut usize) -> u32
    ensures glyph { result ≡ glyph_for number }
    ensures cells { cells.new ≡ cells_for number }
{
    let c = char::from_u32(number).unwrap_or('\u{FFFD}');
    *cells = cells_of_character(c);
    match shown_as(c) {
        Some(glyph) => glyph.to_char() as u32,
        None => 0,
    }
}

/// Plays UTF-8 and writes the reports, as `core_feed` does. `u` is what is pending of a character between chunks. Returns how
/// many bytes were played: all, or as many as `out` has capacity for. Returns 0 if the handle is closed.
#[unsafe(no_mangle)]
#[tactic(auto, unfolding(vt_utf8::specs::Play::play_utf8))]
pub extern "C" fn core_feed_utf8(
    t: &mut Vt220,
    u: &mut Vt220Utf8,
    piece: &[u8],
    counts: bool,
    out: &mut [u8],
    written: &mut usize,
    rung: &mut usize,
    alloc: Global,
) -> usize
    ensures within { result ≤ length piece.now }
    ensures state { IfSome t.old.kept.inside (λ s. t.new.kept.inside ≡ Some (play_utf8 s (pending_in u.old) (take result piece.now)).state) }
    ensures pending { IfSome t.old.kept.inside (λ _. u.new ≡ c_utf8 (pending_after (pending_in u.old) (take result piece.now))) }
    ensures reports { IfSome t.old.kept.inside (λ s. out.new ≡ written_over (play_utf8 s (pending_in u.old) (take result piece.now)).reports out.old) }
    ensures written { IfSome t.old.kept.inside (λ s. written.new ≡ length (play_utf8 s (pending_in u.old) (take result piece.now)).reports) }
    ensures all { IfSome t.old.kept.inside (λ _. (result ≡ length piece.now) ⊎ (length out.old < written.new + REPORT_LIMIT)) }
    ensures bells { IfSome t.old.kept.inside (λ s. counts ≡ true → rung.new ≡ bells s.held (translated s (pending_in u.old) (take result piece.now))) }
    ensures none { counts ≡ false → rung.new ≡ 0 }
    ensures closed { t.old.kept.inside ≡ None → (t.new.kept.inside ≡ None) × (u.new ≡ u.old) × (result ≡ 0) × (written.new ≡ 0)
        × (rung.new ≡ 0) × (out.new ≡ out.old) }
{
    *written = 0;
    *rung = 0;
    let Some(mut inner) = t.take(alloc) else {
        return 0;
    };
    let mut decoder = decoder_of(u);
    let mut room = Vec::new(alloc);
    let played = play(
        &mut inner,
        &mut decoder,
        piece,
        counts,
        false,
        out,
        &mut [],
        &mut room,
    );
    t.put(inner);
    *u = c_utf8(&decoder);
    *written = played.written;
    *rung = played.bells;
    played.taken
}

/// Plays a byte of UTF-8 after what is pending, if `out` has capacity for its reports. Speed: ASCII with nothing pending is a VT220's
/// byte.
#[inline(always)]
#[tactic(auto, unfolding(vt_utf8::specs::Play::play_utf8))]
fn play_byte_utf8(inner: &mut Inner, u: &mut Vt220Utf8, byte: u8, out: &mut [u8]) -> Fed
    ensures within { result.taken ≤ 1 }
    ensures state { inner.new ≡ (play_utf8 inner.old (pending_in u.old) (take result.taken (byte ∷ []))).state }
    ensures pending { u.new ≡ c_utf8 (pending_after (pending_in u.old) (take result.taken (byte ∷ []))) }
    ensures reports { out.new ≡ written_over (play_utf8 inner.old (pending_in u.old) (take result.taken (byte ∷ []))).reports out.old }
    ensures written { result.written ≡ length (play_utf8 inner.old (pending_in u.old) (take result.taken (byte ∷ []))).reports }
    ensures all { (result.taken ≡ 1) ⊎ (length out.old < result.written + REPORT_LIMIT) }
{
    ascii();
    if u.len == 0 && byte < 0x80 {
        u.bytes = [0; 3];
        return inner.feed_byte(byte, out);
    }
    let mut decoder = decoder_of(u);
    let front = play_byte(inner, &mut decoder, byte, out);
    *u = c_utf8(&decoder);
    front
}

/// Plays a byte of UTF-8 and writes its reports, as `core_feed_utf8` does. Returns 1, or 0 if `out` has no capacity for ten bytes
/// or the handle is closed. Counts no bell.
#[unsafe(no_mangle)]
#[tactic(auto, unfolding(vt_utf8::specs::Play::play_utf8))]
pub extern "C" fn core_feed_byte_utf8(
    t: &mut Vt220,
    u: &mut Vt220Utf8,
    byte: u8,
    out: &mut [u8],
    written: &mut usize,
    alloc: Global,
) -> usize
    ensures within { result ≤ 1 }
    ensures state { IfSome t.old.kept.inside (λ s. t.new.kept.inside ≡ Some (play_utf8 s (pending_in u.old) (take result (byte ∷ []))).state) }
    ensures pending { IfSome t.old.kept.inside (λ _. u.new ≡ c_utf8 (pending_after (pending_in u.old) (take result (byte ∷ [])))) }
    ensures reports { IfSome t.old.kept.inside (λ s. out.new ≡ written_over (play_utf8 s (pending_in u.old) (take result (byte ∷ []))).reports out.old) }
    ensures written { IfSome t.old.kept.inside (λ s. written.new ≡ length (play_utf8 s (pending_in u.old) (take result (byte ∷ []))).reports) }
    ensures all { IfSome t.old.kept.inside (λ _. (result ≡ 1) ⊎ (length out.old < written.new + REPORT_LIMIT)) }
    ensures closed { t.old.kept.inside ≡ None → (t.new.kept.inside ≡ None) × (u.new ≡ u.old) × (result ≡ 0) × (written.new ≡ 0)
        × (out.new ≡ out.old) }
{
    *written = 0;
    let Some(mut inner) = t.take(alloc) else {
        return 0;
    };
    let front = play_byte_utf8(&mut inner, u, byte, out);
    t.put(inner);
    *written = front.written;
    front.taken
}

/// Plays UTF-8 with its log, as `core_feed_log` does. `u` is what is pending of a character between chunks. Returns how
/// many bytes were played: all, or as many as the two buffers have capacity for. Returns 0 if a handle is closed or the
/// terminal and the scratch buffer have different sizes.
#[unsafe(no_mangle)]
#[tactic(auto, unfolding(vt_utf8::specs::Play::play_utf8))]
pub extern "C" fn core_feed_log_utf8(
    t: &mut Vt220,
    s: &mut Vt220Scratch,
    u: &mut Vt220Utf8,
    piece: &[u8],
    counts: bool,
    out: &mut [u8],
    written: &mut usize,
    lines: &mut [u8],
    lines_written: &mut usize,
    rung: &mut usize,
    alloc: Global,
) -> usize
    ensures within { result ≤ length piece.now }
    ensures state { IfSome s.old.kept.inside (λ size. IfSome t.old.kept.inside (λ v. v.display.grid.size ≡ size → t.new.kept.inside ≡ Some (play_utf8 v (pending_in u.old) (take result piece.now)).state)) }
    ensures pending { IfSome s.old.kept.inside (λ size. IfSome t.old.kept.inside (λ v. v.display.grid.size ≡ size → u.new ≡ c_utf8 (pending_after (pending_in u.old) (take result piece.now)))) }
    ensures reports { IfSome s.old.kept.inside (λ size. IfSome t.old.kept.inside (λ v. v.display.grid.size ≡ size → out.new ≡ written_over (play_utf8 v (pending_in u.old) (take result piece.now)).reports out.old)) }
    ensures written { IfSome s.old.kept.inside (λ size. IfSome t.old.kept.inside (λ v. v.display.grid.size ≡ size → written.new ≡ length (play_utf8 v (pending_in u.old) (take result piece.now)).reports)) }
    ensures lines { IfSome s.old.kept.inside (λ size. IfSome t.old.kept.inside (λ v. v.display.grid.size ≡ size → lines.new ≡ written_over (log v (translated v (pending_in u.old) (take result piece.now))) lines.old)) }
    ensures lines_written { IfSome s.old.kept.inside (λ size. IfSome t.old.kept.inside (λ v. v.display.grid.size ≡ size → lines_written.new ≡ length (log v (translated v (pending_in u.old) (take result piece.now))))) }
    ensures all { IfSome s.old.kept.inside (λ size. IfSome t.old.kept.inside (λ v. v.display.grid.size ≡ size → (result ≡ length piece.now) ⊎ (length out.old < written.new + REPORT_LIMIT)
        ⊎ (length lines.old < lines_written.new + utf8_lines_limit v.display.grid.size))) }
    ensures bells { IfSome s.old.kept.inside (λ size. IfSome t.old.kept.inside (λ v. v.display.grid.size ≡ size → counts ≡ true → rung.new ≡ bells v.held (translated v (pending_in u.old) (take result piece.now)))) }
    ensures none { counts ≡ false → rung.new ≡ 0 }
    ensures scratch { s.new.kept.inside ≡ s.old.kept.inside }
    ensures other_size { IfSome s.old.kept.inside (λ size. IfSome t.old.kept.inside (λ v. v.display.grid.size ≢ size
        → (t.new.kept.inside ≡ t.old.kept.inside) × (u.new ≡ u.old) × (result ≡ 0) × (written.new ≡ 0) × (lines_written.new ≡ 0)
        × (rung.new ≡ 0) × (out.new ≡ out.old) × (lines.new ≡ lines.old))) }
    ensures closed { (t.old.kept.inside ≡ None) ⊎ (s.old.kept.inside ≡ None) → (t.new.kept.inside ≡ t.old.kept.inside) × (u.new ≡ u.old) × (result ≡ 0)
        × (written.new ≡ 0) × (lines_written.new ≡ 0) × (rung.new ≡ 0) × (out.new ≡ out.old) × (lines.new ≡ lines.old) }
{
    *written = 0;
    *lines_written = 0;
    *rung = 0;
    let Some(mut inner) = t.take(alloc) else {
        return 0;
    };
    let Some(mut scratch) = s.take(alloc) else {
        t.put(inner);
        return 0;
    };
    if !scratch.serves(inner.terminal()) {
        t.put(inner);
        s.put(scratch);
        return 0;
    }
    room_holds();
    let mut decoder = decoder_of(u);
    let logged = scratch.play(&mut inner, &mut decoder, piece, counts, out, lines);
    t.put(inner);
    s.put(scratch);
    *u = c_utf8(&decoder);
    *written = logged.written;
    *lines_written = logged.lines_written;
    *rung = logged.bells;
    logged.taken
}
