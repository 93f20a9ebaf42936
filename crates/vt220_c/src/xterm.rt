//! Calls of C that play what a host sends under TERM=xterm.
ghost use Rattle.std.specs.Prelude.{◌≡◌, ◌≢◌, ◌↔◌, ◌+◌, ◌≤◌, ◌<◌, ◌⊎◌, ◌∷◌, [], IsTrue, true, false, length, take, IfSome, is_some};
ghost use Rattle.std.specs.declared.option.Option.TheVariants.{None, Some};
ghost use Rattle.std.specs.Bool.{OnTrue};
ghost use Rattle.vt_screen.specs.Sizes.{IsSize};
ghost use Rattle.vt_syntax.specs.declared.held.Held.TheVariants.{Nothing};
ghost use Rattle.std.specs.Prelude.{option_map};
ghost use Rattle.vt_xterm.specs.Limits.{xterm_lines_limit};
ghost use Rattle.vt_xterm.specs.Play.{front_of};
ghost use Rattle.vt_xterm.specs.Resizing.{front_on};
ghost use Rattle.vt220_c.specs.Sizes.{size_of, size_for};
ghost use Rattle.vt220_c.specs.Status.{status_ok, status_memory, status_closed, status_in_use, status_size};
ghost use Rattle.vt220_c.specs.Utf8.{c_utf8};
ghost use Rattle.vt220_c.specs.Written.{written_over};
ghost use Rattle.vt220_c.specs.Xterm.{IsSession, xterm_played, xterm_front, xterm_lines, xterm_bells};

use crate::handle::Vt220;
use crate::inner::{Fed, Inner};
use crate::playing::{play, play_byte};
use crate::scratch_handle::Vt220Scratch;
use crate::sizes::{room_holds, size_for, size_of};
use crate::status::{CLOSED, IN_USE, MEMORY, OK, SIZE};
use crate::utf8::{Vt220Utf8, c_pending};
use crate::xterm_handle::Vt220Xterm;
use std::alloc::Global;
use vt_syntax::laws::spelled;
use vt_term::{Held, REPORT_LIMIT, Size, SizedTerminal};
use vt_utf8::laws::ascii;
use vt_xterm::laws::sized_transparent;
use vt_xterm::{Sides, SizedFront};

/// Returns whether a terminal and a front have one size.
pub(crate) fn is_session(terminal: &SizedTerminal, front: &SizedFront) -> bool
    ensures { IsTrue result ↔ IsSession terminal.now front.now }
{
    front.size().same(terminal.size())
}

/// Opens a closed handle, with a front at power-up for a terminal of so many rows and columns. Returns `OK`, `IN_USE`, `SIZE` if a
/// screen may not have this size, or `MEMORY`.
#[unsafe(no_mangle)]
pub extern "C" fn core_xterm_open(
    x: &mut Vt220Xterm,
    rows: usize,
    columns: usize,
    alloc: Global,
) -> u32
    ensures ok { result ≡ status_ok → x.new.kept.inside ≡ option_map front_of (size_for rows columns) }
    ensures not { (0 < result) → x.new.kept.inside ≡ x.old.kept.inside }
    ensures in_use { (result ≡ status_in_use) ↔ (is_some x.old.kept.inside ≡ true) }
    ensures no_size { result ≢ status_in_use → (result ≡ status_size) ↔ (size_for rows columns ≡ None) }
    ensures answers { (result ≡ status_ok) ⊎ (result ≡ status_memory) ⊎ (result ≡ status_in_use) ⊎ (result ≡ status_size) }
{
    if x.is_open {
        return IN_USE;
    }
    let Some(size) = size_for(rows, columns) else {
        return SIZE;
    };
    let Ok(front) = SizedFront::new(alloc, size) else {
        return MEMORY;
    };
    let Ok(front) = Box::new(alloc, front) else {
        return MEMORY;
    };
    x.put(front);
    OK
}

/// Closes a handle and frees its memory. A closed handle stays closed.
#[unsafe(no_mangle)]
pub extern "C" fn core_xterm_close(x: &mut Vt220Xterm, alloc: Global)
    ensures { x.new.kept.inside ≡ None }
{
    let _ = x.take(alloc);
}

/// Returns whether the alternate page is shown. Returns false if the handle is closed.
#[unsafe(no_mangle)]
pub extern "C" fn core_xterm_alternate(x: &mut Vt220Xterm, alloc: Global) -> bool
    ensures same { x.new.kept.inside ≡ x.old.kept.inside }
    ensures alternate { IfSome x.old.kept.inside (λ front. result ≡ front.pages.alternate) }
    ensures closed { x.old.kept.inside ≡ None → result ≡ false }
{
    let Some(front) = x.take(alloc) else {
        return false;
    };
    let alternate = front.is_alternate();
    x.put(front);
    alternate
}

/// Returns whether pasted text is wanted in brackets (?2004). Returns false if the handle is closed.
#[unsafe(no_mangle)]
pub extern "C" fn core_xterm_bracketed_paste(x: &mut Vt220Xterm, alloc: Global) -> bool
    ensures same { x.new.kept.inside ≡ x.old.kept.inside }
    ensures brackets { IfSome x.old.kept.inside (λ front. result ≡ front.pages.brackets) }
    ensures closed { x.old.kept.inside ≡ None → result ≡ false }
{
    let Some(front) = x.take(alloc) else {
        return false;
    };
    let brackets = front.brackets();
    x.put(front);
    brackets
}

/// Writes what is pending of UTF-8. Returns false, and leaves `u` unchanged, if the handle is closed.
#[unsafe(no_mangle)]
pub extern "C" fn core_xterm_pending(x: &mut Vt220Xterm, u: &mut Vt220Utf8, alloc: Global) -> bool
    ensures same { x.new.kept.inside ≡ x.old.kept.inside }
    ensures pending { IfSome x.old.kept.inside (λ front. u.new ≡ c_utf8 front.pending) }
    ensures closed { x.old.kept.inside ≡ None → u.new ≡ u.old }
    ensures opened { result ≡ is_some x.old.kept.inside }
{
    let Some(front) = x.take(alloc) else {
        return false;
    };
    *u = c_pending(front.pending());
    x.put(front);
    true
}

/// Plays what a host sends under TERM=xterm and writes the reports, as `core_feed` does. `x` is what the terminal needs next
/// to its state. Returns how many bytes were played: all, or as many as `out` has capacity for. Returns 0 if a handle is closed.
#[unsafe(no_mangle)]
pub extern "C" fn core_feed_xterm(
    t: &mut Vt220,
    x: &mut Vt220Xterm,
    piece: &[u8],
    counts: bool,
    out: &mut [u8],
    written: &mut usize,
    rung: &mut usize,
    alloc: Global,
) -> usize
    ensures within { result ≤ length piece.now }
    ensures state { IfSome t.old.kept.inside (λ s. IfSome x.old.kept.inside (λ front. IsSession s front →
        t.new.kept.inside ≡ Some (xterm_played s front (take result piece.now)).whole.state)) }
    ensures front { IfSome t.old.kept.inside (λ s. IfSome x.old.kept.inside (λ front. IsSession s front →
        x.new.kept.inside ≡ Some (xterm_front s front (take result piece.now)))) }
    ensures reports { IfSome t.old.kept.inside (λ s. IfSome x.old.kept.inside (λ front. IsSession s front →
        out.new ≡ written_over (xterm_played s front (take result piece.now)).reports out.old)) }
    ensures written { IfSome t.old.kept.inside (λ s. IfSome x.old.kept.inside (λ front. IsSession s front →
        written.new ≡ length (xterm_played s front (take result piece.now)).reports)) }
    ensures all { IfSome t.old.kept.inside (λ s. IfSome x.old.kept.inside (λ front. IsSession s front →
        (result ≡ length piece.now) ⊎ (length out.old < written.new + REPORT_LIMIT))) }
    ensures bells { IfSome t.old.kept.inside (λ s. IfSome x.old.kept.inside (λ front. IsSession s front →
        counts ≡ true → rung.new ≡ xterm_bells s front (take result piece.now))) }
    ensures none { counts ≡ false → rung.new ≡ 0 }
    ensures other_size { IfSome t.old.kept.inside (λ s. IfSome x.old.kept.inside (λ front. front.pages.other.grid.size ≢ s.display.grid.size
        → (t.new.kept.inside ≡ t.old.kept.inside) × (x.new.kept.inside ≡ x.old.kept.inside) × (result ≡ 0) × (written.new ≡ 0) × (rung.new ≡ 0)
        × (out.new ≡ out.old))) }
    ensures closed { (t.old.kept.inside ≡ None) ⊎ (x.old.kept.inside ≡ None) → (t.new.kept.inside ≡ t.old.kept.inside)
        × (x.new.kept.inside ≡ x.old.kept.inside) × (result ≡ 0) × (written.new ≡ 0) × (rung.new ≡ 0) × (out.new ≡ out.old) }
{
    *written = 0;
    *rung = 0;
    let Some(mut inner) = t.take(alloc) else {
        return 0;
    };
    let Some(mut front) = x.take(alloc) else {
        t.put(inner);
        return 0;
    };
    if !is_session(inner.terminal(), &front) {
        t.put(inner);
        x.put(front);
        return 0;
    }
    let mut room = Vec::new(alloc);
    let played = play(
        &mut inner,
        &mut *front,
        piece,
        counts,
        false,
        out,
        &mut [],
        &mut room,
    );
    t.put(inner);
    x.put(front);
    *written = played.written;
    *rung = played.bells;
    played.taken
}

/// Returns whether a byte is printed as on a VT220: it is a graphic byte of ASCII between sequences, nothing is pending, and DECLRMM is
/// reset.
#[inline(always)]
fn is_printed(sides: Option<Sides>, held: &Held, pending: &[u8], byte: u8) -> bool
    ensures { OnTrue result ((sides ≡ None) × (held.now ≡ Nothing) × (length pending.now ≡ 0) × (0x20 ≤ byte) × (byte ≤ 0x7E)) }
{
    match (sides, held) {
        (None, Held::Nothing) => pending.is_empty() && 0x20 <= byte && byte <= 0x7E,
        _ => false,
    }
}

/// Plays a byte under TERM=xterm, if `out` has capacity for its reports. Speed: most bytes are printed as on a VT220.
#[inline(always)]
fn play_byte_xterm(inner: &mut Inner, front: &mut SizedFront, byte: u8, out: &mut [u8]) -> Fed
    requires { IsSession inner.old front.old }
    ensures within { result.taken ≤ 1 }
    ensures state { inner.new ≡ (xterm_played inner.old front.old (take result.taken (byte ∷ []))).whole.state }
    ensures front { front.new ≡ xterm_front inner.old front.old (take result.taken (byte ∷ [])) }
    ensures reports { out.new ≡ written_over (xterm_played inner.old front.old (take result.taken (byte ∷ []))).reports out.old }
    ensures written { result.written ≡ length (xterm_played inner.old front.old (take result.taken (byte ∷ []))).reports }
    ensures all { (result.taken ≡ 1) ⊎ (length out.old < result.written + REPORT_LIMIT) }
{
    inner.terminal.soundness();
    ascii();
    sized_transparent();
    spelled();
    if is_printed(front.sides(), inner.terminal.held(), front.pending(), byte) {
        return inner.feed_byte(byte, out);
    }
    play_byte(inner, front, byte, out)
}

/// Plays a byte under TERM=xterm and writes its reports, as `core_feed_xterm` does. Returns 1, or 0 if `out` has no capacity for ten
/// bytes or a handle is closed. Counts no bell.
#[unsafe(no_mangle)]
pub extern "C" fn core_feed_byte_xterm(
    t: &mut Vt220,
    x: &mut Vt220Xterm,
    byte: u8,
    out: &mut [u8],
    written: &mut usize,
    alloc: Global,
) -> usize
    ensures within { result ≤ 1 }
    ensures state { IfSome t.old.kept.inside (λ s. IfSome x.old.kept.inside (λ front. IsSession s front →
        t.new.kept.inside ≡ Some (xterm_played s front (take result (byte ∷ []))).whole.state)) }
    ensures front { IfSome t.old.kept.inside (λ s. IfSome x.old.kept.inside (λ front. IsSession s front →
        x.new.kept.inside ≡ Some (xterm_front s front (take result (byte ∷ []))))) }
    ensures reports { IfSome t.old.kept.inside (λ s. IfSome x.old.kept.inside (λ front. IsSession s front →
        out.new ≡ written_over (xterm_played s front (take result (byte ∷ []))).reports out.old)) }
    ensures written { IfSome t.old.kept.inside (λ s. IfSome x.old.kept.inside (λ front. IsSession s front →
        written.new ≡ length (xterm_played s front (take result (byte ∷ []))).reports)) }
    ensures all { IfSome t.old.kept.inside (λ s. IfSome x.old.kept.inside (λ front. IsSession s front →
        (result ≡ 1) ⊎ (length out.old < written.new + REPORT_LIMIT))) }
    ensures other_size { IfSome t.old.kept.inside (λ s. IfSome x.old.kept.inside (λ front. front.pages.other.grid.size ≢ s.display.grid.size
        → (t.new.kept.inside ≡ t.old.kept.inside) × (x.new.kept.inside ≡ x.old.kept.inside) × (result ≡ 0) × (written.new ≡ 0)
        × (out.new ≡ out.old))) }
    ensures closed { (t.old.kept.inside ≡ None) ⊎ (x.old.kept.inside ≡ None) → (t.new.kept.inside ≡ t.old.kept.inside)
        × (x.new.kept.inside ≡ x.old.kept.inside) × (result ≡ 0) × (written.new ≡ 0) × (out.new ≡ out.old) }
{
    *written = 0;
    let Some(mut inner) = t.take(alloc) else {
        return 0;
    };
    let Some(mut front) = x.take(alloc) else {
        t.put(inner);
        return 0;
    };
    if !is_session(inner.terminal(), &front) {
        t.put(inner);
        x.put(front);
        return 0;
    }
    let sent = play_byte_xterm(&mut inner, &mut front, byte, out);
    t.put(inner);
    x.put(front);
    *written = sent.written;
    sent.taken
}

/// Plays what a host sends under TERM=xterm with its log, as `core_feed_log` does. Returns how many bytes were played: all, or as
/// many as the two buffers have capacity for. Returns 0 if a handle is closed.
#[unsafe(no_mangle)]
pub extern "C" fn core_feed_log_xterm(
    t: &mut Vt220,
    s: &mut Vt220Scratch,
    x: &mut Vt220Xterm,
    piece: &[u8],
    counts: bool,
    out: &mut [u8],
    written: &mut usize,
    lines: &mut [u8],
    lines_written: &mut usize,
    rung: &mut usize,
    alloc: Global,
) -> usize
    ensures within { result ≤ length piece.now }
    ensures state { IfSome s.old.kept.inside (λ size. IfSome t.old.kept.inside (λ v. IfSome x.old.kept.inside (λ front.
        IsSession v front → v.display.grid.size ≡ size →
        t.new.kept.inside ≡ Some (xterm_played v front (take result piece.now)).whole.state))) }
    ensures front { IfSome s.old.kept.inside (λ size. IfSome t.old.kept.inside (λ v. IfSome x.old.kept.inside (λ front.
        IsSession v front → v.display.grid.size ≡ size →
        x.new.kept.inside ≡ Some (xterm_front v front (take result piece.now))))) }
    ensures reports { IfSome s.old.kept.inside (λ size. IfSome t.old.kept.inside (λ v. IfSome x.old.kept.inside (λ front.
        IsSession v front → v.display.grid.size ≡ size →
        out.new ≡ written_over (xterm_played v front (take result piece.now)).reports out.old))) }
    ensures written { IfSome s.old.kept.inside (λ size. IfSome t.old.kept.inside (λ v. IfSome x.old.kept.inside (λ front.
        IsSession v front → v.display.grid.size ≡ size →
        written.new ≡ length (xterm_played v front (take result piece.now)).reports))) }
    ensures lines { IfSome s.old.kept.inside (λ size. IfSome t.old.kept.inside (λ v. IfSome x.old.kept.inside (λ front.
        IsSession v front → v.display.grid.size ≡ size →
        lines.new ≡ written_over (xterm_lines v front (take result piece.now)) lines.old))) }
    ensures lines_written { IfSome s.old.kept.inside (λ size. IfSome t.old.kept.inside (λ v. IfSome x.old.kept.inside (λ front.
        IsSession v front → v.display.grid.size ≡ size →
        lines_written.new ≡ length (xterm_lines v front (take result piece.now))))) }
    ensures all { IfSome s.old.kept.inside (λ size. IfSome t.old.kept.inside (λ v. IfSome x.old.kept.inside (λ front.
        IsSession v front → v.display.grid.size ≡ size →
        (result ≡ length piece.now) ⊎ (length out.old < written.new + REPORT_LIMIT)
        ⊎ (length lines.old < lines_written.new + xterm_lines_limit v.display.grid.size)))) }
    ensures bells { IfSome s.old.kept.inside (λ size. IfSome t.old.kept.inside (λ v. IfSome x.old.kept.inside (λ front.
        IsSession v front → v.display.grid.size ≡ size →
        counts ≡ true → rung.new ≡ xterm_bells v front (take result piece.now)))) }
    ensures none { counts ≡ false → rung.new ≡ 0 }
    ensures scratch { s.new.kept.inside ≡ s.old.kept.inside }
    ensures other_size { IfSome s.old.kept.inside (λ size. IfSome t.old.kept.inside (λ v. IfSome x.old.kept.inside (λ front.
        (front.pages.other.grid.size ≢ v.display.grid.size) ⊎ (v.display.grid.size ≢ size)
        → (t.new.kept.inside ≡ t.old.kept.inside) × (x.new.kept.inside ≡ x.old.kept.inside) × (result ≡ 0) × (written.new ≡ 0)
        × (lines_written.new ≡ 0) × (rung.new ≡ 0) × (out.new ≡ out.old) × (lines.new ≡ lines.old)))) }
    ensures closed { (t.old.kept.inside ≡ None) ⊎ (s.old.kept.inside ≡ None) ⊎ (x.old.kept.inside ≡ None)
        → (t.new.kept.inside ≡ t.old.kept.inside) × (x.new.kept.inside ≡ x.old.kept.inside) × (result ≡ 0) × (written.new ≡ 0)
        × (lines_written.new ≡ 0) × (rung.new ≡ 0) × (out.new ≡ out.old) × (lines.new ≡ lines.old) }
{
    *written = 0;
    *lines_written = 0;
    *rung = 0;
    let Some(mut inner) = t.take(alloc) else {
        return 0;
    };
    let Some(mut scratch) = s.take(alloc) else {
        t.put(inner);
        return 0;
    };
    let Some(mut front) = x.take(alloc) else {
        t.put(inner);
        s.put(scratch);
        return 0;
    };
    if !is_session(inner.terminal(), &front) || !scratch.serves(inner.terminal()) {
        t.put(inner);
        s.put(scratch);
        x.put(front);
        return 0;
    }
    room_holds();
    let logged = scratch.play(&mut inner, &mut *front, piece, counts, out, lines);
    t.put(inner);
    s.put(scratch);
    x.put(front);
    *written = logged.written;
    *lines_written = logged.lines_written;
    *rung = logged.bells;
    logged.taken
}

/// Makes what a terminal needs under TERM=xterm equal to what another one needs. The two handles are different. Returns `OK`,
/// `CLOSED` if one of the two is closed, or `SIZE` if they have different sizes.
#[unsafe(no_mangle)]
pub extern "C" fn core_xterm_copy(to: &mut Vt220Xterm, from: &mut Vt220Xterm, alloc: Global) -> u32
    ensures from { from.new.kept.inside ≡ from.old.kept.inside }
    ensures closed { (result ≡ status_closed) ↔ ((to.old.kept.inside ≡ None) ⊎ (from.old.kept.inside ≡ None)) }
    ensures other_size { IfSome to.old.kept.inside (λ a. IfSome from.old.kept.inside (λ b.
        (result ≡ status_size) ↔ (a.pages.other.grid.size ≢ b.pages.other.grid.size))) }
    ensures answers { (result ≡ status_ok) ⊎ (result ≡ status_closed) ⊎ (result ≡ status_size) }
    ensures ok { result ≡ status_ok → to.new.kept.inside ≡ from.old.kept.inside }
    ensures unchanged { (0 < result) → to.new.kept.inside ≡ to.old.kept.inside }
{
    let Some(mut first) = to.take(alloc) else {
        return CLOSED;
    };
    let Some(second) = from.take(alloc) else {
        to.put(first);
        return CLOSED;
    };
    let mut status = SIZE;
    if first.size().same(second.size()) {
        first.copy_from(&second);
        status = OK;
    }
    to.put(first);
    from.put(second);
    status
}

/// Opens a closed handle, with what a front gets if the screen of its terminal changes to a size. Returns `OK` or `MEMORY`.
fn open_resized(
    resized: &mut Vt220Xterm,
    terminal: &SizedTerminal,
    front: &SizedFront,
    size: Size,
    alloc: Global,
) -> u32
    requires closed { resized.old.kept.inside ≡ None }
    requires session { IsSession terminal.now front.now }
    requires size { IsSize size }
    ensures ok { result ≡ status_ok → resized.new.kept.inside ≡ Some (front_on size terminal.now.display front.now) }
    ensures not { (0 < result) → resized.new.kept.inside ≡ None }
    ensures answers { (result ≡ status_ok) ⊎ (result ≡ status_memory) }
{
    let Ok(mut made) = SizedFront::new(alloc, size) else {
        return MEMORY;
    };
    front.resize_into(terminal, &mut made);
    let Ok(made) = Box::new(alloc, made) else {
        return MEMORY;
    };
    resized.put(made);
    OK
}

/// Opens a closed handle, with what a front gets if the screen of its terminal `t` changes to so many rows and columns. The handles of
/// fronts are different. Returns `OK`, `IN_USE`, `CLOSED`, `SIZE` if a screen may not have this size, or if terminal and front have
/// different sizes, or `MEMORY`.
#[unsafe(no_mangle)]
pub extern "C" fn core_xterm_resized(
    resized: &mut Vt220Xterm,
    t: &mut Vt220,
    x: &mut Vt220Xterm,
    rows: usize,
    columns: usize,
    alloc: Global,
) -> u32
    ensures same { t.new.kept.inside ≡ t.old.kept.inside }
    ensures front { x.new.kept.inside ≡ x.old.kept.inside }
    ensures ok { result ≡ status_ok → IfSome t.old.kept.inside (λ s. IfSome x.old.kept.inside (λ front.
        resized.new.kept.inside ≡ option_map (λ size. front_on size s.display front) (size_of rows columns))) }
    ensures not { (0 < result) → resized.new.kept.inside ≡ resized.old.kept.inside }
    ensures in_use { (result ≡ status_in_use) ↔ (is_some resized.old.kept.inside ≡ true) }
    ensures closed { result ≢ status_in_use
        → (result ≡ status_closed) ↔ ((t.old.kept.inside ≡ None) ⊎ (x.old.kept.inside ≡ None)) }
    ensures no_size { result ≢ status_in_use → IfSome t.old.kept.inside (λ s. IfSome x.old.kept.inside (λ front.
        (result ≡ status_size)
        ↔ ((size_of rows columns ≡ None) ⊎ (front.pages.other.grid.size ≢ s.display.grid.size)))) }
    ensures answers { (result ≡ status_ok) ⊎ (result ≡ status_memory) ⊎ (result ≡ status_in_use) ⊎ (result ≡ status_closed)
        ⊎ (result ≡ status_size) }
{
    if resized.is_open {
        return IN_USE;
    }
    let Some(inner) = t.take(alloc) else {
        return CLOSED;
    };
    let Some(front) = x.take(alloc) else {
        t.put(inner);
        return CLOSED;
    };
    let mut status = SIZE;
    if let Some(size) = size_of(rows, columns) {
        if is_session(inner.terminal(), &front) {
            status = open_resized(resized, inner.terminal(), &front, size, alloc);
        }
    }
    t.put(inner);
    x.put(front);
    status
}
