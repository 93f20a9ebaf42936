//! The call of C that writes the repaint of a session under TERM=xterm.
ghost use Rattle.std.specs.Prelude.{◌≡◌, ◌≢◌, ◌↔◌, ◌≤◌, ◌<◌, ◌⊎◌, length, IfSome};
ghost use Rattle.std.specs.declared.option.Option.TheVariants.{None};
ghost use Rattle.vt_syntax.specs.declared.held.Held.TheVariants.{Nothing};
ghost use Rattle.vt_xterm.specs.Play.{behind};
ghost use Rattle.vt_xterm_paint.specs.Repaint.{xterm_repaint, xterm_paint_limit};
ghost use Rattle.vt220_c.specs.Rebuilt.{IsXtermRebuilt};
ghost use Rattle.vt220_c.specs.Status.{status_ok, status_closed, status_partial, status_room, status_size};
ghost use Rattle.vt220_c.specs.Written.{written_over};
ghost use Rattle.vt220_c.specs.Xterm.{IsSession};

use crate::bytes::copy_out;
use crate::handle::Vt220;
use crate::scratch::Scratch;
use crate::scratch_handle::Vt220Scratch;
use crate::sizes::room_holds;
use crate::status::{CLOSED, OK, PARTIAL, ROOM, SIZE};
use crate::xterm::is_session;
use crate::xterm_handle::Vt220Xterm;
use std::alloc::Global;
use vt_term::SizedTerminal;
use vt_xterm::SizedFront;
use vt_xterm_paint::sized::repaint_xterm_reserved;

impl Scratch {
    /// Writes the repaint of a session between sequences into the front of `out`, if it fits. Writes its length to `written`.
    /// Returns `OK`, `ROOM`, or `PARTIAL` if the terminal is inside a sequence.
    fn repaint_xterm(
        &mut self,
        terminal: &SizedTerminal,
        front: &SizedFront,
        out: &mut [u8],
        written: &mut usize,
    ) -> u32
        requires none { written.old ≡ 0 }
        requires session { IsSession terminal.now front.now }
        requires size { terminal.now.display.grid.size ≡ self.old }
        ensures size { self.new ≡ self.old }
        ensures partial { (result ≡ status_partial) ↔ (terminal.now.held ≢ Nothing) }
        ensures none { result ≡ status_partial → written.new ≡ 0 }
        ensures len { terminal.now.held ≡ Nothing → written.new ≡ length (xterm_repaint (behind terminal.now front.now)) }
        ensures ok { terminal.now.held ≡ Nothing
            → (result ≡ status_ok) ↔ (length (xterm_repaint (behind terminal.now front.now)) ≤ length out.old) }
        ensures room { terminal.now.held ≡ Nothing
            → (result ≡ status_room) ↔ (length out.old < length (xterm_repaint (behind terminal.now front.now))) }
        ensures out { result ≡ status_ok → out.new ≡ written_over (xterm_repaint (behind terminal.now front.now)) out.old }
        ensures rebuilds { result ≡ status_ok → IsXtermRebuilt terminal.now front.now }
        ensures bounded { written.new ≤ xterm_paint_limit terminal.now.display.grid.size }
        ensures unchanged { (0 < result) → out.new ≡ out.old }
        ensures answers { (result ≡ status_ok) ⊎ (result ≡ status_partial) ⊎ (result ≡ status_room) }
    {
        if !terminal.is_between() {
            return PARTIAL;
        }
        room_holds();
        self.room.clear();
        repaint_xterm_reserved(terminal, front, &mut self.spare, &mut self.room);
        let copied = copy_out(self.room.as_slice(), out);
        *written = copied.len;
        if copied.fits { OK } else { ROOM }
    }
}

/// Writes the repaint of a session under TERM=xterm into `out` if it fits. `x` is what the terminal needs next to its state. Writes
/// the length to `written`. Returns `OK`, `ROOM`, `CLOSED`, `SIZE` if two of these have different sizes, or `PARTIAL` if the terminal is
/// inside a sequence.
///
/// The repaint, played by `core_feed_xterm`, rebuilds the session on any terminal and front of its size. The pending
/// part of UTF-8 is left out: if it is sent after the repaint, it is pending again.
#[unsafe(no_mangle)]
pub extern "C" fn core_xterm_repaint(
    t: &mut Vt220,
    x: &mut Vt220Xterm,
    s: &mut Vt220Scratch,
    out: &mut [u8],
    written: &mut usize,
    alloc: Global,
) -> u32
    ensures same { t.new.kept.inside ≡ t.old.kept.inside }
    ensures front { x.new.kept.inside ≡ x.old.kept.inside }
    ensures scratch { s.new.kept.inside ≡ s.old.kept.inside }
    ensures closed { (result ≡ status_closed)
        ↔ ((t.old.kept.inside ≡ None) ⊎ (x.old.kept.inside ≡ None) ⊎ (s.old.kept.inside ≡ None)) }
    ensures other_size { IfSome t.old.kept.inside (λ u. IfSome x.old.kept.inside (λ front. IfSome s.old.kept.inside (λ size.
        (result ≡ status_size)
        ↔ ((front.pages.other.grid.size ≢ u.display.grid.size) ⊎ (u.display.grid.size ≢ size))))) }
    ensures none { (result ≡ status_closed) ⊎ (result ≡ status_size) ⊎ (result ≡ status_partial) → written.new ≡ 0 }
    ensures partial { result ≢ status_closed → result ≢ status_size → IfSome t.old.kept.inside (λ u. (result ≡ status_partial) ↔ (u.held ≢ Nothing)) }
    ensures len { result ≢ status_closed → result ≢ status_size → IfSome t.old.kept.inside (λ u. IfSome x.old.kept.inside (λ front.
        u.held ≡ Nothing → written.new ≡ length (xterm_repaint (behind u front)))) }
    ensures ok { result ≢ status_closed → result ≢ status_size → IfSome t.old.kept.inside (λ u. IfSome x.old.kept.inside (λ front.
        u.held ≡ Nothing → (result ≡ status_ok) ↔ (length (xterm_repaint (behind u front)) ≤ length out.old))) }
    ensures room { result ≢ status_closed → result ≢ status_size → IfSome t.old.kept.inside (λ u. IfSome x.old.kept.inside (λ front.
        u.held ≡ Nothing → (result ≡ status_room) ↔ (length out.old < length (xterm_repaint (behind u front))))) }
    ensures out { IfSome t.old.kept.inside (λ u. IfSome x.old.kept.inside (λ front.
        result ≡ status_ok → out.new ≡ written_over (xterm_repaint (behind u front)) out.old)) }
    ensures rebuilds { result ≡ status_ok → IfSome t.old.kept.inside (λ u. IfSome x.old.kept.inside (λ front.
        IsXtermRebuilt u front)) }
    ensures bounded { IfSome t.old.kept.inside (λ u. written.new ≤ xterm_paint_limit u.display.grid.size) }
    ensures unchanged { (0 < result) → out.new ≡ out.old }
{
    *written = 0;
    let Some(inner) = t.take(alloc) else {
        return CLOSED;
    };
    let Some(front) = x.take(alloc) else {
        t.put(inner);
        return CLOSED;
    };
    let Some(mut scratch) = s.take(alloc) else {
        t.put(inner);
        x.put(front);
        return CLOSED;
    };
    let mut status = SIZE;
    if is_session(inner.terminal(), &front) && scratch.serves(inner.terminal()) {
        status = scratch.repaint_xterm(inner.terminal(), &front, out, written);
    }
    t.put(inner);
    x.put(front);
    s.put(scratch);
    status
}
