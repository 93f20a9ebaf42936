//! Calls that write a whole screen or a row. They work in a scratch buffer, and write into the caller's buffer.
ghost use Rattle.std.specs.Prelude.{◌≡◌, ◌≢◌, ◌↔◌, ◌≤◌, ◌<◌, ◌⊎◌, length, take, IfSome};
ghost use Rattle.std.specs.Str.{IsAscii};
ghost use Rattle.std.specs.declared.option.Option.TheVariants.{None};
ghost use Rattle.vt_syntax.specs.declared.held.Held.TheVariants.{Nothing};
ghost use Rattle.vt_screen.specs.Grid.{row_of};
ghost use Rattle.vt_term.specs.Text.{text, line_text};
ghost use Rattle.vt_picture.specs.Show.{show};
ghost use Rattle.vt_picture.specs.Picture.{picture};
ghost use Rattle.vt_picture.specs.Draw.{sized_draw, sized_draw_from};
ghost use Rattle.vt_paint.specs.Repaint.{paint};
ghost use Rattle.vt_paint.specs.Changes.{differing_at};
ghost use Rattle.vt_paint.specs.Limits.{changes_limit};
ghost use Rattle.vt_update.specs.Limits.{update_limit};
ghost use Rattle.vt_paint.specs.Spoken.{Speaks};
ghost use Rattle.vt220_c.specs.Forms.{written_as, Answers};
ghost use Rattle.vt220_c.specs.Sizes.{AreOfSize};
ghost use Rattle.vt220_c.specs.Status.{status_ok, status_closed, status_partial, status_room, status_no_row, status_size};
ghost use Rattle.vt220_c.specs.Written.{written_over, IsRepaint, UpdatedOver};

use crate::form::Form;
use crate::handle::Vt220;
use crate::inner::Inner;
use crate::scratch::Scratch;
use crate::scratch_handle::Vt220Scratch;
use crate::status::{CLOSED, OK, PARTIAL, ROOM, SIZE};
use std::alloc::Global;
use vt_term::SizedTerminal;

impl Scratch {
    /// Writes a form of a terminal into `out` if the form is available and fits. Writes its length to `written`.
    fn write_if(
        &mut self,
        terminal: &SizedTerminal,
        form: Form,
        out: &mut [u8],
        written: &mut usize,
    ) -> u32
        requires none { written.old ≡ 0 }
        requires size { terminal.now.display.grid.size ≡ self.old }
        ensures size { self.new ≡ self.old }
        ensures told { Answers form terminal.now (length out.old) written.new result }
        ensures status { (result ≡ status_ok) ⊎ (result ≡ status_room) ⊎ (result ≡ status_partial) ⊎ (result ≡ status_no_row) }
        ensures out { result ≡ status_ok → out.new ≡ written_over (written_as form terminal.now) out.old }
        ensures unchanged { (0 < result) → out.new ≡ out.old }
    {
        let status = form.status(terminal);
        if status != OK {
            return status;
        }
        let copied = self.write(terminal, form, out);
        *written = copied.len;
        if copied.fits { OK } else { ROOM }
    }
}

/// Writes a form of a terminal into `out` if the form is available and fits. Writes its length to `written`.
fn write(
    t: &mut Vt220,
    s: &mut Vt220Scratch,
    form: Form,
    out: &mut [u8],
    written: &mut usize,
    alloc: Global,
) -> u32
    ensures same { t.new.kept.inside ≡ t.old.kept.inside }
    ensures scratch { s.new.kept.inside ≡ s.old.kept.inside }
    ensures closed { (result ≡ status_closed) ↔ ((t.old.kept.inside ≡ None) ⊎ (s.old.kept.inside ≡ None)) }
    ensures other_size { IfSome t.old.kept.inside (λ u. IfSome s.old.kept.inside (λ size.
        (result ≡ status_size) ↔ (u.display.grid.size ≢ size))) }
    ensures none { (result ≡ status_closed) ⊎ (result ≡ status_size) → written.new ≡ 0 }
    ensures answers { result ≢ status_closed → result ≢ status_size → IfSome t.old.kept.inside (λ u. Answers form u (length out.old) written.new result) }
    ensures out { IfSome t.old.kept.inside (λ u. result ≡ status_ok → out.new ≡ written_over (written_as form u) out.old) }
    ensures unchanged { (0 < result) → out.new ≡ out.old }
{
    *written = 0;
    let Some(inner) = t.take(alloc) else {
        return CLOSED;
    };
    let Some(mut scratch) = s.take(alloc) else {
        t.put(inner);
        return CLOSED;
    };
    if !scratch.serves(inner.terminal()) {
        t.put(inner);
        s.put(scratch);
        return SIZE;
    }
    let status = scratch.write_if(inner.terminal(), form, out, written);
    t.put(inner);
    s.put(scratch);
    status
}

/// Writes the text of the screen if it fits into `out`. Writes its length to `written`. Returns `OK`, `ROOM`, `CLOSED`,
/// or `SIZE` if the scratch buffer has another size.
#[unsafe(no_mangle)]
pub extern "C" fn core_text(
    t: &mut Vt220,
    s: &mut Vt220Scratch,
    out: &mut [u8],
    written: &mut usize,
    alloc: Global,
) -> u32
    ensures same { t.new.kept.inside ≡ t.old.kept.inside }
    ensures scratch { s.new.kept.inside ≡ s.old.kept.inside }
    ensures closed { (result ≡ status_closed) ↔ ((t.old.kept.inside ≡ None) ⊎ (s.old.kept.inside ≡ None)) }
    ensures other_size { IfSome t.old.kept.inside (λ u. IfSome s.old.kept.inside (λ size.
        (result ≡ status_size) ↔ (u.display.grid.size ≢ size))) }
    ensures none { (result ≡ status_closed) ⊎ (result ≡ status_size) → written.new ≡ 0 }
    ensures len { result ≢ status_closed → result ≢ status_size → IfSome t.old.kept.inside (λ u. written.new ≡ length (text u)) }
    ensures ok { result ≢ status_closed → result ≢ status_size → IfSome t.old.kept.inside (λ u. (result ≡ status_ok) ↔ (length (text u) ≤ length out.old)) }
    ensures room { result ≢ status_closed → result ≢ status_size
        → IfSome t.old.kept.inside (λ u. (result ≡ status_room) ↔ (length out.old < length (text u))) }
    ensures out { IfSome t.old.kept.inside (λ u. result ≡ status_ok → out.new ≡ written_over (text u) out.old) }
    ensures unchanged { (0 < result) → out.new ≡ out.old }
{
    write(t, s, Form::Text, out, written, alloc)
}

/// Writes the text of the screen with its attributes if it fits into `out`. Writes its length to `written`. Returns
/// `OK`, `ROOM`, `CLOSED`, or `SIZE` if the scratch buffer has another size.
#[unsafe(no_mangle)]
pub extern "C" fn core_show(
    t: &mut Vt220,
    s: &mut Vt220Scratch,
    out: &mut [u8],
    written: &mut usize,
    alloc: Global,
) -> u32
    ensures same { t.new.kept.inside ≡ t.old.kept.inside }
    ensures scratch { s.new.kept.inside ≡ s.old.kept.inside }
    ensures closed { (result ≡ status_closed) ↔ ((t.old.kept.inside ≡ None) ⊎ (s.old.kept.inside ≡ None)) }
    ensures other_size { IfSome t.old.kept.inside (λ u. IfSome s.old.kept.inside (λ size.
        (result ≡ status_size) ↔ (u.display.grid.size ≢ size))) }
    ensures none { (result ≡ status_closed) ⊎ (result ≡ status_size) → written.new ≡ 0 }
    ensures len { result ≢ status_closed → result ≢ status_size → IfSome t.old.kept.inside (λ u. written.new ≡ length (show u)) }
    ensures ok { result ≢ status_closed → result ≢ status_size → IfSome t.old.kept.inside (λ u. (result ≡ status_ok) ↔ (length (show u) ≤ length out.old)) }
    ensures room { result ≢ status_closed → result ≢ status_size
        → IfSome t.old.kept.inside (λ u. (result ≡ status_room) ↔ (length out.old < length (show u))) }
    ensures out { IfSome t.old.kept.inside (λ u. result ≡ status_ok → out.new ≡ written_over (show u) out.old) }
    ensures unchanged { (0 < result) → out.new ≡ out.old }
{
    write(t, s, Form::Show, out, written, alloc)
}

/// Writes the picture if it fits into `out`. Writes its length to `written`. Returns `OK`, `ROOM`, `CLOSED`,
/// or `SIZE` if the scratch buffer has another size.
#[unsafe(no_mangle)]
pub extern "C" fn core_picture(
    t: &mut Vt220,
    s: &mut Vt220Scratch,
    out: &mut [u8],
    written: &mut usize,
    alloc: Global,
) -> u32
    ensures same { t.new.kept.inside ≡ t.old.kept.inside }
    ensures scratch { s.new.kept.inside ≡ s.old.kept.inside }
    ensures closed { (result ≡ status_closed) ↔ ((t.old.kept.inside ≡ None) ⊎ (s.old.kept.inside ≡ None)) }
    ensures other_size { IfSome t.old.kept.inside (λ u. IfSome s.old.kept.inside (λ size.
        (result ≡ status_size) ↔ (u.display.grid.size ≢ size))) }
    ensures none { (result ≡ status_closed) ⊎ (result ≡ status_size) → written.new ≡ 0 }
    ensures len { result ≢ status_closed → result ≢ status_size → IfSome t.old.kept.inside (λ u. written.new ≡ length (picture u)) }
    ensures ok { result ≢ status_closed → result ≢ status_size → IfSome t.old.kept.inside (λ u. (result ≡ status_ok) ↔ (length (picture u) ≤ length out.old)) }
    ensures room { result ≢ status_closed → result ≢ status_size
        → IfSome t.old.kept.inside (λ u. (result ≡ status_room) ↔ (length out.old < length (picture u))) }
    ensures out { IfSome t.old.kept.inside (λ u. result ≡ status_ok → out.new ≡ written_over (picture u) out.old) }
    ensures unchanged { (0 < result) → out.new ≡ out.old }
{
    write(t, s, Form::Picture, out, written, alloc)
}

/// Writes the bytes that make a modern terminal show the screen, whatever it shows, if they fit into `out`. Writes
/// their length to `written`. Returns `OK`, `ROOM`, `CLOSED`, or `SIZE` if the scratch buffer has another size.
#[unsafe(no_mangle)]
pub extern "C" fn core_draw(
    t: &mut Vt220,
    s: &mut Vt220Scratch,
    out: &mut [u8],
    written: &mut usize,
    alloc: Global,
) -> u32
    ensures same { t.new.kept.inside ≡ t.old.kept.inside }
    ensures scratch { s.new.kept.inside ≡ s.old.kept.inside }
    ensures closed { (result ≡ status_closed) ↔ ((t.old.kept.inside ≡ None) ⊎ (s.old.kept.inside ≡ None)) }
    ensures other_size { IfSome t.old.kept.inside (λ u. IfSome s.old.kept.inside (λ size.
        (result ≡ status_size) ↔ (u.display.grid.size ≢ size))) }
    ensures none { (result ≡ status_closed) ⊎ (result ≡ status_size) → written.new ≡ 0 }
    ensures len { result ≢ status_closed → result ≢ status_size → IfSome t.old.kept.inside (λ u. written.new ≡ length (sized_draw u)) }
    ensures ok { result ≢ status_closed → result ≢ status_size → IfSome t.old.kept.inside (λ u. (result ≡ status_ok) ↔ (length (sized_draw u) ≤ length out.old)) }
    ensures room { result ≢ status_closed → result ≢ status_size
        → IfSome t.old.kept.inside (λ u. (result ≡ status_room) ↔ (length out.old < length (sized_draw u))) }
    ensures out { IfSome t.old.kept.inside (λ u. result ≡ status_ok → out.new ≡ written_over (sized_draw u) out.old) }
    ensures unchanged { (0 < result) → out.new ≡ out.old }
{
    write(t, s, Form::Draw, out, written, alloc)
}

/// Writes the bytes that make a modern terminal show the screen of `to`, given that it shows that of `shown`, if they
/// fit into `out`. Writes their length to `written`. `shown` and `to` are different handles. Returns `OK`, `ROOM`,
/// `CLOSED`, or `SIZE` if the scratch buffer has another size.
#[unsafe(no_mangle)]
pub extern "C" fn core_draw_from(
    shown: &mut Vt220,
    to: &mut Vt220,
    s: &mut Vt220Scratch,
    out: &mut [u8],
    written: &mut usize,
    alloc: Global,
) -> u32
    ensures shown { shown.new.kept.inside ≡ shown.old.kept.inside }
    ensures to { to.new.kept.inside ≡ to.old.kept.inside }
    ensures scratch { s.new.kept.inside ≡ s.old.kept.inside }
    ensures closed { (result ≡ status_closed)
        ↔ ((shown.old.kept.inside ≡ None) ⊎ (to.old.kept.inside ≡ None) ⊎ (s.old.kept.inside ≡ None)) }
    ensures other_size { IfSome shown.old.kept.inside (λ a. IfSome to.old.kept.inside (λ b. IfSome s.old.kept.inside (λ size.
        (result ≡ status_size) ↔ (b.display.grid.size ≢ size)))) }
    ensures none { (result ≡ status_closed) ⊎ (result ≡ status_size) → written.new ≡ 0 }
    ensures len { result ≢ status_closed → result ≢ status_size
        → IfSome shown.old.kept.inside
        (λ a. IfSome to.old.kept.inside (λ b. written.new ≡ length (sized_draw_from a b))) }
    ensures ok { result ≢ status_closed → result ≢ status_size
        → IfSome shown.old.kept.inside
        (λ a. IfSome to.old.kept.inside (λ b. (result ≡ status_ok) ↔ (length (sized_draw_from a b) ≤ length out.old))) }
    ensures room { result ≢ status_closed → result ≢ status_size
        → IfSome shown.old.kept.inside
        (λ a. IfSome to.old.kept.inside (λ b. (result ≡ status_room) ↔ (length out.old < length (sized_draw_from a b)))) }
    ensures out { IfSome shown.old.kept.inside
        (λ a. IfSome to.old.kept.inside (λ b. result ≡ status_ok → out.new ≡ written_over (sized_draw_from a b) out.old)) }
    ensures unchanged { (0 < result) → out.new ≡ out.old }
{
    *written = 0;
    let Some(first) = shown.take(alloc) else {
        return CLOSED;
    };
    let Some(second) = to.take(alloc) else {
        shown.put(first);
        return CLOSED;
    };
    let Some(mut scratch) = s.take(alloc) else {
        shown.put(first);
        to.put(second);
        return CLOSED;
    };
    let mut status = SIZE;
    if scratch.serves(second.terminal()) {
        let copied = scratch.draw_from(first.terminal(), second.terminal(), out);
        *written = copied.len;
        status = if copied.fits { OK } else { ROOM };
    }
    shown.put(first);
    to.put(second);
    s.put(scratch);
    status
}

/// Writes the text of a row, from 1, if it fits into `out`. Writes its length to `written`. Returns `OK`, `ROOM`,
/// `CLOSED`, `SIZE` if the scratch buffer has another size, or `NO_ROW`.
#[unsafe(no_mangle)]
pub extern "C" fn core_row_text(
    t: &mut Vt220,
    s: &mut Vt220Scratch,
    row: usize,
    out: &mut [u8],
    written: &mut usize,
    alloc: Global,
) -> u32
    ensures same { t.new.kept.inside ≡ t.old.kept.inside }
    ensures scratch { s.new.kept.inside ≡ s.old.kept.inside }
    ensures closed { (result ≡ status_closed) ↔ ((t.old.kept.inside ≡ None) ⊎ (s.old.kept.inside ≡ None)) }
    ensures other_size { IfSome t.old.kept.inside (λ u. IfSome s.old.kept.inside (λ size.
        (result ≡ status_size) ↔ (u.display.grid.size ≢ size))) }
    ensures no_row { result ≢ status_closed → result ≢ status_size
        → IfSome t.old.kept.inside (λ u. (result ≡ status_no_row) ↔ ((row ≡ 0) ⊎ (u.display.grid.size.rows < row))) }
    ensures none { (result ≡ status_closed) ⊎ (result ≡ status_size) ⊎ (result ≡ status_no_row) → written.new ≡ 0 }
    ensures ok { result ≡ status_ok
        → IfSome t.old.kept.inside
        (λ u. (out.new ≡ written_over (line_text (row_of u.display.grid row)) out.old)
        × (written.new ≡ length (line_text (row_of u.display.grid row)))) }
    ensures room { result ≡ status_room
        → IfSome t.old.kept.inside
        (λ u. (length out.old < written.new) × (written.new ≡ length (line_text (row_of u.display.grid row)))) }
    ensures answers { (result ≡ status_ok) ⊎ (result ≡ status_closed) ⊎ (result ≡ status_size) ⊎ (result ≡ status_room)
        ⊎ (result ≡ status_no_row) }
    ensures unchanged { (0 < result) → out.new ≡ out.old }
{
    write(t, s, Form::RowText(row), out, written, alloc)
}

/// Writes the repaint of a terminal if it fits into `out`. Writes its length to `written`. Returns `OK`, `ROOM`,
/// `CLOSED`, `SIZE` if the scratch buffer has another size, or `PARTIAL` if the terminal is inside a sequence.
#[unsafe(no_mangle)]
pub extern "C" fn core_repaint(
    t: &mut Vt220,
    s: &mut Vt220Scratch,
    out: &mut [u8],
    written: &mut usize,
    alloc: Global,
) -> u32
    ensures same { t.new.kept.inside ≡ t.old.kept.inside }
    ensures scratch { s.new.kept.inside ≡ s.old.kept.inside }
    ensures closed { (result ≡ status_closed) ↔ ((t.old.kept.inside ≡ None) ⊎ (s.old.kept.inside ≡ None)) }
    ensures other_size { IfSome t.old.kept.inside (λ u. IfSome s.old.kept.inside (λ size.
        (result ≡ status_size) ↔ (u.display.grid.size ≢ size))) }
    ensures none { (result ≡ status_closed) ⊎ (result ≡ status_size) ⊎ (result ≡ status_partial) → written.new ≡ 0 }
    ensures partial { result ≢ status_closed → result ≢ status_size → IfSome t.old.kept.inside (λ u. (result ≡ status_partial) ↔ (u.held ≢ Nothing)) }
    ensures len { result ≢ status_closed → result ≢ status_size → IfSome t.old.kept.inside (λ u. u.held ≡ Nothing → written.new ≡ length (paint u)) }
    ensures ok { result ≢ status_closed → result ≢ status_size
        → IfSome t.old.kept.inside (λ u. u.held ≡ Nothing → (result ≡ status_ok) ↔ (length (paint u) ≤ length out.old)) }
    ensures room { result ≢ status_closed → result ≢ status_size
        → IfSome t.old.kept.inside (λ u. u.held ≡ Nothing → (result ≡ status_room) ↔ (length out.old < length (paint u))) }
    ensures out { IfSome t.old.kept.inside (λ u. result ≡ status_ok → out.new ≡ written_over (paint u) out.old) }
    ensures unchanged { (0 < result) → out.new ≡ out.old }
{
    write(t, s, Form::Repaint, out, written, alloc)
}

impl Scratch {
    /// Writes an update as `update` does if both terminals are of the scratch buffer's size and between sequences. Writes its length to
    /// `written`. Returns `OK`, `ROOM`, `SIZE`, or `PARTIAL` if one of them is inside a sequence.
    fn update_between(
        &mut self,
        shown: &mut Inner,
        to: &SizedTerminal,
        out: &mut [u8],
        written: &mut usize,
    ) -> u32
        requires none { written.old ≡ 0 }
        ensures size { self.new ≡ self.old }
        ensures other_size { (result ≡ status_size) ↔ (AreOfSize self.old shown.old to.now → ⊥) }
        ensures partial { result ≢ status_size → (result ≡ status_partial) ↔ ((shown.old.held ≢ Nothing) ⊎ (to.now.held ≢ Nothing)) }
        ensures room { result ≡ status_room → length out.old < written.new }
        ensures ok { result ≡ status_ok → (written.new ≤ length out.old) × (shown.new ≡ to.now) }
        ensures leads { result ≡ status_ok → UpdatedOver shown.old to.now out.old out.new written.new }
        ensures nothing { (result ≡ status_ok) ⊎ (result ≡ status_room) → (written.new ≡ 0) ↔ (shown.old ≡ to.now) }
        ensures small { shown.old.display.grid.width ≡ to.now.display.grid.width
            → shown.old.display.stops ≡ to.now.display.stops
            → written.new ≤ changes_limit to.now.display.grid.size
            (differing_at to.now.display.grid.size shown.old.display.grid to.now.display.grid) }
        ensures bounded { written.new ≤ update_limit to.now.display.grid.size }
        ensures speaks { result ≡ status_ok → Speaks (take written.new out.new) }
        ensures ascii { result ≡ status_ok → IsAscii (take written.new out.new) }
        ensures repaint { result ≡ status_ok → IsRepaint shown.old to.now (take written.new out.new) }
        ensures none { (result ≡ status_size) ⊎ (result ≡ status_partial) → written.new ≡ 0 }
        ensures unchanged { (0 < result) → (shown.new ≡ shown.old) × (out.new ≡ out.old) }
        ensures answers { (result ≡ status_ok) ⊎ (result ≡ status_size) ⊎ (result ≡ status_partial) ⊎ (result ≡ status_room) }
    {
        if !self.serves_both(shown.terminal(), to) {
            return SIZE;
        }
        if !shown.terminal().is_between() || !to.is_between() {
            return PARTIAL;
        }
        let copied = self.update(shown, to, out);
        *written = copied.len;
        if copied.fits { OK } else { ROOM }
    }
}

/// Writes bytes that lead from `shown` to `to` if they fit into `out`, and brings `shown` there. Writes their length to
/// `written`. `shown` and `to` are different handles. Returns `OK`, `ROOM`, `CLOSED`, `SIZE` if two of the three have different sizes,
/// or `PARTIAL` if a terminal is inside a sequence.
///
/// If width and tab stops are equal, the update has at most 28 * n + 230 bytes for n cells that differ. It has four
/// more if the screen has 100 rows or more. It is ASCII: graphic characters, and the control functions that `Spoken`
/// names.
#[unsafe(no_mangle)]
pub extern "C" fn core_update(
    shown: &mut Vt220,
    to: &mut Vt220,
    s: &mut Vt220Scratch,
    out: &mut [u8],
    written: &mut usize,
    alloc: Global,
) -> u32
    ensures to { to.new.kept.inside ≡ to.old.kept.inside }
    ensures scratch { s.new.kept.inside ≡ s.old.kept.inside }
    ensures closed { (result ≡ status_closed)
        ↔ ((shown.old.kept.inside ≡ None) ⊎ (to.old.kept.inside ≡ None) ⊎ (s.old.kept.inside ≡ None)) }
    ensures other_size { IfSome shown.old.kept.inside (λ a. IfSome to.old.kept.inside (λ b. IfSome s.old.kept.inside (λ size.
        (result ≡ status_size) ↔ (AreOfSize size a b → ⊥)))) }
    ensures partial { result ≢ status_closed → result ≢ status_size
        → IfSome shown.old.kept.inside
        (λ a. IfSome to.old.kept.inside (λ b. (result ≡ status_partial) ↔ ((a.held ≢ Nothing) ⊎ (b.held ≢ Nothing)))) }
    ensures room { result ≡ status_room → length out.old < written.new }
    ensures ok { result ≡ status_ok → (written.new ≤ length out.old) × (shown.new.kept.inside ≡ to.old.kept.inside) }
    ensures leads { result ≡ status_ok
        → IfSome shown.old.kept.inside
        (λ a. IfSome to.old.kept.inside (λ b. UpdatedOver a b out.old out.new written.new)) }
    ensures nothing { (result ≡ status_ok) ⊎ (result ≡ status_room)
        → (written.new ≡ 0) ↔ (shown.old.kept.inside ≡ to.old.kept.inside) }
    ensures small { IfSome shown.old.kept.inside
        (λ a. IfSome to.old.kept.inside
        (λ b. a.display.grid.width ≡ b.display.grid.width → a.display.stops ≡ b.display.stops
        → written.new ≤ changes_limit b.display.grid.size (differing_at b.display.grid.size a.display.grid b.display.grid))) }
    ensures bounded { IfSome to.old.kept.inside (λ b. written.new ≤ update_limit b.display.grid.size) }
    ensures speaks { result ≡ status_ok → Speaks (take written.new out.new) }
    ensures ascii { result ≡ status_ok → IsAscii (take written.new out.new) }
    ensures repaint { result ≡ status_ok
        → IfSome shown.old.kept.inside
        (λ a. IfSome to.old.kept.inside (λ b. IsRepaint a b (take written.new out.new))) }
    ensures none { (result ≡ status_closed) ⊎ (result ≡ status_size) ⊎ (result ≡ status_partial) → written.new ≡ 0 }
    ensures unchanged { (0 < result) → (shown.new.kept.inside ≡ shown.old.kept.inside) × (out.new ≡ out.old) }
    ensures answers { (result ≡ status_ok) ⊎ (result ≡ status_closed) ⊎ (result ≡ status_size) ⊎ (result ≡ status_partial)
        ⊎ (result ≡ status_room) }
{
    *written = 0;
    let Some(mut first) = shown.take(alloc) else {
        return CLOSED;
    };
    let Some(second) = to.take(alloc) else {
        shown.put(first);
        return CLOSED;
    };
    let Some(mut scratch) = s.take(alloc) else {
        shown.put(first);
        to.put(second);
        return CLOSED;
    };
    let status = scratch.update_between(&mut first, second.terminal(), out, written);
    shown.put(first);
    to.put(second);
    s.put(scratch);
    status
}
