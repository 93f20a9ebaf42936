//! The scratch buffer in which the calls that write a whole screen work. Many terminals share one.
ghost use Rattle.std.specs.Prelude.{◌≡◌, ◌↔◌, ◌⊎◌, ◌+◌, ◌≤◌, ◌<◌, IfOk, IsTrue, true, false, length, take};
ghost use Rattle.std.specs.Str.{IsAscii};
ghost use Rattle.vt_syntax.specs.declared.held.Held.TheVariants.{Nothing};
ghost use Rattle.vt_screen.specs.Sizes.{IsSize};
ghost use Rattle.vt_term.specs.Play.{play};
ghost use Rattle.vt_term.specs.Scrolling.{log};
ghost use Rattle.vt_term.specs.Text.{row_text_limit};
ghost use Rattle.vt_picture.specs.Draw.{sized_draw_from};
ghost use Rattle.vt_paint.specs.Changes.{differing_at};
ghost use Rattle.vt_paint.specs.Limits.{changes_limit};
ghost use Rattle.vt_paint.specs.Spoken.{Speaks};
ghost use Rattle.vt_update.specs.Limits.{update_limit};
ghost use Rattle.vt220_c.specs.Bells.{bells};
ghost use Rattle.vt220_c.specs.Forms.{written_as, CanBe};
ghost use Rattle.vt220_c.specs.Room.{room_limit};
ghost use Rattle.vt220_c.specs.Sizes.{AreOfSize};
ghost use Rattle.vt220_c.specs.Told.{Plays};
ghost use Rattle.vt220_c.specs.Written.{written_over, IsRepaint, UpdatedOver};

use crate::bytes::{Copied, copy_out};
use crate::form::Form;
use crate::inner::{Inner, Logged};
use crate::player::Player;
use crate::playing::play;
use crate::sizes::{room_holds, room_limit};
use std::alloc::{AllocError, Global};
use std::marker::Model;
use vt_paint::sized::repaint_reserved;
use vt_picture::sized::{draw_from_reserved, draw_reserved, picture_reserved, show_reserved};
use vt_term::{REPORT_LIMIT, Size, SizedTerminal};
use vt_update::sized::update_reserved;

/// A buffer for the longest form of a terminal of a size, and a terminal of this size on which an update is tried. Only `new`
/// allocates.
#[derive(Drop)]
pub(crate) struct Scratch {
    pub(crate) room: Vec<u8>,
    pub(crate) spare: SizedTerminal,
}

impl Model for Scratch {
    ghost use Rattle.std.specs.Prelude.{◌≤◌, vec_capacity};
    ghost use Rattle.vt_screen.specs.declared.size.Size.{Size};
    ghost use Rattle.vt220_c.specs.Room.{room_limit};

    ghost Value = { Size };

    ghost view = { λ s. s.spare.display.grid.size };

    ghost invariant = { λ s. room_limit s.spare.display.grid.size ≤ vec_capacity s.room };
}

impl Scratch {
    /// Allocates a scratch buffer for terminals of a size. Returns `Err` if that fails.
    pub(crate) fn new(alloc: Global, size: Size) -> Result<Scratch, AllocError>
        requires { IsSize size }
        ensures { IfOk result (λ s. s ≡ size) }
    {
        let spare = SizedTerminal::new(alloc, size)?;
        Ok(Scratch {
            room: Vec::with_capacity(alloc, room_limit(&spare))?,
            spare,
        })
    }

    /// Returns the size of the terminals that the scratch buffer serves.
    pub(crate) fn size(&self) -> Size
        ensures { result ≡ self.now }
    {
        self.spare.size()
    }

    /// Returns whether the scratch buffer serves a terminal: the two have one size.
    pub(crate) fn serves(&self, terminal: &SizedTerminal) -> bool
        ensures { IsTrue result ↔ (terminal.now.display.grid.size ≡ self.now) }
    {
        terminal.size().same(self.size())
    }

    /// Returns whether the scratch buffer serves two terminals.
    pub(crate) fn serves_both(&self, a: &SizedTerminal, b: &SizedTerminal) -> bool
        ensures { IsTrue result ↔ AreOfSize self.now a.now b.now }
    {
        self.serves(a) && self.serves(b)
    }

    /// Writes a form of a terminal into the front of `out`, if it fits.
    pub(crate) fn write(&mut self, terminal: &SizedTerminal, form: Form, out: &mut [u8]) -> Copied
        requires form { CanBe form terminal.now }
        requires size { terminal.now.display.grid.size ≡ self.old }
        ensures size { self.new ≡ self.old }
        ensures len { result.len ≡ length (written_as form terminal.now) }
        ensures fits { IsTrue result.fits ↔ (length (written_as form terminal.now) ≤ length out.old) }
        ensures out { result.fits ≡ true → out.new ≡ written_over (written_as form terminal.now) out.old }
        ensures unchanged { result.fits ≡ false → out.new ≡ out.old }
    {
        room_holds();
        self.room.clear();
        match form {
            Form::Text => terminal.text_reserved(&mut self.room),
            Form::RowText(row) => terminal.row_text_reserved(row, &mut self.room),
            Form::Show => show_reserved(terminal, &mut self.room),
            Form::Picture => picture_reserved(terminal, &mut self.room),
            Form::Draw => draw_reserved(terminal, &mut self.room),
            Form::Repaint => repaint_reserved(terminal, &mut self.room),
        }
        copy_out(self.room.as_slice(), out)
    }

    /// Plays bytes on a terminal with their log, as `Inner::feed_log` does.
    pub(crate) fn feed_log(
        &mut self,
        inner: &mut Inner,
        piece: &[u8],
        out: &mut [u8],
        lines: &mut [u8],
    ) -> Logged
        requires size { inner.old.display.grid.size ≡ self.old }
        ensures size { self.new ≡ self.old }
        ensures within { result.taken ≤ length piece.now }
        ensures state { inner.new ≡ (play inner.old (take result.taken piece.now)).state }
        ensures written { result.written ≡ length (play inner.old (take result.taken piece.now)).reports }
        ensures out { out.new ≡ written_over (play inner.old (take result.taken piece.now)).reports out.old }
        ensures lines_written { result.lines_written ≡ length (log inner.old (take result.taken piece.now)) }
        ensures lines { lines.new ≡ written_over (log inner.old (take result.taken piece.now)) lines.old }
        ensures all { (result.taken ≡ length piece.now) ⊎ (length out.old < result.written + REPORT_LIMIT)
            ⊎ (length lines.old < result.lines_written + row_text_limit inner.old.display.grid.size) }
        ensures bells { result.bells ≡ bells inner.old.held (take result.taken piece.now) }
    {
        room_holds();
        inner.feed_log(piece, out, lines, &mut self.room)
    }

    /// Plays what a host sends by a player with its log, as `playing::play` does.
    pub(crate) fn play<P: Player>(
        &mut self,
        inner: &mut Inner,
        player: &mut P,
        piece: &[u8],
        counts: bool,
        out: &mut [u8],
        lines: &mut [u8],
    ) -> Logged
        requires size { inner.old.display.grid.size ≡ self.old }
        requires room { P.room inner.old.display.grid.size ≤ room_limit inner.old.display.grid.size }
        requires kept_fits { P.Fits inner.old.display.grid.size player.old }
        ensures size { self.new ≡ self.old }
        ensures within { result.taken ≤ length piece.now }
        ensures fed { Plays true counts (P.told inner.old player.old (take result.taken piece.now)) inner.new player.new
            out.old 0 out.new lines.old 0 lines.new result.written result.lines_written result.bells }
        ensures all { (result.taken ≡ length piece.now) ⊎ (length out.old < result.written + REPORT_LIMIT)
            ⊎ (length lines.old < result.lines_written + P.room inner.old.display.grid.size) }
    {
        play(
            inner,
            player,
            piece,
            counts,
            true,
            out,
            lines,
            &mut self.room,
        )
    }

    /// Writes what draws a terminal over one that is shown into the front of `out`, if it fits.
    pub(crate) fn draw_from(
        &mut self,
        shown: &SizedTerminal,
        terminal: &SizedTerminal,
        out: &mut [u8],
    ) -> Copied
        requires size { terminal.now.display.grid.size ≡ self.old }
        ensures size { self.new ≡ self.old }
        ensures len { result.len ≡ length (sized_draw_from shown.now terminal.now) }
        ensures fits { IsTrue result.fits ↔ (length (sized_draw_from shown.now terminal.now) ≤ length out.old) }
        ensures out { result.fits ≡ true → out.new ≡ written_over (sized_draw_from shown.now terminal.now) out.old }
        ensures unchanged { result.fits ≡ false → out.new ≡ out.old }
    {
        room_holds();
        self.room.clear();
        draw_from_reserved(shown, terminal, &mut self.room);
        copy_out(self.room.as_slice(), out)
    }

    /// Writes an update into the front of `out`, if it fits. `shown` is then in the state of `to`, otherwise unchanged.
    pub(crate) fn update(&mut self, shown: &mut Inner, to: &SizedTerminal, out: &mut [u8]) -> Copied
        requires shown { shown.old.held ≡ Nothing }
        requires to { to.now.held ≡ Nothing }
        requires one_size { shown.old.display.grid.size ≡ to.now.display.grid.size }
        requires size { to.now.display.grid.size ≡ self.old }
        ensures size { self.new ≡ self.old }
        ensures fits { IsTrue result.fits ↔ (result.len ≤ length out.old) }
        ensures shown { result.fits ≡ true → shown.new ≡ to.now }
        ensures out { result.fits ≡ true → UpdatedOver shown.old to.now out.old out.new result.len }
        ensures unchanged { result.fits ≡ false → (shown.new ≡ shown.old) × (out.new ≡ out.old) }
        ensures nothing { (result.len ≡ 0) ↔ (shown.old ≡ to.now) }
        ensures small { shown.old.display.grid.width ≡ to.now.display.grid.width
            → shown.old.display.stops ≡ to.now.display.stops
            → result.len ≤ changes_limit to.now.display.grid.size
            (differing_at to.now.display.grid.size shown.old.display.grid to.now.display.grid) }
        ensures bounded { result.len ≤ update_limit to.now.display.grid.size }
        ensures speaks { result.fits ≡ true → Speaks (take result.len out.new) }
        ensures ascii { result.fits ≡ true → IsAscii (take result.len out.new) }
        ensures repaint { result.fits ≡ true → IsRepaint shown.old to.now (take result.len out.new) }
    {
        room_holds();
        self.room.clear();
        self.spare.copy_from(shown.terminal());
        let _ = update_reserved(&mut self.spare, to, &mut self.room);
        let copied = copy_out(self.room.as_slice(), out);
        if copied.fits {
            shown.exchange(&mut self.spare);
        }
        copied
    }
}
