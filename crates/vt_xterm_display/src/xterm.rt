//! An xterm.
ghost use Rattle.std.specs.Prelude.{◌≡◌, ◌↔◌, [], IsTrue, ◌≤◌, ◌<◌, ◌+◌, ◌*◌, IfOk, OnOk, OnErr, IsOk, length, take, vec_len, vec_capacity};
ghost use Rattle.vt_syntax.specs.Held.{IsHeldPart};
ghost use Rattle.vt_syntax.specs.declared.held.Held.TheVariants.{Nothing};
ghost use Rattle.vt_screen.specs.Sizes.{IsSize};
ghost use Rattle.vt_screen.specs.Grid.{row_or};
ghost use Rattle.vt_feed.specs.Languages.{utf8};
ghost use Rattle.vt_feed.specs.Observing.{happenings};
ghost use Rattle.vt_xterm_cell.specs.Cells.{blank_cell};
ghost use Rattle.vt_xterm_display.specs.Functions.{xterm};
ghost use Rattle.vt_xterm_display.specs.Session.{session_of, PlaysXterm};
ghost use Rattle.vt_xterm_display.specs.Tabs.{is_pending};

use crate::display::XtermDisplay;
use crate::settings::Settings;
use std::alloc::{AllocError, Global};
use std::marker::Model;
use vt_feed::{Nobody, Observer, REPORT_LIMIT, feed_utf8};
use vt_screen::Size;
use vt_syntax::{Held, Parser};
use vt_term::{Cursor, Modes};
use vt_utf8::Decoder;
use vt_xterm_cell::XtermCell;

/// An xterm of any size, which reads UTF-8. `new` allocates its memory, and nothing else does.
#[derive(Drop)]
pub struct Xterm {
    pub(crate) screen: XtermDisplay,
    pub(crate) parser: Parser,
    pub(crate) decoder: Decoder,
}

impl Model for Xterm {
    ghost use Rattle.vt_feed.specs.Languages.{reading};
    ghost use Rattle.vt_xterm_display.specs.Session.{Session};

    ghost Value = { Session };

    ghost view = { λ x. record { screen = x.screen; reading = reading x.parser x.decoder } };
}

impl Xterm {
    /// Returns an xterm of a size at power-up. Returns `Err` if allocation fails.
    pub fn new(alloc: Global, size: Size) -> Result<Xterm, AllocError>
        requires { IsSize size }
        ensures { IfOk result (λ x. x ≡ session_of size) }
    {
        Ok(Xterm {
            screen: XtermDisplay::new(alloc, size)?,
            parser: Parser::new(),
            decoder: Decoder::new(),
        })
    }

    /// Plays a chunk of the host's bytes, in UTF-8, and appends the reports to `reports`.
    ///
    /// It first reserves ten bytes of capacity for each byte of the chunk. Returns `Err` if that fails. Then nothing is changed.
    pub fn feed(&mut self, piece: &[u8], reports: &mut Vec<u8>) -> Result<(), AllocError>
        ensures plays { OnOk result (PlaysXterm self.old piece.now self.new reports.old.items reports.new.items) }
        ensures same { OnErr result (self.new ≡ self.old) }
        ensures same_reports { OnErr result (reports.new.items ≡ reports.old.items) }
        ensures has_room { vec_len reports.old + 10 * length piece.now ≤ vec_capacity reports.old → IsOk result }
        ensures bounded { vec_len reports.new ≤ vec_len reports.old + 10 * length piece.now }
        ensures capacity { vec_capacity reports.old ≤ vec_capacity reports.new }
    {
        let Some(room) = piece.len().checked_mul(REPORT_LIMIT) else {
            return Err(AllocError);
        };
        reports.reserve(room)?;
        self.feed_reserved(piece, reports);
        Ok(())
    }

    /// Plays a chunk of the host's bytes, in UTF-8, and appends the reports to `reports`, which has capacity for ten more bytes for each
    /// byte of the chunk. It never fails and allocates nothing.
    pub fn feed_reserved(&mut self, piece: &[u8], reports: &mut Vec<u8>)
        requires { vec_len reports.old + 10 * length piece.now ≤ vec_capacity reports.old }
        ensures plays { PlaysXterm self.old piece.now self.new reports.old.items reports.new.items }
        ensures bounded { vec_len reports.new ≤ vec_len reports.old + 10 * length piece.now }
        ensures capacity { vec_capacity reports.old ≤ vec_capacity reports.new }
    {
        let _ = self.feed_observed(piece, &mut Nobody, reports);
    }

    /// Plays a chunk of the host's bytes as `feed_reserved` does, and tells an observer of them. Returns how many bytes it played: all,
    /// unless the observer is full.
    #[inline(never)]
    pub fn feed_observed<O: Observer<XtermDisplay>>(
        &mut self,
        piece: &[u8],
        observer: &mut O,
        reports: &mut Vec<u8>,
    ) -> usize
        requires { vec_len reports.old + 10 * length piece.now ≤ vec_capacity reports.old }
        ensures all { result < length piece.now → O.Full observer.new }
        ensures within { result ≤ length piece.now }
        ensures plays { PlaysXterm self.old (take result piece.now) self.new reports.old.items reports.new.items }
        ensures saw { O.Saw observer.old (happenings utf8 xterm self.old.reading self.old.screen (take result piece.now)) observer.new }
        ensures bounded { vec_len reports.new ≤ vec_len reports.old + 10 * result }
        ensures capacity { vec_capacity reports.old ≤ vec_capacity reports.new }
    {
        feed_utf8(
            &mut self.screen,
            &mut self.parser,
            &mut self.decoder,
            piece,
            observer,
            reports,
        )
    }

    /// Returns the screen.
    pub fn screen(&self) -> &XtermDisplay
        ensures { result.now ≡ self.now.screen }
    {
        &self.screen
    }

    /// Returns the cells of a row, from 1.
    pub fn row(&self, row: usize) -> &[XtermCell]
        requires { (1 ≤ row) × (row ≤ self.now.screen.shown.grid.size.rows) }
        ensures { result.now ≡ row_or blank_cell self.now.screen.shown.grid row }
    {
        self.screen.shown.screen.row(row)
    }

    /// Returns the size: the rows, and the columns of the narrow and of the wide screen.
    pub fn size(&self) -> Size
        ensures size { result ≡ self.now.screen.shown.grid.size }
        ensures sound { IsSize self.now.screen.shown.grid.size }
    {
        self.screen.shown.screen.size()
    }

    /// Returns the cursor. Its flag is set if a wrap is pending, in the last column or at the right margin.
    pub fn cursor(&self) -> Cursor
        ensures { result ≡ record self.now.screen.shown.cursor { wrap = is_pending self.now.screen } }
    {
        let Cursor { row, col, .. } = self.screen.shown.cursor;
        Cursor {
            row,
            col,
            wrap: self.screen.is_pending(),
        }
    }

    /// Returns the modes that it shares with a VT220.
    pub fn modes(&self) -> Modes
        ensures { result ≡ self.now.screen.shown.modes }
    {
        self.screen.shown.modes
    }

    /// Returns the settings that a multiplexer hands on.
    pub fn settings(&self) -> Settings
        ensures { result ≡ self.now.screen.settings }
    {
        self.screen.settings
    }

    /// Returns whether the alternate page is shown.
    pub fn is_alternate(&self) -> bool
        ensures { result ≡ self.now.screen.alternate }
    {
        self.screen.alternate
    }

    /// Returns the held part of a sequence: what decides how an unfinished one goes on.
    pub fn held(&self) -> &Held
        ensures held { result.now ≡ self.now.reading.held }
        ensures held_part { IsHeldPart self.now.reading.held }
    {
        self.parser.held()
    }

    /// Returns the bytes of a character that isn't complete: at most three.
    pub fn pending(&self) -> &[u8]
        ensures pending { result.now ≡ self.now.reading.pending }
        ensures few { length self.now.reading.pending ≤ 3 }
    {
        self.decoder.pending()
    }

    /// Returns whether it is between sequences, and between characters.
    pub fn is_between(&self) -> bool
        ensures { IsTrue result ↔ ((self.now.reading.held ≡ Nothing) × (self.now.reading.pending ≡ [])) }
    {
        self.parser.is_between() && self.decoder.is_empty()
    }
}
