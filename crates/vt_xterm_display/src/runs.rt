//! Writing letters at once.
ghost use Rattle.std.specs.Prelude.{◌≡◌, ◌≤◌, ◌+◌, All, false, map, length};
ghost use Rattle.vt_xterm_display.specs.Tabs.{is_pending};
ghost use Rattle.std.specs.Bool.{OnTrue};
ghost use Rattle.vt_glyph.specs.Invocation.{HasGlyph};
ghost use Rattle.vt_syntax.specs.Class.{IsPlain};
ghost use Rattle.vt_feed.specs.Actions.{printed, state_after};
ghost use Rattle.vt_xterm_display.specs.Moving.{last_reached};
ghost use Rattle.vt_xterm_display.specs.Writing.{with_letters, WritesLetters};
ghost use Rattle.vt_xterm_display.specs.Functions.{xterm};

use crate::display::XtermDisplay;
use vt_term::Cursor;
use vt_wide::laws::runs;
use vt_wide::put_bytes;
use vt_xterm_cell::XtermCell;

impl XtermDisplay {
    /// Writes plain bytes, 20 to 7E. Speed: letters that have room are written at once.
    #[inline(always)]
    pub(crate) fn write_run(&mut self, run: &[u8])
        requires some { 1 ≤ length run.now }
        requires plain { All IsPlain run.now }
        ensures { self.new ≡ state_after xterm (map printed run.now) self.old }
    {
        self.soundness();
        runs::<XtermCell>();
        if !self.writes_letters() {
            self.print_each(run);
        } else if self.fits(run) {
            self.put_letters(run);
        } else {
            self.write_lines(run);
        }
    }

    /// Returns whether plain bytes are letters that replace what is there.
    #[inline(always)]
    fn writes_letters(&self) -> bool
        ensures { OnTrue result (WritesLetters self.now) }
    {
        self.shown.sets.reads_ascii() && !self.shown.modes.irm
    }

    /// Returns whether letters have room, and no wrap is pending.
    #[inline(always)]
    fn fits(&self, run: &[u8]) -> bool
        ensures none { OnTrue result (is_pending self.now ≡ false) }
        ensures room { OnTrue result (self.now.shown.cursor.col + length run.now ≤ last_reached self.now.sides self.now.shown + 1) }
    {
        !self.is_pending() && self.shown.cursor.col + run.len() <= self.last_reached() + 1
    }

    /// Writes letters, row by row.
    #[inline(never)]
    fn write_lines(&mut self, run: &[u8])
        requires plain { All IsPlain run.now }
        requires writes { WritesLetters self.old }
        ensures { self.new ≡ state_after xterm (map printed run.now) self.old }
    {
        runs::<XtermCell>();
        let mut at = 0;
        while at < run.len() {
            self.carry_out_wrap();
            self.soundness();
            let end = run.len().min(at + self.room());
            self.put_letters(&run[at..end]);
            at = end;
        }
    }

    /// Writes letters that have room.
    #[inline(always)]
    fn put_letters(&mut self, run: &[u8])
        requires some { 1 ≤ length run.now }
        requires plain { All IsPlain run.now }
        requires room { self.old.shown.cursor.col + length run.now ≤ last_reached self.old.sides self.old.shown + 1 }
        ensures { self.new ≡ with_letters run.now self.old }
    {
        let Cursor { row, col, .. } = self.shown.cursor;
        let empty = self.incoming();
        let pen = self.shown.pen.cleared();
        let (cursor, waits) = self.advanced(run.len());
        self.shown.cursor = cursor;
        self.waits = waits;
        put_bytes(&mut self.shown.screen, row, col, run, pen, empty);
    }

    /// Writes graphic bytes, one by one.
    #[inline(never)]
    pub(crate) fn print_each(&mut self, run: &[u8])
        requires graphic { All HasGlyph run.now }
        ensures { self.new ≡ state_after xterm (map printed run.now) self.old }
    {
        for b in run {
            self.print(*b);
        }
    }
}
