//! Writing glyphs.
ghost use Rattle.std.specs.Prelude.{◌≡◌, ◌+◌, ◌≤◌, ◌⊎◌, ◌↔◌, All, IsTrue, false, length, map};
ghost use Rattle.std.specs.Bool.{OnTrue};
ghost use Rattle.vt_syntax.specs.Class.{IsPlain};
ghost use Rattle.vt_syntax.specs.declared.event.Event.TheVariants.{Print};
ghost use Rattle.vt_term.specs.Play.{after_events};
ghost use Rattle.vt_glyph.specs.Invocation.{HasGlyph, in_use, glyph_in_use};
ghost use Rattle.vt_term.specs.Writing.{after_wrap, put_glyph, write_glyph, write_glyphs};
ghost use Rattle.vt_glyph.specs.Encoding.{IsEncoding, encoded_glyph};
ghost use Rattle.vt_term.specs.Runs.{WritesAscii, WritesInUse, with_run, advanced_by};
ghost use Rattle.vt_term.specs.Kinds.{kind_of};
ghost use Rattle.vt_term.specs.Writing.{after_wrap_any, put_glyph_any, write_glyph_any, print_any};

use crate::display::Display;
use crate::kind::Kind;
use crate::state::Cursor;
use vt_glyph::{Glyph, InUse};
use vt_screen::MOST;
use vt_screen::laws::runs;

impl<K: Kind> Display<K> {
    /// Reads a graphic byte, 20..7E or A0..FF, through the sets, and writes its glyph.
    #[inline(always)]
    pub fn print(&mut self, b: u8)
        requires { ((0x20 ≤ b) × (b ≤ 0x7E)) ⊎ (0xA0 ≤ b) }
        ensures { self.new ≡ print_any (kind_of K.cells K.own) b self.old }
    {
        if let Some(glyph) = self.sets.read(b) {
            self.write_glyph(glyph);
        }
    }

    /// Writes a glyph at the cursor, after a pending wrap.
    #[inline(always)]
    pub fn write_glyph(&mut self, glyph: Glyph)
        ensures { self.new ≡ write_glyph_any (kind_of K.cells K.own) glyph self.old }
    {
        self.carry_out_wrap();
        self.put_glyph(glyph);
    }

    /// Carries out a pending wrap.
    #[inline(always)]
    pub fn carry_out_wrap(&mut self)
        ensures { self.new ≡ after_wrap_any (kind_of K.cells K.own) self.old }
    {
        if self.cursor.wrap {
            self.next_line();
        }
    }

    /// Writes a glyph if no wrap is pending. Under IRM the cells starting at the cursor first move right.
    #[inline(always)]
    fn put_glyph(&mut self, glyph: Glyph)
        ensures { self.new ≡ put_glyph_any (kind_of K.cells K.own) glyph self.old }
    {
        let Cursor { row, col, .. } = self.cursor;
        let cell = self.pen.written(glyph);
        if self.modes.irm {
            self.screen.put_inserting(row, col, cell);
        } else {
            self.screen.put(row, col, cell);
        }
        if col < self.screen.width() {
            self.cursor = Cursor::at(row, col + 1);
        } else {
            self.cursor.wrap = self.modes.decawm;
        }
    }
}

impl Display {
    /// Returns whether a graphic byte is read through the sets in GL and GR and replaces the cell at the cursor. That
    /// is so if no single shift is pending and IRM is reset.
    pub(crate) fn writes_over(&self) -> bool
        ensures { IsTrue result ↔ ((self.now.sets.pending ≡ None) × (self.now.modes.irm ≡ false)) }
    {
        !self.modes.irm && self.sets.pending().is_none()
    }

    /// Writes the glyphs with these codes at the cursor, one after another. Speed: glyphs that end in the cursor's row are written
    /// at once.
    #[inline(always)]
    pub(crate) fn write_codes(&mut self, codes: &[u8])
        requires codes { All IsEncoding codes.now }
        ensures { self.new ≡ write_glyphs (map encoded_glyph codes.now) self.old }
    {
        runs();
        if self.takes(codes) {
            self.put_codes(codes);
        } else {
            self.write_each(codes);
        }
    }

    /// Returns whether a run, of at least one glyph, replaces cells before the last column.
    #[inline(always)]
    fn takes(&self, run: &[u8]) -> bool
        ensures { OnTrue result ((1 ≤ length run.now) × ((self.now.modes.irm ≡ false)
            × ((self.now.cursor.wrap ≡ false) × (self.now.cursor.col + length run.now ≤ self.now.grid.width)))) }
    {
        !run.is_empty() && !self.modes.irm && self.fits(run)
    }

    /// Writes the glyphs with these codes, one by one.
    #[inline(never)]
    fn write_each(&mut self, codes: &[u8])
        requires codes { All IsEncoding codes.now }
        ensures { self.new ≡ write_glyphs (map encoded_glyph codes.now) self.old }
    {
        for code in codes.iter() {
            self.write_glyph(Glyph::encoded(*code));
        }
    }

    /// Writes the glyphs with these codes, which end in the cursor's row.
    #[inline(always)]
    fn put_codes(&mut self, codes: &[u8])
        requires codes { All IsEncoding codes.now }
        requires some { 1 ≤ length codes.now }
        requires room { self.old.cursor.col + length codes.now ≤ self.old.grid.width + 1 }
        ensures { self.new ≡ with_run (map encoded_glyph codes.now) self.old }
    {
        let Cursor { row, col, .. } = self.cursor;
        self.advance(codes.len());
        self.screen.put_codes(row, col, codes, self.pen);
    }

    /// Writes a run of plain bytes if GL is ASCII. Speed: a run that ends in the cursor's row is written at once. Most
    /// runs do.
    #[inline(always)]
    pub(crate) fn write_run(&mut self, run: &[u8])
        requires plain { All IsPlain run.now }
        requires some { 1 ≤ length run.now }
        requires writes { WritesAscii self.old }
        ensures { self.new ≡ after_events (map Print run.now) self.old }
    {
        runs();
        if self.fits(run) {
            self.put_run(run);
        } else {
            self.write_lines(run);
        }
    }

    /// Writes a run of plain bytes, line by line.
    #[inline(never)]
    fn write_lines(&mut self, run: &[u8])
        requires plain { All IsPlain run.now }
        requires writes { WritesAscii self.old }
        ensures { self.new ≡ after_events (map Print run.now) self.old }
    {
        runs();
        let mut at = 0;
        while at < run.len() {
            self.carry_out_wrap();
            let end = run.len().min(at + self.room());
            self.put_run(&run[at..end]);
            at = end;
        }
    }

    /// Writes a run of graphic bytes through the sets in GL and GR. Speed: a run that ends in the cursor's row is
    /// written at once. Most runs do.
    #[inline(always)]
    pub(crate) fn write_graphics(&mut self, run: &[u8])
        requires graphic { All HasGlyph run.now }
        requires some { 1 ≤ length run.now }
        requires writes { WritesInUse (in_use self.old.sets) self.old }
        ensures { self.new ≡ after_events (map Print run.now) self.old }
    {
        runs();
        let table = self.sets.in_use();
        if self.fits(run) {
            self.put_graphics(run, &table);
        } else {
            self.write_graphic_lines(run, &table);
        }
    }

    /// Writes a run of graphic bytes, line by line.
    #[inline(never)]
    fn write_graphic_lines(&mut self, run: &[u8], table: &InUse)
        requires graphic { All HasGlyph run.now }
        requires table { table.now ≡ in_use self.old.sets }
        requires writes { WritesInUse (in_use self.old.sets) self.old }
        ensures { self.new ≡ after_events (map Print run.now) self.old }
    {
        runs();
        let mut at = 0;
        while at < run.len() {
            self.carry_out_wrap();
            let end = run.len().min(at + self.room());
            self.put_graphics(&run[at..end], table);
            at = end;
        }
    }

    /// Returns whether a run ends before the last column. Then no wrap is pending, since the flag is set in that column alone.
    #[inline(always)]
    fn fits(&self, run: &[u8]) -> bool
        requires some { 1 ≤ length run.now }
        ensures { OnTrue result ((self.now.cursor.wrap ≡ false)
            × (self.now.cursor.col + length run.now ≤ self.now.grid.width)) }
    {
        self.soundness();
        self.cursor.col + run.len() <= self.screen.width()
    }

    /// Returns the number of cells from the cursor to the end of its row.
    fn room(&self) -> usize
        ensures room { result + self.now.cursor.col ≡ self.now.grid.width + 1 }
        ensures some { 1 ≤ result }
        ensures few { result ≤ MOST }
    {
        self.screen.width() + 1 - self.cursor.col
    }

    /// Writes a run of plain bytes that ends in the cursor's row.
    #[inline(always)]
    fn put_run(&mut self, run: &[u8])
        requires plain { All IsPlain run.now }
        requires some { 1 ≤ length run.now }
        requires room { self.old.cursor.col + length run.now ≤ self.old.grid.width + 1 }
        ensures { self.new ≡ with_run run.now self.old }
    {
        let Cursor { row, col, .. } = self.cursor;
        // The cursor is moved first: after the cells, the compiler would read it and the width again.
        self.advance(run.len());
        self.screen.put_run(row, col, run, self.pen);
    }

    /// Writes a run of graphic bytes that ends in the cursor's row.
    #[inline(always)]
    fn put_graphics(&mut self, run: &[u8], table: &InUse)
        requires graphic { All HasGlyph run.now }
        requires some { 1 ≤ length run.now }
        requires room { self.old.cursor.col + length run.now ≤ self.old.grid.width + 1 }
        ensures { self.new ≡ with_run (map (glyph_in_use table.now) run.now) self.old }
    {
        let Cursor { row, col, .. } = self.cursor;
        self.advance(run.len());
        self.screen.put_graphics(row, col, run, table, self.pen);
    }

    /// Moves the cursor after `n` glyphs that were written in its row.
    #[inline(always)]
    fn advance(&mut self, n: usize)
        requires some { 1 ≤ n }
        requires room { self.old.cursor.col + n ≤ self.old.grid.width + 1 }
        ensures { self.new ≡ record self.old { cursor = advanced_by n self.old } }
    {
        self.soundness();
        let Cursor { row, col, .. } = self.cursor;
        let width = self.screen.width();
        if col + n <= width {
            self.cursor.col = col + n;
        } else {
            self.cursor = Cursor {
                row,
                col: width,
                wrap: self.modes.decawm,
            };
        }
    }
}
