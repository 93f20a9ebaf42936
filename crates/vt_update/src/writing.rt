//! Writing cells.
ghost use Rattle.std.specs.Prelude.{◌≡◌, ◌≤◌, length};

use crate::remote::Remote;
use vt_glyph::{Glyph, Set, Spelling};
use vt_paint::{Function, IRM};
use vt_screen::{Brush, Cell};

impl Remote {
    /// Sends SGR and DECSCA if they differ.
    pub(crate) fn set_brush(&mut self, brush: Brush) {
        if self.brush.rendition != brush.rendition {
            self.chosen.put(Function::rendition_change(self.brush.rendition, brush.rendition));
        }
        if self.brush.protected != brush.protected {
            self.chosen.put(if brush.protected {
                Function::protection(true)
            } else {
                Function::no_protection()
            });
        }
        self.brush = brush;
        self.number = brush.number();
    }

    /// Returns the byte that writes a glyph by the set in GL, if there is one.
    pub(crate) fn one_byte(&self, glyph: Glyph) -> Option<u8> {
        let code = glyph.code() as u8;
        if code == b' ' || 0x20 <= code && code <= 0x7E && self.has_ascii() {
            return Some(code);
        }
        let (home, code) = home_of(glyph);
        let left = self.sets.set(self.sets.left());
        if 0x21 <= code && code <= 0x7E && (left == home || left.glyph(code) == glyph) {
            Some(code)
        } else {
            None
        }
    }

    /// Returns whether a cell is written with the current brush.
    #[inline(always)]
    pub(crate) fn has_brush(&self, cell: &Cell) -> bool {
        cell.word() >> 24 == self.number
    }

    /// Writes a cell at the cursor, and resets the wrap flag. `goes_on` is true if the next cell is written next and is
    /// of the same set.
    pub(crate) fn write(&mut self, cell: &Cell, goes_on: bool) {
        if self.modes.irm {
            self.chosen.put(Function::mode(IRM, false));
            self.modes.irm = false;
        }
        if !self.has_brush(cell) {
            self.set_brush(cell.brush());
        }
        let code = cell.glyph.code() as u8;
        if 0x20 <= code && code <= 0x7E && self.has_ascii() {
            self.chosen.character(code);
        } else {
            self.write_glyph(cell.glyph, goes_on);
        }
        self.pass(1);
    }

    /// Writes a run of cells, beginning at the cursor. Its cells differ from the old ones and aren't blank. They have
    /// the brush of the first cell, and are of the set in GL. Returns the number of cells.
    pub(crate) fn write_run(&mut self, old: &[Cell], new: &[Cell]) -> usize
        requires some { 1 ≤ length new.now }
        requires len { length old.now ≡ length new.now }
        ensures some { 1 ≤ result }
        ensures within { result ≤ length new.now }
    {
        self.write(&new[0], goes_on(old, new));
        // A blank cell is left out: a plain space.
        let blank = (self.number == 0) as u8;
        match self.sets.set(self.sets.left()) {
            Set::Ascii => self.write_codes(0x20 + blank, 0x20 + blank, old, new),
            Set::Supplemental => self.write_codes(0xA1, 0x21, old, new),
            Set::Special => self.write_codes(0, 0x60, old, new),
            _ => 1,
        }
    }

    /// Writes the cells of a run after the first one. Their glyphs have codes from `code` up, and `code` is written as
    /// the byte `first`. They differ from the old ones, and have the brush. Returns the number of cells, including the
    /// first.
    fn write_codes(&mut self, code: u8, first: u8, old: &[Cell], new: &[Cell]) -> usize
        requires some { 1 ≤ length new.now }
        requires len { length old.now ≡ length new.now }
        requires first { (0x20 ≤ first) × (first ≤ 0x7E) }
        ensures some { 1 ≤ result }
        ensures within { result ≤ length new.now }
    {
        let low = (self.number << 24).wrapping_add(code as u64);
        let count = self.chosen.characters(low, first, &old[1..], &new[1..]);
        self.pass(count);
        count + 1
    }

    /// Moves the cursor right by `count` cells of its row.
    fn pass(&mut self, count: usize) {
        let col = self.cursor.col.saturating_add(count);
        if col <= self.width {
            self.cursor.col = col;
        } else {
            self.cursor.col = self.width;
            self.cursor.wrap = self.modes.decawm;
        }
    }

    /// Returns whether ASCII is in GL.
    #[inline(always)]
    fn has_ascii(&self) -> bool {
        self.sets.set(self.sets.left()) == Set::Ascii
    }

    /// Writes a glyph that may not be ASCII. It sends one byte if GL shows the glyph. It sends a single shift if the
    /// glyph is alone and G2 or G3 has its set. Otherwise it first brings the set to GL.
    #[inline(never)]
    fn write_glyph(&mut self, glyph: Glyph, goes_on: bool) {
        if let Some(byte) = self.one_byte(glyph) {
            self.chosen.character(byte);
            return;
        }
        let (set, code) = home_of(glyph);
        if goes_on || !self.shift_once(set) {
            self.bring_to_left(set);
        }
        self.chosen.character(code);
    }

    /// Sends SS2 or SS3 if G2 or G3 has a set. Returns whether it did.
    fn shift_once(&mut self, set: Set) -> bool {
        for slot in 2..4u8 {
            if self.sets.set(slot) == set {
                self.chosen.put(Function::single_shift(slot));
                return true;
            }
        }
        false
    }

    /// Brings a set to GL: it locks a slot that has the set, or designates the set in the slot that is in GL.
    fn bring_to_left(&mut self, set: Set) {
        for slot in 0..4u8 {
            if self.sets.set(slot) == set {
                self.lock_left(slot);
                return;
            }
        }
        let left = self.sets.left();
        self.designate(left, set);
    }
}

/// Returns whether the second cell differs from the old one, and is of the same set as the first, which isn't ASCII.
#[inline(always)]
fn goes_on(old: &[Cell], new: &[Cell]) -> bool
    requires some { 1 ≤ length new.now }
    requires len { length old.now ≡ length new.now }
{
    let code = new[0].glyph.code() as u8;
    !(0x20 <= code && code <= 0x7E)
        && new.len() > 1
        && new[1].word() != old[1].word()
        && home_of(new[0].glyph).0 == home_of(new[1].glyph).0
}

/// Returns the set of a glyph's spelling, and its code there.
fn home_of(glyph: Glyph) -> (Set, u8) {
    match glyph.spelling() {
        Spelling::Plain(code) => (Set::Ascii, code),
        Spelling::Second(code) => (Set::Supplemental, code),
        Spelling::Third(code) => (Set::Special, code),
    }
}
