//! Kinds of terminals by their cells.
ghost use Rattle.std.specs.Prelude.{◌≡◌, ◌↔◌, ◌≤◌, IsTrue};
ghost use Rattle.vt_syntax.specs.Front.{front_list};
ghost use Rattle.vt_term.specs.Kinds.{OwnOf};

use crate::rendition::{with_attributes, with_front};
use vt_glyph::Glyph;
use vt_screen::{Brush, Cell, Cells};
use vt_syntax::FrontValues;

/// A kind of terminal, by the cells of its screen. A pen is a cell, too: the one that a space becomes.
pub trait Kind: Cells {
    /// What a cell is written with.
    type Brush: Copy + Drop;

    /// What is done to cells and brushes, for contracts.
    ghost own: { OwnOf Self Self.Brush };

    /// Returns the brush that writes cells like this one.
    fn brush(self) -> Self::Brush
        ensures { result ≡ own.brush_of self };

    /// Returns the pen of the plain brush.
    fn plain() -> Self
        ensures { own.brush_of result ≡ own.plain };

    /// Returns the pen of a brush.
    fn of_brush(brush: Self::Brush) -> Self
        ensures { own.brush_of result ≡ brush };

    /// Returns the cell that the pen writes for a glyph.
    fn written(self, glyph: Glyph) -> Self
        ensures { result ≡ own.written (own.brush_of self) glyph };

    /// Returns the cell that comes in where the pen erases, inserts or scrolls.
    fn emptied(self) -> Self
        ensures { result ≡ own.emptied (own.brush_of self) };

    /// Changes the pen by the parameters of SGR.
    fn attributes(&mut self, params: &[u16])
        ensures { own.brush_of self.new ≡ own.attributes params.now (own.brush_of self.old) };

    /// Changes the pen by one to three parameters of SGR.
    fn front_attributes(&mut self, front: &FrontValues)
        requires few { (1 ≤ front.now.count) × (front.now.count ≤ 3) }
        ensures { own.brush_of self.new ≡ own.attributes (front_list front.now) (own.brush_of self.old) };

    /// Makes the pen protect what it writes, or not.
    fn protection(&mut self, on: bool)
        ensures { own.brush_of self.new ≡ own.protection on (own.brush_of self.old) };

    /// Returns whether two brushes are the same.
    fn same_brush(a: &Self::Brush, b: &Self::Brush) -> bool
        ensures { IsTrue result ↔ (a.now ≡ b.now) };
}

impl Kind for Cell {
    ghost use Rattle.vt_term.specs.Rendition.{vt220_own};

    type Brush = Brush;

    ghost own = { vt220_own };

    #[inline(always)]
    fn brush(self) -> Brush {
        Cell::brush(self)
    }

    #[inline(always)]
    fn plain() -> Cell {
        Cell::blank()
    }

    #[inline(always)]
    fn of_brush(brush: Brush) -> Cell {
        Cell::new(Glyph::blank(), brush)
    }

    #[inline(always)]
    fn written(self, glyph: Glyph) -> Cell {
        Cell::new(glyph, Cell::brush(self))
    }

    #[inline(always)]
    fn emptied(self) -> Cell {
        Cell::blank()
    }

    #[inline(always)]
    fn attributes(&mut self, params: &[u16]) {
        with_attributes(self, params);
    }

    #[inline(always)]
    fn front_attributes(&mut self, front: &FrontValues) {
        with_front(self, front);
    }

    #[inline(always)]
    fn protection(&mut self, on: bool) {
        self.protected = on;
    }

    #[inline(always)]
    fn same_brush(a: &Brush, b: &Brush) -> bool {
        a.rendition == b.rendition && a.protected == b.protected
    }
}
