//! The xterm's kind of terminal, by its cells.
ghost use Rattle.std.specs.Prelude.{◌≡◌, ◌≤◌, ◌↔◌, IsTrue};

use crate::cell::XtermCell;
use crate::look::Look;
use vt_glyph::Glyph;
use vt_syntax::FrontValues;
use vt_term::Kind;

impl Kind for XtermCell {
    ghost use Rattle.vt_xterm_cell.specs.Kinds.{xterm_own};

    type Brush = Look;

    ghost own = { xterm_own };

    #[inline(always)]
    fn brush(self) -> Look {
        self.look()
    }

    #[inline(always)]
    fn plain() -> XtermCell {
        XtermCell::blank()
    }

    #[inline(always)]
    fn of_brush(brush: Look) -> XtermCell {
        XtermCell::space(brush)
    }

    #[inline(always)]
    fn written(self, glyph: Glyph) -> XtermCell {
        XtermCell::written(self, glyph)
    }

    #[inline(always)]
    fn emptied(self) -> XtermCell {
        self.erased()
    }

    #[inline(always)]
    fn attributes(&mut self, params: &[u16]) {
        self.render(params);
    }

    #[inline(always)]
    fn front_attributes(&mut self, front: &FrontValues) {
        let params = [front.first, front.second, front.third];
        self.render(&params[..front.count]);
    }

    #[inline(always)]
    fn protection(&mut self, on: bool) {
        self.set_protected(on);
    }

    #[inline(always)]
    fn same_brush(a: &Look, b: &Look) -> bool {
        XtermCell::space(*a).same(&XtermCell::space(*b))
    }
}
