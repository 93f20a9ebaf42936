//! The looks of the cells of two screens.
ghost use Rattle.std.specs.Prelude.{◌≡◌};
ghost use Rattle.vt_picture.specs.Draw.{shown_rendition, shown_cell};
ghost use Rattle.vt_picture.specs.Private.Looks.{former_cell, keeps, latter_cell};

use vt_screen::{Cell, Rendition};

/// What decides how the cells of the former screen and of the new one are shown.
#[derive(Clone, Copy)]
pub(crate) struct Looks {
    /// Whether the former screen was erased.
    pub erased: bool,
    /// Whether the former screen is reverse.
    pub was_reversed: bool,
    /// Whether the new screen is reverse.
    pub is_reversed: bool,
}

/// Returns the attributes that are shown: on a reverse screen `reverse` is inverted.
fn shown_rendition(reversed: bool, look: Rendition) -> Rendition
    ensures { result ≡ shown_rendition reversed look }
{
    Rendition {
        bold: look.bold,
        underline: look.underline,
        blink: look.blink,
        reverse: if reversed {
            !look.reverse
        } else {
            look.reverse
        },
    }
}

/// Returns the glyph and the attributes that a cell shows, without protection.
fn shown_cell(reversed: bool, cell: &Cell) -> Cell
    ensures { result ≡ shown_cell reversed cell.now }
{
    Cell {
        glyph: cell.glyph,
        rendition: shown_rendition(reversed, cell.rendition),
        protected: false,
    }
}

impl Looks {
    /// Returns what is shown of a cell of the former screen.
    pub(crate) fn former(&self, cell: &Cell) -> Cell
        ensures { result ≡ former_cell self.now cell.now }
    {
        if self.erased {
            Cell::blank()
        } else {
            shown_cell(self.was_reversed, cell)
        }
    }

    /// Returns whether equal cells are shown as before.
    pub(crate) fn keeps(&self) -> bool
        ensures { result ≡ keeps self.now }
    {
        !self.erased && self.was_reversed == self.is_reversed
    }

    /// Returns what is shown of a cell of the new screen.
    pub(crate) fn latter(&self, cell: &Cell) -> Cell
        ensures { result ≡ latter_cell self.now cell.now }
    {
        shown_cell(self.is_reversed, cell)
    }
}
