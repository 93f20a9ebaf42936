//! A VT220's screen.
ghost use Rattle.std.specs.Prelude.{◌≡◌, ◌≤◌, length};

use crate::renderable::Renderable;
use vt_screen::{MOST, Size};
use vt_term::{Cursor, Modes, SizedTerminal};
use vt_xterm_cell::{Attributes, Colour, Look, XtermCell};

impl Renderable for SizedTerminal {
    ghost size_of = { λ t. t.display.grid.size };

    fn size(&self) -> Size {
        SizedTerminal::size(self)
    }

    fn read_row(&self, row: usize, cells: &mut [XtermCell; MOST]) -> usize {
        let _ = SizedTerminal::size(self);
        let read = self.row(row);
        for (i, cell) in read.iter().enumerate() {
            let look = Look {
                foreground: Colour::Default,
                background: Colour::Default,
                attributes: Attributes {
                    bold: cell.rendition.bold,
                    faint: false,
                    italic: false,
                    underlined: cell.rendition.underline,
                    doubly_underlined: false,
                    blinking: cell.rendition.blink,
                    reverse: cell.rendition.reverse,
                    invisible: false,
                    crossed_out: false,
                },
                protected: false,
            };
            cells[i] = XtermCell::space(look).written(cell.glyph);
        }
        read.len()
    }

    fn cursor(&self) -> Cursor {
        let _ = self.width();
        SizedTerminal::cursor(self)
    }

    fn modes(&self) -> Modes {
        SizedTerminal::modes(self)
    }

    fn is_xterm(&self) -> bool {
        false
    }
}
