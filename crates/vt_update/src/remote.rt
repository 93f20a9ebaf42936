//! The other side: its state without its cells. Each method sends bytes, and changes the state as they change a
//! terminal.
//!
//! All cells before the current position are already those of the target.
use crate::chosen::Chosen;
use vt_glyph::Sets;
use vt_screen::Brush;
use vt_term::{Cursor, Margins, Modes, Saved, SizedTerminal};

/// The state of the other side without its cells, and the bytes chosen so far.
#[derive(Drop)]
pub(crate) struct Remote {
    pub(crate) chosen: Chosen,
    pub(crate) width: usize,
    pub(crate) cursor: Cursor,
    pub(crate) brush: Brush,
    /// The brush as a number.
    pub(crate) number: u64,
    pub(crate) sets: Sets,
    pub(crate) margins: Margins,
    pub(crate) modes: Modes,
    pub(crate) saved: Saved,
}

impl Remote {
    /// Returns the other side before the first byte.
    pub(crate) fn new(shown: &SizedTerminal) -> Remote {
        let brush = shown.brush();
        Remote {
            chosen: Chosen::new(),
            width: shown.width(),
            cursor: shown.cursor(),
            brush,
            number: brush.number(),
            sets: *shown.sets(),
            margins: shown.margins(),
            modes: shown.modes(),
            saved: shown.saved(),
        }
    }
}

/// Returns a number as a parameter. On a sound terminal each is at most 255.
pub(crate) fn number(n: usize) -> u8 {
    n.min(0xFF) as u8
}
