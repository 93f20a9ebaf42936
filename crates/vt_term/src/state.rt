//! The small parts of a terminal's state.
ghost use Rattle.std.specs.Prelude.{◌≡◌};
ghost use Rattle.std.specs.Prelude.{false};
ghost use Rattle.vt_glyph.specs.Invocation.{sets_at_power_up};
ghost use Rattle.vt_term.specs.State.{at_place, modes_at_power_up, saved_at_power_up, saved_of};

use vt_glyph::{Set, Sets};
use vt_screen::Brush;

/// The cursor: the position of the next glyph. Rows and columns count from 1. A VT220 has 24 rows.
#[derive(Clone, Copy, Debug, PartialEq, Eq)]
pub struct Cursor {
    /// The row, 1 to the last one.
    pub row: usize,
    /// The column, 1 to the width.
    pub col: usize,
    /// The wrap flag: a glyph was written in the last column, and the next one begins a new line.
    pub wrap: bool,
}

impl Cursor {
    /// Returns the cursor at a row and a column, with the wrap flag reset.
    pub(crate) fn at(row: usize, col: usize) -> Cursor
        ensures { result ≡ at_place row col }
    {
        Cursor {
            row,
            col,
            wrap: false,
        }
    }
}

/// The scroll region: its first and last row, both from 1 to the screen's last one. The first is above the last.
#[derive(Clone, Copy, Debug, PartialEq, Eq)]
pub struct Margins {
    /// The first row, 1 or more.
    pub top: usize,
    /// The last row, 24 or less on a VT220.
    pub bottom: usize,
}

impl Margins {
    /// Returns the margins of a whole screen of so many rows.
    pub(crate) fn full(rows: usize) -> Margins
        ensures { result ≡ record { top = 1; bottom = rows } }
    {
        Margins {
            top: 1,
            bottom: rows,
        }
    }
}

/// The modes, named as in the manual: true if set. IRM, LNM, DECOM, DECAWM and the form of reports change what later
/// bytes do. The others are kept for programs that draw the screen or have a keyboard. (VT220 manual, chapter 4)
#[derive(Clone, Copy, Debug, PartialEq, Eq)]
pub struct Modes {
    /// The keyboard is locked.
    pub kam: bool,
    /// A glyph moves the rest of its row right, and replaces no cell.
    pub irm: bool,
    /// The terminal doesn't show what is typed by itself.
    pub srm: bool,
    /// LF also goes to column 1.
    pub lnm: bool,
    /// The arrow keys send application sequences.
    pub decckm: bool,
    /// Scrolling is smooth.
    pub decsclm: bool,
    /// The screen is shown dark on light.
    pub decscnm: bool,
    /// Lines are counted from the top margin, and the cursor stays inside the margins.
    pub decom: bool,
    /// A glyph after the last column begins a new line.
    pub decawm: bool,
    /// Keys repeat.
    pub decarm: bool,
    /// The cursor is shown.
    pub dectcem: bool,
    /// The keypad sends application sequences (DECKPAM).
    pub keypad_application: bool,
    /// Reports begin with an 8-bit control (S8C1T).
    pub reports_8bit: bool,
}

impl Modes {
    /// Returns the modes at power-up: SRM, DECAWM, DECARM and DECTCEM are set.
    pub(crate) fn power_up() -> Modes
        ensures { result ≡ modes_at_power_up }
    {
        Modes {
            kam: false,
            irm: false,
            srm: true,
            lnm: false,
            decckm: false,
            decsclm: false,
            decscnm: false,
            decom: false,
            decawm: true,
            decarm: true,
            dectcem: true,
            keypad_application: false,
            reports_8bit: false,
        }
    }
}

/// The state that DECSC saves. Rows and columns count from 1. The row may be outside the margins.
#[derive(Clone, Copy, Debug, PartialEq, Eq)]
pub struct SavedOf<B> {
    /// The row, 1 to the last one.
    pub row: usize,
    /// The column, 1 to the width.
    pub col: usize,
    /// The wrap flag. It is set only in the last column.
    pub wrap: bool,
    /// The brush.
    pub brush: B,
    /// The sets designated as G0 to G3.
    pub g: [Set; 4],
    /// The number of the set in GL, 0 to 3.
    pub gl: u8,
    /// The number of the set in GR, 1 to 3.
    pub gr: u8,
    /// Whether DECOM was set.
    pub origin: bool,
}

/// What DECSC saves on a VT220.
pub type Saved = SavedOf<Brush>;

impl<B: Copy> SavedOf<B> {
    /// Returns the saved state at power-up with a brush: the cursor in row 1 and column 1 without the wrap flag. The sets
    /// are those of power-up, and DECOM is reset. (This profile)
    pub(crate) fn of_brush(brush: B) -> SavedOf<B>
        ensures { result ≡ saved_of (at_place 1 1) brush sets_at_power_up false }
    {
        let sets = Sets::power_up();
        SavedOf {
            row: 1,
            col: 1,
            wrap: false,
            brush,
            g: sets.designations(),
            gl: sets.left(),
            gr: sets.right(),
            origin: false,
        }
    }
}

impl SavedOf<Brush> {
    /// Returns the saved state at power-up, with the plain brush. (This profile)
    pub fn power_up() -> Saved
        ensures { result ≡ saved_at_power_up }
    {
        SavedOf::of_brush(Brush::plain())
    }
}
