//! Readers of each part of a terminal's state.
ghost use Rattle.std.specs.Prelude.{◌≡◌, ◌↔◌, ◌≤◌, ◌⊎◌, IsTrue, true, false, length};
ghost use Rattle.vt_syntax.specs.Held.{IsHeldPart};
ghost use Rattle.vt_syntax.specs.declared.held.Held.TheVariants.{Nothing};
ghost use Rattle.vt_screen.specs.Grid.{row_of};
ghost use Rattle.vt_term.specs.Sound.{IsSoundSized};

use crate::sized::SizedTerminal;
use crate::state::{Cursor, Margins, Modes, Saved};
use vt_glyph::Sets;
use vt_screen::{Brush, Cell};
use vt_syntax::{Held, Parser};

impl SizedTerminal {
    /// Returns the cells of a row, from 1: as many as the screen is wide.
    pub fn row(&self, row: usize) -> &[Cell]
        requires { (1 ≤ row) × (row ≤ self.now.display.grid.size.rows) }
        ensures cells { result.now ≡ row_of self.now.display.grid row }
        ensures len { length result.now ≡ self.now.display.grid.width }
        ensures width { (length result.now ≡ self.now.display.grid.size.narrow) ⊎ (length result.now ≡ self.now.display.grid.size.wide) }
    {
        self.display.screen.row(row)
    }

    /// Returns the number of columns: those of the narrow or of the wide screen.
    pub fn width(&self) -> usize
        ensures width { result ≡ self.now.display.grid.width }
        ensures sound { IsSoundSized self.now }
    {
        self.soundness();
        self.display.screen.width()
    }

    /// Returns the cursor: the position of the next glyph, and whether it begins a new line.
    pub fn cursor(&self) -> Cursor
        ensures cursor { result ≡ self.now.display.cursor }
        ensures sound { IsSoundSized self.now }
    {
        self.soundness();
        self.display.cursor
    }

    /// Returns the brush: the attributes and the protection of the next glyph.
    pub fn brush(&self) -> Brush
        ensures { result ≡ self.now.display.brush }
    {
        self.display.pen.brush()
    }

    /// Returns the graphic sets, designated and invoked.
    pub fn sets(&self) -> &Sets
        ensures sets { result.now ≡ self.now.display.sets }
    {
        &self.display.sets
    }

    /// Returns the scroll region: the whole screen, unless DECSTBM set another.
    pub fn margins(&self) -> Margins
        ensures { result ≡ self.now.display.margins }
    {
        self.display.margins
    }

    /// Returns the tab stops: index c - 1 for column c, from 1 to the last one of the wide screen at any width.
    pub fn stops(&self) -> &[bool]
        ensures { result.now ≡ self.now.display.stops }
    {
        self.display.stops()
    }

    /// Returns the modes, with those of the keypad and of the form of reports.
    pub fn modes(&self) -> Modes
        ensures { result ≡ self.now.display.modes }
    {
        self.display.modes
    }

    /// Returns the state that DECRC restores: what DECSC saved last, or after a reset what is saved at power-up.
    ///
    /// A later change of the columns (DECCOLM) has brought its column inside the width, and has reset its wrap flag.
    pub fn saved(&self) -> Saved
        ensures { result ≡ self.now.display.saved }
    {
        self.display.saved
    }

    /// Returns the held part: what decides how an unfinished sequence goes on.
    pub fn held(&self) -> &Held
        ensures held { result.now ≡ self.now.held }
        ensures held_part { IsHeldPart self.now.held }
    {
        self.parser.held()
    }

    /// Returns a parser with the same held part. It reads the following bytes as the terminal does.
    pub fn parser(&self) -> Parser
        ensures { result ≡ self.now.held }
    {
        self.parser.copied()
    }

    /// Returns whether the terminal is between sequences.
    pub fn is_between(&self) -> bool
        ensures { IsTrue result ↔ (self.now.held ≡ Nothing) }
    {
        self.parser.is_between()
    }

    /// Returns whether the two terminals are in the same state, the held part included.
    pub fn same_state(&self, other: &SizedTerminal) -> bool
        ensures { IsTrue result ↔ (self.now ≡ other.now) }
    {
        self.display.same(&other.display) && self.parser.held() == other.parser.held()
    }
}
