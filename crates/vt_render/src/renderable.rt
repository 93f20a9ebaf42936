//! What is read of a terminal.
ghost use Rattle.std.specs.Prelude.{◌≡◌, ◌≤◌};
ghost use Rattle.vt_screen.specs.declared.size.Size.{Size as SizeOf};
ghost use Rattle.vt_screen.specs.Sizes.{IsSize};

use vt_screen::{MOST, Size};
use vt_term::{Cursor, Modes};
use vt_xterm_cell::XtermCell;

/// A terminal whose screen can be rendered.
pub trait Renderable {
    /// The size of its screen.
    ghost size_of: { Self → SizeOf };

    /// Returns the size of the screen.
    fn size(&self) -> Size
        ensures size { result ≡ size_of self.now }
        ensures sound { IsSize (size_of self.now) };

    /// Writes the cells of a row, from 1, into the first places of `cells`, as an xterm's cells without protection. Returns how many they
    /// are.
    fn read_row(&self, row: usize, cells: &mut [XtermCell; MOST]) -> usize
        requires { (1 ≤ row) × (row ≤ (size_of self.now).rows) }
        ensures { result ≤ (size_of self.now).wide };

    /// Returns the cursor.
    fn cursor(&self) -> Cursor
        ensures row { (1 ≤ result.row) × (result.row ≤ (size_of self.now).rows) }
        ensures col { (1 ≤ result.col) × (result.col ≤ (size_of self.now).wide) };

    /// Returns the modes.
    fn modes(&self) -> Modes;

    /// Returns whether it is an xterm. Otherwise its cells have nothing but what a VT220's have.
    fn is_xterm(&self) -> bool;
}
