//! Kinds of cells with wide characters.
ghost use Rattle.std.specs.Prelude.{◌≡◌};
ghost use Rattle.vt_wide.specs.Kinds.{WideOf, IsLetter, IsNarrow, AreHalves, KeepsWhole};

use vt_screen::Cells;

/// A type of cells of which two next to each other can be a wide character.
pub trait Wide: Cells {
    /// What is done to the cells of wide characters, for contracts.
    ghost wide: { WideOf Self };

    /// Returns whether it is the first cell of a wide character.
    fn is_wide(self) -> bool
        ensures { result ≡ wide.is_wide self };

    /// Returns whether it is the second cell of a wide character.
    fn is_second(self) -> bool
        ensures { result ≡ wide.is_second self };

    /// Returns the second cell of the wide character that this cell begins. It has the same look.
    fn second(self) -> Self
        ensures { result ≡ wide.second self };

    /// Returns the cell after a mark joins its character.
    fn marked(self, mark: char) -> Self
        ensures { result ≡ wide.marked self mark };

    /// Returns a space with the look of this cell.
    fn spaced(self) -> Self
        ensures { result ≡ wide.spaced self };

    /// Returns the cell that this pen writes for an ASCII character, 20 to 7E.
    fn with_byte(self, byte: u8) -> Self
        requires { IsLetter byte }
        ensures { result ≡ wide.with_byte self byte };

    /// A cell is at most one half of a wide character.
    ghost halves: { AreHalves wide };

    /// A blank cell is no half of a wide character.
    ghost blank_narrow: { IsNarrow wide Self.cells.blank };

    /// A selective erase leaves a wide character as it is, or nothing of it.
    ghost erased_whole: { KeepsWhole wide Self.cells.selectively_erased };
}
