//! The glyph that is shown for a character.
ghost use Rattle.std.specs.Prelude.{◌≡◌};
ghost use Rattle.vt_utf8.specs.Showing.{shown_as};

use crate::similar::code_of;
use crate::translation::cells;
use vt_glyph::Glyph;

/// Returns the glyph that is shown for a character, or `None` if the character has no cell.
pub fn shown_as(c: char) -> Option<Glyph>
    ensures { result ≡ shown_as c }
{
    if (c as u32) < 0x80 {
        if ' ' <= c && c <= '~' {
            Some(Glyph::ascii(c as u8))
        } else {
            None
        }
    } else if cells(c) == 0 {
        None
    } else {
        Some(Glyph::encoded(code_of(c)))
    }
}
