//! Writing characters in UTF-8.
ghost use Rattle.std.specs.Prelude.{◌≡◌, [], ◌∷◌, ◌+◌, ◌≤◌, ◌++◌, vec_len, vec_capacity};
ghost use Rattle.std.specs.Char.{IsScalar};
ghost use Rattle.vt_feed.specs.Spelled.{spell};
ghost use Rattle.vt_xterm_repaint.specs.Cells.{character_action, mark_actions, glyph_actions};

use vt_paint::push_bytes;
use vt_screen::Cells;
use vt_xterm_cell::XtermCell;

/// The capacity for a cell's character and its marks: the most bytes that `push_glyph` appends.
pub const GLYPH_LIMIT: usize = 12;

/// Appends a character, given its Unicode number. `out` has capacity for it.
fn push_character(number: u32, out: &mut Vec<u8>)
    requires scalar { IsScalar number }
    requires room { vec_len out.old + 4 ≤ vec_capacity out.old }
    ensures items { out.new.items ≡ out.old.items ++ spell (character_action number ∷ []) }
    ensures bounded { vec_len out.new ≤ vec_len out.old + 4 }
    ensures capacity { vec_capacity out.old ≤ vec_capacity out.new }
{
    if let Some(c) = char::from_u32(number) {
        let mut bytes = [0; 4];
        push_bytes(c.encode_utf8(&mut bytes).as_bytes(), out);
    }
}

/// Appends a mark, given its Unicode number, if it isn't 0. `out` has capacity for it.
fn push_mark(number: u32, out: &mut Vec<u8>)
    requires scalar { IsScalar number }
    requires room { vec_len out.old + 4 ≤ vec_capacity out.old }
    ensures items { out.new.items ≡ out.old.items ++ spell (mark_actions number) }
    ensures bounded { vec_len out.new ≤ vec_len out.old + 4 }
    ensures capacity { vec_capacity out.old ≤ vec_capacity out.new }
{
    if number != 0 {
        push_character(number, out);
    }
}

/// Appends the character of a cell and its marks. `out` has capacity for them.
pub fn push_glyph(cell: XtermCell, out: &mut Vec<u8>)
    requires { vec_len out.old + GLYPH_LIMIT ≤ vec_capacity out.old }
    ensures items { out.new.items ≡ out.old.items ++ spell (glyph_actions cell) }
    ensures bounded { vec_len out.new ≤ vec_len out.old + GLYPH_LIMIT }
    ensures capacity { vec_capacity out.old ≤ vec_capacity out.new }
{
    cell.is_sound();
    push_character(cell.character(), out);
    push_mark(cell.mark(), out);
    push_mark(cell.other_mark(), out);
}
