//! The brush, the sets and a glyph, in the 7-bit forms of their control functions. The output has capacity for each.
ghost use Rattle.std.specs.Prelude.{◌≡◌, ◌+◌, ◌≤◌, ◌<◌, ◌++◌, ◌∷◌, [], None, slice_index_or, vec_len, vec_capacity};
ghost use Rattle.vt_syntax.specs.declared.event.Event.TheVariants.{Print};
ghost use Rattle.vt_syntax.specs.Spelling.{spell_events};
ghost use Rattle.vt_glyph.specs.declared.set.Set.TheVariants.{Ascii};
ghost use Rattle.vt_glyph.specs.Spell.{spelling_of};
ghost use Rattle.vt_paint.specs.Controls.{brush_events, sets_events, shift_to, spelling_events};

use crate::bytes::push_bytes;
use crate::function::Function;
use crate::tables::brush_part;
use vt_glyph::{Glyph, Set, Spelling};
use vt_screen::Brush;

/// Appends SGR and DECSCA.
pub(crate) fn push_brush(brush: Brush, out: &mut Vec<u8>)
    requires { vec_len out.old + 17 ≤ vec_capacity out.old }
    ensures items { out.new.items ≡ out.old.items ++ spell_events (brush_events brush) }
    ensures bounded { vec_len out.new ≤ vec_len out.old + 17 }
    ensures capacity { vec_capacity out.old ≤ vec_capacity out.new }
{
    let (rest, len) = brush_part(brush.number());
    push_bytes(b"\x1B[0", out);
    push_bytes(&rest[..len], out);
}

/// Returns the set in a slot, 0 to 3.
fn set_in(g: &[Set; 4], slot: usize) -> Set
    requires { slot < 4 }
    ensures { result ≡ slice_index_or g.now slot Ascii }
{
    g[slot]
}

/// Appends the designations of G0 to G3, and then the locking shifts into GL and GR. Slots are those of
/// [`Sets`](vt_glyph::Sets).
pub(crate) fn push_sets(g: &[Set; 4], left: u8, right: u8, out: &mut Vec<u8>)
    requires { vec_len out.old + 16 ≤ vec_capacity out.old }
    ensures items { out.new.items
        ≡ out.old.items
        ++ spell_events (sets_events (record { g = g.now; left = left; right = right; pending = None })) }
    ensures bounded { vec_len out.new ≤ vec_len out.old + 16 }
    ensures capacity { vec_capacity out.old ≤ vec_capacity out.new }
{
    Function::designation(0, set_in(g, 0)).push(out);
    Function::designation(1, set_in(g, 1)).push(out);
    Function::designation(2, set_in(g, 2)).push(out);
    Function::designation(3, set_in(g, 3)).push(out);
    Function::lock_left(left).push(out);
    Function::lock_right(right).push(out);
}

/// Appends a code after a single shift.
fn push_shifted(slot: u8, code: u8, out: &mut Vec<u8>)
    requires { vec_len out.old + 3 ≤ vec_capacity out.old }
    ensures items { out.new.items ≡ out.old.items ++ spell_events (shift_to slot ∷ Print code ∷ []) }
    ensures bounded { vec_len out.new ≤ vec_len out.old + 3 }
    ensures capacity { vec_capacity out.old ≤ vec_capacity out.new }
{
    Function::single_shift(slot).push(out);
    push_bytes(&[code], out);
}

/// Appends a glyph, if the sets are those of its spelling.
#[inline(always)]
pub(crate) fn push_glyph(glyph: Glyph, out: &mut Vec<u8>)
    requires { vec_len out.old + 3 ≤ vec_capacity out.old }
    ensures items { out.new.items ≡ out.old.items ++ spell_events (spelling_events (spelling_of glyph)) }
    ensures bounded { vec_len out.new ≤ vec_len out.old + 3 }
    ensures capacity { vec_capacity out.old ≤ vec_capacity out.new }
{
    match glyph.spelling() {
        Spelling::Plain(code) => push_bytes(&[code], out),
        Spelling::Second(code) => push_shifted(2, code, out),
        Spelling::Third(code) => push_shifted(3, code, out),
    }
}
