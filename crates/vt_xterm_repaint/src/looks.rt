//! Writing looks: SGR and DECSCA.
ghost use Rattle.std.specs.Prelude.{◌≡◌, ℕ, [], ◌∷◌, ◌+◌, ◌≤◌, ◌++◌, not, ◌==◌, map, length, decimal, vec_len, vec_capacity};
ghost use Rattle.std.specs.List.{join_with_byte};
ghost use Rattle.vt_syntax.specs.Spelling.{spell_event};
ghost use Rattle.vt_term.specs.Functions.{byte};
ghost use Rattle.vt_screen.specs.Same.{when};
ghost use Rattle.vt_feed.specs.Actions.{Function};
ghost use Rattle.vt_feed.specs.Spelled.{spell};
ghost use Rattle.vt_paint.specs.Controls.{sequence_of};
ghost use Rattle.vt_xterm_repaint.specs.Looks.{attribute_values, colour_values, both_colours, look_actions};

use vt_paint::{Function as ControlFunction, push_bytes, push_number, push_when};
use vt_xterm_cell::{Attributes, Colour, Look};

/// The capacity for a look: the most bytes that `push_look` appends.
pub const LOOK_LIMIT: usize = 66;

/// Appends SGR that resets all attributes, and sets these.
pub fn push_attributes(a: Attributes, out: &mut Vec<u8>)
    requires { vec_len out.old + 23 ≤ vec_capacity out.old }
    ensures items { out.new.items ≡ out.old.items ++ spell_event (sequence_of (attribute_values a) (byte "m")) }
    ensures bounded { vec_len out.new ≤ vec_len out.old + 23 }
    ensures capacity { vec_capacity out.old ≤ vec_capacity out.new }
{
    push_bytes(b"\x1B[0", out);
    push_when(a.bold, b";1", out);
    push_when(a.faint, b";2", out);
    push_when(a.italic, b";3", out);
    push_when(a.underlined, b";4", out);
    push_when(a.doubly_underlined, b";21", out);
    push_when(a.blinking, b";5", out);
    push_when(a.reverse, b";7", out);
    push_when(a.invisible, b";8", out);
    push_when(a.crossed_out, b";9", out);
    push_bytes(b"m", out);
}

/// Appends the values of a colour, with `;` between them. `eight` is the value of the first of eight colours: 30 or 40.
fn push_colour(eight: u8, colour: Colour, out: &mut Vec<u8>)
    requires eight { eight ≤ 40 }
    requires room { vec_len out.old + 17 ≤ vec_capacity out.old }
    ensures items { out.new.items ≡ out.old.items ++ join_with_byte 0x3B (map decimal (colour_values eight colour)) }
    ensures bounded { vec_len out.new ≤ vec_len out.old + 17 }
    ensures capacity { vec_capacity out.old ≤ vec_capacity out.new }
{
    match colour {
        Colour::Default => {}
        Colour::Indexed(index) => {
            if index < 8 {
                push_number(eight + index, out);
            } else if index < 16 {
                push_number(eight + 60 + (index - 8), out);
            } else {
                push_number(eight + 8, out);
                push_bytes(b";5;", out);
                push_number(index, out);
            }
        }
        Colour::Rgb(red, green, blue) => {
            push_number(eight + 8, out);
            push_bytes(b";2;", out);
            push_number(red, out);
            push_bytes(b";", out);
            push_number(green, out);
            push_bytes(b";", out);
            push_number(blue, out);
        }
    }
}

/// Returns whether a colour is the default, which has no values.
#[inline(always)]
fn is_default(colour: Colour) -> bool
    ensures { (eight : ℕ) → result ≡ (length (colour_values eight colour) == 0) }
{
    match colour {
        Colour::Default => true,
        Colour::Indexed(_) => false,
        Colour::Rgb(_, _, _) => false,
    }
}

/// Appends SGR of the colours, if one of them isn't the default.
pub fn push_colours(look: Look, out: &mut Vec<u8>)
    requires { vec_len out.old + 38 ≤ vec_capacity out.old }
    ensures items { out.new.items ≡ out.old.items
        ++ spell (when (not (length (both_colours look) == 0)) (Function (sequence_of (both_colours look) (byte "m")) ∷ [])) }
    ensures bounded { vec_len out.new ≤ vec_len out.old + 38 }
    ensures capacity { vec_capacity out.old ≤ vec_capacity out.new }
{
    let none_in_front = is_default(look.foreground);
    let none_behind = is_default(look.background);
    if none_in_front && none_behind {
        return;
    }
    push_bytes(b"\x1B[", out);
    push_colour(30, look.foreground, out);
    push_when(!none_in_front && !none_behind, b";", out);
    push_colour(40, look.background, out);
    push_bytes(b"m", out);
}

/// Appends the control functions that select a look: SGR and DECSCA. `out` has capacity for them.
#[tactic(auto, unfolding(crate::specs::Looks::look_actions))]
pub fn push_look(look: Look, out: &mut Vec<u8>)
    requires { vec_len out.old + LOOK_LIMIT ≤ vec_capacity out.old }
    ensures items { out.new.items ≡ out.old.items ++ spell (look_actions look) }
    ensures bounded { vec_len out.new ≤ vec_len out.old + LOOK_LIMIT }
    ensures capacity { vec_capacity out.old ≤ vec_capacity out.new }
{
    push_attributes(look.attributes, out);
    push_colours(look, out);
    ControlFunction::protection(look.protected).push(out);
}
