//! The repaint of a session of any size.
ghost use Rattle.std.specs.Prelude.{◌≡◌, ◌+◌, ◌-◌, ◌≤◌, ◌<◌, ◌++◌, ◌∷◌, [], true};
ghost use Rattle.std.specs.Prelude.{vec_len, vec_capacity, IfSome};
ghost use Rattle.vt_syntax.specs.declared.held.Held.TheVariants.{Nothing};
ghost use Rattle.vt_syntax.specs.Spelling.{spell_events};
ghost use Rattle.vt_screen.specs.Sizes.{IsSize};
ghost use Rattle.vt_paint.specs.Controls.{private_mode};
ghost use Rattle.vt_paint.specs.Limits.{paint_limit};
ghost use Rattle.vt_paint.specs.Repaint.{made_events};
ghost use Rattle.vt_xterm.specs.Sides.{FitsSides};
ghost use Rattle.vt_xterm.specs.Play.{IsSoundWholeAt, behind};
ghost use Rattle.vt_xterm_paint.specs.Repaint.{other_shown, showing_other, paste_item, xterm_repaint, xterm_paint_limit, IsRebuiltAt};
ghost use Rattle.vt_xterm_paint.specs.Repaint.{sent_sides, sides_to, sides_item, column_named, is_wrapping, shown_events};

use crate::laws::sized_rebuilds;
use vt_paint::sized::{
    paint_limit, repaint_first_reserved, repaint_items_reserved, repaint_placed_reserved,
};
use vt_paint::{DECCOLM, Function, PAINT_LIMIT, push_bytes, push_number};
use vt_term::{Size, SizedTerminal};
use vt_xterm::{Sides, SizedFront};

/// The limit of a repaint of a VT220's size in bytes: that of a VT220's repaint for each of two pages, and 52. These
/// are for what is between and after the pages, and for the left and right margins.
pub const XTERM_PAINT_LIMIT: usize = 2 * PAINT_LIMIT + 52;

const _: () = prove!(XTERM_PAINT_LIMIT == 187076);

/// Appends ?40: whether DECCOLM has an effect.
fn push_resizes(on: bool, out: &mut Vec<u8>)
    requires { vec_len out.old + 6 ≤ vec_capacity out.old }
    ensures items { out.new.items ≡ out.old.items ++ spell_events (private_mode 40 on ∷ []) }
    ensures bounded { vec_len out.new ≤ vec_len out.old + 6 }
    ensures capacity { vec_capacity out.old ≤ vec_capacity out.new }
{
    if on {
        push_bytes(b"\x1B[?40h", out);
    } else {
        push_bytes(b"\x1B[?40l", out);
    }
}

/// Appends ?47: shows the alternate page, or the main one.
fn push_page(alternate: bool, out: &mut Vec<u8>)
    requires { vec_len out.old + 6 ≤ vec_capacity out.old }
    ensures items { out.new.items ≡ out.old.items ++ spell_events (private_mode 47 alternate ∷ []) }
    ensures bounded { vec_len out.new ≤ vec_len out.old + 6 }
    ensures capacity { vec_capacity out.old ≤ vec_capacity out.new }
{
    if alternate {
        push_bytes(b"\x1B[?47h", out);
    } else {
        push_bytes(b"\x1B[?47l", out);
    }
}

/// Appends ?2004, if pasted text is wanted in brackets.
fn push_paste(brackets: bool, out: &mut Vec<u8>)
    requires { vec_len out.old + 8 ≤ vec_capacity out.old }
    ensures items { out.new.items ≡ out.old.items ++ spell_events (paste_item brackets) }
    ensures bounded { vec_len out.new ≤ vec_len out.old + 8 }
    ensures capacity { vec_capacity out.old ≤ vec_capacity out.new }
{
    if brackets {
        push_bytes(b"\x1B[?2004h", out);
    }
}

/// States that a terminal and the page that isn't shown are sound, if the left and right margins fit the screen, for proofs. `scratch`
/// shows a copy of that page.
fn soundness(t: &SizedTerminal, front: &SizedFront, scratch: &SizedTerminal)
    requires size { front.now.pages.other.grid.size ≡ t.now.display.grid.size }
    requires scratch { scratch.now.display ≡ other_shown front.now.pages }
    ensures { FitsSides t.now.display front.now.pages.sides
        → IsSoundWholeAt t.now.display.grid.size (behind t.now front.now) }
{
    t.soundness();
    scratch.soundness();
}

/// Appends the items of the page that isn't shown, of the size of `t`. `scratch` then shows a copy of it.
fn push_hidden(
    t: &SizedTerminal,
    front: &SizedFront,
    scratch: &mut SizedTerminal,
    out: &mut Vec<u8>,
)
    requires size { front.now.pages.other.grid.size ≡ t.now.display.grid.size }
    requires scratch { scratch.old.display.grid.size ≡ t.now.display.grid.size }
    requires room { vec_len out.old + (paint_limit t.now.display.grid.size - 2) ≤ vec_capacity out.old }
    ensures sound { FitsSides t.now.display front.now.pages.sides
        → IsSoundWholeAt t.now.display.grid.size (behind t.now front.now) }
    ensures scratch { scratch.new ≡ showing_other front.now.pages }
    ensures items { out.new.items ≡ out.old.items ++ spell_events (made_events (other_shown front.now.pages)) }
    ensures bounded { vec_len out.new ≤ vec_len out.old + (paint_limit t.now.display.grid.size - 2) }
    ensures capacity { vec_capacity out.old ≤ vec_capacity out.new }
{
    show_other(front, scratch);
    soundness(t, front, scratch);
    repaint_items_reserved(scratch, out);
}

/// Makes `scratch` show a copy of the page that isn't shown.
fn show_other(front: &SizedFront, scratch: &mut SizedTerminal)
    requires { scratch.old.display.grid.size ≡ front.now.pages.other.grid.size }
    ensures { scratch.new ≡ showing_other front.now.pages }
{
    front.show_other(scratch);
}

// ---- the display that is shown

/// Returns the left and right margins, if DECLRMM is set and they have at least two columns of the screen.
fn sent_sides(t: &SizedTerminal, front: &SizedFront) -> Option<Sides>
    ensures sides { result ≡ sent_sides t.now.display.grid.width front.now.pages.sides }
    ensures left { IfSome result (λ m. (1 ≤ m.left) × (m.left ≤ 255)) }
    ensures right { IfSome result (λ m. m.right ≤ 255) }
{
    let Some(sides) = front.sides() else {
        return None;
    };
    let width = t.width();
    if 1 <= sides.left && sides.left < sides.right && sides.right <= width {
        Some(sides)
    } else {
        None
    }
}

/// Appends ?69: DECLRMM is set.
fn push_sided(out: &mut Vec<u8>)
    requires { vec_len out.old + 6 ≤ vec_capacity out.old }
    ensures items { out.new.items ≡ out.old.items ++ spell_events (private_mode 69 true ∷ []) }
    ensures bounded { vec_len out.new ≤ vec_len out.old + 6 }
    ensures capacity { vec_capacity out.old ≤ vec_capacity out.new }
{
    push_bytes(b"\x1B[?69h", out);
}

/// Appends DECSLRM.
fn push_sides_to(left: u8, right: u8, out: &mut Vec<u8>)
    requires { vec_len out.old + 10 ≤ vec_capacity out.old }
    ensures items { out.new.items ≡ out.old.items ++ spell_events (sides_to left right ∷ []) }
    ensures bounded { vec_len out.new ≤ vec_len out.old + 10 }
    ensures capacity { vec_capacity out.old ≤ vec_capacity out.new }
{
    push_bytes(b"\x1B[", out);
    push_number(left, out);
    push_bytes(b";", out);
    push_number(right, out);
    push_bytes(b"s", out);
}

/// Appends ?69 and DECSLRM, if there are left and right margins.
fn push_sides(sides: Option<Sides>, out: &mut Vec<u8>)
    requires left { IfSome sides (λ m. m.left ≤ 255) }
    requires right { IfSome sides (λ m. m.right ≤ 255) }
    requires room { vec_len out.old + 16 ≤ vec_capacity out.old }
    ensures items { out.new.items ≡ out.old.items ++ spell_events (sides_item sides) }
    ensures bounded { vec_len out.new ≤ vec_len out.old + 16 }
    ensures capacity { vec_capacity out.old ≤ vec_capacity out.new }
{
    if let Some(sides) = sides {
        push_sided(out);
        push_sides_to(sides.left as u8, sides.right as u8, out);
    }
}

/// Returns the column that CUP names: under DECOM it is counted from the left margin.
fn column_named(t: &SizedTerminal, sides: Option<Sides>) -> usize
    requires { IfSome sides (λ m. 1 ≤ m.left) }
    ensures column { result ≡ column_named sides t.now.display }
    ensures few { result ≤ 255 }
{
    // For the bound of the column.
    t.soundness();
    let col = t.cursor().col;
    let Some(sides) = sides else {
        return col;
    };
    if t.modes().decom {
        col.saturating_sub(sides.left) + 1
    } else {
        col
    }
}

/// Returns whether a wrap is pending: in the last column, or in that of the right margin.
fn is_wrapping(t: &SizedTerminal, sides: Option<Sides>) -> bool
    ensures { result ≡ is_wrapping sides t.now.display }
{
    let wrap = t.cursor().wrap;
    let Some(sides) = sides else {
        return wrap;
    };
    sides.wrap || wrap
}

/// Appends the items of the display that is shown, and the left and right margins.
fn push_shown(t: &SizedTerminal, front: &SizedFront, out: &mut Vec<u8>)
    requires { vec_len out.old + (paint_limit t.now.display.grid.size + 14) ≤ vec_capacity out.old }
    ensures items { out.new.items ≡ out.old.items
        ++ spell_events (shown_events (sent_sides t.now.display.grid.width front.now.pages.sides) t.now.display) }
    ensures bounded { vec_len out.new ≤ vec_len out.old + (paint_limit t.now.display.grid.size + 14) }
    ensures capacity { vec_capacity out.old ≤ vec_capacity out.new }
{
    let sides = sent_sides(t, front);
    let col = column_named(t, sides);
    let wrap = is_wrapping(t, sides);
    repaint_first_reserved(t, wrap, out);
    push_sides(sides, out);
    repaint_placed_reserved(t, col, wrap, out);
}

// ---- the whole

/// Returns the limit of a repaint of a session in bytes: that of a repaint for each of two pages, and 52. These are for
/// what is between and after the pages, and for the left and right margins.
pub fn xterm_paint_limit(size: Size) -> usize
    requires { IsSize size }
    ensures { result ≡ xterm_paint_limit size }
{
    2 * paint_limit(size) + 52
}

/// Appends the repaint of a session between sequences to `out`, which has capacity for `xterm_paint_limit` more bytes. `scratch` then
/// shows a copy of the page that isn't shown. The pending bytes of UTF-8 are left out. It never fails and allocates nothing.
pub fn repaint_xterm_reserved(
    t: &SizedTerminal,
    front: &SizedFront,
    scratch: &mut SizedTerminal,
    out: &mut Vec<u8>,
)
    requires between { t.now.held ≡ Nothing }
    requires size { front.now.pages.other.grid.size ≡ t.now.display.grid.size }
    requires scratch { scratch.old.display.grid.size ≡ t.now.display.grid.size }
    requires room { vec_len out.old + xterm_paint_limit t.now.display.grid.size ≤ vec_capacity out.old }
    ensures items { out.new.items ≡ out.old.items ++ xterm_repaint (behind t.now front.now) }
    ensures rebuilds { FitsSides t.now.display front.now.pages.sides
        → IsRebuiltAt t.now.display.grid.size (behind t.now front.now) }
    ensures scratch { scratch.new ≡ showing_other front.now.pages }
    ensures bounded { vec_len out.new ≤ vec_len out.old + xterm_paint_limit t.now.display.grid.size }
    ensures capacity { vec_capacity out.old ≤ vec_capacity out.new }
{
    sized_rebuilds();
    let alternate = front.is_alternate();
    push_resizes(true, out);
    Function::reset().push(out);
    push_page(!alternate, out);
    push_hidden(t, front, scratch, out);
    push_page(alternate, out);
    Function::mode(DECCOLM, false).push(out);
    push_shown(t, front, out);
    push_resizes(front.resizes(), out);
    push_paste(front.brackets(), out);
}
