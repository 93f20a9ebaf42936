//! The modes, the settings and a pending single shift. The output has capacity for each.
ghost use Rattle.std.specs.Prelude.{◌≡◌, ◌+◌, ◌≤◌, ◌++◌, [], ◌∷◌, not, false, vec_len, vec_capacity};
ghost use Rattle.vt_screen.specs.Same.{when};
ghost use Rattle.vt_paint.specs.Controls.{private_mode};
ghost use Rattle.vt_xterm_repaint.specs.Private.Kept.{kept_actions};
ghost use Rattle.vt_feed.specs.Spelled.{spell};
ghost use Rattle.vt_xterm_repaint.specs.Items.{functions, modes_item, mouse_item, coding_item, shape_number, style_item, settings_item, shift_item};

use crate::functions::push_private_mode;
use vt_paint::{Function, mode_values, push_bytes, push_number};
use vt_term::Modes;
use vt_xterm_display::{Coding, Mouse, Settings, Shape};

/// Appends the modes that move nothing, the keypad and the form of reports.
fn push_modes(m: Modes, out: &mut Vec<u8>)
    requires { vec_len out.old + 72 ≤ vec_capacity out.old }
    ensures items { out.new.items ≡ out.old.items ++ spell (modes_item m) }
    ensures bounded { vec_len out.new ≤ vec_len out.old + 72 }
    ensures capacity { vec_capacity out.old ≤ vec_capacity out.new }
{
    for (i, on) in mode_values(m).iter().enumerate() {
        Function::mode(i, *on).push(out);
    }
}

/// Appends the mode of the mouse, if something is reported.
fn push_mouse(mouse: Mouse, out: &mut Vec<u8>)
    requires { vec_len out.old + 10 ≤ vec_capacity out.old }
    ensures items { out.new.items ≡ out.old.items ++ spell (mouse_item mouse) }
    ensures bounded { vec_len out.new ≤ vec_len out.old + 10 }
    ensures capacity { vec_capacity out.old ≤ vec_capacity out.new }
{
    match mouse {
        Mouse::Off => {}
        Mouse::Presses => push_private_mode(9, true, out),
        Mouse::Buttons => push_private_mode(1000, true, out),
        Mouse::Drags => push_private_mode(1002, true, out),
        Mouse::Motion => push_private_mode(1003, true, out),
    }
}

/// Appends the coding of the mouse's positions, unless it is a byte each.
fn push_coding(coding: Coding, out: &mut Vec<u8>)
    requires { vec_len out.old + 10 ≤ vec_capacity out.old }
    ensures items { out.new.items ≡ out.old.items ++ spell (coding_item coding) }
    ensures bounded { vec_len out.new ≤ vec_len out.old + 10 }
    ensures capacity { vec_capacity out.old ≤ vec_capacity out.new }
{
    match coding {
        Coding::Bytes => {}
        Coding::Utf8 => push_private_mode(1005, true, out),
        Coding::Sgr => push_private_mode(1006, true, out),
        Coding::Urxvt => push_private_mode(1015, true, out),
        Coding::Pixels => push_private_mode(1016, true, out),
    }
}

/// Returns the number of a steady shape in DECSCUSR.
fn shape_number(shape: Shape) -> u8
    ensures value { result ≡ shape_number shape }
    ensures some { 2 ≤ result }
{
    match shape {
        Shape::Block => 2,
        Shape::Underline => 4,
        Shape::Bar => 6,
    }
}

/// Appends DECSCUSR. `out` has capacity for it.
pub fn push_style(shape: Shape, blinks: bool, out: &mut Vec<u8>)
    requires { vec_len out.old + 10 ≤ vec_capacity out.old }
    ensures items { out.new.items ≡ out.old.items ++ spell (style_item shape blinks) }
    ensures bounded { vec_len out.new ≤ vec_len out.old + 10 }
    ensures capacity { vec_capacity out.old ≤ vec_capacity out.new }
{
    let steady = shape_number(shape);
    push_bytes(b"\x1B[", out);
    push_number(if blinks { steady - 1 } else { steady }, out);
    push_bytes(b" q", out);
}

/// Appends the settings that a multiplexer hands on.
fn push_settings(x: Settings, out: &mut Vec<u8>)
    requires { vec_len out.old + 60 ≤ vec_capacity out.old }
    ensures items { out.new.items ≡ out.old.items ++ spell (settings_item x) }
    ensures bounded { vec_len out.new ≤ vec_len out.old + 60 }
    ensures capacity { vec_capacity out.old ≤ vec_capacity out.new }
{
    push_private_mode(2004, x.brackets, out);
    push_private_mode(1004, x.focus, out);
    push_private_mode(2026, x.synchronized, out);
    push_mouse(x.mouse, out);
    push_coding(x.coding, out);
    push_style(x.shape, x.blinks, out);
}

/// Appends a pending single shift.
fn push_shift(pending: Option<u8>, out: &mut Vec<u8>)
    requires { vec_len out.old + 2 ≤ vec_capacity out.old }
    ensures items { out.new.items ≡ out.old.items ++ spell (shift_item pending) }
    ensures bounded { vec_len out.new ≤ vec_len out.old + 2 }
    ensures capacity { vec_capacity out.old ≤ vec_capacity out.new }
{
    if let Some(slot) = pending {
        Function::single_shift(slot).push(out);
    }
}

/// Appends RM of ?40, if DECCOLM has no effect.
fn push_resizing(resizes: bool, out: &mut Vec<u8>)
    requires { vec_len out.old + 10 ≤ vec_capacity out.old }
    ensures items { out.new.items ≡ out.old.items ++ spell (when (not resizes) (functions (private_mode 40 false ∷ []))) }
    ensures bounded { vec_len out.new ≤ vec_len out.old + 10 }
    ensures capacity { vec_capacity out.old ≤ vec_capacity out.new }
{
    if !resizes {
        push_private_mode(40, false, out);
    }
}

/// Appends the modes that move nothing, the settings, whether DECCOLM has an effect, and a pending single shift.
pub(crate) fn push_kept(
    modes: Modes,
    settings: Settings,
    resizes: bool,
    pending: Option<u8>,
    out: &mut Vec<u8>,
)
    requires { vec_len out.old + 144 ≤ vec_capacity out.old }
    ensures items { out.new.items ≡ out.old.items ++ spell (kept_actions modes settings resizes pending) }
    ensures bounded { vec_len out.new ≤ vec_len out.old + 144 }
    ensures capacity { vec_capacity out.old ≤ vec_capacity out.new }
{
    push_modes(modes, out);
    push_settings(settings, out);
    push_resizing(resizes, out);
    push_shift(pending, out);
}
