//! The steps of an update: each is one control function or one character.
ghost use Rattle.std.specs.Prelude.{◌≡◌, ◌+◌, ◌*◌, ◌≤◌, length, vec_len, vec_capacity};
ghost use Rattle.vt_xterm_update.specs.Private.Appended.{Appended};

use vt_paint::{Function, push_bytes, push_number, push_when};
use vt_xterm_cell::XtermCell;
use vt_xterm_display::{Shape, Sides};
use vt_xterm_repaint::{push_glyph, push_pair, push_private_mode, push_style};

/// The most values of SGR in a step.
pub(crate) const VALUES: usize = 12;

/// The capacity for a step: the most bytes of one.
pub(crate) const STEP_LIMIT: usize = 4 * VALUES + 3;

/// A step of an update.
#[derive(Drop)]
pub(crate) enum Step {
    /// A control function.
    Send(Function),
    /// SM or RM of a private mode.
    Private(u16, bool),
    /// DECSLRM.
    Margins(Sides),
    /// SGR of the first of these values, as many as are named.
    Select([u8; VALUES], usize),
    /// DECSCUSR.
    Style(Shape, bool),
    /// CR and LF.
    NextLine,
    /// The character of a cell, and its marks.
    Write(XtermCell),
}

/// Appends a value, after `;` if it isn't the first one.
fn push_value(i: usize, value: u8, out: &mut Vec<u8>)
    requires { vec_len out.old + 4 ≤ vec_capacity out.old }
    ensures appended { Appended out.old.items out.new.items }
    ensures bounded { vec_len out.new ≤ vec_len out.old + 4 }
    ensures capacity { vec_capacity out.old ≤ vec_capacity out.new }
{
    push_when(i > 0, b";", out);
    push_number(value, out);
}

/// Appends values, with `;` between them.
fn push_values(values: &[u8], out: &mut Vec<u8>)
    requires { vec_len out.old + 4 * length values.now ≤ vec_capacity out.old }
    ensures appended { Appended out.old.items out.new.items }
    ensures bounded { vec_len out.new ≤ vec_len out.old + 4 * length values.now }
    ensures capacity { vec_capacity out.old ≤ vec_capacity out.new }
{
    for (i, value) in values.iter().enumerate() {
        push_value(i, *value, out);
    }
}

/// Appends SGR of these values.
fn push_selection(values: &[u8], out: &mut Vec<u8>)
    requires few { length values.now ≤ VALUES }
    requires room { vec_len out.old + STEP_LIMIT ≤ vec_capacity out.old }
    ensures appended { Appended out.old.items out.new.items }
    ensures bounded { vec_len out.new ≤ vec_len out.old + STEP_LIMIT }
    ensures capacity { vec_capacity out.old ≤ vec_capacity out.new }
{
    push_bytes(b"\x1B[", out);
    push_values(values, out);
    push_bytes(b"m", out);
}

/// Appends a step. `out` has capacity for it.
#[tactic(auto, using(crate::proofs::Turns::appended_one))]
pub(crate) fn push_step(step: &Step, out: &mut Vec<u8>)
    requires { vec_len out.old + STEP_LIMIT ≤ vec_capacity out.old }
    ensures appended { Appended out.old.items out.new.items }
    ensures bounded { vec_len out.new ≤ vec_len out.old + STEP_LIMIT }
    ensures capacity { vec_capacity out.old ≤ vec_capacity out.new }
{
    match step {
        Step::Send(function) => push_bytes(function.bytes(), out),
        Step::Private(number, on) => push_private_mode(*number, *on, out),
        Step::Margins(sides) => push_pair(number(sides.left), number(sides.right), b's', out),
        Step::Select(values, count) => push_selection(&values[..(*count).min(VALUES)], out),
        Step::Style(shape, blinks) => push_style(*shape, *blinks, out),
        Step::NextLine => push_bytes(b"\r\n", out),
        Step::Write(cell) => push_glyph(*cell, out),
    }
}

/// Returns a row or a column as a parameter. On a screen each is at most 255.
pub(crate) fn number(n: usize) -> u8 {
    n.min(0xFF) as u8
}
