//! The items of a repaint, except the cells. The output has capacity for each.
ghost use Rattle.std.specs.Prelude.{◌≡◌, ◌+◌, ◌*◌, ◌≤◌, ◌<◌, ◌++◌, ◌∷◌, [], true, false, length, vec_len, vec_capacity};
ghost use Rattle.std.specs.Cmp.Lexicographic.{pointwise};
ghost use Rattle.vt_syntax.specs.Spelling.{spell_events};
ghost use Rattle.vt_screen.specs.Cells.{brush_of};
ghost use Rattle.vt_screen.specs.Same.{same_bool, when};
ghost use Rattle.vt_term.specs.State.{stops_of};
ghost use Rattle.vt_paint.specs.Controls.{mode_event, cursor_position, set_tab, brush_events};
ghost use Rattle.vt_paint.specs.Pieces.{glyph_events};
ghost use Rattle.vt_paint.specs.Private.Parts.{stops_from};
ghost use Rattle.vt_paint.specs.Items.{width_events, made_stops, stops_item, saved_item, saved_events, margins_item};
ghost use Rattle.vt_paint.specs.Items.{mode_item, modes_item, shift_item};

use crate::bytes::push_when;
use crate::controls::{push_brush, push_glyph, push_sets};
use crate::function::Function;
use crate::modes::{AT_POWER_UP, DECCOLM, DECOM, mode_values};
use crate::tables::STOPS_AT_POWER_UP;
use vt_screen::{Cell, MOST, Size};
use vt_term::{Margins, Modes, Saved};

/// Appends what sets or resets a mode, given its index, if a test passes.
fn push_mode_when(test: bool, index: usize, on: bool, out: &mut Vec<u8>)
    requires index { index < 14 }
    requires room { vec_len out.old + 6 ≤ vec_capacity out.old }
    ensures items { out.new.items ≡ out.old.items ++ spell_events (when test (mode_event index on ∷ [])) }
    ensures bounded { vec_len out.new ≤ vec_len out.old + 6 }
    ensures capacity { vec_capacity out.old ≤ vec_capacity out.new }
{
    if test {
        Function::mode(index, on).push(out);
    }
}

// ---- 2: the stops and the width

/// Appends CUP and HTS if there is a stop.
fn push_stop(stop: bool, col: usize, out: &mut Vec<u8>)
    requires col { col ≤ MOST }
    requires room { vec_len out.old + 10 ≤ vec_capacity out.old }
    ensures items { out.new.items ≡ out.old.items ++ spell_events (when stop (cursor_position 1 col ∷ set_tab ∷ [])) }
    ensures bounded { vec_len out.new ≤ vec_len out.old + 10 }
    ensures capacity { vec_capacity out.old ≤ vec_capacity out.new }
{
    if stop {
        Function::cursor_to(1, col as u8).push(out);
        Function::set_tab().push(out);
    }
}

fn push_each_stop(stops: &[bool], out: &mut Vec<u8>)
    requires few { length stops.now ≤ MOST }
    requires room { vec_len out.old + 10 * length stops.now ≤ vec_capacity out.old }
    ensures items { out.new.items ≡ out.old.items ++ spell_events (stops_from stops.now 1 (length stops.now)) }
    ensures bounded { vec_len out.new ≤ vec_len out.old + 10 * length stops.now }
    ensures capacity { vec_capacity out.old ≤ vec_capacity out.new }
{
    for (i, stop) in stops.iter().enumerate() {
        push_stop(*stop, i + 1, out);
    }
}

/// Appends DECCOLM, if it changes the width of a screen of this size and a test passes.
fn push_width_when(test: bool, size: Size, wide: bool, out: &mut Vec<u8>)
    requires { vec_len out.old + 6 ≤ vec_capacity out.old }
    ensures items { out.new.items ≡ out.old.items ++ spell_events (when test (width_events size wide)) }
    ensures bounded { vec_len out.new ≤ vec_len out.old + 6 }
    ensures capacity { vec_capacity out.old ≤ vec_capacity out.new }
{
    if test {
        push_mode_when(size.narrow != size.wide, DECCOLM, wide, out);
    }
}

/// Appends the stops, which are set on a wide screen, and then the width of the state.
fn push_made_stops(size: Size, wide: bool, stops: &[bool], out: &mut Vec<u8>)
    requires len { length stops.now ≡ size.wide }
    requires few { size.wide ≤ MOST }
    requires room { vec_len out.old + 10 * size.wide + 16 ≤ vec_capacity out.old }
    ensures items { out.new.items ≡ out.old.items ++ spell_events (made_stops size wide stops.now) }
    ensures bounded { vec_len out.new ≤ vec_len out.old + 10 * size.wide + 16 }
    ensures capacity { vec_capacity out.old ≤ vec_capacity out.new }
{
    push_width_when(true, size, true, out);
    Function::clear_all_tabs().push(out);
    push_each_stop(stops, out);
    push_width_when(!wide, size, false, out);
}

/// Returns whether two lists of stops are equal.
fn same_stops(a: &[bool], b: &[bool]) -> bool
    ensures { result ≡ pointwise same_bool a.now b.now }
{
    a == b
}

/// Returns whether the stops are those at power-up.
fn are_at_power_up(stops: &[bool]) -> bool
    requires { length stops.now ≤ MOST }
    ensures { result ≡ pointwise same_bool stops.now (stops_of (length stops.now)) }
{
    same_stops(stops, &STOPS_AT_POWER_UP[..stops.len()])
}

/// Appends the stops and the width.
#[tactic(auto, unfolding(crate::specs::Items::stops_item))]
pub(crate) fn push_stops(size: Size, width: usize, stops: &[bool], out: &mut Vec<u8>)
    requires len { length stops.now ≡ size.wide }
    requires few { size.wide ≤ MOST }
    requires room { vec_len out.old + 10 * size.wide + 16 ≤ vec_capacity out.old }
    ensures items { out.new.items ≡ out.old.items ++ spell_events (stops_item size width stops.now) }
    ensures bounded { vec_len out.new ≤ vec_len out.old + 10 * size.wide + 16 }
    ensures capacity { vec_capacity out.old ≤ vec_capacity out.new }
{
    let wide = width == size.wide;
    if are_at_power_up(stops) {
        push_width_when(wide, size, true, out);
    } else {
        push_made_stops(size, wide, stops, out);
    }
}

// ---- 3: the saved record

#[tactic(auto, unfolding(crate::specs::Items::saved_events))]
fn push_saved_events(saved: &Saved, out: &mut Vec<u8>)
    requires row { saved.now.row ≤ MOST }
    requires col { saved.now.col ≤ MOST }
    requires room { vec_len out.old + 58 ≤ vec_capacity out.old }
    ensures items { out.new.items ≡ out.old.items ++ spell_events (saved_events saved.now) }
    ensures bounded { vec_len out.new ≤ vec_len out.old + 58 }
    ensures capacity { vec_capacity out.old ≤ vec_capacity out.new }
{
    push_mode_when(saved.origin, DECOM, true, out);
    Function::cursor_to(saved.row as u8, saved.col as u8).push(out);
    push_when(saved.wrap, b" ", out);
    push_brush(saved.brush, out);
    push_sets(&saved.g, saved.gl, saved.gr, out);
    Function::save_cursor().push(out);
    push_mode_when(saved.origin, DECOM, false, out);
}

/// Appends the saved record.
#[tactic(auto, unfolding(crate::specs::Items::saved_item))]
pub(crate) fn push_saved(saved: &Saved, out: &mut Vec<u8>)
    requires row { saved.now.row ≤ MOST }
    requires col { saved.now.col ≤ MOST }
    requires room { vec_len out.old + 58 ≤ vec_capacity out.old }
    ensures items { out.new.items ≡ out.old.items ++ spell_events (saved_item saved.now) }
    ensures bounded { vec_len out.new ≤ vec_len out.old + 58 }
    ensures capacity { vec_capacity out.old ≤ vec_capacity out.new }
{
    if *saved != Saved::power_up() {
        push_saved_events(saved, out);
    }
}

// ---- 5 to 7: margins, origin and cursor

/// Appends margins that aren't the full ones of so many rows.
#[tactic(auto, unfolding(crate::specs::Items::margins_item))]
pub(crate) fn push_margins(rows: usize, m: Margins, out: &mut Vec<u8>)
    requires top { m.top ≤ MOST }
    requires bottom { m.bottom ≤ MOST }
    requires room { vec_len out.old + 10 ≤ vec_capacity out.old }
    ensures items { out.new.items ≡ out.old.items ++ spell_events (margins_item rows m) }
    ensures bounded { vec_len out.new ≤ vec_len out.old + 10 }
    ensures capacity { vec_capacity out.old ≤ vec_capacity out.new }
{
    if m.top != 1 || m.bottom != rows {
        Function::margins_to(m.top as u8, m.bottom as u8).push(out);
    }
}

/// Appends the cell under the cursor once more, which sets the wrap flag.
pub(crate) fn push_cell(cell: &Cell, out: &mut Vec<u8>)
    requires { vec_len out.old + 20 ≤ vec_capacity out.old }
    ensures items { out.new.items ≡ out.old.items ++ spell_events (brush_events (brush_of cell.now) ++ glyph_events cell.now) }
    ensures bounded { vec_len out.new ≤ vec_len out.old + 20 }
    ensures capacity { vec_capacity out.old ≤ vec_capacity out.new }
{
    push_brush(cell.brush(), out);
    push_glyph(cell.glyph, out);
}

// ---- 10: the modes

/// Appends what sets or resets a mode, given its index, unless it is known to be as at power-up and is to stay so.
pub(crate) fn push_mode_item(
    index: usize,
    known: bool,
    at_power_up: bool,
    on: bool,
    out: &mut Vec<u8>,
)
    requires index { index < 14 }
    requires room { vec_len out.old + 6 ≤ vec_capacity out.old }
    ensures items { out.new.items ≡ out.old.items ++ spell_events (mode_item known at_power_up (mode_event index) on) }
    ensures bounded { vec_len out.new ≤ vec_len out.old + 6 }
    ensures capacity { vec_capacity out.old ≤ vec_capacity out.new }
{
    if !known || on != at_power_up {
        Function::mode(index, on).push(out);
    }
}

/// Appends the modes, the keypad and the form of reports. If `known` is true, each is as at power-up, and only those
/// that differ from it are appended.
pub(crate) fn push_modes(known: bool, m: Modes, out: &mut Vec<u8>)
    requires { vec_len out.old + 72 ≤ vec_capacity out.old }
    ensures items { out.new.items ≡ out.old.items ++ spell_events (modes_item known m) }
    ensures bounded { vec_len out.new ≤ vec_len out.old + 72 }
    ensures capacity { vec_capacity out.old ≤ vec_capacity out.new }
{
    for (i, on) in mode_values(m).iter().enumerate() {
        push_mode_item(i, known, AT_POWER_UP[i], *on, out);
    }
}

// ---- 11: a pending single shift

#[tactic(auto, unfolding(crate::specs::Items::shift_item))]
pub(crate) fn push_shift(pending: Option<u8>, out: &mut Vec<u8>)
    requires { vec_len out.old + 2 ≤ vec_capacity out.old }
    ensures items { out.new.items ≡ out.old.items ++ spell_events (shift_item pending) }
    ensures bounded { vec_len out.new ≤ vec_len out.old + 2 }
    ensures capacity { vec_capacity out.old ≤ vec_capacity out.new }
{
    if let Some(slot) = pending {
        Function::single_shift(slot).push(out);
    }
}
