//! The function that an event asks for.
ghost use Rattle.std.specs.Prelude.{◌≡◌, ◌≤◌, ◌+◌, ◌++◌, ◌⊎◌, [], vec_len, vec_capacity, Some, None};
ghost use Rattle.vt_syntax.specs.Event.{event_of};
ghost use Rattle.vt_syntax.specs.Spelling.{IsEvent};
ghost use Rattle.vt_syntax.specs.declared.event.Event.TheVariants.{Control, Escape, Sequence};
ghost use Rattle.vt_term.specs.Parameters.{first, second};
ghost use Rattle.vt_term.specs.Resets.{is_level};
ghost use Rattle.vt_term.specs.Reports.{report};
ghost use Rattle.vt_xterm.specs.Pages.{screens, shown_by, set_sides, reset_to_initial_state};
ghost use Rattle.vt_xterm.specs.Front.{plain_functions, private_functions, exclamation_functions, quote_functions, plain_escapes};
ghost use Rattle.vt_xterm.specs.Scroll.{rows_down_by};
ghost use Rattle.vt_xterm.specs.Front.{save_or_set_sides, restore_if_bare, functions_of, function_in, screen_effect, xterm_effect};
ghost use Rattle.vt_xterm.specs.Front.{escapes_with, control_effect, if_inside};
ghost use Rattle.vt_term.specs.Functions.{effect};
ghost use Rattle.vt_xterm.specs.Bounded.{is_bare};

use crate::attributes::select_attributes;
use crate::bounded::{carry_out_between, value};
use crate::columns::{
    character_position_forward, cursor_character_absolute, cursor_next_line, cursor_preceding_line,
    line_position_absolute, line_position_forward,
};
use crate::front::SizedPages;
use crate::modes::{change_modes, restore};
use crate::repeating::repeat;
use crate::sides::Sides;
use crate::tabs::{HT, cursor_backward_tabulation, cursor_forward_tabulation, tab};
use vt_syntax::EventKind;
use vt_term::{SizedTerminal, count};

/// The number of DECCOLM.
const DECCOLM: u16 = 3;

/// The number of DECAWM.
const DECAWM: u16 = 7;

/// Carries out an event, and appends its report to `out`, which has capacity for ten more bytes.
#[inline(always)]
pub(crate) fn carry_out(
    terminal: &mut SizedTerminal,
    pages: &mut SizedPages,
    kind: EventKind,
    values: &[u16],
    out: &mut Vec<u8>,
)
    requires event { IsEvent (event_of kind values.now) }
    requires one_size { pages.old.other.grid.size ≡ terminal.old.display.grid.size }
    requires room { vec_len out.old + 10 ≤ vec_capacity out.old }
    ensures terminal { terminal.new
        ≡ shown_by (xterm_effect (event_of kind values.now) (screens terminal.old pages.old)) terminal.old.held }
    ensures pages { pages.new ≡ (xterm_effect (event_of kind values.now) (screens terminal.old pages.old)).pages }
    ensures reports { out.new.items ≡ out.old.items ++ report (event_of kind values.now) terminal.old.display }
    ensures bounded { vec_len out.new ≤ vec_len out.old + 10 }
    ensures capacity { vec_capacity out.old ≤ vec_capacity out.new }
{
    match pages.bounds(terminal.width()) {
        Some(sides) => carry_out_between(terminal, pages, sides, kind, values, out),
        None => carry_out_wide(terminal, pages, kind, values, out),
    }
}

/// Carries out an event if left and right margins leave no column out. Appends its report to `out`, which has capacity
/// for ten more bytes.
pub(crate) fn carry_out_wide(
    terminal: &mut SizedTerminal,
    pages: &mut SizedPages,
    kind: EventKind,
    values: &[u16],
    out: &mut Vec<u8>,
)
    requires event { IsEvent (event_of kind values.now) }
    requires one_size { pages.old.other.grid.size ≡ terminal.old.display.grid.size }
    requires room { vec_len out.old + 10 ≤ vec_capacity out.old }
    ensures terminal { terminal.new
        ≡ shown_by (screen_effect (event_of kind values.now) (screens terminal.old pages.old)) terminal.old.held }
    ensures pages { pages.new ≡ (screen_effect (event_of kind values.now) (screens terminal.old pages.old)).pages }
    ensures reports { out.new.items ≡ out.old.items ++ report (event_of kind values.now) terminal.old.display }
    ensures bounded { vec_len out.new ≤ vec_len out.old + 10 }
    ensures capacity { vec_capacity out.old ≤ vec_capacity out.new }
{
    match kind {
        EventKind::Print(_) => terminal.carry_out(kind, values, out),
        EventKind::Control(b) => control(terminal, b, out),
        EventKind::Escape { inter: None, last } => plain_escape(terminal, pages, last, out),
        EventKind::Escape {
            inter: Some(inter),
            last,
        } => escape_with(terminal, pages, inter, last, out),
        EventKind::Sequence {
            marker,
            inter,
            last,
        } => sequence(terminal, pages, marker, values, inter, last, out),
    }
}

/// Carries out a control.
#[inline(always)]
#[tactic(auto, unfolding(vt_term::specs::Reports::control_report_any))]
fn control(terminal: &mut SizedTerminal, b: u8, out: &mut Vec<u8>)
    requires event { IsEvent (Control b) }
    requires room { vec_len out.old + 10 ≤ vec_capacity out.old }
    ensures terminal { terminal.new ≡ record terminal.old { display = control_effect b terminal.old.display } }
    ensures reports { out.new.items ≡ out.old.items ++ report (Control b) terminal.old.display }
    ensures bounded { vec_len out.new ≤ vec_len out.old + 10 }
    ensures capacity { vec_capacity out.old ≤ vec_capacity out.new }
{
    if b == HT {
        tab(terminal, out);
    } else {
        terminal.carry_out(EventKind::Control(b), &[], out);
    }
}

/// Carries out an escape sequence with an intermediate: DECALN makes the left and right margins full.
#[tactic(auto, unfolding(crate::specs::Front::function_in, vt_term::specs::Functions::escape_with_any))]
fn escape_with(
    terminal: &mut SizedTerminal,
    pages: &mut SizedPages,
    inter: u8,
    last: u8,
    out: &mut Vec<u8>,
)
    requires event { IsEvent (Escape (Some inter) last) }
    requires room { vec_len out.old + 10 ≤ vec_capacity out.old }
    ensures terminal { terminal.new ≡ shown_by (function_in (escapes_with inter) (Escape (Some inter) last) last []
        (screens terminal.old pages.old)) terminal.old.held }
    ensures pages { pages.new ≡ (function_in (escapes_with inter) (Escape (Some inter) last) last []
        (screens terminal.old pages.old)).pages }
    ensures reports { out.new.items ≡ out.old.items }
    ensures bounded { vec_len out.new ≤ vec_len out.old + 10 }
    ensures capacity { vec_capacity out.old ≤ vec_capacity out.new }
{
    let kind = EventKind::Escape {
        inter: Some(inter),
        last,
    };
    terminal.carry_out(kind, &[], out);
    if inter == b'#' && last == b'8' {
        pages.fill_sides(terminal.width());
    }
}

/// Carries out RIS, which keeps a wide screen wide if DECCOLM has no effect.
#[tactic(auto, unfolding(vt_term::specs::Modes::with_mode, vt_term::specs::Functions::plain_escape_any))]
fn reset(terminal: &mut SizedTerminal, pages: &mut SizedPages, out: &mut Vec<u8>)
    requires one_size { pages.old.other.grid.size ≡ terminal.old.display.grid.size }
    requires room { vec_len out.old + 10 ≤ vec_capacity out.old }
    ensures terminal { terminal.new
        ≡ shown_by (reset_to_initial_state (screens terminal.old pages.old)) terminal.old.held }
    ensures pages { pages.new ≡ (reset_to_initial_state (screens terminal.old pages.old)).pages }
    ensures reports { out.new.items ≡ out.old.items }
    ensures capacity { vec_capacity out.old ≤ vec_capacity out.new }
{
    let is_wide = !pages.resizes && terminal.width() == terminal.size().wide;
    let kind = EventKind::Escape {
        inter: None,
        last: b'c',
    };
    terminal.carry_out(kind, &[], out);
    terminal.change_private_modes(&[DECCOLM], is_wide);
    pages.reset();
}

/// Carries out an escape sequence without an intermediate.
#[tactic(auto, unfolding(crate::specs::Front::function_in, vt_term::specs::Modes::with_mode, vt_term::specs::Functions::plain_escape_any))]
fn plain_escape(terminal: &mut SizedTerminal, pages: &mut SizedPages, last: u8, out: &mut Vec<u8>)
    requires event { IsEvent (Escape None last) }
    requires one_size { pages.old.other.grid.size ≡ terminal.old.display.grid.size }
    requires room { vec_len out.old + 10 ≤ vec_capacity out.old }
    ensures terminal { terminal.new
        ≡ shown_by (function_in plain_escapes (Escape None last) last [] (screens terminal.old pages.old)) terminal.old.held }
    ensures pages { pages.new
        ≡ (function_in plain_escapes (Escape None last) last [] (screens terminal.old pages.old)).pages }
    ensures reports { out.new.items ≡ out.old.items }
    ensures capacity { vec_capacity out.old ≤ vec_capacity out.new }
{
    match last {
        b'8' => restore(terminal, pages),
        b'c' => reset(terminal, pages, out),
        _ => terminal.carry_out(EventKind::Escape { inter: None, last }, &[], out),
    }
}

/// Carries out a control sequence.
#[tactic(auto, unfolding(crate::specs::Front::functions_of, crate::specs::Front::function_in))]
fn sequence(
    terminal: &mut SizedTerminal,
    pages: &mut SizedPages,
    marker: Option<u8>,
    values: &[u16],
    inter: Option<u8>,
    last: u8,
    out: &mut Vec<u8>,
)
    requires event { IsEvent (Sequence marker (record { items = values.now }) inter last) }
    requires one_size { pages.old.other.grid.size ≡ terminal.old.display.grid.size }
    requires room { vec_len out.old + 10 ≤ vec_capacity out.old }
    ensures terminal { terminal.new ≡ shown_by (function_in (functions_of marker inter)
        (Sequence marker (record { items = values.now }) inter last) last values.now (screens terminal.old pages.old))
        terminal.old.held }
    ensures pages { pages.new ≡ (function_in (functions_of marker inter)
        (Sequence marker (record { items = values.now }) inter last) last values.now (screens terminal.old pages.old)).pages }
    ensures reports { out.new.items
        ≡ out.old.items ++ report (Sequence marker (record { items = values.now }) inter last) terminal.old.display }
    ensures bounded { vec_len out.new ≤ vec_len out.old + 10 }
    ensures capacity { vec_capacity out.old ≤ vec_capacity out.new }
{
    match (marker, inter) {
        (None, None) => plain_sequence(terminal, pages, values, last, out),
        (Some(b'?'), None) => private_sequence(terminal, pages, values, last, out),
        (None, Some(b'!')) => exclamation_sequence(terminal, pages, values, last, out),
        (None, Some(b'"')) => quote_sequence(terminal, pages, values, last, out),
        _ => {
            let kind = EventKind::Sequence {
                marker,
                inter,
                last,
            };
            terminal.carry_out(kind, values, out);
        }
    }
}

/// Carries out a control sequence without marker and intermediate.
#[tactic(auto, unfolding(crate::specs::Front::function_in, vt_term::specs::Functions::sequence_in, vt_term::specs::Functions::sequences_any, vt_term::specs::Reports::sequence_report_any))]
pub(crate) fn plain_sequence(
    terminal: &mut SizedTerminal,
    pages: &mut SizedPages,
    values: &[u16],
    last: u8,
    out: &mut Vec<u8>,
)
    requires event { IsEvent (Sequence None (record { items = values.now }) None last) }
    requires room { vec_len out.old + 10 ≤ vec_capacity out.old }
    ensures terminal { terminal.new ≡ shown_by (function_in plain_functions
        (Sequence None (record { items = values.now }) None last) last values.now (screens terminal.old pages.old))
        terminal.old.held }
    ensures pages { pages.new ≡ (function_in plain_functions
        (Sequence None (record { items = values.now }) None last) last values.now (screens terminal.old pages.old)).pages }
    ensures reports { out.new.items
        ≡ out.old.items ++ report (Sequence None (record { items = values.now }) None last) terminal.old.display }
    ensures bounded { vec_len out.new ≤ vec_len out.old + 10 }
    ensures capacity { vec_capacity out.old ≤ vec_capacity out.new }
{
    match last {
        b'E' => cursor_next_line(terminal, count(values)),
        b'F' => cursor_preceding_line(terminal, count(values)),
        b'G' => cursor_character_absolute(terminal, count(values)),
        b'I' => cursor_forward_tabulation(terminal, count(values), out),
        b'L' => edit_lines(terminal, values, last, out),
        b'M' => edit_lines(terminal, values, last, out),
        b'S' => terminal.scroll_up(count(values)),
        b'T' => scroll_down_by(terminal, values),
        b'Z' => cursor_backward_tabulation(terminal, count(values)),
        b'^' => terminal.scroll_down(count(values)),
        b'`' => cursor_character_absolute(terminal, count(values)),
        b'a' => character_position_forward(terminal, count(values)),
        b'b' => repeat(terminal, count(values)),
        b'd' => line_position_absolute(terminal, count(values)),
        b'e' => line_position_forward(terminal, count(values)),
        b'm' => select_attributes(terminal, values),
        b's' => save_or_set_sides(terminal, pages, values),
        b'u' => restore_if_bare(terminal, pages, values),
        _ => {
            let kind = EventKind::Sequence {
                marker: None,
                inter: None,
                last,
            };
            terminal.carry_out(kind, values, out);
        }
    }
}

/// Carries out IL or DL, which has no effect outside the margins. It causes no report.
#[tactic(auto, unfolding(vt_term::specs::Functions::sequences_any, vt_term::specs::Reports::sequence_report_any))]
fn edit_lines(terminal: &mut SizedTerminal, values: &[u16], last: u8, out: &mut Vec<u8>)
    requires event { IsEvent (Sequence None (record { items = values.now }) None last) }
    requires lines { (last ≡ 0x4C) ⊎ (last ≡ 0x4D) }
    requires room { vec_len out.old + 10 ≤ vec_capacity out.old }
    ensures terminal { terminal.new ≡ record terminal.old {
      display = if_inside (effect (Sequence None (record { items = values.now }) None last)) terminal.old.display;
    } }
    ensures out { out.new.items ≡ out.old.items }
    ensures len { vec_len out.new ≡ vec_len out.old }
    ensures capacity { vec_capacity out.old ≤ vec_capacity out.new }
{
    let row = terminal.cursor().row;
    let margins = terminal.margins();
    if margins.top <= row && row <= margins.bottom {
        let kind = EventKind::Sequence {
            marker: None,
            inter: None,
            last,
        };
        terminal.carry_out(kind, values, out);
    }
}

/// Returns whether the only parameter is empty, or 0.
fn is_bare(values: &[u16]) -> bool
    ensures { result ≡ is_bare values.now }
{
    values.len() == 1 && values[0] == 0
}

/// Carries out `s`: DECSLRM under DECLRMM, otherwise SCP without parameters, which saves the cursor.
fn save_or_set_sides(terminal: &mut SizedTerminal, pages: &mut SizedPages, values: &[u16])
    ensures terminal { terminal.new
        ≡ shown_by (save_or_set_sides values.now pages.old.sides (screens terminal.old pages.old)) terminal.old.held }
    ensures pages { pages.new ≡ (save_or_set_sides values.now pages.old.sides (screens terminal.old pages.old)).pages }
{
    if pages.sides.is_some() {
        set_sides(terminal, pages, value(values, 0), value(values, 1));
    } else if is_bare(values) {
        terminal.save_cursor();
    }
}

/// Carries out DECSLRM: sets left and right margins of at least two columns.
fn set_sides(terminal: &mut SizedTerminal, pages: &mut SizedPages, p1: u16, p2: u16)
    ensures terminal { terminal.new
        ≡ shown_by (set_sides p1 p2 (screens terminal.old pages.old)) terminal.old.held }
    ensures pages { pages.new ≡ (set_sides p1 p2 (screens terminal.old pages.old)).pages }
{
    if let Some(sides) = Sides::of(terminal.width(), p1, p2) {
        sides.home(terminal);
        pages.sides = Some(sides);
    }
}

/// Carries out RCP without parameters: restores the cursor.
fn restore_if_bare(terminal: &mut SizedTerminal, pages: &mut SizedPages, values: &[u16])
    ensures terminal { terminal.new
        ≡ shown_by (restore_if_bare values.now (screens terminal.old pages.old)) terminal.old.held }
    ensures pages { pages.new ≡ (restore_if_bare values.now (screens terminal.old pages.old)).pages }
{
    if is_bare(values) {
        restore(terminal, pages);
    }
}

/// Carries out SD by `T`, with one parameter.
fn scroll_down_by(terminal: &mut SizedTerminal, values: &[u16])
    ensures { terminal.new ≡ record terminal.old { display = rows_down_by values.now terminal.old.display } }
{
    if values.len() == 1 {
        terminal.scroll_down(count(values));
    }
}

/// Carries out a control sequence with the marker `?`.
#[tactic(auto, unfolding(crate::specs::Front::function_in, vt_term::specs::Functions::sequences_any, vt_term::specs::Reports::sequence_report_any))]
fn private_sequence(
    terminal: &mut SizedTerminal,
    pages: &mut SizedPages,
    values: &[u16],
    last: u8,
    out: &mut Vec<u8>,
)
    requires event { IsEvent (Sequence (Some 0x3F) (record { items = values.now }) None last) }
    requires one_size { pages.old.other.grid.size ≡ terminal.old.display.grid.size }
    requires room { vec_len out.old + 10 ≤ vec_capacity out.old }
    ensures terminal { terminal.new ≡ shown_by (function_in private_functions
        (Sequence (Some 0x3F) (record { items = values.now }) None last) last values.now (screens terminal.old pages.old))
        terminal.old.held }
    ensures pages { pages.new ≡ (function_in private_functions
        (Sequence (Some 0x3F) (record { items = values.now }) None last) last values.now
        (screens terminal.old pages.old)).pages }
    ensures reports { out.new.items ≡ out.old.items
        ++ report (Sequence (Some 0x3F) (record { items = values.now }) None last) terminal.old.display }
    ensures bounded { vec_len out.new ≤ vec_len out.old + 10 }
    ensures capacity { vec_capacity out.old ≤ vec_capacity out.new }
{
    match last {
        b'h' => change_modes(terminal, pages, values, true),
        b'l' => change_modes(terminal, pages, values, false),
        _ => {
            let kind = EventKind::Sequence {
                marker: Some(b'?'),
                inter: None,
                last,
            };
            terminal.carry_out(kind, values, out);
        }
    }
}

/// Carries out a control sequence with the intermediate `!`: DECSTR, which leaves DECAWM set.
#[tactic(auto, unfolding(crate::specs::Front::function_in, vt_term::specs::Modes::with_mode, vt_term::specs::Functions::sequences_any, vt_term::specs::Reports::sequence_report_any))]
fn exclamation_sequence(
    terminal: &mut SizedTerminal,
    pages: &mut SizedPages,
    values: &[u16],
    last: u8,
    out: &mut Vec<u8>,
)
    requires event { IsEvent (Sequence None (record { items = values.now }) (Some 0x21) last) }
    requires room { vec_len out.old + 10 ≤ vec_capacity out.old }
    ensures terminal { terminal.new ≡ shown_by (function_in exclamation_functions
        (Sequence None (record { items = values.now }) (Some 0x21) last) last values.now (screens terminal.old pages.old))
        terminal.old.held }
    ensures pages { pages.new ≡ (function_in exclamation_functions
        (Sequence None (record { items = values.now }) (Some 0x21) last) last values.now
        (screens terminal.old pages.old)).pages }
    ensures reports { out.new.items ≡ out.old.items
        ++ report (Sequence None (record { items = values.now }) (Some 0x21) last) terminal.old.display }
    ensures bounded { vec_len out.new ≤ vec_len out.old + 10 }
    ensures capacity { vec_capacity out.old ≤ vec_capacity out.new }
{
    if last == b'p' {
        pages.sides = None;
        terminal.soft_reset();
        terminal.change_private_modes(&[DECAWM], true);
    } else {
        let kind = EventKind::Sequence {
            marker: None,
            inter: Some(b'!'),
            last,
        };
        terminal.carry_out(kind, values, out);
    }
}

/// Carries out a control sequence with the intermediate `"`: DECSCL, which leaves DECAWM set if there is such a level.
#[tactic(auto, unfolding(crate::specs::Front::function_in, vt_term::specs::Modes::with_mode, vt_term::specs::Functions::sequence_in, vt_term::specs::Functions::sequences_any, vt_term::specs::Reports::sequence_report_any))]
fn quote_sequence(
    terminal: &mut SizedTerminal,
    pages: &mut SizedPages,
    values: &[u16],
    last: u8,
    out: &mut Vec<u8>,
)
    requires event { IsEvent (Sequence None (record { items = values.now }) (Some 0x22) last) }
    requires room { vec_len out.old + 10 ≤ vec_capacity out.old }
    ensures terminal { terminal.new ≡ shown_by (function_in quote_functions
        (Sequence None (record { items = values.now }) (Some 0x22) last) last values.now (screens terminal.old pages.old))
        terminal.old.held }
    ensures pages { pages.new ≡ (function_in quote_functions
        (Sequence None (record { items = values.now }) (Some 0x22) last) last values.now
        (screens terminal.old pages.old)).pages }
    ensures reports { out.new.items ≡ out.old.items
        ++ report (Sequence None (record { items = values.now }) (Some 0x22) last) terminal.old.display }
    ensures bounded { vec_len out.new ≤ vec_len out.old + 10 }
    ensures capacity { vec_capacity out.old ≤ vec_capacity out.new }
{
    let kind = EventKind::Sequence {
        marker: None,
        inter: Some(b'"'),
        last,
    };
    terminal.carry_out(kind, values, out);
    if last == b'p' && is_level(values) {
        pages.sides = None;
        terminal.change_private_modes(&[DECAWM], true);
    }
}

/// Returns whether these are the values of DECSCL: 61, and 62 with 0, 1 or 2.
fn is_level(values: &[u16]) -> bool
    ensures { result ≡ is_level (first values.now) (second values.now) }
{
    let second = values.get(1).copied().unwrap_or(0);
    match values.first() {
        Some(61) => true,
        Some(62) => second <= 2,
        _ => false,
    }
}
