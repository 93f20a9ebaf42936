//! The effect of an event while left and right margins leave a column out.
ghost use Rattle.std.specs.Prelude.{◌≡◌, ◌≤◌, ◌+◌, ◌++◌, ◌⊎◌, [], vec_len, vec_capacity, Some, None, slice_index};
ghost use Rattle.vt_syntax.specs.Event.{event_of};
ghost use Rattle.vt_syntax.specs.Spelling.{IsEvent};
ghost use Rattle.vt_syntax.specs.declared.event.Event.TheVariants.{Control, Sequence};
ghost use Rattle.vt_syntax.specs.declared.held.Held.TheVariants.{Nothing};
ghost use Rattle.vt_term.specs.Reports.{report};
ghost use Rattle.vt_utf8.specs.Translation.{unshifted};
ghost use Rattle.vt_xterm.specs.Sides.{AreSides, column_before, glyph_before, room};
ghost use Rattle.vt_xterm.specs.Pages.{screens, shown_by, on_display};
ghost use Rattle.vt_xterm.specs.Front.{screen_effect};
ghost use Rattle.vt_xterm.specs.Play.{screens_beyond, whole_of};
ghost use Rattle.vt_xterm.specs.Bounded.{bounded_effect, control_between, plain_between, marked_between, other_between, bounded_in};
ghost use Rattle.vt_xterm.specs.Bounded.{bounded_controls, bounded_plain, has_row, resets, erases, margins_set, repeating};
ghost use Rattle.vt_xterm.specs.Bounded.{tabbing, writing, writing_times, printing, writing_wide, writing_both, writing_beyond, held_beyond};

use crate::columns::{line_position_absolute, line_position_forward};
use crate::front::SizedPages;
use crate::functions::carry_out_wide;
use crate::sides::Sides;
use crate::tabs::HT;
use vt_syntax::{EventKind, Held};
use vt_term::{Glyph, SizedTerminal, count};
use vt_utf8::{cells, shown_as};

/// Returns one of the values: 0 if there are fewer.
pub(crate) fn value(values: &[u16], at: usize) -> u16
    ensures { result ≡ slice_index values.now at }
{
    values.get(at).copied().unwrap_or(0)
}

/// Carries out an event between the margins, and appends its report to `out`, which has capacity for ten more bytes.
#[tactic(auto, unfolding(crate::specs::Bounded::bounded_effect))]
pub(crate) fn carry_out_between(
    terminal: &mut SizedTerminal,
    pages: &mut SizedPages,
    sides: Sides,
    kind: EventKind,
    values: &[u16],
    out: &mut Vec<u8>,
)
    requires event { IsEvent (event_of kind values.now) }
    requires one_size { pages.old.other.grid.size ≡ terminal.old.display.grid.size }
    requires fits { AreSides terminal.old.display.grid.width sides }
    requires room { vec_len out.old + 10 ≤ vec_capacity out.old }
    ensures terminal { terminal.new
        ≡ shown_by (bounded_effect screen_effect (event_of kind values.now) sides (screens terminal.old pages.old)) terminal.old.held }
    ensures pages { pages.new
        ≡ (bounded_effect screen_effect (event_of kind values.now) sides (screens terminal.old pages.old)).pages }
    ensures reports { out.new.items ≡ out.old.items ++ report (event_of kind values.now) terminal.old.display }
    ensures bounded { vec_len out.new ≤ vec_len out.old + 10 }
    ensures capacity { vec_capacity out.old ≤ vec_capacity out.new }
{
    match kind {
        EventKind::Print(b) => print(terminal, pages, sides, b),
        EventKind::Control(b) => control(terminal, pages, sides, b, out),
        EventKind::Escape { .. } => carry_out_wide(terminal, pages, kind, values, out),
        EventKind::Sequence {
            marker: None,
            inter: None,
            last,
        } => plain(terminal, pages, sides, values, last, out),
        EventKind::Sequence {
            marker: Some(marker),
            inter: None,
            last,
        } => marked(terminal, pages, sides, marker, values, last, out),
        EventKind::Sequence { .. } => carry_out_wide(terminal, pages, kind, values, out),
    }
}

/// Writes a glyph.
fn write(terminal: &mut SizedTerminal, pages: &mut SizedPages, sides: Sides, glyph: Glyph)
    requires fits { AreSides terminal.old.display.grid.width sides }
    ensures terminal { terminal.new ≡ shown_by (writing glyph sides (screens terminal.old pages.old)) terminal.old.held }
    ensures pages { pages.new ≡ (writing glyph sides (screens terminal.old pages.old)).pages }
{
    pages.sides = Some(sides.write_glyph(terminal, glyph));
}

/// Writes the glyph of a graphic byte.
fn print(terminal: &mut SizedTerminal, pages: &mut SizedPages, sides: Sides, b: u8)
    requires graphic { ((0x20 ≤ b) × (b ≤ 0x7E)) ⊎ (0xA0 ≤ b) }
    requires fits { AreSides terminal.old.display.grid.width sides }
    ensures terminal { terminal.new ≡ shown_by (printing b sides (screens terminal.old pages.old)) terminal.old.held }
    ensures pages { pages.new ≡ (printing b sides (screens terminal.old pages.old)).pages }
{
    if let Some(glyph) = terminal.read_glyph(b) {
        write(terminal, pages, sides, glyph);
    }
}

/// Returns whether the margins bound a control.
#[tactic(auto, unfolding(crate::specs::Bounded::has_row))]
fn is_bounded_control(b: u8) -> bool
    ensures { result ≡ has_row bounded_controls b }
{
    match b {
        0x08 => true,
        0x0A => true,
        0x0B => true,
        0x0C => true,
        0x0D => true,
        0x84 => true,
        0x85 => true,
        0x8D => true,
        _ => false,
    }
}

/// Carries out a control.
#[tactic(auto, unfolding(vt_term::specs::Reports::control_report_any))]
fn control(
    terminal: &mut SizedTerminal,
    pages: &mut SizedPages,
    sides: Sides,
    b: u8,
    out: &mut Vec<u8>,
)
    requires event { IsEvent (Control b) }
    requires fits { AreSides terminal.old.display.grid.width sides }
    requires room { vec_len out.old + 10 ≤ vec_capacity out.old }
    ensures terminal { terminal.new
        ≡ shown_by (control_between screen_effect b sides (screens terminal.old pages.old)) terminal.old.held }
    ensures pages { pages.new ≡ (control_between screen_effect b sides (screens terminal.old pages.old)).pages }
    ensures reports { out.new.items ≡ out.old.items ++ report (Control b) terminal.old.display }
    ensures bounded { vec_len out.new ≤ vec_len out.old + 10 }
    ensures capacity { vec_capacity out.old ≤ vec_capacity out.new }
{
    if b == 0x1A {
        write(terminal, pages, sides, Glyph::substitute());
    } else if b == HT {
        forward_tabs(terminal, pages, sides, 1, out);
    } else if is_bounded_control(b) {
        pages.sides = Some(sides.unwrapped());
        bounded_control(terminal, sides, b, out);
    } else {
        terminal.carry_out(EventKind::Control(b), &[], out);
    }
}

/// Carries out a control that the margins bound, or one of a VT220.
#[tactic(auto, unfolding(crate::specs::Bounded::bounded_in, vt_term::specs::Reports::control_report_any))]
fn bounded_control(terminal: &mut SizedTerminal, sides: Sides, b: u8, out: &mut Vec<u8>)
    requires event { IsEvent (Control b) }
    requires fits { AreSides terminal.old.display.grid.width sides }
    requires room { vec_len out.old + 10 ≤ vec_capacity out.old }
    ensures terminal { terminal.new
        ≡ record terminal.old { display = bounded_in bounded_controls (Control b) b [] sides terminal.old.display } }
    ensures reports { out.new.items ≡ out.old.items ++ report (Control b) terminal.old.display }
    ensures bounded { vec_len out.new ≤ vec_len out.old + 10 }
    ensures capacity { vec_capacity out.old ≤ vec_capacity out.new }
{
    match b {
        0x08 => sides.cursor_backward(terminal, 1),
        0x0A => sides.line_feed(terminal),
        0x0B => sides.line_feed(terminal),
        0x0C => sides.line_feed(terminal),
        0x0D => sides.carriage_return(terminal),
        0x84 => sides.index(terminal),
        0x85 => sides.next_line(terminal),
        0x8D => sides.reverse_index(terminal),
        _ => terminal.carry_out(EventKind::Control(b), &[], out),
    }
}

/// Returns whether the margins bound a control sequence without marker and intermediate, by its final byte.
#[tactic(auto, unfolding(crate::specs::Bounded::has_row))]
fn is_bounded_plain(last: u8) -> bool
    ensures { result ≡ has_row bounded_plain last }
{
    match last {
        b'@' => true,
        b'C' => true,
        b'D' => true,
        b'E' => true,
        b'F' => true,
        b'G' => true,
        b'H' => true,
        b'P' => true,
        b'Z' => true,
        b'`' => true,
        b'a' => true,
        b'd' => true,
        b'e' => true,
        b'f' => true,
        _ => false,
    }
}

/// Returns whether a control sequence is ED or EL, in any form, and erases something.
fn erases(values: &[u16], last: u8) -> bool
    ensures { result ≡ erases last values.now }
{
    (last == b'J' || last == b'K') && value(values, 0) <= 2
}

/// Returns whether a control sequence without marker and intermediate resets a pending wrap.
fn resets(values: &[u16], last: u8) -> bool
    ensures { result ≡ resets last values.now }
{
    is_bounded_plain(last)
        || (last == b'A' || (last == b'B' || last == b'X'))
        || erases(values, last)
}

/// Carries out a control sequence without marker and intermediate.
fn plain(
    terminal: &mut SizedTerminal,
    pages: &mut SizedPages,
    sides: Sides,
    values: &[u16],
    last: u8,
    out: &mut Vec<u8>,
)
    requires event { IsEvent (Sequence None (record { items = values.now }) None last) }
    requires one_size { pages.old.other.grid.size ≡ terminal.old.display.grid.size }
    requires fits { AreSides terminal.old.display.grid.width sides }
    requires room { vec_len out.old + 10 ≤ vec_capacity out.old }
    ensures terminal { terminal.new ≡ shown_by (plain_between screen_effect
        (Sequence None (record { items = values.now }) None last) last values.now sides (screens terminal.old pages.old))
        terminal.old.held }
    ensures pages { pages.new ≡ (plain_between screen_effect
        (Sequence None (record { items = values.now }) None last) last values.now sides (screens terminal.old pages.old)).pages }
    ensures reports { out.new.items
        ≡ out.old.items ++ report (Sequence None (record { items = values.now }) None last) terminal.old.display }
    ensures bounded { vec_len out.new ≤ vec_len out.old + 10 }
    ensures capacity { vec_capacity out.old ≤ vec_capacity out.new }
{
    if resets(values, last) {
        pages.sides = Some(sides.unwrapped());
        bounded_plain(terminal, sides, values, last, out);
    } else {
        other_plain(terminal, pages, sides, values, last, out);
    }
}

/// Carries out a control sequence that the margins bound, or one of a VT220.
#[tactic(auto, unfolding(crate::specs::Bounded::bounded_in, vt_term::specs::Functions::sequences_any, vt_term::specs::Reports::sequence_report_any))]
fn bounded_plain(
    terminal: &mut SizedTerminal,
    sides: Sides,
    values: &[u16],
    last: u8,
    out: &mut Vec<u8>,
)
    requires event { IsEvent (Sequence None (record { items = values.now }) None last) }
    requires fits { AreSides terminal.old.display.grid.width sides }
    requires room { vec_len out.old + 10 ≤ vec_capacity out.old }
    ensures terminal { terminal.new ≡ record terminal.old {
      display = bounded_in bounded_plain
          (Sequence None (record { items = values.now }) None last) last values.now sides terminal.old.display;
    } }
    ensures reports { out.new.items
        ≡ out.old.items ++ report (Sequence None (record { items = values.now }) None last) terminal.old.display }
    ensures bounded { vec_len out.new ≤ vec_len out.old + 10 }
    ensures capacity { vec_capacity out.old ≤ vec_capacity out.new }
{
    let n = count(values);
    match last {
        b'@' => sides.insert_character(terminal, n),
        b'C' => sides.cursor_forward(terminal, n),
        b'D' => sides.cursor_backward(terminal, n),
        b'E' => sides.cursor_next_line(terminal, n),
        b'F' => sides.cursor_preceding_line(terminal, n),
        b'G' => sides.cursor_character_absolute(terminal, n),
        b'H' => sides.cursor_position(terminal, value(values, 0), value(values, 1)),
        b'P' => sides.delete_character(terminal, n),
        b'Z' => sides.cursor_backward_tabulation(terminal, n),
        b'`' => sides.cursor_character_absolute(terminal, n),
        b'a' => sides.character_position_forward(terminal, n),
        b'd' => line_position_absolute(terminal, n),
        b'e' => line_position_forward(terminal, n),
        b'f' => sides.cursor_position(terminal, value(values, 0), value(values, 1)),
        _ => {
            let kind = EventKind::Sequence {
                marker: None,
                inter: None,
                last,
            };
            terminal.carry_out(kind, values, out);
        }
    }
}

/// Carries out a control sequence that leaves a pending wrap, or doesn't always reset it: CHT, IL, DL, SU, SD, REP, DECSTBM, or one that the
/// margins don't bound.
#[tactic(auto, unfolding(crate::specs::Bounded::other_between, vt_term::specs::Functions::sequences_any, vt_term::specs::Reports::sequence_report_any))]
fn other_plain(
    terminal: &mut SizedTerminal,
    pages: &mut SizedPages,
    sides: Sides,
    values: &[u16],
    last: u8,
    out: &mut Vec<u8>,
)
    requires event { IsEvent (Sequence None (record { items = values.now }) None last) }
    requires one_size { pages.old.other.grid.size ≡ terminal.old.display.grid.size }
    requires fits { AreSides terminal.old.display.grid.width sides }
    requires room { vec_len out.old + 10 ≤ vec_capacity out.old }
    ensures terminal { terminal.new ≡ shown_by (other_between screen_effect
        (Sequence None (record { items = values.now }) None last) last values.now sides (screens terminal.old pages.old))
        terminal.old.held }
    ensures pages { pages.new ≡ (other_between screen_effect
        (Sequence None (record { items = values.now }) None last) last values.now sides (screens terminal.old pages.old)).pages }
    ensures reports { out.new.items
        ≡ out.old.items ++ report (Sequence None (record { items = values.now }) None last) terminal.old.display }
    ensures bounded { vec_len out.new ≤ vec_len out.old + 10 }
    ensures capacity { vec_capacity out.old ≤ vec_capacity out.new }
{
    let n = count(values);
    match last {
        b'I' => forward_tabs(terminal, pages, sides, n, out),
        b'L' => {
            if sides.is_enclosed(terminal) {
                pages.sides = Some(sides.unwrapped());
                sides.insert_line(terminal, n);
            }
        }
        b'M' => {
            if sides.is_enclosed(terminal) {
                pages.sides = Some(sides.unwrapped());
                sides.delete_line(terminal, n);
            }
        }
        b'S' => sides.rows_up(terminal, n),
        b'T' => {
            if values.len() == 1 {
                sides.rows_down(terminal, n);
            }
        }
        b'^' => sides.rows_down(terminal, n),
        b'b' => repeat(terminal, pages, sides, n),
        b'r' => set_margins(terminal, pages, sides, values, out),
        _ => {
            let kind = EventKind::Sequence {
                marker: None,
                inter: None,
                last,
            };
            carry_out_wide(terminal, pages, kind, values, out);
        }
    }
}

/// Carries out CHT, and HT with 1. `out` stays, and has capacity for ten more bytes.
fn forward_tabs(
    terminal: &mut SizedTerminal,
    pages: &mut SizedPages,
    sides: Sides,
    n: u16,
    out: &mut Vec<u8>,
)
    requires fits { AreSides terminal.old.display.grid.width sides }
    requires room { vec_len out.old + 10 ≤ vec_capacity out.old }
    ensures terminal { terminal.new ≡ shown_by (tabbing n sides (screens terminal.old pages.old)) terminal.old.held }
    ensures pages { pages.new ≡ (tabbing n sides (screens terminal.old pages.old)).pages }
    ensures out { out.new.items ≡ out.old.items }
    ensures len { vec_len out.new ≡ vec_len out.old }
    ensures capacity { vec_capacity out.old ≤ vec_capacity out.new }
{
    if sides.is_pending(terminal) {
        pages.sides = Some(sides.wait(terminal));
    } else {
        pages.sides = Some(sides.unwrapped());
        sides.cursor_forward_tabulation(terminal, n, out);
    }
}

/// Carries out a control sequence with a marker.
fn marked(
    terminal: &mut SizedTerminal,
    pages: &mut SizedPages,
    sides: Sides,
    marker: u8,
    values: &[u16],
    last: u8,
    out: &mut Vec<u8>,
)
    requires event { IsEvent (Sequence (Some marker) (record { items = values.now }) None last) }
    requires one_size { pages.old.other.grid.size ≡ terminal.old.display.grid.size }
    requires room { vec_len out.old + 10 ≤ vec_capacity out.old }
    ensures terminal { terminal.new ≡ shown_by (marked_between screen_effect
        (Sequence (Some marker) (record { items = values.now }) None last) marker last values.now sides
        (screens terminal.old pages.old)) terminal.old.held }
    ensures pages { pages.new ≡ (marked_between screen_effect
        (Sequence (Some marker) (record { items = values.now }) None last) marker last values.now sides
        (screens terminal.old pages.old)).pages }
    ensures reports { out.new.items
        ≡ out.old.items ++ report (Sequence (Some marker) (record { items = values.now }) None last) terminal.old.display }
    ensures bounded { vec_len out.new ≤ vec_len out.old + 10 }
    ensures capacity { vec_capacity out.old ≤ vec_capacity out.new }
{
    let kind = EventKind::Sequence {
        marker: Some(marker),
        inter: None,
        last,
    };
    if marker == b'?' && erases(values, last) {
        pages.sides = Some(sides.unwrapped());
        terminal.carry_out(kind, values, out);
    } else {
        carry_out_wide(terminal, pages, kind, values, out);
    }
}

/// Carries out DECSTBM, whose home is between the margins. It causes no report.
#[tactic(auto, unfolding(vt_term::specs::Functions::sequence_in, vt_term::specs::Functions::sequences_any, vt_term::specs::Reports::sequence_report_any))]
fn set_margins(
    terminal: &mut SizedTerminal,
    pages: &mut SizedPages,
    sides: Sides,
    values: &[u16],
    out: &mut Vec<u8>,
)
    requires event { IsEvent (Sequence None (record { items = values.now }) None 0x72) }
    requires fits { AreSides terminal.old.display.grid.width sides }
    requires room { vec_len out.old + 10 ≤ vec_capacity out.old }
    ensures terminal { terminal.new ≡ shown_by (margins_set (slice_index values.now 0) (slice_index values.now 1) sides
        (screens terminal.old pages.old)) terminal.old.held }
    ensures pages { pages.new ≡ (margins_set (slice_index values.now 0) (slice_index values.now 1) sides
        (screens terminal.old pages.old)).pages }
    ensures out { out.new.items ≡ out.old.items }
    ensures len { vec_len out.new ≡ vec_len out.old }
    ensures capacity { vec_capacity out.old ≤ vec_capacity out.new }
{
    let rows = terminal.size().rows;
    let top = (value(values, 0) as usize).max(1);
    let p2 = value(values, 1) as usize;
    let bottom = if p2 == 0 { rows } else { p2.min(rows) };
    if top < bottom {
        let kind = EventKind::Sequence {
            marker: None,
            inter: None,
            last: b'r',
        };
        terminal.carry_out(kind, values, out);
        sides.home(terminal);
        pages.sides = Some(sides.unwrapped());
    }
}

/// Returns the column before the cursor, or the cursor's own if a wrap is pending. Returns 0 in column 1 without a
/// pending wrap.
fn column_before(terminal: &SizedTerminal, sides: &Sides) -> usize
    ensures value { result ≡ column_before sides.now terminal.now.display }
    ensures inside { result ≤ terminal.now.display.grid.width }
{
    let cursor = terminal.cursor();
    if sides.is_pending(terminal) {
        cursor.col
    } else {
        cursor.col - 1
    }
}

/// Returns the glyph in a column of the cursor's row.
fn glyph_before(terminal: &SizedTerminal, sides: &Sides, col: usize) -> Glyph
    requires some { 1 ≤ col }
    requires column { col ≡ column_before sides.now terminal.now.display }
    requires inside { col ≤ terminal.now.display.grid.width }
    ensures { result ≡ glyph_before sides.now terminal.now.display }
{
    let _ = sides;
    let row = terminal.cursor().row;
    let cells = terminal.row(row);
    cells[col - 1].glyph
}

/// Returns the number of cells to the last column that the cursor reaches, or of those between the margins if a wrap is
/// pending.
fn room(terminal: &SizedTerminal, sides: &Sides) -> usize
    requires { AreSides terminal.now.display.grid.width sides.now }
    ensures { result ≡ room sides.now terminal.now.display }
{
    if sides.is_pending(terminal) {
        sides.right - sides.left + 1
    } else {
        sides.last_reached(terminal) - terminal.cursor().col + 1
    }
}

/// Writes a glyph so many times.
fn write_times(
    terminal: &mut SizedTerminal,
    pages: &mut SizedPages,
    sides: Sides,
    glyph: Glyph,
    n: usize,
)
    requires { AreSides terminal.old.display.grid.width sides }
    ensures terminal { terminal.new ≡ shown_by (writing_times n glyph sides (screens terminal.old pages.old)) terminal.old.held }
    ensures pages { pages.new ≡ (writing_times n glyph sides (screens terminal.old pages.old)).pages }
{
    let mut after = sides;
    for _ in 0..n {
        after = after.write_glyph(terminal, glyph);
        pages.set_sides(after);
    }
}

/// Carries out REP: writes the glyph before the cursor `n` times, and not past the last column that the cursor reaches.
fn repeat(terminal: &mut SizedTerminal, pages: &mut SizedPages, sides: Sides, n: u16)
    requires { AreSides terminal.old.display.grid.width sides }
    ensures terminal { terminal.new ≡ shown_by (repeating n sides (screens terminal.old pages.old)) terminal.old.held }
    ensures pages { pages.new ≡ (repeating n sides (screens terminal.old pages.old)).pages }
{
    let col = column_before(terminal, &sides);
    if col == 0 {
        return;
    }
    let glyph = glyph_before(terminal, &sides, col);
    let times = (n as usize).min(room(terminal, &sides));
    write_times(terminal, pages, sides, glyph, times);
}

/// Plays a character beyond ASCII: it is content in a string, and cuts an unfinished sequence.
pub(crate) fn character_between(
    terminal: &mut SizedTerminal,
    pages: &mut SizedPages,
    sides: Sides,
    c: char,
)
    requires beyond { 0x80 ≤ c }
    requires fits { AreSides terminal.old.display.grid.width sides }
    ensures terminal { terminal.new
        ≡ shown_by (screens_beyond sides c (whole_of terminal.old pages.old)) (held_beyond terminal.old.held) }
    ensures pages { pages.new ≡ (screens_beyond sides c (whole_of terminal.old pages.old)).pages }
{
    match terminal.held() {
        Held::Nothing => write_beyond(terminal, pages, sides, c),
        Held::Text { .. } => {}
        Held::Escape(_) => cut(terminal, pages, sides, c),
        Held::Control { .. } => cut(terminal, pages, sides, c),
        Held::Spoilt => cut(terminal, pages, sides, c),
    }
}

/// Drops what is held, and writes a character beyond ASCII.
fn cut(terminal: &mut SizedTerminal, pages: &mut SizedPages, sides: Sides, c: char)
    requires beyond { 0x80 ≤ c }
    requires fits { AreSides terminal.old.display.grid.width sides }
    ensures terminal { terminal.new ≡ shown_by (writing_beyond c sides (screens terminal.old pages.old)) Nothing }
    ensures pages { pages.new ≡ (writing_beyond c sides (screens terminal.old pages.old)).pages }
{
    terminal.drop_held();
    write_beyond(terminal, pages, sides, c);
}

/// Writes a character beyond ASCII, if it has a cell. A single shift is then no longer pending.
fn write_beyond(terminal: &mut SizedTerminal, pages: &mut SizedPages, sides: Sides, c: char)
    requires beyond { 0x80 ≤ c }
    requires fits { AreSides terminal.old.display.grid.width sides }
    ensures terminal { terminal.new ≡ shown_by (writing_beyond c sides (screens terminal.old pages.old)) terminal.old.held }
    ensures pages { pages.new ≡ (writing_beyond c sides (screens terminal.old pages.old)).pages }
{
    let Some(glyph) = shown_as(c) else {
        return;
    };
    if cells(c) == 1 {
        write_narrow(terminal, pages, sides, glyph);
    } else {
        write_wide(terminal, pages, sides, glyph);
    }
}

/// Writes a glyph of one cell. A single shift is then no longer pending.
#[tactic(auto, unfolding(vt_glyph::specs::Invocation::after_read))]
fn write_narrow(terminal: &mut SizedTerminal, pages: &mut SizedPages, sides: Sides, glyph: Glyph)
    requires fits { AreSides terminal.old.display.grid.width sides }
    ensures terminal { terminal.new
        ≡ shown_by (writing glyph sides (on_display unshifted (screens terminal.old pages.old))) terminal.old.held }
    ensures pages { pages.new ≡ (writing glyph sides (on_display unshifted (screens terminal.old pages.old))).pages }
{
    let _ = terminal.read_glyph(0x20);
    write(terminal, pages, sides, glyph);
}

/// Writes a glyph of two cells, and a space. A single shift is then no longer pending.
#[tactic(auto, unfolding(vt_glyph::specs::Invocation::after_read))]
fn write_both(terminal: &mut SizedTerminal, pages: &mut SizedPages, sides: Sides, glyph: Glyph)
    requires fits { AreSides terminal.old.display.grid.width sides }
    ensures terminal { terminal.new
        ≡ shown_by (writing_both glyph sides (on_display unshifted (screens terminal.old pages.old))) terminal.old.held }
    ensures pages { pages.new ≡ (writing_both glyph sides (on_display unshifted (screens terminal.old pages.old))).pages }
{
    let _ = terminal.read_glyph(0x20);
    let after = sides.write_glyph(terminal, glyph);
    pages.sides = Some(after.write_glyph(terminal, Glyph::blank()));
}

/// Writes a glyph of two cells, and a space. From the last column that the cursor reaches they go to the next line
/// under DECAWM. Without DECAWM they aren't written there.
fn write_wide(terminal: &mut SizedTerminal, pages: &mut SizedPages, sides: Sides, glyph: Glyph)
    requires fits { AreSides terminal.old.display.grid.width sides }
    ensures terminal { terminal.new ≡ shown_by (writing_wide glyph sides (screens terminal.old pages.old)) terminal.old.held }
    ensures pages { pages.new ≡ (writing_wide glyph sides (screens terminal.old pages.old)).pages }
{
    if !sides.has_one_cell_left(terminal) {
        write_both(terminal, pages, sides, glyph);
    } else if terminal.modes().decawm {
        sides.next_line(terminal);
        write_both(terminal, pages, sides, glyph);
    }
}
