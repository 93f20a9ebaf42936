//! How many rows an action scrolls off the top of the main page.
ghost use Rattle.std.specs.Prelude.{◌≡◌, ◌≤◌};
ghost use Rattle.vt_syntax.specs.Event.{event_of};
ghost use Rattle.vt_xterm_display.specs.Writing.{room};
ghost use Rattle.vt_xterm_log.specs.Log.{up_off, index_off, write_off, print_off, character_off, event_off, sequence_off};

use vt_syntax::EventKind;
use vt_term::{Margins, count};
use vt_utf8::cells;
use vt_xterm_display::{Sides, XtermDisplay};

/// Returns how many rows SU scrolls off. Only rows that begin in row 1 of the main page, and are whole, scroll off.
fn up_off(screen: &XtermDisplay, n: u16) -> usize
    ensures off { result ≡ up_off n screen.now }
    ensures few { result ≤ screen.now.shown.grid.size.rows }
{
    screen.shown.soundness();
    let Margins { top, bottom } = screen.shown.margins;
    let Sides { left, right } = screen.sides;
    if !screen.alternate && top == 1 && left == 1 && right == screen.shown.screen.width() {
        return (n as usize).min(bottom);
    }
    0
}

/// Returns how many rows IND scrolls off.
fn index_off(screen: &XtermDisplay) -> usize
    ensures off { result ≡ index_off screen.now }
    ensures few { result ≤ screen.now.shown.grid.size.rows }
{
    if screen.shown.cursor.row == screen.shown.margins.bottom {
        return up_off(screen, 1);
    }
    0
}

/// Returns the number of columns from the cursor to the last one that it reaches.
#[inline(always)]
pub(crate) fn room(screen: &XtermDisplay) -> usize
    ensures room { result ≡ room screen.now.sides screen.now.shown }
    ensures some { 1 ≤ result }
{
    screen.shown.soundness();
    let col = screen.shown.cursor.col;
    let right = screen.sides.right;
    if col <= right {
        return right - col + 1;
    }
    screen.shown.screen.width() - col + 1
}

/// Returns how many rows a character of so many columns scrolls off.
fn write_off(screen: &XtermDisplay, width: usize) -> usize
    ensures off { result ≡ write_off width screen.now }
    ensures few { result ≤ screen.now.shown.grid.size.rows }
{
    let is_pending = screen.waits || screen.shown.cursor.wrap;
    if is_pending || (screen.shown.modes.decawm && room(screen) < width) {
        return index_off(screen);
    }
    0
}

/// Returns how many rows a graphic byte scrolls off. A0 and FF have no glyph.
pub(crate) fn print_off(screen: &XtermDisplay, b: u8) -> usize
    ensures off { result ≡ print_off b screen.now }
    ensures few { result ≤ screen.now.shown.grid.size.rows }
{
    if b != b' ' && (b % 0x80 < b'!' || b % 0x80 > b'~') {
        return 0;
    }
    write_off(screen, 1)
}

/// Returns how many rows a character beyond ASCII scrolls off.
pub(crate) fn character_off(screen: &XtermDisplay, c: char) -> usize
    ensures off { result ≡ character_off c screen.now }
    ensures few { result ≤ screen.now.shown.grid.size.rows }
{
    let width = cells(c);
    if width == 0 {
        return 0;
    }
    write_off(screen, width)
}

/// Returns how many rows a control sequence without marker and intermediate scrolls off.
#[tactic(auto, unfolding(crate::specs::Log::sequence_off))]
fn sequence_off(screen: &XtermDisplay, last: u8, values: &[u16]) -> usize
    ensures off { result ≡ sequence_off None None last values.now screen.now }
    ensures few { result ≤ screen.now.shown.grid.size.rows }
{
    match last {
        b'S' => up_off(screen, count(values)),
        b'b' => {
            if screen.waits || screen.shown.cursor.wrap {
                index_off(screen)
            } else {
                0
            }
        }
        _ => 0,
    }
}

/// Returns how many rows an event scrolls off.
#[tactic(auto, unfolding(crate::specs::Log::sequence_off))]
pub(crate) fn event_off(screen: &XtermDisplay, kind: EventKind, values: &[u16]) -> usize
    ensures off { result ≡ event_off (event_of kind values.now) screen.now }
    ensures few { result ≤ screen.now.shown.grid.size.rows }
{
    match kind {
        EventKind::Print(b) => print_off(screen, b),
        EventKind::Control(b) => match b {
            0x0A | 0x0B | 0x0C | 0x84 | 0x85 => index_off(screen),
            0x1A => write_off(screen, 1),
            _ => 0,
        },
        EventKind::Sequence {
            marker: None,
            inter: None,
            last,
        } => sequence_off(screen, last, values),
        _ => 0,
    }
}
