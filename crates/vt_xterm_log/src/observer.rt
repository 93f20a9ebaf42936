//! An observer that keeps the lines that scroll off.
ghost use Rattle.std.specs.Prelude.{◌≡◌, ◌≤◌, ◌+◌, ◌++◌, vec_len, vec_capacity};
ghost use Rattle.vt_xterm_display.specs.Text.{rows_text, xterm_text_limit};

use crate::scrolling::{character_off, event_off, print_off, room};
use vt_feed::Observer;
use vt_syntax::EventKind;
use vt_xterm_display::{XtermDisplay, push_rows};

/// An observer that keeps the texts of the lines that scroll off the main page. It is full if the lines of two actions might not fit.
#[derive(Drop)]
pub struct Log<'a> {
    /// The vector to which the texts are appended.
    pub lines: &'a mut Vec<u8>,
    /// The limit of the lines of an action in bytes: the limit of a text of the screen. Lines of a larger screen aren't kept.
    pub limit: usize,
    /// The length up to which texts are appended, if there is capacity.
    pub end: usize,
}

/// Returns the limit of a text of the screen in bytes.
fn text_limit(screen: &XtermDisplay) -> usize
    ensures { result ≡ xterm_text_limit screen.now.shown.grid.size }
{
    let size = screen.shown.screen.size();
    size.rows * (12 * size.wide + 1)
}

/// Appends the texts of the first `count` rows. `lines` has capacity for `limit` bytes. Longer texts aren't appended.
#[inline(always)]
fn push_off(screen: &XtermDisplay, count: usize, limit: usize, lines: &mut Vec<u8>)
    requires rows { count ≤ screen.now.shown.grid.size.rows }
    requires room { vec_len lines.old + limit ≤ vec_capacity lines.old }
    ensures items { xterm_text_limit screen.now.shown.grid.size ≤ limit
        → lines.new.items ≡ lines.old.items ++ rows_text count screen.now.shown.grid }
    ensures bounded { vec_len lines.new ≤ vec_len lines.old + limit }
    ensures capacity { vec_capacity lines.old ≤ vec_capacity lines.new }
{
    if text_limit(screen) <= limit {
        push_rows(&screen.shown.screen, count, lines);
    }
}

impl Observer<XtermDisplay> for Log<'_> {
    ghost use Rattle.std.specs.Prelude.{◌≡◌, ◌≤◌, ◌<◌, ◌+◌, ◌*◌, ◌⊎◌, vec_len, vec_capacity};
    ghost use Rattle.vt_xterm_log.specs.Log.{RunFits};
    ghost use Rattle.vt_xterm_log.specs.Observers.{SawLines, lines_joined};

    ghost Saw = { SawLines (λ o. o.lines.now.items) (λ o. vec_len o.lines.now) (λ o. o.limit) (λ o. o.end)
        (λ o. vec_capacity o.lines.now) (λ o. o.lines.ghost_name) };

    ghost HasRoom = { λ o n. (vec_len o.lines.now + n * o.limit ≤ vec_capacity o.lines.now) × (vec_len o.lines.now + n * o.limit ≤ o.end) };

    ghost Fits = { λ o s n. ((vec_len o.lines.now + 1 * o.limit ≤ vec_capacity o.lines.now) × (vec_len o.lines.now + 1 * o.limit ≤ o.end))
        × RunFits n s };

    ghost Full = { λ o. (vec_capacity o.lines.now < vec_len o.lines.now + 2 * o.limit) ⊎ (o.end < vec_len o.lines.now + 2 * o.limit) };

    ghost joined = { lines_joined (λ o. o.lines.now.items) (λ o. vec_len o.lines.now) (λ o. o.limit) (λ o. o.end)
        (λ o. vec_capacity o.lines.now) (λ o. o.lines.ghost_name) };

    #[inline(always)]
    fn is_full(&self) -> bool {
        let last = self.end.min(self.lines.capacity());
        !(self.lines.len() <= last && self.limit <= (last - self.lines.len()) / 2)
    }

    #[inline(always)]
    fn bytes(&mut self, bytes: &[u8]) {}

    #[inline(always)]
    fn event(&mut self, machine: &XtermDisplay, kind: EventKind, values: &[u16]) {
        let count = event_off(machine, kind, values);
        push_off(machine, count, self.limit, self.lines);
    }

    #[inline(always)]
    fn character(&mut self, machine: &XtermDisplay, c: char) {
        let count = character_off(machine, c);
        push_off(machine, count, self.limit, self.lines);
    }

    #[inline(always)]
    fn limit(&self, machine: &XtermDisplay) -> usize {
        if machine.waits || machine.shown.cursor.wrap {
            return 1;
        }
        room(machine)
    }

    #[inline(always)]
    fn run(&mut self, machine: &XtermDisplay, run: &[u8]) {
        let count = print_off(machine, run[0]);
        push_off(machine, count, self.limit, self.lines);
    }
}
