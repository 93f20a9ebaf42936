//! The players of a log, which also give the lines that scroll off.
ghost use Rattle.std.specs.Prelude.{◌≡◌, ◌+◌, ◌*◌, ◌≤◌, ◌++◌, [], ℕ, List, length, take, vec_len, vec_capacity};
ghost use Rattle.vt_screen.specs.declared.size.Size.{Size};
ghost use Rattle.vt_screen.specs.Sizes.{IsSize};
ghost use Rattle.vt_term.specs.Play.{both};
ghost use Rattle.vt_term.specs.Resizing.{state_on, log_on};
ghost use Rattle.vt_term.specs.Text.{row_text_limit, text_limit};
ghost use Rattle.vt_utf8.specs.Limits.{utf8_lines_limit};
ghost use Rattle.vt_xterm.specs.Limits.{xterm_lines_limit};
ghost use Rattle.vt_xterm.specs.Play.{behind};
ghost use Rattle.vt_xterm.specs.Resizing.{main_row, whole_on, xterm_log_on};

use crate::player::{PlainPlayer, Player, Utf8Player, XtermPlayer};
use vt_term::laws::{resizes, sized_cuts, sized_log_cuts};
use vt_term::{Size, SizedTerminal};
use vt_utf8::laws::sized_cuts as utf8_cuts;
use vt_utf8::sized::feed_utf8_log_reserved;
use vt_xterm::SizedFront;
use vt_xterm::laws::{cuts as xterm_cuts, log_cuts as xterm_log_cuts, resizes as xterm_resizes};
use vt_xterm::sized::feed_xterm_log_reserved;

/// The most bytes of lines that leave at a byte: twice the text of the largest screen.
const LINES_LIMIT: usize = 390660;

/// States that so many bytes are enough for the lines of a byte in each language, and for the text, for proofs. It does
/// nothing when it runs.
#[inline(always)]
pub(crate) fn lines_fit(terminal: &SizedTerminal)
    ensures line { row_text_limit terminal.now.display.grid.size ≤ 390660 }
    ensures text { text_limit terminal.now.display.grid.size ≤ 195330 }
    ensures utf8 { utf8_lines_limit terminal.now.display.grid.size ≤ 390660 }
    ensures xterm { xterm_lines_limit terminal.now.display.grid.size ≤ 390660 }
{
    let _ = terminal.size();
}

/// A player that also gives the lines that scroll off.
pub(crate) trait LogPlayer: Player {
    /// The row of the main page's cursor.
    ghost line: { Self → ℕ };

    /// The capacity for the lines of a byte.
    ghost room: { ℕ };

    /// Returns the capacity for the lines of a byte.
    fn capacity(&self) -> usize
        ensures room { result ≡ room }
        ensures most { room ≤ 1000000 };

    /// Plays the front of a chunk that isn't empty. Appends the lines that scroll off to `lines`, which has capacity for
    /// those of a byte. Returns how many bytes it played. The reports are dropped. `reports` has capacity for ten more
    /// bytes for each byte of the chunk, and is overwritten. It allocates nothing.
    fn feed_log(&mut self, chunk: &[u8], reports: &mut Vec<u8>, lines: &mut Vec<u8>) -> usize
        requires some { 1 ≤ length chunk.now }
        requires reports { vec_len reports.old + 10 * length chunk.now ≤ vec_capacity reports.old }
        requires room { vec_len lines.old + room ≤ vec_capacity lines.old }
        ensures some { 1 ≤ result }
        ensures within { result ≤ length chunk.now }
        ensures lines { lines.new.items ≡ lines.old.items ++ Self.session.lines (Self.kept self.old) (take result chunk.now) }
        ensures lines_on { (more : List ℕ) → Self.session.lines (Self.kept self.old) (take result chunk.now ++ more)
            ≡ Self.session.lines (Self.kept self.old) (take result chunk.now) ++ Self.session.lines (Self.kept self.new) more }
        ensures on { (more : List ℕ) → Self.session.played (Self.kept self.old) (take result chunk.now ++ more)
            ≡ both (Self.session.played (Self.kept self.old) (take result chunk.now)) (Self.session.played (Self.kept self.new) more) }
        ensures after { (more : List ℕ) → Self.session.after (Self.kept self.old) (take result chunk.now ++ more)
            ≡ Self.session.after (Self.kept self.new) more }
        ensures one { length chunk.now ≤ 1 → vec_len lines.new ≤ vec_len lines.old + room }
        ensures reports_capacity { vec_capacity reports.old ≤ vec_capacity reports.new }
        ensures capacity { vec_capacity lines.old ≤ vec_capacity lines.new };

    /// Makes another player, of any size, what this one becomes if the screen changes to that size. Appends the lines
    /// that leave at the top to `lines`. This has capacity for one for each row above that cursor. It allocates nothing.
    fn resize_log_into(&self, target: &mut Self, lines: &mut Vec<u8>)
        requires { vec_len lines.old + 766 * line self.now ≤ vec_capacity lines.old + 766 }
        ensures kept { Self.kept target.new ≡ Self.session.on (Self.screen target.old) (Self.kept self.now) }
        ensures lines { lines.new.items ≡ lines.old.items ++ Self.session.off (Self.screen target.old) (Self.kept self.now) }
        ensures bounded { vec_len lines.new + 766 * line target.new ≤ vec_len lines.old + 766 * line self.now }
        ensures capacity { vec_capacity lines.old ≤ vec_capacity lines.new };

    /// States that no line scrolls off without a byte, that the cursor is in a row, and that it is in the first one of
    /// a new terminal, for proofs. It does nothing when it runs.
    fn rows(&self)
        ensures none { Self.session.lines (Self.kept self.now) [] ≡ [] }
        ensures some { 1 ≤ line self.now }
        ensures most { line self.now ≤ 255 }
        ensures begun { (size : Size) → Self.kept self.now ≡ Self.begun size → line self.now ≡ 1 };
}

/// Appends what a change to another size adds to the log. `lines` has capacity for one for each row above the cursor.
fn push_moved(terminal: &SizedTerminal, size: Size, lines: &mut Vec<u8>)
    requires size { IsSize size }
    requires room { vec_len lines.old + 766 * terminal.now.display.cursor.row ≤ vec_capacity lines.old + 766 }
    ensures lines { lines.new.items ≡ lines.old.items ++ log_on size terminal.now }
    ensures bounded { vec_len lines.new + 766 * (state_on size terminal.now).display.cursor.row
        ≤ vec_len lines.old + 766 * terminal.now.display.cursor.row }
    ensures capacity { vec_capacity lines.old ≤ vec_capacity lines.new }
{
    resizes();
    let _ = terminal.size();
    terminal.soundness();
    terminal.log_on(size, lines).unwrap();
}

/// Appends what a change to another size adds to the log of a session. `lines` has capacity for one for each row of the main
/// page above its cursor.
fn push_moved_xterm(terminal: &SizedTerminal, front: &SizedFront, size: Size, lines: &mut Vec<u8>)
    requires size { IsSize size }
    requires one_size { front.now.pages.other.grid.size ≡ terminal.now.display.grid.size }
    requires room { vec_len lines.old + 766 * main_row (behind terminal.now front.now) ≤ vec_capacity lines.old + 766 }
    ensures lines { lines.new.items ≡ lines.old.items ++ xterm_log_on size (behind terminal.now front.now) }
    ensures bounded { vec_len lines.new + 766 * main_row (whole_on size (behind terminal.now front.now))
        ≤ vec_len lines.old + 766 * main_row (behind terminal.now front.now) }
    ensures capacity { vec_capacity lines.old ≤ vec_capacity lines.new }
{
    xterm_resizes();
    let _ = terminal.size();
    let _ = front.size();
    terminal.soundness();
    front.log_on(terminal, size, lines).unwrap();
}

impl LogPlayer for PlainPlayer {
    ghost line = { λ p. p.terminal.display.cursor.row };

    ghost room = { 390660 };

    fn capacity(&self) -> usize {
        LINES_LIMIT
    }

    fn feed_log(&mut self, chunk: &[u8], reports: &mut Vec<u8>, lines: &mut Vec<u8>) -> usize {
        self.terminal.soundness();
        lines_fit(&self.terminal);
        sized_cuts();
        sized_log_cuts();
        self.terminal.feed_log_reserved(chunk, reports, lines)
    }

    fn resize_log_into(&self, target: &mut PlainPlayer, lines: &mut Vec<u8>) {
        push_moved(&self.terminal, target.terminal.size(), lines);
        self.resize_into(target);
    }

    fn rows(&self) {
        sized_log_cuts();
        let _ = self.terminal.size();
        self.terminal.soundness();
    }
}

impl LogPlayer for Utf8Player {
    ghost line = { λ p. p.terminal.display.cursor.row };

    ghost room = { 390660 };

    fn capacity(&self) -> usize {
        LINES_LIMIT
    }

    fn feed_log(&mut self, chunk: &[u8], reports: &mut Vec<u8>, lines: &mut Vec<u8>) -> usize {
        self.terminal.soundness();
        lines_fit(&self.terminal);
        utf8_cuts();
        sized_log_cuts();
        feed_utf8_log_reserved(
            &mut self.terminal,
            &mut self.decoder,
            chunk,
            reports,
            lines,
            LINES_LIMIT,
        )
    }

    fn resize_log_into(&self, target: &mut Utf8Player, lines: &mut Vec<u8>) {
        push_moved(&self.terminal, target.terminal.size(), lines);
        self.resize_into(target);
    }

    fn rows(&self) {
        sized_log_cuts();
        let _ = self.terminal.size();
        self.terminal.soundness();
    }
}

impl LogPlayer for XtermPlayer {
    ghost line = { λ p. main_row (behind p.terminal p.front) };

    ghost room = { 390660 };

    fn capacity(&self) -> usize {
        LINES_LIMIT
    }

    fn feed_log(&mut self, chunk: &[u8], reports: &mut Vec<u8>, lines: &mut Vec<u8>) -> usize {
        lines_fit(&self.terminal);
        xterm_cuts();
        utf8_cuts();
        xterm_log_cuts();
        feed_xterm_log_reserved(
            &mut self.terminal,
            &mut self.front,
            chunk,
            reports,
            lines,
            LINES_LIMIT,
        )
    }

    fn resize_log_into(&self, target: &mut XtermPlayer, lines: &mut Vec<u8>) {
        push_moved_xterm(&self.terminal, &self.front, target.terminal.size(), lines);
        self.resize_into(target);
    }

    fn rows(&self) {
        xterm_log_cuts();
        let _ = self.terminal.size();
        let _ = self.front.size();
        self.terminal.soundness();
    }
}
