//! The places for the lines that scroll off: none, or the end of a vector.
ghost use Rattle.std.specs.Prelude.{◌≡◌, ◌≤◌, ◌<◌, ◌+◌, ◌*◌, ◌++◌, length, take, flat_map, vec_len, vec_capacity, None, []};
ghost use Rattle.vt_syntax.specs.Event.{event_of};
ghost use Rattle.vt_term.specs.Play.{play};
ghost use Rattle.vt_term.specs.Scrolling.{scrolled_off};
ghost use Rattle.vt_term.specs.Text.{line_text, text_limit};
ghost use Rattle.vt_utf8.specs.Translation.{glyph_off};
ghost use Rattle.vt_xterm.specs.Limits.{lines_limit, xterm_lines_limit};
ghost use Rattle.vt_xterm.specs.Log.{first_rows, rows_off, function_off, page_line_off};
ghost use Rattle.vt_xterm.specs.Play.{play_bytes, whole_of};
ghost use Rattle.vt_xterm.specs.Terminals.{PlaysTerminals};
ghost use Rattle.vt_xterm.specs.Private.Feeds.{FeedsBytes, KeepSizes};

use crate::feeding::{feed_bytes, feed_event};
use crate::finder::Finder;
use crate::front::SizedPages;
use crate::playing::{feed_block, feed_pages};
use vt_syntax::EventKind;
use vt_term::laws::sized_happened;
use vt_term::{Lines, Nobody, SizedTerminal, count};
use vt_utf8::Log;

/// A place for the lines that scroll off the main page: nowhere, or after others. It plays the bytes that cause them.
pub(crate) trait PageLog: Log {
    /// Plays the front of a chunk of the terminal's bytes, with the functions of xterm, until the log is full. Returns how many
    /// bytes it played. `limit` is `xterm_lines_limit` of the terminal.
    fn play(
        &mut self,
        terminal: &mut SizedTerminal,
        pages: &mut SizedPages,
        piece: &[u8],
        limit: usize,
        out: &mut Vec<u8>,
    ) -> usize
        requires room { vec_len out.old + 10 * length piece.now ≤ vec_capacity out.old }
        requires one_size { pages.old.other.grid.size ≡ terminal.old.display.grid.size }
        requires limit { limit ≡ xterm_lines_limit terminal.old.display.grid.size }
        ensures within { result ≤ length piece.now }
        ensures all { result < length piece.now → Self.IsFull self.new (xterm_lines_limit terminal.old.display.grid.size) }
        ensures sizes { KeepSizes terminal.old pages.old terminal.new pages.new }
        ensures fed { FeedsBytes (whole_of terminal.old pages.old) (take result piece.now) (whole_of terminal.new pages.new)
            out.old.items out.new.items }
        ensures keeps { Self.Keeps self.old (play_bytes (whole_of terminal.old pages.old) (take result piece.now)).lines self.new }
        ensures bounded { vec_len out.new ≤ vec_len out.old + 10 * result }
        ensures capacity { vec_capacity out.old ≤ vec_capacity out.new };

    /// Plays the front of a chunk that isn't empty: one byte, or more of them. Returns how many bytes it played.
    fn play_some(
        &mut self,
        terminal: &mut SizedTerminal,
        pages: &mut SizedPages,
        piece: &[u8],
        out: &mut Vec<u8>,
    ) -> usize
        requires some { 1 ≤ length piece.now }
        requires room { vec_len out.old + 10 * length piece.now ≤ vec_capacity out.old }
        requires lines_room { Self.HasRoom self.old (lines_limit terminal.old.display.grid.size) }
        requires one_size { pages.old.other.grid.size ≡ terminal.old.display.grid.size }
        ensures some { 1 ≤ result }
        ensures within { result ≤ length piece.now }
        ensures sizes { KeepSizes terminal.old pages.old terminal.new pages.new }
        ensures fed { FeedsBytes (whole_of terminal.old pages.old) (take result piece.now) (whole_of terminal.new pages.new)
            out.old.items out.new.items }
        ensures keeps { Self.Keeps self.old (play_bytes (whole_of terminal.old pages.old) (take result piece.now)).lines self.new }
        ensures bounded { vec_len out.new ≤ vec_len out.old + 10 * result }
        ensures capacity { vec_capacity out.old ≤ vec_capacity out.new };
}

/// The lines go nowhere: a feed without an observer.
impl PageLog for Nobody {
    #[inline(always)]
    fn play(
        &mut self,
        terminal: &mut SizedTerminal,
        pages: &mut SizedPages,
        piece: &[u8],
        limit: usize,
        out: &mut Vec<u8>,
    ) -> usize {
        feed_pages(terminal, pages, piece, out)
    }

    #[inline(always)]
    fn play_some(
        &mut self,
        terminal: &mut SizedTerminal,
        pages: &mut SizedPages,
        piece: &[u8],
        out: &mut Vec<u8>,
    ) -> usize {
        feed_block(terminal, pages, piece, out)
    }
}

/// The lines go after others.
impl PageLog for Lines<'_, Finder> {
    fn play(
        &mut self,
        terminal: &mut SizedTerminal,
        pages: &mut SizedPages,
        piece: &[u8],
        limit: usize,
        out: &mut Vec<u8>,
    ) -> usize {
        feed_bytes(terminal, pages, piece, limit, self, out)
    }

    fn play_some(
        &mut self,
        terminal: &mut SizedTerminal,
        pages: &mut SizedPages,
        piece: &[u8],
        out: &mut Vec<u8>,
    ) -> usize {
        feed_event(terminal, pages, piece, self, out)
    }
}

/// A place for lines, and a feed that stops before each event that isn't a VT220's: such an event may scroll other lines off, or
/// show the other page.
pub(crate) trait LineLog: Log {
    /// Plays the front of a chunk, up to the first event that isn't a VT220's, or up to a line for which there is no capacity.
    /// Returns how many bytes it played.
    fn feed(&mut self, terminal: &mut SizedTerminal, piece: &[u8], out: &mut Vec<u8>) -> usize
        requires { vec_len out.old + 10 * length piece.now ≤ vec_capacity out.old }
        ensures within { result ≤ length piece.now }
        ensures terminals { PlaysTerminals terminal.old (take result piece.now) }
        ensures state { terminal.new ≡ (play terminal.old (take result piece.now)).state }
        ensures reports { out.new.items ≡ out.old.items ++ (play terminal.old (take result piece.now)).reports }
        ensures keeps { Self.Keeps self.old (scrolled_off terminal.old (take result piece.now)) self.new }
        ensures bounded { vec_len out.new ≤ vec_len out.old + 10 * result }
        ensures capacity { vec_capacity out.old ≤ vec_capacity out.new };

    /// Gets the lines that an event is about to scroll off.
    fn event(&mut self, terminal: &SizedTerminal, kind: EventKind, values: &[u16])
        requires { Self.HasRoom self.old (lines_limit terminal.now.display.grid.size) }
        ensures { Self.Keeps self.old (page_line_off (event_of kind values.now) terminal.now.display) self.new };
}

/// Plays the front of a chunk, up to the first event that isn't a VT220's. Returns how many bytes it played. Speed: nothing else
/// feeds with this observer alone, so there is one copy of the loop, in which all is inline.
#[inline(never)]
pub(crate) fn feed_terminals(terminal: &mut SizedTerminal, piece: &[u8], out: &mut Vec<u8>) -> usize
    requires { vec_len out.old + 10 * length piece.now ≤ vec_capacity out.old }
    ensures within { result ≤ length piece.now }
    ensures terminals { PlaysTerminals terminal.old (take result piece.now) }
    ensures state { terminal.new ≡ (play terminal.old (take result piece.now)).state }
    ensures reports { out.new.items ≡ out.old.items ++ (play terminal.old (take result piece.now)).reports }
    ensures bounded { vec_len out.new ≤ vec_len out.old + 10 * result }
    ensures capacity { vec_capacity out.old ≤ vec_capacity out.new }
{
    terminal.soundness();
    sized_happened();
    terminal.feed_observed(piece, &mut Finder, out)
}

impl LineLog for Lines<'_, Finder> {
    #[inline(always)]
    fn feed(&mut self, terminal: &mut SizedTerminal, piece: &[u8], out: &mut Vec<u8>) -> usize {
        terminal.soundness();
        sized_happened();
        self.limit = terminal.row_text_limit();
        terminal.feed_observed(piece, self, out)
    }

    fn event(&mut self, terminal: &SizedTerminal, kind: EventKind, values: &[u16]) {
        push_line_off(terminal, kind, values, self.lines);
    }
}

/// Appends the lines that an event is about to scroll off. `lines` has capacity for a screen.
fn push_line_off(terminal: &SizedTerminal, kind: EventKind, values: &[u16], lines: &mut Vec<u8>)
    requires { vec_len lines.old + text_limit terminal.now.display.grid.size ≤ vec_capacity lines.old }
    ensures items { lines.new.items
        ≡ lines.old.items ++ flat_map line_text (page_line_off (event_of kind values.now) terminal.now.display) }
    ensures bounded { vec_len lines.new ≤ vec_len lines.old + text_limit terminal.now.display.grid.size }
    ensures capacity { vec_capacity lines.old ≤ vec_capacity lines.new }
{
    let _ = terminal.size();
    match kind {
        EventKind::Print(_) => terminal.line_off_reserved(kind, lines),
        EventKind::Control(_) => terminal.line_off_reserved(kind, lines),
        EventKind::Escape { .. } => {}
        EventKind::Sequence {
            marker,
            inter,
            last,
        } => push_function(terminal, marker, inter, last, values, lines),
    }
}

/// Appends the lines that a control sequence is about to scroll off.
#[tactic(auto, unfolding(crate::specs::Log::function_off))]
fn push_function(
    terminal: &SizedTerminal,
    marker: Option<u8>,
    inter: Option<u8>,
    last: u8,
    values: &[u16],
    lines: &mut Vec<u8>,
)
    requires { vec_len lines.old + text_limit terminal.now.display.grid.size ≤ vec_capacity lines.old }
    ensures items { lines.new.items
        ≡ lines.old.items ++ flat_map line_text (function_off marker inter last values.now terminal.now.display) }
    ensures bounded { vec_len lines.new ≤ vec_len lines.old + text_limit terminal.now.display.grid.size }
    ensures capacity { vec_capacity lines.old ≤ vec_capacity lines.new }
{
    match (marker, inter) {
        (None, None) => push_plain(terminal, last, values, lines),
        _ => {}
    }
}

/// Appends the lines that a control sequence without marker and intermediate is about to scroll off.
#[tactic(auto, unfolding(crate::specs::Log::function_off))]
fn push_plain(terminal: &SizedTerminal, last: u8, values: &[u16], lines: &mut Vec<u8>)
    requires { vec_len lines.old + text_limit terminal.now.display.grid.size ≤ vec_capacity lines.old }
    ensures items { lines.new.items
        ≡ lines.old.items ++ flat_map line_text (function_off None None last values.now terminal.now.display) }
    ensures bounded { vec_len lines.new ≤ vec_len lines.old + text_limit terminal.now.display.grid.size }
    ensures capacity { vec_capacity lines.old ≤ vec_capacity lines.new }
{
    match last {
        b'S' => push_rows(terminal, count(values), lines),
        b'b' => push_repeated(terminal, lines),
        _ => {}
    }
}

/// Appends the rows that SU is about to scroll off.
fn push_rows(terminal: &SizedTerminal, n: u16, lines: &mut Vec<u8>)
    requires { vec_len lines.old + text_limit terminal.now.display.grid.size ≤ vec_capacity lines.old }
    ensures items { lines.new.items ≡ lines.old.items ++ flat_map line_text (rows_off n terminal.now.display) }
    ensures bounded { vec_len lines.new ≤ vec_len lines.old + text_limit terminal.now.display.grid.size }
    ensures capacity { vec_capacity lines.old ≤ vec_capacity lines.new }
{
    terminal.soundness();
    let margins = terminal.margins();
    if margins.top == 1 {
        push_first(terminal, margins.bottom.min(n as usize), lines);
    }
}

/// Appends the texts of the first `count` rows.
fn push_first(terminal: &SizedTerminal, count: usize, lines: &mut Vec<u8>)
    requires few { count ≤ terminal.now.display.grid.size.rows }
    requires room { vec_len lines.old + text_limit terminal.now.display.grid.size ≤ vec_capacity lines.old }
    ensures items { lines.new.items ≡ lines.old.items
        ++ flat_map line_text (first_rows count terminal.now.display.grid) }
    ensures bounded { vec_len lines.new ≤ vec_len lines.old + text_limit terminal.now.display.grid.size }
    ensures capacity { vec_capacity lines.old ≤ vec_capacity lines.new }
{
    for row in 1..count + 1 {
        terminal.row_text_reserved(row, lines);
    }
}

/// Appends line 1 if the glyph that REP writes is about to scroll it off.
fn push_repeated(terminal: &SizedTerminal, lines: &mut Vec<u8>)
    requires { vec_len lines.old + text_limit terminal.now.display.grid.size ≤ vec_capacity lines.old }
    ensures items { lines.new.items ≡ lines.old.items ++ flat_map line_text (glyph_off terminal.now.display) }
    ensures bounded { vec_len lines.new ≤ vec_len lines.old + text_limit terminal.now.display.grid.size }
    ensures capacity { vec_capacity lines.old ≤ vec_capacity lines.new }
{
    if terminal.cursor().wrap && terminal.is_at_end() {
        terminal.row_text_reserved(1, lines);
    }
}
