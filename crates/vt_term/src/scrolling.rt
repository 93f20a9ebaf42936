//! Feeding with the lines that scroll off the top of the screen.
ghost use Rattle.std.specs.Prelude.{◌≡◌, ◌+◌, ◌*◌, ◌≤◌, ◌<◌, ◌⊎◌, ◌++◌, ◌&&◌, ℕ, List, true, false, length, take};
ghost use Rattle.std.specs.Prelude.{flat_map};
ghost use Rattle.std.specs.Prelude.{vec_len, vec_capacity, OnOk, OnErr, IsOk};
ghost use Rattle.std.specs.Bool.{OnTrue, OnFalse};
ghost use Rattle.vt_glyph.specs.Invocation.{has_no_glyph};
ghost use Rattle.vt_syntax.specs.Event.{event_of};
ghost use Rattle.vt_term.specs.Play.{play};
ghost use Rattle.vt_term.specs.Scrolling.{is_at_end, is_line_feed, feeds_line, scrolls_off, line_off, log};
ghost use Rattle.vt_term.specs.ScrollSteps.{Fits};
ghost use Rattle.vt_term.specs.Text.{line_text, row_text_limit};

use crate::codes::{FF, HALF, IND, LF, NEL, SUB, VT};
use crate::laws::sized_happened;
use crate::observing::{Nobody, Observer};
use crate::sized::{REPORT_LIMIT, SizedTerminal};
use std::alloc::AllocError;
use vt_syntax::EventKind;
use vt_syntax::laws::{one_split, spelled};

/// Returns whether a control is a line feed.
#[inline(always)]
fn is_line_feed(b: u8) -> bool
    ensures { result ≡ is_line_feed b }
{
    b == LF || b == VT || b == FF || b == IND || b == NEL
}

/// Returns whether a graphic byte has no glyph: A0 and FF have none.
#[inline(always)]
fn has_no_glyph(b: u8) -> bool
    ensures { result ≡ has_no_glyph b }
{
    b != b' ' && (b % HALF < b'!' || b % HALF > b'~')
}

impl SizedTerminal {
    /// Plays a chunk of the host's bytes, and appends the reports to `reports` and the lines that scroll off to `lines`.
    ///
    /// It first reserves ten bytes of capacity for each byte of the chunk in `reports`, and `row_text_limit` in `lines`.
    /// Returns `Err` if that fails, or is more than any vector may hold. Then the terminal and the contents of both are
    /// unchanged.
    #[tactic(auto, using(crate::proofs::SizeKept::play_kept))]
    pub fn feed_log(
        &mut self,
        piece: &[u8],
        reports: &mut Vec<u8>,
        lines: &mut Vec<u8>,
    ) -> Result<(), AllocError>
        ensures size { self.new.display.grid.size ≡ self.old.display.grid.size }
        ensures state { OnOk result (self.new ≡ (play self.old piece.now).state) }
        ensures reports { OnOk result (reports.new.items ≡ reports.old.items ++ (play self.old piece.now).reports) }
        ensures lines { OnOk result (lines.new.items ≡ lines.old.items ++ log self.old piece.now) }
        ensures same_state { OnErr result (self.new ≡ self.old) }
        ensures same_reports { OnErr result (reports.new.items ≡ reports.old.items) }
        ensures same_lines { OnErr result (lines.new.items ≡ lines.old.items) }
        ensures reports_bounded { vec_len reports.new ≤ vec_len reports.old + 10 * length piece.now }
        ensures lines_bounded { vec_len lines.new ≤ vec_len lines.old + row_text_limit self.old.display.grid.size * length piece.now }
        ensures reports_capacity { vec_capacity reports.old ≤ vec_capacity reports.new }
        ensures lines_capacity { vec_capacity lines.old ≤ vec_capacity lines.new }
        ensures has_room { (vec_len reports.old + 10 * length piece.now ≤ vec_capacity reports.old)
            × (vec_len lines.old + row_text_limit self.old.display.grid.size * length piece.now ≤ vec_capacity lines.old) → IsOk result }
    {
        let Some(reports_room) = piece.len().checked_mul(REPORT_LIMIT) else {
            return Err(AllocError);
        };
        let Some(lines_room) = piece.len().checked_mul(self.row_text_limit()) else {
            return Err(AllocError);
        };
        reports.reserve(reports_room)?;
        lines.reserve(lines_room)?;
        self.feed_log_reserved(piece, reports, lines);
        Ok(())
    }

    /// Plays the front of a chunk of the host's bytes, and appends the reports to `reports` and the lines that scroll off to
    /// `lines`. Returns how many bytes it played.
    ///
    /// If it stops early, `lines` has fewer than `row_text_limit` bytes free, the capacity of one line. With capacity for a
    /// line for each byte, it plays the whole chunk. `reports` has capacity for ten more bytes for each byte of the chunk. It
    /// never fails and allocates nothing.
    #[tactic(auto, unfolding(crate::specs::Scrolling::log))]
    pub fn feed_log_reserved(
        &mut self,
        piece: &[u8],
        reports: &mut Vec<u8>,
        lines: &mut Vec<u8>,
    ) -> usize
        requires { vec_len reports.old + 10 * length piece.now ≤ vec_capacity reports.old }
        ensures within { result ≤ length piece.now }
        ensures all { result < length piece.now
            → vec_capacity lines.new < vec_len lines.new + row_text_limit self.old.display.grid.size }
        ensures state { self.new ≡ (play self.old (take result piece.now)).state }
        ensures reports { reports.new.items ≡ reports.old.items ++ (play self.old (take result piece.now)).reports }
        ensures lines { lines.new.items ≡ lines.old.items ++ log self.old (take result piece.now) }
        ensures reports_bounded { vec_len reports.new ≤ vec_len reports.old + 10 * result }
        ensures lines_bounded { vec_len lines.new ≤ vec_len lines.old + row_text_limit self.old.display.grid.size * result }
        ensures reports_capacity { vec_capacity reports.old ≤ vec_capacity reports.new }
        ensures lines_capacity { vec_capacity lines.old ≤ vec_capacity lines.new }
    {
        self.soundness();
        sized_happened();
        let limit = self.row_text_limit();
        let mut observer = Lines {
            lines,
            limit,
            end: usize::MAX,
            beside: Nobody,
        };
        self.feed_observed(piece, &mut observer, reports)
    }

    /// Appends the text of line 1 to `lines` if an event scrolls it off. In this case `lines` has capacity for
    /// `row_text_limit` more bytes.
    #[inline(always)]
    pub fn line_off_reserved(&self, kind: EventKind, lines: &mut Vec<u8>)
        requires { (values : List ℕ) → scrolls_off (event_of kind values) self.now.display ≡ true
            → vec_len lines.old + row_text_limit self.now.display.grid.size ≤ vec_capacity lines.old }
        ensures lines { (values : List ℕ) → lines.new.items ≡ lines.old.items
            ++ flat_map line_text (line_off (event_of kind values) self.now.display) }
        ensures none { (values : List ℕ) → scrolls_off (event_of kind values) self.now.display ≡ false
            → vec_len lines.new ≡ vec_len lines.old }
        ensures bounded { vec_len lines.new ≤ vec_len lines.old + row_text_limit self.now.display.grid.size }
        ensures capacity { vec_capacity lines.old ≤ vec_capacity lines.new }
    {
        let _ = self.size();
        if self.scrolls_off(kind) {
            self.row_text_reserved(1, lines);
        }
    }

    /// Returns whether an event scrolls line 1 off the top of the screen. It does if it is a line feed at the bottom
    /// margin, and the top margin is line 1. (EK-VT220-RM: IND, NEL, LF and DECAWM)
    #[inline(always)]
    pub fn scrolls_off(&self, kind: EventKind) -> bool
        ensures { (values : List ℕ) → result ≡ scrolls_off (event_of kind values) self.now.display }
    {
        self.feeds_line(kind) && self.is_at_end()
    }

    /// Returns whether an event moves the cursor to the next line, as a line feed does.
    #[inline(always)]
    fn feeds_line(&self, kind: EventKind) -> bool
        ensures { (values : List ℕ) → result ≡ feeds_line (event_of kind values) self.now.display }
    {
        let cursor = self.cursor();
        match kind {
            EventKind::Print(b) => cursor.wrap && !has_no_glyph(b),
            EventKind::Control(b) => is_line_feed(b) || (b == SUB && cursor.wrap),
            EventKind::Escape { .. } => false,
            EventKind::Sequence { .. } => false,
        }
    }

    /// Returns whether the cursor is at the bottom margin, and the top margin is line 1. There a line feed scrolls line 1 off.
    #[inline(always)]
    pub fn is_at_end(&self) -> bool
        ensures { result ≡ is_at_end self.now.display }
    {
        let margins = self.margins();
        let cursor = self.cursor();
        margins.top == 1 && cursor.row == margins.bottom
    }

    /// Returns how many characters may be written at once so that at most the first one scrolls a line off: those that end
    /// in the cursor's row, or one. It is none if the first one scrolls a line off for which there is no capacity.
    #[inline(always)]
    pub fn row_limit(&self, has_room: bool) -> usize
        ensures fits { (n : ℕ) → n ≤ result → Fits n self.now.display }
        ensures some { has_room ≡ true → 1 ≤ result }
        ensures stays { 1 ≤ result → has_room ≡ false → (self.now.display.cursor.wrap && is_at_end self.now.display) ≡ false }
    {
        let cursor = self.cursor();
        if !cursor.wrap {
            return self.width() + 1 - cursor.col;
        }
        usize::from(has_room || !self.is_at_end())
    }
}

/// An observer that keeps the texts of the lines that scroll off, and passes everything on to another observer. It
/// stops the feed before a line that might not fit.
#[derive(Drop)]
pub struct Lines<'a, A: Drop> {
    /// The vector to which the texts are appended.
    pub lines: &'a mut Vec<u8>,
    /// The limit of a text in bytes: `row_text_limit` of the terminal. A line that might be longer isn't kept.
    pub limit: usize,
    /// The length up to which texts are appended, if there is capacity.
    pub end: usize,
    /// The observer that is asked and told next.
    pub beside: A,
}

/// Returns whether there is capacity for a line of at most `limit` bytes, which then ends at `end` or before.
#[inline(always)]
fn has_room(lines: &Vec<u8>, limit: usize, end: usize) -> bool
    ensures room { OnTrue result (vec_len lines.now + limit ≤ vec_capacity lines.now) }
    ensures fits { OnTrue result (vec_len lines.now + limit ≤ end) }
    ensures full { OnFalse result ((vec_capacity lines.now < vec_len lines.now + limit)
        ⊎ (end < vec_len lines.now + limit)) }
{
    let last = end.min(lines.capacity());
    lines.len() <= last && limit <= last - lines.len()
}

/// Appends the text of line 1 to `lines` if an event scrolls it off. In this case `lines` has capacity for `limit` more
/// bytes. The text of a row has at most as many.
#[inline(always)]
fn push_line_off(terminal: &SizedTerminal, kind: EventKind, limit: usize, lines: &mut Vec<u8>)
    requires { (values : List ℕ) → scrolls_off (event_of kind values) terminal.now.display ≡ true
        → vec_len lines.old + limit ≤ vec_capacity lines.old }
    ensures lines { (values : List ℕ) → row_text_limit terminal.now.display.grid.size ≤ limit
        → lines.new.items ≡ lines.old.items ++ flat_map line_text (line_off (event_of kind values) terminal.now.display) }
    ensures none { (values : List ℕ) → scrolls_off (event_of kind values) terminal.now.display ≡ false
        → vec_len lines.new ≡ vec_len lines.old }
    ensures bounded { vec_len lines.new ≤ vec_len lines.old + limit }
    ensures capacity { vec_capacity lines.old ≤ vec_capacity lines.new }
{
    let _ = terminal.size();
    if terminal.scrolls_off(kind) && terminal.row_text_limit() <= limit {
        terminal.row_text_reserved(1, lines);
    }
}

impl<A: Observer + Drop> Observer for Lines<'_, A> {
    ghost use Rattle.std.specs.Prelude.{◌≡◌, ◌≤◌, ◌<◌, ◌+◌, ◌&&◌, ◌⊎◌, vec_len, vec_capacity};
    ghost use Rattle.std.specs.Prelude.{true, ⊤};
    ghost use Rattle.vt_term.specs.Scrolling.{scrolls_off, is_at_end};
    ghost use Rattle.vt_term.specs.ScrollSteps.{Fits as RowFits, HasRoom, Logs};
    ghost use Rattle.vt_term.specs.Observers.{lines_joined, both_joined};

    ghost Saw = { λ o hs p. ((p.lines.ghost_name ≡ o.lines.ghost_name) × (p.limit ≡ o.limit) × (p.end ≡ o.end)
        × Logs o.limit hs o.lines.now.items p.lines.now.items × (vec_capacity o.lines.now ≤ vec_capacity p.lines.now)
        × (vec_len o.lines.now ≤ o.end → vec_len p.lines.now ≤ o.end)) × A.Saw o.beside hs p.beside };

    ghost Takes = { λ o n. ⊤ × A.Takes o.beside n };

    ghost Lets = { λ o s event. (scrolls_off event s ≡ true → HasRoom o.limit (vec_len o.lines.now) (vec_capacity o.lines.now) o.end)
        × A.Lets o.beside s event };

    ghost Fits = { λ o s n. (RowFits n s
        × (1 ≤ n → (s.cursor.wrap && is_at_end s) ≡ true
        → HasRoom o.limit (vec_len o.lines.now) (vec_capacity o.lines.now) o.end)) × A.Fits o.beside s n };

    ghost Stopped = { λ o. ((vec_capacity o.lines.now < vec_len o.lines.now + o.limit) ⊎ (o.end < vec_len o.lines.now + o.limit))
        ⊎ A.Stopped o.beside };

    ghost Stops = { true };

    ghost joined = { both_joined
        (λ o hs p. (p.lines.ghost_name ≡ o.lines.ghost_name) × (p.limit ≡ o.limit) × (p.end ≡ o.end)
        × Logs o.limit hs o.lines.now.items p.lines.now.items × (vec_capacity o.lines.now ≤ vec_capacity p.lines.now)
        × (vec_len o.lines.now ≤ o.end → vec_len p.lines.now ≤ o.end))
        A.Saw (λ o n. ⊤) A.Takes (λ o. o) (λ o. o.beside)
        (lines_joined (λ o. o.lines.now.items) (λ o. vec_len o.lines.now) (λ o. o.limit) (λ o. o.end) (λ o. vec_capacity o.lines.now)
        (λ o. o.lines.ghost_name)) A.joined };

    #[inline(always)]
    fn stops(&self) -> bool {
        true
    }

    #[inline(always)]
    fn lets(&self, terminal: &SizedTerminal, kind: EventKind, values: &[u16]) -> bool {
        (!terminal.scrolls_off(kind) || has_room(self.lines, self.limit, self.end))
            && self.beside.lets(terminal, kind, values)
    }

    #[inline(always)]
    fn event(&mut self, terminal: &SizedTerminal, bytes: &[u8], kind: EventKind, values: &[u16]) {
        one_split();
        push_line_off(terminal, kind, self.limit, self.lines);
        self.beside.event(terminal, bytes, kind, values);
    }

    #[inline(always)]
    fn limit(&self, terminal: &SizedTerminal) -> usize {
        terminal
            .row_limit(has_room(self.lines, self.limit, self.end))
            .min(self.beside.limit(terminal))
    }

    #[inline(always)]
    fn run(&mut self, terminal: &SizedTerminal, bytes: &[u8]) {
        one_split();
        spelled();
        push_line_off(terminal, EventKind::Print(bytes[0]), self.limit, self.lines);
        self.beside.run(terminal, bytes);
    }

    #[inline(always)]
    fn part(&mut self, bytes: &[u8]) {
        one_split();
        self.beside.part(bytes);
    }
}
