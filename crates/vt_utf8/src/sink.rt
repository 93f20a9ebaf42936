//! Sinks of characters: what a host's characters do, for each terminal that reads UTF-8.
ghost use Rattle.std.specs.Prelude.{◌≡◌, ◌<◌, ◌+◌, ◌*◌, ◌≤◌, [], ◌∷◌, ℕ, List, All, length, take, vec_len, vec_capacity};
ghost use Rattle.vt_screen.specs.declared.size.Size.{Size};
ghost use Rattle.vt_term.specs.State.{State};
ghost use Rattle.vt_utf8.specs.Decoding.{characters, pending_after};
ghost use Rattle.vt_utf8.specs.Sinks.{Point, point, AreInTurn, FitsFeed, Grows};

use crate::laws::sized_text;
use crate::log::{BytesLog, Log};
use crate::text::write_text;
use vt_term::laws::{sized_cuts as played_cuts, sized_soundness as played_soundness};
use vt_term::{SizedTerminal, Vt220};

/// A sink of characters. A value of it is what such a terminal keeps besides a VT220's state. The lines that scroll off go to a log.
pub trait Sink<L: Log> {
    /// The point of a feed after the sink took characters.
    ghost Takes: { Point Self L → List ℕ → Point Self L → Type 0 };

    /// What the sink keeps is of the screen's size.
    ghost OneSize: { State → Self → Type 0 };

    /// The most bytes of lines that a character scrolls off.
    ghost most: { Size → ℕ };

    /// Takes the front of ASCII bytes, until the log is full. Returns how many it took.
    fn take_run(
        &mut self,
        terminal: &mut SizedTerminal,
        run: &[u8],
        limit: usize,
        log: &mut L,
        out: &mut Vec<u8>,
    ) -> usize
        requires ascii { All (λ b. b < 0x80) run.now }
        requires room { vec_len out.old + 10 * length run.now ≤ vec_capacity out.old }
        requires fits { FitsFeed OneSize most terminal.old self.old limit }
        ensures within { result ≤ length run.now }
        ensures all { result < length run.now → L.IsFull log.new limit }
        ensures takes { Takes (point terminal.old self.old log.old out.old.items) (take result run.now)
            (point terminal.new self.new log.new out.new.items) }
        ensures grows { Grows out.old out.new (10 * result) };

    /// Takes the first of ASCII bytes, or more of them. Returns how many it took.
    fn take_some(
        &mut self,
        terminal: &mut SizedTerminal,
        run: &[u8],
        log: &mut L,
        out: &mut Vec<u8>,
    ) -> usize
        requires some { 1 ≤ length run.now }
        requires ascii { All (λ b. b < 0x80) run.now }
        requires room { vec_len out.old + 10 * length run.now ≤ vec_capacity out.old }
        requires lines_room { L.HasRoom log.old (most terminal.old.display.grid.size) }
        requires one_size { OneSize terminal.old self.old }
        ensures some { 1 ≤ result }
        ensures within { result ≤ length run.now }
        ensures takes { Takes (point terminal.old self.old log.old out.old.items) (take result run.now)
            (point terminal.new self.new log.new out.new.items) }
        ensures grows { Grows out.old out.new (10 * result) };

    /// Takes the text at the front of a chunk, with nothing pending. Returns how many bytes it took: 0 if there is none, or no room
    /// before the last column.
    fn take_text(&self, terminal: &mut SizedTerminal, piece: &[u8]) -> usize
        ensures within { result ≤ length piece.now }
        ensures takes { (log : L) (out : List ℕ) → Takes (point terminal.old self.now log out)
            (characters [] (take result piece.now)) (point terminal.new self.now log out) }
        ensures left { pending_after [] (take result piece.now) ≡ [] };

    /// Takes a character beyond ASCII, which causes no report.
    fn take_beyond(&mut self, terminal: &mut SizedTerminal, c: char, log: &mut L, out: &mut Vec<u8>)
        requires beyond { 0x80 ≤ c }
        requires room { vec_len out.old + 10 ≤ vec_capacity out.old }
        requires lines_room { L.HasRoom log.old (most terminal.old.display.grid.size) }
        ensures takes { Takes (point terminal.old self.old log.old out.old.items) (c ∷ [])
            (point terminal.new self.new log.new out.new.items) }
        ensures left { (n : ℕ) → L.HasRoom log.old (n + most terminal.old.display.grid.size) → L.HasRoom log.new n }
        ensures out { out.new.items ≡ out.old.items }
        ensures capacity { vec_capacity out.old ≤ vec_capacity out.new };

    /// States that characters may be taken in parts. It does nothing when it runs.
    fn in_turn(&self)
        ensures { AreInTurn Takes OneSize };
}

/// A VT220 takes characters as the bytes that they are translated to.
impl<L: BytesLog> Sink<L> for Vt220 {
    ghost use Rattle.std.specs.Prelude.{⊤};
    ghost use Rattle.vt_utf8.specs.Limits.{lines_limit};
    ghost use Rattle.vt_utf8.specs.Private.Feeds.{TakesUtf8};

    ghost Takes = { TakesUtf8 L.Keeps };

    ghost OneSize = { λ s k. ⊤ };

    ghost most = { lines_limit };

    #[inline(always)]
    fn take_run(
        &mut self,
        terminal: &mut SizedTerminal,
        run: &[u8],
        limit: usize,
        log: &mut L,
        out: &mut Vec<u8>,
    ) -> usize {
        log.feed(terminal, run, out)
    }

    #[inline(always)]
    fn take_some(
        &mut self,
        terminal: &mut SizedTerminal,
        run: &[u8],
        log: &mut L,
        out: &mut Vec<u8>,
    ) -> usize {
        log.feed(terminal, run, out)
    }

    #[inline(always)]
    fn take_text(&self, terminal: &mut SizedTerminal, piece: &[u8]) -> usize {
        terminal.soundness();
        played_cuts();
        sized_text();
        write_text(terminal, piece)
    }

    #[inline(always)]
    fn take_beyond(
        &mut self,
        terminal: &mut SizedTerminal,
        c: char,
        log: &mut L,
        out: &mut Vec<u8>,
    ) {
        log.character(terminal, c, out);
    }

    #[inline(always)]
    fn in_turn(&self) {
        played_cuts();
        played_soundness();
    }
}
