//! The places for the lines that scroll off: none, or the end of a vector.
ghost use Rattle.std.specs.Prelude.{◌≡◌, ◌≤◌, ◌<◌, ◌+◌, ◌*◌, ◌++◌, ℕ, List, length, take, flat_map, vec_len, vec_capacity, []};
ghost use Rattle.std.specs.Bool.{OnTrue, OnFalse};
ghost use Rattle.vt_screen.specs.declared.cell.Cell.{Cell};
ghost use Rattle.vt_term.specs.Play.{play};
ghost use Rattle.vt_term.specs.Scrolling.{scrolled_off};
ghost use Rattle.vt_term.specs.Text.{row_text_limit};
ghost use Rattle.vt_utf8.specs.Limits.{lines_limit};
ghost use Rattle.vt_utf8.specs.Translation.{translation};
ghost use Rattle.vt_utf8.specs.Logs.{AreKept};

use crate::feeding::{feed_beyond_ascii, feed_beyond_ascii_log};
use vt_term::laws::sized_happened;
use vt_term::{Lines, Nobody, Observer, SizedTerminal};

/// A place for the lines that scroll off.
pub trait Log: Drop {
    /// The log after it got lines.
    ghost Keeps: { Self → List (List Cell) → Self → Type 0 };

    /// There is capacity for so many bytes of lines.
    ghost HasRoom: { Self → ℕ → Type 0 };

    /// There is no capacity for so many bytes of lines.
    ghost IsFull: { Self → ℕ → Type 0 };

    /// Returns whether there is no capacity for so many bytes of lines.
    fn is_full(&self, limit: usize) -> bool
        ensures full { OnTrue result (IsFull self.now limit) }
        ensures room { OnFalse result (HasRoom self.now limit) };

    /// Plays a character beyond ASCII, which causes no report.
    fn character(&mut self, terminal: &mut SizedTerminal, c: char, out: &mut Vec<u8>)
        requires beyond { 0x80 ≤ c }
        requires room { vec_len out.old + 10 ≤ vec_capacity out.old }
        requires lines_room { HasRoom self.old (lines_limit terminal.old.display.grid.size) }
        ensures state { terminal.new ≡ (play terminal.old (translation terminal.old c)).state }
        ensures silent { (play terminal.old (translation terminal.old c)).reports ≡ [] }
        ensures out { out.new.items ≡ out.old.items }
        ensures keeps { Keeps self.old (scrolled_off terminal.old (translation terminal.old c)) self.new }
        ensures left { (n : ℕ) → HasRoom self.old (n + lines_limit terminal.old.display.grid.size) → HasRoom self.new n }
        ensures capacity { vec_capacity out.old ≤ vec_capacity out.new };

    /// Lines in turn are the lines joined, and capacity for some bytes is capacity for fewer.
    ghost kept: { AreKept Keeps HasRoom IsFull };
}

/// A place for the lines that a VT220's bytes scroll off.
pub(crate) trait BytesLog: Log {
    /// Plays the front of a chunk, up to a line for which there is no capacity. Returns how many bytes it played.
    fn feed(&mut self, terminal: &mut SizedTerminal, piece: &[u8], out: &mut Vec<u8>) -> usize
        requires { vec_len out.old + 10 * length piece.now ≤ vec_capacity out.old }
        ensures within { result ≤ length piece.now }
        ensures all { result < length piece.now → Self.IsFull self.new (row_text_limit terminal.old.display.grid.size) }
        ensures some { 1 ≤ length piece.now → Self.HasRoom self.old (row_text_limit terminal.old.display.grid.size) → 1 ≤ result }
        ensures state { terminal.new ≡ (play terminal.old (take result piece.now)).state }
        ensures reports { out.new.items ≡ out.old.items ++ (play terminal.old (take result piece.now)).reports }
        ensures keeps { Self.Keeps self.old (scrolled_off terminal.old (take result piece.now)) self.new }
        ensures bounded { vec_len out.new ≤ vec_len out.old + 10 * result }
        ensures capacity { vec_capacity out.old ≤ vec_capacity out.new };
}

/// The lines go nowhere.
impl Log for Nobody {
    ghost use Rattle.std.specs.Prelude.{⊤};
    ghost use Rattle.vt_utf8.specs.Logs.{nowhere_kept};

    ghost Keeps = { λ o rows p. ⊤ };

    ghost HasRoom = { λ o n. ⊤ };

    ghost IsFull = { λ o n. ⊥ };

    ghost kept = { nowhere_kept };

    #[inline(always)]
    fn is_full(&self, _: usize) -> bool {
        false
    }

    #[inline(always)]
    fn character(&mut self, terminal: &mut SizedTerminal, c: char, out: &mut Vec<u8>) {
        feed_beyond_ascii(terminal, c, out);
    }
}

impl BytesLog for Nobody {
    #[inline(always)]
    fn feed(&mut self, terminal: &mut SizedTerminal, piece: &[u8], out: &mut Vec<u8>) -> usize {
        terminal.feed_reserved(piece, out);
        piece.len()
    }
}

/// The lines go after others.
impl<A: Observer + Drop> Log for Lines<'_, A> {
    ghost use Rattle.std.specs.Prelude.{◌≡◌, ◌≤◌, ◌<◌, ◌+◌, ◌++◌, ◌⊎◌, flat_map, vec_len, vec_capacity};
    ghost use Rattle.vt_term.specs.Text.{line_text};
    ghost use Rattle.vt_utf8.specs.Logs.{lines_kept};

    ghost Keeps = { λ o rows p. (p.lines.ghost_name ≡ o.lines.ghost_name) × (p.end ≡ o.end)
        × (p.lines.now.items ≡ o.lines.now.items ++ flat_map line_text rows)
        × (vec_capacity o.lines.now ≤ vec_capacity p.lines.now)
        × (vec_len o.lines.now ≤ o.end → vec_len p.lines.now ≤ o.end) };

    ghost HasRoom = { λ o n. (vec_len o.lines.now + n ≤ vec_capacity o.lines.now) × (vec_len o.lines.now + n ≤ o.end) };

    ghost IsFull = { λ o n. (vec_capacity o.lines.now < vec_len o.lines.now + n) ⊎ (o.end < vec_len o.lines.now + n) };

    ghost kept = { lines_kept (λ o. o.lines.now.items) (λ o. vec_len o.lines.now) (λ o. o.end)
        (λ o. vec_capacity o.lines.now) (λ o. o.lines.ghost_name) };

    #[inline(always)]
    fn is_full(&self, limit: usize) -> bool {
        self.end.min(self.lines.capacity()) < self.lines.len().saturating_add(limit)
    }

    #[inline(always)]
    fn character(&mut self, terminal: &mut SizedTerminal, c: char, out: &mut Vec<u8>) {
        feed_beyond_ascii_log(terminal, c, out, self.lines);
    }
}

impl BytesLog for Lines<'_, Nobody> {
    #[inline(always)]
    fn feed(&mut self, terminal: &mut SizedTerminal, piece: &[u8], out: &mut Vec<u8>) -> usize {
        terminal.soundness();
        sized_happened();
        self.limit = terminal.row_text_limit();
        terminal.feed_observed(piece, self, out)
    }
}
