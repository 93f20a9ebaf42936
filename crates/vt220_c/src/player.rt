//! The players, which play on a terminal what a host sends, if that isn't a VT220's bytes.
ghost use Rattle.std.specs.Prelude.{◌≡◌, ◌+◌, ◌*◌, ◌≤◌, ◌<◌, ◌⊎◌, ◌++◌, ◌∷◌, [], ℕ, List, length, take, vec_len, vec_capacity};
ghost use Rattle.vt_screen.specs.declared.size.Size.{Size};
ghost use Rattle.vt_term.specs.State.{State};
ghost use Rattle.vt220_c.specs.Told.{Told, AreTold};

use crate::bells::{rings, rings_in_character};
use vt_syntax::laws::{controls, one_split, spelled};
use vt_term::SizedTerminal;
use vt_term::laws::{sized_log_cuts as vt220_log_cuts, sized_soundness as played_soundness};
use vt_utf8::Decoder;
use vt_utf8::laws::{
    sized_cuts as utf8_cuts, sized_one_byte, sized_silence, sized_soundness, sized_writes,
};
use vt_utf8::sized::{feed_utf8_log_reserved, feed_utf8_reserved, utf8_lines_limit};
use vt_xterm::SizedFront;
use vt_xterm::laws::{cuts as xterm_cuts, log_cuts as xterm_log_cuts};
use vt_xterm::sized::{feed_xterm_log_reserved, feed_xterm_reserved, xterm_lines_limit};

/// A player, which plays on a terminal what a host sends.
pub(crate) trait Player: Drop {
    /// The result of playing bytes.
    ghost told: { State → Self → List ℕ → Told Self };

    /// The capacity for lines without which a feed with a log stops, on a screen of a size.
    ghost room: { Size → ℕ };

    /// What is kept belongs to a screen of a size.
    ghost Fits: { Size → Self → Type 0 };

    /// Returns the capacity for lines without which a feed with a log stops.
    fn lines_limit(&self, terminal: &SizedTerminal) -> usize
        ensures { result ≡ room terminal.now.display.grid.size };

    /// Returns how often a byte rings.
    fn rings(&self, terminal: &SizedTerminal, b: u8) -> usize
        ensures bells { result ≡ (told terminal.now self.now (b ∷ [])).rung }
        ensures few { result ≤ 1 };

    /// Plays a chunk, and appends the reports. `reports` has capacity for ten more bytes for each byte of the chunk.
    fn feed(&mut self, terminal: &mut SizedTerminal, piece: &[u8], reports: &mut Vec<u8>)
        requires room { vec_len reports.old + 10 * length piece.now ≤ vec_capacity reports.old }
        requires fits { Fits terminal.old.display.grid.size self.old }
        ensures size { terminal.new.display.grid.size ≡ terminal.old.display.grid.size }
        ensures fits { Fits terminal.old.display.grid.size self.new }
        ensures state { terminal.new ≡ (told terminal.old self.old piece.now).state }
        ensures kept { self.new ≡ (told terminal.old self.old piece.now).kept }
        ensures reports { reports.new.items ≡ reports.old.items ++ (told terminal.old self.old piece.now).reports }
        ensures bounded { vec_len reports.new ≤ vec_len reports.old + 10 * length piece.now }
        ensures capacity { vec_capacity reports.old ≤ vec_capacity reports.new };

    /// Plays the front of a chunk, and appends the reports and at most `most` bytes of the lines that scroll off. Returns how
    /// many bytes it played. If it stops early, `lines` has too few bytes free, or too few of `most` are left.
    fn feed_log(
        &mut self,
        terminal: &mut SizedTerminal,
        piece: &[u8],
        reports: &mut Vec<u8>,
        lines: &mut Vec<u8>,
        most: usize,
    ) -> usize
        requires room { vec_len reports.old + 10 * length piece.now ≤ vec_capacity reports.old }
        requires fits { Fits terminal.old.display.grid.size self.old }
        ensures size { terminal.new.display.grid.size ≡ terminal.old.display.grid.size }
        ensures fits { Fits terminal.old.display.grid.size self.new }
        ensures within { result ≤ length piece.now }
        ensures all { result < length piece.now
            → (vec_capacity lines.new < vec_len lines.new + room terminal.old.display.grid.size)
            ⊎ (vec_len lines.old + most < vec_len lines.new + room terminal.old.display.grid.size) }
        ensures state { terminal.new ≡ (told terminal.old self.old (take result piece.now)).state }
        ensures kept { self.new ≡ (told terminal.old self.old (take result piece.now)).kept }
        ensures reports { reports.new.items
            ≡ reports.old.items ++ (told terminal.old self.old (take result piece.now)).reports }
        ensures lines { lines.new.items ≡ lines.old.items ++ (told terminal.old self.old (take result piece.now)).lines }
        ensures reports_bounded { vec_len reports.new ≤ vec_len reports.old + 10 * result }
        ensures lines_bounded { vec_len lines.new ≤ vec_len lines.old + most }
        ensures reports_capacity { vec_capacity reports.old ≤ vec_capacity reports.new }
        ensures lines_capacity { vec_capacity lines.old ≤ vec_capacity lines.new };

    /// States that bytes may be cut anywhere.
    fn cuts(&self)
        ensures { AreTold told };
}

/// The host sends UTF-8. The pending part of a character is kept.
impl Player for Decoder {
    ghost use Rattle.std.specs.Prelude.{⊤};
    ghost use Rattle.vt_utf8.specs.Limits.{utf8_lines_limit};
    ghost use Rattle.vt220_c.specs.Utf8.{utf8_told};

    ghost told = { utf8_told };

    ghost room = { utf8_lines_limit };

    ghost Fits = { λ size decoder. ⊤ };

    fn lines_limit(&self, terminal: &SizedTerminal) -> usize {
        utf8_lines_limit(terminal)
    }

    fn rings(&self, terminal: &SizedTerminal, b: u8) -> usize {
        terminal.soundness();
        played_soundness();
        controls();
        one_split();
        spelled();
        sized_one_byte();
        sized_silence();
        sized_writes();
        let (_, character) = self.copied().push(b);
        rings_in_character(terminal.held(), character)
    }

    fn feed(&mut self, terminal: &mut SizedTerminal, piece: &[u8], reports: &mut Vec<u8>) {
        terminal.soundness();
        sized_soundness();
        feed_utf8_reserved(terminal, self, piece, reports);
    }

    fn feed_log(
        &mut self,
        terminal: &mut SizedTerminal,
        piece: &[u8],
        reports: &mut Vec<u8>,
        lines: &mut Vec<u8>,
        most: usize,
    ) -> usize {
        terminal.soundness();
        sized_soundness();
        feed_utf8_log_reserved(terminal, self, piece, reports, lines, most)
    }

    fn cuts(&self) {
        utf8_cuts();
        vt220_log_cuts();
        one_split();
    }
}

/// The host sends for an xterm. The front keeps what a terminal needs under TERM=xterm.
impl Player for SizedFront {
    ghost use Rattle.std.specs.Prelude.{◌≡◌};
    ghost use Rattle.vt_xterm.specs.Limits.{xterm_lines_limit};
    ghost use Rattle.vt220_c.specs.Xterm.{xterm_told};

    ghost told = { xterm_told };

    ghost room = { xterm_lines_limit };

    ghost Fits = { λ size front. front.pages.other.grid.size ≡ size };

    fn lines_limit(&self, terminal: &SizedTerminal) -> usize {
        xterm_lines_limit(terminal)
    }

    fn rings(&self, terminal: &SizedTerminal, b: u8) -> usize {
        rings(terminal.held(), b)
    }

    fn feed(&mut self, terminal: &mut SizedTerminal, piece: &[u8], reports: &mut Vec<u8>) {
        feed_xterm_reserved(terminal, self, piece, reports);
    }

    fn feed_log(
        &mut self,
        terminal: &mut SizedTerminal,
        piece: &[u8],
        reports: &mut Vec<u8>,
        lines: &mut Vec<u8>,
        most: usize,
    ) -> usize {
        feed_xterm_log_reserved(terminal, self, piece, reports, lines, most)
    }

    fn cuts(&self) {
        xterm_cuts();
        xterm_log_cuts();
        utf8_cuts();
    }
}
