//! TERM=xterm as a sink of characters.
ghost use Rattle.std.specs.Prelude.{◌≡◌, ◌+◌, ◌≤◌, ◌∷◌, [], ℕ, None, vec_len, vec_capacity};
ghost use Rattle.vt_utf8.specs.Limits.{lines_limit as utf8_lines_limit};
ghost use Rattle.vt_xterm.specs.Limits.{lines_limit};
ghost use Rattle.vt_xterm.specs.Pages.{screens, bounds_of};
ghost use Rattle.vt_xterm.specs.Play.{play_characters, whole_of};
ghost use Rattle.vt_xterm.specs.Private.Feeds.{Leaves};

use crate::bounded::character_between;
use crate::front::SizedPages;
use crate::log::PageLog;
use vt_syntax::laws::{one_split, spelled};
use vt_term::SizedTerminal;
use vt_term::laws::{glyph_runs, sized_soundness as played_soundness};
use vt_utf8::laws::sized_text;
use vt_utf8::sized::feed_beyond_ascii;
use vt_utf8::{Sink, write_text};

/// What is kept besides a VT220's state is the pages. Text is taken at once while DECLRMM is reset.
impl<L: PageLog> Sink<L> for SizedPages {
    ghost use Rattle.std.specs.Prelude.{◌≡◌};
    ghost use Rattle.vt_xterm.specs.Limits.{lines_limit};
    ghost use Rattle.vt_xterm.specs.Private.Feeds.{TakesXterm};

    ghost Takes = { TakesXterm L.Keeps };

    ghost OneSize = { λ s pages. pages.other.grid.size ≡ s.display.grid.size };

    ghost most = { lines_limit };

    #[inline(always)]
    fn take_run(
        &mut self,
        terminal: &mut SizedTerminal,
        run: &[u8],
        limit: usize,
        log: &mut L,
        out: &mut Vec<u8>,
    ) -> usize {
        terminal.soundness();
        one_split();
        log.play(terminal, self, run, limit, out)
    }

    #[inline(always)]
    fn take_some(
        &mut self,
        terminal: &mut SizedTerminal,
        run: &[u8],
        log: &mut L,
        out: &mut Vec<u8>,
    ) -> usize {
        terminal.soundness();
        one_split();
        log.play_some(terminal, self, run, out)
    }

    #[inline(always)]
    fn take_text(&self, terminal: &mut SizedTerminal, piece: &[u8]) -> usize {
        terminal.soundness();
        spelled();
        glyph_runs();
        played_soundness();
        sized_text();
        if self.has_sides() {
            return 0;
        }
        write_text(terminal, piece)
    }

    #[inline(always)]
    fn take_beyond(
        &mut self,
        terminal: &mut SizedTerminal,
        c: char,
        log: &mut L,
        out: &mut Vec<u8>,
    ) {
        match self.bounds(terminal.width()) {
            Some(sides) => character_between(terminal, self, sides, c),
            None => feed_unbounded(terminal, self, c, log, out),
        }
    }

    #[inline(always)]
    fn in_turn(&self) {}
}

/// Plays a character beyond ASCII if left and right margins bound nothing. It causes no report.
#[inline(always)]
fn feed_unbounded<L: PageLog>(
    terminal: &mut SizedTerminal,
    pages: &SizedPages,
    c: char,
    log: &mut L,
    out: &mut Vec<u8>,
)
    requires beyond { 0x80 ≤ c }
    requires unbounded { bounds_of (screens terminal.old pages.now) ≡ None }
    requires room { vec_len out.old + 10 ≤ vec_capacity out.old }
    requires lines_room { L.HasRoom log.old (lines_limit terminal.old.display.grid.size) }
    ensures size { terminal.new.display.grid.size ≡ terminal.old.display.grid.size }
    ensures leaves { Leaves (play_characters (whole_of terminal.old pages.now) (c ∷ []))
        (whole_of terminal.new pages.now) out.old.items out.new.items }
    ensures keeps { L.Keeps log.old (play_characters (whole_of terminal.old pages.now) (c ∷ [])).lines log.new }
    ensures left { (n : ℕ) → L.HasRoom log.old (n + utf8_lines_limit terminal.old.display.grid.size) → L.HasRoom log.new n }
    ensures out { out.new.items ≡ out.old.items }
    ensures capacity { vec_capacity out.old ≤ vec_capacity out.new }
{
    if pages.is_alternate() {
        feed_beyond_ascii(terminal, c, out);
    } else {
        log.character(terminal, c, out);
    }
}
