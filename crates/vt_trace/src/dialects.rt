//! Dialects: what a host's characters mean to a terminal, a VT220 or another one.
ghost use Rattle.std.specs.Prelude.{◌≡◌, ◌≤◌, ◌<◌, ◌+◌, ◌*◌, ◌^◌, [], All, length, take, vec_len, vec_capacity};
ghost use Rattle.vt_screen.specs.declared.size.Size.{Size};
ghost use Rattle.vt_term.specs.State.{State};
ghost use Rattle.vt_trace.specs.Utf8.{Dialect, Traces};

use crate::names::{Naming, Vt220Names};
use crate::observer::trace_front;
use crate::tracing::{TRACE_LIMIT, Tracer};
use vt_term::laws::{sized_cuts, sized_soundness};
use vt_term::{SizedTerminal, Vt220};
use vt_utf8::laws::ascii;
use vt_utf8::sized::feed_beyond_ascii;

/// A terminal whose host's characters are traced by these names. A value of it is what such a terminal keeps besides a VT220's state.
pub trait Traceable<N: Naming> {
    /// The state of such a terminal.
    ghost Whole: { Type 0 };

    /// The state of such a terminal, from a VT220's state and what the value keeps.
    ghost whole: { State → Self → Whole };

    /// What characters mean to such a terminal.
    ghost dialect: { Dialect Whole };

    /// The size of the screen.
    ghost size: { Whole → Size };

    /// What the value keeps is of the screen's size.
    ghost OneSize: { Whole → Type 0 };

    /// Plays the front of ASCII bytes with nothing pending, and appends their reports and their trace: as many bytes as `out` has
    /// capacity for. Returns how many bytes it played.
    fn trace_ascii(
        &mut self,
        terminal: &mut SizedTerminal,
        tracer: &mut Tracer,
        run: &[u8],
        reports: &mut Vec<u8>,
        out: &mut Vec<u8>,
    ) -> usize
        requires some { 1 ≤ length run.now }
        requires ascii { All (λ b. b < 0x80) run.now }
        requires one_size { OneSize (whole terminal.old self.old) }
        requires place { tracer.old.place + length run.now < 2 ^ 64 }
        requires reports_room { vec_len reports.old + 10 * length run.now ≤ vec_capacity reports.old }
        requires room { vec_len out.old + TRACE_LIMIT ≤ vec_capacity out.old }
        ensures some { 1 ≤ result }
        ensures within { result ≤ length run.now }
        ensures one_size { OneSize (whole terminal.new self.new) }
        ensures size { size (whole terminal.new self.new) ≡ size (whole terminal.old self.old) }
        ensures traced { Traces dialect (whole terminal.old self.old) tracer.old [] (take result run.now) (whole terminal.new self.new)
            tracer.new [] reports.old.items reports.new.items out.old.items out.new.items }
        ensures reports_bounded { vec_len reports.new ≤ vec_len reports.old + 10 * result }
        ensures bounded { vec_len out.new ≤ vec_len out.old + TRACE_LIMIT * result }
        ensures reports_capacity { vec_capacity reports.old ≤ vec_capacity reports.new }
        ensures capacity { vec_capacity out.old ≤ vec_capacity out.new };

    /// Plays a character beyond ASCII, which causes no report.
    fn feed_beyond(&mut self, terminal: &mut SizedTerminal, c: char, reports: &mut Vec<u8>)
        requires beyond { 0x80 ≤ c }
        requires one_size { OneSize (whole terminal.old self.old) }
        requires room { vec_len reports.old + 10 ≤ vec_capacity reports.old }
        ensures one_size { OneSize (whole terminal.new self.new) }
        ensures size { size (whole terminal.new self.new) ≡ size (whole terminal.old self.old) }
        ensures state { whole terminal.new self.new ≡ dialect.after (whole terminal.old self.old) c }
        ensures silent { dialect.reports (whole terminal.old self.old) c ≡ [] }
        ensures out { reports.new.items ≡ reports.old.items }
        ensures capacity { vec_capacity reports.old ≤ vec_capacity reports.new };
}

impl Traceable<Vt220Names> for Vt220 {
    ghost use Rattle.std.specs.Prelude.{⊤};
    ghost use Rattle.vt_term.specs.State.{State};
    ghost use Rattle.vt_trace.specs.Utf8.{vt220_dialect};

    ghost Whole = { State };

    ghost whole = { λ s k. s };

    ghost dialect = { vt220_dialect };

    ghost size = { λ s. s.display.grid.size };

    ghost OneSize = { λ s. ⊤ };

    #[inline(always)]
    fn trace_ascii(
        &mut self,
        terminal: &mut SizedTerminal,
        tracer: &mut Tracer,
        run: &[u8],
        reports: &mut Vec<u8>,
        out: &mut Vec<u8>,
    ) -> usize {
        terminal.soundness();
        sized_cuts();
        sized_soundness();
        ascii();
        trace_front(terminal, tracer, run, reports, out)
    }

    #[inline(always)]
    fn feed_beyond(&mut self, terminal: &mut SizedTerminal, c: char, reports: &mut Vec<u8>) {
        feed_beyond_ascii(terminal, c, reports);
    }
}
