//! The trace of what a host sends under TERM=xterm.
ghost use Rattle.std.specs.Prelude.{◌≡◌, ◌≤◌, ◌<◌, ◌+◌, ◌*◌, ◌^◌, ◌++◌, All, None, length, take, vec_len, vec_capacity};
ghost use Rattle.vt_syntax.specs.declared.held.Held.TheVariants.{Nothing};
ghost use Rattle.vt_syntax.specs.Class.{IsOfLines};
ghost use Rattle.vt_utf8.specs.Decoding.{pending_after};
ghost use Rattle.vt_xterm.specs.Play.{behind, play_xterm};
ghost use Rattle.vt_xterm_trace.specs.Trace.{trace_xterm, tracer_xterm};

use crate::names::XtermNames;
use vt_syntax::laws::{one_split, spelled};
use vt_syntax::lines_run;
use vt_term::{Profile, SizedTerminal};
use vt_trace::{TRACE_LIMIT, Traceable, Tracer, trace_as, trace_byte, trace_dialect};
use vt_utf8::laws::sized_silence;
use vt_xterm::SizedFront;
use vt_xterm::sized::{SizedPages, feed_xterm_character};

/// What is kept besides a VT220's state is the pages.
///
/// Speed: while DECLRMM is reset, bytes of lines are fed as a run. Sequences are traced and played byte by byte.
impl Traceable<XtermNames> for SizedPages {
    ghost use Rattle.std.specs.Prelude.{◌≡◌};
    ghost use Rattle.vt_xterm.specs.Play.{Whole};
    ghost use Rattle.vt_xterm_trace.specs.Trace.{xterm_dialect};

    ghost Whole = { Whole };

    ghost whole = { λ s pages. record { state = s; pages = pages } };

    ghost dialect = { xterm_dialect };

    ghost size = { λ w. w.state.display.grid.size };

    ghost OneSize = { λ w. w.pages.other.grid.size ≡ w.state.display.grid.size };

    #[inline(always)]
    fn trace_ascii(
        &mut self,
        terminal: &mut SizedTerminal,
        tracer: &mut Tracer,
        run: &[u8],
        reports: &mut Vec<u8>,
        out: &mut Vec<u8>,
    ) -> usize {
        terminal.soundness();
        self.soundness();
        self.keeps_size();
        one_split();
        spelled();
        let lines = lines_front(terminal, self, run);
        if lines > 0 {
            return trace_as(
                terminal,
                self,
                &XtermNames,
                tracer,
                &run[..lines],
                reports,
                out,
            );
        }
        trace_byte(terminal, &XtermNames, tracer, run[0], out);
        feed_xterm_character(terminal, self, run[0] as char, reports);
        1
    }

    #[inline(always)]
    fn feed_beyond(&mut self, terminal: &mut SizedTerminal, c: char, reports: &mut Vec<u8>) {
        terminal.soundness();
        sized_silence();
        feed_xterm_character(terminal, self, c, reports);
    }
}

/// Returns how many bytes of lines are at the front, if the terminal is between sequences and DECLRMM is reset;
/// otherwise 0. No byte of lines opens a sequence, so none sets DECLRMM.
fn lines_front(terminal: &SizedTerminal, pages: &SizedPages, run: &[u8]) -> usize
    ensures within { result ≤ length run.now }
    ensures between { 1 ≤ result → terminal.now.held ≡ Nothing }
    ensures none { 1 ≤ result → pages.now.sides ≡ None }
    ensures lines { All IsOfLines (take result run.now) }
{
    if pages.has_sides() {
        return 0;
    }
    if !terminal.is_between() {
        return 0;
    }
    lines_run(run)
}

/// Plays the front of a chunk of what a host sends under TERM=xterm, and appends the reports to `reports` and the trace to `out`. `front`
/// keeps what is pending between chunks, and the page that isn't shown. Returns how many bytes it played.
///
/// The lines have the host's own bytes, and places in them. It plays while `out` has capacity for `TRACE_LIMIT` bytes
/// more. If `out` has that capacity for each byte, it plays the whole chunk. `reports` has capacity for ten bytes for
/// each byte of the chunk. It never fails, and it allocates nothing.
pub fn trace_xterm_reserved(
    terminal: &mut SizedTerminal,
    front: &mut SizedFront,
    tracer: &mut Tracer,
    chunk: &[u8],
    reports: &mut Vec<u8>,
    out: &mut Vec<u8>,
) -> usize
    requires one_size { front.old.pages.other.grid.size ≡ terminal.old.display.grid.size }
    requires place { tracer.old.place + length chunk.now < 2 ^ 64 }
    requires reports_room { vec_len reports.old + 10 * length chunk.now ≤ vec_capacity reports.old }
    ensures within { result ≤ length chunk.now }
    ensures all { result < length chunk.now → vec_capacity out.new < vec_len out.new + TRACE_LIMIT }
    ensures size { terminal.new.display.grid.size ≡ terminal.old.display.grid.size }
    ensures other_size { front.new.pages.other.grid.size ≡ front.old.pages.other.grid.size }
    ensures state { terminal.new
        ≡ (play_xterm (behind terminal.old front.old) front.old.pending (take result chunk.now)).whole.state }
    ensures pages { front.new.pages
        ≡ (play_xterm (behind terminal.old front.old) front.old.pending (take result chunk.now)).whole.pages }
    ensures pending { front.new.pending ≡ pending_after front.old.pending (take result chunk.now) }
    ensures reports { reports.new.items ≡ reports.old.items
        ++ (play_xterm (behind terminal.old front.old) front.old.pending (take result chunk.now)).reports }
    ensures lines { out.new.items ≡ out.old.items
        ++ trace_xterm (behind terminal.old front.old) tracer.old front.old.pending (take result chunk.now) }
    ensures tracer { tracer.new
        ≡ tracer_xterm (behind terminal.old front.old) tracer.old front.old.pending (take result chunk.now) }
    ensures reports_bounded { vec_len reports.new ≤ vec_len reports.old + 10 * result }
    ensures bounded { vec_len out.new ≤ vec_len out.old + TRACE_LIMIT * result }
    ensures reports_capacity { vec_capacity reports.old ≤ vec_capacity reports.new }
    ensures capacity { vec_capacity out.old ≤ vec_capacity out.new }
{
    trace_dialect::<XtermNames, SizedPages>(
        terminal,
        &mut front.pages,
        tracer,
        &mut front.decoder,
        chunk,
        reports,
        out,
    )
}
