//! The players of a trace, which also write what comes, event by event.
ghost use Rattle.std.specs.Prelude.{◌≡◌, ◌+◌, ◌*◌, ◌^◌, ◌≤◌, ◌<◌, ◌++◌, [], ℕ, List, length, take, vec_len, vec_capacity};
ghost use Rattle.vt_trace.specs.declared.tracing.Tracer.{Tracer};

use crate::player::{PlainPlayer, Player, Utf8Player, XtermPlayer};
use vt_term::laws::{sized_cuts, sized_soundness};
use vt_trace::Tracer;
use vt_trace::laws::{sized_cuts as trace_cuts, sized_utf8_cuts as utf8_trace_cuts};
use vt_trace::sized::{trace_reserved, trace_utf8_reserved};
use vt_utf8::laws::sized_cuts as utf8_cuts;
use vt_xterm::laws::cuts as xterm_cuts;
use vt_xterm_trace::laws::cuts as xterm_trace_cuts;
use vt_xterm_trace::sized::trace_xterm_reserved;

/// A player that also writes the trace of what comes.
pub(crate) trait TracePlayer: Player {
    /// Plays the front of a chunk that isn't empty, and appends its trace to `out`, which has capacity for that of a byte. Returns how
    /// many bytes it played. The reports are dropped. `reports` has capacity for ten more bytes for each byte of the chunk, and
    /// is overwritten. It allocates nothing.
    fn feed_trace(
        &mut self,
        tracer: &mut Tracer,
        chunk: &[u8],
        reports: &mut Vec<u8>,
        out: &mut Vec<u8>,
    ) -> usize
        requires some { 1 ≤ length chunk.now }
        requires place { tracer.old.place + length chunk.now < 2 ^ 64 }
        requires reports { vec_len reports.old + 10 * length chunk.now ≤ vec_capacity reports.old }
        requires room { vec_len out.old + 420 ≤ vec_capacity out.old }
        ensures some { 1 ≤ result }
        ensures within { result ≤ length chunk.now }
        ensures lines { out.new.items ≡ out.old.items
            ++ Self.session.trace (Self.kept self.old) tracer.old (take result chunk.now) }
        ensures lines_on { (more : List ℕ) → Self.session.trace (Self.kept self.old) tracer.old (take result chunk.now ++ more)
            ≡ Self.session.trace (Self.kept self.old) tracer.old (take result chunk.now)
            ++ Self.session.trace (Self.kept self.new) tracer.new more }
        ensures tracer_on { (more : List ℕ) → Self.session.tracer (Self.kept self.old) tracer.old (take result chunk.now ++ more)
            ≡ Self.session.tracer (Self.kept self.new) tracer.new more }
        ensures after { (more : List ℕ) → Self.session.after (Self.kept self.old) (take result chunk.now ++ more)
            ≡ Self.session.after (Self.kept self.new) more }
        ensures place { tracer.new.place ≡ tracer.old.place + result }
        ensures bounded { vec_len out.new ≤ vec_len out.old + 420 * result }
        ensures reports_capacity { vec_capacity reports.old ≤ vec_capacity reports.new }
        ensures capacity { vec_capacity out.old ≤ vec_capacity out.new };

    /// States that without a byte nothing is written, for proofs. It does nothing when it runs.
    fn no_trace(&self)
        ensures none { (t : Tracer) → Self.session.trace (Self.kept self.now) t [] ≡ [] }
        ensures stays { (t : Tracer) → Self.session.tracer (Self.kept self.now) t [] ≡ t };
}

impl TracePlayer for PlainPlayer {
    fn feed_trace(
        &mut self,
        tracer: &mut Tracer,
        chunk: &[u8],
        reports: &mut Vec<u8>,
        out: &mut Vec<u8>,
    ) -> usize {
        self.terminal.soundness();
        sized_soundness();
        sized_cuts();
        trace_cuts();
        trace_reserved(&mut self.terminal, tracer, chunk, reports, out)
    }

    fn no_trace(&self) {}
}

impl TracePlayer for Utf8Player {
    fn feed_trace(
        &mut self,
        tracer: &mut Tracer,
        chunk: &[u8],
        reports: &mut Vec<u8>,
        out: &mut Vec<u8>,
    ) -> usize {
        self.terminal.soundness();
        utf8_cuts();
        utf8_trace_cuts();
        trace_utf8_reserved(
            &mut self.terminal,
            tracer,
            &mut self.decoder,
            chunk,
            reports,
            out,
        )
    }

    fn no_trace(&self) {}
}

impl TracePlayer for XtermPlayer {
    fn feed_trace(
        &mut self,
        tracer: &mut Tracer,
        chunk: &[u8],
        reports: &mut Vec<u8>,
        out: &mut Vec<u8>,
    ) -> usize {
        xterm_cuts();
        utf8_cuts();
        xterm_trace_cuts();
        trace_xterm_reserved(
            &mut self.terminal,
            &mut self.front,
            tracer,
            chunk,
            reports,
            out,
        )
    }

    fn no_trace(&self) {
        xterm_trace_cuts();
    }
}
