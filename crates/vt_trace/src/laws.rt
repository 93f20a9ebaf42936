//! Laws over the definitions alone. A caller cites a law by a call of its function.
ghost use Rattle.std.specs.Prelude.{◌≡◌, ◌++◌, List, ℕ};
ghost use Rattle.vt_term.specs.State.{State};
ghost use Rattle.vt_screen.specs.declared.size.Size.{Size};
ghost use Rattle.vt_term.specs.Sound.{IsSoundAt};
ghost use Rattle.vt_term.specs.Play.{play};
ghost use Rattle.vt_trace.specs.declared.tracing.Tracer.{Tracer};
ghost use Rattle.vt_trace.specs.Trace.{trace, tracer_all};
ghost use Rattle.vt_trace.specs.Utf8.{trace_utf8, tracer_utf8};
ghost use Rattle.vt_utf8.specs.Decoding.{pending_after};
ghost use Rattle.vt_utf8.specs.Play.{play_utf8};

use vt_term::laws::{sized_cuts as play_cuts, sized_soundness};

/// States at any size that bytes may be cut anywhere: the trace of chunks in turn is that of the chunks joined.
pub fn sized_cuts()
    ensures lines { (size : Size) (s : State) (t : Tracer) (a b : List ℕ) → IsSoundAt size s
        → trace s t (a ++ b) ≡ trace s t a ++ trace (play s a).state (tracer_all s t a) b }
    ensures tracer { (size : Size) (s : State) (t : Tracer) (a b : List ℕ) → IsSoundAt size s
        → tracer_all s t (a ++ b) ≡ tracer_all (play s a).state (tracer_all s t a) b }
{
    play_cuts();
    sized_soundness();
}

/// States at any size that UTF-8 may be cut anywhere, also inside a character. The trace of chunks in turn is that of
/// the chunks joined.
pub fn sized_utf8_cuts()
    ensures lines { (size : Size) (s : State) (t : Tracer) (pending a b : List ℕ) → IsSoundAt size s → trace_utf8 s t pending (a ++ b)
        ≡ trace_utf8 s t pending a
        ++ trace_utf8 (play_utf8 s pending a).state (tracer_utf8 s t pending a) (pending_after pending a) b }
    ensures tracer { (size : Size) (s : State) (t : Tracer) (pending a b : List ℕ) → IsSoundAt size s → tracer_utf8 s t pending (a ++ b)
        ≡ tracer_utf8 (play_utf8 s pending a).state (tracer_utf8 s t pending a) (pending_after pending a) b }
{
    play_cuts();
    sized_soundness();
}
