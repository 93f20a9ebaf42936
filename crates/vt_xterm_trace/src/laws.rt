//! Laws over the definitions alone. A caller cites a law by a call of its function.
ghost use Rattle.std.specs.Prelude.{◌≡◌, ◌++◌, [], List, ℕ, None};
ghost use Rattle.vt_utf8.specs.Decoding.{characters, pending_after};
ghost use Rattle.vt_trace.specs.declared.tracing.Tracer.{Tracer};
ghost use Rattle.vt_trace.specs.Utf8.{trace_utf8, tracer_utf8};
ghost use Rattle.vt_xterm.specs.Play.{Whole, play_xterm};
ghost use Rattle.vt_xterm_trace.specs.Trace.{trace_xterm, tracer_xterm, PlaysVt220s};

use vt_xterm::laws::transparent as played_transparent;

/// States that what a host sends may be cut anywhere: the trace of chunks in turn is that of the chunks joined.
pub fn cuts()
    ensures none { (w : Whole) (t : Tracer) (pending : List ℕ) → trace_xterm w t pending [] ≡ [] }
    ensures lines { (w : Whole) (t : Tracer) (pending a b : List ℕ) → trace_xterm w t pending (a ++ b)
        ≡ trace_xterm w t pending a
        ++ trace_xterm (play_xterm w pending a).whole (tracer_xterm w t pending a) (pending_after pending a) b }
    ensures tracer { (w : Whole) (t : Tracer) (pending a b : List ℕ) → tracer_xterm w t pending (a ++ b)
        ≡ tracer_xterm (play_xterm w pending a).whole (tracer_xterm w t pending a) (pending_after pending a) b }
{}

/// States that characters without a function of xterm have the trace of UTF-8 while DECLRMM is reset. Their events have
/// a VT220's names and effect, each in the state that those before it leave.
pub fn transparent()
    ensures lines { (w : Whole) (t : Tracer) (pending bytes : List ℕ) → w.pages.sides ≡ None → PlaysVt220s w (characters pending bytes)
        → trace_xterm w t pending bytes ≡ trace_utf8 w.state t pending bytes }
    ensures tracer { (w : Whole) (t : Tracer) (pending bytes : List ℕ) → w.pages.sides ≡ None → PlaysVt220s w (characters pending bytes)
        → tracer_xterm w t pending bytes ≡ tracer_utf8 w.state t pending bytes }
{
    played_transparent();
}
