//! Laws over the definitions alone. A caller cites a law by a call of its function.
ghost use Rattle.std.specs.Prelude.{◌≡◌, ◌++◌, ℕ, List, []};
ghost use Rattle.vt_feed.specs.Actions.{Action};
ghost use Rattle.vt_xterm_display.specs.Functions.{xterm};
ghost use Rattle.vt_xterm_display.specs.Session.{Session, PlaysXterm};
ghost use Rattle.vt_xterm_display.specs.State.{XtermState};
ghost use Rattle.vt_xterm_log.specs.Log.{log_of};

/// States that the log may be cut anywhere: the lines of chunks in turn are those of the chunks joined.
pub fn log_cuts()
    ensures none { (s : Session) → log_of s [] ≡ [] }
    ensures two { (s t : Session) (a b before after : List ℕ) → PlaysXterm s a t before after
        → log_of s (a ++ b) ≡ log_of s a ++ log_of t b }
{}

/// States that each action keeps the size of both pages, if they have one size.
pub fn sizes_kept()
    ensures shown { (action : Action) (s : XtermState) → s.other.grid.size ≡ s.shown.grid.size
        → (xterm.effect action s).shown.grid.size ≡ s.shown.grid.size }
    ensures other { (action : Action) (s : XtermState) → s.other.grid.size ≡ s.shown.grid.size
        → (xterm.effect action s).other.grid.size ≡ s.shown.grid.size }
{}
