//! Laws over the definitions alone. A caller cites a law by a call of its function.
ghost use Rattle.std.specs.Prelude.{◌≡◌, ◌↔◌, ℕ, List, [], ◌++◌};
ghost use Rattle.vt_term.specs.Play.{joined};
ghost use Rattle.vt_xterm_display.specs.Session.{Session, PlaysXterm};
ghost use Rattle.vt_xterm_update.specs.Updates.{Leads, LeadsAlong};

use vt_xterm_log::laws::sizes_kept;

/// States that no bytes lead from a session only to itself, and that bytes that lead to a session may be cut into any chunks. Updates
/// that are sent in turn lead to the last session.
pub fn leading()
    ensures nothing { (s t : Session) → Leads s [] t ↔ (s ≡ t) }
    ensures in_turn { (s t u : Session) (a b : List ℕ) → Leads s a t → Leads t b u → Leads s (a ++ b) u }
    ensures cut { (s t : Session) (chunks : List (List ℕ)) → Leads s (joined chunks) t ↔ LeadsAlong s chunks t }
{}

/// States that no bytes change an xterm's size.
pub fn sizes()
    ensures { (s t : Session) (bytes before after : List ℕ) → s.screen.other.grid.size ≡ s.screen.shown.grid.size
        → PlaysXterm s bytes t before after → t.screen.shown.grid.size ≡ s.screen.shown.grid.size }
{
    sizes_kept();
}
