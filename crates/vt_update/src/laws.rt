//! Laws over the definitions alone. A caller cites a law by a call of its function.
ghost use Rattle.std.specs.Prelude.{◌≡◌, ◌↔◌, ℕ, List, [], ◌++◌};
ghost use Rattle.vt_syntax.specs.declared.held.Held.TheVariants.{Nothing};
ghost use Rattle.vt_screen.specs.declared.size.Size.{Size};
ghost use Rattle.vt_term.specs.State.{State};
ghost use Rattle.vt_term.specs.Sound.{IsSoundAt};
ghost use Rattle.vt_term.specs.Play.{play, joined};
ghost use Rattle.vt_paint.specs.Repaint.{paint};
ghost use Rattle.vt_update.specs.Leads.{silently, Leads, LeadsAlong, last_state};

use vt_paint::laws::sized_rebuilds;
use vt_term::laws::{sized_cuts, sized_soundness};

/// States of the states of one size that bytes lead to a state if and only if playing them reaches it without a report.
/// The bytes may be whole or cut. The empty list of bytes leads from a state only to itself.
///
/// Updates that are sent in turn lead a client along the server's states to the last one, for any states. They also
/// lead a client there that first gets a repaint, in any state, and then an update.
pub fn sized_leading()
    ensures played { (size : Size) (s t : State) (bytes : List ℕ) → IsSoundAt size s → play s bytes ≡ silently t → Leads s bytes t }
    ensures nothing { (size : Size) (s t : State) → IsSoundAt size s → Leads s [] t ↔ (s ≡ t) }
    ensures in_turn { (size : Size) (s : State) (updates : List (List ℕ)) (states : List State) → IsSoundAt size s
        → LeadsAlong s updates states
        → Leads s (joined updates) (last_state s states) }
    ensures joins_late { (size : Size) (client s t : State) (sent : List ℕ) → IsSoundAt size client → IsSoundAt size s
        → s.held ≡ Nothing → Leads s sent t → Leads client (paint s ++ sent) t }
{
    sized_cuts();
    sized_soundness();
    sized_rebuilds();
}
