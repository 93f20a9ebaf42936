//! Laws over the definitions alone. A caller cites a law by a call of its function.
ghost use Rattle.std.specs.Prelude.{◌≡◌, ◌↔◌, ◌≤◌, ℕ, List, [], length};
ghost use Rattle.vt_syntax.specs.declared.held.Held.TheVariants.{Nothing};
ghost use Rattle.vt_screen.specs.declared.size.Size.{Size};
ghost use Rattle.vt_screen.specs.Sizes.{IsSize, vt220_size};
ghost use Rattle.vt_term.specs.State.{State};
ghost use Rattle.vt_term.specs.Sound.{IsSound, IsSoundAt};
ghost use Rattle.vt_term.specs.Play.{play};
ghost use Rattle.std.specs.Str.{IsAscii};
ghost use Rattle.vt_paint.specs.Limits.{paint_limit};
ghost use Rattle.vt_paint.specs.Repaint.{paint, IsReached, IsReachedAt, IsRebuilt, IsRebuiltAt};
ghost use Rattle.vt_paint.specs.Spoken.{Speaks};

use crate::PAINT_LIMIT;
use vt_syntax::laws::one_split;
use vt_term::laws::{sized_cuts, sized_soundness};

// ---- at any size

/// States that the repaint of a state between sequences rebuilds that state on every terminal of its size, and gives no report.
/// The terminal may be in any state.
pub fn sized_rebuilds()
    ensures { (size : Size) (s : State) → IsSoundAt size s → s.held ≡ Nothing → IsRebuiltAt size s }
{}

/// States that states of one size between sequences are equal if and only if their repaints are. After a repaint is played, the
/// new state has the same repaint.
///
/// The sound states of a size between sequences are exactly those that some bytes reach from power-up.
pub fn sized_canonical()
    ensures same { (size : Size) (s u : State) → IsSoundAt size s → IsSoundAt size u → s.held ≡ Nothing → u.held ≡ Nothing
        → (s ≡ u) ↔ (paint s ≡ paint u) }
    ensures again { (size : Size) (s t : State) → IsSoundAt size s → IsSoundAt size t → s.held ≡ Nothing
        → paint (play t (paint s)).state ≡ paint s }
    ensures reached { (size : Size) (s : State) → IsSize size → s.held ≡ Nothing → IsSoundAt size s ↔ IsReachedAt size s }
{
    sized_rebuilds();
    sized_reached();
    sized_soundness();
}

/// States that the sound states of a size are exactly those that some bytes reach from power-up.
pub fn sized_reached()
    ensures { (size : Size) (s : State) → IsSize size → IsSoundAt size s ↔ IsReachedAt size s }
{
    one_split();
    sized_cuts();
    sized_bounded();
    sized_soundness();
}

/// States that no repaint is longer than the limit of its size, and that its bytes are ASCII.
pub fn sized_bounded()
    ensures len { (size : Size) (s : State) → IsSoundAt size s → length (paint s) ≤ paint_limit size }
    ensures ascii { (size : Size) (s : State) → IsSoundAt size s → IsAscii (paint s) }
{}

/// States that a repaint of a state of any size consists of graphic characters and of the control functions that `Spoken`
/// names, in their 7-bit forms.
pub fn sized_spoken()
    ensures { (size : Size) (s : State) → IsSoundAt size s → Speaks (paint s) }
{}

/// States that `PAINT_LIMIT` is the limit of a VT220's size.
pub fn vt220_limit()
    ensures { paint_limit vt220_size ≡ PAINT_LIMIT }
{}

// ---- of a VT220

/// States that the repaint of a state between sequences rebuilds that state on every terminal, and gives no report. The
/// terminal may be in any state.
pub fn rebuilds()
    ensures { (s : State) → IsSound s → s.held ≡ Nothing → IsRebuilt s }
{
    sized_rebuilds();
}

/// States that states between sequences are equal if and only if their repaints are. After a repaint is played, the new
/// state has the same repaint.
///
/// The sound states between sequences are exactly those that some bytes reach from power-up.
pub fn canonical()
    ensures same { (s u : State) → IsSound s → IsSound u → s.held ≡ Nothing → u.held ≡ Nothing
        → (s ≡ u) ↔ (paint s ≡ paint u) }
    ensures again { (s t : State) → IsSound s → IsSound t → s.held ≡ Nothing → paint (play t (paint s)).state ≡ paint s }
    ensures reached { (s : State) → s.held ≡ Nothing → IsSound s ↔ IsReached s }
{
    sized_canonical();
    reached();
}

/// States the promise of a repaint in terms of playing alone, for the states that bytes reach from power-up. Between
/// sequences a repaint rebuilds the state on every terminal, and gives no report. Two such states are equal if and only
/// if their repaints are.
pub fn from_power_up()
    ensures rebuilds { (s t : State) → IsReached s → IsReached t → s.held ≡ Nothing
        → play t (paint s) ≡ record { state = s; reports = [] } }
    ensures identifies { (s u : State) → IsReached s → IsReached u → s.held ≡ Nothing → u.held ≡ Nothing
        → (s ≡ u) ↔ (paint s ≡ paint u) }
{
    rebuilds();
    canonical();
    reached();
}

/// States that the sound states are exactly those that some bytes reach from power-up.
pub fn reached()
    ensures { (s : State) → IsSound s ↔ IsReached s }
{
    sized_reached();
}

/// States that a repaint consists of graphic characters and of the control functions that `Spoken` names, in their
/// 7-bit forms. All bytes of that kind are ASCII.
pub fn spoken()
    ensures repaint { (s : State) → IsSound s → Speaks (paint s) }
    ensures ascii { (bytes : List ℕ) → Speaks bytes → IsAscii bytes }
{
    sized_spoken();
}
