//! Laws over the definitions alone. A caller cites a law by a call of its function.
ghost use Rattle.std.specs.Prelude.{◌≡◌, ◌↔◌, ◌≤◌, ◌++◌, ℕ, List, [], length};
ghost use Rattle.std.specs.Str.{IsAscii};
ghost use Rattle.vt_syntax.specs.declared.held.Held.TheVariants.{Nothing};
ghost use Rattle.vt_screen.specs.declared.size.Size.{Size};
ghost use Rattle.vt_screen.specs.Sizes.{vt220_size};
ghost use Rattle.vt_term.specs.Sound.{IsSound, IsSoundAt};
ghost use Rattle.vt_paint.specs.Repaint.{IsReached};
ghost use Rattle.vt_xterm.specs.Play.{Whole, IsSoundWhole, IsSoundWholeAt};
ghost use Rattle.vt_xterm_paint.specs.Repaint.{xterm_repaint, xterm_paint_limit, IsPart, Rebuilds, IsReachedWhole, IsRebuilt};
ghost use Rattle.vt_xterm_paint.specs.Repaint.{IsRebuiltAt};

use crate::XTERM_PAINT_LIMIT;
use vt_paint::laws::{reached as state_reached, vt220_limit as vt220_paint_limit};
use vt_syntax::laws::one_split;
use vt_term::laws::{sized_soundness, soundness};
use vt_utf8::laws::sized_silence;
use vt_xterm::laws::soundness as session_soundness;

// ---- at any size

/// States that the repaint of a session between sequences rebuilds it on every terminal and front of its size, and gives no report.
pub fn sized_rebuilds()
    ensures { (size : Size) (w : Whole) → IsSoundWholeAt size w → w.state.held ≡ Nothing → IsRebuiltAt size w }
{
    one_split();
    sized_soundness();
    sized_silence();
}

/// States that the pending bytes of UTF-8, sent after the repaint, are pending again and change nothing else.
pub fn sized_pending()
    ensures { (size : Size) (w u : Whole) (part left : List ℕ) → IsSoundWholeAt size w → w.state.held ≡ Nothing
        → IsSoundAt size u.state → IsPart part → IsPart left → Rebuilds (xterm_repaint w ++ left) w left u part }
{
    sized_rebuilds();
}

/// States that sessions of one size between sequences are equal if and only if their repaints are.
pub fn sized_canonical()
    ensures { (size : Size) (w v : Whole) → IsSoundWholeAt size w → IsSoundWholeAt size v → w.state.held ≡ Nothing
        → v.state.held ≡ Nothing → (w ≡ v) ↔ (xterm_repaint w ≡ xterm_repaint v) }
{
    sized_rebuilds();
    sized_soundness();
}

/// States that no repaint is longer than the limit of its size, and that its bytes are ASCII.
pub fn sized_bounded()
    ensures len { (size : Size) (w : Whole) → IsSoundWholeAt size w → length (xterm_repaint w) ≤ xterm_paint_limit size }
    ensures ascii { (size : Size) (w : Whole) → IsSoundWholeAt size w → IsAscii (xterm_repaint w) }
{
    sized_soundness();
}

/// States that `XTERM_PAINT_LIMIT` is the limit of a VT220's size.
pub fn vt220_limit()
    ensures { xterm_paint_limit vt220_size ≡ XTERM_PAINT_LIMIT }
{
    vt220_paint_limit();
}

// ---- of a VT220

/// States that the repaint of a session between sequences rebuilds it on every terminal and front, and gives no report.
///
/// A session is a terminal, the page that isn't shown, modes, and the left and right margins. The modes are which page
/// is shown, whether DECCOLM has an effect, and whether pasted text is wanted in brackets. The repaint leaves exactly
/// these, and nothing is pending.
pub fn rebuilds()
    ensures { (w : Whole) → IsSoundWhole w → w.state.held ≡ Nothing → IsRebuilt w }
{
    sized_rebuilds();
}

/// States that the pending bytes of UTF-8, sent after the repaint, are pending again and change nothing else.
pub fn pending()
    ensures { (w u : Whole) (part left : List ℕ) → IsSoundWhole w → w.state.held ≡ Nothing → IsSound u.state → IsPart part
        → IsPart left → Rebuilds (xterm_repaint w ++ left) w left u part }
{
    sized_pending();
}

/// States that sessions between sequences are equal if and only if their repaints are.
pub fn canonical()
    ensures { (w v : Whole) → IsSoundWhole w → IsSoundWhole v → w.state.held ≡ Nothing → v.state.held ≡ Nothing
        → (w ≡ v) ↔ (xterm_repaint w ≡ xterm_repaint v) }
{
    sized_canonical();
}

/// States the promise of a repaint in terms of playing alone, for the sessions that bytes reach from power-up. Between
/// sequences a repaint rebuilds the session on every terminal, with any pages and after any pending part. Two such
/// sessions are equal if and only if their repaints are.
pub fn from_power_up()
    ensures rebuilds { (w u : Whole) (part : List ℕ) → IsReachedWhole w → w.state.held ≡ Nothing → IsReached u.state
        → IsPart part → Rebuilds (xterm_repaint w) w [] u part }
    ensures identifies { (w v : Whole) → IsReachedWhole w → IsReachedWhole v → w.state.held ≡ Nothing → v.state.held ≡ Nothing
        → (w ≡ v) ↔ (xterm_repaint w ≡ xterm_repaint v) }
{
    rebuilds();
    canonical();
    reached();
    state_reached();
}

/// States that the sound sessions between sequences are exactly those that some bytes reach from power-up.
pub fn reached()
    ensures { (w : Whole) → w.state.held ≡ Nothing → IsSoundWhole w ↔ IsReachedWhole w }
{
    bounded();
    rebuilds();
    soundness();
    session_soundness();
}

/// States that no repaint is longer than `XTERM_PAINT_LIMIT`, and that its bytes are ASCII.
pub fn bounded()
    ensures len { (w : Whole) → IsSoundWhole w → length (xterm_repaint w) ≤ XTERM_PAINT_LIMIT }
    ensures ascii { (w : Whole) → IsSoundWhole w → IsAscii (xterm_repaint w) }
{
    sized_bounded();
    vt220_limit();
}
