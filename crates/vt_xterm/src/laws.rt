//! Laws over the definitions alone. A caller cites a law by a call of its function.
ghost use Rattle.std.specs.Prelude.{◌≡◌, ◌<◌, ◌+◌, ℕ, List, [], ◌++◌, All, None, if◌then◌else◌};
ghost use Rattle.vt_syntax.specs.declared.event.Event.{Event};
ghost use Rattle.vt_syntax.specs.Held.{IsHeldPart};
ghost use Rattle.vt_term.specs.State.{power_up, state_of};
ghost use Rattle.vt_screen.specs.declared.size.Size.{Size};
ghost use Rattle.vt_screen.specs.Sizes.{IsSize};
ghost use Rattle.vt_term.specs.Sound.{IsSound, IsSoundDisplay, IsSoundDisplayAt, IsSoundAt, IsSoundSized};
ghost use Rattle.vt_term.specs.Pages.{IsSoundPage, IsSoundPageAt, IsSoundSizedPage};
ghost use Rattle.vt_term.specs.Play.{play, joined};
ghost use Rattle.vt_term.specs.Scrolling.{scrolled_off};
ghost use Rattle.vt_utf8.specs.Decoding.{pending_after};
ghost use Rattle.vt_xterm.specs.Pages.{Screens};
ghost use Rattle.vt_xterm.specs.Front.{xterm_effect};
ghost use Rattle.vt_xterm.specs.Sides.{FitsSides};
ghost use Rattle.vt_xterm.specs.Play.{Whole, IsSoundWhole, IsSoundWholeAt, behind, front_of, front_at_power_up};
ghost use Rattle.vt_xterm.specs.Play.{play_bytes, play_xterm, play_xterm_all, both, nothing_played, xterm_log};
ghost use Rattle.vt_xterm.specs.Resizing.{whole_on, xterm_log_on, main_page, main_row, main_off};
ghost use Rattle.vt_screen.specs.Grid.{width_on};
ghost use Rattle.vt_term.specs.Text.{lines_text};
ghost use Rattle.vt_xterm.specs.Terminals.{PlaysTerminals};

use vt_glyph::laws::{glyphs, soundness as sets_soundness, spelling};
use vt_screen::laws::{rows, tests};
use vt_syntax::laws::{one_split, spelled};
use vt_term::laws::{
    resizes as resized, sized_cuts as played_cuts, sized_soundness as played_soundness,
};
use vt_utf8::laws::glyphs as shown_glyphs;

/// States at any size that the state and the page that isn't shown are sound at power-up, and that events and UTF-8 keep them sound. So
/// they keep the left and right margins: these fit the screen.
pub fn sized_soundness()
    ensures power_up { (size : Size) → IsSize size → IsSoundWholeAt size (behind (state_of size) (front_of size)) }
    ensures event { (size : Size) (event : Event) (s : Screens) → IsSoundDisplayAt size s.display → IsSoundPageAt size s.pages.other
        → IsSoundDisplayAt size (xterm_effect event s).display × IsSoundPageAt size (xterm_effect event s).pages.other }
    ensures sides { (size : Size) (event : Event) (s : Screens) → IsSoundDisplayAt size s.display → IsSoundPageAt size s.pages.other
        → FitsSides s.display s.pages.sides → FitsSides (xterm_effect event s).display (xterm_effect event s).pages.sides }
    ensures play { (size : Size) (w : Whole) (pending bytes : List ℕ) → IsSoundWholeAt size w
        → IsSoundWholeAt size (play_xterm w pending bytes).whole }
{
    one_split();
    spelled();
    glyphs();
    spelling();
    sets_soundness();
    rows();
    tests();
    shown_glyphs();
    played_soundness();
    played_cuts();
}

/// States that the state and the page that isn't shown are sound at power-up, and that events and UTF-8 keep them sound. So they keep the
/// left and right margins: these fit the screen.
pub fn soundness()
    ensures power_up { IsSoundWhole (behind power_up front_at_power_up) }
    ensures event { (event : Event) (s : Screens) → IsSoundDisplay s.display → IsSoundPage s.pages.other
        → IsSoundDisplay (xterm_effect event s).display × IsSoundPage (xterm_effect event s).pages.other }
    ensures sides { (event : Event) (s : Screens) → IsSoundDisplay s.display → IsSoundPage s.pages.other
        → FitsSides s.display s.pages.sides → FitsSides (xterm_effect event s).display (xterm_effect event s).pages.sides }
    ensures play { (w : Whole) (pending bytes : List ℕ) → IsSoundWhole w
        → IsSoundWhole (play_xterm w pending bytes).whole }
{
    sized_soundness();
}

/// States that what a host sends may be cut anywhere: chunks in turn leave the state, the pages, the pending part, the reports
/// and the lines of the chunks joined.
pub fn cuts()
    ensures none { (w : Whole) (pending : List ℕ) → play_xterm w pending [] ≡ nothing_played w }
    ensures two { (w : Whole) (pending a b : List ℕ) → play_xterm w pending (a ++ b)
        ≡ both (play_xterm w pending a) (play_xterm (play_xterm w pending a).whole (pending_after pending a) b) }
    ensures all { (w : Whole) (pending : List ℕ) (pieces : List (List ℕ))
        → play_xterm_all w pending pieces ≡ play_xterm w pending (joined pieces) }
{}

/// States at any size that ASCII with nothing pending is played by its events. Suppose that DECLRMM is reset, and that
/// all these events have a VT220's effect. Then the bytes leave and report what they do on a VT220, and the pages stay.
/// On the main page the bytes also scroll off what they do there.
pub fn sized_transparent()
    ensures ascii { (w : Whole) (bytes : List ℕ) → IsHeldPart w.state.held → All (λ b. b < 0x80) bytes
        → play_xterm w [] bytes ≡ play_bytes w bytes }
    ensures terminals { (w : Whole) (bytes : List ℕ) → w.pages.sides ≡ None → PlaysTerminals w.state bytes → play_bytes w bytes ≡ record {
      whole = record w { state = (play w.state bytes).state };
      reports = (play w.state bytes).reports;
      lines = if w.pages.alternate then [] else scrolled_off w.state bytes;
    } }
{
    one_split();
}

/// States that ASCII with nothing pending is played by its events. Suppose that DECLRMM is reset, and that all these
/// events have a VT220's effect. Then the bytes leave and report what they do on a VT220, and the pages stay. On the
/// main page the bytes also scroll off what they do there.
pub fn transparent()
    ensures ascii { (w : Whole) (bytes : List ℕ) → IsSound w.state → All (λ b. b < 0x80) bytes
        → play_xterm w [] bytes ≡ play_bytes w bytes }
    ensures terminals { (w : Whole) (bytes : List ℕ) → w.pages.sides ≡ None → PlaysTerminals w.state bytes → play_bytes w bytes ≡ record {
      whole = record w { state = (play w.state bytes).state };
      reports = (play w.state bytes).reports;
      lines = if w.pages.alternate then [] else scrolled_off w.state bytes;
    } }
{
    sized_transparent();
}

/// States that the log may be cut anywhere: the lines of chunks in turn are those of the chunks joined.
pub fn log_cuts()
    ensures none { (w : Whole) (pending : List ℕ) → xterm_log w pending [] ≡ [] }
    ensures two { (w : Whole) (pending a b : List ℕ) → xterm_log w pending (a ++ b)
        ≡ xterm_log w pending a ++ xterm_log (play_xterm w pending a).whole (pending_after pending a) b }
{}

/// States what a change of the screen's size keeps: at its own size a session stays as it is, and nothing goes to the log. At another
/// size the terminal and the page that isn't shown are sound and of that size, and the left and right margins fit it.
/// No line is lost if the height changes alone: what goes to the log, followed by the rows of the main page up to its cursor, is
/// these rows of before. While that page isn't shown, its cursor is the place that was saved on it.
pub fn resizes()
    ensures own { (w : Whole) → IsSoundSized w.state → IsSoundPageAt w.state.display.grid.size w.pages.other
        → whole_on w.state.display.grid.size w ≡ w }
    ensures own_log { (w : Whole) → IsSoundSized w.state → IsSoundPageAt w.state.display.grid.size w.pages.other
        → xterm_log_on w.state.display.grid.size w ≡ [] }
    ensures kept { (size : Size) (w : Whole) → IsSize size → IsSoundSized w.state → IsSoundPageAt w.state.display.grid.size w.pages.other
        → width_on size (main_page w).grid ≡ (main_page w).grid.width
        → xterm_log_on size w ++ lines_text (main_row (whole_on size w)) (main_page (whole_on size w)).grid
        ≡ lines_text (main_row w) (main_page w).grid }
    ensures line { (size : Size) (w : Whole) → IsSize size → IsSoundSized w.state → IsSoundSizedPage w.pages.other
        → main_row (whole_on size w) + main_off size w.state.display w.pages ≡ main_row w }
    ensures sound { (size : Size) (w : Whole) → IsSize size → IsSoundSized w.state → IsSoundSizedPage w.pages.other
        → IsSoundAt size (whole_on size w).state × IsSoundPageAt size (whole_on size w).pages.other }
    ensures sides { (size : Size) (w : Whole) → IsSize size → IsSoundSized w.state → FitsSides w.state.display w.pages.sides
        → FitsSides (whole_on size w).state.display (whole_on size w).pages.sides }
{
    resized();
}
