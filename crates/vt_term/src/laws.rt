//! Laws over the definitions alone. A caller cites a law by a call of its function.
ghost use Rattle.std.specs.Prelude.{◌≡◌, ◌≤◌, ◌+◌, ℕ, All, List, [], ◌++◌, length, true, false, ◌==◌, None};
ghost use Rattle.vt_syntax.specs.Held.{events_from};
ghost use Rattle.vt_syntax.specs.declared.event.Event.TheVariants.{Print, Control};
ghost use Rattle.vt_glyph.specs.Invocation.{has_no_glyph, glyph_read, after_read};
ghost use Rattle.vt_glyph.specs.Tables.{substitute_glyph};
ghost use Rattle.vt_screen.specs.declared.size.Size.{Size};
ghost use Rattle.vt_screen.specs.Sizes.{IsSize};
ghost use Rattle.vt_screen.specs.Grid.{scroll_up, cell_at, width_on};
ghost use Rattle.vt_term.specs.State.{Display, at_place};
ghost use Rattle.vt_term.specs.Functions.{effect};
ghost use Rattle.vt_term.specs.Writing.{put_glyph, write_glyphs, write_if_read, IsAfterGlyphs};
ghost use Rattle.vt_term.specs.Scrolling.{is_line_feed, is_at_end, scrolls_off};
ghost use Rattle.vt_term.specs.State.{State, power_up, state_of};
ghost use Rattle.vt_term.specs.Sound.{IsSoundAt, IsSound, IsSoundSized};
ghost use Rattle.vt_term.specs.Pages.{PageState, IsSoundPageAt, IsSoundSizedPage};
ghost use Rattle.vt_term.specs.Resizing.{count_off, state_on, log_on, page_on, hidden_off, hidden_log};
ghost use Rattle.vt_term.specs.Text.{lines_text};
ghost use Rattle.vt_term.specs.Scrolling.{scrolled_off, log};
ghost use Rattle.vt_term.specs.Play.{play, both, play_all, joined};
ghost use Rattle.vt_term.specs.Happenings.{happenings, events_in, lines_in};

use vt_glyph::laws::{glyphs, soundness as sets_soundness};
use vt_syntax::laws::one_split;

/// States that the state of a size at power-up is sound, and that playing bytes keeps it sound and of this size.
pub fn sized_soundness()
    ensures power_up { (size : Size) → IsSize size → IsSoundAt size (state_of size) }
    ensures play { (size : Size) (s : State) (bytes : List ℕ) → IsSoundAt size s → IsSoundAt size (play s bytes).state }
{
    one_split();
    glyphs();
    sets_soundness();
}

/// States that a VT220's state at power-up is sound, and that playing bytes keeps soundness.
pub fn soundness()
    ensures power_up { IsSound power_up }
    ensures play { (s : State) (bytes : List ℕ) → IsSound s → IsSound (play s bytes).state }
{
    sized_soundness();
}

/// States that bytes may be cut anywhere, at any size: playing chunks in turn is playing them joined, and scrolls the same lines
/// off.
pub fn sized_cuts()
    ensures none { (size : Size) (s : State) → IsSoundAt size s → play s [] ≡ record { state = s; reports = [] } }
    ensures two { (s : State) (a b : List ℕ) → play s (a ++ b) ≡ both (play s a) (play (play s a).state b) }
    ensures scrolled_none { (size : Size) (s : State) → IsSoundAt size s → scrolled_off s [] ≡ [] }
    ensures scrolled_two { (s : State) (a b : List ℕ)
        → scrolled_off s (a ++ b) ≡ scrolled_off s a ++ scrolled_off (play s a).state b }
    ensures all { (size : Size) (s : State) (pieces : List (List ℕ)) → IsSoundAt size s
        → play_all s pieces ≡ play s (joined pieces) }
{
    one_split();
    sized_soundness();
}

/// States that bytes may be cut anywhere: playing chunks in turn is playing them joined, and scrolls the same lines off.
pub fn cuts()
    ensures none { (s : State) → IsSound s → play s [] ≡ record { state = s; reports = [] } }
    ensures two { (s : State) (a b : List ℕ) → play s (a ++ b) ≡ both (play s a) (play (play s a).state b) }
    ensures scrolled_none { (s : State) → IsSound s → scrolled_off s [] ≡ [] }
    ensures scrolled_two { (s : State) (a b : List ℕ)
        → scrolled_off s (a ++ b) ≡ scrolled_off s a ++ scrolled_off (play s a).state b }
    ensures all { (s : State) (pieces : List (List ℕ)) → IsSound s → play_all s pieces ≡ play s (joined pieces) }
{
    sized_cuts();
}

/// States that the happenings of bytes, one for each byte, have the events of the bytes and the lines that they scroll
/// off. They may be told in parts. All are on a screen of the same size.
pub fn sized_happened()
    ensures events { (size : Size) (s : State) (bytes : List ℕ) → IsSoundAt size s
        → events_in (happenings s bytes) ≡ events_from s.held bytes }
    ensures lines { (size : Size) (s : State) (bytes : List ℕ) → IsSoundAt size s
        → lines_in (happenings s bytes) ≡ scrolled_off s bytes }
    ensures count { (s : State) (bytes : List ℕ) → length (happenings s bytes) ≡ length bytes }
    ensures two { (size : Size) (s : State) (a b : List ℕ) → IsSoundAt size s
        → happenings s (a ++ b) ≡ happenings s a ++ happenings (play s a).state b }
    ensures size { (size : Size) (s : State) (bytes : List ℕ) → IsSoundAt size s
        → All (λ h. h.before.grid.size ≡ size) (happenings s bytes) }
{
    one_split();
    sized_soundness();
}

/// States that the log of chunks in turn is the log of the chunks joined, at any size.
pub fn sized_log_cuts()
    ensures none { (size : Size) (s : State) → IsSoundAt size s → log s [] ≡ [] }
    ensures two { (s : State) (a b : List ℕ) → log s (a ++ b) ≡ log s a ++ log (play s a).state b }
{
    one_split();
}

/// States what the events do that scroll line 1 off: the rows up to the bottom margin move up by one. A line feed does nothing
/// else to the cells, and below or above the bottom margin it leaves them. A character with the wrap flag set is written in
/// column 1 of the rows that moved.
#[tactic(auto, using(crate::proofs::LineEnds::index_end, crate::proofs::LineEnds::next_line_end, crate::proofs::LineEnds::line_feed_end, crate::proofs::LineEnds::next_line_is), unfolding(crate::specs::Functions::control_any, vt_glyph::specs::Invocation::glyph_read))]
pub fn scrolls()
    ensures feed { (b : ℕ) (s : Display) → is_line_feed b ≡ true → is_at_end s ≡ true
        → (effect (Control b) s).grid ≡ scroll_up s.grid 1 s.margins.bottom 1 }
    ensures stays { (b : ℕ) (s : Display) → is_line_feed b ≡ true → (s.cursor.row == s.margins.bottom) ≡ false
        → (effect (Control b) s).grid ≡ s.grid }
    ensures print { (b : ℕ) (s : Display) → scrolls_off (Print b) s ≡ true
        → effect (Print b) s ≡ write_if_read (glyph_read s.sets b) (record s {
          grid = scroll_up s.grid 1 s.margins.bottom 1;
          cursor = at_place s.cursor.row 1;
          sets = after_read s.sets b;
        }) }
    ensures substitute { (s : Display) → scrolls_off (Control 0x1A) s ≡ true
        → effect (Control 0x1A) s ≡ put_glyph substitute_glyph (record s {
          grid = scroll_up s.grid 1 s.margins.bottom 1;
          cursor = at_place s.cursor.row 1;
        }) }
{}

/// States what glyphs do that are written one after another. They may be written in parts. Before the last column they leave the
/// graphic sets and the width, and the cursor goes on without a wrap.
pub fn glyph_runs()
    ensures two { (a b : List ℕ) (s : Display) → write_glyphs (a ++ b) s ≡ write_glyphs b (write_glyphs a s) }
    ensures leaves { (glyphs : List ℕ) (s : Display) → s.cursor.wrap ≡ false
        → s.cursor.col + length glyphs ≤ s.grid.width
        → IsAfterGlyphs (length glyphs) s (write_glyphs glyphs s) }
{}

/// States what a change of the screen's size keeps. At its own size a state stays as it is, and nothing goes to the
/// log. A page of which no row leaves stays, too. Cells that both screens have stay, and the cursor stays in its line.
/// A sound state is sound at the other size, and so is a page. No line is lost if the height changes alone: what goes to
/// the log, followed by the rows up to the cursor, is the rows up to the cursor of before. The same is so of a page that goes
/// by its saved place.
pub fn resizes()
    ensures own { (s : State) → IsSoundSized s → state_on s.display.grid.size s ≡ s }
    ensures own_log { (s : State) → IsSoundSized s → log_on s.display.grid.size s ≡ [] }
    ensures own_page { (page : PageState) → IsSoundSizedPage page → page_on page.grid.size 0 page ≡ page }
    ensures own_page_log { (page : PageState) → IsSoundSizedPage page → hidden_log page.grid.size page ≡ [] }
    ensures inside { (size : Size) (s : State) (r c : ℕ) → 1 ≤ r → r ≤ size.rows
        → r + count_off size s.display ≤ s.display.grid.size.rows → 1 ≤ c → c ≤ s.display.grid.width
        → c ≤ (state_on size s).display.grid.width
        → cell_at (state_on size s).display.grid r c ≡ cell_at s.display.grid (r + count_off size s.display) c }
    ensures line { (size : Size) (s : State)
        → (state_on size s).display.cursor.row + count_off size s.display ≡ s.display.cursor.row }
    ensures sound { (size : Size) (s : State) → IsSize size → IsSoundSized s → IsSoundAt size (state_on size s) }
    ensures line_page { (size : Size) (page : PageState) → IsSize size → IsSoundSizedPage page
        → (page_on size (hidden_off size page) page).saved.row + hidden_off size page ≡ page.saved.row }
    ensures sound_page { (size : Size) (off : ℕ) (page : PageState) → IsSize size → IsSoundSizedPage page
        → IsSoundPageAt size (page_on size off page) }
    ensures kept { (size : Size) (s : State) → IsSoundSized s → width_on size s.display.grid ≡ s.display.grid.width
        → log_on size s ++ lines_text (state_on size s).display.cursor.row (state_on size s).display.grid
        ≡ lines_text s.display.cursor.row s.display.grid }
    ensures kept_page { (size : Size) (page : PageState) → IsSize size → IsSoundSizedPage page
        → width_on size page.grid ≡ page.grid.width
        → hidden_log size page
        ++ lines_text (page_on size (hidden_off size page) page).saved.row (page_on size (hidden_off size page) page).grid
        ≡ lines_text page.saved.row page.grid }
{}
