//! Laws over the definitions alone. A caller cites a law by a call of its function.
ghost use Rattle.std.specs.Prelude.{◌≡◌, ◌↔◌, ◌≤◌, ℕ, Bool, [], ◌∷◌, All};
ghost use Rattle.vt_feed.specs.Actions.{Function, state_after, reports};
ghost use Rattle.vt_feed.specs.Spelled.{IsSpelled};
ghost use Rattle.vt_paint.specs.Controls.{ansi_mode, private_mode, sequence_of};
ghost use Rattle.vt_xterm_cell.specs.declared.look.Look.{Look};
ghost use Rattle.vt_xterm_cell.specs.Words.{CellParts};
ghost use Rattle.vt_xterm_cell.specs.Rendition.{rendered};
ghost use Rattle.vt_xterm_repaint.specs.Colours.{HasColours};
ghost use Rattle.vt_xterm_repaint.specs.GraphicCells.{IsGraphicCell};
ghost use Rattle.vt_xterm_display.specs.Functions.{xterm};
ghost use Rattle.vt_xterm_display.specs.State.{XtermState, on_shown};
ghost use Rattle.vt_xterm_repaint.specs.Cells.{glyph_actions};
ghost use Rattle.vt_xterm_repaint.specs.Makeable.{CanBeMade, Rebuilds};
ghost use Rattle.vt_xterm_repaint.specs.Repaint.{repaint};
ghost use Rattle.vt_xterm_repaint.specs.Looks.{attribute_values, both_colours, look_actions};

use vt_feed::laws::spelled;

/// States that SGR of a look's attributes, and then of its colours, gives the look from any other one. The protection stays. The
/// functions of a look select it in any state. They change nothing else, and report nothing.
pub fn looks()
    ensures rendered { (look old : Look) → HasColours look
        → rendered (both_colours look) (rendered (attribute_values look.attributes) old) ≡ record look { protected = old.protected } }
    ensures selected { (look : Look) (s : XtermState) → HasColours look
        → state_after xterm (look_actions look) s ≡ on_shown (λ d. record d { brush = look }) s }
    ensures silent { (look : Look) (s : XtermState) → reports xterm (look_actions look) s ≡ [] }
{}

/// States what can be spelled: the functions of a look, the character and the marks of a graphic cell, SM and RM of any mode, and a
/// control sequence of two numbers.
pub fn spellings()
    ensures look { (look : Look) → HasColours look → All IsSpelled (look_actions look) }
    ensures glyph { (cell : CellParts) → IsGraphicCell cell → All IsSpelled (glyph_actions cell) }
    ensures ansi_mode { (n : ℕ) (on : Bool) → n ≤ 9999 → IsSpelled (Function (ansi_mode n on)) }
    ensures private_mode { (n : ℕ) (on : Bool) → n ≤ 9999 → IsSpelled (Function (private_mode n on)) }
    ensures pair { (n m last : ℕ) → n ≤ 9999 → m ≤ 9999 → 0x40 ≤ last → last ≤ 0x7E
        → IsSpelled (Function (sequence_of (n ∷ m ∷ []) last)) }
{}

/// States that a repaint rebuilds its state. Its bytes leave the state on any session of its size, between sequences and characters.
/// The session may be in any state, and may be reading a sequence or a character. The bytes report nothing.
pub fn rebuilds()
    ensures { (w : XtermState) → CanBeMade w → Rebuilds w }
{
    spelled();
}

/// States that two states of one size have the same repaint if they are equal, and only then.
pub fn canonical()
    ensures { (v w : XtermState) → CanBeMade v → CanBeMade w → v.shown.grid.size ≡ w.shown.grid.size
        → (v ≡ w) ↔ (repaint v ≡ repaint w) }
{
    spelled();
}
