//! The parser, and what is read through the graphic sets.
ghost use Rattle.std.specs.Option.{option_to_list};
ghost use Rattle.std.specs.Prelude.{[], All, length, slice_index, take, ◌<◌, ◌∷◌, ◌≡◌, ◌≤◌};
ghost use Rattle.vt_glyph.specs.Invocation.{restored};
ghost use Rattle.vt_glyph.specs.Spell.{spelling_of};
ghost use Rattle.vt_syntax.specs.Class.{IsPlain};
ghost use Rattle.vt_syntax.specs.Held.{events_from, held_from};

use vt_glyph::{Glyph, Set, Sets, Spelling};
use vt_syntax::{Event, Held, Parser};

/// States what `Parser::push` does.
pub fn push(parser: &mut Parser, b: u8) -> Option<Event>
    ensures event { option_to_list result ≡ events_from parser.old (b ∷ []) }
    ensures held { parser.new ≡ held_from parser.old (b ∷ []) }
{
    parser.push(b)
}

/// States what `vt_syntax::plain_run` returns.
pub fn plain_run(piece: &[u8]) -> usize
    ensures within { result ≤ length piece.now }
    ensures plain { All IsPlain (take result piece.now) }
    ensures stops { result < length piece.now → ¬ IsPlain (slice_index piece.now result) }
{
    vt_syntax::plain_run(piece)
}

/// States what `Glyph::spelling` returns.
pub fn spelling(glyph: Glyph) -> Spelling
    ensures { result ≡ spelling_of glyph }
{
    glyph.spelling()
}

/// States what `Sets::restore` does.
pub fn restore(sets: &mut Sets, g: [Set; 4], left: u8, right: u8)
    requires left { left < 4 }
    requires right { (1 ≤ right) × (right < 4) }
    ensures after { sets.new ≡ restored g left right sets.old }
{
    sets.restore(g, left, right)
}
