//! Laws of the definitions that contracts cite. A law is a function with an empty body, which a proof
//! cites by calling it.
ghost use Rattle.std.specs.Prelude.{◌≡◌, ◌≤◌, ℕ, Some};
ghost use Rattle.vt_glyph.specs.declared.set.Set.{Set};
ghost use Rattle.vt_glyph.specs.Encoding.{IsEncoding, encoded_glyph};
ghost use Rattle.vt_glyph.specs.Designation.{set_of_final, final_of};
ghost use Rattle.vt_glyph.specs.Laws.{SpellingLaws, GlyphLaws, InUseLaws, SetsLaws};

/// States that each glyph's spelling writes it and leaves the sets, if the sets are those that the spellings are for.
/// Its code is from 20 to 7E, and no two glyphs have the same spelling.
pub fn spelling()
    ensures { SpellingLaws }
{}

/// States that these are glyphs: the space, U+2426, ASCII, the characters of the sets, and all that is read through
/// them.
pub fn glyphs()
    ensures { GlyphLaws }
{}

/// States that each ASCII code from 20 to 7E is the code of its own glyph.
pub fn ascii_codes()
    ensures { (code : ℕ) → 0x20 ≤ code → code ≤ 0x7E → IsEncoding code × (encoded_glyph code ≡ code) }
{}

/// States that a byte with a glyph in either half is read through the sets in GL and GR if no single shift is pending.
/// Reading it leaves the sets unchanged.
pub fn in_use()
    ensures { InUseLaws }
{}

/// States that each set's final byte designates it.
pub fn designation()
    ensures { (set : Set) → set_of_final (final_of set) ≡ Some set }
{}

/// States that the sets at power-up are sound, and that designations, shifts, DECRC and reading keep them sound.
pub fn soundness()
    ensures { SetsLaws }
{}
