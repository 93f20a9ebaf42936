//! Laws over the definitions alone. A caller cites a law by a call of its function.
ghost use Rattle.std.specs.Prelude.{◌≡◌, ◌<◌, ◌≤◌, ◌+◌, ℕ, List, [], ◌∷◌, ◌++◌, All, None, false, length, flat_map};
ghost use Rattle.vt_term.specs.State.{State};
ghost use Rattle.vt_screen.specs.declared.size.Size.{Size};
ghost use Rattle.vt_term.specs.Sound.{IsSoundAt, IsSound};
ghost use Rattle.vt_term.specs.Play.{play, both, joined};
ghost use Rattle.vt_glyph.specs.Tables.{IsGlyph};
ghost use Rattle.vt_utf8.specs.Similar.{shown};
ghost use Rattle.vt_syntax.specs.declared.held.Held.TheVariants.{Nothing};
ghost use Rattle.vt_term.specs.Writing.{write_glyph, write_glyphs};
ghost use Rattle.vt_term.specs.Scrolling.{scrolled_off};
ghost use Rattle.vt_utf8.specs.Cells.{cells};
ghost use Rattle.vt_utf8.specs.Translation.{written, unshifted, translation, glyph_off, is_at_end, write_wide, reads_ascii, IsPlain};
ghost use Rattle.vt_utf8.specs.Text.{glyphs_of, IsInText, IsReady};
ghost use Rattle.vt_utf8.specs.Decoding.{read, pending_after};
ghost use Rattle.vt_utf8.specs.Play.{translated_all, translated, play_utf8, play_utf8_all};

use vt_glyph::laws::{ascii_codes, glyphs as all_glyphs, spelling};
use vt_syntax::laws::{one_split, spelled};
use vt_term::laws::{glyph_runs, sized_cuts as played_cuts, sized_soundness as played_soundness};

/// States at any size that each state that UTF-8 leaves is sound: it is one that the terminal's bytes leave.
pub fn sized_soundness()
    ensures { (size : Size) (s : State) (pending bytes : List ℕ) → IsSoundAt size s → IsSoundAt size (play_utf8 s pending bytes).state }
{
    played_soundness();
}

/// States at any size that UTF-8 may be cut anywhere: chunks in turn leave the state, the pending part and the reports of the
/// chunks joined.
pub fn sized_cuts()
    ensures none { (size : Size) (s : State) (pending : List ℕ) → IsSoundAt size s
        → play_utf8 s pending [] ≡ record { state = s; reports = [] } }
    ensures two { (size : Size) (s : State) (pending a b : List ℕ) → IsSoundAt size s → play_utf8 s pending (a ++ b)
        ≡ both (play_utf8 s pending a) (play_utf8 (play_utf8 s pending a).state (pending_after pending a) b) }
    ensures pending { (pending a b : List ℕ)
        → pending_after pending (a ++ b) ≡ pending_after (pending_after pending a) b }
    ensures translated { (size : Size) (s : State) (pending a b : List ℕ) → IsSoundAt size s → translated s pending (a ++ b)
        ≡ translated s pending a ++ translated (play_utf8 s pending a).state (pending_after pending a) b }
    ensures all { (size : Size) (s : State) (pending : List ℕ) (pieces : List (List ℕ)) → IsSoundAt size s
        → play_utf8_all s pending pieces ≡ play_utf8 s pending (joined pieces) }
{
    played_cuts();
    played_soundness();
}

/// States at any size what a byte is translated to: the bytes of the characters that it completes, each in the state that those
/// before it leave. Those characters may be given in two parts, as `Decoder::push` does.
pub fn sized_one_byte()
    ensures { (size : Size) (s : State) (pending : List ℕ) (b : ℕ) (xs ys : List ℕ) → IsSoundAt size s → xs ++ ys ≡ (read pending b).characters
        → translated s pending (b ∷ [])
        ≡ translated_all s xs ++ translated_all (play s (translated_all s xs)).state ys }
{
    played_cuts();
    played_soundness();
}

/// States at any size that a character beyond ASCII causes no report, in any state. Its bytes are ESC and ASCII with a
/// glyph.
pub fn sized_silence()
    ensures silent { (size : Size) (s : State) (c : ℕ) → IsSoundAt size s → 0x80 ≤ c → (play s (translation s c)).reports ≡ [] }
    ensures plain { (s : State) (c : ℕ) → 0x80 ≤ c → All IsPlain (translation s c) }
{
    one_split();
    spelled();
    all_glyphs();
    spelling();
}

/// States that ASCII with nothing pending is played as the terminal's own bytes, and leaves nothing pending. So a
/// repaint and an update, which are ASCII, do the same in UTF-8.
pub fn ascii()
    ensures translated { (s : State) (bytes : List ℕ) → All (λ b. b < 0x80) bytes
        → translated s [] bytes ≡ bytes }
    ensures played { (s : State) (bytes : List ℕ) → All (λ b. b < 0x80) bytes
        → play_utf8 s [] bytes ≡ play s bytes }
    ensures pending { (bytes : List ℕ) → All (λ b. b < 0x80) bytes → pending_after [] bytes ≡ [] }
{}

/// States that each character is shown by one of the 204 glyphs. A glyph that isn't in ASCII is shown by itself.
pub fn glyphs()
    ensures shown { (c : ℕ) → IsGlyph (shown c) }
    ensures themselves { (n : ℕ) → IsGlyph n → 0xA0 ≤ n → shown n ≡ n }
{
    all_glyphs();
}

/// States at any size what a translation does between sequences. The bytes for a glyph write it as any glyph is
/// written, whatever the sets are. They use a pending single shift up and leave the sets. A character of one cell is
/// its glyph, and scrolls line 1 off with the wrap flag at the bottom margin. One of two cells is its glyph and a
/// space, if no single shift is pending. If the row has one cell left, they are in the next line under DECAWM, and
/// aren't written without DECAWM. Otherwise the glyph scrolls off what a character of one cell does, and the space
/// scrolls nothing off. A character without a cell is translated to no byte. None of this causes a report.
pub fn sized_writes()
    ensures glyph { (size : Size) (s : State) (n : ℕ) → IsSoundAt size s → s.held ≡ Nothing → IsGlyph n
        → play s (written n s.display.sets)
        ≡ record { state = record s { display = write_glyph n (unshifted s.display) }; reports = [] } }
    ensures one { (size : Size) (s : State) (c : ℕ) → IsSoundAt size s → s.held ≡ Nothing → 0x80 ≤ c → cells c ≡ 1
        → play s (translation s c)
        ≡ record { state = record s { display = write_glyph (shown c) (unshifted s.display) }; reports = [] } }
    ensures off { (size : Size) (s : State) (c : ℕ) → IsSoundAt size s → s.held ≡ Nothing → 0x80 ≤ c → cells c ≡ 1
        → scrolled_off s (translation s c) ≡ glyph_off s.display }
    ensures two { (size : Size) (s : State) (c : ℕ) → IsSoundAt size s → s.held ≡ Nothing → s.display.sets.pending ≡ None → 0x80 ≤ c → cells c ≡ 2
        → play s (translation s c)
        ≡ record { state = record s { display = write_wide (shown c) s.display }; reports = [] } }
    ensures two_off { (size : Size) (s : State) (c : ℕ) → IsSoundAt size s → s.held ≡ Nothing → s.display.sets.pending ≡ None → 0x80 ≤ c
        → cells c ≡ 2 → is_at_end s.display ≡ false → scrolled_off s (translation s c) ≡ glyph_off s.display }
    ensures none { (s : State) (c : ℕ) → s.held ≡ Nothing → 0x80 ≤ c → cells c ≡ 0 → translation s c ≡ [] }
{
    all_glyphs();
    spelling();
    spelled();
    one_split();
    played_cuts();
    played_soundness();
}
/// States what a translation does between sequences. The bytes for a glyph write it as any glyph is written, whatever
/// the sets are. They use a pending single shift up and leave the sets. A character of one cell is its glyph, and
/// scrolls line 1 off with the wrap flag at the bottom margin. One of two cells is its glyph and a space, if no single
/// shift is pending. If the row has one cell left, they are in the next line under DECAWM, and aren't written without
/// DECAWM. Otherwise the glyph scrolls off what a character of one cell does, and the space scrolls nothing off. A
/// character without a cell is translated to no byte. None of this causes a report.
pub fn writes()
    ensures glyph { (s : State) (n : ℕ) → IsSound s → s.held ≡ Nothing → IsGlyph n
        → play s (written n s.display.sets)
        ≡ record { state = record s { display = write_glyph n (unshifted s.display) }; reports = [] } }
    ensures one { (s : State) (c : ℕ) → IsSound s → s.held ≡ Nothing → 0x80 ≤ c → cells c ≡ 1
        → play s (translation s c)
        ≡ record { state = record s { display = write_glyph (shown c) (unshifted s.display) }; reports = [] } }
    ensures off { (s : State) (c : ℕ) → IsSound s → s.held ≡ Nothing → 0x80 ≤ c → cells c ≡ 1
        → scrolled_off s (translation s c) ≡ glyph_off s.display }
    ensures two { (s : State) (c : ℕ) → IsSound s → s.held ≡ Nothing → s.display.sets.pending ≡ None → 0x80 ≤ c → cells c ≡ 2
        → play s (translation s c)
        ≡ record { state = record s { display = write_wide (shown c) s.display }; reports = [] } }
    ensures two_off { (s : State) (c : ℕ) → IsSound s → s.held ≡ Nothing → s.display.sets.pending ≡ None → 0x80 ≤ c
        → cells c ≡ 2 → is_at_end s.display ≡ false → scrolled_off s (translation s c) ≡ glyph_off s.display }
    ensures none { (s : State) (c : ℕ) → s.held ≡ Nothing → 0x80 ≤ c → cells c ≡ 0 → translation s c ≡ [] }
{
    sized_writes();
}

/// States at any size that text before the last column is its glyphs, written one after another. It scrolls nothing off and causes no
/// report.
pub fn sized_text()
    ensures plays { (size : Size) (s : State) (cs : List ℕ) → IsSoundAt size s → IsReady s
        → All (IsInText (reads_ascii s.display.sets)) cs
        → s.display.cursor.col + length (flat_map glyphs_of cs) ≤ s.display.grid.width
        → play s (translated_all s cs) ≡ record {
          state = record s { display = write_glyphs (flat_map glyphs_of cs) s.display };
          reports = [];
        } }
    ensures off { (size : Size) (s : State) (cs : List ℕ) → IsSoundAt size s → IsReady s
        → All (IsInText (reads_ascii s.display.sets)) cs
        → s.display.cursor.col + length (flat_map glyphs_of cs) ≤ s.display.grid.width
        → scrolled_off s (translated_all s cs) ≡ [] }
{
    all_glyphs();
    ascii_codes();
    spelling();
    spelled();
    one_split();
    played_cuts();
    played_soundness();
    glyph_runs();
}
