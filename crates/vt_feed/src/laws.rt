//! Laws over the definitions alone. A caller cites a law by a call of its function.
ghost use Rattle.std.specs.Prelude.{◌≡◌, ◌⊎◌, ◌++◌, ℕ, List, [], ◌∷◌, All};
ghost use Rattle.bstr.specs.Utf8.{replacement};
ghost use Rattle.vt_syntax.specs.declared.held.Held.TheVariants.{Nothing};
ghost use Rattle.vt_feed.specs.Actions.{Action, Character, actions, read_after};
ghost use Rattle.vt_feed.specs.Languages.{Reading, reading, utf8};
ghost use Rattle.vt_feed.specs.Spelled.{spell, IsSpelled, IsReading, given_up_at_escape};

use vt_syntax::laws::{one_split, spelled as spelled_events};

/// States that spelled actions are read, in UTF-8, as just these actions.
///
/// Between sequences and characters they leave nothing held and nothing pending. If their spelling begins with ESC, they are read as
/// these actions after any reading. Before them comes at most U+FFFD, for the bytes of a character that isn't complete.
pub fn spelled()
    ensures asked { (xs : List Action) → All IsSpelled xs → actions utf8 (reading Nothing []) (spell xs) ≡ xs }
    ensures left { (xs : List Action) → All IsSpelled xs → read_after utf8 (reading Nothing []) (spell xs) ≡ reading Nothing [] }
    ensures escape_asked { (r : Reading) (xs : List Action) (more : List ℕ) → IsReading r → All IsSpelled xs
        → spell xs ≡ 0x1B ∷ more → actions utf8 r (spell xs) ≡ given_up_at_escape r ++ xs }
    ensures escape_left { (r : Reading) (xs : List Action) (more : List ℕ) → IsReading r → All IsSpelled xs
        → spell xs ≡ 0x1B ∷ more → read_after utf8 r (spell xs) ≡ reading Nothing [] }
    ensures given_up { (r : Reading) → (given_up_at_escape r ≡ []) ⊎ (given_up_at_escape r ≡ Character replacement ∷ []) }
{
    one_split();
    spelled_events();
}

/// States that what bytes leave read is a held part and the bytes of a character that isn't complete.
pub fn readings()
    ensures first { IsReading (reading Nothing []) }
    ensures kept { (r : Reading) (bytes : List ℕ) → IsReading r → IsReading (read_after utf8 r bytes) }
{
    one_split();
    spelled_events();
}
