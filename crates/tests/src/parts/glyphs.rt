//! Every glyph. Worked rows of the sets are in lib/rows.
use crate::rows::holds;
use std::alloc::{AllocError, Global};
use std::test::Fail;
use vt_glyph::{Glyph, Set, Sets, Spelling};

const SETS: [Set; 5] = [
    Set::Ascii,
    Set::British,
    Set::German,
    Set::Special,
    Set::Supplemental,
];

/// Appends the glyphs of a set that aren't there yet.
fn push_glyphs(set: Set, glyphs: &mut Vec<Glyph>) -> Result<(), AllocError> {
    for code in 0x21..0x7F {
        let glyph = set.glyph(code);
        if !glyphs.contains(&glyph) {
            glyphs.push(glyph)?;
        }
    }
    Ok(())
}

/// Returns the glyphs of all sets, each once, and the space.
fn all_glyphs(alloc: Global) -> Result<Vec<Glyph>, AllocError> {
    let mut glyphs = Vec::new(alloc);
    glyphs.push(Glyph::blank())?;
    for set in &SETS {
        push_glyphs(*set, &mut glyphs)?;
    }
    Ok(glyphs)
}

/// Returns the sets that the spellings are for.
fn spelling_sets() -> Sets {
    let mut sets = Sets::power_up();
    sets.designate(0, Set::Ascii);
    sets.designate(2, Set::Supplemental);
    sets.designate(3, Set::Special);
    sets.lock_left(0);
    sets
}

/// Returns what a byte shows, if it is a graphic one.
fn shown(sets: &mut Sets, b: u8) -> Option<char> {
    if (0x20 <= b && b <= 0x7E) || b >= 0xA0 {
        sets.read(b).map(|glyph| glyph.to_char())
    } else {
        None
    }
}

/// Returns whether a glyph's spelling shows it, and leaves the sets as they were.
fn is_spelled(glyph: &Glyph) -> bool {
    let mut sets = spelling_sets();
    let read = match glyph.spelling() {
        Spelling::Plain(code) => shown(&mut sets, code),
        Spelling::Second(code) => {
            sets.shift_once(2);
            shown(&mut sets, code)
        }
        Spelling::Third(code) => {
            sets.shift_once(3);
            shown(&mut sets, code)
        }
    };
    read == Some(glyph.to_char()) && sets == spelling_sets()
}

/// Returns whether each of these glyphs is spelled.
fn are_spelled(glyphs: &[Glyph]) -> bool {
    for glyph in glyphs {
        if !is_spelled(glyph) {
            return false;
        }
    }
    true
}

#[test]
fn every_glyph_is_spelled(rt: HostRuntime) -> Result<(), Fail> {
    let glyphs = all_glyphs(rt.alloc())?;
    holds(&rt, "204 glyphs", glyphs.len() == 204);
    holds(&rt, "the space", glyphs.contains(&Glyph::blank()));
    holds(&rt, "the substitute", glyphs.contains(&Glyph::substitute()));
    holds(&rt, "spellings", are_spelled(&glyphs));
    Ok(())
}
