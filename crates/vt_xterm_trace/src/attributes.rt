//! The values of SGR that have an effect.
ghost use Rattle.std.specs.Prelude.{◌≡◌};
ghost use Rattle.vt_glyph.specs.LookUp.{contains};
ghost use Rattle.vt_term.specs.Rendition.{rendition_changes};
ghost use Rattle.vt_term.specs.Functions.{numbers_of};
ghost use Rattle.vt_xterm.specs.Attributes.{begins_colour, colour_length};
ghost use Rattle.vt_xterm_trace.specs.Names.{has_attribute};

use vt_xterm::{begins_colour, colour_length};

/// Returns whether an attribute of a VT220 is among the values outside colours.
pub(crate) fn has_attribute(values: &[u16]) -> bool
    ensures { result ≡ has_attribute values.now }
{
    let mut skipped = 0;
    let mut at = 0;
    while at < values.len() {
        let p = values[at];
        at += 1;
        if skipped > 0 {
            skipped -= 1;
        } else if begins_colour(p) {
            skipped = colour_length(&values[at..]);
        } else if is_attribute(p) {
            return true;
        }
    }
    false
}

/// Returns whether a value is an attribute of a VT220.
fn is_attribute(p: u16) -> bool
    ensures { result ≡ contains (numbers_of rendition_changes) p }
{
    matches!(p, 0 | 1 | 4 | 5 | 7 | 22 | 24 | 25 | 27)
}
