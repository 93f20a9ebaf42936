//! Tests whether two parts are equal.
ghost use Rattle.std.specs.Prelude.{◌≡◌, ◌↔◌, IsTrue};

use crate::kind::Kind;
use crate::state::{Modes, SavedOf};
use vt_glyph::Set;

pub(crate) fn same_stops(a: &[bool], b: &[bool]) -> bool
    ensures { IsTrue result ↔ (a.now ≡ b.now) }
{
    a == b
}

pub(crate) fn same_modes(a: &Modes, b: &Modes) -> bool
    ensures { IsTrue result ↔ (a.now ≡ b.now) }
{
    a == b
}

fn same_designations(a: &[Set; 4], b: &[Set; 4]) -> bool
    ensures { IsTrue result ↔ (a.now ≡ b.now) }
{
    a == b
}

/// Returns whether what DECSC saved is equal in every part.
pub fn same_saved<K: Kind>(a: &SavedOf<K::Brush>, b: &SavedOf<K::Brush>) -> bool
    ensures { IsTrue result ↔ (a.now ≡ b.now) }
{
    a.row == b.row
        && a.col == b.col
        && a.wrap == b.wrap
        && K::same_brush(&a.brush, &b.brush)
        && same_designations(&a.g, &b.g)
        && a.gl == b.gl
        && a.gr == b.gr
        && a.origin == b.origin
}
