//! Speed: the sets in GL and GR, for runs of graphic bytes. `Sets::read` reads the same glyphs, one at a time.
use crate::glyph::Glyph;
use crate::set::{Set, halves};
use std::marker::Model;

/// The in-use table: the sets in GL and GR. Graphic bytes are read through it when no single shift is pending. (VT220
/// manual, chapter 4)
///
/// It refers to one chart of both halves, so that a byte of a run is read by one look-up.
#[derive(Drop)]
pub struct InUse {
    left: Set,
    right: Set,
    chart: &'static [[u8; 128]; 2],
}

impl Model for InUse {
    ghost use Rattle.std.specs.Prelude.{◌≡◌, [], ◌∷◌};
    ghost use Rattle.vt_glyph.specs.Encoding.{encodings};
    ghost use Rattle.vt_glyph.specs.Invocation.{InUseTable};

    ghost Value = { InUseTable };

    ghost view = { λ table. record { left = table.left; right = table.right } };

    ghost invariant = { λ table. table.chart.now ≡ encodings table.left ∷ encodings table.right ∷ [] };
}

impl InUse {
    ghost use Rattle.std.specs.Prelude.{◌≡◌};
    ghost use Rattle.vt_glyph.specs.Tables.{IsGlyph};
    ghost use Rattle.vt_glyph.specs.Invocation.{HasGlyph, glyph_in_use};

    /// Returns the table of two sets, for GL and GR.
    pub(crate) fn new(left: Set, right: Set) -> InUse
        ensures { result ≡ record { left = left; right = right } }
    {
        InUse {
            left,
            right,
            chart: halves(left, right),
        }
    }

    /// Returns the glyph of a byte from 20 to 7E, or from A1 to FE. 20 is the space in every set.
    #[inline(always)]
    pub fn glyph(&self, b: u8) -> Glyph
        requires { HasGlyph b }
        ensures value { result ≡ glyph_in_use self.now b }
        ensures is_glyph { IsGlyph result }
    {
        let chart = self.chart;
        Glyph::encoded(chart.as_flattened()[b as usize])
    }
}
