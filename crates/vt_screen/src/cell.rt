//! A cell of the screen: what it shows.
ghost use Rattle.std.specs.Prelude.{◌≡◌};

use vt_glyph::Glyph;

/// The character attributes. (VT220 manual, chapter 4: SGR)
#[derive(Clone, Copy, Debug, PartialEq, Eq)]
pub struct Rendition {
    /// Shown bold (SGR 1).
    pub bold: bool,
    /// Shown underlined (SGR 4).
    pub underline: bool,
    /// Shown blinking (SGR 5).
    pub blink: bool,
    /// Shown in reverse (SGR 7).
    pub reverse: bool,
}

impl Rendition {
    ghost use Rattle.vt_screen.specs.Cells.{plain};

    /// Returns the attributes with none set.
    pub fn plain() -> Rendition
        ensures { result ≡ plain }
    {
        Rendition {
            bold: false,
            underline: false,
            blink: false,
            reverse: false,
        }
    }
}

/// The attributes and the protection that a cell is written with.
#[derive(Clone, Copy, Debug, PartialEq, Eq)]
pub struct Brush {
    /// The attributes.
    pub rendition: Rendition,
    /// Whether a selective erase leaves what is written (DECSCA).
    pub protected: bool,
}

impl Brush {
    ghost use Rattle.vt_screen.specs.Cells.{plain_brush};
    ghost use Rattle.vt_screen.specs.Words.{brush_number};

    /// Returns the brush without attributes and without protection.
    pub fn plain() -> Brush
        ensures { result ≡ plain_brush }
    {
        Brush {
            rendition: Rendition::plain(),
            protected: false,
        }
    }

    /// Returns the brush as one number, with a byte for each attribute and one for the protection. No two brushes have the
    /// same number.
    #[inline(always)]
    pub fn number(&self) -> u64
        ensures { result ≡ brush_number self.now }
    {
        self.rendition.bold as u64
            + 0x100 * self.rendition.underline as u64
            + 0x1_0000 * self.rendition.blink as u64
            + 0x100_0000 * self.rendition.reverse as u64
            + 0x1_0000_0000 * self.protected as u64
    }
}

/// The content of a position of the screen: a glyph, its attributes and its protection.
#[derive(Clone, Copy, Debug, PartialEq, Eq)]
pub struct Cell {
    /// The glyph that it shows.
    pub glyph: Glyph,
    /// The attributes that the glyph is shown with.
    pub rendition: Rendition,
    /// Whether a selective erase leaves it (DECSCA).
    pub protected: bool,
}

impl Cell {
    ghost use Rattle.std.specs.Prelude.{◌<◌, ◌^◌};
    ghost use Rattle.vt_glyph.specs.Encoding.{encoded_glyph, encoding_of};
    ghost use Rattle.vt_screen.specs.Cells.{blank, cell_of, brush_of};
    ghost use Rattle.vt_screen.specs.Words.{cell_word};

    /// Returns an unprotected space without attributes.
    pub fn blank() -> Cell
        ensures { result ≡ blank }
    {
        Cell::new(Glyph::blank(), Brush::plain())
    }

    /// Returns the cell that the brush writes for this glyph.
    pub fn new(glyph: Glyph, brush: Brush) -> Cell
        ensures { result ≡ cell_of glyph brush }
    {
        Cell {
            glyph,
            rendition: brush.rendition,
            protected: brush.protected,
        }
    }

    /// Returns the brush that writes a cell like this one.
    pub fn brush(self) -> Brush
        ensures { result ≡ brush_of self }
    {
        Brush {
            rendition: self.rendition,
            protected: self.protected,
        }
    }

    /// Returns the cell as one number: the code of its glyph in three bytes, and above them the number of its brush. No two
    /// cells have the same number.
    ///
    /// Speed: it is read as one word. (Each field is read from the cell itself: of copies of its parts the compiler makes
    /// vectors. Inlined `always`, it would be inlined before its loads become one.)
    #[inline]
    pub fn word(&self) -> u64
        ensures word { result ≡ cell_word self.now }
        ensures glyph { encoded_glyph (encoding_of self.now.glyph) ≡ self.now.glyph }
        ensures bound { encoding_of self.now.glyph < 0x100 }
    {
        self.glyph.code() as u64
            + 0x100_0000 * self.rendition.bold as u64
            + 0x1_0000_0000 * self.rendition.underline as u64
            + 0x100_0000_0000 * self.rendition.blink as u64
            + 0x1_0000_0000_0000 * self.rendition.reverse as u64
            + 0x100_0000_0000_0000 * self.protected as u64
    }
}
