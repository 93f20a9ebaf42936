//! The size of a screen.
ghost use Rattle.std.specs.Prelude.{◌≡◌, ◌↔◌, IsTrue};

/// The number of rows of a VT220's screen.
pub const ROWS: usize = 24;

/// The number of columns of a VT220's wide screen.
pub const COLUMNS: usize = 132;

/// The most rows of a screen, and the most columns.
pub const MOST: usize = 255;

/// The number of rows of a screen, and of its columns when narrow and when wide. (DECCOLM chooses one of the two.)
#[derive(Clone, Copy, Debug, PartialEq, Eq)]
pub struct Size {
    /// The number of rows. A screen has 2 to 255.
    pub rows: usize,
    /// The number of columns of the narrow screen, at least 2.
    pub narrow: usize,
    /// The number of columns of the wide screen: at least those of the narrow one, at most 255.
    pub wide: usize,
}

impl Size {
    ghost use Rattle.vt_screen.specs.Sizes.{vt220_size, width_of};

    /// Returns the size of the VT220: 24 rows of 80 or 132 columns.
    #[inline(always)]
    pub fn vt220() -> Size
        ensures { result ≡ vt220_size }
    {
        Size {
            rows: ROWS,
            narrow: 80,
            wide: COLUMNS,
        }
    }

    /// Returns the number of columns of the wide or of the narrow screen.
    #[inline(always)]
    pub fn columns(self, wide: bool) -> usize
        ensures { result ≡ width_of self wide }
    {
        if wide { self.wide } else { self.narrow }
    }

    /// Returns whether the two sizes are equal.
    #[inline(always)]
    pub fn same(self, other: Size) -> bool
        ensures { IsTrue result ↔ (self ≡ other) }
    {
        self.rows == other.rows && self.narrow == other.narrow && self.wide == other.wide
    }
}
