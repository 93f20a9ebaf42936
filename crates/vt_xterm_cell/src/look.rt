//! The look of a cell: its colours, its attributes and its protection.
ghost use Rattle.std.specs.Prelude.{◌≡◌, ◌+◌, ◌*◌, ◌<◌, ℕ};
ghost use Rattle.vt_xterm_cell.specs.Words.{COLOURS, colour_of, colour_number, attributes_of, attributes_number};

/// A colour of a foreground or of a background. (ctlseqs: SGR)
#[derive(Clone, Copy, Debug, PartialEq, Eq)]
pub enum Colour {
    /// The terminal's default.
    Default,
    /// One of 256, by its index.
    Indexed(u8),
    /// Red, green and blue.
    Rgb(u8, u8, u8),
}

impl Colour {
    /// Returns the colour as a number. No two colours have the same number, and that of the default is 0.
    #[inline(always)]
    pub(crate) fn number(self) -> u64
        ensures value { result ≡ colour_number self }
        ensures bound { result < COLOURS }
        ensures back { colour_of result ≡ self }
    {
        match self {
            Colour::Default => 0,
            Colour::Indexed(index) => index as u64 + 1,
            Colour::Rgb(red, green, blue) => red as u64 * 0x1_0000
                + green as u64 * 0x100
                + blue as u64
                + 0x101,
        }
    }

    /// Returns the colour with this number.
    #[inline(always)]
    pub(crate) fn with_number(number: u64) -> Colour
        requires { number < COLOURS }
        ensures { result ≡ colour_of number }
    {
        if number == 0 {
            Colour::Default
        } else if number < 0x101 {
            Colour::Indexed((number - 1) as u8)
        } else {
            let rgb = number - 0x101;
            Colour::Rgb(
                (rgb / 0x1_0000) as u8,
                (rgb / 0x100 % 0x100) as u8,
                (rgb % 0x100) as u8,
            )
        }
    }
}

/// The attributes of a cell. Each is independent of the others. (ECMA-48 8.3.117)
#[derive(Clone, Copy, Debug, PartialEq, Eq)]
pub struct Attributes {
    /// Bold (SGR 1).
    pub bold: bool,
    /// Faint (SGR 2).
    pub faint: bool,
    /// Italic (SGR 3).
    pub italic: bool,
    /// Underlined (SGR 4).
    pub underlined: bool,
    /// Doubly underlined (SGR 21).
    pub doubly_underlined: bool,
    /// Blinking (SGR 5 and 6).
    pub blinking: bool,
    /// In reverse (SGR 7).
    pub reverse: bool,
    /// Invisible (SGR 8).
    pub invisible: bool,
    /// Crossed out (SGR 9).
    pub crossed_out: bool,
}

impl Attributes {
    /// Returns the attributes as a number, with a bit for each.
    #[inline(always)]
    pub(crate) fn number(self) -> u64
        ensures value { result ≡ attributes_number self }
        ensures bound { result < 0x200 }
        ensures back { (above : ℕ) → attributes_of (result + 0x200 * above) ≡ self }
    {
        self.bold as u64
            + 2 * self.faint as u64
            + 4 * self.italic as u64
            + 8 * self.underlined as u64
            + 0x10 * self.doubly_underlined as u64
            + 0x20 * self.blinking as u64
            + 0x40 * self.reverse as u64
            + 0x80 * self.invisible as u64
            + 0x100 * self.crossed_out as u64
    }

    /// Returns the attributes that the lowest nine bits of a number are.
    #[inline(always)]
    pub(crate) fn with_number(number: u64) -> Attributes
        ensures { result ≡ attributes_of number }
    {
        Attributes {
            bold: number % 2 == 1,
            faint: number / 2 % 2 == 1,
            italic: number / 4 % 2 == 1,
            underlined: number / 8 % 2 == 1,
            doubly_underlined: number / 0x10 % 2 == 1,
            blinking: number / 0x20 % 2 == 1,
            reverse: number / 0x40 % 2 == 1,
            invisible: number / 0x80 % 2 == 1,
            crossed_out: number / 0x100 % 2 == 1,
        }
    }
}

/// The look of a cell. A character is written with one.
#[derive(Clone, Copy, Debug, PartialEq, Eq)]
pub struct Look {
    /// The colour of the character.
    pub foreground: Colour,
    /// The colour behind the character.
    pub background: Colour,
    /// The attributes.
    pub attributes: Attributes,
    /// Whether a selective erase leaves the cell (DECSCA).
    pub protected: bool,
}
