//! The glyphs that cells show, and their spelling.
ghost use Rattle.std.specs.Prelude.{◌≡◌, ◌≤◌, ◌<◌};

use std::marker::Model;

/// One of the 204 glyphs that the graphic sets show. Contracts see its Unicode number.
///
/// It is encoded by a code below 256, which depends on its spelling:
/// - an ASCII glyph has its own code
/// - a glyph that is spelled after a single shift to G2 has the code of its spelling with the high bit set
/// - a glyph that is spelled after a single shift to G3 has the code of its spelling less 60 (hexadecimal)
#[derive(Clone, Copy, Debug)]
pub struct Glyph {
    byte: u8,
    // `second` and `third` are always 0. With them a cell of the screen is eight bytes without a gap, which are written
    // and compared as one word.
    second: u8,
    third: u8,
}

impl Model for Glyph {
    ghost use Rattle.std.specs.Prelude.{◌≡◌, ℕ};
    ghost use Rattle.vt_glyph.specs.Encoding.{encoded_glyph, encoding_of, IsEncoding, fields_back};

    ghost Value = { ℕ };

    ghost view = { λ g. encoded_glyph g.byte };

    ghost invariant = { λ g. IsEncoding g.byte × ((g.second ≡ 0) × (g.third ≡ 0)) };

    ghost inverse = { λ n. record { byte = encoding_of n; second = 0; third = 0 } };

    ghost inverse_ok = { λ g h. fields_back g h.0 h.1.0 h.1.1 };
}

impl PartialEq for Glyph {
    ghost use Rattle.std.specs.Prelude.{nat_eq};
    ghost use Rattle.std.specs.Cmp.Rules.{comparing};
    ghost use Rattle.std.proofs.Common.{rules};

    ghost eq = { nat_eq };

    ghost laws = { Prim.search (comparing, rules) };

    fn eq(&self, other: &Glyph) -> bool {
        self.byte == other.byte
    }
}

impl Eq for Glyph {
    ghost use Rattle.std.specs.Cmp.Rules.{comparing};
    ghost use Rattle.std.proofs.Common.{rules};

    ghost laws = { Prim.search (comparing, rules) };
}

impl Glyph {
    ghost use Rattle.vt_glyph.specs.Tables.{space, substitute_glyph, IsGlyph};
    ghost use Rattle.vt_glyph.specs.Encoding.{encoded_glyph, encoded_spelling, encoding_of, IsEncoding};
    ghost use Rattle.vt_glyph.specs.Spell.{spelling_of};

    /// Returns the space, U+0020, which a blank cell shows.
    pub fn blank() -> Glyph
        ensures { result ≡ space }
    {
        Glyph::encoded(b' ')
    }

    /// Returns U+2426, which undefined positions of Supplemental show and SUB writes. (This profile)
    pub fn substitute() -> Glyph
        ensures { result ≡ substitute_glyph }
    {
        Glyph::encoded(0xA4)
    }

    /// Returns the ASCII glyph of a code from 20 to 7E, including the space.
    pub fn ascii(code: u8) -> Glyph
        requires { (0x20 ≤ code) × (code ≤ 0x7E) }
        ensures { result ≡ code }
    {
        Glyph::encoded(code)
    }

    /// Returns the glyph with this code, as `code` gives it.
    #[inline(always)]
    pub fn encoded(byte: u8) -> Glyph
        requires { IsEncoding byte }
        ensures { result ≡ encoded_glyph byte }
    {
        Glyph {
            byte,
            second: 0,
            third: 0,
        }
    }

    /// Returns the glyph's code, below 256. It is the code of its spelling in ASCII. For a spelling by G2 the high bit
    /// is set, and for a spelling by G3 the code is less 60 (hexadecimal). No two glyphs have the same code.
    #[inline(always)]
    pub fn code(&self) -> u32
        ensures value { result ≡ encoding_of self.now }
        ensures glyph { encoded_glyph result ≡ self.now }
        ensures spelling { encoded_spelling result ≡ spelling_of self.now }
        ensures bound { result < 0x100 }
    {
        self.byte as u32 + 0x100 * self.second as u32 + 0x1_0000 * self.third as u32
    }

    /// Returns the character with the glyph's Unicode number. (VT220 manual, chapter 2; the numbers of Special Graphics
    /// are this profile's.)
    pub fn to_char(self) -> char
        ensures value { result ≡ self }
        ensures is_glyph { IsGlyph self }
    {
        CHARACTERS[self.byte as usize]
    }

    /// Returns the one spelling of the glyph: in ASCII if it has one, otherwise in Supplemental, otherwise in Special
    /// Graphics. (This profile; [`laws::spelling`](crate::laws::spelling))
    pub fn spelling(self) -> Spelling
        ensures { result ≡ spelling_of self }
    {
        let byte = self.byte;
        match byte {
            0x00..=0x1F => Spelling::Third(byte + 0x60),
            0x20..=0x7F => Spelling::Plain(byte),
            _ => Spelling::Second(byte - 0x80),
        }
    }
}

/// The characters of the encoded glyphs, indexed by their bytes. A byte that encodes no glyph has U+2426, or a
/// character that another byte encodes.
const CHARACTERS: [char; 256] = [
    // 0x00: codes 60 to 7E of Special Graphics
    '◆', '▒', '␉', '␌', '␍', '␊', '°', '±', '␤', '␋', '┘', '┐', '┌', '└', '┼', '⎺',
    // 0x10
    '⎻', '─', '⎼', '⎽', '├', '┤', '┴', '┬', '│', '≤', '≥', 'π', '≠', '£', '·', '␦',
    // 0x20: ASCII
    ' ', '!', '"', '#', '$', '%', '&', '\'', '(', ')', '*', '+', ',', '-', '.', '/',
    // 0x30
    '0', '1', '2', '3', '4', '5', '6', '7', '8', '9', ':', ';', '<', '=', '>', '?',
    // 0x40
    '@', 'A', 'B', 'C', 'D', 'E', 'F', 'G', 'H', 'I', 'J', 'K', 'L', 'M', 'N', 'O',
    // 0x50
    'P', 'Q', 'R', 'S', 'T', 'U', 'V', 'W', 'X', 'Y', 'Z', '[', '\\', ']', '^', '_',
    // 0x60
    '`', 'a', 'b', 'c', 'd', 'e', 'f', 'g', 'h', 'i', 'j', 'k', 'l', 'm', 'n', 'o',
    // 0x70
    'p', 'q', 'r', 's', 't', 'u', 'v', 'w', 'x', 'y', 'z', '{', '|', '}', '~', '␦',
    // 0x80: no glyphs
    '␦', '␦', '␦', '␦', '␦', '␦', '␦', '␦', '␦', '␦', '␦', '␦', '␦', '␦', '␦', '␦',
    // 0x90
    '␦', '␦', '␦', '␦', '␦', '␦', '␦', '␦', '␦', '␦', '␦', '␦', '␦', '␦', '␦', '␦',
    // 0xA0: Supplemental
    '␦', '¡', '¢', '£', '␦', '¥', '␦', '§', '¤', '©', 'ª', '«', '␦', '␦', '␦', '␦',
    // 0xB0
    '°', '±', '²', '³', '␦', 'µ', '¶', '·', '␦', '¹', 'º', '»', '¼', '½', '␦', '¿',
    // 0xC0
    'À', 'Á', 'Â', 'Ã', 'Ä', 'Å', 'Æ', 'Ç', 'È', 'É', 'Ê', 'Ë', 'Ì', 'Í', 'Î', 'Ï',
    // 0xD0
    '␦', 'Ñ', 'Ò', 'Ó', 'Ô', 'Õ', 'Ö', 'Œ', 'Ø', 'Ù', 'Ú', 'Û', 'Ü', 'Ÿ', '␦', 'ß',
    // 0xE0
    'à', 'á', 'â', 'ã', 'ä', 'å', 'æ', 'ç', 'è', 'é', 'ê', 'ë', 'ì', 'í', 'î', 'ï',
    // 0xF0
    '␦', 'ñ', 'ò', 'ó', 'ô', 'õ', 'ö', 'œ', 'ø', 'ù', 'ú', 'û', 'ü', 'ÿ', '␦', 'ÿ',
];

/// The code that writes a glyph, and the single shift before it. (This profile)
#[derive(Clone, Copy, Debug, PartialEq, Eq)]
pub enum Spelling {
    /// The byte itself, through GL.
    Plain(u8),
    /// After a single shift to G2, `ESC N`.
    Second(u8),
    /// After a single shift to G3, `ESC O`.
    Third(u8),
}
