//! The graphic sets.
ghost use Rattle.std.specs.Prelude.{◌≡◌, ◌≤◌, [], ◌∷◌};
ghost use Rattle.vt_glyph.specs.Encoding.{encodings};

use crate::glyph::Glyph;

/// A graphic set: a glyph for each code from 21 to 7E. (VT220 manual, chapter 2)
#[derive(Clone, Copy, Debug, PartialEq, Eq)]
pub enum Set {
    /// ASCII, final `B`.
    Ascii,
    /// The British national set, final `A`.
    British,
    /// The German national set, final `K`.
    German,
    /// DEC Special Graphics, final `0`.
    Special,
    /// DEC Supplemental Graphics, final `<`.
    Supplemental,
}

impl Set {
    ghost use Rattle.vt_glyph.specs.Designation.{set_of_final, final_of};
    ghost use Rattle.vt_glyph.specs.Tables.{glyph_of, IsGlyph};
    ghost use Rattle.vt_glyph.specs.Encoding.{encodings};

    /// Returns the set that a designating escape sequence with this final byte names, or `None` if it names none.
    /// (EK-VT220-RM, chapter 4: SCS; ECMA-35 14)
    pub fn of_final(last: u8) -> Option<Set>
        ensures { result ≡ set_of_final last }
    {
        match last {
            b'B' => Some(Set::Ascii),
            b'A' => Some(Set::British),
            b'K' => Some(Set::German),
            b'0' => Some(Set::Special),
            b'<' => Some(Set::Supplemental),
            _ => None,
        }
    }

    /// Returns the final byte that names this set in a designating escape sequence.
    pub fn last(self) -> u8
        ensures { result ≡ final_of self }
    {
        match self {
            Set::Ascii => b'B',
            Set::British => b'A',
            Set::German => b'K',
            Set::Special => b'0',
            Set::Supplemental => b'<',
        }
    }

    /// Returns the glyph of a code from 21 to 7E.
    pub fn glyph(self, code: u8) -> Glyph
        requires { (0x21 ≤ code) × (code ≤ 0x7E) }
        ensures value { result ≡ glyph_of self code }
        ensures is_glyph { IsGlyph result }
    {
        Glyph::encoded(self.encodings()[code as usize])
    }

    /// Returns the encodings of the set's glyphs, indexed by their codes. The code 20 is the space in every set.
    pub(crate) fn encodings(self) -> &'static [u8; 128]
        ensures { result.now ≡ encodings self }
    {
        match self {
            Set::Ascii => &ASCII,
            Set::British => &BRITISH,
            Set::German => &GERMAN,
            Set::Special => &SPECIAL,
            Set::Supplemental => &SUPPLEMENTAL,
        }
    }
}

// The encodings of each set, a line for the codes 00 to 1F, which have none, 20 to 2F, 30 to 3F, .. 70 to 7F.

const ASCII: [u8; 128] = *b"\0\0\0\0\0\0\0\0\0\0\0\0\0\0\0\0\0\0\0\0\0\0\0\0\0\0\0\0\0\0\0\0\
    \x20!\"#$%&'()*+,-./\
    0123456789:;<=>?\
    @ABCDEFGHIJKLMNO\
    PQRSTUVWXYZ[\\]^_\
    `abcdefghijklmno\
    pqrstuvwxyz{|}~\0";

const BRITISH: [u8; 128] = *b"\0\0\0\0\0\0\0\0\0\0\0\0\0\0\0\0\0\0\0\0\0\0\0\0\0\0\0\0\0\0\0\0\
    \x20!\"\xA3$%&'()*+,-./\
    0123456789:;<=>?\
    @ABCDEFGHIJKLMNO\
    PQRSTUVWXYZ[\\]^_\
    `abcdefghijklmno\
    pqrstuvwxyz{|}~\0";

const GERMAN: [u8; 128] = *b"\0\0\0\0\0\0\0\0\0\0\0\0\0\0\0\0\0\0\0\0\0\0\0\0\0\0\0\0\0\0\0\0\
    \x20!\"#$%&'()*+,-./\
    0123456789:;<=>?\
    \xA7ABCDEFGHIJKLMNO\
    PQRSTUVWXYZ\xC4\xD6\xDC^_\
    `abcdefghijklmno\
    pqrstuvwxyz\xE4\xF6\xFC\xDF\0";

const SPECIAL: [u8; 128] = *b"\0\0\0\0\0\0\0\0\0\0\0\0\0\0\0\0\0\0\0\0\0\0\0\0\0\0\0\0\0\0\0\0\
    \x20!\"#$%&'()*+,-./\
    0123456789:;<=>?\
    @ABCDEFGHIJKLMNO\
    PQRSTUVWXYZ[\\]^ \
    \x00\x01\x02\x03\x04\x05\xB0\xB1\x08\x09\x0A\x0B\x0C\x0D\x0E\x0F\
    \x10\x11\x12\x13\x14\x15\x16\x17\x18\x19\x1A\x1B\x1C\xA3\xB7\0";

const SUPPLEMENTAL: [u8; 128] = *b"\0\0\0\0\0\0\0\0\0\0\0\0\0\0\0\0\0\0\0\0\0\0\0\0\0\0\0\0\0\0\0\0\
    \x20\xA1\xA2\xA3\xA4\xA5\xA4\xA7\xA8\xA9\xAA\xAB\xA4\xA4\xA4\xA4\
    \xB0\xB1\xB2\xB3\xA4\xB5\xB6\xB7\xA4\xB9\xBA\xBB\xBC\xBD\xA4\xBF\
    \xC0\xC1\xC2\xC3\xC4\xC5\xC6\xC7\xC8\xC9\xCA\xCB\xCC\xCD\xCE\xCF\
    \xA4\xD1\xD2\xD3\xD4\xD5\xD6\xD7\xD8\xD9\xDA\xDB\xDC\xDD\xA4\xDF\
    \xE0\xE1\xE2\xE3\xE4\xE5\xE6\xE7\xE8\xE9\xEA\xEB\xEC\xED\xEE\xEF\
    \xA4\xF1\xF2\xF3\xF4\xF5\xF6\xF7\xF8\xF9\xFA\xFB\xFC\xFD\xA4\0";

/// The charts of a set in the left half, with each set in the right half. A new set adds a row here and one constant below.
macro_rules! charts {
    ($left:ident) => {
        [
            [$left, ASCII],
            [$left, BRITISH],
            [$left, GERMAN],
            [$left, SPECIAL],
            [$left, SUPPLEMENTAL],
        ]
    };
}

const WITH_ASCII: [[[u8; 128]; 2]; 5] = charts!(ASCII);

const WITH_BRITISH: [[[u8; 128]; 2]; 5] = charts!(BRITISH);

const WITH_GERMAN: [[[u8; 128]; 2]; 5] = charts!(GERMAN);

const WITH_SPECIAL: [[[u8; 128]; 2]; 5] = charts!(SPECIAL);

const WITH_SUPPLEMENTAL: [[[u8; 128]; 2]; 5] = charts!(SUPPLEMENTAL);

/// Returns the encodings of two sets, indexed by the codes of the left half and of the right half. There is one chart
/// of 256 for each pair.
pub(crate) fn halves(left: Set, right: Set) -> &'static [[u8; 128]; 2]
    ensures { result.now ≡ encodings left ∷ encodings right ∷ [] }
{
    let charts = match left {
        Set::Ascii => &WITH_ASCII,
        Set::British => &WITH_BRITISH,
        Set::German => &WITH_GERMAN,
        Set::Special => &WITH_SPECIAL,
        Set::Supplemental => &WITH_SUPPLEMENTAL,
    };
    match right {
        Set::Ascii => &charts[0],
        Set::British => &charts[1],
        Set::German => &charts[2],
        Set::Special => &charts[3],
        Set::Supplemental => &charts[4],
    }
}
