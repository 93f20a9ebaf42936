//! The code of the glyph that is shown for a character, and its cells. Speed: for most characters one test after another halves what is
//! left, and neither is looked up.
ghost use Rattle.std.specs.Prelude.{◌≡◌, ◌≤◌, IfSome};
ghost use Rattle.vt_utf8.specs.Cells.{cells};
ghost use Rattle.vt_utf8.specs.Similar.{shown};
ghost use Rattle.vt_utf8.specs.Private.Codes.{IsCoded};

use crate::similar::{braille_code, code_of, element_code, is_in, kana_or_han_code};
use crate::translation::cells;
use vt_glyph::laws::glyphs;

/// A character with cells: the code of the glyph that is shown for it, and how many cells it has, one or two.
#[derive(Clone, Copy)]
pub(crate) struct GlyphCode {
    pub code: u8,
    pub cells: usize,
}

/// Returns the code and the cells of a character beyond ASCII, if it has cells.
#[inline(always)]
pub(crate) fn coded(c: char) -> Option<GlyphCode>
    ensures { IfSome result (IsCoded c) }
{
    if (c as u32) < 0x2500 {
        coded_sign(c)
    } else if (c as u32) < 0x3041 {
        coded_line(c)
    } else {
        coded_wide(c)
    }
}

/// Returns the code and the cells of a character. Speed: those of Latin letters and of punctuation aren't looked up.
#[inline(always)]
fn coded_sign(c: char) -> Option<GlyphCode>
    ensures { IfSome result (IsCoded c) }
{
    if is_in(0xA0, 0x17F, c as u32) {
        return Some(GlyphCode {
            code: code_of(c),
            cells: 1,
        });
    }
    if is_in(0x2010, 0x2027, c as u32) {
        return Some(GlyphCode {
            code: code_of(c),
            cells: 1,
        });
    }
    coded_by_width(c)
}

/// Returns the code and the cells of a character. Speed: those of lines, block elements and braille patterns aren't looked up.
#[inline(always)]
fn coded_line(c: char) -> Option<GlyphCode>
    ensures { IfSome result (IsCoded c) }
{
    if is_in(0x2500, 0x257F, c as u32) {
        return Some(GlyphCode {
            code: code_of(c),
            cells: 1,
        });
    }
    glyphs();
    if is_in(0x2580, 0x259F, c as u32) {
        return Some(GlyphCode {
            code: element_code(c as u32),
            cells: 1,
        });
    }
    if is_in(0x2800, 0x28FF, c as u32) {
        return Some(GlyphCode {
            code: braille_code(c as u32),
            cells: 1,
        });
    }
    coded_by_width(c)
}

/// Returns the code and the cells of a character. Speed: those of kana, of the block of 20,992 Han characters, and of U+FFFD aren't
/// looked up.
#[inline(always)]
fn coded_wide(c: char) -> Option<GlyphCode>
    ensures { IfSome result (IsCoded c) }
{
    if is_in(0x3041, 0x3096, c as u32) {
        return Some(GlyphCode {
            code: kana_or_han_code(c),
            cells: 2,
        });
    }
    if is_in(0x30A1, 0x30FF, c as u32) {
        return Some(GlyphCode {
            code: kana_or_han_code(c),
            cells: 2,
        });
    }
    if is_in(0x4E00, 0x9FFF, c as u32) {
        return Some(GlyphCode {
            code: kana_or_han_code(c),
            cells: 2,
        });
    }
    if is_in(0xFFFD, 0xFFFD, c as u32) {
        return Some(GlyphCode {
            code: code_of(c),
            cells: 1,
        });
    }
    coded_by_width(c)
}

/// Returns the code and the cells of a character, by its width.
#[inline(never)]
fn coded_by_width(c: char) -> Option<GlyphCode>
    ensures { IfSome result (IsCoded c) }
{
    let cells = cells(c);
    if cells == 0 {
        return None;
    }
    Some(GlyphCode {
        code: code_of(c),
        cells,
    })
}
