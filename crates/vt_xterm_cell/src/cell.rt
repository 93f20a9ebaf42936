//! A cell of an xterm, in two numbers.
ghost use Rattle.std.specs.Prelude.{◌≡◌, ◌<◌, ◌↔◌, IsTrue, IfSome, false, nat_le};
ghost use Rattle.vt_xterm_cell.specs.Cells.{written_cell, character_cell, second_cell, is_second, blank_cell, space_with, erased_cell, marked};
ghost use Rattle.vt_xterm_cell.specs.Characters.{is_format, is_mark};
ghost use Rattle.vt_xterm_cell.specs.Words.{COLOURS, attributes_of, look_of, look_by, IsLook};

use crate::look::{Attributes, Colour, Look};
use std::marker::Model;
use vt_glyph::Glyph;
use vt_screen::Cells;
use vt_utf8::cells;
use vt_wide::Wide;

/// The number of values of the bits that a colour has in a cell.
const COLOUR: u64 = 0x400_0000;

/// The number of values of the bits that a character has in a cell.
const CHARACTER: u64 = 0x20_0000;

/// A position of the screen: a character with up to two marks, its width, and its look. The second cell of a wide
/// character has the look alone. Contracts see these parts.
#[derive(Clone, Copy, Debug)]
pub struct XtermCell {
    /// The character, and above it two marks, and above them the width.
    text: u64,
    /// The foreground, and above it the background, the attributes and the protection.
    look: u64,
}

/// Returns the number of a look, from those of its colours and from its flags.
#[inline(always)]
fn joined(foreground: u64, background: u64, flags: u64) -> u64
    requires foreground { foreground < COLOURS }
    requires background { background < COLOURS }
    requires flags { flags < 0x400 }
    ensures look { look_of result ≡ look_by foreground background flags }
    ensures is_look { IsLook result }
{
    foreground + COLOUR * (background + COLOUR * flags)
}

/// Returns the flags with another protection.
#[inline(always)]
fn with_protection(flags: u64, on: bool) -> u64
    ensures attributes { attributes_of result ≡ attributes_of flags }
    ensures protected { nat_le 0x200 result ≡ on }
    ensures bound { result < 0x400 }
{
    flags % 0x200 + 0x200 * on as u64
}

/// Returns whether a character is one of format.
fn is_format(c: char) -> bool
    ensures { result ≡ is_format c }
{
    match c as u32 {
        0x200B..=0x200F => true,
        0x202A..=0x202E => true,
        0x2060..=0x2064 => true,
        0x2066..=0x206F => true,
        0xFEFF => true,
        0xFFF9..=0xFFFB => true,
        _ => false,
    }
}

/// Returns whether a character is a mark, which joins the character before it.
#[tactic(auto, unfolding(crate::specs::Characters::is_mark))]
fn is_mark(c: char) -> bool
    ensures { result ≡ is_mark c }
{
    cells(c) == 0 && c as u32 > 0x2FF && !is_format(c)
}

impl Model for XtermCell {
    ghost use Rattle.vt_xterm_cell.specs.Words.{CellParts, parts_of, text_word, word_of_look, IsText, IsLook};

    ghost Value = { CellParts };

    ghost use Rattle.vt_xterm_cell.specs.Back.{numbers_back};

    ghost view = { λ c. parts_of c.text c.look };

    ghost invariant = { λ c. IsText c.text × IsLook c.look };

    ghost inverse = { λ p. record { text = text_word p; look = word_of_look p.look } };

    ghost inverse_ok = { λ c h. numbers_back c h.0 h.1 };
}

impl XtermCell {
    /// Returns a plain space.
    #[inline(always)]
    #[tactic(auto, using(crate::proofs::Writable::space_text))]
    pub fn blank() -> XtermCell
        ensures { result ≡ blank_cell }
    {
        XtermCell {
            text: 0x20,
            look: 0,
        }
    }

    /// Returns a space with a look.
    #[inline(always)]
    pub fn space(look: Look) -> XtermCell
        ensures { result ≡ space_with look }
    {
        let mut cell = XtermCell::blank();
        cell.set_foreground(look.foreground);
        cell.set_background(look.background);
        cell.set_attributes(look.attributes);
        cell.set_protected(look.protected);
        cell
    }

    /// Returns the cell of a glyph in the look of this one.
    #[inline(always)]
    pub fn written(self, glyph: Glyph) -> XtermCell
        ensures cell { result ≡ written_cell self.look glyph false }
        ensures first { is_second result ≡ false }
    {
        XtermCell {
            text: glyph.to_char() as u64,
            look: self.look,
        }
    }

    /// Returns the cell of a character beyond ASCII in the look of this one: the first cell, if it is a wide one. Returns `None` if it has no
    /// width.
    #[inline(always)]
    pub fn with_character(self, c: char) -> Option<XtermCell>
        ensures cell { result ≡ character_cell self.look c }
        ensures first { IfSome result (λ cell. is_second cell ≡ false) }
    {
        let width = cells(c);
        if width == 0 {
            return None;
        }
        Some(XtermCell {
            text: c as u64 + (width == 2) as u64 * 0x8000_0000_0000_0000,
            look: self.look,
        })
    }

    /// Returns the second cell of a wide character in the look of this one.
    #[inline(always)]
    #[tactic(auto, using(crate::proofs::Writable::empty_text))]
    pub fn second(self) -> XtermCell
        ensures { result ≡ second_cell self.look }
    {
        XtermCell {
            text: 0,
            look: self.look,
        }
    }

    /// Returns the character of this cell in the look of a pen, without its marks.
    #[inline(always)]
    pub fn in_look_of(self, pen: XtermCell) -> XtermCell
        ensures { result ≡ written_cell pen.look self.character self.wide }
    {
        XtermCell {
            text: self.text % CHARACTER + self.is_wide() as u64 * 0x8000_0000_0000_0000,
            look: pen.look,
        }
    }

    /// Returns a space in the look of this cell.
    #[inline(always)]
    #[tactic(auto, using(crate::proofs::Writable::space_text))]
    pub fn cleared(self) -> XtermCell
        ensures { result ≡ space_with self.look }
    {
        XtermCell {
            text: 0x20,
            look: self.look,
        }
    }

    /// Returns a space with the background of this cell, and nothing else of it.
    #[inline(always)]
    #[tactic(auto, using(crate::proofs::Writable::space_text))]
    pub fn erased(self) -> XtermCell
        ensures { result ≡ erased_cell self.look }
    {
        XtermCell {
            text: 0x20,
            look: self.look / COLOUR % COLOUR * COLOUR,
        }
    }

    /// Returns this cell with one more mark. A third one is lost. A character that isn't a mark, and a second cell, change nothing.
    #[inline(always)]
    pub fn marked(self, mark: char) -> XtermCell
        ensures { result ≡ marked self mark }
    {
        if self.is_second() {
            return self;
        }
        if !is_mark(mark) {
            return self;
        }
        let mut text = self.text;
        if text / CHARACTER % CHARACTER == 0 {
            text += mark as u64 * CHARACTER;
        } else if text / (CHARACTER * CHARACTER) % CHARACTER == 0 {
            text += mark as u64 * (CHARACTER * CHARACTER);
        }
        XtermCell {
            text,
            look: self.look,
        }
    }

    /// Returns the Unicode number of the character, or 0 for the second cell of a wide one.
    #[inline(always)]
    pub fn character(self) -> u32
        ensures { result ≡ self.character }
    {
        (self.text % CHARACTER) as u32
    }

    /// Returns the Unicode number of the first mark, or 0 for none.
    #[inline(always)]
    pub fn mark(self) -> u32
        ensures { result ≡ self.mark }
    {
        (self.text / CHARACTER % CHARACTER) as u32
    }

    /// Returns the Unicode number of the second mark, or 0 for none.
    #[inline(always)]
    pub fn other_mark(self) -> u32
        ensures { result ≡ self.other_mark }
    {
        (self.text / (CHARACTER * CHARACTER) % CHARACTER) as u32
    }

    /// Returns whether this is the first cell of a wide character.
    #[inline(always)]
    pub fn is_wide(self) -> bool
        ensures { result ≡ self.wide }
    {
        self.text >= 0x8000_0000_0000_0000
    }

    /// Returns whether this is the second cell of a wide character.
    #[inline(always)]
    pub fn is_second(self) -> bool
        ensures { result ≡ is_second self }
    {
        !self.is_wide() && self.text % CHARACTER == 0
    }

    /// Returns the look.
    #[inline(always)]
    pub fn look(self) -> Look
        ensures { result ≡ self.look }
    {
        Look {
            foreground: self.foreground(),
            background: self.background(),
            attributes: self.attributes(),
            protected: self.is_protected(),
        }
    }

    /// Returns the colour of the character.
    #[inline(always)]
    pub fn foreground(self) -> Colour
        ensures { result ≡ self.look.foreground }
    {
        Colour::with_number(self.look % COLOUR)
    }

    /// Returns the colour behind the character.
    #[inline(always)]
    pub fn background(self) -> Colour
        ensures { result ≡ self.look.background }
    {
        Colour::with_number(self.look / COLOUR % COLOUR)
    }

    /// Returns the attributes.
    #[inline(always)]
    pub fn attributes(self) -> Attributes
        ensures { result ≡ self.look.attributes }
    {
        Attributes::with_number(self.look / COLOUR / COLOUR)
    }

    /// Returns whether a selective erase leaves the cell.
    #[inline(always)]
    pub fn is_protected(self) -> bool
        ensures { result ≡ self.look.protected }
    {
        self.look / COLOUR / COLOUR >= 0x200
    }

    /// Sets the colour of the character.
    #[inline(always)]
    pub fn set_foreground(&mut self, colour: Colour)
        ensures { self.new ≡ record self.old { look = record self.old.look { foreground = colour } } }
    {
        self.look = joined(
            colour.number(),
            self.look / COLOUR % COLOUR,
            self.look / COLOUR / COLOUR,
        );
    }

    /// Sets the colour behind the character.
    #[inline(always)]
    pub fn set_background(&mut self, colour: Colour)
        ensures { self.new ≡ record self.old { look = record self.old.look { background = colour } } }
    {
        self.look = joined(
            self.look % COLOUR,
            colour.number(),
            self.look / COLOUR / COLOUR,
        );
    }

    /// Sets the attributes.
    #[inline(always)]
    pub fn set_attributes(&mut self, attributes: Attributes)
        ensures { self.new ≡ record self.old { look = record self.old.look { attributes = attributes } } }
    {
        let flags = attributes.number() + 0x200 * (self.look / COLOUR / COLOUR / 0x200);
        self.look = joined(self.look % COLOUR, self.look / COLOUR % COLOUR, flags);
    }

    /// Sets whether a selective erase leaves the cell.
    #[inline(always)]
    pub fn set_protected(&mut self, on: bool)
        ensures { self.new ≡ record self.old { look = record self.old.look { protected = on } } }
    {
        let flags = with_protection(self.look / COLOUR / COLOUR, on);
        self.look = joined(self.look % COLOUR, self.look / COLOUR % COLOUR, flags);
    }

    /// Returns whether both cells have the same parts. Speed: they are compared as two numbers.
    #[inline(always)]
    pub fn same(&self, other: &XtermCell) -> bool
        ensures { IsTrue result ↔ (self.now ≡ other.now) }
    {
        self.text == other.text && self.look == other.look
    }
}

impl Cells for XtermCell {
    ghost use Rattle.vt_xterm_cell.specs.Kinds.{xterm_cells, blank_cell_shown, erased_cell_shown};

    ghost cells = { xterm_cells };

    ghost blank_shown = { blank_cell_shown };

    ghost erased_shown = { erased_cell_shown };

    #[inline(always)]
    fn empty() -> XtermCell {
        XtermCell::blank()
    }

    #[inline(always)]
    fn selectively_erased(self) -> XtermCell {
        if self.is_protected() {
            self
        } else {
            self.cleared()
        }
    }

    #[inline(always)]
    #[tactic(auto, using(crate::proofs::Writable::cell_is))]
    fn is_sound(self) {
        let _ = (self.text, self.look);
    }

    #[inline(always)]
    fn same_row(a: &[XtermCell], b: &[XtermCell]) -> bool {
        same_cells(a, b)
    }
}

/// Returns whether two rows have the same cells: equally many, and each equal.
pub fn same_cells(a: &[XtermCell], b: &[XtermCell]) -> bool
    ensures { IsTrue result ↔ (a.now ≡ b.now) }
{
    if a.len() != b.len() {
        return false;
    }
    let mut at = 0;
    while at < a.len() {
        if !a[at].same(&b[at]) {
            return false;
        }
        at += 1;
    }
    true
}

impl Wide for XtermCell {
    ghost use Rattle.vt_xterm_cell.specs.Wide.{xterm_wide, xterm_halves, xterm_blank_narrow, xterm_erased_whole};

    ghost wide = { xterm_wide };

    ghost halves = { xterm_halves };

    ghost blank_narrow = { xterm_blank_narrow };

    ghost erased_whole = { xterm_erased_whole };

    #[inline(always)]
    fn is_wide(self) -> bool {
        XtermCell::is_wide(self)
    }

    #[inline(always)]
    fn is_second(self) -> bool {
        XtermCell::is_second(self)
    }

    #[inline(always)]
    fn second(self) -> XtermCell {
        XtermCell::second(self)
    }

    #[inline(always)]
    fn marked(self, mark: char) -> XtermCell {
        XtermCell::marked(self, mark)
    }

    #[inline(always)]
    fn spaced(self) -> XtermCell {
        self.cleared()
    }

    #[inline(always)]
    fn with_byte(self, byte: u8) -> XtermCell {
        XtermCell {
            text: byte as u64,
            look: self.look,
        }
    }
}
