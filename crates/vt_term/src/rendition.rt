//! The brush: the attributes and the protection of what is written next.
ghost use Rattle.std.specs.Prelude.{◌≡◌, ◌≤◌};
ghost use Rattle.vt_syntax.specs.Front.{front_list};
ghost use Rattle.vt_screen.specs.Cells.{brush_of};
ghost use Rattle.vt_term.specs.Kinds.{kind_of};
ghost use Rattle.vt_term.specs.Rendition.{with_attribute, with_attributes, vt220_own, select_any, select_protection_any};

use crate::display::Display;
use crate::kind::Kind;
use vt_screen::{Cell, Rendition};
use vt_syntax::FrontValues;

/// Returns a VT220's pen after the parameters of SGR, each in order.
#[inline(always)]
pub(crate) fn with_attributes(pen: &mut Cell, params: &[u16])
    ensures { brush_of pen.new ≡ vt220_own.attributes params.now (brush_of pen.old) }
{
    for p in params {
        change(pen, *p);
    }
}

/// Returns a VT220's pen after one to three parameters of SGR.
#[inline(always)]
pub(crate) fn with_front(pen: &mut Cell, front: &FrontValues)
    requires few { (1 ≤ front.now.count) × (front.now.count ≤ 3) }
    ensures { brush_of pen.new ≡ vt220_own.attributes (front_list front.now) (brush_of pen.old) }
{
    change(pen, front.first);
    if front.count == 1 {
        return;
    }
    change(pen, front.second);
    if front.count == 2 {
        return;
    }
    change(pen, front.third);
}

/// Changes a pen by one parameter of SGR.
#[inline(always)]
#[tactic(auto, unfolding(crate::specs::Rendition::with_attribute))]
fn change(pen: &mut Cell, p: u16)
    ensures { pen.new ≡ record pen.old { rendition = with_attribute p pen.old.rendition } }
{
    match p {
        0 => pen.rendition = Rendition::plain(),
        1 => pen.rendition.bold = true,
        4 => pen.rendition.underline = true,
        5 => pen.rendition.blink = true,
        7 => pen.rendition.reverse = true,
        22 => pen.rendition.bold = false,
        24 => pen.rendition.underline = false,
        25 => pen.rendition.blink = false,
        27 => pen.rendition.reverse = false,
        _ => {}
    }
}

impl<K: Kind> Display<K> {
    /// Carries out SGR: each parameter in order.
    #[inline(always)]
    pub fn select_graphic_rendition(&mut self, params: &[u16])
        ensures { self.new ≡ select_any (kind_of K.cells K.own) params.now self.old }
    {
        self.pen.attributes(params);
    }

    /// Carries out SGR with one to three parameters.
    #[inline(always)]
    pub fn select_front_rendition(&mut self, front: &FrontValues)
        requires few { (1 ≤ front.now.count) × (front.now.count ≤ 3) }
        ensures { self.new ≡ select_any (kind_of K.cells K.own) (front_list front.now) self.old }
    {
        self.pen.front_attributes(front);
    }

    /// Carries out DECSCA: 1 protects what is written afterwards, 0 and 2 don't.
    pub fn select_character_attribute(&mut self, p: u16)
        ensures { self.new ≡ select_protection_any (kind_of K.cells K.own) p self.old }
    {
        match p {
            0 | 2 => self.pen.protection(false),
            1 => self.pen.protection(true),
            _ => {}
        }
    }
}
