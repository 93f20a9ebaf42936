//! SGR: what its parameters do to the look of a pen.
ghost use Rattle.std.specs.Prelude.{◌≡◌, ◌≤◌, true, length, drop, slice_index};
ghost use Rattle.vt_xterm_cell.specs.Rendition.{is_long, long_full, changed_by, with_number, long_colour, after_number, rendered};

use crate::cell::XtermCell;
use crate::look::{Attributes, Colour};

/// Changes attributes of a pen, and leaves the others. Speed: written out in each arm it is compiled to one mask.
macro_rules! with {
    ($pen:expr, $($name:ident: $on:literal),*) => {{
        let old = $pen.attributes();
        $pen.set_attributes(Attributes { $($name: $on,)* ..old })
    }};
}

impl XtermCell {
    /// Changes the look by the parameters of SGR. (ECMA-48 8.3.117)
    #[inline(always)]
    pub fn render(&mut self, params: &[u16])
        ensures { self.new.look ≡ rendered params.now self.old.look }
    {
        let mut at = 0;
        while at < params.len() {
            at += self.carry_out(&params[at..]);
        }
    }

    /// Changes the look by the first number of a list and what belongs to it. Returns how many parameters these are, if none is
    /// missing.
    #[inline(always)]
    fn carry_out(&mut self, params: &[u16]) -> usize
        requires { 1 ≤ length params.now }
        ensures some { 1 ≤ result }
        ensures few { result ≤ 5 }
        ensures look { rendered (drop result params.now) self.new.look ≡ rendered params.now self.old.look }
    {
        let p = params[0];
        if is_long(p) {
            self.carry_out_long(params);
            long_end(params)
        } else {
            self.change(p);
            1
        }
    }
}

/// Returns whether a number takes parameters.
#[inline(always)]
fn is_long(p: u16) -> bool
    ensures { result ≡ is_long p }
{
    p == 38 || p == 48 || p == 58
}

/// Returns a parameter, or 0 if it is missing.
#[inline(always)]
fn parameter(params: &[u16], at: usize) -> u16
    ensures { result ≡ slice_index params.now at }
{
    if at < params.len() { params[at] } else { 0 }
}

/// Returns how many parameters a long colour has with its number, if none is missing.
#[inline(always)]
fn long_end(params: &[u16]) -> usize
    ensures { result ≡ long_full (slice_index params.now 1) }
{
    match parameter(params, 1) {
        5 => 3,
        2 => 5,
        _ => 2,
    }
}

/// Returns the long colour that the parameters are.
#[inline(always)]
#[tactic(auto, unfolding(crate::specs::Rendition::long_colour))]
fn long_colour(params: &[u16]) -> Option<Colour>
    ensures { result ≡ long_colour params.now }
{
    let form = parameter(params, 1);
    let first = parameter(params, 2);
    if form == 5 && first <= 255 {
        return Some(Colour::Indexed(first as u8));
    }
    let second = parameter(params, 3);
    let third = parameter(params, 4);
    if form == 2 && first <= 255 && second <= 255 && third <= 255 {
        return Some(Colour::Rgb(first as u8, second as u8, third as u8));
    }
    None
}

impl XtermCell {
    /// Changes the look by a long colour.
    #[inline(always)]
    #[tactic(auto, unfolding(crate::specs::Rendition::after_number))]
    fn carry_out_long(&mut self, params: &[u16])
        requires some { 1 ≤ length params.now }
        requires long { is_long (slice_index params.now 0) ≡ true }
        ensures { self.new.look ≡ after_number params.now self.old.look }
    {
        let p = params[0];
        if let Some(colour) = long_colour(params) {
            if p == 38 {
                self.set_foreground(colour);
            } else if p == 48 {
                self.set_background(colour);
            }
        }
    }

    /// Changes the look by a number that takes no parameters.
    #[inline(always)]
    #[tactic(auto, unfolding(crate::specs::Rendition::with_number))]
    fn change(&mut self, p: u16)
        ensures { self.new.look ≡ with_number p self.old.look }
    {
        if 30 <= p && p < 38 {
            self.set_foreground(Colour::Indexed((p - 30) as u8));
        } else if 40 <= p && p < 48 {
            self.set_background(Colour::Indexed((p - 40) as u8));
        } else if 90 <= p && p < 98 {
            self.set_foreground(Colour::Indexed((p - 90 + 8) as u8));
        } else if 100 <= p && p < 108 {
            self.set_background(Colour::Indexed((p - 100 + 8) as u8));
        } else {
            self.change_other(p);
        }
    }

    /// Changes the look by a number that sets no colour of 16.
    #[inline(always)]
    #[tactic(auto, unfolding(crate::specs::Rendition::changed_by))]
    fn change_other(&mut self, p: u16)
        ensures { self.new.look ≡ changed_by p self.old.look }
    {
        match p {
            0 => {
                self.set_foreground(Colour::Default);
                self.set_background(Colour::Default);
                self.set_attributes(Attributes::with_number(0));
            }
            1 => with!(self, bold: true),
            2 => with!(self, faint: true),
            3 => with!(self, italic: true),
            4 => with!(self, underlined: true),
            5 => with!(self, blinking: true),
            6 => with!(self, blinking: true),
            7 => with!(self, reverse: true),
            8 => with!(self, invisible: true),
            9 => with!(self, crossed_out: true),
            21 => with!(self, doubly_underlined: true),
            22 => with!(self, bold: false, faint: false),
            23 => with!(self, italic: false),
            24 => with!(self, underlined: false, doubly_underlined: false),
            25 => with!(self, blinking: false),
            27 => with!(self, reverse: false),
            28 => with!(self, invisible: false),
            29 => with!(self, crossed_out: false),
            39 => self.set_foreground(Colour::Default),
            49 => self.set_background(Colour::Default),
            _ => {}
        }
    }
}
