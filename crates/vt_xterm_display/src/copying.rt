//! Copies of an xterm's state, and whether two states are the same.
ghost use Rattle.std.specs.Prelude.{◌≡◌, ◌↔◌, IsTrue};

use crate::display::XtermDisplay;
use crate::page::Page;
use crate::settings::{Coding, Mouse, Settings, Shape};
use crate::xterm::Xterm;
use vt_term::same_saved;
use vt_xterm_cell::XtermCell;

/// Returns whether bytes are the same.
fn same_bytes(a: &[u8], b: &[u8]) -> bool
    ensures { IsTrue result ↔ (a.now ≡ b.now) }
{
    a == b
}

/// Returns whether modes of the mouse are the same.
fn same_mouse(a: Mouse, b: Mouse) -> bool
    ensures { IsTrue result ↔ (a ≡ b) }
{
    a == b
}

/// Returns whether codings of the mouse's positions are the same.
fn same_codings(a: Coding, b: Coding) -> bool
    ensures { IsTrue result ↔ (a ≡ b) }
{
    a == b
}

/// Returns whether shapes of the cursor are the same.
fn same_shape(a: Shape, b: Shape) -> bool
    ensures { IsTrue result ↔ (a ≡ b) }
{
    a == b
}

/// Returns whether settings are the same.
fn same_settings(a: &Settings, b: &Settings) -> bool
    ensures { IsTrue result ↔ (a.now ≡ b.now) }
{
    a.brackets == b.brackets
        && a.focus == b.focus
        && a.synchronized == b.synchronized
        && a.blinks == b.blinks
        && same_mouse(a.mouse, b.mouse)
        && same_codings(a.coding, b.coding)
        && same_shape(a.shape, b.shape)
}

impl Page {
    /// Returns whether two pages are equal in every part.
    fn same(&self, other: &Page) -> bool
        ensures { IsTrue result ↔ (self.now ≡ other.now) }
    {
        same_saved::<XtermCell>(&self.saved, &other.saved) && self.screen.same(&other.screen)
    }

    /// Makes the page equal to another one of the same size.
    fn copy_from(&mut self, other: &Page)
        requires { self.old.grid.size ≡ other.now.grid.size }
        ensures { self.new ≡ other.now }
    {
        self.screen.copy_from(&other.screen);
        self.saved = other.saved;
    }
}

impl XtermDisplay {
    /// Returns whether two screens are equal in every part.
    fn same(&self, other: &XtermDisplay) -> bool
        ensures { IsTrue result ↔ (self.now ≡ other.now) }
    {
        self.sides == other.sides
            && self.bounded == other.bounded
            && self.waits == other.waits
            && self.alternate == other.alternate
            && self.resizes == other.resizes
            && same_settings(&self.settings, &other.settings)
            && self.shown.same(&other.shown)
            && self.other.same(&other.other)
    }

    /// Makes every part equal to that of another screen of the same size.
    fn copy_from(&mut self, other: &XtermDisplay)
        requires { self.old.shown.grid.size ≡ other.now.shown.grid.size }
        ensures { self.new ≡ other.now }
    {
        self.soundness();
        other.soundness();
        self.shown.copy_from(&other.shown);
        self.other.copy_from(&other.other);
        self.sides = other.sides;
        self.bounded = other.bounded;
        self.waits = other.waits;
        self.alternate = other.alternate;
        self.resizes = other.resizes;
        self.settings = other.settings;
    }
}

impl Xterm {
    /// Returns whether two xterms are in the same state, with what they have read of an unfinished sequence and of an unfinished character.
    pub fn same(&self, other: &Xterm) -> bool
        ensures { IsTrue result ↔ (self.now ≡ other.now) }
    {
        self.screen.same(&other.screen)
            && self.parser.held() == other.parser.held()
            && same_bytes(self.decoder.pending(), other.decoder.pending())
    }

    /// Makes the state equal to that of another xterm of the same size, with what it has read of an unfinished sequence and of an unfinished
    /// character. It never fails and allocates nothing.
    pub fn copy_from(&mut self, other: &Xterm)
        requires { self.old.screen.shown.grid.size ≡ other.now.screen.shown.grid.size }
        ensures { self.new ≡ other.now }
    {
        self.screen.copy_from(&other.screen);
        self.parser = other.parser.copied();
        self.decoder = other.decoder.copied();
    }
}
