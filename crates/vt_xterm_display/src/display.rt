//! The state of an xterm's screen.
ghost use Rattle.std.specs.Prelude.{◌≡◌, ◌≤◌, IfOk, true};
ghost use Rattle.vt_screen.specs.Sizes.{IsSize};
ghost use Rattle.vt_term.specs.State.{at_place};
ghost use Rattle.vt_xterm_display.specs.State.{xterm_of, Shown, moved};
ghost use Rattle.vt_xterm_display.specs.Sound.{IsSoundXterm, IsSoundPageAt};
ghost use Rattle.vt_term.specs.Sound.{IsSoundDisplayOf};
ghost use Rattle.vt_wide.specs.Kinds.{IsNarrow};
ghost use Rattle.vt_xterm_cell.specs.Kinds.{xterm_cells};
ghost use Rattle.vt_xterm_cell.specs.Wide.{xterm_wide};
ghost use Rattle.vt_xterm_display.specs.Moving.{is_between, last_reached, first_reached};
ghost use Rattle.vt_xterm_display.specs.Tabs.{is_pending};
ghost use Rattle.vt_xterm_display.specs.Rows.{incoming};

use crate::page::Page;
use crate::settings::Settings;
use crate::sides::Sides;
use std::alloc::{AllocError, Global};
use std::marker::Model;
use vt_screen::{Cells, Size};
use vt_term::{Cursor, Display};
use vt_xterm_cell::XtermCell;

/// The screen of an xterm: both pages, the cursor, the pen, the margins and the modes.
#[derive(Drop)]
pub struct XtermDisplay {
    /// The page that is shown, and what both pages share with a VT220.
    pub shown: Display<XtermCell>,
    /// The page that isn't shown.
    pub other: Page,
    /// The left and right margins: all columns, if DECLRMM is reset.
    pub sides: Sides,
    /// DECLRMM.
    pub bounded: bool,
    /// A wrap is pending in the right margin's column, left of the last one.
    pub waits: bool,
    /// The alternate page is the one that is shown.
    pub alternate: bool,
    /// DECCOLM has an effect.
    pub resizes: bool,
    /// The settings that a multiplexer hands on.
    pub settings: Settings,
}

impl Model for XtermDisplay {
    ghost use Rattle.vt_xterm_display.specs.State.{XtermState};
    ghost use Rattle.vt_xterm_display.specs.Sound.{IsSoundXterm};

    ghost Value = { XtermState };

    ghost view = { λ d. record {
      shown = d.shown;
      other = d.other;
      sides = d.sides;
      bounded = d.bounded;
      waits = d.waits;
      alternate = d.alternate;
      resizes = d.resizes;
      settings = d.settings;
    } };

    ghost invariant = { λ d. IsSoundXterm (record {
      shown = d.shown;
      other = d.other;
      sides = d.sides;
      bounded = d.bounded;
      waits = d.waits;
      alternate = d.alternate;
      resizes = d.resizes;
      settings = d.settings;
    }) };
}

impl XtermDisplay {
    /// Returns the screen of a size at power-up. Returns `Err` if allocation fails.
    pub(crate) fn new(alloc: Global, size: Size) -> Result<XtermDisplay, AllocError>
        requires { IsSize size }
        ensures { IfOk result (λ d. d ≡ xterm_of size) }
    {
        let shown = Display::new(alloc, size)?;
        let other = Page::new(alloc, size, shown.saved)?;
        let width = shown.screen.width();
        Ok(XtermDisplay {
            shown,
            other,
            sides: Sides::full(width),
            bounded: false,
            waits: false,
            alternate: false,
            resizes: false,
            settings: Settings::power_up(),
        })
    }

    /// States that the screen is sound, for proofs. It does nothing when it runs.
    #[inline(always)]
    pub fn soundness(&self)
        ensures own { IsSoundXterm self.now }
        ensures shown { IsSoundDisplayOf xterm_cells.shown self.now.shown.grid.size self.now.shown }
        ensures other { IsSoundPageAt self.now.other.grid.size self.now.other }
    {
        self.shown.soundness();
        self.other.soundness();
    }

    /// Moves the cursor to a place. No wrap is pending there.
    #[inline(always)]
    pub(crate) fn place(&mut self, row: usize, col: usize)
        requires row { (1 ≤ row) × (row ≤ self.old.shown.grid.size.rows) }
        requires col { (1 ≤ col) × (col ≤ self.old.shown.grid.width) }
        requires rows { self.old.shown.modes.decom ≡ true → (self.old.shown.margins.top ≤ row) × (row ≤ self.old.shown.margins.bottom) }
        requires columns { self.old.shown.modes.decom ≡ true → (self.old.sides.left ≤ col) × (col ≤ self.old.sides.right) }
        ensures { self.new ≡ moved (λ m s. record s { cursor = at_place row col }) self.old }
    {
        self.shown.cursor = Cursor {
            row,
            col,
            wrap: false,
        };
        self.waits = false;
    }

    /// Returns whether the cursor's column is between the margins.
    #[inline(always)]
    pub(crate) fn is_between(&self) -> bool
        ensures { result ≡ is_between self.now.sides self.now.shown }
    {
        self.sides.left <= self.shown.cursor.col && self.shown.cursor.col <= self.sides.right
    }

    /// Returns the last column that the cursor reaches.
    #[inline(always)]
    pub(crate) fn last_reached(&self) -> usize
        ensures { result ≡ last_reached self.now.sides self.now.shown }
    {
        if self.shown.cursor.col <= self.sides.right {
            self.sides.right
        } else {
            self.shown.screen.width()
        }
    }

    /// Returns the first column that the cursor reaches.
    #[inline(always)]
    pub(crate) fn first_reached(&self) -> usize
        ensures { result ≡ first_reached self.now.sides self.now.shown }
    {
        if self.sides.left <= self.shown.cursor.col {
            self.sides.left
        } else {
            1
        }
    }

    /// Returns whether a wrap is pending.
    #[inline(always)]
    pub(crate) fn is_pending(&self) -> bool
        ensures { result ≡ is_pending self.now }
    {
        self.waits || self.shown.cursor.wrap
    }

    /// Returns the cell that comes in where the pen erases.
    #[inline(always)]
    pub(crate) fn incoming(&self) -> XtermCell
        ensures cell { result ≡ incoming self.now.shown }
        ensures narrow { IsNarrow xterm_wide result }
    {
        self.shown.pen.erased()
    }
}
