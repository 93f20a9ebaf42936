//! Pages that aren't shown.
ghost use Rattle.std.specs.Prelude.{◌≡◌, Bool, IfOk};
ghost use Rattle.vt_screen.specs.Grid.{fill_any};
ghost use Rattle.vt_screen.specs.Sizes.{IsSize, width_of};
ghost use Rattle.vt_term.specs.State.{saved_any};
ghost use Rattle.vt_xterm_display.specs.State.{blank_page, xterm_kind};
ghost use Rattle.vt_xterm_display.specs.Sound.{IsSoundPageAt};
ghost use Rattle.vt_xterm_display.specs.Pages.{fitted};

use std::alloc::{AllocError, Global};
use std::marker::Model;
use vt_screen::{Screen, Size};
use vt_term::SavedOf;
use vt_xterm_cell::{Look, XtermCell};

/// A page: the cells of a screen, and the state that DECSC saved on it. `new` allocates its memory, and nothing else does.
#[derive(Drop)]
pub struct Page {
    /// The cells.
    pub screen: Screen<XtermCell>,
    /// The state that DECSC saved.
    pub saved: SavedOf<Look>,
}

impl Model for Page {
    ghost use Rattle.vt_xterm_display.specs.State.{PageState};
    ghost use Rattle.vt_xterm_display.specs.Sound.{IsSoundPageAt};

    ghost Value = { PageState };

    ghost view = { λ p. record { grid = p.screen; saved = p.saved } };

    ghost invariant = { λ p. IsSoundPageAt p.screen.size (record { grid = p.screen; saved = p.saved }) };
}

impl Page {
    /// Returns a blank narrow page of a size, with the state that DECSC saved at power-up. Returns `Err` if allocation fails.
    pub(crate) fn new(alloc: Global, size: Size, saved: SavedOf<Look>) -> Result<Page, AllocError>
        requires size { IsSize size }
        requires saved { saved ≡ saved_any xterm_kind }
        ensures { IfOk result (λ page. page ≡ blank_page size) }
    {
        Ok(Page {
            screen: Screen::with_size(alloc, size)?,
            saved,
        })
    }

    /// States that the page is sound, for proofs. It does nothing when it runs.
    #[inline(always)]
    pub(crate) fn soundness(&self)
        ensures { IsSoundPageAt self.now.grid.size self.now }
    {
        let _ = &self.saved;
    }

    /// Makes the page as at power-up.
    pub(crate) fn reset(&mut self, saved: SavedOf<Look>)
        requires { saved ≡ saved_any xterm_kind }
        ensures size { self.new.grid.size ≡ self.old.grid.size }
        ensures page { self.new ≡ blank_page self.old.grid.size }
    {
        self.screen.set_width(false);
        self.saved = saved;
    }

    /// Fills the page with a cell. The saved state stays.
    pub(crate) fn fill(&mut self, cell: XtermCell)
        ensures page { self.new ≡ record self.old { grid = fill_any self.old.grid cell } }
        ensures size { self.new.grid.size ≡ self.old.grid.size }
    {
        self.screen.fill(cell);
    }

    /// Brings the page to a width. A page of another width changes as by DECCOLM.
    pub(crate) fn fit(&mut self, width: usize)
        requires { (wide : Bool) × (width ≡ width_of self.old.grid.size wide) }
        ensures page { self.new ≡ fitted width self.old }
        ensures size { self.new.grid.size ≡ self.old.grid.size }
        ensures width { self.new.grid.width ≡ width }
    {
        if self.screen.width() == width {
            return;
        }
        self.screen.set_width(width == self.screen.size().wide);
        self.saved.col = self.saved.col.min(self.screen.width());
        self.saved.wrap = false;
    }
}
