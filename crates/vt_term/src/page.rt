//! Pages: what a terminal shows, and a caller may exchange.
ghost use Rattle.std.specs.Prelude.{◌≡◌, Bool, IfOk};
ghost use Rattle.vt_screen.specs.Sizes.{width_of, IsSize};
ghost use Rattle.vt_term.specs.State.{display_of, state_of};
ghost use Rattle.vt_term.specs.Pages.{PageState, IsSoundSizedPage, blank_page, blanked, fitted, page_of, with_page};

use crate::display::Display;
use crate::sized::SizedTerminal;
use crate::state::Saved;
use std::alloc::{AllocError, Global};
use std::marker::Model;
use vt_screen::{Screen, Size};
use vt_syntax::Parser;

/// A page of any size: the cells of a screen, and the state that DECSC saved on it. `new` allocates its memory, and nothing else does.
#[derive(Drop)]
pub struct SizedPage {
    pub(crate) screen: Screen,
    pub(crate) saved: Saved,
}

impl Model for SizedPage {
    ghost use Rattle.vt_term.specs.Pages.{PageState, IsSoundSizedPage};

    ghost Value = { PageState };

    ghost view = { λ p. record { grid = p.screen; saved = p.saved } };

    ghost invariant = { λ p. IsSoundSizedPage (record { grid = p.screen; saved = p.saved }) };
}

impl SizedPage {
    /// Returns a blank narrow page of a size, with the state that is saved at power-up. Returns `Err` if allocation fails.
    pub fn new(alloc: Global, size: Size) -> Result<SizedPage, AllocError>
        requires { IsSize size }
        ensures { IfOk result (λ page. page ≡ blank_page size) }
    {
        Ok(SizedPage {
            screen: Screen::with_size(alloc, size)?,
            saved: Saved::power_up(),
        })
    }

    /// Makes the page as at power-up: blank and narrow, with the state that is saved at power-up.
    pub fn reset(&mut self)
        ensures { self.new ≡ blank_page self.old.grid.size }
    {
        self.screen.set_width(false);
        self.saved = Saved::power_up();
    }

    /// Blanks the cells. The saved state stays.
    pub fn blank(&mut self)
        ensures { self.new ≡ blanked self.old }
    {
        let wide = self.screen.width() == self.screen.size().wide;
        self.screen.set_width(wide);
    }

    /// Makes the page equal to another one of the same size. It never fails and allocates nothing.
    pub fn copy_from(&mut self, other: &SizedPage)
        requires { self.old.grid.size ≡ other.now.grid.size }
        ensures { self.new ≡ other.now }
    {
        self.screen.copy_from(&other.screen);
        self.saved = other.saved;
    }

    /// Returns the size: the rows, and the columns of the narrow and of the wide screen.
    #[inline(always)]
    pub fn size(&self) -> Size
        ensures size { result ≡ self.now.grid.size }
        ensures sound { IsSize self.now.grid.size }
    {
        self.screen.size()
    }

    /// States that the page is sound, for proofs. It does nothing when it runs.
    #[inline(always)]
    pub fn soundness(&self)
        ensures { IsSoundSizedPage self.now }
    {
        let _ = &self.saved;
    }

    /// Brings the page to a width. A page of another width changes as by DECCOLM.
    fn fit(&mut self, width: usize)
        requires { (wide : Bool) × (width ≡ width_of self.old.grid.size wide) }
        ensures page { self.new ≡ fitted width self.old }
        ensures width { self.new.grid.width ≡ width }
    {
        if self.screen.width() == width {
            return;
        }
        self.screen.set_width(width == self.screen.size().wide);
        self.saved.col = self.saved.col.min(self.screen.width());
        self.saved.wrap = false;
    }
}

impl Display {
    /// Exchanges the cells and the saved state with those of a page.
    fn exchange_page(&mut self, page: &mut SizedPage)
        requires { self.old.grid.size ≡ page.old.grid.size }
        ensures shown { self.new ≡ with_page (fitted self.old.grid.width page.old) self.old }
        ensures page { page.new ≡ page_of self.old }
    {
        page.fit(self.screen.width());
        std::mem::swap(&mut self.screen, &mut page.screen);
        std::mem::swap(&mut self.saved, &mut page.saved);
    }

    /// Makes the display as at power-up, with the cells and the saved state of a page.
    fn show_copy(&mut self, page: &SizedPage)
        requires { self.old.grid.size ≡ page.now.grid.size }
        ensures { self.new ≡ with_page page.now (display_of self.old.grid.size) }
    {
        self.reset_to_initial_state();
        self.screen.copy_from(&page.screen);
        self.saved = page.saved;
    }
}

impl SizedTerminal {
    /// Exchanges the page that is shown: its cells and what DECSC saved. Everything else stays. The page first gets the
    /// terminal's width: if it has another one, it changes as by DECCOLM, to blank cells.
    pub fn exchange_page(&mut self, page: &mut SizedPage)
        requires { self.old.display.grid.size ≡ page.old.grid.size }
        ensures shown { self.new ≡ record self.old {
          display = with_page (fitted self.old.display.grid.width page.old) self.old.display;
        } }
        ensures page { page.new ≡ page_of self.old.display }
    {
        self.display.exchange_page(page);
    }

    /// Makes the terminal as at power-up, with a copy of the cells of a page and of what DECSC saved on it. It never fails and
    /// allocates nothing.
    pub fn show_copy(&mut self, page: &SizedPage)
        requires { self.old.display.grid.size ≡ page.now.grid.size }
        ensures { self.new ≡ record (state_of self.old.display.grid.size) {
          display = with_page page.now (display_of self.old.display.grid.size);
        } }
    {
        self.display.show_copy(page);
        self.parser = Parser::new();
    }
}
