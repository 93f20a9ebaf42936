//! An xterm on a screen of another size.
ghost use Rattle.std.specs.Prelude.{◌≡◌, ◌≤◌};
ghost use Rattle.vt_screen.specs.Grid.{IsSoundGridOf};
ghost use Rattle.vt_screen.specs.Sizes.{IsSize};
ghost use Rattle.vt_xterm_cell.specs.Kinds.{xterm_cells};
ghost use Rattle.vt_xterm_display.specs.Resizing.{halved, edged, xterm_page_on, xterm_off, xterm_on, session_on};

use crate::display::XtermDisplay;
use crate::page::Page;
use crate::sides::Sides;
use crate::xterm::Xterm;
use vt_screen::{Screen, Size};
use vt_term::saved_on;
use vt_xterm_cell::XtermCell;

/// Returns a cell of the last column: a space with its look, if it is the first cell of a wide character.
#[inline(always)]
fn halved(cell: XtermCell) -> XtermCell
    ensures { result ≡ halved cell }
{
    if cell.is_wide() { cell.cleared() } else { cell }
}

/// Makes spaces of the wide characters whose second cell is right of the last column.
fn cut_edge(screen: &mut Screen<XtermCell>)
    ensures grid { screen.new ≡ edged screen.old }
    ensures size { screen.new.size ≡ screen.old.size }
    ensures width { screen.new.width ≡ screen.old.width }
    ensures sound { IsSoundGridOf xterm_cells.shown screen.new }
{
    let width = screen.width();
    for row in 1..screen.size().rows + 1 {
        let cell = screen.cell(row, width);
        screen.put(row, width, halved(cell));
    }
}

impl Page {
    /// Makes another page, of any size, show what this one shows after its first `off` rows have left at the top.
    fn resize_into(&self, off: usize, target: &mut Page)
        requires { off ≤ self.now.grid.size.rows }
        ensures page { target.new ≡ xterm_page_on target.old.grid.size off self.now }
        ensures size { target.new.grid.size ≡ target.old.grid.size }
    {
        self.soundness();
        let size = target.screen.size();
        target.screen.copy_on(&self.screen, off);
        cut_edge(&mut target.screen);
        target.saved = saved_on(self.saved, size.rows, self.screen.width_on(size), off);
    }
}

impl XtermDisplay {
    /// Returns how many rows leave the main page at the top if the screen gets another size. It goes by its own cursor, which is the place
    /// that was saved on it while the alternate page is shown.
    fn main_off(&self, size: Size) -> usize
        ensures off { result ≡ xterm_off size self.now }
        ensures bound { result ≤ self.now.other.grid.size.rows }
    {
        self.soundness();
        if self.alternate {
            self.other.saved.row.saturating_sub(size.rows)
        } else {
            self.shown.count_off(size)
        }
    }

    /// Returns the size.
    fn size(&self) -> Size
        ensures size { result ≡ self.now.shown.grid.size }
        ensures is_size { IsSize self.now.shown.grid.size }
    {
        self.shown.soundness();
        self.shown.screen.size()
    }

    /// Makes another screen, of any size, show what this one shows.
    fn resize_into(&self, target: &mut XtermDisplay)
        ensures { target.new ≡ xterm_on target.old.shown.grid.size self.now }
    {
        self.soundness();
        let size = target.size();
        let off = self.main_off(size);
        self.shown.resize_into(&mut target.shown);
        cut_edge(&mut target.shown.screen);
        self.other.resize_into(off, &mut target.other);
        let stays = self.shown.is_as_large(size);
        target.sides = if stays {
            self.sides
        } else {
            Sides::full(self.shown.screen.width_on(size))
        };
        target.bounded = self.bounded;
        target.waits = self.waits && stays;
        target.alternate = self.alternate;
        target.resizes = self.resizes;
        target.settings = self.settings;
    }
}

impl Xterm {
    /// Makes another xterm, of any size, the state that this one gets if its screen changes to that size. It never fails and allocates nothing.
    /// (xterm: a window that changes its size, without saved lines)
    ///
    /// If the cursor would be below the last row, so many rows leave the page that is shown at the top. The main page goes by its own cursor,
    /// which is the place that was saved on it while it isn't shown. As many rows leave the page that isn't shown as leave the main page. The
    /// rows and columns that both screens have stay, and the others are plain. If the new edge parts a wide character, a space with its look
    /// stays. The cursor and the saved places are brought inside. Unless the screen has as many rows and columns as before, all margins are
    /// full, DECOM is reset, and no wrap is pending at a right margin.
    pub fn resize_into(&self, target: &mut Xterm)
        ensures { target.new ≡ session_on target.old.screen.shown.grid.size self.now }
    {
        self.screen.resize_into(&mut target.screen);
        target.parser = self.parser.copied();
        target.decoder = self.decoder.copied();
    }
}
