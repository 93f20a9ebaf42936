//! The two pages.
ghost use Rattle.std.specs.Prelude.{◌≡◌};
ghost use Rattle.vt_xterm_display.specs.State.{on_shown, moved};
ghost use Rattle.vt_xterm_display.specs.Pages.{restored, restore, exchanged, show_page, with_erased_page, show_or_clear};
ghost use Rattle.vt_xterm_display.specs.Pages.{save_or_restore, show_and_save, column_mode};
ghost use Rattle.vt_term.specs.Saving.{save_cursor};

use crate::display::XtermDisplay;
use crate::sides::Sides;
use vt_term::Cursor;

impl XtermDisplay {
    /// Carries out DECSC. A wrap that is pending at the right margin isn't saved.
    pub(crate) fn save_cursor(&mut self)
        ensures { self.new ≡ on_shown save_cursor self.old }
    {
        self.shown.save_cursor();
    }

    /// Carries out DECRC. If DECOM is restored, the cursor is brought between the margins.
    pub(crate) fn restore_cursor(&mut self)
        ensures { self.new ≡ restore self.old }
    {
        self.shown.restore_cursor();
        self.waits = false;
        let is_last = self.sides.right == self.shown.screen.width();
        self.shown.cursor.wrap = self.shown.cursor.wrap && is_last;
        let Cursor { row, col, .. } = self.shown.cursor;
        if self.shown.modes.decom && !(self.sides.left <= col && col <= self.sides.right) {
            self.shown.cursor = Cursor {
                row,
                col: col.min(self.sides.right).max(self.sides.left),
                wrap: false,
            };
        }
    }

    /// Shows the other page, in the width of the screen.
    fn exchange(&mut self, alternate: bool)
        ensures { self.new ≡ exchanged alternate self.old }
    {
        let width = self.shown.screen.width();
        self.other.fit(width);
        std::mem::swap(&mut self.shown.screen, &mut self.other.screen);
        std::mem::swap(&mut self.shown.saved, &mut self.other.saved);
        self.shown.cursor.wrap = self.shown.cursor.wrap && self.sides.right == width;
        self.waits = false;
        self.alternate = alternate;
    }

    /// Carries out ?47: shows the alternate page, or the main one.
    pub(crate) fn show_page(&mut self, alternate: bool)
        ensures { self.new ≡ show_page alternate self.old }
    {
        if self.alternate {
            if !alternate {
                self.exchange(false);
            }
        } else if alternate {
            self.exchange(true);
        }
    }

    /// Carries out ?1047: shows the alternate page, or leaves it erased and shows the main one.
    pub(crate) fn show_or_clear(&mut self, alternate: bool)
        ensures { self.new ≡ show_or_clear alternate self.old }
    {
        if alternate {
            self.show_page(true);
        } else if self.alternate {
            self.exchange(false);
            let empty = self.incoming();
            self.other.fill(empty);
        }
    }

    /// Carries out ?1048: saves the cursor, or restores it.
    pub(crate) fn save_or_restore(&mut self, save: bool)
        ensures { self.new ≡ save_or_restore save self.old }
    {
        if save {
            self.save_cursor();
        } else {
            self.restore_cursor();
        }
    }

    /// Carries out ?1049: saves the cursor and shows the alternate page erased, or shows the main one and restores the cursor.
    pub(crate) fn show_and_save(&mut self, alternate: bool)
        ensures { self.new ≡ show_and_save alternate self.old }
    {
        if alternate {
            self.save_cursor();
            self.show_page(true);
            self.erase_in_display(false, 2);
        } else {
            self.show_page(false);
            self.restore_cursor();
        }
    }

    /// Carries out ?3: DECCOLM, if it has an effect. The screen is erased, and all margins are full.
    pub(crate) fn column_mode(&mut self, wide: bool)
        ensures { self.new ≡ column_mode wide self.old }
    {
        if self.resizes {
            let empty = self.incoming();
            self.shown.column_mode(wide);
            self.shown.screen.fill(empty);
            self.sides = Sides::full(self.shown.screen.width());
            self.waits = false;
        }
    }
}
