//! A session on a screen of another size.
ghost use Rattle.std.specs.Prelude.{◌≡◌, ◌≤◌, ◌+◌, ◌*◌, ◌++◌, vec_len, vec_capacity, IsOk, OnOk, OnErr};
ghost use Rattle.vt_term.specs.Text.{row_text_limit};
ghost use Rattle.vt_xterm.specs.Play.{behind};
ghost use Rattle.vt_xterm.specs.Resizing.{sides_on, pages_on, front_on, main_off, xterm_log_on};

use crate::front::{SizedFront, SizedPages};
use crate::sides::Sides;
use std::alloc::AllocError;
use vt_term::{Size, SizedTerminal};

/// Returns the left and right margins on a screen of another size: full ones, unless it is as large.
fn sides_on(sides: Option<Sides>, terminal: &SizedTerminal, size: Size) -> Option<Sides>
    ensures { result ≡ sides_on size terminal.now.display sides }
{
    let old = terminal.size();
    let width = if terminal.width() == old.wide {
        size.wide
    } else {
        size.narrow
    };
    if old.rows == size.rows && terminal.width() == width {
        return sides;
    }
    if sides.is_some() {
        Some(Sides::full(width))
    } else {
        None
    }
}

impl SizedPages {
    /// Returns how many rows leave the main page at the top if the screen gets another size. It goes by its own cursor, which is the
    /// place that was saved on it while the alternate page is shown.
    fn main_off(&self, terminal: &SizedTerminal, size: Size) -> usize
        requires { self.now.other.grid.size ≡ terminal.now.display.grid.size }
        ensures off { result ≡ main_off size terminal.now.display self.now }
        ensures bound { result ≤ terminal.now.display.grid.size.rows }
    {
        if self.alternate {
            return self.other.count_off(size);
        }
        terminal.count_off(size)
    }

    /// Makes the pages of another front, of any size, those of this one on a screen of that size.
    fn resize_into(&self, terminal: &SizedTerminal, target: &mut SizedPages)
        requires { self.now.other.grid.size ≡ terminal.now.display.grid.size }
        ensures { target.new ≡ pages_on target.old.other.grid.size terminal.now.display self.now }
    {
        let off = self.main_off(terminal, target.other.size());
        self.other.resize_into(off, &mut target.other);
        target.alternate = self.alternate;
        target.resizes = self.resizes;
        target.brackets = self.brackets;
        target.sides = sides_on(self.sides, terminal, target.other.size());
    }
}

impl SizedFront {
    /// Makes another front, of any size, keep what this one keeps if the screen changes to that size. `terminal` is this front's,
    /// before its own change (`SizedTerminal::resize_into`). As many rows leave the page that isn't shown as leave the main page.
    /// The main page goes by its own cursor, which is the place that was saved on it while the alternate page is shown. Unless the
    /// screen has as many rows and columns as before, the left and right margins are full; DECLRMM stays. It never fails and
    /// allocates nothing. (xterm: a window that changes its size, without saved lines; tmux: the main page)
    pub fn resize_into(&self, terminal: &SizedTerminal, target: &mut SizedFront)
        requires { self.now.pages.other.grid.size ≡ terminal.now.display.grid.size }
        ensures { target.new ≡ front_on target.old.pages.other.grid.size terminal.now.display self.now }
    {
        self.pages.resize_into(terminal, &mut target.pages);
        target.decoder = self.decoder.copied();
    }

    /// Appends to `out` what a change to another size adds to the log: the text of each row that leaves the main page at
    /// the top, whether that page is shown or not. The text is in UTF-8, without the spaces at its end, and LF follows it.
    ///
    /// It reserves `row_text_limit` bytes of capacity for each of these rows. Returns `Err` if that fails. Then the contents of
    /// `out` are unchanged.
    pub fn log_on(
        &self,
        terminal: &SizedTerminal,
        size: Size,
        out: &mut Vec<u8>,
    ) -> Result<(), AllocError>
        requires { self.now.pages.other.grid.size ≡ terminal.now.display.grid.size }
        ensures ok { OnOk result (out.new.items ≡ out.old.items ++ xterm_log_on size (behind terminal.now self.now)) }
        ensures err { OnErr result (out.new.items ≡ out.old.items) }
        ensures has_room { vec_len out.old
            + main_off size terminal.now.display self.now.pages * row_text_limit terminal.now.display.grid.size
            ≤ vec_capacity out.old → IsOk result }
        ensures bounded { vec_len out.new ≤ vec_len out.old
            + main_off size terminal.now.display self.now.pages * row_text_limit terminal.now.display.grid.size }
        ensures capacity { vec_capacity out.old ≤ vec_capacity out.new }
    {
        if self.pages.is_alternate() {
            return self.pages.other.log_on(size, out);
        }
        terminal.log_on(size, out)
    }
}
