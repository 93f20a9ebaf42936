//! Left and right margins, and what each function does between them.
ghost use Rattle.std.specs.Prelude.{◌≡◌, ◌≤◌, ◌+◌, IfSome, IfNone, true, false, nat_lt, vec_len, vec_capacity};
ghost use Rattle.std.specs.Bool.{OnTrue};
ghost use Rattle.vt_xterm.specs.Bounded.{is_at_end};
ghost use Rattle.vt_xterm.specs.Sides.{AreSides, full_sides, are_narrow, are_sides, sides_of};
ghost use Rattle.vt_xterm.specs.Sides as between;

use crate::tabs::{forward_tab, stop_before};
use vt_term::{Glyph, SizedTerminal};

/// Left and right margins: at least two columns.
#[derive(Clone, Copy, Debug, PartialEq, Eq)]
pub struct Sides {
    /// The first column, from 1.
    pub left: usize,
    /// The last column.
    pub right: usize,
    /// A glyph was written in the last column, left of the screen's last one, and the next one begins a new line.
    pub wrap: bool,
}

impl Sides {
    /// Returns all columns of a screen of this width.
    pub(crate) fn full(width: usize) -> Sides
        ensures { result ≡ full_sides width }
    {
        Sides {
            left: 1,
            right: width,
            wrap: false,
        }
    }

    /// Returns the margins that DECSLRM sets on a screen of this width, if there are at least two columns.
    pub(crate) fn of(width: usize, p1: u16, p2: u16) -> Option<Sides>
        ensures sides { IfSome result (λ m. m ≡ sides_of width p1 p2) }
        ensures are { IfSome result (λ m. are_sides width p1 p2 ≡ true) }
        ensures fit { IfSome result (λ m. AreSides width m) }
        ensures none { IfNone result (are_sides width p1 p2 ≡ false) }
    {
        let left = (p1 as usize).max(1);
        let right = if p2 == 0 {
            width
        } else {
            (p2 as usize).min(width)
        };
        if left < right {
            Some(Sides {
                left,
                right,
                wrap: false,
            })
        } else {
            None
        }
    }

    /// Returns whether the margins fit a screen of this width, and leave a column of it out.
    #[inline(always)]
    pub(crate) fn are_narrow(&self, width: usize) -> bool
        ensures { result ≡ are_narrow width self.now }
    {
        let Sides { left, right, .. } = *self;
        1 <= left && left < right && right <= width && !(left == 1 && right == width)
    }

    /// Returns the margins without a pending wrap.
    pub(crate) fn unwrapped(&self) -> Sides
        ensures { result ≡ record self.now { wrap = false } }
    {
        Sides {
            left: self.left,
            right: self.right,
            wrap: false,
        }
    }

    /// Returns whether the cursor's column is between the margins.
    pub(crate) fn is_between(&self, terminal: &SizedTerminal) -> bool
        ensures { result ≡ between.is_between self.now terminal.now.display }
    {
        let col = terminal.cursor().col;
        self.left <= col && col <= self.right
    }

    /// Brings the cursor between the margins under DECOM.
    pub(crate) fn bring(&self, terminal: &mut SizedTerminal)
        requires fits { AreSides terminal.old.display.grid.width self.now }
        ensures { terminal.new ≡ record terminal.old { display = between.brought self.now terminal.old.display } }
    {
        if terminal.modes().decom && !self.is_between(terminal) {
            let cursor = terminal.cursor();
            terminal.move_to(cursor.row, cursor.col.min(self.right).max(self.left));
        }
    }

    /// Returns the last column that the cursor reaches.
    pub(crate) fn last_reached(&self, terminal: &SizedTerminal) -> usize
        ensures { result ≡ between.last_reached self.now terminal.now.display }
    {
        if terminal.cursor().col <= self.right {
            self.right
        } else {
            terminal.width()
        }
    }

    /// Returns the first column that the cursor reaches.
    pub(crate) fn first_reached(&self, terminal: &SizedTerminal) -> usize
        ensures { result ≡ between.first_reached self.now terminal.now.display }
    {
        if self.left <= terminal.cursor().col {
            self.left
        } else {
            1
        }
    }

    /// Returns the column of a number, which under DECOM counts from the left margin.
    fn column_of(&self, terminal: &SizedTerminal, n: usize) -> usize
        requires fits { AreSides terminal.now.display.grid.width self.now }
        requires some { 1 ≤ n }
        requires few { n ≤ 65535 }
        ensures value { result ≡ between.column_of self.now n terminal.now.display }
        ensures some { 1 ≤ result }
        ensures within { result ≤ terminal.now.display.grid.width }
    {
        let width = terminal.width();
        if terminal.modes().decom {
            (self.left + n - 1).min(self.right)
        } else {
            n.min(width)
        }
    }

    /// Returns whether a wrap is pending.
    pub(crate) fn is_pending(&self, terminal: &SizedTerminal) -> bool
        ensures { result ≡ between.is_pending self.now terminal.now.display }
    {
        self.wrap || terminal.cursor().wrap
    }

    /// Moves the cursor home: to column 1 of row 1, or under DECOM to the left margin in the top margin's row.
    pub(crate) fn home(&self, terminal: &mut SizedTerminal)
        requires fits { AreSides terminal.old.display.grid.width self.now }
        ensures { terminal.new ≡ record terminal.old { display = between.home self.now terminal.old.display } }
    {
        terminal.soundness();
        if terminal.modes().decom {
            terminal.move_to(terminal.margins().top, self.left);
        } else {
            terminal.move_to(1, 1);
        }
    }

    /// Carries out CR: moves the cursor to the left margin. From left of it, without DECOM, the cursor moves to column
    /// 1.
    pub(crate) fn carriage_return(&self, terminal: &mut SizedTerminal)
        requires fits { AreSides terminal.old.display.grid.width self.now }
        ensures { terminal.new ≡ record terminal.old { display = between.carriage_return self.now terminal.old.display } }
    {
        let col = if terminal.modes().decom {
            self.left
        } else {
            self.first_reached(terminal)
        };
        terminal.move_to(terminal.cursor().row, col);
    }

    /// Carries out CUF: moves the cursor right by `n`, not past the last column that it reaches.
    pub(crate) fn cursor_forward(&self, terminal: &mut SizedTerminal, n: u16)
        requires fits { AreSides terminal.old.display.grid.width self.now }
        ensures { terminal.new ≡ record terminal.old { display = between.cursor_forward n self.now terminal.old.display } }
    {
        let cursor = terminal.cursor();
        let col = (cursor.col + n as usize).min(self.last_reached(terminal));
        terminal.move_to(cursor.row, col);
    }

    /// Carries out CUB, and BS by one: moves the cursor left by `n`, not past the first column that it reaches.
    pub(crate) fn cursor_backward(&self, terminal: &mut SizedTerminal, n: u16)
        requires fits { AreSides terminal.old.display.grid.width self.now }
        ensures { terminal.new ≡ record terminal.old { display = between.cursor_backward n self.now terminal.old.display } }
    {
        let cursor = terminal.cursor();
        let col = cursor
            .col
            .saturating_sub(n as usize)
            .max(self.first_reached(terminal));
        terminal.move_to(cursor.row, col);
    }

    /// Carries out CHA and HPA: moves the cursor to a column, which under DECOM counts from the left margin.
    pub(crate) fn cursor_character_absolute(&self, terminal: &mut SizedTerminal, n: u16)
        requires fits { AreSides terminal.old.display.grid.width self.now }
        requires some { 1 ≤ n }
        ensures { terminal.new ≡ record terminal.old { display = between.cursor_character_absolute n self.now terminal.old.display } }
    {
        let col = self.column_of(terminal, n as usize);
        terminal.move_to(terminal.cursor().row, col);
    }

    /// Carries out CUP and HVP: moves the cursor to a line and a column, which under DECOM count from the margins.
    pub(crate) fn cursor_position(&self, terminal: &mut SizedTerminal, line: u16, col: u16)
        requires fits { AreSides terminal.old.display.grid.width self.now }
        ensures { terminal.new ≡ record terminal.old { display = between.cursor_position line col self.now terminal.old.display } }
    {
        terminal.soundness();
        let line = (line as usize).max(1);
        let margins = terminal.margins();
        let row = if terminal.modes().decom {
            (margins.top + line - 1).min(margins.bottom)
        } else {
            line.min(terminal.size().rows)
        };
        let col = self.column_of(terminal, (col as usize).max(1));
        terminal.move_to(row, col);
    }

    /// Carries out HPR: moves the cursor right by `n`, not past the last column, or under DECOM not past the right
    /// margin.
    pub(crate) fn character_position_forward(&self, terminal: &mut SizedTerminal, n: u16)
        requires fits { AreSides terminal.old.display.grid.width self.now }
        ensures { terminal.new ≡ record terminal.old { display = between.character_position_forward n self.now terminal.old.display } }
    {
        let cursor = terminal.cursor();
        let last = if terminal.modes().decom {
            self.right
        } else {
            terminal.width()
        };
        terminal.move_to(cursor.row, (cursor.col + n as usize).min(last));
    }

    /// Carries out IND: moves the cursor down by one, not past the last row. At the bottom margin it stays. If it is
    /// between left and right margin, the rows between all four margins move up.
    pub(crate) fn index(&self, terminal: &mut SizedTerminal)
        requires fits { AreSides terminal.old.display.grid.width self.now }
        ensures { terminal.new ≡ record terminal.old { display = between.index self.now terminal.old.display } }
    {
        let cursor = terminal.cursor();
        let margins = terminal.margins();
        if cursor.row != margins.bottom {
            let row = (cursor.row + 1).min(terminal.size().rows);
            terminal.move_to(row, cursor.col);
            return;
        }
        if self.is_between(terminal) {
            terminal.columns_up(margins.top, self.left, self.right, 1);
        }
        terminal.move_to(cursor.row, cursor.col);
    }

    /// Carries out RI: moves the cursor up by one, not past row 1. At the top margin it stays. If it is between left
    /// and right margin, the rows between all four margins move down.
    pub(crate) fn reverse_index(&self, terminal: &mut SizedTerminal)
        requires fits { AreSides terminal.old.display.grid.width self.now }
        ensures { terminal.new ≡ record terminal.old { display = between.reverse_index self.now terminal.old.display } }
    {
        let cursor = terminal.cursor();
        let margins = terminal.margins();
        if cursor.row != margins.top {
            terminal.move_to((cursor.row - 1).max(1), cursor.col);
            return;
        }
        if self.is_between(terminal) {
            terminal.columns_down(margins.top, self.left, self.right, 1);
        }
        terminal.move_to(cursor.row, cursor.col);
    }

    /// Carries out NEL: IND, and then CR.
    pub(crate) fn next_line(&self, terminal: &mut SizedTerminal)
        requires fits { AreSides terminal.old.display.grid.width self.now }
        ensures { terminal.new ≡ record terminal.old { display = between.next_line self.now terminal.old.display } }
    {
        self.index(terminal);
        self.carriage_return(terminal);
    }

    /// Carries out LF, VT and FF: IND, and under LNM also CR.
    pub(crate) fn line_feed(&self, terminal: &mut SizedTerminal)
        requires fits { AreSides terminal.old.display.grid.width self.now }
        ensures { terminal.new ≡ record terminal.old { display = between.line_feed self.now terminal.old.display } }
    {
        if terminal.modes().lnm {
            self.next_line(terminal);
        } else {
            self.index(terminal);
        }
    }

    /// Carries out SU: moves the rows between all four margins up by `n`, wherever the cursor is.
    pub(crate) fn rows_up(&self, terminal: &mut SizedTerminal, n: u16)
        requires fits { AreSides terminal.old.display.grid.width self.now }
        requires some { 1 ≤ n }
        ensures { terminal.new ≡ record terminal.old { display = between.rows_up n self.now terminal.old.display } }
    {
        let top = terminal.margins().top;
        terminal.soundness();
        terminal.columns_up(top, self.left, self.right, n);
    }

    /// Carries out SD: moves the rows between all four margins down by `n`, wherever the cursor is.
    pub(crate) fn rows_down(&self, terminal: &mut SizedTerminal, n: u16)
        requires fits { AreSides terminal.old.display.grid.width self.now }
        requires some { 1 ≤ n }
        ensures { terminal.new ≡ record terminal.old { display = between.rows_down n self.now terminal.old.display } }
    {
        let top = terminal.margins().top;
        terminal.soundness();
        terminal.columns_down(top, self.left, self.right, n);
    }

    /// Returns whether the cursor is between all four margins.
    pub(crate) fn is_enclosed(&self, terminal: &SizedTerminal) -> bool
        ensures value { result ≡ between.is_enclosed self.now terminal.now.display }
        ensures row { OnTrue result (terminal.now.display.cursor.row ≤ terminal.now.display.margins.bottom) }
    {
        let row = terminal.cursor().row;
        let margins = terminal.margins();
        margins.top <= row && row <= margins.bottom && self.is_between(terminal)
    }

    /// Carries out IL between all four margins: inserts `n` blank rows at the cursor's row, and moves the cursor to the
    /// left margin.
    pub(crate) fn insert_line(&self, terminal: &mut SizedTerminal, n: u16)
        requires fits { AreSides terminal.old.display.grid.width self.now }
        requires some { 1 ≤ n }
        requires row { terminal.old.display.cursor.row ≤ terminal.old.display.margins.bottom }
        ensures { terminal.new ≡ record terminal.old { display = between.insert_line n self.now terminal.old.display } }
    {
        let row = terminal.cursor().row;
        terminal.columns_down(row, self.left, self.right, n);
        terminal.move_to(row, self.left);
    }

    /// Carries out DL between all four margins: deletes `n` rows starting at the cursor's row, and moves the cursor to
    /// the left margin.
    pub(crate) fn delete_line(&self, terminal: &mut SizedTerminal, n: u16)
        requires fits { AreSides terminal.old.display.grid.width self.now }
        requires some { 1 ≤ n }
        requires row { terminal.old.display.cursor.row ≤ terminal.old.display.margins.bottom }
        ensures { terminal.new ≡ record terminal.old { display = between.delete_line n self.now terminal.old.display } }
    {
        let row = terminal.cursor().row;
        terminal.columns_up(row, self.left, self.right, n);
        terminal.move_to(row, self.left);
    }

    /// Carries out ICH between the margins: inserts `n` blank cells at the cursor, up to the right margin. Outside the
    /// margins it only resets the wrap flag.
    pub(crate) fn insert_character(&self, terminal: &mut SizedTerminal, n: u16)
        requires fits { AreSides terminal.old.display.grid.width self.now }
        requires some { 1 ≤ n }
        ensures { terminal.new ≡ record terminal.old { display = between.insert_character n self.now terminal.old.display } }
    {
        let cursor = terminal.cursor();
        if self.is_between(terminal) {
            terminal.insert_between(self.right, n);
        }
        terminal.move_to(cursor.row, cursor.col);
    }

    /// Carries out DCH between the margins: deletes `n` cells starting at the cursor, up to the right margin.
    pub(crate) fn delete_character(&self, terminal: &mut SizedTerminal, n: u16)
        requires fits { AreSides terminal.old.display.grid.width self.now }
        requires some { 1 ≤ n }
        ensures { terminal.new ≡ record terminal.old { display = between.delete_character n self.now terminal.old.display } }
    {
        if self.is_between(terminal) {
            let cursor = terminal.cursor();
            terminal.delete_between(self.right, n);
            terminal.move_to(cursor.row, cursor.col);
        }
    }

    /// Carries out a pending wrap.
    fn carry_out_wrap(&self, terminal: &mut SizedTerminal)
        requires fits { AreSides terminal.old.display.grid.width self.now }
        ensures { terminal.new ≡ record terminal.old { display = between.after_wrap self.now terminal.old.display } }
    {
        if self.is_pending(terminal) {
            self.index(terminal);
            terminal.move_to(terminal.cursor().row, self.left);
        }
    }

    /// Writes a glyph, after a pending wrap. Returns the margins with the wrap that is pending after it.
    pub(crate) fn write_glyph(&self, terminal: &mut SizedTerminal, glyph: Glyph) -> Sides
        requires fits { AreSides terminal.old.display.grid.width self.now }
        ensures terminal { terminal.new ≡ record terminal.old { display = between.write_glyph glyph self.now terminal.old.display } }
        ensures sides { result ≡ between.sides_after self.now terminal.old.display }
    {
        self.carry_out_wrap(terminal);
        let inserts = terminal.modes().irm && self.is_between(terminal);
        let col = terminal.cursor().col;
        let is_last = col == self.right && self.right < terminal.width();
        let last = self.last_reached(terminal);
        terminal.put_glyph(glyph, last, inserts);
        Sides {
            left: self.left,
            right: self.right,
            wrap: terminal.modes().decawm && is_last,
        }
    }

    /// Returns whether one cell is left in the row, up to the last column that the cursor reaches.
    pub(crate) fn has_one_cell_left(&self, terminal: &SizedTerminal) -> bool
        ensures { result ≡ is_at_end self.now terminal.now.display }
    {
        terminal.cursor().col == self.last_reached(terminal) && !self.is_pending(terminal)
    }

    /// Carries out CNL: CUD, and then CR.
    pub(crate) fn cursor_next_line(&self, terminal: &mut SizedTerminal, n: u16)
        requires fits { AreSides terminal.old.display.grid.width self.now }
        ensures { terminal.new ≡ record terminal.old { display = between.cursor_next_line n self.now terminal.old.display } }
    {
        let cursor = terminal.cursor();
        let bottom = terminal.margins().bottom;
        let limit = if cursor.row <= bottom {
            bottom
        } else {
            terminal.size().rows
        };
        terminal.move_to((cursor.row + n as usize).min(limit), cursor.col);
        self.carriage_return(terminal);
    }

    /// Carries out CPL: CUU, and then CR.
    pub(crate) fn cursor_preceding_line(&self, terminal: &mut SizedTerminal, n: u16)
        requires fits { AreSides terminal.old.display.grid.width self.now }
        ensures { terminal.new ≡ record terminal.old { display = between.cursor_preceding_line n self.now terminal.old.display } }
    {
        let cursor = terminal.cursor();
        let top = terminal.margins().top;
        let limit = if top <= cursor.row { top } else { 1 };
        terminal.move_to(cursor.row.saturating_sub(n as usize).max(limit), cursor.col);
        self.carriage_return(terminal);
    }

    /// Carries out HT: moves the cursor to the next stop, not past the right margin. From right of that margin the
    /// cursor goes back to it. `out` stays, and has capacity for ten more bytes.
    pub(crate) fn horizontal_tab(&self, terminal: &mut SizedTerminal, out: &mut Vec<u8>)
        requires fits { AreSides terminal.old.display.grid.width self.now }
        requires room { vec_len out.old + 10 ≤ vec_capacity out.old }
        ensures terminal { terminal.new ≡ record terminal.old { display = between.horizontal_tab self.now terminal.old.display } }
        ensures out { out.new.items ≡ out.old.items }
        ensures len { vec_len out.new ≡ vec_len out.old }
        ensures capacity { vec_capacity out.old ≤ vec_capacity out.new }
    {
        forward_tab(terminal, out);
        let cursor = terminal.cursor();
        terminal.move_to(cursor.row, cursor.col.min(self.right));
    }

    /// Carries out HT and CHT under a pending wrap. Returns the margins with the wrap that is pending at the right one.
    pub(crate) fn wait(&self, terminal: &mut SizedTerminal) -> Sides
        requires fits { AreSides terminal.old.display.grid.width self.now }
        ensures terminal { terminal.new ≡ record terminal.old { display = between.wrap_waiting self.now terminal.old.display } }
        ensures sides { result ≡ record self.now { wrap = nat_lt self.now.right terminal.old.display.grid.width } }
    {
        let wrap = self.right < terminal.width();
        if wrap {
            terminal.move_to(terminal.cursor().row, self.right);
        }
        Sides {
            left: self.left,
            right: self.right,
            wrap,
        }
    }

    /// Carries out CHT: HT `n` times. `out` stays, and has capacity for ten more bytes.
    pub(crate) fn cursor_forward_tabulation(
        &self,
        terminal: &mut SizedTerminal,
        n: u16,
        out: &mut Vec<u8>,
    )
        requires fits { AreSides terminal.old.display.grid.width self.now }
        requires room { vec_len out.old + 10 ≤ vec_capacity out.old }
        ensures terminal { terminal.new
            ≡ record terminal.old { display = between.cursor_forward_tabulation n self.now terminal.old.display } }
        ensures out { out.new.items ≡ out.old.items }
        ensures len { vec_len out.new ≡ vec_len out.old }
        ensures capacity { vec_capacity out.old ≤ vec_capacity out.new }
    {
        let count = (n as usize).min(terminal.width());
        for _ in 0..count {
            self.horizontal_tab(terminal, out);
        }
    }

    /// Moves the cursor to the stop before it, and under DECOM not left of the left margin.
    fn back_tab(&self, terminal: &mut SizedTerminal)
        requires fits { AreSides terminal.old.display.grid.width self.now }
        ensures { terminal.new ≡ record terminal.old { display = between.back_tab self.now terminal.old.display } }
    {
        let cursor = terminal.cursor();
        terminal.soundness();
        let first = if terminal.modes().decom { self.left } else { 1 };
        let col = stop_before(terminal.stops(), cursor.col).max(first);
        terminal.move_to(cursor.row, col);
    }

    /// Carries out CBT: moves the cursor to the stop before it, `n` times.
    pub(crate) fn cursor_backward_tabulation(&self, terminal: &mut SizedTerminal, n: u16)
        requires fits { AreSides terminal.old.display.grid.width self.now }
        ensures { terminal.new
            ≡ record terminal.old { display = between.cursor_backward_tabulation n self.now terminal.old.display } }
    {
        let count = (n as usize).min(terminal.width());
        for _ in 0..count {
            self.back_tab(terminal);
        }
    }
}
