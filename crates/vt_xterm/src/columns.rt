//! Moving the cursor, by functions that a VT220 lacks.
ghost use Rattle.std.specs.Prelude.{◌≡◌, ◌≤◌};
ghost use Rattle.vt_term.specs.Moving.{cursor_forward};
ghost use Rattle.vt_xterm.specs.Columns.{cursor_character_absolute, line_position_absolute, line_position_forward};
ghost use Rattle.vt_xterm.specs.Columns.{cursor_next_line, cursor_preceding_line};

use vt_term::SizedTerminal;

/// Carries out CHA and HPA: moves the cursor to a column, not past the last one.
pub(crate) fn cursor_character_absolute(terminal: &mut SizedTerminal, n: u16)
    requires { 1 ≤ n }
    ensures { terminal.new ≡ record terminal.old { display = cursor_character_absolute n terminal.old.display } }
{
    let col = (n as usize).min(terminal.width());
    terminal.move_to(terminal.cursor().row, col);
}

/// Carries out HPR: moves the cursor right by `n`, not past the last column.
pub(crate) fn character_position_forward(terminal: &mut SizedTerminal, n: u16)
    ensures { terminal.new ≡ record terminal.old { display = cursor_forward n terminal.old.display } }
{
    let cursor = terminal.cursor();
    let col = (cursor.col + n as usize).min(terminal.width());
    terminal.move_to(cursor.row, col);
}

/// Carries out VPA: moves the cursor to a line. Under DECOM lines count from the top margin.
pub(crate) fn line_position_absolute(terminal: &mut SizedTerminal, n: u16)
    requires { 1 ≤ n }
    ensures { terminal.new ≡ record terminal.old { display = line_position_absolute n terminal.old.display } }
{
    let col = terminal.cursor().col;
    let margins = terminal.margins();
    let row = if terminal.modes().decom {
        (margins.top + n as usize - 1).min(margins.bottom)
    } else {
        (n as usize).min(terminal.size().rows)
    };
    terminal.move_to(row, col);
}

/// Carries out VPR: moves the cursor down by `n`, not past the last row, or under DECOM not past the bottom margin.
pub(crate) fn line_position_forward(terminal: &mut SizedTerminal, n: u16)
    ensures { terminal.new ≡ record terminal.old { display = line_position_forward n terminal.old.display } }
{
    let cursor = terminal.cursor();
    let last = if terminal.modes().decom {
        terminal.margins().bottom
    } else {
        terminal.size().rows
    };
    terminal.move_to((cursor.row + n as usize).min(last), cursor.col);
}

/// Carries out CNL: CUD, and then CR.
pub(crate) fn cursor_next_line(terminal: &mut SizedTerminal, n: u16)
    ensures { terminal.new ≡ record terminal.old { display = cursor_next_line n terminal.old.display } }
{
    let row = terminal.cursor().row;
    let bottom = terminal.margins().bottom;
    let limit = if row <= bottom {
        bottom
    } else {
        terminal.size().rows
    };
    terminal.move_to((row + n as usize).min(limit), 1);
}

/// Carries out CPL: CUU, and then CR.
pub(crate) fn cursor_preceding_line(terminal: &mut SizedTerminal, n: u16)
    ensures { terminal.new ≡ record terminal.old { display = cursor_preceding_line n terminal.old.display } }
{
    let row = terminal.cursor().row;
    let top = terminal.margins().top;
    let limit = if top <= row { top } else { 1 };
    terminal.move_to(row.saturating_sub(n as usize).max(limit), 1);
}
