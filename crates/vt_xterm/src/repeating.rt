//! REP, which repeats a glyph.
ghost use Rattle.std.specs.Prelude.{◌≡◌, ◌≤◌};
ghost use Rattle.vt_term.specs.Writing.{write_glyph};
ghost use Rattle.vt_xterm.specs.Repeating.{times, column_before, glyph_before, room, repeat};

use vt_term::{Glyph, SizedTerminal};

/// Returns the column before the cursor, or the cursor's own if the wrap flag is set. Returns 0 in column 1 without the
/// flag.
fn column_before(terminal: &SizedTerminal) -> usize
    ensures value { result ≡ column_before terminal.now.display }
    ensures inside { result ≤ terminal.now.display.grid.width }
{
    let cursor = terminal.cursor();
    if cursor.wrap {
        cursor.col
    } else {
        cursor.col - 1
    }
}

/// Returns the glyph in a column of the cursor's row.
fn glyph_before(terminal: &SizedTerminal, col: usize) -> Glyph
    requires some { 1 ≤ col }
    requires column { col ≡ column_before terminal.now.display }
    requires inside { col ≤ terminal.now.display.grid.width }
    ensures { result ≡ glyph_before terminal.now.display }
{
    let row = terminal.cursor().row;
    let cells = terminal.row(row);
    cells[col - 1].glyph
}

/// Returns the number of cells to the end of the row, or with the wrap flag those of a row.
fn room(terminal: &SizedTerminal) -> usize
    ensures { result ≡ room terminal.now.display }
{
    let cursor = terminal.cursor();
    if cursor.wrap {
        terminal.width()
    } else {
        terminal.width() - cursor.col + 1
    }
}

/// Writes a glyph so many times.
fn write_times(terminal: &mut SizedTerminal, glyph: Glyph, n: usize)
    ensures { terminal.new ≡ record terminal.old { display = times n (write_glyph glyph) terminal.old.display } }
{
    for _ in 0..n {
        terminal.write_glyph(glyph);
    }
}

/// Carries out REP: writes the glyph before the cursor `n` times, and not past the end of the row.
pub(crate) fn repeat(terminal: &mut SizedTerminal, n: u16)
    ensures { terminal.new ≡ record terminal.old { display = repeat n terminal.old.display } }
{
    let col = column_before(terminal);
    if col == 0 {
        return;
    }
    let glyph = glyph_before(terminal, col);
    let count = (n as usize).min(room(terminal));
    write_times(terminal, glyph, count);
}
