//! Prints the cells of an xterm after the steps of standard input, for tests.
//!
//! A step has the columns and the rows of the screen, 2 to 255, the number of its bytes in two bytes, the low one first, and these bytes. Another size
//! than before is a change of the size, and then the bytes are played. Each cell that isn't a plain blank has a line: its row and column, the numbers of
//! its character and of its marks, 1 if it is wide, its foreground, its background, its attributes as bits, and 1 if it is protected. A colour is -1 for the
//! default, an index, or 256 and red, green and blue as one number. The second cell of a wide character has the character 0. The line after the cells
//! has the cursor, whether a wrap is pending, and the modes. The next line has the number of bytes of the log: of the lines that scrolled off, or
//! left at the top by a change of the size. After it come these lines, and then the text of the screen.
#![tactic(auto)]

ghost use Rattle.std.specs.Prelude.{IfSome};
ghost use Rattle.vt_screen.specs.Sizes.{IsSize};

use std::alloc::{AllocError, Global};
use std::io::{self, Input, Read, Write};
use vt_screen::Size;
use vt_xterm_cell::{Attributes, Colour, XtermCell};
use vt_xterm_display::{Coding, Mouse, Shape, Xterm};
use vt_xterm_log::{feed_log_reserved, lines_on, xterm_lines_limit};

/// Returns a colour as a number: -1 for the default, an index, or 256 and red, green and blue.
fn number_of(colour: Colour) -> i64 {
    match colour {
        Colour::Default => -1,
        Colour::Indexed(index) => index as i64,
        Colour::Rgb(red, green, blue) => 256
            + red as i64 * 65536
            + green as i64 * 256
            + blue as i64,
    }
}

/// Returns attributes as bits, in the order in which `Attributes` has them.
fn bits_of(a: Attributes) -> u32 {
    a.bold as u32
        + 2 * a.faint as u32
        + 4 * a.italic as u32
        + 8 * a.underlined as u32
        + 16 * a.doubly_underlined as u32
        + 32 * a.blinking as u32
        + 64 * a.reverse as u32
        + 128 * a.invisible as u32
        + 256 * a.crossed_out as u32
}

/// Returns the number of the mode of the mouse, or 0.
fn mouse_number(mouse: Mouse) -> u32 {
    match mouse {
        Mouse::Off => 0,
        Mouse::Presses => 9,
        Mouse::Buttons => 1000,
        Mouse::Drags => 1002,
        Mouse::Motion => 1003,
    }
}

/// Returns the number of the mode of a coding, or 0.
fn coding_number(coding: Coding) -> u32 {
    match coding {
        Coding::Bytes => 0,
        Coding::Utf8 => 1005,
        Coding::Sgr => 1006,
        Coding::Urxvt => 1015,
        Coding::Pixels => 1016,
    }
}

/// Returns 0 for a block, 1 for an underline, 2 for a bar.
fn shape_number(shape: Shape) -> u32 {
    match shape {
        Shape::Block => 0,
        Shape::Underline => 1,
        Shape::Bar => 2,
    }
}

/// Prints a cell, unless it is a plain blank.
fn print_cell(rt: &impl Print, row: usize, col: usize, cell: XtermCell) -> io::Result<()> {
    if cell.same(&XtermCell::blank()) {
        return Ok(());
    }
    let (character, mark, other) = (cell.character(), cell.mark(), cell.other_mark());
    let (wide, protected) = (cell.is_wide() as u32, cell.is_protected() as u32);
    let (ink, paper) = (number_of(cell.foreground()), number_of(cell.background()));
    let bits = bits_of(cell.attributes());
    println!(rt; "{row} {col} {character} {mark} {other} {wide} {ink} {paper} {bits} {protected}")
}

/// Prints the cells of a row.
fn print_row(rt: &impl Print, row: usize, cells: &[XtermCell]) -> io::Result<()> {
    for (i, cell) in cells.iter().enumerate() {
        print_cell(rt, row, i + 1, *cell)?;
    }
    Ok(())
}

/// Prints the cursor, whether a wrap is pending, and the modes.
fn print_state(rt: &impl Print, terminal: &Xterm) -> io::Result<()> {
    let cursor = terminal.cursor();
    let settings = terminal.settings();
    let (row, col, wrap) = (cursor.row, cursor.col, cursor.wrap as u32);
    let alternate = terminal.is_alternate() as u32;
    let hidden = !terminal.modes().dectcem as u32;
    let (mouse, coding) = (mouse_number(settings.mouse), coding_number(settings.coding));
    let shape = shape_number(settings.shape);
    let (focus, paste, blinks) = (
        settings.focus as u32,
        settings.brackets as u32,
        settings.blinks as u32,
    );
    println!(rt;
        "state {row} {col} {wrap} {alternate} {hidden} {mouse} {coding} {focus} {paste} {shape} {blinks}"
    )
}

/// Returns the size that a step names, if a screen may have it.
fn size_of(columns: u8, rows: u8) -> Option<Size>
    ensures { IfSome result (λ size. IsSize size) }
{
    if columns < 2 {
        return None;
    }
    if rows < 2 {
        return None;
    }
    Some(Size {
        rows: rows as usize,
        narrow: columns as usize,
        wide: columns as usize,
    })
}

/// Plays bytes, and appends the lines that scroll off to `lines`. The reports are dropped. Returns `Err` if allocation fails.
fn feed(
    terminal: &mut Xterm,
    sent: &[u8],
    reports: &mut Vec<u8>,
    lines: &mut Vec<u8>,
) -> Result<(), AllocError> {
    let mut rest = sent;
    for _ in 0..sent.len() {
        reports.clear();
        let Some(room) = rest.len().checked_mul(10) else {
            return Err(AllocError);
        };
        reports.reserve(room)?;
        lines.reserve(xterm_lines_limit(terminal.size()))?;
        let played = feed_log_reserved(terminal, rest, reports, lines, usize::MAX);
        rest = &rest[played..];
    }
    Ok(())
}

/// Changes the size of an xterm, unless it has that size, and plays bytes. Returns `Err` if allocation fails.
fn play(
    alloc: Global,
    terminal: &mut Xterm,
    size: Size,
    sent: &[u8],
    reports: &mut Vec<u8>,
    lines: &mut Vec<u8>,
) -> Result<(), AllocError>
    requires { IsSize size }
{
    if size != terminal.size() {
        lines_on(terminal, size, lines)?;
        let mut made = Xterm::new(alloc, size)?;
        terminal.resize_into(&mut made);
        *terminal = made;
    }
    feed(terminal, sent, reports, lines)
}

/// Carries out steps, up to one that isn't complete. Returns `Err` if allocation fails.
fn play_steps(
    alloc: Global,
    terminal: &mut Xterm,
    steps: &[u8],
    reports: &mut Vec<u8>,
    lines: &mut Vec<u8>,
) -> Result<(), AllocError> {
    let mut rest = steps;
    for _ in 0..steps.len() {
        if rest.len() < 4 {
            return Ok(());
        }
        let Some(size) = size_of(rest[0], rest[1]) else {
            return Ok(());
        };
        let end = (4 + rest[2] as usize + 256 * rest[3] as usize).min(rest.len());
        play(alloc, terminal, size, &rest[4..end], reports, lines)?;
        rest = &rest[end..];
    }
    Ok(())
}

/// Prints the cells and the state.
fn print_screen(rt: &impl Print, terminal: &Xterm) -> io::Result<()> {
    for row in 1..=terminal.size().rows {
        print_row(rt, row, terminal.row(row))?;
    }
    print_state(rt, terminal)
}

fn main(rt: HostRuntime) -> io::Result<()> {
    let mut steps = Vec::new(rt.alloc());
    rt.reader().read_to_end(&mut steps)?;
    if steps.len() < 2 {
        return Ok(());
    }
    let Some(size) = size_of(steps[0], steps[1]) else {
        return Ok(());
    };
    let mut terminal = Xterm::new(rt.alloc(), size)?;
    let mut reports = Vec::new(rt.alloc());
    let mut lines = Vec::new(rt.alloc());
    play_steps(rt.alloc(), &mut terminal, &steps, &mut reports, &mut lines)?;
    print_screen(&rt, &terminal)?;
    let log_len = lines.len();
    println!(rt; "log {log_len}")?;
    let mut text = Vec::new(rt.alloc());
    terminal.text(&mut text)?;
    let mut writer = io::writer(&rt);
    writer.write_all(&lines)?;
    writer.write_all(&text)?;
    writer.flush()
}
