//! The edges of the calls. What a terminal does with them is in lib/rows.
use crate::rows::holds;
use std::alloc::{AllocError, Global};
use std::mem::size_of;
use vt_glyph::Glyph;
use vt_screen::{Brush, Cell, Screen};

/// Writes a text starting at a place, if it fits.
fn write(screen: &mut Screen, row: usize, column: usize, text: &[u8], like: &Cell) {
    let fits = 1 <= row
        && row <= screen.size().rows
        && 1 <= column
        && column <= screen.width()
        && text.len() <= screen.width() + 1 - column;
    if fits && text.iter().all(|code| *code >= 0x20 && *code <= 0x7E) {
        screen.put_run(row, column, text, *like);
    }
}

/// Returns whether a row shows a text, and spaces after it.
fn shows(screen: &Screen, row: usize, text: &str) -> bool {
    if row < 1 || screen.size().rows < row {
        return false;
    }
    let codes = text.as_bytes();
    for (i, cell) in screen.row(row).iter().enumerate() {
        let code = if i < codes.len() { codes[i] } else { b' ' };
        if cell.glyph.to_char() as u32 != code as u32 {
            return false;
        }
    }
    true
}

/// Returns whether a row has plain spaces alone.
fn is_blank(screen: &Screen, row: usize) -> bool {
    if row < 1 || screen.size().rows < row {
        return false;
    }
    for cell in screen.row(row) {
        if *cell != Cell::blank() {
            return false;
        }
    }
    true
}

/// Returns whether the first rows show these lines, and those below are blank, attributes and all.
fn shows_lines(screen: &Screen, lines: &[&str]) -> bool {
    for row in 1..25 {
        let is_so = match lines.get(row - 1) {
            Some(line) => shows(screen, row, line),
            None => is_blank(screen, row),
        };
        if !is_so {
            return false;
        }
    }
    true
}

/// Returns whether a new screen has 80 columns of spaces.
fn new_is_blank(alloc: Global) -> Result<bool, AllocError> {
    let screen = Screen::new(alloc)?;
    Ok(screen.width() == 80 && shows_lines(&screen, &[]))
}

#[test]
fn a_new_screen_is_narrow_and_blank(rt: HostRuntime) {
    holds(&rt, "blank", new_is_blank(rt.alloc()));
    holds(&rt, "the size of a cell", size_of::<Cell>() <= 8);
}

/// Writes letters in three corners of a wide screen.
fn write_corners(screen: &mut Screen) {
    screen.set_width(true);
    write(screen, 24, 1, b"a", &Cell::blank());
    write(screen, 24, 132, b"z", &Cell::blank());
    write(screen, 1, 1, b"A", &Cell::blank());
}

/// Moves by 0, writes no codes, and says whether the last row has its letters still.
fn stays_by_nothing(screen: &mut Screen) -> bool {
    if screen.size().rows != 24 || screen.width() != 132 {
        return false;
    }
    screen.scroll_up(1, 24, 0);
    screen.scroll_down(1, 24, 0);
    screen.insert_cells(24, 1, 0);
    screen.delete_cells(24, 132, 0);
    screen.put_run(24, 132, &[], Cell::blank());
    screen.cell(24, 1).glyph == Glyph::ascii(b'a')
        && screen.cell(24, 132).glyph == Glyph::ascii(b'z')
}

/// Writes and deletes in the last column, and says whether what was there is lost.
fn loses_the_last_column(screen: &mut Screen) -> bool {
    if screen.size().rows != 24 || screen.width() != 132 {
        return false;
    }
    let mark = Cell::new(Glyph::substitute(), Brush::plain());
    screen.put_inserting(24, 132, mark);
    let written = screen.cell(24, 132) == mark;
    screen.delete_cells(24, 132, 65535);
    written && screen.cell(24, 132) == Cell::blank()
}

/// Inserts more cells in the last row than there are, and scrolls a region of one row up and down.
fn clear_by_edges(screen: &mut Screen) {
    if screen.size().rows == 24 && screen.width() == 132 {
        screen.insert_cells(24, 1, 65535);
        screen.scroll_up(1, 1, 1);
        screen.put(1, 132, Cell::new(Glyph::substitute(), Brush::plain()));
        screen.scroll_down(1, 1, 65535);
    }
}

/// Returns whether the edges hold, and all is lost in the end.
fn edges_hold(alloc: Global) -> Result<bool, AllocError> {
    let mut screen = Screen::new(alloc)?;
    write_corners(&mut screen);
    let hold = stays_by_nothing(&mut screen)
        && loses_the_last_column(&mut screen)
        && shows(&screen, 1, "A");
    clear_by_edges(&mut screen);
    Ok(hold && shows_lines(&screen, &[]))
}

#[test]
fn the_edges_hold(rt: HostRuntime) {
    holds(&rt, "edges", edges_hold(rt.alloc()));
}

/// Returns whether a screen differs from a new one when it is filled and when it is wide, and not when it is narrow
/// again. So rows that are kept elsewhere are the same rows.
fn differs_while_changed(screen: &mut Screen, new: &Screen) -> bool {
    screen.fill(Cell::new(Glyph::ascii(b'E'), Brush::plain()));
    let is_same_filled = screen.same(new);
    screen.set_width(true);
    let is_same_wide = screen.same(new);
    screen.set_width(false);
    if screen.size().rows == 24 {
        screen.scroll_up(1, 24, 7);
    }
    !is_same_filled && !is_same_wide && screen.same(new)
}

/// Returns whether two new screens are the same, and differ while one is changed.
fn screens_differ(alloc: Global) -> Result<bool, AllocError> {
    let mut screen = Screen::new(alloc)?;
    let other = Screen::new(alloc)?;
    Ok(screen.same(&other) && differs_while_changed(&mut screen, &other))
}

#[test]
fn screens_compare(rt: HostRuntime) {
    holds(&rt, "screens", screens_differ(rt.alloc()));
}
