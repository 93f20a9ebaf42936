//! The constants of the crates that lib/c/include/vt220.h repeats.
use std::io;
use vt_paint::PAINT_LIMIT;
use vt_picture::{DRAW_LIMIT, PICTURE_LIMIT, SHOW_LIMIT};
use vt_screen::{COLUMNS, ROWS};
use vt_term::{REPORT_LIMIT, ROW_TEXT_LIMIT, TEXT_LIMIT};
use vt_update::UPDATE_LIMIT;
use vt_utf8::BYTE_LIMIT;
use vt_xterm_paint::XTERM_PAINT_LIMIT;

/// The capacity for lines without which a feed of UTF-8 with a log stops.
const UTF8_LINES_LIMIT: usize = BYTE_LIMIT * ROW_TEXT_LIMIT;

/// The capacity for lines without which a feed with a log stops under TERM=xterm: that of two screens.
const XTERM_LINES_LIMIT: usize = 2 * TEXT_LIMIT;

/// Prints each constant with the header's name.
pub(crate) fn print_limits(rt: &impl Print) -> io::Result<()> {
    println!(rt; "VT220_ROWS {ROWS}")?;
    println!(rt; "VT220_COLUMNS {COLUMNS}")?;
    println!(rt; "VT220_REPORT_LIMIT {REPORT_LIMIT}")?;
    println!(rt; "VT220_ROW_TEXT_LIMIT {ROW_TEXT_LIMIT}")?;
    println!(rt; "VT220_UTF8_LINES_LIMIT {UTF8_LINES_LIMIT}")?;
    println!(rt; "VT220_XTERM_LINES_LIMIT {XTERM_LINES_LIMIT}")?;
    println!(rt; "VT220_TEXT_LIMIT {TEXT_LIMIT}")?;
    println!(rt; "VT220_PAINT_LIMIT {PAINT_LIMIT}")?;
    println!(rt; "VT220_XTERM_PAINT_LIMIT {XTERM_PAINT_LIMIT}")?;
    println!(rt; "VT220_UPDATE_LIMIT {UPDATE_LIMIT}")?;
    println!(rt; "VT220_DRAW_LIMIT {DRAW_LIMIT}")?;
    println!(rt; "VT220_SHOW_LIMIT {SHOW_LIMIT}")?;
    println!(rt; "VT220_PICTURE_LIMIT {PICTURE_LIMIT}")
}
