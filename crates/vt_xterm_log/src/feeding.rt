//! Feeding with the lines that scroll off.
ghost use Rattle.std.specs.Prelude.{◌≡◌, ◌≤◌, ◌<◌, ◌+◌, ◌*◌, ◌++◌, ◌⊎◌, length, take, vec_len, vec_capacity, OnOk, OnErr, IsOk};
ghost use Rattle.vt_screen.specs.Sizes.{IsSize};
ghost use Rattle.vt_xterm_display.specs.Resizing.{xterm_off};
ghost use Rattle.vt_xterm_display.specs.Session.{PlaysXterm};
ghost use Rattle.vt_xterm_display.specs.Text.{xterm_row_limit};
ghost use Rattle.vt_xterm_log.specs.Log.{log_of, log_on, xterm_lines_limit};

use crate::observer::Log;
use std::alloc::AllocError;
use vt_screen::Size;
use vt_xterm_display::{Xterm, push_rows};

/// Returns the capacity for lines without which a feed with a log stops: the most bytes of lines for one byte.
pub fn xterm_lines_limit(size: Size) -> usize
    requires { IsSize size }
    ensures { result ≡ xterm_lines_limit size }
{
    2 * (size.rows * (12 * size.wide + 1))
}

/// Plays the front of a chunk of the host's bytes, in UTF-8. It appends the reports to `reports`, and at most `most` bytes of the
/// lines that scroll off the main page to `lines`. Returns how many bytes it played. A line is the text of a row in UTF-8, without
/// the spaces at its end, and LF.
///
/// If it stops early, `lines` has fewer than `xterm_lines_limit` bytes free, or fewer of `most` are left. `reports` has capacity for
/// ten more bytes for each byte of the chunk. It never fails and allocates nothing.
pub fn feed_log_reserved(
    xterm: &mut Xterm,
    piece: &[u8],
    reports: &mut Vec<u8>,
    lines: &mut Vec<u8>,
    most: usize,
) -> usize
    requires room { vec_len reports.old + 10 * length piece.now ≤ vec_capacity reports.old }
    ensures within { result ≤ length piece.now }
    ensures all { result < length piece.now
        → (vec_capacity lines.new < vec_len lines.new + xterm_lines_limit xterm.old.screen.shown.grid.size)
        ⊎ (vec_len lines.old + most < vec_len lines.new + xterm_lines_limit xterm.old.screen.shown.grid.size) }
    ensures plays { PlaysXterm xterm.old (take result piece.now) xterm.new reports.old.items reports.new.items }
    ensures lines { lines.new.items ≡ lines.old.items ++ log_of xterm.old (take result piece.now) }
    ensures reports_bounded { vec_len reports.new ≤ vec_len reports.old + 10 * result }
    ensures lines_bounded { vec_len lines.new ≤ vec_len lines.old + most }
    ensures reports_capacity { vec_capacity reports.old ≤ vec_capacity reports.new }
    ensures lines_capacity { vec_capacity lines.old ≤ vec_capacity lines.new }
{
    let end = lines.len().saturating_add(most);
    let limit = xterm.text_limit();
    xterm.screen().soundness();
    let mut log = Log { lines, limit, end };
    xterm.feed_observed(piece, &mut log, reports)
}

/// Appends to `lines` what a change to another size adds to the log: the text of each row that leaves the main page at the top,
/// whether that page is shown or not.
///
/// It first reserves the capacity for these rows. Returns `Err` if that fails. Then the contents of `lines` are unchanged.
pub fn lines_on(xterm: &Xterm, size: Size, lines: &mut Vec<u8>) -> Result<(), AllocError>
    ensures ok { OnOk result (lines.new.items ≡ lines.old.items ++ log_on size xterm.now.screen) }
    ensures err { OnErr result (lines.new.items ≡ lines.old.items) }
    ensures has_room { vec_len lines.old + xterm_off size xterm.now.screen * xterm_row_limit xterm.now.screen.shown.grid.size
        ≤ vec_capacity lines.old → IsOk result }
    ensures bounded { vec_len lines.new
        ≤ vec_len lines.old + xterm_off size xterm.now.screen * xterm_row_limit xterm.now.screen.shown.grid.size }
    ensures capacity { vec_capacity lines.old ≤ vec_capacity lines.new }
{
    let screen = xterm.screen();
    let line = 12 * screen.shown.screen.size().wide + 1;
    if screen.alternate {
        let count = screen.other.saved.row.saturating_sub(size.rows);
        lines.reserve(count * line)?;
        push_rows(&screen.other.screen, count, lines);
    } else {
        let count = screen.shown.count_off(size);
        lines.reserve(count * line)?;
        push_rows(&screen.shown.screen, count, lines);
    }
    Ok(())
}
