//! The screen as text with its attributes.
ghost use Rattle.std.specs.Prelude.{◌≡◌, ◌+◌, ◌*◌, ◌≤◌, ◌++◌, length, vec_len, vec_capacity, OnOk, OnErr, IsOk};
ghost use Rattle.vt_picture.specs.Show.{change, rendition_sequence, shown_line, show};
ghost use Rattle.vt_picture.specs.Limits.{show_limit};

use crate::limits::show_limit;
use crate::line::{LINE, push_cells, put_rendition};
use crate::looks::without_blank_end;
use std::alloc::AllocError;
use vt_paint::push_bytes;
use vt_screen::{Cell, MOST, Rendition};
use vt_term::{ROWS, STOPS, SizedTerminal};

/// The limit of a VT220's screen with its attributes in bytes. Each row has twelve for attributes and four for a character for
/// each of 132 cells, twelve for the attributes at its end, and LF.
pub const SHOW_LIMIT: usize = ROWS * (16 * STOPS + 13);

const _: () = prove!(SHOW_LIMIT == 51000);

/// Appends SGR with 0 and the attributes that are set.
pub fn push_rendition(look: Rendition, out: &mut Vec<u8>)
    requires { vec_len out.old + 12 ≤ vec_capacity out.old }
    ensures items { out.new.items ≡ out.old.items ++ rendition_sequence look }
    ensures bounded { vec_len out.new ≤ vec_len out.old + 12 }
    ensures capacity { vec_capacity out.old ≤ vec_capacity out.new }
{
    let mut bytes = [0; 12];
    let end = put_rendition(look, 0, &mut bytes);
    push_bytes(&bytes[..end], out);
}

/// Appends SGR if the attributes change.
pub fn push_change(before: Rendition, after: Rendition, out: &mut Vec<u8>)
    requires { vec_len out.old + 12 ≤ vec_capacity out.old }
    ensures items { out.new.items ≡ out.old.items ++ change before after }
    ensures bounded { vec_len out.new ≤ vec_len out.old + 12 }
    ensures capacity { vec_capacity out.old ≤ vec_capacity out.new }
{
    if before != after {
        push_rendition(after, out);
    }
}

/// Appends a row without the blank cells at its end, and LF.
fn push_shown_line(cells: &[Cell], line: &mut [u8; LINE], out: &mut Vec<u8>)
    requires len { length cells.now ≤ MOST }
    requires room { vec_len out.old + 16 * length cells.now + 13 ≤ vec_capacity out.old }
    ensures items { out.new.items ≡ out.old.items ++ shown_line cells.now }
    ensures bounded { vec_len out.new ≤ vec_len out.old + 16 * length cells.now + 13 }
    ensures capacity { vec_capacity out.old ≤ vec_capacity out.new }
{
    push_cells(without_blank_end(cells), line, out);
}

/// Appends the screen to `out` as text with its attributes, for modern terminals. Each row is in UTF-8, without the
/// blank cells at its end, and ends in LF. SGR comes before each change of attributes, and resets them at the end of a
/// row.
///
/// It first reserves `show_limit` bytes of capacity. Returns `Err` if that fails. Then the contents of `out` are
/// unchanged.
pub fn show(t: &SizedTerminal, out: &mut Vec<u8>) -> Result<(), AllocError>
    ensures ok { OnOk result (out.new.items ≡ out.old.items ++ show t.now) }
    ensures err { OnErr result (out.new.items ≡ out.old.items) }
    ensures has_room { vec_len out.old + show_limit t.now.display.grid.size ≤ vec_capacity out.old → IsOk result }
    ensures bounded { vec_len out.new ≤ vec_len out.old + show_limit t.now.display.grid.size }
    ensures capacity { vec_capacity out.old ≤ vec_capacity out.new }
{
    out.reserve(show_limit(t.size()))?;
    show_reserved(t, out);
    Ok(())
}

/// Appends the screen to `out` as text with its attributes, as [`show`] does. `out` has capacity for `show_limit` more
/// bytes. It never fails and allocates nothing.
pub fn show_reserved(t: &SizedTerminal, out: &mut Vec<u8>)
    requires { vec_len out.old + show_limit t.now.display.grid.size ≤ vec_capacity out.old }
    ensures items { out.new.items ≡ out.old.items ++ show t.now }
    ensures bounded { vec_len out.new ≤ vec_len out.old + show_limit t.now.display.grid.size }
    ensures capacity { vec_capacity out.old ≤ vec_capacity out.new }
{
    let mut line = [0; LINE];
    for row in 1..t.size().rows + 1 {
        push_shown_line(t.row(row), &mut line, out);
    }
}
