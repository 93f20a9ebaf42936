//! The places of a row that show something else than before.
ghost use Rattle.std.specs.Prelude.{◌≡◌, ◌+◌, ◌*◌, ◌≤◌, ◌++◌, length, vec_len, vec_capacity};
ghost use Rattle.vt_picture.specs.Limits.{place_limit};
ghost use Rattle.vt_picture.specs.Draw.{place_bytes, place_pen, row_bytes, row_pen};
ghost use Rattle.vt_picture.specs.Private.Looks.{former_cell, former, latter_cell, latter};

use crate::bytes::push_glyph;
use crate::drawing::looks::Looks;
use crate::drawing::pen::{Pen, push_go};
use crate::showing::push_change;
use vt_screen::{Cell, MOST, same_cells};

/// Appends a place if it shows something else than before. Returns the pen after it.
fn push_place(
    looks: Looks,
    row: usize,
    col: usize,
    old: &Cell,
    new: &Cell,
    pen: Pen,
    out: &mut Vec<u8>,
) -> Pen
    requires row { row ≤ MOST }
    requires col { col ≤ MOST }
    requires room { vec_len out.old + place_limit row ≤ vec_capacity out.old }
    ensures items { out.new.items ≡ out.old.items ++ place_bytes row col (former_cell looks old.now) (latter_cell looks new.now) pen }
    ensures pen { result ≡ place_pen row col (former_cell looks old.now) (latter_cell looks new.now) pen }
    ensures bounded { vec_len out.new ≤ vec_len out.old + place_limit row }
    ensures capacity { vec_capacity out.old ≤ vec_capacity out.new }
{
    let before = looks.former(old);
    let after = looks.latter(new);
    if before.glyph == after.glyph && before.rendition == after.rendition {
        return pen;
    }
    push_go(pen, row, col, out);
    push_change(pen.look, after.rendition, out);
    push_glyph(after.glyph, out);
    Pen {
        row,
        col: col + 1,
        look: after.rendition,
    }
}

/// Appends the places of a row that show something else than before. Returns the pen after them.
///
/// Speed: equal rows are compared four cells at a time.
pub(crate) fn push_row(
    looks: Looks,
    row: usize,
    old: &[Cell],
    new: &[Cell],
    pen: Pen,
    out: &mut Vec<u8>,
) -> Pen
    requires row { row ≤ MOST }
    requires same { length old.now ≡ length new.now }
    requires len { length new.now ≤ MOST }
    requires room { vec_len out.old + place_limit row * length new.now ≤ vec_capacity out.old }
    ensures items { out.new.items ≡ out.old.items ++ row_bytes row 1 (former looks old.now) (latter looks new.now) pen }
    ensures pen { result ≡ row_pen row 1 (former looks old.now) (latter looks new.now) pen }
    ensures bounded { vec_len out.new ≤ vec_len out.old + place_limit row * length new.now }
    ensures capacity { vec_capacity out.old ≤ vec_capacity out.new }
{
    if looks.keeps() && same_cells(old, new) {
        return pen;
    }
    let mut pen = pen;
    let mut i = 0;
    while i < new.len() {
        pen = push_place(looks, row, i + 1, &old[i], &new[i], pen, out);
        i += 1;
    }
    pen
}
