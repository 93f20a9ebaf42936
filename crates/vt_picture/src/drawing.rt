//! The bytes that make a modern terminal show a screen.
ghost use Rattle.std.specs.Prelude.{◌≡◌, ◌+◌, ◌*◌, ◌≤◌, ◌++◌, vec_len, vec_capacity, OnOk, OnErr, IsOk};
ghost use Rattle.vt_screen.specs.Grid.{row_of};
ghost use Rattle.vt_picture.specs.Draw.{shown, sized_draw, sized_draw_from, end_bytes, erase, rows_bytes, rows_pen};
ghost use Rattle.vt_picture.specs.Limits.{draw_limit, places_limit};
ghost use Rattle.vt_picture.specs.Private.Looks.{former, latter};

mod looks;
pub mod pen;
mod row;

use crate::drawing::looks::Looks;
use crate::drawing::pen::{Pen, push_go};
use crate::drawing::row::push_row;
use crate::limits::draw_limit;
use crate::showing::{push_change, push_rendition};
use std::alloc::AllocError;
use vt_paint::Function;
use vt_screen::Rendition;
use vt_term::{ROWS, STOPS, SizedTerminal};

/// The limit of a drawing of a VT220's screen in bytes. Each of 132 cells of a row has nine for its position, twelve for its attributes and four
/// for its character. 70 are for everything else.
pub const DRAW_LIMIT: usize = ROWS * (25 * STOPS) + 70;

const _: () = prove!(DRAW_LIMIT == 79270);

/// The index of DECTCEM in the table of modes.
const DECTCEM: usize = 9;

/// Appends the places that show something else than before. Returns the pen after them.
fn push_rows(
    looks: Looks,
    shown: &SizedTerminal,
    t: &SizedTerminal,
    pen: Pen,
    out: &mut Vec<u8>,
) -> Pen
    requires rows { shown.now.display.grid.size.rows ≡ t.now.display.grid.size.rows }
    requires width { shown.now.display.grid.width ≡ t.now.display.grid.width }
    requires room { vec_len out.old + t.now.display.grid.size.rows * places_limit t.now.display.grid.size ≤ vec_capacity out.old }
    ensures items { out.new.items ≡ out.old.items ++ rows_bytes (λ r. former looks (row_of shown.now.display.grid r)) (λ r. latter looks (row_of t.now.display.grid r)) t.now.display.grid.size.rows pen }
    ensures pen { result ≡ rows_pen (λ r. former looks (row_of shown.now.display.grid r)) (λ r. latter looks (row_of t.now.display.grid r)) t.now.display.grid.size.rows pen }
    ensures bounded { vec_len out.new
        ≤ vec_len out.old + t.now.display.grid.size.rows * places_limit t.now.display.grid.size }
    ensures capacity { vec_capacity out.old ≤ vec_capacity out.new }
{
    let mut pen = pen;
    for row in 1..t.size().rows + 1 {
        let old = shown.row(row);
        let new = t.row(row);
        pen = push_row(looks, row, old, new, pen, out);
    }
    pen
}

/// Appends CUP to the cursor's place, resets the attributes, and shows or hides the cursor if it isn't so yet.
fn push_end(pen: Pen, was_shown: bool, t: &SizedTerminal, out: &mut Vec<u8>)
    requires room { vec_len out.old + 28 ≤ vec_capacity out.old }
    ensures items { out.new.items ≡ out.old.items ++ end_bytes pen was_shown (shown t.now) }
    ensures bounded { vec_len out.new ≤ vec_len out.old + 28 }
    ensures capacity { vec_capacity out.old ≤ vec_capacity out.new }
{
    let cursor = t.cursor();
    let is_shown = t.modes().dectcem;
    t.soundness();
    push_go(pen, cursor.row, cursor.col, out);
    push_change(pen.look, Rendition::plain(), out);
    if was_shown != is_shown {
        Function::mode(DECTCEM, is_shown).push(out);
    }
}

/// Appends what resets the attributes, erases the screen, and shows the cursor in its first place.
#[tactic(auto, unfolding(crate::specs::Draw::erase, vt_paint::specs::Named::byte_named))]
fn push_erase(out: &mut Vec<u8>)
    requires room { vec_len out.old + 42 ≤ vec_capacity out.old }
    ensures items { out.new.items ≡ out.old.items ++ erase }
    ensures bounded { vec_len out.new ≤ vec_len out.old + 42 }
    ensures capacity { vec_capacity out.old ≤ vec_capacity out.new }
{
    push_rendition(Rendition::plain(), out);
    Function::cursor_to(1, 1).push(out);
    Function::erase_below().push(out);
    Function::mode(DECTCEM, true).push(out);
}

/// Appends the bytes that make a modern terminal show the screen of `t`, whatever it shows before. That terminal has at
/// least as many rows and columns as `t`. The bytes are UTF-8, CUP, ED, SGR and DECTCEM. On a reverse screen (DECSCNM)
/// the attribute `reverse` of each cell is inverted. What is shown decides the bytes.
///
/// It first reserves `draw_limit` bytes of capacity. Returns `Err` if that fails. Then the contents of `out` are unchanged.
pub fn draw(t: &SizedTerminal, out: &mut Vec<u8>) -> Result<(), AllocError>
    ensures ok { OnOk result (out.new.items ≡ out.old.items ++ sized_draw t.now) }
    ensures err { OnErr result (out.new.items ≡ out.old.items) }
    ensures has_room { vec_len out.old + draw_limit t.now.display.grid.size ≤ vec_capacity out.old → IsOk result }
    ensures bounded { vec_len out.new ≤ vec_len out.old + draw_limit t.now.display.grid.size }
    ensures capacity { vec_capacity out.old ≤ vec_capacity out.new }
{
    out.reserve(draw_limit(t.size()))?;
    draw_reserved(t, out);
    Ok(())
}

/// Appends the bytes that show the screen of `t`, as [`draw`] does. `out` has capacity for `draw_limit` more bytes. It never
/// fails and allocates nothing.
#[tactic(auto, unfolding(crate::specs::Draw::draw_at, crate::specs::Draw::changes_at))]
pub fn draw_reserved(t: &SizedTerminal, out: &mut Vec<u8>)
    requires { vec_len out.old + draw_limit t.now.display.grid.size ≤ vec_capacity out.old }
    ensures items { out.new.items ≡ out.old.items ++ sized_draw t.now }
    ensures bounded { vec_len out.new ≤ vec_len out.old + draw_limit t.now.display.grid.size }
    ensures capacity { vec_capacity out.old ≤ vec_capacity out.new }
{
    let looks = Looks {
        erased: true,
        was_reversed: false,
        is_reversed: t.modes().decscnm,
    };
    let pen = Pen {
        row: 1,
        col: 1,
        look: Rendition::plain(),
    };
    push_erase(out);
    let pen = push_rows(looks, t, t, pen, out);
    push_end(pen, true, t, out);
}

/// Appends the bytes that make a modern terminal show the screen of `t`, if it shows that of `shown`, drawn by this
/// call or [`draw`]. Only places that show something else than before are written. If the widths or the numbers of rows
/// differ, the bytes are those of [`draw`].
///
/// It first reserves `draw_limit` bytes of capacity. Returns `Err` if that fails. Then the contents of `out` are unchanged.
pub fn draw_from(
    shown: &SizedTerminal,
    t: &SizedTerminal,
    out: &mut Vec<u8>,
) -> Result<(), AllocError>
    ensures ok { OnOk result (out.new.items ≡ out.old.items ++ sized_draw_from shown.now t.now) }
    ensures err { OnErr result (out.new.items ≡ out.old.items) }
    ensures has_room { vec_len out.old + draw_limit t.now.display.grid.size ≤ vec_capacity out.old → IsOk result }
    ensures bounded { vec_len out.new ≤ vec_len out.old + draw_limit t.now.display.grid.size }
    ensures capacity { vec_capacity out.old ≤ vec_capacity out.new }
{
    out.reserve(draw_limit(t.size()))?;
    draw_from_reserved(shown, t, out);
    Ok(())
}

/// Appends the bytes that lead from one screen to another, as [`draw_from`] does. `out` has capacity for `draw_limit` more
/// bytes. It never fails and allocates nothing.
#[tactic(auto, unfolding(crate::specs::Draw::draw_from_at, crate::specs::Draw::changes_at))]
pub fn draw_from_reserved(shown: &SizedTerminal, t: &SizedTerminal, out: &mut Vec<u8>)
    requires { vec_len out.old + draw_limit t.now.display.grid.size ≤ vec_capacity out.old }
    ensures items { out.new.items ≡ out.old.items ++ sized_draw_from shown.now t.now }
    ensures bounded { vec_len out.new ≤ vec_len out.old + draw_limit t.now.display.grid.size }
    ensures capacity { vec_capacity out.old ≤ vec_capacity out.new }
{
    if shown.size().rows != t.size().rows {
        draw_reserved(t, out);
        return;
    }
    if shown.width() != t.width() {
        draw_reserved(t, out);
        return;
    }
    let looks = Looks {
        erased: false,
        was_reversed: shown.modes().decscnm,
        is_reversed: t.modes().decscnm,
    };
    let cursor = shown.cursor();
    let pen = Pen {
        row: cursor.row,
        col: cursor.col,
        look: Rendition::plain(),
    };
    let pen = push_rows(looks, shown, t, pen, out);
    push_end(pen, shown.modes().dectcem, t, out);
}
