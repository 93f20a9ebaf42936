//! Copies, resets, and the cells in which two terminals differ.
ghost use Rattle.std.specs.Prelude.{◌≡◌, ◌≢◌, ◌↔◌, ◌≤◌, ◌<◌, ◌⊎◌, IsTrue, IfSome, length};
ghost use Rattle.std.specs.declared.option.Option.TheVariants.{None, Some};
ghost use Rattle.vt_screen.specs.Grid.{row_of};
ghost use Rattle.vt_term.specs.State.{state_of};
ghost use Rattle.vt220_c.specs.Changed.{IsKept, AreChanged};
ghost use Rattle.vt220_c.specs.Status.{status_ok, status_closed, status_room, status_no_row, status_size};

use crate::handle::Vt220;
use crate::status::{CLOSED, NO_ROW, OK, ROOM, SIZE};
use std::alloc::Global;
use vt_screen::{Cell, same_cells};
use vt_term::SizedTerminal;

/// Returns whether two terminals have one size.
fn have_one_size(a: &SizedTerminal, b: &SizedTerminal) -> bool
    ensures { IsTrue result ↔ (a.now.display.grid.size ≡ b.now.display.grid.size) }
{
    a.size().same(b.size())
}

/// Brings a terminal into the state of another one, in any state. The two handles are different. Returns `OK`, `CLOSED` if one of
/// the two is closed, or `SIZE` if they have different sizes.
#[unsafe(no_mangle)]
pub extern "C" fn core_copy(to: &mut Vt220, from: &mut Vt220, alloc: Global) -> u32
    ensures from { from.new.kept.inside ≡ from.old.kept.inside }
    ensures closed { (result ≡ status_closed) ↔ ((to.old.kept.inside ≡ None) ⊎ (from.old.kept.inside ≡ None)) }
    ensures other_size { IfSome to.old.kept.inside (λ a. IfSome from.old.kept.inside (λ b.
        (result ≡ status_size) ↔ (a.display.grid.size ≢ b.display.grid.size))) }
    ensures answers { (result ≡ status_ok) ⊎ (result ≡ status_closed) ⊎ (result ≡ status_size) }
    ensures ok { result ≡ status_ok → to.new.kept.inside ≡ from.old.kept.inside }
    ensures unchanged { (0 < result) → to.new.kept.inside ≡ to.old.kept.inside }
{
    let Some(mut first) = to.take(alloc) else {
        return CLOSED;
    };
    let Some(second) = from.take(alloc) else {
        to.put(first);
        return CLOSED;
    };
    let mut status = SIZE;
    if have_one_size(first.terminal(), second.terminal()) {
        first.copy_from(second.terminal());
        status = OK;
    }
    to.put(first);
    from.put(second);
    status
}

/// Brings a terminal into its power-up state, also inside a sequence. Returns `OK`, or `CLOSED` if the handle is
/// closed.
#[unsafe(no_mangle)]
pub extern "C" fn core_reset(t: &mut Vt220, alloc: Global) -> u32
    ensures ok { result ≡ status_ok → IfSome t.old.kept.inside (λ s. t.new.kept.inside ≡ Some (state_of s.display.grid.size)) }
    ensures closed { (result ≡ status_closed) ↔ (t.old.kept.inside ≡ None) }
    ensures answers { (result ≡ status_ok) ⊎ (result ≡ status_closed) }
    ensures unchanged { (0 < result) → t.new.kept.inside ≡ t.old.kept.inside }
{
    let Some(mut inner) = t.take(alloc) else {
        return CLOSED;
    };
    inner.reset();
    t.put(inner);
    OK
}

/// Returns whether two rows have the same cell at an index.
fn is_kept(shown: &[Cell], to: &[Cell], at: usize) -> bool
    requires { at < length to.now }
    ensures { IsTrue result ↔ IsKept shown.now to.now at }
{
    at < shown.len() && same_cells(&shown[at..at + 1], &to[at..at + 1])
}

/// Marks the cells of a row that differ from those of the other row: index c - 1 for column c.
fn mark_changes(shown: &[Cell], to: &[Cell], changed: &mut [bool])
    requires { length to.now ≤ length changed.old }
    ensures marked { AreChanged shown.now to.now changed.new }
    ensures len { length changed.new ≡ length changed.old }
{
    let mut at = 0;
    while at < to.len() {
        changed[at] = !is_kept(shown, to, at);
        at += 1;
    }
}

/// Marks the cells of a row of `to`, from 1, that `shown` doesn't have there. The two have one size. Returns `OK`, `NO_ROW`, or `ROOM`
/// if `changed` is shorter than the row.
fn mark_row(shown: &SizedTerminal, to: &SizedTerminal, row: usize, changed: &mut [bool]) -> u32
    requires { shown.now.display.grid.size ≡ to.now.display.grid.size }
    ensures no_row { (result ≡ status_no_row) ↔ ((row ≡ 0) ⊎ (to.now.display.grid.size.rows < row)) }
    ensures room { result ≢ status_no_row → (result ≡ status_room) ↔ (length changed.old < to.now.display.grid.width) }
    ensures answers { (result ≡ status_ok) ⊎ (result ≡ status_no_row) ⊎ (result ≡ status_room) }
    ensures changed { result ≡ status_ok
        → AreChanged (row_of shown.now.display.grid row) (row_of to.now.display.grid row) changed.new }
    ensures unchanged { (0 < result) → changed.new ≡ changed.old }
{
    if row == 0 || row > to.size().rows {
        return NO_ROW;
    }
    if changed.len() < to.width() {
        return ROOM;
    }
    mark_changes(shown.row(row), to.row(row), changed);
    OK
}

/// Marks the cells of a row of `to`, from 1, that `shown` doesn't have there: index c - 1 for column c. The two handles are
/// different. Returns `OK`, `CLOSED`, `SIZE` if the two have different sizes, `NO_ROW`, or `ROOM` if `changed` is shorter than the row.
#[unsafe(no_mangle)]
pub extern "C" fn core_row_changes(
    shown: &mut Vt220,
    to: &mut Vt220,
    row: usize,
    changed: &mut [bool],
    alloc: Global,
) -> u32
    ensures same { (shown.new.kept.inside ≡ shown.old.kept.inside) × (to.new.kept.inside ≡ to.old.kept.inside) }
    ensures closed { (result ≡ status_closed) ↔ ((shown.old.kept.inside ≡ None) ⊎ (to.old.kept.inside ≡ None)) }
    ensures other_size { IfSome shown.old.kept.inside (λ a. IfSome to.old.kept.inside (λ b.
        (result ≡ status_size) ↔ (a.display.grid.size ≢ b.display.grid.size))) }
    ensures no_row { result ≢ status_closed → result ≢ status_size
        → IfSome to.old.kept.inside (λ b. (result ≡ status_no_row) ↔ ((row ≡ 0) ⊎ (b.display.grid.size.rows < row))) }
    ensures room { result ≢ status_closed → result ≢ status_size → result ≢ status_no_row
        → IfSome to.old.kept.inside (λ b. (result ≡ status_room) ↔ (length changed.old < b.display.grid.width)) }
    ensures answers { (result ≡ status_ok) ⊎ (result ≡ status_closed) ⊎ (result ≡ status_size) ⊎ (result ≡ status_no_row)
        ⊎ (result ≡ status_room) }
    ensures changed { result ≡ status_ok
        → IfSome shown.old.kept.inside
        (λ a. IfSome to.old.kept.inside
        (λ b. AreChanged (row_of a.display.grid row) (row_of b.display.grid row) changed.new)) }
    ensures unchanged { (0 < result) → changed.new ≡ changed.old }
{
    let Some(first) = shown.take(alloc) else {
        return CLOSED;
    };
    let Some(second) = to.take(alloc) else {
        shown.put(first);
        return CLOSED;
    };
    let mut status = SIZE;
    if have_one_size(first.terminal(), second.terminal()) {
        status = mark_row(first.terminal(), second.terminal(), row, changed);
    }
    shown.put(first);
    to.put(second);
    status
}
