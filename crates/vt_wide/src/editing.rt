//! Erasing, inserting and deleting. A wide character that an edit parts goes as a whole.
ghost use Rattle.std.specs.Prelude.{◌≡◌, ◌+◌, ◌≤◌};
ghost use Rattle.vt_screen.specs.Grid.{IsGrid, IsSoundGridOf, is_within};
ghost use Rattle.vt_screen.specs.Kinds.{erased_any};
ghost use Rattle.vt_wide.specs.Edits.{is_parted, parted, parted_row, erased, erased_span, inserted, deleted, moved_up, moved_down};

use crate::kind::Wide;
use vt_screen::Screen;

/// Returns whether the left edge of a column is inside a wide character.
#[inline(always)]
pub(crate) fn is_parted<C: Wide>(screen: &Screen<C>, row: usize, col: usize) -> bool
    requires { (1 ≤ row) × (row ≤ screen.now.size.rows) }
    ensures parted { result ≡ is_parted C.wide C.cells.blank screen.now row col }
    ensures shape { IsGrid screen.now }
    ensures sound { IsSoundGridOf C.cells.shown screen.now }
{
    let width = screen.width();
    2 <= col && col <= width && screen.cell(row, col).is_second()
}

/// Erases both cells of a wide character that the left edge of a column parts. (xterm)
#[inline(always)]
pub fn part<C: Wide>(screen: &mut Screen<C>, row: usize, col: usize, selective: bool, empty: C)
    requires { (1 ≤ row) × (row ≤ screen.old.size.rows) }
    ensures grid { screen.new ≡ parted_row C.wide C.cells.blank (erased_any C.cells selective empty) screen.old row col }
    ensures size { screen.new.size ≡ screen.old.size }
    ensures width { screen.new.width ≡ screen.old.width }
    ensures sound { IsSoundGridOf C.cells.shown screen.new }
{
    if is_parted(screen, row, col) {
        screen.erase_with(row, col - 1, col, selective, empty);
    }
}

/// Erases the columns `from` to `to` of a row, both included. (EL, ECH; selectively DECSEL)
pub fn erase<C: Wide>(
    screen: &mut Screen<C>,
    row: usize,
    from: usize,
    to: usize,
    selective: bool,
    empty: C,
)
    requires row { (1 ≤ row) × (row ≤ screen.old.size.rows) }
    requires columns { (1 ≤ from) × (from ≤ to) × (to ≤ screen.old.width) }
    ensures grid { screen.new ≡ erased C.wide C.cells.blank (erased_any C.cells selective empty) screen.old row from to }
    ensures size { screen.new.size ≡ screen.old.size }
    ensures width { screen.new.width ≡ screen.old.width }
    ensures sound { IsSoundGridOf C.cells.shown screen.new }
{
    part(screen, row, from, selective, empty);
    part(screen, row, to + 1, selective, empty);
    screen.erase_with(row, from, to, selective, empty);
}

/// Erases the cells from one place to another, both included, in the order of reading. (ED; selectively DECSED)
pub fn erase_span<C: Wide>(
    screen: &mut Screen<C>,
    row: usize,
    col: usize,
    to_row: usize,
    to_col: usize,
    selective: bool,
    empty: C,
)
    requires from { (1 ≤ row) × (1 ≤ col) × (col ≤ screen.old.width) }
    requires to { (row ≤ to_row) × (to_row ≤ screen.old.size.rows) × (1 ≤ to_col) × (to_col ≤ screen.old.width) }
    requires order { row ≡ to_row → col ≤ to_col }
    ensures grid { screen.new ≡ erased_span C.wide C.cells.blank (erased_any C.cells selective empty) screen.old row col to_row to_col }
    ensures size { screen.new.size ≡ screen.old.size }
    ensures width { screen.new.width ≡ screen.old.width }
    ensures sound { IsSoundGridOf C.cells.shown screen.new }
{
    part(screen, row, col, selective, empty);
    part(screen, to_row, to_col + 1, selective, empty);
    screen.erase_span(row, col, to_row, to_col, selective, empty);
}

/// Inserts `n` cells at a place. Those that pass the column `right` are lost. (ICH)
pub fn insert<C: Wide>(
    screen: &mut Screen<C>,
    row: usize,
    col: usize,
    right: usize,
    n: u16,
    empty: C,
)
    requires row { (1 ≤ row) × (row ≤ screen.old.size.rows) }
    requires columns { (1 ≤ col) × (col ≤ right) × (right ≤ screen.old.width) }
    ensures grid { screen.new ≡ inserted C.wide C.cells.blank empty screen.old row col right n }
    ensures size { screen.new.size ≡ screen.old.size }
    ensures width { screen.new.width ≡ screen.old.width }
    ensures sound { IsSoundGridOf C.cells.shown screen.new }
{
    part(screen, row, col, false, empty);
    let lost = (right + 1).saturating_sub(n as usize).max(col);
    part(screen, row, lost, false, empty);
    part(screen, row, right + 1, false, empty);
    screen.insert_between(row, col, right, n, empty);
}

/// Deletes `n` cells starting at a place. Cells come in at the column `right`. (DCH)
pub fn delete<C: Wide>(
    screen: &mut Screen<C>,
    row: usize,
    col: usize,
    right: usize,
    n: u16,
    empty: C,
)
    requires row { (1 ≤ row) × (row ≤ screen.old.size.rows) }
    requires columns { (1 ≤ col) × (col ≤ right) × (right ≤ screen.old.width) }
    ensures grid { screen.new ≡ deleted C.wide C.cells.blank empty screen.old row col right n }
    ensures size { screen.new.size ≡ screen.old.size }
    ensures width { screen.new.width ≡ screen.old.width }
    ensures sound { IsSoundGridOf C.cells.shown screen.new }
{
    part(screen, row, col, false, empty);
    let kept = (col + n as usize).min(right + 1);
    part(screen, row, kept, false, empty);
    part(screen, row, right + 1, false, empty);
    screen.delete_between(row, col, right, n, empty);
}

/// Moves the rows from `top` to `bottom` up by `n`, between two columns. A wide character that a margin parts becomes spaces. (IND, SU, DL)
/// Speed: whole rows move by their numbers.
pub fn move_up<C: Wide>(
    screen: &mut Screen<C>,
    top: usize,
    bottom: usize,
    left: usize,
    right: usize,
    n: u16,
    empty: C,
)
    requires rows { (1 ≤ top) × (top ≤ bottom) × (bottom ≤ screen.old.size.rows) }
    requires columns { (1 ≤ left) × (left ≤ right) × (right ≤ screen.old.width) }
    ensures grid { screen.new ≡ moved_up C.wide C.cells.blank empty screen.old top bottom left right n }
    ensures size { screen.new.size ≡ screen.old.size }
    ensures width { screen.new.width ≡ screen.old.width }
    ensures sound { IsSoundGridOf C.cells.shown screen.new }
{
    if left == 1 && right == screen.width() {
        return screen.scroll_up_with(top, bottom, n, empty);
    }
    part_rows(screen, top, bottom, left);
    part_rows(screen, top, bottom, right + 1);
    screen.columns_up(top, bottom, left, right, n, empty);
}

/// Moves the rows from `top` to `bottom` down by `n`, between two columns. A wide character that a margin parts becomes spaces. (RI, SD, IL)
/// Speed: whole rows move by their numbers.
pub fn move_down<C: Wide>(
    screen: &mut Screen<C>,
    top: usize,
    bottom: usize,
    left: usize,
    right: usize,
    n: u16,
    empty: C,
)
    requires rows { (1 ≤ top) × (top ≤ bottom) × (bottom ≤ screen.old.size.rows) }
    requires columns { (1 ≤ left) × (left ≤ right) × (right ≤ screen.old.width) }
    ensures grid { screen.new ≡ moved_down C.wide C.cells.blank empty screen.old top bottom left right n }
    ensures size { screen.new.size ≡ screen.old.size }
    ensures width { screen.new.width ≡ screen.old.width }
    ensures sound { IsSoundGridOf C.cells.shown screen.new }
{
    if left == 1 && right == screen.width() {
        return screen.scroll_down_with(top, bottom, n, empty);
    }
    part_rows(screen, top, bottom, left);
    part_rows(screen, top, bottom, right + 1);
    screen.columns_down(top, bottom, left, right, n, empty);
}

/// Makes spaces of the wide characters that the left edge of a column parts, from one row to another, both included. A space has the
/// look of its cell. (xterm, at a left or right margin; the look is this profile's)
fn part_rows<C: Wide>(screen: &mut Screen<C>, top: usize, bottom: usize, col: usize)
    requires { (1 ≤ top) × (top ≤ bottom) × (bottom ≤ screen.old.size.rows) }
    ensures grid { screen.new ≡ parted C.wide C.cells.blank C.wide.spaced screen.old (is_within top bottom) col }
    ensures size { screen.new.size ≡ screen.old.size }
    ensures width { screen.new.width ≡ screen.old.width }
    ensures sound { IsSoundGridOf C.cells.shown screen.new }
{
    let _ = screen.width();
    for row in top..bottom + 1 {
        space(screen, row, col);
    }
}

/// Makes spaces of a wide character that the left edge of a column parts.
fn space<C: Wide>(screen: &mut Screen<C>, row: usize, col: usize)
    requires { (1 ≤ row) × (row ≤ screen.old.size.rows) }
    ensures grid { screen.new ≡ parted_row C.wide C.cells.blank C.wide.spaced screen.old row col }
    ensures size { screen.new.size ≡ screen.old.size }
    ensures width { screen.new.width ≡ screen.old.width }
    ensures sound { IsSoundGridOf C.cells.shown screen.new }
{
    if is_parted(screen, row, col) {
        let first = screen.cell(row, col - 1);
        let second = screen.cell(row, col);
        screen.put(row, col - 1, first.spaced());
        screen.put(row, col, second.spaced());
    }
}
