//! The positions at which the screens of two terminals differ.
ghost use Rattle.std.specs.Prelude.{◌≡◌, ◌≤◌, ◌<◌, ℕ, ◌*◌, false, not, length, slice_index_or};
ghost use Rattle.vt_screen.specs.Cells.{blank};
ghost use Rattle.vt_screen.specs.Grid.{Grid, row_of};
ghost use Rattle.vt_paint.specs.Changes.{same_cell, differing_from, differing_at, AreMarkedAt, AreCountedAt};

use vt_screen::{Cell, same_cells};
use vt_term::SizedTerminal;

/// Returns whether two cells differ, compared as words.
#[inline(always)]
fn differ(a: &Cell, b: &Cell) -> bool
    ensures { result ≡ not (same_cell a.now b.now) }
{
    a.word() != b.word()
}

/// Marks the positions at which two rows of the same length have different cells, and counts them. (Most rows are
/// equal, and are compared at once.)
fn changed_in_row<const C: usize>(a: &[Cell], b: &[Cell]) -> ([bool; C], usize)
    requires len { length a.now ≡ length b.now }
    requires short { length b.now ≤ C }
    ensures marked { (i : ℕ) → i < length b.now
        → slice_index_or result.0 i false ≡ not (same_cell (slice_index_or a.now i blank) (slice_index_or b.now i blank)) }
    ensures count { (g h : Grid) (r : ℕ) → a.now ≡ row_of g r → b.now ≡ row_of h r
        → result.1 ≡ differing_from g h r 1 (length b.now) }
    ensures bounded { result.1 ≤ length b.now }
{
    let mut marks = [false; C];
    if same_cells(a, b) {
        return (marks, 0);
    }
    let mut count = 0;
    for (i, cell) in b.iter().enumerate() {
        let differs = differ(&a[i], cell);
        marks[i] = differs;
        count += differs as usize;
    }
    (marks, count)
}

/// Marks exactly the positions at which the screens of two terminals of the same size and width have different cells.
/// Counts these positions in each row, and returns their total. The marks and the counts have at least as many rows and
/// columns as the screens. The index of row r and column c is r - 1, c - 1. (It isn't inlined, so that its rows aren't
/// on the stack of what comes after it.)
#[inline(never)]
pub fn changed_places<const R: usize, const C: usize>(
    a: &SizedTerminal,
    b: &SizedTerminal,
    marks: &mut [[bool; C]; R],
    counts: &mut [usize; R],
) -> usize
    requires size { a.now.display.grid.size ≡ b.now.display.grid.size }
    requires width { a.now.display.grid.width ≡ b.now.display.grid.width }
    requires rows { b.now.display.grid.size.rows ≤ R }
    requires columns { b.now.display.grid.size.wide ≤ C }
    ensures marked { AreMarkedAt b.now.display.grid.size marks.new a.now.display.grid b.now.display.grid }
    ensures counted { AreCountedAt b.now.display.grid.size counts.new a.now.display.grid b.now.display.grid }
    ensures count { result ≡ differing_at b.now.display.grid.size a.now.display.grid b.now.display.grid }
    ensures bounded { result ≤ b.now.display.grid.size.rows * b.now.display.grid.width }
{
    let mut all = 0;
    for row in 1..b.size().rows + 1 {
        let (places, count) = changed_in_row(a.row(row), b.row(row));
        marks[row - 1] = places;
        counts[row - 1] = count;
        all += count;
    }
    all
}
