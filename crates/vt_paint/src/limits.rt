//! The most bytes of a repaint of a screen of a size.
ghost use Rattle.std.specs.Prelude.{◌≡◌, ◌≤◌, ◌*◌};
ghost use Rattle.vt_screen.specs.Sizes.{IsSize};
ghost use Rattle.vt_paint.specs.Limits.{row_digits, row_limit, paint_limit, changes_limit};

use vt_screen::MOST;
use vt_term::Size;

/// Returns how many digits the number of a row has at most, two at least.
#[tactic(auto, unfolding(crate::specs::Limits::row_digits))]
fn row_digits(rows: usize) -> usize
    ensures value { result ≡ row_digits rows }
    ensures few { result ≤ 3 }
{
    if rows < 100 { 2 } else { 3 }
}

/// Returns the limit of the cells of a row in bytes: 27 and the digits of a row's number for each cell of the wide screen.
#[tactic(auto, unfolding(crate::specs::Limits::row_limit))]
fn row_limit(size: Size) -> usize
    requires { IsSize size }
    ensures value { result ≡ row_limit size }
    ensures few { result ≤ 7650 }
{
    (27 + row_digits(size.rows)) * size.wide
}

/// Returns the limit of a repaint in bytes. For each row it is 29 for each cell of the wide screen, or 30 if there are 100 rows
/// or more. Then it is 10 for each tab stop, and 320 for everything else.
pub fn paint_limit(size: Size) -> usize
    requires { IsSize size }
    ensures { result ≡ paint_limit size }
{
    size.rows * row_limit(size) + 10 * size.wide + 320
}

/// Returns the limit of changes in bytes: 28 for each of `count` cells, and 230. With 100 rows or more it is 234 in place of 230.
pub fn changes_limit(size: Size, count: usize) -> usize
    requires { count ≤ MOST * MOST }
    ensures { result ≡ changes_limit size count }
{
    28 * count + (222 + 4 * row_digits(size.rows))
}
