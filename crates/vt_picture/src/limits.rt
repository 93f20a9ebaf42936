//! The most bytes of what is made of a screen of a size.
ghost use Rattle.std.specs.Prelude.{◌≡◌, ◌≤◌};
ghost use Rattle.vt_screen.specs.Sizes.{IsSize};
ghost use Rattle.vt_picture.specs.Limits.{alternative_limit};
ghost use Rattle.vt_paint.specs.Limits.{row_digits};
ghost use Rattle.vt_picture.specs.Limits.{draw_limit, picture_limit, places_limit, show_limit};

use vt_screen::Size;

/// Returns the limit of a screen with its attributes in bytes. Each row has twelve for attributes and four for a
/// character for each cell of the wide screen. At its end it has twelve for attributes, and LF.
pub fn show_limit(size: Size) -> usize
    requires { IsSize size }
    ensures { result ≡ show_limit size }
{
    size.rows * (16 * size.wide + 13)
}

/// Returns the limit of a text alternative in bytes: for each row five for each cell of the wide screen, and LF.
fn alternative_limit(size: Size) -> usize
    requires { IsSize size }
    ensures { result ≡ alternative_limit size }
{
    size.rows * (5 * size.wide + 1)
}

/// Returns the limit of a picture in bytes: for each row 208 for each cell of the wide screen and one more, and 1000 for
/// everything else.
pub fn picture_limit(size: Size) -> usize
    requires { IsSize size }
    ensures { result ≡ picture_limit size }
{
    alternative_limit(size) + size.rows * (203 * size.wide) + 1000
}

/// Returns how many digits the number of a row has at most, two at least.
#[tactic(auto, unfolding(vt_paint::specs::Limits::row_digits))]
fn row_digits(rows: usize) -> usize
    ensures value { result ≡ row_digits rows }
    ensures few { result ≤ 3 }
{
    if rows < 100 { 2 } else { 3 }
}

/// Returns the limit of the places of a row in bytes: 23 and the digits of a row's number for each cell of the wide screen.
#[tactic(auto, unfolding(crate::specs::Limits::places_limit))]
fn places_limit(size: Size) -> usize
    requires { IsSize size }
    ensures value { result ≡ places_limit size }
    ensures few { result ≤ 6630 }
{
    (23 + row_digits(size.rows)) * size.wide
}

/// Returns the limit of a drawing in bytes. For each row it is 25 for each cell of the wide screen, or 26 if there are 100 rows or
/// more. Then it is 70 for everything else.
pub fn draw_limit(size: Size) -> usize
    requires { IsSize size }
    ensures { result ≡ draw_limit size }
{
    size.rows * places_limit(size) + 70
}
