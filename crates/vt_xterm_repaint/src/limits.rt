//! The most bytes of a repaint of a screen of a size.
ghost use Rattle.std.specs.Prelude.{◌≡◌, ◌≤◌};
ghost use Rattle.vt_screen.specs.Sizes.{IsSize};
ghost use Rattle.vt_xterm_repaint.specs.Limits.{row_limit, repaint_limit};

use vt_screen::Size;

/// Returns the limit of a row in bytes: 78 for each cell of the wide screen, and 76.
#[tactic(auto, unfolding(crate::specs::Limits::row_limit))]
fn row_limit(size: Size) -> usize
    requires { IsSize size }
    ensures value { result ≡ row_limit size }
    ensures few { result ≤ 19966 }
{
    78 * size.wide + 76
}

/// Returns the limit of a repaint in bytes. For each of the two pages it is that of a row for each row, and 217. Then it is 10 for each tab
/// stop, and 410 for everything else.
#[tactic(auto, unfolding(crate::specs::Limits::page_limit))]
pub fn repaint_limit(size: Size) -> usize
    requires { IsSize size }
    ensures { result ≡ repaint_limit size }
{
    2 * (size.rows * row_limit(size) + 217) + 10 * size.wide + 410
}
