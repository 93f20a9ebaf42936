//! The most bytes of what is rendered of a screen of a size.
ghost use Rattle.std.specs.Prelude.{◌≡◌};
ghost use Rattle.vt_screen.specs.Sizes.{IsSize};
ghost use Rattle.vt_render.specs.Limits.{picture_limit, show_limit};

use vt_screen::Size;

/// Returns the limit of `show` in bytes. For each row it is 73 for each cell of the wide screen, and 62.
pub fn show_limit(size: Size) -> usize
    requires { IsSize size }
    ensures { result ≡ show_limit size }
{
    size.rows * (73 * size.wide + 62)
}

/// Returns the limit of a picture in bytes. For each row it is 302 for each cell of the wide screen, and one. 3000 are for everything else.
pub fn picture_limit(size: Size) -> usize
    requires { IsSize size }
    ensures { result ≡ picture_limit size }
{
    size.rows * (15 * size.wide + 1) + size.rows * (287 * size.wide) + 3000
}
