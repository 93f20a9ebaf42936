//! The maps of a screen.
ghost use Rattle.std.specs.Prelude.{◌≡◌, ◌≤◌};
ghost use Rattle.vt_screen.specs.Grid.{erase, scroll_down};

use vt_screen::Screen;

/// States what `Screen::scroll_down` does.
pub fn scroll_down(screen: &mut Screen, top: usize, bottom: usize, n: u16)
    requires { (1 ≤ top) × (top ≤ bottom) × (bottom ≤ screen.old.size.rows) }
    ensures grid { screen.new ≡ scroll_down screen.old top bottom n }
{
    screen.scroll_down(top, bottom, n)
}

/// States what `Screen::erase` does.
pub fn erase(screen: &mut Screen, row: usize, from: usize, to: usize, selective: bool)
    requires row { (1 ≤ row) × (row ≤ screen.old.size.rows) }
    requires columns { (1 ≤ from) × (from ≤ to) × (to ≤ screen.old.width) }
    ensures grid { screen.new ≡ erase screen.old row from to selective }
{
    screen.erase(row, from, to, selective)
}
