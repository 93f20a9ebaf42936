//! Copies of a terminal's state.
ghost use Rattle.std.specs.Prelude.{◌≡◌};

use crate::display::Display;
use crate::kind::Kind;
use crate::sized::SizedTerminal;

impl<K: Kind> Display<K> {
    /// Makes every part equal to that of another display of the same size.
    pub fn copy_from(&mut self, other: &Display<K>)
        requires { self.old.grid.size ≡ other.now.grid.size }
        ensures { self.new ≡ other.now }
    {
        self.screen.copy_from(&other.screen);
        self.cursor = other.cursor;
        self.pen = other.pen;
        self.sets = other.sets;
        self.margins = other.margins;
        self.stops = other.stops.copied();
        self.modes = other.modes;
        self.saved = other.saved;
    }
}

impl SizedTerminal {
    /// Makes the state equal to that of another terminal of the same size, the held part included. It never fails and
    /// allocates nothing.
    pub fn copy_from(&mut self, other: &SizedTerminal)
        requires { self.old.display.grid.size ≡ other.now.display.grid.size }
        ensures { self.new ≡ other.now }
    {
        self.display.copy_from(&other.display);
        self.parser = other.parser.copied();
    }
}
