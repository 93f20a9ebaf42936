//! Machines whose events can be traced.
ghost use Rattle.std.specs.Prelude.{◌≤◌, ◌+◌, vec_len, vec_capacity};

use vt_feed::Machine;
use vt_syntax::EventKind;
use vt_xterm_display::XtermDisplay;

/// A machine whose events can be traced.
pub trait Traced: Machine {
    /// Returns the number of rows of the screen.
    fn rows(&self) -> usize;

    /// Appends the report of an event, which isn't carried out: at most ten bytes, for which `out` has capacity.
    fn report(&self, kind: EventKind, values: &[u16], out: &mut Vec<u8>)
        requires { vec_len out.old + 10 ≤ vec_capacity out.old };
}

impl Traced for XtermDisplay {
    fn rows(&self) -> usize {
        self.shown.screen.size().rows
    }

    fn report(&self, kind: EventKind, values: &[u16], out: &mut Vec<u8>) {
        self.shown.report(kind, values, out);
    }
}
