//! Resets, and the screen alignment pattern.
ghost use Rattle.std.specs.Prelude.{◌≡◌};
ghost use Rattle.vt_term.specs.Resets.{screen_alignment_any, reset_any, soft_reset_any, conformance_level_any};
ghost use Rattle.vt_term.specs.Kinds.{kind_of};

use crate::display::Display;
use crate::kind::Kind;
use crate::state::{Cursor, Margins, Modes, SavedOf};
use crate::tabs::TabStops;
use vt_glyph::{Glyph, Sets};

impl<K: Kind> Display<K> {
    /// Carries out DECALN: writes `E` at every position, without attributes and unprotected. Sets full margins, and
    /// moves the cursor home.
    pub fn screen_alignment(&mut self)
        ensures { self.new ≡ screen_alignment_any (kind_of K.cells K.own) self.old }
    {
        self.screen.fill(K::plain().written(Glyph::ascii(b'E')));
        self.margins = Margins::full(self.screen.size().rows);
        self.cursor = Cursor::at(1, 1);
    }

    /// Carries out RIS: resets the display to its power-up state.
    pub fn reset_to_initial_state(&mut self)
        ensures { self.new ≡ reset_any (kind_of K.cells K.own) self.old }
    {
        self.screen.set_width(false);
        self.cursor = Cursor::at(1, 1);
        self.pen = K::plain();
        self.sets = Sets::power_up();
        self.margins = Margins::full(self.screen.size().rows);
        self.stops = TabStops::power_up(self.screen.size().wide);
        self.modes = Modes::power_up();
        self.saved = SavedOf::of_brush(K::plain().brush());
    }

    /// Carries out DECSTR. It leaves the cursor's position, the cells, the stops, and the modes that the definition
    /// doesn't name.
    pub fn soft_reset(&mut self)
        ensures { self.new ≡ soft_reset_any (kind_of K.cells K.own) self.old }
    {
        self.cursor.wrap = false;
        self.pen = K::plain();
        self.sets = Sets::power_up();
        self.margins = Margins::full(self.screen.size().rows);
        self.modes.dectcem = true;
        self.modes.irm = false;
        self.modes.decom = false;
        self.modes.decawm = false;
        self.modes.kam = false;
        self.modes.decckm = false;
        self.modes.keypad_application = false;
        self.saved = SavedOf::of_brush(K::plain().brush());
    }

    /// Carries out DECSCL: a soft reset, and then the form of reports. Other values have no effect.
    pub fn set_conformance_level(&mut self, p1: u16, p2: u16)
        ensures { self.new ≡ conformance_level_any (kind_of K.cells K.own) p1 p2 self.old }
    {
        let eight = match (p1, p2) {
            (61, _) | (62, 1) => false,
            (62, 0) | (62, 2) => true,
            _ => return,
        };
        self.soft_reset();
        self.report_form(eight);
    }
}
