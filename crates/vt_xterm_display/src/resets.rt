//! Resets, and the screen alignment pattern.
ghost use Rattle.std.specs.Prelude.{◌≡◌};
ghost use Rattle.vt_xterm_display.specs.Resets.{screen_alignment, reset_to_initial_state, soft_reset, set_conformance_level};

use crate::display::XtermDisplay;
use crate::settings::{Settings, Shape};
use crate::sides::Sides;

impl XtermDisplay {
    /// Carries out DECALN: writes `E` at every position, sets full margins, and moves the cursor home.
    pub(crate) fn screen_alignment(&mut self)
        ensures { self.new ≡ screen_alignment self.old }
    {
        self.shown.screen_alignment();
        self.sides = Sides::full(self.shown.screen.width());
        self.waits = false;
    }

    /// Carries out RIS: both pages are blank, and all is as at power-up, but for whether DECCOLM has an effect. A wide screen stays wide without
    /// that.
    pub(crate) fn reset_to_initial_state(&mut self)
        ensures { self.new ≡ reset_to_initial_state self.old }
    {
        let is_wide = !self.resizes && self.shown.screen.width() == self.shown.screen.size().wide;
        self.shown.reset_to_initial_state();
        self.other.reset(self.shown.saved);
        self.shown.column_mode(is_wide);
        self.sides = Sides::full(self.shown.screen.width());
        self.bounded = false;
        self.waits = false;
        self.alternate = false;
        self.settings = Settings::power_up();
    }

    /// Carries out DECSTR, which leaves DECAWM set, and resets DECLRMM and the cursor's shape.
    pub(crate) fn soft_reset(&mut self)
        ensures { self.new ≡ soft_reset self.old }
    {
        self.shown.soft_reset();
        self.shown.autowrap_mode(true);
        self.sides = Sides::full(self.shown.screen.width());
        self.bounded = false;
        self.waits = false;
        self.settings.shape = Shape::Block;
        self.settings.blinks = false;
    }

    /// Carries out DECSCL: a soft reset, and then the form of reports. Other values have no effect.
    pub(crate) fn set_conformance_level(&mut self, p1: u16, p2: u16)
        ensures { self.new ≡ set_conformance_level p1 p2 self.old }
    {
        match (p1, p2) {
            (61, _) | (62, 1) => {}
            (62, 0) | (62, 2) => {}
            _ => return,
        }
        self.soft_reset();
        self.shown.report_form(p1 == 62 && p2 != 1);
    }
}
