//! The control functions that change modes.
ghost use Rattle.std.specs.Prelude.{◌≡◌};
ghost use Rattle.vt_term.specs.Modes.{origin_mode, autowrap_mode, column_mode_any, keypad_mode, report_form, with_mode};
ghost use Rattle.vt_term.specs.Modes.{change_modes, ansi_modes_any, private_modes_any};
ghost use Rattle.vt_term.specs.Kinds.{kind_of};

use crate::display::Display;
use crate::kind::Kind;
use crate::state::{Cursor, Margins};

impl<K: Kind> Display<K> {
    /// Carries out SM and RM of ANSI modes: each parameter in order.
    #[inline(never)]
    pub fn change_ansi_modes(&mut self, params: &[u16], on: bool)
        ensures { self.new ≡ change_modes ansi_modes_any on params.now self.old }
    {
        for p in params {
            self.change_ansi_mode(*p, on);
        }
    }

    /// Carries out SM and RM of private modes: each parameter in order.
    pub fn change_private_modes(&mut self, params: &[u16], on: bool)
        ensures { self.new ≡ change_modes (private_modes_any (kind_of K.cells K.own)) on params.now self.old }
    {
        for p in params {
            self.change_private_mode(*p, on);
        }
    }

    /// Sets or resets one ANSI mode.
    #[tactic(auto, unfolding(crate::specs::Modes::with_mode))]
    fn change_ansi_mode(&mut self, p: u16, on: bool)
        ensures { self.new ≡ with_mode ansi_modes_any on p self.old }
    {
        match p {
            2 => self.modes.kam = on,
            4 => self.modes.irm = on,
            12 => self.modes.srm = on,
            20 => self.modes.lnm = on,
            _ => {}
        }
    }

    /// Sets or resets one private mode.
    #[tactic(auto, unfolding(crate::specs::Modes::with_mode))]
    fn change_private_mode(&mut self, p: u16, on: bool)
        ensures { self.new ≡ with_mode (private_modes_any (kind_of K.cells K.own)) on p self.old }
    {
        match p {
            1 => self.modes.decckm = on,
            3 => self.column_mode(on),
            4 => self.modes.decsclm = on,
            5 => self.modes.decscnm = on,
            6 => self.origin_mode(on),
            7 => self.autowrap_mode(on),
            8 => self.modes.decarm = on,
            25 => self.modes.dectcem = on,
            _ => {}
        }
    }

    /// Sets or resets DECOM. The cursor goes home.
    pub fn origin_mode(&mut self, on: bool)
        ensures { self.new ≡ origin_mode on self.old }
    {
        let row = if on { self.margins.top } else { 1 };
        self.modes.decom = on;
        self.cursor = Cursor::at(row, 1);
    }

    /// Sets or resets DECAWM. If it is reset, so is the wrap flag.
    pub fn autowrap_mode(&mut self, on: bool)
        ensures { self.new ≡ autowrap_mode on self.old }
    {
        self.modes.decawm = on;
        self.cursor.wrap = self.cursor.wrap && on;
    }

    /// Carries out DECCOLM: 132 or 80 columns, all blank, full margins, and the cursor home. The saved column is
    /// brought inside the width, and the saved wrap flag is reset.
    pub fn column_mode(&mut self, wide: bool)
        ensures { self.new ≡ column_mode_any (kind_of K.cells K.own) wide self.old }
    {
        self.screen.set_width(wide);
        self.margins = Margins::full(self.screen.size().rows);
        self.cursor = Cursor::at(1, 1);
        self.saved.col = self.saved.col.min(self.screen.width());
        self.saved.wrap = false;
    }

    /// Carries out DECKPAM and DECKPNM.
    pub fn keypad_mode(&mut self, application: bool)
        ensures { self.new ≡ keypad_mode application self.old }
    {
        self.modes.keypad_application = application;
    }

    /// Carries out S8C1T and S7C1T.
    pub fn report_form(&mut self, eight: bool)
        ensures { self.new ≡ report_form eight self.old }
    {
        self.modes.reports_8bit = eight;
    }
}
