//! The modes.
ghost use Rattle.std.specs.Prelude.{◌≡◌};
ghost use Rattle.vt_term.specs.Modes.{ansi_modes_any, with_mode, change_modes as change_modes_of};
ghost use Rattle.vt_xterm_display.specs.State.{on_shown, moved};
ghost use Rattle.vt_xterm_display.specs.Moving.{origin_mode};
ghost use Rattle.vt_xterm_display.specs.Pages.{side_mode, wrap_mode, mouse_mode, mouse_coding, with_xterm_mode, change_modes};
ghost use Rattle.vt_xterm_display.specs.Pages.{set_cursor_style};

use crate::cursor::home_between;
use crate::display::XtermDisplay;
use crate::settings::{Coding, Mouse, Shape, same_coding};
use crate::sides::Sides;
use vt_term::Cursor;

impl XtermDisplay {
    /// Carries out ?6: sets or resets DECOM, and moves the cursor home.
    pub(crate) fn origin_mode(&mut self, on: bool)
        ensures { self.new ≡ moved (origin_mode on) self.old }
    {
        let (row, col) = home_between(on, self.shown.margins.top, self.sides.left);
        self.shown.modes.decom = on;
        self.shown.cursor = Cursor {
            row,
            col,
            wrap: false,
        };
        self.waits = false;
    }

    /// Carries out ?7: sets or resets DECAWM, without which no wrap is pending.
    pub(crate) fn wrap_mode(&mut self, on: bool)
        ensures { self.new ≡ wrap_mode on self.old }
    {
        self.shown.autowrap_mode(on);
        self.waits = self.waits && on;
    }

    /// Carries out ?69: sets or resets DECLRMM. Without it the left and right margins are all columns.
    pub(crate) fn side_mode(&mut self, on: bool)
        ensures { self.new ≡ side_mode on self.old }
    {
        self.bounded = on;
        if !on {
            self.sides = Sides::full(self.shown.screen.width());
            self.waits = false;
        }
    }

    /// Sets a mode of the mouse, or none.
    fn mouse_mode(&mut self, mouse: Mouse, on: bool)
        ensures { self.new ≡ mouse_mode mouse on self.old }
    {
        self.settings.mouse = if on { mouse } else { Mouse::Off };
    }

    /// Sets a coding of the mouse's positions, or resets it if it is set.
    fn mouse_coding(&mut self, coding: Coding, on: bool)
        ensures { self.new ≡ mouse_coding coding on self.old }
    {
        if on {
            self.settings.coding = coding;
        } else if same_coding(self.settings.coding, coding) {
            self.settings.coding = Coding::Bytes;
        }
    }

    /// Sets or resets a private mode.
    #[tactic(auto, unfolding(crate::specs::Pages::with_xterm_mode, vt_term::specs::Modes::with_mode))]
    fn change_mode(&mut self, p: u16, on: bool)
        ensures { self.new ≡ with_xterm_mode on p self.old }
    {
        match p {
            3 => self.column_mode(on),
            6 => self.origin_mode(on),
            7 => self.wrap_mode(on),
            9 => self.mouse_mode(Mouse::Presses, on),
            12 => self.settings.blinks = on,
            40 => self.resizes = on,
            47 => self.show_page(on),
            69 => self.side_mode(on),
            1000 => self.mouse_mode(Mouse::Buttons, on),
            1002 => self.mouse_mode(Mouse::Drags, on),
            1003 => self.mouse_mode(Mouse::Motion, on),
            1004 => self.settings.focus = on,
            1005 => self.mouse_coding(Coding::Utf8, on),
            1006 => self.mouse_coding(Coding::Sgr, on),
            1015 => self.mouse_coding(Coding::Urxvt, on),
            1016 => self.mouse_coding(Coding::Pixels, on),
            1047 => self.show_or_clear(on),
            1048 => self.save_or_restore(on),
            1049 => self.show_and_save(on),
            2004 => self.settings.brackets = on,
            2026 => self.settings.synchronized = on,
            1 => self.shown.modes.decckm = on,
            4 => self.shown.modes.decsclm = on,
            5 => self.shown.modes.decscnm = on,
            8 => self.shown.modes.decarm = on,
            25 => self.shown.modes.dectcem = on,
            _ => {}
        }
    }

    /// Carries out SM and RM of private modes: each parameter in order.
    pub(crate) fn change_modes(&mut self, params: &[u16], on: bool)
        ensures { self.new ≡ change_modes on params.now self.old }
    {
        for p in params {
            self.change_mode(*p, on);
        }
    }

    /// Sets or resets an ANSI mode.
    #[tactic(auto, unfolding(vt_term::specs::Modes::with_mode))]
    fn change_ansi_mode(&mut self, p: u16, on: bool)
        ensures { self.new ≡ on_shown (with_mode ansi_modes_any on p) self.old }
    {
        match p {
            2 => self.shown.modes.kam = on,
            4 => self.shown.modes.irm = on,
            12 => self.shown.modes.srm = on,
            20 => self.shown.modes.lnm = on,
            _ => {}
        }
    }

    /// Carries out SM and RM of ANSI modes: each parameter in order.
    pub(crate) fn change_ansi_modes(&mut self, params: &[u16], on: bool)
        ensures { self.new ≡ on_shown (change_modes_of ansi_modes_any on params.now) self.old }
    {
        for p in params {
            self.change_ansi_mode(*p, on);
        }
    }

    /// Carries out DECSCUSR: sets the shape of the cursor, and whether it blinks.
    #[tactic(auto, unfolding(crate::specs::Pages::set_cursor_style))]
    pub(crate) fn set_cursor_style(&mut self, p: u16)
        ensures { self.new ≡ set_cursor_style p self.old }
    {
        let (shape, blinks) = match p {
            0 => (Shape::Block, true),
            1 => (Shape::Block, true),
            2 => (Shape::Block, false),
            3 => (Shape::Underline, true),
            4 => (Shape::Underline, false),
            5 => (Shape::Bar, true),
            6 => (Shape::Bar, false),
            _ => return,
        };
        self.settings.shape = shape;
        self.settings.blinks = blinks;
    }
}
