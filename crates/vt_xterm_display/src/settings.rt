//! What a multiplexer hands on to the terminal that it is shown on.
ghost use Rattle.std.specs.Prelude.{◌≡◌};
ghost use Rattle.vt_xterm_display.specs.State.{settings_at_power_up};
ghost use Rattle.vt_xterm_display.specs.Pages.{same_coding};

/// The mode of the mouse: what is reported. (ctlseqs: Mouse Tracking)
#[derive(Clone, Copy, Debug, PartialEq, Eq)]
pub enum Mouse {
    /// Nothing.
    Off,
    /// Buttons that are pressed (?9).
    Presses,
    /// Buttons that are pressed and released (?1000).
    Buttons,
    /// Motion while one is pressed, too (?1002).
    Drags,
    /// Any motion, too (?1003).
    Motion,
}

/// The coding of the mouse's positions. (ctlseqs: Extended coordinates)
#[derive(Clone, Copy, Debug, PartialEq, Eq)]
pub enum Coding {
    /// A byte each.
    Bytes,
    /// In UTF-8 (?1005).
    Utf8,
    /// As numbers, as SGR has them (?1006).
    Sgr,
    /// As numbers, as urxvt has them (?1015).
    Urxvt,
    /// As ?1006, in pixels (?1016).
    Pixels,
}

/// The shape of the cursor. (ctlseqs: DECSCUSR)
#[derive(Clone, Copy, Debug, PartialEq, Eq)]
pub enum Shape {
    /// A block.
    Block,
    /// An underline.
    Underline,
    /// A bar.
    Bar,
}

/// Settings that change no cell. (ctlseqs: DECSET, DECSCUSR)
#[derive(Clone, Copy, Debug, PartialEq, Eq)]
pub struct Settings {
    /// Pasted text is wanted in brackets (?2004).
    pub brackets: bool,
    /// Reports of the focus are wanted (?1004).
    pub focus: bool,
    /// Output is synchronized (?2026).
    pub synchronized: bool,
    /// The mode of the mouse.
    pub mouse: Mouse,
    /// The coding of the mouse's positions.
    pub coding: Coding,
    /// The shape of the cursor.
    pub shape: Shape,
    /// The cursor blinks.
    pub blinks: bool,
}

/// Returns whether two codings are the same one.
pub(crate) fn same_coding(a: Coding, b: Coding) -> bool
    ensures { result ≡ same_coding a b }
{
    match a {
        Coding::Bytes => matches!(b, Coding::Bytes),
        Coding::Utf8 => matches!(b, Coding::Utf8),
        Coding::Sgr => matches!(b, Coding::Sgr),
        Coding::Urxvt => matches!(b, Coding::Urxvt),
        Coding::Pixels => matches!(b, Coding::Pixels),
    }
}

impl Settings {
    /// Returns the settings at power-up: a steady block, and nothing else.
    pub(crate) fn power_up() -> Settings
        ensures { result ≡ settings_at_power_up }
    {
        Settings {
            brackets: false,
            focus: false,
            synchronized: false,
            mouse: Mouse::Off,
            coding: Coding::Bytes,
            shape: Shape::Block,
            blinks: false,
        }
    }
}
