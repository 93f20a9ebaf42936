//! The table of modes.
ghost use Rattle.std.specs.Prelude.{◌≡◌, ◌<◌, map};
ghost use Rattle.vt_paint.specs.Controls.{mode_rows};
ghost use Rattle.vt_paint.specs.Private.Tables.{mode_last};

use vt_term::Modes;

/// The number of modes that have a value in [`Modes`], with the keypad and the form of reports, and without DECOM.
pub const MODES: usize = 12;

/// The index of IRM.
pub const IRM: usize = 1;

/// The index of DECAWM.
pub const DECAWM: usize = 7;

/// The index of DECCOLM, whose value is the width.
pub const DECCOLM: usize = MODES;

/// The index of DECOM, which moves the cursor.
pub const DECOM: usize = MODES + 1;

/// The number of all modes.
pub const ALL_MODES: usize = MODES + 2;

/// The bytes that set and reset each mode, without the last one.
pub(crate) const FRONTS: [[u8; 5]; ALL_MODES] = [
    // KAM, IRM, SRM and LNM
    *b"\x1B[2  ",
    *b"\x1B[4  ",
    *b"\x1B[12 ",
    *b"\x1B[20 ",
    // DECCKM, DECSCLM, DECSCNM, DECAWM, DECARM and DECTCEM
    *b"\x1B[?1 ",
    *b"\x1B[?4 ",
    *b"\x1B[?5 ",
    *b"\x1B[?7 ",
    *b"\x1B[?8 ",
    *b"\x1B[?25",
    // DECKPAM and DECKPNM, S8C1T and S7C1T
    *b"\x1B    ",
    *b"\x1B    ",
    // DECCOLM and DECOM
    *b"\x1B[?3 ",
    *b"\x1B[?6 ",
];

/// The lengths of the entries of `FRONTS`, without the spaces at their end.
pub(crate) const LENGTHS: [usize; ALL_MODES] = [3, 3, 4, 4, 4, 4, 4, 4, 4, 5, 1, 2, 4, 4];

/// The last byte of what sets each mode.
const SET: [u8; ALL_MODES] = *b"hhhhhhhhhh=Ghh";

/// The last byte of what resets each mode.
const RESET: [u8; ALL_MODES] = *b"llllllllll>Fll";

/// Returns the last byte of what sets or resets a mode.
#[inline(always)]
pub(crate) fn last_of(index: usize, on: bool) -> u8
    requires { index < ALL_MODES }
    ensures { result ≡ mode_last index on }
{
    if on { SET[index] } else { RESET[index] }
}

/// The values at power-up, in the order of the table.
pub const AT_POWER_UP: [bool; MODES] = [
    false, false, true, false, false, false, false, true, true, true, false, false,
];

/// Returns the value of each mode, in the order of the table.
pub fn mode_values(m: Modes) -> [bool; MODES]
    ensures { result ≡ map (λ row. row.1 m) mode_rows }
{
    [
        m.kam,
        m.irm,
        m.srm,
        m.lnm,
        m.decckm,
        m.decsclm,
        m.decscnm,
        m.decawm,
        m.decarm,
        m.dectcem,
        m.keypad_application,
        m.reports_8bit,
    ]
}
