//! Tabs, by functions that a VT220 lacks, and HT.
ghost use Rattle.std.specs.Prelude.{◌≡◌, ◌≤◌, ◌+◌, length, vec_len, vec_capacity};
ghost use Rattle.vt_term.specs.Tabs.{horizontal_tab};
ghost use Rattle.vt_xterm.specs.Tabs.{tab, stop_before, back_tab, cursor_forward_tabulation, cursor_backward_tabulation};

use vt_syntax::EventKind;
use vt_term::SizedTerminal;

/// The control HT.
pub(crate) const HT: u8 = 0x09;

/// Returns the nearest stop left of a column, or else column 1.
pub(crate) fn stop_before(stops: &[bool], col: usize) -> usize
    requires { (1 ≤ col) × (col ≤ length stops.now) }
    ensures value { result ≡ stop_before stops.now col }
    ensures some { 1 ≤ result }
    ensures within { result ≤ col }
{
    let mut c = col;
    while c > 1 {
        c -= 1;
        if c > 1 && stops[c - 1] {
            return c;
        }
    }
    1
}

/// Moves the cursor to the stop before it.
fn back_tab(terminal: &mut SizedTerminal)
    ensures { terminal.new ≡ record terminal.old { display = back_tab terminal.old.display } }
{
    let cursor = terminal.cursor();
    terminal.soundness();
    let col = stop_before(terminal.stops(), cursor.col);
    terminal.move_to(cursor.row, col);
}

/// Carries out HT as a VT220 does. It causes no report.
#[tactic(auto, unfolding(vt_term::specs::Functions::control_any, vt_term::specs::Reports::control_report_any))]
pub(crate) fn forward_tab(terminal: &mut SizedTerminal, out: &mut Vec<u8>)
    requires { vec_len out.old + 10 ≤ vec_capacity out.old }
    ensures terminal { terminal.new ≡ record terminal.old { display = horizontal_tab terminal.old.display } }
    ensures out { out.new.items ≡ out.old.items }
    ensures len { vec_len out.new ≡ vec_len out.old }
    ensures capacity { vec_capacity out.old ≤ vec_capacity out.new }
{
    terminal.carry_out(EventKind::Control(HT), &[], out);
}

/// Carries out HT, which has no effect while the wrap flag is set. `out` stays, and has capacity for ten more bytes.
pub(crate) fn tab(terminal: &mut SizedTerminal, out: &mut Vec<u8>)
    requires { vec_len out.old + 10 ≤ vec_capacity out.old }
    ensures terminal { terminal.new ≡ record terminal.old { display = tab terminal.old.display } }
    ensures out { out.new.items ≡ out.old.items }
    ensures len { vec_len out.new ≡ vec_len out.old }
    ensures capacity { vec_capacity out.old ≤ vec_capacity out.new }
{
    if !terminal.cursor().wrap {
        forward_tab(terminal, out);
    }
}

/// Carries out CHT: HT `n` times. `out` stays, and has capacity for ten more bytes.
pub(crate) fn cursor_forward_tabulation(terminal: &mut SizedTerminal, n: u16, out: &mut Vec<u8>)
    requires { vec_len out.old + 10 ≤ vec_capacity out.old }
    ensures terminal { terminal.new
        ≡ record terminal.old { display = cursor_forward_tabulation n terminal.old.display } }
    ensures out { out.new.items ≡ out.old.items }
    ensures len { vec_len out.new ≡ vec_len out.old }
    ensures capacity { vec_capacity out.old ≤ vec_capacity out.new }
{
    let count = (n as usize).min(terminal.width());
    for _ in 0..count {
        tab(terminal, out);
    }
}

/// Carries out CBT: moves the cursor to the stop before it, `n` times.
pub(crate) fn cursor_backward_tabulation(terminal: &mut SizedTerminal, n: u16)
    ensures { terminal.new ≡ record terminal.old { display = cursor_backward_tabulation n terminal.old.display } }
{
    let count = (n as usize).min(terminal.width());
    for _ in 0..count {
        back_tab(terminal);
    }
}
