//! The steps after which everything but the cells is as it should be.
use crate::cursor::cursor_step;
use crate::looks::look_step;
use crate::step::{Step, number};
use vt_paint::{Function, mode_values};
use vt_term::{Modes, Sets};
use vt_xterm_display::{Coding, Mouse, Settings, XtermDisplay};

/// Returns the first step to the margins and to DECOM.
fn margins_step(d: &XtermDisplay, t: &XtermDisplay) -> Option<Step> {
    let margins = t.shown.margins;
    if d.shown.margins != margins {
        return Some(Step::Send(Function::margins_to(number(margins.top), number(margins.bottom))));
    }
    if d.bounded != t.bounded {
        return Some(Step::Private(69, t.bounded));
    }
    if d.sides != t.sides {
        return Some(Step::Margins(t.sides));
    }
    if d.shown.modes.decom != t.shown.modes.decom {
        return Some(Step::Private(6, t.shown.modes.decom));
    }
    None
}

/// Returns the first step to graphic sets, without a single shift.
fn sets_step(now: &Sets, wanted: &Sets) -> Option<Step> {
    for slot in 0..4u8 {
        let set = wanted.set(slot);
        if now.set(slot) != set {
            return Some(Step::Send(Function::designation(slot, set)));
        }
    }
    if now.left() != wanted.left() {
        return Some(Step::Send(Function::lock_left(wanted.left())));
    }
    if now.right() != wanted.right() {
        return Some(Step::Send(Function::lock_right(wanted.right())));
    }
    None
}

/// Returns the first step to modes that move nothing.
fn modes_step(now: Modes, wanted: Modes) -> Option<Step> {
    let old = mode_values(now);
    for (i, on) in mode_values(wanted).iter().enumerate() {
        if old[i] != *on {
            return Some(Step::Send(Function::mode(i, *on)));
        }
    }
    None
}

/// Returns the private mode of a mode of the mouse, or one that turns it off.
fn mouse_number(mouse: Mouse) -> u16 {
    match mouse {
        Mouse::Off => 1000,
        Mouse::Presses => 9,
        Mouse::Buttons => 1000,
        Mouse::Drags => 1002,
        Mouse::Motion => 1003,
    }
}

/// Returns the private mode of a coding, or 0.
fn coding_number(coding: Coding) -> u16 {
    match coding {
        Coding::Bytes => 0,
        Coding::Utf8 => 1005,
        Coding::Sgr => 1006,
        Coding::Urxvt => 1015,
        Coding::Pixels => 1016,
    }
}

/// Returns the first step to settings.
fn settings_step(now: Settings, wanted: Settings) -> Option<Step> {
    if now.brackets != wanted.brackets {
        return Some(Step::Private(2004, wanted.brackets));
    }
    if now.focus != wanted.focus {
        return Some(Step::Private(1004, wanted.focus));
    }
    if now.synchronized != wanted.synchronized {
        return Some(Step::Private(2026, wanted.synchronized));
    }
    if now.mouse != wanted.mouse {
        return Some(Step::Private(mouse_number(wanted.mouse), wanted.mouse != Mouse::Off));
    }
    if now.coding != wanted.coding {
        let number = coding_number(wanted.coding);
        return Some(if number == 0 {
            Step::Private(coding_number(now.coding), false)
        } else {
            Step::Private(number, true)
        });
    }
    if now.shape != wanted.shape || now.blinks != wanted.blinks {
        return Some(Step::Style(wanted.shape, wanted.blinks));
    }
    None
}

/// Returns the first step to the look, the sets, the modes and the settings.
fn kept_step(d: &XtermDisplay, t: &XtermDisplay) -> Option<Step> {
    if let Some(step) = look_step(d, t.shown.pen) {
        return Some(step);
    }
    if let Some(step) = sets_step(&d.shown.sets, &t.shown.sets) {
        return Some(step);
    }
    if let Some(step) = modes_step(d.shown.modes, t.shown.modes) {
        return Some(step);
    }
    if let Some(step) = settings_step(d.settings, t.settings) {
        return Some(step);
    }
    if d.resizes != t.resizes {
        return Some(Step::Private(40, t.resizes));
    }
    if d.shown.sets.pending() == t.shown.sets.pending() {
        return None;
    }
    let slot = t.shown.sets.pending()?;
    Some(Step::Send(Function::single_shift(slot)))
}

/// Returns the first step from equal cells to an equal state.
pub(crate) fn last_step(d: &XtermDisplay, t: &XtermDisplay) -> Option<Step> {
    if let Some(step) = margins_step(d, t) {
        return Some(step);
    }
    if let Some(step) = cursor_step(d, t) {
        return Some(step);
    }
    kept_step(d, t)
}
