//! The update: steps are chosen and played on the shown xterm. They are sent if that gives the wanted state.
ghost use Rattle.std.specs.Prelude.{◌≡◌, ◌↔◌, ◌+◌, ◌*◌, ◌≤◌, [], IsTrue, length, take, drop, vec_len, vec_capacity};
ghost use Rattle.std.specs.Bool.{OnTrue, OnFalse};
ghost use Rattle.vt_syntax.specs.declared.held.Held.TheVariants.{Nothing};
ghost use Rattle.vt_screen.specs.Sizes.{IsSize};
ghost use Rattle.vt_feed.specs.Languages.{reading};
ghost use Rattle.vt_xterm_repaint.specs.Limits.{repaint_limit};
ghost use Rattle.vt_xterm_update.specs.Updates.{Updates, xterm_update_limit};
ghost use Rattle.vt_xterm_update.specs.Private.Appended.{Appended};

use crate::choice::{Choice, is_close};
use crate::laws::{leading, sizes};
use crate::step::{STEP_LIMIT, Step, push_step};
use vt_feed::laws::readings;
use vt_screen::Size;
use vt_xterm_display::Xterm;
use vt_xterm_repaint::{repaint_limit, repaint_reserved};

/// The capacity for the reports of 64 bytes, more than those of a step. No report stays there.
const REPORT_ROOM: usize = 10 * 64;

/// Returns the limit of an update of a screen of a size in bytes, and the capacity that it needs: that of a repaint, and capacity to play
/// its steps.
pub fn update_limit(size: Size) -> usize
    requires { IsSize size }
    ensures { result ≡ xterm_update_limit size }
{
    repaint_limit(size) + REPORT_ROOM
}

/// Fills `part` with the bytes of `all` that begin at `from`.
fn copy_part(from: usize, all: &[u8], part: &mut [u8])
    requires { from + length part.old ≤ length all.now }
    ensures { part.new ≡ take (length part.old) (drop from all.now) }
{
    part.copy_from_slice(&all[from..from + part.len()]);
}

/// States that both pages have one size, for proofs. It does nothing when it runs.
fn one_size(x: &Xterm)
    ensures { x.now.screen.other.grid.size ≡ x.now.screen.shown.grid.size }
{
    x.screen().soundness();
}

/// Appends a step, and plays it on `shown`. Returns whether it reported nothing.
fn send_step(step: &Step, shown: &mut Xterm, out: &mut Vec<u8>) -> bool
    requires { vec_len out.old + STEP_LIMIT + REPORT_ROOM ≤ vec_capacity out.old }
    ensures led { OnTrue result (Updates shown.old shown.new out.old.items out.new.items) }
    ensures appended { Appended out.old.items out.new.items }
    ensures size { shown.new.screen.shown.grid.size ≡ shown.old.screen.shown.grid.size }
    ensures bounded { vec_len out.new ≤ vec_len out.old + STEP_LIMIT }
    ensures capacity { vec_capacity out.old ≤ vec_capacity out.new }
{
    sizes();
    one_size(shown);
    let start = out.len();
    push_step(step, out);
    let end = out.len();
    let count = end - start;
    let mut bytes = [0; STEP_LIMIT];
    copy_part(start, out, &mut bytes[..count]);
    shown.feed_reserved(&bytes[..count], out);
    if out.len() != end {
        out.truncate(end);
        return false;
    }
    true
}

/// Appends chosen steps, of at most as many bytes as a repaint may have, and plays them on `shown`. Returns whether they are complete, and
/// report nothing. If not, `shown` is in any state.
fn send_steps(shown: &mut Xterm, to: &Xterm, out: &mut Vec<u8>) -> bool
    requires { vec_len out.old + xterm_update_limit to.now.screen.shown.grid.size ≤ vec_capacity out.old }
    ensures led { OnTrue result (Updates shown.old shown.new out.old.items out.new.items) }
    ensures appended { Appended out.old.items out.new.items }
    ensures size { shown.new.screen.shown.grid.size ≡ shown.old.screen.shown.grid.size }
    ensures bounded { vec_len out.new ≤ vec_len out.old + repaint_limit to.now.screen.shown.grid.size }
    ensures capacity { vec_capacity out.old ≤ vec_capacity out.new }
{
    let limit = repaint_limit(to.size());
    let end = out.len() + limit;
    let mut choice = Choice::new(shown.screen(), to.screen());
    for _ in 0..limit {
        let Some(step) = choice.next(shown.screen(), to.screen()) else {
            return true;
        };
        if end - out.len() < STEP_LIMIT {
            return false;
        }
        if !send_step(&step, shown, out) {
            return false;
        }
    }
    false
}

/// Appends chosen bytes, and plays them on `shown`. Returns whether they lead to `to`, and report nothing. If not, `shown` is in any state.
#[inline(never)]
#[tactic(auto, using(crate::proofs::Turns::appended_none))]
fn send_choice(shown: &mut Xterm, to: &Xterm, out: &mut Vec<u8>) -> bool
    requires { vec_len out.old + xterm_update_limit to.now.screen.shown.grid.size ≤ vec_capacity out.old }
    ensures leads { OnTrue result (Updates shown.old to.now out.old.items out.new.items) }
    ensures shown { OnTrue result (shown.new ≡ to.now) }
    ensures appended { Appended out.old.items out.new.items }
    ensures size { shown.new.screen.shown.grid.size ≡ shown.old.screen.shown.grid.size }
    ensures bounded { vec_len out.new ≤ vec_len out.old + repaint_limit to.now.screen.shown.grid.size }
    ensures capacity { vec_capacity out.old ≤ vec_capacity out.new }
{
    if !is_close(shown.screen(), to.screen()) {
        return false;
    }
    if !send_steps(shown, to, out) {
        return false;
    }
    if !shown.same(to) {
        return false;
    }
    true
}

/// Appends bytes that lead from `shown` to `to`, and brings `shown` into the state of `to`. Both are between sequences and
/// characters. Returns whether they have one size. If not, it does nothing, since no bytes change an xterm's size. `out` has capacity
/// for `update_limit` more bytes. It never fails and allocates nothing.
///
/// The bytes may be cut anywhere. They report nothing. An update after an update to the same state is empty.
pub fn update_reserved(shown: &mut Xterm, to: &Xterm, out: &mut Vec<u8>) -> bool
    requires shown { shown.old.reading ≡ reading Nothing [] }
    requires to { to.now.reading ≡ reading Nothing [] }
    requires room { vec_len out.old + xterm_update_limit to.now.screen.shown.grid.size ≤ vec_capacity out.old }
    ensures same_size { IsTrue result ↔ (shown.old.screen.shown.grid.size ≡ to.now.screen.shown.grid.size) }
    ensures leads { OnTrue result (Updates shown.old to.now out.old.items out.new.items) }
    ensures shown { OnTrue result (shown.new ≡ to.now) }
    ensures nothing { OnTrue result ((out.new.items ≡ out.old.items) ↔ (shown.old ≡ to.now)) }
    ensures same_out { OnFalse result (out.new.items ≡ out.old.items) }
    ensures same_shown { OnFalse result (shown.new ≡ shown.old) }
    ensures bounded { vec_len out.new ≤ vec_len out.old + xterm_update_limit to.now.screen.shown.grid.size }
    ensures capacity { vec_capacity out.old ≤ vec_capacity out.new }
{
    leading();
    readings();
    if !shown.size().same(to.size()) {
        return false;
    }
    if shown.same(to) {
        return true;
    }
    let start = out.len();
    if send_choice(shown, to, out) {
        return true;
    }
    out.truncate(start);
    repaint_reserved(to, out);
    shown.copy_from(to);
    true
}
