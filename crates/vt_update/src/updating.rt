//! The update: bytes are chosen and played on the shown terminal. They are sent if that gives the wanted state.
ghost use Rattle.std.specs.Prelude.{◌≡◌, ◌↔◌, ◌+◌, ◌*◌, ◌≤◌, ◌<◌, ◌++◌, [], IsTrue};
ghost use Rattle.std.specs.Prelude.{drop, length, take, vec_len, vec_capacity};
ghost use Rattle.std.specs.Bool.{OnTrue, OnFalse};
ghost use Rattle.std.specs.Str.{IsAscii};
ghost use Rattle.vt_syntax.specs.declared.held.Held.TheVariants.{Nothing};
ghost use Rattle.vt_screen.specs.declared.size.Size.{Size};
ghost use Rattle.vt_screen.specs.Sizes.{IsSize};
ghost use Rattle.vt_term.specs.State.{State};
ghost use Rattle.vt_term.specs.Sound.{IsSoundAt, IsSoundSized};
ghost use Rattle.vt_term.specs.Play.{play};
ghost use Rattle.vt_paint.specs.Repaint.{paint};
ghost use Rattle.vt_paint.specs.Limits.{paint_limit, changes_limit};
ghost use Rattle.vt_paint.specs.Changes.{differing_at, AreChangesAt};
ghost use Rattle.vt_paint.specs.Spoken.{Speaks};
ghost use Rattle.vt_update.specs.Leads.{Updates, HasOtherColumns};
ghost use Rattle.vt_update.specs.Limits.{update_limit};

use crate::choice::push_choice;
use crate::laws::sized_leading;
use vt_paint::PAINT_LIMIT;
use vt_paint::laws::{sized_spoken, spoken};
use vt_paint::sized::{
    changed_places, changes_limit, paint_limit, repaint_changes_reserved, repaint_reserved,
};
use vt_screen::{MOST, Size};
use vt_term::laws::{sized_cuts, sized_soundness};
use vt_term::{ROWS, STOPS, SizedTerminal};

/// The most bytes of an update that are played at a time. Fewer are played if there isn't capacity for their reports,
/// ten bytes for each byte.
const CHUNK: usize = 1024;

/// The capacity for the reports of 64 bytes, which can always be played at a time. No report stays there.
const REPORT_ROOM: usize = 10 * 64;

/// The limit of an update of a VT220 in bytes, and the capacity that it needs: that of a repaint, and capacity to play it.
pub const UPDATE_LIMIT: usize = PAINT_LIMIT + REPORT_ROOM;

const _: () = prove!(UPDATE_LIMIT == 94152);

/// Returns the limit of an update of a screen of a size in bytes, and the capacity that it needs: that of a repaint, and
/// capacity to play it.
pub fn update_limit(size: Size) -> usize
    requires { IsSize size }
    ensures { result ≡ update_limit size }
{
    paint_limit(size) + REPORT_ROOM
}

/// Returns the limit of the chosen bytes: a sixth of that of a repaint, and 799, which is 16384 on a VT220. If more are needed,
/// the marked cells are sent.
fn choice_limit(to: &SizedTerminal) -> usize
    ensures { result ≤ paint_limit to.now.display.grid.size }
{
    let limit = paint_limit(to.size());
    (limit / 6 + 799).min(limit)
}

/// Returns the limit of an update to a terminal in bytes, if width and tab stops are equal and `count` cells differ.
fn small_limit(to: &SizedTerminal, count: usize) -> usize
    requires { count ≤ MOST * MOST }
    ensures { result ≡ changes_limit to.now.display.grid.size count }
{
    changes_limit(to.size(), count)
}

/// Plays the bytes of `out` that begin at `start`. Returns whether there was no report. `out` has capacity for the
/// reports of a chunk, and no report stays there.
#[inline(never)]
fn play_back(start: usize, shown: &mut SizedTerminal, out: &mut Vec<u8>) -> bool
    requires sound { IsSoundSized shown.old }
    requires start { start ≤ vec_len out.old }
    requires room { vec_len out.old + REPORT_ROOM ≤ vec_capacity out.old }
    ensures state { shown.new ≡ (play shown.old (drop start out.old.items)).state }
    ensures silent { IsTrue result → (play shown.old (drop start out.old.items)).reports ≡ [] }
    ensures sound { (size : Size) → IsSoundAt size shown.old → IsSoundAt size shown.new }
    ensures items { out.new.items ≡ out.old.items }
    ensures capacity { vec_capacity out.old ≤ vec_capacity out.new }
{
    sized_cuts();
    sized_soundness();
    let all = out.len() - start;
    let chunk = CHUNK.min((out.capacity() - out.len()) / 10);
    let mut silent = true;
    let mut at = 0;
    while at < all {
        let count = chunk.min(all - at);
        silent = play_chunk(start + at, count, shown, out) && silent;
        at += count;
    }
    silent
}

/// Plays `count` bytes of `out` that begin at `from`. Returns whether there was no report.
fn play_chunk(from: usize, count: usize, shown: &mut SizedTerminal, out: &mut Vec<u8>) -> bool
    requires count { count ≤ CHUNK }
    requires within { from + count ≤ vec_len out.old }
    requires room { vec_len out.old + 10 * count ≤ vec_capacity out.old }
    ensures state { shown.new ≡ (play shown.old (take count (drop from out.old.items))).state }
    ensures silent { IsTrue result → (play shown.old (take count (drop from out.old.items))).reports ≡ [] }
    ensures items { out.new.items ≡ out.old.items }
    ensures capacity { vec_capacity out.old ≤ vec_capacity out.new }
{
    let end = out.len();
    let mut chunk = [0; CHUNK];
    copy_part(from, out, &mut chunk[..count]);
    shown.feed_reserved(&chunk[..count], out);
    let silent = out.len() == end;
    out.truncate(end);
    silent
}

/// Fills `part` with the bytes of `all` that begin at `from`.
fn copy_part(from: usize, all: &[u8], part: &mut [u8])
    requires { from + length part.old ≤ length all.now }
    ensures { part.new ≡ take (length part.old) (drop from all.now) }
{
    part.copy_from_slice(&all[from..from + part.len()]);
}

/// Appends to `out` bytes that lead from `shown` to `to`, and brings `shown` into the state of `to`. Both are between
/// sequences. Returns whether they have one size. If not, it does nothing, since no bytes change a terminal's size. `out` has
/// capacity for `update_limit` more bytes. It never fails and allocates nothing.
///
/// If width and tab stops are equal, it appends at most `changes_limit` bytes: 28 for each cell that differs, and 230. (With 100
/// rows or more it is 234 in place of 230.) Otherwise it appends the repaint. An update after an update to the same state is
/// empty.
///
/// The bytes are ASCII: graphic characters, and the control functions that `Spoken` names, in their 7-bit forms.
pub fn update_reserved(shown: &mut SizedTerminal, to: &SizedTerminal, out: &mut Vec<u8>) -> bool
    requires shown { shown.old.held ≡ Nothing }
    requires to { to.now.held ≡ Nothing }
    requires room { vec_len out.old + update_limit to.now.display.grid.size ≤ vec_capacity out.old }
    ensures same_size { IsTrue result ↔ (shown.old.display.grid.size ≡ to.now.display.grid.size) }
    ensures leads { OnTrue result (Updates shown.old to.now out.old.items out.new.items) }
    ensures shown { OnTrue result (shown.new ≡ to.now) }
    ensures nothing { OnTrue result ((out.new.items ≡ out.old.items) ↔ (shown.old ≡ to.now)) }
    ensures small { OnTrue result (shown.old.display.grid.width ≡ to.now.display.grid.width
        → shown.old.display.stops ≡ to.now.display.stops
        → vec_len out.new
        ≤ vec_len out.old
        + changes_limit to.now.display.grid.size
        (differing_at to.now.display.grid.size shown.old.display.grid to.now.display.grid)) }
    ensures repaint { OnTrue result (HasOtherColumns shown.old to.now → out.new.items ≡ out.old.items ++ paint to.now) }
    ensures speaks { OnTrue result (Speaks (drop (vec_len out.old) out.new.items)) }
    ensures ascii { OnTrue result (IsAscii (drop (vec_len out.old) out.new.items)) }
    ensures same_out { OnFalse result (out.new.items ≡ out.old.items) }
    ensures same_shown { OnFalse result (shown.new ≡ shown.old) }
    ensures bounded { vec_len out.new ≤ vec_len out.old + update_limit to.now.display.grid.size }
    ensures capacity { vec_capacity out.old ≤ vec_capacity out.new }
{
    if !shown.size().same(to.size()) {
        return false;
    }
    shown.soundness();
    to.soundness();
    let size = to.size();
    if size.rows <= ROWS && size.wide <= STOPS {
        bring::<ROWS, STOPS>(shown, to, out);
    } else {
        bring::<MOST, MOST>(shown, to, out);
    }
    true
}

/// Appends to `out` bytes that lead from `shown` to `to`, and brings `shown` into the state of `to`. Both are between sequences
/// and have one size, of at most `R` rows and `C` columns. (Speed: so the marks and counts of a VT220 are as large as its screen. It isn't
/// inlined, so that those of a larger screen are on no other call's stack.)
#[inline(never)]
pub(crate) fn bring<const R: usize, const C: usize>(
    shown: &mut SizedTerminal,
    to: &SizedTerminal,
    out: &mut Vec<u8>,
)
    requires shown { shown.old.held ≡ Nothing }
    requires to { to.now.held ≡ Nothing }
    requires sound { IsSoundAt to.now.display.grid.size shown.old }
    requires sound_to { IsSoundSized to.now }
    requires rows { to.now.display.grid.size.rows ≤ R }
    requires columns { to.now.display.grid.size.wide ≤ C }
    requires most_rows { R ≤ MOST }
    requires most_columns { C ≤ MOST }
    requires room { vec_len out.old + update_limit to.now.display.grid.size ≤ vec_capacity out.old }
    ensures leads { Updates shown.old to.now out.old.items out.new.items }
    ensures shown { shown.new ≡ to.now }
    ensures nothing { (out.new.items ≡ out.old.items) ↔ (shown.old ≡ to.now) }
    ensures small { shown.old.display.grid.width ≡ to.now.display.grid.width
        → shown.old.display.stops ≡ to.now.display.stops
        → vec_len out.new
        ≤ vec_len out.old
        + changes_limit to.now.display.grid.size
        (differing_at to.now.display.grid.size shown.old.display.grid to.now.display.grid) }
    ensures repaint { HasOtherColumns shown.old to.now → out.new.items ≡ out.old.items ++ paint to.now }
    ensures speaks { Speaks (drop (vec_len out.old) out.new.items) }
    ensures ascii { IsAscii (drop (vec_len out.old) out.new.items) }
    ensures bounded { vec_len out.new ≤ vec_len out.old + update_limit to.now.display.grid.size }
    ensures capacity { vec_capacity out.old ≤ vec_capacity out.new }
{
    sized_leading();
    spoken();
    if shown.same_state(to) {
        return;
    }
    if !same_columns(shown, to) {
        send_repaint(shown, to, out);
        return;
    }
    let mut marks = [[false; C]; R];
    let mut counts = [0; R];
    let count = changed_places(shown, to, &mut marks, &mut counts);
    if !send_choice::<R, C>(count, &counts, shown, to, out) {
        send_changes(&marks, shown, to, out);
    }
}

/// Returns whether two terminals have the same width and the same tab stops.
fn same_columns(shown: &SizedTerminal, to: &SizedTerminal) -> bool
    ensures { IsTrue result
        ↔ ((shown.now.display.grid.width ≡ to.now.display.grid.width)
        × (shown.now.display.stops ≡ to.now.display.stops)) }
{
    shown.width() == to.width() && same_stops(shown.stops(), to.stops())
}

fn same_stops(a: &[bool], b: &[bool]) -> bool
    ensures { IsTrue result ↔ (a.now ≡ b.now) }
{
    a == b
}

/// Returns whether `len` bytes are few for `count` cells that differ.
fn is_short(len: usize, to: &SizedTerminal, count: usize) -> bool
    requires { count ≤ MOST * MOST }
    ensures few { IsTrue result → len ≤ changes_limit to.now.display.grid.size count }
    ensures room { IsTrue result → len ≤ paint_limit to.now.display.grid.size }
{
    len <= choice_limit(to) && len <= small_limit(to, count)
}

/// Appends the chosen bytes, and plays them on `shown` if they are few. If they don't lead to `to` without a report, it
/// removes them and returns false. `shown` is then in any state. `count` cells differ, and `counts` has their number in
/// each row.
#[inline(never)]
fn send_choice<const R: usize, const C: usize>(
    count: usize,
    counts: &[usize; R],
    shown: &mut SizedTerminal,
    to: &SizedTerminal,
    out: &mut Vec<u8>,
) -> bool
    requires sound { IsSoundAt to.now.display.grid.size shown.old }
    requires rows { to.now.display.grid.size.rows ≤ R }
    requires most_rows { R ≤ MOST }
    requires most_columns { C ≤ MOST }
    requires count { count ≡ differing_at to.now.display.grid.size shown.old.display.grid to.now.display.grid }
    requires bounded { count ≤ MOST * MOST }
    requires room { vec_len out.old + update_limit to.now.display.grid.size ≤ vec_capacity out.old }
    ensures leads { OnTrue result (Updates shown.old to.now out.old.items out.new.items) }
    ensures shown { OnTrue result (shown.new ≡ to.now) }
    ensures sound { IsSoundAt to.now.display.grid.size shown.new }
    ensures small { OnTrue result (vec_len out.new
        ≤ vec_len out.old
        + changes_limit to.now.display.grid.size
        (differing_at to.now.display.grid.size shown.old.display.grid to.now.display.grid)) }
    ensures speaks { OnTrue result (Speaks (drop (vec_len out.old) out.new.items)) }
    ensures taken_back { OnFalse result (out.new.items ≡ out.old.items) }
    ensures bounded { vec_len out.new ≤ vec_len out.old + update_limit to.now.display.grid.size }
    ensures capacity { vec_capacity out.old ≤ vec_capacity out.new }
{
    sized_leading();
    let start = out.len();
    push_choice::<R, C>(shown, counts, to, out);
    if is_short(out.len() - start, to, count)
        && play_back(start, shown, out)
        && shown.same_state(to)
    {
        return true;
    }
    out.truncate(start);
    false
}

/// Appends bytes that write only the marked cells. Then it brings `shown`, which may be in any state, to `to` by the
/// repaint. The repaint isn't sent.
#[inline(never)]
fn send_changes<const R: usize, const C: usize>(
    marks: &[[bool; C]; R],
    shown: &mut SizedTerminal,
    to: &SizedTerminal,
    out: &mut Vec<u8>,
)
    requires to { to.now.held ≡ Nothing }
    requires sound { IsSoundAt to.now.display.grid.size shown.old }
    requires rows { to.now.display.grid.size.rows ≤ R }
    requires columns { to.now.display.grid.size.wide ≤ C }
    requires room { vec_len out.old + update_limit to.now.display.grid.size ≤ vec_capacity out.old }
    ensures leads { (s : State) → IsSoundAt to.now.display.grid.size s
        → AreChangesAt to.now.display.grid.size marks.now s.display to.now.display
        → Updates s to.now out.old.items out.new.items }
    ensures shown { shown.new ≡ to.now }
    ensures small { (s : State) → AreChangesAt to.now.display.grid.size marks.now s.display to.now.display
        → vec_len out.new
        ≤ vec_len out.old
        + changes_limit to.now.display.grid.size
        (differing_at to.now.display.grid.size s.display.grid to.now.display.grid) }
    ensures speaks { (s : State) → AreChangesAt to.now.display.grid.size marks.now s.display to.now.display
        → Speaks (drop (vec_len out.old) out.new.items) }
    ensures bounded { vec_len out.new ≤ vec_len out.old + paint_limit to.now.display.grid.size }
    ensures capacity { vec_capacity out.old ≤ vec_capacity out.new }
{
    sized_leading();
    let before = out.len();
    send_repaint(shown, to, out);
    out.truncate(before);
    repaint_changes_reserved(marks, to, out);
}

/// Appends the repaint of `to`, which leads there from any state, and plays it on `shown`.
fn send_repaint(shown: &mut SizedTerminal, to: &SizedTerminal, out: &mut Vec<u8>)
    requires to { to.now.held ≡ Nothing }
    requires sound { IsSoundAt to.now.display.grid.size shown.old }
    requires room { vec_len out.old + update_limit to.now.display.grid.size ≤ vec_capacity out.old }
    ensures items { out.new.items ≡ out.old.items ++ paint to.now }
    ensures leads { (s : State) → IsSoundAt to.now.display.grid.size s → Updates s to.now out.old.items out.new.items }
    ensures shown { shown.new ≡ to.now }
    ensures speaks { Speaks (drop (vec_len out.old) out.new.items) }
    ensures bounded { vec_len out.new ≤ vec_len out.old + paint_limit to.now.display.grid.size }
    ensures capacity { vec_capacity out.old ≤ vec_capacity out.new }
{
    sized_leading();
    sized_spoken();
    shown.soundness();
    to.soundness();
    let start = out.len();
    repaint_reserved(to, out);
    let _ = play_back(start, shown, out);
}
