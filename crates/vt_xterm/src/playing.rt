//! Playing bytes with the functions of xterm, without a log.
ghost use Rattle.std.specs.Prelude.{◌≡◌, ◌≤◌, ◌+◌, ◌*◌, ◌++◌, length, take, vec_len, vec_capacity, None};
ghost use Rattle.vt_syntax.specs.Event.{event_of};
ghost use Rattle.vt_syntax.specs.Spelling.{IsEvent};
ghost use Rattle.vt_term.specs.Reports.{report};
ghost use Rattle.vt_xterm.specs.Front.{xterm_effect};
ghost use Rattle.vt_xterm.specs.Pages.{screens, shown_by};
ghost use Rattle.vt_term.specs.Machines.{KeepsSize};
ghost use Rattle.vt_xterm.specs.Play.{xterm, whole_of};
ghost use Rattle.vt_xterm.specs.Private.Profiles.{AreOfOneSize};
ghost use Rattle.vt_xterm.specs.Private.Feeds.{FeedsBytes, KeepSizes};

use crate::finder::Setter;
use crate::front::SizedPages;
use crate::functions::carry_out;
use vt_glyph::laws::{glyphs, soundness as sets_soundness};
use vt_screen::laws::{rows, tests};
use vt_syntax::laws::one_split;
use vt_syntax::{EventKind, Taken, Values};
use vt_term::{Profile, SizedTerminal};

/// Plays bytes of the terminal, with the functions of xterm. Returns how many it played: all.
pub(crate) fn feed_pages(
    terminal: &mut SizedTerminal,
    pages: &mut SizedPages,
    piece: &[u8],
    out: &mut Vec<u8>,
) -> usize
    requires room { vec_len out.old + 10 * length piece.now ≤ vec_capacity out.old }
    requires one_size { pages.old.other.grid.size ≡ terminal.old.display.grid.size }
    ensures all { result ≡ length piece.now }
    ensures sizes { KeepSizes terminal.old pages.old terminal.new pages.new }
    ensures fed { FeedsBytes (whole_of terminal.old pages.old) (take result piece.now) (whole_of terminal.new pages.new)
        out.old.items out.new.items }
    ensures bounded { vec_len out.new ≤ vec_len out.old + 10 * result }
    ensures capacity { vec_capacity out.old ≤ vec_capacity out.new }
{
    terminal.soundness();
    one_split();
    let mut at = 0;
    while at < piece.len() {
        at += feed_block(terminal, pages, &piece[at..], out);
    }
    at
}

/// Plays the front of a chunk that isn't empty. Returns how many bytes it played.
#[inline(always)]
pub(crate) fn feed_block(
    terminal: &mut SizedTerminal,
    pages: &mut SizedPages,
    piece: &[u8],
    out: &mut Vec<u8>,
) -> usize
    requires some { 1 ≤ length piece.now }
    requires room { vec_len out.old + 10 * length piece.now ≤ vec_capacity out.old }
    requires one_size { pages.old.other.grid.size ≡ terminal.old.display.grid.size }
    ensures some { 1 ≤ result }
    ensures within { result ≤ length piece.now }
    ensures sizes { KeepSizes terminal.old pages.old terminal.new pages.new }
    ensures fed { FeedsBytes (whole_of terminal.old pages.old) (take result piece.now) (whole_of terminal.new pages.new)
        out.old.items out.new.items }
    ensures bounded { vec_len out.new ≤ vec_len out.old + 10 * result }
    ensures capacity { vec_capacity out.old ≤ vec_capacity out.new }
{
    one_split();
    terminal.soundness();
    if pages.sides.is_some() {
        return feed_one(terminal, pages, piece, out);
    }
    feed_before(terminal, pages, piece, out)
}

/// Plays the front of a chunk that isn't empty up to an event that sets DECLRMM, or this event. Returns how many bytes it played.
#[inline(always)]
fn feed_before(
    terminal: &mut SizedTerminal,
    pages: &mut SizedPages,
    piece: &[u8],
    out: &mut Vec<u8>,
) -> usize
    requires some { 1 ≤ length piece.now }
    requires none { pages.old.sides ≡ None }
    requires room { vec_len out.old + 10 * length piece.now ≤ vec_capacity out.old }
    requires one_size { pages.old.other.grid.size ≡ terminal.old.display.grid.size }
    ensures some { 1 ≤ result }
    ensures within { result ≤ length piece.now }
    ensures sizes { KeepSizes terminal.old pages.old terminal.new pages.new }
    ensures fed { FeedsBytes (whole_of terminal.old pages.old) (take result piece.now) (whole_of terminal.new pages.new)
        out.old.items out.new.items }
    ensures bounded { vec_len out.new ≤ vec_len out.old + 10 * result }
    ensures capacity { vec_capacity out.old ≤ vec_capacity out.new }
{
    one_split();
    terminal.soundness();
    let played = feed_written(terminal, pages, piece, out);
    if played == piece.len() {
        return played;
    }
    played + feed_one(terminal, pages, &piece[played..], out)
}

/// Plays the front of a chunk that isn't empty, up to the first event. Returns how many bytes it played.
#[inline(never)]
fn feed_one(
    terminal: &mut SizedTerminal,
    pages: &mut SizedPages,
    piece: &[u8],
    out: &mut Vec<u8>,
) -> usize
    requires some { 1 ≤ length piece.now }
    requires room { vec_len out.old + 10 ≤ vec_capacity out.old }
    requires one_size { pages.old.other.grid.size ≡ terminal.old.display.grid.size }
    ensures some { 1 ≤ result }
    ensures within { result ≤ length piece.now }
    ensures sizes { KeepSizes terminal.old pages.old terminal.new pages.new }
    ensures fed { FeedsBytes (whole_of terminal.old pages.old) (take result piece.now) (whole_of terminal.new pages.new)
        out.old.items out.new.items }
    ensures bounded { vec_len out.new ≤ vec_len out.old + 10 * result }
    ensures capacity { vec_capacity out.old ≤ vec_capacity out.new }
{
    let mut values = Values::new();
    let Taken { bytes, event } = terminal.next_event(piece, &mut values);
    let Some(kind) = event else {
        return bytes;
    };
    carry_out_whole(terminal, pages, kind, values.as_slice(), out);
    bytes
}

/// Plays the front of a chunk up to an event that sets DECLRMM. Returns how many bytes it played. Speed: nothing else feeds this profile
/// with this observer, so there is one copy of the loop, in which all is inline.
#[inline(never)]
fn feed_written(
    terminal: &mut SizedTerminal,
    pages: &mut SizedPages,
    piece: &[u8],
    out: &mut Vec<u8>,
) -> usize
    requires none { pages.old.sides ≡ None }
    requires room { vec_len out.old + 10 * length piece.now ≤ vec_capacity out.old }
    requires one_size { pages.old.other.grid.size ≡ terminal.old.display.grid.size }
    ensures within { result ≤ length piece.now }
    ensures sizes { KeepSizes terminal.old pages.old terminal.new pages.new }
    ensures fed { FeedsBytes (whole_of terminal.old pages.old) (take result piece.now) (whole_of terminal.new pages.new)
        out.old.items out.new.items }
    ensures bounded { vec_len out.new ≤ vec_len out.old + 10 * result }
    ensures capacity { vec_capacity out.old ≤ vec_capacity out.new }
{
    terminal.soundness();
    pages.soundness();
    pages.keeps_size();
    one_split();
    terminal.feed_as(pages, piece, &mut Setter, out)
}

/// States that events keep the sizes, for proofs. It does nothing when it runs.
#[inline(always)]
fn size_stays()
    ensures { KeepsSize xterm AreOfOneSize }
{
    glyphs();
    sets_soundness();
    rows();
    tests();
}

/// Carries out an event, and appends its report to `out`, which has capacity for ten more bytes.
#[inline(always)]
pub(crate) fn carry_out_whole(
    terminal: &mut SizedTerminal,
    pages: &mut SizedPages,
    kind: EventKind,
    values: &[u16],
    out: &mut Vec<u8>,
)
    requires event { IsEvent (event_of kind values.now) }
    requires room { vec_len out.old + 10 ≤ vec_capacity out.old }
    requires one_size { pages.old.other.grid.size ≡ terminal.old.display.grid.size }
    ensures sizes { KeepSizes terminal.old pages.old terminal.new pages.new }
    ensures terminal { terminal.new
        ≡ shown_by (xterm_effect (event_of kind values.now) (screens terminal.old pages.old)) terminal.old.held }
    ensures pages { pages.new ≡ (xterm_effect (event_of kind values.now) (screens terminal.old pages.old)).pages }
    ensures reports { out.new.items ≡ out.old.items ++ report (event_of kind values.now) terminal.old.display }
    ensures bounded { vec_len out.new ≤ vec_len out.old + 10 }
    ensures capacity { vec_capacity out.old ≤ vec_capacity out.new }
{
    terminal.soundness();
    pages.soundness();
    size_stays();
    carry_out(terminal, pages, kind, values, out);
}
