//! Feeding: what a host sends under TERM=xterm changes a terminal's state, and gives report bytes.
ghost use Rattle.std.specs.Prelude.{◌≡◌, ◌<◌, ◌+◌, ◌*◌, ◌≤◌, ◌++◌, ◌⊎◌, [], ◌∷◌, length, take, flat_map};
ghost use Rattle.std.specs.Prelude.{vec_len, vec_capacity, None};
ghost use Rattle.vt_syntax.specs.Event.{event_of};
ghost use Rattle.vt_term.specs.Text.{line_text};
ghost use Rattle.vt_utf8.specs.Decoding.{pending_after};
ghost use Rattle.vt_xterm.specs.Limits.{lines_limit, xterm_lines_limit};
ghost use Rattle.vt_xterm.specs.Pages.{screens};
ghost use Rattle.vt_xterm.specs.Log.{xterm_line_off};
ghost use Rattle.vt_xterm.specs.Play.{behind, play_bytes, play_characters, play_xterm, xterm_log, whole_of};
ghost use Rattle.vt_xterm.specs.Private.Feeds.{FeedsBytes, FeedsXterm, KeepSizes};

use crate::finder::Finder;
use crate::front::{SizedFront, SizedPages};
use crate::log::{LineLog, PageLog, feed_terminals};
use crate::playing::carry_out_whole;
use vt_syntax::laws::one_split;
use vt_syntax::{EventKind, Taken, Values};
use vt_term::{Lines, Nobody, SizedTerminal};
use vt_utf8::TRANSLATION_LIMIT;
use vt_utf8::sized::{feed_character, feed_characters};

/// Plays a chunk of a host's bytes, in UTF-8 and with the functions of xterm, and appends the reports to `out`. `front` keeps
/// what is pending between chunks, and the page that isn't shown. `out` has capacity for ten more bytes for each byte of the
/// chunk. It never fails and allocates nothing.
pub fn feed_xterm_reserved(
    terminal: &mut SizedTerminal,
    front: &mut SizedFront,
    piece: &[u8],
    out: &mut Vec<u8>,
)
    requires room { vec_len out.old + 10 * length piece.now ≤ vec_capacity out.old }
    requires one_size { front.old.pages.other.grid.size ≡ terminal.old.display.grid.size }
    ensures size { terminal.new.display.grid.size ≡ terminal.old.display.grid.size }
    ensures other_size { front.new.pages.other.grid.size ≡ front.old.pages.other.grid.size }
    ensures state { terminal.new
        ≡ (play_xterm (behind terminal.old front.old) front.old.pending piece.now).whole.state }
    ensures pages { front.new.pages
        ≡ (play_xterm (behind terminal.old front.old) front.old.pending piece.now).whole.pages }
    ensures pending { front.new.pending ≡ pending_after front.old.pending piece.now }
    ensures reports { out.new.items ≡ out.old.items
        ++ (play_xterm (behind terminal.old front.old) front.old.pending piece.now).reports }
    ensures bounded { vec_len out.new ≤ vec_len out.old + 10 * length piece.now }
    ensures capacity { vec_capacity out.old ≤ vec_capacity out.new }
{
    feed_front(terminal, front, piece, &mut Nobody, out);
}

/// Returns the most bytes of lines that an event or a character scrolls off: the rows of a screen, or a line for each byte of a
/// translation.
#[inline(always)]
fn lines_limit(terminal: &SizedTerminal) -> usize
    ensures value { result ≡ lines_limit terminal.now.display.grid.size }
    ensures few { result ≤ 195330 }
{
    let size = terminal.size();
    size.rows.max(TRANSLATION_LIMIT) * terminal.row_text_limit()
}

/// Returns the capacity for lines without which a feed with a log stops: the most bytes of lines for one byte.
#[inline(always)]
pub fn xterm_lines_limit(terminal: &SizedTerminal) -> usize
    ensures { result ≡ xterm_lines_limit terminal.now.display.grid.size }
{
    2 * lines_limit(terminal)
}

/// Plays the front of a chunk of a host's bytes, in UTF-8 and with the functions of xterm. It appends the reports to `reports`
/// and at most `most` bytes of the lines that scroll off the main page to `lines`. Returns how many bytes it played. `front`
/// keeps what is pending between chunks, and the page that isn't shown.
///
/// If it stops early, `lines` has fewer than `xterm_lines_limit` bytes free, or fewer of `most` are left.
/// `reports` has capacity for ten more bytes for each byte of the chunk. It never fails and allocates nothing.
pub fn feed_xterm_log_reserved(
    terminal: &mut SizedTerminal,
    front: &mut SizedFront,
    piece: &[u8],
    reports: &mut Vec<u8>,
    lines: &mut Vec<u8>,
    most: usize,
) -> usize
    requires room { vec_len reports.old + 10 * length piece.now ≤ vec_capacity reports.old }
    requires one_size { front.old.pages.other.grid.size ≡ terminal.old.display.grid.size }
    ensures within { result ≤ length piece.now }
    ensures all { result < length piece.now → (vec_capacity lines.new < vec_len lines.new + xterm_lines_limit terminal.old.display.grid.size)
        ⊎ (vec_len lines.old + most < vec_len lines.new + xterm_lines_limit terminal.old.display.grid.size) }
    ensures size { terminal.new.display.grid.size ≡ terminal.old.display.grid.size }
    ensures other_size { front.new.pages.other.grid.size ≡ front.old.pages.other.grid.size }
    ensures state { terminal.new ≡ (play_xterm (behind terminal.old front.old) front.old.pending
        (take result piece.now)).whole.state }
    ensures pages { front.new.pages ≡ (play_xterm (behind terminal.old front.old) front.old.pending
        (take result piece.now)).whole.pages }
    ensures pending { front.new.pending ≡ pending_after front.old.pending (take result piece.now) }
    ensures reports { reports.new.items ≡ reports.old.items ++ (play_xterm (behind terminal.old front.old)
        front.old.pending (take result piece.now)).reports }
    ensures lines { lines.new.items ≡ lines.old.items
        ++ xterm_log (behind terminal.old front.old) front.old.pending (take result piece.now) }
    ensures reports_bounded { vec_len reports.new ≤ vec_len reports.old + 10 * result }
    ensures lines_bounded { vec_len lines.new ≤ vec_len lines.old + most }
    ensures reports_capacity { vec_capacity reports.old ≤ vec_capacity reports.new }
    ensures lines_capacity { vec_capacity lines.old ≤ vec_capacity lines.new }
{
    let end = lines.len().saturating_add(most);
    let limit = terminal.row_text_limit();
    let mut log = Lines {
        lines,
        limit,
        end,
        beside: Finder,
    };
    feed_front(terminal, front, piece, &mut log, reports)
}

/// Plays the front of a chunk, until the log is full. Returns how many bytes it played.
fn feed_front<L: PageLog>(
    terminal: &mut SizedTerminal,
    front: &mut SizedFront,
    piece: &[u8],
    log: &mut L,
    out: &mut Vec<u8>,
) -> usize
    requires room { vec_len out.old + 10 * length piece.now ≤ vec_capacity out.old }
    requires one_size { front.old.pages.other.grid.size ≡ terminal.old.display.grid.size }
    ensures within { result ≤ length piece.now }
    ensures all { result < length piece.now → L.IsFull log.new (xterm_lines_limit terminal.old.display.grid.size) }
    ensures sizes { KeepSizes terminal.old front.old.pages terminal.new front.new.pages }
    ensures fed { FeedsXterm terminal.old front.old (take result piece.now) terminal.new front.new
        out.old.items out.new.items }
    ensures keeps { L.Keeps log.old (play_xterm (behind terminal.old front.old) front.old.pending
        (take result piece.now)).lines log.new }
    ensures bounded { vec_len out.new ≤ vec_len out.old + 10 * result }
    ensures capacity { vec_capacity out.old ≤ vec_capacity out.new }
{
    let limit = xterm_lines_limit(terminal);
    feed_characters(
        terminal,
        &mut front.pages,
        &mut front.decoder,
        piece,
        limit,
        log,
        out,
    )
}

/// Plays a character of what a host sends, and appends its report to `out`, which has capacity for ten more bytes. It never fails and
/// allocates nothing.
pub fn feed_xterm_character(
    terminal: &mut SizedTerminal,
    pages: &mut SizedPages,
    c: char,
    out: &mut Vec<u8>,
)
    requires room { vec_len out.old + 10 ≤ vec_capacity out.old }
    requires one_size { pages.old.other.grid.size ≡ terminal.old.display.grid.size }
    ensures size { terminal.new.display.grid.size ≡ terminal.old.display.grid.size }
    ensures other_size { pages.new.other.grid.size ≡ pages.old.other.grid.size }
    ensures whole { whole_of terminal.new pages.new ≡ (play_characters (whole_of terminal.old pages.old) (c ∷ [])).whole }
    ensures reports { out.new.items ≡ out.old.items ++ (play_characters (whole_of terminal.old pages.old) (c ∷ [])).reports }
    ensures bounded { vec_len out.new ≤ vec_len out.old + 10 }
    ensures capacity { vec_capacity out.old ≤ vec_capacity out.new }
{
    feed_character(terminal, pages, c, &mut Nobody, out);
}

/// Plays a character of what a host sends. Appends its report to `reports`, which has capacity for ten more bytes.
/// Appends the lines that it scrolls off the main page to `lines`, which has capacity for half of `xterm_lines_limit`.
/// It never fails and allocates nothing.
pub fn feed_xterm_character_log(
    terminal: &mut SizedTerminal,
    pages: &mut SizedPages,
    c: char,
    reports: &mut Vec<u8>,
    lines: &mut Vec<u8>,
)
    requires room { vec_len reports.old + 10 ≤ vec_capacity reports.old }
    requires lines_room { vec_len lines.old + lines_limit terminal.old.display.grid.size ≤ vec_capacity lines.old }
    requires one_size { pages.old.other.grid.size ≡ terminal.old.display.grid.size }
    ensures size { terminal.new.display.grid.size ≡ terminal.old.display.grid.size }
    ensures other_size { pages.new.other.grid.size ≡ pages.old.other.grid.size }
    ensures whole { whole_of terminal.new pages.new ≡ (play_characters (whole_of terminal.old pages.old) (c ∷ [])).whole }
    ensures reports { reports.new.items ≡ reports.old.items ++ (play_characters (whole_of terminal.old pages.old) (c ∷ [])).reports }
    ensures lines { lines.new.items ≡ lines.old.items
        ++ flat_map line_text (play_characters (whole_of terminal.old pages.old) (c ∷ [])).lines }
    ensures reports_bounded { vec_len reports.new ≤ vec_len reports.old + 10 }
    ensures lines_bounded { vec_len lines.new ≤ vec_len lines.old + lines_limit terminal.old.display.grid.size }
    ensures reports_capacity { vec_capacity reports.old ≤ vec_capacity reports.new }
    ensures lines_capacity { vec_capacity lines.old ≤ vec_capacity lines.new }
{
    let end = lines.len() + lines_limit(terminal);
    let limit = terminal.row_text_limit();
    let mut log = Lines {
        lines,
        limit,
        end,
        beside: Finder,
    };
    feed_character(terminal, pages, c, &mut log, reports);
}

/// Plays bytes of the terminal, with the functions of xterm. Returns how many it played: fewer if the log is full.
pub(crate) fn feed_bytes<L: LineLog>(
    terminal: &mut SizedTerminal,
    pages: &mut SizedPages,
    piece: &[u8],
    limit: usize,
    log: &mut L,
    out: &mut Vec<u8>,
) -> usize
    requires room { vec_len out.old + 10 * length piece.now ≤ vec_capacity out.old }
    requires one_size { pages.old.other.grid.size ≡ terminal.old.display.grid.size }
    requires limit { limit ≡ xterm_lines_limit terminal.old.display.grid.size }
    ensures within { result ≤ length piece.now }
    ensures all { result < length piece.now → L.IsFull log.new (xterm_lines_limit terminal.old.display.grid.size) }
    ensures sizes { KeepSizes terminal.old pages.old terminal.new pages.new }
    ensures fed { FeedsBytes (whole_of terminal.old pages.old) (take result piece.now) (whole_of terminal.new pages.new)
        out.old.items out.new.items }
    ensures keeps { L.Keeps log.old (play_bytes (whole_of terminal.old pages.old) (take result piece.now)).lines log.new }
    ensures bounded { vec_len out.new ≤ vec_len out.old + 10 * result }
    ensures capacity { vec_capacity out.old ≤ vec_capacity out.new }
{
    terminal.soundness();
    one_split();
    let mut at = 0;
    while at < piece.len() {
        let count = feed_some(terminal, pages, &piece[at..], limit, log, out);
        if count == 0 {
            return at;
        }
        at += count;
    }
    at
}

/// Plays the front of a chunk that isn't empty: up to the first event that isn't a VT220's, and this event. Returns how many
/// bytes it played: none if the log is full.
#[inline(always)]
fn feed_some<L: LineLog>(
    terminal: &mut SizedTerminal,
    pages: &mut SizedPages,
    piece: &[u8],
    limit: usize,
    log: &mut L,
    out: &mut Vec<u8>,
) -> usize
    requires some { 1 ≤ length piece.now }
    requires room { vec_len out.old + 10 * length piece.now ≤ vec_capacity out.old }
    requires one_size { pages.old.other.grid.size ≡ terminal.old.display.grid.size }
    requires limit { limit ≡ xterm_lines_limit terminal.old.display.grid.size }
    ensures none { result ≡ 0 → L.IsFull log.new (xterm_lines_limit terminal.old.display.grid.size) }
    ensures within { result ≤ length piece.now }
    ensures sizes { KeepSizes terminal.old pages.old terminal.new pages.new }
    ensures fed { FeedsBytes (whole_of terminal.old pages.old) (take result piece.now)
        (whole_of terminal.new pages.new) out.old.items out.new.items }
    ensures keeps { L.Keeps log.old (play_bytes (whole_of terminal.old pages.old) (take result piece.now)).lines log.new }
    ensures bounded { vec_len out.new ≤ vec_len out.old + 10 * result }
    ensures capacity { vec_capacity out.old ≤ vec_capacity out.new }
{
    one_split();
    if pages.sides.is_some() {
        return feed_sided(terminal, pages, piece, limit, log, out);
    }
    let played = feed_page(terminal, pages, piece, log, out);
    if played == piece.len() || log.is_full(limit) {
        return played;
    }
    played + feed_event(terminal, pages, &piece[played..], log, out)
}

/// Plays the front of a chunk that isn't empty, up to the first event. Returns how many bytes it played: none if the log is full.
fn feed_sided<L: LineLog>(
    terminal: &mut SizedTerminal,
    pages: &mut SizedPages,
    piece: &[u8],
    limit: usize,
    log: &mut L,
    out: &mut Vec<u8>,
) -> usize
    requires some { 1 ≤ length piece.now }
    requires room { vec_len out.old + 10 * length piece.now ≤ vec_capacity out.old }
    requires one_size { pages.old.other.grid.size ≡ terminal.old.display.grid.size }
    requires limit { limit ≡ xterm_lines_limit terminal.old.display.grid.size }
    ensures none { result ≡ 0 → L.IsFull log.new (xterm_lines_limit terminal.old.display.grid.size) }
    ensures within { result ≤ length piece.now }
    ensures sizes { KeepSizes terminal.old pages.old terminal.new pages.new }
    ensures fed { FeedsBytes (whole_of terminal.old pages.old) (take result piece.now)
        (whole_of terminal.new pages.new) out.old.items out.new.items }
    ensures keeps { L.Keeps log.old (play_bytes (whole_of terminal.old pages.old) (take result piece.now)).lines log.new }
    ensures bounded { vec_len out.new ≤ vec_len out.old + 10 * result }
    ensures capacity { vec_capacity out.old ≤ vec_capacity out.new }
{
    one_split();
    terminal.soundness();
    if log.is_full(limit) {
        return 0;
    }
    feed_event(terminal, pages, piece, log, out)
}

/// Plays the front of a chunk, up to the first event that isn't a VT220's, or up to a line for which there is no capacity.
/// Returns how many bytes it played.
#[inline(always)]
fn feed_page<L: LineLog>(
    terminal: &mut SizedTerminal,
    pages: &SizedPages,
    piece: &[u8],
    log: &mut L,
    out: &mut Vec<u8>,
) -> usize
    requires none { pages.now.sides ≡ None }
    requires room { vec_len out.old + 10 * length piece.now ≤ vec_capacity out.old }
    ensures within { result ≤ length piece.now }
    ensures size { terminal.new.display.grid.size ≡ terminal.old.display.grid.size }
    ensures fed { FeedsBytes (whole_of terminal.old pages.now) (take result piece.now)
        (whole_of terminal.new pages.now) out.old.items out.new.items }
    ensures keeps { L.Keeps log.old (play_bytes (whole_of terminal.old pages.now) (take result piece.now)).lines log.new }
    ensures bounded { vec_len out.new ≤ vec_len out.old + 10 * result }
    ensures capacity { vec_capacity out.old ≤ vec_capacity out.new }
{
    if pages.is_alternate() {
        feed_terminals(terminal, piece, out)
    } else {
        log.feed(terminal, piece, out)
    }
}

/// Plays the front of a chunk that isn't empty, up to the first event. Returns how many bytes it played.
#[inline(never)]
pub(crate) fn feed_event<L: LineLog>(
    terminal: &mut SizedTerminal,
    pages: &mut SizedPages,
    piece: &[u8],
    log: &mut L,
    out: &mut Vec<u8>,
) -> usize
    requires some { 1 ≤ length piece.now }
    requires room { vec_len out.old + 10 ≤ vec_capacity out.old }
    requires lines_room { L.HasRoom log.old (lines_limit terminal.old.display.grid.size) }
    requires one_size { pages.old.other.grid.size ≡ terminal.old.display.grid.size }
    ensures some { 1 ≤ result }
    ensures within { result ≤ length piece.now }
    ensures sizes { KeepSizes terminal.old pages.old terminal.new pages.new }
    ensures fed { FeedsBytes (whole_of terminal.old pages.old) (take result piece.now)
        (whole_of terminal.new pages.new) out.old.items out.new.items }
    ensures keeps { L.Keeps log.old (play_bytes (whole_of terminal.old pages.old) (take result piece.now)).lines log.new }
    ensures bounded { vec_len out.new ≤ vec_len out.old + 10 * result }
    ensures capacity { vec_capacity out.old ≤ vec_capacity out.new }
{
    let mut values = Values::new();
    let Taken { bytes, event } = terminal.next_event(piece, &mut values);
    let Some(kind) = event else {
        return bytes;
    };
    log_event(terminal, pages, kind, values.as_slice(), log);
    carry_out_whole(terminal, pages, kind, values.as_slice(), out);
    bytes
}

/// Gives the log the lines that an event is about to scroll off.
#[inline(always)]
fn log_event<L: LineLog>(
    terminal: &SizedTerminal,
    pages: &SizedPages,
    kind: EventKind,
    values: &[u16],
    log: &mut L,
)
    requires { L.HasRoom log.old (lines_limit terminal.now.display.grid.size) }
    ensures { L.Keeps log.old (xterm_line_off (event_of kind values.now) (screens terminal.now pages.now)) log.new }
{
    if pages.is_alternate() {
        return;
    }
    match pages.bounds(terminal.width()) {
        None => log.event(terminal, kind, values),
        Some(sides) => {
            let _ = sides;
        }
    }
}
