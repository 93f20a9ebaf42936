//! Feeding: UTF-8 changes a terminal's state, and gives report bytes.
ghost use Rattle.std.specs.Prelude.{◌≡◌, ◌<◌, ◌+◌, ◌*◌, ◌≤◌, ◌++◌, ◌⊎◌, [], ◌∷◌, ℕ, List, All, length, take, flat_map};
ghost use Rattle.std.specs.Prelude.{slice_index, vec_len, vec_capacity, IfSome};
ghost use Rattle.std.specs.Bool.{OnTrue};
ghost use Rattle.std.specs.Option.{option_to_list};
ghost use Rattle.std.specs.declared.option.Option.TheVariants.{None};
ghost use Rattle.bstr.specs.Utf8.{replacement};
ghost use Rattle.vt_glyph.specs.Tables.{space};
ghost use Rattle.vt_syntax.specs.declared.held.Held.TheVariants.{Nothing};
ghost use Rattle.vt_term.specs.Play.{play};
ghost use Rattle.vt_term.specs.Scrolling.{log};
ghost use Rattle.vt_term.specs.Text.{line_text, row_text_limit};
ghost use Rattle.vt_term.specs.Writing.{write_glyph};
ghost use Rattle.vt_utf8.specs.Cells.{cells};
ghost use Rattle.vt_utf8.specs.Decoding.{pending_after};
ghost use Rattle.vt_utf8.specs.Limits.{lines_limit, utf8_lines_limit};
ghost use Rattle.vt_utf8.specs.Translation.{glyph_off, translation};
ghost use Rattle.vt_utf8.specs.Play.{translated, play_utf8};
ghost use Rattle.vt_utf8.specs.Private.Cut.{IsCut};
ghost use Rattle.vt_utf8.specs.Private.Feeds.{FeedsUtf8, utf8_off};
ghost use Rattle.vt_utf8.specs.Sinks.{point, Feeds, FitsFeed, Grows};

use crate::ascii::ascii_run;
use crate::coded::coded;
use crate::decoder::{Decoder, whole_character};
use crate::laws::{sized_silence, sized_writes};
use crate::log::{BytesLog, Log};
use crate::sink::Sink;
use crate::translation::{BYTE_LIMIT, TRANSLATION_LIMIT, has_one_cell_left, translation};
use vt_syntax::Held;
use vt_term::laws::{sized_cuts as played_cuts, sized_log_cuts};
use vt_term::{Glyph, Lines, Nobody, REPORT_LIMIT, SizedTerminal, Vt220};

/// Plays a chunk of a host's UTF-8, and appends the reports to `out`. `decoder` keeps what is pending between chunks.
/// `out` has capacity for ten more bytes for each byte of the chunk. It never fails and allocates nothing.
pub fn feed_utf8_reserved(
    terminal: &mut SizedTerminal,
    decoder: &mut Decoder,
    piece: &[u8],
    out: &mut Vec<u8>,
)
    requires { vec_len out.old + 10 * length piece.now ≤ vec_capacity out.old }
    ensures state { terminal.new ≡ (play_utf8 terminal.old decoder.old piece.now).state }
    ensures pending { decoder.new ≡ pending_after decoder.old piece.now }
    ensures reports { out.new.items ≡ out.old.items ++ (play_utf8 terminal.old decoder.old piece.now).reports }
    ensures bounded { vec_len out.new ≤ vec_len out.old + 10 * length piece.now }
    ensures capacity { vec_capacity out.old ≤ vec_capacity out.new }
{
    feed_front(terminal, decoder, piece, &mut Nobody, out);
}

/// Returns the capacity for lines without which a feed with a log stops: the most bytes of lines for one byte of UTF-8.
#[inline(always)]
pub fn utf8_lines_limit(terminal: &SizedTerminal) -> usize
    ensures { result ≡ utf8_lines_limit terminal.now.display.grid.size }
{
    let _ = terminal.size();
    BYTE_LIMIT * terminal.row_text_limit()
}

/// Plays the front of a chunk of a host's UTF-8. It appends the reports to `reports` and at most `most` bytes of the lines that
/// scroll off to `lines`. Returns how many bytes it played. `decoder` keeps what is pending between chunks.
///
/// If it stops early, `lines` has fewer than `utf8_lines_limit` bytes free, or fewer of `most` are left. `reports` has capacity for
/// ten more bytes for each byte of the chunk. It never fails and allocates nothing.
#[tactic(auto, unfolding(vt_term::specs::Scrolling::log))]
pub fn feed_utf8_log_reserved(
    terminal: &mut SizedTerminal,
    decoder: &mut Decoder,
    piece: &[u8],
    reports: &mut Vec<u8>,
    lines: &mut Vec<u8>,
    most: usize,
) -> usize
    requires { vec_len reports.old + 10 * length piece.now ≤ vec_capacity reports.old }
    ensures within { result ≤ length piece.now }
    ensures all { result < length piece.now → (vec_capacity lines.new < vec_len lines.new + utf8_lines_limit terminal.old.display.grid.size)
        ⊎ (vec_len lines.old + most < vec_len lines.new + utf8_lines_limit terminal.old.display.grid.size) }
    ensures state { terminal.new ≡ (play_utf8 terminal.old decoder.old (take result piece.now)).state }
    ensures pending { decoder.new ≡ pending_after decoder.old (take result piece.now) }
    ensures reports { reports.new.items
        ≡ reports.old.items ++ (play_utf8 terminal.old decoder.old (take result piece.now)).reports }
    ensures lines { lines.new.items
        ≡ lines.old.items ++ log terminal.old (translated terminal.old decoder.old (take result piece.now)) }
    ensures reports_bounded { vec_len reports.new ≤ vec_len reports.old + 10 * result }
    ensures lines_bounded { vec_len lines.new ≤ vec_len lines.old + most }
    ensures reports_capacity { vec_capacity reports.old ≤ vec_capacity reports.new }
    ensures lines_capacity { vec_capacity lines.old ≤ vec_capacity lines.new }
{
    let end = lines.len().saturating_add(most);
    let limit = terminal.row_text_limit();
    let mut log = Lines {
        lines,
        limit,
        end,
        beside: Nobody,
    };
    feed_front(terminal, decoder, piece, &mut log, reports)
}

/// Plays the front of a chunk, until the log is full. Returns how many bytes it played.
fn feed_front<L: BytesLog>(
    terminal: &mut SizedTerminal,
    decoder: &mut Decoder,
    piece: &[u8],
    log: &mut L,
    out: &mut Vec<u8>,
) -> usize
    requires { vec_len out.old + 10 * length piece.now ≤ vec_capacity out.old }
    ensures within { result ≤ length piece.now }
    ensures all { result < length piece.now → L.IsFull log.new (utf8_lines_limit terminal.old.display.grid.size) }
    ensures fed { FeedsUtf8 terminal.old decoder.old (take result piece.now) terminal.new decoder.new
        out.old.items out.new.items }
    ensures keeps { L.Keeps log.old (utf8_off terminal.old decoder.old (take result piece.now)) log.new }
    ensures bounded { vec_len out.new ≤ vec_len out.old + 10 * result }
    ensures capacity { vec_capacity out.old ≤ vec_capacity out.new }
{
    let limit = utf8_lines_limit(terminal);
    feed_characters(terminal, &mut Vt220, decoder, piece, limit, log, out)
}

/// Plays the front of a chunk of UTF-8 on a sink, until the log is full. Returns how many bytes it played. `decoder` keeps what is
/// pending between chunks. `limit` is twice the most bytes of lines that a character scrolls off.
#[inline(always)]
pub fn feed_characters<L: Log, S: Sink<L>>(
    terminal: &mut SizedTerminal,
    sink: &mut S,
    decoder: &mut Decoder,
    piece: &[u8],
    limit: usize,
    log: &mut L,
    out: &mut Vec<u8>,
) -> usize
    requires room { vec_len out.old + 10 * length piece.now ≤ vec_capacity out.old }
    requires fits { FitsFeed S.OneSize S.most terminal.old sink.old limit }
    ensures within { result ≤ length piece.now }
    ensures all { result < length piece.now → L.IsFull log.new limit }
    ensures fed { Feeds S.Takes (point terminal.old sink.old log.old out.old.items) decoder.old (take result piece.now)
        (point terminal.new sink.new log.new out.new.items) decoder.new }
    ensures grows { Grows out.old out.new (10 * result) }
{
    terminal.soundness();
    sink.in_turn();
    let mut at = 0;
    while at < piece.len() {
        let count = feed_next(terminal, sink, decoder, &piece[at..], limit, log, out);
        if count == 0 {
            return at;
        }
        at += count;
    }
    at
}

/// Returns how many bytes at the front of a chunk that isn't empty are ASCII. Speed: no search begins at a byte that isn't.
#[inline(always)]
fn ascii_front(piece: &[u8]) -> usize
    requires { 1 ≤ length piece.now }
    ensures within { result ≤ length piece.now }
    ensures ascii { All (λ b. b < 0x80) (take result piece.now) }
{
    if piece[0] < 0x80 {
        return ascii_run(piece);
    }
    0
}

/// Plays the front of a chunk that isn't empty: the ASCII bytes, the text or the whole character there if nothing is pending, otherwise
/// a byte, or the ASCII bytes that cut off a pending one. Returns how many bytes it played: none if the log is full.
#[inline(always)]
fn feed_next<L: Log, S: Sink<L>>(
    terminal: &mut SizedTerminal,
    sink: &mut S,
    decoder: &mut Decoder,
    piece: &[u8],
    limit: usize,
    log: &mut L,
    out: &mut Vec<u8>,
) -> usize
    requires some { 1 ≤ length piece.now }
    requires room { vec_len out.old + 10 * length piece.now ≤ vec_capacity out.old }
    requires fits { FitsFeed S.OneSize S.most terminal.old sink.old limit }
    ensures none { result ≡ 0 → L.IsFull log.new limit }
    ensures within { result ≤ length piece.now }
    ensures fed { Feeds S.Takes (point terminal.old sink.old log.old out.old.items) decoder.old (take result piece.now)
        (point terminal.new sink.new log.new out.new.items) decoder.new }
    ensures grows { Grows out.old out.new (10 * result) }
{
    if decoder.is_empty() {
        let run = ascii_front(piece);
        if run > 0 {
            return feed_ascii(terminal, sink, decoder, &piece[..run], limit, log, out);
        }
        return feed_beyond(terminal, sink, decoder, piece, limit, log, out);
    }
    feed_pending(terminal, sink, decoder, piece, limit, log, out)
}

/// Plays ASCII bytes with nothing pending. Returns how many it played: fewer if the log is full.
#[inline(always)]
fn feed_ascii<L: Log, S: Sink<L>>(
    terminal: &mut SizedTerminal,
    sink: &mut S,
    decoder: &Decoder,
    run: &[u8],
    limit: usize,
    log: &mut L,
    out: &mut Vec<u8>,
) -> usize
    requires nothing { decoder.now ≡ [] }
    requires ascii { All (λ b. b < 0x80) run.now }
    requires room { vec_len out.old + 10 * length run.now ≤ vec_capacity out.old }
    requires fits { FitsFeed S.OneSize S.most terminal.old sink.old limit }
    ensures within { result ≤ length run.now }
    ensures all { result < length run.now → L.IsFull log.new limit }
    ensures fed { Feeds S.Takes (point terminal.old sink.old log.old out.old.items) decoder.now (take result run.now)
        (point terminal.new sink.new log.new out.new.items) decoder.now }
    ensures grows { Grows out.old out.new (10 * result) }
{
    let _ = decoder;
    sink.take_run(terminal, run, limit, log, out)
}

/// Plays the text at the front of a chunk that begins with a character beyond ASCII, that character if it isn't text, or a byte if
/// neither is there, with nothing pending. Returns how many bytes it played: none if the log is full.
#[inline(always)]
fn feed_beyond<L: Log, S: Sink<L>>(
    terminal: &mut SizedTerminal,
    sink: &mut S,
    decoder: &mut Decoder,
    piece: &[u8],
    limit: usize,
    log: &mut L,
    out: &mut Vec<u8>,
) -> usize
    requires nothing { decoder.old ≡ [] }
    requires some { 1 ≤ length piece.now }
    requires room { vec_len out.old + 10 ≤ vec_capacity out.old }
    requires fits { FitsFeed S.OneSize S.most terminal.old sink.old limit }
    ensures none { result ≡ 0 → L.IsFull log.new limit }
    ensures within { result ≤ length piece.now }
    ensures fed { Feeds S.Takes (point terminal.old sink.old log.old out.old.items) decoder.old (take result piece.now)
        (point terminal.new sink.new log.new out.new.items) decoder.new }
    ensures grows { Grows out.old out.new (10 * result) }
{
    terminal.soundness();
    sink.in_turn();
    let text = sink.take_text(terminal, piece);
    if text > 0 {
        return text;
    }
    feed_whole(terminal, sink, decoder, piece, limit, log, out)
}

/// Plays the whole character at the front of a chunk, or a byte if none is there, with nothing pending. Returns how many bytes it
/// played: none if the log is full. Speed: a byte at a time leaves the same.
#[inline(always)]
fn feed_whole<L: Log, S: Sink<L>>(
    terminal: &mut SizedTerminal,
    sink: &mut S,
    decoder: &mut Decoder,
    piece: &[u8],
    limit: usize,
    log: &mut L,
    out: &mut Vec<u8>,
) -> usize
    requires nothing { decoder.old ≡ [] }
    requires some { 1 ≤ length piece.now }
    requires room { vec_len out.old + 10 ≤ vec_capacity out.old }
    requires fits { FitsFeed S.OneSize S.most terminal.old sink.old limit }
    ensures none { result ≡ 0 → L.IsFull log.new limit }
    ensures within { result ≤ length piece.now }
    ensures fed { Feeds S.Takes (point terminal.old sink.old log.old out.old.items) decoder.old (take result piece.now)
        (point terminal.new sink.new log.new out.new.items) decoder.new }
    ensures grows { Grows out.old out.new (10 * result) }
{
    terminal.soundness();
    sink.in_turn();
    if log.is_full(limit) {
        return 0;
    }
    match whole_character(piece) {
        Some((c, size)) => {
            sink.take_beyond(terminal, c, log, out);
            size
        }
        None => {
            feed_byte(terminal, sink, decoder, piece[0], log, out);
            1
        }
    }
}

/// Returns how many ASCII bytes at the front of a chunk that isn't empty cut off one pending byte: none if it isn't cut off.
#[inline(always)]
fn cut_front(decoder: &Decoder, piece: &[u8]) -> usize
    requires { 1 ≤ length piece.now }
    ensures within { result ≤ length piece.now }
    ensures ascii { All (λ b. b < 0x80) (take result piece.now) }
    ensures cut { 1 ≤ result → IsCut decoder.now (slice_index piece.now 0) }
{
    if decoder.is_cut_by(piece[0]) {
        return ascii_front(piece);
    }
    0
}

/// Plays the front of a chunk that isn't empty, after a pending part: the ASCII bytes that cut off one byte, otherwise a byte.
/// Returns how many bytes it played: none if the log is full. Speed: most bytes that are cut off are cut off by ASCII.
#[inline(always)]
fn feed_pending<L: Log, S: Sink<L>>(
    terminal: &mut SizedTerminal,
    sink: &mut S,
    decoder: &mut Decoder,
    piece: &[u8],
    limit: usize,
    log: &mut L,
    out: &mut Vec<u8>,
) -> usize
    requires some { 1 ≤ length piece.now }
    requires room { vec_len out.old + 10 * length piece.now ≤ vec_capacity out.old }
    requires fits { FitsFeed S.OneSize S.most terminal.old sink.old limit }
    ensures none { result ≡ 0 → L.IsFull log.new limit }
    ensures within { result ≤ length piece.now }
    ensures fed { Feeds S.Takes (point terminal.old sink.old log.old out.old.items) decoder.old (take result piece.now)
        (point terminal.new sink.new log.new out.new.items) decoder.new }
    ensures grows { Grows out.old out.new (10 * result) }
{
    terminal.soundness();
    sink.in_turn();
    if log.is_full(limit) {
        return 0;
    }
    let run = cut_front(decoder, piece);
    if run == 0 {
        feed_byte(terminal, sink, decoder, piece[0], log, out);
        return 1;
    }
    decoder.clear();
    feed_cut(terminal, sink, &piece[..run], log, out)
}

/// Plays U+FFFD for one byte that ASCII cuts off, and the first ASCII byte, or more of them. Returns how many of these it played.
#[inline(always)]
fn feed_cut<L: Log, S: Sink<L>>(
    terminal: &mut SizedTerminal,
    sink: &mut S,
    run: &[u8],
    log: &mut L,
    out: &mut Vec<u8>,
) -> usize
    requires some { 1 ≤ length run.now }
    requires ascii { All (λ b. b < 0x80) run.now }
    requires room { vec_len out.old + 10 * length run.now ≤ vec_capacity out.old }
    requires lines_room { L.HasRoom log.old (2 * S.most terminal.old.display.grid.size) }
    requires one_size { S.OneSize terminal.old sink.old }
    ensures some { 1 ≤ result }
    ensures within { result ≤ length run.now }
    ensures fed { (pending : List ℕ) → IsCut pending (slice_index run.now 0)
        → Feeds S.Takes (point terminal.old sink.old log.old out.old.items) pending (take result run.now)
        (point terminal.new sink.new log.new out.new.items) [] }
    ensures grows { Grows out.old out.new (10 * result) }
{
    terminal.soundness();
    sink.in_turn();
    sink.take_beyond(terminal, '\u{FFFD}', log, out);
    sink.take_some(terminal, run, log, out)
}

/// Plays a byte.
fn feed_byte<L: Log, S: Sink<L>>(
    terminal: &mut SizedTerminal,
    sink: &mut S,
    decoder: &mut Decoder,
    b: u8,
    log: &mut L,
    out: &mut Vec<u8>,
)
    requires room { vec_len out.old + 10 ≤ vec_capacity out.old }
    requires lines_room { L.HasRoom log.old (2 * S.most terminal.old.display.grid.size) }
    requires one_size { S.OneSize terminal.old sink.old }
    ensures fed { Feeds S.Takes (point terminal.old sink.old log.old out.old.items) decoder.old (b ∷ [])
        (point terminal.new sink.new log.new out.new.items) decoder.new }
    ensures grows { Grows out.old out.new 10 }
{
    terminal.soundness();
    sink.in_turn();
    let (lost, character) = decoder.push(b);
    feed_lost(terminal, sink, lost, log, out);
    feed_completed(terminal, sink, character, log, out);
}

/// Plays U+FFFD if what was pending is ill-formed.
#[inline(always)]
fn feed_lost<L: Log, S: Sink<L>>(
    terminal: &mut SizedTerminal,
    sink: &mut S,
    lost: Option<char>,
    log: &mut L,
    out: &mut Vec<u8>,
)
    requires lost { IfSome lost (λ c. c ≡ replacement) }
    requires room { vec_len out.old + 10 ≤ vec_capacity out.old }
    requires lines_room { L.HasRoom log.old (2 * S.most terminal.old.display.grid.size) }
    ensures takes { S.Takes (point terminal.old sink.old log.old out.old.items) (option_to_list lost)
        (point terminal.new sink.new log.new out.new.items) }
    ensures left { L.HasRoom log.new (S.most terminal.old.display.grid.size) }
    ensures out { out.new.items ≡ out.old.items }
    ensures capacity { vec_capacity out.old ≤ vec_capacity out.new }
{
    terminal.soundness();
    sink.in_turn();
    match lost {
        Some(c) => {
            let _ = c;
            sink.take_beyond(terminal, '\u{FFFD}', log, out);
        }
        None => {}
    }
}

/// Plays the character that a byte completes, if it completes one.
#[inline(always)]
fn feed_completed<L: Log, S: Sink<L>>(
    terminal: &mut SizedTerminal,
    sink: &mut S,
    character: Option<char>,
    log: &mut L,
    out: &mut Vec<u8>,
)
    requires room { vec_len out.old + 10 ≤ vec_capacity out.old }
    requires lines_room { L.HasRoom log.old (S.most terminal.old.display.grid.size) }
    requires one_size { S.OneSize terminal.old sink.old }
    ensures takes { S.Takes (point terminal.old sink.old log.old out.old.items) (option_to_list character)
        (point terminal.new sink.new log.new out.new.items) }
    ensures grows { Grows out.old out.new 10 }
{
    terminal.soundness();
    sink.in_turn();
    match character {
        Some(c) => feed_character(terminal, sink, c, log, out),
        None => {}
    }
}

/// Plays a character on a sink.
pub fn feed_character<L: Log, S: Sink<L>>(
    terminal: &mut SizedTerminal,
    sink: &mut S,
    c: char,
    log: &mut L,
    out: &mut Vec<u8>,
)
    requires room { vec_len out.old + 10 ≤ vec_capacity out.old }
    requires lines_room { L.HasRoom log.old (S.most terminal.old.display.grid.size) }
    requires one_size { S.OneSize terminal.old sink.old }
    ensures takes { S.Takes (point terminal.old sink.old log.old out.old.items) (c ∷ [])
        (point terminal.new sink.new log.new out.new.items) }
    ensures grows { Grows out.old out.new 10 }
{
    if (c as u32) < 0x80 {
        let _ = sink.take_some(terminal, &[c as u8], log, out);
    } else {
        sink.take_beyond(terminal, c, log, out);
    }
}

/// Returns whether a glyph is written as it is: between sequences, if no single shift is pending.
#[inline(always)]
pub(crate) fn writes_glyphs(terminal: &SizedTerminal) -> bool
    ensures { OnTrue result ((terminal.now.held ≡ Nothing) × (terminal.now.display.sets.pending ≡ None)) }
{
    match terminal.held() {
        Held::Nothing => terminal.sets().pending().is_none(),
        _ => false,
    }
}

/// Plays a character beyond ASCII, which causes no report. Speed: most characters are one glyph between sequences, or one and
/// a space.
#[inline(always)]
pub fn feed_beyond_ascii(terminal: &mut SizedTerminal, c: char, out: &mut Vec<u8>)
    requires beyond { 0x80 ≤ c }
    requires room { vec_len out.old + 10 ≤ vec_capacity out.old }
    ensures state { terminal.new ≡ (play terminal.old (translation terminal.old c)).state }
    ensures silent { (play terminal.old (translation terminal.old c)).reports ≡ [] }
    ensures out { out.new.items ≡ out.old.items }
    ensures capacity { vec_capacity out.old ≤ vec_capacity out.new }
{
    terminal.soundness();
    sized_silence();
    sized_writes();
    if writes_glyphs(terminal) {
        if let Some(found) = coded(c) {
            if found.cells == 1 {
                terminal.write_glyph(Glyph::encoded(found.code));
                return;
            }
            if !has_one_cell_left(terminal) {
                write_both(terminal, Glyph::encoded(found.code));
                return;
            }
        }
    }
    feed_translated(terminal, c, out);
}

/// Writes a glyph, and a space after it.
#[inline(never)]
fn write_both(terminal: &mut SizedTerminal, glyph: Glyph)
    ensures { terminal.new ≡ record terminal.old {
      display = write_glyph space (write_glyph glyph terminal.old.display);
    } }
{
    terminal.write_glyph(glyph);
    terminal.write_glyph(Glyph::blank());
}

/// Plays the bytes that a character beyond ASCII is translated to, which cause no report.
#[inline(never)]
fn feed_translated(terminal: &mut SizedTerminal, c: char, out: &mut Vec<u8>)
    requires beyond { 0x80 ≤ c }
    requires room { vec_len out.old + 10 ≤ vec_capacity out.old }
    ensures state { terminal.new ≡ (play terminal.old (translation terminal.old c)).state }
    ensures out { out.new.items ≡ out.old.items }
    ensures capacity { vec_capacity out.old ≤ vec_capacity out.new }
{
    terminal.soundness();
    sized_silence();
    let bytes = translation(terminal, c);
    feed_silently(terminal, bytes.as_slice(), out);
}

/// Plays bytes that cause no report. `out` may have capacity for the reports of only one of them.
fn feed_silently(terminal: &mut SizedTerminal, bytes: &[u8], out: &mut Vec<u8>)
    requires silent { (play terminal.old bytes.now).reports ≡ [] }
    requires room { vec_len out.old + 10 ≤ vec_capacity out.old }
    ensures state { terminal.new ≡ (play terminal.old bytes.now).state }
    ensures out { out.new.items ≡ out.old.items }
    ensures capacity { vec_capacity out.old ≤ vec_capacity out.new }
{
    terminal.soundness();
    played_cuts();
    let most = (out.capacity() - out.len()) / REPORT_LIMIT;
    let mut at = 0;
    while at < bytes.len() {
        let count = most.min(bytes.len() - at);
        terminal.feed_reserved(&bytes[at..at + count], out);
        at += count;
    }
}

/// Returns the most bytes of lines that a character scrolls off: a line for each byte of its translation.
#[inline(always)]
pub fn lines_limit(terminal: &SizedTerminal) -> usize
    ensures { result ≡ lines_limit terminal.now.display.grid.size }
{
    let _ = terminal.size();
    TRANSLATION_LIMIT * terminal.row_text_limit()
}

/// Plays a character beyond ASCII, which causes no report, and appends the lines that scroll off to `lines`. These have
/// capacity for `lines_limit` more bytes.
pub fn feed_beyond_ascii_log(
    terminal: &mut SizedTerminal,
    c: char,
    out: &mut Vec<u8>,
    lines: &mut Vec<u8>,
)
    requires beyond { 0x80 ≤ c }
    requires room { vec_len out.old + 10 ≤ vec_capacity out.old }
    requires lines_room { vec_len lines.old + lines_limit terminal.old.display.grid.size ≤ vec_capacity lines.old }
    ensures state { terminal.new ≡ (play terminal.old (translation terminal.old c)).state }
    ensures silent { (play terminal.old (translation terminal.old c)).reports ≡ [] }
    ensures out { out.new.items ≡ out.old.items }
    ensures lines { lines.new.items ≡ lines.old.items ++ log terminal.old (translation terminal.old c) }
    ensures lines_bounded { vec_len lines.new ≤ vec_len lines.old + lines_limit terminal.old.display.grid.size }
    ensures capacity { vec_capacity out.old ≤ vec_capacity out.new }
    ensures lines_capacity { vec_capacity lines.old ≤ vec_capacity lines.new }
{
    terminal.soundness();
    sized_silence();
    sized_writes();
    if writes_glyphs(terminal) {
        if let Some(found) = coded(c) {
            if found.cells == 1 {
                write_logged(terminal, Glyph::encoded(found.code), lines);
                return;
            }
            if !has_one_cell_left(terminal) {
                write_both_logged(terminal, Glyph::encoded(found.code), lines);
                return;
            }
        }
    }
    feed_translated_log(terminal, c, out, lines);
}

/// Writes a glyph, and appends the line that it scrolls off.
#[inline(always)]
fn write_logged(terminal: &mut SizedTerminal, glyph: Glyph, lines: &mut Vec<u8>)
    requires { vec_len lines.old + lines_limit terminal.old.display.grid.size ≤ vec_capacity lines.old }
    ensures terminal { terminal.new ≡ record terminal.old { display = write_glyph glyph terminal.old.display } }
    ensures lines { lines.new.items ≡ lines.old.items ++ flat_map line_text (glyph_off terminal.old.display) }
    ensures bounded { vec_len lines.new ≤ vec_len lines.old + lines_limit terminal.old.display.grid.size }
    ensures capacity { vec_capacity lines.old ≤ vec_capacity lines.new }
{
    if terminal.cursor().wrap && terminal.is_at_end() {
        terminal.row_text_reserved(1, lines);
    }
    terminal.write_glyph(glyph);
}

/// Writes a glyph, and a space after it. Appends the line that the glyph scrolls off.
#[inline(never)]
fn write_both_logged(terminal: &mut SizedTerminal, glyph: Glyph, lines: &mut Vec<u8>)
    requires { vec_len lines.old + lines_limit terminal.old.display.grid.size ≤ vec_capacity lines.old }
    ensures lines { lines.new.items ≡ lines.old.items ++ flat_map line_text (glyph_off terminal.old.display) }
    ensures bounded { vec_len lines.new ≤ vec_len lines.old + lines_limit terminal.old.display.grid.size }
    ensures capacity { vec_capacity lines.old ≤ vec_capacity lines.new }
    ensures terminal { terminal.new ≡ record terminal.old {
      display = write_glyph space (write_glyph glyph terminal.old.display);
    } }
{
    write_logged(terminal, glyph, lines);
    terminal.write_glyph(Glyph::blank());
}

/// Plays the bytes that a character beyond ASCII is translated to, and appends the lines that scroll off.
#[inline(never)]
fn feed_translated_log(
    terminal: &mut SizedTerminal,
    c: char,
    out: &mut Vec<u8>,
    lines: &mut Vec<u8>,
)
    requires beyond { 0x80 ≤ c }
    requires room { vec_len out.old + 10 ≤ vec_capacity out.old }
    requires lines_room { vec_len lines.old + lines_limit terminal.old.display.grid.size ≤ vec_capacity lines.old }
    ensures state { terminal.new ≡ (play terminal.old (translation terminal.old c)).state }
    ensures out { out.new.items ≡ out.old.items }
    ensures lines { lines.new.items ≡ lines.old.items ++ log terminal.old (translation terminal.old c) }
    ensures lines_bounded { vec_len lines.new ≤ vec_len lines.old + lines_limit terminal.old.display.grid.size }
    ensures capacity { vec_capacity out.old ≤ vec_capacity out.new }
    ensures lines_capacity { vec_capacity lines.old ≤ vec_capacity lines.new }
{
    terminal.soundness();
    sized_silence();
    let bytes = translation(terminal, c);
    feed_silently_log(terminal, bytes.as_slice(), out, lines);
}

/// Plays bytes that cause no report, and appends the lines that scroll off. `out` may have capacity for the reports of only
/// one of the bytes.
fn feed_silently_log(
    terminal: &mut SizedTerminal,
    bytes: &[u8],
    out: &mut Vec<u8>,
    lines: &mut Vec<u8>,
)
    requires silent { (play terminal.old bytes.now).reports ≡ [] }
    requires room { vec_len out.old + 10 ≤ vec_capacity out.old }
    requires lines_room { vec_len lines.old + row_text_limit terminal.old.display.grid.size * length bytes.now ≤ vec_capacity lines.old }
    ensures state { terminal.new ≡ (play terminal.old bytes.now).state }
    ensures out { out.new.items ≡ out.old.items }
    ensures lines { lines.new.items ≡ lines.old.items ++ log terminal.old bytes.now }
    ensures lines_bounded { vec_len lines.new ≤ vec_len lines.old + row_text_limit terminal.old.display.grid.size * length bytes.now }
    ensures capacity { vec_capacity out.old ≤ vec_capacity out.new }
    ensures lines_capacity { vec_capacity lines.old ≤ vec_capacity lines.new }
{
    terminal.soundness();
    played_cuts();
    sized_log_cuts();
    let most = (out.capacity() - out.len()) / REPORT_LIMIT;
    let mut at = 0;
    while at < bytes.len() {
        let count = most.min(bytes.len() - at);
        terminal.feed_log_reserved(&bytes[at..at + count], out, lines);
        at += count;
    }
}
