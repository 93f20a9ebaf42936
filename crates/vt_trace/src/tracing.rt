//! The trace of bytes that come in chunks.
ghost use Rattle.std.specs.Prelude.{◌≡◌, ℕ, List, not, ◌+◌, ◌-◌, ◌*◌, ◌^◌, ◌≤◌, ◌<◌, ◌++◌, [], ◌∷◌, ◌&&◌, ◌||◌, length, take, drop, vec_len, vec_capacity};
ghost use Rattle.std.specs.Prelude.{if◌then◌else◌};
ghost use Rattle.vt_syntax.specs.Event.{event_of};
ghost use Rattle.vt_syntax.specs.Spelling.{IsEvent};
ghost use Rattle.vt_syntax.specs.declared.event.Event.TheVariants.{Print};
ghost use Rattle.vt_glyph.specs.Invocation.{has_no_glyph};
ghost use Rattle.vt_term.specs.Play.{play};
ghost use Rattle.vt_term.specs.Reports.{report};
ghost use Rattle.vt_trace.specs.Trace.{begins, place_of, is_text, text_begin, text_end, text_of, report_line, written};
ghost use Rattle.vt_trace.specs.Trace.{tracer_at_start, between, trace, tracer_all, end_lines};
ghost use Rattle.vt_trace.specs.Lines.{event_line_by};

use crate::bytes::{push_all_shown, push_bytes, push_number, push_shown};
use crate::laws::sized_cuts;
use crate::lines::push_line_by;
use crate::names::Naming;
use crate::observer::trace_front;
use crate::skipped::{First, SKIPPED_LIMIT, Step, push_open};
use arrayvec::ArrayVec;
use vt_syntax::{EventKind, Held};
use vt_term::SizedTerminal;
use vt_term::laws::sized_cuts as play_cuts;

/// The position of a trace between two bytes.
#[derive(Drop)]
pub struct Tracer {
    /// The number of bytes that came before.
    pub place: u64,
    /// The position at which the item of the last byte began.
    pub begin: u64,
    /// Whether the last line is a text that may go on.
    pub in_text: bool,
    /// The C1 control that opened the string that is held, and 0 if none is.
    pub code: u8,
    /// The first bytes of the sequence or string that is held.
    pub first: First,
}

impl Tracer {
    /// Returns the tracer before the first byte, which is at place 0.
    pub fn new() -> Tracer
        ensures { result ≡ tracer_at_start }
    {
        Tracer {
            place: 0,
            begin: 0,
            in_text: false,
            code: 0,
            first: ArrayVec::new(),
        }
    }

    /// Moves to a place between items, and keeps nothing of the item before.
    #[inline(always)]
    pub(crate) fn pass(&mut self, place: u64, begin: u64, in_text: bool)
        ensures { self.new ≡ between place begin in_text }
    {
        self.place = place;
        self.begin = begin;
        self.in_text = in_text;
        self.code = 0;
        self.first.clear();
    }

    /// Adds a byte to the item that it begins or goes on.
    #[inline(always)]
    pub(crate) fn add(&mut self, begins: bool, b: u8)
        ensures { self.new ≡ record self.old {
          begin = if begins then self.old.place else self.old.begin;
          first = record { items = take 33 ((if begins then [] else self.old.first.items) ++ b ∷ []) };
        } }
    {
        if begins {
            self.begin = self.place;
            self.first.clear();
        }
        add_byte(&mut self.first, b);
    }

    /// Adds bytes that go on a string.
    pub(crate) fn hold(&mut self, bytes: &[u8])
        requires { self.old.place + length bytes.now < 2 ^ 64 }
        ensures few { length self.old.first.items ≤ 33 }
        ensures tracer { self.new ≡ record self.old {
          place = self.old.place + length bytes.now;
          first = record { items = take 33 (self.old.first.items ++ bytes.now) };
        } }
    {
        self.place += bytes.len() as u64;
        add_bytes(&mut self.first, bytes);
    }

    /// Goes on after a byte that was added.
    #[inline(always)]
    pub(crate) fn step(&mut self, step: &Step)
        requires { self.old.place + 1 < 2 ^ 64 }
        ensures { self.new ≡ record {
          place = self.old.place + 1;
          begin = self.old.begin;
          in_text = self.old.in_text && not (step.now.cut || step.now.ended);
          code = step.now.code;
          first = record { items = if step.now.is_between then [] else self.old.first.items };
        } }
    {
        self.place += 1;
        self.in_text = self.in_text && !(step.cut || step.ended);
        self.code = step.code;
        if step.is_between {
            self.first.clear();
        }
    }
}

/// Appends a byte, unless 33 bytes are there: no more are kept.
#[inline(always)]
fn add_byte(first: &mut First, b: u8)
    ensures { first.new.items ≡ take 33 (first.old.items ++ b ∷ []) }
{
    if !first.is_full() {
        first.push(b);
    }
}

/// Appends bytes, up to 33 in all: no more are kept.
fn add_bytes(first: &mut First, bytes: &[u8])
    ensures few { length first.old.items ≤ 33 }
    ensures items { first.new.items ≡ take 33 (first.old.items ++ bytes.now) }
{
    let count = bytes.len().min(33 - first.len());
    let _ = first.try_extend_from_slice(&bytes[..count]);
}

/// Returns whether a byte is the first of an item.
pub(crate) fn begins(held: &Held, b: u8) -> bool
    ensures { result ≡ begins held.now b }
{
    match held {
        Held::Nothing => true,
        Held::Text { .. } => b == 0x1B,
        Held::Escape(_) => b == 0x1B || b >= 0x80,
        Held::Control { .. } => b == 0x1B || b >= 0x80,
        Held::Spoilt => b == 0x1B || b >= 0x80,
    }
}

/// Returns the place of an event that a byte completes.
#[inline(always)]
pub(crate) fn place_of(place: u64, begin: u64, b: u8, kind: EventKind) -> u64
    ensures { (values : List ℕ) → result ≡ place_of place begin b (event_of kind values) }
{
    match kind {
        EventKind::Print(_) => place,
        EventKind::Control(c) => { if c == b { place } else { begin } }
        EventKind::Escape { .. } => begin,
        EventKind::Sequence { .. } => begin,
    }
}

/// The most bytes that are written of an event: the end of a text, a line, and that of a report.
pub(crate) const EVENT_LIMIT: usize = 240;

/// The most bytes that are written of a byte of the input: an item without a function that it cuts off, and an event.
pub const TRACE_LIMIT: usize = SKIPPED_LIMIT + EVENT_LIMIT;

const _: () = prove!(TRACE_LIMIT == 420);

/// Plays the front of a chunk of the host's bytes, and appends the reports to `reports` and the trace to `out`. Returns how
/// many bytes it played.
///
/// It plays while `out` has capacity for `TRACE_LIMIT` bytes more. If `out` has that capacity for each byte, it plays
/// the whole chunk. `reports` has capacity for ten bytes for each byte of the chunk. It never fails, and it allocates
/// nothing.
pub fn trace_reserved(
    terminal: &mut SizedTerminal,
    tracer: &mut Tracer,
    chunk: &[u8],
    reports: &mut Vec<u8>,
    out: &mut Vec<u8>,
) -> usize
    requires place { tracer.old.place + length chunk.now < 2 ^ 64 }
    requires reports_room { vec_len reports.old + 10 * length chunk.now ≤ vec_capacity reports.old }
    ensures within { result ≤ length chunk.now }
    ensures all { result < length chunk.now → vec_capacity out.new < vec_len out.new + TRACE_LIMIT }
    ensures state { terminal.new ≡ (play terminal.old (take result chunk.now)).state }
    ensures reports { reports.new.items ≡ reports.old.items ++ (play terminal.old (take result chunk.now)).reports }
    ensures lines { out.new.items ≡ out.old.items ++ trace terminal.old tracer.old (take result chunk.now) }
    ensures tracer { tracer.new ≡ tracer_all terminal.old tracer.old (take result chunk.now) }
    ensures reports_bounded { vec_len reports.new ≤ vec_len reports.old + 10 * result }
    ensures bounded { vec_len out.new ≤ vec_len out.old + TRACE_LIMIT * result }
    ensures reports_capacity { vec_capacity reports.old ≤ vec_capacity reports.new }
    ensures capacity { vec_capacity out.old ≤ vec_capacity out.new }
{
    terminal.soundness();
    play_cuts();
    sized_cuts();
    let mut at = 0;
    while at < chunk.len() && out.capacity() - out.len() >= TRACE_LIMIT {
        at += trace_front(terminal, tracer, &chunk[at..], reports, out);
    }
    at
}

/// Appends the end of a trace, after the last byte: LF if the last line is a text, and the line of a sequence or string that
/// is still open.
#[tactic(auto, unfolding(crate::specs::Trace::end_lines))]
pub fn trace_end(tracer: &Tracer, out: &mut Vec<u8>)
    requires { vec_len out.old + SKIPPED_LIMIT ≤ vec_capacity out.old }
    ensures items { out.new.items ≡ out.old.items ++ end_lines tracer.now }
    ensures bounded { vec_len out.new ≤ vec_len out.old + SKIPPED_LIMIT }
    ensures capacity { vec_capacity out.old ≤ vec_capacity out.new }
{
    if tracer.first.is_empty() {
        push_end(tracer.in_text, out);
    } else {
        push_open(tracer, out);
    }
}

/// Returns whether an event is a character.
#[inline(always)]
pub(crate) fn is_text(kind: EventKind) -> bool
    ensures { (values : List ℕ) → result ≡ is_text (event_of kind values) }
{
    match kind {
        EventKind::Print(b) => has_glyph(b),
        EventKind::Control(_) => false,
        EventKind::Escape { .. } => false,
        EventKind::Sequence { .. } => false,
    }
}

/// Returns whether a graphic byte has a glyph.
fn has_glyph(b: u8) -> bool
    ensures { result ≡ not (has_no_glyph b) }
{
    !(b != 0x20 && (b % 0x80 < 0x21 || b % 0x80 > 0x7E))
}

/// Appends what is to be written of an event in the present display.
pub(crate) fn push_event<N: Naming>(
    names: &N,
    terminal: &SizedTerminal,
    in_text: bool,
    place: u64,
    kind: EventKind,
    values: &[u16],
    out: &mut Vec<u8>,
)
    requires event { IsEvent (event_of kind values.now) }
    requires room { vec_len out.old + EVENT_LIMIT ≤ vec_capacity out.old }
    ensures items { out.new.items ≡ out.old.items
        ++ written N.names terminal.now.display.grid.size.rows in_text place (event_of kind values.now) (report (event_of kind values.now) terminal.now.display) }
    ensures bounded { vec_len out.new ≤ vec_len out.old + EVENT_LIMIT }
    ensures capacity { vec_capacity out.old ≤ vec_capacity out.new }
{
    match kind {
        EventKind::Print(b) => push_print(names, terminal.size().rows, in_text, place, b, out),
        EventKind::Control(_) => push_other(names, terminal, in_text, place, kind, &[], out),
        EventKind::Escape { .. } => push_other(names, terminal, in_text, place, kind, &[], out),
        EventKind::Sequence { .. } => push_other(
            names, terminal, in_text, place, kind, values, out,
        ),
    }
}

/// Appends what is to be written of a graphic byte on a screen of so many rows.
fn push_print<N: Naming>(
    names: &N,
    rows: usize,
    in_text: bool,
    place: u64,
    b: u8,
    out: &mut Vec<u8>,
)
    requires room { vec_len out.old + EVENT_LIMIT ≤ vec_capacity out.old }
    ensures items { (reports : List ℕ)
        → out.new.items ≡ out.old.items ++ written N.names rows in_text place (Print b) reports }
    ensures bounded { vec_len out.new ≤ vec_len out.old + EVENT_LIMIT }
    ensures capacity { vec_capacity out.old ≤ vec_capacity out.new }
{
    if has_glyph(b) {
        push_text(in_text, place, b, out);
    } else {
        push_end(in_text, out);
        push_line_by(names, rows, place, EventKind::Print(b), &[], out);
    }
}

/// Appends the end of a text, the line of an event and that of its report in the present display.
#[inline(always)]
fn push_other<N: Naming>(
    names: &N,
    terminal: &SizedTerminal,
    in_text: bool,
    place: u64,
    kind: EventKind,
    values: &[u16],
    out: &mut Vec<u8>,
)
    requires few { length values.now ≤ 16 }
    requires room { vec_len out.old + EVENT_LIMIT ≤ vec_capacity out.old }
    ensures items { out.new.items ≡ out.old.items ++ (text_end in_text
        ++ (event_line_by N.names terminal.now.display.grid.size.rows place (event_of kind values.now)
        ++ report_line place (report (event_of kind values.now) terminal.now.display))) }
    ensures bounded { vec_len out.new ≤ vec_len out.old + EVENT_LIMIT }
    ensures capacity { vec_capacity out.old ≤ vec_capacity out.new }
{
    push_end(in_text, out);
    push_line_by(names, terminal.size().rows, place, kind, values, out);
    push_report(terminal, place, kind, values, out);
}

/// Appends the end of a text, if the last line is one.
#[inline(always)]
pub(crate) fn push_end(in_text: bool, out: &mut Vec<u8>)
    requires { vec_len out.old + 1 ≤ vec_capacity out.old }
    ensures items { out.new.items ≡ out.old.items ++ text_end in_text }
    ensures bounded { vec_len out.new ≤ vec_len out.old + 1 }
    ensures capacity { vec_capacity out.old ≤ vec_capacity out.new }
{
    if in_text {
        push_bytes(b"\n", out);
    }
}

/// Appends a character: to the text before it, or to a new one.
fn push_text(in_text: bool, place: u64, b: u8, out: &mut Vec<u8>)
    requires room { vec_len out.old + 30 ≤ vec_capacity out.old }
    ensures items { out.new.items ≡ out.old.items ++ text_of in_text place b }
    ensures bounded { vec_len out.new ≤ vec_len out.old + 30 }
    ensures capacity { vec_capacity out.old ≤ vec_capacity out.new }
{
    push_text_begin(in_text, place, out);
    push_shown(b, out);
}

/// Appends the beginning of a text's line, unless the text goes on.
#[inline(always)]
pub(crate) fn push_text_begin(in_text: bool, place: u64, out: &mut Vec<u8>)
    requires room { vec_len out.old + 26 ≤ vec_capacity out.old }
    ensures items { out.new.items ≡ out.old.items ++ text_begin in_text place }
    ensures bounded { vec_len out.new ≤ vec_len out.old + 26 }
    ensures capacity { vec_capacity out.old ≤ vec_capacity out.new }
{
    if !in_text {
        push_number(place, out);
        push_bytes(b"\ttext\t", out);
    }
}

/// Appends the line of an event's report in the present display, if it has one.
#[inline(always)]
fn push_report(
    terminal: &SizedTerminal,
    place: u64,
    kind: EventKind,
    values: &[u16],
    out: &mut Vec<u8>,
)
    requires room { vec_len out.old + 70 ≤ vec_capacity out.old }
    ensures items { out.new.items ≡ out.old.items
        ++ report_line place (report (event_of kind values.now) terminal.now.display) }
    ensures bounded { vec_len out.new ≤ vec_len out.old + 70 }
    ensures capacity { vec_capacity out.old ≤ vec_capacity out.new }
{
    let before = out.len();
    terminal.report_reserved(kind, values, out);
    if out.len() > before {
        show_report(place, before, out);
    }
}

/// Writes the line of a report instead of its bytes, which begin at a position.
#[inline(never)]
fn show_report(place: u64, before: usize, out: &mut Vec<u8>)
    requires some { before < vec_len out.old }
    requires short { vec_len out.old ≤ before + 10 }
    requires room { before + 70 ≤ vec_capacity out.old }
    ensures items { out.new.items ≡ take before out.old.items ++ report_line place (drop before out.old.items) }
    ensures bounded { vec_len out.new ≤ before + 70 }
    ensures capacity { vec_capacity out.old ≤ vec_capacity out.new }
{
    let mut bytes = [0; 10];
    let count = out.len() - before;
    bytes[..count].copy_from_slice(&out[before..]);
    out.truncate(before);
    push_report_line(place, &bytes[..count], out);
}

/// Appends the line of a report.
fn push_report_line(place: u64, report: &[u8], out: &mut Vec<u8>)
    requires some { 1 ≤ length report.now }
    requires short { length report.now ≤ 10 }
    requires room { vec_len out.old + 70 ≤ vec_capacity out.old }
    ensures items { out.new.items ≡ out.old.items ++ report_line place report.now }
    ensures bounded { vec_len out.new ≤ vec_len out.old + 70 }
    ensures capacity { vec_capacity out.old ≤ vec_capacity out.new }
{
    push_number(place, out);
    push_bytes(b"\treport\t", out);
    push_all_shown(report, out);
    push_bytes(b"\n", out);
}
