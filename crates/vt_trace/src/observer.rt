//! The trace as an observer of the terminal's feed.
ghost use Rattle.std.specs.Prelude.{◌≡◌, ℕ, List, ◌+◌, ◌-◌, ◌*◌, ◌^◌, ◌≤◌, ◌<◌, ◌++◌, ◌∷◌, [], length, take};
ghost use Rattle.std.specs.Prelude.{vec_len, vec_capacity};
ghost use Rattle.vt_syntax.specs.Event.{event_of};
ghost use Rattle.vt_term.specs.Play.{play};
ghost use Rattle.vt_trace.specs.Lines.{shown};
ghost use Rattle.vt_trace.specs.Trace.{trace, tracer_all};
ghost use Rattle.vt_term.specs.Happenings.{happenings};
ghost use Rattle.vt_term.specs.Observing.{Feeds, happenings_of};
ghost use Rattle.vt_trace.specs.Observed.{AreRead, Completes, traced_told, tracer_told};

use crate::bytes::{push_all_shown, push_bytes};
use crate::items::{are_shown, is_item};
use crate::names::{Naming, Vt220Names};
use crate::skipped::skip_all;
use crate::tracing::{TRACE_LIMIT, Tracer, is_text, place_of, push_event, push_text_begin};
use vt_syntax::laws::{one_split, spelled};
use vt_syntax::{EventKind, Parser, Taken, Values};
use vt_term::laws::sized_happened;
use vt_term::{Observer, Profile, SizedTerminal};

/// Plays the front of a chunk that isn't empty, and appends its reports and its trace: as many bytes as `out` has capacity
/// for. Returns how many bytes it played.
pub(crate) fn trace_front(
    terminal: &mut SizedTerminal,
    tracer: &mut Tracer,
    piece: &[u8],
    reports: &mut Vec<u8>,
    out: &mut Vec<u8>,
) -> usize
    requires some { 1 ≤ length piece.now }
    requires place { tracer.old.place + length piece.now < 2 ^ 64 }
    requires reports_room { vec_len reports.old + 10 * length piece.now ≤ vec_capacity reports.old }
    requires room { vec_len out.old + TRACE_LIMIT ≤ vec_capacity out.old }
    ensures some { 1 ≤ result }
    ensures within { result ≤ length piece.now }
    ensures state { terminal.new ≡ (play terminal.old (take result piece.now)).state }
    ensures reports { reports.new.items ≡ reports.old.items ++ (play terminal.old (take result piece.now)).reports }
    ensures lines { out.new.items ≡ out.old.items ++ trace terminal.old tracer.old (take result piece.now) }
    ensures tracer { tracer.new ≡ tracer_all terminal.old tracer.old (take result piece.now) }
    ensures reports_bounded { vec_len reports.new ≤ vec_len reports.old + 10 * result }
    ensures bounded { vec_len out.new ≤ vec_len out.old + TRACE_LIMIT * result }
    ensures reports_capacity { vec_capacity reports.old ≤ vec_capacity reports.new }
    ensures capacity { vec_capacity out.old ≤ vec_capacity out.new }
{
    sized_happened();
    let count = piece.len().min((out.capacity() - out.len()) / TRACE_LIMIT);
    let mut observer = Tracing {
        names: &Vt220Names,
        tracer,
        out,
        parser: terminal.parser(),
        values: Values::new(),
    };
    let _ = terminal.feed_observed(&piece[..count], &mut observer, reports);
    count
}

/// Plays and traces the front of a chunk as `trace_front` does, for a profile and by the names of its functions. The
/// trace is that of the happenings of the bytes.
pub fn trace_as<P: Profile, N: Naming>(
    terminal: &mut SizedTerminal,
    profile: &mut P,
    names: &N,
    tracer: &mut Tracer,
    piece: &[u8],
    reports: &mut Vec<u8>,
    out: &mut Vec<u8>,
) -> usize
    requires some { 1 ≤ length piece.now }
    requires place { tracer.old.place + length piece.now < 2 ^ 64 }
    requires reports_room { vec_len reports.old + 10 * length piece.now ≤ vec_capacity reports.old }
    requires room { vec_len out.old + TRACE_LIMIT ≤ vec_capacity out.old }
    requires one_size { P.OneSize (P.screens terminal.old.display profile.old) }
    ensures some { 1 ≤ result }
    ensures within { result ≤ length piece.now }
    ensures fed { Feeds P.machine P.screens terminal.old profile.old (take result piece.now) terminal.new profile.new
        reports.old.items reports.new.items }
    ensures lines { out.new.items ≡ out.old.items ++ traced_told N.names tracer.old
        (happenings_of P.machine P.screens terminal.old profile.old (take result piece.now)) }
    ensures tracer { tracer.new ≡ tracer_told tracer.old
        (happenings_of P.machine P.screens terminal.old profile.old (take result piece.now)) }
    ensures reports_bounded { vec_len reports.new ≤ vec_len reports.old + 10 * result }
    ensures bounded { vec_len out.new ≤ vec_len out.old + TRACE_LIMIT * result }
    ensures reports_capacity { vec_capacity reports.old ≤ vec_capacity reports.new }
    ensures capacity { vec_capacity out.old ≤ vec_capacity out.new }
{
    sized_happened();
    let count = piece.len().min((out.capacity() - out.len()) / TRACE_LIMIT);
    let mut observer = Tracing {
        names,
        tracer,
        out,
        parser: terminal.parser(),
        values: Values::new(),
    };
    let _ = terminal.feed_as(profile, &piece[..count], &mut observer, reports);
    count
}

/// Appends the trace of a byte. The terminal doesn't play it: the caller does so afterwards. `out` has capacity for the
/// trace.
pub fn trace_byte<N: Naming>(
    terminal: &SizedTerminal,
    names: &N,
    tracer: &mut Tracer,
    byte: u8,
    out: &mut Vec<u8>,
)
    requires place { tracer.old.place + 1 < 2 ^ 64 }
    requires room { vec_len out.old + TRACE_LIMIT ≤ vec_capacity out.old }
    ensures lines { out.new.items ≡ out.old.items ++ traced_told N.names tracer.old (happenings terminal.now (byte ∷ [])) }
    ensures tracer { tracer.new ≡ tracer_told tracer.old (happenings terminal.now (byte ∷ [])) }
    ensures bounded { vec_len out.new ≤ vec_len out.old + TRACE_LIMIT }
    ensures capacity { vec_capacity out.old ≤ vec_capacity out.new }
{
    terminal.soundness();
    one_split();
    let piece = [byte];
    let mut parser = terminal.parser();
    let mut values = Values::new();
    let Taken { event, .. } = parser.next(&piece, &mut values);
    let mut observer = Tracing {
        names,
        tracer,
        out,
        parser: terminal.parser(),
        values: Values::new(),
    };
    match event {
        Some(kind) => observer.event(terminal, &piece, kind, values.as_slice()),
        None => observer.part(&piece),
    }
}

/// The observer that writes the trace. It never stops the feed.
#[derive(Drop)]
struct Tracing<'a, N: Naming> {
    names: &'a N,
    tracer: &'a mut Tracer,
    out: &'a mut Vec<u8>,
    /// A copy of what the terminal holds before the next byte.
    parser: Parser,
    values: Values,
}

/// Reads the bytes of an event, and appends the lines of the items without a function that they cut off or end.
///
/// Speed: an event that is an item by itself is passed at once.
#[inline(always)]
fn read_event(
    tracer: &mut Tracer,
    parser: &mut Parser,
    bytes: &[u8],
    kind: EventKind,
    values: &mut Values,
    out: &mut Vec<u8>,
)
    requires some { 1 ≤ length bytes.now }
    requires place { tracer.old.place + length bytes.now < 2 ^ 64 }
    requires room { vec_len out.old + 180 * length bytes.now ≤ vec_capacity out.old }
    ensures read { (list : List ℕ) → Completes parser.old bytes.now (event_of kind list)
        → AreRead parser.old parser.new tracer.old tracer.new bytes.now out.old.items out.new.items }
    ensures place { tracer.new.place ≡ tracer.old.place + length bytes.now }
    ensures bounded { vec_len out.new ≤ vec_len out.old + 180 * length bytes.now }
    ensures capacity { vec_capacity out.old ≤ vec_capacity out.new }
{
    one_split();
    spelled();
    if parser.is_between() && is_item(kind, bytes) {
        let begin = tracer.place;
        tracer.pass(begin + bytes.len() as u64, begin, tracer.in_text);
    } else {
        skip_all(tracer, parser, bytes, values, out);
    }
}

/// Appends characters.
///
/// Speed: they are one copy if a text shows all of them as themselves.
#[inline(always)]
fn push_run(run: &[u8], out: &mut Vec<u8>)
    requires { vec_len out.old + 4 * length run.now ≤ vec_capacity out.old }
    ensures items { out.new.items ≡ out.old.items ++ shown run.now }
    ensures bounded { vec_len out.new ≤ vec_len out.old + 4 * length run.now }
    ensures capacity { vec_capacity out.old ≤ vec_capacity out.new }
{
    if are_shown(run) {
        push_bytes(run, out);
    } else {
        push_all_shown(run, out);
    }
}

impl<N: Naming> Observer for Tracing<'_, N> {
    ghost use Rattle.std.specs.Prelude.{◌≡◌, ◌<◌, ◌≤◌, ◌+◌, ◌*◌, ◌^◌, length, vec_len, vec_capacity, false, ⊤};
    ghost use Rattle.vt_trace.specs.Observed.{Told, AreCounted, trace_joined};

    ghost Saw = { λ o hs p. (p.tracer.ghost_name ≡ o.tracer.ghost_name) × (p.out.ghost_name ≡ o.out.ghost_name)
        × Told N.names hs o.parser p.parser o.tracer.now p.tracer.now o.out.now.items p.out.now.items
        × AreCounted (length hs) o.tracer.now.place p.tracer.now.place (vec_len o.out.now) (vec_len p.out.now)
        (vec_capacity o.out.now) (vec_capacity p.out.now) };

    ghost Takes = { λ o n. (o.tracer.now.place + n < 2 ^ 64) × (vec_len o.out.now + 420 * n ≤ vec_capacity o.out.now) };

    ghost Lets = { λ o s event. ⊤ };

    ghost Fits = { λ o s n. ⊤ };

    ghost Stopped = { λ o. ⊥ };

    ghost Stops = { false };

    ghost joined = { trace_joined N.names (λ o. o.tracer.ghost_name) (λ o. o.out.ghost_name) (λ o. o.parser) (λ o. o.tracer.now)
        (λ o. o.out.now.items) (λ o. vec_len o.out.now) (λ o. vec_capacity o.out.now) };

    #[inline(always)]
    fn stops(&self) -> bool {
        false
    }

    #[inline(always)]
    fn lets(&self, terminal: &SizedTerminal, kind: EventKind, values: &[u16]) -> bool {
        true
    }

    #[inline(always)]
    fn event(&mut self, terminal: &SizedTerminal, bytes: &[u8], kind: EventKind, values: &[u16]) {
        one_split();
        spelled();
        let last = bytes[bytes.len() - 1];
        read_event(
            self.tracer,
            &mut self.parser,
            bytes,
            kind,
            &mut self.values,
            self.out,
        );
        let place = place_of(self.tracer.place - 1, self.tracer.begin, last, kind);
        push_event(
            self.names,
            terminal,
            self.tracer.in_text,
            place,
            kind,
            values,
            self.out,
        );
        self.tracer.in_text = is_text(kind);
    }

    #[inline(always)]
    fn limit(&self, terminal: &SizedTerminal) -> usize {
        usize::MAX
    }

    #[inline(always)]
    fn run(&mut self, terminal: &SizedTerminal, bytes: &[u8]) {
        one_split();
        spelled();
        let begin = self.tracer.place + (bytes.len() as u64 - 1);
        push_text_begin(self.tracer.in_text, self.tracer.place, self.out);
        push_run(bytes, self.out);
        self.tracer.pass(begin + 1, begin, true);
    }

    #[inline(always)]
    fn part(&mut self, bytes: &[u8]) {
        one_split();
        spelled();
        skip_all(
            self.tracer,
            &mut self.parser,
            bytes,
            &mut self.values,
            self.out,
        );
    }
}
