//! The trace of UTF-8 that comes in chunks: the host's own bytes, at their places.
ghost use Rattle.std.specs.Prelude.{◌≡◌, ◌≤◌, ◌<◌, ◌+◌, ◌-◌, ◌*◌, ◌^◌, ◌++◌, [], ◌∷◌, length, take, vec_len, vec_capacity, IfSome, slice_index, true};
ghost use Rattle.std.specs.Option.{option_to_list};
ghost use Rattle.bstr.specs.Utf8.{replacement};
ghost use Rattle.vt_utf8.specs.Decoding.{pending_after, IsWhole};
ghost use Rattle.vt_utf8.specs.Play.{play_utf8};
ghost use Rattle.vt_trace.specs.Lines.{shown};
ghost use Rattle.vt_trace.specs.Trace.{between, text_begin};
ghost use Rattle.vt_trace.specs.Utf8.{Traces, after_all, reports_all, completed, traced_as, tracer_as, trace_utf8, tracer_utf8};
ghost use Rattle.vt_trace.specs.Private.Traces.{beyond_lines, beyond_tracer};

use crate::bytes::push_all_shown;
use crate::dialects::Traceable;
use crate::names::{Naming, Vt220Names};
use crate::skipped::push_open;
use crate::tracing::{TRACE_LIMIT, Tracer, push_text_begin};
use vt_term::laws::{sized_cuts, sized_soundness};
use vt_term::{SizedTerminal, Vt220};
use vt_utf8::{Decoder, ascii_run, whole_character};

/// Plays the front of a chunk of a host's UTF-8, and appends the reports to `reports` and the trace to `out`. `decoder` keeps
/// what is pending between chunks. Returns how many bytes it played.
///
/// The lines have the host's own bytes, and places in them. It plays while `out` has capacity for `TRACE_LIMIT` bytes
/// more. If `out` has that capacity for each byte, it plays the whole chunk. `reports` has capacity for ten bytes for
/// each byte of the chunk. It never fails, and it allocates nothing.
pub fn trace_utf8_reserved(
    terminal: &mut SizedTerminal,
    tracer: &mut Tracer,
    decoder: &mut Decoder,
    chunk: &[u8],
    reports: &mut Vec<u8>,
    out: &mut Vec<u8>,
) -> usize
    requires place { tracer.old.place + length chunk.now < 2 ^ 64 }
    requires reports_room { vec_len reports.old + 10 * length chunk.now ≤ vec_capacity reports.old }
    ensures within { result ≤ length chunk.now }
    ensures all { result < length chunk.now → vec_capacity out.new < vec_len out.new + TRACE_LIMIT }
    ensures state { terminal.new ≡ (play_utf8 terminal.old decoder.old (take result chunk.now)).state }
    ensures pending { decoder.new ≡ pending_after decoder.old (take result chunk.now) }
    ensures reports { reports.new.items
        ≡ reports.old.items ++ (play_utf8 terminal.old decoder.old (take result chunk.now)).reports }
    ensures lines { out.new.items
        ≡ out.old.items ++ trace_utf8 terminal.old tracer.old decoder.old (take result chunk.now) }
    ensures tracer { tracer.new ≡ tracer_utf8 terminal.old tracer.old decoder.old (take result chunk.now) }
    ensures reports_bounded { vec_len reports.new ≤ vec_len reports.old + 10 * result }
    ensures bounded { vec_len out.new ≤ vec_len out.old + TRACE_LIMIT * result }
    ensures reports_capacity { vec_capacity reports.old ≤ vec_capacity reports.new }
    ensures capacity { vec_capacity out.old ≤ vec_capacity out.new }
{
    terminal.soundness();
    sized_cuts();
    sized_soundness();
    trace_dialect::<Vt220Names, Vt220>(terminal, &mut Vt220, tracer, decoder, chunk, reports, out)
}

/// Plays the front of a chunk of a host's UTF-8 on a terminal with what it keeps. Appends the reports to `reports` and
/// the trace to `out`. `decoder` keeps what is pending between chunks. Returns how many bytes it played.
///
/// It plays while `out` has capacity for `TRACE_LIMIT` bytes more. `reports` has capacity for ten bytes for each byte of the chunk. It
/// never fails, and it allocates nothing.
pub fn trace_dialect<N: Naming, T: Traceable<N>>(
    terminal: &mut SizedTerminal,
    kept: &mut T,
    tracer: &mut Tracer,
    decoder: &mut Decoder,
    chunk: &[u8],
    reports: &mut Vec<u8>,
    out: &mut Vec<u8>,
) -> usize
    requires one_size { T.OneSize (T.whole terminal.old kept.old) }
    requires place { tracer.old.place + length chunk.now < 2 ^ 64 }
    requires reports_room { vec_len reports.old + 10 * length chunk.now ≤ vec_capacity reports.old }
    ensures within { result ≤ length chunk.now }
    ensures all { result < length chunk.now → vec_capacity out.new < vec_len out.new + TRACE_LIMIT }
    ensures one_size { T.OneSize (T.whole terminal.new kept.new) }
    ensures size { T.size (T.whole terminal.new kept.new) ≡ T.size (T.whole terminal.old kept.old) }
    ensures traced { Traces T.dialect (T.whole terminal.old kept.old) tracer.old decoder.old (take result chunk.now)
        (T.whole terminal.new kept.new) tracer.new decoder.new reports.old.items reports.new.items out.old.items out.new.items }
    ensures reports_bounded { vec_len reports.new ≤ vec_len reports.old + 10 * result }
    ensures bounded { vec_len out.new ≤ vec_len out.old + TRACE_LIMIT * result }
    ensures reports_capacity { vec_capacity reports.old ≤ vec_capacity reports.new }
    ensures capacity { vec_capacity out.old ≤ vec_capacity out.new }
{
    let mut at = 0;
    while at < chunk.len() && out.capacity() - out.len() >= TRACE_LIMIT {
        at += trace_next::<N, T>(terminal, kept, tracer, decoder, &chunk[at..], reports, out);
    }
    at
}

/// Traces the front of a chunk that isn't empty: the ASCII bytes or the character there if nothing is pending, otherwise a
/// byte. Returns how many bytes it played.
fn trace_next<N: Naming, T: Traceable<N>>(
    terminal: &mut SizedTerminal,
    kept: &mut T,
    tracer: &mut Tracer,
    decoder: &mut Decoder,
    piece: &[u8],
    reports: &mut Vec<u8>,
    out: &mut Vec<u8>,
) -> usize
    requires some { 1 ≤ length piece.now }
    requires one_size { T.OneSize (T.whole terminal.old kept.old) }
    requires place { tracer.old.place + length piece.now < 2 ^ 64 }
    requires reports_room { vec_len reports.old + 10 * length piece.now ≤ vec_capacity reports.old }
    requires room { vec_len out.old + TRACE_LIMIT ≤ vec_capacity out.old }
    ensures some { 1 ≤ result }
    ensures within { result ≤ length piece.now }
    ensures one_size { T.OneSize (T.whole terminal.new kept.new) }
    ensures size { T.size (T.whole terminal.new kept.new) ≡ T.size (T.whole terminal.old kept.old) }
    ensures traced { Traces T.dialect (T.whole terminal.old kept.old) tracer.old decoder.old (take result piece.now)
        (T.whole terminal.new kept.new) tracer.new decoder.new reports.old.items reports.new.items out.old.items out.new.items }
    ensures reports_bounded { vec_len reports.new ≤ vec_len reports.old + 10 * result }
    ensures bounded { vec_len out.new ≤ vec_len out.old + TRACE_LIMIT * result }
    ensures reports_capacity { vec_capacity reports.old ≤ vec_capacity reports.new }
    ensures capacity { vec_capacity out.old ≤ vec_capacity out.new }
{
    if decoder.is_empty() {
        if piece[0] < 0x80 {
            return trace_ascii::<N, T>(terminal, kept, tracer, decoder, piece, reports, out);
        }
        if let Some((c, size)) = whole_character(&piece[..piece.len().min(4)]) {
            trace_whole::<N, T>(terminal, kept, tracer, c, &piece[..size], reports, out);
            return size;
        }
    }
    trace_byte::<N, T>(terminal, kept, tracer, decoder, piece[0], reports, out);
    1
}

/// Traces the ASCII bytes at the front of a chunk that begins with one, with nothing pending. Returns how many it played.
#[inline(always)]
fn trace_ascii<N: Naming, T: Traceable<N>>(
    terminal: &mut SizedTerminal,
    kept: &mut T,
    tracer: &mut Tracer,
    decoder: &Decoder,
    piece: &[u8],
    reports: &mut Vec<u8>,
    out: &mut Vec<u8>,
) -> usize
    requires nothing { decoder.now ≡ [] }
    requires some { 1 ≤ length piece.now }
    requires first { slice_index piece.now 0 < 0x80 }
    requires one_size { T.OneSize (T.whole terminal.old kept.old) }
    requires place { tracer.old.place + length piece.now < 2 ^ 64 }
    requires reports_room { vec_len reports.old + 10 * length piece.now ≤ vec_capacity reports.old }
    requires room { vec_len out.old + TRACE_LIMIT ≤ vec_capacity out.old }
    ensures some { 1 ≤ result }
    ensures within { result ≤ length piece.now }
    ensures one_size { T.OneSize (T.whole terminal.new kept.new) }
    ensures size { T.size (T.whole terminal.new kept.new) ≡ T.size (T.whole terminal.old kept.old) }
    ensures traced { Traces T.dialect (T.whole terminal.old kept.old) tracer.old decoder.now (take result piece.now)
        (T.whole terminal.new kept.new) tracer.new decoder.now reports.old.items reports.new.items out.old.items out.new.items }
    ensures reports_bounded { vec_len reports.new ≤ vec_len reports.old + 10 * result }
    ensures bounded { vec_len out.new ≤ vec_len out.old + TRACE_LIMIT * result }
    ensures reports_capacity { vec_capacity reports.old ≤ vec_capacity reports.new }
    ensures capacity { vec_capacity out.old ≤ vec_capacity out.new }
{
    let _ = decoder;
    let run = ascii_run(&piece[1..]) + 1;
    kept.trace_ascii(terminal, tracer, &piece[..run], reports, out)
}

/// Traces a whole character beyond ASCII, of these bytes, with nothing pending.
#[inline(always)]
fn trace_whole<N: Naming, T: Traceable<N>>(
    terminal: &mut SizedTerminal,
    kept: &mut T,
    tracer: &mut Tracer,
    c: char,
    bytes: &[u8],
    reports: &mut Vec<u8>,
    out: &mut Vec<u8>,
)
    requires beyond { 0x80 ≤ c }
    requires whole { IsWhole bytes.now c (length bytes.now) }
    requires short { length bytes.now ≤ 4 }
    requires one_size { T.OneSize (T.whole terminal.old kept.old) }
    requires place { tracer.old.place + length bytes.now < 2 ^ 64 }
    requires reports_room { vec_len reports.old + 10 ≤ vec_capacity reports.old }
    requires room { vec_len out.old + TRACE_LIMIT ≤ vec_capacity out.old }
    ensures one_size { T.OneSize (T.whole terminal.new kept.new) }
    ensures size { T.size (T.whole terminal.new kept.new) ≡ T.size (T.whole terminal.old kept.old) }
    ensures traced { Traces T.dialect (T.whole terminal.old kept.old) tracer.old [] bytes.now
        (T.whole terminal.new kept.new) tracer.new [] reports.old.items reports.new.items out.old.items out.new.items }
    ensures reports { reports.new.items ≡ reports.old.items }
    ensures bounded { vec_len out.new ≤ vec_len out.old + TRACE_LIMIT }
    ensures reports_capacity { vec_capacity reports.old ≤ vec_capacity reports.new }
    ensures capacity { vec_capacity out.old ≤ vec_capacity out.new }
{
    push_beyond(tracer, bytes, out);
    kept.feed_beyond(terminal, c, reports);
}

/// Traces a byte.
fn trace_byte<N: Naming, T: Traceable<N>>(
    terminal: &mut SizedTerminal,
    kept: &mut T,
    tracer: &mut Tracer,
    decoder: &mut Decoder,
    b: u8,
    reports: &mut Vec<u8>,
    out: &mut Vec<u8>,
)
    requires one_size { T.OneSize (T.whole terminal.old kept.old) }
    requires place { tracer.old.place + 1 < 2 ^ 64 }
    requires reports_room { vec_len reports.old + 10 ≤ vec_capacity reports.old }
    requires room { vec_len out.old + TRACE_LIMIT ≤ vec_capacity out.old }
    ensures one_size { T.OneSize (T.whole terminal.new kept.new) }
    ensures size { T.size (T.whole terminal.new kept.new) ≡ T.size (T.whole terminal.old kept.old) }
    ensures traced { Traces T.dialect (T.whole terminal.old kept.old) tracer.old decoder.old (b ∷ [])
        (T.whole terminal.new kept.new) tracer.new decoder.new reports.old.items reports.new.items out.old.items out.new.items }
    ensures reports_bounded { vec_len reports.new ≤ vec_len reports.old + 10 }
    ensures bounded { vec_len out.new ≤ vec_len out.old + TRACE_LIMIT }
    ensures reports_capacity { vec_capacity reports.old ≤ vec_capacity reports.new }
    ensures capacity { vec_capacity out.old ≤ vec_capacity out.new }
{
    let (lost, last) = decoder.push(b);
    play_lost::<N, T>(terminal, kept, lost, reports);
    trace_last::<N, T>(terminal, kept, tracer, b, last, reports, out);
}

/// Plays U+FFFD if what was pending is ill-formed.
#[inline(always)]
fn play_lost<N: Naming, T: Traceable<N>>(
    terminal: &mut SizedTerminal,
    kept: &mut T,
    lost: Option<char>,
    reports: &mut Vec<u8>,
)
    requires lost { IfSome lost (λ c. c ≡ replacement) }
    requires one_size { T.OneSize (T.whole terminal.old kept.old) }
    requires room { vec_len reports.old + 10 ≤ vec_capacity reports.old }
    ensures one_size { T.OneSize (T.whole terminal.new kept.new) }
    ensures size { T.size (T.whole terminal.new kept.new) ≡ T.size (T.whole terminal.old kept.old) }
    ensures state { T.whole terminal.new kept.new
        ≡ after_all T.dialect (T.whole terminal.old kept.old) (option_to_list lost) }
    ensures silent { reports_all T.dialect (T.whole terminal.old kept.old) (option_to_list lost) ≡ [] }
    ensures out { reports.new.items ≡ reports.old.items }
    ensures capacity { vec_capacity reports.old ≤ vec_capacity reports.new }
{
    if let Some(c) = lost {
        kept.feed_beyond(terminal, c, reports);
    }
}

/// Plays the character that a byte completes, if it completes one, and appends what is written of the byte.
#[inline(always)]
fn trace_last<N: Naming, T: Traceable<N>>(
    terminal: &mut SizedTerminal,
    kept: &mut T,
    tracer: &mut Tracer,
    b: u8,
    last: Option<char>,
    reports: &mut Vec<u8>,
    out: &mut Vec<u8>,
)
    requires one_size { T.OneSize (T.whole terminal.old kept.old) }
    requires place { tracer.old.place + 1 < 2 ^ 64 }
    requires reports_room { vec_len reports.old + 10 ≤ vec_capacity reports.old }
    requires room { vec_len out.old + TRACE_LIMIT ≤ vec_capacity out.old }
    ensures one_size { T.OneSize (T.whole terminal.new kept.new) }
    ensures size { T.size (T.whole terminal.new kept.new) ≡ T.size (T.whole terminal.old kept.old) }
    ensures state { T.whole terminal.new kept.new
        ≡ after_all T.dialect (T.whole terminal.old kept.old) (option_to_list last) }
    ensures reports { reports.new.items ≡ reports.old.items
        ++ reports_all T.dialect (T.whole terminal.old kept.old) (option_to_list last) }
    ensures lines { out.new.items ≡ out.old.items
        ++ traced_as T.dialect.names tracer.old b (completed T.dialect (T.whole terminal.old kept.old) (option_to_list last)) }
    ensures tracer { tracer.new
        ≡ tracer_as tracer.old b (completed T.dialect (T.whole terminal.old kept.old) (option_to_list last)) }
    ensures reports_bounded { vec_len reports.new ≤ vec_len reports.old + 10 }
    ensures bounded { vec_len out.new ≤ vec_len out.old + TRACE_LIMIT }
    ensures reports_capacity { vec_capacity reports.old ≤ vec_capacity reports.new }
    ensures capacity { vec_capacity out.old ≤ vec_capacity out.new }
{
    match last {
        None => push_beyond(tracer, &[b], out),
        Some(c) => trace_character::<N, T>(terminal, kept, tracer, b, c, reports, out),
    }
}

/// Plays the character that a byte completes, and appends what is written of the byte.
#[inline(always)]
fn trace_character<N: Naming, T: Traceable<N>>(
    terminal: &mut SizedTerminal,
    kept: &mut T,
    tracer: &mut Tracer,
    b: u8,
    c: char,
    reports: &mut Vec<u8>,
    out: &mut Vec<u8>,
)
    requires one_size { T.OneSize (T.whole terminal.old kept.old) }
    requires place { tracer.old.place + 1 < 2 ^ 64 }
    requires reports_room { vec_len reports.old + 10 ≤ vec_capacity reports.old }
    requires room { vec_len out.old + TRACE_LIMIT ≤ vec_capacity out.old }
    ensures one_size { T.OneSize (T.whole terminal.new kept.new) }
    ensures size { T.size (T.whole terminal.new kept.new) ≡ T.size (T.whole terminal.old kept.old) }
    ensures state { T.whole terminal.new kept.new ≡ T.dialect.after (T.whole terminal.old kept.old) c }
    ensures reports { reports.new.items ≡ reports.old.items ++ T.dialect.reports (T.whole terminal.old kept.old) c }
    ensures lines { out.new.items ≡ out.old.items
        ++ traced_as T.dialect.names tracer.old b (completed T.dialect (T.whole terminal.old kept.old) (c ∷ [])) }
    ensures tracer { tracer.new ≡ tracer_as tracer.old b (completed T.dialect (T.whole terminal.old kept.old) (c ∷ [])) }
    ensures reports_bounded { vec_len reports.new ≤ vec_len reports.old + 10 }
    ensures bounded { vec_len out.new ≤ vec_len out.old + TRACE_LIMIT }
    ensures reports_capacity { vec_capacity reports.old ≤ vec_capacity reports.new }
    ensures capacity { vec_capacity out.old ≤ vec_capacity out.new }
{
    if (c as u32) < 0x80 {
        let _ = kept.trace_ascii(terminal, tracer, &[c as u8], reports, out);
    } else {
        push_beyond(tracer, &[b], out);
        kept.feed_beyond(terminal, c, reports);
    }
}

/// Appends what is written of bytes of characters beyond ASCII: they are content in a string, and otherwise text.
#[inline(always)]
fn push_beyond(tracer: &mut Tracer, bytes: &[u8], out: &mut Vec<u8>)
    requires some { 1 ≤ length bytes.now }
    requires place { tracer.old.place + length bytes.now < 2 ^ 64 }
    requires room { vec_len out.old + 206 + 4 * length bytes.now ≤ vec_capacity out.old }
    ensures lines { out.new.items ≡ out.old.items ++ beyond_lines tracer.old bytes.now }
    ensures tracer { tracer.new ≡ beyond_tracer tracer.old bytes.now }
    ensures bounded { vec_len out.new ≤ vec_len out.old + 206 + 4 * length bytes.now }
    ensures capacity { vec_capacity out.old ≤ vec_capacity out.new }
{
    if tracer.code != 0 {
        tracer.hold(bytes);
    } else if tracer.first.is_empty() {
        push_text(tracer, tracer.in_text, bytes, out);
    } else {
        push_open(tracer, out);
        push_text(tracer, false, bytes, out);
    }
}

/// Appends bytes as text: to the text before them, or to a new one.
#[inline(always)]
fn push_text(tracer: &mut Tracer, in_text: bool, bytes: &[u8], out: &mut Vec<u8>)
    requires some { 1 ≤ length bytes.now }
    requires place { tracer.old.place + length bytes.now < 2 ^ 64 }
    requires room { vec_len out.old + 26 + 4 * length bytes.now ≤ vec_capacity out.old }
    ensures lines { out.new.items ≡ out.old.items ++ (text_begin in_text tracer.old.place ++ shown bytes.now) }
    ensures tracer { tracer.new ≡ between (tracer.old.place + length bytes.now) (tracer.old.place + (length bytes.now - 1)) true }
    ensures bounded { vec_len out.new ≤ vec_len out.old + 26 + 4 * length bytes.now }
    ensures capacity { vec_capacity out.old ≤ vec_capacity out.new }
{
    let begin = tracer.place + (bytes.len() as u64 - 1);
    push_text_begin(in_text, tracer.place, out);
    push_all_shown(bytes, out);
    tracer.pass(begin + 1, begin, true);
}
