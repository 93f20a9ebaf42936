//! The table of a recording's events.
ghost use Rattle.std.specs.Prelude.{◌≡◌, ◌+◌, ◌≤◌, ◌<◌, ◌^◌, ◌++◌, ◌∷◌, [], length, drop, decimal, cond, nat_le, IfOk, OnOk};
ghost use Rattle.vt_trace.specs.Lines.{shown};
ghost use Rattle.vt_recording.specs.Timeline.{is_output};
ghost use Rattle.vt_recording.specs.Gathered.{events_of};
ghost use Rattle.vt_recording.specs.Gathered.{timeline_view};
ghost use Rattle.vt_replay.specs.EventTable.{kind_name, digit, six_digits, time_column, text_column, event_line, place_after, table, event_table};
ghost use Rattle.vt_replay.specs.EventTable.{terminal_line, window_line, heading_lines, part_name, break_line};

use itoa::Buffer;
use std::alloc::{AllocError, Global};
use vt_cli::{Encoding, Format, Moment, TerminalType};
use vt_recording::{Break, Event, EventKind, Heading, Part, Taken, Timeline, due, passed_before};
use vt_trace::push_shown;

/// Returns the name of a kind of event.
fn kind_name(kind: EventKind) -> &'static [u8]
    ensures { result.now ≡ kind_name kind }
{
    match kind {
        EventKind::Output => b"output",
        EventKind::Input => b"input",
        EventKind::Marker => b"marker",
        EventKind::Size => b"size",
        EventKind::Exit => b"exit",
    }
}

/// Returns whether an event is output.
fn is_output(kind: EventKind) -> bool
    ensures { result ≡ is_output kind }
{
    matches!(kind, EventKind::Output)
}

/// Appends a number.
fn push_decimal(n: u64, out: &mut Vec<u8>) -> Result<(), AllocError>
    ensures { OnOk result (out.new.items ≡ out.old.items ++ decimal n) }
{
    let mut buffer = Buffer::new();
    out.extend_from_slice(buffer.format(n).as_bytes())
}

/// Returns the last digit of a number.
fn digit(n: u64) -> u8
    ensures { result ≡ digit n }
{
    b'0' + (n % 10) as u8
}

/// Appends the six digits of the microseconds of a second.
fn push_six_digits(n: u64, out: &mut Vec<u8>) -> Result<(), AllocError>
    ensures { OnOk result (out.new.items ≡ out.old.items ++ six_digits n) }
{
    out.extend_from_slice(&[
        digit(n / 100_000),
        digit(n / 10_000),
        digit(n / 1_000),
        digit(n / 100),
        digit(n / 10),
        digit(n),
    ])
}

/// Appends a time in seconds, or `-` if the format has no times.
fn push_time(timed: bool, micros: u64, out: &mut Vec<u8>) -> Result<(), AllocError>
    ensures { OnOk result (out.new.items ≡ out.old.items ++ time_column timed micros) }
{
    if !timed {
        return out.extend_from_slice(b"-");
    }
    push_decimal(micros / 1_000_000, out)?;
    out.push(b'.')?;
    push_six_digits(micros % 1_000_000, out)
}

/// Appends bytes as text.
fn push_all_shown(bytes: &[u8], out: &mut Vec<u8>) -> Result<(), AllocError>
    ensures { OnOk result (out.new.items ≡ out.old.items ++ shown bytes.now) }
{
    for b in bytes.iter() {
        out.reserve(4)?;
        push_shown(*b, out);
    }
    Ok(())
}

/// Appends the bytes of an event. Those of output are in a full table alone.
fn push_text(full: bool, kind: EventKind, text: &[u8], out: &mut Vec<u8>) -> Result<(), AllocError>
    ensures { OnOk result (out.new.items ≡ out.old.items ++ text_column full kind text.now) }
{
    if is_output(kind) && !full {
        return Ok(());
    }
    out.push(b'\t')?;
    push_all_shown(text, out)
}

/// The choice of the events that a table has, and of what it shows of them.
#[derive(Clone, Copy)]
struct Listing {
    /// Whether the format has times.
    timed: bool,
    /// Whether the bytes of output are there, too.
    full: bool,
    /// The number of events before the first line.
    first: u64,
}

/// Appends the line of an event with these bytes, which comes at a place in the content.
fn push_line(
    listing: Listing,
    place: u64,
    event: Event,
    text: &[u8],
    out: &mut Vec<u8>,
) -> Result<(), AllocError>
    ensures { OnOk result (out.new.items ≡ out.old.items
        ++ event_line listing.timed listing.full place (record { micros = event.micros; kind = event.kind; text = text.now })) }
{
    push_time(listing.timed, event.micros, out)?;
    out.push(b'\t')?;
    out.extend_from_slice(kind_name(event.kind))?;
    out.push(b'\t')?;
    push_decimal(place, out)?;
    out.push(b'\t')?;
    push_decimal(text.len() as u64, out)?;
    push_text(listing.full, event.kind, text, out)?;
    out.push(b'\n')?;
    Ok(())
}

/// Appends the line of an event with these bytes, if its index isn't before that of the first line.
fn push_listed(
    listing: Listing,
    i: u64,
    place: u64,
    event: Event,
    text: &[u8],
    out: &mut Vec<u8>,
) -> Result<(), AllocError>
    ensures { OnOk result (out.new.items ≡ out.old.items ++ cond (nat_le listing.first i)
        (event_line listing.timed listing.full place (record { micros = event.micros; kind = event.kind; text = text.now })) []) }
{
    if listing.first <= i {
        return push_line(listing, place, event, text, out);
    }
    Ok(())
}

/// Returns the place in the content after an event with these bytes.
fn place_after(place: u64, event: Event, text: &[u8]) -> u64
    requires { place + length text.now < 2 ^ 64 }
    ensures value { result ≡ place_after place (record { micros = event.micros; kind = event.kind; text = text.now }) }
    ensures counted { result ≤ place + length text.now }
{
    if is_output(event.kind) {
        place + text.len() as u64
    } else {
        place
    }
}

/// Returns an event by its index.
fn event_at(events: &[Event], i: usize) -> Event
    requires { i < length events.now }
    ensures { drop i events.now ≡ result ∷ drop (i + 1) events.now }
{
    events[i]
}

/// Appends the lines of events, given their marks and their bytes joined.
fn push_table(
    listing: Listing,
    events: &[Event],
    text: &[u8],
    out: &mut Vec<u8>,
) -> Result<(), AllocError>
    ensures { OnOk result (out.new.items ≡ out.old.items
        ++ table listing.timed listing.full listing.first 0 0 (events_of events.now text.now)) }
{
    let mut place = 0;
    let mut at = 0;
    let mut i = 0;
    while i < events.len() {
        let event = event_at(events, i);
        let end = at + event.length.min(text.len() - at);
        push_listed(listing, i as u64, place, event, &text[at..end], out)?;
        place = place_after(place, event, &text[at..end]);
        at = end;
        i += 1;
    }
    Ok(())
}

/// Appends the line of the terminal that a recording names, if it does.
fn push_terminal(terminal: Option<TerminalType>, out: &mut Vec<u8>) -> Result<(), AllocError>
    ensures { OnOk result (out.new.items ≡ out.old.items ++ terminal_line terminal) }
{
    match terminal {
        Some(TerminalType::Vt220) => out.extend_from_slice(b"terminal\tvt220\n"),
        Some(TerminalType::Xterm) => out.extend_from_slice(b"terminal\txterm\n"),
        None => Ok(()),
    }
}

/// Appends a name and a number, with TAB before the number.
fn push_named(name: &[u8], n: u64, out: &mut Vec<u8>) -> Result<(), AllocError>
    ensures { OnOk result (out.new.items ≡ out.old.items ++ (name.now ++ 0x09 ∷ decimal n)) }
{
    out.extend_from_slice(name)?;
    out.push(b'\t')?;
    push_decimal(n, out)
}

/// Appends the line of the size that a recording names, if it does.
fn push_window(columns: Option<u32>, rows: Option<u32>, out: &mut Vec<u8>) -> Result<(), AllocError>
    ensures { OnOk result (out.new.items ≡ out.old.items ++ window_line columns rows) }
{
    let Some(columns) = columns else {
        return Ok(());
    };
    let Some(rows) = rows else {
        return Ok(());
    };
    push_named(b"window", columns.into(), out)?;
    push_named(b"", rows.into(), out)?;
    out.push(b'\n')?;
    Ok(())
}

/// Appends what the first line of a recording names, to a full table.
fn push_heading(full: bool, heading: Heading, out: &mut Vec<u8>) -> Result<(), AllocError>
    ensures { OnOk result (out.new.items ≡ out.old.items ++ heading_lines full heading) }
{
    if !full {
        return Ok(());
    }
    push_terminal(heading.terminal, out)?;
    push_window(heading.columns, heading.rows, out)
}

/// Returns the name of a file of a recording.
fn part_name(part: Part) -> &'static [u8]
    ensures { result.now ≡ part_name part }
{
    match part {
        Part::Recording => b"recording",
        Part::Timing => b"timing",
    }
}

/// Appends the line of the place at which a recording breaks its format, if it does, to a full table.
fn push_break(full: bool, broken: Option<Break>, out: &mut Vec<u8>) -> Result<(), AllocError>
    ensures { OnOk result (out.new.items ≡ out.old.items ++ break_line full broken) }
{
    let Some(place) = broken else {
        return Ok(());
    };
    if !full {
        return Ok(());
    }
    out.extend_from_slice(b"broken\t")?;
    push_named(part_name(place.part), place.at, out)?;
    out.push(b'\n')?;
    Ok(())
}

/// Returns the table of a recording's events between two moments instead of its content. A full table begins with the heading of the
/// recording, and has the bytes of output. It ends with the place at which the recording breaks its format.
pub(crate) fn events_taken(
    alloc: Global,
    timeline: &Timeline,
    heading: Heading,
    format: Format,
    timed: bool,
    full: bool,
    from: Option<Moment>,
    until: Option<Moment>,
) -> Result<Taken, AllocError>
    ensures { IfOk result (λ t. (t.content.items ≡ event_table format timed full from until heading (timeline_view timeline.now))
        × (t.replaced ≡ 0)) }
{
    let timed = format.has_times(timed);
    let first = passed_before(timeline, format, Encoding::Utf8, from).events;
    let listing = Listing { timed, full, first };
    let events = due(timeline, format, Encoding::Utf8, until);
    let mut lines = Vec::new(alloc);
    push_heading(full, heading, &mut lines)?;
    push_table(listing, events, &timeline.text, &mut lines)?;
    push_break(full, timeline.broken, &mut lines)?;
    Ok(Taken {
        content: lines,
        replaced: 0,
    })
}
