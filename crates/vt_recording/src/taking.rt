//! The content of a recording, and the encoding that it shows.
ghost use Rattle.std.specs.Prelude.{◌≡◌, ◌≤◌, ◌++◌, [], ℕ, List, length, drop, false, IfOk, OnOk};
ghost use Rattle.vt_recording.specs.Characters.{AreWritten};
ghost use Rattle.vt_recording.specs.Gathered.{events_of};
ghost use Rattle.vt_recording.specs.Reached.{has_characters, place_of};
ghost use Rattle.vt_recording.specs.Taken.{IsTaken, IsShown, heard, all_heard};

use crate::characters::Written;
use crate::detection::shows_utf8;
use crate::format::{Encoding, Format, Moment, Taken};
use crate::lines::behind;
use crate::reached::{event_at, has_characters, is_output, place_of};
use crate::timeline::{Event, EventKind, Timeline};
use std::alloc::{AllocError, Global};

/// Appends what an event with these bytes gives to the content.
fn push_heard(
    characters: bool,
    most: usize,
    kind: EventKind,
    text: &[u8],
    written: &mut Written,
) -> Result<(), AllocError>
    requires { written.old.replaced ≤ length written.old.bytes.items }
    ensures bound { OnOk result (written.new.replaced ≤ length written.new.bytes.items) }
    ensures written { OnOk result ((front : List ℕ)
        → AreWritten characters most front written.old.bytes.items written.old.replaced
        → AreWritten characters most (front ++ heard characters kind text.now) written.new.bytes.items written.new.replaced) }
{
    if is_output(kind) {
        return written.push_text(characters, most, text);
    }
    Ok(())
}

/// Appends the content that events give, by their marks and their bytes joined.
fn push_all_heard(
    characters: bool,
    most: usize,
    events: &[Event],
    text: &[u8],
    written: &mut Written,
) -> Result<(), AllocError>
    requires none { AreWritten characters most [] written.old.bytes.items written.old.replaced }
    requires bound { written.old.replaced ≤ length written.old.bytes.items }
    ensures { OnOk result (AreWritten characters most (all_heard characters (events_of events.now text.now))
        written.new.bytes.items written.new.replaced) }
{
    let mut at = 0;
    let mut i = 0;
    while i < events.len() {
        let event = event_at(events, i);
        let end = at + event.length.min(text.len() - at);
        push_heard(characters, most, event.kind, &text[at..end], written)?;
        at = end;
        i += 1;
    }
    Ok(())
}

/// Returns the first bytes of the content, at most so many.
fn front_of(
    alloc: Global,
    timeline: &Timeline,
    characters: bool,
    most: usize,
) -> Result<Written, AllocError>
    ensures { IfOk result (λ w. AreWritten characters most
        (all_heard characters (events_of timeline.now.events.items timeline.now.text.items)) w.bytes.items w.replaced) }
{
    let mut written = Written::with_capacity(alloc, most.min(timeline.text.len()))?;
    push_all_heard(
        characters,
        most,
        &timeline.events,
        &timeline.text,
        &mut written,
    )?;
    Ok(written)
}

/// Returns the bytes after the first `count`, of which there may be fewer.
fn after_front(alloc: Global, count: u64, bytes: Vec<u8>) -> Result<Vec<u8>, AllocError>
    ensures { IfOk result (λ v. v.items ≡ drop count bytes.items) }
{
    if count == 0 {
        return Ok(bytes);
    }
    Vec::from_slice(alloc, behind(count as usize, &bytes))
}

/// Returns the content of a recording between two moments. Either may be missing: without `from` it begins with the first byte, and
/// without `until` it ends with the last one. With the encoding `Dec` the content of a recording by asciinema has a byte for each
/// character.
///
/// - A time: the content begins with the first event that isn't earlier, and ends with the last event that isn't later.
/// - A number of bytes: with `from` so many bytes are left out. With `until` there are so many.
/// - An event or a marker: with `from` what comes before it is left out. With `until` it is the last one. If there are
///   fewer events or markers, all come before it.
///
/// The number of characters without a byte is that up to `until`. Returns `Err` if allocation fails.
pub fn take_between(
    alloc: Global,
    timeline: &Timeline,
    format: Format,
    encoding: Encoding,
    from: Option<Moment>,
    until: Option<Moment>,
) -> Result<Taken, AllocError>
    ensures { IfOk result (λ t. IsTaken (has_characters format encoding) from until
        (events_of timeline.now.events.items timeline.now.text.items) t.content.items t.replaced) }
{
    let characters = has_characters(format, encoding);
    let start = place_of(timeline, characters, false, from);
    let end = place_of(timeline, characters, true, until);
    let written = front_of(alloc, timeline, characters, end as usize)?;
    let replaced = written.replaced;
    Ok(Taken {
        content: after_front(alloc, start, written.bytes)?,
        replaced,
    })
}

/// Returns the encoding that a recording shows: by script or ttyrec UTF-8 if its content is that, with a character beyond
/// ASCII; by asciinema UTF-8. Raw bytes don't decide. Returns `Err` if allocation fails.
pub fn encoding_of(
    alloc: Global,
    timeline: &Timeline,
    format: Format,
) -> Result<Encoding, AllocError>
    ensures { IfOk result (λ e. IsShown format (events_of timeline.now.events.items timeline.now.text.items) e) }
{
    match format {
        Format::Script | Format::Ttyrec => {
            let taken = take_between(alloc, timeline, format, Encoding::Dec, None, None)?;
            Ok(if shows_utf8(&taken.content) {
                Encoding::Utf8
            } else {
                Encoding::Dec
            })
        }
        _ => Ok(format.usual_encoding()),
    }
}
