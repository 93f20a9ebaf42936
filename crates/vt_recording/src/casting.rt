//! The events of a recording by asciinema.
ghost use Rattle.std.specs.Prelude.{◌≡◌, ◌≤◌, ◌+◌, ◌++◌, [], List, length, drop, false, option_map, IfOk, OnOk};
ghost use Rattle.vt_recording.specs.Lines.{lines_of};
ghost use Rattle.json.specs.Value.{items_view};
ghost use Rattle.vt_recording.specs.Asciicast.{is_silent, event_in, time_behind, frames_in};
ghost use Rattle.vt_recording.specs.Events.{event_view};
ghost use Rattle.vt_recording.specs.Timeline as timeline;
ghost use Rattle.vt_recording.specs.Timeline.{in_recording, kind_of, told_in, cast_events, frame_events, events_by_frames};
ghost use Rattle.vt_recording.specs.Gathered.{AreGathered, IsRead};

use crate::asciicast::{
    Event, clock_after, document_in, event_in, frame_of, frames_of, is_silent, json_text,
    version_in,
};
use crate::lines::front_line;
use crate::timeline::{EventKind, Gathered, Timeline, in_recording};
use json::{Scratch, Value};
use std::alloc::{AllocError, Global};

/// Returns the kind of an event by its code.
fn kind_of(code: &str) -> Option<EventKind>
    ensures { result ≡ kind_of code.now }
{
    match code {
        "o" => Some(EventKind::Output),
        "i" => Some(EventKind::Input),
        "m" => Some(EventKind::Marker),
        "r" => Some(EventKind::Size),
        "x" => Some(EventKind::Exit),
        _ => None,
    }
}

/// Gathers an event, and returns the time after it. Returns `None` if there is none.
fn gather_event(
    event: Option<Event<'_>>,
    version: u64,
    clock: u64,
    gathered: &mut Gathered,
) -> Result<Option<u64>, AllocError>
    ensures time { IfOk result (λ time. time ≡ time_behind false (option_map event_view event.entry) version clock) }
    ensures gathered { OnOk result ((front : List timeline.Event)
        → AreGathered front gathered.old.events.items gathered.old.text.items
        → AreGathered (front ++ told_in false (option_map event_view event.entry) version clock)
        gathered.new.events.items gathered.new.text.items) }
{
    let Some(event) = event else {
        return Ok(None);
    };
    let now = clock_after(version, clock, event.micros);
    gathered.push_if(now, kind_of(event.code), event.text.as_bytes())?;
    Ok(Some(now))
}

/// Gathers the event of a line, and returns the time after it. Returns `None` if it isn't an event.
fn gather_line(
    line: &[u8],
    version: u64,
    clock: u64,
    scratch: &mut Scratch,
    gathered: &mut Gathered,
) -> Result<Option<u64>, AllocError>
    ensures time { IfOk result (λ time. time
        ≡ time_behind (is_silent version line.now) (event_in line.now) version clock) }
    ensures gathered { OnOk result ((front : List timeline.Event)
        → AreGathered front gathered.old.events.items gathered.old.text.items
        → AreGathered (front ++ told_in (is_silent version line.now) (event_in line.now) version clock)
        gathered.new.events.items gathered.new.text.items) }
{
    if is_silent(version, line) {
        return Ok(Some(clock));
    }
    let event = event_in(line, scratch)?;
    gather_event(event, version, clock, gathered)
}

/// Gathers the events of the lines starting at an offset, and returns the offset of a line that isn't an event.
fn gather_lines(
    bytes: &[u8],
    from: usize,
    version: u64,
    scratch: &mut Scratch,
    gathered: &mut Gathered,
) -> Result<Option<usize>, AllocError>
    requires from_in_range { from ≤ length bytes.now + 1 }
    requires no_events { AreGathered [] gathered.old.events.items gathered.old.text.items }
    ensures broken { IfOk result (λ broken. in_recording broken
        ≡ (cast_events version 0 from (lines_of (drop from bytes.now))).broken) }
    ensures gathered { OnOk result (AreGathered (cast_events version 0 from (lines_of (drop from bytes.now))).events
        gathered.new.events.items gathered.new.text.items) }
{
    let mut at = from;
    let mut clock = 0;
    while at < bytes.len() {
        let line = front_line(&bytes[at..]);
        match gather_line(line, version, clock, scratch, gathered)? {
            Some(now) => clock = now,
            None => return Ok(Some(at)),
        }
        at += line.len() + 1;
    }
    Ok(None)
}

/// Gathers the events of frames of version 1, and returns 0 if there is one that isn't an event.
fn gather_frames(frames: &[Value<'_>], gathered: &mut Gathered) -> Result<Option<usize>, AllocError>
    requires no_events { AreGathered [] gathered.old.events.items gathered.old.text.items }
    ensures broken { IfOk result (λ broken. in_recording broken ≡ (frame_events 0 (items_view frames.now)).broken) }
    ensures gathered { OnOk result (AreGathered (frame_events 0 (items_view frames.now)).events
        gathered.new.events.items gathered.new.text.items) }
{
    let mut clock = 0;
    let mut i = 0;
    while i < frames.len() {
        match gather_event(frame_of(&frames[i]), 1, clock, gathered)? {
            Some(now) => clock = now,
            None => return Ok(Some(0)),
        }
        i += 1;
    }
    Ok(None)
}

/// Gathers the events of a recording of version 1. Returns 0 if it isn't one, or has a frame that isn't an event.
fn gather_object(
    alloc: Global,
    text: &[u8],
    scratch: &mut Scratch,
    gathered: &mut Gathered,
) -> Result<Option<usize>, AllocError>
    requires no_events { AreGathered [] gathered.old.events.items gathered.old.text.items }
    ensures broken { IfOk result (λ broken. in_recording broken ≡ (events_by_frames (frames_in text.now)).broken) }
    ensures gathered { OnOk result (AreGathered (events_by_frames (frames_in text.now)).events
        gathered.new.events.items gathered.new.text.items) }
{
    let Some(object) = document_in(alloc, text, scratch)? else {
        return Ok(Some(0));
    };
    match frames_of(&object) {
        Some(frames) => gather_frames(frames, gathered),
        None => Ok(Some(0)),
    }
}

/// Returns the events of a recording by asciinema.
pub(crate) fn asciicast_timeline(alloc: Global, bytes: &[u8]) -> Result<Timeline, AllocError>
    ensures { IfOk result (λ t. IsRead (λ x. x ≡ timeline.asciicast bytes.now) t) }
{
    let mut scratch = Scratch::new(alloc);
    let mut gathered = Gathered::with_capacity(alloc, bytes.len())?;
    let text = json_text(bytes);
    let header = front_line(text);
    let Some(version) = version_in(alloc, header, &mut scratch)? else {
        let broken = gather_object(alloc, text, &mut scratch, &mut gathered)?;
        return Ok(gathered.timeline(in_recording(broken)));
    };
    let from = bytes.len() - text.len() + header.len() + 1;
    let broken = gather_lines(bytes, from, version, &mut scratch, &mut gathered)?;
    Ok(gathered.timeline(in_recording(broken)))
}
