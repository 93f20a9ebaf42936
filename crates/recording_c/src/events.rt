//! The events of a recording in the form that C sees.
ghost use Rattle.std.specs.Prelude.{◌≡◌, ◌≤◌, ◌<◌, ◌⊎◌, length, option_map};
ghost use Rattle.recording_c.specs.Events.{number_of_kind, c_event, events_over, bytes_over, c_extent, timing_if, IsTold};
ghost use Rattle.recording_c.specs.Status.{read_ok, read_memory, read_room};

use crate::heading::format_by;
use crate::status::{MEMORY, OK, ROOM};
use std::alloc::Global;
use vt_recording::{Event, EventKind, Part, Timeline, detect, timeline_of};

/// An event: its time in microseconds after the beginning, the number of its bytes, and what it is: 0 output, 1 input, 2 a marker, 3 a
/// new size, 4 the exit status.
#[repr(C)]
#[derive(Clone, Copy)]
pub struct RecordingEvent {
    pub micros: u64,
    pub length: usize,
    pub kind: u32,
}

/// The number of a recording's events, that of their bytes, and the place at which it breaks its format: the part (0 nowhere, 1 the
/// recording, 2 the timing file) and the offset there.
#[repr(C)]
#[derive(Clone, Copy)]
pub struct RecordingExtent {
    pub events: usize,
    pub bytes: usize,
    pub broken_at: u64,
    pub broken_part: u32,
}

/// Returns the number of a kind.
fn number_of_kind(kind: EventKind) -> u32
    ensures { result ≡ number_of_kind kind }
{
    match kind {
        EventKind::Output => 0,
        EventKind::Input => 1,
        EventKind::Marker => 2,
        EventKind::Size => 3,
        EventKind::Exit => 4,
    }
}

fn c_event(event: Event) -> RecordingEvent
    ensures { result ≡ c_event event }
{
    RecordingEvent {
        micros: event.micros,
        length: event.length,
        kind: number_of_kind(event.kind),
    }
}

/// Writes events into the front of a slice.
fn put_events(from: &[Event], into: &mut [RecordingEvent])
    requires { length from.now ≤ length into.old }
    ensures { into.new ≡ events_over from.now into.old }
{
    let mut i = 0;
    while i < from.len() {
        into[i] = c_event(from[i]);
        i += 1;
    }
}

/// Writes bytes into the front of a slice.
fn put_bytes(from: &[u8], into: &mut [u8])
    requires { length from.now ≤ length into.old }
    ensures { into.new ≡ bytes_over from.now into.old }
{
    into[..from.len()].copy_from_slice(from);
}

/// Returns how large a timeline is, and where it breaks its format.
fn c_extent(timeline: &Timeline) -> RecordingExtent
    ensures { result ≡ c_extent timeline.now }
{
    let (broken_part, broken_at) = match timeline.broken {
        Some(place) => match place.part {
            Part::Recording => (1, place.at),
            Part::Timing => (2, place.at),
        },
        None => (0, 0),
    };
    RecordingExtent {
        events: timeline.events.len(),
        bytes: timeline.text.len(),
        broken_at,
        broken_part,
    }
}

/// Returns the timing file, if there is one.
fn timing_if(is_timed: bool, timing: &[u8]) -> Option<&[u8]>
    ensures { option_map (λ b. b.now) result ≡ timing_if is_timed timing.entry.now }
{
    if is_timed { Some(timing) } else { None }
}

/// Writes the events of a recording into the front of `events`, their bytes joined into the front of `text`, and their numbers to
/// `extent`. The format is the one that the beginning of the recording shows, or script if there is a timing file. A compressed file is
/// one event. Returns `ROOM`, and writes `extent` alone, if a buffer is too small. Returns `MEMORY`, and writes nothing, if allocation fails.
#[unsafe(no_mangle)]
pub extern "C" fn recording_events(
    recording: &[u8],
    timing: &[u8],
    is_timed: bool,
    events: &mut [RecordingEvent],
    text: &mut [u8],
    extent: &mut RecordingExtent,
    alloc: Global,
) -> u32
    ensures told { result ≡ read_ok → IsTold is_timed timing.now recording.now events.old events.new text.old text.new extent.new }
    ensures room { result ≡ read_room → (events.new ≡ events.old) × (text.new ≡ text.old)
        × ((length events.old < extent.new.events) ⊎ (length text.old < extent.new.bytes)) }
    ensures memory { result ≡ read_memory → (events.new ≡ events.old) × (text.new ≡ text.old) × (extent.new ≡ extent.old) }
    ensures statuses { (result ≡ read_ok) ⊎ (result ≡ read_memory) ⊎ (result ≡ read_room) }
{
    let format = format_by(is_timed, detect(recording));
    let Ok(timeline) = timeline_of(alloc, recording, timing_if(is_timed, timing), format) else {
        return MEMORY;
    };
    *extent = c_extent(&timeline);
    if events.len() < timeline.events.len() || text.len() < timeline.text.len() {
        return ROOM;
    }
    put_events(&timeline.events, events);
    put_bytes(&timeline.text, text);
    OK
}
