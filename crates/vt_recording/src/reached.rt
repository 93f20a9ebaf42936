//! The events of a recording before a moment, and up to one.
ghost use Rattle.std.specs.Prelude.{◌≡◌, ◌≤◌, ◌<◌, ◌+◌, ◌∷◌, ◌^◌, drop, length, true, false};
ghost use Rattle.vt_recording.specs.Timeline as timeline;
ghost use Rattle.vt_recording.specs.Gathered.{events_of};
ghost use Rattle.vt_recording.specs.Reached as reached;
ghost use Rattle.vt_recording.specs.Reached.{has_characters, continues, length_of, is_marker, nothing_passed, with_event, is_reached, is_over, stops, passed, content_at, place_of};

use crate::format::{Encoding, Format, Moment};
use crate::timeline::{Event, EventKind, Timeline};

/// The part of a recording up to a moment, in numbers.
#[derive(Clone, Copy, Debug, PartialEq, Eq)]
pub struct Passed {
    /// The number of events.
    pub events: u64,
    /// The number of markers among them.
    pub markers: u64,
    /// The number of their bytes in the content.
    pub content: u64,
}

/// The beginning of a recording.
pub(crate) const NOTHING_PASSED: Passed = Passed {
    events: 0,
    markers: 0,
    content: 0,
};

/// Returns whether the content of a recording has a byte for each character, and not the bytes of its UTF-8.
pub(crate) fn has_characters(format: Format, encoding: Encoding) -> bool
    ensures { result ≡ has_characters format encoding }
{
    matches!(format, Format::Asciicast) && matches!(encoding, Encoding::Dec)
}

/// Returns whether a byte continues a character of UTF-8.
fn continues(byte: u8) -> bool
    ensures { result ≡ continues byte }
{
    0x80 <= byte && byte < 0xC0
}

/// Returns how many bytes of the content a text is.
fn length_of(characters: bool, text: &[u8]) -> u64
    ensures value { result ≡ length_of characters text.now }
    ensures small { result ≤ length text.now }
{
    if characters {
        count_characters(text)
    } else {
        text.len() as u64
    }
}

/// Returns the number of bytes that don't continue a character.
fn count_characters(text: &[u8]) -> u64
    ensures value { result ≡ length_of true text.now }
    ensures small { result ≤ length text.now }
{
    let mut count = 0u64;
    for byte in text {
        if !continues(*byte) {
            count += 1;
        }
    }
    count
}

/// Returns whether an event is a marker.
fn is_marker(kind: EventKind) -> bool
    ensures { result ≡ is_marker kind }
{
    matches!(kind, EventKind::Marker)
}

/// Returns whether an event is output.
pub(crate) fn is_output(kind: EventKind) -> bool
    ensures { result ≡ timeline.is_output kind }
{
    matches!(kind, EventKind::Output)
}

impl Passed {
    /// Returns what passes with an event more, whose bytes are these.
    pub(crate) fn with_event(self, characters: bool, event: Event, text: &[u8]) -> Passed
        requires events { self.events + 1 < 2 ^ 64 }
        requires markers { self.markers ≤ self.events }
        requires content { self.content + length text.now < 2 ^ 64 }
        ensures value { result ≡ with_event characters self (record { micros = event.micros; kind = event.kind; text = text.now }) }
        ensures markers { result.markers ≤ result.events }
        ensures content { result.content ≤ self.content + length text.now }
    {
        Passed {
            events: self.events + 1,
            markers: if is_marker(event.kind) {
                self.markers + 1
            } else {
                self.markers
            },
            content: self.content
                + if is_output(event.kind) {
                    length_of(characters, text)
                } else {
                    0
                },
        }
    }

    /// Returns whether an event that comes after this is at a moment, or after it.
    fn is_reached(self, moment: Moment, event: Event) -> bool
        requires events { self.events + 1 < 2 ^ 64 }
        requires markers { self.markers ≤ self.events }
        ensures { result ≡ is_reached moment self event.micros event.kind }
    {
        match moment {
            Moment::Micros(micros) => micros <= event.micros,
            Moment::Bytes(count) => count <= self.content,
            Moment::Event(number) => number <= self.events + 1,
            Moment::Marker(number) => is_marker(event.kind) && number <= self.markers + 1,
        }
    }

    /// Returns whether an event of a time that comes after this is after a moment.
    fn is_over(self, moment: Moment, micros: u64) -> bool
        ensures { result ≡ is_over moment self micros }
    {
        match moment {
            Moment::Micros(most) => most < micros,
            Moment::Bytes(count) => count <= self.content,
            Moment::Event(number) => number <= self.events,
            Moment::Marker(number) => number <= self.markers,
        }
    }

    /// Returns whether an event that comes after this doesn't pass: with `until` if it is after the moment, otherwise if it is at that.
    fn stops(self, until: bool, moment: Option<Moment>, event: Event) -> bool
        requires events { self.events + 1 < 2 ^ 64 }
        requires markers { self.markers ≤ self.events }
        ensures { result ≡ stops until moment self event.micros event.kind }
    {
        match moment {
            None => !until,
            Some(moment) => {
                if until {
                    self.is_over(moment, event.micros)
                } else {
                    self.is_reached(moment, event)
                }
            }
        }
    }

    /// Returns the number of bytes of the content before a moment, or up to it, up to which this passes.
    fn content_at(self, moment: Option<Moment>) -> u64
        ensures { result ≡ content_at moment self }
    {
        match moment {
            Some(Moment::Bytes(count)) => count,
            Some(Moment::Micros(_) | Moment::Event(_) | Moment::Marker(_)) => self.content,
            None => self.content,
        }
    }
}

/// Returns an event by its index.
pub(crate) fn event_at(events: &[Event], i: usize) -> Event
    requires { i < length events.now }
    ensures { drop i events.now ≡ result ∷ drop (i + 1) events.now }
{
    events[i]
}

/// Returns what passes before the first event at a moment. With `until` it is the first event after the moment. The events are given by
/// their marks and their bytes joined.
fn passed_in(
    events: &[Event],
    text: &[u8],
    until: bool,
    characters: bool,
    moment: Option<Moment>,
) -> Passed
    ensures value { result ≡ passed until characters moment nothing_passed (events_of events.now text.now) }
    ensures few { result.events ≤ length events.now }
{
    let mut so_far = NOTHING_PASSED;
    let mut at = 0;
    let mut i = 0;
    while i < events.len() {
        let event = event_at(events, i);
        if so_far.stops(until, moment, event) {
            return so_far;
        }
        let end = at + event.length.min(text.len() - at);
        so_far = so_far.with_event(characters, event, &text[at..end]);
        at = end;
        i += 1;
    }
    so_far
}

/// Returns what passes of a recording before the first event at a moment. If no event is at the moment or after it, all events pass.
/// Without a moment none passes.
pub fn passed_before(
    timeline: &Timeline,
    format: Format,
    encoding: Encoding,
    moment: Option<Moment>,
) -> Passed
    ensures { result ≡ passed false (has_characters format encoding) moment nothing_passed
        (events_of timeline.now.events.items timeline.now.text.items) }
{
    let characters = has_characters(format, encoding);
    passed_in(&timeline.events, &timeline.text, false, characters, moment)
}

/// Returns the first events of a recording, which are due until a moment.
///
/// - A time: the events that aren't later.
/// - A number of bytes: the events before the last of them.
/// - An event or a marker: the events before it, and the event itself.
///
/// Without a moment these are all events. Their bytes are the first ones of the timeline's.
pub fn due(
    timeline: &Timeline,
    format: Format,
    encoding: Encoding,
    until: Option<Moment>,
) -> &[Event]
    ensures { events_of result.now timeline.now.text.items ≡ reached.due (has_characters format encoding) until
        (events_of timeline.now.events.items timeline.now.text.items) }
{
    let characters = has_characters(format, encoding);
    let passed = passed_in(&timeline.events, &timeline.text, true, characters, until);
    &timeline.events[..passed.events as usize]
}

/// Returns the number of bytes of the content before a moment, or with `until` up to it.
pub(crate) fn place_of(
    timeline: &Timeline,
    characters: bool,
    until: bool,
    moment: Option<Moment>,
) -> u64
    ensures { result ≡ place_of until characters moment (events_of timeline.now.events.items timeline.now.text.items) }
{
    let passed = passed_in(&timeline.events, &timeline.text, until, characters, moment);
    passed.content_at(moment)
}
