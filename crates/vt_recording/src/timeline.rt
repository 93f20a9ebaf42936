//! The events of a recording.
ghost use Rattle.std.specs.Prelude.{◌≡◌, ◌++◌, ◌∷◌, [], List, IfOk, OnOk};
ghost use Rattle.vt_recording.specs.Timeline as timeline;
ghost use Rattle.vt_recording.specs.Timeline.{in_recording};
ghost use Rattle.vt_recording.specs.Gathered.{AreGathered, IsRead};

use std::alloc::{AllocError, Global};
use vt_device::{Break, Part};

/// The kind of an event of a recording.
#[derive(Clone, Copy, Debug, PartialEq, Eq)]
pub enum EventKind {
    /// Bytes that the host sent.
    Output,
    /// What was typed.
    Input,
    /// A moment with a name.
    Marker,
    /// A new size of the window, as the format writes it.
    Size,
    /// The exit status of the program.
    Exit,
}

/// An event of a recording, without its bytes.
#[derive(Clone, Copy, Debug, PartialEq, Eq)]
pub struct Event {
    /// The time, in microseconds after the beginning.
    pub micros: u64,
    /// The kind of the event.
    pub kind: EventKind,
    /// The number of the event's bytes.
    pub length: usize,
}

/// A recording as its events.
#[derive(Debug, PartialEq, Eq, Drop)]
pub struct Timeline {
    /// The events in turn.
    pub events: Vec<Event>,
    /// The bytes of the events, joined.
    pub text: Vec<u8>,
    /// The place at which the recording breaks its format, or `None`.
    pub broken: Option<Break>,
}

/// Returns the place of an offset in the recording.
pub(crate) fn in_recording(at: Option<usize>) -> Option<Break>
    ensures { result ≡ in_recording at }
{
    match at {
        Some(at) => Some(Break {
            part: Part::Recording,
            at: at as u64,
        }),
        None => None,
    }
}

/// The events that are gathered of a recording.
#[derive(Drop)]
pub(crate) struct Gathered {
    /// The events in turn.
    pub(crate) events: Vec<Event>,
    /// The bytes of the events, joined.
    pub(crate) text: Vec<u8>,
}

impl Gathered {
    /// Returns no events, with the capacity for so many bytes. Returns `Err` if allocation fails.
    pub(crate) fn with_capacity(alloc: Global, capacity: usize) -> Result<Gathered, AllocError>
        ensures { IfOk result (λ g. AreGathered [] g.events.items g.text.items) }
    {
        Ok(Gathered {
            events: Vec::new(alloc),
            text: Vec::with_capacity(alloc, capacity)?,
        })
    }

    /// Appends an event.
    pub(crate) fn push(
        &mut self,
        micros: u64,
        kind: EventKind,
        text: &[u8],
    ) -> Result<(), AllocError>
        ensures { OnOk result ((front : List timeline.Event)
            → AreGathered front self.old.events.items self.old.text.items
            → AreGathered (front ++ record { micros = micros; kind = kind; text = text.now } ∷ []) self.new.events.items self.new.text.items) }
    {
        self.text.extend_from_slice(text)?;
        self.events.push(Event {
            micros,
            kind,
            length: text.len(),
        })?;
        Ok(())
    }

    /// Returns the events as the timeline of a recording. It breaks its format at `broken`, or nowhere.
    pub(crate) fn timeline(self, broken: Option<Break>) -> Timeline
        ensures events { result.events.items ≡ self.events.items }
        ensures text { result.text.items ≡ self.text.items }
        ensures broken { result.broken ≡ broken }
    {
        Timeline {
            events: self.events,
            text: self.text,
            broken,
        }
    }

    /// Appends an event, if there is a kind.
    pub(crate) fn push_if(
        &mut self,
        micros: u64,
        kind: Option<EventKind>,
        text: &[u8],
    ) -> Result<(), AllocError>
        ensures { OnOk result ((front : List timeline.Event)
            → AreGathered front self.old.events.items self.old.text.items
            → AreGathered (front ++ timeline.event_if kind micros text.now) self.new.events.items self.new.text.items) }
    {
        match kind {
            Some(kind) => self.push(micros, kind, text),
            None => Ok(()),
        }
    }
}

/// Returns the timeline of a recording without times: all of its content comes at once. It breaks its format at
/// `broken`, or nowhere.
pub(crate) fn at_once(
    alloc: Global,
    content: &[u8],
    broken: Option<usize>,
) -> Result<Timeline, AllocError>
    ensures { IfOk result (λ t. IsRead (λ x. x ≡ timeline.at_once content.now broken) t) }
{
    let mut gathered = Gathered::with_capacity(alloc, content.len())?;
    gathered.push(0, EventKind::Output, content)?;
    Ok(gathered.timeline(in_recording(broken)))
}
