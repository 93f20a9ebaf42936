//! The timing file of script(1).
ghost use Rattle.std.specs.Prelude.{◌≡◌, ◌≤◌, ◌<◌, ◌+◌, ◌++◌, [], List, length, take, drop, nat_eq, option_map, IfOk, IfNone, IfSome, OnOk};
ghost use Rattle.std.specs.List.{position};
ghost use Rattle.vt_recording.specs.Script.{first_line};
ghost use Rattle.vt_recording.specs.Lines.{lines_of};
ghost use Rattle.vt_recording.specs.Timing.{space_in, chunk_in, note_in, input_in, step_in, break_in, spot_after};
ghost use Rattle.vt_recording.specs.Timing.{is_empty, value_in, value_of, is_apart};
ghost use Rattle.vt_recording.specs.Steps.{step_view, spot_in};
ghost use Rattle.vt_recording.specs.Timeline as timeline;
ghost use Rattle.vt_recording.specs.Timeline.{signal_in, unheard_in, told_by, timed, IsTimedBy};
ghost use Rattle.vt_recording.specs.Gathered.{AreGathered, IsRead};

use crate::lines::{behind, front_line, stripped};
use crate::script::session_in;
use crate::seconds::{micros, number};
use crate::timeline::{EventKind, Gathered, Timeline, in_recording};
use std::alloc::{AllocError, Global};
use vt_device::{Break, Part};

/// A line of a timing file.
#[derive(Clone, Copy)]
struct Step {
    /// The microseconds since the line before.
    micros: u64,
    /// Whether it is output.
    is_output: bool,
    /// The number of its bytes in the session.
    count: usize,
}

/// Returns the index of the first space.
fn space_in(text: &[u8]) -> Option<usize>
    ensures value { result ≡ space_in text.now }
    ensures within { IfSome result (λ at. at < length text.now) }
{
    text.iter().position(|b| *b == b' ')
}

/// Returns the step of seconds and a number of bytes.
fn chunk_in(is_output: bool, text: &[u8]) -> Option<Step>
    ensures { option_map step_view result ≡ chunk_in is_output text.now }
{
    let at = space_in(text)?;
    let micros = micros(&text[..at])?;
    let count = number(9, &text[at + 1..])? as usize;
    Some(Step {
        micros,
        is_output,
        count,
    })
}

/// Returns the step of seconds and a text.
fn note_in(text: &[u8]) -> Option<Step>
    ensures { option_map step_view result ≡ note_in text.now }
{
    let at = space_in(text)?;
    let micros = micros(&text[..at])?;
    Some(Step {
        micros,
        is_output: false,
        count: 0,
    })
}

/// Returns the step of input, of which no byte is in the session if it was recorded apart.
fn input_in(is_apart: bool, text: &[u8]) -> Option<Step>
    ensures { option_map step_view result ≡ input_in is_apart text.now }
{
    let step = chunk_in(false, text)?;
    Some(Step {
        count: if is_apart { 0 } else { step.count },
        ..step
    })
}

/// Returns the step of a line, with a type or without one.
fn step_in(is_apart: bool, line: &[u8]) -> Option<Step>
    ensures { option_map step_view result ≡ step_in is_apart line.now }
{
    if let Some(text) = stripped(b"O ", line) {
        return chunk_in(true, text);
    }
    if let Some(text) = stripped(b"I ", line) {
        return input_in(is_apart, text);
    }
    if let Some(text) = stripped(b"S ", line) {
        return note_in(text);
    }
    match stripped(b"H ", line) {
        Some(text) => note_in(text),
        None => chunk_in(true, line),
    }
}

/// Returns the value of a fact, if the line has it. The name ends with a space.
fn value_in<'a>(name: &[u8], line: &'a [u8]) -> Option<&'a [u8]>
    ensures { option_map (λ s. s.now) result ≡ value_in name.now line.now }
{
    let text = stripped(b"H ", line)?;
    stripped(name, behind(space_in(text)? + 1, text))
}

/// Returns the value of a fact in the first line that has it. The name ends with a space.
fn value_of<'a>(name: &[u8], timing: &'a [u8]) -> Option<&'a [u8]>
    ensures { option_map (λ s. s.now) result ≡ value_of name.now (lines_of timing.now) }
{
    let mut at = 0;
    while at < timing.len() {
        let line = front_line(&timing[at..]);
        if let Some(value) = value_in(name, line) {
            return Some(value);
        }
        at += line.len() + 1;
    }
    None
}

/// Returns whether input was recorded apart: into another file than output.
fn is_apart(timing: &[u8]) -> bool
    ensures { result ≡ is_apart (lines_of timing.now) }
{
    match (
        value_of(b"OUTPUT_LOG ", timing),
        value_of(b"INPUT_LOG ", timing),
    ) {
        (Some(output), Some(input)) => output != input,
        _ => false,
    }
}

/// Returns the text after a name in a line of a signal. The name ends with a space.
fn signal_in<'a>(name: &[u8], line: &'a [u8]) -> Option<&'a [u8]>
    ensures { option_map (λ s. s.now) result ≡ signal_in name.now line.now }
{
    let text = stripped(b"S ", line)?;
    stripped(name, behind(space_in(text)? + 1, text))
}

/// Gathers the event of a line that isn't output.
fn gather_unheard(
    line: &[u8],
    micros: u64,
    bytes: &[u8],
    gathered: &mut Gathered,
) -> Result<(), AllocError>
    ensures { OnOk result ((front : List timeline.Event)
        → AreGathered front gathered.old.events.items gathered.old.text.items
        → AreGathered (front ++ unheard_in line.now micros bytes.now) gathered.new.events.items gathered.new.text.items) }
{
    if line.starts_with(b"I ") {
        return gathered.push(micros, EventKind::Input, bytes);
    }
    if let Some(size) = signal_in(b"SIGWINCH ", line) {
        return gathered.push(micros, EventKind::Size, size);
    }
    match value_in(b"EXIT_CODE ", line) {
        Some(status) => gathered.push(micros, EventKind::Exit, status),
        None => Ok(()),
    }
}

/// The events of a session so far.
#[derive(Drop)]
struct Telling {
    /// The time, in microseconds.
    clock: u64,
    /// The number of bytes of the session that were taken.
    place: usize,
    /// The events.
    gathered: Gathered,
}

impl Telling {
    /// Gathers the event of a line that begins at `at`, and returns its break. `is_apart` says whether input was recorded apart.
    /// `stop` is the end of the session in its file.
    fn tell(
        &mut self,
        line: &[u8],
        is_apart: bool,
        session: &[u8],
        stop: u64,
        at: u64,
    ) -> Result<Option<Break>, AllocError>
        requires { self.old.place ≤ length session.now }
        ensures breaks { IfOk result (λ b. b ≡ break_in (is_empty line.now) (step_in is_apart line.now) session.now self.old.place stop at) }
        ensures events { IfOk result (λ b. IfNone b ((front : List timeline.Event)
            → AreGathered front self.old.gathered.events.items self.old.gathered.text.items
            → AreGathered (front ++ told_by (is_empty line.now) (step_in is_apart line.now) line.now session.now (spot_in self.old))
            self.new.gathered.events.items self.new.gathered.text.items)) }
        ensures spot { IfOk result (λ b. IfNone b (spot_in self.new
            ≡ spot_after (is_empty line.now) (step_in is_apart line.now) (spot_in self.old))) }
        ensures within { IfOk result (λ b. IfNone b (self.new.place ≤ length session.now)) }
        ensures kept { IfOk result (λ b. IfSome b (λ _. (self.new.gathered.events.items ≡ self.old.gathered.events.items)
            × (self.new.gathered.text.items ≡ self.old.gathered.text.items))) }
    {
        if line.is_empty() {
            return Ok(None);
        }
        let Some(step) = step_in(is_apart, line) else {
            return Ok(Some(Break {
                part: Part::Timing,
                at,
            }));
        };
        if session.len() - self.place < step.count {
            return Ok(Some(Break {
                part: Part::Recording,
                at: stop,
            }));
        }
        let from = self.place;
        self.clock = self.clock.saturating_add(step.micros);
        self.place += step.count;
        let bytes = &session[from..self.place];
        if step.is_output {
            self.gathered.push(self.clock, EventKind::Output, bytes)?;
        } else {
            gather_unheard(line, self.clock, bytes, &mut self.gathered)?;
        }
        Ok(None)
    }
}

/// Gathers the events of the lines of a timing file, and returns the first break.
fn gather_lines(
    timing: &[u8],
    session: &[u8],
    stop: u64,
    gathered: Gathered,
) -> Result<Timeline, AllocError>
    requires { AreGathered [] gathered.events.items gathered.text.items }
    ensures broken { IfOk result (λ t. t.broken ≡ (timed session.now stop (lines_of timing.now)).broken) }
    ensures events { IfOk result (λ t. AreGathered (timed session.now stop (lines_of timing.now)).events t.events.items t.text.items) }
{
    let is_apart = is_apart(timing);
    let mut telling = Telling {
        clock: 0,
        place: 0,
        gathered,
    };
    let mut at = 0;
    while at < timing.len() {
        let line = front_line(&timing[at..]);
        if let Some(place) = telling.tell(line, is_apart, session, stop, at as u64)? {
            return Ok(telling.gathered.timeline(Some(place)));
        }
        at += line.len() + 1;
    }
    Ok(telling.gathered.timeline(None))
}

/// Returns the events that a timing file takes from a recording.
pub(crate) fn timed_timeline(
    alloc: Global,
    bytes: &[u8],
    timing: &[u8],
) -> Result<Timeline, AllocError>
    ensures { IfOk result (λ t. IsRead (IsTimedBy (first_line bytes.now) bytes.now timing.now) t) }
{
    let Some(session) = session_in(bytes) else {
        let gathered = Gathered::with_capacity(alloc, 0)?;
        return Ok(gathered.timeline(in_recording(Some(0))));
    };
    let output = session.output;
    let gathered = Gathered::with_capacity(alloc, output.len())?;
    gather_lines(timing, output, session.stop as u64, gathered)
}
