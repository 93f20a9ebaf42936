//! The events of a recording, by its format.
ghost use Rattle.std.specs.Prelude.{None, IfOk, option_map};
ghost use Rattle.vt_recording.specs.Timeline.{IsTimelineOf, IsOfScriptBy, AreFrames};
ghost use Rattle.vt_recording.specs.Gathered.{IsRead, timeline_view};

use crate::casting::asciicast_timeline;
use crate::format::Format;
use crate::script::session_in;
use crate::seconds::risen;
use crate::timeline::{EventKind, Gathered, Timeline, at_once, in_recording};
use crate::timing::timed_timeline;
use crate::ttyrec::{HEADER, header_of, time_of};
use std::alloc::{AllocError, Global};

/// Returns the events of a recording, and the place at which it breaks its format. Its events are what came before that place. Their
/// times count from the beginning, and never fall: a time that is lower than one before it is that one. If the format has no times, all
/// of the content comes at once. Only script(1) has a timing file. A recording breaks its format:
///
/// - of script, at byte 0 if it has no first line
/// - of script without a timing file, at the LF before the line between two sessions, if `script -a` appended a session
/// - of script, at a line of the timing file that isn't one
/// - of script, at the end of its first session if the timing file has more bytes
/// - of ttyrec, at the first frame that is cut short
/// - of asciinema, at byte 0 if the whole isn't of version 1, and its first line has no version; that line is after a byte order mark and
///   white space
/// - of asciinema, at byte 0 at a frame of version 1 that is no event, and at a line that is no event
///
/// Returns `Err` if allocation fails.
pub fn timeline_of(
    alloc: Global,
    bytes: &[u8],
    timing: Option<&[u8]>,
    format: Format,
) -> Result<Timeline, AllocError>
    ensures { IfOk result (λ t. IsTimelineOf format (option_map (λ b. b.now) timing.entry) bytes.now (timeline_view t)) }
{
    match format {
        Format::Raw => at_once(alloc, bytes, None),
        Format::Script => match timing {
            Some(timing) => timed_timeline(alloc, bytes, timing),
            None => script_timeline(alloc, bytes),
        },
        Format::Ttyrec => ttyrec_timeline(alloc, bytes),
        Format::Asciicast => asciicast_timeline(alloc, bytes),
    }
}

/// Returns the content between the first and the last line as one event.
fn script_timeline(alloc: Global, bytes: &[u8]) -> Result<Timeline, AllocError>
    ensures { IfOk result (λ t. IsRead (IsOfScriptBy None bytes.now) t) }
{
    match session_in(bytes) {
        Some(session) => at_once(alloc, session.output, session.joint),
        None => at_once(alloc, b"", Some(0)),
    }
}

/// Returns the frames as events.
fn ttyrec_timeline(alloc: Global, bytes: &[u8]) -> Result<Timeline, AllocError>
    ensures { IfOk result (λ t. IsRead (AreFrames bytes.now) t) }
{
    let mut gathered = Gathered::with_capacity(alloc, bytes.len())?;
    let mut clock = 0;
    let mut at = 0;
    while at < bytes.len() {
        let Some(piece) = header_of(&bytes[at..]) else {
            return Ok(gathered.timeline(in_recording(Some(at))));
        };
        let from = at + HEADER;
        at = from + piece.size;
        clock = risen(clock, piece.time.saturating_sub(time_of(bytes)));
        gathered.push(clock, EventKind::Output, &bytes[from..at])?;
    }
    Ok(gathered.timeline(None))
}
