//! The format of a recording, and what its first line names, in the form that C sees.
ghost use Rattle.std.specs.Prelude.{◌≡◌, ◌⊎◌};
ghost use Rattle.vt_recording.specs.Heading.{heading_of};
ghost use Rattle.recording_c.specs.Headings.{format_by, number_of_format, c_heading, heading_in};
ghost use Rattle.recording_c.specs.Status.{read_ok, read_memory};

use crate::status::{MEMORY, OK};
use std::alloc::Global;
use vt_recording::{Detected, Format, Heading, TerminalType, detect, heading_of};

/// The format of a recording (0 raw, 1 script, 2 ttyrec, 3 asciicast, 4 a compressed file), and what its first line names: the terminal
/// (1 a VT220, 2 an xterm), its columns and its rows. Any of these is 0 if the line doesn't name it.
#[repr(C)]
#[derive(Clone, Copy)]
pub struct RecordingHeading {
    pub format: u32,
    pub terminal: u32,
    pub columns: u32,
    pub rows: u32,
}

/// Returns the format in which a file is read. One with a timing file is by script. A compressed file is read as it is.
pub(crate) fn format_by(is_timed: bool, found: Detected) -> Format
    ensures { result ≡ format_by is_timed found }
{
    if is_timed {
        return Format::Script;
    }
    match found {
        Detected::Recording(format) => format,
        Detected::Compressed(_) => Format::Raw,
    }
}

/// Returns the number of a format.
fn number_of_format(is_timed: bool, found: Detected) -> u32
    ensures { result ≡ number_of_format is_timed found }
{
    if is_timed {
        return 1;
    }
    match found {
        Detected::Recording(Format::Raw) => 0,
        Detected::Recording(Format::Script) => 1,
        Detected::Recording(Format::Ttyrec) => 2,
        Detected::Recording(Format::Asciicast) => 3,
        Detected::Compressed(_) => 4,
    }
}

/// Returns what a first line names, as C sees it.
fn c_heading(format: u32, heading: Heading) -> RecordingHeading
    ensures { result ≡ c_heading format heading }
{
    RecordingHeading {
        format,
        terminal: match heading.terminal {
            Some(TerminalType::Vt220) => 1,
            Some(TerminalType::Xterm) => 2,
            None => 0,
        },
        columns: heading.columns.unwrap_or(0),
        rows: heading.rows.unwrap_or(0),
    }
}

/// Writes the format of a recording, and what its first line names. `is_timed` tells that it has a timing file. Returns `MEMORY`, and
/// leaves `heading` unchanged, if allocation fails.
#[unsafe(no_mangle)]
pub extern "C" fn recording_heading(
    recording: &[u8],
    is_timed: bool,
    heading: &mut RecordingHeading,
    alloc: Global,
) -> u32
    ensures named { result ≡ read_ok → heading.new ≡ heading_in is_timed recording.now }
    ensures memory { result ≡ read_memory → heading.new ≡ heading.old }
    ensures statuses { (result ≡ read_ok) ⊎ (result ≡ read_memory) }
{
    let found = detect(recording);
    match heading_of(alloc, recording, format_by(is_timed, found)) {
        Ok(named) => {
            *heading = c_heading(number_of_format(is_timed, found), named);
            OK
        }
        Err(_) => MEMORY,
    }
}
