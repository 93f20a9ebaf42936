//! Recordings of terminal sessions by script(1), ttyrec and asciinema: their content, without what these write around it. It
//! is read from any reader, and is a reader itself.
#![tactic(auto)]

mod asciicast;
mod casting;
mod changes;
mod characters;
mod content;
mod detection;
mod events;
mod format;
mod heading;
mod lines;
mod reached;
mod reading;
mod script;
mod seconds;
mod taking;
mod timeline;
mod timing;
mod ttyrec;

pub use asciicast::json_text;
pub use changes::{Change, Window, changes_of};
pub use content::Content;
pub use detection::{Compression, DETECTION_LENGTH, Detected, detect, shows_utf8};
pub use events::timeline_of;
pub use format::{Encoding, Format, Moment, Taken, TerminalType};
pub use heading::{Heading, heading_of};
pub use reached::{Passed, due, passed_before};
pub use reading::read_recording;
pub use seconds::{number, scale};
pub use taking::{encoding_of, take_between};
pub use timeline::{Event, EventKind, Timeline};
pub use vt_device::{Break, Fault, Part, Source, Watched};
