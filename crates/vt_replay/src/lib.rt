//! The engine, which carries out a request of the command line on a reader's bytes, and writes what is due to a writer.
//! It re-exports the command line of the crate vt_cli.
#![tactic(auto)]

mod changes;
mod engine;
mod events;
mod host;
mod language;
pub mod laws;
mod log_output;
mod log_player;
mod logging;
mod output;
mod outputs;
mod player;
mod requests;
mod resized;
mod session;
mod sized;
mod status;
mod trace_output;
mod trace_player;
mod tracing;

pub use engine::{replay, run, run_from};
pub use host::{Host, host_for};
pub use language::Language;
pub use logging::{write_log, write_log_from};
pub use requests::{Outcome, carry_out, format_of, keeps_size, lacks_times};
pub use resized::Resize;
pub use vt_cli::{
    Encoding, Format, Moment, Refused, Request, Settings, TerminalType, What, Word, request,
    settings, size_of,
};
pub use vt_device::{Output, Watched, write_output};
pub use vt_recording::{
    Break, Compression, DETECTION_LENGTH, Detected, Fault, Heading, Part, detect, heading_of,
    read_recording,
};
