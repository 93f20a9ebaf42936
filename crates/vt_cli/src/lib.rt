//! The command line: which arguments the program takes, and what they ask for.
#![tactic(auto)]

mod asked;
mod command_line;
mod moment;
mod requests;
mod source;
mod what;

pub use asked::{Refused, Request, Settings};
pub use command_line::settings;
pub use requests::request;
pub use source::size_of;
pub use vt_recording::{Encoding, Format, Moment, TerminalType};
pub use what::{What, Word};
