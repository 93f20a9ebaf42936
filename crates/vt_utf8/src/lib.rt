//! UTF-8 for a terminal: it is translated to the terminal's own bytes, in dependence on the terminal's state.
#![tactic(auto)]

mod ascii;
mod coded;
mod decoder;
mod feeding;
pub mod laws;
mod log;
mod showing;
mod similar;
mod sink;
pub mod sized;
mod text;
mod translation;

pub use ascii::ascii_run;
pub use decoder::{Decoder, whole_character};
pub use log::Log;
pub use showing::shown_as;
pub use sink::Sink;
pub use text::write_text;
pub use translation::{BYTE_LIMIT, Bytes, TRANSLATION_LIMIT, cells};
