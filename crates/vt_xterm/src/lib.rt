//! A front for what programs send under TERM=xterm: UTF-8, and functions that a VT220 lacks.
//!
//! The front reads the host's bytes by the terminal's own syntax. It has another table of functions, and the page that isn't
//! shown. Every function that its table lacks is a VT220's.
#![tactic(auto)]

mod attributes;
mod bounded;
mod columns;
mod feeding;
mod finder;
mod front;
mod functions;
pub mod laws;
mod log;
mod modes;
mod playing;
mod profile;
mod repeating;
mod resizing;
mod sides;
mod sink;
pub mod sized;
mod tabs;

pub use attributes::{begins_colour, colour_length};
pub use front::SizedFront;
pub use sides::Sides;
