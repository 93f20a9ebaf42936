//! Renders the screen of a terminal for people: as text with SGR sequences, and as an SVG document. One writer serves a VT220 and an
//! xterm.
#![tactic(auto)]

mod colours;
mod document;
mod limits;
mod renderable;
mod row;
mod runs;
mod showing;
mod vt220;
mod xterm;

pub use document::picture_reserved;
pub use limits::{picture_limit, show_limit};
pub use renderable::Renderable;
pub use showing::show_reserved;
