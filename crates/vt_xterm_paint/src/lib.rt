//! The repaint under TERM=xterm: one byte string for each session, that is, for a terminal and what its front keeps. It rebuilds the
//! session on any terminal and front.
#![tactic(auto)]

pub mod laws;
mod paint;
pub mod sized;

pub use paint::XTERM_PAINT_LIMIT;
