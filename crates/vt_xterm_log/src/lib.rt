//! The lines that scroll off the screen of an xterm, and what a change of its size adds to them.
#![tactic(auto)]

mod feeding;
pub mod laws;
mod observer;
mod pair;
mod scrolling;

pub use feeding::{feed_log_reserved, lines_on, xterm_lines_limit};
pub use observer::Log;
pub use pair::Pair;
