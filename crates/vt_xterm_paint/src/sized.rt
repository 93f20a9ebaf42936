//! The calls for a terminal and a front of any size.
pub use crate::paint::{repaint_xterm_reserved, xterm_paint_limit};
