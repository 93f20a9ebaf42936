//! The repaint: one byte string for each state of a terminal. It rebuilds that state on any terminal of its size.
//!
//! [`Function`] has the control functions that repaints, updates and pictures send, each spelled once, in its 7-bit
//! form.
#![tactic(auto)]

mod bytes;
mod cells;
mod changes;
mod compare;
mod controls;
mod function;
mod items;
pub mod laws;
mod limits;
mod line;
mod modes;
mod paint;
pub mod sized;
mod tables;
mod views;

pub use bytes::{push_bytes, push_number, push_when, put_front, put_part};
pub use function::{FUNCTION_LIMIT, Function};
pub use modes::{ALL_MODES, AT_POWER_UP, DECAWM, DECCOLM, DECOM, IRM, MODES, mode_values};
pub use paint::{PAINT_LIMIT, PaintError};
pub use views::{repaint, repaint_reserved};
