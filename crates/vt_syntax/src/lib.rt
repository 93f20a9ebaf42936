//! The syntax of a terminal's input (ECMA-48, ECMA-35, EK-VT220-RM): from bytes, one at a time, to events.
//!
//! A byte list has exactly one split into items and a rest. An item is a single byte, an escape sequence, a control
//! sequence, a string or a cut. The events of the bytes are read from their items.
//!
//! [`Parser`] reads the bytes of successive chunks. It keeps the held part, which is bounded: what decides how an
//! unfinished sequence goes on. [`laws`] has what a caller may conclude about longer byte lists. Nothing here allocates
//! or rejects a byte.
#![tactic(auto)]

mod class;
mod content;
mod event;
mod front;
mod graphic;
mod held;
mod lanes;
pub mod laws;
mod lines;
mod parser;
mod plain;
mod step;
mod values;

pub use event::{Event, EventKind, Taken};
pub use front::{Front, FrontValues, front_escape, front_short_escape, front_values, is_final};
pub use graphic::graphic_run;
pub use held::{Held, Inters, Phase};
pub use lines::lines_run;
pub use parser::Parser;
pub use plain::plain_run;
pub use values::Values;
