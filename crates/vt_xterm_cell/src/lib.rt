//! The cell of an xterm: any character with its marks, two colours and nine attributes, in 16 bytes; and what SGR does to its look.
#![tactic(auto)]

mod cell;
mod kind;
mod look;
mod rendition;

pub use cell::XtermCell;
pub use look::{Attributes, Colour, Look};
