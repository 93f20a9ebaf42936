//! The repaint of an xterm: one byte string for each state, which rebuilds it on any xterm of its size.
#![tactic(auto)]

mod cells;
mod characters;
mod cursor;
mod functions;
mod items;
pub mod laws;
mod limits;
mod looks;
mod modes;
mod writer;

pub use characters::{GLYPH_LIMIT, push_glyph};
pub use functions::{SEQUENCE_LIMIT, push_ansi_mode, push_pair, push_private_mode};
pub use limits::repaint_limit;
pub use looks::{LOOK_LIMIT, push_attributes, push_colours, push_look};
pub use modes::push_style;
pub use writer::{makeable, repaint_reserved};
