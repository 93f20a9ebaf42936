//! The screen for people: as text with its attributes, and as a picture. Drawing on modern terminals: the bytes that make
//! one show a screen, given what it shows before.
#![tactic(auto)]

mod bytes;
mod document;
mod drawing;
pub mod laws;
mod limits;
mod line;
mod looks;
mod runs;
mod showing;
pub mod sized;

pub use bytes::push_glyph;
pub use document::PICTURE_LIMIT;
pub use drawing::DRAW_LIMIT;
pub use drawing::pen::Pen;
pub use showing::{SHOW_LIMIT, push_change, push_rendition};
