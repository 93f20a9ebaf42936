//! The glyphs of the terminal, the graphic sets that show them, and the bytes that spell them.
//!
//! A graphic byte is read through one of four designated sets ([`Sets::read`]). The locking shifts and a pending single
//! shift choose the set. The byte shows one of 204 glyphs ([`Glyph`]).
//!
//! Each glyph has one spelling ([`Spelling`]). It writes the glyph if G0 is ASCII, G2 Supplemental and G3 Special
//! Graphics, GL is G0, and no single shift is pending ([`laws::spelling`]).
#![tactic(auto)]

mod glyph;
mod in_use;
pub mod laws;
mod set;
mod sets;

pub use glyph::{Glyph, Spelling};
pub use in_use::InUse;
pub use set::Set;
pub use sets::Sets;
