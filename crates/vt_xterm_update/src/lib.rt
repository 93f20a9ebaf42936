//! The update of an xterm: bytes that bring one from a state to another. They are few if little differs.
#![tactic(auto)]

mod choice;
mod cursor;
mod ending;
pub mod laws;
mod looks;
mod rows;
mod step;
mod updating;

pub use updating::{update_limit, update_reserved};
