//! The update: bytes that bring a terminal from one state to another. They are few if little differs.
#![tactic(auto)]

mod cells;
mod choice;
mod chosen;
pub mod laws;
mod motion;
mod remote;
mod rows;
mod scrolling;
pub mod sized;
mod state;
mod updating;
mod writing;

pub use updating::UPDATE_LIMIT;
