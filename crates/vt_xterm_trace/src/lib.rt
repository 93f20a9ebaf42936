//! The trace of what a host sent under TERM=xterm, event by event, by the names of xterm's functions.
#![tactic(auto)]

mod attributes;
pub mod laws;
mod names;
pub mod sized;
mod tracing;

pub use names::XtermNames;
