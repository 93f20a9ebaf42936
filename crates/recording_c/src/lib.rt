//! The reader of recordings for C, and for all that calls C. lib/js/ makes a module of WebAssembly of it.
#![tactic(auto)]

mod events;
mod heading;
mod status;
