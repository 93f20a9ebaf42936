//! Tests what no clause says, by the public calls of the crates. No other crate has tests of its own that cross crates.
//!
//! They have a separate crate, so that the crates below are proved once.
#![tactic(auto)]

#[cfg(test)]
mod devices;
#[cfg(test)]
mod parts;
#[cfg(test)]
mod rows;
#[cfg(test)]
mod scarce;
#[cfg(test)]
mod terminal;
#[cfg(test)]
mod updates;
