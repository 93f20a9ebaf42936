//! Devices that are read and written, and what is written of a host's bytes as they come, and at their end.
//!
//! A watched device has two flags of its past calls, and their last error. One loop reads, decodes and writes, for every output,
//! every decoding and every device. A fault says why a request ends early.
#![tactic(auto)]

mod decoding;
mod fault;
mod output;
mod source;
mod watched;
mod writing;

pub use decoding::{Decoding, Plain};
pub use fault::{Break, Fault, Part};
pub use output::{Output, write_by, write_output};
pub use source::Source;
pub use watched::Watched;
pub use writing::write_whole;
