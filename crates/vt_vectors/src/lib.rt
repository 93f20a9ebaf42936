//! Conformance vectors: inputs, each with the text, the reports and the repaint that a terminal must give. There are
//! also readers and writers over memory that transfer few bytes at a time, and fail at a chosen call.
#![tactic(auto)]

mod comparison;
mod expectation;
mod held_samples;
mod mismatch;
mod short_reader;
mod short_writer;
mod vectors;

pub use comparison::check;
pub use expectation::Vector;
pub use held_samples::{held_sample, held_sample_count};
pub use mismatch::Mismatch;
pub use short_reader::ShortReader;
pub use short_writer::ShortWriter;
pub use vectors::{VECTOR_COUNT, vector, vector_count, vector_name};
