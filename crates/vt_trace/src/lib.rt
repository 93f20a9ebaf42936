//! The trace of what a host sent: its events, and what of it the terminal ignored.
#![tactic(auto)]

mod buffer;
mod bytes;
mod dialects;
mod functions;
mod items;
pub mod laws;
mod lines;
mod names;
mod observer;
mod resizing;
mod sequences;
pub mod sized;
mod skipped;
mod tracing;
mod utf8;

pub use bytes::push_shown;
pub use dialects::Traceable;
pub use lines::LINE_LIMIT;
pub use names::{Naming, Vt220Names};
pub use observer::{trace_as, trace_byte};
pub use resizing::{RESIZE_LIMIT, trace_resize};
pub use skipped::{First, SKIPPED_LIMIT};
pub use tracing::{TRACE_LIMIT, Tracer, trace_end};
pub use utf8::trace_dialect;
