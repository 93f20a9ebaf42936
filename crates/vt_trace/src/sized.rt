//! The calls for a terminal of any size.
pub use crate::tracing::trace_reserved;
pub use crate::utf8::trace_utf8_reserved;
