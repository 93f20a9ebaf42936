//! The call for a terminal of any size.
pub use crate::tracing::trace_xterm_reserved;
