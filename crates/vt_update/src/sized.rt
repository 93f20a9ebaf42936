//! The calls for a terminal of any size.
pub use crate::updating::{update_limit, update_reserved};
