//! The calls for a terminal of any size.
pub use crate::document::{picture, picture_reserved};
pub use crate::drawing::{draw, draw_from, draw_from_reserved, draw_reserved};
pub use crate::limits::{draw_limit, picture_limit, show_limit};
pub use crate::showing::{show, show_reserved};
