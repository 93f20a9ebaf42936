//! The calls for a terminal of any size.
pub use crate::changes::repaint_changes_reserved;
pub use crate::compare::changed_places;
pub use crate::limits::{changes_limit, paint_limit};
pub use crate::paint::{
    repaint_first_reserved, repaint_items_reserved, repaint_placed_reserved, repaint_reserved,
};
