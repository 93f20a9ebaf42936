//! The calls for a terminal of any size.
pub use crate::feeding::{
    feed_xterm_character, feed_xterm_character_log, feed_xterm_log_reserved, feed_xterm_reserved,
    xterm_lines_limit,
};
pub use crate::front::SizedPages;
