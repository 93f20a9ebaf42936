//! The calls for a terminal of any size.
pub use crate::feeding::{
    feed_beyond_ascii, feed_beyond_ascii_log, feed_character, feed_characters,
    feed_utf8_log_reserved, feed_utf8_reserved, lines_limit, utf8_lines_limit,
};
pub use crate::translation::translated;
