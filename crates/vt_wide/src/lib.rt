//! Edits of rows with wide characters, of two cells each. No edit leaves half of one. Rows and columns count from 1.
#![tactic(auto)]

mod editing;
mod kind;
pub mod laws;
mod writing;

pub use editing::{delete, erase, erase_span, insert, move_down, move_up, part};
pub use kind::Wide;
pub use writing::{join, joined_column, put, put_bytes, put_inserting};
