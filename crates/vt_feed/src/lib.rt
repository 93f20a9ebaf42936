//! Feeding: a host's bytes in a language change a machine, which reports, and an observer is told of what happens.
#![tactic(auto)]

mod feeding;
pub mod laws;
mod machine;
mod observer;
mod text;

pub use feeding::feed;
pub use machine::{Machine, REPORT_LIMIT};
pub use observer::{Nobody, Observer};
pub use text::feed_utf8;
