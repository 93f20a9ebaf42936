//! Observers of a feed: the trace of what a host sent, event by event, and the title that it set.
#![tactic(auto)]

mod items;
mod lines;
mod names;
mod osc;
mod title;
mod trace;
mod traced;

pub use names::Terminal;
pub use title::{TITLE_LIMIT, Title};
pub use trace::{CHUNK, Trace};
pub use traced::Traced;
