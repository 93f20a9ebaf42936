//! The screen of an xterm: two pages of cells with colours and wide characters, four margins, and the functions that change them.
#![tactic(auto)]

mod copying;
mod cursor;
mod display;
mod editing;
mod functions;
mod machine;
mod modes;
mod page;
mod pages;
mod resets;
mod resizing;
mod rows;
mod runs;
mod settings;
mod sides;
mod tabs;
mod text;
mod writing;
mod xterm;

pub use display::XtermDisplay;
pub use page::Page;
pub use settings::{Coding, Mouse, Settings, Shape};
pub use sides::Sides;
pub use text::push_rows;
pub use xterm::Xterm;
