//! The screen of a terminal: rows of cells, and all changes that a terminal makes to them. That of a VT220 has 24 rows of 80 or
//! 132 cells. Rows and columns count from 1.
#![tactic(auto)]

mod between;
mod cell;
mod kind;
pub mod laws;
mod line;
mod order;
mod screen;
mod size;

pub use cell::{Brush, Cell, Rendition};
pub use kind::Cells;
pub use line::same_cells;
pub use screen::Screen;
pub use size::{COLUMNS, MOST, ROWS, Size};
