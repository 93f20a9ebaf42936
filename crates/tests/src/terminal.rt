//! Tests what no clause says: the vectors, whole and in pieces; other widths; the words of the command line; and each growth
//! refused in turn.
mod beginnings;
mod command_line;
mod common;
mod held;
mod memory;
mod repaint;
mod vectors;
mod widths;
