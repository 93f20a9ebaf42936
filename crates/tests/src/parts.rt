//! Tests what no clause says of glyphs, of the parser, of the screen and of recordings: worked rows, and each public call
//! once.
mod glyphs;
mod recordings;
mod screen;
mod syntax;
