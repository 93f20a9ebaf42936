//! Tests what no clause says of replays: short, full and failing devices, settings, what a fault prints, and calls that
//! take no memory.
mod common;
mod devices;
mod lines;
mod program;
mod settings;
mod short_devices;
mod traces;
