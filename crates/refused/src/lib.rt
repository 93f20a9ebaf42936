//! Wrappers of public calls, each with the call's contract. The gate tries wrong bodies of them, and each must be refused.
//!
//! A wrapper states the clauses that its edits break, word for word. So the public clause itself refuses the edit.
#![tactic(auto)]

pub mod program;
pub mod screen;
pub mod syntax;
pub mod terminal;
