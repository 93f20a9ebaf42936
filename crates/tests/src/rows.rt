//! Whether a row of a test holds. Small functions find that out, since the proof of one long function takes far more
//! time than those of its parts.
use std::fmt::Debug;
use std::process::Abort;

/// The result of a function that tries a row of a test.
pub(crate) trait Found {
    /// Returns whether the row holds. It doesn't if what the test needs has failed.
    fn is_met(self) -> bool;
}

impl Found for bool {
    fn is_met(self) -> bool {
        self
    }
}

impl<E: Drop> Found for Result<bool, E> {
    fn is_met(self) -> bool {
        self.unwrap_or(false)
    }
}

/// Asserts what a test has found of a row. A row that doesn't hold is printed by its name or number.
pub(crate) fn holds(rt: &impl Abort, row: impl Debug + Drop, found: impl Found) {
    let found = found.is_met();
    assert!(rt; found, "row {row:?}");
}
