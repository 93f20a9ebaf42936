//! The statuses that the calls return. `specs/Status` and lib/js/c/reader.c have the same numbers.

/// Success.
pub(crate) const OK: u32 = 0;

/// Allocation failed.
pub(crate) const MEMORY: u32 = 1;

/// A buffer of the caller is too small.
pub(crate) const ROOM: u32 = 2;
