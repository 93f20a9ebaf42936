//! The statuses that the calls return. `specs/Status` and the header have the same numbers.

/// Success.
pub(crate) const OK: u32 = 0;

/// Allocation failed.
pub(crate) const MEMORY: u32 = 1;

/// The handle is already open.
pub(crate) const IN_USE: u32 = 2;

/// The handle is closed.
pub(crate) const CLOSED: u32 = 3;

/// The terminal is inside a sequence.
pub(crate) const PARTIAL: u32 = 4;

/// The caller's buffer is too small.
pub(crate) const ROOM: u32 = 5;

/// There is no such row. (Only the header has 6: an unsupported processor.)
pub(crate) const NO_ROW: u32 = 7;

/// There is no such size, or two have different sizes. (Only the header has 8 to 10.)
pub(crate) const SIZE: u32 = 11;
