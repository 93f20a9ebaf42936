//! Functions for several tests.
use std::alloc::AllocError;
use std::io;

/// A failure of something that a test needs.
#[derive(Drop)]
pub(super) struct Failed;

impl From<AllocError> for Failed {
    fn from(_error: AllocError) -> Failed {
        Failed
    }
}

impl From<io::Error> for Failed {
    fn from(_error: io::Error) -> Failed {
        Failed
    }
}
