//! The reasons for which a terminal doesn't meet a vector.

ghost use Rattle.std.specs.Prelude.{◌≡◌};

use std::alloc::AllocError;
use thiserror::Error;

/// The reason for which a terminal doesn't meet a vector: the first difference. The message is the variant's name in
/// lower case.
#[derive(Clone, Copy, Debug, PartialEq, Eq, Error)]
pub enum Mismatch {
    /// Allocation failed, so nothing was compared.
    #[error("memory")]
    Memory = 1,
    /// The text differs.
    #[error("text")]
    Text = 2,
    /// The text is as expected, and the reports differ.
    #[error("reports")]
    Reports = 3,
    /// The text and the reports are as expected. The repaint differs, is unexpected, or is missing.
    #[error("repaint")]
    Repaint = 4,
}

impl From<AllocError> for Mismatch {
    ghost use Rattle.vt_vectors.specs.declared.mismatch.Mismatch.TheVariants.{Memory};

    ghost from_gives = { λ _ mismatch. mismatch ≡ Memory };

    fn from(_: AllocError) -> Mismatch {
        Mismatch::Memory
    }
}
