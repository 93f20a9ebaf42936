//! Laws of the definitions that contracts cite.
ghost use Rattle.vt_wide.specs.Runs.{RunLaws};
ghost use Rattle.vt_wide.specs.Whole.{WholeLaws};

use crate::kind::Wide;

/// States that each edit keeps wide characters whole.
pub fn whole<C: Wide>()
    ensures { WholeLaws C.wide C.cells }
{}

/// States that characters that are written at once are written as they are one after another.
pub fn runs<C: Wide>()
    ensures { RunLaws C.wide C.cells.blank }
{}
