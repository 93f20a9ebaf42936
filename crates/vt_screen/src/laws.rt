//! Laws of the definitions that contracts cite. A law is a function with an empty body, which a proof
//! cites by calling it.
ghost use Rattle.vt_screen.specs.Laws.{PlaceLaws, RowLaws, RunLaws, TestLaws, SizeLaws};

/// States what a formula's grid has at a position, and when two grids are equal.
pub fn places()
    ensures { PlaceLaws }
{}

/// States that a row has the cells of its columns, in order.
pub fn rows()
    ensures { RowLaws }
{}

/// States that writing a run of glyphs is writing its glyphs one after another.
pub fn runs()
    ensures { RunLaws }
{}

/// States that a grid passes a test at every position if a blank cell and each of its cells pass it. A formula's grid
/// passes a test if the formula passes it at every position.
pub fn tests()
    ensures { TestLaws }
{}

/// States that a grid keeps the cells inside both sizes if the size changes, moved up by the rows that leave. At its own
/// size it is the same grid, if no row leaves. A sound grid is sound at any size.
pub fn sizes()
    ensures { SizeLaws }
{}
