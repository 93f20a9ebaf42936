//! A vector: an input, and what a terminal must give for it.

/// An input, and what a terminal in its power-up state must give for it.
#[derive(Clone, Copy, Debug)]
pub struct Vector<'a> {
    /// The bytes that the terminal is fed.
    pub input: &'a [u8],
    /// The 24 lines of the screen, in UTF-8, each without the spaces at its end, and LF.
    pub text: &'a [u8],
    /// The reports that the terminal must make.
    pub reports: &'a [u8],
    /// The repaint: the bytes that rebuild the terminal's state on any terminal, or `None` if the input ends inside a
    /// sequence.
    pub repaint: Option<&'a [u8]>,
}
