//! What the program writes.

/// The output of a replay.
#[derive(Clone, Copy, Debug, PartialEq, Eq)]
pub enum What {
    /// The text of the screen after the whole input.
    Text,
    /// The terminal's reports, those of each chunk before the next is read.
    Reports,
    /// The bytes that rebuild the terminal's state, after the whole input.
    Repaint,
    /// The cursor, the wrap flag, the margins, the held part, and how many report bytes there were, after the whole
    /// input.
    Status,
    /// The text of the screen with its attributes, as modern terminals take them, after the whole input.
    Show,
    /// The screen as a picture (SVG), after the whole input.
    Picture,
}

/// The work that the program does with its input.
#[derive(Clone, Copy, Debug, PartialEq, Eq)]
pub enum Word {
    /// A replay.
    Replay(What),
    /// The lines that scroll off the top of the screen, as they come, and the text of the screen after the whole input.
    Log,
    /// A line for each event, as they come.
    Trace,
    /// A line for each event of a recording: its time, what it is, its place in the content and its length.
    Events,
    /// The host's bytes.
    Content,
}
