//! Events: what bytes ask for.
use arrayvec::ArrayVec;

/// One thing that bytes ask for: a graphic byte, a control, or an escape or control sequence.
#[derive(Debug, PartialEq, Eq, Drop)]
pub enum Event {
    /// A graphic byte, 20..7E or A0..FF.
    Print(u8),
    /// A C0 control other than CAN and ESC, or a C1 control that opens nothing.
    ///
    /// A C1 control may have come in its 7-bit form, ESC and the byte that is 40 lower.
    Control(u8),
    /// An escape sequence (ECMA-35 13) that is no 7-bit form of a C1 control.
    Escape {
        /// The intermediate, 20..2F.
        inter: Option<u8>,
        /// The final byte, 30..7E.
        last: u8,
    },
    /// A control sequence (ECMA-48 5.4).
    Sequence {
        /// The private marker, 3C..3F.
        marker: Option<u8>,
        /// 1 to 16 values, each at most 9999; an empty parameter is 0.
        params: ArrayVec<u16, 16>,
        /// The intermediate, 20..2F.
        inter: Option<u8>,
        /// The final byte, 40..7E.
        last: u8,
    },
}

/// An event without the values of a control sequence, which are in a separate [`Values`](crate::Values).
#[derive(Clone, Copy, Debug, PartialEq, Eq)]
pub enum EventKind {
    /// A graphic byte, 20..7E or A0..FF.
    Print(u8),
    /// A C0 control other than CAN and ESC, or a C1 control that opens nothing.
    Control(u8),
    /// An escape sequence.
    Escape {
        /// The intermediate, 20..2F.
        inter: Option<u8>,
        /// The final byte, 30..7E.
        last: u8,
    },
    /// A control sequence.
    Sequence {
        /// The private marker, 3C..3F.
        marker: Option<u8>,
        /// The intermediate, 20..2F.
        inter: Option<u8>,
        /// The final byte, 40..7E.
        last: u8,
    },
}

/// The bytes that were read from the front of a chunk, and their event.
#[derive(Clone, Copy, Debug, PartialEq, Eq)]
pub struct Taken {
    /// The number of bytes.
    pub bytes: usize,
    /// The event that the last of these bytes completes, or `None` if the chunk ends before an event.
    pub event: Option<EventKind>,
}
