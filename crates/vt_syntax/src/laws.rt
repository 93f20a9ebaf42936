//! Laws over the definitions alone. A caller cites a law by a call of its function.
ghost use Rattle.vt_syntax.specs.Laws.{SplitLaw, SpellingLaw, ControlLaw};

/// States that each byte list has exactly one split.
///
/// Bytes leave a held part. The held part's spelling leaves it again without an event. Whatever follows, a rest and the
/// spelling of its held part give the same further events, and leave the same held part. Bytes may be cut anywhere into
/// chunks: the events and the held part are those of the chunks in turn.
pub fn one_split()
    ensures { SplitLaw }
{}

/// States that the spelling of an event reads as that one event, whatever follows, and leaves nothing held.
///
/// All events are of this kind. Plain bytes between sequences are printed, and a byte that opens nothing is read by
/// itself. ESC ends the held part without an event. So a list of events whose spelling begins with ESC reads as itself
/// after any held part.
pub fn spelled()
    ensures { SpellingLaw }
{}

/// States that a C0 control below CAN is carried out once, at its byte, unless a control string is held. No other byte
/// gives it. (ECMA-48 5.4; that it is carried out inside a sequence is this profile)
pub fn controls()
    ensures { ControlLaw }
{}
