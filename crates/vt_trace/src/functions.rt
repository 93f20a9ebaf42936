//! The control functions, and their names. (ECMA-48, EK-VT220-RM)
ghost use Rattle.std.specs.Prelude.{◌≡◌, ◌<◌, ◌≤◌, length, map};
ghost use Rattle.vt_trace.specs.Names.{names, numbered, word_of};

use vt_glyph::Set;

/// A graphic character, a control, or an escape sequence other than SCS, by its mnemonic.
#[derive(Clone, Copy)]
pub(crate) enum Basic {
    /// A graphic character.
    Text,
    /// Backspace.
    BS,
    /// Horizontal tab.
    HT,
    /// Line feed.
    LF,
    /// Vertical tab.
    VT,
    /// Form feed.
    FF,
    /// Carriage return.
    CR,
    /// Shift out.
    SO,
    /// Shift in.
    SI,
    /// Substitute.
    SUB,
    /// Index.
    IND,
    /// Next line.
    NEL,
    /// Horizontal tab set.
    HTS,
    /// Reverse index.
    RI,
    /// Single shift 2.
    SS2,
    /// Single shift 3.
    SS3,
    /// Identify terminal.
    DECID,
    /// Save cursor.
    DECSC,
    /// Restore cursor.
    DECRC,
    /// Keypad application mode.
    DECKPAM,
    /// Keypad numeric mode.
    DECKPNM,
    /// Reset to initial state.
    RIS,
    /// Locking shift 2.
    LS2,
    /// Locking shift 3.
    LS3,
    /// Locking shift 1, right.
    LS1R,
    /// Locking shift 2, right.
    LS2R,
    /// Locking shift 3, right.
    LS3R,
    /// Send C1 controls in 7 bits.
    S7C1T,
    /// Send C1 controls in 8 bits.
    S8C1T,
    /// Screen alignment display.
    DECALN,
}

/// A control sequence, by its mnemonic.
#[derive(Clone, Copy)]
pub(crate) enum Sequence {
    /// Insert character.
    ICH,
    /// Cursor up.
    CUU,
    /// Cursor down.
    CUD,
    /// Cursor forward.
    CUF,
    /// Cursor backward.
    CUB,
    /// Cursor position.
    CUP,
    /// Erase in display.
    ED,
    /// Erase in line.
    EL,
    /// Insert line.
    IL,
    /// Delete line.
    DL,
    /// Delete character.
    DCH,
    /// Erase character.
    ECH,
    /// Device attributes.
    DA,
    /// Horizontal and vertical position.
    HVP,
    /// Tabulation clear.
    TBC,
    /// Set mode.
    SM,
    /// Reset mode.
    RM,
    /// Select graphic rendition.
    SGR,
    /// Device status report.
    DSR,
    /// Set top and bottom margins.
    DECSTBM,
    /// Selective erase in display.
    DECSED,
    /// Selective erase in line.
    DECSEL,
    /// Set conformance level.
    DECSCL,
    /// Select character attribute.
    DECSCA,
    /// Soft terminal reset.
    DECSTR,
}

/// The element of the code that a set is designated to.
#[derive(Clone, Copy)]
pub(crate) enum Slot {
    G0,
    G1,
    G2,
    G3,
}

/// A function that has a name in a trace: a control function, or a graphic character.
#[derive(Clone, Copy)]
pub(crate) enum ControlFunction {
    Basic(Basic),
    /// SCS: designates a set to a slot.
    Scs(Slot, Set),
    Sequence(Sequence),
}

/// The number of sets.
const SETS: usize = Set::Supplemental as usize + 1;

/// The index of the first SCS.
const SCS: usize = Basic::DECALN as usize + 1;

/// The index of the first control sequence.
const SEQUENCES: usize = SCS + 4 * SETS;

/// The number of functions that have a name.
pub(crate) const FUNCTIONS: usize = SEQUENCES + Sequence::DECSTR as usize + 1;

/// The names of all functions, by their indexes.
const WORDS: [&str; FUNCTIONS] = [
    "text",
    "BS",
    "HT",
    "LF",
    "VT",
    "FF",
    "CR",
    "SO",
    "SI",
    "SUB",
    "IND",
    "NEL",
    "HTS",
    "RI",
    "SS2",
    "SS3",
    "DECID",
    "DECSC",
    "DECRC",
    "DECKPAM",
    "DECKPNM",
    "RIS",
    "LS2",
    "LS3",
    "LS1R",
    "LS2R",
    "LS3R",
    "S7C1T",
    "S8C1T",
    "DECALN",
    "SCS G0 ASCII",
    "SCS G0 British",
    "SCS G0 German",
    "SCS G0 Special Graphics",
    "SCS G0 Supplemental",
    "SCS G1 ASCII",
    "SCS G1 British",
    "SCS G1 German",
    "SCS G1 Special Graphics",
    "SCS G1 Supplemental",
    "SCS G2 ASCII",
    "SCS G2 British",
    "SCS G2 German",
    "SCS G2 Special Graphics",
    "SCS G2 Supplemental",
    "SCS G3 ASCII",
    "SCS G3 British",
    "SCS G3 German",
    "SCS G3 Special Graphics",
    "SCS G3 Supplemental",
    "ICH",
    "CUU",
    "CUD",
    "CUF",
    "CUB",
    "CUP",
    "ED",
    "EL",
    "IL",
    "DL",
    "DCH",
    "ECH",
    "DA",
    "HVP",
    "TBC",
    "SM",
    "RM",
    "SGR",
    "DSR",
    "DECSTBM",
    "DECSED",
    "DECSEL",
    "DECSCL",
    "DECSCA",
    "DECSTR",
];

impl ControlFunction {
    /// Returns the index of the function in the list of all names.
    #[inline(always)]
    pub(crate) fn index(self) -> usize
        ensures word { numbered result ≡ word_of self }
        ensures within { result < FUNCTIONS }
    {
        match self {
            ControlFunction::Basic(basic) => basic as usize,
            ControlFunction::Scs(Slot::G0, set) => SCS + set as usize,
            ControlFunction::Scs(Slot::G1, set) => SCS + SETS + set as usize,
            ControlFunction::Scs(Slot::G2, set) => SCS + 2 * SETS + set as usize,
            ControlFunction::Scs(Slot::G3, set) => SCS + 3 * SETS + set as usize,
            ControlFunction::Sequence(sequence) => SEQUENCES + sequence as usize,
        }
    }
}

/// Returns the name with an index.
#[inline(always)]
pub(crate) fn word_at(index: usize) -> &'static str
    requires { index < FUNCTIONS }
    ensures word { result.now ≡ numbered index }
    ensures short { length result.now ≤ 23 }
{
    words()[index]
}

/// Returns the names of all functions, by their indexes.
#[inline(always)]
fn words() -> &'static [&'static str; FUNCTIONS]
    ensures { map (λ word. word.now) result.now ≡ names }
{
    &WORDS
}
