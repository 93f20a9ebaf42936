//! The held part: what decides how an unfinished sequence goes on.
ghost use Rattle.std.specs.Prelude.{◌≡◌};
ghost use Rattle.vt_syntax.specs.Held.{phase_inter};

use arrayvec::ArrayVec;

/// The held part: the parts of an unfinished sequence or string that decide how it goes on.
#[derive(Debug, PartialEq, Eq, Drop)]
pub enum Held {
    /// Nothing is held: the parser is between sequences.
    Nothing,
    /// ESC and intermediates.
    Escape(Inters),
    /// A control sequence that isn't spoilt.
    Control {
        /// The private marker, 3C..3F.
        marker: Option<u8>,
        /// The values so far, 1 to 16, each at most 9999. More digits may come for the last one, until an intermediate
        /// comes or a 17th parameter begins.
        params: ArrayVec<u16, 16>,
        /// Whether a 17th parameter began; it and later ones are dropped.
        full: bool,
        /// How far the control sequence has come.
        phase: Phase,
    },
    /// A spoilt control sequence: it has no function, whatever comes before its final byte.
    Spoilt,
    /// A string: DCS, SOS, PM or APC, or OSC, which BEL also ends.
    Text {
        /// Whether it is OSC.
        osc: bool,
    },
}

impl Held {
    /// Returns a copy of the held part. It never fails and doesn't allocate.
    pub(crate) fn copied(&self) -> Held
        ensures { result ≡ self.now }
    {
        match self {
            Held::Nothing => Held::Nothing,
            Held::Escape(inters) => Held::Escape(*inters),
            Held::Control {
                marker,
                params,
                full,
                phase,
            } => {
                let mut values = ArrayVec::new();
                let _ = values.try_extend_from_slice(params.as_slice());
                Held::Control {
                    marker: *marker,
                    params: values,
                    full: *full,
                    phase: *phase,
                }
            }
            Held::Spoilt => Held::Spoilt,
            Held::Text { osc } => Held::Text { osc: *osc },
        }
    }
}

/// The intermediates of an escape sequence. A sequence with two or more has no function, so they aren't kept.
#[derive(Clone, Copy, Debug, PartialEq, Eq)]
pub enum Inters {
    /// None has come.
    Zero,
    /// This one has come, 20..2F.
    One(u8),
    /// Two or more have come.
    Many,
}

/// The progress of a control sequence.
#[derive(Clone, Copy, Debug, PartialEq, Eq)]
pub enum Phase {
    /// No parameter byte, marker or intermediate has come, and the values are one 0.
    Start,
    /// A parameter byte or marker has come, and no intermediate.
    Values,
    /// This intermediate has come.
    Inter(u8),
}

impl Phase {
    /// Returns the intermediate, if one has come.
    #[inline]
    pub fn inter(&self) -> Option<u8>
        ensures { result ≡ phase_inter self.now }
    {
        match self {
            Phase::Inter(inter) => Some(*inter),
            Phase::Start | Phase::Values => None,
        }
    }
}
