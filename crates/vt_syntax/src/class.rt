//! The classes of bytes.
ghost use Rattle.std.specs.Prelude.{◌≡◌};
ghost use Rattle.vt_syntax.specs.Class.{class_of as byte_class};

/// The class of a byte inside an escape or control sequence (ECMA-48 5.4, ECMA-35 13; this profile).
#[derive(Clone, Copy)]
pub enum Class {
    /// 00..17, 19 and 1C..1F, which are carried out at once, and 7F, which does nothing. The sequence goes on.
    Quiet,
    /// 18 and 1A: the sequence ends.
    Cancel,
    /// 1B: a new sequence begins.
    Esc,
    /// 20..2F.
    Intermediate,
    /// 30..3F.
    Parameter,
    /// 40..7E.
    Final,
    /// 80..FF: the sequence ends, and the byte is read as if it came between sequences.
    High,
}

/// Returns the class of a byte.
#[tactic(auto, using(std::proofs::lemmas::Bool::Decides::nat_tests), unfolding(crate::specs::Class::class_of))]
pub fn class_of(b: u8) -> Class
    ensures { result ≡ byte_class b }
{
    match b {
        0x18 | 0x1A => Class::Cancel,
        0x1B => Class::Esc,
        0x00..=0x1F | 0x7F => Class::Quiet,
        0x20..=0x2F => Class::Intermediate,
        0x30..=0x3F => Class::Parameter,
        0x40..=0x7E => Class::Final,
        0x80..=0xFF => Class::High,
    }
}
