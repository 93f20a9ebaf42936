//! The names of xterm's functions.
ghost use Rattle.std.specs.Prelude.{◌≡◌, ◌≤◌, Some, None, ◌==◌, length, IfSome, option_copied, if◌then◌else◌};
ghost use Rattle.vt_term.specs.Names.{sequence_name_on};
ghost use Rattle.vt_xterm.specs.Bounded.{is_bare};
ghost use Rattle.vt_xterm_trace.specs.Names.{plain_names, private_names, name_in, is_one, has_mode, saves_or_sets, xterm_sequence_name};

use crate::attributes::has_attribute;
use vt_syntax::EventKind;
use vt_trace::{Naming, Vt220Names};

/// The names of xterm's functions.
#[derive(Drop)]
pub struct XtermNames;

impl Naming for XtermNames {
    ghost use Rattle.vt_xterm_trace.specs.Names.{xterm_names};

    ghost names = { xterm_names };

    #[inline(always)]
    fn name_of(&self, rows: usize, kind: EventKind, values: &[u16]) -> Option<&'static str> {
        match kind {
            EventKind::Print(_) => Vt220Names.name_of(rows, kind, values),
            EventKind::Control(_) => Vt220Names.name_of(rows, kind, values),
            EventKind::Escape { .. } => Vt220Names.name_of(rows, kind, values),
            EventKind::Sequence {
                marker,
                inter,
                last,
            } => sequence_name(rows, marker, values, inter, last),
        }
    }
}

/// Returns the name of a control sequence, if it isn't ignored.
#[tactic(auto, unfolding(crate::specs::Names::xterm_sequence_name))]
fn sequence_name(
    rows: usize,
    marker: Option<u8>,
    values: &[u16],
    inter: Option<u8>,
    last: u8,
) -> Option<&'static str>
    ensures word { option_copied result ≡ xterm_sequence_name rows marker inter last values.now }
    ensures short { IfSome result (λ word. length word.now ≤ 23) }
{
    match (marker, inter) {
        (None, None) => plain_name(rows, values, last),
        (Some(b'?'), None) => private_name(rows, values, last),
        _ => vt220_name(rows, marker, values, inter, last),
    }
}

/// Returns the name of a control sequence on a VT220, if it isn't ignored there.
fn vt220_name(
    rows: usize,
    marker: Option<u8>,
    values: &[u16],
    inter: Option<u8>,
    last: u8,
) -> Option<&'static str>
    ensures word { option_copied result ≡ sequence_name_on rows marker inter last values.now }
    ensures short { IfSome result (λ word. length word.now ≤ 23) }
{
    let kind = EventKind::Sequence {
        marker,
        inter,
        last,
    };
    Vt220Names.name_of(rows, kind, values)
}

/// Returns a name if the function takes the values.
fn if_takes(takes: bool, word: &'static str) -> Option<&'static str>
    requires { length word.now ≤ 23 }
    ensures word { option_copied result ≡ if takes then Some word.now else None }
    ensures short { IfSome result (λ word. length word.now ≤ 23) }
{
    if takes { Some(word) } else { None }
}

/// Returns the name of a control sequence without marker and intermediate.
fn plain_name(rows: usize, values: &[u16], last: u8) -> Option<&'static str>
    ensures word { option_copied result
        ≡ name_in plain_names last values.now (sequence_name_on rows None None last values.now) }
    ensures short { IfSome result (λ word. length word.now ≤ 23) }
{
    match last {
        b'E' => Some("CNL"),
        b'F' => Some("CPL"),
        b'G' => Some("CHA"),
        b'I' => Some("CHT"),
        b'L' => Some("IL"),
        b'M' => Some("DL"),
        b'S' => Some("SU"),
        b'T' => if_takes(is_one(values), "SD"),
        b'Z' => Some("CBT"),
        b'^' => Some("SD"),
        b'`' => Some("HPA"),
        b'a' => Some("HPR"),
        b'b' => Some("REP"),
        b'd' => Some("VPA"),
        b'e' => Some("VPR"),
        b'm' => if_takes(has_attribute(values), "SGR"),
        b's' => Some(saves_or_sets(values)),
        b'u' => if_takes(is_bare(values), "RCP"),
        _ => vt220_name(rows, None, values, None, last),
    }
}

/// Returns the name of `s`.
fn saves_or_sets(values: &[u16]) -> &'static str
    ensures word { result.now ≡ saves_or_sets values.now }
    ensures short { length result.now ≤ 23 }
{
    if is_bare(values) { "SCP" } else { "DECSLRM" }
}

/// Returns the name of a control sequence with the marker `?`.
fn private_name(rows: usize, values: &[u16], last: u8) -> Option<&'static str>
    ensures word { option_copied result
        ≡ name_in private_names last values.now (sequence_name_on rows (Some 0x3F) None last values.now) }
    ensures short { IfSome result (λ word. length word.now ≤ 23) }
{
    match last {
        b'h' => if_takes(has_mode(values), "SM"),
        b'l' => if_takes(has_mode(values), "RM"),
        _ => vt220_name(rows, Some(b'?'), values, None, last),
    }
}

/// Returns whether there is one value.
fn is_one(values: &[u16]) -> bool
    ensures { result ≡ is_one values.now }
{
    values.len() == 1
}

/// Returns whether the only value is empty, or 0.
fn is_bare(values: &[u16]) -> bool
    ensures { result ≡ is_bare values.now }
{
    values.len() == 1 && values[0] == 0
}

/// Returns whether a private mode is among the values, one of xterm's pages or a VT220's.
fn has_mode(values: &[u16]) -> bool
    ensures { result ≡ has_mode values.now }
{
    values.iter().any(|p| {
        matches!(
            *p,
            1 | 3..=8 | 25 | 40 | 47 | 69 | 1047 | 1048 | 1049 | 2004
        )
    })
}
