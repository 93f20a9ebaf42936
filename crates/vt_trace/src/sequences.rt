//! The names of control sequences: some are functions of certain values only.
ghost use Rattle.std.specs.Prelude.{◌≡◌, ℕ, List, [], ◌∷◌, Some, None, option_map, if◌then◌else◌};
ghost use Rattle.std.specs.List.{list_any};
ghost use Rattle.vt_glyph.specs.LookUp.{contains};
ghost use Rattle.vt_term.specs.Parameters.{first, second};
ghost use Rattle.vt_term.specs.Moving.{are_margins};
ghost use Rattle.vt_term.specs.Modes.{ansi_modes, private_modes};
ghost use Rattle.vt_term.specs.Rendition.{rendition_changes};
ghost use Rattle.vt_term.specs.Resets.{is_level};
ghost use Rattle.vt_screen.specs.declared.cell.Cell.{Cell};
ghost use Rattle.vt_screen.specs.declared.cell.Brush.{Brush};
ghost use Rattle.vt_term.specs.Answers.{status_reports, private_reports};
ghost use Rattle.vt_term.specs.Functions.{numbers_of, function_in, plain_sequences, private_sequences, greater_sequences};
ghost use Rattle.vt_term.specs.Functions.{quote_sequences, exclamation_sequences};
ghost use Rattle.vt_term.specs.Names.{sequence_name_on, name_with};
ghost use Rattle.vt_trace.specs.Names.{sequence_word};

use crate::functions::Sequence::{self, *};

/// Returns the name of a control sequence, if it has a function on a screen of so many rows.
#[tactic(auto, unfolding(vt_term::specs::Functions::sequences_any, vt_term::specs::Names::sequence_name_on))]
pub(crate) fn sequence(
    rows: usize,
    marker: Option<u8>,
    values: &[u16],
    inter: Option<u8>,
    last: u8,
) -> Option<Sequence>
    ensures { option_map sequence_word result ≡ sequence_name_on rows marker inter last values.now }
{
    match (marker, inter) {
        (None, None) => plain(rows, last, values),
        (Some(b'?'), None) => private(last, values),
        (Some(b'>'), None) => greater(last, values),
        (None, Some(b'"')) => quote(last, values),
        (None, Some(b'!')) => exclamation(last),
        _ => None,
    }
}

/// Returns a function if it takes the values.
fn if_takes(takes: bool, f: Sequence) -> Option<Sequence>
    ensures { option_map sequence_word result ≡ if takes then Some (sequence_word f) else None }
{
    if takes { Some(f) } else { None }
}

/// Returns the first value, or 0 if there is none.
fn first(values: &[u16]) -> u16
    ensures { result ≡ first values.now }
{
    values.first().copied().unwrap_or(0)
}

/// Returns the second value, or 0 if there is none.
fn second(values: &[u16]) -> u16
    ensures { result ≡ second values.now }
{
    values.get(1).copied().unwrap_or(0)
}

/// Returns the control sequence without a marker and an intermediate, if it takes the values.
fn plain(rows: usize, last: u8, values: &[u16]) -> Option<Sequence>
    ensures { option_map sequence_word result ≡ name_with rows values.now (function_in plain_sequences last) }
{
    match last {
        b'@' => Some(ICH),
        b'A' => Some(CUU),
        b'B' => Some(CUD),
        b'C' => Some(CUF),
        b'D' => Some(CUB),
        b'H' => Some(CUP),
        b'J' => if_takes(first(values) <= 2, ED),
        b'K' => if_takes(first(values) <= 2, EL),
        b'L' => Some(IL),
        b'M' => Some(DL),
        b'P' => Some(DCH),
        b'X' => Some(ECH),
        b'c' => if_takes(first(values) == 0, DA),
        b'f' => Some(HVP),
        b'g' => if_takes(clears_tabs(first(values)), TBC),
        b'h' => if_takes(has_ansi_mode(values), SM),
        b'l' => if_takes(has_ansi_mode(values), RM),
        b'm' => if_takes(has_attribute(values), SGR),
        b'n' => if_takes(asks_for_status(first(values)), DSR),
        b'r' => if_takes(are_margins(rows, values), DECSTBM),
        _ => None,
    }
}

/// Returns the control sequence with the marker `?`, if it takes the values.
fn private(last: u8, values: &[u16]) -> Option<Sequence>
    ensures { (rows : ℕ) → option_map sequence_word result ≡ name_with rows values.now (function_in private_sequences last) }
{
    match last {
        b'J' => if_takes(first(values) <= 2, DECSED),
        b'K' => if_takes(first(values) <= 2, DECSEL),
        b'h' => if_takes(has_private_mode(values), SM),
        b'l' => if_takes(has_private_mode(values), RM),
        b'n' => if_takes(asks_for_private_status(first(values)), DSR),
        _ => None,
    }
}

/// Returns the control sequence with the marker `>`, if it takes the values.
fn greater(last: u8, values: &[u16]) -> Option<Sequence>
    ensures { (rows : ℕ) → option_map sequence_word result ≡ name_with rows values.now (function_in greater_sequences last) }
{
    match last {
        b'c' => if_takes(first(values) == 0, DA),
        _ => None,
    }
}

/// Returns the control sequence with the intermediate `"`, if it takes the values.
fn quote(last: u8, values: &[u16]) -> Option<Sequence>
    ensures { (rows : ℕ) → option_map sequence_word result ≡ name_with rows values.now (function_in quote_sequences last) }
{
    match last {
        b'p' => if_takes(is_level(values), DECSCL),
        b'q' => if_takes(first(values) <= 2, DECSCA),
        _ => None,
    }
}

/// Returns the control sequence with the intermediate `!`.
fn exclamation(last: u8) -> Option<Sequence>
    ensures { (rows : ℕ) (values : List ℕ) → option_map sequence_word result ≡ name_with rows values (function_in exclamation_sequences last) }
{
    match last {
        b'p' => Some(DECSTR),
        _ => None,
    }
}

/// Returns whether TBC clears the stop at the cursor's column, or all.
fn clears_tabs(p: u16) -> bool
    ensures { result ≡ contains (0 ∷ 3 ∷ []) p }
{
    p == 0 || p == 3
}

/// Returns whether DSR asks for the operating status, or for the cursor's position.
fn asks_for_status(p: u16) -> bool
    ensures { result ≡ contains (numbers_of (status_reports {C = Cell} {B = Brush})) p }
{
    p == 5 || p == 6
}

/// Returns whether DSR asks for the printer's status, or for the keyboard's language.
fn asks_for_private_status(p: u16) -> bool
    ensures { result ≡ contains (numbers_of (private_reports {C = Cell} {B = Brush})) p }
{
    p == 15 || p == 26
}

/// Returns whether the top margin is above the bottom one, on a screen of so many rows.
fn are_margins(rows: usize, values: &[u16]) -> bool
    ensures { result ≡ are_margins rows (first values.now) (second values.now) }
{
    let top = usize::from(first(values)).max(1);
    let bottom = match usize::from(second(values)) {
        0 => rows,
        row => row.min(rows),
    };
    top < bottom
}

/// Returns whether DECSCL has 61, or 62 with 0, 1 or 2.
fn is_level(values: &[u16]) -> bool
    ensures { result ≡ is_level (first values.now) (second values.now) }
{
    first(values) == 61 || (first(values) == 62 && second(values) <= 2)
}

/// Returns whether a mode of the terminal is among the values.
fn has_ansi_mode(values: &[u16]) -> bool
    ensures { result ≡ list_any (contains (numbers_of ansi_modes)) values.now }
{
    values.iter().any(|p| matches!(*p, 2 | 4 | 12 | 20))
}

/// Returns whether a private mode of the terminal is among the values.
fn has_private_mode(values: &[u16]) -> bool
    ensures { result ≡ list_any (contains (numbers_of private_modes)) values.now }
{
    values.iter().any(|p| matches!(*p, 1 | 3..=8 | 25))
}

/// Returns whether an attribute is among the values.
fn has_attribute(values: &[u16]) -> bool
    ensures { result ≡ list_any (contains (numbers_of rendition_changes)) values.now }
{
    values
        .iter()
        .any(|p| matches!(*p, 0 | 1 | 4 | 5 | 7 | 22 | 24 | 25 | 27))
}
