//! SGR with colours, which have no effect.
ghost use Rattle.std.specs.Prelude.{◌≡◌};
ghost use Rattle.std.specs.List.{list_any};
ghost use Rattle.vt_xterm.specs.Attributes.{begins_colour, colour_length, select_attributes};

use vt_term::SizedTerminal;

/// Returns whether a parameter of SGR begins a colour.
pub fn begins_colour(p: u16) -> bool
    ensures { result ≡ begins_colour p }
{
    p == 38 || p == 48 || p == 58
}

/// Returns whether one of the parameters begins a colour.
pub(crate) fn has_colour(values: &[u16]) -> bool
    ensures { result ≡ list_any begins_colour values.now }
{
    for value in values {
        if begins_colour(*value) {
            return true;
        }
    }
    false
}

/// Returns how many of these parameters, which come after the one that begins a colour, belong to it.
pub fn colour_length(params: &[u16]) -> usize
    ensures { result ≡ colour_length params.now }
{
    match params.first() {
        None => 0,
        Some(5) => 2,
        Some(2) => 4,
        Some(_) => 1,
    }
}

/// Carries out SGR without its colours. Speed: most have none, and are carried out at once.
pub(crate) fn select_attributes(terminal: &mut SizedTerminal, params: &[u16])
    ensures { terminal.new ≡ record terminal.old { display = select_attributes params.now terminal.old.display } }
{
    if !has_colour(params) {
        return terminal.select_graphic_rendition(params);
    }
    let mut skipped = 0;
    let mut at = 0;
    while at < params.len() {
        let p = params[at];
        at += 1;
        if skipped > 0 {
            skipped -= 1;
        } else if begins_colour(p) {
            skipped = colour_length(&params[at..]);
        } else {
            terminal.select_graphic_rendition(&[p]);
        }
    }
}
