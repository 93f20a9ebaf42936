//! The status of a terminal after a replay.
ghost use Rattle.std.specs.Prelude.{◌≡◌, ◌+◌, ◌≤◌, ◌<◌, ◌^◌, if◌then◌else◌, codes, ◌++◌, ◌∷◌, [], length};
ghost use Rattle.std.specs.Prelude.{vec_len, vec_capacity};
ghost use Rattle.vt_replay.specs.Status.{line, two_numbers, kind_of_held, status};

use vt_paint::push_number;
use vt_syntax::Held;
use vt_term::SizedTerminal;

/// The most bytes of a status.
pub(crate) const STATUS_LIMIT: usize = 1000;

/// Returns the kind of the unfinished sequence, as a word.
fn kind_of_held(held: &Held) -> &'static str
    ensures kind { result.now ≡ kind_of_held held.now }
    ensures short { length result.now ≤ 7 }
{
    match held {
        Held::Nothing => "none",
        Held::Escape(_) => "escape",
        Held::Control { .. } => "control",
        Held::Spoilt => "control",
        Held::Text { .. } => "string",
    }
}

/// Returns a truth value as a word.
fn yes_or_no(flag: bool) -> &'static [u8]
    ensures word { result.now ≡ (if flag then codes "yes" else codes "no") }
    ensures short { length result.now ≤ 3 }
{
    if flag { b"yes" } else { b"no" }
}

/// Appends a short text, in existing capacity.
fn push_text(text: &[u8], out: &mut Vec<u8>)
    requires short { length text.now ≤ 20 }
    requires room { vec_len out.old + 20 ≤ vec_capacity out.old }
    ensures items { out.new.items ≡ out.old.items ++ text.now }
    ensures bounded { vec_len out.new ≤ vec_len out.old + length text.now }
    ensures capacity { vec_capacity out.old ≤ vec_capacity out.new }
{
    out.extend_from_slice(text).unwrap();
}

/// Appends a line of two numbers: a name of at most twenty bytes, which ends with a space, the numbers and LF.
fn push_pair(name: &[u8], a: u64, b: u64, out: &mut Vec<u8>)
    requires short { length name.now ≤ 20 }
    requires room { vec_len out.old + 100 ≤ vec_capacity out.old }
    ensures items { out.new.items ≡ ((out.old.items ++ name.now) ++ two_numbers a b) ++ 10 ∷ [] }
    ensures bounded { vec_len out.new ≤ vec_len out.old + 62 }
    ensures capacity { vec_capacity out.old ≤ vec_capacity out.new }
{
    push_text(name, out);
    push_number(a, out);
    push_text(b" ", out);
    push_number(b, out);
    push_text(b"\n", out);
}

/// Appends a line of a name, which ends with a space, a text, each of at most twenty bytes, and LF.
fn push_line(name: &[u8], text: &[u8], out: &mut Vec<u8>)
    requires short { (length name.now ≤ 20) × (length text.now ≤ 20) }
    requires room { vec_len out.old + 60 ≤ vec_capacity out.old }
    ensures items { out.new.items ≡ ((out.old.items ++ name.now) ++ text.now) ++ 10 ∷ [] }
    ensures bounded { vec_len out.new ≤ vec_len out.old + 60 }
    ensures capacity { vec_capacity out.old ≤ vec_capacity out.new }
{
    push_text(name, out);
    push_text(text, out);
    push_text(b"\n", out);
}

/// Appends the five lines of the status, at most `STATUS_LIMIT` bytes, in existing capacity.
pub(crate) fn push_status(terminal: &SizedTerminal, reported: u64, out: &mut Vec<u8>)
    requires { vec_len out.old + STATUS_LIMIT ≤ vec_capacity out.old }
    ensures items { out.new.items ≡ out.old.items ++ status terminal.now reported }
    ensures capacity { vec_capacity out.old ≤ vec_capacity out.new }
{
    let cursor = terminal.cursor();
    let margins = terminal.margins();
    push_pair(b"cursor ", cursor.row as u64, cursor.col as u64, out);
    push_line(b"wrap ", yes_or_no(cursor.wrap), out);
    push_pair(b"margins ", margins.top as u64, margins.bottom as u64, out);
    push_line(b"held ", kind_of_held(terminal.held()).as_bytes(), out);
    push_text(b"reports ", out);
    push_number(reported, out);
    push_text(b"\n", out);
}
