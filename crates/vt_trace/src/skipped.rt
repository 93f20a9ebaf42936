//! The lines of items that are no event, since they have no function.
ghost use Rattle.std.specs.Prelude.{◌≡◌, ◌+◌, ◌*◌, ◌^◌, ◌≤◌, ◌<◌, ◌++◌, [], ◌∷◌, ◌&&◌, ◌||◌, ℕ, List, All, length, take, drop, true};
ghost use Rattle.std.specs.Prelude.{if◌then◌else◌, IfSome, option_copied, vec_len, vec_capacity};
ghost use Rattle.vt_syntax.specs.Event.{event_in, event_of};
ghost use Rattle.vt_syntax.specs.Spelling.{IsEvent};
ghost use Rattle.vt_syntax.specs.Held.{events_from, held_from, IsHeldPart};
ghost use Rattle.vt_syntax.specs.Content.{goes_on};
ghost use Rattle.vt_trace.specs.Observed.{AreRead, ArePassed, skim};
ghost use Rattle.vt_trace.specs.Skipped.{kind_name, kind_column, first_column, skipped_line, is_empty};
ghost use Rattle.vt_trace.specs.Trace.{is_nothing, is_string, cuts_off, ends_silent, code_after, text_end};
ghost use Rattle.vt_trace.specs.Trace.{open_kind, ended_kind, open_lines, skipped};

use crate::bytes::{push_all_shown, push_bytes, push_number};
use crate::tracing::{Tracer, begins, push_end};
use arrayvec::ArrayVec;
use vt_syntax::laws::one_split;
use vt_syntax::{EventKind, Held, Parser, Values};

/// The kind of a sequence that is cut off.
pub(crate) const CUT_SEQUENCE: u8 = 0x1B;

/// The kind of a sequence that has its final byte, and no function.
pub(crate) const SPOILT_SEQUENCE: u8 = 0x9B;

/// The number of bytes of an item that a line shows.
const SHOWN: usize = 32;

/// The first bytes of an item: those that a line shows, and one more.
pub type First = ArrayVec<u8, 33>;

/// The most bytes that are written of an item without a function, with the end of a text before it.
pub const SKIPPED_LIMIT: usize = 180;

/// Returns the name of a kind, and `None` for CAN and DEL.
#[tactic(auto, unfolding(crate::specs::Skipped::kind_name))]
pub(crate) fn kind_name(kind: u8) -> Option<&'static str>
    ensures word { option_copied result ≡ kind_name kind }
    ensures short { IfSome result (λ word. length word.now ≤ 15) }
{
    match kind {
        CUT_SEQUENCE => Some("cut sequence"),
        SPOILT_SEQUENCE => Some("spoilt sequence"),
        0x90 => Some("DCS string"),
        0x98 => Some("SOS string"),
        0x9D => Some("OSC string"),
        0x9E => Some("PM string"),
        0x9F => Some("APC string"),
        _ => None,
    }
}

/// The step of a byte: its event, and the end of an item without a function.
#[derive(Drop)]
pub(crate) struct Step {
    /// The event that the byte completes.
    pub(crate) event: Option<EventKind>,
    /// Whether the byte cuts off what was held.
    pub(crate) cut: bool,
    /// Whether the byte ends an item that has no function.
    pub(crate) ended: bool,
    /// The kind of that item.
    kind: u8,
    /// The C1 control that opened the string which is held after the byte, and 0 if none is.
    pub(crate) code: u8,
    /// Whether nothing is held after the byte.
    pub(crate) is_between: bool,
}

/// Reads a byte with a parser. `code` is the C1 control that opened the string which is held, and 0 if none is.
pub(crate) fn read(code: u8, parser: &mut Parser, b: u8, values: &mut Values) -> Step
    ensures event { event_in result.event values.new ≡ events_from parser.old (b ∷ []) }
    ensures in_range { IfSome result.event (λ kind. IsEvent (event_of kind values.new)) }
    ensures held { parser.new ≡ held_from parser.old (b ∷ []) }
    ensures cut { result.cut ≡ cuts_off parser.old b }
    ensures ended { result.ended ≡ ends_silent parser.old b }
    ensures kind { result.kind ≡ ended_kind code parser.old b }
    ensures code { result.code ≡ code_after code (is_string parser.old) (held_from parser.old (b ∷ [])) b }
    ensures is_between { result.is_between ≡ is_nothing (held_from parser.old (b ∷ [])) }
{
    let held = parser.held();
    let cut = cuts_off(held, b);
    let kind = ended_kind(code, held, b);
    let in_string = is_string(held);
    let event = read_one(parser, b, values);
    let next = parser.held();
    Step {
        event,
        cut,
        ended: ends_silent(event, next),
        kind,
        code: code_after(code, in_string, next, b),
        is_between: is_nothing(next),
    }
}

/// Reads a byte with a parser, and appends the line of the item without a function that the byte cuts off or ends. The
/// event that the byte completes is left out.
fn skip(tracer: &mut Tracer, parser: &mut Parser, b: u8, values: &mut Values, out: &mut Vec<u8>)
    requires place { tracer.old.place + 1 < 2 ^ 64 }
    requires room { vec_len out.old + SKIPPED_LIMIT ≤ vec_capacity out.old }
    ensures lines { out.new.items ≡ out.old.items ++ skipped tracer.old parser.old b }
    ensures tracer { tracer.new ≡ skim parser.old tracer.old b }
    ensures held { parser.new ≡ held_from parser.old (b ∷ []) }
    ensures bounded { vec_len out.new ≤ vec_len out.old + SKIPPED_LIMIT }
    ensures capacity { vec_capacity out.old ≤ vec_capacity out.new }
{
    let begins = begins(parser.held(), b);
    let step = read(tracer.code, parser, b, values);
    push_cut(tracer, step.cut, out);
    tracer.add(begins, b);
    push_ended(tracer, &step, out);
    tracer.step(&step);
}

/// Reads bytes with a parser, and appends the lines of the items without a function that they cut off or end. The events
/// that they complete are left out.
pub(crate) fn skip_all(
    tracer: &mut Tracer,
    parser: &mut Parser,
    bytes: &[u8],
    values: &mut Values,
    out: &mut Vec<u8>,
)
    requires place { tracer.old.place + length bytes.now < 2 ^ 64 }
    requires room { vec_len out.old + SKIPPED_LIMIT * length bytes.now ≤ vec_capacity out.old }
    ensures read { AreRead parser.old parser.new tracer.old tracer.new bytes.now out.old.items out.new.items }
    ensures held_part { IsHeldPart parser.old }
    ensures place { tracer.new.place ≡ tracer.old.place + length bytes.now }
    ensures bounded { vec_len out.new ≤ vec_len out.old + SKIPPED_LIMIT * length bytes.now }
    ensures capacity { vec_capacity out.old ≤ vec_capacity out.new }
{
    one_split();
    let _ = parser.held();
    let mut at = 0;
    while at < bytes.len() {
        skip(tracer, parser, bytes[at], values, out);
        at += 1;
        at += pass_content(tracer, parser.held(), &bytes[at..]);
    }
}

/// Adds the bytes at the front of a chunk that surely go on a string, if one is held. Returns how many they are.
///
/// Speed: nothing is written of them, so they are added at once.
#[inline(always)]
fn pass_content(tracer: &mut Tracer, held: &Held, bytes: &[u8]) -> usize
    requires held_part { IsHeldPart held.now }
    requires place { tracer.old.place + length bytes.now < 2 ^ 64 }
    ensures within { result ≤ length bytes.now }
    ensures passed { ArePassed held.now tracer.old tracer.new bytes.now (drop result bytes.now) }
    ensures place { tracer.new.place ≡ tracer.old.place + result }
{
    if !is_string(held) {
        return 0;
    }
    let count = content_len(bytes);
    tracer.hold(&bytes[..count]);
    count
}

/// Returns how many bytes at the front of a chunk surely go on a string.
fn content_len(bytes: &[u8]) -> usize
    ensures within { result ≤ length bytes.now }
    ensures content { All (λ b. goes_on b ≡ true) (take result bytes.now) }
{
    let mut at = 0;
    while at < bytes.len() && is_content(bytes[at]) {
        at += 1;
    }
    at
}

/// Returns whether a byte surely goes on a string, of whatever kind.
#[inline(always)]
#[tactic(auto, using(std::proofs::lemmas::Bool::Decides::nat_tests))]
fn is_content(b: u8) -> bool
    ensures { result ≡ goes_on b }
{
    !((0x18 <= b && b < 0x1C) || (b == 0x9C || b == 0x07))
}

/// Reads a byte.
fn read_one(parser: &mut Parser, b: u8, values: &mut Values) -> Option<EventKind>
    ensures event { event_in result values.new ≡ events_from parser.old (b ∷ []) }
    ensures in_range { IfSome result (λ kind. IsEvent (event_of kind values.new)) }
    ensures held { parser.new ≡ held_from parser.old (b ∷ []) }
{
    parser.next(&[b], values).event
}

/// Returns whether there is no event, and nothing is held.
fn ends_silent(event: Option<EventKind>, held: &Held) -> bool
    ensures { (values : List ℕ) → result ≡ is_empty (event_in event values) && is_nothing held.now }
{
    match event {
        Some(_) => false,
        None => is_nothing(held),
    }
}

/// Returns whether nothing is held.
fn is_nothing(held: &Held) -> bool
    ensures { result ≡ is_nothing held.now }
{
    matches!(held, Held::Nothing)
}

/// Returns whether a string is held.
fn is_string(held: &Held) -> bool
    ensures { result ≡ is_string held.now }
{
    matches!(held, Held::Text { .. })
}

/// Returns whether a byte cuts off what is held, or is the SUB that ends it.
fn cuts_off(held: &Held, b: u8) -> bool
    ensures { result ≡ cuts_off held.now b }
{
    !is_nothing(held) && (begins(held, b) || b == 0x1A)
}

/// Returns the C1 control that opens the string which is held after a byte, and 0 if none is. `code` is that of a string
/// that was held before.
fn code_after(code: u8, in_string: bool, held: &Held, b: u8) -> u8
    ensures { result ≡ code_after code in_string held.now b }
{
    if !is_string(held) {
        0
    } else if in_string {
        code
    } else if b < 0x80 {
        b + 0x40
    } else {
        b
    }
}

/// Returns the kind of an item without a function that ends with a byte, which isn't SUB.
fn ended_kind(code: u8, held: &Held, b: u8) -> u8
    ensures { result ≡ ended_kind code held.now b }
{
    if is_nothing(held) {
        b
    } else if code == 0 && b != 0x18 {
        SPOILT_SEQUENCE
    } else {
        open_kind(code)
    }
}

/// Returns the kind of what is held.
pub(crate) fn open_kind(code: u8) -> u8
    ensures { result ≡ open_kind code }
{
    if code == 0 { CUT_SEQUENCE } else { code }
}

/// Appends what is written of what is held, if it is cut off.
#[inline(always)]
fn push_cut(tracer: &Tracer, cut: bool, out: &mut Vec<u8>)
    requires { vec_len out.old + SKIPPED_LIMIT ≤ vec_capacity out.old }
    ensures items { out.new.items ≡ out.old.items ++ (if cut then open_lines tracer.now else []) }
    ensures bounded { vec_len out.new ≤ vec_len out.old + (if cut then 180 else 0) }
    ensures capacity { vec_capacity out.old ≤ vec_capacity out.new }
{
    if cut {
        push_open(tracer, out);
    }
}

/// Appends what is written of the item without a function that a byte ends. The byte was added to it.
#[inline(always)]
fn push_ended(tracer: &Tracer, step: &Step, out: &mut Vec<u8>)
    requires { vec_len out.old + (if step.now.cut then 0 else 180) ≤ vec_capacity out.old }
    ensures items { out.new.items ≡ out.old.items ++ (if step.now.cut then [] else (if step.now.ended
        then text_end tracer.now.in_text ++ skipped_line tracer.now.begin step.now.kind tracer.now.first.items else [])) }
    ensures bounded { vec_len out.new ≤ vec_len out.old + (if step.now.cut then 0 else 180) }
    ensures capacity { vec_capacity out.old ≤ vec_capacity out.new }
{
    if !step.cut && step.ended {
        push_end(tracer.in_text, out);
        push_skipped_line(tracer.begin, step.kind, tracer.first.as_slice(), out);
    }
}

/// Appends what is written of what is held, when it is cut off.
pub(crate) fn push_open(tracer: &Tracer, out: &mut Vec<u8>)
    requires { vec_len out.old + SKIPPED_LIMIT ≤ vec_capacity out.old }
    ensures items { out.new.items ≡ out.old.items ++ open_lines tracer.now }
    ensures bounded { vec_len out.new ≤ vec_len out.old + SKIPPED_LIMIT }
    ensures capacity { vec_capacity out.old ≤ vec_capacity out.new }
{
    push_end(tracer.in_text, out);
    push_skipped_line(
        tracer.begin,
        open_kind(tracer.code),
        tracer.first.as_slice(),
        out,
    );
}

/// Appends the line of an item without a function.
fn push_skipped_line(place: u64, kind: u8, first: &[u8], out: &mut Vec<u8>)
    requires { vec_len out.old + 179 ≤ vec_capacity out.old }
    ensures items { out.new.items ≡ out.old.items ++ skipped_line place kind first.now }
    ensures bounded { vec_len out.new ≤ vec_len out.old + 179 }
    ensures capacity { vec_capacity out.old ≤ vec_capacity out.new }
{
    push_number(place, out);
    push_bytes(b"\t", out);
    push_kind_column(kind, out);
    push_bytes(b"\t", out);
    push_first_column(first, out);
    push_bytes(b"\n", out);
}

/// Appends `ignored`, and the kind if it has a name.
fn push_kind_column(kind: u8, out: &mut Vec<u8>)
    requires { vec_len out.old + 23 ≤ vec_capacity out.old }
    ensures items { out.new.items ≡ out.old.items ++ kind_column kind }
    ensures bounded { vec_len out.new ≤ vec_len out.old + 23 }
    ensures capacity { vec_capacity out.old ≤ vec_capacity out.new }
{
    push_bytes(b"ignored", out);
    if let Some(name) = kind_name(kind) {
        push_bytes(b" ", out);
        push_bytes(name.as_bytes(), out);
    }
}

/// Appends the first 32 bytes as text, with `..` after them if there are more.
fn push_first_column(bytes: &[u8], out: &mut Vec<u8>)
    requires { vec_len out.old + 130 ≤ vec_capacity out.old }
    ensures items { out.new.items ≡ out.old.items ++ first_column bytes.now }
    ensures bounded { vec_len out.new ≤ vec_len out.old + 130 }
    ensures capacity { vec_capacity out.old ≤ vec_capacity out.new }
{
    if bytes.len() > SHOWN {
        push_all_shown(&bytes[..SHOWN], out);
        push_bytes(b"..", out);
    } else {
        push_all_shown(bytes, out);
    }
}
