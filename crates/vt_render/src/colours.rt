//! Colours of a picture.
ghost use Rattle.std.specs.Prelude.{◌≡◌, ◌≤◌, ◌<◌, ◌+◌, ◌*◌, length, take, vec_len, vec_capacity};

use vt_paint::{push_bytes, push_number};
use vt_xterm_cell::Colour;

/// The colours that a class names: red, green and blue of xterm's first 16.
const NAMED: [[u8; 3]; 16] = [
    [0x00, 0x00, 0x00],
    [0xCD, 0x00, 0x00],
    [0x00, 0xCD, 0x00],
    [0xCD, 0xCD, 0x00],
    [0x00, 0x00, 0xEE],
    [0xCD, 0x00, 0xCD],
    [0x00, 0xCD, 0xCD],
    [0xE5, 0xE5, 0xE5],
    [0x7F, 0x7F, 0x7F],
    [0xFF, 0x00, 0x00],
    [0x00, 0xFF, 0x00],
    [0xFF, 0xFF, 0x00],
    [0x5C, 0x5C, 0xFF],
    [0xFF, 0x00, 0xFF],
    [0x00, 0xFF, 0xFF],
    [0xFF, 0xFF, 0xFF],
];

/// The six levels of the cube of colours.
const LEVELS: [u8; 6] = [0, 95, 135, 175, 215, 255];

/// The hexadecimal digits.
const DIGITS: &[u8; 16] = b"0123456789abcdef";

/// Returns red, green and blue of one of 256 colours: 16 that have a class, a cube of six levels each, and 24 greys. (xterm)
fn rgb_of(index: u8) -> [u8; 3] {
    if index < 16 {
        return NAMED[index as usize];
    }
    if index >= 232 {
        return [8 + 10 * (index - 232); 3];
    }
    let place = index as usize - 16;
    [LEVELS[place / 36], LEVELS[place / 6 % 6], LEVELS[place % 6]]
}

/// Appends a colour as `#` and six digits.
fn push_hex(rgb: [u8; 3], out: &mut Vec<u8>)
    requires { vec_len out.old + 7 ≤ vec_capacity out.old }
    ensures kept { take (length out.old.items) out.new.items ≡ out.old.items }
    ensures bounded { vec_len out.new ≤ vec_len out.old + 7 }
    ensures capacity { vec_capacity out.old ≤ vec_capacity out.new }
{
    let [red, green, blue] = rgb;
    let digits = [
        b'#',
        DIGITS[red as usize / 16],
        DIGITS[red as usize % 16],
        DIGITS[green as usize / 16],
        DIGITS[green as usize % 16],
        DIGITS[blue as usize / 16],
        DIGITS[blue as usize % 16],
    ];
    push_bytes(&digits, out);
}

/// Returns the attribute of a light fill, or of a dark one.
pub(crate) fn fill(light: bool) -> &'static [u8]
    ensures { length result.now ≤ 15 }
{
    if light {
        b" fill='#d0d0d0'"
    } else {
        b" fill='#101010'"
    }
}

/// Appends the class of a colour between two parts, if it has one.
pub(crate) fn push_class(before: &[u8], colour: Colour, after: &[u8], out: &mut Vec<u8>)
    requires { vec_len out.old + (length before.now + 9 + length after.now) ≤ vec_capacity out.old }
    ensures kept { take (length out.old.items) out.new.items ≡ out.old.items }
    ensures bounded { vec_len out.new ≤ vec_len out.old + (length before.now + 9 + length after.now) }
    ensures capacity { vec_capacity out.old ≤ vec_capacity out.new }
{
    if let Colour::Indexed(index) = colour {
        if index < 16 {
            push_bytes(before, out);
            push_bytes(b"vt220-", out);
            push_number(index, out);
            push_bytes(after, out);
        }
    }
}

/// Appends the attribute of a colour without a class.
pub(crate) fn push_fill(colour: Colour, default: &[u8], out: &mut Vec<u8>)
    requires default { length default.now ≤ 15 }
    requires room { vec_len out.old + 15 ≤ vec_capacity out.old }
    ensures kept { take (length out.old.items) out.new.items ≡ out.old.items }
    ensures bounded { vec_len out.new ≤ vec_len out.old + 15 }
    ensures capacity { vec_capacity out.old ≤ vec_capacity out.new }
{
    let rgb = match colour {
        Colour::Default => return push_bytes(default, out),
        Colour::Indexed(index) => {
            if index < 16 {
                return;
            }
            rgb_of(index)
        }
        Colour::Rgb(red, green, blue) => [red, green, blue],
    };
    push_bytes(b" fill='", out);
    push_hex(rgb, out);
    push_bytes(b"'", out);
}

/// Appends the rule of the class of a colour. A page may give it another one by the property of the same name.
fn push_rule(index: u8, out: &mut Vec<u8>)
    requires { vec_len out.old + 56 ≤ vec_capacity out.old }
    ensures kept { take (length out.old.items) out.new.items ≡ out.old.items }
    ensures bounded { vec_len out.new ≤ vec_len out.old + 56 }
    ensures capacity { vec_capacity out.old ≤ vec_capacity out.new }
{
    let rgb = rgb_of(index);
    push_bytes(b".vt220-", out);
    push_number(index, out);
    push_bytes(b"{fill:", out);
    push_hex(rgb, out);
    push_bytes(b";fill:var(--vt220-", out);
    push_number(index, out);
    push_bytes(b",", out);
    push_hex(rgb, out);
    push_bytes(b")}\n", out);
}

/// Appends the rules of the classes of the first 16 colours.
pub(crate) fn push_rules(out: &mut Vec<u8>)
    requires { vec_len out.old + 896 ≤ vec_capacity out.old }
    ensures kept { take (length out.old.items) out.new.items ≡ out.old.items }
    ensures bounded { vec_len out.new ≤ vec_len out.old + 896 }
    ensures capacity { vec_capacity out.old ≤ vec_capacity out.new }
{
    for index in 0..16u8 {
        push_rule(index, out);
    }
}
