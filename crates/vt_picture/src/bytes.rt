//! Characters appended to an output that has capacity for them.
ghost use Rattle.std.specs.Prelude.{◌≡◌, ◌+◌, ◌≤◌, ◌++◌, vec_len, vec_capacity, encode_utf8};
ghost use Rattle.vt_picture.specs.Picture.{escaped as escaped_glyph};

use vt_glyph::Glyph;
use vt_paint::push_bytes;

/// Appends a glyph's character in UTF-8. `out` has capacity for four bytes.
pub fn push_glyph(glyph: Glyph, out: &mut Vec<u8>)
    requires { vec_len out.old + 4 ≤ vec_capacity out.old }
    ensures items { out.new.items ≡ out.old.items ++ encode_utf8 glyph }
    ensures bounded { vec_len out.new ≤ vec_len out.old + 4 }
    ensures capacity { vec_capacity out.old ≤ vec_capacity out.new }
{
    let mut bytes = [0u8; 4];
    let text = glyph.to_char().encode_utf8(&mut bytes);
    push_bytes(text.as_bytes(), out);
}

/// Appends a glyph's character, escaped for XML. `out` has capacity for five bytes.
#[tactic(auto, unfolding(crate::specs::Picture::escaped))]
pub(crate) fn push_escaped(glyph: Glyph, out: &mut Vec<u8>)
    requires { vec_len out.old + 5 ≤ vec_capacity out.old }
    ensures items { out.new.items ≡ out.old.items ++ escaped_glyph glyph }
    ensures bounded { vec_len out.new ≤ vec_len out.old + 5 }
    ensures capacity { vec_capacity out.old ≤ vec_capacity out.new }
{
    match glyph.to_char() {
        '&' => push_bytes(b"&amp;", out),
        '<' => push_bytes(b"&lt;", out),
        '>' => push_bytes(b"&gt;", out),
        _ => push_glyph(glyph, out),
    }
}
