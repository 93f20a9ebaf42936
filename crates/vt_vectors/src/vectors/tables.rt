//! The rows of the conformance vectors, in tables of a subject. `tools/vectors` makes this file of lib/rows/vectors.txt.
ghost use Rattle.std.specs.Prelude.{◌≡◌, length, sum_by};
ghost use Rattle.std.specs.List.{All};
ghost use Rattle.vt_vectors.specs.Vectors.{AreFit};

use super::Row;

macro_rules! rows {
    ($($name:literal $input:literal $text:literal $reports:literal $repaint:expr;)*) => {
        &[$(Row { name: $name, input: $input, text: $text, reports: $reports, repaint: $repaint }),*]
    };
}

const PLAIN_1_ROWS: &[Row; 12] = rows! {
    "plain: nothing: the state at power-up" b"" "\n\n\n\n\n\n\n\n\n\n\n\n\n\n\n\n\n\n\n\n\n\n\n\n" b"" Some("\x1bc\x1b[1;1H\x1b[0m\x1b[0\"q\x1b(B\x1b)B\x1b*<\x1b+<\x0f\x1b}");
    "plain: a letter" b"A" "A\n\n\n\n\n\n\n\n\n\n\n\n\n\n\n\n\n\n\n\n\n\n\n\n" b"" Some("\x1bc\x1b(B\x1b*<\x1b+0\x0f\x1b[1;1H\x1b[0m\x1b[0\"qA\x1b[1;2H\x1b[0m\x1b[0\"q\x1b(B\x1b)B\x1b*<\x1b+<\x0f\x1b}");
    "plain: carriage return and line feed" b"A\r\nB" "A\nB\n\n\n\n\n\n\n\n\n\n\n\n\n\n\n\n\n\n\n\n\n\n\n" b"" Some("\x1bc\x1b(B\x1b*<\x1b+0\x0f\x1b[1;1H\x1b[0m\x1b[0\"qA\x1b[2;1H\x1b[0m\x1b[0\"qB\x1b[2;2H\x1b[0m\x1b[0\"q\x1b(B\x1b)B\x1b*<\x1b+<\x0f\x1b}");
    "plain: a full line leaves the cursor in its last column, with the wrap flag set" b"xxxxxxxxxxxxxxxxxxxxxxxxxxxxxxxxxxxxxxxxxxxxxxxxxxxxxxxxxxxxxxxxxxxxxxxxxxxxxxxx\x1b[6n" "xxxxxxxxxxxxxxxxxxxxxxxxxxxxxxxxxxxxxxxxxxxxxxxxxxxxxxxxxxxxxxxxxxxxxxxxxxxxxxxx\n\n\n\n\n\n\n\n\n\n\n\n\n\n\n\n\n\n\n\n\n\n\n\n" b"\x1b[1;80R" Some("\x1bc\x1b(B\x1b*<\x1b+0\x0f\x1b[1;1H\x1b[0m\x1b[0\"qxxxxxxxxxxxxxxxxxxxxxxxxxxxxxxxxxxxxxxxxxxxxxxxxxxxxxxxxxxxxxxxxxxxxxxxxxxxxxxxx\x1b[1;80H\x1b[0m\x1b[0\"qx\x1b[0m\x1b[0\"q\x1b(B\x1b)B\x1b*<\x1b+<\x0f\x1b}");
    "plain: the next glyph wraps to a new line" b"xxxxxxxxxxxxxxxxxxxxxxxxxxxxxxxxxxxxxxxxxxxxxxxxxxxxxxxxxxxxxxxxxxxxxxxxxxxxxxxxy" "xxxxxxxxxxxxxxxxxxxxxxxxxxxxxxxxxxxxxxxxxxxxxxxxxxxxxxxxxxxxxxxxxxxxxxxxxxxxxxxx\ny\n\n\n\n\n\n\n\n\n\n\n\n\n\n\n\n\n\n\n\n\n\n\n" b"" Some("\x1bc\x1b(B\x1b*<\x1b+0\x0f\x1b[1;1H\x1b[0m\x1b[0\"qxxxxxxxxxxxxxxxxxxxxxxxxxxxxxxxxxxxxxxxxxxxxxxxxxxxxxxxxxxxxxxxxxxxxxxxxxxxxxxxx\x1b[2;1H\x1b[0m\x1b[0\"qy\x1b[2;2H\x1b[0m\x1b[0\"q\x1b(B\x1b)B\x1b*<\x1b+<\x0f\x1b}");
    "plain: without DECAWM it is written over the last column" b"\x1b[?7lxxxxxxxxxxxxxxxxxxxxxxxxxxxxxxxxxxxxxxxxxxxxxxxxxxxxxxxxxxxxxxxxxxxxxxxxxxxxxxxxy" "xxxxxxxxxxxxxxxxxxxxxxxxxxxxxxxxxxxxxxxxxxxxxxxxxxxxxxxxxxxxxxxxxxxxxxxxxxxxxxxy\n\n\n\n\n\n\n\n\n\n\n\n\n\n\n\n\n\n\n\n\n\n\n\n" b"" Some("\x1bc\x1b(B\x1b*<\x1b+0\x0f\x1b[1;1H\x1b[0m\x1b[0\"qxxxxxxxxxxxxxxxxxxxxxxxxxxxxxxxxxxxxxxxxxxxxxxxxxxxxxxxxxxxxxxxxxxxxxxxxxxxxxxxy\x1b[1;80H\x1b[0m\x1b[0\"q\x1b(B\x1b)B\x1b*<\x1b+<\x0f\x1b}\x1b[?7l");
    "plain: a line feed in the last row scrolls" b"A\n\n\n\n\n\n\n\n\n\n\n\n\n\n\n\n\n\n\n\n\n\n\n\nZ" "\n\n\n\n\n\n\n\n\n\n\n\n\n\n\n\n\n\n\n\n\n\n\n Z\n" b"" Some("\x1bc\x1b(B\x1b*<\x1b+0\x0f\x1b[24;2H\x1b[0m\x1b[0\"qZ\x1b[24;3H\x1b[0m\x1b[0\"q\x1b(B\x1b)B\x1b*<\x1b+<\x0f\x1b}");
    "plain: a tab goes to the next stop" b"\tx" "        x\n\n\n\n\n\n\n\n\n\n\n\n\n\n\n\n\n\n\n\n\n\n\n\n" b"" Some("\x1bc\x1b(B\x1b*<\x1b+0\x0f\x1b[1;9H\x1b[0m\x1b[0\"qx\x1b[1;10H\x1b[0m\x1b[0\"q\x1b(B\x1b)B\x1b*<\x1b+<\x0f\x1b}");
    "plain: a backspace at the end of a full line resets the wrap flag" b"xxxxxxxxxxxxxxxxxxxxxxxxxxxxxxxxxxxxxxxxxxxxxxxxxxxxxxxxxxxxxxxxxxxxxxxxxxxxxxxx\x08y" "xxxxxxxxxxxxxxxxxxxxxxxxxxxxxxxxxxxxxxxxxxxxxxxxxxxxxxxxxxxxxxxxxxxxxxxxxxxxxxyx\n\n\n\n\n\n\n\n\n\n\n\n\n\n\n\n\n\n\n\n\n\n\n\n" b"" Some("\x1bc\x1b(B\x1b*<\x1b+0\x0f\x1b[1;1H\x1b[0m\x1b[0\"qxxxxxxxxxxxxxxxxxxxxxxxxxxxxxxxxxxxxxxxxxxxxxxxxxxxxxxxxxxxxxxxxxxxxxxxxxxxxxxyx\x1b[1;80H\x1b[0m\x1b[0\"q\x1b(B\x1b)B\x1b*<\x1b+<\x0f\x1b}");
    "plain: a backspace stays in column 1" b"\x08\x08x" "x\n\n\n\n\n\n\n\n\n\n\n\n\n\n\n\n\n\n\n\n\n\n\n\n" b"" Some("\x1bc\x1b(B\x1b*<\x1b+0\x0f\x1b[1;1H\x1b[0m\x1b[0\"qx\x1b[1;2H\x1b[0m\x1b[0\"q\x1b(B\x1b)B\x1b*<\x1b+<\x0f\x1b}");
    "plain: a glyph over the last column sets the wrap flag again" b"xxxxxxxxxxxxxxxxxxxxxxxxxxxxxxxxxxxxxxxxxxxxxxxxxxxxxxxxxxxxxxxxxxxxxxxxxxxxxxxx\x1b[1;80Hy" "xxxxxxxxxxxxxxxxxxxxxxxxxxxxxxxxxxxxxxxxxxxxxxxxxxxxxxxxxxxxxxxxxxxxxxxxxxxxxxxy\n\n\n\n\n\n\n\n\n\n\n\n\n\n\n\n\n\n\n\n\n\n\n\n" b"" Some("\x1bc\x1b(B\x1b*<\x1b+0\x0f\x1b[1;1H\x1b[0m\x1b[0\"qxxxxxxxxxxxxxxxxxxxxxxxxxxxxxxxxxxxxxxxxxxxxxxxxxxxxxxxxxxxxxxxxxxxxxxxxxxxxxxxy\x1b[1;80H\x1b[0m\x1b[0\"qy\x1b[0m\x1b[0\"q\x1b(B\x1b)B\x1b*<\x1b+<\x0f\x1b}");
    "plain: margins that are the wrong way round, or of one line, are ignored; one scroll in the last row" b"A\r\nB\x1b[3;2r\x1b[2;2r\x1b[24;1H\n" "B\n\n\n\n\n\n\n\n\n\n\n\n\n\n\n\n\n\n\n\n\n\n\n\n" b"" Some("\x1bc\x1b(B\x1b*<\x1b+0\x0f\x1b[1;1H\x1b[0m\x1b[0\"qB\x1b[24;1H\x1b[0m\x1b[0\"q\x1b(B\x1b)B\x1b*<\x1b+<\x0f\x1b}");
};

/// Returns the rows of a table.
fn plain_1() -> &'static [Row]
    ensures count { length result.now ≡ 12 }
    ensures fit { AreFit result.now }
{
    PLAIN_1_ROWS
}

const PLAIN_2_ROWS: &[Row; 6] = rows! {
    "plain: 200 letters fill two lines and a half" b"aaaaaaaaaaaaaaaaaaaaaaaaaaaaaaaaaaaaaaaaaaaaaaaaaaaaaaaaaaaaaaaaaaaaaaaaaaaaaaaaaaaaaaaaaaaaaaaaaaaaaaaaaaaaaaaaaaaaaaaaaaaaaaaaaaaaaaaaaaaaaaaaaaaaaaaaaaaaaaaaaaaaaaaaaaaaaaaaaaaaaaaaaaaaaaaaaaaaaaaa" "aaaaaaaaaaaaaaaaaaaaaaaaaaaaaaaaaaaaaaaaaaaaaaaaaaaaaaaaaaaaaaaaaaaaaaaaaaaaaaaa\naaaaaaaaaaaaaaaaaaaaaaaaaaaaaaaaaaaaaaaaaaaaaaaaaaaaaaaaaaaaaaaaaaaaaaaaaaaaaaaa\naaaaaaaaaaaaaaaaaaaaaaaaaaaaaaaaaaaaaaaa\n\n\n\n\n\n\n\n\n\n\n\n\n\n\n\n\n\n\n\n\n\n" b"" Some("\x1bc\x1b(B\x1b*<\x1b+0\x0f\x1b[1;1H\x1b[0m\x1b[0\"qaaaaaaaaaaaaaaaaaaaaaaaaaaaaaaaaaaaaaaaaaaaaaaaaaaaaaaaaaaaaaaaaaaaaaaaaaaaaaaaa\x1b[2;1H\x1b[0m\x1b[0\"qaaaaaaaaaaaaaaaaaaaaaaaaaaaaaaaaaaaaaaaaaaaaaaaaaaaaaaaaaaaaaaaaaaaaaaaaaaaaaaaa\x1b[3;1H\x1b[0m\x1b[0\"qaaaaaaaaaaaaaaaaaaaaaaaaaaaaaaaaaaaaaaaa\x1b[3;41H\x1b[0m\x1b[0\"q\x1b(B\x1b)B\x1b*<\x1b+<\x0f\x1b}");
    "plain: spaces between letters are blank cells" b"A  B" "A  B\n\n\n\n\n\n\n\n\n\n\n\n\n\n\n\n\n\n\n\n\n\n\n\n" b"" Some("\x1bc\x1b(B\x1b*<\x1b+0\x0f\x1b[1;1H\x1b[0m\x1b[0\"qA\x1b[1;4H\x1b[0m\x1b[0\"qB\x1b[1;5H\x1b[0m\x1b[0\"q\x1b(B\x1b)B\x1b*<\x1b+<\x0f\x1b}");
    "plain: a line of spaces is blank, and leaves the wrap flag" b"                                                                                " "\n\n\n\n\n\n\n\n\n\n\n\n\n\n\n\n\n\n\n\n\n\n\n\n" b"" Some("\x1bc\x1b(B\x1b*<\x1b+0\x0f\x1b[1;80H\x1b[0m\x1b[0\"q \x1b[0m\x1b[0\"q\x1b(B\x1b)B\x1b*<\x1b+<\x0f\x1b}");
    "plain: controls without effect show nothing" b"A\x00\x05\x07\x11\x13\x7fB" "AB\n\n\n\n\n\n\n\n\n\n\n\n\n\n\n\n\n\n\n\n\n\n\n\n" b"" Some("\x1bc\x1b(B\x1b*<\x1b+0\x0f\x1b[1;1H\x1b[0m\x1b[0\"qAB\x1b[1;3H\x1b[0m\x1b[0\"q\x1b(B\x1b)B\x1b*<\x1b+<\x0f\x1b}");
    "plain: VT and FF are line feeds" b"A\x0bB\x0cC" "A\n B\n  C\n\n\n\n\n\n\n\n\n\n\n\n\n\n\n\n\n\n\n\n\n\n" b"" Some("\x1bc\x1b(B\x1b*<\x1b+0\x0f\x1b[1;1H\x1b[0m\x1b[0\"qA\x1b[2;2H\x1b[0m\x1b[0\"qB\x1b[3;3H\x1b[0m\x1b[0\"qC\x1b[3;4H\x1b[0m\x1b[0\"q\x1b(B\x1b)B\x1b*<\x1b+<\x0f\x1b}");
    "plain: a VT in the last row scrolls, and resets the wrap flag" b"\x1b[24;80Hx\x0by" "\n\n\n\n\n\n\n\n\n\n\n\n\n\n\n\n\n\n\n\n\n\n                                                                               x\n                                                                               y\n" b"" Some("\x1bc\x1b(B\x1b*<\x1b+0\x0f\x1b[23;80H\x1b[0m\x1b[0\"qx\x1b[24;80H\x1b[0m\x1b[0\"qy\x1b[24;80H\x1b[0m\x1b[0\"qy\x1b[0m\x1b[0\"q\x1b(B\x1b)B\x1b*<\x1b+<\x0f\x1b}");
};

/// Returns the rows of a table.
fn plain_2() -> &'static [Row]
    ensures count { length result.now ≡ 6 }
    ensures fit { AreFit result.now }
{
    PLAIN_2_ROWS
}

const SYNTAX_1_ROWS: &[Row; 12] = rows! {
    "syntax: a control sequence with a line feed in it, which is carried out at once" b"\x1b[1\n2H" "\n\n\n\n\n\n\n\n\n\n\n\n\n\n\n\n\n\n\n\n\n\n\n\n" b"" Some("\x1bc\x1b[12;1H\x1b[0m\x1b[0\"q\x1b(B\x1b)B\x1b*<\x1b+<\x0f\x1b}");
    "syntax: the first four bytes of a control sequence with a line feed in it" b"\x1b[1\n" "\n\n\n\n\n\n\n\n\n\n\n\n\n\n\n\n\n\n\n\n\n\n\n\n" b"" None;
    "syntax: the first five bytes of a control sequence with a line feed in it" b"\x1b[1\n2" "\n\n\n\n\n\n\n\n\n\n\n\n\n\n\n\n\n\n\n\n\n\n\n\n" b"" None;
    "syntax: a value above 9999 is 9999" b"\x1b[10001;0H" "\n\n\n\n\n\n\n\n\n\n\n\n\n\n\n\n\n\n\n\n\n\n\n\n" b"" Some("\x1bc\x1b[24;1H\x1b[0m\x1b[0\"q\x1b(B\x1b)B\x1b*<\x1b+<\x0f\x1b}");
    "syntax: a value above 65535 is 9999" b"\x1b[65537;0H" "\n\n\n\n\n\n\n\n\n\n\n\n\n\n\n\n\n\n\n\n\n\n\n\n" b"" Some("\x1bc\x1b[24;1H\x1b[0m\x1b[0\"q\x1b(B\x1b)B\x1b*<\x1b+<\x0f\x1b}");
    "syntax: a control between leaves a single shift pending" b"\x8e\n$" "\n␦\n\n\n\n\n\n\n\n\n\n\n\n\n\n\n\n\n\n\n\n\n\n\n" b"" Some("\x1bc\x1b(B\x1b*<\x1b+0\x0f\x1b[2;1H\x1b[0m\x1b[0\"q\x1bN$\x1b[2;2H\x1b[0m\x1b[0\"q\x1b(B\x1b)B\x1b*<\x1b+<\x0f\x1b}");
    "syntax: an operating system command, ended by BEL, shows nothing" b"\x1b]0;t\x07A" "A\n\n\n\n\n\n\n\n\n\n\n\n\n\n\n\n\n\n\n\n\n\n\n\n" b"" Some("\x1bc\x1b(B\x1b*<\x1b+0\x0f\x1b[1;1H\x1b[0m\x1b[0\"qA\x1b[1;2H\x1b[0m\x1b[0\"q\x1b(B\x1b)B\x1b*<\x1b+<\x0f\x1b}");
    "syntax: a device control string without its end" b"\x1bPqabc" "\n\n\n\n\n\n\n\n\n\n\n\n\n\n\n\n\n\n\n\n\n\n\n\n" b"" None;
    "syntax: SUB ends a sequence, and shows its glyph" b"\x1b[1\x1aB" "␦B\n\n\n\n\n\n\n\n\n\n\n\n\n\n\n\n\n\n\n\n\n\n\n\n" b"" Some("\x1bc\x1b(B\x1b*<\x1b+0\x0f\x1b[1;1H\x1b[0m\x1b[0\"q\x1bN$B\x1b[1;3H\x1b[0m\x1b[0\"q\x1b(B\x1b)B\x1b*<\x1b+<\x0f\x1b}");
    "syntax: CAN ends a sequence, and shows nothing" b"\x1b[1\x18B" "B\n\n\n\n\n\n\n\n\n\n\n\n\n\n\n\n\n\n\n\n\n\n\n\n" b"" Some("\x1bc\x1b(B\x1b*<\x1b+0\x0f\x1b[1;1H\x1b[0m\x1b[0\"qB\x1b[1;2H\x1b[0m\x1b[0\"q\x1b(B\x1b)B\x1b*<\x1b+<\x0f\x1b}");
    "syntax: an 8-bit CSI cuts a sequence, and begins one" b"\x9b1\x9b2C" "\n\n\n\n\n\n\n\n\n\n\n\n\n\n\n\n\n\n\n\n\n\n\n\n" b"" Some("\x1bc\x1b[1;3H\x1b[0m\x1b[0\"q\x1b(B\x1b)B\x1b*<\x1b+<\x0f\x1b}");
    "syntax: a graphic byte of the right half cuts a sequence, and is written" b"\x1b[1\xe9B" "éB\n\n\n\n\n\n\n\n\n\n\n\n\n\n\n\n\n\n\n\n\n\n\n\n" b"" Some("\x1bc\x1b(B\x1b*<\x1b+0\x0f\x1b[1;1H\x1b[0m\x1b[0\"q\x1bNiB\x1b[1;3H\x1b[0m\x1b[0\"q\x1b(B\x1b)B\x1b*<\x1b+<\x0f\x1b}");
};

/// Returns the rows of a table.
fn syntax_1() -> &'static [Row]
    ensures count { length result.now ≡ 12 }
    ensures fit { AreFit result.now }
{
    SYNTAX_1_ROWS
}

const SYNTAX_2_ROWS: &[Row; 12] = rows! {
    "syntax: an 8-bit CSI cuts a sequence with a value, and the second has its own" b"\x9b5\x9b2H" "\n\n\n\n\n\n\n\n\n\n\n\n\n\n\n\n\n\n\n\n\n\n\n\n" b"" Some("\x1bc\x1b[2;1H\x1b[0m\x1b[0\"q\x1b(B\x1b)B\x1b*<\x1b+<\x0f\x1b}");
    "syntax: a colon spoils a sequence" b"\x1b[1:2H" "\n\n\n\n\n\n\n\n\n\n\n\n\n\n\n\n\n\n\n\n\n\n\n\n" b"" Some("\x1bc\x1b[1;1H\x1b[0m\x1b[0\"q\x1b(B\x1b)B\x1b*<\x1b+<\x0f\x1b}");
    "syntax: an intermediate that isn't listed: no function" b"\x1b[5 H" "\n\n\n\n\n\n\n\n\n\n\n\n\n\n\n\n\n\n\n\n\n\n\n\n" b"" Some("\x1bc\x1b[1;1H\x1b[0m\x1b[0\"q\x1b(B\x1b)B\x1b*<\x1b+<\x0f\x1b}");
    "syntax: ESC with a final of 40 to 5F is a C1 control: IND" b"\x1bD" "\n\n\n\n\n\n\n\n\n\n\n\n\n\n\n\n\n\n\n\n\n\n\n\n" b"" Some("\x1bc\x1b[2;1H\x1b[0m\x1b[0\"q\x1b(B\x1b)B\x1b*<\x1b+<\x0f\x1b}");
    "syntax: a control sequence without its end" b"\x1b[1" "\n\n\n\n\n\n\n\n\n\n\n\n\n\n\n\n\n\n\n\n\n\n\n\n" b"" None;
    "syntax: a marker that isn't first spoils a sequence" b"\x1b[5?5H" "\n\n\n\n\n\n\n\n\n\n\n\n\n\n\n\n\n\n\n\n\n\n\n\n" b"" Some("\x1bc\x1b[1;1H\x1b[0m\x1b[0\"q\x1b(B\x1b)B\x1b*<\x1b+<\x0f\x1b}");
    "syntax: a marker that isn't listed: no function" b"\x1b[?5;5H" "\n\n\n\n\n\n\n\n\n\n\n\n\n\n\n\n\n\n\n\n\n\n\n\n" b"" Some("\x1bc\x1b[1;1H\x1b[0m\x1b[0\"q\x1b(B\x1b)B\x1b*<\x1b+<\x0f\x1b}");
    "syntax: a line feed in a spoilt sequence is carried out all the same" b"\x1b[1:\n2H" "\n\n\n\n\n\n\n\n\n\n\n\n\n\n\n\n\n\n\n\n\n\n\n\n" b"" Some("\x1bc\x1b[2;1H\x1b[0m\x1b[0\"q\x1b(B\x1b)B\x1b*<\x1b+<\x0f\x1b}");
    "syntax: a line feed between ESC and the bracket is carried out" b"\x1b\n[5C" "\n\n\n\n\n\n\n\n\n\n\n\n\n\n\n\n\n\n\n\n\n\n\n\n" b"" Some("\x1bc\x1b[2;6H\x1b[0m\x1b[0\"q\x1b(B\x1b)B\x1b*<\x1b+<\x0f\x1b}");
    "syntax: no control in a device control string is carried out, and ST ends it" b"\x1bPq\x07\n\x8d\xffabc\x9cA" "A\n\n\n\n\n\n\n\n\n\n\n\n\n\n\n\n\n\n\n\n\n\n\n\n" b"" Some("\x1bc\x1b(B\x1b*<\x1b+0\x0f\x1b[1;1H\x1b[0m\x1b[0\"qA\x1b[1;2H\x1b[0m\x1b[0\"q\x1b(B\x1b)B\x1b*<\x1b+<\x0f\x1b}");
    "syntax: a privacy message is cut by ESC, which begins a sequence" b"\x9eabc\x1b[5CA" "     A\n\n\n\n\n\n\n\n\n\n\n\n\n\n\n\n\n\n\n\n\n\n\n\n" b"" Some("\x1bc\x1b(B\x1b*<\x1b+0\x0f\x1b[1;6H\x1b[0m\x1b[0\"qA\x1b[1;7H\x1b[0m\x1b[0\"q\x1b(B\x1b)B\x1b*<\x1b+<\x0f\x1b}");
    "syntax: SUB ends a string, and shows its glyph" b"\x98abc\x1aA" "␦A\n\n\n\n\n\n\n\n\n\n\n\n\n\n\n\n\n\n\n\n\n\n\n\n" b"" Some("\x1bc\x1b(B\x1b*<\x1b+0\x0f\x1b[1;1H\x1b[0m\x1b[0\"q\x1bN$A\x1b[1;3H\x1b[0m\x1b[0\"q\x1b(B\x1b)B\x1b*<\x1b+<\x0f\x1b}");
};

/// Returns the rows of a table.
fn syntax_2() -> &'static [Row]
    ensures count { length result.now ≡ 12 }
    ensures fit { AreFit result.now }
{
    SYNTAX_2_ROWS
}

const SYNTAX_3_ROWS: &[Row; 2] = rows! {
    "syntax: a DEL in a sequence is left out" b"\x1b[5\x7fCA" "     A\n\n\n\n\n\n\n\n\n\n\n\n\n\n\n\n\n\n\n\n\n\n\n\n" b"" Some("\x1bc\x1b(B\x1b*<\x1b+0\x0f\x1b[1;6H\x1b[0m\x1b[0\"qA\x1b[1;7H\x1b[0m\x1b[0\"q\x1b(B\x1b)B\x1b*<\x1b+<\x0f\x1b}");
    "syntax: an escape sequence with two intermediates: no function" b"\x1b(#0q\x1b#(0q" "qq\n\n\n\n\n\n\n\n\n\n\n\n\n\n\n\n\n\n\n\n\n\n\n\n" b"" Some("\x1bc\x1b(B\x1b*<\x1b+0\x0f\x1b[1;1H\x1b[0m\x1b[0\"qqq\x1b[1;3H\x1b[0m\x1b[0\"q\x1b(B\x1b)B\x1b*<\x1b+<\x0f\x1b}");
};

/// Returns the rows of a table.
fn syntax_3() -> &'static [Row]
    ensures count { length result.now ≡ 2 }
    ensures fit { AreFit result.now }
{
    SYNTAX_3_ROWS
}

const HELD_1_ROWS: &[Row; 12] = rows! {
    "held: ESC" b"\x1b" "\n\n\n\n\n\n\n\n\n\n\n\n\n\n\n\n\n\n\n\n\n\n\n\n" b"" None;
    "held: ESC, an intermediate, and BEL, which is carried out" b"\x1b(\x07" "\n\n\n\n\n\n\n\n\n\n\n\n\n\n\n\n\n\n\n\n\n\n\n\n" b"" None;
    "held: ESC and two intermediates" b"\x1b( " "\n\n\n\n\n\n\n\n\n\n\n\n\n\n\n\n\n\n\n\n\n\n\n\n" b"" None;
    "held: CSI" b"\x9b" "\n\n\n\n\n\n\n\n\n\n\n\n\n\n\n\n\n\n\n\n\n\n\n\n" b"" None;
    "held: CSI and a marker" b"\x9b?" "\n\n\n\n\n\n\n\n\n\n\n\n\n\n\n\n\n\n\n\n\n\n\n\n" b"" None;
    "held: CSI and two empty parameters" b"\x9b;" "\n\n\n\n\n\n\n\n\n\n\n\n\n\n\n\n\n\n\n\n\n\n\n\n" b"" None;
    "held: CSI, a parameter and an intermediate" b"\x9b1 " "\n\n\n\n\n\n\n\n\n\n\n\n\n\n\n\n\n\n\n\n\n\n\n\n" b"" None;
    "held: a parameter after an intermediate: spoilt" b"\x9b 1" "\n\n\n\n\n\n\n\n\n\n\n\n\n\n\n\n\n\n\n\n\n\n\n\n" b"" None;
    "held: a colon: spoilt" b"\x1b[1:" "\n\n\n\n\n\n\n\n\n\n\n\n\n\n\n\n\n\n\n\n\n\n\n\n" b"" None;
    "held: 16 empty parameters" b"\x9b;;;;;;;;;;;;;;;" "\n\n\n\n\n\n\n\n\n\n\n\n\n\n\n\n\n\n\n\n\n\n\n\n" b"" None;
    "held: 17 empty parameters" b"\x9b;;;;;;;;;;;;;;;;" "\n\n\n\n\n\n\n\n\n\n\n\n\n\n\n\n\n\n\n\n\n\n\n\n" b"" None;
    "held: a device control string" b"\x90A" "\n\n\n\n\n\n\n\n\n\n\n\n\n\n\n\n\n\n\n\n\n\n\n\n" b"" None;
};

/// Returns the rows of a table.
fn held_1() -> &'static [Row]
    ensures count { length result.now ≡ 12 }
    ensures fit { AreFit result.now }
{
    HELD_1_ROWS
}

const HELD_2_ROWS: &[Row; 2] = rows! {
    "held: an operating system command, with BEL before its letter" b"\x1b\x07]1" "\n\n\n\n\n\n\n\n\n\n\n\n\n\n\n\n\n\n\n\n\n\n\n\n" b"" None;
    "held: ESC ends a string and begins a sequence" b"\x9d1\x1b" "\n\n\n\n\n\n\n\n\n\n\n\n\n\n\n\n\n\n\n\n\n\n\n\n" b"" None;
};

/// Returns the rows of a table.
fn held_2() -> &'static [Row]
    ensures count { length result.now ≡ 2 }
    ensures fit { AreFit result.now }
{
    HELD_2_ROWS
}

const SETS_1_ROWS: &[Row; 12] = rows! {
    "sets: the British pound sign" b"\x1b(A#" "£\n\n\n\n\n\n\n\n\n\n\n\n\n\n\n\n\n\n\n\n\n\n\n\n" b"" Some("\x1bc\x1b(B\x1b*<\x1b+0\x0f\x1b[1;1H\x1b[0m\x1b[0\"q\x1bN#\x1b[1;2H\x1b[0m\x1b[0\"q\x1b(A\x1b)B\x1b*<\x1b+<\x0f\x1b}");
    "sets: the pound sign of Special Graphics" b"\x1b(0}" "£\n\n\n\n\n\n\n\n\n\n\n\n\n\n\n\n\n\n\n\n\n\n\n\n" b"" Some("\x1bc\x1b(B\x1b*<\x1b+0\x0f\x1b[1;1H\x1b[0m\x1b[0\"q\x1bN#\x1b[1;2H\x1b[0m\x1b[0\"q\x1b(0\x1b)B\x1b*<\x1b+<\x0f\x1b}");
    "sets: the pound sign of the Supplemental set" b"\xa3" "£\n\n\n\n\n\n\n\n\n\n\n\n\n\n\n\n\n\n\n\n\n\n\n\n" b"" Some("\x1bc\x1b(B\x1b*<\x1b+0\x0f\x1b[1;1H\x1b[0m\x1b[0\"q\x1bN#\x1b[1;2H\x1b[0m\x1b[0\"q\x1b(B\x1b)B\x1b*<\x1b+<\x0f\x1b}");
    "sets: a cell keeps nothing of its set: British, and back to ASCII" b"\x1b(A#\x1b(B" "£\n\n\n\n\n\n\n\n\n\n\n\n\n\n\n\n\n\n\n\n\n\n\n\n" b"" Some("\x1bc\x1b(B\x1b*<\x1b+0\x0f\x1b[1;1H\x1b[0m\x1b[0\"q\x1bN#\x1b[1;2H\x1b[0m\x1b[0\"q\x1b(B\x1b)B\x1b*<\x1b+<\x0f\x1b}");
    "sets: a cell keeps nothing of its set: Supplemental, and ASCII designated once more" b"\xa3\x1b(B" "£\n\n\n\n\n\n\n\n\n\n\n\n\n\n\n\n\n\n\n\n\n\n\n\n" b"" Some("\x1bc\x1b(B\x1b*<\x1b+0\x0f\x1b[1;1H\x1b[0m\x1b[0\"q\x1bN#\x1b[1;2H\x1b[0m\x1b[0\"q\x1b(B\x1b)B\x1b*<\x1b+<\x0f\x1b}");
    "sets: a cell keeps nothing of its set: Special Graphics, and back to ASCII" b"\x1b(0}\x1b(B" "£\n\n\n\n\n\n\n\n\n\n\n\n\n\n\n\n\n\n\n\n\n\n\n\n" b"" Some("\x1bc\x1b(B\x1b*<\x1b+0\x0f\x1b[1;1H\x1b[0m\x1b[0\"q\x1bN#\x1b[1;2H\x1b[0m\x1b[0\"q\x1b(B\x1b)B\x1b*<\x1b+<\x0f\x1b}");
    "sets: line drawing by G1" b"\x1b)0\x0elqk" "┌─┐\n\n\n\n\n\n\n\n\n\n\n\n\n\n\n\n\n\n\n\n\n\n\n\n" b"" Some("\x1bc\x1b(B\x1b*<\x1b+0\x0f\x1b[1;1H\x1b[0m\x1b[0\"q\x1bOl\x1bOq\x1bOk\x1b[1;4H\x1b[0m\x1b[0\"q\x1b(B\x1b)0\x1b*<\x1b+<\x0e\x1b}");
    "sets: a single shift is pending" b"\x1bN" "\n\n\n\n\n\n\n\n\n\n\n\n\n\n\n\n\n\n\n\n\n\n\n\n" b"" Some("\x1bc\x1b[1;1H\x1b[0m\x1b[0\"q\x1b(B\x1b)B\x1b*<\x1b+<\x0f\x1b}\x1bN");
    "sets: a locking shift of the right half" b"\x1b~\xe1" "a\n\n\n\n\n\n\n\n\n\n\n\n\n\n\n\n\n\n\n\n\n\n\n\n" b"" Some("\x1bc\x1b(B\x1b*<\x1b+0\x0f\x1b[1;1H\x1b[0m\x1b[0\"qa\x1b[1;2H\x1b[0m\x1b[0\"q\x1b(B\x1b)B\x1b*<\x1b+<\x0f\x1b~");
    "sets: a second single shift replaces the first" b"\x1b+0\x8e\x8fq" "─\n\n\n\n\n\n\n\n\n\n\n\n\n\n\n\n\n\n\n\n\n\n\n\n" b"" Some("\x1bc\x1b(B\x1b*<\x1b+0\x0f\x1b[1;1H\x1b[0m\x1b[0\"q\x1bOq\x1b[1;2H\x1b[0m\x1b[0\"q\x1b(B\x1b)B\x1b*<\x1b+0\x0f\x1b}");
    "sets: A0 and DEL leave a single shift" b"\x1b+0\x8f\xa0\x7fq" "─\n\n\n\n\n\n\n\n\n\n\n\n\n\n\n\n\n\n\n\n\n\n\n\n" b"" Some("\x1bc\x1b(B\x1b*<\x1b+0\x0f\x1b[1;1H\x1b[0m\x1b[0\"q\x1bOq\x1b[1;2H\x1b[0m\x1b[0\"q\x1b(B\x1b)B\x1b*<\x1b+0\x0f\x1b}");
    "sets: a space uses a single shift up" b"\x1b+0\x8f q" " q\n\n\n\n\n\n\n\n\n\n\n\n\n\n\n\n\n\n\n\n\n\n\n\n" b"" Some("\x1bc\x1b(B\x1b*<\x1b+0\x0f\x1b[1;2H\x1b[0m\x1b[0\"qq\x1b[1;3H\x1b[0m\x1b[0\"q\x1b(B\x1b)B\x1b*<\x1b+0\x0f\x1b}");
};

/// Returns the rows of a table.
fn sets_1() -> &'static [Row]
    ensures count { length result.now ≡ 12 }
    ensures fit { AreFit result.now }
{
    SETS_1_ROWS
}

const SETS_2_ROWS: &[Row; 12] = rows! {
    "sets: places of the Supplemental set that differ from Latin 1" b"\xa8\xd7\xdd\xf7\xfd" "¤ŒŸœÿ\n\n\n\n\n\n\n\n\n\n\n\n\n\n\n\n\n\n\n\n\n\n\n\n" b"" Some("\x1bc\x1b(B\x1b*<\x1b+0\x0f\x1b[1;1H\x1b[0m\x1b[0\"q\x1bN(\x1bNW\x1bN]\x1bNw\x1bN}\x1b[1;6H\x1b[0m\x1b[0\"q\x1b(B\x1b)B\x1b*<\x1b+<\x0f\x1b}");
    "sets: places of the Supplemental set that are undefined" b"\xa4\xfe" "␦␦\n\n\n\n\n\n\n\n\n\n\n\n\n\n\n\n\n\n\n\n\n\n\n\n" b"" Some("\x1bc\x1b(B\x1b*<\x1b+0\x0f\x1b[1;1H\x1b[0m\x1b[0\"q\x1bN$\x1bN$\x1b[1;3H\x1b[0m\x1b[0\"q\x1b(B\x1b)B\x1b*<\x1b+<\x0f\x1b}");
    "sets: the space and the bar of Special Graphics" b"\x1b(0_x" " │\n\n\n\n\n\n\n\n\n\n\n\n\n\n\n\n\n\n\n\n\n\n\n\n" b"" Some("\x1bc\x1b(B\x1b*<\x1b+0\x0f\x1b[1;2H\x1b[0m\x1b[0\"q\x1bOx\x1b[1;3H\x1b[0m\x1b[0\"q\x1b(0\x1b)B\x1b*<\x1b+<\x0f\x1b}");
    "sets: a final that names no set" b"\x1b(Z#" "#\n\n\n\n\n\n\n\n\n\n\n\n\n\n\n\n\n\n\n\n\n\n\n\n" b"" Some("\x1bc\x1b(B\x1b*<\x1b+0\x0f\x1b[1;1H\x1b[0m\x1b[0\"q#\x1b[1;2H\x1b[0m\x1b[0\"q\x1b(B\x1b)B\x1b*<\x1b+<\x0f\x1b}");
    "sets: the German set" b"\x1b(K@[\\]{|}~" "§ÄÖÜäöüß\n\n\n\n\n\n\n\n\n\n\n\n\n\n\n\n\n\n\n\n\n\n\n\n" b"" Some("\x1bc\x1b(B\x1b*<\x1b+0\x0f\x1b[1;1H\x1b[0m\x1b[0\"q\x1bN'\x1bND\x1bNV\x1bN\\\x1bNd\x1bNv\x1bN|\x1bN_\x1b[1;9H\x1b[0m\x1b[0\"q\x1b(K\x1b)B\x1b*<\x1b+<\x0f\x1b}");
    "sets: one letter of the German set" b"\x1b(K[" "Ä\n\n\n\n\n\n\n\n\n\n\n\n\n\n\n\n\n\n\n\n\n\n\n\n" b"" Some("\x1bc\x1b(B\x1b*<\x1b+0\x0f\x1b[1;1H\x1b[0m\x1b[0\"q\x1bND\x1b[1;2H\x1b[0m\x1b[0\"q\x1b(K\x1b)B\x1b*<\x1b+<\x0f\x1b}");
    "sets: German, and back to ASCII" b"\x1b(K[\x1b(B" "Ä\n\n\n\n\n\n\n\n\n\n\n\n\n\n\n\n\n\n\n\n\n\n\n\n" b"" Some("\x1bc\x1b(B\x1b*<\x1b+0\x0f\x1b[1;1H\x1b[0m\x1b[0\"q\x1bND\x1b[1;2H\x1b[0m\x1b[0\"q\x1b(B\x1b)B\x1b*<\x1b+<\x0f\x1b}");
    "sets: German in the right half" b"\x1b)K\x1b~\xdb" "Ä\n\n\n\n\n\n\n\n\n\n\n\n\n\n\n\n\n\n\n\n\n\n\n\n" b"" Some("\x1bc\x1b(B\x1b*<\x1b+0\x0f\x1b[1;1H\x1b[0m\x1b[0\"q\x1bND\x1b[1;2H\x1b[0m\x1b[0\"q\x1b(B\x1b)K\x1b*<\x1b+<\x0f\x1b~");
    "sets: German codes that are as in ASCII" b"\x1b(K$A" "$A\n\n\n\n\n\n\n\n\n\n\n\n\n\n\n\n\n\n\n\n\n\n\n\n" b"" Some("\x1bc\x1b(B\x1b*<\x1b+0\x0f\x1b[1;1H\x1b[0m\x1b[0\"q$A\x1b[1;3H\x1b[0m\x1b[0\"q\x1b(K\x1b)B\x1b*<\x1b+<\x0f\x1b}");
    "sets: a soft reset gives ASCII back, also in what is saved" b"\x1b(K\x1b7\x1b[!p[" "[\n\n\n\n\n\n\n\n\n\n\n\n\n\n\n\n\n\n\n\n\n\n\n\n" b"" Some("\x1bc\x1b(B\x1b*<\x1b+0\x0f\x1b[1;1H\x1b[0m\x1b[0\"q[\x1b[1;2H\x1b[0m\x1b[0\"q\x1b(B\x1b)B\x1b*<\x1b+<\x0f\x1b}\x1b[?7l");
    "sets: SUB leaves a single shift" b"\x1b+0\x8f\x1aq" "␦─\n\n\n\n\n\n\n\n\n\n\n\n\n\n\n\n\n\n\n\n\n\n\n\n" b"" Some("\x1bc\x1b(B\x1b*<\x1b+0\x0f\x1b[1;1H\x1b[0m\x1b[0\"q\x1bN$\x1bOq\x1b[1;3H\x1b[0m\x1b[0\"q\x1b(B\x1b)B\x1b*<\x1b+0\x0f\x1b}");
    "sets: a shift in after a shift out" b"\x1b)0\x0eq\x0fq" "─q\n\n\n\n\n\n\n\n\n\n\n\n\n\n\n\n\n\n\n\n\n\n\n\n" b"" Some("\x1bc\x1b(B\x1b*<\x1b+0\x0f\x1b[1;1H\x1b[0m\x1b[0\"q\x1bOqq\x1b[1;3H\x1b[0m\x1b[0\"q\x1b(B\x1b)0\x1b*<\x1b+<\x0f\x1b}");
};

/// Returns the rows of a table.
fn sets_2() -> &'static [Row]
    ensures count { length result.now ≡ 12 }
    ensures fit { AreFit result.now }
{
    SETS_2_ROWS
}

const SETS_3_ROWS: &[Row; 1] = rows! {
    "sets: each locking shift of G2, G3, and of the right half" b"\x1b)0\x1b+K\x1bn)\x1bo[\x1b~\xf1\x1b|\xfe" "©Ä─ß\n\n\n\n\n\n\n\n\n\n\n\n\n\n\n\n\n\n\n\n\n\n\n\n" b"" Some("\x1bc\x1b(B\x1b*<\x1b+0\x0f\x1b[1;1H\x1b[0m\x1b[0\"q\x1bN)\x1bND\x1bOq\x1bN_\x1b[1;5H\x1b[0m\x1b[0\"q\x1b(B\x1b)0\x1b*<\x1b+K\x1bo\x1b|");
};

/// Returns the rows of a table.
fn sets_3() -> &'static [Row]
    ensures count { length result.now ≡ 1 }
    ensures fit { AreFit result.now }
{
    SETS_3_ROWS
}

const ATTRIBUTES_1_ROWS: &[Row; 12] = rows! {
    "attributes: a 17th parameter is dropped" b"\x1b[0;0;0;0;0;0;0;0;0;0;0;0;0;0;0;0;7mX" "X\n\n\n\n\n\n\n\n\n\n\n\n\n\n\n\n\n\n\n\n\n\n\n\n" b"" Some("\x1bc\x1b(B\x1b*<\x1b+0\x0f\x1b[1;1H\x1b[0m\x1b[0\"qX\x1b[1;2H\x1b[0m\x1b[0\"q\x1b(B\x1b)B\x1b*<\x1b+<\x0f\x1b}");
    "attributes: a 16th parameter is kept: reverse" b"\x1b[0;0;0;0;0;0;0;0;0;0;0;0;0;0;0;7mX" "X\n\n\n\n\n\n\n\n\n\n\n\n\n\n\n\n\n\n\n\n\n\n\n\n" b"" Some("\x1bc\x1b(B\x1b*<\x1b+0\x0f\x1b[1;1H\x1b[0;7m\x1b[0\"qX\x1b[1;2H\x1b[0;7m\x1b[0\"q\x1b(B\x1b)B\x1b*<\x1b+<\x0f\x1b}");
    "attributes: a colour is read as attributes: bold and blink" b"\x1b[38;5;1mX" "X\n\n\n\n\n\n\n\n\n\n\n\n\n\n\n\n\n\n\n\n\n\n\n\n" b"" Some("\x1bc\x1b(B\x1b*<\x1b+0\x0f\x1b[1;1H\x1b[0;1;5m\x1b[0\"qX\x1b[1;2H\x1b[0;1;5m\x1b[0\"q\x1b(B\x1b)B\x1b*<\x1b+<\x0f\x1b}");
    "attributes: a selective erase of the line leaves protected cells" b"\x1b[1\"qAB\x1b[0\"qC\x1b[1;1H\x1b[?K" "AB\n\n\n\n\n\n\n\n\n\n\n\n\n\n\n\n\n\n\n\n\n\n\n\n" b"" Some("\x1bc\x1b(B\x1b*<\x1b+0\x0f\x1b[1;1H\x1b[0m\x1b[1\"qAB\x1b[1;1H\x1b[0m\x1b[0\"q\x1b(B\x1b)B\x1b*<\x1b+<\x0f\x1b}");
    "attributes: a selective erase of the screen leaves attributes: a space in reverse" b"\x1b[7mA\x1b[1;1H\x1b[?2J" "\n\n\n\n\n\n\n\n\n\n\n\n\n\n\n\n\n\n\n\n\n\n\n\n" b"" Some("\x1bc\x1b(B\x1b*<\x1b+0\x0f\x1b[1;1H\x1b[0;7m\x1b[0\"q \x1b[1;1H\x1b[0;7m\x1b[0\"q\x1b(B\x1b)B\x1b*<\x1b+<\x0f\x1b}");
    "attributes: an erase of the screen leaves blank cells" b"\x1b[7mA\x1b[1;1H\x1b[2J" "\n\n\n\n\n\n\n\n\n\n\n\n\n\n\n\n\n\n\n\n\n\n\n\n" b"" Some("\x1bc\x1b[1;1H\x1b[0;7m\x1b[0\"q\x1b(B\x1b)B\x1b*<\x1b+<\x0f\x1b}");
    "attributes: 1 sets bold" b"\x1b[1mA" "A\n\n\n\n\n\n\n\n\n\n\n\n\n\n\n\n\n\n\n\n\n\n\n\n" b"" Some("\x1bc\x1b(B\x1b*<\x1b+0\x0f\x1b[1;1H\x1b[0;1m\x1b[0\"qA\x1b[1;2H\x1b[0;1m\x1b[0\"q\x1b(B\x1b)B\x1b*<\x1b+<\x0f\x1b}");
    "attributes: 4 sets underline" b"\x1b[4mA" "A\n\n\n\n\n\n\n\n\n\n\n\n\n\n\n\n\n\n\n\n\n\n\n\n" b"" Some("\x1bc\x1b(B\x1b*<\x1b+0\x0f\x1b[1;1H\x1b[0;4m\x1b[0\"qA\x1b[1;2H\x1b[0;4m\x1b[0\"q\x1b(B\x1b)B\x1b*<\x1b+<\x0f\x1b}");
    "attributes: 5 sets blink" b"\x1b[5mA" "A\n\n\n\n\n\n\n\n\n\n\n\n\n\n\n\n\n\n\n\n\n\n\n\n" b"" Some("\x1bc\x1b(B\x1b*<\x1b+0\x0f\x1b[1;1H\x1b[0;5m\x1b[0\"qA\x1b[1;2H\x1b[0;5m\x1b[0\"q\x1b(B\x1b)B\x1b*<\x1b+<\x0f\x1b}");
    "attributes: 22 resets bold alone" b"\x1b[1;4;5;7m\x1b[22mA" "A\n\n\n\n\n\n\n\n\n\n\n\n\n\n\n\n\n\n\n\n\n\n\n\n" b"" Some("\x1bc\x1b(B\x1b*<\x1b+0\x0f\x1b[1;1H\x1b[0;4;5;7m\x1b[0\"qA\x1b[1;2H\x1b[0;4;5;7m\x1b[0\"q\x1b(B\x1b)B\x1b*<\x1b+<\x0f\x1b}");
    "attributes: 24 resets underline alone" b"\x1b[1;4;5;7m\x1b[24mA" "A\n\n\n\n\n\n\n\n\n\n\n\n\n\n\n\n\n\n\n\n\n\n\n\n" b"" Some("\x1bc\x1b(B\x1b*<\x1b+0\x0f\x1b[1;1H\x1b[0;1;5;7m\x1b[0\"qA\x1b[1;2H\x1b[0;1;5;7m\x1b[0\"q\x1b(B\x1b)B\x1b*<\x1b+<\x0f\x1b}");
    "attributes: 25 resets blink alone" b"\x1b[1;4;5;7m\x1b[25mA" "A\n\n\n\n\n\n\n\n\n\n\n\n\n\n\n\n\n\n\n\n\n\n\n\n" b"" Some("\x1bc\x1b(B\x1b*<\x1b+0\x0f\x1b[1;1H\x1b[0;1;4;7m\x1b[0\"qA\x1b[1;2H\x1b[0;1;4;7m\x1b[0\"q\x1b(B\x1b)B\x1b*<\x1b+<\x0f\x1b}");
};

/// Returns the rows of a table.
fn attributes_1() -> &'static [Row]
    ensures count { length result.now ≡ 12 }
    ensures fit { AreFit result.now }
{
    ATTRIBUTES_1_ROWS
}

const ATTRIBUTES_2_ROWS: &[Row; 5] = rows! {
    "attributes: 27 resets reverse alone" b"\x1b[1;4;5;7m\x1b[27mA" "A\n\n\n\n\n\n\n\n\n\n\n\n\n\n\n\n\n\n\n\n\n\n\n\n" b"" Some("\x1bc\x1b(B\x1b*<\x1b+0\x0f\x1b[1;1H\x1b[0;1;4;5m\x1b[0\"qA\x1b[1;2H\x1b[0;1;4;5m\x1b[0\"q\x1b(B\x1b)B\x1b*<\x1b+<\x0f\x1b}");
    "attributes: a selective erase up to the cursor leaves protected cells" b"\x1b[1\"qA\x1b[0\"qBC\x1b[1;2H\x1b[?1K" "A C\n\n\n\n\n\n\n\n\n\n\n\n\n\n\n\n\n\n\n\n\n\n\n\n" b"" Some("\x1bc\x1b(B\x1b*<\x1b+0\x0f\x1b[1;1H\x1b[0m\x1b[1\"qA\x1b[1;3H\x1b[0m\x1b[0\"qC\x1b[1;2H\x1b[0m\x1b[0\"q\x1b(B\x1b)B\x1b*<\x1b+<\x0f\x1b}");
    "attributes: 2 ends the protection as 0 does" b"\x1b[1\"qA\x1b[2\"qB\x1b[1;1H\x1b[?J" "A\n\n\n\n\n\n\n\n\n\n\n\n\n\n\n\n\n\n\n\n\n\n\n\n" b"" Some("\x1bc\x1b(B\x1b*<\x1b+0\x0f\x1b[1;1H\x1b[0m\x1b[1\"qA\x1b[1;1H\x1b[0m\x1b[0\"q\x1b(B\x1b)B\x1b*<\x1b+<\x0f\x1b}");
    "attributes: several in one sequence, in their order" b"\x1b[1;4;0;5;7;25mA" "A\n\n\n\n\n\n\n\n\n\n\n\n\n\n\n\n\n\n\n\n\n\n\n\n" b"" Some("\x1bc\x1b(B\x1b*<\x1b+0\x0f\x1b[1;1H\x1b[0;7m\x1b[0\"qA\x1b[1;2H\x1b[0;7m\x1b[0\"q\x1b(B\x1b)B\x1b*<\x1b+<\x0f\x1b}");
    "attributes: ECH erases protected cells" b"\x1b[1\"qABC\x1b[0\"qD\r\x1b[2X" "  CD\n\n\n\n\n\n\n\n\n\n\n\n\n\n\n\n\n\n\n\n\n\n\n\n" b"" Some("\x1bc\x1b(B\x1b*<\x1b+0\x0f\x1b[1;3H\x1b[0m\x1b[1\"qC\x1b[1;4H\x1b[0m\x1b[0\"qD\x1b[1;1H\x1b[0m\x1b[0\"q\x1b(B\x1b)B\x1b*<\x1b+<\x0f\x1b}");
};

/// Returns the rows of a table.
fn attributes_2() -> &'static [Row]
    ensures count { length result.now ≡ 5 }
    ensures fit { AreFit result.now }
{
    ATTRIBUTES_2_ROWS
}

const EDITING_1_ROWS: &[Row; 12] = rows! {
    "editing: a cell is erased" b"ABC\x1b[1;2H\x1b[X" "A C\n\n\n\n\n\n\n\n\n\n\n\n\n\n\n\n\n\n\n\n\n\n\n\n" b"" Some("\x1bc\x1b(B\x1b*<\x1b+0\x0f\x1b[1;1H\x1b[0m\x1b[0\"qA\x1b[1;3H\x1b[0m\x1b[0\"qC\x1b[1;2H\x1b[0m\x1b[0\"q\x1b(B\x1b)B\x1b*<\x1b+<\x0f\x1b}");
    "editing: two cells are inserted" b"ABC\x1b[1;2H\x1b[2@" "A  BC\n\n\n\n\n\n\n\n\n\n\n\n\n\n\n\n\n\n\n\n\n\n\n\n" b"" Some("\x1bc\x1b(B\x1b*<\x1b+0\x0f\x1b[1;1H\x1b[0m\x1b[0\"qA\x1b[1;4H\x1b[0m\x1b[0\"qBC\x1b[1;2H\x1b[0m\x1b[0\"q\x1b(B\x1b)B\x1b*<\x1b+<\x0f\x1b}");
    "editing: more cells are inserted than the line has" b"ABC\x1b[1;2H\x1b[9999@" "A\n\n\n\n\n\n\n\n\n\n\n\n\n\n\n\n\n\n\n\n\n\n\n\n" b"" Some("\x1bc\x1b(B\x1b*<\x1b+0\x0f\x1b[1;1H\x1b[0m\x1b[0\"qA\x1b[1;2H\x1b[0m\x1b[0\"q\x1b(B\x1b)B\x1b*<\x1b+<\x0f\x1b}");
    "editing: a cell is deleted" b"ABC\x1b[1;2H\x1b[P" "AC\n\n\n\n\n\n\n\n\n\n\n\n\n\n\n\n\n\n\n\n\n\n\n\n" b"" Some("\x1bc\x1b(B\x1b*<\x1b+0\x0f\x1b[1;1H\x1b[0m\x1b[0\"qAC\x1b[1;2H\x1b[0m\x1b[0\"q\x1b(B\x1b)B\x1b*<\x1b+<\x0f\x1b}");
    "editing: a line is inserted" b"A\r\nB\r\nC\x1b[2;1H\x1b[L" "A\n\nB\nC\n\n\n\n\n\n\n\n\n\n\n\n\n\n\n\n\n\n\n\n\n" b"" Some("\x1bc\x1b(B\x1b*<\x1b+0\x0f\x1b[1;1H\x1b[0m\x1b[0\"qA\x1b[3;1H\x1b[0m\x1b[0\"qB\x1b[4;1H\x1b[0m\x1b[0\"qC\x1b[2;1H\x1b[0m\x1b[0\"q\x1b(B\x1b)B\x1b*<\x1b+<\x0f\x1b}");
    "editing: more lines are deleted than there are" b"A\r\nB\r\nC\x1b[2;1H\x1b[99M" "A\n\n\n\n\n\n\n\n\n\n\n\n\n\n\n\n\n\n\n\n\n\n\n\n" b"" Some("\x1bc\x1b(B\x1b*<\x1b+0\x0f\x1b[1;1H\x1b[0m\x1b[0\"qA\x1b[2;1H\x1b[0m\x1b[0\"q\x1b(B\x1b)B\x1b*<\x1b+<\x0f\x1b}");
    "editing: a line is inserted, and then all are deleted" b"A\r\nB\r\nC\x1b[2;1H\x1b[L\x1b[99M" "A\n\n\n\n\n\n\n\n\n\n\n\n\n\n\n\n\n\n\n\n\n\n\n\n" b"" Some("\x1bc\x1b(B\x1b*<\x1b+0\x0f\x1b[1;1H\x1b[0m\x1b[0\"qA\x1b[2;1H\x1b[0m\x1b[0\"q\x1b(B\x1b)B\x1b*<\x1b+<\x0f\x1b}");
    "editing: an erase resets the wrap flag" b"xxxxxxxxxxxxxxxxxxxxxxxxxxxxxxxxxxxxxxxxxxxxxxxxxxxxxxxxxxxxxxxxxxxxxxxxxxxxxxxx\x1b[Xy" "xxxxxxxxxxxxxxxxxxxxxxxxxxxxxxxxxxxxxxxxxxxxxxxxxxxxxxxxxxxxxxxxxxxxxxxxxxxxxxxy\n\n\n\n\n\n\n\n\n\n\n\n\n\n\n\n\n\n\n\n\n\n\n\n" b"" Some("\x1bc\x1b(B\x1b*<\x1b+0\x0f\x1b[1;1H\x1b[0m\x1b[0\"qxxxxxxxxxxxxxxxxxxxxxxxxxxxxxxxxxxxxxxxxxxxxxxxxxxxxxxxxxxxxxxxxxxxxxxxxxxxxxxxy\x1b[1;80H\x1b[0m\x1b[0\"qy\x1b[0m\x1b[0\"q\x1b(B\x1b)B\x1b*<\x1b+<\x0f\x1b}");
    "editing: an erase of a value that isn't listed leaves the wrap flag" b"xxxxxxxxxxxxxxxxxxxxxxxxxxxxxxxxxxxxxxxxxxxxxxxxxxxxxxxxxxxxxxxxxxxxxxxxxxxxxxxx\x1b[3Jy" "xxxxxxxxxxxxxxxxxxxxxxxxxxxxxxxxxxxxxxxxxxxxxxxxxxxxxxxxxxxxxxxxxxxxxxxxxxxxxxxx\ny\n\n\n\n\n\n\n\n\n\n\n\n\n\n\n\n\n\n\n\n\n\n\n" b"" Some("\x1bc\x1b(B\x1b*<\x1b+0\x0f\x1b[1;1H\x1b[0m\x1b[0\"qxxxxxxxxxxxxxxxxxxxxxxxxxxxxxxxxxxxxxxxxxxxxxxxxxxxxxxxxxxxxxxxxxxxxxxxxxxxxxxxx\x1b[2;1H\x1b[0m\x1b[0\"qy\x1b[2;2H\x1b[0m\x1b[0\"q\x1b(B\x1b)B\x1b*<\x1b+<\x0f\x1b}");
    "editing: a line is inserted inside the margins: the line below them stays, the last inside is lost" b"A\x1bEB\x1bEC\x1b[2;3r\x1b[2;1H\x1b[L" "A\n\nB\n\n\n\n\n\n\n\n\n\n\n\n\n\n\n\n\n\n\n\n\n\n" b"" Some("\x1bc\x1b(B\x1b*<\x1b+0\x0f\x1b[1;1H\x1b[0m\x1b[0\"qA\x1b[3;1H\x1b[0m\x1b[0\"qB\x1b[2;3r\x1b[2;1H\x1b[0m\x1b[0\"q\x1b(B\x1b)B\x1b*<\x1b+<\x0f\x1b}");
    "editing: a line inserted above the margins moves nothing" b"A\x1bEB\x1bEC\x1b[2;3r\x1b[1;1H\x1b[L" "A\nB\nC\n\n\n\n\n\n\n\n\n\n\n\n\n\n\n\n\n\n\n\n\n\n" b"" Some("\x1bc\x1b(B\x1b*<\x1b+0\x0f\x1b[1;1H\x1b[0m\x1b[0\"qA\x1b[2;1H\x1b[0m\x1b[0\"qB\x1b[3;1H\x1b[0m\x1b[0\"qC\x1b[2;3r\x1b[1;1H\x1b[0m\x1b[0\"q\x1b(B\x1b)B\x1b*<\x1b+<\x0f\x1b}");
    "editing: a line inserted below the margins moves nothing" b"A\x1bEB\x1bEC\x1b[2;3r\x1b[4;1H\x1b[L" "A\nB\nC\n\n\n\n\n\n\n\n\n\n\n\n\n\n\n\n\n\n\n\n\n\n" b"" Some("\x1bc\x1b(B\x1b*<\x1b+0\x0f\x1b[1;1H\x1b[0m\x1b[0\"qA\x1b[2;1H\x1b[0m\x1b[0\"qB\x1b[3;1H\x1b[0m\x1b[0\"qC\x1b[2;3r\x1b[4;1H\x1b[0m\x1b[0\"q\x1b(B\x1b)B\x1b*<\x1b+<\x0f\x1b}");
};

/// Returns the rows of a table.
fn editing_1() -> &'static [Row]
    ensures count { length result.now ≡ 12 }
    ensures fit { AreFit result.now }
{
    EDITING_1_ROWS
}

const EDITING_2_ROWS: &[Row; 12] = rows! {
    "editing: a line inserted outside the margins resets the wrap flag" b"\x1b[2;3rxxxxxxxxxxxxxxxxxxxxxxxxxxxxxxxxxxxxxxxxxxxxxxxxxxxxxxxxxxxxxxxxxxxxxxxxxxxxxxxx\x1b[L" "xxxxxxxxxxxxxxxxxxxxxxxxxxxxxxxxxxxxxxxxxxxxxxxxxxxxxxxxxxxxxxxxxxxxxxxxxxxxxxxx\n\n\n\n\n\n\n\n\n\n\n\n\n\n\n\n\n\n\n\n\n\n\n\n" b"" Some("\x1bc\x1b(B\x1b*<\x1b+0\x0f\x1b[1;1H\x1b[0m\x1b[0\"qxxxxxxxxxxxxxxxxxxxxxxxxxxxxxxxxxxxxxxxxxxxxxxxxxxxxxxxxxxxxxxxxxxxxxxxxxxxxxxxx\x1b[2;3r\x1b[1;80H\x1b[0m\x1b[0\"q\x1b(B\x1b)B\x1b*<\x1b+<\x0f\x1b}");
    "editing: a line deleted outside the margins resets the wrap flag" b"\x1b[2;3rxxxxxxxxxxxxxxxxxxxxxxxxxxxxxxxxxxxxxxxxxxxxxxxxxxxxxxxxxxxxxxxxxxxxxxxxxxxxxxxx\x1b[M" "xxxxxxxxxxxxxxxxxxxxxxxxxxxxxxxxxxxxxxxxxxxxxxxxxxxxxxxxxxxxxxxxxxxxxxxxxxxxxxxx\n\n\n\n\n\n\n\n\n\n\n\n\n\n\n\n\n\n\n\n\n\n\n\n" b"" Some("\x1bc\x1b(B\x1b*<\x1b+0\x0f\x1b[1;1H\x1b[0m\x1b[0\"qxxxxxxxxxxxxxxxxxxxxxxxxxxxxxxxxxxxxxxxxxxxxxxxxxxxxxxxxxxxxxxxxxxxxxxxxxxxxxxxx\x1b[2;3r\x1b[1;80H\x1b[0m\x1b[0\"q\x1b(B\x1b)B\x1b*<\x1b+<\x0f\x1b}");
    "editing: a line is inserted: the cursor goes to column 1" b"A\x1b[2;5H\x1b[LX" "A\nX\n\n\n\n\n\n\n\n\n\n\n\n\n\n\n\n\n\n\n\n\n\n\n" b"" Some("\x1bc\x1b(B\x1b*<\x1b+0\x0f\x1b[1;1H\x1b[0m\x1b[0\"qA\x1b[2;1H\x1b[0m\x1b[0\"qX\x1b[2;2H\x1b[0m\x1b[0\"q\x1b(B\x1b)B\x1b*<\x1b+<\x0f\x1b}");
    "editing: a line is deleted: the cursor goes to column 1" b"A\x1b[2;5H\x1b[MX" "A\nX\n\n\n\n\n\n\n\n\n\n\n\n\n\n\n\n\n\n\n\n\n\n\n" b"" Some("\x1bc\x1b(B\x1b*<\x1b+0\x0f\x1b[1;1H\x1b[0m\x1b[0\"qA\x1b[2;1H\x1b[0m\x1b[0\"qX\x1b[2;2H\x1b[0m\x1b[0\"q\x1b(B\x1b)B\x1b*<\x1b+<\x0f\x1b}");
    "editing: an erase of the screen from the cursor on" b"ABC\r\nDEF\r\nGHI\x1b[2;2H\x1b[J" "ABC\nD\n\n\n\n\n\n\n\n\n\n\n\n\n\n\n\n\n\n\n\n\n\n\n" b"" Some("\x1bc\x1b(B\x1b*<\x1b+0\x0f\x1b[1;1H\x1b[0m\x1b[0\"qABC\x1b[2;1H\x1b[0m\x1b[0\"qD\x1b[2;2H\x1b[0m\x1b[0\"q\x1b(B\x1b)B\x1b*<\x1b+<\x0f\x1b}");
    "editing: an erase of the screen up to the cursor, and with it" b"ABC\r\nDEF\r\nGHI\x1b[2;2H\x1b[1J" "\n  F\nGHI\n\n\n\n\n\n\n\n\n\n\n\n\n\n\n\n\n\n\n\n\n\n" b"" Some("\x1bc\x1b(B\x1b*<\x1b+0\x0f\x1b[2;3H\x1b[0m\x1b[0\"qF\x1b[3;1H\x1b[0m\x1b[0\"qGHI\x1b[2;2H\x1b[0m\x1b[0\"q\x1b(B\x1b)B\x1b*<\x1b+<\x0f\x1b}");
    "editing: an erase of the line from the cursor on" b"ABC\x1b[1;2H\x1b[K" "A\n\n\n\n\n\n\n\n\n\n\n\n\n\n\n\n\n\n\n\n\n\n\n\n" b"" Some("\x1bc\x1b(B\x1b*<\x1b+0\x0f\x1b[1;1H\x1b[0m\x1b[0\"qA\x1b[1;2H\x1b[0m\x1b[0\"q\x1b(B\x1b)B\x1b*<\x1b+<\x0f\x1b}");
    "editing: an erase of the line up to the cursor, and with it" b"ABC\x1b[1;2H\x1b[1K" "  C\n\n\n\n\n\n\n\n\n\n\n\n\n\n\n\n\n\n\n\n\n\n\n\n" b"" Some("\x1bc\x1b(B\x1b*<\x1b+0\x0f\x1b[1;3H\x1b[0m\x1b[0\"qC\x1b[1;2H\x1b[0m\x1b[0\"q\x1b(B\x1b)B\x1b*<\x1b+<\x0f\x1b}");
    "editing: an erase of the whole line" b"A\r\nBC\x1b[2K" "A\n\n\n\n\n\n\n\n\n\n\n\n\n\n\n\n\n\n\n\n\n\n\n\n" b"" Some("\x1bc\x1b(B\x1b*<\x1b+0\x0f\x1b[1;1H\x1b[0m\x1b[0\"qA\x1b[2;3H\x1b[0m\x1b[0\"q\x1b(B\x1b)B\x1b*<\x1b+<\x0f\x1b}");
    "editing: a line is deleted inside the margins: the line below them stays" b"A\r\nB\r\nC\x1b[1;2r\x1b[M" "B\n\nC\n\n\n\n\n\n\n\n\n\n\n\n\n\n\n\n\n\n\n\n\n\n" b"" Some("\x1bc\x1b(B\x1b*<\x1b+0\x0f\x1b[1;1H\x1b[0m\x1b[0\"qB\x1b[3;1H\x1b[0m\x1b[0\"qC\x1b[1;2r\x1b[1;1H\x1b[0m\x1b[0\"q\x1b(B\x1b)B\x1b*<\x1b+<\x0f\x1b}");
    "editing: more cells are erased than the line has" b"ABC\r\nD\x1b[1;2H\x1b[99X" "A\nD\n\n\n\n\n\n\n\n\n\n\n\n\n\n\n\n\n\n\n\n\n\n\n" b"" Some("\x1bc\x1b(B\x1b*<\x1b+0\x0f\x1b[1;1H\x1b[0m\x1b[0\"qA\x1b[2;1H\x1b[0m\x1b[0\"qD\x1b[1;2H\x1b[0m\x1b[0\"q\x1b(B\x1b)B\x1b*<\x1b+<\x0f\x1b}");
    "editing: cells that are inserted are blank, whatever the attributes are" b"\x1b[7mAB\r\x1b[@" " AB\n\n\n\n\n\n\n\n\n\n\n\n\n\n\n\n\n\n\n\n\n\n\n\n" b"" Some("\x1bc\x1b(B\x1b*<\x1b+0\x0f\x1b[1;2H\x1b[0;7m\x1b[0\"qAB\x1b[1;1H\x1b[0;7m\x1b[0\"q\x1b(B\x1b)B\x1b*<\x1b+<\x0f\x1b}");
};

/// Returns the rows of a table.
fn editing_2() -> &'static [Row]
    ensures count { length result.now ≡ 12 }
    ensures fit { AreFit result.now }
{
    EDITING_2_ROWS
}

const CURSOR_1_ROWS: &[Row; 12] = rows! {
    "cursor: under origin mode the cursor stays inside the margins, and its report counts from them" b"\x1b[5;10r\x1b[?6h\x1b[99;99H\x1b[6n" "\n\n\n\n\n\n\n\n\n\n\n\n\n\n\n\n\n\n\n\n\n\n\n\n" b"\x1b[6;80R" Some("\x1bc\x1b[5;10r\x1b[?6h\x1b[6;80H\x1b[0m\x1b[0\"q\x1b(B\x1b)B\x1b*<\x1b+<\x0f\x1b}");
    "cursor: a place saved under full margins is restored into narrower ones" b"\x1b[?6h\x1b[20;3H\x1b7\x1b[2;5r\x1b8" "\n\n\n\n\n\n\n\n\n\n\n\n\n\n\n\n\n\n\n\n\n\n\n\n" b"" Some("\x1bc\x1b[?6h\x1b[20;3H\x1b[0m\x1b[0\"q\x1b(B\x1b)B\x1b*<\x1b+<\x0f\x1b}\x1b7\x1b[?6l\x1b[2;5r\x1b[?6h\x1b[4;3H\x1b[0m\x1b[0\"q\x1b(B\x1b)B\x1b*<\x1b+<\x0f\x1b}");
    "cursor: a repaint that is played is its own repaint" b"\x1bc\x1b[?6h\x1b[20;3H\x1b[0m\x1b[0\"q\x1b(B\x1b)B\x1b*<\x1b+<\x0f\x1b}\x1b7\x1b[?6l\x1b[2;5r\x1b[?6h\x1b[4;3H\x1b[0m\x1b[0\"q\x1b(B\x1b)B\x1b*<\x1b+<\x0f\x1b}" "\n\n\n\n\n\n\n\n\n\n\n\n\n\n\n\n\n\n\n\n\n\n\n\n" b"" Some("\x1bc\x1b[?6h\x1b[20;3H\x1b[0m\x1b[0\"q\x1b(B\x1b)B\x1b*<\x1b+<\x0f\x1b}\x1b7\x1b[?6l\x1b[2;5r\x1b[?6h\x1b[4;3H\x1b[0m\x1b[0\"q\x1b(B\x1b)B\x1b*<\x1b+<\x0f\x1b}");
    "cursor: no stop but one" b"\x1b[3g\x1b[1;5H\x1bH" "\n\n\n\n\n\n\n\n\n\n\n\n\n\n\n\n\n\n\n\n\n\n\n\n" b"" Some("\x1bc\x1b[?3h\x1b[3g\x1b[1;5H\x1bH\x1b[?3l\x1b[1;5H\x1b[0m\x1b[0\"q\x1b(B\x1b)B\x1b*<\x1b+<\x0f\x1b}");
    "cursor: the wrap flag is saved" b"xxxxxxxxxxxxxxxxxxxxxxxxxxxxxxxxxxxxxxxxxxxxxxxxxxxxxxxxxxxxxxxxxxxxxxxxxxxxxxxx\x1b7" "xxxxxxxxxxxxxxxxxxxxxxxxxxxxxxxxxxxxxxxxxxxxxxxxxxxxxxxxxxxxxxxxxxxxxxxxxxxxxxxx\n\n\n\n\n\n\n\n\n\n\n\n\n\n\n\n\n\n\n\n\n\n\n\n" b"" Some("\x1bc\x1b[1;80H \x1b[0m\x1b[0\"q\x1b(B\x1b)B\x1b*<\x1b+<\x0f\x1b}\x1b7\x1b(B\x1b*<\x1b+0\x0f\x1b[1;1H\x1b[0m\x1b[0\"qxxxxxxxxxxxxxxxxxxxxxxxxxxxxxxxxxxxxxxxxxxxxxxxxxxxxxxxxxxxxxxxxxxxxxxxxxxxxxxxx\x1b[1;80H\x1b[0m\x1b[0\"qx\x1b[0m\x1b[0\"q\x1b(B\x1b)B\x1b*<\x1b+<\x0f\x1b}");
    "cursor: the wrap flag is restored: the next glyph wraps" b"xxxxxxxxxxxxxxxxxxxxxxxxxxxxxxxxxxxxxxxxxxxxxxxxxxxxxxxxxxxxxxxxxxxxxxxxxxxxxxxx\x1b7\r\x1b8y" "xxxxxxxxxxxxxxxxxxxxxxxxxxxxxxxxxxxxxxxxxxxxxxxxxxxxxxxxxxxxxxxxxxxxxxxxxxxxxxxx\ny\n\n\n\n\n\n\n\n\n\n\n\n\n\n\n\n\n\n\n\n\n\n\n" b"" Some("\x1bc\x1b[1;80H \x1b[0m\x1b[0\"q\x1b(B\x1b)B\x1b*<\x1b+<\x0f\x1b}\x1b7\x1b(B\x1b*<\x1b+0\x0f\x1b[1;1H\x1b[0m\x1b[0\"qxxxxxxxxxxxxxxxxxxxxxxxxxxxxxxxxxxxxxxxxxxxxxxxxxxxxxxxxxxxxxxxxxxxxxxxxxxxxxxxx\x1b[2;1H\x1b[0m\x1b[0\"qy\x1b[2;2H\x1b[0m\x1b[0\"q\x1b(B\x1b)B\x1b*<\x1b+<\x0f\x1b}");
    "cursor: the wrap flag is not restored without DECAWM" b"xxxxxxxxxxxxxxxxxxxxxxxxxxxxxxxxxxxxxxxxxxxxxxxxxxxxxxxxxxxxxxxxxxxxxxxxxxxxxxxx\x1b7\x1b[?7l\x1b8" "xxxxxxxxxxxxxxxxxxxxxxxxxxxxxxxxxxxxxxxxxxxxxxxxxxxxxxxxxxxxxxxxxxxxxxxxxxxxxxxx\n\n\n\n\n\n\n\n\n\n\n\n\n\n\n\n\n\n\n\n\n\n\n\n" b"" Some("\x1bc\x1b[1;80H \x1b[0m\x1b[0\"q\x1b(B\x1b)B\x1b*<\x1b+<\x0f\x1b}\x1b7\x1b(B\x1b*<\x1b+0\x0f\x1b[1;1H\x1b[0m\x1b[0\"qxxxxxxxxxxxxxxxxxxxxxxxxxxxxxxxxxxxxxxxxxxxxxxxxxxxxxxxxxxxxxxxxxxxxxxxxxxxxxxxx\x1b[1;80H\x1b[0m\x1b[0\"q\x1b(B\x1b)B\x1b*<\x1b+<\x0f\x1b}\x1b[?7l");
    "cursor: up from above the margins: to the first row" b"\x1b[5;10r\x1b[3;1H\x1b[9A" "\n\n\n\n\n\n\n\n\n\n\n\n\n\n\n\n\n\n\n\n\n\n\n\n" b"" Some("\x1bc\x1b[5;10r\x1b[1;1H\x1b[0m\x1b[0\"q\x1b(B\x1b)B\x1b*<\x1b+<\x0f\x1b}");
    "cursor: up from inside the margins: to the top margin" b"\x1b[5;10r\x1b[7;9H\x1b[9A" "\n\n\n\n\n\n\n\n\n\n\n\n\n\n\n\n\n\n\n\n\n\n\n\n" b"" Some("\x1bc\x1b[5;10r\x1b[5;9H\x1b[0m\x1b[0\"q\x1b(B\x1b)B\x1b*<\x1b+<\x0f\x1b}");
    "cursor: down from below the margins: to the last row" b"\x1b[5;10r\x1b[12;1H\x1b[99B" "\n\n\n\n\n\n\n\n\n\n\n\n\n\n\n\n\n\n\n\n\n\n\n\n" b"" Some("\x1bc\x1b[5;10r\x1b[24;1H\x1b[0m\x1b[0\"q\x1b(B\x1b)B\x1b*<\x1b+<\x0f\x1b}");
    "cursor: a reverse index in the first row scrolls down" b"A\x1b[H\x1bM" "\nA\n\n\n\n\n\n\n\n\n\n\n\n\n\n\n\n\n\n\n\n\n\n\n" b"" Some("\x1bc\x1b(B\x1b*<\x1b+0\x0f\x1b[2;1H\x1b[0m\x1b[0\"qA\x1b[1;1H\x1b[0m\x1b[0\"q\x1b(B\x1b)B\x1b*<\x1b+<\x0f\x1b}");
    "cursor: a tab goes to a stop that was set" b"\x1b[5C\x1bH\r\t" "\n\n\n\n\n\n\n\n\n\n\n\n\n\n\n\n\n\n\n\n\n\n\n\n" b"" Some("\x1bc\x1b[?3h\x1b[3g\x1b[1;6H\x1bH\x1b[1;9H\x1bH\x1b[1;17H\x1bH\x1b[1;25H\x1bH\x1b[1;33H\x1bH\x1b[1;41H\x1bH\x1b[1;49H\x1bH\x1b[1;57H\x1bH\x1b[1;65H\x1bH\x1b[1;73H\x1bH\x1b[1;81H\x1bH\x1b[1;89H\x1bH\x1b[1;97H\x1bH\x1b[1;105H\x1bH\x1b[1;113H\x1bH\x1b[1;121H\x1bH\x1b[1;129H\x1bH\x1b[?3l\x1b[1;6H\x1b[0m\x1b[0\"q\x1b(B\x1b)B\x1b*<\x1b+<\x0f\x1b}");
};

/// Returns the rows of a table.
fn cursor_1() -> &'static [Row]
    ensures count { length result.now ≡ 12 }
    ensures fit { AreFit result.now }
{
    CURSOR_1_ROWS
}

const CURSOR_2_ROWS: &[Row; 12] = rows! {
    "cursor: a tab passes over a stop that was cleared" b"\x1b[5C\x1bH\r\t\x1b[g\r\t" "\n\n\n\n\n\n\n\n\n\n\n\n\n\n\n\n\n\n\n\n\n\n\n\n" b"" Some("\x1bc\x1b[1;9H\x1b[0m\x1b[0\"q\x1b(B\x1b)B\x1b*<\x1b+<\x0f\x1b}");
    "cursor: attributes and modes other than DECAWM leave the wrap flag" b"xxxxxxxxxxxxxxxxxxxxxxxxxxxxxxxxxxxxxxxxxxxxxxxxxxxxxxxxxxxxxxxxxxxxxxxxxxxxxxxx\x1b[7m\x1b[?25l\x1b[?7h\x1b7y" "xxxxxxxxxxxxxxxxxxxxxxxxxxxxxxxxxxxxxxxxxxxxxxxxxxxxxxxxxxxxxxxxxxxxxxxxxxxxxxxx\ny\n\n\n\n\n\n\n\n\n\n\n\n\n\n\n\n\n\n\n\n\n\n\n" b"" Some("\x1bc\x1b[1;80H \x1b[0;7m\x1b[0\"q\x1b(B\x1b)B\x1b*<\x1b+<\x0f\x1b}\x1b7\x1b(B\x1b*<\x1b+0\x0f\x1b[1;1H\x1b[0m\x1b[0\"qxxxxxxxxxxxxxxxxxxxxxxxxxxxxxxxxxxxxxxxxxxxxxxxxxxxxxxxxxxxxxxxxxxxxxxxxxxxxxxxx\x1b[2;1H\x1b[0;7m\x1b[0\"qy\x1b[2;2H\x1b[0;7m\x1b[0\"q\x1b(B\x1b)B\x1b*<\x1b+<\x0f\x1b}\x1b[?25l");
    "cursor: the alignment display makes full margins, and home is in row 1 under origin mode" b"\x1b[5;10r\x1b[?6h\x1b#8\x1b[2J" "\n\n\n\n\n\n\n\n\n\n\n\n\n\n\n\n\n\n\n\n\n\n\n\n" b"" Some("\x1bc\x1b[?6h\x1b[1;1H\x1b[0m\x1b[0\"q\x1b(B\x1b)B\x1b*<\x1b+<\x0f\x1b}");
    "cursor: a soft reset keeps the place" b"\x1b[5;10r\x1b[?6h\x1b[3;3H\x1b[!p" "\n\n\n\n\n\n\n\n\n\n\n\n\n\n\n\n\n\n\n\n\n\n\n\n" b"" Some("\x1bc\x1b[7;3H\x1b[0m\x1b[0\"q\x1b(B\x1b)B\x1b*<\x1b+<\x0f\x1b}\x1b[?7l");
    "cursor: up from the top margin: stays" b"\x1b[5;10r\x1b[5;1H\x1b[AX" "\n\n\n\nX\n\n\n\n\n\n\n\n\n\n\n\n\n\n\n\n\n\n\n\n" b"" Some("\x1bc\x1b(B\x1b*<\x1b+0\x0f\x1b[5;1H\x1b[0m\x1b[0\"qX\x1b[5;10r\x1b[5;2H\x1b[0m\x1b[0\"q\x1b(B\x1b)B\x1b*<\x1b+<\x0f\x1b}");
    "cursor: down from the bottom margin: stays" b"\x1b[5;10r\x1b[10;1H\x1b[BX" "\n\n\n\n\n\n\n\n\nX\n\n\n\n\n\n\n\n\n\n\n\n\n\n\n" b"" Some("\x1bc\x1b(B\x1b*<\x1b+0\x0f\x1b[10;1H\x1b[0m\x1b[0\"qX\x1b[5;10r\x1b[10;2H\x1b[0m\x1b[0\"q\x1b(B\x1b)B\x1b*<\x1b+<\x0f\x1b}");
    "cursor: up from below the margins: to the top margin" b"\x1b[5;10r\x1b[12;1H\x1b[99AX" "\n\n\n\nX\n\n\n\n\n\n\n\n\n\n\n\n\n\n\n\n\n\n\n\n" b"" Some("\x1bc\x1b(B\x1b*<\x1b+0\x0f\x1b[5;1H\x1b[0m\x1b[0\"qX\x1b[5;10r\x1b[5;2H\x1b[0m\x1b[0\"q\x1b(B\x1b)B\x1b*<\x1b+<\x0f\x1b}");
    "cursor: down from above the margins: to the bottom margin" b"\x1b[5;10r\x1b[3;1H\x1b[99BX" "\n\n\n\n\n\n\n\n\nX\n\n\n\n\n\n\n\n\n\n\n\n\n\n\n" b"" Some("\x1bc\x1b(B\x1b*<\x1b+0\x0f\x1b[10;1H\x1b[0m\x1b[0\"qX\x1b[5;10r\x1b[10;2H\x1b[0m\x1b[0\"q\x1b(B\x1b)B\x1b*<\x1b+<\x0f\x1b}");
    "cursor: up from the row under the bottom margin, by one: into the margins" b"\x1b[5;10r\x1b[11;1H\x1b[AX" "\n\n\n\n\n\n\n\n\nX\n\n\n\n\n\n\n\n\n\n\n\n\n\n\n" b"" Some("\x1bc\x1b(B\x1b*<\x1b+0\x0f\x1b[10;1H\x1b[0m\x1b[0\"qX\x1b[5;10r\x1b[10;2H\x1b[0m\x1b[0\"q\x1b(B\x1b)B\x1b*<\x1b+<\x0f\x1b}");
    "cursor: a tab resets the wrap flag" b"xxxxxxxxxxxxxxxxxxxxxxxxxxxxxxxxxxxxxxxxxxxxxxxxxxxxxxxxxxxxxxxxxxxxxxxxxxxxxxxx\tY" "xxxxxxxxxxxxxxxxxxxxxxxxxxxxxxxxxxxxxxxxxxxxxxxxxxxxxxxxxxxxxxxxxxxxxxxxxxxxxxxY\n\n\n\n\n\n\n\n\n\n\n\n\n\n\n\n\n\n\n\n\n\n\n\n" b"" Some("\x1bc\x1b(B\x1b*<\x1b+0\x0f\x1b[1;1H\x1b[0m\x1b[0\"qxxxxxxxxxxxxxxxxxxxxxxxxxxxxxxxxxxxxxxxxxxxxxxxxxxxxxxxxxxxxxxxxxxxxxxxxxxxxxxxY\x1b[1;80H\x1b[0m\x1b[0\"qY\x1b[0m\x1b[0\"q\x1b(B\x1b)B\x1b*<\x1b+<\x0f\x1b}");
    "cursor: an index at the bottom margin scrolls the lines between the margins" b"A\r\nB\r\nC\x1b[1;2r\x1b[2;1H\x1bD" "B\n\nC\n\n\n\n\n\n\n\n\n\n\n\n\n\n\n\n\n\n\n\n\n\n" b"" Some("\x1bc\x1b(B\x1b*<\x1b+0\x0f\x1b[1;1H\x1b[0m\x1b[0\"qB\x1b[3;1H\x1b[0m\x1b[0\"qC\x1b[1;2r\x1b[2;1H\x1b[0m\x1b[0\"q\x1b(B\x1b)B\x1b*<\x1b+<\x0f\x1b}");
    "cursor: a reverse index at the top margin scrolls the lines between the margins" b"A\r\nB\r\nC\x1b[2;3r\x1b[2;1H\x1bM" "A\n\nB\n\n\n\n\n\n\n\n\n\n\n\n\n\n\n\n\n\n\n\n\n\n" b"" Some("\x1bc\x1b(B\x1b*<\x1b+0\x0f\x1b[1;1H\x1b[0m\x1b[0\"qA\x1b[3;1H\x1b[0m\x1b[0\"qB\x1b[2;3r\x1b[2;1H\x1b[0m\x1b[0\"q\x1b(B\x1b)B\x1b*<\x1b+<\x0f\x1b}");
};

/// Returns the rows of a table.
fn cursor_2() -> &'static [Row]
    ensures count { length result.now ≡ 12 }
    ensures fit { AreFit result.now }
{
    CURSOR_2_ROWS
}

const CURSOR_3_ROWS: &[Row; 7] = rows! {
    "cursor: an index in the last row, below the margins: stays" b"\x1b[2;3r\x1b[24;1HA\x1bD" "\n\n\n\n\n\n\n\n\n\n\n\n\n\n\n\n\n\n\n\n\n\n\nA\n" b"" Some("\x1bc\x1b(B\x1b*<\x1b+0\x0f\x1b[24;1H\x1b[0m\x1b[0\"qA\x1b[2;3r\x1b[24;2H\x1b[0m\x1b[0\"q\x1b(B\x1b)B\x1b*<\x1b+<\x0f\x1b}");
    "cursor: a reverse index in row 1, above the margins: stays" b"A\x1b[2;3r\x1bMB" "B\n\n\n\n\n\n\n\n\n\n\n\n\n\n\n\n\n\n\n\n\n\n\n\n" b"" Some("\x1bc\x1b(B\x1b*<\x1b+0\x0f\x1b[1;1H\x1b[0m\x1b[0\"qB\x1b[2;3r\x1b[1;2H\x1b[0m\x1b[0\"q\x1b(B\x1b)B\x1b*<\x1b+<\x0f\x1b}");
    "cursor: right and left stay in the line" b"\x1b[99CA\x1b[99DB" "B                                                                              A\n\n\n\n\n\n\n\n\n\n\n\n\n\n\n\n\n\n\n\n\n\n\n\n" b"" Some("\x1bc\x1b(B\x1b*<\x1b+0\x0f\x1b[1;1H\x1b[0m\x1b[0\"qB\x1b[1;80H\x1b[0m\x1b[0\"qA\x1b[1;2H\x1b[0m\x1b[0\"q\x1b(B\x1b)B\x1b*<\x1b+<\x0f\x1b}");
    "cursor: HVP moves as CUP does" b"\x1b[3;5fA" "\n\n    A\n\n\n\n\n\n\n\n\n\n\n\n\n\n\n\n\n\n\n\n\n\n" b"" Some("\x1bc\x1b(B\x1b*<\x1b+0\x0f\x1b[3;5H\x1b[0m\x1b[0\"qA\x1b[3;6H\x1b[0m\x1b[0\"q\x1b(B\x1b)B\x1b*<\x1b+<\x0f\x1b}");
    "cursor: a position past the screen: the last row and the last column" b"\x1b[99;99HA" "\n\n\n\n\n\n\n\n\n\n\n\n\n\n\n\n\n\n\n\n\n\n\n                                                                               A\n" b"" Some("\x1bc\x1b(B\x1b*<\x1b+0\x0f\x1b[24;80H\x1b[0m\x1b[0\"qA\x1b[24;80H\x1b[0m\x1b[0\"qA\x1b[0m\x1b[0\"q\x1b(B\x1b)B\x1b*<\x1b+<\x0f\x1b}");
    "cursor: a bottom margin that is left out is the last row" b"\x1b[2;5r\x1b[4r" "\n\n\n\n\n\n\n\n\n\n\n\n\n\n\n\n\n\n\n\n\n\n\n\n" b"" Some("\x1bc\x1b[4;24r\x1b[1;1H\x1b[0m\x1b[0\"q\x1b(B\x1b)B\x1b*<\x1b+<\x0f\x1b}");
    "cursor: DECRC gives the brush and the sets back" b"\x1b[1m\x1b[1\"q\x1b)0\x0e\x1b7\x0f\x1b[m\x1b[0\"q\x1b)A\x1b8q" "─\n\n\n\n\n\n\n\n\n\n\n\n\n\n\n\n\n\n\n\n\n\n\n\n" b"" Some("\x1bc\x1b[1;1H\x1b[0;1m\x1b[1\"q\x1b(B\x1b)0\x1b*<\x1b+<\x0e\x1b}\x1b7\x1b(B\x1b*<\x1b+0\x0f\x1b[1;1H\x1b[0;1m\x1b[1\"q\x1bOq\x1b[1;2H\x1b[0;1m\x1b[1\"q\x1b(B\x1b)0\x1b*<\x1b+<\x0e\x1b}");
};

/// Returns the rows of a table.
fn cursor_3() -> &'static [Row]
    ensures count { length result.now ≡ 7 }
    ensures fit { AreFit result.now }
{
    CURSOR_3_ROWS
}

const MODES_1_ROWS: &[Row; 12] = rows! {
    "modes: a soft reset resets DECAWM" b"\x1b[!p" "\n\n\n\n\n\n\n\n\n\n\n\n\n\n\n\n\n\n\n\n\n\n\n\n" b"" Some("\x1bc\x1b[1;1H\x1b[0m\x1b[0\"q\x1b(B\x1b)B\x1b*<\x1b+<\x0f\x1b}\x1b[?7l");
    "modes: a glyph is inserted under IRM" b"AB\x1b[H\x1b[4hX" "XAB\n\n\n\n\n\n\n\n\n\n\n\n\n\n\n\n\n\n\n\n\n\n\n\n" b"" Some("\x1bc\x1b(B\x1b*<\x1b+0\x0f\x1b[1;1H\x1b[0m\x1b[0\"qXAB\x1b[1;2H\x1b[0m\x1b[0\"q\x1b(B\x1b)B\x1b*<\x1b+<\x0f\x1b}\x1b[4h");
    "modes: a line feed is a new line under LNM" b"\x1b[20hA\nB" "A\nB\n\n\n\n\n\n\n\n\n\n\n\n\n\n\n\n\n\n\n\n\n\n\n" b"" Some("\x1bc\x1b(B\x1b*<\x1b+0\x0f\x1b[1;1H\x1b[0m\x1b[0\"qA\x1b[2;1H\x1b[0m\x1b[0\"qB\x1b[2;2H\x1b[0m\x1b[0\"q\x1b(B\x1b)B\x1b*<\x1b+<\x0f\x1b}\x1b[20h");
    "modes: a form feed is a new line under LNM" b"\x1b[20hA\x0cB" "A\nB\n\n\n\n\n\n\n\n\n\n\n\n\n\n\n\n\n\n\n\n\n\n\n" b"" Some("\x1bc\x1b(B\x1b*<\x1b+0\x0f\x1b[1;1H\x1b[0m\x1b[0\"qA\x1b[2;1H\x1b[0m\x1b[0\"qB\x1b[2;2H\x1b[0m\x1b[0\"q\x1b(B\x1b)B\x1b*<\x1b+<\x0f\x1b}\x1b[20h");
    "modes: modes without effect here are kept all the same" b"\x1b=\x1b[?25l\x1b[2;4h" "\n\n\n\n\n\n\n\n\n\n\n\n\n\n\n\n\n\n\n\n\n\n\n\n" b"" Some("\x1bc\x1b[1;1H\x1b[0m\x1b[0\"q\x1b(B\x1b)B\x1b*<\x1b+<\x0f\x1b}\x1b[2h\x1b[4h\x1b[?25l\x1b=");
    "modes: a mode that is set at power-up" b"\x1b[12l" "\n\n\n\n\n\n\n\n\n\n\n\n\n\n\n\n\n\n\n\n\n\n\n\n" b"" Some("\x1bc\x1b[1;1H\x1b[0m\x1b[0\"q\x1b(B\x1b)B\x1b*<\x1b+<\x0f\x1b}\x1b[12l");
    "modes: the keypad and 8-bit reports" b"\x1b G\x1b=" "\n\n\n\n\n\n\n\n\n\n\n\n\n\n\n\n\n\n\n\n\n\n\n\n" b"" Some("\x1bc\x1b[1;1H\x1b[0m\x1b[0\"q\x1b(B\x1b)B\x1b*<\x1b+<\x0f\x1b}\x1b=\x1b G");
    "modes: the repaint of a full line, played inside a string on a terminal that was used: the state of the full line" b"\x1b[?6h\x1b[2;5r\x1b G\x1b(0\x1bPq\x1bc\x1b(B\x1b*<\x1b+0\x0f\x1b[1;1H\x1b[0m\x1b[0\"qxxxxxxxxxxxxxxxxxxxxxxxxxxxxxxxxxxxxxxxxxxxxxxxxxxxxxxxxxxxxxxxxxxxxxxxxxxxxxxxx\x1b[1;80H\x1b[0m\x1b[0\"qx\x1b[0m\x1b[0\"q\x1b(B\x1b)B\x1b*<\x1b+<\x0f\x1b}" "xxxxxxxxxxxxxxxxxxxxxxxxxxxxxxxxxxxxxxxxxxxxxxxxxxxxxxxxxxxxxxxxxxxxxxxxxxxxxxxx\n\n\n\n\n\n\n\n\n\n\n\n\n\n\n\n\n\n\n\n\n\n\n\n" b"" Some("\x1bc\x1b(B\x1b*<\x1b+0\x0f\x1b[1;1H\x1b[0m\x1b[0\"qxxxxxxxxxxxxxxxxxxxxxxxxxxxxxxxxxxxxxxxxxxxxxxxxxxxxxxxxxxxxxxxxxxxxxxxxxxxxxxxx\x1b[1;80H\x1b[0m\x1b[0\"qx\x1b[0m\x1b[0\"q\x1b(B\x1b)B\x1b*<\x1b+<\x0f\x1b}");
    "modes: several in one sequence, and some that aren't there" b"A\x1b[?1;2;4;5;8;42h\x1b[2;12lB" "AB\n\n\n\n\n\n\n\n\n\n\n\n\n\n\n\n\n\n\n\n\n\n\n\n" b"" Some("\x1bc\x1b(B\x1b*<\x1b+0\x0f\x1b[1;1H\x1b[0m\x1b[0\"qAB\x1b[1;3H\x1b[0m\x1b[0\"q\x1b(B\x1b)B\x1b*<\x1b+<\x0f\x1b}\x1b[12l\x1b[?1h\x1b[?4h\x1b[?5h");
    "modes: a full reset resets all" b"\x1b[?3h\x1b[20h\x1b[5;10r\x1b[?6hAB\x1bcC" "C\n\n\n\n\n\n\n\n\n\n\n\n\n\n\n\n\n\n\n\n\n\n\n\n" b"" Some("\x1bc\x1b(B\x1b*<\x1b+0\x0f\x1b[1;1H\x1b[0m\x1b[0\"qC\x1b[1;2H\x1b[0m\x1b[0\"q\x1b(B\x1b)B\x1b*<\x1b+<\x0f\x1b}");
    "modes: a conformance level that isn't listed leaves the wrap flag" b"xxxxxxxxxxxxxxxxxxxxxxxxxxxxxxxxxxxxxxxxxxxxxxxxxxxxxxxxxxxxxxxxxxxxxxxxxxxxxxxx\x1b[62;3\"p" "xxxxxxxxxxxxxxxxxxxxxxxxxxxxxxxxxxxxxxxxxxxxxxxxxxxxxxxxxxxxxxxxxxxxxxxxxxxxxxxx\n\n\n\n\n\n\n\n\n\n\n\n\n\n\n\n\n\n\n\n\n\n\n\n" b"" Some("\x1bc\x1b(B\x1b*<\x1b+0\x0f\x1b[1;1H\x1b[0m\x1b[0\"qxxxxxxxxxxxxxxxxxxxxxxxxxxxxxxxxxxxxxxxxxxxxxxxxxxxxxxxxxxxxxxxxxxxxxxxxxxxxxxxx\x1b[1;80H\x1b[0m\x1b[0\"qx\x1b[0m\x1b[0\"q\x1b(B\x1b)B\x1b*<\x1b+<\x0f\x1b}");
    "modes: level 2 with 8-bit reports is a soft reset" b"xxxxxxxxxxxxxxxxxxxxxxxxxxxxxxxxxxxxxxxxxxxxxxxxxxxxxxxxxxxxxxxxxxxxxxxxxxxxxxxx\x1b[62;2\"p" "xxxxxxxxxxxxxxxxxxxxxxxxxxxxxxxxxxxxxxxxxxxxxxxxxxxxxxxxxxxxxxxxxxxxxxxxxxxxxxxx\n\n\n\n\n\n\n\n\n\n\n\n\n\n\n\n\n\n\n\n\n\n\n\n" b"" Some("\x1bc\x1b(B\x1b*<\x1b+0\x0f\x1b[1;1H\x1b[0m\x1b[0\"qxxxxxxxxxxxxxxxxxxxxxxxxxxxxxxxxxxxxxxxxxxxxxxxxxxxxxxxxxxxxxxxxxxxxxxxxxxxxxxxx\x1b[1;80H\x1b[0m\x1b[0\"q\x1b(B\x1b)B\x1b*<\x1b+<\x0f\x1b}\x1b[?7l\x1b G");
};

/// Returns the rows of a table.
fn modes_1() -> &'static [Row]
    ensures count { length result.now ≡ 12 }
    ensures fit { AreFit result.now }
{
    MODES_1_ROWS
}

const MODES_2_ROWS: &[Row; 1] = rows! {
    "modes: what a soft reset resets, and what it leaves" b"\x1b[2;4;20h\x1b[12l\x1b[?1;4;5h\x1b[?8;25l\x1b=\x1b G\x1b[1;7m\x1b[1\"q\x1b)0\x0e\x1b7\x1b[!p" "\n\n\n\n\n\n\n\n\n\n\n\n\n\n\n\n\n\n\n\n\n\n\n\n" b"" Some("\x1bc\x1b[1;1H\x1b[0m\x1b[0\"q\x1b(B\x1b)B\x1b*<\x1b+<\x0f\x1b}\x1b[12l\x1b[20h\x1b[?4h\x1b[?5h\x1b[?7l\x1b[?8l\x1b G");
};

/// Returns the rows of a table.
fn modes_2() -> &'static [Row]
    ensures count { length result.now ≡ 1 }
    ensures fit { AreFit result.now }
{
    MODES_2_ROWS
}

const REPORTS_1_ROWS: &[Row; 10] = rows! {
    "reports: primary and secondary device attributes in the 8-bit form" b"\x1b G\x1b[c\x1b[>c" "\n\n\n\n\n\n\n\n\n\n\n\n\n\n\n\n\n\n\n\n\n\n\n\n" b"\x9b?62;1;6c\x9b>1;10;0c" Some("\x1bc\x1b[1;1H\x1b[0m\x1b[0\"q\x1b(B\x1b)B\x1b*<\x1b+<\x0f\x1b}\x1b G");
    "reports: status, place, printer and keyboard" b"\x1b[5n\x1b[6n\x1b[?15n\x1b[?26n" "\n\n\n\n\n\n\n\n\n\n\n\n\n\n\n\n\n\n\n\n\n\n\n\n" b"\x1b[0n\x1b[1;1R\x1b[?13n\x1b[?27;1n" Some("\x1bc\x1b[1;1H\x1b[0m\x1b[0\"q\x1b(B\x1b)B\x1b*<\x1b+<\x0f\x1b}");
    "reports: requests that aren't listed" b"\x1b[?25n\x1b[1c\x1b[=c\x1b[?6n" "\n\n\n\n\n\n\n\n\n\n\n\n\n\n\n\n\n\n\n\n\n\n\n\n" b"" Some("\x1bc\x1b[1;1H\x1b[0m\x1b[0\"q\x1b(B\x1b)B\x1b*<\x1b+<\x0f\x1b}");
    "reports: level 2: a soft reset, and the 8-bit form" b"\x1b[62\"p\x9a" "\n\n\n\n\n\n\n\n\n\n\n\n\n\n\n\n\n\n\n\n\n\n\n\n" b"\x9b?62;1;6c" Some("\x1bc\x1b[1;1H\x1b[0m\x1b[0\"q\x1b(B\x1b)B\x1b*<\x1b+<\x0f\x1b}\x1b[?7l\x1b G");
    "reports: level 1: a soft reset, and the 7-bit form" b"\x1b[61\"p\x1bZ" "\n\n\n\n\n\n\n\n\n\n\n\n\n\n\n\n\n\n\n\n\n\n\n\n" b"\x1b[?62;1;6c" Some("\x1bc\x1b[1;1H\x1b[0m\x1b[0\"q\x1b(B\x1b)B\x1b*<\x1b+<\x0f\x1b}\x1b[?7l");
    "reports: secondary device attributes: ten bytes, the longest answer" b"\x1b[>c" "\n\n\n\n\n\n\n\n\n\n\n\n\n\n\n\n\n\n\n\n\n\n\n\n" b"\x1b[>1;10;0c" Some("\x1bc\x1b[1;1H\x1b[0m\x1b[0\"q\x1b(B\x1b)B\x1b*<\x1b+<\x0f\x1b}");
    "reports: primary and secondary device attributes in the 7-bit form" b"\x1b[c\x1b[0c\x1b[>c" "\n\n\n\n\n\n\n\n\n\n\n\n\n\n\n\n\n\n\n\n\n\n\n\n" b"\x1b[?62;1;6c\x1b[?62;1;6c\x1b[>1;10;0c" Some("\x1bc\x1b[1;1H\x1b[0m\x1b[0\"q\x1b(B\x1b)B\x1b*<\x1b+<\x0f\x1b}");
    "reports: the 8-bit form and back" b"\x1b G\x1b[5n\x1b F\x1b[5n" "\n\n\n\n\n\n\n\n\n\n\n\n\n\n\n\n\n\n\n\n\n\n\n\n" b"\x9b0n\x1b[0n" Some("\x1bc\x1b[1;1H\x1b[0m\x1b[0\"q\x1b(B\x1b)B\x1b*<\x1b+<\x0f\x1b}");
    "reports: a soft reset keeps the form" b"\x1b G\x1b[!p\x1b[6n" "\n\n\n\n\n\n\n\n\n\n\n\n\n\n\n\n\n\n\n\n\n\n\n\n" b"\x9b1;1R" Some("\x1bc\x1b[1;1H\x1b[0m\x1b[0\"q\x1b(B\x1b)B\x1b*<\x1b+<\x0f\x1b}\x1b[?7l\x1b G");
    "reports: under origin mode the place counts from the top margin" b"\x1b[5;10r\x1b[7;9H\x1b[6n\x1b[?6h\x1b[3;9H\x1b[6n" "\n\n\n\n\n\n\n\n\n\n\n\n\n\n\n\n\n\n\n\n\n\n\n\n" b"\x1b[7;9R\x1b[3;9R" Some("\x1bc\x1b[5;10r\x1b[?6h\x1b[3;9H\x1b[0m\x1b[0\"q\x1b(B\x1b)B\x1b*<\x1b+<\x0f\x1b}");
};

/// Returns the rows of a table.
fn reports_1() -> &'static [Row]
    ensures count { length result.now ≡ 10 }
    ensures fit { AreFit result.now }
{
    REPORTS_1_ROWS
}

const WIDTH_1_ROWS: &[Row; 6] = rows! {
    "width: 132 columns" b"\x1b[?3h" "\n\n\n\n\n\n\n\n\n\n\n\n\n\n\n\n\n\n\n\n\n\n\n\n" b"" Some("\x1bc\x1b[?3h\x1b[1;1H\x1b[0m\x1b[0\"q\x1b(B\x1b)B\x1b*<\x1b+<\x0f\x1b}");
    "width: a full line of 132 columns" b"\x1b[?3hxxxxxxxxxxxxxxxxxxxxxxxxxxxxxxxxxxxxxxxxxxxxxxxxxxxxxxxxxxxxxxxxxxxxxxxxxxxxxxxxxxxxxxxxxxxxxxxxxxxxxxxxxxxxxxxxxxxxxxxxxxxxxxxxxxxx\x1b[6n" "xxxxxxxxxxxxxxxxxxxxxxxxxxxxxxxxxxxxxxxxxxxxxxxxxxxxxxxxxxxxxxxxxxxxxxxxxxxxxxxxxxxxxxxxxxxxxxxxxxxxxxxxxxxxxxxxxxxxxxxxxxxxxxxxxxxx\n\n\n\n\n\n\n\n\n\n\n\n\n\n\n\n\n\n\n\n\n\n\n\n" b"\x1b[1;132R" Some("\x1bc\x1b[?3h\x1b(B\x1b*<\x1b+0\x0f\x1b[1;1H\x1b[0m\x1b[0\"qxxxxxxxxxxxxxxxxxxxxxxxxxxxxxxxxxxxxxxxxxxxxxxxxxxxxxxxxxxxxxxxxxxxxxxxxxxxxxxxxxxxxxxxxxxxxxxxxxxxxxxxxxxxxxxxxxxxxxxxxxxxxxxxxxxxx\x1b[1;132H\x1b[0m\x1b[0\"qx\x1b[0m\x1b[0\"q\x1b(B\x1b)B\x1b*<\x1b+<\x0f\x1b}");
    "width: a stop past column 80 is kept at 80 columns, where a tab goes to the last column" b"\x1b[?3h\x1b[3g\x1b[1;100H\x1bH\x1b[?3l\t" "\n\n\n\n\n\n\n\n\n\n\n\n\n\n\n\n\n\n\n\n\n\n\n\n" b"" Some("\x1bc\x1b[?3h\x1b[3g\x1b[1;100H\x1bH\x1b[?3l\x1b[1;80H\x1b[0m\x1b[0\"q\x1b(B\x1b)B\x1b*<\x1b+<\x0f\x1b}");
    "width: a saved column past 80 becomes 80" b"\x1b[?3h\x1b[5;120H\x1b7\x1b[?3l\x1b8" "\n\n\n\n\n\n\n\n\n\n\n\n\n\n\n\n\n\n\n\n\n\n\n\n" b"" Some("\x1bc\x1b[5;80H\x1b[0m\x1b[0\"q\x1b(B\x1b)B\x1b*<\x1b+<\x0f\x1b}\x1b7\x1b[5;80H\x1b[0m\x1b[0\"q\x1b(B\x1b)B\x1b*<\x1b+<\x0f\x1b}");
    "width: 80 columns are cleared also where they are there already" b"A\x1b[?3lB" "B\n\n\n\n\n\n\n\n\n\n\n\n\n\n\n\n\n\n\n\n\n\n\n\n" b"" Some("\x1bc\x1b(B\x1b*<\x1b+0\x0f\x1b[1;1H\x1b[0m\x1b[0\"qB\x1b[1;2H\x1b[0m\x1b[0\"q\x1b(B\x1b)B\x1b*<\x1b+<\x0f\x1b}");
    "width: a soft reset keeps the columns" b"\x1b[?3hA\x1b[!p" "A\n\n\n\n\n\n\n\n\n\n\n\n\n\n\n\n\n\n\n\n\n\n\n\n" b"" Some("\x1bc\x1b[?3h\x1b(B\x1b*<\x1b+0\x0f\x1b[1;1H\x1b[0m\x1b[0\"qA\x1b[1;2H\x1b[0m\x1b[0\"q\x1b(B\x1b)B\x1b*<\x1b+<\x0f\x1b}\x1b[?7l");
};

/// Returns the rows of a table.
fn width_1() -> &'static [Row]
    ensures count { length result.now ≡ 6 }
    ensures fit { AreFit result.now }
{
    WIDTH_1_ROWS
}

const WIDTH_2_ROWS: &[Row; 1] = rows! {
    "width: the alignment display at 80 columns" b"\x1b#8" "EEEEEEEEEEEEEEEEEEEEEEEEEEEEEEEEEEEEEEEEEEEEEEEEEEEEEEEEEEEEEEEEEEEEEEEEEEEEEEEE\nEEEEEEEEEEEEEEEEEEEEEEEEEEEEEEEEEEEEEEEEEEEEEEEEEEEEEEEEEEEEEEEEEEEEEEEEEEEEEEEE\nEEEEEEEEEEEEEEEEEEEEEEEEEEEEEEEEEEEEEEEEEEEEEEEEEEEEEEEEEEEEEEEEEEEEEEEEEEEEEEEE\nEEEEEEEEEEEEEEEEEEEEEEEEEEEEEEEEEEEEEEEEEEEEEEEEEEEEEEEEEEEEEEEEEEEEEEEEEEEEEEEE\nEEEEEEEEEEEEEEEEEEEEEEEEEEEEEEEEEEEEEEEEEEEEEEEEEEEEEEEEEEEEEEEEEEEEEEEEEEEEEEEE\nEEEEEEEEEEEEEEEEEEEEEEEEEEEEEEEEEEEEEEEEEEEEEEEEEEEEEEEEEEEEEEEEEEEEEEEEEEEEEEEE\nEEEEEEEEEEEEEEEEEEEEEEEEEEEEEEEEEEEEEEEEEEEEEEEEEEEEEEEEEEEEEEEEEEEEEEEEEEEEEEEE\nEEEEEEEEEEEEEEEEEEEEEEEEEEEEEEEEEEEEEEEEEEEEEEEEEEEEEEEEEEEEEEEEEEEEEEEEEEEEEEEE\nEEEEEEEEEEEEEEEEEEEEEEEEEEEEEEEEEEEEEEEEEEEEEEEEEEEEEEEEEEEEEEEEEEEEEEEEEEEEEEEE\nEEEEEEEEEEEEEEEEEEEEEEEEEEEEEEEEEEEEEEEEEEEEEEEEEEEEEEEEEEEEEEEEEEEEEEEEEEEEEEEE\nEEEEEEEEEEEEEEEEEEEEEEEEEEEEEEEEEEEEEEEEEEEEEEEEEEEEEEEEEEEEEEEEEEEEEEEEEEEEEEEE\nEEEEEEEEEEEEEEEEEEEEEEEEEEEEEEEEEEEEEEEEEEEEEEEEEEEEEEEEEEEEEEEEEEEEEEEEEEEEEEEE\nEEEEEEEEEEEEEEEEEEEEEEEEEEEEEEEEEEEEEEEEEEEEEEEEEEEEEEEEEEEEEEEEEEEEEEEEEEEEEEEE\nEEEEEEEEEEEEEEEEEEEEEEEEEEEEEEEEEEEEEEEEEEEEEEEEEEEEEEEEEEEEEEEEEEEEEEEEEEEEEEEE\nEEEEEEEEEEEEEEEEEEEEEEEEEEEEEEEEEEEEEEEEEEEEEEEEEEEEEEEEEEEEEEEEEEEEEEEEEEEEEEEE\nEEEEEEEEEEEEEEEEEEEEEEEEEEEEEEEEEEEEEEEEEEEEEEEEEEEEEEEEEEEEEEEEEEEEEEEEEEEEEEEE\nEEEEEEEEEEEEEEEEEEEEEEEEEEEEEEEEEEEEEEEEEEEEEEEEEEEEEEEEEEEEEEEEEEEEEEEEEEEEEEEE\nEEEEEEEEEEEEEEEEEEEEEEEEEEEEEEEEEEEEEEEEEEEEEEEEEEEEEEEEEEEEEEEEEEEEEEEEEEEEEEEE\nEEEEEEEEEEEEEEEEEEEEEEEEEEEEEEEEEEEEEEEEEEEEEEEEEEEEEEEEEEEEEEEEEEEEEEEEEEEEEEEE\nEEEEEEEEEEEEEEEEEEEEEEEEEEEEEEEEEEEEEEEEEEEEEEEEEEEEEEEEEEEEEEEEEEEEEEEEEEEEEEEE\nEEEEEEEEEEEEEEEEEEEEEEEEEEEEEEEEEEEEEEEEEEEEEEEEEEEEEEEEEEEEEEEEEEEEEEEEEEEEEEEE\nEEEEEEEEEEEEEEEEEEEEEEEEEEEEEEEEEEEEEEEEEEEEEEEEEEEEEEEEEEEEEEEEEEEEEEEEEEEEEEEE\nEEEEEEEEEEEEEEEEEEEEEEEEEEEEEEEEEEEEEEEEEEEEEEEEEEEEEEEEEEEEEEEEEEEEEEEEEEEEEEEE\nEEEEEEEEEEEEEEEEEEEEEEEEEEEEEEEEEEEEEEEEEEEEEEEEEEEEEEEEEEEEEEEEEEEEEEEEEEEEEEEE\n" b"" Some("\x1bc\x1b(B\x1b*<\x1b+0\x0f\x1b[1;1H\x1b[0m\x1b[0\"qEEEEEEEEEEEEEEEEEEEEEEEEEEEEEEEEEEEEEEEEEEEEEEEEEEEEEEEEEEEEEEEEEEEEEEEEEEEEEEEE\x1b[2;1H\x1b[0m\x1b[0\"qEEEEEEEEEEEEEEEEEEEEEEEEEEEEEEEEEEEEEEEEEEEEEEEEEEEEEEEEEEEEEEEEEEEEEEEEEEEEEEEE\x1b[3;1H\x1b[0m\x1b[0\"qEEEEEEEEEEEEEEEEEEEEEEEEEEEEEEEEEEEEEEEEEEEEEEEEEEEEEEEEEEEEEEEEEEEEEEEEEEEEEEEE\x1b[4;1H\x1b[0m\x1b[0\"qEEEEEEEEEEEEEEEEEEEEEEEEEEEEEEEEEEEEEEEEEEEEEEEEEEEEEEEEEEEEEEEEEEEEEEEEEEEEEEEE\x1b[5;1H\x1b[0m\x1b[0\"qEEEEEEEEEEEEEEEEEEEEEEEEEEEEEEEEEEEEEEEEEEEEEEEEEEEEEEEEEEEEEEEEEEEEEEEEEEEEEEEE\x1b[6;1H\x1b[0m\x1b[0\"qEEEEEEEEEEEEEEEEEEEEEEEEEEEEEEEEEEEEEEEEEEEEEEEEEEEEEEEEEEEEEEEEEEEEEEEEEEEEEEEE\x1b[7;1H\x1b[0m\x1b[0\"qEEEEEEEEEEEEEEEEEEEEEEEEEEEEEEEEEEEEEEEEEEEEEEEEEEEEEEEEEEEEEEEEEEEEEEEEEEEEEEEE\x1b[8;1H\x1b[0m\x1b[0\"qEEEEEEEEEEEEEEEEEEEEEEEEEEEEEEEEEEEEEEEEEEEEEEEEEEEEEEEEEEEEEEEEEEEEEEEEEEEEEEEE\x1b[9;1H\x1b[0m\x1b[0\"qEEEEEEEEEEEEEEEEEEEEEEEEEEEEEEEEEEEEEEEEEEEEEEEEEEEEEEEEEEEEEEEEEEEEEEEEEEEEEEEE\x1b[10;1H\x1b[0m\x1b[0\"qEEEEEEEEEEEEEEEEEEEEEEEEEEEEEEEEEEEEEEEEEEEEEEEEEEEEEEEEEEEEEEEEEEEEEEEEEEEEEEEE\x1b[11;1H\x1b[0m\x1b[0\"qEEEEEEEEEEEEEEEEEEEEEEEEEEEEEEEEEEEEEEEEEEEEEEEEEEEEEEEEEEEEEEEEEEEEEEEEEEEEEEEE\x1b[12;1H\x1b[0m\x1b[0\"qEEEEEEEEEEEEEEEEEEEEEEEEEEEEEEEEEEEEEEEEEEEEEEEEEEEEEEEEEEEEEEEEEEEEEEEEEEEEEEEE\x1b[13;1H\x1b[0m\x1b[0\"qEEEEEEEEEEEEEEEEEEEEEEEEEEEEEEEEEEEEEEEEEEEEEEEEEEEEEEEEEEEEEEEEEEEEEEEEEEEEEEEE\x1b[14;1H\x1b[0m\x1b[0\"qEEEEEEEEEEEEEEEEEEEEEEEEEEEEEEEEEEEEEEEEEEEEEEEEEEEEEEEEEEEEEEEEEEEEEEEEEEEEEEEE\x1b[15;1H\x1b[0m\x1b[0\"qEEEEEEEEEEEEEEEEEEEEEEEEEEEEEEEEEEEEEEEEEEEEEEEEEEEEEEEEEEEEEEEEEEEEEEEEEEEEEEEE\x1b[16;1H\x1b[0m\x1b[0\"qEEEEEEEEEEEEEEEEEEEEEEEEEEEEEEEEEEEEEEEEEEEEEEEEEEEEEEEEEEEEEEEEEEEEEEEEEEEEEEEE\x1b[17;1H\x1b[0m\x1b[0\"qEEEEEEEEEEEEEEEEEEEEEEEEEEEEEEEEEEEEEEEEEEEEEEEEEEEEEEEEEEEEEEEEEEEEEEEEEEEEEEEE\x1b[18;1H\x1b[0m\x1b[0\"qEEEEEEEEEEEEEEEEEEEEEEEEEEEEEEEEEEEEEEEEEEEEEEEEEEEEEEEEEEEEEEEEEEEEEEEEEEEEEEEE\x1b[19;1H\x1b[0m\x1b[0\"qEEEEEEEEEEEEEEEEEEEEEEEEEEEEEEEEEEEEEEEEEEEEEEEEEEEEEEEEEEEEEEEEEEEEEEEEEEEEEEEE\x1b[20;1H\x1b[0m\x1b[0\"qEEEEEEEEEEEEEEEEEEEEEEEEEEEEEEEEEEEEEEEEEEEEEEEEEEEEEEEEEEEEEEEEEEEEEEEEEEEEEEEE\x1b[21;1H\x1b[0m\x1b[0\"qEEEEEEEEEEEEEEEEEEEEEEEEEEEEEEEEEEEEEEEEEEEEEEEEEEEEEEEEEEEEEEEEEEEEEEEEEEEEEEEE\x1b[22;1H\x1b[0m\x1b[0\"qEEEEEEEEEEEEEEEEEEEEEEEEEEEEEEEEEEEEEEEEEEEEEEEEEEEEEEEEEEEEEEEEEEEEEEEEEEEEEEEE\x1b[23;1H\x1b[0m\x1b[0\"qEEEEEEEEEEEEEEEEEEEEEEEEEEEEEEEEEEEEEEEEEEEEEEEEEEEEEEEEEEEEEEEEEEEEEEEEEEEEEEEE\x1b[24;1H\x1b[0m\x1b[0\"qEEEEEEEEEEEEEEEEEEEEEEEEEEEEEEEEEEEEEEEEEEEEEEEEEEEEEEEEEEEEEEEEEEEEEEEEEEEEEEEE\x1b[1;1H\x1b[0m\x1b[0\"q\x1b(B\x1b)B\x1b*<\x1b+<\x0f\x1b}");
};

/// Returns the rows of a table.
fn width_2() -> &'static [Row]
    ensures count { length result.now ≡ 1 }
    ensures fit { AreFit result.now }
{
    WIDTH_2_ROWS
}

const WIDTH_3_ROWS: &[Row; 1] = rows! {
    "width: the alignment display at 132 columns" b"\x1b[?3h\x1b#8" "EEEEEEEEEEEEEEEEEEEEEEEEEEEEEEEEEEEEEEEEEEEEEEEEEEEEEEEEEEEEEEEEEEEEEEEEEEEEEEEEEEEEEEEEEEEEEEEEEEEEEEEEEEEEEEEEEEEEEEEEEEEEEEEEEEEE\nEEEEEEEEEEEEEEEEEEEEEEEEEEEEEEEEEEEEEEEEEEEEEEEEEEEEEEEEEEEEEEEEEEEEEEEEEEEEEEEEEEEEEEEEEEEEEEEEEEEEEEEEEEEEEEEEEEEEEEEEEEEEEEEEEEEE\nEEEEEEEEEEEEEEEEEEEEEEEEEEEEEEEEEEEEEEEEEEEEEEEEEEEEEEEEEEEEEEEEEEEEEEEEEEEEEEEEEEEEEEEEEEEEEEEEEEEEEEEEEEEEEEEEEEEEEEEEEEEEEEEEEEEE\nEEEEEEEEEEEEEEEEEEEEEEEEEEEEEEEEEEEEEEEEEEEEEEEEEEEEEEEEEEEEEEEEEEEEEEEEEEEEEEEEEEEEEEEEEEEEEEEEEEEEEEEEEEEEEEEEEEEEEEEEEEEEEEEEEEEE\nEEEEEEEEEEEEEEEEEEEEEEEEEEEEEEEEEEEEEEEEEEEEEEEEEEEEEEEEEEEEEEEEEEEEEEEEEEEEEEEEEEEEEEEEEEEEEEEEEEEEEEEEEEEEEEEEEEEEEEEEEEEEEEEEEEEE\nEEEEEEEEEEEEEEEEEEEEEEEEEEEEEEEEEEEEEEEEEEEEEEEEEEEEEEEEEEEEEEEEEEEEEEEEEEEEEEEEEEEEEEEEEEEEEEEEEEEEEEEEEEEEEEEEEEEEEEEEEEEEEEEEEEEE\nEEEEEEEEEEEEEEEEEEEEEEEEEEEEEEEEEEEEEEEEEEEEEEEEEEEEEEEEEEEEEEEEEEEEEEEEEEEEEEEEEEEEEEEEEEEEEEEEEEEEEEEEEEEEEEEEEEEEEEEEEEEEEEEEEEEE\nEEEEEEEEEEEEEEEEEEEEEEEEEEEEEEEEEEEEEEEEEEEEEEEEEEEEEEEEEEEEEEEEEEEEEEEEEEEEEEEEEEEEEEEEEEEEEEEEEEEEEEEEEEEEEEEEEEEEEEEEEEEEEEEEEEEE\nEEEEEEEEEEEEEEEEEEEEEEEEEEEEEEEEEEEEEEEEEEEEEEEEEEEEEEEEEEEEEEEEEEEEEEEEEEEEEEEEEEEEEEEEEEEEEEEEEEEEEEEEEEEEEEEEEEEEEEEEEEEEEEEEEEEE\nEEEEEEEEEEEEEEEEEEEEEEEEEEEEEEEEEEEEEEEEEEEEEEEEEEEEEEEEEEEEEEEEEEEEEEEEEEEEEEEEEEEEEEEEEEEEEEEEEEEEEEEEEEEEEEEEEEEEEEEEEEEEEEEEEEEE\nEEEEEEEEEEEEEEEEEEEEEEEEEEEEEEEEEEEEEEEEEEEEEEEEEEEEEEEEEEEEEEEEEEEEEEEEEEEEEEEEEEEEEEEEEEEEEEEEEEEEEEEEEEEEEEEEEEEEEEEEEEEEEEEEEEEE\nEEEEEEEEEEEEEEEEEEEEEEEEEEEEEEEEEEEEEEEEEEEEEEEEEEEEEEEEEEEEEEEEEEEEEEEEEEEEEEEEEEEEEEEEEEEEEEEEEEEEEEEEEEEEEEEEEEEEEEEEEEEEEEEEEEEE\nEEEEEEEEEEEEEEEEEEEEEEEEEEEEEEEEEEEEEEEEEEEEEEEEEEEEEEEEEEEEEEEEEEEEEEEEEEEEEEEEEEEEEEEEEEEEEEEEEEEEEEEEEEEEEEEEEEEEEEEEEEEEEEEEEEEE\nEEEEEEEEEEEEEEEEEEEEEEEEEEEEEEEEEEEEEEEEEEEEEEEEEEEEEEEEEEEEEEEEEEEEEEEEEEEEEEEEEEEEEEEEEEEEEEEEEEEEEEEEEEEEEEEEEEEEEEEEEEEEEEEEEEEE\nEEEEEEEEEEEEEEEEEEEEEEEEEEEEEEEEEEEEEEEEEEEEEEEEEEEEEEEEEEEEEEEEEEEEEEEEEEEEEEEEEEEEEEEEEEEEEEEEEEEEEEEEEEEEEEEEEEEEEEEEEEEEEEEEEEEE\nEEEEEEEEEEEEEEEEEEEEEEEEEEEEEEEEEEEEEEEEEEEEEEEEEEEEEEEEEEEEEEEEEEEEEEEEEEEEEEEEEEEEEEEEEEEEEEEEEEEEEEEEEEEEEEEEEEEEEEEEEEEEEEEEEEEE\nEEEEEEEEEEEEEEEEEEEEEEEEEEEEEEEEEEEEEEEEEEEEEEEEEEEEEEEEEEEEEEEEEEEEEEEEEEEEEEEEEEEEEEEEEEEEEEEEEEEEEEEEEEEEEEEEEEEEEEEEEEEEEEEEEEEE\nEEEEEEEEEEEEEEEEEEEEEEEEEEEEEEEEEEEEEEEEEEEEEEEEEEEEEEEEEEEEEEEEEEEEEEEEEEEEEEEEEEEEEEEEEEEEEEEEEEEEEEEEEEEEEEEEEEEEEEEEEEEEEEEEEEEE\nEEEEEEEEEEEEEEEEEEEEEEEEEEEEEEEEEEEEEEEEEEEEEEEEEEEEEEEEEEEEEEEEEEEEEEEEEEEEEEEEEEEEEEEEEEEEEEEEEEEEEEEEEEEEEEEEEEEEEEEEEEEEEEEEEEEE\nEEEEEEEEEEEEEEEEEEEEEEEEEEEEEEEEEEEEEEEEEEEEEEEEEEEEEEEEEEEEEEEEEEEEEEEEEEEEEEEEEEEEEEEEEEEEEEEEEEEEEEEEEEEEEEEEEEEEEEEEEEEEEEEEEEEE\nEEEEEEEEEEEEEEEEEEEEEEEEEEEEEEEEEEEEEEEEEEEEEEEEEEEEEEEEEEEEEEEEEEEEEEEEEEEEEEEEEEEEEEEEEEEEEEEEEEEEEEEEEEEEEEEEEEEEEEEEEEEEEEEEEEEE\nEEEEEEEEEEEEEEEEEEEEEEEEEEEEEEEEEEEEEEEEEEEEEEEEEEEEEEEEEEEEEEEEEEEEEEEEEEEEEEEEEEEEEEEEEEEEEEEEEEEEEEEEEEEEEEEEEEEEEEEEEEEEEEEEEEEE\nEEEEEEEEEEEEEEEEEEEEEEEEEEEEEEEEEEEEEEEEEEEEEEEEEEEEEEEEEEEEEEEEEEEEEEEEEEEEEEEEEEEEEEEEEEEEEEEEEEEEEEEEEEEEEEEEEEEEEEEEEEEEEEEEEEEE\nEEEEEEEEEEEEEEEEEEEEEEEEEEEEEEEEEEEEEEEEEEEEEEEEEEEEEEEEEEEEEEEEEEEEEEEEEEEEEEEEEEEEEEEEEEEEEEEEEEEEEEEEEEEEEEEEEEEEEEEEEEEEEEEEEEEE\n" b"" Some("\x1bc\x1b[?3h\x1b(B\x1b*<\x1b+0\x0f\x1b[1;1H\x1b[0m\x1b[0\"qEEEEEEEEEEEEEEEEEEEEEEEEEEEEEEEEEEEEEEEEEEEEEEEEEEEEEEEEEEEEEEEEEEEEEEEEEEEEEEEEEEEEEEEEEEEEEEEEEEEEEEEEEEEEEEEEEEEEEEEEEEEEEEEEEEEE\x1b[2;1H\x1b[0m\x1b[0\"qEEEEEEEEEEEEEEEEEEEEEEEEEEEEEEEEEEEEEEEEEEEEEEEEEEEEEEEEEEEEEEEEEEEEEEEEEEEEEEEEEEEEEEEEEEEEEEEEEEEEEEEEEEEEEEEEEEEEEEEEEEEEEEEEEEEE\x1b[3;1H\x1b[0m\x1b[0\"qEEEEEEEEEEEEEEEEEEEEEEEEEEEEEEEEEEEEEEEEEEEEEEEEEEEEEEEEEEEEEEEEEEEEEEEEEEEEEEEEEEEEEEEEEEEEEEEEEEEEEEEEEEEEEEEEEEEEEEEEEEEEEEEEEEEE\x1b[4;1H\x1b[0m\x1b[0\"qEEEEEEEEEEEEEEEEEEEEEEEEEEEEEEEEEEEEEEEEEEEEEEEEEEEEEEEEEEEEEEEEEEEEEEEEEEEEEEEEEEEEEEEEEEEEEEEEEEEEEEEEEEEEEEEEEEEEEEEEEEEEEEEEEEEE\x1b[5;1H\x1b[0m\x1b[0\"qEEEEEEEEEEEEEEEEEEEEEEEEEEEEEEEEEEEEEEEEEEEEEEEEEEEEEEEEEEEEEEEEEEEEEEEEEEEEEEEEEEEEEEEEEEEEEEEEEEEEEEEEEEEEEEEEEEEEEEEEEEEEEEEEEEEE\x1b[6;1H\x1b[0m\x1b[0\"qEEEEEEEEEEEEEEEEEEEEEEEEEEEEEEEEEEEEEEEEEEEEEEEEEEEEEEEEEEEEEEEEEEEEEEEEEEEEEEEEEEEEEEEEEEEEEEEEEEEEEEEEEEEEEEEEEEEEEEEEEEEEEEEEEEEE\x1b[7;1H\x1b[0m\x1b[0\"qEEEEEEEEEEEEEEEEEEEEEEEEEEEEEEEEEEEEEEEEEEEEEEEEEEEEEEEEEEEEEEEEEEEEEEEEEEEEEEEEEEEEEEEEEEEEEEEEEEEEEEEEEEEEEEEEEEEEEEEEEEEEEEEEEEEE\x1b[8;1H\x1b[0m\x1b[0\"qEEEEEEEEEEEEEEEEEEEEEEEEEEEEEEEEEEEEEEEEEEEEEEEEEEEEEEEEEEEEEEEEEEEEEEEEEEEEEEEEEEEEEEEEEEEEEEEEEEEEEEEEEEEEEEEEEEEEEEEEEEEEEEEEEEEE\x1b[9;1H\x1b[0m\x1b[0\"qEEEEEEEEEEEEEEEEEEEEEEEEEEEEEEEEEEEEEEEEEEEEEEEEEEEEEEEEEEEEEEEEEEEEEEEEEEEEEEEEEEEEEEEEEEEEEEEEEEEEEEEEEEEEEEEEEEEEEEEEEEEEEEEEEEEE\x1b[10;1H\x1b[0m\x1b[0\"qEEEEEEEEEEEEEEEEEEEEEEEEEEEEEEEEEEEEEEEEEEEEEEEEEEEEEEEEEEEEEEEEEEEEEEEEEEEEEEEEEEEEEEEEEEEEEEEEEEEEEEEEEEEEEEEEEEEEEEEEEEEEEEEEEEEE\x1b[11;1H\x1b[0m\x1b[0\"qEEEEEEEEEEEEEEEEEEEEEEEEEEEEEEEEEEEEEEEEEEEEEEEEEEEEEEEEEEEEEEEEEEEEEEEEEEEEEEEEEEEEEEEEEEEEEEEEEEEEEEEEEEEEEEEEEEEEEEEEEEEEEEEEEEEE\x1b[12;1H\x1b[0m\x1b[0\"qEEEEEEEEEEEEEEEEEEEEEEEEEEEEEEEEEEEEEEEEEEEEEEEEEEEEEEEEEEEEEEEEEEEEEEEEEEEEEEEEEEEEEEEEEEEEEEEEEEEEEEEEEEEEEEEEEEEEEEEEEEEEEEEEEEEE\x1b[13;1H\x1b[0m\x1b[0\"qEEEEEEEEEEEEEEEEEEEEEEEEEEEEEEEEEEEEEEEEEEEEEEEEEEEEEEEEEEEEEEEEEEEEEEEEEEEEEEEEEEEEEEEEEEEEEEEEEEEEEEEEEEEEEEEEEEEEEEEEEEEEEEEEEEEE\x1b[14;1H\x1b[0m\x1b[0\"qEEEEEEEEEEEEEEEEEEEEEEEEEEEEEEEEEEEEEEEEEEEEEEEEEEEEEEEEEEEEEEEEEEEEEEEEEEEEEEEEEEEEEEEEEEEEEEEEEEEEEEEEEEEEEEEEEEEEEEEEEEEEEEEEEEEE\x1b[15;1H\x1b[0m\x1b[0\"qEEEEEEEEEEEEEEEEEEEEEEEEEEEEEEEEEEEEEEEEEEEEEEEEEEEEEEEEEEEEEEEEEEEEEEEEEEEEEEEEEEEEEEEEEEEEEEEEEEEEEEEEEEEEEEEEEEEEEEEEEEEEEEEEEEEE\x1b[16;1H\x1b[0m\x1b[0\"qEEEEEEEEEEEEEEEEEEEEEEEEEEEEEEEEEEEEEEEEEEEEEEEEEEEEEEEEEEEEEEEEEEEEEEEEEEEEEEEEEEEEEEEEEEEEEEEEEEEEEEEEEEEEEEEEEEEEEEEEEEEEEEEEEEEE\x1b[17;1H\x1b[0m\x1b[0\"qEEEEEEEEEEEEEEEEEEEEEEEEEEEEEEEEEEEEEEEEEEEEEEEEEEEEEEEEEEEEEEEEEEEEEEEEEEEEEEEEEEEEEEEEEEEEEEEEEEEEEEEEEEEEEEEEEEEEEEEEEEEEEEEEEEEE\x1b[18;1H\x1b[0m\x1b[0\"qEEEEEEEEEEEEEEEEEEEEEEEEEEEEEEEEEEEEEEEEEEEEEEEEEEEEEEEEEEEEEEEEEEEEEEEEEEEEEEEEEEEEEEEEEEEEEEEEEEEEEEEEEEEEEEEEEEEEEEEEEEEEEEEEEEEE\x1b[19;1H\x1b[0m\x1b[0\"qEEEEEEEEEEEEEEEEEEEEEEEEEEEEEEEEEEEEEEEEEEEEEEEEEEEEEEEEEEEEEEEEEEEEEEEEEEEEEEEEEEEEEEEEEEEEEEEEEEEEEEEEEEEEEEEEEEEEEEEEEEEEEEEEEEEE\x1b[20;1H\x1b[0m\x1b[0\"qEEEEEEEEEEEEEEEEEEEEEEEEEEEEEEEEEEEEEEEEEEEEEEEEEEEEEEEEEEEEEEEEEEEEEEEEEEEEEEEEEEEEEEEEEEEEEEEEEEEEEEEEEEEEEEEEEEEEEEEEEEEEEEEEEEEE\x1b[21;1H\x1b[0m\x1b[0\"qEEEEEEEEEEEEEEEEEEEEEEEEEEEEEEEEEEEEEEEEEEEEEEEEEEEEEEEEEEEEEEEEEEEEEEEEEEEEEEEEEEEEEEEEEEEEEEEEEEEEEEEEEEEEEEEEEEEEEEEEEEEEEEEEEEEE\x1b[22;1H\x1b[0m\x1b[0\"qEEEEEEEEEEEEEEEEEEEEEEEEEEEEEEEEEEEEEEEEEEEEEEEEEEEEEEEEEEEEEEEEEEEEEEEEEEEEEEEEEEEEEEEEEEEEEEEEEEEEEEEEEEEEEEEEEEEEEEEEEEEEEEEEEEEE\x1b[23;1H\x1b[0m\x1b[0\"qEEEEEEEEEEEEEEEEEEEEEEEEEEEEEEEEEEEEEEEEEEEEEEEEEEEEEEEEEEEEEEEEEEEEEEEEEEEEEEEEEEEEEEEEEEEEEEEEEEEEEEEEEEEEEEEEEEEEEEEEEEEEEEEEEEEE\x1b[24;1H\x1b[0m\x1b[0\"qEEEEEEEEEEEEEEEEEEEEEEEEEEEEEEEEEEEEEEEEEEEEEEEEEEEEEEEEEEEEEEEEEEEEEEEEEEEEEEEEEEEEEEEEEEEEEEEEEEEEEEEEEEEEEEEEEEEEEEEEEEEEEEEEEEEE\x1b[1;1H\x1b[0m\x1b[0\"q\x1b(B\x1b)B\x1b*<\x1b+<\x0f\x1b}");
};

/// Returns the rows of a table.
fn width_3() -> &'static [Row]
    ensures count { length result.now ≡ 1 }
    ensures fit { AreFit result.now }
{
    WIDTH_3_ROWS
}

const WIDTH_4_ROWS: &[Row; 5] = rows! {
    "width: a repaint of the time of 80 columns alone, played: the one stop stays" b"\x1bc\x1b[3g\x1b[1;5H\x1bH\x1b[1;5H\x1b[0m\x1b[0\"q\x1b(B\x1b)B\x1b*<\x1b+<\x0f\x1b}" "\n\n\n\n\n\n\n\n\n\n\n\n\n\n\n\n\n\n\n\n\n\n\n\n" b"" Some("\x1bc\x1b[?3h\x1b[3g\x1b[1;5H\x1bH\x1b[?3l\x1b[1;5H\x1b[0m\x1b[0\"q\x1b(B\x1b)B\x1b*<\x1b+<\x0f\x1b}");
    "width: a repaint of the time of 80 columns alone that knew no stop past column 80: none is there" b"\x1bc\x1b[3g\x1b[1;6H\x1bH\x1b[1;9H\x1bH\x1b[1;17H\x1bH\x1b[1;25H\x1bH\x1b[1;33H\x1bH\x1b[1;41H\x1bH\x1b[1;49H\x1bH\x1b[1;57H\x1bH\x1b[1;65H\x1bH\x1b[1;73H\x1bH\x1b[1;6H\x1b[0m\x1b[0\"q\x1b(B\x1b)B\x1b*<\x1b+<\x0f\x1b}" "\n\n\n\n\n\n\n\n\n\n\n\n\n\n\n\n\n\n\n\n\n\n\n\n" b"" Some("\x1bc\x1b[?3h\x1b[3g\x1b[1;6H\x1bH\x1b[1;9H\x1bH\x1b[1;17H\x1bH\x1b[1;25H\x1bH\x1b[1;33H\x1bH\x1b[1;41H\x1bH\x1b[1;49H\x1bH\x1b[1;57H\x1bH\x1b[1;65H\x1bH\x1b[1;73H\x1bH\x1b[?3l\x1b[1;6H\x1b[0m\x1b[0\"q\x1b(B\x1b)B\x1b*<\x1b+<\x0f\x1b}");
    "width: 132 columns are cleared" b"A\x1b[?3hB" "B\n\n\n\n\n\n\n\n\n\n\n\n\n\n\n\n\n\n\n\n\n\n\n\n" b"" Some("\x1bc\x1b[?3h\x1b(B\x1b*<\x1b+0\x0f\x1b[1;1H\x1b[0m\x1b[0\"qB\x1b[1;2H\x1b[0m\x1b[0\"q\x1b(B\x1b)B\x1b*<\x1b+<\x0f\x1b}");
    "width: a change of columns makes full margins, and home is in row 1 under origin mode" b"\x1b[5;10r\x1b[?6h\x1b[?3h" "\n\n\n\n\n\n\n\n\n\n\n\n\n\n\n\n\n\n\n\n\n\n\n\n" b"" Some("\x1bc\x1b[?3h\x1b[?6h\x1b[1;1H\x1b[0m\x1b[0\"q\x1b(B\x1b)B\x1b*<\x1b+<\x0f\x1b}");
    "width: a change to the same columns drops the saved wrap flag" b"xxxxxxxxxxxxxxxxxxxxxxxxxxxxxxxxxxxxxxxxxxxxxxxxxxxxxxxxxxxxxxxxxxxxxxxxxxxxxxxx\x1b7\x1b[?3l" "\n\n\n\n\n\n\n\n\n\n\n\n\n\n\n\n\n\n\n\n\n\n\n\n" b"" Some("\x1bc\x1b[1;80H\x1b[0m\x1b[0\"q\x1b(B\x1b)B\x1b*<\x1b+<\x0f\x1b}\x1b7\x1b[1;1H\x1b[0m\x1b[0\"q\x1b(B\x1b)B\x1b*<\x1b+<\x0f\x1b}");
};

/// Returns the rows of a table.
fn width_4() -> &'static [Row]
    ensures count { length result.now ≡ 5 }
    ensures fit { AreFit result.now }
{
    WIDTH_4_ROWS
}

/// The number of all rows.
pub(super) const COUNT: usize = 191;

/// Returns the tables.
pub(super) fn tables() -> [&'static [Row]; 24]
    ensures size { length result ≡ 24 }
    ensures count { sum_by (λ rows. length rows.now) result ≡ COUNT }
    ensures fit { All (λ rows. AreFit rows.now) result }
{
    [
        plain_1(),
        plain_2(),
        syntax_1(),
        syntax_2(),
        syntax_3(),
        held_1(),
        held_2(),
        sets_1(),
        sets_2(),
        sets_3(),
        attributes_1(),
        attributes_2(),
        editing_1(),
        editing_2(),
        cursor_1(),
        cursor_2(),
        cursor_3(),
        modes_1(),
        modes_2(),
        reports_1(),
        width_1(),
        width_2(),
        width_3(),
        width_4(),
    ]
}
