//! Each growth refused, one after another, until a call meets no refusal; and calls that take no memory.
ghost use Rattle.std.specs.Prelude.{◌+◌, ◌≤◌, vec_len, vec_capacity};

use super::command_line::words_of;
use super::common::{Failed, LIMIT, Played, replayed};
use crate::rows::holds;
use crate::scarce::{BLOCKS, Growing, Scarce, follows_ok, refusals};
use std::alloc::{AllocError, Global};
use vt_paint::{PAINT_LIMIT, PaintError, repaint, repaint_reserved};
use vt_picture::laws::vt220_limits;
use vt_picture::sized::{picture, picture_reserved, show, show_reserved};
use vt_picture::{PICTURE_LIMIT, SHOW_LIMIT};
use vt_replay::{Fault, Format, Refused, Request, Watched, What, Word, carry_out, request};
use vt_term::{ROW_TEXT_LIMIT, ROWS, TEXT_LIMIT, Terminal};
use vt_vectors::{Mismatch, Vector, check, vector, vector_count};

/// No input; a full line and a question; a saved cursor; and questions in the 8-bit form.
const INPUTS: [&[u8]; 4] = [
    b"",
    b"xxxxxxxxxxxxxxxxxxxxxxxxxxxxxxxxxxxxxxxxxxxxxxxxxxxxxxxxxxxxxxxxxxxxxxxxxxxxxxxx\x1b[6n",
    b"\x1b[?6h\x1b[20;3H\x1b7\x1b[2;5r\x1b8",
    b"\x1b G\x1b[c\x1b[>c",
];

/// `Terminal::new`.
#[derive(Drop)]
struct Making {
    alloc: Global,
    made: Option<Terminal>,
}

impl Growing for Making {
    fn has_memory(&mut self) -> bool {
        self.made = Terminal::new(self.alloc).ok();
        self.made.is_some()
    }

    fn is_unchanged(&self) -> bool {
        self.made.is_none()
    }
}

/// Returns whether a terminal that was refused at first is then as any other.
fn new_is_refused(alloc: Global) -> Result<bool, Failed> {
    let never_asked = Terminal::new(alloc)?;
    let mut making = Making { alloc, made: None };
    let (refused, changed) = refusals(alloc, &mut making)?;
    let made = making.made.ok_or(Failed)?;
    Ok(refused > 0 && changed == 0 && made.same_state(&never_asked))
}

#[test]
fn each_growth_of_new_is_refused(rt: HostRuntime) {
    holds(&rt, "new", new_is_refused(rt.alloc()));
}

/// `Terminal::feed`.
#[derive(Drop)]
struct Feeding<'a> {
    terminal: Terminal,
    out: Vec<u8>,
    input: &'a [u8],
    /// A terminal that was never asked.
    other: Terminal,
}

impl Growing for Feeding<'_> {
    fn has_memory(&mut self) -> bool {
        self.terminal.feed(self.input, &mut self.out).is_ok()
    }

    fn is_unchanged(&self) -> bool {
        self.terminal.same_state(&self.other) && self.out.as_slice() == b"ok".as_slice()
    }
}

/// Returns whether a piece that was refused, also more than once, is then played as if it never had been.
fn feed_is_refused(alloc: Global, input: &[u8]) -> Result<bool, Failed> {
    let mut feeding = Feeding {
        terminal: Terminal::new(alloc)?,
        out: Vec::from_slice(alloc, b"ok")?,
        input,
        other: Terminal::new(alloc)?,
    };
    let (refused, changed) = refusals(alloc, &mut feeding)?;
    Ok((refused > 0) != input.is_empty() && changed == 0 && is_fed(alloc, &feeding)?)
}

/// Returns whether the piece was played as by a call that had its memory at once.
fn is_fed(alloc: Global, feeding: &Feeding<'_>) -> Result<bool, Failed> {
    let expected = Played::of(alloc, &[feeding.input])?;
    Ok(
        feeding.terminal.same_state(&expected.terminal)
            && follows_ok(&feeding.out, &expected.reports),
    )
}

/// Appends the picture, the text with its attributes, the repaint or the plain text, and returns whether
/// that had its memory.
fn append_view(terminal: &Terminal, what: What, out: &mut Vec<u8>) -> bool {
    match what {
        What::Picture => picture(&terminal.sized, out).is_ok(),
        What::Show => show(&terminal.sized, out).is_ok(),
        What::Repaint => repaint(terminal, out) != Err(PaintError::Memory),
        _ => terminal.text(out).is_ok(),
    }
}

/// A view, appended.
#[derive(Drop)]
struct Viewing {
    terminal: Terminal,
    out: Vec<u8>,
    what: What,
}

impl Growing for Viewing {
    fn has_memory(&mut self) -> bool {
        append_view(&self.terminal, self.what, &mut self.out)
    }

    fn is_unchanged(&self) -> bool {
        self.out.as_slice() == b"ok".as_slice()
    }
}

/// Returns whether a view that was refused, also more than once, is then appended as if it never had been.
fn view_is_refused(alloc: Global, input: &[u8], what: What) -> Result<bool, Failed> {
    let mut viewing = Viewing {
        terminal: Played::of(alloc, &[input])?.terminal,
        out: Vec::from_slice(alloc, b"ok")?,
        what,
    };
    let (refused, changed) = refusals(alloc, &mut viewing)?;
    let mut expected = Vec::new(alloc);
    let has_memory = append_view(&viewing.terminal, what, &mut expected);
    Ok(
        refused > 0
            && changed == 0
            && has_memory
            && !expected.is_empty()
            && follows_ok(&viewing.out, &expected),
    )
}

/// Returns whether that is so of each of these views.
fn views_are_refused(alloc: Global, input: &[u8]) -> Result<bool, Failed> {
    for what in &[What::Text, What::Show, What::Repaint] {
        if !view_is_refused(alloc, input, *what)? {
            return Ok(false);
        }
    }
    Ok(true)
}

#[test]
fn each_growth_of_feed_text_show_and_repaint_is_refused(rt: HostRuntime) {
    for (i, input) in INPUTS.iter().enumerate() {
        holds(&rt, i, feed_is_refused(rt.alloc(), input));
        holds(&rt, i, views_are_refused(rt.alloc(), input));
    }
}

/// The longest input of these tests.
const LONGEST: usize = 100;

/// Appends the reports of an input, the texts, the picture and the repaint by the calls that can't be refused. False
/// where the input is too long or ends inside a sequence.
fn append_reserved(terminal: &mut Terminal, input: &[u8], out: &mut Vec<u8>) -> bool
    requires { vec_len out.old + (1000 + TEXT_LIMIT + SHOW_LIMIT + PICTURE_LIMIT + PAINT_LIMIT) ≤ vec_capacity out.old }
{
    vt220_limits();
    if input.len() > LONGEST {
        return false;
    }
    terminal.feed_reserved(input, out);
    terminal.text_reserved(out);
    show_reserved(&terminal.sized, out);
    picture_reserved(&terminal.sized, out);
    if !terminal.is_between() {
        return false;
    }
    repaint_reserved(terminal, out);
    true
}

/// Appends the same by the calls that can be refused. Returns whether none was.
fn append(terminal: &mut Terminal, input: &[u8], out: &mut Vec<u8>) -> bool {
    terminal.feed(input, out).is_ok()
        && terminal.text(out).is_ok()
        && show(&terminal.sized, out).is_ok()
        && picture(&terminal.sized, out).is_ok()
        && repaint(terminal, out).is_ok()
}

/// Returns whether calls with the capacity for what they append are never refused, take no memory, and append this.
fn takes_no_memory(
    alloc: Global,
    input: &[u8],
    reserved: bool,
    expected: &[u8],
) -> Result<bool, Failed> {
    let mut terminal = Terminal::new(alloc)?;
    let mut out = Vec::with_capacity(
        alloc,
        2000 + TEXT_LIMIT + SHOW_LIMIT + PICTURE_LIMIT + PAINT_LIMIT,
    )?;
    let capacity = out.capacity();
    let scarce = Scarce::new(alloc)?;
    let answered = if reserved {
        append_reserved(&mut terminal, input, &mut out)
    } else {
        append(&mut terminal, input, &mut out)
    };
    drop(scarce);
    Ok(answered && out.capacity() == capacity && out.as_slice() == expected)
}

/// Returns what these calls append.
fn appended(alloc: Global, input: &[u8]) -> Result<Vec<u8>, Failed> {
    let mut out = Vec::new(alloc);
    let mut terminal = Terminal::new(alloc)?;
    if !append(&mut terminal, input, &mut out) {
        return Err(Failed);
    }
    Ok(out)
}

/// Returns whether none of these calls takes memory, and both kinds append the same as with ample memory.
fn none_takes_memory(alloc: Global, input: &[u8]) -> Result<bool, Failed> {
    let expected = appended(alloc, input)?;
    Ok(
        takes_no_memory(alloc, input, false, &expected)?
            && takes_no_memory(alloc, input, true, &expected)?,
    )
}

#[test]
fn calls_with_room_take_no_memory(rt: HostRuntime) {
    for (i, input) in INPUTS.iter().enumerate() {
        holds(&rt, i, none_takes_memory(rt.alloc(), input));
    }
}

/// The result of a request if allocation fails.
const MEMORY: Result<(), Fault> = Err(Fault::Memory);

/// `carry_out`, and with it `run`, `write_log` and `write_output`.
#[derive(Drop)]
struct Running<'a> {
    alloc: Global,
    reader: Watched<&'a [u8]>,
    writer: Watched<Vec<u8>>,
    request: Request,
    answered: Result<(), Fault>,
}

impl Growing for Running<'_> {
    fn has_memory(&mut self) -> bool {
        if self.reader.failed() || self.reader.ended() || self.writer.failed() {
            return true;
        }
        let outcome = carry_out(
            self.alloc,
            &mut self.reader,
            Format::Raw,
            None,
            &mut self.writer,
            &self.request,
        );
        self.answered = outcome.ended;
        self.answered != MEMORY
    }

    fn is_unchanged(&self) -> bool {
        !self.reader.failed() && !self.reader.ended() && !self.writer.failed()
    }
}

/// Returns whether a request that was refused, also more than once, has read and written nothing. In the end it writes what
/// a replay of this kind does.
fn request_is_refused(alloc: Global, input: &[u8], word: Word, what: What) -> Result<bool, Failed> {
    let mut running = Running {
        alloc,
        reader: Watched::new(input),
        writer: Watched::new(Vec::with_capacity(alloc, TEXT_LIMIT)?),
        request: Request {
            word,
            piece: 4096,
            limit: LIMIT,
            file: None,
            format: Some(Format::Raw),
            encoding: None,
            terminal: None,
            wide: None,
            size: None,
            timing: None,
            from: None,
            until: None,
            full: false,
            partial: false,
            quiet: false,
        },
        answered: MEMORY,
    };
    let (refused, changed) = refusals(alloc, &mut running)?;
    let expected = replayed(alloc, input, what, 4096)?;
    Ok(
        refused > 2
            && changed == 0
            && running.answered == Ok(())
            && running.writer.into_inner().as_slice() == expected.as_slice(),
    )
}

/// A word, and what is written for it. No line scrolls off, so a log is the text.
const REQUESTED: &[(Word, What)] = &[
    (Word::Replay(What::Text), What::Text),
    (Word::Replay(What::Reports), What::Reports),
    (Word::Replay(What::Repaint), What::Repaint),
    (Word::Replay(What::Status), What::Status),
    (Word::Replay(What::Show), What::Show),
    (Word::Log, What::Text),
];

/// Returns whether that is so of each of these words.
fn requests_are_refused(alloc: Global, input: &[u8]) -> Result<bool, Failed> {
    for (word, what) in REQUESTED {
        if !request_is_refused(alloc, input, *word, *what)? {
            return Ok(false);
        }
    }
    Ok(true)
}

#[test]
fn each_growth_of_a_request_is_refused(rt: HostRuntime) {
    for (i, input) in INPUTS.iter().enumerate() {
        holds(&rt, i, requests_are_refused(rt.alloc(), input));
    }
}

/// `request`, which takes the words.
#[derive(Drop)]
struct Asking {
    alloc: Global,
    copies: Vec<Vec<String>>,
    answered: Option<Result<Request, Refused>>,
}

/// Returns whether words were refused because an allocation failed.
fn is_want(answered: &Result<Request, Refused>) -> bool {
    match answered {
        Ok(_) => false,
        Err(refused) => refused.status == 1,
    }
}

impl Growing for Asking {
    fn has_memory(&mut self) -> bool {
        let Some(words) = self.copies.pop() else {
            return true;
        };
        let answered = request(self.alloc, words);
        let has_memory = !is_want(&answered);
        self.answered = Some(answered);
        has_memory
    }

    fn is_unchanged(&self) -> bool {
        match &self.answered {
            Some(Err(refused)) => refused.text.is_empty(),
            _ => false,
        }
    }
}

/// Returns as many copies of the words of a line as a call can be refused.
fn copies_of(alloc: Global, line: &str) -> Result<Vec<Vec<String>>, AllocError> {
    let mut copies = Vec::with_capacity(alloc, BLOCKS as usize)?;
    for _ in 0..BLOCKS {
        copies.push(words_of(alloc, line)?)?;
    }
    Ok(copies)
}

/// Returns whether words that were refused because an allocation failed are then answered as with ample memory. They
/// may be refused more than once, each time without a text.
fn words_are_refused(alloc: Global, line: &str) -> Result<bool, Failed> {
    let mut asking = Asking {
        alloc,
        copies: copies_of(alloc, line)?,
        answered: None,
    };
    let (refused, with_text) = refusals(alloc, &mut asking)?;
    let expected = request(alloc, words_of(alloc, line)?);
    Ok(refused > 2 && with_text == 0 && asking.answered == Some(expected))
}

const LINES: [&str; 4] = [
    "vt220 repaint --piece 1 --limit 0 a",
    "vt220 log a",
    "vt220 --help",
    "vt220 text --piece x",
];

#[test]
fn each_growth_of_words_is_refused(rt: HostRuntime) {
    for line in &LINES {
        holds(&rt, line, words_are_refused(rt.alloc(), line));
    }
}

/// `check`.
#[derive(Drop)]
struct Checking {
    alloc: Global,
    vector: Vector<'static>,
    answered: Result<(), Mismatch>,
}

impl Growing for Checking {
    fn has_memory(&mut self) -> bool {
        self.answered = check(self.alloc, &self.vector);
        self.answered != Err(Mismatch::Memory)
    }

    fn is_unchanged(&self) -> bool {
        self.answered == Err(Mismatch::Memory)
    }
}

/// Returns whether a check that was refused answers so and nothing else, also more than once. It is then made as if it
/// never had been.
fn check_is_refused(alloc: Global, vector: Vector<'static>) -> Result<bool, Failed> {
    let mut checking = Checking {
        alloc,
        vector,
        answered: Err(Mismatch::Memory),
    };
    let (refused, changed) = refusals(alloc, &mut checking)?;
    Ok(
        refused > 2
            && changed == 0
            && checking.answered == Ok(())
            && check(alloc, &vector) == Ok(()),
    )
}

/// Returns the vector that has an input.
fn vector_of(input: &[u8]) -> Option<Vector<'static>> {
    for i in 0..vector_count() {
        let v = vector(i);
        if v.input == input {
            return Some(v);
        }
    }
    None
}

/// Returns whether there is a vector with an input, and its check is refused so.
fn check_of_is_refused(alloc: Global, input: &[u8]) -> Result<bool, Failed> {
    match vector_of(input) {
        Some(v) => check_is_refused(alloc, v),
        None => Ok(false),
    }
}

#[test]
fn each_growth_of_check_is_refused(rt: HostRuntime) {
    for (i, input) in INPUTS.iter().enumerate() {
        holds(&rt, i, check_of_is_refused(rt.alloc(), input));
    }
}

/// Appends the text of a row, which takes no memory.
fn push_row_text(
    alloc: Global,
    terminal: &Terminal,
    row: usize,
    all: &mut Vec<u8>,
) -> Result<(), Failed>
    requires { (1 ≤ row) × (row ≤ 24) }
{
    let mut line = Vec::with_capacity(alloc, ROW_TEXT_LIMIT)?;
    let scarce = Scarce::new(alloc)?;
    terminal.sized.row_text_reserved(row, &mut line);
    drop(scarce);
    all.extend_from_slice(line.as_slice())?;
    Ok(())
}

/// Returns the texts of the rows, one after the other, each appended while no memory is left.
fn row_texts(alloc: Global, terminal: &Terminal) -> Result<Vec<u8>, Failed> {
    let mut all = Vec::new(alloc);
    for row in 1..=ROWS {
        push_row_text(alloc, terminal, row, &mut all)?;
    }
    Ok(all)
}

/// Returns whether these are the text of what an input leaves.
fn are_the_text(alloc: Global, input: &[u8]) -> Result<bool, Failed> {
    let mut expected = Vec::new(alloc);
    let terminal = Played::of(alloc, &[input])?.terminal;
    terminal.text(&mut expected)?;
    Ok(row_texts(alloc, &terminal)?.as_slice() == expected.as_slice())
}

#[test]
fn the_texts_of_the_rows_are_the_text(rt: HostRuntime) {
    for (i, input) in INPUTS.iter().enumerate() {
        holds(&rt, i, are_the_text(rt.alloc(), input));
    }
}
