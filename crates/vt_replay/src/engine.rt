//! The replay of an input: what is due of a terminal is an output.
ghost use Rattle.std.specs.Prelude.{◌≡◌, ◌≤◌, true, false, All};
ghost use Rattle.std.specs.Io.KnownBytes.{IsAtEnd};
ghost use Rattle.vt_term.specs.State.{power_up};
ghost use Rattle.vt_term.specs.Play.{play};
ghost use Rattle.vt_replay.specs.Due.{PlayedTable};
ghost use Rattle.vt_cli.specs.declared.what.What.TheVariants.{Repaint};
ghost use Rattle.vt_device.specs.Runs.{Moves};
ghost use Rattle.vt_replay.specs.Playing.{ReplayTable};
ghost use Rattle.vt_replay.specs.Resizes.{ResizedReplayTable, played_on, played_with};
ghost use Rattle.vt_replay.specs.declared.language.Language.TheVariants.{Xterm};
ghost use Rattle.vt_screen.specs.Sizes.{IsSize};

use crate::language::Language;
use crate::output::write_output_from;
use crate::player::{PlainPlayer, Player, Utf8Player, XtermPlayer};
use crate::resized::{Resize, Resized};
use crate::session::SessionOutput;
use crate::sized::SizedOutput;
use std::alloc::Global;
use std::io::{Read, Write};
use vt_cli::{Settings, What};
use vt_device::{Source, Watched};
use vt_recording::Fault;
use vt_term::Size;

/// Plays the reader's bytes on a new terminal, and writes what is due. Neither device has failed before, and the reader
/// hasn't ended.
///
/// It reads at most `piece` bytes at a time (1 to 65536), and at most `limit` bytes in all (up to 2 to the 40th). Then it
/// reads one more to see whether the input goes on. It allocates all memory before the first read. It calls no device
/// again after an error. The input ends when a read gives no byte. Reports are written before the next read, everything
/// else after the whole input was read. If the reader has ended, no byte that it reports as its own is left.
///
/// `Err` is `Memory` if allocation fails, `Read` or `Write` if that device failed, `TooLong` if the input has more than
/// `limit` bytes, and `Partial` if a repaint is asked for and the input ends inside a sequence.
///
/// The table of results is about the bytes that the reader reports as its own (`remaining`) and those of the writer
/// (`contents`). Devices over memory report these. A file, a pipe, standard input and standard output report none. For
/// these the table states which flags go with which result, and that what was written is what is due for some bytes.
pub fn run<R: Read, W: Write>(
    alloc: Global,
    reader: &mut Watched<R>,
    writer: &mut Watched<W>,
    what: What,
    piece: usize,
    limit: u64,
) -> Result<(), Fault>
    requires reader_works { reader.old.failed ≡ false }
    requires reader_goes_on { reader.old.ended ≡ false }
    requires writer_works { writer.old.failed ≡ false }
    requires piece_in_range { (1 ≤ piece) × (piece ≤ 65536) }
    requires limit_in_range { limit ≤ 1099511627776 }
    ensures answer { Moves (R.remaining reader.old.device) (R.remaining reader.new.device) (W.contents writer.old.device)
        (W.contents writer.new.device)
        (λ b w. PlayedTable (play power_up) what result piece b w (record { reader_failed = reader.new.failed; reader_ended = reader.new.ended; writer_failed = writer.new.failed }) limit) }
    ensures whole { reader.new.ended ≡ true → IsAtEnd (R.remaining reader.new.device) }
{
    run_from(alloc, reader, writer, what, Language::Dec, piece, limit)
}

/// Plays a source's bytes in a language on a new terminal, and writes what is due, as `run` does of a reader's. The source
/// hasn't failed or ended before. The pending part of UTF-8 at the end isn't played. `piece` and `limit` count the
/// host's bytes.
///
/// Under TERM=xterm a repaint is of the whole session: of the terminal, the page that isn't shown, and the modes that choose
/// between pages. It rebuilds all of them in any session under TERM=xterm.
///
/// `Err` is what `run` returns. Under TERM=xterm it is also `Partial` if a repaint is asked for and the input ends inside a
/// character.
pub fn run_from<S: Source, W: Write>(
    alloc: Global,
    reader: &mut S,
    writer: &mut Watched<W>,
    what: What,
    language: Language,
    piece: usize,
    limit: u64,
) -> Result<(), Fault>
    requires reader_works { S.failed reader.old ≡ false }
    requires reader_goes_on { S.ended reader.old ≡ false }
    requires writer_works { writer.old.failed ≡ false }
    requires piece_in_range { (1 ≤ piece) × (piece ≤ 65536) }
    requires limit_in_range { limit ≤ 1099511627776 }
    ensures answer { Moves (S.remaining reader.old) (S.remaining reader.new) (W.contents writer.old.device)
        (W.contents writer.new.device)
        (λ b w. ReplayTable language what result piece b w (record { reader_failed = S.failed reader.new; reader_ended = S.ended reader.new; writer_failed = writer.new.failed }) limit) }
    ensures whole { S.ended reader.new ≡ true → IsAtEnd (S.remaining reader.new) }
{
    let size = Size::vt220();
    run_at(
        alloc,
        reader,
        writer,
        what,
        language,
        size,
        &[],
        piece,
        limit,
    )
}

/// Plays a source's bytes in a language on a new terminal of a size, whose screen has these changes. Writes the
/// repaint, as `run_from` does on a VT220's screen.
fn run_repaint<S: Source, W: Write>(
    alloc: Global,
    reader: &mut S,
    writer: &mut Watched<W>,
    language: Language,
    size: Size,
    resizes: &[Resize],
    piece: usize,
    limit: u64,
) -> Result<(), Fault>
    requires reader_works { S.failed reader.old ≡ false }
    requires reader_goes_on { S.ended reader.old ≡ false }
    requires writer_works { writer.old.failed ≡ false }
    requires piece_in_range { (1 ≤ piece) × (piece ≤ 65536) }
    requires limit_in_range { limit ≤ 1099511627776 }
    requires size_in_range { IsSize size }
    requires sizes_in_range { All (λ r. IsSize r.size) resizes.now }
    ensures answer { Moves (S.remaining reader.old) (S.remaining reader.new) (W.contents writer.old.device)
        (W.contents writer.new.device)
        (λ b w. ResizedReplayTable size resizes.now language Repaint result piece b w (record { reader_failed = S.failed reader.new; reader_ended = S.ended reader.new; writer_failed = writer.new.failed }) limit) }
    ensures whole { S.ended reader.new ≡ true → IsAtEnd (S.remaining reader.new) }
{
    let what = What::Repaint;
    match language {
        Language::Dec => run_by::<PlainPlayer, S, W>(
            alloc, reader, writer, what, size, resizes, piece, limit,
        ),
        Language::Utf8 => run_by::<Utf8Player, S, W>(
            alloc, reader, writer, what, size, resizes, piece, limit,
        ),
        Language::Xterm => run_session(alloc, reader, writer, size, resizes, piece, limit),
    }
}

/// Plays a source's bytes under TERM=xterm on a new terminal of a size, whose screen has these changes. Writes the
/// repaint of the session.
fn run_session<S: Source, W: Write>(
    alloc: Global,
    reader: &mut S,
    writer: &mut Watched<W>,
    size: Size,
    resizes: &[Resize],
    piece: usize,
    limit: u64,
) -> Result<(), Fault>
    requires reader_works { S.failed reader.old ≡ false }
    requires reader_goes_on { S.ended reader.old ≡ false }
    requires writer_works { writer.old.failed ≡ false }
    requires piece_in_range { (1 ≤ piece) × (piece ≤ 65536) }
    requires limit_in_range { limit ≤ 1099511627776 }
    requires size_in_range { IsSize size }
    requires sizes_in_range { All (λ r. IsSize r.size) resizes.now }
    ensures answer { Moves (S.remaining reader.old) (S.remaining reader.new) (W.contents writer.old.device)
        (W.contents writer.new.device)
        (λ b w. ResizedReplayTable size resizes.now Xterm Repaint result piece b w (record { reader_failed = S.failed reader.new; reader_ended = S.ended reader.new; writer_failed = writer.new.failed }) limit) }
    ensures whole { S.ended reader.new ≡ true → IsAtEnd (S.remaining reader.new) }
{
    let mut output = SessionOutput::new(alloc, size, resizes, piece)?;
    write_output_from(alloc, &mut output, reader, writer, piece, limit)
}

/// Plays a source's bytes in a language on a new terminal of a size, whose screen has these changes. Writes what is
/// due, as `run_from` does on a VT220's screen.
///
/// `Err` is what `run_from` returns.
pub(crate) fn run_at<S: Source, W: Write>(
    alloc: Global,
    reader: &mut S,
    writer: &mut Watched<W>,
    what: What,
    language: Language,
    size: Size,
    resizes: &[Resize],
    piece: usize,
    limit: u64,
) -> Result<(), Fault>
    requires reader_works { S.failed reader.old ≡ false }
    requires reader_goes_on { S.ended reader.old ≡ false }
    requires writer_works { writer.old.failed ≡ false }
    requires piece_in_range { (1 ≤ piece) × (piece ≤ 65536) }
    requires limit_in_range { limit ≤ 1099511627776 }
    requires size_in_range { IsSize size }
    requires sizes_in_range { All (λ r. IsSize r.size) resizes.now }
    ensures answer { Moves (S.remaining reader.old) (S.remaining reader.new) (W.contents writer.old.device)
        (W.contents writer.new.device)
        (λ b w. ResizedReplayTable size resizes.now language what result piece b w (record { reader_failed = S.failed reader.new; reader_ended = S.ended reader.new; writer_failed = writer.new.failed }) limit) }
    ensures whole { S.ended reader.new ≡ true → IsAtEnd (S.remaining reader.new) }
{
    match what {
        What::Text => run_sized(
            alloc, reader, writer, what, language, size, resizes, piece, limit,
        ),
        What::Reports => run_sized(
            alloc, reader, writer, what, language, size, resizes, piece, limit,
        ),
        What::Status => run_sized(
            alloc, reader, writer, what, language, size, resizes, piece, limit,
        ),
        What::Show => run_sized(
            alloc, reader, writer, what, language, size, resizes, piece, limit,
        ),
        What::Picture => run_sized(
            alloc, reader, writer, what, language, size, resizes, piece, limit,
        ),
        What::Repaint => run_repaint(alloc, reader, writer, language, size, resizes, piece, limit),
    }
}

/// Plays a source's bytes in a language on a new terminal of a size, whose screen has these changes. Writes what is due
/// of the terminal.
fn run_sized<S: Source, W: Write>(
    alloc: Global,
    reader: &mut S,
    writer: &mut Watched<W>,
    what: What,
    language: Language,
    size: Size,
    resizes: &[Resize],
    piece: usize,
    limit: u64,
) -> Result<(), Fault>
    requires reader_works { S.failed reader.old ≡ false }
    requires reader_goes_on { S.ended reader.old ≡ false }
    requires writer_works { writer.old.failed ≡ false }
    requires piece_in_range { (1 ≤ piece) × (piece ≤ 65536) }
    requires limit_in_range { limit ≤ 1099511627776 }
    requires size_in_range { IsSize size }
    requires sizes_in_range { All (λ r. IsSize r.size) resizes.now }
    ensures answer { Moves (S.remaining reader.old) (S.remaining reader.new) (W.contents writer.old.device)
        (W.contents writer.new.device)
        (λ b w. PlayedTable (played_with size resizes.now language) what result piece b w (record { reader_failed = S.failed reader.new; reader_ended = S.ended reader.new; writer_failed = writer.new.failed }) limit) }
    ensures whole { S.ended reader.new ≡ true → IsAtEnd (S.remaining reader.new) }
{
    match language {
        Language::Dec => run_by::<PlainPlayer, S, W>(
            alloc, reader, writer, what, size, resizes, piece, limit,
        ),
        Language::Utf8 => run_by::<Utf8Player, S, W>(
            alloc, reader, writer, what, size, resizes, piece, limit,
        ),
        Language::Xterm => run_by::<XtermPlayer, S, W>(
            alloc, reader, writer, what, size, resizes, piece, limit,
        ),
    }
}

/// Plays a source's bytes by a new player of a size, whose screen has these changes, and writes what is due of the terminal.
fn run_by<P: Player, S: Source, W: Write>(
    alloc: Global,
    reader: &mut S,
    writer: &mut Watched<W>,
    what: What,
    size: Size,
    resizes: &[Resize],
    piece: usize,
    limit: u64,
) -> Result<(), Fault>
    requires reader_works { S.failed reader.old ≡ false }
    requires reader_goes_on { S.ended reader.old ≡ false }
    requires writer_works { writer.old.failed ≡ false }
    requires piece_in_range { (1 ≤ piece) × (piece ≤ 65536) }
    requires limit_in_range { limit ≤ 1099511627776 }
    requires size_in_range { IsSize size }
    requires sizes_in_range { All (λ r. IsSize r.size) resizes.now }
    ensures answer { Moves (S.remaining reader.old) (S.remaining reader.new) (W.contents writer.old.device)
        (W.contents writer.new.device)
        (λ b w. PlayedTable (played_on P.session (P.begun size) resizes.now) what result piece b w (record { reader_failed = S.failed reader.new; reader_ended = S.ended reader.new; writer_failed = writer.new.failed }) limit) }
    ensures whole { S.ended reader.new ≡ true → IsAtEnd (S.remaining reader.new) }
{
    let mut output = SizedOutput::new(Resized::<P>::new(alloc, size, resizes)?, what, piece);
    write_output_from(alloc, &mut output, reader, writer, piece, limit)
}

/// Plays the reader's bytes as the settings ask, and writes what is due: by `run`, with the kind, chunk size and limit
/// of the settings. It doesn't look at the file that they name: the caller opens it as the reader. Neither device has
/// failed before, and the reader hasn't ended.
///
/// `Err` is what `run` returns.
pub fn replay<R: Read, W: Write>(
    alloc: Global,
    reader: &mut Watched<R>,
    writer: &mut Watched<W>,
    settings: &Settings,
) -> Result<(), Fault>
    requires reader_works { reader.old.failed ≡ false }
    requires reader_goes_on { reader.old.ended ≡ false }
    requires writer_works { writer.old.failed ≡ false }
    ensures answer { Moves (R.remaining reader.old.device) (R.remaining reader.new.device) (W.contents writer.old.device)
        (W.contents writer.new.device)
        (λ b w. PlayedTable (play power_up) settings.now.what result settings.now.piece b w (record { reader_failed = reader.new.failed; reader_ended = reader.new.ended; writer_failed = writer.new.failed }) settings.now.limit) }
    ensures whole { reader.new.ended ≡ true → IsAtEnd (R.remaining reader.new.device) }
{
    run(
        alloc,
        reader,
        writer,
        settings.what,
        settings.piece,
        settings.limit,
    )
}
