//! The log of an input: its lines are written as they scroll off, and its screen at the end.
ghost use Rattle.std.specs.Prelude.{◌≡◌, ◌≤◌, true, false, All};
ghost use Rattle.std.specs.Io.KnownBytes.{IsAtEnd};
ghost use Rattle.vt_screen.specs.Sizes.{IsSize};
ghost use Rattle.vt_term.specs.Text.{text};
ghost use Rattle.vt_device.specs.Runs.{Moves};
ghost use Rattle.vt_replay.specs.Log.{lines, screen, lines_in, screen_in, lines_on, lines_with, screen_with};
ghost use Rattle.vt_replay.specs.Resizes.{played_on};
ghost use Rattle.vt_device.specs.Output.{OutputTable, always};

use crate::language::Language;
use crate::log_output::LogOutput;
use crate::log_player::LogPlayer;
use crate::output::write_output_from;
use crate::player::{PlainPlayer, Utf8Player, XtermPlayer};
use crate::resized::Resize;
use std::alloc::Global;
use std::io::{Read, Write};
use vt_device::{Source, Watched};
use vt_recording::Fault;
use vt_term::Size;

/// Plays the reader's bytes on a new terminal, and writes its log: the lines that scroll off the top of the screen, in
/// order, and after the whole input the text of the screen. Neither device has failed before, and the reader hasn't ended.
///
/// It reads and counts bytes as `run` does. It allocates all memory before the first read: its memory doesn't grow with
/// the input. It writes the lines of a chunk before the next read. The terminal's reports are dropped.
///
/// `Err` is `Memory` if allocation fails, `Read` or `Write` if that device failed, and `TooLong` if the input has more than
/// `limit` bytes. It is never `Partial`.
pub fn write_log<R: Read, W: Write>(
    alloc: Global,
    reader: &mut Watched<R>,
    writer: &mut Watched<W>,
    piece: usize,
    limit: u64,
) -> Result<(), Fault>
    requires reader_works { reader.old.failed ≡ false }
    requires reader_goes_on { reader.old.ended ≡ false }
    requires writer_works { writer.old.failed ≡ false }
    requires piece_in_range { (1 ≤ piece) × (piece ≤ 65536) }
    requires limit_in_range { limit ≤ 1099511627776 }
    ensures answer { Moves (R.remaining reader.old.device) (R.remaining reader.new.device) (W.contents writer.old.device)
        (W.contents writer.new.device)
        (λ b w. OutputTable lines screen always result piece b w (record { reader_failed = reader.new.failed; reader_ended = reader.new.ended; writer_failed = writer.new.failed }) limit) }
    ensures whole { reader.new.ended ≡ true → IsAtEnd (R.remaining reader.new.device) }
{
    write_log_from(alloc, reader, writer, Language::Dec, piece, limit)
}

/// Writes the log of a source's bytes in a language, as `write_log` does of a reader's. The source hasn't failed or ended
/// before. Under TERM=xterm no line scrolls off the alternate page. The pending part of UTF-8 at the end isn't played.
/// `piece` and `limit` count the host's bytes.
///
/// `Err` is what `write_log` returns.
pub fn write_log_from<S: Source, W: Write>(
    alloc: Global,
    reader: &mut S,
    writer: &mut Watched<W>,
    language: Language,
    piece: usize,
    limit: u64,
) -> Result<(), Fault>
    requires reader_works { S.failed reader.old ≡ false }
    requires reader_goes_on { S.ended reader.old ≡ false }
    requires writer_works { writer.old.failed ≡ false }
    requires piece_in_range { (1 ≤ piece) × (piece ≤ 65536) }
    requires limit_in_range { limit ≤ 1099511627776 }
    ensures answer { Moves (S.remaining reader.old) (S.remaining reader.new) (W.contents writer.old.device)
        (W.contents writer.new.device)
        (λ b w. OutputTable (lines_in language) (screen_in language) always result piece b w (record { reader_failed = S.failed reader.new; reader_ended = S.ended reader.new; writer_failed = writer.new.failed }) limit) }
    ensures whole { S.ended reader.new ≡ true → IsAtEnd (S.remaining reader.new) }
{
    let size = Size::vt220();
    write_log_at(alloc, reader, writer, language, size, &[], piece, limit)
}

/// Writes the log of a source's bytes in a language, on a screen of a size that has these changes, as `write_log_from` does
/// on a VT220's. The lines that leave at a change are written before those of the next byte.
///
/// `Err` is what `write_log` returns.
pub(crate) fn write_log_at<S: Source, W: Write>(
    alloc: Global,
    reader: &mut S,
    writer: &mut Watched<W>,
    language: Language,
    size: Size,
    resizes: &[Resize],
    piece: usize,
    limit: u64,
) -> Result<(), Fault>
    requires reader_works { S.failed reader.old ≡ false }
    requires reader_goes_on { S.ended reader.old ≡ false }
    requires writer_works { writer.old.failed ≡ false }
    requires size_in_range { IsSize size }
    requires sizes_in_range { All (λ r. IsSize r.size) resizes.now }
    requires piece_in_range { (1 ≤ piece) × (piece ≤ 65536) }
    requires limit_in_range { limit ≤ 1099511627776 }
    ensures answer { Moves (S.remaining reader.old) (S.remaining reader.new) (W.contents writer.old.device)
        (W.contents writer.new.device)
        (λ b w. OutputTable (lines_with size resizes.now language) (screen_with size resizes.now language) always result piece b w (record { reader_failed = S.failed reader.new; reader_ended = S.ended reader.new; writer_failed = writer.new.failed }) limit) }
    ensures whole { S.ended reader.new ≡ true → IsAtEnd (S.remaining reader.new) }
{
    match language {
        Language::Dec => write_log_by::<PlainPlayer, S, W>(
            alloc, reader, writer, size, resizes, piece, limit,
        ),
        Language::Utf8 => write_log_by::<Utf8Player, S, W>(
            alloc, reader, writer, size, resizes, piece, limit,
        ),
        Language::Xterm => write_log_by::<XtermPlayer, S, W>(
            alloc, reader, writer, size, resizes, piece, limit,
        ),
    }
}

/// Writes the log of a source's bytes by a new player of a size, whose screen has these changes.
fn write_log_by<P: LogPlayer, S: Source, W: Write>(
    alloc: Global,
    reader: &mut S,
    writer: &mut Watched<W>,
    size: Size,
    resizes: &[Resize],
    piece: usize,
    limit: u64,
) -> Result<(), Fault>
    requires reader_works { S.failed reader.old ≡ false }
    requires reader_goes_on { S.ended reader.old ≡ false }
    requires writer_works { writer.old.failed ≡ false }
    requires size_in_range { IsSize size }
    requires sizes_in_range { All (λ r. IsSize r.size) resizes.now }
    requires piece_in_range { (1 ≤ piece) × (piece ≤ 65536) }
    requires limit_in_range { limit ≤ 1099511627776 }
    ensures answer { Moves (S.remaining reader.old) (S.remaining reader.new) (W.contents writer.old.device)
        (W.contents writer.new.device)
        (λ b w. OutputTable (λ bytes. lines_on P.session (P.begun size) resizes.now bytes)
        (λ bytes. text (played_on P.session (P.begun size) resizes.now bytes).state) always result piece b w (record { reader_failed = S.failed reader.new; reader_ended = S.ended reader.new; writer_failed = writer.new.failed }) limit) }
    ensures whole { S.ended reader.new ≡ true → IsAtEnd (S.remaining reader.new) }
{
    let mut output = LogOutput::<P>::new_with(alloc, size, resizes, piece)?;
    write_output_from(alloc, &mut output, reader, writer, piece, limit)
}
