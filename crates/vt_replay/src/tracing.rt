//! The trace of an input: its events in each language, and the changes of the screen's size between them.
ghost use Rattle.std.specs.Prelude.{◌≡◌, ◌≤◌, true, false, All};
ghost use Rattle.std.specs.Io.KnownBytes.{IsAtEnd};
ghost use Rattle.vt_screen.specs.Sizes.{IsSize};
ghost use Rattle.vt_device.specs.Runs.{Moves};
ghost use Rattle.vt_device.specs.Output.{OutputTable, always};
ghost use Rattle.vt_replay.specs.Traces.{traced_begun, traced_on, traced_end_on, trace_with, trace_end_with};

use crate::language::Language;
use crate::output::write_output_from;
use crate::player::{PlainPlayer, Utf8Player, XtermPlayer};
use crate::resized::Resize;
use crate::trace_output::TraceOutput;
use crate::trace_player::TracePlayer;
use std::alloc::Global;
use std::io::Write;
use vt_device::{Source, Watched};
use vt_recording::Fault;
use vt_term::Size;

/// Writes the trace of a source's bytes in a language, on a screen of a size that has these changes. The source hasn't failed or
/// ended before. The places of the trace count the host's bytes, and so do `piece` and `limit`. A change of the size is a line.
///
/// `Err` is what `write_log` returns.
pub(crate) fn write_trace<S: Source, W: Write>(
    alloc: Global,
    reader: &mut S,
    writer: &mut Watched<W>,
    language: Language,
    size: Size,
    resizes: &[Resize],
    piece: usize,
    limit: u64,
) -> Result<(), Fault>
    requires reader_works { S.failed reader.old ≡ false }
    requires reader_goes_on { S.ended reader.old ≡ false }
    requires writer_works { writer.old.failed ≡ false }
    requires size_in_range { IsSize size }
    requires sizes_in_range { All (λ r. IsSize r.size) resizes.now }
    requires piece_in_range { (1 ≤ piece) × (piece ≤ 65536) }
    requires limit_in_range { limit ≤ 1099511627776 }
    ensures answer { Moves (S.remaining reader.old) (S.remaining reader.new) (W.contents writer.old.device)
        (W.contents writer.new.device)
        (λ b w. OutputTable (trace_with size resizes.now language) (trace_end_with size resizes.now language) always result piece b w (record { reader_failed = S.failed reader.new; reader_ended = S.ended reader.new; writer_failed = writer.new.failed }) limit) }
    ensures whole { S.ended reader.new ≡ true → IsAtEnd (S.remaining reader.new) }
{
    match language {
        Language::Dec => write_trace_by::<PlainPlayer, S, W>(
            alloc, reader, writer, size, resizes, piece, limit,
        ),
        Language::Utf8 => write_trace_by::<Utf8Player, S, W>(
            alloc, reader, writer, size, resizes, piece, limit,
        ),
        Language::Xterm => write_trace_by::<XtermPlayer, S, W>(
            alloc, reader, writer, size, resizes, piece, limit,
        ),
    }
}

/// Writes the trace of a source's bytes by a new player of a size, whose screen has these changes.
fn write_trace_by<P: TracePlayer, S: Source, W: Write>(
    alloc: Global,
    reader: &mut S,
    writer: &mut Watched<W>,
    size: Size,
    resizes: &[Resize],
    piece: usize,
    limit: u64,
) -> Result<(), Fault>
    requires reader_works { S.failed reader.old ≡ false }
    requires reader_goes_on { S.ended reader.old ≡ false }
    requires writer_works { writer.old.failed ≡ false }
    requires size_in_range { IsSize size }
    requires sizes_in_range { All (λ r. IsSize r.size) resizes.now }
    requires piece_in_range { (1 ≤ piece) × (piece ≤ 65536) }
    requires limit_in_range { limit ≤ 1099511627776 }
    ensures answer { Moves (S.remaining reader.old) (S.remaining reader.new) (W.contents writer.old.device)
        (W.contents writer.new.device)
        (λ b w. OutputTable (λ bytes. traced_on P.session (traced_begun (P.begun size)) resizes.now bytes)
        (λ bytes. traced_end_on P.session (traced_begun (P.begun size)) resizes.now bytes) always result piece b w (record { reader_failed = S.failed reader.new; reader_ended = S.ended reader.new; writer_failed = writer.new.failed }) limit) }
    ensures whole { S.ended reader.new ≡ true → IsAtEnd (S.remaining reader.new) }
{
    let mut output = TraceOutput::<P>::new(alloc, size, resizes, piece)?;
    write_output_from(alloc, &mut output, reader, writer, piece, limit)
}
