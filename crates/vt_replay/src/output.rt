//! An output of a source's bytes, and how much of a chunk it takes at once.
ghost use Rattle.std.specs.Prelude.{◌≡◌, ◌*◌, ◌≤◌, [], false, true, length, vec_capacity};
ghost use Rattle.std.specs.Io.KnownBytes.{IsAtEnd};
ghost use Rattle.vt_device.specs.Runs.{Moves};
ghost use Rattle.vt_device.specs.Output.{OutputTable};

use std::alloc::Global;
use std::io::Write;
use vt_device::{Output, Plain, Source, Watched, write_by};
use vt_recording::Fault;
use vt_term::REPORT_LIMIT;

/// Returns how many bytes at the front of a chunk have so few reports that `reports` has capacity for them.
pub(crate) fn front_for(chunk: &[u8], reports: &Vec<u8>) -> usize
    ensures within { result ≤ length chunk.now }
    ensures room { 10 * result ≤ vec_capacity reports.now }
    ensures some { 1 ≤ length chunk.now → 10 ≤ vec_capacity reports.now → 1 ≤ result }
{
    chunk.len().min(reports.capacity() / REPORT_LIMIT)
}

/// Gives a source's bytes to an output, and writes what it makes of them, as `write_output` does of a reader's. The
/// source hasn't failed or ended before.
///
/// `Err` is what `write_output` returns.
pub(crate) fn write_output_from<O: Output, S: Source, W: Write>(
    alloc: Global,
    output: &mut O,
    reader: &mut S,
    writer: &mut Watched<W>,
    piece: usize,
    limit: u64,
) -> Result<(), Fault>
    requires takes { 1 ≤ O.most output.old }
    requires counts { O.counted output.old ≡ 0 }
    requires none { O.written output.old [] ≡ [] }
    requires reader_works { S.failed reader.old ≡ false }
    requires reader_goes_on { S.ended reader.old ≡ false }
    requires writer_works { writer.old.failed ≡ false }
    requires piece_in_range { (1 ≤ piece) × (piece ≤ 65536) }
    requires limit_in_range { limit ≤ 1099511627776 }
    ensures answer { Moves (S.remaining reader.old) (S.remaining reader.new) (W.contents writer.old.device)
        (W.contents writer.new.device)
        (λ b w. OutputTable (O.written output.old) (O.ending output.old) (O.there output.old) result piece b w (record { reader_failed = S.failed reader.new; reader_ended = S.ended reader.new; writer_failed = writer.new.failed }) limit) }
    ensures whole { S.ended reader.new ≡ true → IsAtEnd (S.remaining reader.new) }
{
    write_by::<O, Plain, S, W>(alloc, output, reader, writer, piece, limit)
}
