//! The output of the bytes themselves.
ghost use Rattle.std.specs.Prelude.{◌≡◌, ◌≤◌, ◌<◌, [], true, false};
ghost use Rattle.std.specs.Io.KnownBytes.{IsAtEnd};
ghost use Rattle.vt_device.specs.Runs.{Moves};
ghost use Rattle.vt_device.specs.Output.{OutputTable, always, all, nothing};

use crate::output::write_output_from;
use std::alloc::Global;
use std::io::Write;
use vt_device::{Output, Source, Watched};
use vt_recording::Fault;

/// The most bytes of the content that are written at once.
const CONTENT_LIMIT: usize = 65536;

/// The output of the bytes themselves.
#[derive(Drop)]
struct ContentOutput;

impl Output for ContentOutput {
    ghost written = { λ o bytes. bytes };

    ghost ending = { λ o bytes. [] };

    ghost there = { λ o bytes. true };

    ghost most = { λ o. 65536 };

    ghost counted = { λ o. 0 };

    ghost reserve = { λ o. 65536 };

    fn capacity(&self) -> usize {
        CONTENT_LIMIT
    }

    fn feed(&mut self, chunk: &[u8], out: &mut Vec<u8>) -> usize {
        let count = chunk.len().min(CONTENT_LIMIT);
        out.extend_from_slice(&chunk[..count]).unwrap();
        count
    }

    fn is_there(&self) -> bool {
        true
    }

    fn end(&mut self, _out: &mut Vec<u8>) {}
}

/// Writes a source's bytes as they come.
pub(crate) fn write_content<S: Source, W: Write>(
    alloc: Global,
    reader: &mut S,
    writer: &mut Watched<W>,
    piece: usize,
    limit: u64,
) -> Result<(), Fault>
    requires reader_works { S.failed reader.old ≡ false }
    requires reader_goes_on { S.ended reader.old ≡ false }
    requires writer_works { writer.old.failed ≡ false }
    requires piece_in_range { (1 ≤ piece) × (piece ≤ 65536) }
    requires limit_in_range { limit ≤ 1099511627776 }
    ensures answer { Moves (S.remaining reader.old) (S.remaining reader.new) (W.contents writer.old.device)
        (W.contents writer.new.device)
        (λ b w. OutputTable all nothing always result piece b w (record { reader_failed = S.failed reader.new; reader_ended = S.ended reader.new; writer_failed = writer.new.failed }) limit) }
    ensures whole { S.ended reader.new ≡ true → IsAtEnd (S.remaining reader.new) }
{
    write_output_from(alloc, &mut ContentOutput, reader, writer, piece, limit)
}
