//! The program's replay and settings, and the check of vectors.
ghost use Rattle.std.specs.Io.KnownBytes.{IsAtEnd};
ghost use Rattle.std.specs.Prelude.{[], false, IfErr, IfOk, true, ◌≡◌, ◌≤◌};
ghost use Rattle.vt_cli.specs.CommandLine.{AreSettings, faults_in, found_in, IsRefusal};
ghost use Rattle.vt_device.specs.Runs.{Moves};
ghost use Rattle.vt_device.specs.Writing.{Gives, WriteTable};
ghost use Rattle.vt_replay.specs.Due.{PlayedTable};
ghost use Rattle.vt_term.specs.Play.{play};
ghost use Rattle.vt_term.specs.State.{power_up};
ghost use Rattle.vt_vectors.specs.Comparison.{Compares, expected_of};
ghost use Rattle.vt_vectors.specs.Outcome.{outcome_of};

use std::alloc::Global;
use std::io::{Read, Write};
use vt_cli::{Refused, Settings, What};
use vt_device::Watched;
use vt_recording::Fault;
use vt_vectors::{Mismatch, Vector};

/// States what `vt_device::write_whole` does.
pub fn write_whole<W: Write>(writer: &mut Watched<W>, piece: &[u8]) -> bool
    requires { writer.old.failed ≡ false }
    ensures gives { Gives (W.contents writer.old.device) (W.contents writer.new.device)
        (WriteTable result writer.new.failed piece.now) }
{
    vt_device::write_whole::<W>(writer, piece)
}

/// States what `vt_replay::run` does.
pub fn run<R: Read, W: Write>(
    alloc: Global,
    reader: &mut Watched<R>,
    writer: &mut Watched<W>,
    what: What,
    piece: usize,
    limit: u64,
) -> Result<(), Fault>
    requires reader_works { reader.old.failed ≡ false }
    requires reader_goes_on { reader.old.ended ≡ false }
    requires writer_works { writer.old.failed ≡ false }
    requires piece_in_range { (1 ≤ piece) × (piece ≤ 65536) }
    requires limit_in_range { limit ≤ 1099511627776 }
    ensures answer { Moves (R.remaining reader.old.device) (R.remaining reader.new.device) (W.contents writer.old.device)
        (W.contents writer.new.device)
        (λ b w. PlayedTable (play power_up) what result piece b w (record { reader_failed = reader.new.failed; reader_ended = reader.new.ended; writer_failed = writer.new.failed }) limit) }
    ensures whole { reader.new.ended ≡ true → IsAtEnd (R.remaining reader.new.device) }
{
    vt_replay::run::<R, W>(alloc, reader, writer, what, piece, limit)
}

/// States what `vt_cli::settings` returns.
pub fn settings(alloc: Global, words: Vec<String>) -> Result<Settings, Refused>
    ensures ok { IfOk result (AreSettings (found_in words.items)) }
    ensures no_fault { IfOk result (λ _. faults_in words.items ≡ []) }
    ensures err { IfErr result (IsRefusal (faults_in words.items) (found_in words.items)) }
{
    vt_cli::settings(alloc, words)
}

/// States what `vt_vectors::check` returns.
pub fn check(alloc: Global, v: &Vector<'_>) -> Result<(), Mismatch>
    ensures { Compares result (expected_of v.now) (outcome_of v.now.input.now) }
{
    vt_vectors::check(alloc, v)
}
