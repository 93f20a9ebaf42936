//! An output: what is written of the host's bytes as they come, and at their end.
ghost use Rattle.std.specs.Prelude.{◌≡◌, ◌+◌, ◌*◌, ◌^◌, ◌≤◌, ◌<◌, [], true, false, length, take, vec_capacity, IfOk, List, ℕ, Bool};
ghost use Rattle.std.specs.Bool.{OnTrue};
ghost use Rattle.std.specs.Io.KnownBytes.{IsAtEnd};
ghost use Rattle.vt_device.specs.Runs.{Moves};
ghost use Rattle.vt_device.specs.Writing.{Gives, WriteTable};
ghost use Rattle.vt_device.specs.Output.{IsAfter, OutputTable, TranslatedTable, ComingTable};

use crate::decoding::{Decoding, Plain};
use crate::fault::Fault;
use crate::source::Source;
use crate::watched::Watched;
use crate::writing::write_whole;
use std::alloc::{AllocError, Global};
use std::io::{Read, Write};

/// The bytes that are written as the host's bytes come, and at their end.
pub trait Output: Drop {
    /// The bytes that are written of those that come.
    ghost written: { Self → List ℕ → List ℕ };

    /// The bytes that are written at the end of those that come.
    ghost ending: { Self → List ℕ → List ℕ };

    /// Whether the output has bytes to write at the end of those that come.
    ghost there: { Self → List ℕ → Bool };

    /// The most bytes that the output takes at once.
    ghost most: { Self → ℕ };

    /// The number of bytes and report bytes that were counted.
    ghost counted: { Self → ℕ };

    /// The capacity of what is written at once.
    ghost reserve: { Self → ℕ };

    /// Returns the capacity of what is written at once.
    fn capacity(&self) -> usize
        ensures { result ≡ reserve self.now };

    /// Takes the front of a chunk that isn't empty, and appends what is to be written of it. Returns how many bytes it
    /// took. `out` is empty, and has the capacity of what is written at once. It allocates nothing.
    fn feed(&mut self, chunk: &[u8], out: &mut Vec<u8>) -> usize
        requires some { 1 ≤ length chunk.now }
        requires takes { 1 ≤ most self.old }
        requires counts { counted self.old + 10 * length chunk.now < 2 ^ 64 }
        requires empty { out.old.items ≡ [] }
        requires room { reserve self.old ≤ vec_capacity out.old }
        ensures some { 1 ≤ result }
        ensures within { result ≤ length chunk.now }
        ensures written { out.new.items ≡ written self.old (take result chunk.now) }
        ensures after { IsAfter (written self.old) (ending self.old) (there self.old) (take result chunk.now)
            (written self.new) (ending self.new) (there self.new) }
        ensures most { most self.old ≤ most self.new }
        ensures counted { counted self.new ≤ counted self.old + 10 * result }
        ensures reserve { reserve self.new ≡ reserve self.old }
        ensures capacity { vec_capacity out.old ≤ vec_capacity out.new };

    /// Returns whether what is to be written at the end of the input is there.
    fn is_there(&self) -> bool
        ensures { result ≡ there self.now [] };

    /// Appends what is to be written at the end of the input, which is there. It is called once, as the last call. `out` is
    /// empty, and has the capacity of what is written at once. It allocates nothing.
    fn end(&mut self, out: &mut Vec<u8>)
        requires there { there self.old [] ≡ true }
        requires empty { out.old.items ≡ [] }
        requires room { reserve self.old ≤ vec_capacity out.old }
        ensures { out.new.items ≡ ending self.old [] };
}

/// Gives the reader's bytes to an output, and writes what it makes of them. Neither device has failed before, and the
/// reader hasn't ended.
///
/// It reads and counts bytes as `run` does. It allocates all memory before the first read: its memory doesn't grow with
/// the input. It writes what is written of a chunk before the next read.
///
/// `Err` is `Memory` if allocation fails, `Read` or `Write` if that device failed, and `TooLong` if the input has more than
/// `limit` bytes. It is `Partial` if the output has nothing to write at the end of such an input.
pub fn write_output<O: Output, R: Read, W: Write>(
    alloc: Global,
    output: &mut O,
    reader: &mut Watched<R>,
    writer: &mut Watched<W>,
    piece: usize,
    limit: u64,
) -> Result<(), Fault>
    requires takes { 1 ≤ O.most output.old }
    requires counts { O.counted output.old ≡ 0 }
    requires none { O.written output.old [] ≡ [] }
    requires reader_works { reader.old.failed ≡ false }
    requires reader_goes_on { reader.old.ended ≡ false }
    requires writer_works { writer.old.failed ≡ false }
    requires piece_in_range { (1 ≤ piece) × (piece ≤ 65536) }
    requires limit_in_range { limit ≤ 1099511627776 }
    ensures answer { Moves (R.remaining reader.old.device) (R.remaining reader.new.device) (W.contents writer.old.device)
        (W.contents writer.new.device)
        (λ b w. OutputTable (O.written output.old) (O.ending output.old) (O.there output.old) result piece b w (record { reader_failed = reader.new.failed; reader_ended = reader.new.ended; writer_failed = writer.new.failed }) limit) }
    ensures whole { reader.new.ended ≡ true → IsAtEnd (R.remaining reader.new.device) }
{
    write_by::<O, Plain, Watched<R>, W>(alloc, output, reader, writer, piece, limit)
}

/// Gives a source's bytes to an output by a new decoding, and writes what it makes of them.
pub fn write_by<O: Output, D: Decoding, S: Source, W: Write>(
    alloc: Global,
    output: &mut O,
    reader: &mut S,
    writer: &mut Watched<W>,
    piece: usize,
    limit: u64,
) -> Result<(), Fault>
    requires takes { 1 ≤ O.most output.old }
    requires counts { O.counted output.old ≡ 0 }
    requires none { O.written output.old [] ≡ [] }
    requires reader_works { S.failed reader.old ≡ false }
    requires reader_goes_on { S.ended reader.old ≡ false }
    requires writer_works { writer.old.failed ≡ false }
    requires piece_in_range { (1 ≤ piece) × (piece ≤ 65536) }
    requires limit_in_range { limit ≤ 1099511627776 }
    ensures answer { Moves (S.remaining reader.old) (S.remaining reader.new) (W.contents writer.old.device)
        (W.contents writer.new.device)
        (λ b w. TranslatedTable D.Translates (O.written output.old) (O.ending output.old) (O.there output.old) result piece b w (record { reader_failed = S.failed reader.new; reader_ended = S.ended reader.new; writer_failed = writer.new.failed }) limit) }
    ensures whole { S.ended reader.new ≡ true → IsAtEnd (S.remaining reader.new) }
{
    let mut decoding = D::new(alloc, piece)?;
    let mut room = Room::new(alloc, piece, output.capacity())?;
    write_in_room(
        output,
        &mut decoding,
        reader,
        writer,
        limit,
        room.buffer.as_mut_slice(),
        &mut room.out,
    )
}

/// The memory of a chunk, and of what is written at once.
#[derive(Drop)]
struct Room {
    /// One chunk.
    buffer: Vec<u8>,
    /// The bytes that are to be written.
    out: Vec<u8>,
}

impl Room {
    /// Allocates the memory for chunks of so many bytes, and for so many bytes at once. `Err` means that allocation failed.
    fn new(alloc: Global, piece: usize, capacity: usize) -> Result<Room, AllocError>
        ensures buffer { IfOk result (λ room. length room.buffer.items ≡ piece) }
        ensures out { IfOk result (λ room. capacity ≤ vec_capacity room.out) }
    {
        Ok(Room {
            buffer: vec![in alloc; 0u8; piece]?,
            out: Vec::with_capacity(alloc, capacity)?,
        })
    }
}

/// Gives the reader's bytes, decoded, to the output, and writes what it makes of them. The buffers have the capacity for it.
fn write_in_room<O: Output, D: Decoding, S: Source, W: Write>(
    output: &mut O,
    decoding: &mut D,
    reader: &mut S,
    writer: &mut Watched<W>,
    limit: u64,
    buffer: &mut [u8],
    out: &mut Vec<u8>,
) -> Result<(), Fault>
    requires takes { 1 ≤ O.most output.old }
    requires counts { O.counted output.old ≡ 0 }
    requires none { O.written output.old [] ≡ [] }
    requires decodes { length buffer.old ≤ D.most decoding.old }
    requires none_came { D.Came decoding.old [] [] }
    requires none_translated { D.Translates [] [] }
    requires reader_works { S.failed reader.old ≡ false }
    requires reader_goes_on { S.ended reader.old ≡ false }
    requires writer_works { writer.old.failed ≡ false }
    requires limit_in_range { limit ≤ 1099511627776 }
    requires some_room { (1 ≤ length buffer.old) × (length buffer.old ≤ 65536) }
    requires room { O.reserve output.old ≤ vec_capacity out.old }
    ensures answer { Moves (S.remaining reader.old) (S.remaining reader.new) (W.contents writer.old.device)
        (W.contents writer.new.device)
        (λ b w. TranslatedTable D.Translates (O.written output.old) (O.ending output.old) (O.there output.old) result (length buffer.old) b w (record { reader_failed = S.failed reader.new; reader_ended = S.ended reader.new; writer_failed = writer.new.failed }) limit) }
    ensures whole { S.ended reader.new ≡ true → IsAtEnd (S.remaining reader.new) }
{
    write_coming(output, decoding, reader, writer, limit, buffer, out)?;
    if !output.is_there() {
        return Err(Fault::Partial);
    }
    out.clear();
    output.end(out);
    if write_whole(writer, out) {
        Ok(())
    } else {
        Err(Fault::Write)
    }
}

/// Gives the reader's bytes, decoded, to the output to their end, and writes what is written of each chunk before it reads
/// the next.
fn write_coming<O: Output, D: Decoding, S: Source, W: Write>(
    output: &mut O,
    decoding: &mut D,
    reader: &mut S,
    writer: &mut Watched<W>,
    limit: u64,
    buffer: &mut [u8],
    out: &mut Vec<u8>,
) -> Result<(), Fault>
    requires takes { 1 ≤ O.most output.old }
    requires counts { O.counted output.old ≡ 0 }
    requires none { O.written output.old [] ≡ [] }
    requires decodes { length buffer.old ≤ D.most decoding.old }
    requires none_came { D.Came decoding.old [] [] }
    requires none_translated { D.Translates [] [] }
    requires reader_works { S.failed reader.old ≡ false }
    requires reader_goes_on { S.ended reader.old ≡ false }
    requires writer_works { writer.old.failed ≡ false }
    requires limit_in_range { limit ≤ 1099511627776 }
    requires some_room { (1 ≤ length buffer.old) × (length buffer.old ≤ 65536) }
    requires room { O.reserve output.old ≤ vec_capacity out.old }
    ensures moves { Moves (S.remaining reader.old) (S.remaining reader.new) (W.contents writer.old.device)
        (W.contents writer.new.device)
        (λ b w. ComingTable D.Translates (O.written output.old) result (λ x. IsAfter (O.written output.old) (O.ending output.old) (O.there output.old) x (O.written output.new) (O.ending output.new) (O.there output.new)) (length buffer.old) b w (record { reader_failed = S.failed reader.new; reader_ended = S.ended reader.new; writer_failed = writer.new.failed }) limit) }
    ensures whole { S.ended reader.new ≡ true → IsAtEnd (S.remaining reader.new) }
    ensures capacity { vec_capacity out.old ≤ vec_capacity out.new }
    ensures reserve { O.reserve output.new ≡ O.reserve output.old }
{
    let mut left = limit as usize;
    while left > 0 {
        let want = left.min(buffer.len());
        let Ok(count) = reader.read_chunk(&mut buffer[..want]) else {
            return Err(Fault::Read);
        };
        if count == 0 {
            return Ok(());
        }
        decoding.decode(&buffer[..count]);
        if !write_chunk(output, writer, decoding.bytes(&buffer[..count]), out) {
            return Err(Fault::Write);
        }
        left -= count;
    }
    match reader.read_chunk(&mut buffer[..1]) {
        Ok(0) => Ok(()),
        Ok(_) => Err(Fault::TooLong),
        Err(_) => Err(Fault::Read),
    }
}

/// Gives a chunk to the output, and writes what it makes of it, a buffer at a time. Returns whether the writer took it all.
fn write_chunk<O: Output, W: Write>(
    output: &mut O,
    writer: &mut Watched<W>,
    chunk: &[u8],
    out: &mut Vec<u8>,
) -> bool
    requires takes { 1 ≤ O.most output.old }
    requires counts { O.counted output.old + 10 * length chunk.now < 2 ^ 64 }
    requires writer_works { writer.old.failed ≡ false }
    requires none { O.written output.old [] ≡ [] }
    requires room { O.reserve output.old ≤ vec_capacity out.old }
    ensures after { OnTrue result (IsAfter (O.written output.old) (O.ending output.old) (O.there output.old) chunk.now
        (O.written output.new) (O.ending output.new) (O.there output.new)) }
    ensures gives { Gives (W.contents writer.old.device) (W.contents writer.new.device)
        (WriteTable result writer.new.failed (O.written output.old chunk.now)) }
    ensures ended { writer.new.ended ≡ writer.old.ended }
    ensures most { O.most output.old ≤ O.most output.new }
    ensures counted { O.counted output.new ≤ O.counted output.old + 10 * length chunk.now }
    ensures capacity { vec_capacity out.old ≤ vec_capacity out.new }
    ensures reserve { O.reserve output.new ≡ O.reserve output.old }
{
    let mut at = 0;
    while at < chunk.len() {
        out.clear();
        at += output.feed(&chunk[at..], out);
        if !write_whole(writer, out) {
            return false;
        }
    }
    true
}
