//! The carrying out of a request, by its word.
ghost use Rattle.std.specs.Prelude.{◌≡◌, ◌≤◌, ◌++◌, true, false, Err, option_map, All, IfOk};
ghost use Rattle.std.proofs.Props.{props};
ghost use Rattle.std.specs.Io.KnownBytes.{IsAtEnd};
ghost use Rattle.vt_device.specs.Runs.{Moves};
ghost use Rattle.vt_device.specs.Writing.{Gives};
ghost use Rattle.vt_screen.specs.Sizes.{IsSize};
ghost use Rattle.vt_replay.specs.Words.{WordTable};
ghost use Rattle.vt_recording.specs.Gathered.{events_of, timeline_view};
ghost use Rattle.vt_recording.specs.Heading.{heading_of};
ghost use Rattle.vt_replay.specs.Request.{asks_wide, is_streamed, takes_whole, needs_whole, has_sizes, changes_size, keeps_size, resizes_for, format_of, lacks_times, ended_of, IsStreamed, IsTakenBy, IsArranged, IsPrepared, IsPlayed, OutcomeTable};
ghost use Rattle.vt_replay.specs.Host.{opening};

use crate::changes::carried_out;
use crate::engine::run_at;
use crate::events::events_taken;
use crate::host::{Host, host_for, opening, plain_host};
use crate::language::Language;
use crate::logging::write_log_at;
use crate::outputs::write_content;
use crate::resized::Resize;
use crate::tracing::write_trace;
use std::alloc::{AllocError, Global};
use std::io::{Read, Write};
use vt_cli::{Format, Moment, Request, Word};
use vt_device::{Source, Watched};
use vt_recording::{
    Break, Content, Detected, Fault, Heading, Taken, Timeline, changes_of, detect, encoding_of,
    heading_of, read_recording, take_between, timeline_of,
};

/// The greatest limit of an input, which is that of what is made of one.
const LIMIT_MOST: u64 = 1099511627776;

/// Carries out a request's word on the reader's bytes, as a host sent them, at most a limit of them. Neither device has failed
/// before, and the reader hasn't ended.
fn carry_out_word<S: Source, W: Write>(
    alloc: Global,
    reader: &mut S,
    writer: &mut Watched<W>,
    host: Host,
    resizes: &[Resize],
    request: &Request,
    limit: u64,
) -> Result<(), Fault>
    requires limit_in_range { limit ≤ 1099511627776 }
    requires reader_works { S.failed reader.old ≡ false }
    requires reader_goes_on { S.ended reader.old ≡ false }
    requires writer_works { writer.old.failed ≡ false }
    requires sized { IsSize host.size }
    requires resized { All (λ r. IsSize r.size) resizes.now }
    ensures answer { Moves (S.remaining reader.old) (S.remaining reader.new) (W.contents writer.old.device)
        (W.contents writer.new.device)
        (λ b w. WordTable result request.now.word host.size resizes.now host.terminal host.encoding request.now.piece b w (record { reader_failed = S.failed reader.new; reader_ended = S.ended reader.new; writer_failed = writer.new.failed }) limit) }
    ensures whole { S.ended reader.new ≡ true → IsAtEnd (S.remaining reader.new) }
{
    let piece = request.piece;
    let size = host.size;
    let language = Language::of(host.terminal, host.encoding);
    match request.word {
        Word::Replay(what) => {
            run_at(
                alloc, reader, writer, what, language, size, resizes, piece, limit,
            )
        }
        Word::Log => write_log_at(alloc, reader, writer, language, size, resizes, piece, limit),
        Word::Trace => { write_trace(alloc, reader, writer, language, size, resizes, piece, limit) }
        Word::Events | Word::Content => write_content(alloc, reader, writer, piece, limit),
    }
}

/// The outcome of a request.
#[derive(Clone, Copy, Debug, PartialEq, Eq)]
pub struct Outcome {
    /// The number of characters of the recording that have no byte: SUB was played for each of them.
    pub replaced: u64,
    /// The fault with which the request ended early, if it did.
    pub ended: Result<(), Fault>,
}

/// Returns whether 132 columns were asked for.
fn asks_wide(wide: Option<bool>) -> bool
    ensures { result ≡ asks_wide wide }
{
    wide.unwrap_or(false)
}

/// Returns whether the input is played as it comes.
fn is_streamed(format: Format, until: Option<Moment>, wide: Option<bool>, whole: bool) -> bool
    ensures { result ≡ is_streamed format until wide whole }
{
    match (format, until) {
        (Format::Raw, None) => !asks_wide(wide) && !whole,
        _ => false,
    }
}

/// Returns whether a word writes what is made of a whole recording.
fn takes_whole(word: Word) -> bool
    ensures { result ≡ takes_whole word }
{
    matches!(word, Word::Events)
}

/// Returns whether a request needs the whole input, since its word writes what is made of it or begins in the middle.
fn needs_whole(request: &Request) -> bool
    ensures { result ≡ needs_whole request.now }
{
    takes_whole(request.word) || request.from.is_some()
}

/// Returns how a request ends whose word ended as `played`, on a recording that is broken at `broken`.
fn ended_of(broken: Option<Break>, played: Result<(), Fault>) -> Result<(), Fault>
    ensures { result ≡ ended_of broken played }
{
    match played {
        Ok(()) => match broken {
            None => Ok(()),
            Some(place) => Err(Fault::Broken(place)),
        },
        Err(fault) => Err(fault),
    }
}

/// Returns the outcome of a request whose input wasn't read whole or taken apart.
fn unread(fault: Fault) -> Outcome
    ensures ended { result.ended ≡ Err fault }
    ensures none_replaced { result.replaced ≡ 0 }
{
    Outcome {
        replaced: 0,
        ended: Err(fault),
    }
}

/// Returns the format of an input that begins so: the one that was asked for, if one was, otherwise the one that the
/// beginning shows. A compressed file is raw. `DETECTION_LENGTH` bytes suffice.
pub fn format_of(wanted: Option<Format>, beginning: &[u8]) -> Format
    ensures { result ≡ format_of wanted beginning.now }
{
    match wanted {
        Some(format) => format,
        None => match detect(beginning) {
            Detected::Recording(format) => format,
            Detected::Compressed(_) => Format::Raw,
        },
    }
}

/// Returns whether the moment is a time, and a recording in the format, with a timing file or without, has no times.
pub fn lacks_times(format: Format, timed: bool, until: Option<Moment>) -> bool
    ensures { result ≡ lacks_times format timed until }
{
    match until {
        Some(Moment::Micros(_)) => !format.has_times(timed),
        _ => false,
    }
}

/// Carries out a request on the reader's bytes in a format, and writes what is due. The caller knows the format by
/// `format_of`. It doesn't look at the request's files: the caller opens its file as the reader, and reads its timing
/// file. Neither device has failed before, and the reader hasn't ended.
///
/// The terminal is the request's. If the request names none, it is the one that the first line of a recording by
/// asciinema or by script names, otherwise a VT220. If the request's encoding is dec, it is a VT220. For an xterm the
/// host sends UTF-8. For a VT220 it sends in the request's encoding, otherwise in the one that the recording shows, and raw
/// bytes in dec. Content is the host's bytes.
///
/// The screen has 132 columns if the request asks for them, or if it leaves the width to a recording whose first line names
/// 132. Then bytes that set DECCOLM are played first, except for a trace.
///
/// All replays, log and trace are on a screen of the size that the request asks for. If the request leaves the size to a
/// recording, they are on the size that its first line names, if a screen may have that. DECCOLM leaves the width of such
/// a screen, unless it is a VT220's.
///
/// A replay, a log and a trace carry out the changes of the size that a recording has up to the moment, each after the
/// content that comes before it. They don't if a size or a width is asked for, or if the request begins in the middle.
/// DECCOLM leaves the width of a screen after a change. A change to a size that no screen may have is passed over.
///
/// The word is carried out on the bytes of raw input as they come, if all of it is wanted and 132 columns weren't asked
/// for. Otherwise the input is read whole, and the word is carried out on its content between the moments. If the
/// recording is broken, that is the fault, after what came before was played and written.
///
/// Events are made of a whole recording: they are a table of it. The request's limit is of the input, and not of what is made
/// of it.
pub fn carry_out<R: Read, W: Write>(
    alloc: Global,
    reader: &mut Watched<R>,
    format: Format,
    timing: Option<&[u8]>,
    writer: &mut Watched<W>,
    request: &Request,
) -> Outcome
    requires reader_works { reader.old.failed ≡ false }
    requires reader_goes_on { reader.old.ended ≡ false }
    requires writer_works { writer.old.failed ≡ false }
    ensures answer { Moves (R.remaining reader.old.device) (R.remaining reader.new.device) (W.contents writer.old.device)
        (W.contents writer.new.device)
        (λ b w. OutcomeTable result request.now format (option_map (λ t. t.now) timing.entry) b w (record { reader_failed = reader.new.failed; reader_ended = reader.new.ended; writer_failed = writer.new.failed })) }
    ensures whole { reader.new.ended ≡ true → IsAtEnd (R.remaining reader.new.device) }
{
    if is_streamed(format, request.until, request.wide, needs_whole(request)) {
        return stream(alloc, reader, writer, request);
    }
    match read_recording(alloc, reader, request.limit as usize) {
        Ok(bytes) => match prepare(alloc, &bytes, timing, format, request) {
            Ok(prepared) => play_prepared(alloc, prepared, writer, request),
            Err(AllocError) => unread(Fault::Memory),
        },
        Err(fault) => unread(fault),
    }
}

/// Carries out the request's word on the reader's bytes as they come.
fn stream<R: Read, W: Write>(
    alloc: Global,
    reader: &mut Watched<R>,
    writer: &mut Watched<W>,
    request: &Request,
) -> Outcome
    requires reader_works { reader.old.failed ≡ false }
    requires reader_goes_on { reader.old.ended ≡ false }
    requires writer_works { writer.old.failed ≡ false }
    ensures answer { Moves (R.remaining reader.old.device) (R.remaining reader.new.device) (W.contents writer.old.device)
        (W.contents writer.new.device)
        (λ b w. IsStreamed result request.now b w (record { reader_failed = reader.new.failed; reader_ended = reader.new.ended; writer_failed = writer.new.failed })) }
    ensures whole { reader.new.ended ≡ true → IsAtEnd (R.remaining reader.new.device) }
{
    let host = plain_host(request);
    Outcome {
        replaced: 0,
        ended: carry_out_word(alloc, reader, writer, host, &[], request, request.limit),
    }
}

/// The part of a recording that is played, and how.
#[derive(Drop)]
struct Prepared {
    /// The terminal, the encoding, the width and the size for which the host sent.
    host: Host,
    /// The changes of the screen's size.
    resizes: Vec<Resize>,
    /// The opening, and the content between the moments.
    bytes: Vec<u8>,
    /// The place at which the recording is broken, if it is.
    broken: Option<Break>,
    /// The number of characters that have no byte.
    replaced: u64,
    ghost sized: { IsSize host.size },
    ghost resized: { All (λ r. IsSize r.size) resizes.items } by { Prim.hlevel props },
}

/// Returns whether recordings in a format have sizes.
fn has_sizes(format: Format) -> bool
    ensures { result ≡ has_sizes format }
{
    matches!(format, Format::Script | Format::Asciicast)
}

/// Returns whether a word carries out changes of the size.
fn changes_size(word: Word) -> bool
    ensures { result ≡ changes_size word }
{
    matches!(word, Word::Replay(_) | Word::Log | Word::Trace)
}

/// Returns whether the screen keeps its size, whatever a recording in the format says: a size or a width was asked for, or the word
/// or the format has no changes of the size.
pub fn keeps_size(request: &Request, format: Format) -> bool
    ensures { result ≡ keeps_size request.now format }
{
    request.size.is_some()
        || request.wide.is_some()
        || request.from.is_some()
        || !changes_size(request.word)
        || !has_sizes(format)
}

/// Takes out of a recording what the word of a request needs: the table of its events, or its content.
fn taken_for(
    alloc: Global,
    timeline: &Timeline,
    heading: Heading,
    format: Format,
    timed: bool,
    host: Host,
    request: &Request,
) -> Result<Taken, AllocError>
    ensures { IfOk result (λ t. IsTakenBy request.now.word request.now format timed host heading (timeline_view timeline.now) t.content.items t.replaced) }
{
    let (from, until) = (request.from, request.until);
    match request.word {
        Word::Events => {
            let full = request.full;
            events_taken(alloc, timeline, heading, format, timed, full, from, until)
        }
        Word::Replay(_) | Word::Log | Word::Trace | Word::Content => {
            take_between(alloc, timeline, format, host.encoding, from, until)
        }
    }
}

/// Returns the changes of the screen's size that a request carries out.
fn resizes_for(
    alloc: Global,
    timeline: &Timeline,
    format: Format,
    host: Host,
    request: &Request,
) -> Result<Vec<Resize>, AllocError>
    ensures resizes { IfOk result (λ r. r.items ≡ resizes_for (keeps_size request.now format) request.now format host
        (events_of timeline.now.events.items timeline.now.text.items)) }
    ensures sizes { IfOk result (λ r. All (λ r. IsSize r.size) r.items) }
{
    if keeps_size(request, format) {
        return Ok(Vec::new(alloc));
    }
    let changes = changes_of(alloc, timeline, format, host.encoding, request.until)?;
    carried_out(alloc, opening(request.word, host).len(), &changes)
}

/// Arranges what is played of a recording's events on a terminal. Returns `Err` if allocation fails.
fn arrange(
    alloc: Global,
    timeline: &Timeline,
    heading: Heading,
    format: Format,
    timed: bool,
    host: Host,
    request: &Request,
) -> Result<Prepared, AllocError>
    requires { IsSize host.size }
    ensures host { IfOk result (λ p. p.host ≡ host) }
    ensures broken { IfOk result (λ p. p.broken ≡ timeline.now.broken) }
    ensures arranged { IfOk result (λ p. IsArranged request.now format timed host heading (timeline_view timeline.now) p.resizes.items p.bytes.items p.replaced) }
{
    let resizes = resizes_for(alloc, timeline, format, host, request)?;
    let taken = taken_for(alloc, timeline, heading, format, timed, host, request)?;
    let replaced = taken.replaced;
    Ok(Prepared {
        host,
        resizes,
        bytes: opened(alloc, opening(request.word, host), taken.content)?,
        broken: timeline.broken,
        replaced,
    })
}

/// Reads a recording, and arranges what a request plays of it. Returns `Err` if allocation fails.
fn prepare(
    alloc: Global,
    bytes: &[u8],
    timing: Option<&[u8]>,
    format: Format,
    request: &Request,
) -> Result<Prepared, AllocError>
    ensures { IfOk result (λ p. IsPrepared request.now format (option_map (λ t. t.now) timing.entry) bytes.now p.host p.resizes.items p.bytes.items p.broken p.replaced) }
{
    let heading = heading_of(alloc, bytes, format)?;
    let timeline = timeline_of(alloc, bytes, timing, format)?;
    let host = host_for(request, encoding_of(alloc, &timeline, format)?, heading);
    let timed = timing.is_some();
    let prepared = arrange(alloc, &timeline, heading, format, timed, host, request)?;
    Ok(prepared)
}

/// Returns bytes after an opening. Returns `Err` if allocation fails.
fn opened(alloc: Global, opening: &[u8], bytes: Vec<u8>) -> Result<Vec<u8>, AllocError>
    ensures { IfOk result (λ v. v.items ≡ opening.now ++ bytes.items) }
{
    if opening.is_empty() {
        return Ok(bytes);
    }
    let mut whole = Vec::new(alloc);
    whole.extend_from_slice(opening)?;
    whole.extend_from_slice(&bytes)?;
    Ok(whole)
}

/// Carries out the request's word on what is played of a recording.
fn play_prepared<W: Write>(
    alloc: Global,
    prepared: Prepared,
    writer: &mut Watched<W>,
    request: &Request,
) -> Outcome
    requires writer_works { writer.old.failed ≡ false }
    ensures { Gives (W.contents writer.old.device) (W.contents writer.new.device)
        (λ w. IsPlayed result request.now prepared.host prepared.resizes.items prepared.bytes.items prepared.broken prepared.replaced w writer.new.failed) }
{
    let host = prepared.host;
    let broken = prepared.broken;
    let replaced = prepared.replaced;
    let resizes = prepared.resizes;
    let mut content = Content::new(prepared.bytes);
    let played = carry_out_word(
        alloc,
        &mut content,
        writer,
        host,
        &resizes,
        request,
        LIMIT_MOST,
    );
    Outcome {
        replaced,
        ended: ended_of(broken, played),
    }
}
