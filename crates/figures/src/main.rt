//! A program that prints figures: the limits of the crates, and what a server sends.
//!
//! `figures limits` prints the constants of the crates that lib/c/include/vt220.h repeats, each with the header's name.
//!
//! `figures N [--time]` plays a recording from standard input in frames of N bytes, as a server would. After each frame
//! that ends between sequences, one client is sent an update and another a repaint. It prints how many bytes each was
//! sent. With `--time` it also prints how long an update and a repaint took on average, in the quickest round of many.
//!
//! `figures N --count CALL` makes only one call after each frame: `show`, `repaint`, `update`, or `nothing`. So a count of
//! instructions less that of `nothing` is the call's.
//!
//! `figures limits N ..` prints the limits, and then plays the recording.
#![tactic(auto)]

ghost use Rattle.std.specs.Prelude.{◌≤◌};

mod counted;
mod limits;
mod server;

use crate::counted::{Call, count};
use crate::limits::print_limits;
use crate::server::Server;
use std::alloc::Global;
use std::env::{self, Env};
use std::io::{self, Input, Read};
use std::time::Clock;

/// The number of times that the recording is played to measure the time. The quickest round counts.
const ROUNDS: u64 = 200;

/// Plays the recording from power-up.
fn play(
    rt: &impl Clock,
    alloc: Global,
    server: &mut Server,
    recording: &[u8],
    size: usize,
) -> io::Result<()>
    requires { 1 ≤ size }
{
    server.restart(alloc)?;
    for frame in recording.chunks(size) {
        server.play(rt, frame)?;
    }
    Ok(())
}

/// Returns how many nanoseconds an update and a repaint took.
fn least_times(
    rt: &impl Clock,
    alloc: Global,
    server: &mut Server,
    recording: &[u8],
    size: usize,
) -> io::Result<(u64, u64)>
    requires { 1 ≤ size }
{
    let mut updates = u64::MAX;
    let mut repaints = u64::MAX;
    for _ in 0..ROUNDS {
        play(rt, alloc, server, recording, size)?;
        updates = updates.min(server.updates.nanos);
        repaints = repaints.min(server.repaints.nanos);
    }
    let sent = server.frames.saturating_sub(server.inside).max(1);
    Ok((updates / sent, repaints / sent))
}

/// The choices that the arguments make.
#[derive(Clone, Copy)]
struct Asked {
    has_limits: bool,
    plays: bool,
    size: usize,
    is_timed: bool,
    /// The one call that is counted.
    call: Option<Call>,
}

/// Returns what the words after the program's name ask for. Without a number, or with a word that is none, frames have
/// 1024 bytes.
fn asked_by(words: &[String]) -> Asked {
    let has_limits = match words.first() {
        Some(word) => word.as_str() == "limits",
        None => false,
    };
    let rest = if has_limits { &words[1..] } else { words };
    let size = match rest.first() {
        Some(word) => word.as_str().parse::<usize>().unwrap_or(1024),
        None => 1024,
    };
    let call = match rest.get(2) {
        Some(word) => Some(Call::named(word.as_str())),
        None => None,
    };
    Asked {
        has_limits,
        plays: !has_limits || rest.len() > 0,
        size,
        is_timed: rest.len() > 1,
        call,
    }
}

/// Returns what the arguments ask for.
fn read_words<R: Env + AllocGlobal>(rt: &R) -> io::Result<Asked> {
    let words: Vec<String> = env::args(rt)?.collect(rt.alloc())?;
    Ok(match words.get(1..) {
        Some(rest) => asked_by(rest),
        None => asked_by(&[]),
    })
}

/// Plays the recording, and prints what was sent, and with `is_timed` how long that took.
fn print_played(
    rt: &(impl Print + Clock + AllocGlobal),
    server: &mut Server,
    recording: &[u8],
    size: usize,
    is_timed: bool,
) -> io::Result<()>
    requires { 1 ≤ size }
{
    play(rt, rt.alloc(), server, recording, size)?;
    let (sent, painted) = (server.updates.bytes, server.repaints.bytes);
    println!(rt;
        "{} frames, {} inside a sequence",
        server.frames, server.inside
    )?;
    println!(rt; "{sent} bytes of updates, {painted} of repaints")?;
    println!(rt; "{} updates are the repaint", server.repainted)?;
    if is_timed {
        let (update, repaint) = least_times(rt, rt.alloc(), server, recording, size)?;
        println!(rt; "{update} ns an update, {repaint} ns a repaint")?;
    }
    Ok(())
}

/// Prints how many calls were made, and their bytes.
fn print_counted(
    rt: &(impl Print + AllocGlobal),
    recording: &[u8],
    size: usize,
    call: Call,
) -> io::Result<()>
    requires { 1 ≤ size }
{
    let (calls, bytes) = count(rt.alloc(), recording, size, call)?;
    println!(rt; "{calls} calls, {bytes} bytes")
}

fn main(rt: HostRuntime) -> io::Result<()> {
    let asked = read_words(&rt)?;
    if asked.has_limits {
        print_limits(&rt)?;
    }
    if !asked.plays {
        return Ok(());
    }
    let size = asked.size.max(1);
    let mut recording = Vec::new(rt.alloc());
    rt.reader().read_to_end(&mut recording)?;
    if let Some(call) = asked.call {
        return print_counted(&rt, &recording, size, call);
    }
    let mut server = Server::new(rt.alloc())?;
    print_played(&rt, &mut server, &recording, size, asked.is_timed)
}
