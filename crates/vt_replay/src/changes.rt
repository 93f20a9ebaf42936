//! The changes of the size of a recording, as changes of the screen.
ghost use Rattle.std.specs.Prelude.{◌≡◌, ◌<◌, ◌+◌, ◌++◌, ◌∷◌, List, length, take, drop, All, IfOk};
ghost use Rattle.vt_screen.specs.Sizes.{IsSize};
ghost use Rattle.vt_replay.specs.Resizes.{most_changes, resizes_of, carried_out};

use crate::resized::Resize;
use std::alloc::{AllocError, Global};
use vt_cli::size_of;
use vt_recording::Change;

/// A place in what is played: the number of bytes after it that aren't of the content, and the number of bytes of the
/// content before it.
#[derive(Clone, Copy)]
struct Spot {
    before: usize,
    at: u64,
}

/// Returns a change by its index.
fn change_at(changes: &[Change], i: usize) -> Change
    requires { i < length changes.now }
    ensures { drop i changes.now ≡ result ∷ drop (i + 1) changes.now }
{
    changes[i]
}

/// Appends a change of the window as a change of the screen that comes after a place, and returns the place of the
/// change. A change to a size that no screen may have is left out.
fn push_resize(spot: Spot, change: Change, resizes: &mut Vec<Resize>) -> Result<Spot, AllocError>
    ensures ahead { IfOk result (λ next. (changes : List Change) → resizes.new.items ++ resizes_of next.before next.at changes
        ≡ resizes.old.items ++ resizes_of spot.before spot.at (change ∷ changes)) }
    ensures sizes { IfOk result (λ next. All (λ r. IsSize r.size) resizes.old.items → All (λ r. IsSize r.size) resizes.new.items) }
{
    let Some(size) = size_of(change.window.columns, change.window.rows) else {
        return Ok(spot);
    };
    let more = change.place.saturating_sub(spot.at) as usize;
    let after = spot.before.saturating_add(more);
    resizes.push(Resize { after, size })?;
    Ok(Spot {
        before: 0,
        at: change.place,
    })
}

/// Returns changes of the window as changes of the screen, of bytes that begin with so many that aren't of the content. A change to
/// a size that no screen may have is left out.
fn resizes_of(alloc: Global, before: usize, changes: &[Change]) -> Result<Vec<Resize>, AllocError>
    ensures resizes { IfOk result (λ resizes. resizes.items ≡ resizes_of before 0 changes.now) }
    ensures sizes { IfOk result (λ resizes. All (λ r. IsSize r.size) resizes.items) }
{
    let mut resizes = Vec::new(alloc);
    let mut spot = Spot { before, at: 0 };
    let mut i = 0;
    while i < changes.len() {
        spot = push_resize(spot, change_at(changes, i), &mut resizes)?;
        i += 1;
    }
    Ok(resizes)
}

/// The most changes of the size that are carried out. Each has a screen from the beginning, so this bounds the memory that a recording
/// takes.
const MOST_CHANGES: usize = 1000;

/// Returns the changes that are carried out: the first ones.
fn first_changes(changes: &[Change]) -> &[Change]
    ensures { result.now ≡ take most_changes changes.now }
{
    &changes[..MOST_CHANGES.min(changes.len())]
}

/// Returns the changes that are carried out of those of a recording: the first ones. So many bytes come before the content.
pub(crate) fn carried_out(
    alloc: Global,
    before: usize,
    changes: &[Change],
) -> Result<Vec<Resize>, AllocError>
    ensures resizes { IfOk result (λ resizes. resizes.items ≡ carried_out before changes.now) }
    ensures sizes { IfOk result (λ resizes. All (λ r. IsSize r.size) resizes.items) }
{
    resizes_of(alloc, before, first_changes(changes))
}
