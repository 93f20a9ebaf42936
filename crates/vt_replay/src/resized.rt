//! A player on a screen that changes its size.
ghost use Rattle.std.specs.Prelude.{◌≡◌, ◌+◌, ◌*◌, ◌≤◌, ◌++◌, ◌∷◌, [], ℕ, List, Bool, true, length, vec_len, vec_capacity, drop, not, nat_le, All, IfOk};
ghost use Rattle.std.specs.List.{list_all};
ghost use Rattle.vt_screen.specs.declared.size.Size.{Size};
ghost use Rattle.vt_screen.specs.Sizes.{IsSize};
ghost use Rattle.vt_term.specs.Play.{Played, both};
ghost use Rattle.vt_replay.specs.Resizes.{played_on, kept_on, due, is_settled, is_before, sizes_of, coming};
ghost use Rattle.vt_replay.specs.Sized.{room_of};
ghost use Rattle.vt_replay.specs.declared.resized.Later.{Later};

use crate::player::Player;
use crate::sized::{Ending, room_of};
use std::alloc::{AllocError, Global};
use std::collections::VecDeque;
use std::mem;
use vt_term::{Size, SizedTerminal};

/// A change of the screen's size.
#[derive(Clone, Copy, Debug, PartialEq, Eq)]
pub struct Resize {
    /// The number of the host's bytes between the change before it, or the first byte, and this one.
    pub after: usize,
    /// The new size.
    pub size: Size,
}

/// A change that is still to come.
#[derive(Drop)]
pub(crate) struct Later<P: Drop> {
    /// The number of the host's bytes between the change before it and this one.
    pub(crate) after: usize,
    /// A player of the new size.
    pub(crate) target: P,
}

/// A player of a host's bytes on a terminal whose screen changes its size.
pub(crate) trait Playing: Drop {
    /// The state and the reports that bytes leave as they come.
    ghost played: { Self → List ℕ → Played };

    /// What is kept between bytes.
    ghost Kept: { Type 0 };

    /// What is kept now.
    ghost kept: { Self → Kept };

    /// What bytes leave to be kept.
    ghost after: { Self → List ℕ → Kept };

    /// Whether so many bytes come before the next change.
    ghost takes: { Self → (count : ℕ) → Bool };

    /// The sizes that the screen has, now and later.
    ghost sizes: { Self → List Size };

    /// Returns how many of so many bytes come before the next change.
    fn front(&self, count: usize) -> usize
        ensures takes { takes self.now result ≡ true }
        ensures within { result ≤ count }
        ensures some { 1 ≤ count → 1 ≤ result };

    /// Plays a chunk that ends before the next change or at it, and carries out the changes after it. Appends the reports. `out` has
    /// capacity for ten more bytes for each byte of the chunk. It allocates nothing.
    fn feed(&mut self, chunk: &[u8], out: &mut Vec<u8>)
        requires takes { takes self.old (length chunk.now) ≡ true }
        requires room { vec_len out.old + 10 * length chunk.now ≤ vec_capacity out.old }
        ensures reports { out.new.items ≡ out.old.items ++ (played self.old chunk.now).reports }
        ensures on { (more : List ℕ) → played self.old (chunk.now ++ more)
            ≡ both (played self.old chunk.now) (played self.new more) }
        ensures after { (more : List ℕ) → after self.old (chunk.now ++ more) ≡ after self.new more }
        ensures sizes { (holds : Size → Bool) → list_all holds (sizes self.old) ≡ true → list_all holds (sizes self.new) ≡ true }
        ensures bounded { vec_len out.new ≤ vec_len out.old + 10 * length chunk.now }
        ensures capacity { vec_capacity out.old ≤ vec_capacity out.new };

    /// Returns the most bytes that are due at the end at one of the sizes.
    fn most(&self, ending: Ending) -> usize
        ensures { list_all (λ size. nat_le (room_of ending size) result) (sizes self.now) ≡ true };

    /// Returns the terminal, as the bytes and the changes that came leave it.
    fn sized(&self) -> &SizedTerminal
        ensures state { played self.now [] ≡ record { state = result.now; reports = [] } }
        ensures kept { after self.now [] ≡ kept self.now }
        ensures sizes { (holds : Size → Bool) → list_all holds (sizes self.now) ≡ true → holds result.now.display.grid.size ≡ true };
}

/// A player, and the changes that are still to come.
#[derive(Drop)]
pub(crate) struct Resized<P: Drop> {
    pub(crate) player: P,
    /// The number of bytes before the next change, if one is to come.
    pub(crate) left: usize,
    pub(crate) later: VecDeque<Later<P>>,
    ghost settled: { is_settled left later.items ≡ true },
}

/// Returns whether the next change comes before the next byte.
pub(crate) fn is_now<L>(left: usize, later: &VecDeque<L>) -> bool
    ensures { not result ≡ is_settled left later.now.items }
{
    match later.front() {
        Some(_) => left == 0,
        None => false,
    }
}

/// Returns the number of bytes between a change and the next one, if one is to come.
pub(crate) fn bytes_before<P: Player>(later: &VecDeque<Later<P>>) -> usize
    ensures { due result (coming later.now.items (λ l. l.after) (λ l. P.screen l.target))
        ≡ coming later.now.items (λ l. l.after) (λ l. P.screen l.target) }
{
    match later.front() {
        Some(next) => next.after,
        None => 0,
    }
}

/// Returns how many of so many bytes come before the next change.
fn front_of<L>(later: &VecDeque<L>, left: usize, count: usize) -> usize
    ensures takes { is_before result left later.now.items ≡ true }
    ensures within { result ≤ count }
    ensures some { is_settled left later.now.items ≡ true → 1 ≤ count → 1 ≤ result }
{
    match later.front() {
        Some(_) => count.min(left),
        None => count,
    }
}

/// Carries out the next change.
fn change<P: Player>(player: &mut P, later: &mut VecDeque<Later<P>>)
    ensures kept { (next : Later P) (rest : List (Later P)) → later.old.items ≡ next ∷ rest
        → P.kept player.new ≡ P.session.on (P.screen next.target) (P.kept player.old) }
    ensures screen { (next : Later P) (rest : List (Later P)) → later.old.items ≡ next ∷ rest
        → P.screen player.new ≡ P.screen next.target }
    ensures rest { later.new.items ≡ drop 1 later.old.items }
{
    if let Some(mut next) = later.pop_front() {
        player.resize_into(&mut next.target);
        mem::swap(player, &mut next.target);
    }
}

/// Carries out the changes that come before the next byte.
fn settle<P: Player>(player: &mut P, left: &mut usize, later: &mut VecDeque<Later<P>>)
    ensures on { (bytes : List ℕ)
        → played_on P.session (P.kept player.old) (due left.old (coming later.old.items (λ l. l.after) (λ l. P.screen l.target))) bytes
        ≡ played_on P.session (P.kept player.new) (due left.new (coming later.new.items (λ l. l.after) (λ l. P.screen l.target))) bytes }
    ensures kept { (bytes : List ℕ)
        → kept_on P.session (P.kept player.old) (due left.old (coming later.old.items (λ l. l.after) (λ l. P.screen l.target))) bytes
        ≡ kept_on P.session (P.kept player.new) (due left.new (coming later.new.items (λ l. l.after) (λ l. P.screen l.target))) bytes }
    ensures settled { is_settled left.new later.new.items ≡ true }
    ensures sizes { (holds : Size → Bool)
        → list_all holds (sizes_of (P.screen player.old) (coming later.old.items (λ l. l.after) (λ l. P.screen l.target))) ≡ true
        → list_all holds (sizes_of (P.screen player.new) (coming later.new.items (λ l. l.after) (λ l. P.screen l.target))) ≡ true }
{
    while is_now(*left, later) {
        let _ = player.sized();
        change(player, later);
        *left = bytes_before(later);
    }
}

/// Returns players for changes. `Err` means that allocation failed.
pub(crate) fn later_for<P: Player>(
    alloc: Global,
    resizes: &[Resize],
) -> Result<VecDeque<Later<P>>, AllocError>
    requires { All (λ r. IsSize r.size) resizes.now }
    ensures { IfOk result (λ later. coming later.items (λ l. l.after) (λ l. P.screen l.target) ≡ resizes.now) }
{
    let mut later = VecDeque::with_capacity(alloc, resizes.len())?;
    let mut i = 0;
    while i < resizes.len() {
        let resize = resizes[i];
        later.push_back_reserved(Later {
            after: resize.after,
            target: P::new(alloc, resize.size)?,
        });
        i += 1;
    }
    Ok(later)
}

impl<P: Player> Resized<P> {
    /// Returns the player of a new terminal whose screen has these changes, after those that come before the first byte. `Err` means
    /// that allocation failed.
    pub(crate) fn new(
        alloc: Global,
        size: Size,
        resizes: &[Resize],
    ) -> Result<Resized<P>, AllocError>
        requires size { IsSize size }
        requires sizes { All (λ r. IsSize r.size) resizes.now }
        ensures played { IfOk result (λ r. ◌≡◌ {A = List ℕ → Played} (λ bytes. played_on P.session (P.kept r.player)
            (due r.left (coming r.later.items (λ l. l.after) (λ l. P.screen l.target))) bytes)
            (λ bytes. played_on P.session (P.begun size) resizes.now bytes)) }
        ensures kept { IfOk result (λ r. ◌≡◌ {A = List ℕ → P.Kept} (λ bytes. kept_on P.session (P.kept r.player)
            (due r.left (coming r.later.items (λ l. l.after) (λ l. P.screen l.target))) bytes)
            (λ bytes. kept_on P.session (P.begun size) resizes.now bytes)) }
    {
        let mut player = P::new(alloc, size)?;
        let mut later = later_for(alloc, resizes)?;
        let mut left = bytes_before(&later);
        settle(&mut player, &mut left, &mut later);
        Ok(Resized {
            player,
            left,
            later,
        })
    }
}

impl<P: Player> Playing for Resized<P> {
    ghost played = { λ r bytes. played_on P.session (P.kept r.player)
        (due r.left (coming r.later.items (λ l. l.after) (λ l. P.screen l.target))) bytes };

    ghost Kept = { P.Kept };

    ghost kept = { λ r. P.kept r.player };

    ghost after = { λ r bytes. kept_on P.session (P.kept r.player)
        (due r.left (coming r.later.items (λ l. l.after) (λ l. P.screen l.target))) bytes };

    ghost takes = { λ r count. is_before count r.left r.later.items };

    ghost sizes = { λ r. sizes_of (P.screen r.player) (coming r.later.items (λ l. l.after) (λ l. P.screen l.target)) };

    fn front(&self, count: usize) -> usize {
        front_of(&self.later, self.left, count)
    }

    fn most(&self, ending: Ending) -> usize {
        let mut most = room_of(self.player.sized(), ending);
        let mut i = 0;
        while i < self.later.len() {
            most = most.max(room_of(self.later[i].target.sized(), ending));
            i += 1;
        }
        most
    }

    fn feed(&mut self, chunk: &[u8], out: &mut Vec<u8>) {
        self.player.feed(chunk, out);
        self.left = self.left.saturating_sub(chunk.len());
        settle(&mut self.player, &mut self.left, &mut self.later);
        let _ = self.player.sized();
    }

    fn sized(&self) -> &SizedTerminal {
        self.player.sized()
    }
}
