//! The order in which the rows of the screen are stored.
ghost use Rattle.std.specs.Prelude.{◌≡◌, ℕ, ◌+◌, ◌-◌, ◌<◌, ◌≤◌, ◌⊎◌, IfOk, length, slice_index};
ghost use Rattle.std.specs.List.Sorted.{IsPermutation};
ghost use Rattle.vt_screen.specs.Sizes.{IsSize, stride, room};
ghost use Rattle.vt_screen.specs.Order.{IsOrder, start_of};

use crate::size::{MOST, Size};
use std::marker::Model;

/// The index at which the cells of each row of the screen begin, and the screen's size. Rows are stored as far apart as
/// the wide screen has columns, whatever the width. Scrolling moves these starts, and no cell. (Speed: a table of a fixed
/// length, of which the first `size.rows` count, costs no pointer.)
#[derive(Drop)]
pub struct RowOrder {
    rows: [u16; MOST],
    size: Size,
}

impl Model for RowOrder {
    ghost use Rattle.std.specs.Prelude.{take};
    ghost use Rattle.vt_screen.specs.Order.{Order, IsOrder};

    ghost Value = { Order };

    ghost view = { λ order. record { size = order.size; rows = take order.size.rows order.rows } };

    ghost invariant = { λ order. IsOrder (record { size = order.size; rows = take order.size.rows order.rows }) };
}

impl RowOrder {
    /// Returns the table in which the rows follow one another.
    pub fn new(size: Size) -> RowOrder
        requires { IsSize size }
        ensures { result.size ≡ size }
    {
        let mut rows = [0u16; MOST];
        let mut start = 0;
        for k in 0..size.rows {
            rows[k] = start as u16;
            start += size.wide;
        }
        RowOrder { rows, size }
    }

    /// Returns the size.
    #[inline(always)]
    pub fn size(&self) -> Size
        ensures size { result ≡ self.now.size }
        ensures sound { IsSize self.now.size }
    {
        self.size
    }

    /// Returns a table with the same size and starts.
    pub fn copied(&self) -> RowOrder
        ensures { result ≡ self.now }
    {
        RowOrder {
            rows: self.rows,
            size: self.size,
        }
    }

    /// Returns the index at which the cells of a row, from 1, begin.
    pub fn start(&self, row: usize) -> usize
        requires { (1 ≤ row) × (row ≤ self.now.size.rows) }
        ensures place { result ≡ start_of self.now row }
        ensures bound { result + stride self.now.size ≤ room self.now.size }
        ensures order { IsOrder self.now }
    {
        let _size = self.size;
        self.rows[row - 1] as usize
    }

    /// Moves the rows `top` to `bottom` up by `n`: the first of them become the last.
    pub fn move_up(&mut self, top: usize, bottom: usize, n: usize)
        requires rows { (1 ≤ top) × (top ≤ bottom) × (bottom ≤ self.old.size.rows) }
        requires count { n ≤ bottom + 1 - top }
        ensures moved { (r : ℕ) → top ≤ r → r + n ≤ bottom → start_of self.new r ≡ start_of self.old (r + n) }
        ensures size { self.new.size ≡ self.old.size }
        ensures outside { (r : ℕ) → 1 ≤ r → (r < top) ⊎ (bottom < r) → start_of self.new r ≡ start_of self.old r }
    {
        for _ in 0..n {
            self.move_up_once(top, bottom);
        }
    }

    /// Moves the rows `top` to `bottom` up by 1: the first of them becomes the last. Speed: most scrolls are by one
    /// row.
    #[inline(always)]
    pub fn move_up_once(&mut self, top: usize, bottom: usize)
        requires rows { (1 ≤ top) × (top ≤ bottom) × (bottom ≤ self.old.size.rows) }
        ensures moved { (r : ℕ) → top ≤ r → r + 1 ≤ bottom → start_of self.new r ≡ start_of self.old (r + 1) }
        ensures size { self.new.size ≡ self.old.size }
        ensures outside { (r : ℕ) → 1 ≤ r → (r < top) ⊎ (bottom < r) → start_of self.new r ≡ start_of self.old r }
    {
        let n = self.size.rows;
        move_part_up(&mut self.rows[..n], top, bottom);
    }

    /// Moves the rows `top` to `bottom` down by `n`: the last of them become the first.
    pub fn move_down(&mut self, top: usize, bottom: usize, n: usize)
        requires rows { (1 ≤ top) × (top ≤ bottom) × (bottom ≤ self.old.size.rows) }
        requires count { n ≤ bottom + 1 - top }
        ensures moved { (r : ℕ) → top + n ≤ r → r ≤ bottom → start_of self.new r ≡ start_of self.old (r - n) }
        ensures size { self.new.size ≡ self.old.size }
        ensures outside { (r : ℕ) → 1 ≤ r → (r < top) ⊎ (bottom < r) → start_of self.new r ≡ start_of self.old r }
    {
        for _ in 0..n {
            self.move_down_once(top, bottom);
        }
    }

    /// Moves the rows `top` to `bottom` down by 1: the last of them becomes the first. Speed: most scrolls are by one
    /// row.
    pub fn move_down_once(&mut self, top: usize, bottom: usize)
        requires rows { (1 ≤ top) × (top ≤ bottom) × (bottom ≤ self.old.size.rows) }
        ensures moved { (r : ℕ) → top + 1 ≤ r → r ≤ bottom → start_of self.new r ≡ start_of self.old (r - 1) }
        ensures size { self.new.size ≡ self.old.size }
        ensures outside { (r : ℕ) → 1 ≤ r → (r < top) ⊎ (bottom < r) → start_of self.new r ≡ start_of self.old r }
    {
        let n = self.size.rows;
        move_part_down(&mut self.rows[..n], top, bottom);
    }
}

/// Moves the starts of the rows `top` to `bottom` up by 1: the first of them becomes the last.
#[inline(always)]
fn move_part_up(rows: &mut [u16], top: usize, bottom: usize)
    requires { (1 ≤ top) × (top ≤ bottom) × (bottom ≤ length rows.old) }
    ensures moved { (r : ℕ) → top ≤ r → r + 1 ≤ bottom → slice_index rows.new (r - 1) ≡ slice_index rows.old (r + 1 - 1) }
    ensures outside { (r : ℕ) → 1 ≤ r → (r < top) ⊎ (bottom < r)
        → slice_index rows.new (r - 1) ≡ slice_index rows.old (r - 1) }
    ensures permutation { IsPermutation rows.old rows.new }
{
    move_first_behind(&mut rows[top - 1..bottom]);
}

/// Moves the starts of the rows `top` to `bottom` down by 1: the last of them becomes the first.
fn move_part_down(rows: &mut [u16], top: usize, bottom: usize)
    requires { (1 ≤ top) × (top ≤ bottom) × (bottom ≤ length rows.old) }
    ensures moved { (r : ℕ) → top + 1 ≤ r → r ≤ bottom → slice_index rows.new (r - 1) ≡ slice_index rows.old (r - 1 - 1) }
    ensures outside { (r : ℕ) → 1 ≤ r → (r < top) ⊎ (bottom < r)
        → slice_index rows.new (r - 1) ≡ slice_index rows.old (r - 1) }
    ensures permutation { IsPermutation rows.old rows.new }
{
    move_last_before(&mut rows[top - 1..bottom]);
}

/// Moves the first start after the others.
#[inline(always)]
fn move_first_behind(rows: &mut [u16])
    requires { 1 ≤ length rows.old }
    ensures moved { (k : ℕ) → k + 1 < length rows.old → slice_index rows.new k ≡ slice_index rows.old (k + 1) }
    ensures last { slice_index rows.new (length rows.old - 1) ≡ slice_index rows.old 0 }
    ensures permutation { IsPermutation rows.old rows.new }
{
    let last = rows.len() - 1;
    let first = rows[0];
    rows.copy_within(1.., 0);
    rows[last] = first;
}

/// Moves the last start before the others.
fn move_last_before(rows: &mut [u16])
    requires { 1 ≤ length rows.old }
    ensures moved { (k : ℕ) → 1 ≤ k → k < length rows.old → slice_index rows.new k ≡ slice_index rows.old (k - 1) }
    ensures first { slice_index rows.new 0 ≡ slice_index rows.old (length rows.old - 1) }
    ensures permutation { IsPermutation rows.old rows.new }
{
    let end = rows.len() - 1;
    let last = rows[end];
    rows.copy_within(..end, 1);
    rows[0] = last;
}
