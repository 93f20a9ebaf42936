//! The conformance vectors.
ghost use Rattle.std.specs.Prelude.{◌≡◌, ◌==◌, ◌≤◌, ◌<◌, length, count_by};
ghost use Rattle.vt_vectors.specs.Vectors.{IsOfRow};

mod tables;

use crate::expectation::Vector;

/// A vector as its table has it: its name, and the text and the repaint as strings.
#[derive(Clone, Copy)]
struct Row {
    name: &'static str,
    input: &'static [u8],
    text: &'static str,
    reports: &'static [u8],
    repaint: Option<&'static str>,
}

impl Row {
    fn vector(&self) -> Vector<'static>
        ensures { IsOfRow result self.now }
    {
        Vector {
            input: self.input,
            text: self.text.as_bytes(),
            reports: self.reports,
            repaint: self.repaint.map(|repaint| repaint.as_bytes()),
        }
    }
}

/// The number of conformance vectors.
pub const VECTOR_COUNT: usize = tables::COUNT;

/// Returns the number of conformance vectors: at least 60.
pub fn vector_count() -> usize
    ensures many { 60 ≤ result }
    ensures count { result ≡ VECTOR_COUNT }
{
    VECTOR_COUNT
}

/// Returns the `i`-th row, counted from 0.
fn row_at(i: usize) -> Row
    requires { i < VECTOR_COUNT }
    ensures named { 1 ≤ length result.name.now }
    ensures short { length result.input.now ≤ 200 }
    ensures lines { count_by (λ b. b == 0x0A) result.text.now ≡ 24 }
{
    let tables = tables::tables();
    let mut left = i;
    for rows in tables {
        if left < rows.len() {
            return rows[left];
        }
        left -= rows.len();
    }
    unreachable!()
}

/// Returns the `i`-th conformance vector, counted from 0. Its input has at most 200 bytes, and its text 24 lines.
pub fn vector(i: usize) -> Vector<'static>
    requires { i < VECTOR_COUNT }
    ensures short { length result.input.now ≤ 200 }
    ensures lines { count_by (λ b. b == 0x0A) result.text.now ≡ 24 }
{
    row_at(i).vector()
}

/// Returns the name of the `i`-th conformance vector, counted from 0: its subject, a colon, and what it shows.
pub fn vector_name(i: usize) -> &'static str
    requires { i < VECTOR_COUNT }
    ensures { 1 ≤ length result.now }
{
    row_at(i).name
}
