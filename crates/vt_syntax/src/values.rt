//! The values of a control sequence, separate from its other parts.
ghost use Rattle.std.specs.Prelude.{◌≡◌, ◌≤◌, [], length};

use std::marker::Model;

/// The values of a control sequence: at most 16, stored in the struct itself.
#[derive(Drop)]
pub struct Values {
    pub(crate) list: [u16; 16],
    pub(crate) len: usize,
}

impl Model for Values {
    ghost use Rattle.std.specs.Prelude.{◌≡◌, ◌≤◌, ℕ, List, length, take};

    ghost Value = { List ℕ };

    ghost view = { λ v. take v.len v.list };

    ghost invariant = { λ v. (v.len ≤ 16) × (length v.list ≡ 16) };
}

impl Values {
    /// Returns an empty list of values.
    pub fn new() -> Values
        ensures { result ≡ [] }
    {
        Values {
            list: [0; 16],
            len: 0,
        }
    }

    /// Returns the values.
    #[inline(always)]
    pub fn as_slice(&self) -> &[u16]
        ensures value { result.now ≡ self.now }
        ensures few { length result.now ≤ 16 }
    {
        &self.list[..self.len]
    }

    /// Replaces all values by these.
    pub(crate) fn set(&mut self, values: &[u16])
        requires { length values.now ≤ 16 }
        ensures { self.new ≡ values.now }
    {
        self.list[..values.len()].copy_from_slice(values);
        self.len = values.len();
    }
}
