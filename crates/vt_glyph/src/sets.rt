//! The four designated sets, and the locking and single shifts.
ghost use Rattle.std.specs.Prelude.{◌≡◌, ◌<◌, ◌≤◌, ◌⊎◌, ◌↔◌, ℕ, IsTrue, IfSome};

use crate::glyph::Glyph;
use crate::in_use::InUse;
use crate::set::Set;
use std::marker::Model;

/// The sets designated as G0 to G3, those in GL and GR, and a pending single shift. A slot is the number of one of G0
/// to G3. (EK-VT220-RM, chapters 2 and 4; ECMA-35)
#[derive(Clone, Copy)]
pub struct Sets {
    g: [Set; 4],
    left: u8,
    right: u8,
    pending: Option<u8>,
}

impl Model for Sets {
    ghost use Rattle.vt_glyph.specs.GraphicSets.{GraphicSets, AreSoundSets};

    ghost Value = { GraphicSets };

    ghost view = { λ s. record { g = s.g; left = s.left; right = s.right; pending = s.pending } };

    ghost invariant = { λ s. AreSoundSets (record { g = s.g; left = s.left; right = s.right; pending = s.pending }) };

    ghost inverse = { λ v. record { g = v.g; left = v.left; right = v.right; pending = v.pending } };
}

impl PartialEq for Sets {
    ghost use Rattle.std.specs.Prelude.{◌≡◌, ◌↔◌, IsTrue, nat_eq};
    ghost use Rattle.std.specs.Ordering.{on};
    ghost use Rattle.std.specs.Cmp.Lexicographic.{pointwise};
    ghost use Rattle.std.specs.Cmp.Rules.{comparing};
    ghost use Rattle.std.proofs.Common.{rules};
    ghost use Rattle.vt_glyph.specs.GraphicSets.{parts};

    ghost eq = { on parts (pointwise nat_eq) };

    ghost laws = { Prim.search (comparing, rules) };

    fn eq(&self, other: &Sets) -> bool
        ensures { IsTrue result ↔ (self.now ≡ other.now) }
    {
        self.left == other.left
            && self.right == other.right
            && self.pending == other.pending
            && same_designations(&self.g, &other.g)
    }
}

impl Eq for Sets {
    ghost use Rattle.std.specs.Cmp.Rules.{comparing};
    ghost use Rattle.std.proofs.Common.{rules};

    ghost laws = { Prim.search (comparing, rules) };
}

fn same_designations(a: &[Set; 4], b: &[Set; 4]) -> bool
    ensures { IsTrue result ↔ (a.now ≡ b.now) }
{
    a == b
}

impl Sets {
    ghost use Rattle.vt_glyph.specs.declared.set.Set.TheVariants.{Ascii};
    ghost use Rattle.vt_glyph.specs.Tables.{IsGlyph};
    ghost use Rattle.vt_glyph.specs.GraphicSets.{AreSoundSets};
    ghost use Rattle.vt_glyph.specs.Invocation.{sets_at_power_up, designated, locked_left, locked_right, shifted_once};
    ghost use Rattle.vt_glyph.specs.Invocation.{restored, set_at, glyph_read, after_read, in_use};

    /// Returns the sets at power-up: G0 and G1 ASCII, G2 and G3 Supplemental, G0 in GL, G2 in GR, and no single shift.
    /// (This profile)
    pub fn power_up() -> Sets
        ensures { result ≡ sets_at_power_up }
    {
        Sets {
            g: [Set::Ascii, Set::Ascii, Set::Supplemental, Set::Supplemental],
            left: 0,
            right: 2,
            pending: None,
        }
    }

    /// Returns the glyph of a graphic byte, 20 to 7E or A0 to FF. A pending single shift is then no longer pending.
    /// (SS2 and SS3)
    ///
    /// Returns `None` for A0 and FF, which leave a single shift pending (this profile). 20 is the space in every set.
    #[tactic(auto, unfolding(crate::specs::Invocation::glyph_read, crate::specs::Invocation::after_read))]
    pub fn read(&mut self, b: u8) -> Option<Glyph>
        requires { ((0x20 ≤ b) × (b ≤ 0x7E)) ⊎ (0xA0 ≤ b) }
        ensures glyph { result ≡ glyph_read self.old b }
        ensures is_glyph { IfSome result IsGlyph }
        ensures after { self.new ≡ after_read self.old b }
        ensures sound { AreSoundSets self.new }
    {
        let slot = match self.pending {
            Some(slot) => slot,
            None if b < 0x80 => self.left,
            None => self.right,
        };
        if b == 0xA0 || b == 0xFF {
            return None;
        }
        self.pending = None;
        if b == 0x20 {
            return Some(Glyph::blank());
        }
        Some(self.g[slot as usize].glyph(b % 0x80))
    }

    /// Designates a set as G0, G1, G2 or G3: `slot` is 0 to 3. (SCS, ECMA-35 14)
    pub fn designate(&mut self, slot: u8, set: Set)
        requires { slot < 4 }
        ensures after { self.new ≡ designated slot set self.old }
        ensures sound { AreSoundSets self.new }
    {
        self.g[slot as usize] = set;
    }

    /// Locks one of G0 to G3 into GL: `slot` is 0 to 3. (SI and SO, which are LS0 and LS1; LS2, LS3;
    /// ECMA-48 8.3.75, 8.3.76, 8.3.78, 8.3.80)
    pub fn lock_left(&mut self, slot: u8)
        requires { slot < 4 }
        ensures after { self.new ≡ locked_left slot self.old }
        ensures sound { AreSoundSets self.new }
    {
        self.left = slot;
    }

    /// Locks one of G1 to G3 into GR: `slot` is 1 to 3. (LS1R, LS2R, LS3R, ECMA-48 8.3.77, 8.3.79, 8.3.81)
    pub fn lock_right(&mut self, slot: u8)
        requires { (1 ≤ slot) × (slot < 4) }
        ensures after { self.new ≡ locked_right slot self.old }
        ensures sound { AreSoundSets self.new }
    {
        self.right = slot;
    }

    /// Shifts the next graphic byte to G2 or G3: `slot` is 2 or 3. It replaces a pending single shift. (SS2, SS3,
    /// ECMA-48 8.3.141, 8.3.142)
    pub fn shift_once(&mut self, slot: u8)
        requires { (2 ≤ slot) × (slot < 4) }
        ensures after { self.new ≡ shifted_once slot self.old }
        ensures sound { AreSoundSets self.new }
    {
        self.pending = Some(slot);
    }

    /// Restores saved designations and locking shifts. A pending single shift stays. (EK-VT220-RM,
    /// chapter 4: DECRC; the single shift is this profile's)
    pub fn restore(&mut self, g: [Set; 4], left: u8, right: u8)
        requires left { left < 4 }
        requires right { (1 ≤ right) × (right < 4) }
        ensures after { self.new ≡ restored g left right self.old }
        ensures sound { AreSoundSets self.new }
    {
        self.g = g;
        self.left = left;
        self.right = right;
    }

    /// Returns the set designated as G0, G1, G2 or G3: `slot` is 0 to 3.
    pub fn set(&self, slot: u8) -> Set
        requires { slot < 4 }
        ensures { result ≡ set_at self.now slot }
    {
        self.g[slot as usize]
    }

    /// Returns the sets designated as G0 to G3.
    pub fn designations(&self) -> [Set; 4]
        ensures value { result ≡ self.now.g }
        ensures sound { AreSoundSets self.now }
    {
        self.g
    }

    /// Returns the slot in GL, 0 to 3.
    pub fn left(&self) -> u8
        ensures value { result ≡ self.now.left }
        ensures range { result < 4 }
    {
        self.left
    }

    /// Returns the slot in GR, 1 to 3.
    pub fn right(&self) -> u8
        ensures value { result ≡ self.now.right }
        ensures range { (1 ≤ result) × (result < 4) }
    {
        self.right
    }

    /// Returns the slot of a pending single shift, 2 or 3, or `None`.
    pub fn pending(&self) -> Option<u8>
        ensures value { result ≡ self.now.pending }
        ensures range { IfSome result (λ slot. (2 ≤ slot) × (slot < 4)) }
    {
        self.pending
    }

    /// Returns the table of the sets in GL and GR. A run of bytes may be read through it while no single shift is
    /// pending. (EK-VT220-RM, chapter 4: the in-use table; [`laws::in_use`](crate::laws::in_use))
    pub fn in_use(&self) -> InUse
        ensures { result ≡ in_use self.now }
    {
        InUse::new(self.g[self.left as usize], self.g[self.right as usize])
    }

    /// Returns whether the bytes 20 to 7E show ASCII: ASCII is in GL and no single shift is pending. Reading such a
    /// byte then changes nothing.
    pub fn reads_ascii(&self) -> bool
        ensures exact { IsTrue result ↔ ((set_at self.now self.now.left ≡ Ascii) × (self.now.pending ≡ None)) }
        ensures glyph { IsTrue result → (b : ℕ) → 0x20 ≤ b → b ≤ 0x7E → glyph_read self.now b ≡ Some b }
        ensures after { IsTrue result → (b : ℕ) → 0x20 ≤ b → b ≤ 0x7E → after_read self.now b ≡ self.now }
    {
        self.pending.is_none() && self.g[self.left as usize] == Set::Ascii
    }
}
