//! Masks of at most 56 bits, and what is cut from them.

ghost use Rattle.std.specs.Prelude.{◌≡◌, ℕ, ◌-◌, ◌<◌, ◌≤◌, ◌&&◌, false, IfSome, IfNone, if◌then◌else◌};
ghost use Rattle.vic_frame.specs.Masks.{lies_in};
ghost use Rattle.vic_frame.specs.MaskLaws.{lower_half, upper_half};
ghost use Rattle.vic_sets.specs.Cells.{IsCell, holds, cut_at, flipped};

use std::marker::Model;
use vic_frame::{Mask, UID_BITS};

/// A mask of at most 56 bits.
#[derive(Clone, Copy, PartialEq, Eq, PartialOrd, Ord)]
pub(crate) struct Cell {
    pub mask: Mask,
}

impl Model for Cell {
    ghost use Rattle.vic_frame.specs.Masks.{BitMask};
    ghost use Rattle.vic_sets.specs.Cells.{IsCell};

    ghost Value = { BitMask };

    ghost view = { λ c. c.mask };

    ghost invariant = { λ c. IsCell c.mask };

    ghost inverse = { λ m. record { mask = m } };
}

impl Cell {
    /// How many bits it fixes, from 0 to 56.
    pub(crate) fn len(&self) -> u8
        ensures value { result ≡ self.now.len }
        ensures cell { IsCell self.now }
    {
        self.mask.len()
    }

    /// Whether it holds all of another.
    fn holds(&self, inner: &Cell) -> bool
        ensures value { result ≡ holds self.now inner.now }
        ensures cell { IsCell self.now }
    {
        self.len() <= inner.len() && inner.mask.value() % (1 << self.len()) == self.mask.value()
    }

    /// The mask of what it has in common with another, if they have anything.
    pub(crate) fn shared(&self, other: &Cell) -> Option<Cell>
        ensures within { IfSome result (λ m.
            (self.now.len ≤ m.len) × (cut_at self.now.len m ≡ self.now)) }
        ensures both { IfSome result (λ m. (u : ℕ)
            → lies_in m u ≡ (lies_in self.now u && lies_in other.now u)) }
        ensures none { IfNone result ((u : ℕ)
            → (lies_in self.now u && lies_in other.now u) ≡ false) }
    {
        if self.holds(other) {
            Some(*other)
        } else if other.holds(self) {
            Some(*self)
        } else {
            None
        }
    }

    /// The mask that fixes the low `len` bits as this one does, and the next one otherwise.
    pub(crate) fn flipped(&self, len: u8) -> Cell
        requires { len < self.now.len }
        ensures { result ≡ flipped len self.now }
    {
        let bit = (self.mask.value() >> len) % 2;
        let low = self.mask.value() % (1 << len);
        let value = if bit == 0 { low + (1 << len) } else { low };
        let mask = Mask::of_bits(len + 1, value);
        Cell { mask }
    }

    /// The mask that fixes one bit less, if it fixes any.
    pub(crate) fn widened(&self) -> Cell
        ensures { result ≡ cut_at (self.now.len - 1) self.now }
    {
        let len = self.len().saturating_sub(1);
        let mask = Mask::of_bits(len, self.mask.value() % (1 << len));
        Cell { mask }
    }
}
