//! Consecutive keys.

ghost use Rattle.std.specs.Prelude.{◌≡◌, ◌≤◌, ◌∷◌, []};
ghost use Rattle.vic_frame.specs.LowBitsFirst.{IsKey};
ghost use Rattle.vic_tree.specs.Ranges.{IsKeyRange};

use std::marker::Model;
use std::slice;

/// The keys from a first one to a last one, inclusive. A key is a UID's number in the order of low
/// bits first, below `2^56`.
#[derive(Clone, Copy, Debug, PartialEq, Eq)]
pub struct KeyRange {
    first: u64,
    last: u64,
}

impl Model for KeyRange {
    ghost use Rattle.std.specs.Prelude.{ℕ};
    ghost use Rattle.vic_tree.specs.Ranges.{IsKeyRange};

    ghost Value = { ℕ × ℕ };

    ghost view = { λ a. (a.first, a.last) };

    ghost invariant = { λ a. IsKeyRange (a.first, a.last) };

    ghost inverse = { λ r. record { first = r.0; last = r.1 } };
}

impl KeyRange {
    /// The keys from `first` to `last`.
    pub fn new(first: u64, last: u64) -> KeyRange
        requires forward { first ≤ last }
        requires small { IsKey last }
        ensures { result ≡ (first, last) }
    {
        KeyRange { first, last }
    }

    /// The first key.
    pub fn first(&self) -> u64
        ensures value { result ≡ self.now.0 }
        ensures is_range { IsKeyRange self.now }
    {
        self.first
    }

    /// The last key.
    pub fn last(&self) -> u64
        ensures value { result ≡ self.now.1 }
        ensures is_range { IsKeyRange self.now }
    {
        self.last
    }

    /// The range as a list.
    pub(crate) fn as_slice(&self) -> &[KeyRange]
        ensures value { result.now ≡ self.now ∷ [] }
        ensures is_range { IsKeyRange self.now }
    {
        // a use of a field shows a proof the invariant
        let _ = &self.first;
        slice::from_ref(self)
    }
}
