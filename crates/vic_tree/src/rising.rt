//! Rising lists of UIDs.

ghost use Rattle.std.specs.Prelude.{◌≡◌, ℕ, slice_get};
ghost use Rattle.std.specs.List.Sorted.{IsStrictlyIncreasing};
ghost use Rattle.vic_frame.specs.Uids.{has};

use std::marker::Model;
use vic_frame::Uid;

/// UIDs in rising order, each once.
#[derive(Drop)]
pub struct RisingUids {
    uids: Vec<Uid>,
}

impl Model for RisingUids {
    ghost use Rattle.std.specs.Prelude.{ℕ, List};
    ghost use Rattle.std.specs.List.Sorted.{IsStrictlyIncreasing};

    ghost Value = { List ℕ };

    ghost view = { λ r. r.uids.items };

    ghost invariant = { λ r. IsStrictlyIncreasing r.uids.items };
}

impl RisingUids {
    /// The UIDs of a list.
    pub fn of(uids: Vec<Uid>) -> RisingUids
        ensures rising { IsStrictlyIncreasing result }
        ensures members { (u : ℕ) → has result u ≡ has uids.items u }
    {
        let mut uids = uids;
        uids.sort_unstable();
        uids.dedup();
        RisingUids { uids }
    }

    /// The UIDs, from the least to the greatest.
    pub fn as_slice(&self) -> &[Uid]
        ensures value { result.now ≡ self.now }
        ensures rising { IsStrictlyIncreasing self.now }
    {
        &self.uids
    }

    /// The same as a list of its own.
    pub fn into_vec(self) -> Vec<Uid>
        ensures value { result.items ≡ self }
        ensures rising { IsStrictlyIncreasing self }
    {
        self.uids
    }

    /// The least UID.
    pub fn first(&self) -> Option<Uid>
        ensures { result ≡ slice_get self.now 0 }
    {
        self.uids.first().copied()
    }
}
