//! Keys in order, and those that are still ahead when they are walked.

ghost use Rattle.std.specs.Prelude.{◌≡◌, ℕ, ◌+◌, ◌<◌, ◌≤◌, true, false, [], IfOk, length, get_or};
ghost use Rattle.std.specs.List.Sorted.{IsNonDecreasing};
ghost use Rattle.vic_frame.specs.Uids.{has};
ghost use Rattle.vic_tree.specs.Keys.{AreKeysOf};
ghost use Rattle.vic_tree.specs.OpenSet.{AreKeys};

use crate::key_range::KeyRange;
use std::alloc::{AllocError, Global};
use std::marker::Model;
use vic_frame::Uid;
use vic_frame::low_bits_first::key;

/// Keys of UIDs, in order; one may come several times.
#[derive(Drop)]
pub struct SortedKeys {
    keys: Vec<u64>,
}

impl Model for SortedKeys {
    ghost use Rattle.std.specs.Prelude.{ℕ, List};
    ghost use Rattle.std.specs.List.Sorted.{IsNonDecreasing};
    ghost use Rattle.vic_tree.specs.OpenSet.{AreKeys};

    ghost Value = { List ℕ };

    ghost view = { λ a. a.keys.items };

    ghost invariant = { λ a. AreKeys a.keys.items × IsNonDecreasing a.keys.items };
}

impl SortedKeys {
    /// No keys.
    pub fn none(alloc: Global) -> SortedKeys
        ensures { result ≡ [] }
    {
        SortedKeys {
            keys: Vec::new(alloc),
        }
    }

    /// The keys of UIDs; those of UIDs that come twice come twice.
    pub fn of(alloc: Global, uids: &[Uid]) -> Result<SortedKeys, AllocError>
        ensures { IfOk result (λ keys. AreKeysOf keys uids.now) }
    {
        let mut keys = Vec::with_capacity(alloc, uids.len())?;
        for uid in uids {
            keys.push(key(*uid).number())?;
        }
        keys.sort_unstable();
        Ok(SortedKeys { keys })
    }

    /// The keys, from the least to the greatest.
    pub fn as_slice(&self) -> &[u64]
        ensures value { result.now ≡ self.now }
        ensures keys { AreKeys result.now }
        ensures order { IsNonDecreasing result.now }
    {
        &self.keys
    }

    /// The keys, all of them ahead.
    pub(crate) fn ahead(&self) -> KeysAhead<'_>
        ensures { result ≡ self.now }
    {
        KeysAhead { keys: &self.keys }
    }
}

/// The rest of some sorted keys.
#[derive(Drop)]
pub(crate) struct KeysAhead<'a> {
    keys: &'a [u64],
}

impl<'a> Model for KeysAhead<'a> {
    ghost use Rattle.std.specs.Prelude.{ℕ, List};
    ghost use Rattle.std.specs.List.Sorted.{IsNonDecreasing};
    ghost use Rattle.vic_tree.specs.OpenSet.{AreKeys};

    ghost Value = { List ℕ };

    ghost view = { λ a. a.keys.now };

    ghost invariant = { λ a. AreKeys a.keys.now × IsNonDecreasing a.keys.now };
}

impl<'a> KeysAhead<'a> {
    /// Leaves the keys below `from` behind; if at most one is below it, that one may stay ahead.
    /// The index doubles until the key there isn't below `from`; halving then finds how many are.
    fn pass_to(&mut self, from: u64)
        ensures { (k : ℕ) → from ≤ k → has self.new k ≡ has self.old k }
    {
        let keys = self.keys;
        let mut bound = 1;
        while bound < keys.len() && keys[bound] < from {
            bound *= 2;
        }
        if 1 < bound {
            let below = keys[..bound.min(keys.len())].partition_point(|key| *key < from);
            self.keys = &keys[below..];
        }
    }

    /// The first free key from key `from` on, that is, the first that isn't one of these. Those
    /// before it are left behind.
    pub(crate) fn first_free(&mut self, from: u64) -> u64
        ensures from { from ≤ result }
        ensures before { (k : ℕ) → from ≤ k → k < result → has self.old k ≡ true }
        ensures same { (k : ℕ) → result ≤ k → has self.new k ≡ has self.old k }
        ensures after { (i : ℕ) → i < length self.new → result < get_or self.new i 0 }
    {
        self.pass_to(from);
        let mut free = from;
        while let Some((key, others)) = self.keys.split_first() {
            if free < *key {
                return free;
            }
            free = free.max(*key + 1);
            self.keys = others;
        }
        free
    }

    /// The keys of a range up to the one before the first of these.
    pub(crate) fn run_from(&self, range: KeyRange) -> KeyRange
        requires { (i : ℕ) → i < length self.now → range.0 < get_or self.now i 0 }
        ensures first { result.0 ≡ range.0 }
        ensures last { result.1 ≤ range.1 }
        ensures free { (k : ℕ) → k ≤ result.1 → has self.now k ≡ false }
        ensures end { result.1 < range.1 → has self.now (result.1 + 1) ≡ true }
    {
        match self.keys.first() {
            Some(key) => KeyRange::new(range.first(), range.last().min(*key - 1)),
            None => range,
        }
    }
}
