//! An index over tags in the order of their keys, by the keys' top bits. Its answers are only
//! hints.

ghost use Rattle.std.specs.Prelude.{◌≤◌};
ghost use Rattle.vic_frame.specs.declared.uid.TheConstants.{UID_BITS};

use std::alloc::{AllocError, Global};
use vic_frame::UID_BITS;

/// How many of a key's 56 bits an index uses at most, so that it stays small enough for a
/// processor's cache: 256 KiB.
const MOST_BITS: u32 = 16;

/// A hint of where a key is among tags.
#[derive(Drop)]
pub(crate) struct Index {
    /// How many tags have keys below the least one with given top bits.
    lower: Vec<u32>,
    /// By how many bits a key is shifted to its top bits.
    shift: u32,
    ghost in_key: { shift ≤ UID_BITS },
}

impl Index {
    /// An index over no tags.
    pub(crate) fn new(alloc: Global) -> Index {
        Index {
            lower: Vec::new(alloc),
            shift: 0,
        }
    }

    /// An index over tags with these keys: about one number for every two keys, if there are few.
    pub(crate) fn over(alloc: Global, keys: &[u64]) -> Result<Index, AllocError> {
        let bits = (keys.len() / 2 + 1).ilog2().min(MOST_BITS);
        let mut index = Index {
            lower: vec![in alloc; 0; (1usize << bits) + 2]?,
            shift: u32::from(UID_BITS) - bits,
        };
        index.count(keys);
        sum_up(&mut index.lower);
        Ok(index)
    }

    /// Counts how many keys have each value of their top bits, shifted by one; the first is 0.
    fn count(&mut self, keys: &[u64]) {
        for key in keys {
            let top = (*key >> self.shift) as usize;
            if let Some(count) = self.lower.get_mut(top.saturating_add(1)) {
                *count = u32::saturating_add(*count, 1);
            }
        }
    }

    /// The positions at which the tags with a key's top bits begin and end.
    pub(crate) fn hint(&self, key: u64) -> (usize, usize) {
        let top = (key >> self.shift) as usize;
        match (self.lower.get(top), self.lower.get(top.saturating_add(1))) {
            (Some(from), Some(to)) => (*from as usize, *to as usize),
            _ => (0, 0),
        }
    }
}

/// Replaces each number with the sum of all up to it.
fn sum_up(counts: &mut [u32]) {
    let mut sum: u32 = 0;
    for count in counts.iter_mut() {
        sum = sum.saturating_add(*count);
        *count = sum;
    }
}
