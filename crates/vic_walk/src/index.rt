//! An index over borders, by which a search for a key begins among few of them. Its answers are
//! only hints.

ghost use Rattle.std.specs.Prelude.{◌≤◌};
ghost use Rattle.vic_frame.specs.declared.uid.TheConstants.{UID_BITS};

use std::alloc::{AllocError, Global};
use vic_frame::UID_BITS;

/// How many cells an index has at most, as a power of two: they take 4 MiB.
const MOST_BITS: u32 = 20;

/// How many borders at either end aren't counted when the width of the cells is chosen: so many, or
/// an eighth of all if these are fewer. Of nested masks around many UIDs some are far from all
/// others: if they counted, all others would share a few cells.
const FAR: usize = 128;

/// A hint of where a key is among borders. Cells of one width cover the keys, but for those far
/// from most borders, which belong to the first cell or the last.
#[derive(Drop)]
pub(crate) struct Index {
    /// The key at which the first cell begins.
    base: u64,
    /// The width of a cell, as a power of two.
    shift: u32,
    /// How many borders are below each cell, and at the end how many there are.
    below: Vec<u32>,
    ghost in_key: { shift ≤ UID_BITS },
}

impl Index {
    /// An index over borders in rising order: a cell for every two of them, if there are few.
    pub(crate) fn over(alloc: Global, borders: &[u64]) -> Result<Index, AllocError> {
        let bits = (borders.len() / 2 + 1).ilog2().min(MOST_BITS);
        let (base, shift) = base_and_shift(borders, bits);
        let mut index = Index {
            base,
            shift,
            below: vec![in alloc; 0; (1usize << bits) + 1]?,
        };
        index.count(borders);
        Ok(index)
    }

    /// The cell of a key.
    fn cell(&self, key: u64) -> usize {
        let cell = (key.saturating_sub(self.base) >> self.shift) as usize;
        cell.min(self.below.len().saturating_sub(2))
    }

    /// Counts the borders below each cell.
    fn count(&mut self, borders: &[u64]) {
        for border in borders {
            let next = self.cell(*border).saturating_add(1);
            if let Some(count) = self.below.get_mut(next) {
                *count = u32::saturating_add(*count, 1);
            }
        }
        sum_up(&mut self.below);
    }

    /// The numbers of two borders between which a key is.
    pub(crate) fn hint(&self, key: u64) -> (usize, usize) {
        let cell = self.cell(key);
        match (self.below.get(cell), self.below.get(cell.saturating_add(1))) {
            (Some(from), Some(to)) => {
                // the last border of an earlier cell, and the first of a later one, if there is one
                let last = self.below.last().copied().unwrap_or(0) as usize;
                let to = (*to as usize).min(last.saturating_sub(1));
                ((*from as usize).saturating_sub(1), to)
            }
            _ => (0, 0),
        }
    }
}

/// The number of the last border up to a key, if it is `from` or one of the next three; else some
/// other number. There is no branch that depends on the key: a wrong guess by the processor takes
/// longer than all of it.
pub(crate) fn up_to(borders: &[u64], from: usize, key: u64) -> usize {
    match borders.get(from.saturating_add(1)..from.saturating_add(4)) {
        Some([first, second, third]) => from
            .saturating_add(usize::from(*first <= key))
            .saturating_add(usize::from(*second <= key))
            .saturating_add(usize::from(*third <= key)),
        _ => from,
    }
}

/// The base and the shift of an index of `2^bits` cells that cover most of some borders in rising
/// order.
fn base_and_shift(borders: &[u64], bits: u32) -> (u64, u32)
    ensures { result.1 ≤ UID_BITS }
{
    let far = FAR.min(borders.len() / 8);
    let (Some(base), Some(end)) = (borders.get(far), borders.iter().rev().nth(far)) else {
        return (0, u32::from(UID_BITS));
    };
    let covered = match end.saturating_sub(*base).checked_ilog2() {
        Some(log) => log.saturating_add(1),
        None => 0,
    };
    (*base, covered.saturating_sub(bits).min(u32::from(UID_BITS)))
}

/// Replaces each number with the sum of all up to it.
fn sum_up(counts: &mut [u32]) {
    let mut sum: u32 = 0;
    for count in counts.iter_mut() {
        sum = sum.saturating_add(*count);
        *count = sum;
    }
}
