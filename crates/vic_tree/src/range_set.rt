//! A set of UIDs as ranges of their keys, in the order of low bits first.

ghost use Rattle.std.specs.Prelude.{◌≡◌, ℕ, ◌&&◌, ◌||◌, ◌↔◌, not, true, IfOk};
ghost use Rattle.std.specs.List.{Contains};
ghost use Rattle.vic_frame.specs.Uids.{has};
ghost use Rattle.vic_frame.specs.Masks.{BitMask};
ghost use Rattle.vic_frame.specs.LowBitsFirst.{mirror};
ghost use Rattle.vic_tree.specs.Counted.{IsCounted};
ghost use Rattle.vic_tree.specs.OpenSet.{SameUids, without_keys};
ghost use Rattle.vic_tree.specs.OpenMasks.{AreAll, AreFirst, IsOpenMask};
ghost use Rattle.vic_tree.specs.Ranges.{AreRanges, is_between, is_open_in};

use crate::besides::{push_left, widest_left};
use crate::counted::{CountedMasks, counted_left};
use crate::key_range::KeyRange;
use crate::open_masks::{MAX_OPEN_MASKS, OpenMasks, all_open_masks_left, open_masks_left};
use crate::open_set::OpenSet;
use crate::ranges::{Ranges, complement, complement_in_order, is_in_first, skip_to};
use crate::sorted_keys::SortedKeys;
use crate::spaced_keys::{SpacedKeys, open_masks_between};
use std::alloc::{AllocError, Global};
use std::marker::Model;
use vic_frame::low_bits_first::{KeyBlock, key};
use vic_frame::{Mask, Uid};

/// A set of UIDs as ranges of their keys in the order of low bits first, in which the UIDs of a
/// mask are consecutive: as few ranges as possible. The judge makes it in one go, from the closed
/// ranges (`without`); it can also be made of other sets or of masks. Settling one more mask
/// rebuilds it.
#[derive(Drop)]
pub struct RangeSet {
    pub(crate) ranges: Vec<KeyRange>,
    pub(crate) alloc: Global,
}

impl Model for RangeSet {
    ghost use Rattle.std.specs.Prelude.{ℕ, List};
    ghost use Rattle.vic_tree.specs.Ranges.{AreRanges};

    ghost Value = { List (ℕ × ℕ) };

    ghost view = { λ a. a.ranges.items };

    ghost invariant = { λ a. AreRanges a.ranges.items };
}

impl OpenSet for RangeSet {
    ghost is_open = { is_open_in };

    fn everything(alloc: Global) -> Result<RangeSet, AllocError> {
        RangeSet::without(alloc, Vec::new(alloc))
    }

    fn settle(&mut self, mask: &Mask, except: &[Uid]) -> Result<(), AllocError> {
        let Some(block) = KeyBlock::of(mask) else {
            return Ok(());
        };
        let range = KeyRange::new(block.first.number(), block.last().number());
        match ranges_after(self.alloc, &self.in_order(), range, except) {
            Ok(left) => {
                self.ranges = left;
                Ok(())
            }
            Err(error) => {
                self.ranges.clear();
                Err(error)
            }
        }
    }

    fn without(alloc: Global, closed: Vec<KeyRange>) -> Result<RangeSet, AllocError> {
        let ranges = complement(closed)?;
        Ok(RangeSet { ranges, alloc })
    }

    fn has(&self, uid: Uid) -> bool {
        self.in_order().has(key(uid).number())
    }

    fn widest(&self) -> Option<Mask> {
        widest_left(&self.in_order(), &SortedKeys::none(self.alloc))
    }

    fn has_each(&self, alloc: Global, keys: &SortedKeys) -> Result<Vec<bool>, AllocError> {
        let keys = keys.as_slice();
        let mut each = Vec::with_capacity(alloc, keys.len())?;
        let mut ahead = self.ranges.as_slice();
        for key in keys {
            ahead = skip_to(ahead, *key);
            each.push(is_in_first(ahead, *key))?;
        }
        Ok(each)
    }

    fn widest_besides(self, keys: &SortedKeys) -> Result<Option<Mask>, AllocError> {
        Ok(widest_left(&self.in_order(), keys))
    }
}

impl RangeSet {
    /// Its ranges.
    fn in_order(&self) -> Ranges<'_>
        ensures { result ≡ self.now }
    {
        Ranges {
            ranges: &self.ranges,
        }
    }

    /// The keys of its UIDs, as ranges in order with a key between any two.
    pub fn ranges(&self) -> &[KeyRange]
        ensures { result.now ≡ self.now }
    {
        &self.ranges
    }

    /// The set without the UIDs with some keys.
    pub fn besides(&self, alloc: Global, keys: &SortedKeys) -> Result<RangeSet, AllocError>
        ensures { IfOk result (λ set. SameUids (is_open_in set)
            (without_keys (is_open_in self.now) keys.now)) }
    {
        let mut ranges = Vec::new(alloc);
        push_left(&mut ranges, &self.in_order(), keys)?;
        Ok(RangeSet { ranges, alloc })
    }

    /// The first open masks (see `OpenMasks`) of the set without the UIDs with some keys, and
    /// whether there are more.
    pub fn open_masks_besides(&self, keys: &SortedKeys) -> OpenMasks
        ensures first { AreFirst MAX_OPEN_MASKS
            (IsOpenMask (without_keys (is_open_in self.now) keys.now)) result.masks.items }
        ensures more { result.more ≡ true ↔ (m : BitMask)
            × IsOpenMask (without_keys (is_open_in self.now) keys.now) m
            × (¬ (Contains result.masks.items m)) }
    {
        open_masks_left(&self.in_order(), keys)
    }

    /// The same, in less time where many of the keys lie in the set.
    pub fn open_masks_between(&self, keys: &SpacedKeys) -> OpenMasks
        ensures first { AreFirst MAX_OPEN_MASKS
            (IsOpenMask (without_keys (is_open_in self.now) keys.now)) result.masks.items }
        ensures more { result.more ≡ true ↔ (m : BitMask)
            × IsOpenMask (without_keys (is_open_in self.now) keys.now) m
            × (¬ (Contains result.masks.items m)) }
    {
        open_masks_between(&self.in_order(), keys)
    }

    /// The first open masks of the set without the UIDs with some keys, `most` at most, and how
    /// many there are, found without a list of all.
    pub fn counted_masks_besides(
        &self,
        alloc: Global,
        keys: &SortedKeys,
        most: usize,
    ) -> Result<CountedMasks, AllocError>
        ensures { IfOk result (IsCounted most
            (IsOpenMask (without_keys (is_open_in self.now) keys.now))) }
    {
        counted_left(alloc, &self.in_order(), keys, most)
    }

    /// All open masks of the set without the UIDs with some keys, by length, then by value.
    pub fn all_open_masks_besides(
        &self,
        alloc: Global,
        keys: &SortedKeys,
    ) -> Result<Vec<Mask>, AllocError>
        ensures { IfOk result (λ masks. AreAll
            (IsOpenMask (without_keys (is_open_in self.now) keys.now)) masks.items) }
    {
        all_open_masks_left(alloc, &self.in_order(), keys)
    }
}

/// What is left of some ranges after the keys of one are removed, except those of some UIDs.
fn ranges_after(
    alloc: Global,
    ranges: &Ranges<'_>,
    range: KeyRange,
    except: &[Uid],
) -> Result<Vec<KeyRange>, AllocError>
    ensures ranges { IfOk result (λ left. AreRanges left.items) }
    ensures left { IfOk result (λ left. SameUids (is_open_in left.items) (λ u.
        is_open_in ranges.now u
        && (not (is_between range.0 range.1 (mirror u)) || has except.now u))) }
{
    let except = SortedKeys::of(alloc, except)?;
    let mut closed = complement_in_order(Vec::from_slice(alloc, ranges.ranges)?)?;
    let range = Ranges {
        ranges: range.as_slice(),
    };
    push_left(&mut closed, &range, &except)?;
    complement(closed)
}
