//! The union of some sets, or of some masks, as one set.

ghost use Rattle.std.specs.Prelude.{◌≡◌, ℕ, IfOk};
ghost use Rattle.std.specs.List.{list_any};
ghost use Rattle.vic_frame.specs.Masks.{lies_in};
ghost use Rattle.vic_tree.specs.OpenSet.{SameUids};
ghost use Rattle.vic_tree.specs.Ranges.{in_ranges, is_open_in};

use crate::key_range::KeyRange;
use crate::range_set::RangeSet;
use crate::ranges::{complement, complement_in_order};
use std::alloc::{AllocError, Global};
use vic_frame::Mask;
use vic_frame::low_bits_first::KeyBlock;

impl RangeSet {
    /// The UIDs that are in at least one of some sets.
    pub fn union(alloc: Global, sets: &[RangeSet]) -> Result<RangeSet, AllocError>
        ensures { IfOk result (λ set. SameUids (is_open_in set)
            (λ u. list_any (λ one. is_open_in one u) sets.now)) }
    {
        set_of(alloc, ranges_of_sets(alloc, sets)?)
    }

    /// The UIDs that lie in at least one of some masks.
    pub fn of_masks(alloc: Global, masks: &[Mask]) -> Result<RangeSet, AllocError>
        ensures { IfOk result (λ set. SameUids (is_open_in set)
            (λ u. list_any (λ m. lies_in m u) masks.now)) }
    {
        set_of(alloc, ranges_of_masks(alloc, masks)?)
    }
}

/// The set of the UIDs with keys in some ranges. The ranges may come in any order, adjoin and
/// overlap.
fn set_of(alloc: Global, ranges: Vec<KeyRange>) -> Result<RangeSet, AllocError>
    ensures { IfOk result (λ set. SameUids (is_open_in set) (is_open_in ranges.items)) }
{
    // the complement of the complement: in order, and none adjoin
    let ranges = complement_in_order(complement(ranges)?)?;
    Ok(RangeSet { ranges, alloc })
}

/// The ranges of all sets, one set after another.
fn ranges_of_sets(alloc: Global, sets: &[RangeSet]) -> Result<Vec<KeyRange>, AllocError>
    ensures { IfOk result (λ all. (k : ℕ)
        → in_ranges all.items k ≡ list_any (λ one. in_ranges one k) sets.now) }
{
    let count = sets.iter().fold(0usize, |count, set| count.saturating_add(set.ranges.len()));
    let mut all = Vec::with_capacity(alloc, count)?;
    for set in sets {
        all.extend_from_slice(&set.ranges)?;
    }
    Ok(all)
}

/// The range of the keys of each mask that holds a UID.
fn ranges_of_masks(alloc: Global, masks: &[Mask]) -> Result<Vec<KeyRange>, AllocError>
    ensures { IfOk result (λ ranges. SameUids (is_open_in ranges.items)
        (λ u. list_any (λ m. lies_in m u) masks.now)) }
{
    let mut ranges = Vec::with_capacity(alloc, masks.len())?;
    for mask in masks {
        if let Some(block) = KeyBlock::of(mask) {
            ranges.push(KeyRange::new(block.first.number(), block.last().number()))?;
        }
    }
    Ok(ranges)
}
