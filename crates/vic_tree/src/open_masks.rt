//! The open masks of ranges of keys without some keys: the maximal blocks of the keys that are
//! left.
//!
//! The keys that are left form runs. Of the blocks of one size in a run, each but the first and the
//! last is half of a greater block in the run. So at most these two are open masks.

ghost use Rattle.std.specs.Prelude.{◌≡◌, ℕ, ◌≤◌, ◌↔◌, Bool, true, IfOk, OnOk, IfSome, Some, length};
ghost use Rattle.std.specs.List.{Contains};
ghost use Rattle.vic_frame.specs.Masks.{BitMask};
ghost use Rattle.vic_tree.specs.OpenSet.{without_keys};
ghost use Rattle.vic_tree.specs.OpenMasks.{AreAll, AreFirst, IsOpenMask};
ghost use Rattle.vic_tree.specs.inner.KeptMasks.{Adds, AreKept, IsMaximalAt, IsMaximalIn, Keeps};
ghost use Rattle.vic_tree.specs.Ranges.{is_open_in};

use crate::blocks::{least_len, size_of_block};
use crate::key_range::KeyRange;
use crate::ranges::Ranges;
use crate::runs::Runs;
use crate::sorted_keys::SortedKeys;
use arrayvec::ArrayVec;
use std::alloc::{AllocError, Global};
use vic_frame::low_bits_first::mask_of_keys;
use vic_frame::{Mask, UID_BITS};

/// How many an `OpenMasks` has at most.
pub const MAX_OPEN_MASKS: usize = 16;

/// How many are kept: one more, to show whether there are more.
pub(crate) const KEPT: usize = MAX_OPEN_MASKS + 1;

/// How many there is room for: one more is put in order before the last one is dropped.
pub(crate) const BUFFER: usize = KEPT + 1;

/// The first few of a set's open masks: the masks of at most 56 bits that lie entirely in the set,
/// and aren't half of another such mask. All open masks together are disjoint, and hold all UIDs of
/// the set.
#[derive(Drop)]
pub struct OpenMasks {
    /// At most sixteen, by length, then by value.
    pub masks: ArrayVec<Mask, MAX_OPEN_MASKS>,
    /// Whether there are more.
    pub more: bool,
}

/// The first open masks of what is left of some ranges when some keys are removed, found without
/// memory from the heap.
pub(crate) fn open_masks_left(ranges: &Ranges<'_>, removed: &SortedKeys) -> OpenMasks
    ensures first { AreFirst MAX_OPEN_MASKS
        (IsOpenMask (without_keys (is_open_in ranges.now) removed.now)) result.masks.items }
    ensures more { result.more ≡ true ↔ (m : BitMask)
        × IsOpenMask (without_keys (is_open_in ranges.now) removed.now) m
        × (¬ (Contains result.masks.items m)) }
{
    let mut kept = ArrayVec::new();
    let mut left = Runs::new(0, ranges, removed.ahead());
    while let Some(run) = left.next_run() {
        keep_in_run(&mut kept, run);
    }
    first_of_kept(&kept)
}

/// The masks that were kept, up to the limit, and whether there are more.
pub(crate) fn first_of_kept(kept: &ArrayVec<Mask, BUFFER>) -> OpenMasks
    requires { length kept.now.items ≤ KEPT }
    ensures first { (set : ℕ → Bool) → AreFirst KEPT (IsOpenMask set) kept.now.items
        → AreFirst MAX_OPEN_MASKS (IsOpenMask set) result.masks.items }
    ensures more { (set : ℕ → Bool) → AreFirst KEPT (IsOpenMask set) kept.now.items
        → result.more ≡ true ↔ (m : BitMask) × IsOpenMask set m
        × (¬ (Contains result.masks.items m)) }
{
    let mut masks = ArrayVec::new();
    for mask in &kept[..kept.len().min(MAX_OPEN_MASKS)] {
        masks.push(*mask);
    }
    OpenMasks {
        masks,
        more: kept.len() == KEPT,
    }
}

/// Keeps the open masks of a run. Once the list of kept masks is full, and all are shorter than
/// those to come, no others are looked at.
pub(crate) fn keep_in_run(kept: &mut ArrayVec<Mask, BUFFER>, run: KeyRange)
    requires kept { AreKept kept.old.items }
    ensures keeps { Keeps (IsMaximalIn run.0 run.1) kept.old.items kept.new.items }
    ensures kept { AreKept kept.new.items }
{
    for len in least_len(run)..UID_BITS + 1 {
        if kept.len() == KEPT && kept[KEPT - 1].len() < len {
            return;
        }
        keep(kept, maximal_at_start(run, len));
        keep(kept, maximal_at_end(run, len));
    }
}

/// All open masks of what is left of some ranges when some keys are removed.
pub(crate) fn all_open_masks_left(
    alloc: Global,
    ranges: &Ranges<'_>,
    removed: &SortedKeys,
) -> Result<Vec<Mask>, AllocError>
    ensures { IfOk result (λ masks. AreAll
        (IsOpenMask (without_keys (is_open_in ranges.now) removed.now)) masks.items) }
{
    open_masks_up_to(alloc, ranges, removed, UID_BITS)
}

/// Those of at most `most` bits.
pub(crate) fn open_masks_up_to(
    alloc: Global,
    ranges: &Ranges<'_>,
    removed: &SortedKeys,
    most: u8,
) -> Result<Vec<Mask>, AllocError>
    requires { most ≤ UID_BITS }
    ensures { IfOk result (λ masks. AreAll (λ m.
        IsOpenMask (without_keys (is_open_in ranges.now) removed.now) m × (m.len ≤ most))
        masks.items) }
{
    let mut masks = Vec::new(alloc);
    let mut left = Runs::new(0, ranges, removed.ahead());
    while let Some(run) = left.next_run() {
        push_in_run(&mut masks, run, most)?;
    }
    masks.sort_unstable();
    // no mask is found twice: this only spares the proof of that
    masks.dedup();
    Ok(masks)
}

/// Appends the open masks of a run of at most `most` bits.
fn push_in_run(masks: &mut Vec<Mask>, run: KeyRange, most: u8) -> Result<(), AllocError>
    requires { most ≤ UID_BITS }
    ensures { OnOk result (Adds (λ m. IsMaximalIn run.0 run.1 m × (m.len ≤ most))
        masks.old.items masks.new.items) }
{
    for len in least_len(run)..most + 1 {
        push_found(masks, maximal_at_start(run, len))?;
        push_found(masks, maximal_at_end(run, len))?;
    }
    Ok(())
}

/// The first mask of `len` bits in a run, if it is the upper half of one that begins before the
/// run.
pub(crate) fn maximal_at_start(run: KeyRange, len: u8) -> Option<Mask>
    requires short { len ≤ UID_BITS }
    ensures found { IfSome result (IsMaximalAt run.0 run.1 len 1) }
    ensures only { (m : BitMask) → IsMaximalAt run.0 run.1 len 1 m → result ≡ Some m }
{
    let size = size_of_block(len);
    let number = run.first().div_ceil(size);
    if number % 2 == 0 || run.last() + 1 < (number + 1) * size {
        return None;
    }
    Some(mask_of_keys(number * size, len))
}

/// The last mask of `len` bits in a run, if it is the mask of no bits, or the lower half of one
/// that ends after the run.
pub(crate) fn maximal_at_end(run: KeyRange, len: u8) -> Option<Mask>
    requires short { len ≤ UID_BITS }
    ensures found { IfSome result (IsMaximalAt run.0 run.1 len 0) }
    ensures only { (m : BitMask) → IsMaximalAt run.0 run.1 len 0 m → result ≡ Some m }
{
    let size = size_of_block(len);
    // how many blocks of this size, from key 0 on, end by the last key
    let count = (run.last() + 1) / size;
    if count % 2 == 0 || (count - 1) * size < run.first() {
        return None;
    }
    Some(mask_of_keys((count - 1) * size, len))
}

/// Keeps a mask in order, if one was found, and drops the last one if there are too many.
fn keep(kept: &mut ArrayVec<Mask, BUFFER>, found: Option<Mask>)
    requires kept { AreKept kept.old.items }
    ensures keeps { Keeps (λ m. found ≡ Some m) kept.old.items kept.new.items }
    ensures kept { AreKept kept.new.items }
{
    let Some(mask) = found else {
        return;
    };
    // no mask comes twice
    if let Err(index) = kept.as_slice().binary_search(&mask) {
        kept.insert(index, mask);
        kept.truncate(KEPT);
    }
}

/// Appends a mask, if one was found.
fn push_found(masks: &mut Vec<Mask>, found: Option<Mask>) -> Result<(), AllocError>
    ensures { OnOk result (Adds (λ m. found ≡ Some m) masks.old.items masks.new.items) }
{
    if let Some(mask) = found {
        masks.push(mask)?;
    }
    Ok(())
}
