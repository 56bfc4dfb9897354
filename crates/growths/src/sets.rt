//! Sets of open UIDs: `everything`, `settle` and `without`.

use std::alloc::{AllocError, Global};
use vic_frame::low_bits_first::uid_at;
use vic_frame::{Mask, UID_BITS, Uid};
use vic_tree::{KeyRange, OpenSet};

/// Settles one half of the UIDs, and then the other except one UID.
fn settle_halves<S: OpenSet>(alloc: Global) -> Result<bool, AllocError> {
    let (Some(uid), Some(other), Some(even), Some(odd), Some(all)) = (
        Uid::new(0xE004_0100_0000_00A1),
        Uid::new(0xE004_0100_0000_00B2),
        Mask::new(1, 0),
        Mask::new(1, 1),
        Mask::new(0, 0),
    ) else {
        return Ok(false);
    };
    let mut set: S = S::everything(alloc)?;
    let whole = set.widest() == Some(all);
    set.settle(&even, &[])?;
    let half = set.widest() == Some(odd) && set.has(uid) && !set.has(other);
    set.settle(&odd, &[uid])?;
    let one = set.widest() == Mask::new(UID_BITS, 0x04_0100_0000_00A1);
    Ok(whole && half && one)
}

/// Settles a mask except one UID. If memory is refused, no UID is left.
fn settle_mask<S: OpenSet>(alloc: Global) -> Result<bool, AllocError> {
    let (Some(uid), Some(other), Some(mask)) = (
        Uid::new(0xE004_0100_0000_00A1),
        Uid::new(0xE004_0100_0000_00B2),
        Mask::new(8, 0xA1),
    ) else {
        return Ok(false);
    };
    let mut set: S = S::everything(alloc)?;
    match set.settle(&mask, &[uid]) {
        Ok(()) => Ok(set.has(uid) && set.has(other)),
        Err(AllocError) if set.has(other) || set.widest().is_some() => Ok(false),
        Err(AllocError) => Err(AllocError),
    }
}

/// Settles masks in a set of one kind.
pub fn settle_masks<S: OpenSet>(alloc: Global) -> Result<bool, AllocError> {
    let halves = settle_halves::<S>(alloc)?;
    let mask = settle_mask::<S>(alloc)?;
    Ok(halves && mask)
}

/// Makes a set of one kind from the closed ranges of keys: the UIDs with the second and the fourth
/// key of all are left.
pub fn leave_keys<S: OpenSet>(alloc: Global) -> Result<bool, AllocError> {
    let mut closed = Vec::new(alloc);
    closed.push(KeyRange::new(4, (1 << UID_BITS) - 1))?;
    closed.push(KeyRange::new(2, 2))?;
    closed.push(KeyRange::new(0, 0))?;
    let set: S = S::without(alloc, closed)?;
    let second = set.widest() == Mask::new(UID_BITS, 1 << (UID_BITS - 1));
    Ok(second && set.has(uid_at(3)) && !set.has(uid_at(4)))
}
