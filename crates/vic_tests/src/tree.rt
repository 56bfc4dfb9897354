//! Large sets of open UIDs: as a tree of `vic_sets`, and as ranges of keys.

use crate::values::{Z, mask, uid};
use std::process::Abort;
use std::test::Fail;
use vic_frame::low_bits_first::uid_at;
use vic_frame::{Mask, UID_BITS, Uid};
use vic_sets::MaskTree;
use vic_tree::{KeyRange, OpenSet, RangeSet};

/// The next of a fixed sequence of numbers that look random.
fn next(state: u64) -> u64 {
    let once = state ^ (state << 13);
    let twice = once ^ (once >> 7);
    twice ^ (twice << 17)
}

/// A mask of 12 to 51 bits that has the UID.
fn mask_around(uid: Uid, number: u64) -> Result<Mask, Fail> {
    let len = 12 + u8::try_from(number % 40).unwrap_or(0);
    mask(len, uid.number() % (1 << len))
}

/// Settles a mask around a UID, which stays as it was.
fn settle_around(
    rt: &impl Abort,
    set: &mut MaskTree,
    inside: Uid,
    number: u64,
) -> Result<(), Fail> {
    let open = set.has(inside);
    set.settle(&mask_around(inside, number)?, &[inside])?;
    assert!(rt; set.has(inside) == open);
    Ok(())
}

/// Settles a hundred thousand masks, and finds the excepted UIDs where they were.
#[test]
fn tree_settles_many_masks(rt: HostRuntime) -> Result<(), Fail> {
    let mut set = MaskTree::everything(rt.alloc())?;
    let mut state = 1;
    for _ in 0..100_000 {
        let first = next(state);
        state = next(first);
        settle_around(&rt, &mut set, uid(Z + first % (1 << UID_BITS))?, state)?;
    }
    Ok(())
}

/// A range of at most `2^40` keys.
fn range_from(number: u64) -> KeyRange {
    let first = number % (1 << UID_BITS);
    KeyRange::new(
        first,
        (first + next(number) % (1 << 40)).min((1 << UID_BITS) - 1),
    )
}

#[test]
fn ranges_without_many_ranges(rt: HostRuntime) -> Result<(), Fail> {
    let mut closed = Vec::new(rt.alloc());
    let mut state = 1;
    for _ in 0..100_000 {
        state = next(state);
        closed.push(range_from(state))?;
    }
    let set = RangeSet::without(rt.alloc(), closed.clone()?)?;
    for range in &closed {
        assert!(&rt; !set.has(uid_at(range.last())));
    }
    assert!(&rt; set.widest().is_some());
    Ok(())
}
