//! How many open masks there are, and the first of them, without a list of all.

ghost use Rattle.std.specs.Prelude.{◌≡◌, ◌≤◌, ◌+◌, IfOk, IfSome, List, Some, take};
ghost use Rattle.vic_frame.specs.Masks.{BitMask};
ghost use Rattle.vic_tree.specs.Counted.{IsCounted};
ghost use Rattle.vic_tree.specs.OpenMasks.{AreAll, IsOpenMask};
ghost use Rattle.vic_tree.specs.OpenSet.{without_keys};
ghost use Rattle.vic_tree.specs.Ranges.{is_open_in};
ghost use Rattle.vic_tree.specs.inner.KeptMasks.{IsMaximalIn};
ghost use Rattle.vic_tree.specs.inner.Tallies.{IsTallyOf, Tallies};

use crate::blocks::{least_len, size_of_block};
use crate::key_range::KeyRange;
use crate::open_masks::{all_open_masks_left, maximal_at_end, maximal_at_start, open_masks_up_to};
use crate::ranges::Ranges;
use crate::runs::Runs;
use crate::sorted_keys::SortedKeys;
use std::alloc::{AllocError, Global};
use vic_frame::{Mask, UID_BITS};

/// The first few of a set's open masks, and how many it has.
#[derive(Drop)]
pub struct CountedMasks {
    /// The first of them, by length, then by value.
    pub masks: Vec<Mask>,
    /// How many there are.
    pub count: u64,
    /// How many UIDs all of them have.
    pub uids: u64,
}

/// How many masks, and how many UIDs these have.
#[derive(Clone, Copy)]
pub(crate) struct Tally {
    count: u64,
    uids: u64,
}

/// A count of runs for each length of a mask.
type RunsByLen = [usize; UID_BITS as usize + 1];

/// The first open masks of what is left of some ranges when some keys are removed, `most` at most,
/// and how many there are.
pub(crate) fn counted_left(
    alloc: Global,
    ranges: &Ranges<'_>,
    removed: &SortedKeys,
    most: usize,
) -> Result<CountedMasks, AllocError>
    ensures { IfOk result (IsCounted most
        (IsOpenMask (without_keys (is_open_in ranges.now) removed.now))) }
{
    // open masks are apart, so 64 bits count their UIDs: this only spares the proof of it
    let Some(tally) = tally_left(ranges, removed) else {
        return Err(AllocError);
    };
    Ok(CountedMasks {
        masks: first_left(alloc, ranges, removed, most)?,
        count: tally.count,
        uids: tally.uids,
    })
}

/// How many open masks there are, and how many UIDs they have, if 64 bits count these.
fn tally_left(ranges: &Ranges<'_>, removed: &SortedKeys) -> Option<Tally>
    ensures { IfSome result (λ tally. (all : List BitMask)
        × AreAll (IsOpenMask (without_keys (is_open_in ranges.now) removed.now)) all
        × IsTallyOf all tally) }
{
    let mut tally = Tally { count: 0, uids: 0 };
    let mut left = Runs::new(0, ranges, removed.ahead());
    while let Some(run) = left.next_run() {
        tally = tally_in_run(tally, run)?;
    }
    Some(tally)
}

/// A tally, and the open masks of a run.
fn tally_in_run(before: Tally, run: KeyRange) -> Option<Tally>
    ensures { IfSome result (Tallies (IsMaximalIn run.0 run.1) before) }
{
    let mut tally = before;
    for len in least_len(run)..UID_BITS + 1 {
        tally = tally_with(tally, maximal_at_start(run, len))?;
        tally = tally_with(tally, maximal_at_end(run, len))?;
    }
    Some(tally)
}

/// A tally, and a mask, if one was found.
fn tally_with(before: Tally, found: Option<Mask>) -> Option<Tally>
    ensures { IfSome result (Tallies (λ m. found ≡ Some m) before) }
{
    match found {
        Some(mask) => tally_more(before, size_of_block(mask.len())),
        None => Some(before),
    }
}

/// A tally, and a mask with so many UIDs.
fn tally_more(before: Tally, size: u64) -> Option<Tally>
    ensures count { IfSome result (λ tally. tally.count ≡ before.count + 1) }
    ensures uids { IfSome result (λ tally. tally.uids ≡ before.uids + size) }
{
    Some(Tally {
        count: before.count.checked_add(1)?,
        uids: before.uids.checked_add(size)?,
    })
}

/// The first open masks, `most` at most.
fn first_left(
    alloc: Global,
    ranges: &Ranges<'_>,
    removed: &SortedKeys,
    most: usize,
) -> Result<Vec<Mask>, AllocError>
    ensures { IfOk result (λ masks. (all : List BitMask)
        → AreAll (IsOpenMask (without_keys (is_open_in ranges.now) removed.now)) all
        → masks.items ≡ take most all) }
{
    let len = len_of_first(&runs_by_len(ranges, removed), most);
    let masks = open_masks_up_to(alloc, ranges, removed, len)?;
    if most <= masks.len() {
        return Ok(first_of(masks, most));
    }
    // there aren't so many: this takes no time, and spares the proof of it
    Ok(first_of(all_open_masks_left(alloc, ranges, removed)?, most))
}

/// The first `most` masks of a list.
fn first_of(masks: Vec<Mask>, most: usize) -> Vec<Mask>
    ensures { result.items ≡ take most masks.items }
{
    let mut masks = masks;
    masks.truncate(most);
    masks
}

/// A length such that at least `most` open masks are no longer, if there are so many runs. Each run
/// has an open mask of the least length for which it is long enough, or of one bit more: so the
/// length is one more than that up to which there are `most` runs.
fn len_of_first(runs: &RunsByLen, most: usize) -> u8
    ensures { result ≤ UID_BITS }
{
    let mut count: usize = 0;
    for len in 0..UID_BITS {
        count = count.saturating_add(runs[usize::from(len)]);
        if most <= count {
            return len + 1;
        }
    }
    UID_BITS
}

/// For each length, how many of the runs that are left are long enough for a mask of it, and for no
/// shorter one.
fn runs_by_len(ranges: &Ranges<'_>, removed: &SortedKeys) -> RunsByLen {
    let mut runs = [0; UID_BITS as usize + 1];
    let mut left = Runs::new(0, ranges, removed.ahead());
    while let Some(run) = left.next_run() {
        let len = usize::from(least_len(run));
        let count: usize = runs[len];
        runs[len] = count.saturating_add(1);
    }
    runs
}
