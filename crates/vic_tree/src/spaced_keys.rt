//! Keys to be removed, in order, with the widest mask that each sixteen of them leave.
//!
//! Where only the first open masks are looked for, a stretch whose widest mask comes behind those
//! that were found is passed over, without a look at its keys.

ghost use Rattle.std.specs.Prelude.{◌≡◌, ℕ, ◌+◌, ◌<◌, ◌≤◌, ◌⊎◌, ◌↔◌, true, IfOk, IsTrue};
ghost use Rattle.std.specs.List.{All, Contains};
ghost use Rattle.vic_frame.specs.LowBitsFirst.{mirror};
ghost use Rattle.vic_frame.specs.Masks.{BitMask};
ghost use Rattle.vic_frame.specs.Uids.{has};
ghost use Rattle.vic_tree.specs.Keys.{AreKeysOf};
ghost use Rattle.vic_tree.specs.OpenMasks.{AreFirst, IsOpenMask, IsPast};
ghost use Rattle.vic_tree.specs.OpenSet.{IsAtMost, without_keys};
ghost use Rattle.vic_tree.specs.Ranges.{is_open_in};
ghost use Rattle.vic_tree.specs.inner.KeptMasks.{AreKept};
ghost use Rattle.vic_tree.specs.inner.Stretches.{IsFreeFrom, IsStretch};

use crate::besides::widest_left;
use crate::key_range::KeyRange;
use crate::open_masks::{BUFFER, KEPT, MAX_OPEN_MASKS, OpenMasks, first_of_kept, keep_in_run};
use crate::ranges::Ranges;
use crate::runs::Runs;
use crate::sorted_keys::SortedKeys;
use arrayvec::ArrayVec;
use std::alloc::{AllocError, Global};
use std::marker::Model;
use vic_frame::{MAX_MASK_LEN, Mask, Uid};

/// How many keys a stretch has.
const STRETCH: usize = 16;

/// Keys that follow one another, up to one of some keys.
#[derive(Drop)]
pub(crate) struct Stretch {
    range: KeyRange,
    /// The widest mask in it that has none of these keys, or one that is longer than any.
    widest: Mask,
}

/// Keys of UIDs, as `SortedKeys`, with stretches up to every sixteenth.
#[derive(Drop)]
pub struct SpacedKeys {
    keys: SortedKeys,
    stretches: Vec<Stretch>,
}

impl Model for SpacedKeys {
    ghost use Rattle.std.specs.Prelude.{ℕ, List};
    ghost use Rattle.std.specs.List.{All};
    ghost use Rattle.vic_tree.specs.inner.Stretches.{IsStretch};

    ghost Value = { List ℕ };

    ghost view = { λ a. a.keys };

    ghost invariant = { λ a. All (IsStretch a.keys) a.stretches.items };
}

impl SpacedKeys {
    /// The keys of UIDs; those of UIDs that come twice come twice.
    pub fn of(alloc: Global, uids: &[Uid]) -> Result<SpacedKeys, AllocError>
        ensures { IfOk result (λ keys. AreKeysOf keys uids.now) }
    {
        let keys = SortedKeys::of(alloc, uids)?;
        let stretches = stretches_of(alloc, &keys)?;
        Ok(SpacedKeys { keys, stretches })
    }

    /// Passes over the stretches, from a key on, that have only masks behind all that are kept.
    /// Returns the number of the first stretch that wasn't passed over, and the key from which on
    /// masks may begin. Those before stretch number `at` were passed over already.
    fn pass(&self, at: usize, from: u64, kept: &ArrayVec<Mask, BUFFER>) -> (usize, u64)
        requires { AreKept kept.now.items }
        ensures from { from ≤ result.1 }
        ensures past { (m : BitMask) → IsFreeFrom self.now from m → mirror m.value < result.1
            → IsPast KEPT kept.now.items m }
        ensures cut { (k : ℕ) → k + 1 ≡ result.1
            → (result.1 ≡ from) ⊎ (has self.now k ≡ true) }
    {
        let mut at = at;
        let mut free = from;
        while at < self.stretches.len() {
            let stretch = &self.stretches[at];
            if free <= stretch.range.last() {
                if free < stretch.range.first() || !is_past(kept, &stretch.widest) {
                    break;
                }
                free = stretch.range.last() + 1;
            }
            at += 1;
        }
        (at, free)
    }
}

/// Stretches of keys, up to every sixteenth.
fn stretches_of(alloc: Global, keys: &SortedKeys) -> Result<Vec<Stretch>, AllocError>
    ensures { IfOk result (λ stretches. All (IsStretch keys.now) stretches.items) }
{
    let all = keys.as_slice();
    let mut stretches = Vec::new(alloc);
    let mut first = 0;
    let mut at = STRETCH - 1;
    while at < all.len() {
        let last = all[at];
        if first <= last {
            stretches.push(stretch_of(KeyRange::new(first, last), keys))?;
            first = last + 1;
        }
        at += STRETCH;
    }
    Ok(stretches)
}

/// A stretch.
fn stretch_of(range: KeyRange, keys: &SortedKeys) -> Stretch
    requires { has keys.now range.1 ≡ true }
    ensures { IsStretch keys.now result }
{
    let ranges = Ranges {
        ranges: range.as_slice(),
    };
    let widest = match widest_left(&ranges, keys) {
        Some(mask) => mask,
        None => Mask::of_bits(MAX_MASK_LEN, 0),
    };
    Stretch { range, widest }
}

/// Whether masks that come no earlier than the widest one of a stretch come behind all that are
/// kept.
fn is_past(kept: &ArrayVec<Mask, BUFFER>, widest: &Mask) -> bool
    requires { AreKept kept.now.items }
    ensures { IsTrue result → (m : BitMask) → IsAtMost widest.now m
        → IsPast KEPT kept.now.items m }
{
    kept.len() == KEPT && kept[KEPT - 1].cmp(widest).is_lt()
}

/// The first open masks of what is left of some ranges when some keys are removed, of which there
/// may be many in the ranges: stretches without one of these masks are passed over.
pub(crate) fn open_masks_between(ranges: &Ranges<'_>, removed: &SpacedKeys) -> OpenMasks
    ensures first { AreFirst MAX_OPEN_MASKS
        (IsOpenMask (without_keys (is_open_in ranges.now) removed.now)) result.masks.items }
    ensures more { result.more ≡ true ↔ (m : BitMask)
        × IsOpenMask (without_keys (is_open_in ranges.now) removed.now) m
        × (¬ (Contains result.masks.items m)) }
{
    let mut kept = ArrayVec::new();
    let (mut at, from) = removed.pass(0, 0, &kept);
    let mut left = Runs::new(from, ranges, removed.keys.ahead());
    while let Some(run) = left.next_run() {
        keep_in_run(&mut kept, run);
        let (next, from) = removed.pass(at, left.from(), &kept);
        at = next;
        left.go_on(from);
    }
    first_of_kept(&kept)
}
