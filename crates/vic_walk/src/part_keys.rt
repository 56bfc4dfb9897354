//! The keys of some of the parts, as ranges.

ghost use Rattle.std.specs.Prelude.{◌≡◌, ◌==◌, ℕ, ◌+◌, ◌^◌, ◌<◌, ◌≤◌, ◌&&◌, ◌||◌, not, List, IfOk, OnOk, length, nat_le, nat_lt, slice_index};
ghost use Rattle.vic_frame.specs.declared.uid.TheConstants.{UID_BITS};
ghost use Rattle.vic_log.specs.declared.entry.Entry.{Entry as EntryValue};
ghost use Rattle.vic_log.specs.Slots.{is_open, slots_before};
ghost use Rattle.vic_tree.specs.OpenSet.{SameUids};
ghost use Rattle.vic_tree.specs.Ranges.{AreRanges, in_ranges, is_outside};
ghost use Rattle.vic_walk.specs.Borders.{AreBorders, IsPartOf, part_count};
ghost use Rattle.vic_walk.specs.Walk.{AreEndsAt};
ghost use Rattle.vic_walk.specs.inner.RangesTo.{AreRangesTo};

use crate::parts::Parts;
use std::alloc::{AllocError, Global};
use vic_frame::UID_BITS;
use vic_tree::KeyRange;

/// By the ends of parts the keys of those that are ruled out, as `other_keys` has them: the UIDs
/// outside of them are those that the entries so far leave open.
pub fn closed_keys(alloc: Global, parts: &Parts, ends: &[u32]) -> Result<Vec<KeyRange>, AllocError>
    requires { length ends.now ≡ part_count parts.now }
    ensures ranges { IfOk result (λ closed. AreRanges closed.items) }
    ensures outside { IfOk result (λ closed. (es : List EntryValue) (i : ℕ)
        → AreEndsAt parts.now es i ends.now
        → SameUids (is_outside closed.items) (is_open (slots_before es i))) }
{
    other_keys(alloc, parts, ends, 0)
}

/// The keys of the parts that have another value than a given one, as ranges in rising order with a
/// key between any two.
pub fn other_keys(
    alloc: Global,
    parts: &Parts,
    values: &[u32],
    value: u32,
) -> Result<Vec<KeyRange>, AllocError>
    requires { length values.now ≡ part_count parts.now }
    ensures ranges { IfOk result (λ others. AreRanges others.items) }
    ensures keys { IfOk result (λ others. (k p : ℕ) → IsPartOf parts.now k p
        → k < 2 ^ UID_BITS
        → in_ranges others.items k ≡ not (slice_index values.now p == value)) }
    ensures borders { AreBorders parts.now }
{
    let mut others = Vec::new(alloc);
    // the keys from this one up to the part looked at have another value, and aren't in `others`
    // yet
    let mut from = 0;
    for part in 0..parts.count() {
        if values[part] == value {
            push_keys(&mut others, from, parts.first_key(part))?;
            from = parts.end_key(part);
        }
    }
    push_keys(&mut others, from, 1 << UID_BITS)?;
    Ok(others)
}

/// Adds the keys from one on and below another, if there are any, as one range. The key `end` stays
/// outside: so the next range begins behind it.
fn push_keys(ranges: &mut Vec<KeyRange>, from: u64, end: u64) -> Result<(), AllocError>
    requires { end ≤ 2 ^ UID_BITS }
    ensures ranges { OnOk result (from ≤ end → AreRangesTo from ranges.old.items
        → AreRangesTo (end + 1) ranges.new.items) }
    ensures keys { OnOk result ((k : ℕ) → in_ranges ranges.new.items k
        ≡ (in_ranges ranges.old.items k || (nat_le from k && nat_lt k end))) }
{
    if from < end {
        ranges.push(KeyRange::new(from, end - 1))?;
    }
    Ok(())
}
