//! Laws about masks: how two masks relate, and how many UIDs a mask holds.

ghost use Rattle.std.specs.Prelude.{ℕ, ◌<◌, ◌≤◌};
ghost use Rattle.vic_frame.specs.Uids.{IsUid};
ghost use Rattle.vic_frame.specs.Masks.{BitMask, IsMask, LiesIn};
ghost use Rattle.vic_frame.specs.MaskLaws.{NestedOrApart, IsParted, HoldsAtMostOne};

use crate::uid::UID_BITS;

/// Of two masks, either the shorter one holds all that the longer one does, or they have no UID in
/// common.
pub fn nested_or_apart()
    ensures { (m n : BitMask) → IsMask m → IsMask n → m.len ≤ n.len → NestedOrApart m n }
{}

/// A mask is divided by the two masks with one more bit: what lies in it lies in one of them, never
/// in both.
pub fn halves_part()
    ensures { (m : BitMask) (u : ℕ) → IsMask m → IsParted m u }
{}

/// A mask of more than 56 bits holds at most one UID: it fixes every bit in which UIDs differ.
pub fn long_masks_hold_at_most_one()
    ensures { (m : BitMask) → UID_BITS < m.len → HoldsAtMostOne m }
{}

/// A mask of at most 56 bits holds at least one UID.
pub fn short_masks_hold_one()
    ensures { (m : BitMask) → IsMask m → m.len ≤ UID_BITS
        → (u : ℕ) × IsUid u × LiesIn m u }
{}
