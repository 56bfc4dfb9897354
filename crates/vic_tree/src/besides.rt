//! Ranges of keys without some keys: as ranges, and their widest mask.

ghost use Rattle.std.specs.Prelude.{◌≡◌, ℕ, false, List, ◌++◌, OnOk, IfSome, IfNone};
ghost use Rattle.vic_tree.specs.OpenSet.{IsWidest, SameUids, without_keys};
ghost use Rattle.vic_tree.specs.Ranges.{AreRanges, in_ranges, is_open_in};
ghost use Rattle.vic_tree.specs.inner.Ranges.{is_left};

use crate::blocks::widest_with;
use crate::key_range::KeyRange;
use crate::ranges::Ranges;
use crate::runs::Runs;
use crate::sorted_keys::SortedKeys;
use std::alloc::AllocError;
use vic_frame::Mask;

/// Appends what is left of some ranges when some keys are removed, as ranges.
pub(crate) fn push_left(
    out: &mut Vec<KeyRange>,
    ranges: &Ranges<'_>,
    removed: &SortedKeys,
) -> Result<(), AllocError>
    ensures { OnOk result ((left : List (ℕ × ℕ)) × (out.new.items ≡ out.old.items ++ left)
        × AreRanges left × ((k : ℕ) → in_ranges left k ≡ is_left ranges.now removed.now k)) }
{
    let mut left = Runs::new(0, ranges, removed.ahead());
    while let Some(run) = left.next_run() {
        out.push(run)?;
    }
    Ok(())
}

/// The widest mask in what is left of some ranges when some keys are removed.
pub(crate) fn widest_left(ranges: &Ranges<'_>, removed: &SortedKeys) -> Option<Mask>
    ensures found { IfSome result
        (IsWidest (without_keys (is_open_in ranges.now) removed.now)) }
    ensures none { IfNone result
        (SameUids (without_keys (is_open_in ranges.now) removed.now) (λ _. false)) }
{
    let mut widest: Option<Mask> = None;
    let mut left = Runs::new(0, ranges, removed.ahead());
    while let Some(run) = left.next_run() {
        widest = Some(widest_with(widest, run));
    }
    widest
}
