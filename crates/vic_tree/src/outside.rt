//! Which of some UIDs aren't in a set.

ghost use Rattle.std.specs.Prelude.{IfOk};
ghost use Rattle.vic_tree.specs.OpenSet.{AreOutside};

use crate::open_set::OpenSet;
use crate::rising::RisingUids;
use crate::sorted_keys::SortedKeys;
use std::alloc::{AllocError, Global};
use vic_frame::low_bits_first::uid_at;

/// The UIDs with some keys that aren't in a set.
pub fn uids_outside<S: OpenSet>(
    alloc: Global,
    set: &S,
    keys: &SortedKeys,
) -> Result<RisingUids, AllocError>
    ensures { IfOk result (λ uids. AreOutside (S.is_open set.now) keys.now uids) }
{
    let is_open = set.has_each(alloc, keys)?;
    let keys = keys.as_slice();
    let mut outside = Vec::new(alloc);
    for i in 0..keys.len() {
        if !is_open[i] {
            outside.push(uid_at(keys[i]))?;
        }
    }
    Ok(RisingUids::of(outside))
}
