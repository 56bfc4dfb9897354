//! How a list differs from what a log tells.

ghost use Rattle.std.specs.Prelude.{◌++◌, IfOk};
ghost use Rattle.vic_frame.specs.Uids.{has};
ghost use Rattle.vic_tree.specs.Keys.{AreKeysOf};
ghost use Rattle.vic_verdict.specs.Differences.{AreDifferences};
ghost use Rattle.vic_verdict.specs.Rising.{IsFailing, IsListOf};

use std::alloc::{AllocError, Global};
use vic_frame::Mask;
use vic_tree::outside::uids_outside;
use vic_tree::{OpenSet, RisingUids, SortedKeys};

/// How a list of UIDs differs from what a log says.
#[derive(Drop)]
pub struct Differences {
    /// The listed UIDs that can't be there.
    pub absent: RisingUids,
    /// The UIDs that must be there and aren't listed.
    pub unlisted: RisingUids,
    /// The first mask by length, then by value, of at most 56 bits, all of whose UIDs may be there
    /// or not and aren't listed. Unlike `Verdict::Unsettled` it avoids certain UIDs, listed or not.
    pub unsettled: Option<Mask>,
    /// The listed UIDs that may be there or not.
    pub doubtful: RisingUids,
}

/// How a list differs from what may be there (in the set, or certain) and from what must be
/// (certain).
pub fn compare<S: OpenSet>(
    alloc: Global,
    set: S,
    certain: &RisingUids,
    listed: &RisingUids,
) -> Result<Differences, AllocError>
    ensures { IfOk result (AreDifferences (S.is_open set) certain.now listed.now) }
{
    let unlisted = missing_from(alloc, certain, listed)?;
    let listed_or_certain = keys_of_both(alloc, listed, &unlisted)?;
    let outside = uids_outside(alloc, &set, &listed_or_certain)?;
    // for one log the set has all certain UIDs; the sets that `vic_collection` makes may lack some,
    // which aren't absent
    let absent = missing_from(alloc, &outside, certain)?;
    let unsettled = set.widest_besides(&listed_or_certain)?;
    let uncertain = missing_from(alloc, listed, certain)?;
    let doubtful = missing_from(alloc, &uncertain, &absent)?;
    Ok(Differences {
        absent,
        unlisted,
        unsettled,
        doubtful,
    })
}

/// The keys of the UIDs of two lists.
fn keys_of_both(
    alloc: Global,
    uids: &RisingUids,
    others: &RisingUids,
) -> Result<SortedKeys, AllocError>
    ensures { IfOk result (λ keys. AreKeysOf keys (uids.now ++ others.now)) }
{
    let uids = uids.as_slice();
    let others = others.as_slice();
    if others.is_empty() {
        return SortedKeys::of(alloc, uids);
    }
    let mut both = Vec::from_slice(alloc, uids)?;
    both.extend_from_slice(others)?;
    SortedKeys::of(alloc, &both)
}

/// Those of `uids` that aren't among `others`.
pub(crate) fn missing_from(
    alloc: Global,
    uids: &RisingUids,
    others: &RisingUids,
) -> Result<RisingUids, AllocError>
    ensures { IfOk result (λ v. IsListOf (IsFailing uids.now (has others.now)) v) }
{
    let others = others.as_slice();
    let mut missing = Vec::new(alloc);
    let mut next = 0;
    for uid in uids.as_slice() {
        while next < others.len() && others[next] < *uid {
            next += 1;
        }
        if next == others.len() || others[next] != *uid {
            missing.push(*uid)?;
        }
    }
    Ok(RisingUids::of(missing))
}
