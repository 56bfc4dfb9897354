//! A field of the tags that lines list.

ghost use Rattle.std.specs.Prelude.{◌++◌, ◌∷◌, [], IfOk, OnOk, List, ℕ};
ghost use Rattle.vic_field.specs.Keys.{AreKeysOfEach};
ghost use Rattle.vic_field.specs.Tags.{HasAdded};
ghost use Rattle.vic_frame.specs.Uids.{has};
ghost use Rattle.vic_log.specs.Order.{entries, listed};

use crate::field::Field;
use std::alloc::{AllocError, Global};
use vic_frame::low_bits_first;
use vic_log::{Entry, PackedLine};

/// A field of the listed tags, all Ready.
pub(crate) fn populate(alloc: Global, lines: &[PackedLine]) -> Result<Field, AllocError>
    ensures { IfOk result (HasAdded (has (listed (entries lines.now))) []) }
{
    let mut keys = listed_keys(alloc, lines)?;
    keys.sort_unstable();
    keys.dedup();
    Field::of_keys(alloc, keys)
}

/// The keys of the listed UIDs.
fn listed_keys(alloc: Global, lines: &[PackedLine]) -> Result<Vec<u64>, AllocError>
    ensures { IfOk result (λ keys. AreKeysOfEach (listed (entries lines.now)) keys.items) }
{
    let mut keys = Vec::new(alloc);
    for line in lines {
        push_listed(&mut keys, &line.item())?;
    }
    Ok(keys)
}

/// Adds the key of the UID that an entry lists, if it lists one.
fn push_listed(keys: &mut Vec<u64>, item: &Entry) -> Result<(), AllocError>
    ensures { OnOk result ((us : List ℕ) → AreKeysOfEach us keys.old.items
        → AreKeysOfEach (us ++ listed (item.now ∷ [])) keys.new.items) }
{
    match *item {
        Entry::Listed(uid) => keys.push(low_bits_first::key(uid).number())?,
        Entry::Sent(_)
        | Entry::Silent
        | Entry::Collision
        | Entry::Heard(_)
        | Entry::Garbled
        | Entry::FieldCycle
        | Entry::Captured(_)
        | Entry::Unknown => {}
    }
    Ok(())
}
