//! The lists of an object: items, and UIDs of no item.

ghost use Rattle.std.specs.Prelude.{◌≡◌, ◌<◌, ◌++◌, true, OnOk, IsSomeAnd, length, map, slice_get};
ghost use Rattle.vic_collection.specs.Collections.{is_unlisted};
ghost use Rattle.vic_collection.specs.States.{state_of};
ghost use Rattle.vic_text.specs.Json.{comma_joined};
ghost use Rattle.vic_result.specs.ResultObject.{unlisted_uid_json, item_of_json};
ghost use Rattle.vic_result.specs.inner.Commas.{comma_before};
ghost use Rattle.vic_result.specs.inner.ItemLogs.{AreUndecidedLogs};

use crate::object::items::{push_item, push_uid_logs};
use crate::states::state_at;
use crate::uid_logs::{logs_of_item, logs_of_uid};
use std::alloc::AllocError;
use vic_collection::{Collection, LogsByUid, State};
use vic_frame::Uid;
use vic_table::LineCells;
use vic_text::{ToJson, push_decimal};

/// Appends a comma, but before the first value.
pub(crate) fn push_comma(text: &mut Vec<u8>, index: usize) -> Result<(), AllocError>
    ensures { OnOk result (text.new.items ≡ text.old.items ++ comma_before index) }
{
    if index > 0 {
        text.extend_from_slice(b",")?;
    }
    Ok(())
}

/// Appends an item.
fn push_item_at(
    text: &mut Vec<u8>,
    collection: &Collection,
    undecided: &LogsByUid,
    states: &[State],
    cells: &mut LineCells,
    index: usize,
) -> Result<(), AllocError>
    requires bound { index < length collection.now.catalogue.items }
    requires undecided { AreUndecidedLogs collection.now undecided.now }
    requires states { states.now ≡ map (state_of collection.now) collection.now.catalogue.items }
    ensures { OnOk result (IsSomeAnd (slice_get collection.now.catalogue.items index) (λ item.
        text.new.items ≡ text.old.items ++ item_of_json collection.now item)) }
{
    let state = state_at(states, index);
    let logs = logs_of_item(collection, undecided, index);
    push_item(text, collection.catalogue(), cells, index, state, logs)?;
    Ok(())
}

/// Appends all items, with a comma between any two.
pub(crate) fn push_item_list(
    text: &mut Vec<u8>,
    collection: &Collection,
    undecided: &LogsByUid,
    states: &[State],
    cells: &mut LineCells,
) -> Result<(), AllocError>
    requires undecided { AreUndecidedLogs collection.now undecided.now }
    requires states { states.now ≡ map (state_of collection.now) collection.now.catalogue.items }
    ensures { OnOk result (text.new.items ≡ text.old.items
        ++ comma_joined (map (item_of_json collection.now) collection.now.catalogue.items)) }
{
    for index in 0..collection.catalogue().len() {
        push_comma(text, index)?;
        push_item_at(text, collection, undecided, states, cells, index)?;
    }
    Ok(())
}

/// Appends a UID of no item, with a line of the first log in which it is certain.
pub(crate) fn push_unlisted_uid(
    text: &mut Vec<u8>,
    collection: &Collection,
    undecided: &LogsByUid,
    uid: Uid,
    line: u32,
) -> Result<(), AllocError>
    requires undecided { AreUndecidedLogs collection.now undecided.now }
    requires unlisted { is_unlisted collection.now uid ≡ true }
    ensures { OnOk result
        (text.new.items ≡ text.old.items ++ unlisted_uid_json collection.now uid line) }
{
    let logs = logs_of_uid(collection, undecided, uid);
    text.extend_from_slice(b"{\"uid\":")?;
    uid.push_json(text)?;
    push_uid_logs(text, logs)?;
    text.extend_from_slice(b",\"line\":")?;
    push_decimal(text, u64::from(line))?;
    text.extend_from_slice(b"}")?;
    Ok(())
}
