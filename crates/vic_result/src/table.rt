//! The table of a collection.

ghost use Rattle.std.specs.Prelude.{◌≡◌, ◌<◌, ◌++◌, true, OnOk, IfOk, IsSomeAnd, length, map, slice_get};
ghost use Rattle.std.specs.List.{All, flat_map};
ghost use Rattle.vic_collection.specs.Collections.{is_unlisted};
ghost use Rattle.vic_collection.specs.States.{state_of};
ghost use Rattle.vic_result.specs.Answered.{IsAnswerStatus};
ghost use Rattle.vic_result.specs.ResultTable.{IsCollectionTable, item_row, table_text as text_with, unlisted_row};
ghost use Rattle.vic_result.specs.inner.ItemLogs.{AreUndecidedLogs};

mod cells;
mod head;
mod rows;
mod uid_cells;

use crate::answered::{ResultText, status_by};
use crate::states::state_at;
use crate::table::head::{push_head_line, push_mark};
use crate::table::rows::{push_item_row, push_unlisted_row};
use crate::uid_logs::{logs_of_item, logs_of_uid};
use std::alloc::{AllocError, Global};
use vic_collection::{Collection, LogsByUid, State, UnlistedUid};
use vic_frame::Uid;

/// The table of a collection: each row of its catalogue as it stands, with the state of the item
/// and the logs in which it is and may be, and a row for each UID that is certain in some log and
/// of no item.
pub fn table_text(alloc: Global, collection: &Collection) -> Result<ResultText, AllocError>
    ensures text { IfOk result (λ r. IsCollectionTable collection.now r.text.items) }
    ensures status { IfOk result (λ r. IsAnswerStatus collection.now r.status) }
{
    let findings = collection.findings(alloc)?;
    let undecided = collection.undecided_logs(alloc)?;
    let states = findings.states.as_slice();
    let unlisted = findings.unlisted.as_slice();
    let text = table_with(alloc, collection, &undecided, states, unlisted)?;
    let status = status_by(collection, &findings);
    Ok(ResultText { text, status })
}

/// Appends the row of the item at a position.
fn push_row_at(
    alloc: Global,
    text: &mut Vec<u8>,
    collection: &Collection,
    undecided: &LogsByUid,
    states: &[State],
    index: usize,
) -> Result<(), AllocError>
    requires bound { index < length collection.now.catalogue.items }
    requires undecided { AreUndecidedLogs collection.now undecided.now }
    requires states { states.now ≡ map (state_of collection.now) collection.now.catalogue.items }
    ensures { OnOk result (IsSomeAnd (slice_get collection.now.catalogue.items index) (λ item.
        text.new.items ≡ text.old.items
        ++ (item_row collection.now item ++ collection.now.catalogue.head_end))) }
{
    let catalogue = collection.catalogue();
    let surveys = collection.surveys();
    let state = state_at(states, index);
    let logs = logs_of_item(collection, undecided, index);
    push_item_row(alloc, text, catalogue, surveys, index, state, logs)?;
    Ok(())
}

/// Appends the rows of all items.
fn push_item_rows(
    alloc: Global,
    text: &mut Vec<u8>,
    collection: &Collection,
    undecided: &LogsByUid,
    states: &[State],
) -> Result<(), AllocError>
    requires undecided { AreUndecidedLogs collection.now undecided.now }
    requires states { states.now ≡ map (state_of collection.now) collection.now.catalogue.items }
    ensures { OnOk result (text.new.items ≡ text.old.items
        ++ flat_map (λ line. line ++ collection.now.catalogue.head_end)
        (map (item_row collection.now) collection.now.catalogue.items)) }
{
    for index in 0..collection.catalogue().len() {
        push_row_at(alloc, text, collection, undecided, states, index)?;
    }
    Ok(())
}

/// Appends the row of a UID of no item.
fn push_row_of_unlisted(
    alloc: Global,
    text: &mut Vec<u8>,
    collection: &Collection,
    undecided: &LogsByUid,
    uid: Uid,
) -> Result<(), AllocError>
    requires undecided { AreUndecidedLogs collection.now undecided.now }
    requires unlisted { is_unlisted collection.now uid ≡ true }
    ensures { OnOk result (text.new.items ≡ text.old.items
        ++ (unlisted_row collection.now uid ++ collection.now.catalogue.head_end)) }
{
    let catalogue = collection.catalogue();
    let surveys = collection.surveys();
    let logs = logs_of_uid(collection, undecided, uid);
    push_unlisted_row(alloc, text, catalogue, surveys, uid, logs)?;
    Ok(())
}

/// Appends the rows of UIDs of no item.
fn push_unlisted_rows(
    alloc: Global,
    text: &mut Vec<u8>,
    collection: &Collection,
    undecided: &LogsByUid,
    unlisted: &[UnlistedUid],
) -> Result<(), AllocError>
    requires undecided { AreUndecidedLogs collection.now undecided.now }
    requires unlisted { All (λ x. is_unlisted collection.now x.uid ≡ true) unlisted.now }
    ensures { OnOk result (text.new.items ≡ text.old.items
        ++ flat_map (λ line. line ++ collection.now.catalogue.head_end)
        (map (unlisted_row collection.now) (map (λ x. x.uid) unlisted.now))) }
{
    for one in unlisted {
        push_row_of_unlisted(alloc, text, collection, undecided, one.uid)?;
    }
    Ok(())
}

/// The text of the table, where these UIDs are of no item.
fn table_with(
    alloc: Global,
    collection: &Collection,
    undecided: &LogsByUid,
    states: &[State],
    unlisted: &[UnlistedUid],
) -> Result<Vec<u8>, AllocError>
    requires undecided { AreUndecidedLogs collection.now undecided.now }
    requires states { states.now ≡ map (state_of collection.now) collection.now.catalogue.items }
    requires unlisted { All (λ x. is_unlisted collection.now x.uid ≡ true) unlisted.now }
    ensures { IfOk result (λ text.
        text.items ≡ text_with collection.now (map (λ x. x.uid) unlisted.now)) }
{
    let mut text = Vec::new(alloc);
    push_mark(&mut text, collection.catalogue())?;
    push_head_line(&mut text, collection.catalogue())?;
    push_item_rows(alloc, &mut text, collection, undecided, states)?;
    push_unlisted_rows(alloc, &mut text, collection, undecided, unlisted)?;
    Ok(text)
}
