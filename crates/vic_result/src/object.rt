//! The object of a collection, in JSON.

ghost use Rattle.std.specs.Prelude.{◌≡◌, ◌++◌, true, OnOk, IfOk, map};
ghost use Rattle.std.specs.List.{All};
ghost use Rattle.vic_text.specs.Json.{comma_joined};
ghost use Rattle.vic_collection.specs.Collections.{is_unlisted};
ghost use Rattle.vic_result.specs.Answered.{IsAnswerStatus};
ghost use Rattle.vic_result.specs.ResultObject.{IsCollectionObject, unlisted_json, unlisted_list_json, margin_found, margin_member};
ghost use Rattle.vic_result.specs.inner.ItemLogs.{AreUndecidedLogs};

mod counts;
mod item_list;
mod items;
mod log_list;
mod logs;
mod margins;
mod members;
mod values;

use crate::answered::{ResultText, answer_status, push_answer_line};
use crate::object::item_list::{push_comma, push_unlisted_uid};
pub use crate::object::margins::LogMargin;
use crate::object::margins::least_margin;
use crate::object::members::{
    push_answer, push_catalogue, push_items_member, push_lacking, push_logs_member, push_margin,
};
use std::alloc::{AllocError, Global};
use vic_collection::{Collection, CollectionAnswer, LogsByUid, UnlistedUid};
use vic_table::LineCells;

/// Appends the least margin of the logs, if a collection is complete and has logs.
fn push_margin_member(
    text: &mut Vec<u8>,
    collection: &Collection,
    answer: &CollectionAnswer<'_>,
) -> Result<(), AllocError>
    ensures { OnOk result (text.new.items
        ≡ text.old.items ++ margin_member collection.now answer.now) }
{
    match answer {
        CollectionAnswer::Complete { .. } => push_found_margin(
            text,
            least_margin(collection.surveys()),
        ),
        _ => Ok(()),
    }
}

/// Appends a margin, if there is one.
fn push_found_margin(text: &mut Vec<u8>, found: Option<LogMargin>) -> Result<(), AllocError>
    ensures { OnOk result (text.new.items ≡ text.old.items ++ margin_found found) }
{
    match found {
        Some(least) => push_margin(text, least.margin, &least.weakest, least.log),
        None => Ok(()),
    }
}

/// Appends UIDs of no item, with a comma between any two.
fn push_unlisted_list(
    text: &mut Vec<u8>,
    collection: &Collection,
    undecided: &LogsByUid,
    unlisted: &[UnlistedUid],
) -> Result<(), AllocError>
    requires undecided { AreUndecidedLogs collection.now undecided.now }
    requires unlisted { All (λ x. is_unlisted collection.now x.uid ≡ true) unlisted.now }
    ensures { OnOk result (text.new.items ≡ text.old.items
        ++ comma_joined (map (unlisted_json collection.now) unlisted.now)) }
{
    for (index, one) in unlisted.iter().enumerate() {
        push_comma(text, index)?;
        push_unlisted_uid(text, collection, undecided, one.uid, one.line)?;
    }
    Ok(())
}

/// Appends all UIDs of no item.
fn push_unlisted_member(
    text: &mut Vec<u8>,
    collection: &Collection,
    undecided: &LogsByUid,
    unlisted: &[UnlistedUid],
) -> Result<(), AllocError>
    requires undecided { AreUndecidedLogs collection.now undecided.now }
    requires unlisted { All (λ x. is_unlisted collection.now x.uid ≡ true) unlisted.now }
    ensures { OnOk result
        (text.new.items ≡ text.old.items ++ unlisted_list_json collection.now unlisted.now) }
{
    text.extend_from_slice(b",\"unexpected\":[")?;
    push_unlisted_list(text, collection, undecided, unlisted)?;
    text.extend_from_slice(b"]")
}

/// The object of a collection.
pub fn object_text(alloc: Global, collection: &Collection) -> Result<ResultText, AllocError>
    ensures text { IfOk result (λ r. IsCollectionObject collection.now r.text.items) }
    ensures status { IfOk result (λ r. IsAnswerStatus collection.now r.status) }
{
    let findings = collection.findings(alloc)?;
    let answer = findings.answer();
    let undecided = collection.undecided_logs(alloc)?;
    let states = findings.states.as_slice();
    let masks = collection.open_masks(alloc)?;
    let status = answer_status(collection, &answer);
    let mut line = Vec::new(alloc);
    push_answer_line(&mut line, collection, &answer)?;
    let mut cells = LineCells::new(alloc);
    let mut text = Vec::new(alloc);
    push_answer(&mut text, status, line.as_slice())?;
    push_margin_member(&mut text, collection, &answer)?;
    let unlisted = findings.unlisted.as_slice();
    push_catalogue(&mut text, collection, states, &mut cells, unlisted.len())?;
    push_items_member(&mut text, collection, &undecided, states, &mut cells)?;
    push_unlisted_member(&mut text, collection, &undecided, unlisted)?;
    push_lacking(&mut text, &findings.unsettled, &findings.without_log)?;
    push_logs_member(alloc, &mut text, collection, &masks)?;
    Ok(ResultText { text, status })
}
