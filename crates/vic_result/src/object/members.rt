//! The members of the object of a collection.

ghost use Rattle.std.specs.Prelude.{◌≡◌, ◌++◌, List, ℕ, OnOk, map};
ghost use Rattle.std.specs.List.{AllZip};
ghost use Rattle.vic_collection.specs.Findings.{AreOpenMasksOfSurvey};
ghost use Rattle.vic_collection.specs.States.{state_of};
ghost use Rattle.vic_result.specs.ResultObject.{IsLogText, answer_json, catalogue_json, items_json, lacking_json, logs_list_json, margin_json};
ghost use Rattle.vic_result.specs.inner.ItemLogs.{AreUndecidedLogs};

use crate::object::counts::push_counts;
use crate::object::item_list::push_item_list;
use crate::object::log_list::push_log_list;
use crate::object::values::{push_cells_of, push_strings};
use std::alloc::{AllocError, Global};
use vic_collection::{Collection, LogsByUid, State};
use vic_frame::Mask;
use vic_table::LineCells;
use vic_text::{ToJson, push_decimal, push_json_string};
use vic_tree::OpenMasks;

/// Appends the status and the line of an answer.
pub(crate) fn push_answer(text: &mut Vec<u8>, status: u8, line: &[u8]) -> Result<(), AllocError>
    ensures { OnOk result (text.new.items ≡ text.old.items ++ answer_json status line.now) }
{
    text.extend_from_slice(b"{\"schema\":2,\"status\":")?;
    push_decimal(text, u64::from(status))?;
    text.extend_from_slice(b",\"answer\":")?;
    push_json_string(text, line)
}

/// Appends a margin, its weakest mask, and the log that has it.
pub(crate) fn push_margin(
    text: &mut Vec<u8>,
    margin: u32,
    weakest: &Mask,
    log: usize,
) -> Result<(), AllocError>
    ensures { OnOk result
        (text.new.items ≡ text.old.items ++ margin_json margin weakest.now log) }
{
    text.extend_from_slice(b",\"margin\":{\"margin\":")?;
    margin.push_json(text)?;
    text.extend_from_slice(b",\"weakest\":")?;
    weakest.push_json(text)?;
    text.extend_from_slice(b",\"log\":")?;
    push_decimal(text, log as u64)?;
    text.extend_from_slice(b"}")
}

/// Appends how many items are in each state, the columns, and whether the catalogue ends by LF.
pub(crate) fn push_catalogue(
    text: &mut Vec<u8>,
    collection: &Collection,
    states: &[State],
    cells: &mut LineCells,
    unlisted: usize,
) -> Result<(), AllocError>
    requires { states.now ≡ map (state_of collection.now) collection.now.catalogue.items }
    ensures { OnOk result
        (text.new.items ≡ text.old.items ++ catalogue_json collection.now unlisted) }
{
    let catalogue = collection.catalogue();
    let separator = catalogue.columns().separator.byte();
    text.extend_from_slice(b",\"counts\":")?;
    push_counts(text, states, unlisted)?;
    text.extend_from_slice(b",\"columns\":")?;
    push_cells_of(text, cells, separator, catalogue.head())?;
    text.extend_from_slice(b",\"ended\":")?;
    catalogue.ends_by_lf().push_json(text)
}

/// Appends all items.
pub(crate) fn push_items_member(
    text: &mut Vec<u8>,
    collection: &Collection,
    undecided: &LogsByUid,
    states: &[State],
    cells: &mut LineCells,
) -> Result<(), AllocError>
    requires undecided { AreUndecidedLogs collection.now undecided.now }
    requires states { states.now ≡ map (state_of collection.now) collection.now.catalogue.items }
    ensures { OnOk result (text.new.items ≡ text.old.items ++ items_json collection.now) }
{
    text.extend_from_slice(b",\"items\":[")?;
    push_item_list(text, collection, undecided, states, cells)?;
    text.extend_from_slice(b"]")
}

/// Appends the mask that is unsettled, and the places without a log.
pub(crate) fn push_lacking(
    text: &mut Vec<u8>,
    unsettled: &Option<Mask>,
    places: &[&[u8]],
) -> Result<(), AllocError>
    ensures { OnOk result (text.new.items ≡ text.old.items
        ++ lacking_json unsettled.now (map (λ place. place.now) places.now)) }
{
    text.extend_from_slice(b",\"unsettled\":")?;
    unsettled.push_json(text)?;
    text.extend_from_slice(b",\"without_log\":")?;
    push_strings(text, places)
}

/// Appends all logs, each with what it leaves open.
pub(crate) fn push_logs_member(
    alloc: Global,
    text: &mut Vec<u8>,
    collection: &Collection,
    masks: &[OpenMasks],
) -> Result<(), AllocError>
    requires { AllZip (AreOpenMasksOfSurvey collection.now) collection.now.surveys masks.now }
    ensures { OnOk result ((texts : List (List ℕ))
        × AllZip (IsLogText collection.now) collection.now.surveys texts
        × (text.new.items ≡ text.old.items ++ logs_list_json texts)) }
{
    text.extend_from_slice(b",\"logs\":[")?;
    push_log_list(alloc, text, collection, masks)?;
    text.extend_from_slice(b"]}")?;
    Ok(())
}
