//! The list of logs of an object.

ghost use Rattle.std.specs.Prelude.{◌<◌, OnOk, IsSomeAnd, length, slice_get};
ghost use Rattle.std.specs.List.{AllZip};
ghost use Rattle.vic_collection.specs.Findings.{AreOpenMasksOfSurvey};
ghost use Rattle.vic_result.specs.inner.Logs.{AddsLog, AddsLogs};

use crate::object::item_list::push_comma;
use crate::object::logs::push_log;
use std::alloc::{AllocError, Global};
use vic_collection::Collection;
use vic_tree::OpenMasks;

/// Appends a log, with what it leaves open.
fn push_log_at(
    alloc: Global,
    text: &mut Vec<u8>,
    collection: &Collection,
    masks: &OpenMasks,
    index: usize,
) -> Result<(), AllocError>
    requires bound { index < length collection.now.surveys }
    requires masks { IsSomeAnd (slice_get collection.now.surveys index)
        (λ s. AreOpenMasksOfSurvey collection.now s masks.now) }
    ensures { OnOk result (IsSomeAnd (slice_get collection.now.surveys index)
        (AddsLog collection.now text.old.items text.new.items)) }
{
    push_log(alloc, text, collection, masks, index)?;
    Ok(())
}

/// Appends all logs, with a comma between any two, each with what it leaves open.
pub(crate) fn push_log_list(
    alloc: Global,
    text: &mut Vec<u8>,
    collection: &Collection,
    masks: &[OpenMasks],
) -> Result<(), AllocError>
    requires { AllZip (AreOpenMasksOfSurvey collection.now) collection.now.surveys masks.now }
    ensures { OnOk result
        (AddsLogs collection.now text.old.items text.new.items collection.now.surveys) }
{
    for index in 0..collection.surveys().len() {
        push_comma(text, index)?;
        push_log_at(alloc, text, collection, &masks[index], index)?;
    }
    Ok(())
}
