//! The items of an object.

ghost use Rattle.std.specs.Prelude.{◌≡◌, ◌<◌, ◌++◌, OnOk, IsSomeAnd, length, slice_get};
ghost use Rattle.vic_table.specs.Columns.{separator_byte};
ghost use Rattle.vic_result.specs.ResultObject.{item_head_json, item_json, item_place_json, logs_json, row_json};
ghost use Rattle.vic_result.specs.StateNames.{state_name};

use crate::object::values::{push_cells_of, push_optional_string, push_positions};
use crate::states::state_name;
use crate::uid_logs::UidLogs;
use std::alloc::AllocError;
use vic_collection::State;
use vic_table::{Catalogue, LineCells};
use vic_text::{ToJson, push_decimal, push_json_string};

/// Appends an item in a state: its line, its UID and its state.
fn push_item_head(
    text: &mut Vec<u8>,
    catalogue: &Catalogue,
    index: usize,
    state: State,
) -> Result<(), AllocError>
    requires { index < length catalogue.now.items }
    ensures { OnOk result (IsSomeAnd (slice_get catalogue.now.items index) (λ item.
        text.new.items ≡ text.old.items ++ item_head_json item (state_name state))) }
{
    text.extend_from_slice(b"{\"line\":")?;
    push_decimal(text, u64::from(catalogue.line(index)))?;
    text.extend_from_slice(b",\"uid\":")?;
    catalogue.uid(index).push_json(text)?;
    text.extend_from_slice(b",\"state\":")?;
    push_json_string(text, state_name(state))
}

/// Appends the place of an item, and whether it is away.
fn push_item_place(
    text: &mut Vec<u8>,
    catalogue: &Catalogue,
    index: usize,
) -> Result<(), AllocError>
    requires { index < length catalogue.now.items }
    ensures { OnOk result (IsSomeAnd (slice_get catalogue.now.items index) (λ item.
        text.new.items ≡ text.old.items ++ item_place_json item)) }
{
    text.extend_from_slice(b",\"place\":")?;
    push_optional_string(text, catalogue.place(index))?;
    text.extend_from_slice(b",\"away\":")?;
    catalogue.is_away(index).push_json(text)
}

/// Appends in which logs a UID is.
pub(crate) fn push_uid_logs(text: &mut Vec<u8>, logs: UidLogs<'_>) -> Result<(), AllocError>
    ensures { OnOk result (text.new.items ≡ text.old.items
        ++ logs_json logs.entry.certain.now logs.entry.undecided.now) }
{
    text.extend_from_slice(b",\"certain_in\":")?;
    push_positions(text, logs.certain)?;
    text.extend_from_slice(b",\"possible_in\":")?;
    push_positions(text, logs.undecided)
}

/// Appends the cells of an item's row.
fn push_item_cells(
    text: &mut Vec<u8>,
    catalogue: &Catalogue,
    cells: &mut LineCells,
    index: usize,
) -> Result<(), AllocError>
    requires { index < length catalogue.now.items }
    ensures { OnOk result (IsSomeAnd (slice_get catalogue.now.items index) (λ item.
        text.new.items ≡ text.old.items
        ++ row_json (separator_byte catalogue.now.columns.separator) item.row)) }
{
    let separator = catalogue.columns().separator.byte();
    text.extend_from_slice(b",\"cells\":")?;
    push_cells_of(text, cells, separator, catalogue.row(index))?;
    text.extend_from_slice(b"}")
}

/// Appends an item in a state.
pub(crate) fn push_item(
    text: &mut Vec<u8>,
    catalogue: &Catalogue,
    cells: &mut LineCells,
    index: usize,
    state: State,
    logs: UidLogs<'_>,
) -> Result<(), AllocError>
    requires { index < length catalogue.now.items }
    ensures { OnOk result (IsSomeAnd (slice_get catalogue.now.items index) (λ item.
        text.new.items ≡ text.old.items ++ item_json
        (separator_byte catalogue.now.columns.separator) item (state_name state)
        logs.entry.certain.now logs.entry.undecided.now)) }
{
    push_item_head(text, catalogue, index, state)?;
    push_item_place(text, catalogue, index)?;
    push_uid_logs(text, logs)?;
    push_item_cells(text, catalogue, cells, index)?;
    Ok(())
}
