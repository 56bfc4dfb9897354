//! Values of an object: positions of logs, cells, and strings that may be missing.

ghost use Rattle.std.specs.Prelude.{◌≡◌, ◌++◌, [], OnOk, codes, decimal, drop, map, unwrap_or};
ghost use Rattle.std.specs.List.{flat_map};
ghost use Rattle.std.specs.Option.{option_map};
ghost use Rattle.vic_table.specs.Cells.{cells_of};
ghost use Rattle.vic_text.specs.Json.{json_list, json_option, json_string};

use std::alloc::AllocError;
use vic_table::LineCells;
use vic_text::{push_decimal, push_json_string};

/// Appends a list of positions.
pub(crate) fn push_positions(text: &mut Vec<u8>, logs: &[usize]) -> Result<(), AllocError>
    ensures { OnOk result
        (text.new.items ≡ text.old.items ++ json_list (map decimal logs.now)) }
{
    text.extend_from_slice(b"[")?;
    if let Some((first, others)) = logs.split_first() {
        push_decimal(text, *first as u64)?;
        push_next_positions(text, others)?;
    }
    text.extend_from_slice(b"]")
}

/// Appends positions, each behind a comma.
fn push_next_positions(text: &mut Vec<u8>, logs: &[usize]) -> Result<(), AllocError>
    ensures { OnOk result (text.new.items ≡ text.old.items
        ++ flat_map (λ v. codes "," ++ v) (map decimal logs.now)) }
{
    for log in logs {
        push_next_position(text, *log)?;
    }
    Ok(())
}

/// Appends a comma and a position.
fn push_next_position(text: &mut Vec<u8>, log: usize) -> Result<(), AllocError>
    ensures { OnOk result (text.new.items ≡ text.old.items ++ (codes "," ++ decimal log)) }
{
    text.extend_from_slice(b",")?;
    push_decimal(text, log as u64)
}

/// Appends a string, `null` if there is none.
pub(crate) fn push_optional_string(
    text: &mut Vec<u8>,
    value: Option<&[u8]>,
) -> Result<(), AllocError>
    ensures { OnOk result (text.new.items ≡ text.old.items
        ++ json_option json_string (option_map (λ v. v.now) value.entry)) }
{
    match value {
        Some(value) => push_json_string(text, value),
        None => text.extend_from_slice(b"null"),
    }
}

/// Appends a list of the cells of a line, none if its quotes are wrong.
pub(crate) fn push_cells_of(
    text: &mut Vec<u8>,
    cells: &mut LineCells,
    separator: u8,
    line: &[u8],
) -> Result<(), AllocError>
    ensures { OnOk result (text.new.items ≡ text.old.items
        ++ json_list (map json_string (unwrap_or (cells_of separator line.now) []))) }
{
    if cells.split(separator, line)? {
        push_cells(text, cells)
    } else {
        text.extend_from_slice(b"[]")
    }
}

/// Appends a list of cells.
fn push_cells(text: &mut Vec<u8>, cells: &LineCells) -> Result<(), AllocError>
    ensures { OnOk result
        (text.new.items ≡ text.old.items ++ json_list (map json_string cells.now)) }
{
    text.extend_from_slice(b"[")?;
    if cells.len() > 0 {
        push_json_string(text, cells.get(0))?;
        push_next_cells(text, cells)?;
    }
    text.extend_from_slice(b"]")
}

/// Appends all cells but the first, each behind a comma.
fn push_next_cells(text: &mut Vec<u8>, cells: &LineCells) -> Result<(), AllocError>
    ensures { OnOk result (text.new.items ≡ text.old.items
        ++ flat_map (λ v. codes "," ++ v) (map json_string (drop 1 cells.now))) }
{
    for index in 1..cells.len() {
        push_next_string(text, cells.get(index))?;
    }
    Ok(())
}

/// Appends a comma and a string.
fn push_next_string(text: &mut Vec<u8>, cell: &[u8]) -> Result<(), AllocError>
    ensures { OnOk result (text.new.items ≡ text.old.items ++ (codes "," ++ json_string cell.now)) }
{
    text.extend_from_slice(b",")?;
    push_json_string(text, cell)
}

/// Appends a list of strings.
pub(crate) fn push_strings(text: &mut Vec<u8>, values: &[&[u8]]) -> Result<(), AllocError>
    ensures { OnOk result (text.new.items ≡ text.old.items
        ++ json_list (map json_string (map (λ v. v.now) values.now))) }
{
    text.extend_from_slice(b"[")?;
    if let Some((first, others)) = values.split_first() {
        push_json_string(text, first)?;
        push_next_strings(text, others)?;
    }
    text.extend_from_slice(b"]")
}

/// Appends strings, each behind a comma.
fn push_next_strings(text: &mut Vec<u8>, values: &[&[u8]]) -> Result<(), AllocError>
    ensures { OnOk result (text.new.items ≡ text.old.items
        ++ flat_map (λ v. codes "," ++ v) (map json_string (map (λ v. v.now) values.now))) }
{
    for value in values {
        push_next_string(text, value)?;
    }
    Ok(())
}
