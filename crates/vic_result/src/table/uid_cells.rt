//! The three cells about a UID: its state, and the names of the logs in which it is and may be.

ghost use Rattle.std.specs.Prelude.{◌≡◌, ◌++◌, ◌∷◌, [], OnOk, IfOk, codes};
ghost use Rattle.std.specs.List.{flat_map};
ghost use Rattle.vic_result.specs.ResultCells.{cells_text, names_text};
ghost use Rattle.vic_result.specs.NamesAt.{names_at};

use crate::names::name_at;
use crate::table::cells::push_cell;
use crate::uid_logs::UidLogs;
use std::alloc::{AllocError, Global};
use vic_survey::Survey;

/// Appends the cells of a UID: its state, and the names of the logs in which it is and may be.
pub(crate) fn push_uid_cells(
    alloc: Global,
    text: &mut Vec<u8>,
    separator: u8,
    state: &[u8],
    surveys: &[Survey],
    logs: UidLogs<'_>,
) -> Result<(), AllocError>
    ensures { OnOk result (text.new.items ≡ text.old.items ++ cells_text separator
        (state.now ∷ names_text (names_at surveys.now logs.entry.certain.now)
        ∷ names_text (names_at surveys.now logs.entry.undecided.now) ∷ [])) }
{
    push_cell(text, separator, state)?;
    push_names_cell(alloc, text, separator, surveys, logs.certain)?;
    push_names_cell(alloc, text, separator, surveys, logs.undecided)
}

/// Appends a separator, and a cell of the names of the logs at some positions.
fn push_names_cell(
    alloc: Global,
    text: &mut Vec<u8>,
    separator: u8,
    surveys: &[Survey],
    logs: &[usize],
) -> Result<(), AllocError>
    ensures { OnOk result (text.new.items
        ≡ text.old.items
        ++ cells_text separator (names_text (names_at surveys.now logs.now) ∷ [])) }
{
    if let [log] = logs {
        return push_cell(text, separator, name_at(surveys, *log));
    }
    let names = names_of(alloc, surveys, logs)?;
    push_cell(text, separator, names.as_slice())
}

/// The names of the logs at some positions, in one text.
fn names_of(alloc: Global, surveys: &[Survey], logs: &[usize]) -> Result<Vec<u8>, AllocError>
    ensures { IfOk result (λ text. text.items ≡ names_text (names_at surveys.now logs.now)) }
{
    let mut text = Vec::new(alloc);
    if let Some((first, others)) = logs.split_first() {
        text.extend_from_slice(name_at(surveys, *first))?;
        push_next_names(&mut text, surveys, others)?;
    }
    Ok(text)
}

/// Appends the names of the logs at some positions, each behind `; `.
fn push_next_names(text: &mut Vec<u8>, surveys: &[Survey], logs: &[usize]) -> Result<(), AllocError>
    ensures { OnOk result (text.new.items ≡ text.old.items
        ++ flat_map (λ name. codes "; " ++ name) (names_at surveys.now logs.now)) }
{
    for log in logs {
        push_next_name(text, name_at(surveys, *log))?;
    }
    Ok(())
}

/// Appends `; ` and a name.
fn push_next_name(text: &mut Vec<u8>, name: &[u8]) -> Result<(), AllocError>
    ensures { OnOk result (text.new.items ≡ text.old.items ++ (codes "; " ++ name.now)) }
{
    text.extend_from_slice(b"; ")?;
    text.extend_from_slice(name)
}
