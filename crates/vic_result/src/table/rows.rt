//! The row of an item, and that of a UID of no item.

ghost use Rattle.std.specs.Prelude.{◌≡◌, ◌<◌, ◌++◌, ◌∷◌, [], OnOk, IsSomeAnd, length, slice_get, codes};
ghost use Rattle.vic_table.specs.Columns.{separator_byte};
ghost use Rattle.vic_result.specs.ResultCells.{cells_text, names_text};
ghost use Rattle.vic_result.specs.ResultTable.{row_of_uid};
ghost use Rattle.vic_result.specs.StateNames.{state_name};
ghost use Rattle.vic_result.specs.NamesAt.{names_at};

use crate::states::state_name;
use crate::table::head::push_row_of_uid;
use crate::table::uid_cells::push_uid_cells;
use crate::uid_logs::UidLogs;
use std::alloc::{AllocError, Global};
use vic_collection::State;
use vic_frame::Uid;
use vic_survey::Survey;
use vic_table::Catalogue;

/// Appends the line of an item in a state.
pub(crate) fn push_item_row(
    alloc: Global,
    text: &mut Vec<u8>,
    catalogue: &Catalogue,
    surveys: &[Survey],
    index: usize,
    state: State,
    logs: UidLogs<'_>,
) -> Result<(), AllocError>
    requires { index < length catalogue.now.items }
    ensures { OnOk result (IsSomeAnd (slice_get catalogue.now.items index) (λ item.
        text.new.items ≡ text.old.items ++ (item.row
        ++ cells_text (separator_byte catalogue.now.columns.separator)
        (state_name state ∷ names_text (names_at surveys.now logs.entry.certain.now)
        ∷ names_text (names_at surveys.now logs.entry.undecided.now) ∷ [])
        ++ catalogue.now.head_end))) }
{
    let separator = catalogue.columns().separator.byte();
    text.extend_from_slice(catalogue.row(index))?;
    let state = state_name(state);
    push_uid_cells(alloc, text, separator, state, surveys, logs)?;
    text.extend_from_slice(catalogue.head_end())
}

/// Appends the line of a UID of no item.
pub(crate) fn push_unlisted_row(
    alloc: Global,
    text: &mut Vec<u8>,
    catalogue: &Catalogue,
    surveys: &[Survey],
    uid: Uid,
    logs: UidLogs<'_>,
) -> Result<(), AllocError>
    ensures { OnOk result (text.new.items ≡ text.old.items ++ (row_of_uid catalogue.now.columns uid
        ++ cells_text (separator_byte catalogue.now.columns.separator)
        (codes "unexpected" ∷ names_text (names_at surveys.now logs.entry.certain.now)
        ∷ names_text (names_at surveys.now logs.entry.undecided.now) ∷ [])
        ++ catalogue.now.head_end)) }
{
    let columns = catalogue.columns();
    let separator = columns.separator.byte();
    push_row_of_uid(text, columns, uid)?;
    let state = b"unexpected";
    push_uid_cells(alloc, text, separator, state, surveys, logs)?;
    text.extend_from_slice(catalogue.head_end())
}
