//! The first line of a result, and the start of a row that the catalogue hasn't.

ghost use Rattle.std.specs.Prelude.{◌≡◌, ◌++◌, ◌∷◌, [], OnOk, codes};
ghost use Rattle.vic_table.specs.Columns.{separator_byte};
ghost use Rattle.vic_result.specs.ResultCells.{cells_text};
ghost use Rattle.vic_result.specs.ResultTable.{mark_of, new_columns, row_of_uid};

use crate::table::cells::{push_cell, push_times};
use std::alloc::AllocError;
use vic_frame::Uid;
use vic_table::{Catalogue, CatalogueColumns};
use vic_text::push_uid;

/// Appends the mark of UTF-8 where a catalogue has it.
pub(crate) fn push_mark(text: &mut Vec<u8>, catalogue: &Catalogue) -> Result<(), AllocError>
    ensures { OnOk result (text.new.items ≡ text.old.items ++ mark_of catalogue.now.text) }
{
    if catalogue.has_mark() {
        text.extend_from_slice(&[0xEF, 0xBB, 0xBF])?;
    }
    Ok(())
}

/// Appends the first line of a catalogue with three columns more, and its end.
pub(crate) fn push_head_line(text: &mut Vec<u8>, catalogue: &Catalogue) -> Result<(), AllocError>
    ensures { OnOk result (text.new.items ≡ text.old.items ++ (catalogue.now.head
        ++ cells_text (separator_byte catalogue.now.columns.separator) new_columns
        ++ catalogue.now.head_end)) }
{
    let separator = catalogue.columns().separator.byte();
    text.extend_from_slice(catalogue.head())?;
    push_cell(text, separator, b"vicinity state")?;
    push_cell(text, separator, b"vicinity certain in")?;
    push_cell(text, separator, b"vicinity may be in")?;
    text.extend_from_slice(catalogue.head_end())
}

/// Appends a row whose cell `uid` is a question mark and a UID, and whose other cells are empty.
pub(crate) fn push_row_of_uid(
    text: &mut Vec<u8>,
    columns: CatalogueColumns,
    uid: Uid,
) -> Result<(), AllocError>
    ensures { OnOk result (text.new.items ≡ text.old.items ++ row_of_uid columns uid) }
{
    let separator = columns.separator.byte();
    push_times(text, columns.uid, separator)?;
    text.extend_from_slice(b"?")?;
    push_uid(text, uid)?;
    let behind = columns.count.saturating_sub(columns.uid).saturating_sub(1);
    push_times(text, behind, separator)
}
