//! A table, and how it is read from its text.

ghost use Rattle.std.specs.Prelude.{◌≡◌, ◌≤◌, Some, None, length, slice_range, MatchResult};
ghost use Rattle.std.specs.Option.{option_or};
ghost use Rattle.vic_table.specs.Columns.{columns_of, first_line_fault};
ghost use Rattle.vic_table.specs.Lines.{bytes_fault};
ghost use Rattle.vic_table.specs.Table.{IsTableOfText, Refuses};
ghost use Rattle.vic_table.specs.inner.Faults.{RefusesAt};

use crate::catalogue::Catalogue;
use crate::cells::LineCells;
use crate::columns::{Columns, first_columns};
use crate::fault::{TableFault, TableLineFault};
use crate::items::read_items;
use crate::lines::{LineAt, bytes_fault, first_start, line_at};
use crate::place_rows::read_place_rows;
use crate::places::Places;
use std::alloc::Global;

/// A table, by its columns.
#[derive(Drop)]
pub enum Table {
    Catalogue(Catalogue),
    Places(Places),
}

/// The table of a complete text: the items of a catalogue, or the rows of a table of places; or the
/// text's first fault.
pub fn read_table(text: Vec<u8>) -> Result<Table, TableFault>
    ensures { MatchResult result (IsTableOfText text.items) (Refuses text.items) }
{
    let alloc = *text.allocator();
    let Some(head) = line_at(text.as_slice(), first_start(text.as_slice())) else {
        return Err(TableFault::Line {
            line: 1,
            fault: TableLineFault::Columns,
        });
    };
    match head_columns(alloc, text.as_slice(), head)? {
        Columns::Catalogue(columns) => {
            match read_items(alloc, &columns, text.as_slice(), head.next) {
                Ok(items) => Ok(Table::Catalogue(Catalogue::new(text, head, columns, items))),
                Err(fault) => Err(fault),
            }
        }
        Columns::Places(columns) => {
            match read_place_rows(alloc, &columns, text.as_slice(), head.next) {
                Ok(rows) => Ok(Table::Places(Places::new(rows))),
                Err(fault) => Err(fault),
            }
        }
    }
}

/// The columns that the first line of a text names.
fn head_columns(alloc: Global, text: &[u8], at: LineAt) -> Result<Columns, TableFault>
    requires order { at.start ≤ at.end }
    requires bound { at.end ≤ length text.now }
    ensures { let line = slice_range text.now at.start at.end in MatchResult result
        (λ c. (columns_of line ≡ Some c)
        × (option_or (bytes_fault 0 line) (first_line_fault line) ≡ None))
        (RefusesAt 1 (option_or (bytes_fault 0 line) (first_line_fault line))) }
{
    let line = &text[at.start..at.end];
    if let Some(fault) = bytes_fault(0, line) {
        return Err(TableFault::Line { line: 1, fault });
    }
    first_columns(&mut LineCells::new(alloc), line)
}
