//! What is wrong with a table.

ghost use Rattle.std.specs.Prelude.{◌≡◌, ◌≤◌, Some, length};
ghost use Rattle.vic_table.specs.declared.fault.TableFault.{TableFault};
ghost use Rattle.vic_table.specs.Names.{table_fault_name};

use std::alloc::{AllocError, AllocFailed};
use std::fmt;

/// What is wrong with a line of a table. If a line has several faults, the first in this order
/// counts.
#[derive(Clone, Copy, Debug, PartialEq, Eq)]
pub enum TableLineFault {
    /// It is line `MAX_TABLE_LINES + 1`.
    TooManyLines,
    /// It has more than `MAX_TABLE_LINE_LEN` bytes, without its end.
    LineTooLong,
    /// It isn't UTF-8, or has a zero byte, or a CR that isn't in its end.
    Utf8,
    /// A quote isn't closed, or stands where none may. In line 1, under each separator.
    Quote,
    /// Line 1: under no separator are its cells the columns of a catalogue or of places.
    Columns,
    /// Line 1: the table is what was written about a catalogue.
    Result,
    /// The row has more or fewer cells than line 1.
    Cells,
    /// The cell `uid` neither spells a UID nor is the word `none`.
    Uid,
    /// A cell besides `uid` has or spells a UID.
    UidElsewhere,
    /// A row before has that UID.
    DuplicateUid,
    /// The cell `place` is blank, or in a table of places the cell `log`.
    Place,
    /// The cell `away` is neither blank nor the word `away`.
    Away,
    /// A row before has that log.
    DuplicateLog,
    /// The catalogue has no row; at the line behind its last.
    NoItems,
}

/// Why a text has no table.
#[derive(Clone, Copy, Debug, PartialEq, Eq)]
pub enum TableFault {
    /// The first line with a fault, numbered from 1, and the first of its faults.
    Line { line: u32, fault: TableLineFault },
    /// Memory for the table was refused.
    Memory,
}

impl TableLineFault {
    /// Its name, of at most 16 bytes.
    pub fn name(&self) -> &'static str
        ensures name { result.now ≡ table_fault_name self.now }
        ensures short { length result.now ≤ 16 }
    {
        match self {
            TableLineFault::TooManyLines => "TooManyLines",
            TableLineFault::LineTooLong => "LineTooLong",
            TableLineFault::Utf8 => "Utf8",
            TableLineFault::Quote => "Quote",
            TableLineFault::Columns => "Columns",
            TableLineFault::Result => "Result",
            TableLineFault::Cells => "Cells",
            TableLineFault::Uid => "Uid",
            TableLineFault::UidElsewhere => "UidElsewhere",
            TableLineFault::DuplicateUid => "DuplicateUid",
            TableLineFault::Place => "Place",
            TableLineFault::Away => "Away",
            TableLineFault::DuplicateLog => "DuplicateLog",
            TableLineFault::NoItems => "NoItems",
        }
    }
}

impl fmt::Display for TableLineFault {
    ghost output = { λ e. Some (table_fault_name e) };

    fn fmt<W: fmt::Write>(&self, f: &mut fmt::Formatter<W>) -> fmt::Result {
        f.write_str(self.name())
    }
}

impl From<AllocError> for TableFault {
    ghost from_gives = { λ _ e. e ≡ TableFault.Memory };

    fn from(_: AllocError) -> TableFault {
        TableFault::Memory
    }
}

impl<T: Drop> From<AllocFailed<T>> for TableFault {
    ghost from_gives = { λ _ e. e ≡ TableFault.Memory };

    fn from(_: AllocFailed<T>) -> TableFault {
        TableFault::Memory
    }
}
