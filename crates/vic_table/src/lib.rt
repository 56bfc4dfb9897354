//! Tables that people write about what should be there: a catalogue of items, and a table of the
//! places that logs are of.
//!
//! A table is read strictly: a row is one line, each row has as many cells as the first line, and
//! the first fault is returned with its line. Nothing is guessed or repaired. `specs/` says what
//! the cells of a line are, which columns a table has, and which items its text has.
#![tactic(auto)]

mod catalogue;
mod cells;
mod columns;
mod contents;
mod fault;
mod item_list;
mod items;
pub mod laws;
mod lines;
mod listed;
mod place_rows;
mod places;
mod read;
mod uids;

pub use catalogue::Catalogue;
pub use cells::LineCells;
pub use columns::{CatalogueColumns, Columns, PlacesColumns, Separator};
pub use contents::{is_blank, trimmed};
pub use fault::{TableFault, TableLineFault};
pub use lines::{MAX_TABLE_LINE_LEN, MAX_TABLE_LINES};
pub use places::Places;
pub use read::{Table, read_table};
pub use uids::spelled_uid;
