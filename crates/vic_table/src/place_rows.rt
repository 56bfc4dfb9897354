//! The rows of a table of places, line by line.

ghost use Rattle.std.specs.Prelude.{◌≡◌, ◌<◌, ◌≤◌, ◌-◌, ◌^◌, ◌++◌, ◌∷◌, [], ℕ, List, suc, length, take, drop, IfOk, OnOk, MatchResult};
ghost use Rattle.std.specs.Option.{option_or};
ghost use Rattle.vic_table.specs.Lines.{bytes_fault};
ghost use Rattle.vic_table.specs.Rows.{place_fault, place_row_of, place_line_fault};
ghost use Rattle.vic_table.specs.Table.{HasNoFault, place_rows_upto};
ghost use Rattle.vic_table.specs.Values.{PlaceRowValue};
ghost use Rattle.vic_table.specs.declared.columns.Columns.TheVariants.{Places};
ghost use Rattle.vic_table.specs.declared.lines.TheConstants.{MAX_TABLE_LINES};
ghost use Rattle.vic_table.specs.inner.Faults.{RefusesAt};
ghost use Rattle.vic_table.specs.inner.Kept.{row_or_none};
ghost use Rattle.vic_table.specs.inner.Reading.{FollowsFirst, RefusesLines};
ghost use Rattle.vic_table.specs.inner.Sets.{AreLogsOf, IsPlaceRowOf, TellsNewLog};

use crate::cells::LineCells;
use crate::columns::PlacesColumns;
use crate::contents::{is_blank, trimmed};
use crate::fault::{TableFault, TableLineFault};
use crate::items::{cell_at, is_blank_line};
use crate::lines::{LineAt, bytes_fault, line_at};
use std::alloc::{AllocError, Global};
use std::collections::BTreeSet;
use std::marker::Model;

/// A row of a table of places: this log is of this place.
#[derive(Drop)]
pub(crate) struct PlaceRow {
    /// The number of its line.
    line: u32,
    /// How many bytes its place has.
    place_len: usize,
    /// Its place, and behind it its log.
    bytes: Vec<u8>,
}

impl Model for PlaceRow {
    ghost Value = { PlaceRowValue };

    ghost view = { λ r. record {
      line = r.line;
      place = take r.place_len r.bytes.items;
      log = drop r.place_len r.bytes.items;
    } };

    ghost invariant = { λ r. r.place_len ≤ length r.bytes.items };
}

impl PlaceRow {
    fn new(alloc: Global, line: u32, place: &[u8], log: &[u8]) -> Result<PlaceRow, AllocError>
        ensures { IfOk result (λ row.
            row ≡ record { line = line; place = place.now; log = log.now }) }
    {
        let mut bytes = Vec::with_capacity(alloc, place.len() + log.len())?;
        bytes.extend_from_slice(place)?;
        bytes.extend_from_slice(log)?;
        Ok(PlaceRow {
            line,
            place_len: place.len(),
            bytes,
        })
    }

    /// The number of its line.
    pub(crate) fn line(&self) -> u32
        ensures { result ≡ self.now.line }
    {
        self.line
    }

    /// Its place.
    pub(crate) fn place(&self) -> &[u8]
        ensures { result.now ≡ self.now.place }
    {
        &self.bytes[..self.place_len]
    }

    /// Its log.
    pub(crate) fn log(&self) -> &[u8]
        ensures { result.now ≡ self.now.log }
    {
        &self.bytes[self.place_len..]
    }
}

/// The rows of a table of places whose second line begins at an offset of a text.
pub(crate) fn read_place_rows(
    alloc: Global,
    columns: &PlacesColumns,
    text: &[u8],
    start: usize,
) -> Result<Vec<PlaceRow>, TableFault>
    requires { start ≤ length text.now }
    ensures { (lines : List (List ℕ))
        → FollowsFirst lines (Places columns.now) (drop start text.now) → MatchResult result
        (λ rows. HasNoFault lines
        × (rows.items ≡ place_rows_upto columns.now lines (length lines)))
        (RefusesLines lines) }
{
    let mut cells = LineCells::new(alloc);
    let mut logs = BTreeSet::new(alloc);
    let mut rows = Vec::new(alloc);
    let mut number = 1;
    let mut next = start;
    while let Some(at) = line_at(text, next) {
        let line = &text[at.start..at.end];
        let row = match line_row(alloc, columns, &mut cells, &mut logs, number, line) {
            Ok(row) => row,
            Err(fault) => return Err(fault),
        };
        push_some(&mut rows, row)?;
        number += 1;
        next = at.next;
    }
    Ok(rows)
}

/// Adds a row, if there is one.
fn push_some(rows: &mut Vec<PlaceRow>, row: Option<PlaceRow>) -> Result<(), AllocError>
    ensures { OnOk result (rows.new.items ≡ rows.old.items ++ row_or_none row) }
{
    match row {
        Some(row) => Ok(rows.push(row)?),
        None => Ok(()),
    }
}

/// The row of the line behind so many lines; `None` if all its cells are blank.
fn line_row(
    alloc: Global,
    columns: &PlacesColumns,
    cells: &mut LineCells,
    logs: &mut BTreeSet<Vec<u8>>,
    before: u32,
    line: &[u8],
) -> Result<Option<PlaceRow>, TableFault>
    requires { before < 2 ^ 32 - 1 }
    ensures taken { (given : List PlaceRowValue) → AreLogsOf given logs.old → MatchResult result
        (IsPlaceRowOf columns.now given before line.now logs.new)
        (RefusesAt (suc before) (option_or (bytes_fault before line.now)
        (place_line_fault columns.now given line.now))) }
    ensures room { OnOk result (before < MAX_TABLE_LINES) }
{
    let number = before + 1;
    if let Some(fault) = bytes_fault(before, line) {
        return Err(TableFault::Line {
            line: number,
            fault,
        });
    }
    if !cells.split(columns.separator.byte(), line)? {
        return Err(TableFault::Line {
            line: number,
            fault: TableLineFault::Quote,
        });
    }
    if is_blank_line(cells) {
        return Ok(None);
    }
    match row_of(alloc, columns, cells, logs, number) {
        Ok(row) => Ok(Some(row)),
        Err(fault) => Err(fault),
    }
}

/// The row of a line's cells, after the rows whose logs are in the set.
fn row_of(
    alloc: Global,
    columns: &PlacesColumns,
    cells: &LineCells,
    logs: &mut BTreeSet<Vec<u8>>,
    line: u32,
) -> Result<PlaceRow, TableFault>
    ensures { (before : List PlaceRowValue) → AreLogsOf before logs.old → MatchResult result
        (λ row. (place_fault columns.now before cells.now ≡ None)
        × (row ≡ place_row_of columns.now line cells.now)
        × AreLogsOf (before ++ row ∷ []) logs.new)
        (RefusesAt line (place_fault columns.now before cells.now)) }
{
    if cells.len() != columns.count {
        return Err(TableFault::Line {
            line,
            fault: TableLineFault::Cells,
        });
    }
    let place = cell_at(cells, columns.place);
    let log = cell_at(cells, columns.log);
    if is_blank(place) || is_blank(log) {
        return Err(TableFault::Line {
            line,
            fault: TableLineFault::Place,
        });
    }
    let log = trimmed(log);
    if !note_log(alloc, logs, log)? {
        return Err(TableFault::Line {
            line,
            fault: TableLineFault::DuplicateLog,
        });
    }
    Ok(PlaceRow::new(alloc, line, trimmed(place), log)?)
}

/// Puts a log into the set of those before. Returns whether it is new.
fn note_log(alloc: Global, logs: &mut BTreeSet<Vec<u8>>, log: &[u8]) -> Result<bool, AllocError>
    ensures { IfOk result (λ new. (before : List PlaceRowValue) → AreLogsOf before logs.old
        → TellsNewLog before log.now new logs.new) }
{
    Ok(logs.insert(log.to_vec(alloc)?)?)
}
