//! The columns of a table, by its first line.

ghost use Rattle.std.specs.Prelude.{◌≡◌, ◌≤◌, length, map, slice_range, Some, None, IfOk, MatchResult};
ghost use Rattle.std.specs.Char.{to_ascii_lowercase};
ghost use Rattle.std.specs.List.{list_any};
ghost use Rattle.vic_table.specs.Columns.{separator_byte, count_of, index_of, named_columns, columns_of, names_fault, tells_elsewhere, is_of_this_version, is_of_version_1, is_of_result, first_line_fault};
ghost use Rattle.vic_table.specs.Contents.{tells_uid};
ghost use Rattle.vic_table.specs.inner.Faults.{RefusesAt};
ghost use Rattle.vic_table.specs.inner.Head.{IsHead, is_misquoted_head};

use crate::cells::LineCells;
use crate::contents::{is_word, trimmed};
use crate::fault::{TableFault, TableLineFault};
use crate::uids::tells_uid;
use std::alloc::AllocError;

/// What stands between two cells.
#[derive(Clone, Copy, Debug, PartialEq, Eq)]
pub enum Separator {
    Comma,
    Semicolon,
    Tab,
}

impl Separator {
    /// Its byte.
    pub fn byte(self) -> u8
        ensures { result ≡ separator_byte self }
    {
        match self {
            Separator::Comma => b',',
            Separator::Semicolon => b';',
            Separator::Tab => b'\t',
        }
    }
}

/// The columns of a catalogue, each by its index, counted from 0.
#[derive(Clone, Copy, Debug)]
pub struct CatalogueColumns {
    pub separator: Separator,
    /// How many columns there are.
    pub count: usize,
    pub uid: usize,
    pub place: Option<usize>,
    pub away: Option<usize>,
}

/// The columns of a table of places, each by its index, counted from 0.
#[derive(Clone, Copy, Debug)]
pub struct PlacesColumns {
    pub separator: Separator,
    /// How many columns there are.
    pub count: usize,
    pub place: usize,
    pub log: usize,
}

/// The columns of a table.
#[derive(Clone, Copy, Debug)]
pub enum Columns {
    Catalogue(CatalogueColumns),
    Places(PlacesColumns),
}

/// The columns that the first line of a table names.
pub(crate) fn first_columns(cells: &mut LineCells, line: &[u8]) -> Result<Columns, TableFault>
    ensures { MatchResult result
        (λ c. (columns_of line.now ≡ Some c) × (first_line_fault line.now ≡ None))
        (RefusesAt 1 (first_line_fault line.now)) }
{
    let comma = head_under(cells, Separator::Comma, line)?;
    if let Head::Named(columns) = comma {
        return checked(columns, cells);
    }
    let semicolon = head_under(cells, Separator::Semicolon, line)?;
    if let Head::Named(columns) = semicolon {
        return checked(columns, cells);
    }
    let tab = head_under(cells, Separator::Tab, line)?;
    if let Head::Named(columns) = tab {
        return checked(columns, cells);
    }
    let misquoted = comma.is_misquoted() && semicolon.is_misquoted() && tab.is_misquoted();
    let fault = if misquoted {
        TableLineFault::Quote
    } else {
        TableLineFault::Columns
    };
    Err(TableFault::Line { line: 1, fault })
}

/// Columns that a first line names, unless one of its names has a fault.
fn checked(columns: Columns, cells: &LineCells) -> Result<Columns, TableFault>
    ensures { MatchResult result
        (λ c. (c ≡ columns) × (names_fault columns cells.now ≡ None))
        (RefusesAt 1 (names_fault columns cells.now)) }
{
    match names_fault(&columns, cells) {
        None => Ok(columns),
        Some(fault) => Err(TableFault::Line { line: 1, fault }),
    }
}

/// A first line, split under a separator.
#[derive(Clone, Copy, Debug)]
enum Head {
    /// A quote is wrong.
    Misquoted,
    /// Its cells aren't the columns of a table.
    Unnamed,
    /// They are these columns.
    Named(Columns),
}

impl Head {
    fn is_misquoted(&self) -> bool
        ensures { result ≡ is_misquoted_head self.now }
    {
        matches!(self, Head::Misquoted)
    }
}

/// Splits a first line under a separator.
fn head_under(cells: &mut LineCells, separator: Separator, line: &[u8]) -> Result<Head, AllocError>
    ensures { IfOk result (IsHead line.now separator cells.new) }
{
    if !cells.split(separator.byte(), line)? {
        return Ok(Head::Misquoted);
    }
    Ok(match named_columns(separator, cells) {
        Some(columns) => Head::Named(columns),
        None => Head::Unnamed,
    })
}

/// The columns that the cells of a first line name, if a table has such.
fn named_columns(separator: Separator, cells: &LineCells) -> Option<Columns>
    ensures { result ≡ named_columns separator cells.now }
{
    let uids = count_of(cells, b"uid");
    let places = count_of(cells, b"place");
    if uids == 1 && places <= 1 && count_of(cells, b"away") <= 1 {
        return Some(Columns::Catalogue(CatalogueColumns {
            separator,
            count: cells.len(),
            uid: index_of(cells, b"uid").unwrap_or(0),
            place: index_of(cells, b"place"),
            away: index_of(cells, b"away"),
        }));
    }
    if uids == 0 && places == 1 && count_of(cells, b"log") == 1 {
        return Some(Columns::Places(PlacesColumns {
            separator,
            count: cells.len(),
            place: index_of(cells, b"place").unwrap_or(0),
            log: index_of(cells, b"log").unwrap_or(0),
        }));
    }
    None
}

/// How many columns have a name, given in lower case.
fn count_of(cells: &LineCells, name: &[u8]) -> usize
    requires { map to_ascii_lowercase name.now ≡ name.now }
    ensures { result ≡ count_of name.now cells.now }
{
    let mut count = 0;
    for index in 0..cells.len() {
        if is_word(cells.get(index), name) {
            count += 1;
        }
    }
    count
}

/// The index of the first column that has a name, given in lower case.
fn index_of(cells: &LineCells, name: &[u8]) -> Option<usize>
    requires { map to_ascii_lowercase name.now ≡ name.now }
    ensures { result ≡ index_of name.now cells.now }
{
    for index in 0..cells.len() {
        if is_word(cells.get(index), name) {
            return Some(index);
        }
    }
    None
}

/// The first fault of the cells of a first line that name columns.
fn names_fault(columns: &Columns, cells: &LineCells) -> Option<TableLineFault>
    ensures { result ≡ names_fault columns.now cells.now }
{
    if any_is_of_result(cells) {
        return Some(TableLineFault::Result);
    }
    match columns {
        Columns::Catalogue(columns) => {
            tells_elsewhere(columns, cells).then_some(TableLineFault::UidElsewhere)
        }
        Columns::Places(_) => None,
    }
}

/// Whether one of the cells names such a column.
fn any_is_of_result(cells: &LineCells) -> bool
    ensures { result ≡ list_any is_of_result cells.now }
{
    for index in 0..cells.len() {
        if is_of_result(cells.get(index)) {
            return true;
        }
    }
    false
}

/// Whether a cell names a column of a table that was written about a catalogue.
fn is_of_result(cell: &[u8]) -> bool
    ensures { result ≡ is_of_result cell.now }
{
    is_of_this_version(cell) || is_of_version_1(cell)
}

/// Whether a cell names a column that the program writes behind those of a catalogue.
fn is_of_this_version(cell: &[u8]) -> bool
    ensures { result ≡ is_of_this_version cell.now }
{
    let name = trimmed(cell);
    name.len() >= RESULT.len() && name[..RESULT.len()].eq_ignore_ascii_case(RESULT.as_slice())
}

/// What the names of the columns of a result begin with, in any case.
const RESULT: [u8; 9] = *b"vicinity ";

/// Whether a cell names a column that version 1 of the program wrote behind those of a catalogue.
/// Its column `state` doesn't count: catalogues have one too.
fn is_of_version_1(cell: &[u8]) -> bool
    ensures { result ≡ is_of_version_1 cell.now }
{
    is_word(cell, b"certain in") || is_word(cell, b"may be in")
}

/// Whether a cell of a catalogue's line besides that of the column `uid` has or spells a UID.
pub(crate) fn tells_elsewhere(columns: &CatalogueColumns, cells: &LineCells) -> bool
    ensures { result ≡ tells_elsewhere columns.now cells.now }
{
    let len = cells.len();
    if columns.uid >= len {
        return any_tells_uid(cells, 0, len);
    }
    any_tells_uid(cells, 0, columns.uid) || any_tells_uid(cells, columns.uid + 1, len)
}

/// Whether one of the cells from one index up to another has or spells a UID.
fn any_tells_uid(cells: &LineCells, from: usize, to: usize) -> bool
    requires order { from ≤ to }
    requires bound { to ≤ length cells.now }
    ensures { result ≡ list_any tells_uid (slice_range cells.now from to) }
{
    for index in from..to {
        if tells_uid(cells.get(index)) {
            return true;
        }
    }
    false
}
