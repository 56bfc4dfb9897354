//! The items of a catalogue, line by line.

ghost use Rattle.std.specs.Prelude.{◌≡◌, ◌<◌, ◌≤◌, ◌-◌, ◌^◌, ◌++◌, ℕ, List, None, suc, length, drop, map, slice_range, IfOk, OnOk, MatchResult};
ghost use Rattle.std.specs.Char.{to_ascii_lowercase};
ghost use Rattle.std.specs.List.{All};
ghost use Rattle.std.specs.Option.{ForSome, option_or, option_map};
ghost use Rattle.vic_table.specs.Conserved.{as_list};
ghost use Rattle.vic_table.specs.Contents.{spelled_uid};
ghost use Rattle.vic_table.specs.Lines.{bytes_fault};
ghost use Rattle.vic_table.specs.Rows.{cell_at, is_blank_line, is_word_at, place_at, item_fault, item_of, item_line_fault};
ghost use Rattle.vic_table.specs.Table.{HasNoFault, items_upto};
ghost use Rattle.vic_table.specs.declared.columns.Columns.TheVariants.{Catalogue};
ghost use Rattle.vic_table.specs.declared.lines.TheConstants.{MAX_TABLE_LINES};
ghost use Rattle.vic_table.specs.inner.Faults.{RefusesAt, shape_fault, place_or_away_fault};
ghost use Rattle.vic_table.specs.inner.Kept.{item_at, item_value, item_values, item_or_none, IsWithinText};
ghost use Rattle.vic_table.specs.inner.Reading.{FollowsFirst, RefusesLines};
ghost use Rattle.vic_table.specs.inner.Sets.{IsSetOf, IsItemOf, TellsNew};

use crate::cells::LineCells;
use crate::columns::{CatalogueColumns, tells_elsewhere};
use crate::contents::{is_blank, is_word, trimmed};
use crate::fault::{TableFault, TableLineFault};
use crate::item_list::{Item, ItemList};
use crate::lines::{LineAt, bytes_fault, line_at};
use crate::uids::spelled_uid;
use std::alloc::{AllocError, Global};
use std::collections::BTreeSet;
use vic_frame::Uid;

/// The items of a catalogue whose second line begins at an offset of a text.
pub(crate) fn read_items(
    alloc: Global,
    columns: &CatalogueColumns,
    text: &[u8],
    start: usize,
) -> Result<ItemList, TableFault>
    requires { start ≤ length text.now }
    ensures read { (lines : List (List ℕ))
        → FollowsFirst lines (Catalogue columns.now) (drop start text.now) → MatchResult result
        (λ items. HasNoFault lines × (item_values text.now items
        ≡ items_upto columns.now lines (length lines)))
        (RefusesLines lines) }
    ensures within { IfOk result (All (IsWithinText (length text.now))) }
{
    let mut cells = LineCells::new(alloc);
    let mut uids = BTreeSet::new(alloc);
    let mut items = ItemList::new(alloc);
    let mut number = 1;
    let mut next = start;
    while let Some(at) = line_at(text, next) {
        let item = match line_item(alloc, columns, &mut cells, &mut uids, number, text, at) {
            Ok(item) => item,
            Err(fault) => return Err(fault),
        };
        push_some(&mut items, item)?;
        number += 1;
        next = at.next;
    }
    if items.len() == 0 {
        return Err(TableFault::Line {
            line: number + 1,
            fault: TableLineFault::NoItems,
        });
    }
    Ok(items)
}

/// Adds an item, if there is one.
fn push_some(items: &mut ItemList, item: Option<Item>) -> Result<(), AllocError>
    ensures values { OnOk result ((text : List ℕ) → item_values text items.new
        ≡ item_values text items.old ++ item_or_none text item) }
    ensures within { OnOk result ((len : ℕ) → All (IsWithinText len) items.old
        → ForSome item (λ i. IsWithinText len (item_at i)) → All (IsWithinText len) items.new) }
{
    match item {
        Some(item) => items.push(&item),
        None => Ok(()),
    }
}

/// The item of the line behind so many lines; `None` if all its cells are blank.
fn line_item(
    alloc: Global,
    columns: &CatalogueColumns,
    cells: &mut LineCells,
    uids: &mut BTreeSet<Uid>,
    before: u32,
    text: &[u8],
    at: LineAt,
) -> Result<Option<Item>, TableFault>
    requires order { at.start ≤ at.end }
    requires bound { at.end ≤ length text.now }
    requires room { before < 2 ^ 32 - 1 }
    ensures taken { (given : List ℕ) → IsSetOf given uids.old →
        let line = slice_range text.now at.start at.end in MatchResult result
        (IsItemOf columns.now given before text.now line uids.new)
        (RefusesAt (suc before) (option_or (bytes_fault before line)
        (item_line_fault columns.now given line))) }
    ensures room { OnOk result (before < MAX_TABLE_LINES) }
    ensures within { IfOk result (λ item. ForSome item
        (λ i. IsWithinText (length text.now) (item_at i))) }
{
    let number = before + 1;
    let line = &text[at.start..at.end];
    if let Some(fault) = bytes_fault(before, line) {
        return Err(TableFault::Line {
            line: number,
            fault,
        });
    }
    if !cells.split(columns.separator.byte(), line)? {
        return Err(TableFault::Line {
            line: number,
            fault: TableLineFault::Quote,
        });
    }
    if is_blank_line(cells) {
        return Ok(None);
    }
    match row_item(alloc, columns, cells, uids, number, at) {
        Ok(item) => Ok(Some(item)),
        Err(fault) => Err(fault),
    }
}

/// The item of a row's cells, after the rows whose UIDs are in the set.
fn row_item(
    alloc: Global,
    columns: &CatalogueColumns,
    cells: &LineCells,
    uids: &mut BTreeSet<Uid>,
    line: u32,
    at: LineAt,
) -> Result<Item, TableFault>
    ensures taken { (before : List ℕ) → IsSetOf before uids.old → MatchResult result
        (λ item. (item_fault columns.now before cells.now ≡ None)
        × ((text : List ℕ) → item_value text item
        ≡ item_of columns.now line (slice_range text at.start at.end) cells.now)
        × IsSetOf (before ++ as_list (spelled_uid (cell_at cells.now columns.now.uid)))
        uids.new)
        (RefusesAt line (item_fault columns.now before cells.now)) }
    ensures there { IfOk result (λ item. (item.start ≡ at.start) × (item.end ≡ at.end)) }
{
    let uid = spelled_uid(cell_at(cells, columns.uid));
    if let Some(fault) = shape_fault(columns, cells, uid) {
        return Err(TableFault::Line { line, fault });
    }
    if !note_uid(uids, uid)? {
        return Err(TableFault::Line {
            line,
            fault: TableLineFault::DuplicateUid,
        });
    }
    if let Some(fault) = place_or_away_fault(columns, cells) {
        return Err(TableFault::Line { line, fault });
    }
    Ok(Item {
        line,
        start: at.start,
        end: at.end,
        uid,
        place: place_at(alloc, cells, columns.place)?,
        away: is_word_at(cells, columns.away, b"away"),
    })
}

/// The first fault of a row: of its cells' number, of its cell `uid` by itself, or of a UID in
/// another cell. The UID that the cell `uid` spells is given.
fn shape_fault(
    columns: &CatalogueColumns,
    cells: &LineCells,
    uid: Option<Uid>,
) -> Option<TableLineFault>
    requires { uid ≡ spelled_uid (cell_at cells.now columns.now.uid) }
    ensures { result ≡ shape_fault columns.now cells.now }
{
    if cells.len() != columns.count {
        return Some(TableLineFault::Cells);
    }
    if uid.is_none() && !is_word(cell_at(cells, columns.uid), b"none") {
        return Some(TableLineFault::Uid);
    }
    if tells_elsewhere(columns, cells) {
        return Some(TableLineFault::UidElsewhere);
    }
    None
}

/// The first fault of the cells `place` and `away`.
fn place_or_away_fault(columns: &CatalogueColumns, cells: &LineCells) -> Option<TableLineFault>
    ensures { result ≡ place_or_away_fault columns.now cells.now }
{
    if let Some(place) = columns.place {
        if is_blank(cell_at(cells, place)) {
            return Some(TableLineFault::Place);
        }
    }
    if let Some(away) = columns.away {
        let cell = cell_at(cells, away);
        if !is_blank(cell) && !is_word(cell, b"away") {
            return Some(TableLineFault::Away);
        }
    }
    None
}

/// Puts a row's UID, if it has one, into the set of those before. Returns whether it is new.
fn note_uid(uids: &mut BTreeSet<Uid>, uid: Option<Uid>) -> Result<bool, AllocError>
    ensures { IfOk result (λ new. (before : List ℕ) → IsSetOf before uids.old
        → TellsNew before uid new uids.new) }
{
    match uid {
        Some(uid) => Ok(uids.insert(uid)?),
        None => Ok(true),
    }
}

/// The place that a row names in a column that the table may lack.
fn place_at(
    alloc: Global,
    cells: &LineCells,
    column: Option<usize>,
) -> Result<Option<Vec<u8>>, AllocError>
    ensures { IfOk result (λ place.
        option_map (λ p. p.items) place ≡ place_at cells.now column) }
{
    let Some(index) = column else {
        return Ok(None);
    };
    let cell = cell_at(cells, index);
    if is_word(cell, b"any") {
        return Ok(None);
    }
    Ok(Some(trimmed(cell).to_vec(alloc)?))
}

/// Whether the cell of a column that the table may lack is a word, given in lower case.
fn is_word_at(cells: &LineCells, column: Option<usize>, word: &[u8]) -> bool
    requires { map to_ascii_lowercase word.now ≡ word.now }
    ensures { result ≡ is_word_at word.now cells.now column }
{
    match column {
        Some(index) => is_word(cell_at(cells, index), word),
        None => false,
    }
}

/// Whether all cells of a line are blank.
pub(crate) fn is_blank_line(cells: &LineCells) -> bool
    ensures { result ≡ is_blank_line cells.now }
{
    for index in 0..cells.len() {
        if !is_blank(cells.get(index)) {
            return false;
        }
    }
    true
}

/// A cell of a line; an empty one if the line has fewer.
pub(crate) fn cell_at(cells: &LineCells, index: usize) -> &[u8]
    ensures { result.now ≡ cell_at cells.now index }
{
    if index < cells.len() {
        cells.get(index)
    } else {
        &[]
    }
}
