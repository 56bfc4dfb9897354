//! The lines of each kind of finding.

ghost use Rattle.std.specs.Prelude.{◌≡◌, ◌++◌, OnOk, codes, decimal};
ghost use Rattle.std.specs.List.{flat_map};
ghost use Rattle.vic_text.specs.Digits.{uid_text};
ghost use Rattle.vic_collection.specs.Findings.{AreFoundIn};
ghost use Rattle.vic_collection.specs.declared.state.State.TheVariants.{Doubtful};
ghost use Rattle.vic_result.specs.NamesAt.{names_at};
ghost use Rattle.vic_result.specs.ResultLines.{absent_lines, doubtful_lines, ended, first_certain, first_name, misplaced_lines, not_counted_lines, place_at, returned_lines, unlisted_lines};

use crate::answered::{push_words, push_words_uid};
use crate::lines::first_logs::{first_logs, name_of};
use crate::names::name_at;
use std::alloc::{AllocError, Global};
use vic_collection::{Collection, FoundItem, UnlistedUid};
use vic_frame::Uid;
use vic_survey::Survey;
use vic_text::push_decimal;

/// The name of the first of some logs.
fn first_name<'a>(surveys: &'a [Survey], logs: &[usize]) -> &'a [u8]
    ensures { result.now ≡ first_name (names_at surveys.now logs.now) }
{
    match logs.first() {
        Some(log) => name_at(surveys, *log),
        None => &[],
    }
}

/// The first log in which a UID is certain.
fn first_certain(collection: &Collection, uid: Uid) -> &[u8]
    ensures { result.now ≡ first_certain collection.now uid }
{
    first_name(collection.surveys(), collection.certain_in(uid))
}

/// The place of an item.
fn place_at(collection: &Collection, index: usize) -> &[u8]
    ensures { result.now ≡ place_at collection.now index }
{
    let catalogue = collection.catalogue();
    if index < catalogue.len() {
        catalogue.place(index).unwrap_or(&[])
    } else {
        &[]
    }
}

/// Appends a line: words, a UID, more words, and a name.
fn push_uid_line(
    text: &mut Vec<u8>,
    words: &[u8],
    uid: Uid,
    joint: &[u8],
    name: &[u8],
) -> Result<(), AllocError>
    ensures { OnOk result (text.new.items ≡ text.old.items
        ++ ended (words.now ++ uid_text uid ++ joint.now ++ name.now)) }
{
    push_words_uid(text, words, uid)?;
    push_words(text, joint, name)?;
    text.extend_from_slice(b"\n")
}

/// Appends a line of an item that is missing.
fn push_absent_line(text: &mut Vec<u8>, found: &FoundItem) -> Result<(), AllocError>
    ensures { OnOk result (text.new.items ≡ text.old.items ++ absent_lines found.now) }
{
    push_words_uid(text, b"absent ", found.uid)?;
    text.extend_from_slice(b"\n")
}

/// Appends the items that are missing.
pub(crate) fn push_absent(text: &mut Vec<u8>, absent: &[FoundItem]) -> Result<(), AllocError>
    ensures { OnOk result (text.new.items
        ≡ text.old.items ++ flat_map absent_lines absent.now) }
{
    for found in absent {
        push_absent_line(text, found)?;
    }
    Ok(())
}

/// Appends the number of a line, and the name of its log, in a line.
fn push_by_line(text: &mut Vec<u8>, line: u32, name: &[u8]) -> Result<(), AllocError>
    ensures { OnOk result (text.new.items ≡ text.old.items
        ++ ended (codes "by line " ++ decimal line ++ codes " of " ++ name.now)) }
{
    text.extend_from_slice(b"by line ")?;
    push_decimal(text, u64::from(line))?;
    push_words(text, b" of ", name)?;
    text.extend_from_slice(b"\n")
}

/// Appends the lines of a UID of no item.
fn push_unlisted_lines(
    text: &mut Vec<u8>,
    collection: &Collection,
    found: &UnlistedUid,
) -> Result<(), AllocError>
    ensures { OnOk result
        (text.new.items ≡ text.old.items ++ unlisted_lines collection.now found.now) }
{
    push_words_uid(text, b"unlisted ", found.uid)?;
    text.extend_from_slice(b"\n")?;
    push_by_line(text, found.line, name_at(collection.surveys(), found.log))
}

/// Appends the UIDs that are certain and of no item.
pub(crate) fn push_unlisted(
    text: &mut Vec<u8>,
    collection: &Collection,
    unlisted: &[UnlistedUid],
) -> Result<(), AllocError>
    ensures { OnOk result (text.new.items ≡ text.old.items
        ++ flat_map (unlisted_lines collection.now) unlisted.now) }
{
    for found in unlisted {
        push_unlisted_lines(text, collection, found)?;
    }
    Ok(())
}

/// Appends the items that aren't provable.
pub(crate) fn push_doubtful(
    alloc: Global,
    text: &mut Vec<u8>,
    collection: &Collection,
    doubtful: &[FoundItem],
) -> Result<(), AllocError>
    requires { AreFoundIn collection.now Doubtful doubtful.now }
    ensures { OnOk result (text.new.items ≡ text.old.items
        ++ flat_map (doubtful_lines collection.now) doubtful.now) }
{
    let logs = first_logs(alloc, collection, doubtful)?;
    for found in doubtful {
        let name = name_of(collection.surveys(), &logs, found.uid);
        push_uid_line(text, b"doubtful ", found.uid, b" in ", name)?;
    }
    Ok(())
}

/// Appends a line of an item that is misplaced.
fn push_misplaced_line(
    text: &mut Vec<u8>,
    collection: &Collection,
    found: &FoundItem,
) -> Result<(), AllocError>
    ensures { OnOk result
        (text.new.items ≡ text.old.items ++ misplaced_lines collection.now found.now) }
{
    push_words_uid(text, b"misplaced ", found.uid)?;
    push_words(text, b" in ", first_certain(collection, found.uid))?;
    push_words(text, b", belongs to ", place_at(collection, found.item))?;
    text.extend_from_slice(b"\n")
}

/// Appends the items that are misplaced.
pub(crate) fn push_misplaced(
    text: &mut Vec<u8>,
    collection: &Collection,
    misplaced: &[FoundItem],
) -> Result<(), AllocError>
    ensures { OnOk result (text.new.items ≡ text.old.items
        ++ flat_map (misplaced_lines collection.now) misplaced.now) }
{
    for found in misplaced {
        push_misplaced_line(text, collection, found)?;
    }
    Ok(())
}

/// Appends a line of an item that should be away.
fn push_returned_line(
    text: &mut Vec<u8>,
    collection: &Collection,
    found: &FoundItem,
) -> Result<(), AllocError>
    ensures { OnOk result
        (text.new.items ≡ text.old.items ++ returned_lines collection.now found.now) }
{
    let name = first_certain(collection, found.uid);
    push_uid_line(text, b"returned ", found.uid, b" in ", name)
}

/// Appends the items that should be away and aren't.
pub(crate) fn push_returned(
    text: &mut Vec<u8>,
    collection: &Collection,
    returned: &[FoundItem],
) -> Result<(), AllocError>
    ensures { OnOk result (text.new.items ≡ text.old.items
        ++ flat_map (returned_lines collection.now) returned.now) }
{
    for found in returned {
        push_returned_line(text, collection, found)?;
    }
    Ok(())
}

/// Appends a line of an item whose place has no log.
fn push_not_counted_line(
    text: &mut Vec<u8>,
    collection: &Collection,
    found: &FoundItem,
) -> Result<(), AllocError>
    ensures { OnOk result
        (text.new.items ≡ text.old.items ++ not_counted_lines collection.now found.now) }
{
    let place = place_at(collection, found.item);
    push_uid_line(text, b"not counted ", found.uid, b", belongs to ", place)
}

/// Appends the items whose place has no log.
pub(crate) fn push_not_counted(
    text: &mut Vec<u8>,
    collection: &Collection,
    not_counted: &[FoundItem],
) -> Result<(), AllocError>
    ensures { OnOk result (text.new.items ≡ text.old.items
        ++ flat_map (not_counted_lines collection.now) not_counted.now) }
{
    for found in not_counted {
        push_not_counted_line(text, collection, found)?;
    }
    Ok(())
}
