//! A list of what is expected: a log that lists UIDs, and nothing else.

ghost use Rattle.std.specs.Prelude.{◌≡◌, ◌++◌, ◌∷◌, [], ℕ, List, IfOk, MatchResult, OnOk};
ghost use Rattle.vic_log.specs.Lines.{lines_of_text};
ghost use Rattle.vic_log.specs.Order.{entries, listed};
ghost use Rattle.vic_log.specs.Text.{IsLogOf};
ghost use Rattle.vic_table.specs.Listed.{IsListCatalogue};
ghost use Rattle.vic_operands.specs.Lists.{HasList, IsList, is_listed};
ghost use Rattle.vic_operands.specs.inner.Lists.{RefusesLines, RefusesList};

use crate::fault::OperandFault;
use crate::operand::FileFault;
use std::alloc::{AllocError, Global};
use vic_frame::Uid;
use vic_log::{Entry, Log, LogFault, PackedLine, read_log};
use vic_table::Catalogue;

/// Reads a list, as the catalogue of its UIDs.
pub(crate) fn read_list(alloc: Global, text: &[u8]) -> Result<Catalogue, FileFault>
    ensures { MatchResult result
        (λ catalogue. (uids : List ℕ) × HasList text.now uids × IsListCatalogue catalogue uids)
        (RefusesList text.now) }
{
    let log = log_in(alloc, text)?;
    let uids = uids_of(alloc, log.lines())?;
    Ok(Catalogue::of_uids(alloc, uids.as_slice())?)
}

/// The log of a text.
fn log_in(alloc: Global, text: &[u8]) -> Result<Log, FileFault>
    ensures { MatchResult result (IsLogOf (lines_of_text text.now)) (RefusesList text.now) }
{
    match read_log(alloc, text) {
        Ok(log) => Ok(log),
        Err(LogFault::Line { line, fault }) => Err(FileFault::Line {
            line: u64::from(line),
            fault: OperandFault::List(fault),
        }),
        Err(LogFault::Memory) => Err(FileFault::Memory),
        Err(LogFault::Read | LogFault::Spent) => unreachable!(),
    }
}

/// The UIDs that lines list, which say nothing else.
fn uids_of(alloc: Global, lines: &[PackedLine]) -> Result<Vec<Uid>, FileFault>
    ensures { MatchResult result
        (λ uids. IsList lines.now × (uids.items ≡ listed (entries lines.now)))
        (RefusesLines lines.now) }
{
    let mut uids = Vec::new(alloc);
    for line in lines {
        if !push_listed(&mut uids, &line.item())? {
            return Err(FileFault::Line {
                line: u64::from(line.number()),
                fault: OperandFault::NotListed,
            });
        }
    }
    Ok(uids)
}

/// Adds the UID that an entry lists, and returns whether it lists one.
fn push_listed(uids: &mut Vec<Uid>, item: &Entry) -> Result<bool, AllocError>
    ensures is { IfOk result (λ is. is ≡ is_listed item.now) }
    ensures more { OnOk result (uids.new.items ≡ uids.old.items ++ listed (item.now ∷ [])) }
{
    match *item {
        Entry::Listed(uid) => {
            uids.push(uid)?;
            Ok(true)
        }
        Entry::Sent(_)
        | Entry::Silent
        | Entry::Collision
        | Entry::Heard(_)
        | Entry::Garbled
        | Entry::FieldCycle
        | Entry::Captured(_)
        | Entry::Unknown => Ok(false),
    }
}
