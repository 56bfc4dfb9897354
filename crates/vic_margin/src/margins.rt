//! The margins of UIDs.

ghost use Rattle.std.specs.Prelude.{◌≡◌, IfOk, map};
ghost use Rattle.std.proofs.Props.{props};
ghost use Rattle.vic_log.specs.Order.{entries};
ghost use Rattle.vic_walk.specs.Borders.{AreBorders};
ghost use Rattle.vic_walk.specs.Steps.{AreLogParts};
ghost use Rattle.vic_margin.specs.UidMargins.{margin_of};
ghost use Rattle.vic_margin.specs.inner.Tallies.{AreMargins};

use crate::tally::Tally;
use std::alloc::{AllocError, Global};
use vic_frame::Uid;
use vic_frame::low_bits_first::key;
use vic_log::Log;
use vic_walk::{LogLines, LogParts, Parts, Step};

/// The parts of the keys of a log, and the margin of the UIDs of each.
#[derive(Drop)]
pub(crate) struct PartMargins<'a> {
    pub log: &'a Log,
    pub parts: Parts,
    /// The margins, by the numbers of the parts.
    pub each: Vec<u32>,
    ghost borders: { AreBorders parts } by { Prim.hlevel props },
    ghost margins: { AreMargins parts (entries log.now.lines) each.items } by { Prim.hlevel props },
}

/// The margin of each UID that is handed in: in how many slots of a log it was overlooked.
pub fn overlooked(alloc: Global, log: &Log, uids: &[Uid]) -> Result<Vec<u32>, AllocError>
    ensures { IfOk result (λ v. v.items ≡ map (margin_of (entries log.now.lines)) uids.now) }
{
    let log_parts = LogParts::of(alloc, &LogLines::of(log))?;
    let (margins, _steps) = part_margins(alloc, log, log_parts)?;
    let mut found = Vec::with_capacity(alloc, uids.len())?;
    for uid in uids {
        found.push(margins.each[margins.parts.at(key(*uid))])?;
    }
    Ok(found)
}

/// The margin of the UIDs of each part of a log, by its parts; with the steps, by which these can
/// be used again.
pub(crate) fn part_margins<'a>(
    alloc: Global,
    log: &'a Log,
    log_parts: LogParts,
) -> Result<(PartMargins<'a>, Vec<Step>), AllocError>
    requires { AreLogParts (entries log.now.lines) log_parts }
    ensures log { IfOk result (λ r. r.0.log.now ≡ log.now) }
    ensures parts { IfOk result (λ r. r.0.parts ≡ log_parts.parts) }
    ensures steps { IfOk result (λ r. r.1.items ≡ log_parts.steps.items) }
{
    let lines = LogLines::of(log);
    let LogParts { parts, steps } = log_parts;
    let mut tally = Tally::start(alloc, &parts)?;
    for index in 0..steps.len() {
        let entry = lines.entry(index);
        tally.pass(steps[index], &entry);
    }
    let each = tally.margins();
    let parts = parts.indexed(alloc)?;
    Ok((PartMargins { log, parts, each }, steps))
}
