//! The walk over the entries of a log.

ghost use Rattle.std.specs.Prelude.{IfOk};
ghost use Rattle.vic_log.specs.Order.{entries};
ghost use Rattle.vic_walk.specs.Walk.{IsLogWalk};

use crate::lines::LogLines;
use crate::log_parts::LogParts;
use crate::part_states::PartStates;
use crate::walk_state::WalkState;
use std::alloc::{AllocError, Global};

/// The parts of a log, and what is known of them where the walk over it ended.
#[derive(Drop)]
pub struct LogWalk {
    /// The parts of the log, and its steps.
    pub log_parts: LogParts,
    /// The parts that are open.
    pub open: PartStates,
    /// For each part its end: 0 while it is open; else one more than the position of the entry that
    /// rules it out.
    pub ends: Vec<u32>,
    /// The position of the first entry with which a reply isn't borne out: its UID couldn't answer
    /// where it was heard, or is ruled out by a silent slot or another reply. The walk ends after
    /// it. `None` if it went to the end; the log may be impossible even so, since what collisions
    /// and garbled slots require isn't looked at.
    pub broken: Option<usize>,
}

/// The walk over a log: to its list, which changes nothing, or past the first entry with which a
/// reply isn't borne out.
pub fn walk_log(alloc: Global, lines: &LogLines) -> Result<LogWalk, AllocError>
    ensures { IfOk result (IsLogWalk (entries lines.now)) }
{
    let log_parts = LogParts::of(alloc, lines)?;
    let mut walk = WalkState::start(alloc, log_parts.parts.count())?;
    for index in 0..log_parts.steps.len() {
        let entry = lines.entry(index);
        // a position is less than 2^32
        if !walk.pass(log_parts.steps[index], (index + 1) as u32, &entry)? {
            let WalkState { open, ends, .. } = walk;
            return Ok(LogWalk {
                log_parts,
                open,
                ends,
                broken: Some(index),
            });
        }
    }
    let WalkState { open, ends, .. } = walk;
    Ok(LogWalk {
        log_parts,
        open,
        ends,
        broken: None,
    })
}
