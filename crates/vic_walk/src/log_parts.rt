//! The parts of a log, and which of them each of its entries concerns.

ghost use Rattle.std.specs.Prelude.{◌≡◌, ℕ, List, IfOk, length, slice_index};
ghost use Rattle.vic_log.specs.declared.entry.Entry.{Entry as EntryValue};
ghost use Rattle.vic_log.specs.Order.{entries};
ghost use Rattle.vic_walk.specs.Steps.{AreLogParts};
ghost use Rattle.vic_walk.specs.inner.Gathered.{AreMoved, ArePlaced};

use crate::cutting::gather;
use crate::lines::LogLines;
use crate::ordering::{in_order, rank_of};
use crate::parts::Parts;
use crate::steps::Step;
use std::alloc::{AllocError, Global};

/// The parts of a log, and its steps: which of the parts each entry before its list concerns.
#[derive(Drop)]
pub struct LogParts {
    /// The parts.
    pub parts: Parts,
    /// The steps, by the positions of the entries.
    pub steps: Vec<Step>,
}

impl LogParts {
    /// Parts, so that a log treats all UIDs of a part alike: cut at the borders of each slot's
    /// mask, and around each UID that a line silences or hears. It fails if memory is refused, or
    /// if 32 bits aren't enough for the numbers of parts.
    pub fn of(alloc: Global, lines: &LogLines) -> Result<LogParts, AllocError>
        ensures { IfOk result (AreLogParts (entries lines.now)) }
    {
        let (borders, mut steps) = gather(alloc, lines)?;
        let (parts, ranks) = in_order(alloc, borders)?;
        move_steps(&mut steps, &ranks);
        Ok(LogParts { parts, steps })
    }
}

/// Replaces places of borders by the numbers of the parts that begin there.
fn move_steps(steps: &mut Vec<Step>, ranks: &[u32])
    ensures size { length steps.new.items ≡ length steps.old.items }
    ensures moved { (es : List EntryValue) (old new : List ℕ)
        → AreMoved old new (λ p. slice_index ranks.now p)
        → ArePlaced es old steps.old.items → ArePlaced es new steps.new.items }
{
    for index in 0..steps.len() {
        let Step { from, to, own } = steps[index];
        steps[index] = Step {
            from: rank_of(ranks, from as usize),
            to: rank_of(ranks, to as usize),
            own: rank_of(ranks, own as usize),
        };
    }
}
