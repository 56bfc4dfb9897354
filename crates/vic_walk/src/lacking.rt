//! The first position at which an unread slot lacks tags.

ghost use Rattle.std.specs.Prelude.{◌≡◌, ◌↔◌, ◌+◌, ◌<◌, ◌≤◌, ℕ, Bool, true, List, IfOk, OnOk, length};
ghost use Rattle.vic_log.specs.declared.entry.Entry.{Entry as EntryValue};
ghost use Rattle.vic_log.specs.Order.{entries};
ghost use Rattle.vic_log.specs.Slots.{slots_before, is_open};
ghost use Rattle.vic_walk.specs.Borders.{part_count};
ghost use Rattle.vic_walk.specs.Met.{AreEndsPast, AreMetBefore, IsMetAt};
ghost use Rattle.vic_walk.specs.inner.Unmet.{AreCandidates, AreLacking, is_open_before};
ghost use Rattle.vic_walk.specs.Steps.{AreLogParts, IsEntryAt, IsStepBelow};
ghost use Rattle.vic_walk.specs.Walk.{AreStatesAt};

use crate::lines::LogLines;
use crate::log_parts::LogParts;
use crate::marks::Marks;
use crate::needs::needs;
use crate::part_states::PartStates;
use crate::parts::Parts;
use crate::steps::Step;
use crate::three::up_to_three;
use std::alloc::{AllocError, Global};
use std::mem::drop;
use vic_log::Entry;

/// The greatest position up to `upto` such that all unread slots before it are met by the UIDs that
/// are open before it. If it isn't `upto`, its entry is the first impossible one, where the replies
/// before it are borne out. `ends` are those before `upto`, or later, as where a walk ended that
/// broke at `upto`.
pub fn first_lack(
    alloc: Global,
    lines: &LogLines,
    log_parts: &LogParts,
    ends: &[u32],
    upto: usize,
) -> Result<usize, AllocError>
    requires parts { AreLogParts (entries lines.now) log_parts.now }
    requires ends { AreEndsPast log_parts.now.parts (entries lines.now) upto ends.now }
    ensures upto { IfOk result (λ m. m ≤ upto) }
    ensures met { IfOk result (λ m. AreMetBefore (entries lines.now) m) }
    ensures lack { IfOk result (λ m. m < upto → AreMetBefore (entries lines.now) (m + 1) → ⊥) }
{
    let mut candidates = Candidates {
        slots: Marks::all(alloc, upto)?,
        from: 0,
        states: PartStates::all_ready(alloc, Marks::all(alloc, ends.len())?),
    };
    // found by halving, between a position before which all are met and the greatest that may be
    // one: what is met before a position is met before each earlier one
    let mut met = 0;
    let mut most = upto;
    let mut middle = upto;
    while met < most {
        candidates.go_to_first(lines, log_parts, middle)?;
        let lacking = candidates.lacking_before(alloc, lines, log_parts, ends, middle)?;
        match lacking.first(0, middle) {
            Some(first) => {
                candidates.slots = lacking;
                met = met.max(first);
                most = middle - 1;
            }
            None => {
                drop(lacking);
                met = middle;
            }
        }
        middle = most - (most - met) / 2;
    }
    Ok(met)
}

/// The slots that may lack tags: those that did by the UIDs open before the last position at which
/// some did; at first all. They are walked from the first one on: there the states are kept.
#[derive(Drop)]
struct Candidates {
    /// Their positions.
    slots: Marks,
    /// A position before which there is none.
    from: usize,
    /// The states of all parts at that position.
    states: PartStates,
}

impl Candidates {
    /// Goes to the first candidate, if one comes before a position.
    fn go_to_first(
        &mut self,
        lines: &LogLines,
        log_parts: &LogParts,
        position: usize,
    ) -> Result<(), AllocError>
        requires parts { AreLogParts (entries lines.now) log_parts.now }
        requires candidates { AreCandidates log_parts.now.parts (entries lines.now) self.old }
        ensures slots { OnOk result (self.new.slots ≡ self.old.slots) }
        ensures candidates { OnOk result
            (AreCandidates log_parts.now.parts (entries lines.now) self.new) }
    {
        let end = position.min(log_parts.steps.len());
        let Some(first) = self.slots.first(self.from, end) else {
            return Ok(());
        };
        pass_entries(&mut self.states, lines, log_parts, self.from, first)?;
        self.from = first;
        Ok(())
    }

    /// The candidates before a position that aren't met by the UIDs that are open before that
    /// position. `ends` as for `first_lack`.
    fn lacking_before(
        &self,
        alloc: Global,
        lines: &LogLines,
        log_parts: &LogParts,
        ends: &[u32],
        position: usize,
    ) -> Result<Marks, AllocError>
        requires parts { AreLogParts (entries lines.now) log_parts.now }
        requires ends { AreEndsPast log_parts.now.parts (entries lines.now) position ends.now }
        requires candidates { AreCandidates log_parts.now.parts (entries lines.now) self.now }
        ensures { IfOk result (AreLacking (entries lines.now) self.now.slots position position) }
    {
        let mut open = open_before(alloc, &self.states, ends, position)?;
        let mut lacking = Marks::none(alloc, position)?;
        let end = position.min(log_parts.steps.len());
        let mut at = self.from;
        while let Some(slot) = self.slots.first(at, end) {
            pass_entries(&mut open, lines, log_parts, at, slot)?;
            let step = log_parts.steps[slot];
            let entry = lines.entry(slot);
            if !is_met(&log_parts.parts, &open, step, &entry) {
                lacking.put(slot);
            }
            open.pass(step, &entry)?;
            at = slot + 1;
        }
        Ok(lacking)
    }
}

/// Goes past the entries from a position on and before another.
fn pass_entries(
    states: &mut PartStates,
    lines: &LogLines,
    log_parts: &LogParts,
    from: usize,
    to: usize,
) -> Result<(), AllocError>
    requires parts { AreLogParts (entries lines.now) log_parts.now }
    requires room { length states.old.ready ≡ part_count log_parts.now.parts }
    requires from { from ≤ to }
    requires to { to ≤ length log_parts.now.steps.items }
    ensures { OnOk result ((set : ℕ → Bool)
        → AreStatesAt log_parts.now.parts (entries lines.now) set from states.old
        → AreStatesAt log_parts.now.parts (entries lines.now) set to states.new) }
{
    for index in from..to {
        let entry = lines.entry(index);
        states.pass(log_parts.steps[index], &entry)?;
    }
    Ok(())
}

/// Whether as many of the open UIDs answer at an entry as it requires.
#[inline(always)]
fn is_met(parts: &Parts, open: &PartStates, step: Step, entry: &Entry) -> bool
    requires { IsStepBelow (part_count parts.now) step }
    ensures { (es : List EntryValue) (n i : ℕ) → IsEntryAt parts.now es i entry.now step
        → AreStatesAt parts.now es (is_open (slots_before es n)) i open.now
        → (result ≡ true) ↔ IsMetAt es n i }
{
    let need = needs(entry);
    need == 0 || need <= up_to_three(parts, &open.ready, step.span()).len()
}

/// Of all parts, in some states, those that are open before a position, by the ends of all.
fn open_before(
    alloc: Global,
    states: &PartStates,
    ends: &[u32],
    position: usize,
) -> Result<PartStates, AllocError>
    ensures { IfOk result (λ new. (bs : List ℕ) (es : List EntryValue) (i : ℕ)
        → AreEndsPast bs es position ends.now → AreStatesAt bs es (λ u. true) i states.now
        → AreStatesAt bs es (is_open (slots_before es position)) i new) }
{
    let mut open = PartStates::all_ready(alloc, Marks::none(alloc, ends.len())?);
    for part in 0..ends.len() {
        if is_open_before(position, ends[part]) {
            open.add(part, states.ready.has(part))?;
        }
    }
    Ok(open)
}

/// Whether a part with this end is open before a position.
fn is_open_before(position: usize, end: u32) -> bool
    ensures { result ≡ is_open_before position end }
{
    end == 0 || position < end as usize
}
