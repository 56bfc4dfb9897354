//! The unread slots of a log, in which tags answered and none was read: which open UIDs answer
//! there.

ghost use Rattle.std.specs.Prelude.{◌≡◌, ◌+◌, ◌<◌, ◌≤◌, ℕ, Bool, Some, true, false, List, IfOk, OnOk, length, slice_get};
ghost use Rattle.vic_log.specs.declared.entry.Entry.{Entry as EntryValue};
ghost use Rattle.vic_log.specs.Order.{entries};
ghost use Rattle.vic_log.specs.Slots.{slots_of, is_open};
ghost use Rattle.vic_walk.specs.Answers.{AreAnswering, is_unread};
ghost use Rattle.vic_walk.specs.Borders.{part_count};
ghost use Rattle.vic_walk.specs.Listing.{IsListFrom};
ghost use Rattle.vic_walk.specs.Steps.{AreLogParts, IsStepBelow, IsEntryAt};
ghost use Rattle.vic_walk.specs.Walk.{AreStatesAt};

use crate::lines::LogLines;
use crate::log_parts::LogParts;
use crate::needs::needs;
use crate::part_states::PartStates;
use crate::parts::Parts;
use crate::steps::Step;
use crate::three::up_to_three;
use arrayvec::ArrayVec;
use std::alloc::{AllocError, Global};
use vic_frame::Uid;
use vic_log::Entry;

/// Open UIDs that answer in an unread slot: all of them if there are fewer than three, otherwise
/// three.
#[derive(Drop)]
pub struct Answering {
    /// The position of its line.
    pub at: usize,
    /// How many have to be there: 2 in a collision, 1 in a garbled slot.
    pub need: usize,
    /// Different ones, in no order.
    pub uids: ArrayVec<Uid, 3>,
}

/// Moves open parts past an entry; first notes which open UIDs answer there, if it is an unread
/// slot.
fn pass_and_note(
    open_parts: &mut PartStates,
    found: &mut Vec<Answering>,
    parts: &Parts,
    step: Step,
    at: usize,
    entry: &Entry,
) -> Result<(), AllocError>
    requires open { part_count parts.now ≡ length open_parts.old.ready }
    requires step { IsStepBelow (part_count parts.now) step }
    ensures room { length open_parts.new.ready ≡ length open_parts.old.ready }
    ensures states { OnOk result ((es : List EntryValue) (set : ℕ → Bool)
        → IsEntryAt parts.now es at entry.now step
        → AreStatesAt parts.now es set at open_parts.old
        → AreStatesAt parts.now es set (at + 1) open_parts.new) }
    ensures found { OnOk result ((es : List EntryValue)
        → IsEntryAt parts.now es at entry.now step
        → AreStatesAt parts.now es (is_open (slots_of es)) at open_parts.old
        → AreAnswering es at found.old.items → AreAnswering es (at + 1) found.new.items) }
{
    let need = needs(entry);
    if need > 0 {
        let uids = up_to_three(parts, &open_parts.ready, step.span());
        found.push(Answering { at, need, uids })?;
    }
    open_parts.pass(step, entry)?;
    Ok(())
}

/// The position after the last unread slot, 0 if there is none: from there on no slot is unread.
/// The list begins at `list`.
fn after_unread(lines: &LogLines, list: usize) -> usize
    requires within { list ≤ length lines.now }
    requires list { IsListFrom (entries lines.now) list }
    ensures within { result ≤ list }
    ensures read { (i : ℕ) → result ≤ i → is_unread (slice_get (entries lines.now) i) ≡ false }
{
    let mut after = list;
    while after > 0 {
        let entry = lines.entry(after - 1);
        if needs(&entry) > 0 {
            return after;
        }
        after -= 1;
    }
    0
}

/// For each unread slot of a log, in the order of the log, the open UIDs that answer there.
/// `open_parts` is what is known at the end of the log.
pub fn open_answers(
    alloc: Global,
    lines: &LogLines,
    log_parts: &LogParts,
    open_parts: PartStates,
) -> Result<Vec<Answering>, AllocError>
    requires parts { AreLogParts (entries lines.now) log_parts.now }
    requires open { AreStatesAt log_parts.now.parts (entries lines.now)
        (is_open (slots_of (entries lines.now))) (length (entries lines.now)) open_parts }
    ensures { IfOk result (λ found.
        AreAnswering (entries lines.now) (length (entries lines.now)) found.items) }
{
    let mut open = open_parts;
    // before the first entry no part is Quiet
    open.wake();
    let mut found = Vec::new(alloc);
    for index in 0..after_unread(lines, log_parts.steps.len()) {
        let entry = lines.entry(index);
        pass_and_note(
            &mut open,
            &mut found,
            &log_parts.parts,
            log_parts.steps[index],
            index,
            &entry,
        )?;
    }
    Ok(found)
}
