//! The log of a session with the tags that a log lists.

ghost use Rattle.std.specs.Prelude.{◌≡◌, ◌<◌, ◌≤◌, [], ◌∷◌, Some, None, IfOk, IfErr, OnOk, MatchOption, nat_le};
ghost use Rattle.vic_field.specs.Simulation.{IsSimulation, HasNoSlots, IsFirstSlot, RefusesLines, last_needed};
ghost use Rattle.vic_field.specs.inner.Steps.{FitsNext, IsAfter, slot_line, slot_lines, with_entries};
ghost use Rattle.vic_field.specs.Tags.{uids};
ghost use Rattle.vic_frame.specs.Slots.{slot_count};
ghost use Rattle.vic_log.specs.declared.entry.Entry.{Entry};
ghost use Rattle.vic_log.specs.Populations.{IsPopulation};
ghost use Rattle.vic_log.specs.Rounds.{slots_opened};

use crate::field::Field;
use crate::outcome::Outcome;
use crate::populate::populate;
use std::alloc::{AllocError, Global};
use vic_frame::{Request, Response};
use vic_log::{Entry, Log, MAX_LINES, PackedLine, PushFault};

/// Why a log isn't simulated.
#[derive(Clone, Copy, Debug, PartialEq, Eq)]
pub enum SimFault {
    /// The log has a slot line already: the number of the first one.
    OutcomeGiven(u32),
    /// A line number above 1,000,000 would be needed.
    TooManyLines,
    /// Memory for the tags or the lines was refused.
    Memory,
}

impl From<AllocError> for SimFault {
    ghost use Rattle.vic_field.specs.declared.session.SimFault.{SimFault};

    ghost from_gives = { λ _ e. e ≡ SimFault.Memory };

    fn from(_: AllocError) -> SimFault {
        SimFault::Memory
    }
}

/// The log of the session in which the tags that a log lists answer its requests: its entries,
/// and after each Inventory request a line for each of its 1 or 16 slots, on the lines 2, 3, 4
/// and so on. A reply has flags 00 and DSFID 00.
///
/// Refused if the log has a slot line already, which is checked first, or if the lines don't fit
/// into a log, which is checked next. Memory is allocated after that.
pub fn simulate(alloc: Global, log: &Log) -> Result<Log, SimFault>
    ensures simulated { IfOk result (λ filled. IsSimulation log.now.lines filled.lines) }
    ensures version { IfOk result (λ filled. filled.version ≡ log.now.version) }
    ensures no_slots { OnOk result (HasNoSlots log.now.lines) }
    ensures room { OnOk result (last_needed log.now.lines ≤ MAX_LINES) }
    ensures refused { IfErr result (RefusesLines log.now.lines) }
{
    let lines = log.lines();
    if let Some(number) = first_slot(lines) {
        return Err(SimFault::OutcomeGiven(number));
    }
    if !fit_filled(lines) {
        return Err(SimFault::TooManyLines);
    }
    let mut field = populate(alloc, lines)?;
    let mut filled = Log::with_version(alloc, log.version());
    for line in lines {
        play_entry(&mut filled, &mut field, &line.item())?;
    }
    Ok(filled)
}

/// The number of the first slot line.
fn first_slot(lines: &[PackedLine]) -> Option<u32>
    ensures { MatchOption result (HasNoSlots lines.now) (IsFirstSlot lines.now) }
{
    for line in lines {
        if line.item().is_slot() {
            return Some(line.number());
        }
    }
    None
}

/// Whether the lines, with all their slots, fit into a log.
fn fit_filled(lines: &[PackedLine]) -> bool
    ensures { result ≡ nat_le (last_needed lines.now) MAX_LINES }
{
    let mut last = 1;
    for line in lines {
        last += 1 + slots_opened(&line.item());
        if last > MAX_LINES {
            return false;
        }
    }
    true
}

/// How many slots an entry opens.
fn slots_opened(item: &Entry) -> u32
    ensures value { result ≡ slots_opened (Some item.now) }
    ensures few { result ≤ 16 }
{
    match *item {
        Entry::Sent(request) => u32::from(request.slots()),
        Entry::Silent
        | Entry::Collision
        | Entry::Heard(_)
        | Entry::Listed(_)
        | Entry::Garbled
        | Entry::FieldCycle
        | Entry::Captured(_)
        | Entry::Unknown => 0,
    }
}

/// Adds an entry, and a line for each slot that it opens, according to what the tags answer.
fn play_entry(filled: &mut Log, field: &mut Field, item: &Entry) -> Result<(), SimFault>
    requires { FitsNext filled.old item.now }
    ensures added { OnOk result
        (filled.new ≡ with_entries filled.old (item.now ∷ slot_lines field.new item.now)) }
    ensures tags { OnOk result (IsAfter item.now field.old field.new) }
    ensures population { OnOk result
        (0 < slots_opened (Some item.now) → IsPopulation (uids field.new)) }
    ensures memory { IfErr result (λ e. e ≡ SimFault.Memory) }
{
    match *item {
        Entry::Sent(request) => {
            field.send(&request);
            push_round(filled, field, &request)
        }
        Entry::FieldCycle => {
            field.power_cycle();
            push_next(filled, *item)
        }
        Entry::Listed(_)
        | Entry::Silent
        | Entry::Collision
        | Entry::Heard(_)
        | Entry::Garbled
        | Entry::Captured(_)
        | Entry::Unknown => push_next(filled, *item),
    }
}

/// Adds a request that the tags have received, and a line for each of its slots.
fn push_round(filled: &mut Log, field: &Field, request: &Request) -> Result<(), SimFault>
    requires { FitsNext filled.old (Entry.Sent request.now) }
    ensures added { OnOk result (filled.new ≡ with_entries filled.old
        (Entry.Sent request.now ∷ slot_lines field.now (Entry.Sent request.now))) }
    ensures population { OnOk result
        (0 < slot_count request.now → IsPopulation (uids field.now)) }
    ensures memory { IfErr result (λ e. e ≡ SimFault.Memory) }
{
    push_next(filled, Entry::Sent(*request))?;
    for k in 0..request.slots() {
        let Some(mask) = request.slot_mask(k) else {
            unreachable!()
        };
        push_next(filled, slot_line(field.answer(&mask)))?;
    }
    Ok(())
}

/// The slot line of what is heard.
fn slot_line(outcome: Outcome) -> Entry
    ensures { result ≡ slot_line outcome }
{
    match outcome {
        Outcome::Silent => Entry::Silent,
        Outcome::Lone(uid) => {
            let Some(reply) = Response::new(0, 0, uid) else {
                unreachable!()
            };
            Entry::Heard(reply)
        }
        Outcome::Several => Entry::Collision,
    }
}

/// Adds an entry on the next line.
fn push_next(filled: &mut Log, item: Entry) -> Result<(), SimFault>
    requires { FitsNext filled.old item }
    ensures added { OnOk result (filled.new ≡ with_entries filled.old (item ∷ [])) }
    ensures memory { IfErr result (λ e. e ≡ SimFault.Memory) }
{
    match filled.push(filled.last_line() + 1, item) {
        Ok(()) => Ok(()),
        Err(PushFault::Memory) => Err(SimFault::Memory),
        Err(_) => unreachable!(),
    }
}
