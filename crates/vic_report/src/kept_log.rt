//! A log that keeps some slot lines of another, each with the mask that it has there, and with the
//! same tags Quiet. If this log is impossible, these slot lines are a conflict.

ghost use Rattle.std.specs.Prelude.{◌≡◌, ℕ, ◌+◌, ◌*◌, ◌<◌, ◌≤◌, ◌++◌, ◌∷◌, [], List, Some, IfOk, OnOk, false, true, length, slice_get};
ghost use Rattle.vic_log.specs.declared.entry.Entry.{Entry as EntryValue};
ghost use Rattle.vic_log.specs.Log.{IsValidEntry};
ghost use Rattle.vic_log.specs.Order.{entries, is_outside_round, listed};
ghost use Rattle.vic_log.specs.Populations.{CouldHaveGiven};
ghost use Rattle.vic_log.specs.Rounds.{is_slot, mask_at};
ghost use Rattle.vic_report.specs.Conflicts.{FitsLines};
ghost use Rattle.vic_report.specs.inner.KeptLogs.{KeepsLine, with_slot};

use crate::line_numbers::LineNumbers;
use std::alloc::{AllocError, Global};
use std::marker::Model;
use vic_frame::{Mask, Request};
use vic_log::{Entry, Log, MAX_LINES, PackedLine, RoundCursor};
use vic_walk::LogLines;

/// The link of all requests of a kept log: it doesn't change which tags answer.
const LINK: u8 = 2;

/// Entries of a log that lists nothing, on lines that are numbered from 1. Each slot line has a
/// request of its own that asks for its mask, so there may be up to twice as many lines as a text
/// can have, and their numbers fit 32 bits.
#[derive(Drop)]
pub(crate) struct KeptLog {
    lines: Vec<PackedLine>,
}

impl Model for KeptLog {
    ghost use Rattle.std.specs.Prelude.{List};
    ghost use Rattle.vic_log.specs.declared.entry.Entry.{Entry as EntryValue};
    ghost use Rattle.vic_log.specs.Order.{entries};
    ghost use Rattle.vic_report.specs.inner.KeptLogs.{IsKeptLog};

    ghost Value = { List EntryValue };

    ghost view = { λ k. entries k.lines.items };

    ghost invariant = { λ k. IsKeptLog k.lines.items };
}

impl KeptLog {
    /// The log that keeps the slot lines with these numbers, and up to the last of them every Stay
    /// Quiet and every field cycle.
    pub(crate) fn of(alloc: Global, log: &Log, numbers: &LineNumbers) -> Result<KeptLog, AllocError>
        ensures { IfOk result (λ kept. (p : List ℕ)
            → FitsLines log.now.lines numbers.now p → CouldHaveGiven p kept) }
    {
        let lines = log.lines();
        let mut kept = KeptLog {
            lines: Vec::new(alloc),
        };
        let mut cursor = RoundCursor::first();
        for line in lines {
            let number = line.number();
            // nothing is kept after the last number; nothing at all if `numbers` is empty
            if numbers.last() < Some(number) {
                break;
            }
            let entry = line.item();
            let mask = cursor.mask();
            let is_kept = numbers.has(number);
            kept.pass(mask, &entry, is_kept)?;
            cursor.advance(&entry);
        }
        Ok(kept)
    }

    /// The entries with their numbers.
    pub(crate) fn lines(&self) -> LogLines<'_>
        ensures { entries result ≡ self.now }
    {
        LogLines::new(&self.lines)
    }

    /// Takes over an entry of the other log: a Stay Quiet or field cycle, or a slot line to be
    /// kept, behind a request of its own; nothing else.
    fn pass(&mut self, mask: Option<Mask>, entry: &Entry, is_kept: bool) -> Result<(), AllocError>
        requires { length self.old < 2 * MAX_LINES }
        ensures limit { OnOk result (length self.new ≤ length self.old + 2) }
        ensures kept { OnOk result ((es : List EntryValue) (i : ℕ)
            → slice_get es i ≡ Some entry.now → mask ≡ mask_at es i
            → KeepsLine es i is_kept entry.now self.old self.new) }
    {
        match *entry {
            Entry::Sent(request) => match request {
                Request::StayQuiet { uid, .. } => {
                    self.push(Entry::Sent(Request::StayQuiet { link: LINK, uid }))
                }
                Request::Inventory { .. } => Ok(()),
            },
            Entry::FieldCycle => self.push(Entry::FieldCycle),
            Entry::Listed(_) => Ok(()),
            Entry::Silent
            | Entry::Collision
            | Entry::Heard(_)
            | Entry::Garbled
            | Entry::Captured(_)
            | Entry::Unknown => match mask {
                Some(mask) if is_kept => self.push_slot(mask, *entry),
                // not to be kept; or no slot of a round, which no log has
                _ => Ok(()),
            },
        }
    }

    /// Adds a slot line after a request of one slot with its mask.
    fn push_slot(&mut self, mask: Mask, slot: Entry) -> Result<(), AllocError>
        requires limit { length self.old < 2 * MAX_LINES }
        requires slot { is_slot slot ≡ true }
        ensures { OnOk result (self.new ≡ with_slot self.old mask slot) }
    {
        self.push(Entry::Sent(Request::Inventory {
            link: LINK,
            sixteen: false,
            mask,
        }))?;
        self.push(slot)
    }

    /// Adds an entry that may follow the others, on a line with the next number.
    fn push(&mut self, entry: Entry) -> Result<(), AllocError>
        requires limit { length self.old ≤ 2 * MAX_LINES }
        requires valid { IsValidEntry entry }
        requires unlisted { listed (entry ∷ []) ≡ [] }
        requires in_round { is_outside_round self.old entry ≡ false }
        ensures { OnOk result (self.new ≡ self.old ++ entry ∷ []) }
    {
        let number = self.lines.len() as u32 + 1;
        self.lines.push(PackedLine::new(number, entry))?;
        Ok(())
    }
}
