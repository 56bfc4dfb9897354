//! The first lines of a text, and one more.

ghost use Rattle.std.specs.Prelude.{◌≡◌, ◌+◌, ◌<◌, ◌≤◌, List, [], ◌∷◌, Some, None, MatchResult, OnOk, if◌then◌else◌};
ghost use Rattle.vic_log.specs.declared.entry.TheConstants.{MAX_LINES};
ghost use Rattle.vic_log.specs.declared.entry.Entry.{Entry as EntryValue};
ghost use Rattle.vic_log.specs.Log.{RefusesOr, last_from};
ghost use Rattle.vic_log.specs.Order.{refusal};
ghost use Rattle.vic_log.specs.Text.{order_fault, is_header, named_version};
ghost use Rattle.vic_log.specs.inner.Text.{RefusesLine, RefusesNext, next_fault, after_line};

use crate::entry::{MAX_LINE_LEN, MAX_LINES, Version};
use crate::fault::{LineFault, LogFault, PushFault};
use crate::line::line_entry_of;
use crate::log::Log;

/// The log of the first lines of a text.
#[derive(Drop)]
pub(crate) struct ReadLines {
    /// Their log.
    pub(crate) log: Log,
    /// How many they are.
    pub(crate) number: u32,
    ghost begin: { number ≡ 0 → log.lines ≡ [] },
    ghost above: { 0 < number → last_from 1 log.lines ≤ number },
    ghost limit: { number ≤ MAX_LINES },
}

/// The version that the first line of a text names; `None` if it isn't a header.
fn version_named(line: &[u8]) -> Option<Version>
    ensures { result
        ≡ (if is_header line.now then Some (named_version (Some line.now)) else None) }
{
    if line == b"vicinity-log 1".as_slice() {
        Some(Version::V1)
    } else if line == b"vicinity-log 2".as_slice() {
        Some(Version::V2)
    } else if line == b"vicinity-log 3".as_slice() {
        Some(Version::V3)
    } else {
        None
    }
}

/// The fault of the line with this number, whose entry the log didn't take.
fn refused(number: u32, fault: PushFault) -> LogFault
    ensures { (es : List EntryValue) (e : EntryValue) → RefusesOr (refusal es e) fault
        → RefusesLine (order_fault es e) (record { number = number; item = e } ∷ []) number result }
{
    let fault = match fault {
        PushFault::SlotOutsideRound => LineFault::SlotOutsideRound,
        PushFault::EntryAfterList => LineFault::EntryAfterList,
        PushFault::DuplicateListed => LineFault::DuplicateListed,
        PushFault::Memory => return LogFault::Memory,
    };
    LogFault::Line {
        line: number,
        fault,
    }
}

/// Reads one line after those that were read.
#[inline(always)]
pub(crate) fn take_line(read: &mut ReadLines, line: &[u8]) -> Result<(), LogFault>
    ensures answer { MatchResult result
        (λ _. next_fault read.old.log (read.old.number + 1) line.now ≡ None)
        (RefusesNext read.old.log (read.old.number + 1) line.now) }
    ensures log { OnOk result
        (read.new.log ≡ after_line read.old.log (read.old.number + 1) line.now) }
    ensures number { OnOk result (read.new.number ≡ read.old.number + 1) }
{
    let number = read.number + 1;
    let fault = if number > MAX_LINES {
        LineFault::TooManyLines
    } else if line.len() > MAX_LINE_LEN {
        LineFault::LineTooLong
    } else if number == 1 {
        if let Some(version) = version_named(line) {
            read.log.begin(version);
            read.number = number;
            return Ok(());
        }
        LineFault::Header
    } else {
        match line_entry_of(read.log.version(), line) {
            Ok(Some(entry)) => match read.log.push(number, entry) {
                Ok(()) => {
                    read.number = number;
                    return Ok(());
                }
                Err(fault) => return Err(refused(number, fault)),
            },
            Ok(None) => {
                read.number = number;
                return Ok(());
            }
            Err(fault) => fault,
        }
    };
    Err(LogFault::Line {
        line: number,
        fault,
    })
}
