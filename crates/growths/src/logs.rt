//! Logs: `push` and `read_log`.

use crate::found::{Found, both};
use arrayvec::ArrayVec;
use std::alloc::{AllocError, Global};
use vic_frame::Uid;
use vic_log::{Entry, Log, LogFault, MAX_LINES, PushFault, ToWrite, read_log, write_log};

/// Sixteen slots, two UIDs heard, and both listed.
pub const TWO_HEARD: &[u8] = b"vicinity-log 1
T 060100CD09
S
R 0000A1000000000104E06745
R 0000B2000000000104E0CF94
S
S
S
S
S
S
S
S
S
S
S
S
S
U E0040100000000A1
U E0040100000000B2
";

/// Lists a UID on the next line, and again if memory was refused and the log is unchanged.
fn list(log: &mut Log, uid: Uid) -> Found {
    let count = log.lines().len();
    let number = log.last_line() + 1;
    if number > MAX_LINES {
        return Found::Wrong;
    }
    match log.push(number, Entry::Listed(uid)) {
        Ok(()) => Found::Right,
        Err(PushFault::Memory) => {
            if log.lines().len() == count && log.push(number, Entry::Listed(uid)).is_ok() {
                Found::Memory
            } else {
                Found::Wrong
            }
        }
        Err(_) => Found::Wrong,
    }
}

/// Lists a UID, and then one below it.
pub fn push(alloc: Global) -> Found {
    let (Some(low), Some(high)) = (
        Uid::new(0xE004_0100_0000_00A1),
        Uid::new(0xE004_0100_0000_00B2),
    ) else {
        return Found::Wrong;
    };
    let mut log = Log::new(alloc);
    let first = list(&mut log, high);
    both(first, list(&mut log, low))
}

/// Whether a log's text is this one.
pub fn is_text(log: &Log, text: &[u8]) -> bool {
    let room: ArrayVec<u8, 1024> = ArrayVec::new();
    let mut sink = ToWrite::new(room);
    write_log(log, &mut sink).is_ok() && sink.into_inner().as_slice() == text
}

/// The log of a text; none if it has a fault.
pub fn log_of(alloc: Global, text: &[u8]) -> Result<Option<Log>, AllocError> {
    match read_log(alloc, text) {
        Ok(log) => Ok(Some(log)),
        Err(LogFault::Memory) => Err(AllocError),
        Err(LogFault::Line { .. }) | Err(LogFault::Read) | Err(LogFault::Spent) => Ok(None),
    }
}

/// Reads a complete log.
pub fn read_row(alloc: Global) -> Result<bool, AllocError> {
    match log_of(alloc, TWO_HEARD)? {
        Some(log) => Ok(is_text(&log, TWO_HEARD)),
        None => Ok(false),
    }
}
