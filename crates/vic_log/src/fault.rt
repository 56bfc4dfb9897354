//! What is wrong with a log, its text, or a device.

ghost use Rattle.std.specs.Prelude.{◌≡◌, ◌≤◌, Some, length};
ghost use Rattle.vic_log.specs.declared.fault.PushFault.{PushFault};
ghost use Rattle.vic_log.specs.declared.fault.LogFault.{LogFault};
ghost use Rattle.vic_log.specs.Names.{line_fault_name};

use crate::source::DeviceFault;
use std::alloc::{AllocError, AllocFailed};
use std::fmt;
use vic_frame::FrameFault;

/// What is wrong with a line of a log's text. If a line has several faults, the first in this order
/// counts.
#[derive(Clone, Copy, Debug, PartialEq, Eq)]
pub enum LineFault {
    /// It is line `MAX_LINES + 1`.
    TooManyLines,
    /// It has more than `MAX_LINE_LEN` bytes, without its end.
    LineTooLong,
    /// It is line 1 and isn't a version's header, or the text is empty.
    Header,
    /// It isn't ignored, and is no entry of its version.
    UnknownEntry,
    /// What follows the space isn't an even number of hex digits.
    Hex,
    /// It is a `U` line without exactly eight bytes.
    ListedLength,
    /// It is a `T`, `R` or `H` line whose frame has this fault.
    Frame(FrameFault),
    /// It is a `U` line whose first byte isn't E0.
    NotVicinity,
    /// It is a slot line, and no slot of a round is left.
    SlotOutsideRound,
    /// It is a `T` or `F` line after a `U` line.
    EntryAfterList,
    /// It lists a UID that was listed before.
    DuplicateListed,
}

/// Why a log doesn't take one more line. If there are several reasons, the first in this order
/// counts.
#[derive(Clone, Copy, Debug, PartialEq, Eq)]
pub enum PushFault {
    /// The entry is a slot line, and no slot of a round is left.
    SlotOutsideRound,
    /// The entry is a request or a field cycle, and a UID is listed.
    EntryAfterList,
    /// The UID is listed.
    DuplicateListed,
    /// Memory for it was refused.
    Memory,
}

/// Why a text has no log.
#[derive(Clone, Copy, Debug, PartialEq, Eq)]
pub enum LogFault {
    /// The first line with a fault, numbered from 1, and the first of its faults.
    Line { line: u32, fault: LineFault },
    /// The text can't be read.
    Read,
    /// Memory for the log was refused.
    Memory,
    /// The reader was used before.
    Spent,
}

/// The sink failed, and accepted only a prefix of the text.
#[derive(Clone, Copy, Debug, PartialEq, Eq)]
pub struct WriteFault;

impl LineFault {
    /// Its name, of at most 16 bytes; a frame's fault has the same name as in the frame.
    pub fn name(&self) -> &'static str
        ensures name { result.now ≡ line_fault_name self.now }
        ensures short { length result.now ≤ 16 }
    {
        match self {
            LineFault::TooManyLines => "TooManyLines",
            LineFault::LineTooLong => "LineTooLong",
            LineFault::Header => "Header",
            LineFault::UnknownEntry => "UnknownEntry",
            LineFault::Hex => "Hex",
            LineFault::ListedLength => "ListedLength",
            LineFault::Frame(fault) => fault.name(),
            LineFault::NotVicinity => "NotVicinity",
            LineFault::SlotOutsideRound => "SlotOutsideRound",
            LineFault::EntryAfterList => "EntryAfterList",
            LineFault::DuplicateListed => "DuplicateListed",
        }
    }
}

impl fmt::Display for LineFault {
    ghost output = { λ e. Some (line_fault_name e) };

    fn fmt<W: fmt::Write>(&self, f: &mut fmt::Formatter<W>) -> fmt::Result {
        f.write_str(self.name())
    }
}

impl From<AllocError> for PushFault {
    ghost from_gives = { λ _ e. e ≡ PushFault.Memory };

    fn from(_: AllocError) -> PushFault {
        PushFault::Memory
    }
}

impl<T: Drop> From<AllocFailed<T>> for PushFault {
    ghost from_gives = { λ _ e. e ≡ PushFault.Memory };

    fn from(_: AllocFailed<T>) -> PushFault {
        PushFault::Memory
    }
}

impl From<DeviceFault> for LogFault {
    ghost from_gives = { λ _ e. e ≡ LogFault.Read };

    fn from(_: DeviceFault) -> LogFault {
        LogFault::Read
    }
}

impl From<DeviceFault> for WriteFault {
    fn from(_: DeviceFault) -> WriteFault {
        WriteFault
    }
}
