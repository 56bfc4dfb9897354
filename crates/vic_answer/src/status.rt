//! How a run ends.

ghost use Rattle.std.specs.Prelude.{◌≡◌};
ghost use Rattle.vic_answer.specs.Status.{status_code, fault_text};

use std::alloc::AllocError;

/// How a run that answered ended.
#[derive(Clone, Copy, Debug, PartialEq, Eq)]
pub enum Status {
    /// The list is complete, or the requested text was written.
    Whole,
    /// The list isn't known to be complete.
    NotWhole,
    /// No population could have produced the log.
    Impossible,
    /// The text, the frame or the words were refused.
    Refused,
}

/// Why a run ended without a status. Unless it is `Write`, nothing was written.
#[derive(Clone, Copy, Debug, Drop, PartialEq, Eq)]
pub enum RunFault {
    /// The source failed. One that had failed before isn't read.
    Read,
    /// The sink failed: a prefix of the text may have been written.
    Write,
    /// Memory was refused.
    Memory,
}

impl From<AllocError> for RunFault {
    ghost use Rattle.vic_answer.specs.declared.status.RunFault.{RunFault};

    ghost from_gives = { λ _ r. r ≡ RunFault.Memory };

    fn from(_: AllocError) -> RunFault {
        RunFault::Memory
    }
}

impl Status {
    /// The exit status, 0 to 3.
    pub fn code(&self) -> u8
        ensures { result ≡ status_code self.now }
    {
        match self {
            Status::Whole => 0,
            Status::NotWhole => 1,
            Status::Impossible => 2,
            Status::Refused => 3,
        }
    }
}

/// What standard error says about a fault, without the LF.
pub fn fault_text(fault: &RunFault) -> &'static str
    ensures { result.now ≡ fault_text fault.now }
{
    match fault {
        RunFault::Read => "vicinity: read failed",
        RunFault::Write => "vicinity: write failed",
        RunFault::Memory => "vicinity: out of memory",
    }
}
