//! Uses of `vic_verdict`.

ghost use Rattle.std.specs.Prelude.{◌≡◌, ℕ, true, IfOk, IsTrue};
ghost use Rattle.vic_frame.specs.Uids.{has};
ghost use Rattle.vic_log.specs.Order.{entries, listed};
ghost use Rattle.vic_verdict.specs.Possible.{IsCertainUid, IsPossibleUid};

use std::alloc::{AllocError, Global};
use vic_log::Log;
use vic_verdict::{Verdict, judge};

/// Whether the list of a log is complete. If so, every tag on it was in the field, whatever tags
/// could have produced the log, and no other can have been.
pub fn is_complete(alloc: Global, log: &Log) -> Result<bool, AllocError>
    ensures listed_is_there { IfOk result (λ yes. IsTrue yes → (u : ℕ)
        → has (listed (entries log.now.lines)) u ≡ true
        → IsCertainUid (entries log.now.lines) u) }
    ensures no_other { IfOk result (λ yes. IsTrue yes → (u : ℕ)
        → IsPossibleUid (entries log.now.lines) u
        → has (listed (entries log.now.lines)) u ≡ true) }
{
    match judge(alloc, log)? {
        Verdict::Complete { .. } => Ok(true),
        _ => Ok(false),
    }
}
