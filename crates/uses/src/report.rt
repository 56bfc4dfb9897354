//! Uses of `vic_report`.

ghost use Rattle.std.specs.Prelude.{IfOk, IsTrue};
ghost use Rattle.vic_log.specs.Order.{entries};
ghost use Rattle.vic_verdict.specs.Verdict.{IsWhole};

use std::alloc::{AllocError, Global};
use vic_log::Log;
use vic_report::{LogReport, report};
use vic_verdict::laws::complete_is_whole;

/// Whether a report finds nothing. If so, the list is complete.
pub fn finds_nothing(alloc: Global, log: &Log) -> Result<bool, AllocError>
    ensures { IfOk result (λ yes. IsTrue yes → IsWhole (entries log.now.lines)) }
{
    complete_is_whole();
    match report(alloc, log)? {
        LogReport::Complete { .. } => Ok(true),
        _ => Ok(false),
    }
}
