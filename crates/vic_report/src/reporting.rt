//! The report on a log.

ghost use Rattle.std.specs.Prelude.{◌≡◌, IfOk};
ghost use Rattle.vic_tree.specs.Ranges.{is_open_in};
ghost use Rattle.vic_log.specs.Order.{entries};
ghost use Rattle.vic_verdict.specs.Facts.{AreFactsOf};
ghost use Rattle.vic_report.specs.Reports.{IsReport, verdict_of};

use crate::conflict::{Conflict, find_conflict};
use crate::findings::{Findings, find_findings};
use std::alloc::{AllocError, Global};
use vic_log::Log;
use vic_tree::RangeSet;
use vic_verdict::{Facts, Verdict, count_listed, facts_of};

/// The report on a log (profile): its findings, or the conflict that makes it impossible.
#[derive(Drop)]
pub enum LogReport {
    /// No population could have produced the log: its first impossible line, and slot lines that no
    /// population fits.
    Impossible(Conflict),
    /// The log is possible, and its list isn't complete: at least one finding.
    NotWhole(Findings),
    /// The list is complete, and has `count` UIDs.
    Complete { count: u32 },
}

impl LogReport {
    /// The verdict that it begins with, which is the verdict of `judge` on the same log.
    pub fn verdict(&self) -> Verdict
        ensures { result ≡ verdict_of self.now }
    {
        match self {
            LogReport::Impossible(conflict) => Verdict::Impossible {
                line: conflict.line,
            },
            LogReport::NotWhole(findings) => findings.first(),
            LogReport::Complete { count } => Verdict::Complete { count: *count },
        }
    }
}

/// The report on a log.
pub fn report(alloc: Global, log: &Log) -> Result<LogReport, AllocError>
    ensures { IfOk result (IsReport log.now.lines) }
{
    match facts_of::<RangeSet>(alloc, log)? {
        Ok(facts) => report_of_facts(alloc, facts, log),
        Err(line) => Ok(LogReport::Impossible(find_conflict(alloc, log, line)?)),
    }
}

/// The report on a possible log, from its facts.
pub fn report_of_facts(
    alloc: Global,
    facts: Facts<RangeSet>,
    log: &Log,
) -> Result<LogReport, AllocError>
    requires { AreFactsOf (entries log.now.lines) (is_open_in facts.«open») facts.met
        facts.certain }
    ensures { IfOk result (IsReport log.now.lines) }
{
    let findings = find_findings(alloc, facts, log)?;
    if !findings.is_empty() {
        return Ok(LogReport::NotWhole(findings));
    }
    Ok(LogReport::Complete {
        count: count_listed(log),
    })
}
