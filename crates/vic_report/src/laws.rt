//! Laws about the definitions. The functions do nothing: each stands for what its clauses say.

ghost use Rattle.std.specs.Prelude.{◌≡◌, ℕ, List, ◌++◌};
ghost use Rattle.vic_log.specs.Order.{entries};
ghost use Rattle.vic_log.specs.declared.entry.LogLine.{LogLine};
ghost use Rattle.vic_verdict.specs.Possible.{IsPossible};
ghost use Rattle.vic_verdict.specs.Verdict.{IsVerdict};
ghost use Rattle.vic_verdict.specs.declared.judging.Verdict.TheVariants.{Complete};
ghost use Rattle.vic_report.specs.Conflicts.{IsConflictAt};
ghost use Rattle.vic_report.specs.Reports.{IsReport, verdict_of};
ghost use Rattle.vic_report.specs.declared.reporting.LogReport.{LogReport};
ghost use Rattle.vic_report.specs.declared.reporting.LogReport.TheVariants as reported;

/// A report begins with the verdict; if that is `Complete`, the report is too.
pub fn first_finding_is_the_verdict()
    ensures first { (lines : List LogLine) (r : LogReport) → IsReport lines r
        → IsVerdict lines (verdict_of r) }
    ensures complete { (lines : List LogLine) (r : LogReport) (count : ℕ) → IsReport lines r
        → verdict_of r ≡ Complete count → r ≡ reported.Complete count }
{}

/// A log with lines that no population fits is impossible, whatever follows them.
pub fn conflict_stays()
    ensures { (lines more : List LogLine) (n : ℕ) (numbers : List ℕ)
        → IsConflictAt lines n numbers → IsPossible (entries (lines ++ more)) → ⊥ }
{}
