//! What the object of a log tells of it, and the object of a text.

ghost use Rattle.std.specs.Prelude.{◌≡◌, ◌≤◌, IfOk};
ghost use Rattle.vic_frame.specs.Masks.{BitMask};
ghost use Rattle.vic_frame.specs.declared.uid.TheConstants.{UID_BITS};
ghost use Rattle.vic_verdict.specs.declared.judging.Verdict.TheVariants.{Unsettled};
ghost use Rattle.vic_report.proofs.AllFindings.{report_begins};
ghost use Rattle.vic_report.specs.Reports.{verdict_of};
ghost use Rattle.vic_object.specs.Object.{IsJsonOf};
ghost use Rattle.vic_object.specs.Told as spec;

use crate::cautious::cautious_readings;
use crate::finding::findings_told;
use crate::plain::{PlainReading, plain_reading};
use crate::text::push_object;
use crate::told::LogTold;
use std::alloc::{AllocError, Global};
use vic_answer::{HasVerdict, Judgement, WrittenText, answer_of, check_status, find_in_text};
use vic_frame::Uid;
use vic_log::Log;
use vic_verdict::Verdict;

impl HasVerdict for LogTold {
    ghost verdict_of = { λ t. verdict_of t.report };

    fn verdict_in(&self) -> Verdict {
        self.report.verdict()
    }
}

/// What the object of a log tells.
impl Judgement for LogTold {
    ghost IsOf = { spec.IsTold };

    fn found_in(alloc: Global, log: Log) -> Result<LogTold, AllocError> {
        told_of_log(alloc, log)
    }

    ghost tells = { λ lines t h. report_begins lines t.report h.report };
}

/// The object of the text of a log, and the status of `check`. The log is judged once, and once
/// more in each of its two cautious readings, unless its list is complete: then their margins say
/// what they tell. It fails only if memory is refused.
pub fn object_of(alloc: Global, text: &[u8]) -> Result<WrittenText, AllocError>
    ensures { IfOk result (λ w. IsJsonOf text.now w.text.items w.status) }
{
    let told = find_in_text::<LogTold>(alloc, text)?;
    let mut object = Vec::new(alloc);
    push_object(&mut object, text, &told)?;
    Ok(WrittenText {
        text: object,
        status: check_status(&answer_of(&told)),
    })
}

/// What a log tells.
fn told_of_log(alloc: Global, log: Log) -> Result<LogTold, AllocError>
    ensures { IfOk result (spec.IsTold log.lines) }
{
    let PlainReading {
        report,
        field,
        certain_keys,
        weakest,
        log_parts,
    } = plain_reading(alloc, &log)?;
    let verdict = report.verdict();
    let findings = findings_told(alloc, &log, &report)?;
    let (hidden, deaf) = cautious_readings(alloc, log, &verdict, &certain_keys, log_parts)?;
    Ok(LogTold {
        report,
        findings,
        weakest,
        hidden,
        deaf,
        field,
        unnoticed: unnoticed_of(&verdict),
    })
}

/// The least UID of an unsettled mask.
fn unnoticed_of(verdict: &Verdict) -> Option<Uid>
    requires { (m : BitMask) → verdict.now ≡ Unsettled m → m.len ≤ UID_BITS }
    ensures { result ≡ spec.unnoticed_of verdict.now }
{
    match *verdict {
        Verdict::Unsettled(mask) => Some(mask.least_uid()),
        Verdict::Complete { .. }
        | Verdict::Absent(_)
        | Verdict::Unlisted(_)
        | Verdict::Doubtful(_)
        | Verdict::Impossible { .. } => None,
    }
}
