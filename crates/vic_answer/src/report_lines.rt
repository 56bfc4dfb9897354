//! How the lines of a report are written.

ghost use Rattle.std.specs.Prelude.{◌≡◌, ◌<◌, ◌++◌};
ghost use Rattle.std.specs.List.{flat_map};
ghost use Rattle.arrayvec.specs.ArrayVec.{array_vec_len};
ghost use Rattle.vic_answer.specs.Findings.{report_findings};
ghost use Rattle.vic_answer.specs.inner.Pieces.{Pushes};
ghost use Rattle.vic_answer.specs.ReportText as spec;

use crate::findings::{Finding, findings_in};
use crate::lines::verdict_line;
use crate::pieces::{Piece, push_text};
use crate::status::RunFault;
use crate::text::{ANSWER_ROOM, ShortText, push_decimal, push_mask, push_str};
use arrayvec::ArrayVec;
use vic_log::Sink;
use vic_report::LogReport;
use vic_verdict::Verdict;

/// Adds the lines of a report.
pub(crate) fn push_report<W: Sink>(
    piece: &mut Piece,
    sink: &mut W,
    report: &LogReport,
) -> Result<(), RunFault>
    ensures { Pushes W.Sink sink.old sink.new
        piece.old.items piece.new.items (spec.report_text report.now) result }
{
    push_text(piece, sink, &heading(report))?;
    push_findings(piece, sink, report)
}

/// What stands before the findings: the verdict, unless it is the first of them.
fn heading(report: &LogReport) -> ShortText
    ensures { result.items ≡ spec.heading report.now }
{
    match report {
        LogReport::Impossible(conflict) => {
            let line = conflict.line;
            verdict_line(&Verdict::Impossible { line })
        }
        LogReport::NotWhole(_) => ArrayVec::new(),
        LogReport::Complete { count } => verdict_line(&Verdict::Complete { count: *count }),
    }
}

/// Adds the findings of a report, in their order.
fn push_findings<W: Sink>(
    piece: &mut Piece,
    sink: &mut W,
    report: &LogReport,
) -> Result<(), RunFault>
    ensures { Pushes W.Sink sink.old sink.new
        piece.old.items piece.new.items
        (flat_map spec.finding_text (report_findings report.now)) result }
{
    for finding in findings_in(report) {
        push_text(piece, sink, &finding_text(&finding))?;
    }
    Ok(())
}

/// The lines of a finding.
fn finding_text(finding: &Finding) -> ShortText
    ensures { result.items ≡ spec.finding_text finding.now }
{
    let mut text = ArrayVec::new();
    match *finding {
        Finding::Absent(shown) => {
            text = verdict_line(&Verdict::Absent(shown.uid));
            push_by_line(&mut text, shown.line);
        }
        Finding::Unlisted(shown) => {
            text = verdict_line(&Verdict::Unlisted(shown.uid));
            push_by_line(&mut text, shown.line);
        }
        Finding::Unsettled(mask) => text = verdict_line(&Verdict::Unsettled(mask)),
        Finding::Doubtful(uid) => text = verdict_line(&Verdict::Doubtful(uid)),
        Finding::OpenMask(mask) => {
            push_str(&mut text, "open ");
            push_mask(&mut text, &mask);
            push_str(&mut text, "\n");
        }
        Finding::MoreOpenMasks => push_str(&mut text, "more open\n"),
        Finding::ConflictLine(line) => push_by_line(&mut text, line),
        Finding::SilencedBy(line) => {
            push_str(&mut text, "silenced ");
            push_by_line(&mut text, line);
        }
    }
    text
}

/// Appends the line that names a line of the log.
fn push_by_line(text: &mut ShortText, line: u32)
    requires { array_vec_len text.old < ANSWER_ROOM }
    ensures { text.new.items ≡ text.old.items ++ spec.by_line line }
{
    push_str(text, "by line ");
    push_decimal(text, line);
    push_str(text, "\n");
}
