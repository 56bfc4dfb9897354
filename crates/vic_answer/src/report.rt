//! The command `report`.

ghost use Rattle.vic_report.proofs.AllFindings.{report_begins};
ghost use Rattle.vic_report.specs.Reports.{IsReport, verdict_of};
ghost use Rattle.vic_answer.specs.inner.Pieces.{Pushes};
ghost use Rattle.vic_answer.specs.CompleteRun.{IsCompleteWhereWritten};
ghost use Rattle.vic_answer.specs.ReportText.{IsReportOf, reported_text};
ghost use Rattle.vic_answer.specs.Runs.{LeavesSink, LeavesSource, RunsOver, RunsOverRevealed};

use crate::answered::{Answered, HasVerdict, Judgement};
use crate::lines::refusal_line;
use crate::output::write_and_flush;
use crate::pieces::{Piece, push_text};
use crate::report_lines::push_report;
use crate::run::{LogCommand, run_judged};
use crate::status::{RunFault, Status};
use arrayvec::ArrayVec;
use std::alloc::{AllocError, Global};
use vic_log::{Log, Sink, Source};
use vic_report::{LogReport, report};
use vic_verdict::Verdict;

impl HasVerdict for LogReport {
    ghost verdict_of = { verdict_of };

    fn verdict_in(&self) -> Verdict {
        self.verdict()
    }
}

/// What `report` finds.
impl Judgement for LogReport {
    ghost IsOf = { IsReport };

    fn found_in(alloc: Global, log: Log) -> Result<LogReport, AllocError> {
        report(alloc, &log)
    }

    ghost tells = { report_begins };
}

/// What `report` writes.
impl LogCommand for LogReport {
    ghost text_of = { reported_text };

    fn write<W: Sink>(answered: &Answered<LogReport>, sink: &mut W) -> Result<(), RunFault> {
        let mut piece = ArrayVec::new();
        push_reported(&mut piece, sink, answered)?;
        write_and_flush(sink, piece.as_slice())
    }
}

/// Judges the log that is read from a source, writes every finding with its lines, and flushes. The
/// first line and the status are those of `check`. It reads to the end or an early fault.
pub fn run_report<R: Source, W: Sink>(
    alloc: Global,
    source: &mut R,
    sink: &mut W,
) -> Result<Status, RunFault>
    // over the bytes that the reads returned and the writes accepted
    ensures answer { RunsOver IsReportOf R.Source W.Sink
        source.old source.new sink.old sink.new result }
    // if it wrote `complete N`, the list of the log is complete and has N UIDs
    ensures complete { IsCompleteWhereWritten R.Source W.Sink
        source.old source.new sink.old sink.new result }
    // the same over the bytes that source and sink reveal
    ensures answer_revealed { RunsOverRevealed IsReportOf R.Source W.Sink
        source.old source.new sink.old sink.new result }
    ensures leaves_source { LeavesSource R.Source source.old source.new result }
    ensures leaves_sink { LeavesSink W.Sink sink.old sink.new result }
{
    run_judged::<LogReport, R, W>(alloc, source, sink)
}

/// Adds the text of an answer.
fn push_reported<W: Sink>(
    piece: &mut Piece,
    sink: &mut W,
    reported: &Answered<LogReport>,
) -> Result<(), RunFault>
    ensures { Pushes W.Sink sink.old sink.new
        piece.old.items piece.new.items (reported_text reported.now) result }
{
    match reported {
        Answered::Found(report) => push_report(piece, sink, report),
        Answered::RefusedAt { line, fault } => push_text(piece, sink, &refusal_line(*line, fault)),
    }
}
