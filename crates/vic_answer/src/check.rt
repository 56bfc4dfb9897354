//! The command `check`.

ghost use Rattle.std.specs.Prelude.{◌≡◌, ℕ, IfOk};
ghost use Rattle.vic_verdict.specs.Verdict.{IsVerdict};
ghost use Rattle.vic_verdict.specs.declared.judging.Verdict.TheVariants.{Complete};
ghost use Rattle.vic_answer.specs.Answered.{IsAnswered};
ghost use Rattle.vic_answer.specs.CheckText.{IsCheckOf, HasCompleteList, check_text};
ghost use Rattle.vic_answer.specs.CompleteRun.{IsCompleteWhereRevealed, IsCompleteWhereWritten};
ghost use Rattle.vic_answer.specs.Runs.{LeavesSink, LeavesSource, RunsOver, RunsOverRevealed};
ghost use Rattle.vic_answer.specs.declared.answered.Answered.TheVariants.{Found};

use crate::answered::{Answer, HasVerdict, Judgement, find_in_text};
use crate::lines::check_text;
use crate::output::write_and_flush;
use crate::run::{LogCommand, run_judged};
use crate::status::{RunFault, Status};
use std::alloc::{AllocError, Global};
use vic_log::{Log, Sink, Source};
use vic_verdict::{Verdict, judge};

/// The answer to a text in memory. It fails only if memory is refused.
pub fn judge_text(alloc: Global, text: &[u8]) -> Result<Answer, AllocError>
    ensures answer { IfOk result (IsAnswered IsVerdict text.now) }
    // if it is `complete`, the list of the log is complete and has `count` UIDs
    ensures whole { IfOk result (λ a. (count : ℕ) → a ≡ Found (Complete count)
        → HasCompleteList text.now count) }
{
    find_in_text(alloc, text)
}

impl HasVerdict for Verdict {
    ghost verdict_of = { λ v. v };

    fn verdict_in(&self) -> Verdict {
        *self
    }
}

/// What `check` finds.
impl Judgement for Verdict {
    ghost IsOf = { IsVerdict };

    fn found_in(alloc: Global, log: Log) -> Result<Verdict, AllocError> {
        judge(alloc, &log)
    }

    ghost tells = { λ lines v h. h };
}

/// What `check` writes.
impl LogCommand for Verdict {
    ghost text_of = { check_text };

    fn write<W: Sink>(answered: &Answer, sink: &mut W) -> Result<(), RunFault> {
        write_and_flush(sink, check_text(answered).as_slice())
    }
}

/// Judges the log that is read from a source, writes the one line of the answer and flushes it. The
/// status is that of the answer. It reads to the end or an early fault.
pub fn run_check<R: Source, W: Sink>(
    alloc: Global,
    source: &mut R,
    sink: &mut W,
) -> Result<Status, RunFault>
    // over the bytes that the reads returned and the writes accepted
    ensures answer { RunsOver IsCheckOf R.Source W.Sink
        source.old source.new sink.old sink.new result }
    // if it wrote `complete N`, the list of the log is complete and has N UIDs
    ensures complete { IsCompleteWhereWritten R.Source W.Sink
        source.old source.new sink.old sink.new result }
    // the same over the bytes that source and sink reveal
    ensures answer_revealed { RunsOverRevealed IsCheckOf R.Source W.Sink
        source.old source.new sink.old sink.new result }
    ensures complete_revealed { IsCompleteWhereRevealed R.Source W.Sink
        source.old source.new sink.old sink.new result }
    ensures leaves_source { LeavesSource R.Source source.old source.new result }
    ensures leaves_sink { LeavesSink W.Sink sink.old sink.new result }
{
    run_judged::<Verdict, R, W>(alloc, source, sink)
}
