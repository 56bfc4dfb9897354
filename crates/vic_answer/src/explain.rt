//! The command `explain`.

ghost use Rattle.std.specs.Prelude.{◌≡◌, ◌<◌, ◌++◌, option_copied};
ghost use Rattle.arrayvec.specs.ArrayVec.{array_vec_len};
ghost use Rattle.vic_log.specs.Writing.{listed_text};
ghost use Rattle.vic_verdict.specs.Explained.{IsExplanation};
ghost use Rattle.vic_answer.specs.ExplainText.{IsExplanationOf, explained_text, population_line, population_of, uids_of};
ghost use Rattle.vic_answer.specs.CompleteRun.{IsCompleteWhereWritten};
ghost use Rattle.vic_answer.specs.Runs.{LeavesSink, LeavesSource, RunsOver, RunsOverRevealed};

use crate::answered::{Answered, HasVerdict, Judgement, answer_of};
use crate::lines::check_text;
use crate::run::{LogCommand, run_judged};
use crate::status::{RunFault, Status};
use crate::text::{ANSWER_ROOM, ShortText, push_str};
use itoa::Buffer;
use std::alloc::{AllocError, Global};
use vic_frame::Uid;
use vic_log::{Log, Sink, Source, write_listed};
use vic_verdict::{Explanation, Verdict, explain};

impl HasVerdict for Explanation {
    ghost verdict_of = { λ e. e.verdict };

    fn verdict_in(&self) -> Verdict {
        self.verdict
    }
}

/// What `explain` finds.
impl Judgement for Explanation {
    ghost IsOf = { IsExplanation };

    fn found_in(alloc: Global, log: Log) -> Result<Explanation, AllocError> {
        explain(alloc, &log)
    }

    ghost tells = { λ lines e h. h.verdict };
}

/// What `explain` writes.
impl LogCommand for Explanation {
    ghost text_of = { explained_text };

    fn write<W: Sink>(answered: &Answered<Explanation>, sink: &mut W) -> Result<(), RunFault> {
        match write_listed(opening(answered).as_slice(), uids_of(answered), sink) {
            Ok(()) => Ok(()),
            Err(_) => Err(RunFault::Write),
        }
    }
}

/// The population of an answer, if it has one.
fn population_of(explained: &Answered<Explanation>) -> Option<&[Uid]>
    ensures { option_copied result ≡ population_of explained.now }
{
    match explained {
        Answered::Found(found) => found.population.as_ref().map(|uids| uids.as_slice()),
        Answered::RefusedAt { .. } => None,
    }
}

/// The UIDs of an answer's population, none if it has no population.
pub fn uids_of(explained: &Answered<Explanation>) -> &[Uid]
    ensures { result.now ≡ uids_of explained.now }
{
    population_of(explained).unwrap_or(&[])
}

/// Judges the log that is read from a source and writes the line of `check`; if a population can
/// show the verdict, also `population N` and its N UIDs, each on a line as a log lists it, in
/// rising order; and flushes. The status is that of `check`. It reads to the end or an early fault.
pub fn run_explain<R: Source, W: Sink>(
    alloc: Global,
    source: &mut R,
    sink: &mut W,
) -> Result<Status, RunFault>
    // over the bytes that the reads returned and the writes accepted
    ensures answer { RunsOver IsExplanationOf R.Source W.Sink
        source.old source.new sink.old sink.new result }
    // if it wrote `complete N`, the list of the log is complete and has N UIDs
    ensures complete { IsCompleteWhereWritten R.Source W.Sink
        source.old source.new sink.old sink.new result }
    // the same over the bytes that source and sink reveal
    ensures answer_revealed { RunsOverRevealed IsExplanationOf R.Source W.Sink
        source.old source.new sink.old sink.new result }
    ensures leaves_source { LeavesSource R.Source source.old source.new result }
    ensures leaves_sink { LeavesSink W.Sink sink.old sink.new result }
{
    run_judged::<Explanation, R, W>(alloc, source, sink)
}

/// The text up to the UIDs: the line of the answer and, if a population follows, that of its size.
fn opening(explained: &Answered<Explanation>) -> ShortText
    ensures { result.items ++ listed_text (uids_of explained.now) ≡ explained_text explained.now }
{
    let mut text = check_text(&answer_of(explained));
    if let Some(uids) = population_of(explained) {
        push_size(&mut text, uids.len());
    }
    text
}

/// Appends the line of a population's size.
fn push_size(text: &mut ShortText, count: usize)
    requires { array_vec_len text.old < ANSWER_ROOM }
    ensures { text.new.items ≡ text.old.items ++ population_line count }
{
    push_str(text, "population ");
    let mut buffer = Buffer::new();
    push_str(text, buffer.format(count));
    push_str(text, "\n");
}
